//! Tests: reports that were worked out by hand, with each form of a line.

ghost use Rattle.std.specs.Prelude.{◌≡◌};

use crate::fixtures::{are_readable, script_in};
use arc_model::ObjectName;
use arc_ops::ThreadLines;
use arc_report::{report_text, summary_text};
use arc_rule::Layout;
use arc_script::{Answer, Line};
use sqlite_items::Items;
use std::test::Fail;

fn of_class(class: u32, thread: u32, number: u32) -> ObjectName
    ensures { result.class ≡ class }
{
    ObjectName {
        class,
        thread,
        number,
    }
}

fn node(thread: u32, number: u32) -> ObjectName
    ensures { result.class ≡ 0 }
{
    of_class(0, thread, number)
}

fn line(operation: u32, answer: Answer) -> Line
    ensures { result.answer ≡ answer }
{
    Line { operation, answer }
}

/// Each form of a line; the lines of two threads; and what is left in four slots and three entries: numbers are ordered as numbers, and
/// the thread comes first.
#[test]
fn every_line_and_what_is_left(rt: HostRuntime) -> Result<(), Fail> {
    let alloc = rt.alloc();
    let script = script_in(
        alloc,
        "arc 1\nslots 4\nentries 3\nclass Node\nthread 1\ndone\n",
    )?;
    let mut words = [0u64; 59];
    words[1] = 0x0000_0004_0000_0002;
    words[2] = 256 * 2 + 65_536;
    words[12] = 0x8000_0000_0000_0001;
    words[13] = 256 + 65_536 * 2;
    words[23] = 0x0000_0001_0000_0002;
    words[24] = 256 + 65_536 * 10;
    words[34] = 0x8000_0000_0000_0002;
    words[35] = 256 + 65_536 * 3;
    words[45] = 1;
    words[48] = 7;
    words[49] = 2;
    words[50] = 2;
    words[51] = 1;
    words[52] = 3;
    words[53] = 4;
    words[55] = 1;
    words[56] = 1;
    words[57] = 0b1111;
    words[58] = 0b111;
    assert!(rt; script.classes.as_slice().len() == 1);
    assert!(rt; are_readable(&Layout::of(&script.shape), &words, 1));
    let first = [
        line(1, Answer::New(node(1, 1))),
        line(2, Answer::Full),
        line(3, Answer::Got(node(16, 99_999))),
        line(4, Answer::Ok),
        line(5, Answer::Nil),
    ];
    let second = [
        line(6, Answer::Dead),
        line(7, Answer::NoEntry),
        line(8, Answer::CountFull),
        line(0, Answer::Deinit(node(2, 1))),
    ];
    let threads = [
        ThreadLines {
            thread: 1,
            lines: Items::from_slice(alloc, &first)?,
        },
        ThreadLines {
            thread: 2,
            lines: Items::from_slice(alloc, &second)?,
        },
    ];
    let end = [line(0, Answer::Deinit(node(1, 1)))];
    let report = report_text(alloc, &script, &threads, &end, &words)?;
    let want =
        b"report 1\nthread 1\n1 new Node#1.1\n2 full\n3 got Node#16.99999\n4 ok\n5 nil\nthread 2\n6 dead\n7 noentry\n8 countfull\nend deinit Node#2.1\nend\ndeinit Node#1.1\nleak Node#1.2 live 8000000000000001 side 2 1 3\nleak Node#1.3 deinited 8000000000000002 side 0 1 1\nleak Node#1.10 deinited 0000000100000002\nleak Node#2.1 live 0000000400000002\nfreed 0 7\nobjects 1 deinits 2 leaks 5\n";
    assert_eq!(rt; report.as_slice(), want.as_slice());
    Ok(())
}

/// An object of an immortal class is left, and is no leak; a live one of another class is.
#[test]
fn immortal_object_and_a_leak(rt: HostRuntime) -> Result<(), Fail> {
    let alloc = rt.alloc();
    let script = script_in(
        alloc,
        "arc 2\nslots 2\nentries 1\nimmortal Root kid:strong:Node\nclass Node\nthread 1\ndone\n",
    )?;
    let mut words = [0u64; 29];
    words[1] = 1;
    words[2] = 256 + 65_536;
    words[4] = 2;
    words[12] = 2;
    words[13] = 1 + 256 + 65_536 * 2;
    words[27] = 0b11;
    assert!(rt; script.classes.as_slice().len() == 2);
    assert!(rt; are_readable(&Layout::of(&script.shape), &words, 2));
    let lines = [
        line(1, Answer::New(of_class(0, 1, 1))),
        line(2, Answer::New(of_class(1, 1, 2))),
        line(3, Answer::Ok),
        line(4, Answer::Full),
        line(6, Answer::Ok),
    ];
    let threads = [ThreadLines {
        thread: 1,
        lines: Items::from_slice(alloc, &lines)?,
    }];
    let report = report_text(alloc, &script, &threads, &[], &words)?;
    let want =
        b"report 1\nthread 1\n1 new Root#1.1\n2 new Node#1.2\n3 ok\n4 full\n6 ok\nend\nimmortal Root#1.1\nleak Node#1.2 live 0000000000000002\nobjects 2 deinits 0 leaks 1\n";
    assert_eq!(rt; report.as_slice(), want.as_slice());
    Ok(())
}

/// The words of free slots and of a free entry keep their last values, and nothing is told of them; the bit of slot 65 is in the second
/// word. The entry that is taken had its object in a slot that is free, whose inline word still shows it.
#[test]
fn words_of_free_slots_mean_nothing(rt: HostRuntime) -> Result<(), Fail> {
    let alloc = rt.alloc();
    let script = script_in(
        alloc,
        "arc 1\nslots 66\nentries 2\nclass Node\nthread 1\ndone\n",
    )?;
    let mut words = [0u64; 738];
    words[1] = 2;
    words[2] = 256 + 65_536;
    words[12] = 0x8000_0000_0000_0001;
    words[13] = 256 + 65_536 * 2;
    words[716] = 0x0000_0002_0000_0004;
    words[717] = 256 * 3 + 65_536 * 5;
    words[727] = 1;
    words[730] = 1;
    words[731] = 2;
    words[734] = 7;
    words[736] = 0b10;
    words[737] = 0b10;
    assert!(rt; script.classes.as_slice().len() == 1);
    assert!(rt; are_readable(&Layout::of(&script.shape), &words, 1));
    let report = report_text(alloc, &script, &[], &[], &words)?;
    let want =
        b"report 1\nend\nleak Node#3.5 live 0000000200000004\nfreed 1 7\nobjects 0 deinits 0 leaks 2\n";
    assert_eq!(rt; report.as_slice(), want.as_slice());
    Ok(())
}

#[test]
fn summary(rt: HostRuntime) -> Result<(), Fail> {
    let text = summary_text(rt.alloc(), 50_000, 7, 12, 11, 1)?;
    let want = b"storm 50000 7\noperations 50000\nobjects 12\ndeinits 11\nleaks 1\n";
    assert_eq!(rt; text.as_slice(), want.as_slice());
    Ok(())
}
