//! Limits at their ends and one past them, and large texts.

ghost use Rattle.std.specs.Prelude.{◌<◌};

use arc_script::ReadFault;
use arc_script_reader::read_script;
use std::alloc::{AllocError, Global};
use std::process::Abort;
use std::test::Fail;

const HEADING: &str = "arc 1\nslots 1\nentries 1\n";

const ONE_CLASS: &str = "arc 1\nslots 1\nentries 1\nclass A\n";

// the next line is line 9
const TWO_VARS: &str =
    "arc 1\nslots 1\nentries 1\nclass A f:strong:A\nglobal p strong A\nthread 1\nvar a strong A\nvar b strong A\n";

// the next line is line 10
const FOUR_VARS: &str =
    "arc 1\nslots 1\nentries 1\nclass A f:strong:A\nthread 1\nvar a strong A\nvar b strong A\nvar u unowned A\nvar w weak A\n";

// the next line is line 7
const SECOND: &str = "arc 2\nslots 1\nentries 1\nclass A\nthread 1\nvar a strong A\n";

// operations that FOUR_VARS allows, and the number of one as the operation behind the last that is allowed
static BEHIND_THE_LAST: [(&str, u32); 22] = [
    ("", 0),
    ("new a A\n", 11),
    ("copy a b\n", 11),
    ("move a b\n", 11),
    ("drop a\n", 11),
    ("unown u a\n", 11),
    ("weak w a\n", 11),
    ("load a w\n", 11),
    ("get a a.f\n", 11),
    ("set a.f b\n", 11),
    ("drop \x01\n", 1),
    ("drap a\n", 2),
    ("drop\n", 3),
    ("drop 1\n", 5),
    ("drop c\n", 7),
    ("unown a a\n", 8),
    ("new u A\n", 8),
    ("copy a a\n", 10),
    ("set a.f a\n", 10),
    ("phase\n", 0),
    ("thread 2\n", 0),
    ("schedule 1\n", 0),
];

// the text before, then lines with the numbers 0 to count - 1 between two pieces
fn numbered(
    alloc: Global,
    before: &str,
    first: &str,
    count: u32,
    last: &str,
) -> Result<Vec<u8>, AllocError> {
    let mut text = Vec::new(alloc);
    text.extend_from_slice(before.as_bytes())?;
    for number in 0..count {
        text.extend_from_slice(first.as_bytes())?;
        let digits = number.to_string(alloc)?;
        text.extend_from_slice(digits.as_bytes())?;
        text.extend_from_slice(last.as_bytes())?;
    }
    Ok(text)
}

// the text before, and then a piece many times
fn repeated(alloc: Global, before: &str, piece: &str, count: u32) -> Result<Vec<u8>, AllocError> {
    let mut text = Vec::new(alloc);
    text.extend_from_slice(before.as_bytes())?;
    for _ in 0..count {
        text.extend_from_slice(piece.as_bytes())?;
    }
    Ok(text)
}

// with `done` behind it the text is refused at this line with this number, or is a script where the number is 0
fn check_end(rt: &impl Abort, text: Vec<u8>, line: u32, why: u32) -> Result<(), Fail> {
    let alloc = *text.allocator();
    let mut text = text;
    text.extend_from_slice(b"done\n")?;
    assert!(rt; text.len() <= 67_108_864);
    match read_script(alloc, &text) {
        Ok(_) => assert_eq!(rt; 0, why, "accepted, not refused at {line}"),
        Err(fault) => assert_eq!(rt; fault, ReadFault::Refused { line, why }),
    }
    Ok(())
}

// the same with a line before the `done`
fn check_line(
    rt: &impl Abort,
    text: Vec<u8>,
    behind: &str,
    line: u32,
    why: u32,
) -> Result<(), Fail> {
    let mut text = text;
    text.extend_from_slice(behind.as_bytes())?;
    check_end(rt, text, line, why)
}

fn threads(alloc: Global, count: u32) -> Result<Vec<u8>, AllocError>
    requires { count < 1000 }
{
    let mut text = Vec::new(alloc);
    text.extend_from_slice(HEADING.as_bytes())?;
    for number in 1..count + 1 {
        let line = format!(in alloc; "thread {number}\n")?;
        text.extend_from_slice(line.as_bytes())?;
    }
    Ok(text)
}

#[test]
fn classes_have_a_limit(rt: HostRuntime) -> Result<(), Fail> {
    let text = numbered(rt.alloc(), HEADING, "class A", 64, "\n")?;
    check_end(&rt, text, 0, 0)?;
    let text = numbered(rt.alloc(), HEADING, "class A", 65, "\n")?;
    check_end(&rt, text, 68, 11)?;
    let text = numbered(rt.alloc(), HEADING, "class A", 65, " f:weak:A64\n")?;
    check_end(&rt, text, 68, 11)
}

#[test]
fn globals_have_a_limit(rt: HostRuntime) -> Result<(), Fail> {
    let text = numbered(rt.alloc(), ONE_CLASS, "global g", 64, " weak A\n")?;
    check_end(&rt, text, 0, 0)?;
    let text = numbered(rt.alloc(), ONE_CLASS, "global g", 65, " weak A\n")?;
    check_end(&rt, text, 69, 11)
}

#[test]
fn variables_have_a_limit(rt: HostRuntime) -> Result<(), Fail> {
    let text = numbered(rt.alloc(), TWO_VARS, "var v", 254, " weak A\n")?;
    check_end(&rt, text, 0, 0)?;
    let text = numbered(rt.alloc(), TWO_VARS, "var v", 255, " weak A\n")?;
    check_end(&rt, text, 263, 11)
}

// the limit is on the variables of each thread
#[test]
fn threads_have_their_own_variables(rt: HostRuntime) -> Result<(), Fail> {
    let text = numbered(rt.alloc(), TWO_VARS, "var v", 254, " weak A\n")?;
    let later = numbered(rt.alloc(), "thread 2\n", "var v", 256, " weak A\n")?;
    let mut both = text;
    both.extend_from_slice(&later)?;
    check_end(&rt, both, 0, 0)
}

// the 65th class and global and the 257th variable, each with another fault
#[test]
fn a_limit_is_the_last_of_reasons(rt: HostRuntime) -> Result<(), Fail> {
    let text = numbered(rt.alloc(), HEADING, "class A", 64, "\n")?;
    check_line(&rt, text, "class A1\n", 68, 6)?;
    let text = numbered(rt.alloc(), HEADING, "class A", 64, "\n")?;
    check_line(&rt, text, "class B f:weak:C\n", 68, 7)?;
    let text = numbered(rt.alloc(), ONE_CLASS, "global g", 64, " weak A\n")?;
    check_line(&rt, text, "global g63 weak A\n", 69, 6)?;
    let text = numbered(rt.alloc(), TWO_VARS, "var v", 254, " weak A\n")?;
    check_line(&rt, text, "var w bad A\n", 263, 8)
}

#[test]
fn threads_have_a_limit(rt: HostRuntime) -> Result<(), Fail> {
    check_end(&rt, threads(rt.alloc(), 64)?, 0, 0)?;
    check_end(&rt, threads(rt.alloc(), 65)?, 68, 11)?;
    check_line(&rt, threads(rt.alloc(), 64)?, "thread 66\n", 68, 4)?;
    check_line(&rt, threads(rt.alloc(), 64)?, "thread 64\n", 68, 4)
}

// the places of a schedule are the numbers of the threads that there are
#[test]
fn places_name_threads(rt: HostRuntime) -> Result<(), Fail> {
    check_line(&rt, threads(rt.alloc(), 64)?, "schedule 64\n", 0, 0)?;
    check_line(&rt, threads(rt.alloc(), 64)?, "schedule 65\n", 68, 4)
}

#[test]
fn phases_have_a_limit(rt: HostRuntime) -> Result<(), Fail> {
    check_end(&rt, repeated(rt.alloc(), TWO_VARS, "phase\n", 63)?, 0, 0)?;
    check_end(&rt, repeated(rt.alloc(), TWO_VARS, "phase\n", 64)?, 72, 11)?;
    let text = repeated(rt.alloc(), TWO_VARS, "phase\n", 63)?;
    check_line(&rt, text, "thread 2\nphase\n", 0, 0)
}

fn check_behind_the_last(rt: &impl Abort, alloc: Global, rows: &[(&str, u32)]) -> Result<(), Fail> {
    for (behind, why) in rows {
        let text = repeated(alloc, FOUR_VARS, "drop a\n", 100_000)?;
        let line = if *why == 0 { 0 } else { 100_010 };
        check_line(rt, text, behind, line, *why)?;
    }
    Ok(())
}

#[test]
fn operations_have_a_limit(rt: HostRuntime) -> Result<(), Fail> {
    check_behind_the_last(&rt, rt.alloc(), &BEHIND_THE_LAST)
}

// the limit is on the operations of all threads and phases
#[test]
fn operations_of_all_threads_count(rt: HostRuntime) -> Result<(), Fail> {
    let half = "thread 2\nvar c weak A\n";
    let text = repeated(rt.alloc(), TWO_VARS, "drop a\n", 50_000)?;
    let later = repeated(rt.alloc(), half, "drop c\nphase\ndrop c\n", 30)?;
    let rest = repeated(rt.alloc(), "", "drop c\n", 49_940)?;
    let mut all = text;
    all.extend_from_slice(&later)?;
    all.extend_from_slice(&rest)?;
    check_line(&rt, all.clone()?, "", 0, 0)?;
    check_line(&rt, all, "drop c\n", 100_041, 11)
}

// the beginning of a block counts, its end doesn't
#[test]
fn blocks_count_as_operations(rt: HostRuntime) -> Result<(), Fail> {
    let block = "ifnil a\ndrop a\nend\n";
    check_end(&rt, repeated(rt.alloc(), SECOND, block, 50_000)?, 0, 0)?;
    let text = repeated(rt.alloc(), SECOND, block, 50_000)?;
    check_line(&rt, text, "ifsome a\n", 150_007, 11)?;
    let text = repeated(rt.alloc(), SECOND, block, 50_000)?;
    check_line(&rt, text, "end\n", 150_007, 14)?;
    let text = repeated(rt.alloc(), SECOND, "ifnil a\nend\n", 100_000)?;
    check_line(&rt, text, "drop a\n", 200_007, 11)
}

#[test]
fn immortal_classes_count_as_classes(rt: HostRuntime) -> Result<(), Fail> {
    let heading = "arc 2\nslots 1\nentries 1\nclass A\n";
    let text = numbered(rt.alloc(), heading, "immortal A", 63, "\n")?;
    check_end(&rt, text, 0, 0)?;
    let text = numbered(rt.alloc(), heading, "immortal A", 64, "\n")?;
    check_end(&rt, text, 68, 11)
}

#[test]
fn places_have_a_limit(rt: HostRuntime) -> Result<(), Fail> {
    let ten = "schedule 1 1 1 1 1 1 1 1 1 1\n";
    let text = repeated(rt.alloc(), TWO_VARS, ten, 100_000)?;
    check_end(&rt, text, 0, 0)?;
    let text = repeated(rt.alloc(), TWO_VARS, ten, 100_000)?;
    check_line(&rt, text, "schedule 1\n", 100_009, 11)?;
    let text = repeated(rt.alloc(), TWO_VARS, ten, 100_000)?;
    check_line(&rt, text, "schedule 2\n", 100_009, 4)
}

#[test]
fn places_of_a_line_have_a_limit(rt: HostRuntime) -> Result<(), Fail> {
    let before = "arc 1\nslots 1\nentries 1\nthread 1\nschedule";
    let text = repeated(rt.alloc(), before, " 1", 1_000_000)?;
    check_line(&rt, text, "\n", 0, 0)?;
    let text = repeated(rt.alloc(), before, " 1", 1_000_001)?;
    check_line(&rt, text, "\n", 5, 11)?;
    let text = repeated(rt.alloc(), before, " 1", 1_000_001)?;
    check_line(&rt, text, " 2\n", 5, 4)
}

// texts of eight million bytes
#[test]
fn large_texts_are_refused_in_time(rt: HostRuntime) -> Result<(), Fail> {
    let text = repeated(rt.alloc(), "", "\n", 8_000_000)?;
    check_end(&rt, text, 8_000_001, 2)?;
    let text = repeated(rt.alloc(), "", "a", 8_000_000)?;
    check_end(&rt, text, 1, 2)?;
    let text = repeated(
        rt.alloc(),
        "arc 1\nslots 1\nentries 1\nclass ",
        "a",
        8_000_000,
    )?;
    check_end(&rt, text, 4, 5)?;
    let text = repeated(rt.alloc(), HEADING, "class A\n", 1_000_000)?;
    check_end(&rt, text, 5, 6)
}

#[test]
fn a_long_schedule_without_threads(rt: HostRuntime) -> Result<(), Fail> {
    let before = "arc 1\nslots 1\nentries 1\nschedule";
    let text = repeated(rt.alloc(), before, " 1", 4_000_000)?;
    check_line(&rt, text, "\n", 4, 4)
}

// class lines of some seven million bytes: the fields' names differ, the last one repeats the first
#[test]
fn long_class_lines_are_refused_in_time(rt: HostRuntime) -> Result<(), Fail> {
    let class = "arc 1\nslots 1\nentries 1\nclass A";
    let text = numbered(rt.alloc(), class, " f", 500_000, ":weak:A")?;
    check_line(&rt, text, "\n", 4, 11)?;
    let text = numbered(rt.alloc(), class, " f", 500_000, ":weak:A")?;
    check_line(&rt, text, " f0:weak:A\n", 4, 6)
}

// the class lines behind a line are read once for all of its fields
#[test]
fn a_long_look_ahead_ends_in_time(rt: HostRuntime) -> Result<(), Fail> {
    let class = "arc 1\nslots 1\nentries 1\nclass A";
    let mut text = numbered(rt.alloc(), class, " f", 200_000, ":weak:B199999")?;
    let classes = numbered(rt.alloc(), "\n", "class B", 200_000, "\n")?;
    text.extend_from_slice(&classes)?;
    check_end(&rt, text, 4, 11)
}
