//! Version 2: immortal classes and blocks.

ghost use Rattle.std.specs.Prelude.{◌<◌};

use arc_script::{Op, ReadFault, Script};
use arc_script_reader::{read_heading, read_script};
use arc_script_text::write_script;
use std::alloc::Global;
use std::process::Abort;
use std::test::Fail;

const HEADING: &str = "arc 2\nslots 1\nentries 1\n";

// the next line is line 10
const DECLARED: &str =
    "arc 2\nslots 2\nentries 1\nimmortal Root kid:strong:Node\nclass Node\nthread 1\nvar r strong Root\nvar n strong Node\nvar m strong Node\n";

// eight open blocks; the next line is line 18
const EIGHT_OPEN: &str =
    "arc 2\nslots 2\nentries 1\nimmortal Root kid:strong:Node\nclass Node\nthread 1\nvar r strong Root\nvar n strong Node\nvar m strong Node\nifnil r\nifsome n\nifnil m\nifsome r\nifnil n\nifsome m\nifnil r\nifnil r\n";

// a line behind DECLARED, and the number of its refusal: 0 where it is accepted
static OUTSIDE: [(&str, u32); 24] = [
    ("ifnil r", 0),
    ("\tifsome  n ", 0),
    ("ifnil", 3),
    ("ifnil r n", 3),
    ("ifsome", 3),
    ("ifnil 1", 5),
    ("ifnil r.kid", 5),
    ("ifsome @r", 5),
    ("ifnil x", 7),
    ("ifsome Root", 7),
    ("ifnil r\x01", 1),
    ("IfNil r", 2),
    ("else", 2),
    ("end", 14),
    ("end ", 14),
    ("end x", 3),
    ("end\x01", 1),
    ("end 14 14", 3),
    ("endif", 2),
    ("phase", 0),
    ("thread 2", 0),
    ("schedule 1", 0),
    ("immortal Last", 2),
    ("arc 2", 2),
];

// the same where one block is open
static INSIDE: [(&str, u32); 25] = [
    ("new r Root", 0),
    ("drop n", 0),
    ("ifnil r", 0),
    ("ifsome m", 0),
    ("end", 0),
    ("end x", 3),
    ("phase", 14),
    ("phase x", 3),
    ("phase\x01", 1),
    ("thread 2", 14),
    ("thread 1", 4),
    ("thread 3", 4),
    ("thread 7", 4),
    ("thread two", 4),
    ("thread", 3),
    ("schedule 1", 14),
    ("schedule 2", 4),
    ("schedule", 3),
    ("schedule 1 x", 4),
    ("done", 14),
    ("done x", 3),
    ("var x strong Node", 2),
    ("global x strong Node", 2),
    ("class Last", 2),
    ("", 0),
];

// the same where eight blocks are open
static DEEPEST: [(&str, u32); 9] = [
    ("ifnil r", 11),
    ("ifsome r", 11),
    ("ifnil x", 7),
    ("ifnil", 3),
    ("end", 0),
    ("drop r", 0),
    ("phase", 14),
    ("done", 14),
    ("thread 2", 14),
];

// a line behind HEADING
static CLASSES: [(&str, u32); 12] = [
    ("immortal Root", 0),
    ("immortal Root kid:strong:Root peer:unowned:Root", 0),
    ("immortal Root kid:weak:Root", 13),
    ("immortal", 3),
    ("immortal Root kid", 3),
    ("immortal Root kid:strong", 3),
    ("immortal 1", 5),
    ("immortal Root kid:strong:Node", 7),
    ("immortal Root kid:soft:Root", 8),
    ("immortal Root kid:soft:Root old:weak:Root", 8),
    ("immortal Root kid:strong:Root kid:strong:Root", 6),
    ("Immortal Root", 2),
];

// texts, and the line and the number of the refusal
static REFUSED: [(&str, u32, u32); 38] = [
    ("end", 1, 2),
    ("end x", 1, 2),
    ("immortal A", 1, 2),
    ("arc 2\nend", 2, 14),
    ("arc 2\nend x", 2, 3),
    ("arc 2\nend\x01", 2, 1),
    ("arc 2\nifnil r", 2, 2),
    ("arc 2\nimmortal A", 2, 2),
    ("arc 2\nslots 1\nend", 3, 14),
    ("arc 2\nslots 1\nentries 1\nend", 4, 14),
    ("arc 2\nslots 1\nentries 1\ncaps 1 1 2\nend", 5, 14),
    ("arc 2\nslots 1\nentries 1\nclass A\nend", 5, 14),
    (
        "arc 2\nslots 1\nentries 1\nclass A\nglobal g strong A\nend",
        6,
        14,
    ),
    ("arc 2\nslots 1\nentries 1\nthread 1\nend", 5, 14),
    (
        "arc 2\nslots 1\nentries 1\nthread 1\nschedule 1\nend",
        6,
        14,
    ),
    (
        "arc 2\nslots 1\nentries 1\nthread 1\nschedule 1\nifnil a",
        6,
        2,
    ),
    ("arc 2\nslots 1\nentries 1\ndone\nend", 5, 14),
    ("arc 2\nslots 1\nentries 1\ndone\nend x", 5, 3),
    ("arc 2\nslots 1\nentries 1\ndone\n\n#\nifnil", 7, 2),
    (
        "arc 2\nslots 1\nentries 1\nclass A\nthread 1\nvar a strong A\nifnil a\n",
        8,
        2,
    ),
    (
        "arc 2\nslots 1\nentries 1\nclass A\nthread 1\nvar a strong A\nifnil a\nend\nend\n",
        9,
        14,
    ),
    (
        "arc 2\nslots 1\nentries 1\nclass A\nthread 1\nvar a strong A\nphase\nifnil a\nphase\n",
        9,
        14,
    ),
    (
        "arc 2\nslots 1\nentries 1\nclass N f:weak:R\nimmortal R\n",
        4,
        13,
    ),
    (
        "arc 2\nslots 1\nentries 1\nclass N f:weak:R\nimmortal R\nclass R\n",
        4,
        13,
    ),
    (
        "arc 2\nslots 1\nentries 1\nclass N f:weak:R\nclass R\nimmortal R\n",
        6,
        6,
    ),
    (
        "arc 2\nslots 1\nentries 1\nclass N f:weak:R\n\n# x\n\timmortal R \x01\n",
        4,
        13,
    ),
    (
        "arc 2\nslots 1\nentries 1\nclass N f:soft:M g:weak:R\nimmortal R\nclass M\n",
        4,
        8,
    ),
    (
        "arc 2\nslots 1\nentries 1\nclass N a:weak:R b:weak:R c:weak:R d:weak:R e:weak:R f:weak:R g:weak:R h:weak:R i:weak:R\nimmortal R\n",
        4,
        11,
    ),
    (
        "arc 2\nslots 1\nentries 1\nclass N f:strong:R\nimmortal\nclass R\n",
        5,
        3,
    ),
    (
        "arc 2\nslots 1\nentries 1\nclass N f:strong:R\nglobal g strong N\nimmortal R\n",
        4,
        7,
    ),
    (
        "arc 2\nslots 1\nentries 1\nclass N\nglobal g strong N\nimmortal R\n",
        6,
        2,
    ),
    (
        "arc 2\nslots 1\nentries 1\nimmortal R\nglobal g weak R\n",
        5,
        13,
    ),
    (
        "arc 2\nslots 1\nentries 1\nimmortal R\nglobal g soft R\n",
        5,
        8,
    ),
    (
        "arc 2\nslots 1\nentries 1\nclass N\nimmortal R\nthread 1\nvar w weak R\n",
        7,
        13,
    ),
    (
        "arc 2\nslots 1\nentries 1\nclass N\nimmortal R\nthread 1\nvar w weak N\nvar x weak R\n",
        8,
        13,
    ),
    (
        "arc 2\nslots 2\nentries 1\nimmortal Root kid:strong:Node\nclass Node\nthread 1\nvar r strong Root\nvar n strong Node\nvar m weak Root\n",
        9,
        13,
    ),
    (
        "arc 2\nslots 2\nentries 1\nimmortal Root kid:strong:Node\nclass Node\nthread 1\nvar r strong Root\nvar n strong Node\nvar m strong Node\nnew r Root\nnew n Node\nset r.kid n\nifnil n\nnew m Node\nphase\nifsome m\ndrop m\nend\ndrop r\ndone\n",
        15,
        14,
    ),
    (
        "arc 1\nslots 1\nentries 1\nclass A\nthread 1\nvar a strong A\nend\n",
        7,
        2,
    ),
];

// lines of version 2 where version 1 has none of them
static FIRST: [(&str, u32, u32); 4] = [
    ("arc 1\nslots 1\nentries 1\nimmortal A\n", 4, 2),
    (
        "arc 1\nslots 1\nentries 1\nclass A\nthread 1\nvar a strong A\nifnil a\n",
        7,
        2,
    ),
    (
        "arc 1\nslots 1\nentries 1\nclass A\nthread 1\nvar a strong A\nifsome a\n",
        7,
        2,
    ),
    ("arc 1\nslots 1\nentries 1\ndone\nend", 5, 2),
];

// texts, and the canonical text of the script
static READ: [(&str, &str); 6] = [
    (
        "arc 2\nslots 1\nentries 1\ndone\n",
        "arc 2\nslots 1\nentries 1\ncaps 1073741823 2147483647 4294967295\ndone\n",
    ),
    (
        " arc\t2\nslots 1\nentries 1\nclass N f:strong:R g:weak:N\n#\nimmortal R h:unowned:R\nclass M i:weak:N\nthread 1\ndone",
        "arc 2\nslots 1\nentries 1\ncaps 1073741823 2147483647 4294967295\nclass N f:strong:R g:weak:N\nimmortal R h:unowned:R\nclass M i:weak:N\nthread 1\ndone\n",
    ),
    (
        "arc 2\nslots 2\nentries 1\nimmortal Root kid:strong:Node\nclass Node\nthread 1\nvar r strong Root\nvar n strong Node\nvar m strong Node\nnew r Root\nnew n Node\nset r.kid n\nifnil n\nnew m Node\nend\nifsome m\ndrop m\nend\ndrop r\ndone\n",
        "arc 2\nslots 2\nentries 1\ncaps 1073741823 2147483647 4294967295\nimmortal Root kid:strong:Node\nclass Node\nthread 1\nvar r strong Root\nvar n strong Node\nvar m strong Node\nnew r Root\nnew n Node\nset r.kid n\nifnil n\nnew m Node\nend\nifsome m\ndrop m\nend\ndrop r\ndone\n",
    ),
    (
        "arc 2\nslots 1\nentries 1\nclass A\nthread 1\nvar a strong A\nvar w weak A\nifnil w\n end \nifsome a\nifnil a\ndrop a\nend\nend\nphase\nifsome a\nifsome a\nend\ndrop w\nend\nthread 2\nphase\nschedule 1\ndone\n",
        "arc 2\nslots 1\nentries 1\ncaps 1073741823 2147483647 4294967295\nclass A\nthread 1\nvar a strong A\nvar w weak A\nifnil w\nend\nifsome a\nifnil a\ndrop a\nend\nend\nphase\nifsome a\nifsome a\nend\ndrop w\nend\nthread 2\nphase\nschedule 1\ndone\n",
    ),
    (
        "arc 2\nslots 1\nentries 1\nclass A\nthread 1\nvar a strong A\nifnil a\nifsome a\nifnil a\nifsome a\nifnil a\nifsome a\nifnil a\nifsome a\ndrop a\nend\nifnil a\nend\nend\nend\nend\nend\nend\nend\nend\ndone\n",
        "arc 2\nslots 1\nentries 1\ncaps 1073741823 2147483647 4294967295\nclass A\nthread 1\nvar a strong A\nifnil a\nifsome a\nifnil a\nifsome a\nifnil a\nifsome a\nifnil a\nifsome a\ndrop a\nend\nifnil a\nend\nend\nend\nend\nend\nend\nend\nend\ndone\n",
    ),
    (
        "arc 2\nslots 1\nentries 1\nimmortal end ifnil:strong:end\nthread 1\nvar ifnil strong end\nvar end strong end\nifnil ifnil\ndrop end\nifsome end\nend\nend\ndone\n",
        "arc 2\nslots 1\nentries 1\ncaps 1073741823 2147483647 4294967295\nimmortal end ifnil:strong:end\nthread 1\nvar ifnil strong end\nvar end strong end\nifnil ifnil\ndrop end\nifsome end\nend\nend\ndone\n",
    ),
];

// a heading, its version, and the line where it ends or is refused, with the number of its refusal or 0
static HEADINGS: [(&str, u32, u32, u32); 8] = [
    (
        "slots 1\nentries 1\ncaps 1 1 2\nimmortal A\nclass B\nthreads 0\n",
        2,
        6,
        0,
    ),
    (
        "slots 1\nentries 1\ncaps 1 1 2\nclass B\nimmortal A\nend\n",
        2,
        6,
        0,
    ),
    (
        "slots 1\nentries 1\ncaps 1 1 2\nclass B f:weak:A\nimmortal A\n",
        2,
        4,
        13,
    ),
    (
        "slots 1\nentries 1\ncaps 1 1 2\nimmortal A\nglobal g weak A\n",
        2,
        5,
        13,
    ),
    ("slots 1\nend\n", 2, 2, 2),
    ("slots 1\nimmortal A\n", 2, 2, 2),
    (
        "slots 1\nentries 1\ncaps 1 1 2\nclass B\nimmortal A\n",
        1,
        5,
        0,
    ),
    (
        "slots 1\nentries 1\ncaps 1 1 2\nclass B f:strong:A\nimmortal A\n",
        1,
        4,
        7,
    ),
];

fn check_refused(rt: &impl Abort, alloc: Global, text: &str, line: u32, why: u32) {
    assert!(rt; text.len() <= 67_108_864);
    match read_script(alloc, text.as_bytes()) {
        Ok(_) => assert!(rt; false, "accepted: {text:?}"),
        Err(fault) => assert_eq!(rt; fault, ReadFault::Refused { line, why }, "of {text:?}"),
    }
}

fn check_refused_rows(rt: &impl Abort, alloc: Global, rows: &[(&str, u32, u32)]) {
    for (text, line, why) in rows {
        check_refused(rt, alloc, text, *line, *why);
    }
}

#[test]
fn texts_are_refused_at_their_first_fault(rt: HostRuntime) {
    check_refused_rows(&rt, rt.alloc(), &REFUSED);
}

#[test]
fn version_1_has_no_such_lines(rt: HostRuntime) {
    check_refused_rows(&rt, rt.alloc(), &FIRST);
}

// the line and the number of the refusal of the text with this line behind it, where the line is refused, or else 0
fn refusal_at(
    rt: &impl Abort,
    alloc: Global,
    before: &str,
    number: u32,
    line: &str,
) -> Result<u32, Fail>
    requires { number < 100 }
{
    let mut text = Vec::new(alloc);
    text.extend_from_slice(before.as_bytes())?;
    text.extend_from_slice(line.as_bytes())?;
    text.extend_from_slice(b"\n")?;
    assert!(rt; text.len() <= 67_108_864);
    match read_script(alloc, &text) {
        Err(ReadFault::Refused { line, why }) => {
            if line == number {
                Ok(why)
            } else {
                assert_eq!(rt; (line, why), (number + 1, 2));
                Ok(0)
            }
        }
        _ => Ok(99),
    }
}

fn check_rows(
    rt: &impl Abort,
    alloc: Global,
    before: &str,
    number: u32,
    rows: &[(&str, u32)],
) -> Result<(), Fail>
    requires { number < 100 }
{
    for (line, why) in rows {
        let found = refusal_at(rt, alloc, before, number, line)?;
        assert_eq!(rt; found, *why, "at {line:?}");
    }
    Ok(())
}

#[test]
fn lines_outside_of_blocks(rt: HostRuntime) -> Result<(), Fail> {
    check_rows(&rt, rt.alloc(), DECLARED, 10, &OUTSIDE)
}

#[test]
fn lines_inside_of_a_block(rt: HostRuntime) -> Result<(), Fail> {
    let before =
        "arc 2\nslots 2\nentries 1\nimmortal Root kid:strong:Node\nclass Node\nthread 1\nvar r strong Root\nvar n strong Node\nvar m strong Node\nifnil n\n";
    check_rows(&rt, rt.alloc(), before, 11, &INSIDE)
}

#[test]
fn lines_inside_of_eight_blocks(rt: HostRuntime) -> Result<(), Fail> {
    check_rows(&rt, rt.alloc(), EIGHT_OPEN, 18, &DEEPEST)
}

#[test]
fn immortal_lines(rt: HostRuntime) -> Result<(), Fail> {
    check_rows(&rt, rt.alloc(), HEADING, 4, &CLASSES)
}

// the text is a script, whose canonical text is this
fn check_script(rt: &impl Abort, alloc: Global, text: &str, canonical: &str) -> Result<(), Fail> {
    assert!(rt; text.len() <= 67_108_864);
    match read_script(alloc, text.as_bytes()) {
        Ok(script) => {
            let written = write_script(alloc, &script)?;
            assert_eq!(rt; written.as_slice(), canonical.as_bytes());
            Ok(())
        }
        Err(_) => {
            assert!(rt; false, "refused: {text:?}");
            Ok(())
        }
    }
}

#[test]
fn scripts_have_one_canonical_text(rt: HostRuntime) -> Result<(), Fail> {
    for (text, canonical) in &READ {
        check_script(&rt, rt.alloc(), text, canonical)?;
        check_script(&rt, rt.alloc(), canonical, canonical)?;
    }
    Ok(())
}

fn check_ops(rt: &impl Abort, script: &Script, ops: &[Op]) {
    let found = match script.threads.get(0) {
        Some(thread) => thread.phases.get(0),
        None => None,
    };
    match found {
        Some(found) => assert_eq!(rt; found.as_slice(), ops),
        None => assert!(rt; false, "no phase"),
    }
}

#[test]
fn blocks_go_behind_their_ends(rt: HostRuntime) {
    let text =
        "arc 2\nslots 1\nentries 1\nclass A\nthread 1\nvar a strong A\nvar b strong A\nifnil b\nend\nifsome b\ndrop a\nifnil a\ndrop b\nend\nend\ndrop a\ndone\n";
    assert!(rt; text.len() <= 67_108_864);
    match read_script(rt.alloc(), text.as_bytes()) {
        Ok(script) => check_ops(
            &rt,
            &script,
            &[
                Op::IfNil { var: 1, to: 1 },
                Op::IfSome { var: 1, to: 5 },
                Op::Drop { var: 0 },
                Op::IfNil { var: 0, to: 5 },
                Op::Drop { var: 1 },
                Op::Drop { var: 0 },
            ],
        ),
        Err(_) => assert!(rt; false, "refused"),
    }
}

#[test]
fn headings_have_immortal_lines(rt: HostRuntime) {
    for (text, version, line, why) in HEADINGS {
        assert!(rt; text.len() <= 67_108_864);
        assert!(rt; 1 <= version);
        assert!(rt; version <= 2);
        match read_heading(rt.alloc(), text.as_bytes(), 0, 1, version, true) {
            Ok(heading) => assert_eq!(rt; (heading.line, 0), (line, why), "of {text:?}"),
            Err(fault) => {
                assert_eq!(rt; fault, ReadFault::Refused { line, why }, "of {text:?}");
            }
        }
    }
}
