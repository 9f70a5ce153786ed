//! Whole texts.

ghost use Rattle.arc_script.specs.Valid.{IsScript};

use arc_model::ObjectName;
use arc_script::{Answer, Heading, Line, Name, ReadFault, Script};
use arc_script_reader::{read_heading, read_script};
use arc_script_text::{write_heading, write_script};
use std::alloc::Global;
use std::process::Abort;
use std::test::Fail;

static REFUSED: [(&str, u32, u32); 56] = [
    ("", 1, 2),
    (" ", 2, 2),
    ("\n\n", 3, 2),
    ("\n\t ", 3, 2),
    ("# no script", 2, 2),
    ("arc", 1, 3),
    ("arc 1 1", 1, 3),
    ("arc 2", 2, 2),
    ("arc 3", 1, 4),
    ("arc 0", 1, 4),
    ("arc 01", 1, 4),
    ("arc one", 1, 4),
    ("arc 1\x01", 1, 1),
    ("ark 1", 1, 2),
    ("end", 1, 2),
    ("slots 1\narc 1", 1, 2),
    ("arc 1\narc 1", 2, 2),
    ("arc 1\nentries 1", 2, 2),
    ("arc 1\nslots", 2, 3),
    ("arc 1\nslots 1 1", 2, 3),
    ("arc 1\nslots 0", 2, 4),
    ("arc 1\nslots 4097", 2, 4),
    ("arc 1\nslots 4096\nslots 1", 3, 2),
    ("arc 1\nslots \x7f", 2, 1),
    ("arc 1\nslots 1\n", 3, 2),
    ("arc 1\nslots 1\nentries", 3, 3),
    ("arc 1\nslots 1\nentries 0", 3, 4),
    ("arc 1\nslots 1\nentries 4097", 3, 4),
    ("arc 1\nslots 1\nentries 1 \x01", 3, 1),
    ("arc 1\nslots 1\nentries 4096", 4, 2),
    ("arc 1\nslots 1\nentries 1\ndone\ndone", 5, 2),
    ("arc 1\nslots 1\nentries 1\ndone\nx\x01", 5, 1),
    ("arc 1\nslots 1\nentries 1\ndone\n\n#\nx", 7, 2),
    ("arc 1\nslots 1\nentries 1\nschedule 1\ndone", 4, 4),
    ("arc 1\nslots 1\nentries 1\nschedule\ndone", 4, 3),
    ("arc 1\r\nslots 1", 1, 1),
    ("arc\x0b1", 1, 1),
    ("#\x0b\n\x0c\n", 2, 1),
    (
        "arc 1\nslots 1\nentries 1\nclass Node\nthread 1\nvar a strong Node\nnew a Node\ndrop a\n",
        9,
        2,
    ),
    (
        "arc 1\nslots 1\nentries 1\nclass Node\nthread 1\nvar a strong Node\nnew a Nod\ndrop a\ndone\n",
        7,
        7,
    ),
    (
        "arc 1\nslots 1\nentries 1\ncaps 10 20 5\nclass Node\ndone\n",
        4,
        12,
    ),
    (
        "arc 1\nslots 1\nentries 1\nclass N f:weak:R\nimmortal R\nclass R\n",
        4,
        7,
    ),
    (
        "arc 1\nslots 1\nentries 1\nclass N f:weak:R\nclass\nclass R\n",
        5,
        3,
    ),
    (
        "arc 1\nslots 1\nentries 1\nclass N f:weak:R\n\n# x\nclass R \x01\n",
        7,
        1,
    ),
    (
        "arc 1\nslots 1\nentries 1\nclass N f:weak:N g:weak:R\nclass N\nclass R\n",
        5,
        6,
    ),
    (
        "arc 1\nslots 1\nentries 1\nthread 1\nschedule 1\nthread 2\n",
        6,
        2,
    ),
    (
        "arc 1\nslots 1\nentries 1\nclass A\nthread 1\nvar a strong A\nnew a A\nvar b strong A\n",
        8,
        2,
    ),
    (
        "arc 1\nslots 1\nentries 1\nclass N f:weak:R\nclass R a:weak:N b:weak:N c:weak:N d:weak:N e:weak:N f:weak:N g:weak:N h:weak:N i:weak:N\n",
        5,
        11,
    ),
    (
        "arc 1\nslots 1\nentries 1\nclass N f:weak:R\nglobal g weak N\nclass R\n",
        4,
        7,
    ),
    (
        "arc 1\nslots 1\nentries 1\nclass N f:weak:R\n\tclass R\nclass R\n",
        6,
        6,
    ),
    (
        "arc 1\nslots 1\nentries 1\nclass N f:weak:R\nclass R f\n",
        5,
        3,
    ),
    (
        "arc 1\nslots 1\nentries 1\nclass N f:weak:R\nclas R\nclass R\n",
        4,
        7,
    ),
    ("arc 1\nslots 1\nentries 1\n \t", 5, 2),
    ("arc 1\nslots 1\nentries 1\n#", 5, 2),
    ("arc 1\nslots 1\nentries 1\nthread 1\nphase", 6, 2),
    (
        "arc 1\nslots 1\nentries 1\nthread 1\nthread 1\nthread 2",
        5,
        4,
    ),
];

static READ: [(&str, &str); 9] = [
    (
        "arc 1\nslots 1\nentries 1\ndone\n",
        "arc 1\nslots 1\nentries 1\ncaps 1073741823 2147483647 4294967295\ndone\n",
    ),
    (
        "# a comment \x7f\n\n arc\t1\nslots 4096 \n\tentries 4096\ncaps 0 1 1\n\ndone",
        "arc 1\nslots 4096\nentries 4096\ncaps 0 1 1\ndone\n",
    ),
    (
        "arc 1\nslots 1\nentries 1\nclass N f:weak:R g:unowned:N\n#\nclass R\nglobal N strong R\nthread 1\nvar N weak N\nvar R strong R\nphase\nphase\nget R @N\nset @N R\nphase\nthread 2\nschedule 2 1\nschedule 1\ndone\n\n# end\n",
        "arc 1\nslots 1\nentries 1\ncaps 1073741823 2147483647 4294967295\nclass N f:weak:R g:unowned:N\nclass R\nglobal N strong R\nthread 1\nvar N weak N\nvar R strong R\nphase\nphase\nget R @N\nset @N R\nphase\nthread 2\nschedule 2 1 1\ndone\n",
    ),
    (
        "arc 1\nslots 8\nentries 8\nclass A f:strong:A\nthread 1\nvar a strong A\nvar b strong A\nvar u unowned A\nvar w weak A\nnew a A\ncopy b a\nmove b a\nunown u b\nweak w b\nload a u\nload a w\nset a.f b\nget b a.f\ndrop a\ndone\n",
        "arc 1\nslots 8\nentries 8\ncaps 1073741823 2147483647 4294967295\nclass A f:strong:A\nthread 1\nvar a strong A\nvar b strong A\nvar u unowned A\nvar w weak A\nnew a A\ncopy b a\nmove b a\nunown u b\nweak w b\nload a u\nload a w\nset a.f b\nget b a.f\ndrop a\ndone\n",
    ),
    (
        "arc 1\nslots 1\nentries 1\nclass end new:strong:end\nthread 1\nvar new strong end\ndrop new\ndone\n",
        "arc 1\nslots 1\nentries 1\ncaps 1073741823 2147483647 4294967295\nclass end new:strong:end\nthread 1\nvar new strong end\ndrop new\ndone\n",
    ),
    (
        "arc 1\nslots 1\nentries 1\nthread 1\nschedule 1 1 1 1 1 1 1 1 1 1 1 1 1 1 1 1 1 1 1 1 1 1 1 1 1 1 1 1 1 1 1 1 1\nschedule 1\ndone\n",
        "arc 1\nslots 1\nentries 1\ncaps 1073741823 2147483647 4294967295\nthread 1\nschedule 1 1 1 1 1 1 1 1 1 1 1 1 1 1 1 1 1 1 1 1 1 1 1 1 1 1 1 1 1 1 1 1\nschedule 1 1\ndone\n",
    ),
    (
        "arc 1\nslots 1\nentries 1\nclass A\nglobal g strong A\ndone\n",
        "arc 1\nslots 1\nentries 1\ncaps 1073741823 2147483647 4294967295\nclass A\nglobal g strong A\ndone\n",
    ),
    (
        "arc 1\nslots 1\nentries 1\nclass R\n# \x01\nclass N f:weak:R g:weak:S\n\nclass S f:weak:N\ndone\n",
        "arc 1\nslots 1\nentries 1\ncaps 1073741823 2147483647 4294967295\nclass R\nclass N f:weak:R g:weak:S\nclass S f:weak:N\ndone\n",
    ),
    (
        "arc 1\nslots 1\nentries 1\nthread 1\nschedule 1 1 1 1 1 1 1 1 1 1 1 1 1 1 1 1\nschedule 1 1 1 1 1 1 1 1 1 1 1 1 1 1 1 1\ndone\n",
        "arc 1\nslots 1\nentries 1\ncaps 1073741823 2147483647 4294967295\nthread 1\nschedule 1 1 1 1 1 1 1 1 1 1 1 1 1 1 1 1 1 1 1 1 1 1 1 1 1 1 1 1 1 1 1 1\ndone\n",
    ),
];

// a text, the byte and line where the heading begins, and whether caps must be there; then the byte and line where it ends
static HEADINGS: [(&str, usize, u32, bool, usize, u32); 7] = [
    ("slots 1\nentries 1\nthreads 0\n", 0, 1, false, 18, 3),
    ("slots 1\nentries 1", 0, 1, false, 17, 3),
    (
        "slots 1\nentries 1\n\n#\ncaps 1 1 2\n\n\x01",
        0,
        1,
        true,
        32,
        6,
    ),
    (
        "xx\nslots 1\nentries 1\nclass A\n#\nglobal g weak A\nclass B\n",
        3,
        2,
        false,
        47,
        7,
    ),
    (
        "slots 1\nentries 1\ncaps 1 1 2\ncaps 1 1 2\n",
        0,
        1,
        true,
        29,
        4,
    ),
    ("slots 1\nentries 1\nclassA\x01\n", 0, 1, false, 18, 3),
    ("slots 1\nentries 1\n\n# behind\n", 0, 1, false, 18, 3),
];

// the same; then the line that is refused, and its number
static BAD_HEADINGS: [(&str, usize, u32, bool, u32, u32); 9] = [
    ("slots 1\nentries 1\nthreads 0\n", 0, 1, true, 3, 2),
    (
        "slots 1\nentries 1\nclass A f:weak:B\nglobal g weak A\nclass B\n",
        0,
        1,
        false,
        3,
        7,
    ),
    ("slots 1\n", 0, 1, false, 2, 2),
    ("slots 1", 0, 1, false, 2, 2),
    ("", 0, 1, false, 1, 2),
    ("\n#\nentries 1", 0, 1, false, 3, 2),
    ("slots 1\nentries 1\nclass A\x01\n", 0, 1, false, 3, 1),
    ("slots 1\nentries 1\nclass A\n\n", 0, 1, true, 3, 2),
    ("slots 1\nentries\x01\n", 0, 1, false, 2, 1),
];

fn check_refused(rt: &impl Abort, alloc: Global, text: &str, line: u32, why: u32) {
    assert!(rt; text.len() <= 67_108_864);
    match read_script(alloc, text.as_bytes()) {
        Ok(_) => assert!(rt; false, "accepted: {text:?}"),
        Err(fault) => assert_eq!(rt; fault, ReadFault::Refused { line, why }, "of {text:?}"),
    }
}

fn check_refused_rows(rt: &impl Abort, alloc: Global, rows: &[(&str, u32, u32)]) {
    for (text, line, why) in rows {
        check_refused(rt, alloc, text, *line, *why);
    }
}

#[test]
fn texts_are_refused_at_their_first_fault(rt: HostRuntime) {
    check_refused_rows(&rt, rt.alloc(), &REFUSED);
}

// the canonical text of the script is this
fn check_written(
    rt: &impl Abort,
    alloc: Global,
    script: &Script,
    canonical: &str,
) -> Result<(), Fail>
    requires { IsScript script.now }
{
    let written = write_script(alloc, script)?;
    assert_eq!(rt; written.as_slice(), canonical.as_bytes());
    Ok(())
}

// the text is a script, whose canonical text is this, and so is that of its copy
fn check_script(rt: &impl Abort, alloc: Global, text: &str, canonical: &str) -> Result<(), Fail> {
    assert!(rt; text.len() <= 67_108_864);
    match read_script(alloc, text.as_bytes()) {
        Ok(script) => {
            check_written(rt, alloc, &script, canonical)?;
            let copy = script.copy(alloc)?;
            check_written(rt, alloc, &copy, canonical)
        }
        Err(_) => {
            assert!(rt; false, "refused: {text:?}");
            Ok(())
        }
    }
}

// the same of the text and of what is written of it
fn check_read(rt: &impl Abort, alloc: Global, text: &str, canonical: &str) -> Result<(), Fail> {
    check_script(rt, alloc, text, canonical)?;
    check_script(rt, alloc, canonical, canonical)
}

fn check_read_rows(rt: &impl Abort, alloc: Global, rows: &[(&str, &str)]) -> Result<(), Fail> {
    for (text, canonical) in rows {
        check_read(rt, alloc, text, canonical)?;
    }
    Ok(())
}

#[test]
fn scripts_have_one_canonical_text(rt: HostRuntime) -> Result<(), Fail> {
    check_read_rows(&rt, rt.alloc(), &READ)
}

// reads the heading at a byte, on the line with this number
fn heading_at(
    rt: &impl Abort,
    alloc: Global,
    text: &str,
    at: usize,
    line: u32,
    caps: bool,
) -> Result<Heading, ReadFault> {
    assert!(rt; text.len() <= 67_108_864);
    assert!(rt; at <= text.len());
    assert!(rt; line as usize <= at + 1);
    read_heading(alloc, text.as_bytes(), at, line, 1, caps)
}

fn check_heading(
    rt: &impl Abort,
    alloc: Global,
    row: (&str, usize, u32, bool, usize, u32),
    why: u32,
) {
    let (text, at, line, caps, end, last) = row;
    match heading_at(rt, alloc, text, at, line, caps) {
        Ok(heading) => {
            assert_eq!(rt; heading.end, end, "of {text:?}");
            assert_eq!(rt; heading.line, last, "of {text:?}");
        }
        Err(fault) => assert_eq!(rt;
            fault,
            ReadFault::Refused { line: last, why },
            "of {text:?}"
        ),
    }
}

#[test]
fn headings_end_where_they_end(rt: HostRuntime) {
    let alloc = rt.alloc();
    for (text, at, line, caps, end, last) in HEADINGS {
        check_heading(&rt, alloc, (text, at, line, caps, end, last), 0);
    }
    for (text, at, line, caps, last, why) in BAD_HEADINGS {
        check_heading(&rt, alloc, (text, at, line, caps, 0, last), why);
    }
}

#[test]
fn a_heading_is_written_as_in_a_script(rt: HostRuntime) -> Result<(), Fail> {
    let alloc = rt.alloc();
    let text = "arc 1\nslots 1\nentries 2\nclass A f:weak:A\nglobal g weak A\ndone\n";
    assert!(rt; text.len() <= 67_108_864);
    let Ok(script) = read_script(alloc, text.as_bytes()) else {
        assert!(rt; false);
        return Ok(());
    };
    let heading = write_heading(
        alloc,
        &script.shape,
        script.classes.as_slice(),
        script.globals.as_slice(),
    )?;
    let want =
        "slots 1\nentries 2\ncaps 1073741823 2147483647 4294967295\nclass A f:weak:A\nglobal g weak A\n";
    assert_eq!(rt; heading.as_slice(), want.as_bytes());
    Ok(())
}

// words, and whether each is a name
static WORDS: [(&str, bool); 7] = [
    ("a", true),
    ("Z_9", true),
    ("", false),
    ("9", false),
    ("_a", false),
    ("a-b", false),
    ("\u{e4}", false),
];

// the name has the word's bytes, and is shown as the word
fn check_name(rt: &impl Abort, alloc: Global, name: &Name, word: &str) -> Result<(), Fail> {
    assert_eq!(rt; name.bytes(), word.as_bytes());
    let shown = format!(in alloc; "{name}")?;
    assert_eq!(rt; shown.as_str(), word);
    Ok(())
}

fn check_word(rt: &impl Abort, alloc: Global, word: &str, is_name: bool) -> Result<(), Fail> {
    let name = Name::new(Vec::from_slice(alloc, word.as_bytes())?);
    assert_eq!(rt; name.is_some(), is_name, "of {word:?}");
    match name {
        Some(name) => check_name(rt, alloc, &name, word),
        None => Ok(()),
    }
}

#[test]
fn names_are_spelled_so(rt: HostRuntime) -> Result<(), Fail> {
    for (word, is_name) in &WORDS {
        check_word(&rt, rt.alloc(), word, *is_name)?;
    }
    Ok(())
}

#[test]
fn a_line_equals_itself(rt: HostRuntime) {
    let line = Line {
        operation: 3,
        answer: Answer::New(ObjectName {
            class: 0,
            thread: 1,
            number: 2,
        }),
    };
    assert_eq!(rt; line, line);
}
