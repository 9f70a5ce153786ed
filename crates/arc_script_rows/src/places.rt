//! Which forms of a line stand at which places of a text.

use crate::rows::refusal_of_line;
use std::alloc::Global;
use std::process::Abort;
use std::test::Fail;

// one line of each form, in an order in which those that stand at a place are neighbours
static FORMS: [&str; 20] = [
    "arc 1",
    "slots 1",
    "entries 1",
    "caps 1 1 2",
    "class C",
    "global r strong A",
    "thread 2",
    "schedule 1",
    "done",
    "phase",
    "new a A",
    "copy a b",
    "move a b",
    "drop a",
    "unown u a",
    "weak w a",
    "load a w",
    "get a a.f",
    "set a.f b",
    "var y strong A",
];

// text before a line, the line's number, and which forms stand there: the first, and the first behind that doesn't
static PLACES: [(&str, u32, usize, usize); 13] = [
    ("", 1, 0, 1),
    ("#\n", 2, 0, 1),
    ("arc 1\n", 2, 1, 2),
    ("arc 1\nslots 1\n", 3, 2, 3),
    ("arc 1\nslots 1\nentries 1\n", 4, 3, 9),
    ("arc 1\nslots 1\nentries 1\ncaps 1 1 2\n", 5, 4, 9),
    ("arc 1\nslots 1\nentries 1\nclass A\n", 5, 4, 9),
    (
        "arc 1\nslots 1\nentries 1\nclass A\nglobal g weak A\n",
        6,
        5,
        9,
    ),
    ("arc 1\nslots 1\nentries 1\nthread 1\n", 5, 6, 20),
    (
        "arc 1\nslots 1\nentries 1\nclass A\nthread 1\nvar v weak A\n",
        7,
        6,
        20,
    ),
    (
        "arc 1\nslots 1\nentries 1\nclass A\nthread 1\nvar v weak A\ndrop v\n",
        8,
        6,
        19,
    ),
    ("arc 1\nslots 1\nentries 1\nthread 1\nphase\n", 6, 6, 19),
    ("arc 1\nslots 1\nentries 1\nthread 1\nschedule 1\n", 6, 7, 9),
];

// a form that doesn't stand at the place is refused there with 2, and no other is
fn check_place(
    rt: &impl Abort,
    alloc: Global,
    place: (&str, u32, usize, usize),
) -> Result<(), Fail> {
    let (before, number, first, end) = place;
    for (form, line) in FORMS.iter().enumerate() {
        let found = refusal_of_line(rt, alloc, before, line, "\n")?;
        let stands = first <= form && form < end;
        assert_eq!(rt; found != (number, 2), stands, "{line} behind {before:?}");
    }
    Ok(())
}

#[test]
fn forms_stand_at_their_places(rt: HostRuntime) -> Result<(), Fail> {
    for place in PLACES {
        check_place(&rt, rt.alloc(), place)?;
    }
    Ok(())
}

#[test]
fn nothing_stands_behind_done(rt: HostRuntime) -> Result<(), Fail> {
    let before = "arc 1\nslots 1\nentries 1\nthread 1\ndone\n";
    check_place(&rt, rt.alloc(), (before, 6, 0, 0))
}
