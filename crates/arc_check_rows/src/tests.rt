//! Tests of the judge: a text for each need of each event, and worked histories.

use crate::rows::{
    BEHIND_A_TEXT, FAULTS, FIRST_ILLEGAL, HEADING, HISTORIES, NEEDS, SMALL, TEXTS, WEAK_IMMORTAL,
    WEAK_LOAD,
};
use arc_check::{CheckFault, Verdict, check};
use arc_model::Illegal;
use std::alloc::Global;
use std::test::Fail;

/// What is said of a text of these two parts.
fn judged(alloc: Global, heading: &[u8], rest: &[u8]) -> Result<Result<Verdict, CheckFault>, Fail> {
    let mut text = heading.to_vec(alloc)?;
    text.extend_from_slice(rest)?;
    if text.len() > 67_108_864 {
        return Err("too long")?;
    }
    Ok(check(alloc, &text))
}

/// What is said of a text of these events.
fn judged_events(
    alloc: Global,
    heading: &[u8],
    events: &[u8],
) -> Result<Result<Verdict, CheckFault>, Fail> {
    let mut rest = events.to_vec(alloc)?;
    rest.extend_from_slice(b"done\n")?;
    judged(alloc, heading, &rest)
}

fn line_count(text: &[u8]) -> u32 {
    let mut lines = 0u32;
    for b in text {
        if *b == b'\n' {
            lines = lines.saturating_add(1);
        }
    }
    lines
}

#[test]
fn each_need_of_each_event_is_told(rt: HostRuntime) -> Result<(), Fail> {
    for (events, why) in NEEDS {
        let line = line_count(HEADING).saturating_add(line_count(events));
        let want = Verdict::Illegal { line, why: *why };
        assert_eq!(rt; judged_events(rt.alloc(), HEADING, events)?, Ok(want));
    }
    Ok(())
}

#[test]
fn histories_that_are_legal(rt: HostRuntime) -> Result<(), Fail> {
    for (heading, events, count) in HISTORIES {
        let want = Verdict::Legal { events: *count };
        assert_eq!(rt; judged_events(rt.alloc(), heading, events)?, Ok(want));
    }
    Ok(())
}

#[test]
fn the_first_event_that_is_not_legal_is_told(rt: HostRuntime) -> Result<(), Fail> {
    for (heading, events, line, why) in FIRST_ILLEGAL {
        let want = Verdict::Illegal {
            line: *line,
            why: *why,
        };
        assert_eq!(rt; judged_events(rt.alloc(), heading, events)?, Ok(want));
    }
    let want = Verdict::Illegal {
        line: 9,
        why: Illegal::NotHeld,
    };
    assert_eq!(rt; judged(rt.alloc(), BEHIND_A_TEXT, b"")?, Ok(want));
    Ok(())
}

#[test]
fn lines_are_refused_by_their_least_fault(rt: HostRuntime) -> Result<(), Fail> {
    for (line, why) in FAULTS {
        let want = CheckFault::Refused { line: 9, why: *why };
        assert_eq!(rt; judged(rt.alloc(), SMALL, line)?, Err(want));
    }
    for (text, line) in TEXTS {
        let want = CheckFault::Refused {
            line: *line,
            why: 2,
        };
        assert_eq!(rt; judged(rt.alloc(), text, b"")?, Err(want));
    }
    Ok(())
}

#[test]
fn an_immortal_class_has_no_weak_references(rt: HostRuntime) -> Result<(), Fail> {
    for (text, line) in WEAK_IMMORTAL {
        let want = CheckFault::Refused {
            line: *line,
            why: 13,
        };
        assert_eq!(rt; judged(rt.alloc(), text, b"")?, Err(want));
    }
    Ok(())
}

#[test]
fn a_history_that_is_cut_lacks_its_next_line(rt: HostRuntime) -> Result<(), Fail> {
    let mut end = 0usize;
    for line in WEAK_LOAD.split(|b| *b == b'\n') {
        let cut = WEAK_LOAD.get(..end).ok_or("past the end")?;
        if end == WEAK_LOAD.len() {
            return Ok(());
        }
        let want = CheckFault::Refused {
            line: line_count(cut).saturating_add(1),
            why: 2,
        };
        assert_eq!(rt; judged(rt.alloc(), cut, b"")?, Err(want));
        end = end.saturating_add(line.len()).saturating_add(1);
    }
    Ok(())
}
