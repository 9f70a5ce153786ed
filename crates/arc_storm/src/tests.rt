//! Generated scripts. What is expected here is what bench/storm.py writes.

ghost use Rattle.std.specs.Prelude.{◌≤◌};

use crate::generate::storm;
use arc_script::{Op, OpCell};
use arc_script_reader::read_script;
use arc_script_text::write_script;
use std::alloc::Global;
use std::process::Abort;
use std::test::Fail;

fn field(owner: u32, field: u32) -> OpCell {
    OpCell::Field { owner, field }
}

static EIGHT: [Op; 8] = [
    Op::New { to: 9, class: 2 },
    Op::Drop { var: 1 },
    Op::New { to: 0, class: 0 },
    Op::Set {
        cell: OpCell::Field { owner: 4, field: 0 },
        from: 8,
    },
    Op::Set {
        cell: OpCell::Global(0),
        from: 1,
    },
    Op::Copy { to: 5, from: 4 },
    Op::Set {
        cell: OpCell::Field { owner: 4, field: 0 },
        from: 8,
    },
    Op::Copy { to: 1, from: 0 },
];

static PLACES: [u32; 32] = [
    11, 1, 2, 7, 9, 8, 8, 7, 2, 7, 6, 2, 10, 10, 12, 5, 1, 1, 5, 9, 11, 2, 10, 6, 6, 5, 9, 15, 8,
    4, 10, 2,
];

#[test]
fn eight_operations_from_seven(rt: HostRuntime) -> Result<(), Fail> {
    let script = storm(rt.alloc(), 8, 7).ok().ok_or("a script")?;
    for (number, operation) in EIGHT.iter().enumerate() {
        let thread = script.threads.get(number).ok_or("a thread")?;
        let phase = thread.phases.get(0).ok_or("a phase")?;
        assert_eq!(rt; phase.as_slice(), [*operation].as_slice());
    }
    assert_eq!(rt; script.threads.len(), 16);
    assert_eq!(rt; script.schedule.as_slice(), PLACES.as_slice());
    Ok(())
}

#[test]
fn a_thread_gets_every_sixteenth(rt: HostRuntime) -> Result<(), Fail> {
    let script = storm(rt.alloc(), 40, 18446744073709551615)
        .ok()
        .ok_or("a script")?;
    let thread = script.threads.get(7).ok_or("a thread")?;
    let phase = thread.phases.get(0).ok_or("a phase")?;
    let expected = [
        Op::New { to: 8, class: 2 },
        Op::Set {
            cell: field(4, 2),
            from: 3,
        },
        Op::Set {
            cell: OpCell::Global(0),
            from: 1,
        },
    ];
    assert_eq!(rt; phase.as_slice(), expected.as_slice());
    Ok(())
}

// a checksum, so that the whole text need not stand here: 32-bit FNV-1a
fn checksum(text: &[u8]) -> u32 {
    let mut sum = 2166136261u32;
    for byte in text {
        sum = (sum ^ u32::from(*byte)).wrapping_mul(16777619);
    }
    sum
}

// the canonical text has this length and checksum, and is read and written back the same
fn check_storm(
    rt: &impl Abort,
    alloc: Global,
    count: u32,
    start: u64,
    length: usize,
    sum: u32,
) -> Result<(), Fail>
    requires some { 1 ≤ count }
    requires few { count ≤ 100000 }
{
    let script = storm(alloc, count, start).ok().ok_or("a script")?;
    let text = write_script(alloc, &script).ok().ok_or("a text")?;
    assert_eq!(rt; text.len(), length);
    assert_eq!(rt; checksum(&text), sum);
    assert!(rt; text.len() <= 67_108_864);
    let script = read_script(alloc, &text).ok().ok_or("a script read back")?;
    let back = write_script(alloc, &script)
        .ok()
        .ok_or("a text written back")?;
    assert_eq!(rt; back.as_slice(), text.as_slice());
    Ok(())
}

#[test]
fn small_storms_have_their_texts(rt: HostRuntime) -> Result<(), Fail> {
    check_storm(&rt, rt.alloc(), 8, 7, 4020, 3569203877)?;
    check_storm(&rt, rt.alloc(), 17, 18446744073709551615, 4225, 3060485931)
}

#[test]
fn the_text_of_a_thousand_operations(rt: HostRuntime) -> Result<(), Fail> {
    check_storm(&rt, rt.alloc(), 1000, 7, 26238, 1129521947)
}

#[test]
fn the_text_of_fifty_thousand_operations(rt: HostRuntime) -> Result<(), Fail> {
    check_storm(&rt, rt.alloc(), 50_000, 7, 1118322, 4095314329)
}
