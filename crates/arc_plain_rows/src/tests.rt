//! Tests: replays that were worked out by hand, step by step.

use crate::blocks::BLOCKS;
use crate::fields::{FIELDS, SHARED_FIELDS};
use crate::globals::{GLOBALS, GlobalRow};
use crate::lives::LIVES;
use crate::rows::Row;
use crate::schedules::SCHEDULES;
use crate::unowned::UNOWNED;
use arc_model::{Act, Event, ObjectName};
use arc_ops::{Answer, Line, Stamped, ThreadLines};
use arc_plain::{Replay, replay_all};
use arc_script_reader::read_script;
use arc_served::is_served;
use std::alloc::{AllocError, Global};
use std::process::Abort;
use std::test::Fail;

fn replay_of(rt: &impl Abort, alloc: Global, text: &str) -> Result<Replay, Fail> {
    assert!(rt; text.len() <= 67_108_864);
    let Ok(script) = read_script(alloc, text.as_bytes()) else {
        return Err("no script")?;
    };
    assert!(rt; is_served(&script), "a script that is served");
    Ok(replay_all(alloc, &script)?)
}

fn stamped(step: u64, thread: u32, act: Act) -> Stamped {
    Stamped {
        step,
        event: Event { thread, act },
    }
}

fn check_events(
    rt: &impl Abort,
    alloc: Global,
    events: &[Stamped],
    row: &Row,
) -> Result<(), AllocError> {
    let mut wanted = Vec::new(alloc);
    for (step, thread, act) in row.events {
        wanted.push(stamped(*step, *thread, *act))?;
    }
    assert_eq!(rt; events, wanted.as_slice(), "the events of {:?}", row.text);
    Ok(())
}

/// The lines of the thread with this number are these.
fn check_thread(
    rt: &impl Abort,
    alloc: Global,
    thread: &ThreadLines,
    number: usize,
    lines: &[(u32, Answer)],
) -> Result<(), AllocError> {
    let mut wanted = Vec::new(alloc);
    for (operation, answer) in lines {
        wanted.push(Line {
            operation: *operation,
            answer: *answer,
        })?;
    }
    assert_eq!(rt; thread.thread as usize, number);
    assert_eq!(rt;
        thread.lines.as_slice(),
        wanted.as_slice(),
        "the lines of thread {number}"
    );
    Ok(())
}

fn check_threads(
    rt: &impl Abort,
    alloc: Global,
    threads: &[ThreadLines],
    row: &Row,
) -> Result<(), AllocError> {
    assert_eq!(rt;
        threads.len(),
        row.lines.len(),
        "the threads of {:?}",
        row.text
    );
    for (place, (thread, lines)) in threads.iter().zip(row.lines).enumerate() {
        check_thread(rt, alloc, thread, place.saturating_add(1), lines)?;
    }
    Ok(())
}

/// The end section has no line, and the bits are these.
fn check_end(rt: &impl Abort, replay: &Replay, slots: &[u64]) {
    assert_eq!(rt; replay.end.len(), 0);
    check_bits(rt, replay, slots);
}

/// The words of the bits, which stand last, are these: those of the slots, and that of the one entry, which is never taken.
fn check_bits(rt: &impl Abort, replay: &Replay, slots: &[u64]) {
    assert_eq!(rt; replay.words.last(), Some(&0));
    let bits = replay.words.iter().rev().skip(1);
    for (word, taken) in bits.zip(slots.iter().rev()) {
        assert_eq!(rt; *word, *taken);
    }
}

fn check_rows(rt: &impl Abort, alloc: Global, rows: &[Row]) -> Result<(), Fail> {
    for row in rows {
        let replay = replay_of(rt, alloc, row.text)?;
        check_events(rt, alloc, &replay.events, row)?;
        check_threads(rt, alloc, &replay.threads, row)?;
        check_end(rt, &replay, &[row.taken]);
        assert_eq!(rt; replay.steps, row.steps, "the steps of {:?}", row.text);
    }
    Ok(())
}

#[test]
fn replays_are_as_worked_out(rt: HostRuntime) -> Result<(), Fail> {
    let alloc = rt.alloc();
    check_rows(&rt, alloc, LIVES)?;
    check_rows(&rt, alloc, SCHEDULES)?;
    check_rows(&rt, alloc, BLOCKS)?;
    check_rows(&rt, alloc, UNOWNED)
}

/// The end section's lines are these.
fn check_end_lines(
    rt: &impl Abort,
    alloc: Global,
    replay: &Replay,
    lines: &[(u32, Answer)],
) -> Result<(), AllocError> {
    let mut wanted = Vec::new(alloc);
    for (operation, answer) in lines {
        wanted.push(Line {
            operation: *operation,
            answer: *answer,
        })?;
    }
    assert_eq!(rt;
        replay.end.as_slice(),
        wanted.as_slice(),
        "the lines of the end section"
    );
    Ok(())
}

fn check_global_rows(rt: &impl Abort, alloc: Global, rows: &[GlobalRow]) -> Result<(), Fail> {
    for global in rows {
        let row = &global.row;
        let replay = replay_of(rt, alloc, row.text)?;
        check_events(rt, alloc, &replay.events, row)?;
        check_threads(rt, alloc, &replay.threads, row)?;
        check_end_lines(rt, alloc, &replay, global.end)?;
        check_bits(rt, &replay, &[row.taken]);
        assert_eq!(rt; replay.steps, row.steps, "the steps of {:?}", row.text);
    }
    Ok(())
}

#[test]
fn replays_with_globals_are_as_worked_out(rt: HostRuntime) -> Result<(), Fail> {
    check_global_rows(&rt, rt.alloc(), GLOBALS)
}

#[test]
fn replays_with_fields_are_as_worked_out(rt: HostRuntime) -> Result<(), Fail> {
    let alloc = rt.alloc();
    check_rows(&rt, alloc, FIELDS)?;
    check_global_rows(&rt, alloc, SHARED_FIELDS)
}

/// A script of 64 slots and 64 threads, each of which makes an object and ends; turn about as often as is said.
fn crowd(alloc: Global, rounds: u32) -> Result<String, AllocError> {
    let mut text = "arc 1\nslots 64\nentries 1\nclass Node\n".to_string(alloc)?;
    for thread in 1..65u32 {
        let lines = format!(in alloc; "thread {thread}\nvar a strong Node\nnew a Node\n")?;
        text.push_str(&lines)?;
    }
    for place in 0..rounds.saturating_mul(64) {
        let line = format!(in alloc; "schedule {}\n", 1 + place % 64)?;
        text.push_str(&line)?;
    }
    text.push_str("done\n")?;
    Ok(text)
}

/// Each thread has made one object, which ended with its scope.
fn check_crowd(rt: &impl Abort, alloc: Global, threads: &[ThreadLines]) -> Result<(), AllocError> {
    assert_eq!(rt; threads.len(), 64);
    for (place, thread) in threads.iter().enumerate() {
        let number = place.saturating_add(1);
        let name = ObjectName {
            class: 0,
            thread: thread.thread,
            number: 1,
        };
        let lines = [(1, Answer::New(name)), (0, Answer::Deinit(name))];
        check_thread(rt, alloc, thread, number, &lines)?;
    }
    Ok(())
}

/// One after the other they make twelve steps each, in the first slot. Turn about, all threads that have no slot yet load the bits in one
/// round and try the first clear one in the next: the lowest of them sets it, the others find it set. So thread t has its slot in round 2t,
/// and gives it back ten rounds later; it is one of the first six.
#[test]
fn sixty_four_threads(rt: HostRuntime) -> Result<(), Fail> {
    let alloc = rt.alloc();
    for (rounds, slot, steps) in [(0, 0, 768), (138, 3, 4800)] {
        let replay = replay_of(&rt, alloc, &crowd(alloc, rounds)?)?;
        assert_eq!(rt; replay.events.len(), 256);
        let vacated = stamped(steps, 64, Act::Vacate { slot });
        assert_eq!(rt; replay.events.last().copied(), Some(vacated));
        check_crowd(&rt, alloc, &replay.threads)?;
        check_end(&rt, &replay, &[0]);
        assert_eq!(rt; replay.steps, steps);
    }
    Ok(())
}

/// A script of 65 slots: thread 1 makes 64 objects, which it keeps over its first phase, and thread 2 two of them.
fn pool(alloc: Global) -> Result<String, AllocError> {
    let mut text = "arc 1\nslots 65\nentries 1\nclass Node\nthread 1\n".to_string(alloc)?;
    for place in 0..64u32 {
        text.push_str(&format!(in alloc; "var v{place} strong Node\n")?)?;
    }
    for place in 0..64u32 {
        text.push_str(&format!(in alloc; "new v{place} Node\n")?)?;
    }
    text.push_str(
        "phase\nthread 2\nvar a strong Node\nvar b strong Node\nnew a Node\nnew b Node\ndone\n",
    )?;
    Ok(text)
}

/// 64 objects are made in four steps each. Thread 2 loads the full first word of the bits, finds slot 64 in the second one and takes it with
/// its step 259; with steps 262 and 263 it finds both words full. Then it drops its object, and thread 1 its own, in eight steps each.
#[test]
fn two_words_of_bits(rt: HostRuntime) -> Result<(), Fail> {
    let alloc = rt.alloc();
    let replay = replay_of(&rt, alloc, &pool(alloc)?)?;
    let events = replay.events.as_slice();
    let taken = Act::New {
        hand: 1,
        class: 0,
        slot: 64,
    };
    assert_eq!(rt; events.len(), 64 + 1 + 1 + 3 + 64 * 3);
    assert_eq!(rt; events.get(64), Some(&stamped(259, 2, taken)));
    assert_eq!(rt; events.get(65), Some(&stamped(263, 2, Act::Full)));
    assert_eq!(rt;
        events.get(68),
        Some(&stamped(271, 2, Act::Vacate { slot: 64 }))
    );
    let last = stamped(783, 1, Act::Vacate { slot: 63 });
    assert_eq!(rt; events.last(), Some(&last));
    check_end(&rt, &replay, &[0, 0]);
    assert_eq!(rt; replay.steps, 783);
    Ok(())
}

/// The lines of a thread with this number, which has `count` variables, and fills `filled` of them in its first phase.
fn push_thread(
    alloc: Global,
    text: &mut String,
    thread: u32,
    count: u32,
    filled: u32,
) -> Result<(), AllocError> {
    text.push_str(&format!(in alloc; "thread {thread}\n")?)?;
    for place in 0..count {
        text.push_str(&format!(in alloc; "var v{place} strong Node\n")?)?;
    }
    for place in 0..filled {
        text.push_str(&format!(in alloc; "new v{place} Node\n")?)?;
    }
    text.push_str("phase\n")
}

/// A script of 4,096 slots: in the first phase 64 threads fill all but one, in the second one thread 64 makes two objects more, and the other
/// threads keep theirs until the third one.
fn pool_of_most(alloc: Global) -> Result<String, AllocError> {
    let mut text = "arc 1\nslots 4096\nentries 1\nclass Node\n".to_string(alloc)?;
    for thread in 1..64u32 {
        push_thread(alloc, &mut text, thread, 64, 64)?;
        text.push_str("phase\n")?;
    }
    push_thread(alloc, &mut text, 64, 65, 63)?;
    text.push_str("new v63 Node\nnew v64 Node\ndone\n")?;
    Ok(text)
}

/// An object in slot s takes s / 64 loads of full words, a load, the bit and two stores: 145,341 steps for the first 4,095 slots. The last one
/// takes 67 steps, of which the 65th sets its bit; and the 64th load after it tells that no slot is free.
#[test]
fn the_last_slot(rt: HostRuntime) -> Result<(), Fail> {
    let alloc = rt.alloc();
    let replay = replay_of(&rt, alloc, &pool_of_most(alloc)?)?;
    let taken = Act::New {
        hand: 64,
        class: 0,
        slot: 4095,
    };
    let events = replay.events.as_slice();
    assert_eq!(rt; events.get(4095), Some(&stamped(145_341 + 65, 64, taken)));
    let full = stamped(145_341 + 67 + 64, 64, Act::Full);
    assert_eq!(rt; events.get(4096), Some(&full));
    check_end(&rt, &replay, &[0; 64]);
    assert_eq!(rt; replay.steps, 145_341 + 67 + 64 + 4096 * 8);
    Ok(())
}
