//! The replay of a script by its schedule.

ghost use Rattle.std.specs.Prelude.{◌≡◌, ◌≤◌, drop, length, IfOk};
ghost use Rattle.arc_script.specs.Valid.{IsScript};
ghost use Rattle.arc_served.specs.Served.{IsServed};
ghost use Rattle.arc_replays.specs.Histories.{lines_from, first_lines};
ghost use Rattle.arc_plain.specs.Replays.{IsReplay};

use crate::crew::Crew;
use arc_model::Memory;
use arc_ops::{Line, Stamped, Stepper, ThreadLines};
use arc_script::Script;
use sqlite_items::Items;
use std::alloc::{AllocError, Global};

/// What the replay of a script gives: the lines of each thread and of the end section, the events with the numbers of their steps,
/// the words in the end, and the number of steps.
#[derive(Debug, Drop)]
pub struct Replay {
    pub threads: Vec<ThreadLines>,
    pub end: Vec<Line>,
    pub events: Vec<Stamped>,
    pub words: Vec<u64>,
    pub steps: u64,
}

/// The lines of the threads but thread 0.
fn lines_of(alloc: Global, steppers: &[Stepper<'_>]) -> Result<Vec<ThreadLines>, AllocError>
    requires { length steppers.now ≤ 65 }
    ensures { IfOk result (λ v. v.items ≡ lines_from 1 (drop 1 steppers.now)) }
{
    let mut threads = Vec::new(alloc);
    for thread in 1..steppers.len() {
        let lines = Items::from_slice(alloc, steppers[thread].lines())?;
        threads.push(ThreadLines {
            thread: thread as u32,
            lines,
        })?;
    }
    Ok(threads)
}

/// The lines of thread 0.
fn end_lines<'a>(steppers: &'a [Stepper<'_>]) -> &'a [Line]
    ensures { result.now ≡ first_lines steppers.now }
{
    match steppers.first() {
        None => &[],
        Some(first) => first.lines(),
    }
}

/// The replay of a script that is served so far: the steps of its threads on words that are all 0, phase by phase, by its schedule and then
/// thread after thread, and then those of the end section.
pub fn replay_all(alloc: Global, script: &Script) -> Result<Replay, Memory>
    requires script { IsScript script.now }
    requires served { IsServed script.now }
    ensures { IfOk result (IsReplay script.now) }
{
    let mut crew = Crew::make(alloc, script)?;
    crew.run()?;
    let threads = lines_of(alloc, crew.steppers())?;
    let end = Vec::from_slice(alloc, end_lines(crew.steppers()))?;
    let words = Vec::from_slice(alloc, crew.words())?;
    let steps = crew.steps();
    Ok(Replay {
        threads,
        end,
        events: crew.into_events(),
        words,
        steps,
    })
}
