//! The judge of a history text: it reads event after event and has the heap judge each.

ghost use Rattle.std.specs.Prelude.{◌≡◌, ◌≤◌, ◌<◌, ℕ, length};
ghost use Rattle.arc_model.specs.History.{History};
ghost use Rattle.arc_heap_judge.specs.Stands.{StandsFor, IsInRange, thread_count};
ghost use Rattle.arc_check.specs.EventTexts.{history_of};
ghost use Rattle.arc_check.specs.Verdicts.{Judges, Checks, verdict_of};

use crate::fault::CheckFault;
use crate::line::EventLine;
use crate::text::{Opened, open_history};
use arc_heap::{ModelHeap, Refusal};
use arc_model::{Event, Illegal, Memory};
use std::alloc::Global;

/// What is to be said of a history: its events are legal, so many, or the event on a line isn't legal, and why is the first of its
/// needs that fails. Lines are counted from the first line of the history text.
#[derive(Clone, Copy, Debug, PartialEq, Eq)]
pub enum Verdict {
    Legal { events: u32 },
    Illegal { line: u32, why: Illegal },
}

/// An event that isn't legal: its line, and the first of its needs that fails.
#[derive(Clone, Copy, Debug, PartialEq, Eq)]
pub struct Breach {
    pub line: u32,
    pub why: Illegal,
}

/// Applies the event where it is legal.
fn judge(heap: &mut ModelHeap, event: EventLine) -> Result<Option<Breach>, Memory>
    requires thread { event.event.thread < thread_count heap.old }
    requires range { IsInRange heap.old.shape event.event.act }
    ensures shape { heap.new.shape ≡ heap.old.shape }
    ensures threads { thread_count heap.new ≡ thread_count heap.old }
    ensures judges { (h : History) → StandsFor heap.old h → Judges h heap.old heap.new event result }
{
    match heap.apply(event.event) {
        Ok(()) => Ok(None),
        Err(Refusal::Illegal(why)) => Ok(Some(Breach {
            line: event.line,
            why,
        })),
        Err(Refusal::Memory) => Err(Memory),
    }
}

/// Judges the history that the text holds, alone or behind a report. Legal: its events are legal. Illegal: the first event that
/// isn't, and the first of its needs that fails. Refused: the text holds no history; a fault anywhere comes before any event that
/// isn't legal. Memory: none was found. The format is this project's own.
pub fn check(alloc: Global, text: &[u8]) -> Result<Verdict, CheckFault>
    requires { length text.now ≤ 67108864 }
    ensures { Checks result (history_of text.now) }
{
    let Opened {
        shape,
        threads,
        mut events,
    } = open_history(alloc, text)?;
    let mut heap = match ModelHeap::make(alloc, shape, threads) {
        Ok(heap) => heap,
        Err(Memory) => return Err(CheckFault::Memory),
    };
    let mut breach = None;
    let mut count = 0u32;
    'judging: loop {
        let event = match events.next_event(alloc)? {
            Some(event) => event,
            None => return Ok(concluded(breach, count)),
        };
        count += 1;
        if breach.is_none() {
            breach = match judge(&mut heap, event) {
                Ok(breach) => breach,
                Err(Memory) => return Err(CheckFault::Memory),
            };
        }
    }
}

/// The verdict, where so many events were read.
fn concluded(breach: Option<Breach>, events: u32) -> Verdict
    ensures { result ≡ verdict_of breach events }
{
    match breach {
        None => Verdict::Legal { events },
        Some(breach) => Verdict::Illegal {
            line: breach.line,
            why: breach.why,
        },
    }
}
