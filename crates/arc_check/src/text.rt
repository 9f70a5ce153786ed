//! The lines of a history text, from its heading to its end.

ghost use Rattle.std.specs.Prelude.{◌≡◌, ◌+◌, ◌*◌, ◌<◌, ◌≤◌, ◌^◌, None, length, IfOk, IfSome, OnSome};
ghost use Rattle.arc_text.specs.Lines.{lines_of};
ghost use Rattle.arc_check.specs.EventTexts.{behind_start, history_of};
ghost use Rattle.arc_check.specs.WrittenHistory.{EventFits};
ghost use Rattle.arc_check.specs.Reading.{BeginsAt, Begins, left, NextIs, IsNamedBy, Opens};

use crate::fault::CheckFault;
use crate::line::{EventLine, Opening, Told, opening_line, told_line, version_begun};
use crate::scope::Scope;
use arc_model::Shape;
use arc_script::{Heading, ReadFault, Reason};
use arc_script_reader::read_heading;
use arc_text::Lines;
use std::alloc::{AllocError, Global};

/// Where a history text begins: the text from its first line on, the byte behind that line, and its version.
#[derive(Clone, Copy, Debug)]
pub struct Started<'a> {
    pub text: &'a [u8],
    pub at: usize,
    pub version: u32,
}

/// The number of threads, and the number of the line behind `events`.
#[derive(Clone, Copy, Debug, PartialEq, Eq)]
pub struct Begun {
    pub threads: u32,
    pub number: u32,
}

/// The events of a history text, read one by one.
#[derive(Drop)]
pub struct Events<'a> {
    scope: Scope,
    number: u32,
    ended: bool,
    lines: Lines<'a>,
}

/// A history text whose events are still to be read: the shape of the heap and the number of threads.
#[derive(Drop)]
pub struct Opened<'a> {
    pub shape: Shape,
    pub threads: u32,
    pub events: Events<'a>,
}

/// The first line that begins a history text.
fn behind_start<'a>(alloc: Global, text: &'a [u8]) -> Result<Option<Started<'a>>, AllocError>
    ensures { IfOk result (λ s. BeginsAt text.now (behind_start (lines_of text.now)) s) }
{
    let mut lines = Lines::new(text);
    'seeking: loop {
        let text = lines.rest();
        let Some(line) = lines.next_line() else {
            return Ok(None);
        };
        if let Some(version) = version_begun(alloc, line)? {
            let at = text.len() - lines.rest().len();
            return Ok(Some(Started { text, at, version }));
        }
    }
}

/// Reads the lines up to `events`, from the line with this number on.
fn begin(alloc: Global, lines: &mut Lines<'_>, number: u32) -> Result<Begun, CheckFault>
    requires { number + length (lines_of lines.old) < 2 ^ 32 }
    ensures begins { Begins number None lines.old lines.new result }
    ensures room { IfOk result (λ b. b.number + length (lines_of lines.new) ≤ number + length (lines_of lines.old)) }
    ensures few { IfOk result (λ b. b.threads ≤ 64) }
{
    let mut threads = None;
    let mut number = number;
    'reading: while let Some(line) = lines.next_line() {
        match opening_line(alloc, threads, line) {
            Ok(Opening::Passed) => number += 1,
            Ok(Opening::Threads(count)) => {
                threads = Some(count);
                number += 1;
            }
            Ok(Opening::Events(threads)) => {
                return Ok(Begun {
                    threads,
                    number: number + 1,
                });
            }
            Err(fault) => return Err(fault.at_line(number)),
        }
    }
    Err(CheckFault::Refused {
        line: number,
        why: Reason::FirstWord.number(),
    })
}

impl<'a> Events<'a> {
    /// The next event, or None where there is none and the text may end so, and then none is left. After a fault the reader
    /// is as before: the line that has it, or for which no memory was found, is the next to be read.
    pub fn next_event(&mut self, alloc: Global) -> Result<Option<EventLine>, CheckFault>
        requires { self.old.number + length (lines_of self.old.lines) < 2 ^ 32 }
        ensures next { NextIs result (left self.old) (left self.new) }
        ensures scope { self.new.scope ≡ self.old.scope }
        ensures room { self.new.number + length (lines_of self.new.lines) ≤ self.old.number + length (lines_of self.old.lines) }
        ensures shorter { IfOk result (λ o. OnSome o (length (lines_of self.new.lines) < length (lines_of self.old.lines))) }
        ensures fits { 1 ≤ self.old.scope.slots → 1 ≤ self.old.scope.entries → IfOk result (λ o. IfSome o (λ e. EventFits self.old.scope e)) }
    {
        let mut lines = Lines::new(self.lines.rest());
        'reading: while let Some(line) = lines.next_line() {
            let number = self.number;
            let told = match told_line(alloc, &self.scope, self.ended, line) {
                Ok(told) => told,
                Err(fault) => return Err(fault.at_line(number)),
            };
            self.lines = Lines::new(lines.rest());
            self.number += 1;
            match told {
                Told::Passed => {}
                Told::Done => self.ended = true,
                Told::Event { step, event } => {
                    return Ok(Some(EventLine {
                        line: number,
                        step,
                        event,
                    }));
                }
            }
        }
        if self.ended {
            return Ok(None);
        }
        Err(CheckFault::Refused {
            line: self.number,
            why: Reason::FirstWord.number(),
        })
    }
}

/// The history text that the text holds, read up to `events`.
pub fn open_history<'a>(alloc: Global, text: &'a [u8]) -> Result<Opened<'a>, CheckFault>
    requires { length text.now ≤ 67108864 }
    ensures opens { Opens result (history_of text.now) }
    ensures names { IfOk result (λ o. IsNamedBy o.events.scope o.shape o.threads) }
    ensures room { IfOk result (λ o. o.events.number + length (lines_of o.events.lines) ≤ 2 + 2 * length text.now) }
{
    let Some(started) = behind_start(alloc, text)? else {
        return Err(CheckFault::Refused {
            line: 1,
            why: Reason::FirstWord.number(),
        });
    };
    let heading = match read_heading(alloc, started.text, started.at, 2, started.version, true) {
        Ok(heading) => heading,
        Err(ReadFault::Refused { line, why }) => return Err(CheckFault::Refused { line, why }),
        Err(ReadFault::Memory) => return Err(CheckFault::Memory),
    };
    let Heading {
        shape,
        classes,
        globals,
        end,
        line,
    } = heading;
    let mut lines = Lines::new(&started.text[end..]);
    let begun = match begin(alloc, &mut lines, line) {
        Ok(begun) => begun,
        Err(fault) => return Err(fault),
    };
    let scope = Scope::new(
        shape.slots(),
        shape.entries(),
        begun.threads,
        classes,
        globals,
    );
    Ok(Opened {
        shape,
        threads: begun.threads,
        events: Events {
            scope,
            number: begun.number,
            ended: false,
            lines,
        },
    })
}
