//! The call that reads a script.

ghost use Rattle.std.specs.Prelude.{◌≤◌, length, IfOk};
ghost use Rattle.arc_script.specs.Valid.{IsScript};
ghost use Rattle.arc_script.specs.Grammar.{script_of};
ghost use Rattle.arc_script.specs.Reading.{Reads};

use crate::reader::Reader;
use arc_script::{LineFault, Place, ReadFault, Script};
use arc_text::Lines;
use std::alloc::Global;

/// The script that the text stands for. Refused where it stands for none: with the first line that has a fault, and the least
/// number of a fault of this line (`specs/Grammar.antt`). Memory where there is none. The language is this project's own.
pub fn read_script(alloc: Global, text: &[u8]) -> Result<Script, ReadFault>
    requires { length text.now ≤ 67108864 }
    ensures exact { Reads result (script_of text.now) }
    ensures valid { IfOk result (λ s. IsScript s) }
{
    let mut reader = Reader::new(alloc, 1, Place::Start);
    let mut lines = Lines::new(text);
    let mut number = 1;
    'reading: while let Some(line) = lines.next_line() {
        match reader.take_line(alloc, line, lines.rest()) {
            Ok(()) => number += 1,
            Err(LineFault::Refused(reason)) => {
                return Err(ReadFault::Refused {
                    line: number,
                    why: reason.number(),
                });
            }
            Err(LineFault::Memory) => return Err(ReadFault::Memory),
        }
    }
    reader.finish(alloc, number)
}
