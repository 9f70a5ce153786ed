//! The program `arc`: what the words of the command line ask for, what it reads and writes then, and how it ends.
//!
//! `main` is one call, of `arc_plain_top`, whose contract is the program's: for each status, what was read, what was written and why. After Done of
//! `replay` the report and the history that were printed are those of a replay of the script that was read, with one legal history; after Done
//! of `check` the text that was read is what the answer says.
//!
//! Each other status has its cause: words that ask for nothing, a text that is refused, with line and reason, a script that isn't served, a history
//! that isn't legal, a fault of reading or writing, a text that is too long. Memory alone may run out at any time. Nothing is said of time, and
//! nothing of other programs at the ends of its pipes.
#![tactic(auto)]

mod calls;
mod output;
mod status;

use arc_command::{HostLine, words_of};
use arc_io::{StdSink, StdSource};
use calls::arc_plain_top;
use std::process::ExitCode;

fn main(rt: HostRuntime) -> ExitCode {
    arc_plain_top(
        rt.alloc(),
        &words_of(&HostLine::new(&rt)),
        &mut StdSource::new(rt.stdin()),
        &mut StdSink::new(rt.stdout()),
    )
}

#[cfg(test)]
mod tests;
