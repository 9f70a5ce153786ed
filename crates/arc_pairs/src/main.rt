//! Pairs of calls of the shared heap on real threads: a retain and a release, or a new object and its end.
//!
//! A program for measuring, and a test with real threads: each thread makes pairs of calls on an object of its own, on a shared one, or
//! on new ones. What the calls promise is `arc_table`'s; here each pair's answers are met, and a call that answers `Again` is called
//! again.
//!
//! It gives up for two causes only, a heap that is full and a count at its cap, and says which. It promises nothing of time: what it
//! measures stands in docs/BENCHMARKS.md.
#![tactic(auto)]

ghost use Rattle.std.specs.Prelude.{◌≤◌, IfOk};

mod heaps;
mod lasting;
mod life;
mod loops;
mod own;
mod passes;
mod share;
mod status;
mod total;
mod words;

use own::{own, own_lives, own_lives_behind};
use share::shared;
use status::Status;
use std::alloc::Global;
use std::process::ExitCode;
use std::rt::Env;
use std::sync::Wait;
use std::thread::Threads;
use std::time::Instant;
use std::{env, io};
use words::{Asked, Mode, asked_by};

/// What the program's arguments ask for.
fn asked(rt: &(impl Env + AllocGlobal)) -> Result<Asked, Status>
    ensures { IfOk result (λ a. (1 ≤ a.threads) × (a.threads ≤ 32) × (a.times ≤ 6400000)) }
{
    let arguments = match env::args(rt) {
        Ok(arguments) => arguments,
        Err(e) if e.kind() == io::ErrorKind::OutOfMemory => return Err(Status::Memory),
        Err(_) => return Err(Status::Usage),
    };
    let mut words = Vec::new(rt.alloc());
    for word in arguments.skip(1) {
        if words.push(word).is_err() {
            return Err(Status::Memory);
        }
    }
    asked_by(&words).ok_or(Status::Usage)
}

/// How many objects ended. `None` where no memory was found.
fn ended<R: Threads + Wait + Sync>(rt: &R, alloc: Global, asked: &Asked) -> Option<u64>
    requires { (1 ≤ asked.now.threads) × (asked.now.threads ≤ 32) × (asked.now.times ≤ 6400000) }
{
    match asked.mode {
        Mode::Own => own(rt, alloc, asked.threads, asked.times),
        Mode::Shared => shared(rt, alloc, asked.threads, asked.times),
        Mode::Lives => own_lives(rt, alloc, asked.threads, asked.times),
        Mode::Behind => own_lives_behind(rt, alloc, asked.threads, asked.times),
    }
}

/// The lines of a run: how many objects ended, and where it is asked for the nanoseconds that the run took.
fn told(rt: &impl Print, asked: &Asked, ended: u64, nanoseconds: u128) -> io::Result<()> {
    let mode = asked.mode;
    let threads = asked.threads;
    let times = asked.times;
    println!(rt; "{mode} {threads} {times}: {ended} ended")?;
    if asked.is_timed {
        println!(rt; "{nanoseconds}")?;
    }
    Ok(())
}

/// The end of a run that asks for nothing that there is, with a line that says what there is.
fn refused(rt: &impl Eprint, status: Status) -> ExitCode {
    if status == Status::Usage {
        let line = eprintln!(rt; "usage: arc_pairs own|shared|lives|behind THREADS TIMES [timed]");
        if line.is_err() {
            return ExitCode::from(Status::WriteFault as u8);
        }
    }
    ExitCode::from(status as u8)
}

fn main(rt: HostRuntime) -> ExitCode {
    let asked = match asked(&rt) {
        Ok(asked) => asked,
        Err(status) => return refused(&rt, status),
    };
    let Ok(start) = Instant::now(&rt) else {
        return ExitCode::from(Status::ReadFault as u8);
    };
    let Some(ended) = ended(&rt, rt.alloc(), &asked) else {
        return ExitCode::from(Status::Memory as u8);
    };
    let Ok(taken) = start.elapsed(&rt) else {
        return ExitCode::from(Status::ReadFault as u8);
    };
    let status = match told(&rt, &asked, ended, taken.as_nanos()) {
        Ok(()) => Status::Done,
        Err(_) => Status::WriteFault,
    };
    ExitCode::from(status as u8)
}
