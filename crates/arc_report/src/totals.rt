//! How many objects, deinits and leaks there were.

ghost use Rattle.std.specs.Prelude.{◌≡◌, ◌++◌, ◌<◌, ◌^◌, OnOk};
ghost use Rattle.std.specs.String.{string_bytes};
ghost use Rattle.arc_report.specs.Lines.{is_new, is_deinit, new_count, deinit_count, object_total, deinit_total};
ghost use Rattle.arc_report.specs.Report.{totals_text};

use arc_ops::ThreadLines;
use arc_script::{Answer, Line};
use std::alloc::AllocError;

fn is_new(line: &Line) -> bool
    ensures { result ≡ is_new line.now.answer }
{
    match line.answer {
        Answer::New(_) => true,
        _ => false,
    }
}

fn is_deinit(line: &Line) -> bool
    ensures { result ≡ is_deinit line.now.answer }
{
    match line.answer {
        Answer::Deinit(_) => true,
        _ => false,
    }
}

fn new_count(lines: &[Line]) -> usize
    ensures { result ≡ new_count lines.now }
{
    lines.iter().filter(|line| is_new(line)).count()
}

fn deinit_count(lines: &[Line]) -> usize
    ensures { result ≡ deinit_count lines.now }
{
    lines.iter().filter(|line| is_deinit(line)).count()
}

/// How many objects the lines say that were made.
pub(crate) fn object_total(threads: &[ThreadLines]) -> usize
    requires { object_total threads.now < 2 ^ 64 }
    ensures { result ≡ object_total threads.now }
{
    let mut total = 0;
    for thread in threads {
        total += new_count(thread.lines.as_slice());
    }
    total
}

/// How many deinit lines there are.
pub(crate) fn deinit_total(threads: &[ThreadLines], end: &[Line]) -> usize
    requires { deinit_total threads.now end.now < 2 ^ 64 }
    ensures { result ≡ deinit_total threads.now end.now }
{
    let mut total = deinit_count(end);
    for thread in threads {
        total += deinit_count(thread.lines.as_slice());
    }
    total
}

pub(crate) fn put_totals(
    out: &mut String,
    objects: usize,
    deinits: usize,
    leaks: usize,
) -> Result<(), AllocError>
    ensures { OnOk result (string_bytes out.new ≡ string_bytes out.old ++ totals_text objects deinits leaks) }
{
    writeln!(out, "objects {objects} deinits {deinits} leaks {leaks}")
}
