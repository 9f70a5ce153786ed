//! The last line of a report.

ghost use Rattle.std.specs.Prelude.{◌≡◌, ◌++◌, OnOk, IfOk};
ghost use Rattle.std.specs.String.{string_bytes};
ghost use Rattle.arc_report.specs.Summary.{figure_text, summary};

use arc_model::Memory;
use std::alloc::{AllocError, Global};

fn put_figure(out: &mut String, word: &str, number: u32) -> Result<(), AllocError>
    ensures { OnOk result (string_bytes out.new ≡ string_bytes out.old ++ figure_text word.now number) }
{
    writeln!(out, "{word} {number}")
}

/// The summary of the replay of the generated script with these `count` and `start`: how many objects were made and deinited, and
/// how many leaked. This project's own. Memory: no memory was found.
pub fn summary_text(
    alloc: Global,
    count: u32,
    start: u64,
    objects: u32,
    deinits: u32,
    leaks: u32,
) -> Result<Vec<u8>, Memory>
    ensures { IfOk result (λ v. v.items ≡ summary count start objects deinits leaks) }
{
    let mut out = String::new(alloc);
    writeln!(out, "storm {count} {start}")?;
    put_figure(&mut out, "operations", count)?;
    put_figure(&mut out, "objects", objects)?;
    put_figure(&mut out, "deinits", deinits)?;
    put_figure(&mut out, "leaks", leaks)?;
    Ok(out.into_bytes())
}
