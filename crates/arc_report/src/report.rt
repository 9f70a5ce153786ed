//! The report of a run.

ghost use Rattle.std.specs.Prelude.{◌≡◌, length, IfOk};
ghost use Rattle.arc_rule.specs.Places.{extent_of};
ghost use Rattle.arc_script.specs.Valid.{IsHeading};
ghost use Rattle.arc_report.specs.Lines.{LinesHaveClasses, ThreadsHaveClasses};
ghost use Rattle.arc_report.specs.Words.{AreFinalWords, ObjectsHaveClasses};
ghost use Rattle.arc_report.specs.Report.{report};

use crate::left::put_left;
use crate::lines::{put_end, put_threads};
use crate::totals::{deinit_total, object_total, put_totals};
use arc_model::Memory;
use arc_ops::ThreadLines;
use arc_rule::Layout;
use arc_script::{Line, Script};
use std::alloc::Global;

/// The report of a run of the script: the lines of its threads in order, the deinit lines of the end section, the objects that
/// still have a slot by thread and number, leaks and those of immortal classes, the entries whose object has none any more, and the totals. `words` are the words
/// of the heap when all have ended. This project's own. Memory: no memory was found.
pub fn report_text(
    alloc: Global,
    script: &Script,
    threads: &[ThreadLines],
    end: &[Line],
    words: &[u64],
) -> Result<Vec<u8>, Memory>
    requires heading { IsHeading script.now.shape script.now.classes script.now.globals }
    requires threads { ThreadsHaveClasses (length script.now.classes) threads.now }
    requires end { LinesHaveClasses (length script.now.classes) end.now }
    requires words { AreFinalWords (extent_of script.now.shape) words.now }
    requires classes { ObjectsHaveClasses (length script.now.classes) (extent_of script.now.shape) words.now }
    ensures { IfOk result (λ v. v.items ≡ report script.now threads.now end.now words.now) }
{
    let classes = script.classes.as_slice();
    let layout = Layout::of(&script.shape);
    let mut out = String::new(alloc);
    writeln!(out, "report 1")?;
    put_threads(&mut out, classes, threads)?;
    put_end(&mut out, classes, end)?;
    let objects = object_total(threads);
    let deinits = deinit_total(threads, end);
    let leaks = put_left(&mut out, alloc, classes, &layout, words)?;
    put_totals(&mut out, objects, deinits, leaks)?;
    Ok(out.into_bytes())
}
