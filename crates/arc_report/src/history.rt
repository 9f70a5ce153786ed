//! The history text.

ghost use Rattle.std.specs.Prelude.{◌≡◌, ◌++◌, length, codes, IfOk};
ghost use Rattle.std.specs.String.{string_bytes};
ghost use Rattle.std.specs.Fmt.{decimal};
ghost use Rattle.std.specs.List.{AllByRecursion};
ghost use Rattle.arc_script.specs.Valid.{IsHeading};
ghost use Rattle.arc_report.specs.Events.{EventIsNamed};
ghost use Rattle.arc_report.specs.History.{later_text, history};

use crate::events::put_events;
use arc_model::Memory;
use arc_ops::Stamped;
use arc_script::Script;
use arc_script_text::write_heading;
use std::alloc::Global;

fn later_lines(alloc: Global, script: &Script, events: &[Stamped]) -> Result<String, Memory>
    requires { AllByRecursion (EventIsNamed (length script.now.classes) (length script.now.globals)) events.now }
    ensures { IfOk result (λ s. string_bytes s ≡ later_text script.now events.now) }
{
    let threads = script.threads.as_slice().len();
    let mut out = String::new(alloc);
    write!(out, "threads {threads}\nevents\n")?;
    put_events(
        &mut out,
        script.classes.as_slice(),
        script.globals.as_slice(),
        events,
    )?;
    writeln!(out, "done")?;
    Ok(out)
}

fn joined(alloc: Global, version: u32, heading: &[u8], later: &[u8]) -> Result<Vec<u8>, Memory>
    ensures { IfOk result (λ v. v.items ≡ codes "history " ++ (decimal version ++ (codes "\n" ++ (heading.now ++ later.now)))) }
{
    let mut first = String::new(alloc);
    writeln!(first, "history {version}")?;
    let mut text = first.into_bytes();
    text.extend_from_slice(heading)?;
    text.extend_from_slice(later)?;
    Ok(text)
}

/// The history text of a run of the script: the script's version and heading, the number of threads and the events in order, each with
/// the number of its step and its thread. This project's own. Memory: no memory was found.
pub fn history_text(alloc: Global, script: &Script, events: &[Stamped]) -> Result<Vec<u8>, Memory>
    requires heading { IsHeading script.now.shape script.now.classes script.now.globals }
    requires events { AllByRecursion (EventIsNamed (length script.now.classes) (length script.now.globals)) events.now }
    ensures { IfOk result (λ v. v.items ≡ history script.now events.now) }
{
    let classes = script.classes.as_slice();
    let globals = script.globals.as_slice();
    let heading = write_heading(alloc, &script.shape, classes, globals)?;
    let later = later_lines(alloc, script, events)?;
    joined(alloc, script.version, &heading, later.as_bytes())
}
