//! The lines of a history text that say events.

ghost use Rattle.std.specs.Prelude.{◌≡◌, ◌++◌, length, OnOk};
ghost use Rattle.std.specs.String.{string_bytes};
ghost use Rattle.std.specs.List.{AllByRecursion, flat_map};
ghost use Rattle.arc_script.specs.Valid.{class_names, var_names};
ghost use Rattle.arc_script.specs.Canonical.{kind_word};
ghost use Rattle.arc_report.specs.Events.{event_text, EventIsNamed};

use crate::names::{cell_in, class_name, origin_in};
use crate::shown::{GotText, HandText};
use arc_model::{Act, Kind};
use arc_ops::Stamped;
use arc_script::{ClassDecl, VarDecl};
use std::alloc::AllocError;

fn kind_word(kind: Kind) -> &'static str
    ensures { result.now ≡ kind_word kind }
{
    match kind {
        Kind::Strong => "strong",
        Kind::Unowned => "unowned",
        Kind::Weak => "weak",
    }
}

/// The line of an event, in one `writeln!`: each piece of text costs about as much as a number.
fn put_event(
    out: &mut String,
    classes: &[ClassDecl],
    globals: &[VarDecl],
    stamped: Stamped,
) -> Result<(), AllocError>
    requires { EventIsNamed (length classes.now) (length globals.now) stamped }
    ensures { OnOk result (string_bytes out.new ≡ string_bytes out.old ++ event_text (class_names classes.now) (var_names globals.now) stamped) }
{
    let step = stamped.step;
    let thread = stamped.event.thread;
    match stamped.event.act {
        Act::New { hand, class, slot } => {
            let class = class_name(classes, class);
            writeln!(out, "{step} {thread} new {hand} {class} {slot}")
        }
        Act::Full => writeln!(out, "{step} {thread} full"),
        Act::Copy { from, hand } => {
            let from = origin_in(globals, from);
            writeln!(out, "{step} {thread} copy {from} {hand}")
        }
        Act::UnownedOf { of, hand } => writeln!(out, "{step} {thread} unown {of} {hand}"),
        Act::WeakOf { of, hand } => writeln!(out, "{step} {thread} weak {of} {hand}"),
        Act::Load { of, got } => {
            let got = GotText(got);
            writeln!(out, "{step} {thread} load {of} {got}")
        }
        Act::Drop { hand, last: true } => writeln!(out, "{step} {thread} drop {hand} last"),
        Act::Drop { hand, last: false } => writeln!(out, "{step} {thread} drop {hand} more"),
        Act::CountFull { list, from } => {
            let list = kind_word(list);
            let from = origin_in(globals, from);
            writeln!(out, "{step} {thread} countfull {list} {from}")
        }
        Act::Claim { entry } => writeln!(out, "{step} {thread} claim {entry}"),
        Act::NoEntry => writeln!(out, "{step} {thread} noentry"),
        Act::Side { slot, entry, why } => {
            let why = kind_word(why);
            writeln!(out, "{step} {thread} side {slot} {entry} {why}")
        }
        Act::Back { entry } => writeln!(out, "{step} {thread} back {entry}"),
        Act::Swap { cell, put, took } => {
            let cell = cell_in(globals, cell);
            let put = HandText(put);
            let took = HandText(took);
            writeln!(out, "{step} {thread} swap {cell} {put} {took}")
        }
        Act::Look { cell } => {
            let cell = cell_in(globals, cell);
            writeln!(out, "{step} {thread} look {cell}")
        }
        Act::Take { slot, field, hand } => {
            writeln!(out, "{step} {thread} take {slot}.{field} {hand}")
        }
        Act::Finish { slot, last: true } => writeln!(out, "{step} {thread} finish {slot} last"),
        Act::Finish { slot, last: false } => writeln!(out, "{step} {thread} finish {slot} more"),
        Act::Vacate { slot } => writeln!(out, "{step} {thread} vacate {slot}"),
        Act::Gone { entry, last: true } => writeln!(out, "{step} {thread} gone {entry} last"),
        Act::Gone { entry, last: false } => writeln!(out, "{step} {thread} gone {entry} more"),
    }
}

/// The lines of the events, in order.
pub(crate) fn put_events(
    out: &mut String,
    classes: &[ClassDecl],
    globals: &[VarDecl],
    events: &[Stamped],
) -> Result<(), AllocError>
    requires { AllByRecursion (EventIsNamed (length classes.now) (length globals.now)) events.now }
    ensures { OnOk result (string_bytes out.new ≡ string_bytes out.old ++ flat_map (event_text (class_names classes.now) (var_names globals.now)) events.now) }
{
    for stamped in events {
        put_event(out, classes, globals, *stamped)?;
    }
    Ok(())
}
