//! How objects are named.

ghost use Rattle.std.specs.Prelude.{◌≡◌, ◌<◌, length};
ghost use Rattle.arc_script.specs.Valid.{name_at, class_names, var_names};
ghost use Rattle.arc_report.specs.Names.{object_text, cell_text, origin_text};
ghost use Rattle.arc_report.specs.Events.{CellIsThere, OriginIsThere};
ghost use Rattle.arc_report.specs.Shown.{shown_object, shown_cell, shown_origin};

use crate::shown::{CellText, ObjectText, OriginText};
use arc_model::{CellName, ObjectName, Origin};
use arc_script::{ClassDecl, VarDecl};

pub(crate) fn class_name(classes: &[ClassDecl], class: u32) -> &str
    requires { class < length classes.now }
    ensures { result.now ≡ name_at (class_names classes.now) class }
{
    classes[class as usize].name.text()
}

pub(crate) fn global_name(globals: &[VarDecl], global: u32) -> &str
    requires { global < length globals.now }
    ensures { result.now ≡ name_at (var_names globals.now) global }
{
    globals[global as usize].name.text()
}

pub(crate) fn object_in(classes: &[ClassDecl], name: ObjectName) -> ObjectText<'_>
    requires { name.class < length classes.now }
    ensures { shown_object result ≡ object_text (class_names classes.now) name }
{
    ObjectText {
        class: class_name(classes, name.class),
        thread: name.thread,
        number: name.number,
    }
}

pub(crate) fn cell_in(globals: &[VarDecl], cell: CellName) -> CellText<'_>
    requires { CellIsThere (length globals.now) cell }
    ensures { shown_cell result ≡ cell_text (var_names globals.now) cell }
{
    match cell {
        CellName::Field { slot, field } => CellText::Field { slot, field },
        CellName::Global(global) => CellText::Global(global_name(globals, global)),
    }
}

pub(crate) fn origin_in(globals: &[VarDecl], origin: Origin) -> OriginText<'_>
    requires { OriginIsThere (length globals.now) origin }
    ensures { shown_origin result ≡ origin_text (var_names globals.now) origin }
{
    match origin {
        Origin::Hand(hand) => OriginText::Hand(hand),
        Origin::Cell(cell) => OriginText::Cell(cell_in(globals, cell)),
    }
}
