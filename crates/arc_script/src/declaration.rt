//! What the words of a declaration say.

ghost use Rattle.std.specs.Prelude.{◌<◌, ◌≤◌, length, OnOk};
ghost use Rattle.arc_script.specs.HeadLines.{decl_of};
ghost use Rattle.arc_script.specs.Reading.{Gives};

use crate::find::{class_place, is_weak_immortal, kind_of, var_place};
use crate::reason::{LineFault, Reason};
use crate::script::{ClassDecl, VarDecl};
use arc_text::{Name, is_name};
use std::alloc::Global;

/// The variable or global that three words declare, behind those that there are, of which there may be `limit`. Refused with the
/// first that holds of `Spelling`, `Again`, `Unknown`, `Kind`, `TooMany` and `WeakImmortal`; Memory where there is none. This project's own.
pub fn decl_of(
    alloc: Global,
    limit: usize,
    vars: &[VarDecl],
    classes: &[ClassDecl],
    name: &[u8],
    kind: &[u8],
    class: &[u8],
) -> Result<VarDecl, LineFault>
    requires few_vars { length vars.now ≤ 256 }
    requires few_classes { length classes.now ≤ 64 }
    ensures value { Gives result (decl_of limit vars.now classes.now name.now kind.now class.now) }
    ensures room { OnOk result (length vars.now < limit) }
{
    if !is_name(name) || !is_name(class) {
        return Err(LineFault::Refused(Reason::Spelling));
    }
    if var_place(vars, name).is_some() {
        return Err(LineFault::Refused(Reason::Again));
    }
    let Some(class) = class_place(classes, class) else {
        return Err(LineFault::Refused(Reason::Unknown));
    };
    let Some(kind) = kind_of(kind) else {
        return Err(LineFault::Refused(Reason::Kind));
    };
    if vars.len() >= limit {
        return Err(LineFault::Refused(Reason::TooMany));
    }
    if is_weak_immortal(classes, kind, class) {
        return Err(LineFault::Refused(Reason::WeakImmortal));
    }
    let Some(name) = Name::new(Vec::from_slice(alloc, name)?) else {
        return Err(LineFault::Refused(Reason::Spelling));
    };
    Ok(VarDecl { name, kind, class })
}
