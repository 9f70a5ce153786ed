//! Names among those that were declared.

ghost use Rattle.std.specs.Prelude.{◌≡◌, ◌==◌, ◌≤◌, All, drop, length, true, false, MatchOption};
ghost use Rattle.arc_script.specs.declared.script.ClassDecl.{ClassDecl};
ghost use Rattle.arc_script.specs.Valid.{is_weak, is_weak_immortal, immortals_of, place_of, field_names, field_refs, fields_at, var_refs, ref_at, cell_ref};
ghost use Rattle.arc_script.specs.Reading.{ScopeFits};
ghost use Rattle.arc_script.specs.Lookups.{kind_of, same_kind, class_place, var_place, is_at_sign, is_dot, is_cell_word, is_cell_spelled, field_of, cell_of, has_strong_owner, is_owner};

use crate::script::{ClassDecl, FieldDecl, OpCell, VarDecl};
use arc_model::{Kind, RefShape};
use arc_text::{cut_at, is_name, marks_in};

/// The kind that a word names: `strong`, `unowned` or `weak`.
pub fn kind_of(word: &[u8]) -> Option<Kind>
    ensures { result ≡ kind_of word.now }
{
    if word == b"strong".as_slice() {
        Some(Kind::Strong)
    } else if word == b"unowned".as_slice() {
        Some(Kind::Unowned)
    } else if word == b"weak".as_slice() {
        Some(Kind::Weak)
    } else {
        None
    }
}

/// Whether the kinds are the same.
pub fn same_kind(kind: Kind, other: Kind) -> bool
    ensures { result ≡ same_kind kind other }
{
    match kind {
        Kind::Strong => matches!(other, Kind::Strong),
        Kind::Unowned => matches!(other, Kind::Unowned),
        Kind::Weak => matches!(other, Kind::Weak),
    }
}

pub fn is_weak(kind: Kind) -> bool
    ensures { result ≡ is_weak kind }
{
    matches!(kind, Kind::Weak)
}

/// Whether this is a weak reference to an immortal class.
pub fn is_weak_immortal(classes: &[ClassDecl], kind: Kind, class: u32) -> bool
    ensures { result ≡ is_weak_immortal (immortals_of classes.now) kind class }
{
    is_weak(kind)
        && match classes.get(class as usize) {
            Some(class) => class.immortal,
            None => false,
        }
}

/// The place of the class with this name, from 0.
pub fn class_place(classes: &[ClassDecl], name: &[u8]) -> Option<u32>
    requires { length classes.now ≤ 64 }
    ensures { result ≡ class_place classes.now name.now }
{
    match classes.iter().position(|c| c.name.bytes() == name) {
        Some(place) => Some(place as u32),
        None => None,
    }
}

/// The place of a variable or a global.
pub fn var_place(vars: &[VarDecl], name: &[u8]) -> Option<u32>
    requires { length vars.now ≤ 256 }
    ensures { result ≡ var_place vars.now name.now }
{
    match vars.iter().position(|v| v.name.bytes() == name) {
        Some(place) => Some(place as u32),
        None => None,
    }
}

fn field_place(fields: &[FieldDecl], name: &[u8]) -> Option<u32>
    requires { length fields.now ≤ 8 }
    ensures { result ≡ place_of (field_names fields.now) name.now }
{
    match fields.iter().position(|f| f.name.bytes() == name) {
        Some(place) => Some(place as u32),
        None => None,
    }
}

/// What the variable or global at a place, from 0, refers to: a strong reference to the first class where there is none.
pub fn ref_at(vars: &[VarDecl], place: u32) -> RefShape
    ensures { result ≡ ref_at (var_refs vars.now) place }
{
    match vars.get(place as usize) {
        Some(var) => RefShape {
            kind: var.kind,
            class: var.class,
        },
        None => RefShape {
            kind: Kind::Strong,
            class: 0,
        },
    }
}

/// The fields of the class at a place, from 0: none where there is no such class.
pub fn fields_at(classes: &[ClassDecl], place: u32) -> &[FieldDecl]
    ensures value { result.now ≡ fields_at classes.now place }
    ensures few { All (λ (c : ClassDecl). length c.fields ≤ 8) classes.now → length result.now ≤ 8 }
{
    match classes.get(place as usize) {
        Some(class) => class.fields.as_slice(),
        None => &[],
    }
}

/// The name of a global, where the word is a global's.
fn global_in(word: &[u8]) -> Option<&[u8]>
    ensures { MatchOption result (is_at_sign word.now ≡ false) (λ name. (is_at_sign word.now ≡ true) × (name.now ≡ drop 1 word.now)) }
{
    match word {
        [] => None,
        [first, name @ ..] => { if *first == b'@' { Some(name) } else { None } }
    }
}

/// Whether the word has a cell's parts.
pub fn is_cell_word(word: &[u8]) -> bool
    ensures { result ≡ is_cell_word word.now }
{
    global_in(word).is_some() || marks_in(word, b'.') == 1
}

/// Whether the parts of a cell's word are spelled as names.
pub fn is_cell_spelled(word: &[u8]) -> bool
    ensures { result ≡ is_cell_spelled word.now }
{
    match global_in(word) {
        Some(name) => is_name(name),
        None => {
            let (owner, field) = cut_at(word, b'.');
            is_name(owner) && is_name(field)
        }
    }
}

fn field_of(classes: &[ClassDecl], vars: &[VarDecl], owner: u32, field: &[u8]) -> Option<OpCell>
    requires { All (λ (c : ClassDecl). length c.fields ≤ 8) classes.now }
    ensures { result ≡ field_of classes.now vars.now (Some owner) field.now }
{
    let fields = fields_at(classes, ref_at(vars, owner).class);
    match field_place(fields, field) {
        Some(field) => Some(OpCell::Field { owner, field }),
        None => None,
    }
}

/// The cell that the word names, where there is one.
pub fn cell_of(
    classes: &[ClassDecl],
    globals: &[VarDecl],
    vars: &[VarDecl],
    word: &[u8],
) -> Option<OpCell>
    requires { ScopeFits classes.now globals.now vars.now }
    ensures { result ≡ cell_of classes.now globals.now vars.now word.now }
{
    match global_in(word) {
        Some(name) => match var_place(globals, name) {
            Some(global) => Some(OpCell::Global(global)),
            None => None,
        },
        None => {
            let (owner, field) = cut_at(word, b'.');
            match var_place(vars, owner) {
                Some(owner) => field_of(classes, vars, owner, field),
                None => None,
            }
        }
    }
}

/// What a cell refers to.
pub fn cell_ref(
    classes: &[ClassDecl],
    globals: &[VarDecl],
    vars: &[VarDecl],
    cell: OpCell,
) -> RefShape
    ensures { result ≡ cell_ref classes.now globals.now vars.now cell }
{
    match cell {
        OpCell::Field { owner, field } => {
            field_ref(fields_at(classes, ref_at(vars, owner).class), field)
        }
        OpCell::Global(global) => ref_at(globals, global),
    }
}

fn field_ref(fields: &[FieldDecl], place: u32) -> RefShape
    ensures { result ≡ ref_at (field_refs fields.now) place }
{
    match fields.get(place as usize) {
        Some(field) => RefShape {
            kind: field.kind,
            class: field.class,
        },
        None => RefShape {
            kind: Kind::Strong,
            class: 0,
        },
    }
}

/// Whether a field's owner is a strong variable.
pub fn has_strong_owner(vars: &[VarDecl], cell: OpCell) -> bool
    ensures { result ≡ has_strong_owner vars.now cell }
{
    match cell {
        OpCell::Field { owner, .. } => same_kind(ref_at(vars, owner).kind, Kind::Strong),
        OpCell::Global(_) => true,
    }
}

/// Whether the variable is a field's owner.
pub fn is_owner(var: u32, cell: OpCell) -> bool
    ensures { result ≡ is_owner var cell }
{
    match cell {
        OpCell::Field { owner, .. } => var == owner,
        OpCell::Global(_) => false,
    }
}
