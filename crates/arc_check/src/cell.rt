//! Cells and other origins of an event, as a text names them.

ghost use Rattle.std.specs.Prelude.{◌≡◌, drop, false, true, MatchOption};
ghost use Rattle.arc_script.specs.Lookups.{is_at_sign, is_cell_word};
ghost use Rattle.arc_check.specs.EventForms.{global_of, field_of, cell_of, is_cell_like, has_origin_parts, origin_of};

use crate::numbers::hand_in;
use crate::scope::Scope;
use arc_model::{CellName, Origin};
use arc_script::Reason;
use arc_text::{cut_at, is_name, marks_in, number_in};

/// The name of a global, where the word is a global's.
fn global_in(word: &[u8]) -> Option<&[u8]>
    ensures { MatchOption result (is_at_sign word.now ≡ false) (λ name. (is_at_sign word.now ≡ true) × (name.now ≡ drop 1 word.now)) }
{
    match word {
        [] => None,
        [first, name @ ..] => { if *first == b'@' { Some(name) } else { None } }
    }
}

/// Whether the word has a cell's parts.
pub fn is_cell_word(word: &[u8]) -> bool
    ensures { result ≡ is_cell_word word.now }
{
    global_in(word).is_some() || marks_in(word, b'.') == 1
}

/// Whether the word is read as a cell where a hand may stand, too.
fn is_cell_like(word: &[u8]) -> bool
    ensures { result ≡ is_cell_like word.now }
{
    global_in(word).is_some() || marks_in(word, b'.') != 0
}

/// Whether the word has the parts of a cell or of a hand.
pub fn has_origin_parts(word: &[u8]) -> bool
    ensures { result ≡ has_origin_parts word.now }
{
    global_in(word).is_some() || marks_in(word, b'.') <= 1
}

fn global_of(scope: &Scope, name: &[u8]) -> Result<CellName, Reason>
    ensures { result ≡ global_of scope.now name.now }
{
    if !is_name(name) {
        return Err(Reason::Spelling);
    }
    let Some(global) = scope.global_of(name) else {
        return Err(Reason::Unknown);
    };
    Ok(CellName::Global(global))
}

fn field_of(scope: &Scope, slot: &[u8], field: &[u8]) -> Result<CellName, Reason>
    ensures { result ≡ field_of scope.now slot.now field.now }
{
    let Some(slot) = scope.slot_in(slot) else {
        return Err(Reason::Number);
    };
    let Some(field) = number_in(field, 0, 7) else {
        return Err(Reason::Number);
    };
    Ok(CellName::Field { slot, field })
}

/// The cell that the word names.
pub fn cell_of(scope: &Scope, word: &[u8]) -> Result<CellName, Reason>
    ensures { result ≡ cell_of scope.now word.now }
{
    match global_in(word) {
        Some(name) => global_of(scope, name),
        None => {
            let (slot, field) = cut_at(word, b'.');
            field_of(scope, slot, field)
        }
    }
}

/// The hand or the cell that the word names.
pub fn origin_of(scope: &Scope, word: &[u8]) -> Result<Origin, Reason>
    ensures { result ≡ origin_of scope.now word.now }
{
    if is_cell_like(word) {
        let cell = cell_of(scope, word)?;
        return Ok(Origin::Cell(cell));
    }
    let Some(hand) = hand_in(word) else {
        return Err(Reason::Number);
    };
    Ok(Origin::Hand(hand))
}
