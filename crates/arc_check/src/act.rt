//! What the words of an event say, one function a form.

ghost use Rattle.std.specs.Prelude.{◌≡◌, [], ◌∷◌, map};
ghost use Rattle.arc_check.specs.EventForms.{fits, unown_form, weak_form, load_form, drop_form, act_of};

use crate::cell::{cell_of, has_origin_parts, is_cell_word, origin_of};
use crate::numbers::{got_in, hand_in, hand_or_nil, kind_of, last_in};
use crate::scope::Scope;
use crate::word::EventWord;
use arc_model::Act;
use arc_script::Reason;
use arc_text::{cut_at, is_name, marks_in, number_in};

/// `new HAND CLASS SLOT`
fn new_of(scope: &Scope, hand: &[u8], class: &[u8], slot: &[u8]) -> Result<Act, Reason>
    ensures { result ≡ act_of scope.now EventWord.New (hand.now ∷ class.now ∷ slot.now ∷ []) }
{
    let Some(hand) = hand_in(hand) else {
        return Err(Reason::Number);
    };
    let Some(slot) = scope.slot_in(slot) else {
        return Err(Reason::Number);
    };
    if !is_name(class) {
        return Err(Reason::Spelling);
    }
    let Some(class) = scope.class_of(class) else {
        return Err(Reason::Unknown);
    };
    Ok(Act::New { hand, class, slot })
}

/// `copy FROM HAND`
fn copy_of(scope: &Scope, from: &[u8], hand: &[u8]) -> Result<Act, Reason>
    ensures { result ≡ act_of scope.now EventWord.Copy (from.now ∷ hand.now ∷ []) }
{
    let Some(hand) = hand_in(hand) else {
        return Err(Reason::Number);
    };
    let from = origin_of(scope, from)?;
    Ok(Act::Copy { from, hand })
}

/// `unown OF HAND`
fn unown_of(of: &[u8], hand: &[u8]) -> Result<Act, Reason>
    ensures { result ≡ unown_form of.now hand.now }
{
    let Some(of) = hand_in(of) else {
        return Err(Reason::Number);
    };
    let Some(hand) = hand_in(hand) else {
        return Err(Reason::Number);
    };
    Ok(Act::UnownedOf { of, hand })
}

/// `weak OF HAND`
fn weak_of(of: &[u8], hand: &[u8]) -> Result<Act, Reason>
    ensures { result ≡ weak_form of.now hand.now }
{
    let Some(of) = hand_in(of) else {
        return Err(Reason::Number);
    };
    let Some(hand) = hand_in(hand) else {
        return Err(Reason::Number);
    };
    Ok(Act::WeakOf { of, hand })
}

/// `load OF HAND`, `load OF dead` or `load OF nil`
fn load_of(of: &[u8], got: &[u8]) -> Result<Act, Reason>
    ensures { result ≡ load_form of.now got.now }
{
    let Some(of) = hand_in(of) else {
        return Err(Reason::Number);
    };
    let Some(got) = got_in(got) else {
        return Err(Reason::Number);
    };
    Ok(Act::Load { of, got })
}

/// `drop HAND more` or `drop HAND last`
fn drop_of(hand: &[u8], last: &[u8]) -> Result<Act, Reason>
    ensures { result ≡ drop_form hand.now last.now }
{
    let Some(hand) = hand_in(hand) else {
        return Err(Reason::Number);
    };
    let Some(last) = last_in(last) else {
        return Err(Reason::Number);
    };
    Ok(Act::Drop { hand, last })
}

/// `countfull KIND FROM`
fn count_full_of(scope: &Scope, list: &[u8], from: &[u8]) -> Result<Act, Reason>
    ensures { result ≡ act_of scope.now EventWord.CountFull (list.now ∷ from.now ∷ []) }
{
    let from = origin_of(scope, from)?;
    let Some(list) = kind_of(list) else {
        return Err(Reason::Kind);
    };
    Ok(Act::CountFull { list, from })
}

/// `claim ENTRY`
fn claim_of(scope: &Scope, entry: &[u8]) -> Result<Act, Reason>
    ensures { result ≡ act_of scope.now EventWord.Claim (entry.now ∷ []) }
{
    let Some(entry) = scope.entry_in(entry) else {
        return Err(Reason::Number);
    };
    Ok(Act::Claim { entry })
}

/// `side SLOT ENTRY KIND`
fn side_of(scope: &Scope, slot: &[u8], entry: &[u8], reason: &[u8]) -> Result<Act, Reason>
    ensures { result ≡ act_of scope.now EventWord.Side (slot.now ∷ entry.now ∷ reason.now ∷ []) }
{
    let Some(slot) = scope.slot_in(slot) else {
        return Err(Reason::Number);
    };
    let Some(entry) = scope.entry_in(entry) else {
        return Err(Reason::Number);
    };
    let Some(why) = kind_of(reason) else {
        return Err(Reason::Kind);
    };
    Ok(Act::Side { slot, entry, why })
}

/// `back ENTRY`
fn back_of(scope: &Scope, entry: &[u8]) -> Result<Act, Reason>
    ensures { result ≡ act_of scope.now EventWord.Back (entry.now ∷ []) }
{
    let Some(entry) = scope.entry_in(entry) else {
        return Err(Reason::Number);
    };
    Ok(Act::Back { entry })
}

/// `swap CELL HAND HAND`, each hand or `nil`
fn swap_of(scope: &Scope, cell: &[u8], put: &[u8], took: &[u8]) -> Result<Act, Reason>
    ensures { result ≡ act_of scope.now EventWord.Swap (cell.now ∷ put.now ∷ took.now ∷ []) }
{
    let Some(put) = hand_or_nil(put) else {
        return Err(Reason::Number);
    };
    let Some(took) = hand_or_nil(took) else {
        return Err(Reason::Number);
    };
    let cell = cell_of(scope, cell)?;
    Ok(Act::Swap { cell, put, took })
}

/// `look CELL`
fn look_of(scope: &Scope, cell: &[u8]) -> Result<Act, Reason>
    ensures { result ≡ act_of scope.now EventWord.Look (cell.now ∷ []) }
{
    let cell = cell_of(scope, cell)?;
    Ok(Act::Look { cell })
}

/// `take SLOT.FIELD HAND`
fn take_of(scope: &Scope, cell: &[u8], hand: &[u8]) -> Result<Act, Reason>
    ensures { result ≡ act_of scope.now EventWord.Take (cell.now ∷ hand.now ∷ []) }
{
    let (slot, field) = cut_at(cell, b'.');
    let Some(slot) = scope.slot_in(slot) else {
        return Err(Reason::Number);
    };
    let Some(field) = number_in(field, 0, 7) else {
        return Err(Reason::Number);
    };
    let Some(hand) = hand_in(hand) else {
        return Err(Reason::Number);
    };
    Ok(Act::Take { slot, field, hand })
}

/// `finish SLOT more` or `finish SLOT last`
fn finish_of(scope: &Scope, slot: &[u8], last: &[u8]) -> Result<Act, Reason>
    ensures { result ≡ act_of scope.now EventWord.Finish (slot.now ∷ last.now ∷ []) }
{
    let Some(slot) = scope.slot_in(slot) else {
        return Err(Reason::Number);
    };
    let Some(last) = last_in(last) else {
        return Err(Reason::Number);
    };
    Ok(Act::Finish { slot, last })
}

/// `vacate SLOT`
fn vacate_of(scope: &Scope, slot: &[u8]) -> Result<Act, Reason>
    ensures { result ≡ act_of scope.now EventWord.Vacate (slot.now ∷ []) }
{
    let Some(slot) = scope.slot_in(slot) else {
        return Err(Reason::Number);
    };
    Ok(Act::Vacate { slot })
}

/// `gone ENTRY more` or `gone ENTRY last`
fn gone_of(scope: &Scope, entry: &[u8], last: &[u8]) -> Result<Act, Reason>
    ensures { result ≡ act_of scope.now EventWord.Gone (entry.now ∷ last.now ∷ []) }
{
    let Some(entry) = scope.entry_in(entry) else {
        return Err(Reason::Number);
    };
    let Some(last) = last_in(last) else {
        return Err(Reason::Number);
    };
    Ok(Act::Gone { entry, last })
}

/// What the event with this word and these words behind it does.
pub fn act_of(scope: &Scope, word: EventWord, words: &[&[u8]]) -> Result<Act, Reason>
    ensures { result ≡ act_of scope.now word (map (λ w. w.now) words.now) }
{
    match word {
        EventWord::New => match words {
            [hand, class, slot] => new_of(scope, hand, class, slot),
            _ => Err(Reason::WordCount),
        },
        EventWord::Full => match words {
            [] => Ok(Act::Full),
            _ => Err(Reason::WordCount),
        },
        EventWord::Copy => match words {
            [from, hand] => copy_of(scope, from, hand),
            _ => Err(Reason::WordCount),
        },
        EventWord::Unown => match words {
            [of, hand] => unown_of(of, hand),
            _ => Err(Reason::WordCount),
        },
        EventWord::Weak => match words {
            [of, hand] => weak_of(of, hand),
            _ => Err(Reason::WordCount),
        },
        EventWord::Load => match words {
            [of, got] => load_of(of, got),
            _ => Err(Reason::WordCount),
        },
        EventWord::Drop => match words {
            [hand, last] => drop_of(hand, last),
            _ => Err(Reason::WordCount),
        },
        EventWord::CountFull => match words {
            [list, from] => count_full_of(scope, list, from),
            _ => Err(Reason::WordCount),
        },
        EventWord::Claim => match words {
            [entry] => claim_of(scope, entry),
            _ => Err(Reason::WordCount),
        },
        EventWord::NoEntry => match words {
            [] => Ok(Act::NoEntry),
            _ => Err(Reason::WordCount),
        },
        EventWord::Side => match words {
            [slot, entry, reason] => side_of(scope, slot, entry, reason),
            _ => Err(Reason::WordCount),
        },
        EventWord::Back => match words {
            [entry] => back_of(scope, entry),
            _ => Err(Reason::WordCount),
        },
        EventWord::Swap => match words {
            [cell, put, took] => swap_of(scope, cell, put, took),
            _ => Err(Reason::WordCount),
        },
        EventWord::Look => match words {
            [cell] => look_of(scope, cell),
            _ => Err(Reason::WordCount),
        },
        EventWord::Take => match words {
            [cell, hand] => take_of(scope, cell, hand),
            _ => Err(Reason::WordCount),
        },
        EventWord::Finish => match words {
            [slot, last] => finish_of(scope, slot, last),
            _ => Err(Reason::WordCount),
        },
        EventWord::Vacate => match words {
            [slot] => vacate_of(scope, slot),
            _ => Err(Reason::WordCount),
        },
        EventWord::Gone => match words {
            [entry, last] => gone_of(scope, entry, last),
            _ => Err(Reason::WordCount),
        },
    }
}

/// Whether there are as many words as the event has, and each cell has its parts.
pub fn fits(word: EventWord, words: &[&[u8]]) -> bool
    ensures { result ≡ fits word (map (λ w. w.now) words.now) }
{
    match word {
        EventWord::Full | EventWord::NoEntry => words.is_empty(),
        EventWord::Claim | EventWord::Back | EventWord::Vacate => matches!(words, [_]),
        EventWord::Unown
        | EventWord::Weak
        | EventWord::Load
        | EventWord::Drop
        | EventWord::Finish
        | EventWord::Gone => matches!(words, [_, _]),
        EventWord::New | EventWord::Side => matches!(words, [_, _, _]),
        EventWord::Copy => match words {
            [from, _] => has_origin_parts(from),
            _ => false,
        },
        EventWord::CountFull => match words {
            [_, from] => has_origin_parts(from),
            _ => false,
        },
        EventWord::Swap => match words {
            [cell, _, _] => is_cell_word(cell),
            _ => false,
        },
        EventWord::Look => match words {
            [cell] => is_cell_word(cell),
            _ => false,
        },
        EventWord::Take => match words {
            [cell, _] => marks_in(cell, b'.') == 1,
            _ => false,
        },
    }
}
