//! The words of an event that stand for a number or an answer.

ghost use Rattle.std.specs.Prelude.{◌≡◌, ◌-◌, ◌^◌};
ghost use Rattle.std.specs.List.{list_all};
ghost use Rattle.std.specs.Char.{is_ascii_digit};
ghost use Rattle.arc_text.specs.Words.{is_numeral, number_in};
ghost use Rattle.arc_script.specs.Lookups.{kind_of};
ghost use Rattle.arc_check.specs.EventForms.{hand_in, hand_or_nil, got_in, last_in};

use arc_model::{Got, Kind};
use arc_text::number_in;

fn are_digits(bytes: &[u8]) -> bool
    ensures { result ≡ list_all is_ascii_digit bytes.now }
{
    bytes.iter().all(|b| b.is_ascii_digit())
}

fn is_numeral(word: &[u8]) -> bool
    ensures { result ≡ is_numeral word.now }
{
    match word {
        [] => false,
        [digit] => digit.is_ascii_digit(),
        [first, ..] => *first != b'0' && are_digits(word),
    }
}

/// The number of a step, where the word spells one.
pub fn step_in(word: &[u8]) -> Option<u64>
    ensures { result ≡ number_in 0 (2 ^ 64 - 1) word.now }
{
    if !is_numeral(word) {
        return None;
    }
    let Ok(text) = str::from_utf8(word) else {
        return None;
    };
    let Ok(number) = text.parse::<u64>() else {
        return None;
    };
    Some(number)
}

/// The number of a hand.
pub fn hand_in(word: &[u8]) -> Option<u32>
    ensures { result ≡ hand_in word.now }
{
    number_in(word, 0, 4_294_967_295)
}

/// The number of a hand, or nil.
pub fn hand_or_nil(word: &[u8]) -> Option<Option<u32>>
    ensures { result ≡ hand_or_nil word.now }
{
    if word == b"nil".as_slice() {
        return Some(None);
    }
    match hand_in(word) {
        Some(hand) => Some(Some(hand)),
        None => None,
    }
}

/// What a load gave.
pub fn got_in(word: &[u8]) -> Option<Got>
    ensures { result ≡ got_in word.now }
{
    if word == b"dead".as_slice() {
        return Some(Got::Dead);
    }
    if word == b"nil".as_slice() {
        return Some(Got::Nil);
    }
    match hand_in(word) {
        Some(hand) => Some(Got::Hand(hand)),
        None => None,
    }
}

/// Whether it was the last.
pub fn last_in(word: &[u8]) -> Option<bool>
    ensures { result ≡ last_in word.now }
{
    if word == b"more".as_slice() {
        Some(false)
    } else if word == b"last".as_slice() {
        Some(true)
    } else {
        None
    }
}

/// The kind that a word names.
pub fn kind_of(word: &[u8]) -> Option<Kind>
    ensures { result ≡ kind_of word.now }
{
    if word == b"strong".as_slice() {
        Some(Kind::Strong)
    } else if word == b"unowned".as_slice() {
        Some(Kind::Unowned)
    } else if word == b"weak".as_slice() {
        Some(Kind::Weak)
    } else {
        None
    }
}
