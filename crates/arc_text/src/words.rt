//! The words of a line, and the numbers and names that they spell.

ghost use Rattle.std.specs.Prelude.{◌≡◌, ◌==◌, IfOk, count_by, map, position, slice_index};
ghost use Rattle.std.specs.List.{list_all, before_first, after_first};
ghost use Rattle.std.specs.Char.{is_ascii_digit};
ghost use Rattle.arc_text.specs.Words.{is_plain, is_name_byte, is_name, is_numeral, number_in, words_of};

use std::alloc::{AllocError, Global};

/// The words of a line.
pub fn words_of<'a>(alloc: Global, line: &'a [u8]) -> Result<Vec<&'a [u8]>, AllocError>
    ensures { IfOk result (λ v. map (λ w. w.now) v.items ≡ words_of line.now) }
{
    line.split(|b| *b == b' ' || *b == b'\t')
        .filter(|w| !w.is_empty())
        .collect(alloc)
}

/// Whether a line may have these bytes.
pub fn are_plain(line: &[u8]) -> bool
    ensures { result ≡ list_all is_plain line.now }
{
    line.iter().all(|b| matches!(*b, b'\t' | b' '..=b'~'))
}

/// Whether a line that begins with this word is passed over.
pub fn is_comment(word: &[u8]) -> bool
    ensures { result ≡ (slice_index word.now 0 == 35) }
{
    match word {
        [] => false,
        [first, ..] => *first == b'#',
    }
}

fn are_name_bytes(bytes: &[u8]) -> bool
    ensures { result ≡ list_all is_name_byte bytes.now }
{
    bytes
        .iter()
        .all(|b| b.is_ascii_alphanumeric() || *b == b'_')
}

fn are_digits(bytes: &[u8]) -> bool
    ensures { result ≡ list_all is_ascii_digit bytes.now }
{
    bytes.iter().all(|b| b.is_ascii_digit())
}

/// Whether the word is spelled as a name.
pub fn is_name(word: &[u8]) -> bool
    ensures { result ≡ is_name word.now }
{
    match word {
        [] => false,
        [first, rest @ ..] => {
            first.is_ascii_alphabetic() && rest.len() < 32 && are_name_bytes(rest)
        }
    }
}

fn is_numeral(word: &[u8]) -> bool
    ensures { result ≡ is_numeral word.now }
{
    match word {
        [] => false,
        [digit] => digit.is_ascii_digit(),
        [first, ..] => *first != b'0' && are_digits(word),
    }
}

/// The number that the word spells, where it is in this range.
pub fn number_in(word: &[u8], low: u32, high: u32) -> Option<u32>
    ensures { result ≡ number_in low high word.now }
{
    if !is_numeral(word) {
        return None;
    }
    let Ok(text) = str::from_utf8(word) else {
        return None;
    };
    let Ok(number) = text.parse::<u32>() else {
        return None;
    };
    if low <= number && number <= high {
        Some(number)
    } else {
        None
    }
}

/// How often a byte stands in the word.
pub fn marks_in(word: &[u8], mark: u8) -> usize
    ensures { result ≡ count_by (λ b. b == mark) word.now }
{
    word.iter().filter(|b| **b == mark).count()
}

fn mark_in(word: &[u8], mark: u8) -> Option<usize>
    ensures { result ≡ position (λ b. b == mark) word.now }
{
    word.iter().position(|b| *b == mark)
}

/// What stands before the first such byte of the word, and what stands behind it.
pub fn cut_at(word: &[u8], mark: u8) -> (&[u8], &[u8])
    ensures before { result.0.now ≡ before_first (λ b. b == mark) word.now }
    ensures after { result.1.now ≡ after_first (λ b. b == mark) word.now }
{
    match mark_in(word, mark) {
        Some(at) => (&word[..at], &word[at + 1..]),
        None => (word, &word[word.len()..]),
    }
}
