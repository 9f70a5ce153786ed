//! Numbers on the command line.

ghost use Rattle.std.specs.Prelude.{◌≡◌, ◌-◌, ◌^◌};
ghost use Rattle.std.specs.List.{list_all};
ghost use Rattle.std.specs.Char.{is_ascii_digit};
ghost use Rattle.arc_text.specs.Words.{is_numeral, number_in};

fn are_digits(bytes: &[u8]) -> bool
    ensures { result ≡ list_all is_ascii_digit bytes.now }
{
    bytes.iter().all(|b| b.is_ascii_digit())
}

fn is_numeral(word: &[u8]) -> bool
    ensures { result ≡ is_numeral word.now }
{
    match word {
        [] => false,
        [digit] => digit.is_ascii_digit(),
        [first, ..] => *first != b'0' && are_digits(word),
    }
}

/// The number that the word spells, where it is at most 2^64 - 1.
pub(crate) fn long_number(word: &[u8]) -> Option<u64>
    ensures { result ≡ number_in 0 (2 ^ 64 - 1) word.now }
{
    if !is_numeral(word) {
        return None;
    }
    let Ok(text) = str::from_utf8(word) else {
        return None;
    };
    let Ok(number) = text.parse::<u64>() else {
        return None;
    };
    Some(number)
}
