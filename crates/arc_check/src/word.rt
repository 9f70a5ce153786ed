//! The words of an event: hands, cells, outcomes.

ghost use Rattle.std.specs.Prelude.{◌≡◌};
ghost use Rattle.arc_check.specs.EventWords.{event_word_of};

/// The word that says what an event does.
#[derive(Clone, Copy, Debug, PartialEq, Eq)]
pub enum EventWord {
    New,
    Full,
    Copy,
    Unown,
    Weak,
    Load,
    Drop,
    CountFull,
    Claim,
    NoEntry,
    Side,
    Back,
    Swap,
    Look,
    Take,
    Finish,
    Vacate,
    Gone,
}

/// What an event with this word does.
pub fn event_word_of(word: &[u8]) -> Option<EventWord>
    ensures { result ≡ event_word_of word.now }
{
    match word {
        b"new" => Some(EventWord::New),
        b"full" => Some(EventWord::Full),
        b"copy" => Some(EventWord::Copy),
        b"unown" => Some(EventWord::Unown),
        b"weak" => Some(EventWord::Weak),
        b"load" => Some(EventWord::Load),
        b"drop" => Some(EventWord::Drop),
        b"countfull" => Some(EventWord::CountFull),
        b"claim" => Some(EventWord::Claim),
        b"noentry" => Some(EventWord::NoEntry),
        b"side" => Some(EventWord::Side),
        b"back" => Some(EventWord::Back),
        b"swap" => Some(EventWord::Swap),
        b"look" => Some(EventWord::Look),
        b"take" => Some(EventWord::Take),
        b"finish" => Some(EventWord::Finish),
        b"vacate" => Some(EventWord::Vacate),
        b"gone" => Some(EventWord::Gone),
        _ => None,
    }
}
