//! The entry that an inline word leads to.

ghost use Rattle.std.specs.Prelude.{◌≡◌};
ghost use Rattle.arc_side.specs.Inline.{entry_met};

use arc_bits::{Word, unpack};
use arc_rule::At;

/// The entry to which an attempt goes on, that has this entry so far: the one that the inline word names that its load gave.
pub(crate) fn entry_met(entry: Option<u32>, at: At, last: Option<u64>) -> Option<u32>
    ensures { result ≡ entry_met entry at last }
{
    if entry.is_some() || at != At::Loading {
        return None;
    }
    match unpack(last?) {
        Some(Word::Slow(named)) => Some(named),
        _ => None,
    }
}
