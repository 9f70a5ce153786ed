//! The place of a count in an entry.

ghost use Rattle.std.specs.Prelude.{◌≡◌};
ghost use Rattle.arc_rule.specs.Places.{IsPlace, number};
ghost use Rattle.arc_side.specs.Entries.{count_place};

use arc_model::Kind;
use arc_rule::Layout;

/// The place of an entry's count of a list.
pub(crate) fn count_of(layout: &Layout, entry: u32, list: Kind) -> u32
    requires { IsPlace layout.now (count_place list entry) }
    ensures { result ≡ number layout.now (count_place list entry) }
{
    match list {
        Kind::Strong => layout.strong_of(entry),
        Kind::Unowned => layout.unowned_of(entry),
        Kind::Weak => layout.weak_of(entry),
    }
}
