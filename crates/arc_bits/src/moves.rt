//! The four moves of the counts in an inline word.

ghost use Rattle.std.specs.Prelude.{◌≡◌, ◌≤◌, ◌↔◌, false, IsErr, IfOk};
ghost use Rattle.arc_bits.specs.Words.{IsStrongCap, IsUnownedCap};
ghost use Rattle.arc_bits.specs.Moves.{strong_more, strong_less, unowned_more, unowned_less};

use crate::packing::Inline;

/// The count stands at its cap, and can't go up in an inline word.
#[derive(Clone, Copy, Debug, PartialEq, Eq)]
pub struct AtCap;

/// The counts with one strong reference more. `cap` is the greatest strong extra count, at most 1,073,741,823.
pub fn strong_up(counts: Inline, cap: u32) -> Result<Inline, AtCap>
    requires live { counts.deiniting ≡ false }
    requires within { counts.strong_extra ≤ cap }
    requires cap { IsStrongCap cap }
    ensures at_cap { IsErr result ↔ (counts.strong_extra ≡ cap) }
    ensures more { IfOk result (λ c. c ≡ strong_more counts) }
{
    if counts.strong_extra == cap {
        return Err(AtCap);
    }
    Ok(Inline {
        strong_extra: counts.strong_extra + 1,
        ..counts
    })
}

/// The counts with one strong reference fewer. The release of the last one sets deiniting at once; that it does so in the same
/// step is this project's own.
pub fn strong_down(counts: Inline) -> Inline
    requires live { counts.deiniting ≡ false }
    ensures { result ≡ strong_less counts }
{
    if counts.strong_extra == 0 {
        return Inline {
            deiniting: true,
            ..counts
        };
    }
    Inline {
        strong_extra: counts.strong_extra - 1,
        ..counts
    }
}

/// The counts with one unowned reference more. `cap` is the greatest unowned count, 1 to 2,147,483,647.
pub fn unowned_up(counts: Inline, cap: u32) -> Result<Inline, AtCap>
    requires within { counts.unowned ≤ cap }
    requires cap { IsUnownedCap cap }
    ensures at_cap { IsErr result ↔ (counts.unowned ≡ cap) }
    ensures more { IfOk result (λ c. c ≡ unowned_more counts) }
{
    if counts.unowned == cap {
        return Err(AtCap);
    }
    Ok(Inline {
        unowned: counts.unowned + 1,
        ..counts
    })
}

/// The counts with one unowned reference fewer.
pub fn unowned_down(counts: Inline) -> Inline
    requires { 1 ≤ counts.unowned }
    ensures { result ≡ unowned_less counts }
{
    Inline {
        unowned: counts.unowned - 1,
        ..counts
    }
}
