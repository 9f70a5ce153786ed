//! One strong reference more or fewer by a sum on the packed word. RefCount.h (the fast paths of increment and decrement).

ghost use Rattle.std.specs.Prelude.{◌≡◌, ◌≢◌, Some};
ghost use Rattle.arc_bits.specs.Words.{unpacked, IsStrongCap};
ghost use Rattle.arc_bits.specs.Fast.{is_live, has_no_strong_extra, strong_up_packed, strong_down_packed};

use crate::packing::{DEINITING, SLOW, STRONG_EXTRA_ONE};

/// The word has the counts of a live object.
#[tactic(auto, unfolding(crate::specs::Words::unpacked))]
#[inline(always)]
fn is_live(word: u64) -> bool
    requires taken { word ≢ 0 }
    ensures { result ≡ is_live (unpacked word) }
{
    word % 2 == 0 && word < SLOW && word / DEINITING % 2 == 0
}

/// The word with one strong reference more, where it has the counts of a live object below the cap. `cap` is the greatest strong extra
/// count, at most 1,073,741,823.
#[tactic(auto, unfolding(crate::specs::Words::unpacked))]
#[inline(always)]
pub fn strong_up_packed(word: u64, cap: u32) -> Option<u64>
    requires taken { word ≢ 0 }
    requires cap { IsStrongCap cap }
    ensures { result ≡ strong_up_packed cap (unpacked word) }
{
    if is_live(word) && word / STRONG_EXTRA_ONE < u64::from(cap) {
        Some(word + STRONG_EXTRA_ONE)
    } else {
        None
    }
}

/// The word with one strong reference fewer, or deiniting after the last one, where it has the counts of a live object.
#[tactic(auto, unfolding(crate::specs::Words::unpacked))]
#[inline(always)]
pub fn strong_down_packed(word: u64) -> Option<u64>
    requires taken { word ≢ 0 }
    ensures { result ≡ strong_down_packed (unpacked word) }
{
    if !is_live(word) {
        return None;
    }
    Some(if word < STRONG_EXTRA_ONE {
        word + DEINITING
    } else {
        word - STRONG_EXTRA_ONE
    })
}

/// The word has counts, with no strong reference beyond one.
#[tactic(auto, unfolding(crate::specs::Words::unpacked))]
#[inline(always)]
pub fn has_no_strong_extra(word: u64) -> bool
    ensures { result ≡ has_no_strong_extra (unpacked word) }
{
    word < STRONG_EXTRA_ONE && word % 2 == 0 && word != 0
}

#[cfg(test)]
mod tests {
    use super::*;

    #[test]
    fn strong_references_go_up(rt: HostRuntime) {
        assert_eq!(rt;
            strong_up_packed(0x0000_0000_0000_0002, 2),
            Some(0x0000_0002_0000_0002)
        );
        assert_eq!(rt; strong_up_packed(0x0000_0004_0000_0002, 2), None);
        assert_eq!(rt; strong_up_packed(0x0000_0001_0000_0002, 2), None);
        assert_eq!(rt; strong_up_packed(0x8000_0000_0000_0002, 2), None);
        assert_eq!(rt; strong_up_packed(0x0000_0000_0000_0001, 2), None);
    }

    #[test]
    fn strong_references_go_down(rt: HostRuntime) {
        assert_eq!(rt;
            strong_down_packed(0x0000_0004_0000_0002),
            Some(0x0000_0002_0000_0002)
        );
        assert_eq!(rt;
            strong_down_packed(0x0000_0000_0000_0004),
            Some(0x0000_0001_0000_0004)
        );
        assert_eq!(rt; strong_down_packed(0x0000_0001_0000_0002), None);
        assert_eq!(rt; strong_down_packed(0x8000_0000_0000_0002), None);
        assert_eq!(rt; strong_down_packed(0x0000_0000_0000_0001), None);
    }

    #[test]
    fn one_strong_reference_is_no_extra_one(rt: HostRuntime) {
        assert_eq!(rt; has_no_strong_extra(0x0000_0000_0000_0002), true);
        assert_eq!(rt; has_no_strong_extra(0x0000_0002_0000_0002), false);
        assert_eq!(rt; has_no_strong_extra(0x0000_0000_0000_0001), false);
        assert_eq!(rt; has_no_strong_extra(0x8000_0000_0000_0000), false);
    }
}
