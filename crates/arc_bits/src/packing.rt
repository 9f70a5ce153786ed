//! What an inline word says, and the number that it is packed as.

ghost use Rattle.std.specs.Prelude.{◌≡◌, ◌↔◌, Some, IsNone, IfSome};
ghost use Rattle.arc_bits.specs.declared.packing.Word.{Word};
ghost use Rattle.arc_bits.specs.Words.{packed, unpacked, IsPackable, IsWordOf, HasNoWord};

/// The counts of an object that has no side table entry, as its header holds them. RefCount.h; the widths are this project's own.
#[derive(Clone, Copy, Debug, PartialEq, Eq)]
pub struct Inline {
    /// One less than the number of strong references, while the object is live: 0 to 2^30 - 1.
    pub strong_extra: u32,
    /// The number of unowned references, and one more on behalf of the strong ones until deinit has completed: 0 to 2^31 - 1.
    pub unowned: u32,
    /// The last strong reference was given up. RefCount.h's IsDeiniting.
    pub deiniting: bool,
}

/// What an inline word says.
#[derive(Clone, Copy, Debug, PartialEq, Eq)]
pub enum Word {
    /// No object is in the slot.
    Free,
    /// The object's counts.
    Counts(Inline),
    /// The side table entry, by its number, that has the object's counts. RefCount.h's UseSlowRC.
    Slow(u32),
    /// The object is of an immortal class: its counts stand still, and it is never deinited. This project's own.
    Immortal,
}

const IMMORTAL: u64 = 1;

const UNOWNED_ONE: u64 = 1 << 1;

pub(crate) const DEINITING: u64 = 1 << 32;

pub(crate) const STRONG_EXTRA_ONE: u64 = 1 << 33;

pub(crate) const SLOW: u64 = 1 << 63;

/// The word in 64 bits: bits 1 to 31 are the unowned count, bit 32 is deiniting, bits 33 to 62 are the strong extra count, and
/// bit 63 says that the low 32 bits are an entry's number. A free slot's word is 0, an immortal object's is 1.
#[tactic(auto, unfolding(crate::specs::Words::unpacked))]
pub fn pack(word: Word) -> u64
    requires { IsPackable word }
    ensures packed { result ≡ packed word }
    ensures back { unpacked result ≡ Some word }
{
    match word {
        Word::Free => 0,
        Word::Counts(counts) => {
            let flag = if counts.deiniting { DEINITING } else { 0 };
            u64::from(counts.unowned) * UNOWNED_ONE
                + flag
                + u64::from(counts.strong_extra) * STRONG_EXTRA_ONE
        }
        Word::Slow(entry) => SLOW + u64::from(entry),
        Word::Immortal => IMMORTAL,
    }
}

/// The word that packs to the number; None where no word does.
#[tactic(auto, unfolding(crate::specs::Words::unpacked))]
pub fn unpack(word: u64) -> Option<Word>
    ensures unpacked { result ≡ unpacked word }
    ensures packs { IfSome result (λ w. IsWordOf w word) }
    ensures only { (w : Word) → IsWordOf w word → result ≡ Some w }
    ensures none { IsNone result ↔ ¬ ((w : Word) × IsWordOf w word) }
    ensures none_by_bits { IsNone result ↔ HasNoWord word }
{
    if word == 0 {
        return Some(Word::Free);
    }
    if word == IMMORTAL {
        return Some(Word::Immortal);
    }
    if word >= SLOW {
        let entry = word - SLOW;
        return if entry < DEINITING {
            Some(Word::Slow(entry as u32))
        } else {
            None
        };
    }
    if word % 2 == 1 {
        return None;
    }
    Some(Word::Counts(Inline {
        strong_extra: (word / STRONG_EXTRA_ONE) as u32,
        unowned: (word % DEINITING / UNOWNED_ONE) as u32,
        deiniting: word / DEINITING % 2 == 1,
    }))
}

#[cfg(test)]
mod tests {
    use super::*;

    fn pack_counts(strong_extra: u32, unowned: u32, deiniting: bool) -> u64
        requires { IsPackable (Word.Counts (record { strong_extra = strong_extra; unowned = unowned; deiniting = deiniting })) }
    {
        pack(Word::Counts(Inline {
            strong_extra,
            unowned,
            deiniting,
        }))
    }

    #[test]
    fn holders_are_packed(rt: HostRuntime) {
        assert_eq!(rt; pack_counts(0, 1, false), 0x0000_0000_0000_0002);
        assert_eq!(rt; pack_counts(1, 1, false), 0x0000_0002_0000_0002);
        assert_eq!(rt; pack_counts(2, 1, false), 0x0000_0004_0000_0002);
        assert_eq!(rt; pack_counts(0, 1, true), 0x0000_0001_0000_0002);
        assert_eq!(rt; pack_counts(0, 2, true), 0x0000_0001_0000_0004);
        assert_eq!(rt; pack(Word::Slow(0)), 0x8000_0000_0000_0000);
        assert_eq!(rt; pack(Word::Immortal), 0x0000_0000_0000_0001);
    }

    #[test]
    fn numbers_are_unpacked(rt: HostRuntime) {
        assert_eq!(rt; unpack(0), Some(Word::Free));
        assert_eq!(rt; unpack(1), Some(Word::Immortal));
        assert_eq!(rt; unpack(3), None);
        assert_eq!(rt; unpack(0x8000_0001_0000_0000), None);
        assert_eq!(rt; unpack(0x8000_0000_0000_0001), Some(Word::Slow(1)));
    }
}
