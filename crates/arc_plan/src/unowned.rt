//! Plans of an unowned reference on the inline word: one more, one fewer.
ghost use Rattle.std.specs.Prelude.{◌≡◌, ◌<◌, ◌≤◌, true};
ghost use Rattle.arc_bits.specs.Words.{IsUnownedCap, unpacked};
ghost use Rattle.arc_rule.specs.Places.{IsPlace, number};
ghost use Rattle.arc_rule.specs.declared.layout.Place.TheVariants.{Count};
ghost use Rattle.arc_rule.specs.declared.attempt.At.TheVariants.{Start};
ghost use Rattle.arc_rule.specs.Attempts.{goes_nowhere};
ghost use Rattle.arc_plan.specs.declared.unowned.UnownedUpAnswer.TheVariants as ups;
ghost use Rattle.arc_plan.specs.declared.unowned.UnownedDownAnswer.TheVariants as downs;
ghost use Rattle.arc_plan.specs.Unowned.{UnownedUpWord, unowned_up_row, unowned_up_change, UnownedDownWord, unowned_down_row, unowned_down_end, unowned_down_change};

use arc_bits::{Word, pack, unowned_down, unowned_up, unpack};
use arc_rule::{At, Changed, Choice, Layout, Row};
use std::alloc::AllocError;
use std::marker::Model;

/// What one more unowned reference comes to.
#[derive(Clone, Copy, Debug, PartialEq, Eq)]
pub enum UnownedUpAnswer {
    Up,
    /// The count stands at the cap of an inline word.
    AtCap,
    /// The counts are in the entry with this number.
    Slow(u32),
    /// The word has changed in the meantime.
    Again(Changed),
}

/// One unowned reference more, by the inline word of a slot: one load, and one exchange unless the object is immortal. The object may be deiniting.
#[derive(Debug)]
pub struct UnownedUp {
    layout: Layout,
    slot: u32,
    cap: u32,
    at: At,
}

impl Model for UnownedUp {
    ghost use Rattle.arc_plan.specs.Attempts.{CappedAttempt};
    ghost use Rattle.arc_rule.specs.Places.{IsPlace};
    ghost use Rattle.arc_rule.specs.declared.layout.Place.TheVariants.{Count};
    ghost use Rattle.arc_bits.specs.Words.{IsUnownedCap};

    ghost Value = { CappedAttempt };

    ghost view = { λ p. record { layout = p.layout; slot = p.slot; cap = p.cap; at = p.at } };

    ghost invariant = { λ p. IsPlace p.layout (Count p.slot) × IsUnownedCap p.cap };

    ghost inverse = { λ p. record { layout = p.layout; slot = p.slot; cap = p.cap; at = p.at } };
}

impl Clone for UnownedUp {
    ghost is_clone = { λ old new. new ≡ old };

    fn clone(&self) -> Result<Self, AllocError> {
        Ok(*self)
    }
}

impl Copy for UnownedUp {}

impl UnownedUp {
    /// `cap` is the greatest unowned count of an inline word, 1 to 2,147,483,647.
    pub fn start(layout: &Layout, slot: u32, cap: u32) -> UnownedUp
        requires slot { IsPlace layout.now (Count slot) }
        requires cap { IsUnownedCap cap }
        ensures { result ≡ record { layout = layout.now; slot = slot; cap = cap; at = Start } }
    {
        UnownedUp {
            layout: *layout,
            slot,
            cap,
            at: At::Start,
        }
    }
}

impl Row for UnownedUp {
    type Answer = UnownedUpAnswer;

    ghost at = { λ p. p.at };

    ghost moved = { λ p at. record p { at = at } };

    ghost place = { λ p. number p.layout (Count p.slot) };

    ghost fits = { UnownedUpWord };

    ghost choice = { λ p w. unowned_up_row p.cap (unpacked w) };

    ghost after = { λ p seen. ups.Up };

    ghost again = { ups.Again };

    ghost onward = { goes_nowhere };

    ghost load_leaves = { λ p. 1 };

    ghost exchange_leaves = { λ p. 0 };

    ghost changes = { unowned_up_change };

    fn at(&self) -> At {
        self.at
    }

    fn move_to(&mut self, to: At) {
        self.at = to;
    }

    fn place(&self) -> u32 {
        self.layout.count_of(self.slot)
    }

    fn choice(&self, word: u64) -> Choice<UnownedUpAnswer> {
        match unpack(word) {
            Some(Word::Counts(counts)) => match unowned_up(counts, self.cap) {
                Ok(more) => Choice::Write(pack(Word::Counts(more))),
                Err(_) => Choice::Tell(UnownedUpAnswer::AtCap),
            },
            Some(Word::Slow(entry)) => Choice::Tell(UnownedUpAnswer::Slow(entry)),
            Some(Word::Immortal) => Choice::Tell(UnownedUpAnswer::Up),
            Some(Word::Free) => unreachable!(),
            None => unreachable!(),
        }
    }

    fn after(&self, _seen: u64) -> UnownedUpAnswer {
        UnownedUpAnswer::Up
    }

    fn again(words: Changed) -> UnownedUpAnswer {
        UnownedUpAnswer::Again(words)
    }

    fn onward(&self, _last: Option<u64>) -> Option<UnownedUp> {
        None
    }
}

/// What one unowned reference fewer comes to.
#[derive(Clone, Copy, Debug, PartialEq, Eq)]
pub enum UnownedDownAnswer {
    /// Other unowned references remain.
    More,
    /// It was the last one, the one on behalf of the strong references included, and the slot must be vacated.
    Last,
    /// The counts are in the entry with this number.
    Slow(u32),
    /// The word has changed in the meantime.
    Again(Changed),
}

/// One unowned reference fewer, by the inline word of a slot: one load, and one exchange unless the object is immortal.
#[derive(Debug)]
pub struct UnownedDown {
    layout: Layout,
    slot: u32,
    at: At,
}

impl Model for UnownedDown {
    ghost use Rattle.arc_plan.specs.Attempts.{Attempt};
    ghost use Rattle.arc_rule.specs.Places.{IsPlace};
    ghost use Rattle.arc_rule.specs.declared.layout.Place.TheVariants.{Count};

    ghost Value = { Attempt };

    ghost view = { λ p. record { layout = p.layout; slot = p.slot; at = p.at } };

    ghost invariant = { λ p. IsPlace p.layout (Count p.slot) };

    ghost inverse = { λ p. record { layout = p.layout; slot = p.slot; at = p.at } };
}

impl Clone for UnownedDown {
    ghost is_clone = { λ old new. new ≡ old };

    fn clone(&self) -> Result<Self, AllocError> {
        Ok(*self)
    }
}

impl Copy for UnownedDown {}

impl UnownedDown {
    /// One unowned reference to the object in the slot is given up, or the one on behalf of the strong references after deinit.
    pub fn start(layout: &Layout, slot: u32) -> UnownedDown
        requires { IsPlace layout.now (Count slot) }
        ensures { result ≡ record { layout = layout.now; slot = slot; at = Start } }
    {
        UnownedDown {
            layout: *layout,
            slot,
            at: At::Start,
        }
    }
}

impl Row for UnownedDown {
    type Answer = UnownedDownAnswer;

    ghost at = { λ p. p.at };

    ghost moved = { λ p at. record p { at = at } };

    ghost place = { λ p. number p.layout (Count p.slot) };

    ghost fits = { UnownedDownWord };

    ghost choice = { λ p w. unowned_down_row (unpacked w) };

    ghost after = { λ p seen. unowned_down_end (unpacked seen) };

    ghost again = { downs.Again };

    ghost onward = { goes_nowhere };

    ghost load_leaves = { λ p. 1 };

    ghost exchange_leaves = { λ p. 0 };

    ghost changes = { unowned_down_change };

    fn at(&self) -> At {
        self.at
    }

    fn move_to(&mut self, to: At) {
        self.at = to;
    }

    fn place(&self) -> u32 {
        self.layout.count_of(self.slot)
    }

    fn choice(&self, word: u64) -> Choice<UnownedDownAnswer> {
        match unpack(word) {
            Some(Word::Counts(counts)) => Choice::Write(pack(Word::Counts(unowned_down(counts)))),
            Some(Word::Slow(entry)) => Choice::Tell(UnownedDownAnswer::Slow(entry)),
            Some(Word::Immortal) => Choice::Tell(UnownedDownAnswer::More),
            Some(Word::Free) => unreachable!(),
            None => unreachable!(),
        }
    }

    fn after(&self, seen: u64) -> UnownedDownAnswer {
        match unpack(seen) {
            Some(Word::Counts(counts)) if counts.unowned == 1 => UnownedDownAnswer::Last,
            _ => UnownedDownAnswer::More,
        }
    }

    fn again(words: Changed) -> UnownedDownAnswer {
        UnownedDownAnswer::Again(words)
    }

    fn onward(&self, _last: Option<u64>) -> Option<UnownedDown> {
        None
    }
}
