//! Plans of a strong reference on the inline word: one more, one fewer.
ghost use Rattle.std.specs.Prelude.{◌≡◌, ◌<◌, ◌≤◌, true};
ghost use Rattle.arc_bits.specs.Words.{IsStrongCap, unpacked};
ghost use Rattle.arc_rule.specs.Places.{IsPlace, number};
ghost use Rattle.arc_rule.specs.declared.layout.Place.TheVariants.{Count};
ghost use Rattle.arc_rule.specs.declared.attempt.At.TheVariants.{Start};
ghost use Rattle.arc_rule.specs.Attempts.{goes_nowhere};
ghost use Rattle.arc_plan.specs.declared.strong.StrongUpAnswer.TheVariants as ups;
ghost use Rattle.arc_plan.specs.declared.strong.StrongDownAnswer.TheVariants as downs;
ghost use Rattle.arc_plan.specs.Strong.{StrongUpWord, strong_up_row, strong_up_change, StrongDownWord, strong_down_row, strong_down_end, strong_down_change};

use arc_bits::{Word, has_no_strong_extra, strong_down_packed, strong_up_packed, unpack};
use arc_rule::{At, Changed, Choice, Layout, Row};
use std::alloc::AllocError;
use std::marker::Model;

/// What a retain comes to.
#[derive(Clone, Copy, Debug, PartialEq, Eq)]
pub enum StrongUpAnswer {
    Up,
    /// The object was deiniting.
    Dead,
    /// The count stands at the cap of an inline word.
    AtCap,
    /// The counts are in the entry with this number.
    Slow(u32),
    /// The word has changed in the meantime.
    Again(Changed),
}

/// A retain by the inline word of a slot: one load, and one exchange unless the object is immortal.
#[derive(Debug)]
pub struct StrongUp {
    layout: Layout,
    slot: u32,
    cap: u32,
    at: At,
}

impl Model for StrongUp {
    ghost use Rattle.arc_plan.specs.Attempts.{CappedAttempt};
    ghost use Rattle.arc_rule.specs.Places.{IsPlace};
    ghost use Rattle.arc_rule.specs.declared.layout.Place.TheVariants.{Count};
    ghost use Rattle.arc_bits.specs.Words.{IsStrongCap};

    ghost Value = { CappedAttempt };

    ghost view = { λ p. record { layout = p.layout; slot = p.slot; cap = p.cap; at = p.at } };

    ghost invariant = { λ p. IsPlace p.layout (Count p.slot) × IsStrongCap p.cap };

    ghost inverse = { λ p. record { layout = p.layout; slot = p.slot; cap = p.cap; at = p.at } };
}

impl Clone for StrongUp {
    ghost is_clone = { λ old new. new ≡ old };

    fn clone(&self) -> Result<Self, AllocError> {
        Ok(*self)
    }
}

impl Copy for StrongUp {}

impl StrongUp {
    /// `cap` is the greatest strong extra count of an inline word, at most 1,073,741,823.
    pub fn start(layout: &Layout, slot: u32, cap: u32) -> StrongUp
        requires slot { IsPlace layout.now (Count slot) }
        requires cap { IsStrongCap cap }
        ensures { result ≡ record { layout = layout.now; slot = slot; cap = cap; at = Start } }
    {
        StrongUp {
            layout: *layout,
            slot,
            cap,
            at: At::Start,
        }
    }
}

impl Row for StrongUp {
    type Answer = StrongUpAnswer;

    ghost at = { λ p. p.at };

    ghost moved = { λ p at. record p { at = at } };

    ghost place = { λ p. number p.layout (Count p.slot) };

    ghost fits = { StrongUpWord };

    ghost choice = { λ p w. strong_up_row p.cap (unpacked w) };

    ghost after = { λ p seen. ups.Up };

    ghost again = { ups.Again };

    ghost onward = { goes_nowhere };

    ghost load_leaves = { λ p. 1 };

    ghost exchange_leaves = { λ p. 0 };

    ghost changes = { strong_up_change };

    fn at(&self) -> At {
        self.at
    }

    fn move_to(&mut self, to: At) {
        self.at = to;
    }

    fn place(&self) -> u32 {
        self.layout.count_of(self.slot)
    }

    #[tactic(auto, using(crate::proofs::Taken::is_taken))]
    fn choice(&self, word: u64) -> Choice<StrongUpAnswer> {
        if let Some(more) = strong_up_packed(word, self.cap) {
            return Choice::Write(more);
        }
        match unpack(word) {
            Some(Word::Counts(counts)) if counts.deiniting => Choice::Tell(StrongUpAnswer::Dead),
            Some(Word::Counts(_)) => Choice::Tell(StrongUpAnswer::AtCap),
            Some(Word::Slow(entry)) => Choice::Tell(StrongUpAnswer::Slow(entry)),
            Some(Word::Immortal) => Choice::Tell(StrongUpAnswer::Up),
            Some(Word::Free) => unreachable!(),
            None => unreachable!(),
        }
    }

    fn after(&self, _seen: u64) -> StrongUpAnswer {
        StrongUpAnswer::Up
    }

    fn again(words: Changed) -> StrongUpAnswer {
        StrongUpAnswer::Again(words)
    }

    fn onward(&self, _last: Option<u64>) -> Option<StrongUp> {
        None
    }
}

/// What a release comes to.
#[derive(Clone, Copy, Debug, PartialEq, Eq)]
pub enum StrongDownAnswer {
    /// Other strong references remain.
    More,
    /// It was the last strong reference, and the object is deiniting from this step on.
    Last,
    /// The counts are in the entry with this number.
    Slow(u32),
    /// The word has changed in the meantime.
    Again(Changed),
}

/// A release by the inline word of a slot: one load, and one exchange unless the object is immortal.
#[derive(Debug)]
pub struct StrongDown {
    layout: Layout,
    slot: u32,
    at: At,
}

impl Model for StrongDown {
    ghost use Rattle.arc_plan.specs.Attempts.{Attempt};
    ghost use Rattle.arc_rule.specs.Places.{IsPlace};
    ghost use Rattle.arc_rule.specs.declared.layout.Place.TheVariants.{Count};

    ghost Value = { Attempt };

    ghost view = { λ p. record { layout = p.layout; slot = p.slot; at = p.at } };

    ghost invariant = { λ p. IsPlace p.layout (Count p.slot) };

    ghost inverse = { λ p. record { layout = p.layout; slot = p.slot; at = p.at } };
}

impl Clone for StrongDown {
    ghost is_clone = { λ old new. new ≡ old };

    fn clone(&self) -> Result<Self, AllocError> {
        Ok(*self)
    }
}

impl Copy for StrongDown {}

impl StrongDown {
    /// A release of a strong reference to the object in the slot.
    pub fn start(layout: &Layout, slot: u32) -> StrongDown
        requires { IsPlace layout.now (Count slot) }
        ensures { result ≡ record { layout = layout.now; slot = slot; at = Start } }
    {
        StrongDown {
            layout: *layout,
            slot,
            at: At::Start,
        }
    }
}

impl Row for StrongDown {
    type Answer = StrongDownAnswer;

    ghost at = { λ p. p.at };

    ghost moved = { λ p at. record p { at = at } };

    ghost place = { λ p. number p.layout (Count p.slot) };

    ghost fits = { StrongDownWord };

    ghost choice = { λ p w. strong_down_row (unpacked w) };

    ghost after = { λ p seen. strong_down_end (unpacked seen) };

    ghost again = { downs.Again };

    ghost onward = { goes_nowhere };

    ghost load_leaves = { λ p. 1 };

    ghost exchange_leaves = { λ p. 0 };

    ghost changes = { strong_down_change };

    fn at(&self) -> At {
        self.at
    }

    fn move_to(&mut self, to: At) {
        self.at = to;
    }

    fn place(&self) -> u32 {
        self.layout.count_of(self.slot)
    }

    #[tactic(auto, using(crate::proofs::Taken::is_taken))]
    fn choice(&self, word: u64) -> Choice<StrongDownAnswer> {
        if let Some(fewer) = strong_down_packed(word) {
            return Choice::Write(fewer);
        }
        match unpack(word) {
            Some(Word::Counts(_)) => unreachable!(),
            Some(Word::Slow(entry)) => Choice::Tell(StrongDownAnswer::Slow(entry)),
            Some(Word::Immortal) => Choice::Tell(StrongDownAnswer::More),
            Some(Word::Free) => unreachable!(),
            None => unreachable!(),
        }
    }

    fn after(&self, seen: u64) -> StrongDownAnswer {
        if has_no_strong_extra(seen) {
            StrongDownAnswer::Last
        } else {
            StrongDownAnswer::More
        }
    }

    fn again(words: Changed) -> StrongDownAnswer {
        StrongDownAnswer::Again(words)
    }

    fn onward(&self, _last: Option<u64>) -> Option<StrongDown> {
        None
    }
}
