//! One weak reference more, to an object that has an entry.

ghost use Rattle.std.specs.Prelude.{◌≡◌, ◌≤◌, Some, None};
ghost use Rattle.arc_rule.specs.Attempts.{told_as, TellsNoChange};
ghost use Rattle.arc_rule.specs.Places.{IsPlace};
ghost use Rattle.arc_rule.specs.declared.layout.Place.TheVariants.{Count};
ghost use Rattle.arc_rule.specs.declared.attempt.At.TheVariants.{Start};
ghost use Rattle.arc_side.specs.declared.weak_of.WeakOfAnswer.TheVariants.{Again};
ghost use Rattle.arc_side.specs.Entries.{entry_up_change};
ghost use Rattle.arc_side.specs.Inline.{inline_leaves};
ghost use Rattle.arc_side.specs.WeakOfs.{weak_rise, of_weak_up, WeakOfWord, weak_of_choice, weak_of_end, weak_of_onward, weak_of_moved, weak_of_place, weak_of_change};

use crate::entry_up::{EntryUp, EntryUpAnswer};
use crate::inline::entry_met;
use arc_model::Kind;
use arc_rule::{At, Changed, Choice, Layout, Row};
use std::alloc::AllocError;
use std::marker::Model;

/// What the forming of a weak reference comes to.
#[derive(Clone, Copy, Debug, PartialEq, Eq)]
pub enum WeakOfAnswer {
    /// It is there, counted in the entry with this number.
    Up(u32),
    /// The object has no entry: its counts were read in the inline word.
    NoSide,
    /// The count stands at the greatest of an entry.
    CountFull,
    /// The word has changed in the meantime.
    Again(Changed),
}

/// One weak reference more to the object in a slot, by the weak count of the entry that the inline word names: at most three steps.
/// Weak references are counted in the side table alone, as in Swift's runtime (RefCount.h). The object's class isn't immortal, since such an
/// object has no entry.
#[derive(Debug)]
pub struct WeakOf {
    layout: Layout,
    slot: u32,
    wide: u32,
    entry: Option<u32>,
    at: At,
}

impl Model for WeakOf {
    ghost use Rattle.arc_side.specs.WeakOfs.{WeakRise, IsWeakRise};

    ghost Value = { WeakRise };

    ghost view = { λ p. record { layout = p.layout; slot = p.slot; wide = p.wide; entry = p.entry; at = p.at } };

    ghost invariant = { λ p. IsWeakRise (record { layout = p.layout; slot = p.slot; wide = p.wide; entry = p.entry; at = p.at }) };

    ghost inverse = { λ p. record { layout = p.layout; slot = p.slot; wide = p.wide; entry = p.entry; at = p.at } };
}

impl Clone for WeakOf {
    ghost is_clone = { λ old new. new ≡ old };

    fn clone(&self) -> Result<Self, AllocError> {
        Ok(*self)
    }
}

impl Copy for WeakOf {}

impl WeakOf {
    /// A weak reference to the object in the slot. `wide` is the greatest count of an entry, 1 to 4,294,967,295.
    pub fn start(layout: &Layout, slot: u32, wide: u32) -> WeakOf
        requires slot { IsPlace layout.now (Count slot) }
        requires wide { 1 ≤ wide }
        ensures { result ≡ record { layout = layout.now; slot = slot; wide = wide; entry = None; at = Start } }
    {
        WeakOf {
            layout: *layout,
            slot,
            wide,
            entry: None,
            at: At::Start,
        }
    }

    fn in_entry(&self, entry: u32) -> EntryUp
        requires { self.now.entry ≡ Some entry }
        ensures { result ≡ weak_rise self.now entry }
    {
        let mut part = EntryUp::start(&self.layout, entry, Kind::Weak, self.wide);
        part.move_to(self.at);
        part
    }
}

fn of_entry(entry: u32, choice: Choice<EntryUpAnswer>) -> Choice<WeakOfAnswer>
    requires silent { TellsNoChange entry_up_change choice }
    ensures choice { result ≡ told_as (of_weak_up entry) choice }
    ensures silent { TellsNoChange weak_of_change result }
{
    match choice {
        Choice::Write(new) => Choice::Write(new),
        Choice::Tell(EntryUpAnswer::CountFull) => Choice::Tell(WeakOfAnswer::CountFull),
        Choice::Tell(EntryUpAnswer::Again(_)) => unreachable!(),
        Choice::Tell(_) => Choice::Tell(WeakOfAnswer::Up(entry)),
    }
}

impl Row for WeakOf {
    type Answer = WeakOfAnswer;

    ghost at = { λ p. p.at };

    ghost moved = { weak_of_moved };

    ghost place = { weak_of_place };

    ghost fits = { WeakOfWord };

    ghost choice = { weak_of_choice };

    ghost after = { weak_of_end };

    ghost again = { Again };

    ghost onward = { weak_of_onward };

    ghost load_leaves = { λ p. inline_leaves p.entry };

    ghost exchange_leaves = { λ p. 0 };

    ghost changes = { weak_of_change };

    fn at(&self) -> At {
        self.at
    }

    fn move_to(&mut self, to: At) {
        self.at = to;
    }

    fn place(&self) -> u32 {
        match self.entry {
            None => self.layout.count_of(self.slot),
            Some(entry) => self.layout.weak_of(entry),
        }
    }

    fn choice(&self, word: u64) -> Choice<WeakOfAnswer> {
        match self.entry {
            None => Choice::Tell(WeakOfAnswer::NoSide),
            Some(entry) => of_entry(entry, self.in_entry(entry).choice(word)),
        }
    }

    fn after(&self, _seen: u64) -> WeakOfAnswer {
        match self.entry {
            None => WeakOfAnswer::NoSide,
            Some(entry) => WeakOfAnswer::Up(entry),
        }
    }

    fn again(words: Changed) -> WeakOfAnswer {
        WeakOfAnswer::Again(words)
    }

    fn onward(&self, last: Option<u64>) -> Option<WeakOf> {
        let entry = entry_met(self.entry, self.at, last)?;
        Some(WeakOf {
            entry: Some(entry),
            ..*self
        })
    }
}
