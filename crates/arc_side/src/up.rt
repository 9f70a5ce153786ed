//! One reference more, strong or unowned, wherever it is counted.

ghost use Rattle.std.specs.Prelude.{◌≡◌, Some, None};
ghost use Rattle.arc_rule.specs.Attempts.{told_as, TellsNoChange};
ghost use Rattle.arc_plan.specs.Strong.{strong_up_change};
ghost use Rattle.arc_plan.specs.Unowned.{unowned_up_change};
ghost use Rattle.arc_side.specs.Entries.{entry_up_change};
ghost use Rattle.arc_rule.specs.Places.{IsPlace};
ghost use Rattle.arc_rule.specs.declared.layout.Place.TheVariants.{Count};
ghost use Rattle.arc_rule.specs.declared.attempt.At.TheVariants.{Start};
ghost use Rattle.arc_side.specs.declared.up.UpAnswer.TheVariants as ups;
ghost use Rattle.arc_side.specs.Inline.{IsCountedInline, inline_leaves};
ghost use Rattle.arc_side.specs.Ups.{strong_rise, unowned_rise, entry_rise, of_strong_up, of_unowned_up, of_entry_up, UpWord, up_choice, up_onward, up_moved, up_place, up_change};

use crate::count::count_of;
use crate::entry_up::{EntryUp, EntryUpAnswer};
use crate::inline::entry_met;
use arc_model::{Caps, Kind};
use arc_plan::{StrongUp, StrongUpAnswer, UnownedUp, UnownedUpAnswer};
use arc_rule::{At, Changed, Choice, Layout, Row};
use std::alloc::AllocError;
use std::marker::Model;

/// What one more reference comes to.
#[derive(Clone, Copy, Debug, PartialEq, Eq)]
pub enum UpAnswer {
    Up,
    /// A strong one was asked for, and the object was deiniting or its strong count in the entry was 0.
    Dead,
    /// The count stands at the cap of an inline word.
    AtCap,
    /// The count stands at the greatest of an entry.
    CountFull,
    /// The word has changed in the meantime.
    Again(Changed),
}

/// One strong or unowned reference more, by the inline word of a slot, and where that names an entry by the entry's count: at most three
/// steps. A retain as in Swift's runtime (RefCount.h), whose slow path goes on at the side table.
#[derive(Debug)]
pub struct Up {
    layout: Layout,
    slot: u32,
    list: Kind,
    caps: Caps,
    entry: Option<u32>,
    at: At,
}

impl Model for Up {
    ghost use Rattle.arc_side.specs.Ups.{Rise, IsRise};

    ghost Value = { Rise };

    ghost view = { λ p. record { layout = p.layout; slot = p.slot; list = p.list; caps = p.caps; entry = p.entry; at = p.at } };

    ghost invariant = { λ p. IsRise (record { layout = p.layout; slot = p.slot; list = p.list; caps = p.caps; entry = p.entry; at = p.at }) };

    ghost inverse = { λ p. record { layout = p.layout; slot = p.slot; list = p.list; caps = p.caps; entry = p.entry; at = p.at } };
}

impl Clone for Up {
    ghost is_clone = { λ old new. new ≡ old };

    fn clone(&self) -> Result<Self, AllocError> {
        Ok(*self)
    }
}

impl Copy for Up {}

impl Up {
    /// One more in this list, strong or unowned, of the object in the slot.
    pub fn start(layout: &Layout, slot: u32, list: Kind, caps: Caps) -> Up
        requires slot { IsPlace layout.now (Count slot) }
        requires list { IsCountedInline list }
        ensures { result ≡ record { layout = layout.now; slot = slot; list = list; caps = caps; entry = None; at = Start } }
    {
        Up {
            layout: *layout,
            slot,
            list,
            caps,
            entry: None,
            at: At::Start,
        }
    }

    fn in_strong(&self) -> StrongUp
        requires { self.now.entry ≡ None }
        ensures { result ≡ strong_rise self.now }
    {
        let mut part = StrongUp::start(&self.layout, self.slot, self.caps.strong());
        part.move_to(self.at);
        part
    }

    fn in_unowned(&self) -> UnownedUp
        requires { self.now.entry ≡ None }
        ensures { result ≡ unowned_rise self.now }
    {
        let mut part = UnownedUp::start(&self.layout, self.slot, self.caps.unowned());
        part.move_to(self.at);
        part
    }

    fn in_entry(&self, entry: u32) -> EntryUp
        requires { self.now.entry ≡ Some entry }
        ensures { result ≡ entry_rise self.now entry }
    {
        let mut part = EntryUp::start(&self.layout, entry, self.list, self.caps.wide());
        part.move_to(self.at);
        part
    }
}

fn of_strong(choice: Choice<StrongUpAnswer>) -> Choice<UpAnswer>
    requires silent { TellsNoChange strong_up_change choice }
    ensures choice { result ≡ told_as of_strong_up choice }
    ensures silent { TellsNoChange up_change result }
{
    match choice {
        Choice::Write(new) => Choice::Write(new),
        Choice::Tell(StrongUpAnswer::Up) => Choice::Tell(UpAnswer::Up),
        Choice::Tell(StrongUpAnswer::Slow(_)) => Choice::Tell(UpAnswer::Dead),
        Choice::Tell(StrongUpAnswer::Dead) => Choice::Tell(UpAnswer::Dead),
        Choice::Tell(StrongUpAnswer::AtCap) => Choice::Tell(UpAnswer::AtCap),
        Choice::Tell(StrongUpAnswer::Again(_)) => unreachable!(),
    }
}

fn of_unowned(choice: Choice<UnownedUpAnswer>) -> Choice<UpAnswer>
    requires silent { TellsNoChange unowned_up_change choice }
    ensures choice { result ≡ told_as of_unowned_up choice }
    ensures silent { TellsNoChange up_change result }
{
    match choice {
        Choice::Write(new) => Choice::Write(new),
        Choice::Tell(UnownedUpAnswer::Up) => Choice::Tell(UpAnswer::Up),
        Choice::Tell(UnownedUpAnswer::Slow(_)) => Choice::Tell(UpAnswer::AtCap),
        Choice::Tell(UnownedUpAnswer::AtCap) => Choice::Tell(UpAnswer::AtCap),
        Choice::Tell(UnownedUpAnswer::Again(_)) => unreachable!(),
    }
}

fn of_entry(choice: Choice<EntryUpAnswer>) -> Choice<UpAnswer>
    requires silent { TellsNoChange entry_up_change choice }
    ensures choice { result ≡ told_as of_entry_up choice }
    ensures silent { TellsNoChange up_change result }
{
    match choice {
        Choice::Write(new) => Choice::Write(new),
        Choice::Tell(EntryUpAnswer::Up) => Choice::Tell(UpAnswer::Up),
        Choice::Tell(EntryUpAnswer::Zero) => Choice::Tell(UpAnswer::Dead),
        Choice::Tell(EntryUpAnswer::CountFull) => Choice::Tell(UpAnswer::CountFull),
        Choice::Tell(EntryUpAnswer::Again(_)) => unreachable!(),
    }
}

impl Row for Up {
    type Answer = UpAnswer;

    ghost at = { λ p. p.at };

    ghost moved = { up_moved };

    ghost place = { up_place };

    ghost fits = { UpWord };

    ghost choice = { up_choice };

    ghost after = { λ p seen. ups.Up };

    ghost again = { ups.Again };

    ghost onward = { up_onward };

    ghost load_leaves = { λ p. inline_leaves p.entry };

    ghost exchange_leaves = { λ p. 0 };

    ghost changes = { up_change };

    fn at(&self) -> At {
        self.at
    }

    fn move_to(&mut self, to: At) {
        self.at = to;
    }

    fn place(&self) -> u32 {
        match self.entry {
            None => self.layout.count_of(self.slot),
            Some(entry) => count_of(&self.layout, entry, self.list),
        }
    }

    fn choice(&self, word: u64) -> Choice<UpAnswer> {
        match (self.entry, self.list) {
            (Some(entry), _) => of_entry(self.in_entry(entry).choice(word)),
            (None, Kind::Strong) => of_strong(self.in_strong().choice(word)),
            (None, Kind::Unowned) => of_unowned(self.in_unowned().choice(word)),
            (None, Kind::Weak) => unreachable!(),
        }
    }

    fn after(&self, _seen: u64) -> UpAnswer {
        UpAnswer::Up
    }

    fn again(words: Changed) -> UpAnswer {
        UpAnswer::Again(words)
    }

    fn onward(&self, last: Option<u64>) -> Option<Up> {
        let entry = entry_met(self.entry, self.at, last)?;
        Some(Up {
            entry: Some(entry),
            ..*self
        })
    }
}
