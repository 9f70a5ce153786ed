//! One reference fewer, strong or unowned, wherever it is counted.

ghost use Rattle.std.specs.Prelude.{◌≡◌, Some, None};
ghost use Rattle.arc_rule.specs.Attempts.{told_as, TellsNoChange};
ghost use Rattle.arc_rule.specs.Places.{IsPlace};
ghost use Rattle.arc_rule.specs.declared.layout.Place.TheVariants.{Count};
ghost use Rattle.arc_rule.specs.declared.attempt.At.TheVariants.{Start};
ghost use Rattle.arc_plan.specs.Strong.{strong_down_change};
ghost use Rattle.arc_plan.specs.Unowned.{unowned_down_change};
ghost use Rattle.arc_side.specs.Entries.{entry_down_change};
ghost use Rattle.arc_side.specs.declared.down.DownAnswer.TheVariants as downs;
ghost use Rattle.arc_side.specs.Inline.{IsCountedInline, inline_leaves};
ghost use Rattle.arc_side.specs.Downs.{inline_fall, entry_fall, of_strong_down, of_unowned_down, of_entry_down, DownWord, down_choice, down_end, down_onward, down_moved, down_place, down_change};

use crate::count::count_of;
use crate::entry_down::{EntryDown, EntryDownAnswer};
use crate::inline::entry_met;
use arc_model::Kind;
use arc_plan::{StrongDown, StrongDownAnswer, UnownedDown, UnownedDownAnswer};
use arc_rule::{At, Changed, Choice, Layout, Row};
use std::alloc::AllocError;
use std::marker::Model;

/// What one reference fewer comes to. The entry is the one that the count lies in, None where it lies in the inline word.
#[derive(Clone, Copy, Debug, PartialEq, Eq)]
pub enum DownAnswer {
    /// Other references of the list remain.
    More(Option<u32>),
    /// It was the last one of the list.
    Last(Option<u32>),
    /// The word has changed in the meantime.
    Again(Changed),
}

/// One strong or unowned reference fewer, by the inline word of a slot, and where that names an entry by the entry's count: at most three
/// steps. A release as in Swift's runtime (RefCount.h), whose slow path goes on at the side table.
#[derive(Debug)]
pub struct Down {
    layout: Layout,
    slot: u32,
    list: Kind,
    entry: Option<u32>,
    at: At,
}

impl Model for Down {
    ghost use Rattle.arc_side.specs.Downs.{Fall, IsFall};

    ghost Value = { Fall };

    ghost view = { λ p. record { layout = p.layout; slot = p.slot; list = p.list; entry = p.entry; at = p.at } };

    ghost invariant = { λ p. IsFall (record { layout = p.layout; slot = p.slot; list = p.list; entry = p.entry; at = p.at }) };

    ghost inverse = { λ p. record { layout = p.layout; slot = p.slot; list = p.list; entry = p.entry; at = p.at } };
}

impl Clone for Down {
    ghost is_clone = { λ old new. new ≡ old };

    fn clone(&self) -> Result<Self, AllocError> {
        Ok(*self)
    }
}

impl Copy for Down {}

impl Down {
    /// One fewer in this list, strong or unowned, of the object in the slot.
    pub fn start(layout: &Layout, slot: u32, list: Kind) -> Down
        requires slot { IsPlace layout.now (Count slot) }
        requires list { IsCountedInline list }
        ensures { result ≡ record { layout = layout.now; slot = slot; list = list; entry = None; at = Start } }
    {
        Down {
            layout: *layout,
            slot,
            list,
            entry: None,
            at: At::Start,
        }
    }

    fn in_strong(&self) -> StrongDown
        requires { self.now.entry ≡ None }
        ensures { result ≡ inline_fall self.now }
    {
        let mut part = StrongDown::start(&self.layout, self.slot);
        part.move_to(self.at);
        part
    }

    fn in_unowned(&self) -> UnownedDown
        requires { self.now.entry ≡ None }
        ensures { result ≡ inline_fall self.now }
    {
        let mut part = UnownedDown::start(&self.layout, self.slot);
        part.move_to(self.at);
        part
    }

    fn in_entry(&self, entry: u32) -> EntryDown
        requires { self.now.entry ≡ Some entry }
        ensures { result ≡ entry_fall self.now entry }
    {
        let mut part = EntryDown::start(&self.layout, entry, self.list);
        part.move_to(self.at);
        part
    }
}

fn of_strong(answer: StrongDownAnswer) -> DownAnswer
    requires silent { strong_down_change answer ≡ None }
    ensures answer { result ≡ of_strong_down answer }
    ensures silent { down_change result ≡ None }
{
    match answer {
        StrongDownAnswer::Last => DownAnswer::Last(None),
        StrongDownAnswer::Again(_) => unreachable!(),
        _ => DownAnswer::More(None),
    }
}

fn of_unowned(answer: UnownedDownAnswer) -> DownAnswer
    requires silent { unowned_down_change answer ≡ None }
    ensures answer { result ≡ of_unowned_down answer }
    ensures silent { down_change result ≡ None }
{
    match answer {
        UnownedDownAnswer::Last => DownAnswer::Last(None),
        UnownedDownAnswer::Again(_) => unreachable!(),
        _ => DownAnswer::More(None),
    }
}

fn of_entry(entry: u32, answer: EntryDownAnswer) -> DownAnswer
    requires silent { entry_down_change answer ≡ None }
    ensures answer { result ≡ of_entry_down entry answer }
    ensures silent { down_change result ≡ None }
{
    match answer {
        EntryDownAnswer::Last => DownAnswer::Last(Some(entry)),
        EntryDownAnswer::Again(_) => unreachable!(),
        EntryDownAnswer::More => DownAnswer::More(Some(entry)),
    }
}

impl Row for Down {
    type Answer = DownAnswer;

    ghost at = { λ p. p.at };

    ghost moved = { down_moved };

    ghost place = { down_place };

    ghost fits = { DownWord };

    ghost choice = { down_choice };

    ghost after = { down_end };

    ghost again = { downs.Again };

    ghost onward = { down_onward };

    ghost load_leaves = { λ p. inline_leaves p.entry };

    ghost exchange_leaves = { λ p. 0 };

    ghost changes = { down_change };

    fn at(&self) -> At {
        self.at
    }

    fn move_to(&mut self, to: At) {
        self.at = to;
    }

    fn place(&self) -> u32 {
        match self.entry {
            None => self.layout.count_of(self.slot),
            Some(entry) => count_of(&self.layout, entry, self.list),
        }
    }

    fn choice(&self, word: u64) -> Choice<DownAnswer> {
        match (self.entry, self.list) {
            (Some(entry), _) => match self.in_entry(entry).choice(word) {
                Choice::Tell(answer) => Choice::Tell(of_entry(entry, answer)),
                Choice::Write(new) => Choice::Write(new),
            },
            (None, Kind::Strong) => match self.in_strong().choice(word) {
                Choice::Tell(answer) => Choice::Tell(of_strong(answer)),
                Choice::Write(new) => Choice::Write(new),
            },
            (None, Kind::Unowned) => match self.in_unowned().choice(word) {
                Choice::Tell(answer) => Choice::Tell(of_unowned(answer)),
                Choice::Write(new) => Choice::Write(new),
            },
            (None, Kind::Weak) => unreachable!(),
        }
    }

    fn after(&self, seen: u64) -> DownAnswer {
        match (self.entry, self.list) {
            (Some(entry), _) => of_entry(entry, self.in_entry(entry).after(seen)),
            (None, Kind::Strong) => of_strong(self.in_strong().after(seen)),
            (None, Kind::Unowned) => of_unowned(self.in_unowned().after(seen)),
            (None, Kind::Weak) => unreachable!(),
        }
    }

    fn again(words: Changed) -> DownAnswer {
        DownAnswer::Again(words)
    }

    fn onward(&self, last: Option<u64>) -> Option<Down> {
        let entry = entry_met(self.entry, self.at, last)?;
        Some(Down {
            entry: Some(entry),
            ..*self
        })
    }
}
