//! One reference more, by a count of an entry.

ghost use Rattle.std.specs.Prelude.{◌≡◌, ◌≤◌};
ghost use Rattle.arc_rule.specs.Places.{IsPlace, number};
ghost use Rattle.arc_rule.specs.declared.attempt.At.TheVariants.{Start};
ghost use Rattle.arc_rule.specs.Attempts.{goes_nowhere};
ghost use Rattle.arc_side.specs.declared.entry_up.EntryUpAnswer.TheVariants as ups;
ghost use Rattle.arc_side.specs.Entries.{count_place, EntryUpWord, entry_up_row, entry_up_change};

use crate::count::count_of;
use arc_model::Kind;
use arc_rule::{At, Changed, Choice, Layout, Row};
use std::alloc::AllocError;
use std::marker::Model;

/// What one more reference in an entry comes to.
#[derive(Clone, Copy, Debug, PartialEq, Eq)]
pub enum EntryUpAnswer {
    Up,
    /// The strong count was 0: deinit has begun.
    Zero,
    /// The count stands at the greatest of an entry.
    CountFull,
    /// The word has changed in the meantime.
    Again(Changed),
}

/// One reference more, by an entry's count of a list: one load and one exchange.
#[derive(Debug)]
pub struct EntryUp {
    layout: Layout,
    entry: u32,
    list: Kind,
    wide: u32,
    at: At,
}

impl Model for EntryUp {
    ghost use Rattle.std.specs.Prelude.{◌≤◌};
    ghost use Rattle.arc_side.specs.Entries.{EntryRise, count_place};
    ghost use Rattle.arc_rule.specs.Places.{IsPlace};

    ghost Value = { EntryRise };

    ghost view = { λ p. record { layout = p.layout; entry = p.entry; list = p.list; wide = p.wide; at = p.at } };

    ghost invariant = { λ p. IsPlace p.layout (count_place p.list p.entry) × (1 ≤ p.wide) };

    ghost inverse = { λ p. record { layout = p.layout; entry = p.entry; list = p.list; wide = p.wide; at = p.at } };
}

impl Clone for EntryUp {
    ghost is_clone = { λ old new. new ≡ old };

    fn clone(&self) -> Result<Self, AllocError> {
        Ok(*self)
    }
}

impl Copy for EntryUp {}

impl EntryUp {
    /// One more in this list of the object that has the entry. `wide` is the greatest count of an entry, 1 to 4,294,967,295.
    pub fn start(layout: &Layout, entry: u32, list: Kind, wide: u32) -> EntryUp
        requires entry { IsPlace layout.now (count_place list entry) }
        requires wide { 1 ≤ wide }
        ensures { result ≡ record { layout = layout.now; entry = entry; list = list; wide = wide; at = Start } }
    {
        EntryUp {
            layout: *layout,
            entry,
            list,
            wide,
            at: At::Start,
        }
    }
}

impl Row for EntryUp {
    type Answer = EntryUpAnswer;

    ghost at = { λ p. p.at };

    ghost moved = { λ p at. record p { at = at } };

    ghost place = { λ p. number p.layout (count_place p.list p.entry) };

    ghost fits = { EntryUpWord };

    ghost choice = { λ p w. entry_up_row p.list p.wide w };

    ghost after = { λ p seen. ups.Up };

    ghost again = { ups.Again };

    ghost onward = { goes_nowhere };

    ghost load_leaves = { λ p. 1 };

    ghost exchange_leaves = { λ p. 0 };

    ghost changes = { entry_up_change };

    fn at(&self) -> At {
        self.at
    }

    fn move_to(&mut self, to: At) {
        self.at = to;
    }

    fn place(&self) -> u32 {
        count_of(&self.layout, self.entry, self.list)
    }

    fn choice(&self, word: u64) -> Choice<EntryUpAnswer> {
        if self.list == Kind::Strong && word == 0 {
            return Choice::Tell(EntryUpAnswer::Zero);
        }
        if word == u64::from(self.wide) {
            return Choice::Tell(EntryUpAnswer::CountFull);
        }
        Choice::Write(word + 1)
    }

    fn after(&self, _seen: u64) -> EntryUpAnswer {
        EntryUpAnswer::Up
    }

    fn again(words: Changed) -> EntryUpAnswer {
        EntryUpAnswer::Again(words)
    }

    fn onward(&self, _last: Option<u64>) -> Option<EntryUp> {
        None
    }
}
