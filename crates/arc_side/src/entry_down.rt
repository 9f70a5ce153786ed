//! One reference fewer, by a count of an entry.

ghost use Rattle.std.specs.Prelude.{◌≡◌};
ghost use Rattle.arc_rule.specs.Places.{IsPlace, number};
ghost use Rattle.arc_rule.specs.declared.attempt.At.TheVariants.{Start};
ghost use Rattle.arc_rule.specs.Attempts.{goes_nowhere};
ghost use Rattle.arc_side.specs.declared.entry_down.EntryDownAnswer.TheVariants as downs;
ghost use Rattle.arc_side.specs.Entries.{count_place, entry_down_row, EntryDownWord, entry_down_end, entry_down_change};

use crate::count::count_of;
use arc_model::Kind;
use arc_rule::{At, Changed, Choice, Layout, Row};
use std::alloc::AllocError;
use std::marker::Model;

/// What one reference fewer in an entry comes to.
#[derive(Clone, Copy, Debug, PartialEq, Eq)]
pub enum EntryDownAnswer {
    /// Other references of the list remain.
    More,
    /// It was the last one of the list.
    Last,
    /// The word has changed in the meantime.
    Again(Changed),
}

/// One reference fewer, by an entry's count of a list: one load and one exchange.
#[derive(Debug)]
pub struct EntryDown {
    layout: Layout,
    entry: u32,
    list: Kind,
    at: At,
}

impl Model for EntryDown {
    ghost use Rattle.arc_side.specs.Entries.{EntryFall, count_place};
    ghost use Rattle.arc_rule.specs.Places.{IsPlace};

    ghost Value = { EntryFall };

    ghost view = { λ p. record { layout = p.layout; entry = p.entry; list = p.list; at = p.at } };

    ghost invariant = { λ p. IsPlace p.layout (count_place p.list p.entry) };

    ghost inverse = { λ p. record { layout = p.layout; entry = p.entry; list = p.list; at = p.at } };
}

impl Clone for EntryDown {
    ghost is_clone = { λ old new. new ≡ old };

    fn clone(&self) -> Result<Self, AllocError> {
        Ok(*self)
    }
}

impl Copy for EntryDown {}

impl EntryDown {
    /// One fewer in this list of the object that has the entry.
    pub fn start(layout: &Layout, entry: u32, list: Kind) -> EntryDown
        requires { IsPlace layout.now (count_place list entry) }
        ensures { result ≡ record { layout = layout.now; entry = entry; list = list; at = Start } }
    {
        EntryDown {
            layout: *layout,
            entry,
            list,
            at: At::Start,
        }
    }
}

impl Row for EntryDown {
    type Answer = EntryDownAnswer;

    ghost at = { λ p. p.at };

    ghost moved = { λ p at. record p { at = at } };

    ghost place = { λ p. number p.layout (count_place p.list p.entry) };

    ghost fits = { λ p w. EntryDownWord w };

    ghost choice = { λ p w. entry_down_row w };

    ghost after = { λ p seen. entry_down_end seen };

    ghost again = { downs.Again };

    ghost onward = { goes_nowhere };

    ghost load_leaves = { λ p. 1 };

    ghost exchange_leaves = { λ p. 0 };

    ghost changes = { entry_down_change };

    fn at(&self) -> At {
        self.at
    }

    fn move_to(&mut self, to: At) {
        self.at = to;
    }

    fn place(&self) -> u32 {
        count_of(&self.layout, self.entry, self.list)
    }

    fn choice(&self, word: u64) -> Choice<EntryDownAnswer> {
        Choice::Write(word - 1)
    }

    fn after(&self, seen: u64) -> EntryDownAnswer {
        if seen == 1 {
            EntryDownAnswer::Last
        } else {
            EntryDownAnswer::More
        }
    }

    fn again(words: Changed) -> EntryDownAnswer {
        EntryDownAnswer::Again(words)
    }

    fn onward(&self, _last: Option<u64>) -> Option<EntryDown> {
        None
    }
}
