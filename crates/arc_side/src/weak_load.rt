//! A strong reference by a weak one.

ghost use Rattle.std.specs.Prelude.{◌≡◌, ◌≤◌};
ghost use Rattle.arc_rule.specs.Attempts.{told_as, TellsNoChange};
ghost use Rattle.arc_rule.specs.Places.{IsPlace};
ghost use Rattle.arc_rule.specs.declared.layout.Place.TheVariants as places;
ghost use Rattle.arc_rule.specs.declared.attempt.At.TheVariants.{Start};
ghost use Rattle.arc_side.specs.declared.weak_load.Reads.TheVariants.{StrongCount};
ghost use Rattle.arc_side.specs.declared.weak_load.WeakLoadAnswer.TheVariants.{Again};
ghost use Rattle.arc_side.specs.Entries.{entry_up_change};
ghost use Rattle.arc_side.specs.WeakLoads.{weak_take, of_strong_in_entry, WeakLoadWord, weak_load_choice, weak_load_end, weak_load_onward, weak_load_moved, weak_load_place, weak_load_leaves, weak_load_exchange_leaves, weak_load_change};

use crate::entry_up::{EntryUp, EntryUpAnswer};
use arc_model::Kind;
use arc_rule::{At, Changed, Choice, Layout, Row};
use std::alloc::AllocError;
use std::marker::Model;

/// What the load of a weak reference comes to.
#[derive(Clone, Copy, Debug, PartialEq, Eq)]
pub enum WeakLoadAnswer {
    /// A strong reference to the object in this slot is there.
    Got(u32),
    /// The strong count was 0: deinit has begun.
    Nil,
    /// The count stands at the greatest of an entry.
    CountFull,
    /// The word has changed in the meantime.
    Again(Changed),
}

/// Which word of the entry the load of a weak reference reads.
#[derive(Clone, Copy, Debug, PartialEq, Eq)]
pub enum Reads {
    /// The strong count, to count one more.
    StrongCount,
    /// The link, once the strong reference is there.
    Link,
}

/// The load of a weak reference: one strong reference more in its entry, unless the count is 0, and then the entry's link, which names the
/// slot: at most three steps. The reference keeps the object in the slot, so the link is read after it. As in Swift's runtime (RefCount.h),
/// a weak reference leads to the side table and never to the object's header.
#[derive(Debug)]
pub struct WeakLoad {
    layout: Layout,
    entry: u32,
    wide: u32,
    reads: Reads,
    at: At,
}

impl Model for WeakLoad {
    ghost use Rattle.arc_side.specs.WeakLoads.{WeakTake, IsWeakTake};

    ghost Value = { WeakTake };

    ghost view = { λ p. record { layout = p.layout; entry = p.entry; wide = p.wide; reads = p.reads; at = p.at } };

    ghost invariant = { λ p. IsWeakTake (record { layout = p.layout; entry = p.entry; wide = p.wide; reads = p.reads; at = p.at }) };

    ghost inverse = { λ p. record { layout = p.layout; entry = p.entry; wide = p.wide; reads = p.reads; at = p.at } };
}

impl Clone for WeakLoad {
    ghost is_clone = { λ old new. new ≡ old };

    fn clone(&self) -> Result<Self, AllocError> {
        Ok(*self)
    }
}

impl Copy for WeakLoad {}

impl WeakLoad {
    /// The load of a weak reference that the entry counts. `wide` is the greatest count of an entry, 1 to 4,294,967,295.
    pub fn start(layout: &Layout, entry: u32, wide: u32) -> WeakLoad
        requires entry { IsPlace layout.now (places.Strong entry) }
        requires wide { 1 ≤ wide }
        ensures { result ≡ record { layout = layout.now; entry = entry; wide = wide; reads = StrongCount; at = Start } }
    {
        WeakLoad {
            layout: *layout,
            entry,
            wide,
            reads: Reads::StrongCount,
            at: At::Start,
        }
    }

    fn on_count(&self) -> EntryUp
        ensures { result ≡ weak_take self.now }
    {
        let mut part = EntryUp::start(&self.layout, self.entry, Kind::Strong, self.wide);
        part.move_to(self.at);
        part
    }
}

fn of_count(choice: Choice<EntryUpAnswer>) -> Choice<WeakLoadAnswer>
    requires silent { TellsNoChange entry_up_change choice }
    ensures choice { result ≡ told_as of_strong_in_entry choice }
    ensures silent { TellsNoChange weak_load_change result }
{
    match choice {
        Choice::Write(new) => Choice::Write(new),
        Choice::Tell(EntryUpAnswer::CountFull) => Choice::Tell(WeakLoadAnswer::CountFull),
        Choice::Tell(EntryUpAnswer::Again(_)) => unreachable!(),
        Choice::Tell(_) => Choice::Tell(WeakLoadAnswer::Nil),
    }
}

impl Row for WeakLoad {
    type Answer = WeakLoadAnswer;

    ghost at = { λ p. p.at };

    ghost moved = { weak_load_moved };

    ghost place = { weak_load_place };

    ghost fits = { WeakLoadWord };

    ghost choice = { weak_load_choice };

    ghost after = { weak_load_end };

    ghost again = { Again };

    ghost onward = { weak_load_onward };

    ghost load_leaves = { λ p. weak_load_leaves p.reads };

    ghost exchange_leaves = { λ p. weak_load_exchange_leaves p.reads };

    ghost changes = { weak_load_change };

    fn at(&self) -> At {
        self.at
    }

    fn move_to(&mut self, to: At) {
        self.at = to;
    }

    fn place(&self) -> u32 {
        match self.reads {
            Reads::StrongCount => self.layout.strong_of(self.entry),
            Reads::Link => self.layout.link_of(self.entry),
        }
    }

    fn choice(&self, word: u64) -> Choice<WeakLoadAnswer> {
        match self.reads {
            Reads::StrongCount => of_count(self.on_count().choice(word)),
            Reads::Link => {
                let _slots = self.layout.slots();
                Choice::Tell(WeakLoadAnswer::Got((word - 1) as u32))
            }
        }
    }

    fn after(&self, _seen: u64) -> WeakLoadAnswer {
        WeakLoadAnswer::Nil
    }

    fn again(words: Changed) -> WeakLoadAnswer {
        WeakLoadAnswer::Again(words)
    }

    fn onward(&self, last: Option<u64>) -> Option<WeakLoad> {
        match (self.reads, self.at) {
            (Reads::StrongCount, At::Exchanging { seen, new: _ }) if last.unwrap_or(0) == seen => {
                Some(WeakLoad {
                    reads: Reads::Link,
                    ..*self
                })
            }
            _ => None,
        }
    }
}
