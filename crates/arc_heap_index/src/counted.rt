//! What the index keeps of an object: how many holders each of its lists has, in place of the holders.

ghost use Rattle.std.specs.Prelude.{◌≡◌};
ghost use Rattle.arc_heap_index.specs.Counting.{count_in, raised as raised_to, holders_in, can_count, with_one_more, with_one_less, without_strongs, without_slot, without_unowneds, entered, owes as is_owed, is_alive, owing as owing_of};

use arc_model::{Kind, ObjectId};

/// What a thread owes to an object.
#[derive(Clone, Copy, Debug, PartialEq, Eq)]
pub enum Due {
    Deinit,
    Vacating,
    Gone,
}

/// A duty, and the thread that owes it.
#[derive(Clone, Copy, Debug, PartialEq, Eq)]
pub struct Debt {
    pub thread: u32,
    pub due: Due,
}

/// Where a hand or a cell counts: the object's place among all that were made, and one of its lists.
#[derive(Clone, Copy, Debug, PartialEq, Eq)]
pub struct Place {
    pub object: usize,
    pub kind: Kind,
}

/// An object, with the number of holders of each list.
#[derive(Clone, Copy, Debug, PartialEq, Eq)]
pub struct Counted {
    pub id: ObjectId,
    pub class: u32,
    pub slot: Option<u32>,
    pub entry: Option<u32>,
    pub owed: Option<Debt>,
    pub strong: u32,
    pub unowned: u32,
    pub weak: u32,
}

/// A place, and the object there.
#[derive(Clone, Copy, Debug, PartialEq, Eq)]
pub struct Held {
    pub place: Place,
    pub counted: Counted,
}

/// An object, and its place among all that were made.
#[derive(Clone, Copy, Debug, PartialEq, Eq)]
pub struct Found {
    pub object: usize,
    pub counted: Counted,
}

pub fn count(kind: Kind, c: Counted) -> u32
    ensures { result ≡ count_in kind c }
{
    match kind {
        Kind::Strong => c.strong,
        Kind::Unowned => c.unowned,
        Kind::Weak => c.weak,
    }
}

/// The holders of a list. An object of an immortal class has one more strong holder, which isn't counted.
pub fn holders(immortal: bool, kind: Kind, c: Counted) -> u64
    ensures { result ≡ holders_in immortal kind c }
{
    match kind {
        Kind::Strong => u64::from(c.strong) + if immortal { 1 } else { 0 },
        Kind::Unowned => u64::from(c.unowned),
        Kind::Weak => u64::from(c.weak),
    }
}

/// One more, up to a greatest number.
pub fn raised(greatest: u32, n: u32) -> u32
    ensures { result ≡ raised_to greatest n }
{
    if n < greatest { n + 1 } else { n }
}

/// One more holder of that list can be counted.
pub fn is_countable(kind: Kind, c: Counted) -> bool
    ensures { result ≡ can_count kind c }
{
    count(kind, c) < u32::MAX
}

pub fn one_more(kind: Kind, c: Counted) -> Counted
    ensures { result ≡ with_one_more kind c }
{
    match kind {
        Kind::Strong => Counted {
            strong: raised(u32::MAX, c.strong),
            ..c
        },
        Kind::Unowned => Counted {
            unowned: raised(u32::MAX, c.unowned),
            ..c
        },
        Kind::Weak => Counted {
            weak: raised(u32::MAX, c.weak),
            ..c
        },
    }
}

/// A holder leaves a list; after the last one the thread owes what follows, or the object has no entry.
pub fn one_less(thread: u32, kind: Kind, last: bool, c: Counted) -> Counted
    ensures { result ≡ with_one_less thread kind last c }
{
    match kind {
        Kind::Strong => Counted {
            strong: c.strong.saturating_sub(1),
            owed: if last {
                owing(thread, Due::Deinit)
            } else {
                c.owed
            },
            ..c
        },
        Kind::Unowned => Counted {
            unowned: c.unowned.saturating_sub(1),
            owed: if last {
                owing(thread, Due::Vacating)
            } else {
                c.owed
            },
            ..c
        },
        Kind::Weak => Counted {
            weak: c.weak.saturating_sub(1),
            entry: if last { None } else { c.entry },
            ..c
        },
    }
}

fn owing(thread: u32, due: Due) -> Option<Debt>
    ensures { result ≡ owing_of thread due }
{
    Some(Debt { thread, due })
}

pub fn owes(thread: u32, due: Due, c: Counted) -> bool
    ensures { result ≡ is_owed thread due c }
{
    match c.owed {
        None => false,
        Some(debt) => match (debt.due, due) {
            (Due::Deinit, Due::Deinit) => debt.thread == thread,
            (Due::Vacating, Due::Vacating) => debt.thread == thread,
            (Due::Gone, Due::Gone) => debt.thread == thread,
            _ => false,
        },
    }
}

pub fn is_live(immortal: bool, c: Counted) -> bool
    ensures { result ≡ is_alive immortal c }
{
    holders(immortal, Kind::Strong, c) != 0
}

/// The deinit has ended.
pub fn finish(thread: u32, last: bool, c: Counted) -> Counted
    ensures { result ≡ without_strongs thread last c }
{
    Counted {
        unowned: c.unowned.saturating_sub(1),
        owed: if last {
            owing(thread, Due::Vacating)
        } else {
            None
        },
        ..c
    }
}

/// The object leaves its slot.
pub fn vacate(thread: u32, c: Counted) -> Counted
    ensures { result ≡ without_slot thread c }
{
    match c.entry {
        None => Counted {
            slot: None,
            owed: None,
            weak: c.weak.saturating_sub(1),
            ..c
        },
        Some(_) => Counted {
            slot: None,
            owed: owing(thread, Due::Gone),
            ..c
        },
    }
}

/// The weak reference on behalf of the unowned ones is taken off.
pub fn go(last: bool, c: Counted) -> Counted
    ensures { result ≡ without_unowneds last c }
{
    Counted {
        weak: c.weak.saturating_sub(1),
        owed: None,
        entry: if last { None } else { c.entry },
        ..c
    }
}

pub fn enter(entry: u32, c: Counted) -> Counted
    ensures { result ≡ entered entry c }
{
    Counted {
        entry: Some(entry),
        ..c
    }
}
