//! The events of a history, in the words of RefCount.h: retains and releases of the three counts, deinit, and the side
//! table entry. A hand is a reference that a thread has: the hands of a thread are numbered from 1, in the order in which
//! they came to it. Events, hands and outcomes are this project's own; what is counted is RefCount.h's.

use crate::shape::Kind;

/// An object, by the thread that made it and its number among those of that thread, from 1.
#[derive(Clone, Copy, Debug, PartialEq, Eq)]
pub struct ObjectId {
    pub thread: u32,
    pub number: u32,
}

/// An object's name, as reports print it: its class, the thread that made it and its number among those of that thread, from 1.
#[derive(Clone, Copy, Debug, PartialEq, Eq)]
pub struct ObjectName {
    pub class: u32,
    pub thread: u32,
    pub number: u32,
}

/// A cell, as an event names it.
#[derive(Clone, Copy, Debug, PartialEq, Eq)]
pub enum CellName {
    /// A field of the object in a slot, both numbered from 0.
    Field { slot: u32, field: u32 },
    /// A global, numbered from 0 in the order of declaration.
    Global(u32),
}

/// Where a reference is taken from.
#[derive(Clone, Copy, Debug, PartialEq, Eq)]
pub enum Origin {
    /// A hand of the event's thread.
    Hand(u32),
    Cell(CellName),
}

/// What the load of an unowned or weak reference gave.
#[derive(Clone, Copy, Debug, PartialEq, Eq)]
pub enum Got {
    /// A strong reference, which is this hand of the thread from then on.
    Hand(u32),
    /// Of an unowned reference: deinit has begun, where the real runtime halts the process.
    Dead,
    /// Of a weak reference: deinit has begun.
    Nil,
}

/// What an event does. A hand that comes to the thread is its next one; `last` says that a list has no other holder.
#[derive(Clone, Copy, Debug, PartialEq, Eq)]
pub enum Act {
    /// Allocates an object of a class in a free slot. Its strong count is 1, in `hand`; its unowned count is the one on
    /// behalf of the strong references, its weak count the one on behalf of the unowned references. It has no entry.
    New {
        hand: u32,
        class: u32,
        slot: u32,
    },
    /// A search for a free slot found none: each slot was in an object at some point since the thread's event before.
    Full,
    /// A retain: copies a strong, unowned or weak reference, whose count rises.
    Copy {
        from: Origin,
        hand: u32,
    },
    /// Forms an unowned reference from the strong hand `of`: the unowned count rises.
    UnownedOf {
        of: u32,
        hand: u32,
    },
    /// Forms a weak reference from the strong hand `of`: the weak count in the object's side table entry rises.
    WeakOf {
        of: u32,
        hand: u32,
    },
    /// Tries to take a strong reference from the unowned or weak hand `of`: the strong count rises while the object is live.
    Load {
        of: u32,
        got: Got,
    },
    /// A release of a strong, unowned or weak reference. After the last strong one deinit begins, and the thread owes it;
    /// after the last unowned one the thread owes to free the allocation; after the last weak one the entry is the thread's.
    Drop {
        hand: u32,
        last: bool,
    },
    /// A copy, load or formation gave up, since the count that was to rise is at the greatest of an entry.
    CountFull {
        list: Kind,
        from: Origin,
    },
    /// Takes a free side table entry, which belongs to no object yet.
    Claim {
        entry: u32,
    },
    /// A search for a free entry found none: each was taken at some point since the thread's event before.
    NoEntry,
    /// Publishes a claimed entry: the object in the slot has it from then on, since a weak reference is to be formed or the
    /// list `why` stands at its inline cap. An object gains an entry once and for all.
    Side {
        slot: u32,
        entry: u32,
        why: Kind,
    },
    /// Frees a claimed entry.
    Back {
        entry: u32,
    },
    /// Puts the hand `put`, or nil, into a cell, and takes what was there: the hand `took`, or nil. No count changes.
    Swap {
        cell: CellName,
        put: Option<u32>,
        took: Option<u32>,
    },
    /// Found a cell nil.
    Look {
        cell: CellName,
    },
    /// Deinit takes a reference out of a field of the dying object, the first that isn't nil.
    Take {
        slot: u32,
        field: u32,
        hand: u32,
    },
    /// Deinit has ended: the unowned count falls by the one on behalf of the strong references. After the last one the
    /// thread owes to free the allocation.
    Finish {
        slot: u32,
        last: bool,
    },
    /// Frees the allocation, so that the slot is free. Where the object has an entry the thread owes to take the one on
    /// behalf of the unowned references off the weak count.
    Vacate {
        slot: u32,
    },
    /// The weak count falls by the one on behalf of the unowned references. After the last one the entry is the thread's.
    Gone {
        entry: u32,
        last: bool,
    },
}

/// One event of a history: what a thread did.
#[derive(Clone, Copy, Debug, PartialEq, Eq)]
pub struct Event {
    pub thread: u32,
    pub act: Act,
}

/// Why an event isn't legal: what is wrong with the first of its needs that fails.
#[derive(Clone, Copy, Debug, PartialEq, Eq)]
pub enum Illegal {
    /// The thread has no such reference, or the cell is nil.
    NotHeld,
    /// No object is in that slot or has that entry, or its class has no such field.
    NoSuchObject,
    /// The hand isn't the thread's next one, or the slot or entry isn't free.
    Taken,
    /// Some slot or entry was free all the time that the thread searched.
    NotTaken,
    /// The heap gives another answer: a count has room or has none, the object is live or isn't, the release is the last or
    /// isn't, the cell is nil or isn't.
    WrongAnswer,
    /// The thread owes no such thing, or hasn't claimed that entry, or a field isn't nil yet.
    Duty,
}

/// The states of an object in RefCount.h, read off its three counts.
#[derive(Clone, Copy, Debug, PartialEq, Eq)]
pub enum Life {
    /// It has a strong reference.
    Live,
    /// It has none, and the unowned count still has the one on their behalf: deinit is running.
    Deiniting,
    /// Deinit has ended, and unowned references remain.
    Deinited,
    /// The allocation is freed, and weak references keep the entry. Here an object counts as freed from the event that empties
    /// its unowned list on, with or without an entry: this project's own.
    Freed,
    /// Nothing remains.
    Dead,
}
