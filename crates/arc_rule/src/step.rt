//! An atomic step on one word, and what it is made for.
use arc_model::{CellName, Kind, Origin};

/// One atomic step on one word. What it gives back is the word that was found, but by a Store, which gives back 0, and that means nothing.
#[derive(Clone, Copy, Debug, PartialEq, Eq)]
pub enum Step {
    Load { place: u32 },
    /// Writes `new` where the word found is `old`, and else nothing.
    Exchange { place: u32, old: u64, new: u64 },
    Store { place: u32, new: u64 },
    /// Sets these bits.
    Or { place: u32, bits: u64 },
    /// Clears all bits but these.
    And { place: u32, bits: u64 },
}

/// What a step is made for, with the hands and cells of the event that it may make.
#[derive(Clone, Copy, Debug, PartialEq, Eq)]
pub enum Intent {
    /// A Load by itself.
    Look,
    New { class: u32 },
    Copy { from: Origin },
    UnownedOf { of: u32 },
    WeakOf { of: u32 },
    Load { of: u32 },
    Drop { hand: u32 },
    /// For the reference `of`, an entry is taken.
    Claim { of: Origin },
    /// The entry that was taken for `of` is filled and published; `why` is the count at its cap, or weak.
    Publish { of: Origin, why: Kind },
    Back,
    Swap { cell: CellName, put: Option<u32> },
    /// An access to a cell begins or ends.
    Access { cell: CellName },
    /// A step of a cascade on the dying object itself, up to its `finish`.
    Deinit { slot: u32 },
    Vacate,
    Gone,
}

/// Two values of one word that a plan read one after the other.
#[derive(Clone, Copy, Debug, PartialEq, Eq)]
pub struct Changed {
    pub seen: u64,
    pub found: u64,
}
