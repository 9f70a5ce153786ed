//! Where each word of a heap lies, by its shape.
ghost use Rattle.std.specs.Prelude.{◌≡◌, ◌≢◌, ◌≤◌, ◌<◌, ◌/◌, length};
ghost use Rattle.arc_rule.specs.declared.layout.Place.TheVariants.{Global, Count, Isa, Next, Field, Link, Strong, Unowned, Weak, SlotBits, EntryBits};
ghost use Rattle.arc_rule.specs.Bits.{words_of};
ghost use Rattle.arc_rule.specs.Places.{ExtentFits, IsPlace, extent_of, number, word_count};

use arc_model::Shape;
use std::alloc::AllocError;
use std::marker::Model;

/// What a word of the table is, by slot, entry or global. Fields are numbered from 0 to 7.
#[derive(Clone, Copy, Debug, PartialEq, Eq)]
pub enum Place {
    /// The word that is always 0.
    Zero,
    Global(u32),
    /// The inline word of a slot.
    Count(u32),
    Isa(u32),
    Next(u32),
    Field { slot: u32, field: u32 },
    /// The word that says which slot's object has the entry.
    Link(u32),
    Strong(u32),
    Unowned(u32),
    Weak(u32),
    /// A word of the bits that say which slots are taken: bit s % 64 of word s / 64 is that of slot s.
    SlotBits(u32),
    /// The same for the entries.
    EntryBits(u32),
}

/// Where each word of a heap lies: the word that is always 0, the globals, eleven words a slot (count, isa, next, field 0 to
/// field 7), four words an entry (link, strong, unowned, weak), and the bits that say which slots and which entries are taken.
/// This project's own.
#[derive(Debug)]
pub struct Layout {
    globals: u32,
    slots: u32,
    entries: u32,
}

impl Model for Layout {
    ghost use Rattle.arc_rule.specs.Extents.{Extent};

    ghost Value = { Extent };

    ghost view = { λ l. record { globals = l.globals; slots = l.slots; entries = l.entries } };

    ghost use Rattle.arc_rule.specs.Extents.{IsExtent};

    ghost invariant = { λ l. IsExtent l.globals l.slots l.entries };

    ghost inverse = { λ e. record { globals = e.globals; slots = e.slots; entries = e.entries } };
}

impl Clone for Layout {
    ghost is_clone = { λ old new. new ≡ old };

    fn clone(&self) -> Result<Self, AllocError> {
        Ok(*self)
    }
}

impl Copy for Layout {}

fn words_for(things: u32) -> u32
    requires { things ≤ 4096 }
    ensures { result ≡ words_of things }
{
    things.div_ceil(64)
}

impl Layout {
    /// The layout of a heap of this shape.
    pub fn of(shape: &Shape) -> Layout
        ensures extent { result ≡ extent_of shape.now }
        ensures fits { ExtentFits result }
    {
        Layout {
            globals: shape.globals().len() as u32,
            slots: shape.slots(),
            entries: shape.entries(),
        }
    }

    /// How many words there are, at most 61,633.
    pub fn words(&self) -> u32
        ensures words { result ≡ word_count self.now }
        ensures at_most { result ≤ 61633 }
        ensures fits { ExtentFits self.now }
    {
        self.entry(self.entries) + words_for(self.slots) + words_for(self.entries)
    }

    /// The number of slots, 1 to 4,096.
    pub fn slots(&self) -> u32
        ensures slots { result ≡ self.now.slots }
        ensures fits { ExtentFits self.now }
    {
        self.slots
    }

    /// The number of side table entries, 1 to 4,096.
    pub fn entries(&self) -> u32
        ensures entries { result ≡ self.now.entries }
        ensures fits { ExtentFits self.now }
    {
        self.entries
    }

    fn slot(&self, slot: u32) -> u32
        requires { slot ≤ self.now.slots }
        ensures number { result ≡ number self.now (Count slot) }
        ensures below { result ≤ 61505 }
    {
        1 + self.globals + 11 * slot
    }

    fn entry(&self, entry: u32) -> u32
        requires { entry ≤ self.now.entries }
        ensures number { result ≡ number self.now (Link entry) }
        ensures below { result ≤ 61505 }
    {
        1 + self.globals + 11 * self.slots + 4 * entry
    }

    /// The inline word of the slot.
    pub fn count_of(&self, slot: u32) -> u32
        requires { IsPlace self.now (Count slot) }
        ensures { result ≡ number self.now (Count slot) }
    {
        self.slot(slot)
    }

    /// The isa word of the slot.
    pub fn isa_of(&self, slot: u32) -> u32
        requires { IsPlace self.now (Isa slot) }
        ensures { result ≡ number self.now (Isa slot) }
    {
        self.slot(slot) + 1
    }

    /// The next word of the slot.
    pub fn next_of(&self, slot: u32) -> u32
        requires { IsPlace self.now (Next slot) }
        ensures { result ≡ number self.now (Next slot) }
    {
        self.slot(slot) + 2
    }

    /// A field of the slot, from 0 to 7.
    pub fn field_of(&self, slot: u32, field: u32) -> u32
        requires { IsPlace self.now (Field slot field) }
        ensures { result ≡ number self.now (Field slot field) }
    {
        self.slot(slot) + 3 + field
    }

    /// The link of the entry.
    pub fn link_of(&self, entry: u32) -> u32
        requires { IsPlace self.now (Link entry) }
        ensures { result ≡ number self.now (Link entry) }
    {
        self.entry(entry)
    }

    /// The strong count of the entry.
    pub fn strong_of(&self, entry: u32) -> u32
        requires { IsPlace self.now (Strong entry) }
        ensures { result ≡ number self.now (Strong entry) }
    {
        self.entry(entry) + 1
    }

    /// The unowned count of the entry.
    pub fn unowned_of(&self, entry: u32) -> u32
        requires { IsPlace self.now (Unowned entry) }
        ensures { result ≡ number self.now (Unowned entry) }
    {
        self.entry(entry) + 2
    }

    /// The weak count of the entry.
    pub fn weak_of(&self, entry: u32) -> u32
        requires { IsPlace self.now (Weak entry) }
        ensures { result ≡ number self.now (Weak entry) }
    {
        self.entry(entry) + 3
    }

    /// How many words hold the bits of the slots.
    pub fn slot_words(&self) -> u32
        ensures words { result ≡ words_of self.now.slots }
        ensures fits { ExtentFits self.now }
    {
        words_for(self.slots)
    }

    /// How many words hold the bits of the entries.
    pub fn entry_words(&self) -> u32
        ensures words { result ≡ words_of self.now.entries }
        ensures fits { ExtentFits self.now }
    {
        words_for(self.entries)
    }

    /// The word that holds the bit of the slot.
    pub fn slot_bits(&self, slot: u32) -> u32
        requires { slot < self.now.slots }
        ensures { result ≡ number self.now (SlotBits (slot / 64)) }
    {
        self.entry(self.entries) + slot / 64
    }

    /// The word that holds the bit of the entry.
    pub fn entry_bits(&self, entry: u32) -> u32
        requires { entry < self.now.entries }
        ensures { result ≡ number self.now (EntryBits (entry / 64)) }
    {
        self.entry(self.entries) + words_for(self.slots) + entry / 64
    }

    /// The word of the global.
    pub fn global_of(&self, global: u32) -> u32
        requires { IsPlace self.now (Global global) }
        ensures { result ≡ number self.now (Global global) }
    {
        let _globals = self.globals;
        1 + global
    }
}

/// Every place is one of the words. It does nothing: its contract is the law.
pub fn place_is_below(layout: &Layout, place: Place)
    requires { IsPlace layout.now place }
    ensures { number layout.now place < word_count layout.now }
{}

/// Places of different things differ. It does nothing: its contract is the law.
pub fn places_differ(layout: &Layout, first: Place, second: Place)
    requires first { IsPlace layout.now first }
    requires second { IsPlace layout.now second }
    requires differ { first ≢ second }
    ensures { number layout.now first ≢ number layout.now second }
{}
