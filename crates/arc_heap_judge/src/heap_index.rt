//! The index of a heap, and what stands where in it.

ghost use Rattle.std.specs.Prelude.{◌≡◌};
ghost use Rattle.arc_heap_judge.specs.Index.{hand_at, cell_at as place_of_cell, origin_at, hold as held, in_slot, with_entry as of_entry, mark_of as mark_at, immortal_in};

use arc_heap_index::{Counted, Found, Held, Mark, Owner, Place, Reach, Slots, Table};
use arc_model::{CellName, Origin, Shape};
use std::marker::Model;

/// The heap after a history, by an index: for each hand and each cell where it counts, for each object how many holders each
/// list has, and who has each slot and each entry.
#[derive(Debug, Drop)]
pub struct HeapIndex {
    pub shape: Shape,
    pub hands: Table,
    pub cells: Table,
    pub reach: Reach,
    pub objects: Vec<Counted>,
    pub marks: Vec<Mark>,
    pub slots: Slots,
    pub entries: Slots,
}

impl Model for HeapIndex {
    ghost use Rattle.arc_heap_judge.specs.Index.{Index};

    ghost Value = { Index };

    ghost view = { λ m. record { shape = m.shape; hands = m.hands; cells = m.cells; reach = m.reach; objects = m.objects.items; marks = m.marks.items; slots = m.slots; entries = m.entries } };
}

impl HeapIndex {
    /// Where a hand of the thread counts.
    pub fn hand(&self, thread: u32, number: u32) -> Option<Place>
        ensures { result ≡ hand_at self.now thread number }
    {
        self.hands.at(thread, number as usize)
    }

    /// Where a cell counts.
    pub fn cell(&self, cell: CellName) -> Option<Place>
        ensures { result ≡ place_of_cell self.now cell }
    {
        match cell {
            CellName::Field { slot, field } => self.cells.at(slot, field as usize),
            CellName::Global(number) => self.cells.at(self.shape.slots(), number as usize),
        }
    }

    /// Where a hand or a cell counts.
    pub fn origin(&self, thread: u32, from: Origin) -> Option<Place>
        ensures { result ≡ origin_at self.now thread from }
    {
        match from {
            Origin::Hand(number) => self.hand(thread, number),
            Origin::Cell(cell) => self.cell(cell),
        }
    }

    /// The object at a place.
    pub fn hold(&self, place: Option<Place>) -> Option<Held>
        ensures { result ≡ held self.now place }
    {
        match place {
            None => None,
            Some(place) => match self.objects.get(place.object) {
                None => None,
                Some(counted) => Some(Held {
                    place,
                    counted: *counted,
                }),
            },
        }
    }

    /// The object in the slot.
    pub fn slot_object(&self, slot: u32) -> Option<Found>
        ensures { result ≡ in_slot self.now slot }
    {
        match self.slots.at(slot) {
            Some(Owner::Object(object)) => match self.objects.get(object) {
                None => None,
                Some(counted) => Some(Found {
                    object,
                    counted: *counted,
                }),
            },
            _ => None,
        }
    }

    /// The object that has the entry.
    pub fn entry_object(&self, entry: u32) -> Option<Found>
        ensures { result ≡ of_entry self.now entry }
    {
        match self.entries.at(entry) {
            Some(Owner::Object(object)) => match self.objects.get(object) {
                None => None,
                Some(counted) => Some(Found {
                    object,
                    counted: *counted,
                }),
            },
            _ => None,
        }
    }

    /// The class of the object is immortal.
    pub fn is_immortal(&self, c: Counted) -> bool
        ensures { result ≡ immortal_in self.now.shape c }
    {
        match self.shape.classes().get(c.class as usize) {
            None => false,
            Some(class) => class.immortal,
        }
    }

    /// What is kept of the thread.
    pub fn mark(&self, thread: u32) -> Mark
        ensures { result ≡ mark_at self.now thread }
    {
        match self.marks.get(thread as usize) {
            Some(mark) => *mark,
            None => Mark {
                made: 0,
                slots: 0,
                entries: 0,
            },
        }
    }
}
