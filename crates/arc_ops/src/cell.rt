//! The cells that operations name, and what their words stand for: 0 where the cell is nil, 1 while it is accessed, and else 2 more than
//! the slot of the object that it refers to.

ghost use Rattle.std.specs.Prelude.{◌≡◌, ◌≢◌, ◌<◌, ◌≤◌, Some};
ghost use Rattle.arc_rule.specs.Places.{IsPlace};
ghost use Rattle.arc_cells.specs.Swaps.{IsInTable};
ghost use Rattle.arc_model.specs.Ranges.{FieldsFit};
ghost use Rattle.arc_model.specs.Shapes.{class_at};
ghost use Rattle.arc_script.specs.Valid.{ref_at};
ghost use Rattle.arc_ops.specs.Cells.{global_of, field_of, place_in, cell_number, word_of, held_in, hand_in, source_in};

use crate::gain::Source;
use crate::stepper::Held;
use arc_model::{CellName, Kind, Origin, Shape};
use arc_rule::{Layout, Place, place_is_below};

/// A cell of the heap, and the kind of what it refers to.
#[derive(Clone, Copy, Debug, PartialEq, Eq)]
pub(crate) struct Cell {
    pub name: CellName,
    pub kind: Kind,
}

impl Cell {
    pub(crate) fn global(shape: &Shape, global: u32) -> Cell
        ensures { result ≡ global_of shape.now global }
    {
        let kind = match shape.globals().get(global as usize) {
            Some(cell) => cell.kind,
            None => Kind::Strong,
        };
        Cell {
            name: CellName::Global(global),
            kind,
        }
    }

    /// The field of the object that the owner refers to, whose variable is for this class.
    pub(crate) fn field(shape: &Shape, class: u32, field: u32, owner: Held) -> Cell
        ensures value { field_of shape.now class field (Some owner) ≡ Some result }
        ensures few { FieldsFit shape.now.classes }
    {
        Cell {
            name: CellName::Field {
                slot: owner.place,
                field,
            },
            kind: field_kind(shape, class, field),
        }
    }

    /// The cell with the reference that its word stands for, as what a gain takes from.
    pub(crate) fn source(self, word: u64) -> Source
        requires from { 2 ≤ word }
        requires below { word < 4098 }
        ensures { result ≡ source_in self word }
    {
        Source {
            origin: Origin::Cell(self.name),
            kind: self.kind,
            place: (word - 2) as u32,
        }
    }

    /// The reference that the cell's word stands for, in this hand.
    pub(crate) fn held(self, hand: u32, word: u64) -> Option<Held>
        requires accessed { word ≢ 1 }
        requires below { word < 4098 }
        ensures { result ≡ held_in self.kind hand word }
    {
        if word == 0 {
            None
        } else {
            Some(Held {
                hand,
                kind: self.kind,
                place: (word - 2) as u32,
            })
        }
    }
}

/// The kind of the references of a field, past the last one strong.
fn field_kind(shape: &Shape, class: u32, field: u32) -> Kind
    ensures value { result ≡ (ref_at (class_at shape.now class).fields field).kind }
    ensures few { FieldsFit shape.now.classes }
{
    match shape.classes().get(class as usize) {
        Some(class) => match class.fields.get(field as usize) {
            Some(field) => field.kind,
            None => Kind::Strong,
        },
        None => Kind::Strong,
    }
}

/// Where the cell's word lies in the table.
pub(crate) fn cell_number(layout: &Layout, cell: CellName) -> u32
    requires { IsPlace layout.now (place_in cell) }
    ensures number { result ≡ cell_number layout.now cell }
    ensures in_table { IsInTable layout.now result }
{
    match cell {
        CellName::Field { slot, field } => {
            place_is_below(layout, Place::Field { slot, field });
            layout.field_of(slot, field)
        }
        CellName::Global(global) => {
            place_is_below(layout, Place::Global(global));
            layout.global_of(global)
        }
    }
}

/// The word of a cell with this reference.
pub(crate) fn word_of(held: Option<Held>) -> u64
    ensures { result ≡ word_of held }
{
    match held {
        None => 0,
        Some(held) => held.place as u64 + 2,
    }
}

pub(crate) fn hand_in(held: Option<Held>) -> Option<u32>
    ensures { result ≡ hand_in held }
{
    match held {
        None => None,
        Some(held) => Some(held.hand),
    }
}
