//! The heap, and what a thread has of it.
ghost use Rattle.std.specs.Prelude.{◌≡◌, ◌≤◌, [], IfOk, vec_len};
ghost use Rattle.arc_rule.specs.Places.{extent_of, word_count};
ghost use Rattle.arc_view.specs.declared.view.Role.TheVariants.{Pass as pass_role, Note as note_role};
ghost use Rattle.arc_view.specs.Rule.{IsSized, news};
ghost use Rattle.arc_view_laws.specs.Strangers.{SeesNoStranger};

use arc_model::{Memory, Shape};
use arc_rule::Layout;
use arc_view::Law;
use arc_view::view::View;
use atomic_table::{Seat, Table};
use std::alloc::Global;

/// A heap whose words any number of threads step on, each with a pass.
#[derive(Drop)]
pub struct Heap {
    pub(crate) table: Table<(), View, Shape, Law, Global>,
    pub(crate) layout: Layout,
    pub(crate) shape: Shape,
    /// What the table was filled from. `close` hands it out.
    pub(crate) room: Vec<u64>,
    ghost keyed: { table.shared.key ≡ shape },
    ghost laid: { layout ≡ extent_of shape },
    ghost wide: { table.shared.table_id.words ≡ word_count (extent_of shape) },
    ghost flat: { table.shared.table_id.slots ≡ 0 },
    ghost sized: { IsSized shape },
    ghost roomy: { vec_len room ≡ word_count (extent_of shape) },
}

/// The seat of a pass.
#[derive(Drop)]
pub(crate) struct Part {
    pub(crate) seat: Seat<(), View>,
    ghost bare: { seat.me.1 ≡ [] },
    ghost live: { seat.me.0.role ≡ pass_role },
}

/// A thread's part in a heap: its references, duties and accesses belong to it.
#[derive(Drop)]
pub struct Pass {
    pub(crate) part: Part,
    /// The number of the pass, at most 64.
    pub(crate) number: u32,
    /// How many objects it has made.
    pub(crate) made: u32,
    /// How many passes it has split off.
    pub(crate) splits: u32,
    ghost numbered: { (part.seat.me.0.number ≡ number) × (number ≤ 64) },
    ghost counted: { news part.seat.me.0.number part.seat.me.0.seen ≡ made },
    ghost parted: { part.seat.me.0.splits ≡ splits },
    ghost alone: { SeesNoStranger part.seat.me.0 },
}

/// A copy of what a pass had seen. `Heap::meet` spends it.
pub struct Note {
    pub(crate) seat: Seat<(), View>,
    ghost bare: { seat.me.1 ≡ [] },
    ghost copied: { seat.me.0.role ≡ note_role },
}

impl Pass {
    ghost use Rattle.arc_view.specs.Rule.{news};
    ghost use Rattle.arc_table.specs.Seats.{view_of};

    /// The number of the pass, at most 64: the first pass has 0, and the passes that it splits off have 1, 2 and so on.
    pub fn number(&self) -> u32
        ensures { result ≡ (view_of self.now).number }
    {
        self.number
    }

    /// How many objects the pass has made, at most 100,000.
    pub fn objects_made(&self) -> u32
        ensures { result ≡ news (view_of self.now).number (view_of self.now).seen }
    {
        self.made
    }
}

impl Heap {
    ghost use Rattle.arc_view.specs.Views.{first_view};
    ghost use Rattle.arc_table.specs.Seats.{heap_id, shape_of, pass_id, view_of};

    /// A heap without objects, all of whose words are 0, and its first pass, with number 0. No later call takes memory.
    pub fn make(alloc: Global, shape: Shape) -> Result<(Heap, Pass), Memory>
        ensures { IfOk result (λ r. (shape_of r.0 ≡ shape) × (pass_id r.1 ≡ heap_id r.0) × (view_of r.1 ≡ first_view)) }
    {
        let _caps = shape.caps();
        let _slots = shape.slots();
        let layout = Layout::of(&shape);
        let words = Vec::from_elem(alloc, 0u64, layout.words() as usize)?;
        let (table, seat) = Table::of_words(alloc, words.as_slice(), &shape)?;
        let heap = Heap {
            table,
            layout,
            shape,
            room: words,
        };
        let part = Part { seat };
        Ok((
            heap,
            Pass {
                part,
                number: 0,
                made: 0,
                splits: 0,
            },
        ))
    }
}
