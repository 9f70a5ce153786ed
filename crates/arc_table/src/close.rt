//! The end of a heap.
ghost use Rattle.std.specs.Prelude.{◌≡◌};
ghost use Rattle.arc_view.specs.Passes.{IsFirst, IsWhole, HoldsNothing};
ghost use Rattle.arc_table.specs.Seats.{heap_id, shape_of, pass_id, view_of};
ghost use Rattle.arc_table.specs.Ending.{last_seen, IsClosed};

use crate::heap::{Heap, Part, Pass};
use arc_model::Shape;
use arc_view::view::View;
use atomic_table::Seat;
use std::snapshot::Snapshot;

/// The history of the pass that was closed.
#[derive(Drop)]
pub struct LastPass {
    pub(crate) at: Snapshot<Seat<(), View>>,
}

/// What is left of a heap: its words, from the one that is always 0 on, and its shape.
#[derive(Drop)]
pub struct Closed {
    pub words: Vec<u64>,
    pub shape: Shape,
    pub pass: LastPass,
}

impl Heap {
    /// Ends a heap whose other passes were all taken in, and gives its words and its shape. The first pass has nothing then, so no thread
    /// has: no reference is in a hand, no duty is owed and no entry is claimed. The words show the heap after the history that the pass has
    /// seen, at every place. It takes no memory and waits for nobody. This project's own.
    pub fn close(self, pass: Pass) -> Closed
        requires own { pass_id pass ≡ heap_id self }
        requires first { IsFirst (view_of pass) }
        requires whole { IsWhole (view_of pass) }
        requires nothing { HoldsNothing (view_of pass) }
        ensures history { last_seen result ≡ (view_of pass).seen }
        ensures shape { result.shape ≡ shape_of self }
        ensures closed { IsClosed (shape_of self) result }
    {
        let Pass {
            part,
            number: _,
            made: _,
            splits: _,
        } = pass;
        let Part { seat } = part;
        let at = Snapshot::of(&seat);
        let Heap {
            table,
            layout: _,
            shape,
            room,
        } = self;
        let mut words = room;
        let closed = table.close_with(seat);
        for i in 0..words.len() {
            words[i] = closed.word(i);
        }
        closed.free();
        Closed {
            words,
            shape,
            pass: LastPass { at },
        }
    }
}
