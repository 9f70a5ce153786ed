//! Objects of an immortal class, which stay in their slots for ever.
ghost use Rattle.std.specs.Prelude.{◌≡◌, ◌<◌};
ghost use Rattle.arc_view.specs.Rule.{news};
ghost use Rattle.arc_table.specs.Seats.{view_of};
ghost use Rattle.arc_pairs.specs.Ready.{IsReady, HasImmortal, IsOfClass, IsSamePass};

use crate::life::created_of;
use crate::loops::MOST_OBJECTS;
use arc_table::{Heap, Pass, Release, Strong};
use std::sync::Wait;

/// One reference fewer to an immortal object, which never is the last.
fn left<R: Wait>(rt: &R, heap: &Heap, pass: &mut Pass, held: Strong)
    requires ready { IsReady heap.now pass.old }
    requires immortal { HasImmortal heap.now }
    requires held { IsOfClass 1 heap.now pass.old held }
    ensures ready { IsReady heap.now pass.new }
    ensures same { IsSamePass (view_of pass.old) (view_of pass.new) }
{
    let mut held = held;
    for _ in rt.forever() {
        match heap.release(pass, held) {
            Release::More => return,
            Release::Last(_dying) => unreachable!(),
            Release::Again(back, _) => held = back,
        }
    }
    unreachable!()
}

/// A new immortal object, whose one reference is given up. Says whether a slot was found.
fn settled<R: Wait>(rt: &R, heap: &Heap, pass: &mut Pass) -> bool
    requires ready { IsReady heap.now pass.old }
    requires immortal { HasImmortal heap.now }
    requires room { news (view_of pass.old).number (view_of pass.old).seen < 100000 }
    ensures ready { IsReady heap.now pass.new }
    ensures same { IsSamePass (view_of pass.old) (view_of pass.new) }
{
    match created_of(rt, heap, pass, 1) {
        None => false,
        Some(held) => {
            left(rt, heap, pass, held);
            true
        }
    }
}

/// So many immortal objects to which the pass keeps no reference, or as many as there are slots and as the pass may still make.
pub fn settle<R: Wait>(rt: &R, heap: &Heap, pass: &mut Pass, count: u32)
    requires ready { IsReady heap.now pass.old }
    requires immortal { HasImmortal heap.now }
    ensures ready { IsReady heap.now pass.new }
    ensures same { IsSamePass (view_of pass.old) (view_of pass.new) }
{
    for _i in 0..count {
        if pass.objects_made() >= MOST_OBJECTS || !settled(rt, heap, pass) {
            return;
        }
    }
}
