//! A test of what an object of an immortal class leaves at the end of a heap.

ghost use Rattle.std.specs.Prelude.{◌≡◌, true, [], ◌∷◌, length, IfSome};
ghost use Rattle.arc_view.specs.Passes.{HoldsNothing};
ghost use Rattle.arc_table.specs.Calls.{IsFree};
ghost use Rattle.arc_table.specs.Possessions.{HasOnly};
ghost use Rattle.arc_table.specs.Seats.{heap_id, shape_of, pass_id, view_of};
ghost use Rattle.arc_table.specs.Tokens.{hand_of, IsHeld};
ghost use Rattle.arc_table.specs.declared.tokens.Release.TheVariants as releases;

use crate::heap::{Heap, Pass};
use crate::tests::immortal_heap;
use crate::tokens::{Dying, Made, Release, Strong, Up};

/// Whether other references remain after a release.
fn is_more(answer: Release) -> bool
    ensures { result ≡ true → answer ≡ releases.More }
{
    match answer {
        Release::More => true,
        Release::Last(dying) => {
            let Dying { slot: _ } = dying;
            false
        }
        Release::Again(held, _) => {
            let Strong { slot: _, at: _ } = held;
            false
        }
    }
}

/// The one reference that a pass has is copied, and both are given up. Where neither was the last one the pass has nothing then.
fn both_given_up(heap: &Heap, pass: &mut Pass, token: Strong) -> bool
    requires own { pass_id pass.old ≡ heap_id heap.now }
    requires held { IsHeld (shape_of heap.now) (view_of pass.old) token }
    requires free { IsFree (view_of pass.old) }
    requires only { HasOnly (hand_of token ∷ []) (view_of pass.old) }
    ensures same { pass_id pass.new ≡ pass_id pass.old }
    ensures number { (view_of pass.new).number ≡ (view_of pass.old).number }
    ensures working { (view_of pass.new).working ≡ (view_of pass.old).working }
    ensures nothing { result ≡ true → HasOnly [] (view_of pass.new) }
{
    match heap.retain(pass, &token) {
        Up::Ok(copy) => {
            let one = is_more(heap.release(pass, copy));
            let two = is_more(heap.release(pass, token));
            one && two
        }
        Up::Again(_) | Up::AtCap | Up::CountFull => {
            let Strong { slot: _, at: _ } = token;
            false
        }
    }
}

/// A pass makes an object, and gives up what it has of it. It comes back where no reference was the last one: it has nothing then.
fn left_behind(heap: &Heap, pass: Pass) -> Option<Pass>
    requires own { pass_id pass ≡ heap_id heap.now }
    requires class { length (shape_of heap.now).classes ≡ 1 }
    requires nothing { HoldsNothing (view_of pass) }
    ensures own { IfSome result (λ p. pass_id p ≡ heap_id heap.now) }
    ensures number { IfSome result (λ p. (view_of p).number ≡ (view_of pass).number) }
    ensures nothing { IfSome result (λ p. HoldsNothing (view_of p)) }
{
    let mut pass = pass;
    if pass.objects_made() >= 100_000 {
        return None;
    }
    match heap.new_object(&mut pass, 0) {
        Made::Ok(token) => {
            if both_given_up(heap, &mut pass, token) {
                Some(pass)
            } else {
                None
            }
        }
        Made::NoSlot | Made::Again(_) => None,
    }
}

/// With ample memory a heap is made. An object of an immortal class stays when each pass has given up what it had: at the end its inline word
/// is 1, beside its isa word and the bit of its slot, and all other words are 0.
#[test]
fn immortal_object_is_there_at_the_end(rt: HostRuntime) {
    let (heap, mut first) = immortal_heap(rt.alloc()).expect(&rt, "a heap");
    let second = heap.split(&mut first);
    let second = left_behind(&heap, second).expect(&rt, "an object that stays");
    heap.join(&mut first, second);
    let closed = heap.close(first);
    let mut words = [0u64; 18];
    words[1] = 1;
    words[2] = 0x1_0100;
    words[16] = 1;
    assert_eq!(rt; closed.words.as_slice(), words.as_slice());
}
