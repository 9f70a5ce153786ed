//! A test of the shared heap's calls on two threads, each with a pass.

ghost use Rattle.std.specs.Prelude.{◌≡◌, length, IfSome};
ghost use Rattle.arc_view.specs.Admission.{OwesNoName};
ghost use Rattle.arc_view.specs.Views.{idle};
ghost use Rattle.arc_table.specs.Seats.{heap_id, shape_of, pass_id, view_of};
ghost use Rattle.arc_table.specs.Tokens.{IsHeld};

use crate::heap::{Heap, Pass};
use crate::tests::{classed_heap, copied_and_dropped, is_full, made_in};
use crate::tokens::{Made, Strong};
use std::thread::join;

/// A reference to a new object. Where another thread took the slot that was found free the call is made again, once: a thread that makes
/// one object takes no second slot.
fn made_beside_another(heap: &Heap, pass: &mut Pass) -> Option<Strong>
    requires own { pass_id pass.old ≡ heap_id heap.now }
    requires class { length (shape_of heap.now).classes ≡ 1 }
    requires free { OwesNoName (view_of pass.old) }
    ensures same { pass_id pass.new ≡ pass_id pass.old }
    ensures working { (view_of pass.new).working ≡ (view_of pass.old).working }
    ensures held { IfSome result (λ t. IsHeld (shape_of heap.now) (view_of pass.new) t) }
{
    if pass.objects_made() >= 100_000 {
        return None;
    }
    match heap.new_object(pass, 0) {
        Made::Ok(token) => Some(token),
        Made::NoSlot => None,
        Made::Again(_) => made_in(heap, pass),
    }
}

/// What a thread does with its pass: it makes an object, copies the reference, and gives both up. The pass comes back where the second
/// release alone was the last one's.
fn one_life(heap: &Heap, pass: Pass) -> Option<Pass>
    requires own { pass_id pass ≡ heap_id heap.now }
    requires class { length (shape_of heap.now).classes ≡ 1 }
    requires idle { (view_of pass).working ≡ idle }
    ensures own { IfSome result (λ p. pass_id p ≡ heap_id heap.now) }
    ensures idle { IfSome result (λ p. (view_of p).working ≡ idle) }
{
    let mut pass = pass;
    let token = made_beside_another(heap, &mut pass)?;
    if copied_and_dropped(heap, &mut pass, token) == Some((false, true)) {
        Some(pass)
    } else {
        None
    }
}

/// With ample memory a heap is made. Two threads make an object each, and give up what they have of it; then neither finds a free slot.
#[test]
fn two_threads_fill_two_slots(rt: HostRuntime) {
    let (heap, mut first) = classed_heap(rt.alloc()).expect(&rt, "a heap");
    let second = heap.split(&mut first);
    let shared = &heap;
    let (one, two) = join(
        &rt,
        move || -> Option<Pass>
            requires { (pass_id first ≡ heap_id shared.now) × (length (shape_of shared.now).classes ≡ 1) × ((view_of first).working ≡ idle) }
            ensures { IfSome result (λ p. (pass_id p ≡ heap_id shared.entry.now) × ((view_of p).working ≡ idle)) }
        { one_life(shared, first) },
        move || -> Option<Pass>
            requires { (pass_id second ≡ heap_id shared.now) × (length (shape_of shared.now).classes ≡ 1) × ((view_of second).working ≡ idle) }
            ensures { IfSome result (λ p. (pass_id p ≡ heap_id shared.entry.now) × ((view_of p).working ≡ idle)) }
        { one_life(shared, second) },
    );
    let mut one = one.expect(&rt, "a life in the first pass");
    let mut two = two.expect(&rt, "a life in the second pass");
    assert!(rt; is_full(&heap, &mut one));
    assert!(rt; is_full(&heap, &mut two));
}
