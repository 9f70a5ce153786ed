//! Tests of the shared heap's calls, on one thread.

ghost use Rattle.std.specs.Prelude.{◌≡◌, ◌+◌, ◌<◌, ◌≤◌, false, [], ◌∷◌, length, IfSome};
ghost use Rattle.arc_model.specs.declared.shape.Kind.TheVariants.{Strong as strong_kind};
ghost use Rattle.arc_view.specs.Admission.{OwesNoName};
ghost use Rattle.arc_view.specs.Rule.{news};
ghost use Rattle.arc_view.specs.Views.{first_view};
ghost use Rattle.arc_table.specs.Calls.{IsFree};
ghost use Rattle.arc_table.specs.Seats.{heap_id, shape_of, pass_id, view_of};
ghost use Rattle.arc_table.specs.Tokens.{IsHeld};
ghost use Rattle.arc_table.specs.declared.tokens.Made.TheVariants as created;
ghost use Rattle.arc_table.specs.declared.tokens.Up.TheVariants as ups;
ghost use Rattle.arc_table.specs.declared.tokens.Any.TheVariants as anys;
ghost use Rattle.arc_table.specs.declared.tokens.Release.TheVariants as releases;
ghost use Rattle.arc_table.specs.declared.ends.Finish.TheVariants as finishes;
ghost use Rattle.arc_table.specs.declared.tokens.Swapped.TheVariants as swaps;

use crate::ends::{Finish, Freed};
use crate::heap::{Heap, Pass};
use crate::tokens::{Any, Dying, Made, Release, Strong, Swapped, Up};
use arc_model::{Caps, ClassShape, Kind, RefShape, Shape};
use arc_rule::{Intent, Step};
use std::alloc::Global;

/// Two slots and one entry.
fn small_heap(alloc: Global) -> Option<(Heap, Pass)>
    ensures { IfSome result (λ r. (pass_id r.1 ≡ heap_id r.0) × (view_of r.1 ≡ first_view)) }
{
    let caps = Caps::new(5, 6, 7).ok()?;
    let shape = Shape::new(2, 1, caps, Vec::new(alloc), Vec::new(alloc)).ok()?;
    Heap::make(alloc, shape).ok()
}

/// With ample memory a heap is made. A pass that was split off meets what the first one has seen.
#[test]
fn passes_meet(rt: HostRuntime) {
    let (heap, mut first) = small_heap(rt.alloc()).expect(&rt, "a heap");
    let mut second = heap.split(&mut first);
    let note = heap.note(&mut first);
    heap.meet(&mut second, note);
    let word = heap.step(&mut second, Step::Load { place: 0 }, Intent::Look);
    assert_eq!(rt; word, 0);
}

/// Two slots, one entry, and one class without fields.
pub(crate) fn classed_heap(alloc: Global) -> Option<(Heap, Pass)>
    ensures { IfSome result (λ r. (pass_id r.1 ≡ heap_id r.0) × (view_of r.1 ≡ first_view) × ((shape_of r.0).classes ≡ record { fields = []; immortal = false } ∷ [])) }
{
    let caps = Caps::new(5, 6, 7).ok()?;
    let mut classes = Vec::new(alloc);
    let class = ClassShape {
        fields: Vec::new(alloc),
        immortal: false,
    };
    classes.push(class).ok()?;
    let shape = Shape::new(2, 1, caps, classes, Vec::new(alloc)).ok()?;
    Heap::make(alloc, shape).ok()
}

/// The slot of a new object, whose reference is never given up.
fn fill(heap: &Heap, pass: &mut Pass) -> Option<u32>
    requires own { pass_id pass.old ≡ heap_id heap.now }
    requires class { length (shape_of heap.now).classes ≡ 1 }
    requires room { news (view_of pass.old).number (view_of pass.old).seen < 100000 }
    requires free { OwesNoName (view_of pass.old) }
    ensures same { pass_id pass.new ≡ pass_id pass.old }
    ensures few { news (view_of pass.new).number (view_of pass.new).seen ≤ news (view_of pass.old).number (view_of pass.old).seen + 1 }
    ensures working { (view_of pass.new).working ≡ (view_of pass.old).working }
{
    match heap.new_object(pass, 0) {
        Made::Ok(token) => {
            let Strong { slot, at: _ } = token;
            Some(slot)
        }
        Made::NoSlot => None,
        Made::Again(_) => None,
    }
}

/// The reference to a new object.
pub(crate) fn made(answer: Made) -> Option<Strong>
    ensures { IfSome result (λ t. answer ≡ created.Ok t) }
{
    match answer {
        Made::Ok(token) => Some(token),
        Made::NoSlot | Made::Again(_) => None,
    }
}

/// The reference that a retain made.
pub(crate) fn copied(answer: Up<Strong>) -> Option<Strong>
    ensures { IfSome result (λ t. answer ≡ ups.Ok t) }
{
    match answer {
        Up::Ok(token) => Some(token),
        Up::Again(_) | Up::AtCap | Up::CountFull => None,
    }
}

/// What a release came to: whether it was the last one's, or nothing for a count that changed.
fn was_last(answer: Release) -> Option<bool> {
    match answer {
        Release::More => Some(false),
        Release::Last(dying) => {
            let Dying { slot: _ } = dying;
            Some(true)
        }
        Release::Again(held, _) => {
            let Strong { slot: _, at: _ } = held;
            None
        }
    }
}

/// With ample memory a heap is made. The second of two releases is the last.
#[test]
fn object_dies(rt: HostRuntime) {
    let (heap, mut first) = classed_heap(rt.alloc()).expect(&rt, "a heap");
    let token = made(heap.new_object(&mut first, 0)).expect(&rt, "an object");
    let copy = copied(heap.retain(&mut first, &token)).expect(&rt, "a reference");
    assert_eq!(rt; was_last(heap.release(&mut first, copy)), Some(false));
    assert_eq!(rt; was_last(heap.release(&mut first, token)), Some(true));
}

/// A heap of which a pass was split off is closed once the first pass took it in: its words, one and eleven a slot, four an entry, and
/// one of the bits of each, are all 0.
#[test]
fn heap_closes_after_a_join(rt: HostRuntime) {
    let (heap, mut first) = small_heap(rt.alloc()).expect(&rt, "a heap");
    let second = heap.split(&mut first);
    heap.join(&mut first, second);
    let closed = heap.close(first);
    assert_eq!(rt; closed.words.as_slice(), [0u64; 29].as_slice());
    assert_eq!(rt; closed.shape.slots(), 2);
}

/// Two slots, one entry, one class without fields, and a global for strong references to its objects.
fn heap_with_global(alloc: Global) -> Option<(Heap, Pass)>
    ensures { IfSome result (λ r. (pass_id r.1 ≡ heap_id r.0) × (view_of r.1 ≡ first_view) × (length (shape_of r.0).classes ≡ 1) × ((shape_of r.0).globals ≡ record { kind = strong_kind; class = 0 } ∷ [])) }
{
    let caps = Caps::new(5, 6, 7).ok()?;
    let mut classes = Vec::new(alloc);
    let class = ClassShape {
        fields: Vec::new(alloc),
        immortal: false,
    };
    classes.push(class).ok()?;
    let mut globals = Vec::new(alloc);
    let global = RefShape {
        kind: Kind::Strong,
        class: 0,
    };
    globals.push(global).ok()?;
    let shape = Shape::new(2, 1, caps, classes, globals).ok()?;
    Heap::make(alloc, shape).ok()
}

/// A reference that is never given up: whether it is one.
fn forgotten(reference: Any) -> bool {
    match reference {
        Any::Nil => false,
        Any::Strong(token) => {
            let Strong { slot: _, at: _ } = token;
            true
        }
    }
}

/// The reference that came out of a global.
fn came_out(answer: Swapped) -> Option<Strong>
    ensures { IfSome result (λ t. answer ≡ swaps.Ok (anys.Strong t)) }
{
    match answer {
        Swapped::Ok(Any::Strong(token)) => Some(token),
        Swapped::Ok(Any::Nil) => None,
        Swapped::Busy(put) | Swapped::Again(put, _) => {
            forgotten(put);
            None
        }
    }
}

/// Whether it was nil that came out of a global; nothing where no exchange was made.
fn took_nil(answer: Swapped) -> Option<bool> {
    match answer {
        Swapped::Ok(got) => Some(!forgotten(got)),
        Swapped::Busy(put) | Swapped::Again(put, _) => {
            forgotten(put);
            None
        }
    }
}

/// With ample memory a heap is made. What one pass puts into a global, which was nil, another takes out, and gives up.
#[test]
fn object_is_handed_over(rt: HostRuntime) {
    let (heap, mut first) = heap_with_global(rt.alloc()).expect(&rt, "a heap");
    let token = made(heap.new_object(&mut first, 0)).expect(&rt, "an object");
    let mut second = heap.split(&mut first);
    let before = heap.swap(&mut first, 0, Any::Strong(token));
    assert_eq!(rt; took_nil(before), Some(true));
    let got = came_out(heap.swap(&mut second, 0, Any::Nil)).expect(&rt, "a reference");
    assert_eq!(rt; was_last(heap.release(&mut second, got)), Some(true));
}

/// The duty that a release left.
fn left(answer: Release) -> Option<Dying>
    ensures { IfSome result (λ d. answer ≡ releases.Last d) }
{
    match answer {
        Release::More => None,
        Release::Last(dying) => Some(dying),
        Release::Again(held, _) => {
            let Strong { slot: _, at: _ } = held;
            None
        }
    }
}

/// The duty that the end of a deinit left.
fn freed(answer: Finish) -> Option<Freed>
    ensures { IfSome result (λ f. answer ≡ finishes.Last f) }
{
    match answer {
        Finish::More => None,
        Finish::Last(freed) => Some(freed),
        Finish::Again(dying, _) => {
            let Dying { slot: _ } = dying;
            None
        }
    }
}

/// With ample memory a heap is made. Once its object is gone, the first slot is free for the next one.
#[test]
fn slot_is_free_again(rt: HostRuntime) {
    let (heap, mut first) = classed_heap(rt.alloc()).expect(&rt, "a heap");
    let token = made(heap.new_object(&mut first, 0)).expect(&rt, "an object");
    let dying = left(heap.release(&mut first, token)).expect(&rt, "the last reference");
    let freed = freed(heap.finish(&mut first, dying)).expect(&rt, "no unowned reference");
    assert!(rt; heap.vacate(&mut first, freed).is_none());
    assert_eq!(rt; fill(&heap, &mut first), Some(0));
}

/// A reference to a new object, where the pass may make one.
pub(crate) fn made_in(heap: &Heap, pass: &mut Pass) -> Option<Strong>
    requires own { pass_id pass.old ≡ heap_id heap.now }
    requires class { length (shape_of heap.now).classes ≡ 1 }
    requires free { OwesNoName (view_of pass.old) }
    ensures same { pass_id pass.new ≡ pass_id pass.old }
    ensures working { (view_of pass.new).working ≡ (view_of pass.old).working }
    ensures held { IfSome result (λ t. IsHeld (shape_of heap.now) (view_of pass.new) t) }
{
    if pass.objects_made() >= 100_000 {
        return None;
    }
    match heap.new_object(pass, 0) {
        Made::Ok(token) => Some(token),
        Made::NoSlot => None,
        Made::Again(_) => None,
    }
}

/// Whether a new object finds no slot.
pub(crate) fn is_full(heap: &Heap, pass: &mut Pass) -> bool
    requires own { pass_id pass.old ≡ heap_id heap.now }
    requires class { length (shape_of heap.now).classes ≡ 1 }
    requires free { OwesNoName (view_of pass.old) }
{
    if pass.objects_made() >= 100_000 {
        return false;
    }
    match heap.new_object(pass, 0) {
        Made::Ok(token) => {
            let Strong { slot: _, at: _ } = token;
            false
        }
        Made::NoSlot => true,
        Made::Again(_) => false,
    }
}

/// A reference is copied, and both are given up: which of the two releases was the last one's.
pub(crate) fn copied_and_dropped(
    heap: &Heap,
    pass: &mut Pass,
    token: Strong,
) -> Option<(bool, bool)>
    requires own { pass_id pass.old ≡ heap_id heap.now }
    requires held { IsHeld (shape_of heap.now) (view_of pass.old) token }
    requires free { IsFree (view_of pass.old) }
    ensures same { pass_id pass.new ≡ pass_id pass.old }
    ensures working { (view_of pass.new).working ≡ (view_of pass.old).working }
{
    match heap.retain(pass, &token) {
        Up::Ok(copy) => {
            let one = was_last(heap.release(pass, copy));
            let two = was_last(heap.release(pass, token));
            Some((one?, two?))
        }
        Up::Again(_) | Up::AtCap | Up::CountFull => {
            let Strong { slot: _, at: _ } = token;
            None
        }
    }
}

/// With ample memory a heap is made. Two passes make an object each, and give up what they have of it; until it ends its slot is taken.
#[test]
fn two_passes_fill_two_slots(rt: HostRuntime) {
    let (heap, mut first) = classed_heap(rt.alloc()).expect(&rt, "a heap");
    let mut second = heap.split(&mut first);
    let one = made_in(&heap, &mut first);
    let token = one.expect(&rt, "an object");
    let two = made_in(&heap, &mut second);
    let other = two.expect(&rt, "an object");
    let ends = copied_and_dropped(&heap, &mut first, token);
    assert_eq!(rt; ends, Some((false, true)));
    let others = copied_and_dropped(&heap, &mut second, other);
    assert_eq!(rt; others, Some((false, true)));
    assert!(rt; is_full(&heap, &mut first));
    assert!(rt; is_full(&heap, &mut second));
}

/// One slot, one entry, the least caps, and one class without fields, which is immortal.
pub(crate) fn immortal_heap(alloc: Global) -> Option<(Heap, Pass)>
    ensures { IfSome result (λ r. (pass_id r.1 ≡ heap_id r.0) × (view_of r.1 ≡ first_view) × (length (shape_of r.0).classes ≡ 1)) }
{
    let caps = Caps::new(0, 1, 1).ok()?;
    let mut classes = Vec::new(alloc);
    let class = ClassShape {
        fields: Vec::new(alloc),
        immortal: true,
    };
    classes.push(class).ok()?;
    let shape = Shape::new(1, 1, caps, classes, Vec::new(alloc)).ok()?;
    Heap::make(alloc, shape).ok()
}

/// With ample memory a heap is made. No release of an object of an immortal class is the last, and its slot stays taken.
#[test]
fn immortal_object_stays(rt: HostRuntime) {
    let (heap, mut first) = immortal_heap(rt.alloc()).expect(&rt, "a heap");
    let one = made_in(&heap, &mut first);
    let token = one.expect(&rt, "an object");
    let ends = copied_and_dropped(&heap, &mut first, token);
    assert_eq!(rt; ends, Some((false, false)));
    assert!(rt; is_full(&heap, &mut first));
}
