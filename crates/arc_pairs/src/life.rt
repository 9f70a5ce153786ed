//! Objects made and ended, references more and fewer. A call that answers `Again` is made again: other threads make calls in between, so no bound says how often.
ghost use Rattle.std.specs.Prelude.{◌≡◌, ◌≢◌, ◌<◌, length, None, IfSome};
ghost use Rattle.arc_view.specs.Rule.{news};
ghost use Rattle.arc_table.specs.Seats.{shape_of, view_of};
ghost use Rattle.arc_table.specs.Tokens.{hand_of};
ghost use Rattle.arc_view_laws.specs.Having.{KeepsStrong, KeepsStrongBut};
ghost use Rattle.arc_pairs.specs.Ready.{IsReady, IsPlain, IsOfClass, IsOurs, IsOurDying, IsSamePass, FoundFull, FoundAtCap};

use arc_table::{Dying, Finish, Heap, Made, Pass, Release, Strong, Up};
use std::sync::Wait;

/// A new object of the class. `None` where every slot is taken.
pub fn created_of<R: Wait>(rt: &R, heap: &Heap, pass: &mut Pass, class: u32) -> Option<Strong>
    requires ready { IsReady heap.now pass.old }
    requires class { class < length (shape_of heap.now).classes }
    requires room { news (view_of pass.old).number (view_of pass.old).seen < 100000 }
    ensures ready { IsReady heap.now pass.new }
    ensures made { IfSome result (λ t. IsOfClass class heap.now pass.new t) }
    ensures full { result ≡ None → FoundFull heap.now (view_of pass.old) (view_of pass.new) }
    ensures same { IsSamePass (view_of pass.old) (view_of pass.new) }
{
    for _ in rt.forever() {
        match heap.new_object(pass, class) {
            Made::Ok(held) => return Some(held),
            Made::NoSlot => return None,
            Made::Again(_) => {}
        }
    }
    unreachable!()
}

/// A new object of class 0. `None` where every slot is taken.
pub fn created<R: Wait>(rt: &R, heap: &Heap, pass: &mut Pass) -> Option<Strong>
    requires ready { IsReady heap.now pass.old }
    requires plain { IsPlain heap.now }
    requires room { news (view_of pass.old).number (view_of pass.old).seen < 100000 }
    ensures ready { IsReady heap.now pass.new }
    ensures made { IfSome result (λ t. IsOurs heap.now pass.new t) }
    ensures full { result ≡ None → FoundFull heap.now (view_of pass.old) (view_of pass.new) }
{
    created_of(rt, heap, pass, 0)
}

/// One more reference to the same object. `None` where a count stands at its greatest.
#[inline(always)]
pub fn copied<R: Wait>(rt: &R, heap: &Heap, pass: &mut Pass, of: &Strong) -> Option<Strong>
    requires ready { IsReady heap.now pass.old }
    requires held { IsOurs heap.now pass.old of.now }
    ensures ready { IsReady heap.now pass.new }
    ensures copy { IfSome result (λ t. IsOurs heap.now pass.new t) }
    ensures other { IfSome result (λ t. hand_of t ≢ hand_of of.now) }
    ensures full { result ≡ None → FoundAtCap heap.now (view_of pass.old) (view_of pass.new) of.now }
    ensures kept { KeepsStrong (view_of pass.old) (view_of pass.new) }
{
    match heap.retain(pass, of) {
        Up::Ok(more) => Some(more),
        Up::AtCap | Up::CountFull => None,
        Up::Again(_) => copied_again(rt, heap, pass, of),
    }
}

/// The same, call after call, where the first one was answered `Again`. It stands apart so that the first call has no loop about it.
#[cold]
#[inline(never)]
fn copied_again<R: Wait>(rt: &R, heap: &Heap, pass: &mut Pass, of: &Strong) -> Option<Strong>
    requires ready { IsReady heap.now pass.old }
    requires held { IsOurs heap.now pass.old of.now }
    ensures ready { IsReady heap.now pass.new }
    ensures copy { IfSome result (λ t. IsOurs heap.now pass.new t) }
    ensures other { IfSome result (λ t. hand_of t ≢ hand_of of.now) }
    ensures full { result ≡ None → FoundAtCap heap.now (view_of pass.old) (view_of pass.new) of.now }
    ensures kept { KeepsStrong (view_of pass.old) (view_of pass.new) }
{
    for _ in rt.forever() {
        match heap.retain(pass, of) {
            Up::Ok(more) => return Some(more),
            Up::AtCap | Up::CountFull => return None,
            Up::Again(_) => {}
        }
    }
    unreachable!()
}

/// One reference fewer. The duty to end the object, where it was the last one.
#[inline(always)]
pub fn given_up<R: Wait>(rt: &R, heap: &Heap, pass: &mut Pass, held: Strong) -> Option<Dying>
    requires ready { IsReady heap.now pass.old }
    requires held { IsOurs heap.now pass.old held }
    ensures ready { IsReady heap.now pass.new }
    ensures dying { IfSome result (λ d. IsOurDying heap.now pass.new d) }
    ensures kept { KeepsStrongBut (hand_of held) (view_of pass.old) (view_of pass.new) }
{
    match heap.release(pass, held) {
        Release::More => None,
        Release::Last(dying) => Some(dying),
        Release::Again(back, _) => given_up_again(rt, heap, pass, back),
    }
}

/// The same, call after call, where the first one was answered `Again`.
#[cold]
#[inline(never)]
fn given_up_again<R: Wait>(rt: &R, heap: &Heap, pass: &mut Pass, held: Strong) -> Option<Dying>
    requires ready { IsReady heap.now pass.old }
    requires held { IsOurs heap.now pass.old held }
    ensures ready { IsReady heap.now pass.new }
    ensures dying { IfSome result (λ d. IsOurDying heap.now pass.new d) }
    ensures kept { KeepsStrongBut (hand_of held) (view_of pass.old) (view_of pass.new) }
{
    let mut held = held;
    for _ in rt.forever() {
        match heap.release(pass, held) {
            Release::More => return None,
            Release::Last(dying) => return Some(dying),
            Release::Again(back, _) => held = back,
        }
    }
    unreachable!()
}

/// The end of an object without fields: of its deinit, and of its slot where no unowned reference is left.
pub fn end<R: Wait>(rt: &R, heap: &Heap, pass: &mut Pass, dying: Dying)
    requires ready { IsReady heap.now pass.old }
    requires plain { IsPlain heap.now }
    requires dying { IsOurDying heap.now pass.old dying }
    ensures ready { IsReady heap.now pass.new }
    ensures kept { KeepsStrong (view_of pass.old) (view_of pass.new) }
{
    let mut dying = dying;
    for _ in rt.forever() {
        match heap.finish(pass, dying) {
            Finish::More => return,
            Finish::Last(freed) => {
                heap.vacate(pass, freed);
                return;
            }
            Finish::Again(back, _) => dying = back,
        }
    }
    unreachable!()
}

/// One reference fewer, and the end of the object where it was the last. Says whether the object ended.
#[inline(always)]
pub fn let_go<R: Wait>(rt: &R, heap: &Heap, pass: &mut Pass, held: Strong) -> bool
    requires ready { IsReady heap.now pass.old }
    requires plain { IsPlain heap.now }
    requires held { IsOurs heap.now pass.old held }
    ensures ready { IsReady heap.now pass.new }
    ensures kept { KeepsStrongBut (hand_of held) (view_of pass.old) (view_of pass.new) }
{
    match given_up(rt, heap, pass, held) {
        None => false,
        Some(dying) => {
            end(rt, heap, pass, dying);
            true
        }
    }
}
