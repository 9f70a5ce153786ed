//! Threads that share a heap and an object in it.
ghost use Rattle.std.specs.Prelude.{◌≡◌, ◌+◌, ◌*◌, ◌≤◌, [], All, IfSome, vec_len};
ghost use Rattle.arc_table.specs.Cells.{KeepsUnput};
ghost use Rattle.arc_table.specs.Seats.{view_of};
ghost use Rattle.arc_table.specs.Tokens.{hand_of};
ghost use Rattle.arc_view_laws.specs.Having.{KeepsStrongBut};
ghost use Rattle.arc_pairs.specs.Ready.{IsReady, IsPlain, IsOurs, IsOurAny, IsApart, IsForOurs, AreForOurs, IsWorker};

use crate::heaps::shared_heap;
use crate::life::{copied, created, let_go};
use crate::loops::hold;
use crate::passes::passes_for;
use crate::total::total;
use arc_table::{Any, Heap, Pass, Strong, Swapped};
use std::alloc::Global;
use std::sync::Wait;
use std::thread::{Threads, map_vec};

/// An exchange with a global, made again where the word has changed. What stood there before, which is none of the pass's other references.
fn exchanged<R: Wait>(rt: &R, heap: &Heap, pass: &mut Pass, global: u32, put: Any) -> Any
    requires ready { IsReady heap.now pass.old }
    requires global { IsForOurs heap.now global }
    requires put { IsOurAny heap.now pass.old put }
    ensures ready { IsReady heap.now pass.new }
    ensures got { IsOurAny heap.now pass.new result }
    ensures apart { IsApart (view_of pass.old) result }
    ensures kept { KeepsUnput put (view_of pass.old) (view_of pass.new) }
{
    let mut put = put;
    for _ in rt.forever() {
        match heap.swap(pass, global, put) {
            Swapped::Ok(before) => return before,
            Swapped::Busy(back) | Swapped::Again(back, _) => put = back,
        }
    }
    unreachable!()
}

/// A reference goes into a global, and what stood there before is given up. Says whether an object ended with that.
fn put<R: Wait>(rt: &R, heap: &Heap, pass: &mut Pass, global: u32, held: Strong) -> bool
    requires ready { IsReady heap.now pass.old }
    requires plain { IsPlain heap.now }
    requires global { IsForOurs heap.now global }
    requires held { IsOurs heap.now pass.old held }
    ensures ready { IsReady heap.now pass.new }
    ensures kept { KeepsStrongBut (hand_of held) (view_of pass.old) (view_of pass.new) }
{
    match exchanged(rt, heap, pass, global, Any::Strong(held)) {
        Any::Nil => false,
        Any::Strong(before) => let_go(rt, heap, pass, before),
    }
}

/// A copy of the reference goes into a global. Says whether an object ended.
fn put_copy<R: Wait>(rt: &R, heap: &Heap, pass: &mut Pass, global: u32, held: &Strong) -> bool
    requires ready { IsReady heap.now pass.old }
    requires plain { IsPlain heap.now }
    requires global { IsForOurs heap.now global }
    requires held { IsOurs heap.now pass.old held.now }
    ensures ready { IsReady heap.now pass.new }
    ensures held { IsOurs heap.now pass.new held.now }
{
    match copied(rt, heap, pass, held) {
        None => false,
        Some(copy) => put(rt, heap, pass, global, copy),
    }
}

/// A copy of the reference goes into each global but the first. Says how many objects ended.
fn put_copies<R: Wait>(rt: &R, heap: &Heap, pass: &mut Pass, held: &Strong, globals: u32) -> u32
    requires ready { IsReady heap.now pass.old }
    requires plain { IsPlain heap.now }
    requires some { 1 ≤ globals }
    requires globals { AreForOurs heap.now globals }
    requires held { IsOurs heap.now pass.old held.now }
    ensures ready { IsReady heap.now pass.new }
    ensures held { IsOurs heap.now pass.new held.now }
    ensures ends { result ≤ globals }
{
    let mut ends = 0;
    for global in 1..globals {
        if put_copy(rt, heap, pass, global, held) {
            ends += 1;
        }
    }
    ends
}

/// A new object, with a reference in each global. Says how many objects ended: none, where each global was nil.
fn hand_out<R: Wait>(rt: &R, heap: &Heap, pass: &mut Pass, globals: u32) -> u32
    requires ready { IsReady heap.now pass.old }
    requires plain { IsPlain heap.now }
    requires some { (1 ≤ globals) × (globals ≤ 32) }
    requires globals { AreForOurs heap.now globals }
    requires empty { (view_of pass.old).seen ≡ [] }
    ensures ends { result ≤ globals + 1 }
{
    match created(rt, heap, pass) {
        None => 0,
        Some(held) => {
            let ends = put_copies(rt, heap, pass, &held, globals);
            if put(rt, heap, pass, 0, held) {
                ends + 1
            } else {
                ends
            }
        }
    }
}

/// The reference of a global, where nil stands from then on. `None` where it was nil before.
fn take<R: Wait>(rt: &R, heap: &Heap, pass: &mut Pass, global: u32) -> Option<Strong>
    requires ready { IsReady heap.now pass.old }
    requires global { IsForOurs heap.now global }
    ensures ready { IsReady heap.now pass.new }
    ensures taken { IfSome result (λ t. IsOurs heap.now pass.new t) }
{
    match exchanged(rt, heap, pass, global, Any::Nil) {
        Any::Nil => None,
        Any::Strong(held) => Some(held),
    }
}

/// What a thread does with its pass: it takes the reference of its global, and gives it up after so many pairs. Says how many objects ended.
fn take_and_hold<R: Wait>(rt: &R, heap: &Heap, mut pass: Pass, globals: u32, times: u32) -> u32
    requires worker { IsWorker heap.now globals pass }
    requires plain { IsPlain heap.now }
    requires globals { AreForOurs heap.now globals }
    requires times { times ≤ 6400000 }
    ensures ends { result ≤ times + 1 }
{
    let global = pass.number() - 1;
    match take(rt, heap, &mut pass, global) {
        None => 0,
        Some(held) => hold(rt, heap, &mut pass, held, times),
    }
}

/// The threads' work, each with a pass. Says how many objects ended. `None` where no memory was found.
fn take_all<R: Threads + Wait + Sync>(
    rt: &R,
    heap: &Heap,
    passes: Vec<Pass>,
    globals: u32,
    times: u32,
) -> Option<u64>
    requires workers { All (IsWorker heap.now globals) passes.items }
    requires many { (vec_len passes ≡ globals) × (globals ≤ 32) }
    requires plain { IsPlain heap.now }
    requires globals { AreForOurs heap.now globals }
    requires times { times ≤ 6400000 }
    ensures ends { IfSome result (λ n. n ≤ globals * (times + 1)) }
{
    let counts = map_vec(
        rt,
        passes,
        &|pass| -> u32
            requires { IsWorker heap.now globals pass × IsPlain heap.now × AreForOurs heap.now globals × (times ≤ 6400000) }
            ensures { result ≤ times + 1 }
        { take_and_hold(rt, heap, pass, globals, times) },
    )
    .ok()?;
    Some(total(&counts))
}

/// Each thread takes a reference to one object, which they share, out of a global of its own, retains and releases it so many times, and
/// gives it up. Says how many objects ended. `None` where no memory was found.
pub fn shared<R: Threads + Wait + Sync>(
    rt: &R,
    alloc: Global,
    threads: u32,
    times: u32,
) -> Option<u64>
    requires threads { (1 ≤ threads) × (threads ≤ 32) }
    requires times { times ≤ 6400000 }
    ensures ends { IfSome result (λ n. n ≤ threads * (times + 1) + threads + 1) }
{
    let (heap, mut first) = shared_heap(alloc, threads)?;
    let passes = passes_for(alloc, &heap, &mut first, threads)?;
    let early = hand_out(rt, &heap, &mut first, threads);
    let late = take_all(rt, &heap, passes, threads, times)?;
    Some(u64::from(early) + late)
}
