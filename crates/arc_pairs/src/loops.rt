//! What a thread does with a reference, so many times.
ghost use Rattle.std.specs.Prelude.{◌≡◌, ◌+◌, ◌<◌, ◌≤◌};
ghost use Rattle.arc_view.specs.Rule.{news};
ghost use Rattle.arc_table.specs.Seats.{view_of};
ghost use Rattle.arc_pairs.specs.Ready.{IsReady, IsPlain, IsOurs};

use crate::life::{copied, created, let_go};
use arc_table::{Heap, Pass, Strong};
use std::sync::Wait;

/// A retain, and a release of the copy. Says whether the object ended.
#[inline(always)]
fn pair<R: Wait>(rt: &R, heap: &Heap, pass: &mut Pass, held: &Strong) -> bool
    requires ready { IsReady heap.now pass.old }
    requires plain { IsPlain heap.now }
    requires held { IsOurs heap.now pass.old held.now }
    ensures ready { IsReady heap.now pass.new }
    ensures held { IsOurs heap.now pass.new held.now }
{
    match copied(rt, heap, pass, held) {
        None => false,
        Some(copy) => let_go(rt, heap, pass, copy),
    }
}

/// So many pairs. Says how many times the object ended.
fn pairs<R: Wait>(rt: &R, heap: &Heap, pass: &mut Pass, held: &Strong, times: u32) -> u32
    requires ready { IsReady heap.now pass.old }
    requires plain { IsPlain heap.now }
    requires held { IsOurs heap.now pass.old held.now }
    ensures ready { IsReady heap.now pass.new }
    ensures held { IsOurs heap.now pass.new held.now }
    ensures ends { result ≤ times }
{
    let mut ends = 0;
    for _i in 0..times {
        if pair(rt, heap, pass, held) {
            ends += 1;
        }
    }
    ends
}

/// So many pairs of a reference that is given up then. Says how many times the object ended.
pub fn hold<R: Wait>(rt: &R, heap: &Heap, pass: &mut Pass, held: Strong, times: u32) -> u32
    requires ready { IsReady heap.now pass.old }
    requires plain { IsPlain heap.now }
    requires held { IsOurs heap.now pass.old held }
    requires times { times ≤ 6400000 }
    ensures ready { IsReady heap.now pass.new }
    ensures ends { result ≤ times + 1 }
{
    let ends = pairs(rt, heap, pass, &held, times);
    if let_go(rt, heap, pass, held) {
        ends + 1
    } else {
        ends
    }
}

/// A new object, so many pairs of its reference, and its end. Says how many objects ended.
pub fn make_and_hold<R: Wait>(rt: &R, heap: &Heap, pass: &mut Pass, times: u32) -> u32
    requires ready { IsReady heap.now pass.old }
    requires plain { IsPlain heap.now }
    requires room { news (view_of pass.old).number (view_of pass.old).seen < 100000 }
    requires times { times ≤ 6400000 }
    ensures ends { result ≤ times + 1 }
{
    match created(rt, heap, pass) {
        None => 0,
        Some(held) => hold(rt, heap, pass, held, times),
    }
}

/// A new object, and its end. Says whether an object ended.
fn life<R: Wait>(rt: &R, heap: &Heap, pass: &mut Pass) -> bool
    requires ready { IsReady heap.now pass.old }
    requires plain { IsPlain heap.now }
    requires room { news (view_of pass.old).number (view_of pass.old).seen < 100000 }
    ensures ready { IsReady heap.now pass.new }
{
    match created(rt, heap, pass) {
        None => false,
        Some(held) => let_go(rt, heap, pass, held),
    }
}

/// The greatest number of objects that a pass makes.
pub const MOST_OBJECTS: u32 = 100_000;

/// So many lives, or as many as the pass may still make objects. Says how many objects ended.
pub fn lives<R: Wait>(rt: &R, heap: &Heap, pass: &mut Pass, times: u32) -> u32
    requires ready { IsReady heap.now pass.old }
    requires plain { IsPlain heap.now }
    ensures ends { result ≤ times }
{
    let mut ends = 0;
    for _i in 0..times {
        if pass.objects_made() >= MOST_OBJECTS {
            return ends;
        }
        if life(rt, heap, pass) {
            ends += 1;
        }
    }
    ends
}
