//! Threads that have a heap each.
ghost use Rattle.std.specs.Prelude.{◌≡◌, ◌≤◌, ◌<◌, ◌+◌, ◌*◌, IfSome};
ghost use Rattle.arc_view.specs.Passes.{IsFirst};
ghost use Rattle.arc_table.specs.Seats.{view_of};
ghost use Rattle.arc_pairs.specs.Ready.{IsReady, IsPlain};

use crate::heaps::{lasting_heap, plain_heap};
use crate::lasting::settle;
use crate::loops::{MOST_OBJECTS, lives, make_and_hold};
use crate::passes::split_off;
use crate::total::known_total;
use arc_table::{Heap, Pass};
use std::alloc::Global;
use std::sync::Wait;
use std::thread::{Threads, map_indices};

/// What a thread does with a heap of its own: one object, so many pairs, and the object's end. `None` where no memory was found.
fn hold_own<R: Wait>(rt: &R, alloc: Global, times: u32) -> Option<u32>
    requires times { times ≤ 6400000 }
    ensures ends { IfSome result (λ n. n ≤ times + 1) }
{
    let (heap, mut pass) = plain_heap(alloc, 1, Vec::new(alloc))?;
    Some(make_and_hold(rt, &heap, &mut pass, times))
}

/// Each thread makes an object in a heap of its own, retains and releases it so many times, and gives it up. Says how many objects ended.
pub fn own<R: Threads + Wait + Sync>(rt: &R, alloc: Global, threads: u32, times: u32) -> Option<u64>
    requires threads { threads ≤ 32 }
    requires times { times ≤ 6400000 }
    ensures ends { IfSome result (λ n. n ≤ threads * (times + 1)) }
{
    let counts = map_indices(
        rt,
        alloc,
        threads as usize,
        &|_i| -> Option<u32>
            requires { times ≤ 6400000 }
            ensures { IfSome result (λ n. n ≤ times + 1) }
        { hold_own(rt, alloc, times) },
    )
    .ok()?;
    known_total(&counts)
}

/// So many objects, one after another, made by passes that are split off in turn. Says how many ended.
fn lives_in_turn<R: Wait>(rt: &R, heap: &Heap, first: &mut Pass, times: u32) -> u32
    requires ready { IsReady heap.now first.old }
    requires plain { IsPlain heap.now }
    requires first { IsFirst (view_of first.old) }
    requires none { (view_of first.old).splits ≡ 0 }
    ensures ends { result ≤ times }
{
    let mut ends = 0;
    let mut left = times;
    for _i in 0..64u32 {
        if left == 0 {
            return ends;
        }
        let mut pass = split_off(heap, first);
        let some = left.min(MOST_OBJECTS);
        ends += lives(rt, heap, &mut pass, some);
        left -= some;
    }
    ends
}

/// What a thread does with a heap of its own: so many objects, one after another. `None` where no memory was found.
fn live_own<R: Wait>(rt: &R, alloc: Global, times: u32) -> Option<u32>
    ensures ends { IfSome result (λ n. n ≤ times) }
{
    let (heap, mut first) = plain_heap(alloc, 64, Vec::new(alloc))?;
    Some(lives_in_turn(rt, &heap, &mut first, times))
}

/// Each thread makes so many objects in a heap of its own, one after another, and lets each go at once. Says how many objects ended. `None`
/// where no memory was found.
pub fn own_lives<R: Threads + Wait + Sync>(
    rt: &R,
    alloc: Global,
    threads: u32,
    times: u32,
) -> Option<u64>
    requires threads { threads ≤ 32 }
    ensures ends { IfSome result (λ n. n ≤ threads * times) }
{
    let counts = map_indices(
        rt,
        alloc,
        threads as usize,
        &|_i| -> Option<u32>
            ensures { IfSome result (λ n. n ≤ times) }
        { live_own(rt, alloc, times) },
    )
    .ok()?;
    known_total(&counts)
}

/// The same behind 1,000 objects that stay in their slots for ever, in a heap with 4,096. `None` where no memory was found.
fn live_behind<R: Wait>(rt: &R, alloc: Global, times: u32) -> Option<u32>
    ensures ends { IfSome result (λ n. n ≤ times) }
{
    let (heap, mut first) = lasting_heap(alloc)?;
    settle(rt, &heap, &mut first, 1000);
    Some(lives_in_turn(rt, &heap, &mut first, times))
}

/// Each thread makes 1,000 objects of an immortal class in a heap of its own, and then so many others, one after another, and lets each go
/// at once. Says how many objects ended. `None` where no memory was found.
pub fn own_lives_behind<R: Threads + Wait + Sync>(
    rt: &R,
    alloc: Global,
    threads: u32,
    times: u32,
) -> Option<u64>
    requires threads { threads ≤ 32 }
    ensures ends { IfSome result (λ n. n ≤ threads * times) }
{
    let counts = map_indices(
        rt,
        alloc,
        threads as usize,
        &|_i| -> Option<u32>
            ensures { IfSome result (λ n. n ≤ times) }
        { live_behind(rt, alloc, times) },
    )
    .ok()?;
    known_total(&counts)
}
