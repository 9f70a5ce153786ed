//! How the first pass of a heap splits off others.
ghost use Rattle.std.specs.Prelude.{◌≡◌, ◌+◌, ◌<◌, ◌≤◌, All, IfSome, vec_len};
ghost use Rattle.arc_view.specs.Passes.{IsFirst};
ghost use Rattle.arc_table.specs.Seats.{view_of};
ghost use Rattle.arc_pairs.specs.Ready.{IsReady, IsWorker};

use arc_table::{Heap, Pass};
use std::alloc::Global;

/// Another pass, which is ready too. The first pass splits off at most 64.
pub fn split_off(heap: &Heap, first: &mut Pass) -> Pass
    requires ready { IsReady heap.now first.old }
    requires first { IsFirst (view_of first.old) }
    requires room { (view_of first.old).splits < 64 }
    ensures ready { IsReady heap.now first.new × IsReady heap.now result }
    ensures first { IsFirst (view_of first.new) }
    ensures splits { (view_of first.new).splits ≡ (view_of first.old).splits + 1 }
    ensures number { (view_of result).number ≡ (view_of first.old).splits + 1 }
    ensures seen { (view_of first.new).seen ≡ (view_of first.old).seen }
{
    heap.split(first)
}

/// A pass for each thread, with numbers from 1 on. `None` where no memory was found.
pub fn passes_for(alloc: Global, heap: &Heap, first: &mut Pass, threads: u32) -> Option<Vec<Pass>>
    requires ready { IsReady heap.now first.old }
    requires first { IsFirst (view_of first.old) }
    requires none { (view_of first.old).splits ≡ 0 }
    requires threads { threads ≤ 32 }
    ensures ready { IsReady heap.now first.new }
    ensures seen { (view_of first.new).seen ≡ (view_of first.old).seen }
    ensures passes { IfSome result (λ v. All (IsWorker heap.now threads) v.items) }
    ensures many { IfSome result (λ v. vec_len v ≡ threads) }
{
    let mut passes = Vec::new(alloc);
    for _i in 0..threads {
        let pass = split_off(heap, first);
        passes.push(pass).ok()?;
    }
    Some(passes)
}
