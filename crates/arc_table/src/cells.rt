//! What goes into a global and comes out of it.
ghost use Rattle.std.specs.Prelude.{◌≡◌, ◌≢◌, ◌+◌, ◌<◌, ◌^◌, ℕ};
ghost use Rattle.arc_model.specs.declared.event.CellName.TheVariants.{Global};
ghost use Rattle.arc_rule.specs.declared.step.Intent.TheVariants.{Swap as swap_intent};
ghost use Rattle.arc_table.specs.Calls.{IsFree, IsCall};
ghost use Rattle.arc_table.specs.Cells.{hand_in, word_of, HoldsStrong, MayPut, IsExchanged, exchanged_act, IsTokenOf, IsSwapped, swap_act};
ghost use Rattle.arc_table.specs.Possessions.{StillHas};
ghost use Rattle.arc_table.specs.Seats.{heap_id, shape_of, part_id, part_view, pass_id, view_of};

use crate::asks::Asks;
use crate::heap::{Heap, Part, Pass};
use crate::tokens::{Any, Strong, Swapped};
use arc_cells::{Swap, SwapAnswer};
use std::marker::Brand;
use std::snapshot::Snapshot;

/// The word of a reference in a cell.
fn word_of(put: &Any) -> u64
    ensures { result ≡ word_of put.now }
{
    match put {
        Any::Nil => 0,
        Any::Strong(held) => u64::from(held.slot) + 2,
    }
}

/// What was put into a cell is no hand of the pass any more.
fn spend(put: Any) {
    match put {
        Any::Nil => {}
        Any::Strong(held) => {
            let Strong { slot: _, at: _ } = held;
        }
    }
}

/// What a word leads to, as the last hand that the pass got.
fn token_of(word: u64, part: &Part) -> Any
    requires { word ≢ 0 → (s : ℕ) × (word ≡ s + 2) × (s < 2 ^ 32) }
    ensures { IsTokenOf word (part_view part.now) result }
{
    if word == 0 {
        return Any::Nil;
    }
    let at = Snapshot::of(&part.seat);
    let slot = (word - 2) as u32;
    Any::Strong(Strong { slot, at })
}

impl Heap {
    fn exchange_global<J: Asks>(&self, part: &mut Part, global: u32, put: &Any) -> SwapAnswer
        requires own { part_id part.old ≡ heap_id self.now }
        requires asks { (J.intent ≡ swap_intent (Global global) (hand_in put.now)) × (J.shape ≡ shape_of self.now) }
        requires strong { HoldsStrong (shape_of self.now) global }
        requires put { MayPut (shape_of self.now) global (part_view part.old) put.now }
        requires free { IsFree (part_view part.old) }
        ensures called { IsCall (shape_of self.now) (exchanged_act global (hand_in put.now) (part_view part.old) result) 2 part.old part.new }
        ensures exchanged { IsExchanged (shape_of self.now) global (part_view part.old) (part_view part.new) result }
    {
        let place = self.layout.global_of(global);
        let plan = Swap::start(&self.layout, place, word_of(put));
        self.run_as::<J, Swap>(part, plan)
    }

    /// A strong reference goes into a global, or nil, and what was there comes to the pass: so two threads come to share an object. The
    /// global is one of the shape that holds strong references, and the reference is to an object of the class that the shape names for
    /// it. No count changes. At most two steps; it takes no memory and waits for nobody. `Busy` where the word that was read says that an
    /// access to the global is under way, `Again` where the word has changed between two reads of this call: then nothing went in, and
    /// `put` is given back. That a variable's old value comes out as its new one goes in is by The Swift Programming Language; that it
    /// is one atomic exchange is this project's own.
    pub fn swap(&self, pass: &mut Pass, global: u32, put: Any) -> Swapped
        requires own { pass_id pass.old ≡ heap_id self.now }
        requires strong { HoldsStrong (shape_of self.now) global }
        requires put { MayPut (shape_of self.now) global (view_of pass.old) put }
        requires free { IsFree (view_of pass.old) }
        ensures called { IsCall (shape_of self.now) (swap_act global put result) 2 pass.old.part pass.new.part }
        ensures swapped { IsSwapped (shape_of self.now) global put (view_of pass.old) (view_of pass.new) result }
        ensures has { StillHas (swap_act global put result) (view_of pass.old) (view_of pass.new) }
    {
        match self.exchange_global::<Brand>(&mut pass.part, global, &put) {
            SwapAnswer::Took(word) => {
                spend(put);
                Swapped::Ok(token_of(word, &pass.part))
            }
            SwapAnswer::Busy => Swapped::Busy(put),
            SwapAnswer::Again(changed) => Swapped::Again(put, changed),
        }
    }
}
