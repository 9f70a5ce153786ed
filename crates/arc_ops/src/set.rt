//! The steps of `set`: the reference of a variable, or nil, goes into a cell, and what was there is dropped last.

ghost use Rattle.std.specs.Prelude.{◌≡◌, ◌<◌, ◌≤◌, ◌+◌, length};
ghost use Rattle.arc_cells.specs.Swaps.{swap_takes, swap_turned, swap_answer};
ghost use Rattle.arc_ops.specs.Thread.{Thread};
ghost use Rattle.arc_ops.specs.Cells.{swapped, set_begun};
ghost use Rattle.arc_ops.specs.Drops.{replaced_old};
ghost use Rattle.arc_ops.specs.Sets.{set_on, set_to};
ghost use Rattle.arc_ops.specs.Steppers.{HeldFits, IsCell, FewBefore, SwappingGoesOn};
ghost use Rattle.arc_ops.specs.declared.stepper.Doing.TheVariants.{Ended};

use crate::cell::{Cell, cell_number, hand_in, word_of};
use crate::stepper::{Doing, Held, Stepper};
use arc_cells::{Swap, SwapAnswer};
use arc_model::{Act, CellName};
use arc_rule::{Intent, Next, Plan};
use arc_script::Answer;

impl<'a> Stepper<'a> {
    pub(crate) fn begin_set(&mut self, from: u32, cell: Cell)
        requires at { self.old.index < length self.old.program }
        requires few { FewBefore self.old }
        requires from { from < length self.old.vars }
        requires cell { IsCell self.old.layout cell }
        ensures { self.new ≡ set_begun from cell self.old }
    {
        let place = cell_number(&self.layout, cell.name);
        let mut plan = Swap::start(&self.layout, place, word_of(self.vars[from as usize]));
        match plan.next(None) {
            Next::Step(step) => {
                let put = hand_in(self.vars[from as usize]);
                let intent = Intent::Swap {
                    cell: cell.name,
                    put,
                };
                self.ask(Doing::Setting { from, cell, plan }, step, intent);
            }
            Next::Done(_) => unreachable!(),
        }
    }

    pub(crate) fn set_on(&mut self, from: u32, cell: Cell, mut plan: Swap, last: Option<u64>)
        requires idle { self.old.doing ≡ Ended }
        requires at { self.old.index < length self.old.program }
        requires few { FewBefore self.old }
        requires from { from < length self.old.vars }
        requires cell { IsCell self.old.layout cell }
        requires takes { swap_takes plan last }
        requires goes_on { SwappingGoesOn self.old.layout.slots (swap_turned plan last).at (swap_answer plan last) }
        ensures { self.new ≡ set_on from cell (swap_turned plan last) (swap_answer plan last) self.old }
    {
        match plan.next(last) {
            Next::Step(step) => {
                let put = hand_in(self.vars[from as usize]);
                let intent = Intent::Swap {
                    cell: cell.name,
                    put,
                };
                self.ask(Doing::Setting { from, cell, plan }, step, intent);
            }
            Next::Done(SwapAnswer::Took(word)) => {
                let there = cell.held(self.hands + 1, word);
                self.set_to(from, cell, there);
            }
            Next::Done(_) => self.begin_set(from, cell),
        }
    }

    /// The cell has the variable's reference. The variable becomes nil, and what the cell had is dropped.
    fn set_to(&mut self, from: u32, cell: Cell, there: Option<Held>)
        requires idle { self.old.doing ≡ Ended }
        requires few { FewBefore self.old }
        requires from { from < length self.old.vars }
        requires there { HeldFits self.old.layout.slots there }
        ensures { self.new ≡ set_to from cell there self.old }
    {
        let put = hand_in(self.vars[from as usize]);
        self.swap(cell.name, put, there);
        self.vars[from as usize] = None;
        self.put(Answer::Ok);
        self.drop_last(there);
    }

    /// A reference, or nil, was put into the cell, and what was there has come into the thread's hands.
    pub(crate) fn swap(&mut self, cell: CellName, put: Option<u32>, there: Option<Held>)
        requires idle { self.old.doing ≡ Ended }
        requires few { self.old.hands ≤ self.old.index + self.old.cleared + self.old.taken }
        ensures { self.new ≡ swapped cell put there self.old }
    {
        let took = hand_in(there);
        if took.is_some() {
            self.hands += 1;
        }
        self.event = Some(Act::Swap { cell, put, took });
    }

    /// What the cell had is dropped, where it had a reference.
    pub(crate) fn drop_last(&mut self, there: Option<Held>)
        requires { HeldFits self.old.layout.slots there }
        ensures { self.new ≡ replaced_old there self.old }
    {
        match there {
            None => self.next_op(),
            Some(held) => self.begin_drop(held),
        }
    }
}
