//! The steps of `get`: the reference in a cell is copied while an access to the cell is under way.

ghost use Rattle.std.specs.Prelude.{◌≡◌, ◌<◌, ◌≤◌, length};
ghost use Rattle.arc_rule.specs.Places.{IsPlace};
ghost use Rattle.arc_cells.specs.Begins.{begin_takes, begin_turned, begin_answer};
ghost use Rattle.arc_cells.specs.Ends.{end_takes, end_turned, end_answer};
ghost use Rattle.arc_ops.specs.Thread.{Thread};
ghost use Rattle.arc_ops.specs.Cells.{place_in, open_begun, close_begun};
ghost use Rattle.arc_ops.specs.Gets.{opened_on, closed_on};
ghost use Rattle.arc_ops.specs.Steppers.{IsHeld, IsCell, FewBefore, OpeningGoesOn};

use crate::cell::{Cell, cell_number, word_of};
use crate::gain::Gain;
use crate::stepper::{Doing, Held, Stepper};
use arc_cells::{Begin, BeginAnswer, End};
use arc_model::{Act, CellName};
use arc_rule::{Intent, Next, Plan};
use arc_script::Answer;

impl<'a> Stepper<'a> {
    /// An access to the cell begins, to copy its reference.
    pub(crate) fn begin_open(&mut self, to: u32, cell: Cell)
        requires at { self.old.index < length self.old.program }
        requires few { FewBefore self.old }
        requires to { to < length self.old.vars }
        requires cell { IsCell self.old.layout cell }
        ensures { self.new ≡ open_begun to cell self.old }
    {
        let place = cell_number(&self.layout, cell.name);
        let mut plan = Begin::start(&self.layout, place);
        match plan.next(None) {
            Next::Step(step) => {
                let intent = Intent::Access { cell: cell.name };
                self.ask(Doing::Opening { to, cell, plan }, step, intent);
            }
            Next::Done(_) => unreachable!(),
        }
    }

    pub(crate) fn open_on(&mut self, to: u32, cell: Cell, mut plan: Begin, last: Option<u64>)
        requires at { self.old.index < length self.old.program }
        requires few { FewBefore self.old }
        requires to { to < length self.old.vars }
        requires cell { IsCell self.old.layout cell }
        requires slots { self.old.layout.slots ≤ 4096 }
        requires takes { begin_takes plan last }
        requires goes_on { OpeningGoesOn self.old.layout.slots (begin_turned plan last).at (begin_answer plan last) }
        ensures { self.new ≡ opened_on to cell (begin_turned plan last) (begin_answer plan last) self.old }
    {
        match plan.next(last) {
            Next::Step(step) => {
                let intent = Intent::Access { cell: cell.name };
                self.ask(Doing::Opening { to, cell, plan }, step, intent);
            }
            Next::Done(BeginAnswer::Held(word)) => {
                let source = cell.source(word);
                self.begin_gain(Gain::Copy, to, source);
            }
            Next::Done(BeginAnswer::Nil) => {
                self.event = Some(Act::Look { cell: cell.name });
                self.put(Answer::Nil);
                self.replace(to, None);
            }
            Next::Done(_) => self.begin_open(to, cell),
        }
    }

    /// The cell's reference was copied: the access to the cell ends.
    pub(crate) fn begin_close(&mut self, to: u32, cell: CellName, held: Held)
        requires at { self.old.index < length self.old.program }
        requires to { to < length self.old.vars }
        requires cell { IsPlace self.old.layout (place_in cell) }
        requires held { IsHeld self.old.layout.slots held }
        ensures { self.new ≡ close_begun to cell held self.old }
    {
        let place = cell_number(&self.layout, cell);
        let mut plan = End::start(&self.layout, place, word_of(Some(held)));
        match plan.next(None) {
            Next::Step(step) => {
                let doing = Doing::Closing {
                    to,
                    cell,
                    held,
                    plan,
                };
                self.ask(doing, step, Intent::Access { cell });
            }
            Next::Done(()) => unreachable!(),
        }
    }

    pub(crate) fn close_on(
        &mut self,
        to: u32,
        cell: CellName,
        held: Held,
        mut plan: End,
        last: Option<u64>,
    )
        requires at { self.old.index < length self.old.program }
        requires to { to < length self.old.vars }
        requires held { IsHeld self.old.layout.slots held }
        requires takes { end_takes plan last }
        ensures { self.new ≡ closed_on to cell held (end_turned plan last) (end_answer plan last) self.old }
    {
        match plan.next(last) {
            Next::Step(step) => {
                let doing = Doing::Closing {
                    to,
                    cell,
                    held,
                    plan,
                };
                self.ask(doing, step, Intent::Access { cell });
            }
            Next::Done(()) => {
                self.put(Answer::Ok);
                self.replace(to, Some(held));
            }
        }
    }
}
