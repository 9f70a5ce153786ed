//! The end section: thread 0 clears the globals, one after the other.

ghost use Rattle.std.specs.Prelude.{◌≡◌, ◌<◌};
ghost use Rattle.arc_cells.specs.Swaps.{swap_takes, swap_turned, swap_answer};
ghost use Rattle.arc_ops.specs.Thread.{Thread};
ghost use Rattle.arc_ops.specs.Cells.{next_global, clear_begun};
ghost use Rattle.arc_ops.specs.Sets.{cleared, cleared_on};
ghost use Rattle.arc_ops.specs.Steppers.{HeldFits, SwappingGoesOn};
ghost use Rattle.arc_ops.specs.declared.stepper.Doing.TheVariants.{Ended};

use crate::cell::{Cell, cell_number};
use crate::stepper::{Doing, Held, Stepper};
use arc_cells::{Swap, SwapAnswer};
use arc_rule::{Intent, Next, Plan};

impl<'a> Stepper<'a> {
    fn next_global(&self) -> Cell
        ensures { result ≡ next_global self.now }
    {
        Cell::global(self.shape, self.cleared)
    }

    pub(crate) fn begin_clear(&mut self)
        requires left { self.old.cleared < self.old.layout.globals }
        ensures { self.new ≡ clear_begun self.old }
    {
        let place = cell_number(&self.layout, self.next_global().name);
        let mut plan = Swap::start(&self.layout, place, 0);
        match plan.next(None) {
            Next::Step(step) => {
                let cell = self.next_global().name;
                let intent = Intent::Swap { cell, put: None };
                self.ask(Doing::Clearing { plan }, step, intent);
            }
            Next::Done(_) => unreachable!(),
        }
    }

    pub(crate) fn clear_on(&mut self, mut plan: Swap, last: Option<u64>)
        requires idle { self.old.doing ≡ Ended }
        requires left { self.old.cleared < self.old.layout.globals }
        requires takes { swap_takes plan last }
        requires goes_on { SwappingGoesOn self.old.layout.slots (swap_turned plan last).at (swap_answer plan last) }
        ensures { self.new ≡ cleared_on (swap_turned plan last) (swap_answer plan last) self.old }
    {
        match plan.next(last) {
            Next::Step(step) => {
                let cell = self.next_global().name;
                let intent = Intent::Swap { cell, put: None };
                self.ask(Doing::Clearing { plan }, step, intent);
            }
            Next::Done(SwapAnswer::Took(word)) => {
                let cell = self.next_global();
                let there = cell.held(self.hands + 1, word);
                self.clear(cell, there);
            }
            Next::Done(_) => self.begin_clear(),
        }
    }

    /// The global is nil, and what it had is dropped.
    fn clear(&mut self, cell: Cell, there: Option<Held>)
        requires idle { self.old.doing ≡ Ended }
        requires left { self.old.cleared < self.old.layout.globals }
        requires there { HeldFits self.old.layout.slots there }
        ensures { self.new ≡ cleared cell there self.old }
    {
        self.cleared += 1;
        self.swap(cell.name, None, there);
        self.drop_last(there);
    }
}
