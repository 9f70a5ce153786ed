//! How a plan runs on the shared heap: each step that it asks for is one atomic step.
ghost use Rattle.std.specs.Prelude.{◌≡◌, Option, None};
ghost use Rattle.arc_view.specs.Admission.{Admits};
ghost use Rattle.arc_view.specs.Steps.{Told};
ghost use Rattle.arc_table.specs.Runs.{MayRun, Ran, Walked};
ghost use Rattle.arc_table.specs.Seats.{heap_id, shape_of, part_id, part_view};

use crate::asks::Asks;
use crate::heap::{Heap, Part};
use arc_rule::{Next, Plan, Step};

impl Heap {
    #[inline(always)]
    fn step_as<J: Asks>(&self, part: &mut Part, step: Step) -> u64
        requires own { part_id part.old ≡ heap_id self.now }
        requires asks { J.shape ≡ shape_of self.now }
        requires kind { Admits (shape_of self.now) (part_view part.old) step J.intent }
        ensures same { part_id part.new ≡ part_id part.old }
        ensures told { Told (shape_of self.now) J.intent step (part_view part.old) result (part_view part.new) }
    {
        match step {
            Step::Load { place } => self.load_as::<J>(part, place),
            Step::Exchange { place, old, new } => self.exchange_as::<J>(part, place, old, new),
            Step::Store { place, new } => {
                self.store_as::<J>(part, place, new);
                0
            }
            Step::Or { place, bits } => self.or_as::<J>(part, place, bits),
            Step::And { place, bits } => self.and_as::<J>(part, place, bits),
        }
    }

    /// Goes on with a plan, which is given `last`, to its answer. The pass admits each step that it asks for, whatever they find.
    #[inline(always)]
    pub(crate) fn run_on<J: Asks, P: Plan + Drop>(
        &self,
        part: &mut Part,
        plan: P,
        last: Option<u64>,
    ) -> P::Answer
        requires own { part_id part.old ≡ heap_id self.now }
        requires asks { J.shape ≡ shape_of self.now }
        requires may { MayRun P.takes P.turned P.answer (shape_of self.now) J.intent plan last (part_view part.old) }
        ensures same { part_id part.new ≡ part_id part.old }
        ensures walked { Walked (part_view part.old) (part_view part.new) }
        ensures ran { Ran P.turned P.answer (shape_of self.now) J.intent plan last (part_view part.old) result (part_view part.new) }
    {
        let mut plan = plan;
        let mut last = last;
        loop {
            match plan.next(last) {
                Next::Step(step) => last = Some(self.step_as::<J>(part, step)),
                Next::Done(answer) => return answer,
            }
        }
    }

    /// Makes the steps of a plan, which the pass admits whatever they find, to its answer. It takes no memory and waits for nobody.
    /// The first two steps stand apart from the loop, so that a short plan is compiled without one.
    #[inline(always)]
    pub(crate) fn run_as<J: Asks, P: Plan + Drop>(&self, part: &mut Part, plan: P) -> P::Answer
        requires own { part_id part.old ≡ heap_id self.now }
        requires asks { J.shape ≡ shape_of self.now }
        requires may { MayRun P.takes P.turned P.answer (shape_of self.now) J.intent plan None (part_view part.old) }
        ensures same { part_id part.new ≡ part_id part.old }
        ensures walked { Walked (part_view part.old) (part_view part.new) }
        ensures ran { Ran P.turned P.answer (shape_of self.now) J.intent plan None (part_view part.old) result (part_view part.new) }
    {
        let mut plan = plan;
        let first = match plan.next(None) {
            Next::Step(step) => self.step_as::<J>(part, step),
            Next::Done(answer) => return answer,
        };
        let second = match plan.next(Some(first)) {
            Next::Step(step) => self.step_as::<J>(part, step),
            Next::Done(answer) => return answer,
        };
        self.run_on::<J, P>(part, plan, Some(second))
    }
}
