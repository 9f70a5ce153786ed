//! The steps of a drop: a reference goes, with the last strong one its object is deinited, and with the last unowned one the slot ends.

ghost use Rattle.std.specs.Prelude.{◌≡◌, ◌<◌, length, Some};
ghost use Rattle.arc_rule.specs.declared.step.Intent.TheVariants as intents;
ghost use Rattle.arc_plan.specs.Slots.{one_turned, vacate_takes, vacate_answer};
ghost use Rattle.arc_side.specs.Downs.{down_takes, down_turned, down_answer};
ghost use Rattle.arc_ops.specs.Thread.{Thread, asking};
ghost use Rattle.arc_ops.specs.Plans.{drop_begun, vacate_begun};
ghost use Rattle.arc_ops.specs.Drops.{replaced, dropped_on, last_gone, dies, deinit_tells, dying_on, vacated_on};
ghost use Rattle.arc_ops.specs.Takes.{DiesAt, HasHandLeft};
ghost use Rattle.arc_ops.specs.Steppers.{IsHeld, HeldFits};
ghost use Rattle.arc_ops.specs.declared.stepper.Doing.TheVariants.{Dropping, Ended};

use crate::stepper::{Doing, Held, Stepper};
use arc_cells::{Cascade, CascadeNext};
use arc_model::{Act, Kind};
use arc_plan::Vacate;
use arc_rule::{Intent, Next, Plan, Step};
use arc_script::Answer;
use arc_side::{Down, DownAnswer};

impl<'a> Stepper<'a> {
    /// The variable has its new value, and what it held before is dropped last.
    pub(crate) fn replace(&mut self, to: u32, new: Option<Held>)
        requires to { to < length self.old.vars }
        requires new { HeldFits self.old.layout.slots new }
        ensures { self.new ≡ replaced to new self.old }
    {
        let old = self.vars[to as usize];
        self.vars[to as usize] = new;
        match old {
            None => self.next_op(),
            Some(old) => self.begin_drop(old),
        }
    }

    pub(crate) fn begin_drop(&mut self, held: Held)
        requires { IsHeld self.old.layout.slots held }
        ensures { self.new ≡ drop_begun held self.old }
    {
        let mut plan = Down::start(&self.layout, held.place, held.kind);
        match plan.next(None) {
            Next::Step(step) => self.ask_drop(held, plan, step),
            Next::Done(_) => unreachable!(),
        }
    }

    fn ask_drop(&mut self, held: Held, plan: Down, step: Step)
        requires { IsHeld self.old.layout.slots held }
        ensures { self.new ≡ asking (Dropping held plan) step (intents.Drop held.hand) self.old }
    {
        let intent = Intent::Drop { hand: held.hand };
        self.ask(Doing::Dropping { held, plan }, step, intent);
    }

    pub(crate) fn drop_on(&mut self, held: Held, mut plan: Down, last: Option<u64>)
        requires held { IsHeld self.old.layout.slots held }
        requires takes { down_takes plan last }
        ensures { self.new ≡ dropped_on held (down_turned plan last) (down_answer plan last) self.old }
    {
        match plan.next(last) {
            Next::Step(step) => self.ask_drop(held, plan, step),
            Next::Done(DownAnswer::More(_)) => {
                self.event = Some(Act::Drop {
                    hand: held.hand,
                    last: false,
                });
                self.next_op();
            }
            Next::Done(DownAnswer::Last(_)) => {
                self.event = Some(Act::Drop {
                    hand: held.hand,
                    last: true,
                });
                self.end_last(held.kind, held.place);
            }
            Next::Done(DownAnswer::Again(_)) => self.begin_drop(held),
        }
    }

    /// The last reference of its kind to the object in the slot is gone.
    fn end_last(&mut self, kind: Kind, slot: u32)
        requires { IsHeld self.old.layout.slots (record { hand = 0; kind = kind; place = slot }) }
        ensures { self.new ≡ last_gone kind slot self.old }
    {
        match kind {
            Kind::Strong => self.die(slot),
            Kind::Unowned => self.begin_vacate(slot),
            Kind::Weak => unreachable!(),
        }
    }

    fn die(&mut self, slot: u32)
        requires { slot < self.old.layout.slots }
        ensures { self.new ≡ dies slot self.old }
    {
        let mut cascade = Cascade::start_behind(&self.layout, self.shape, slot, self.hands);
        match cascade.next(None) {
            CascadeNext::Step(step, intent) => self.ask(Doing::Dying { cascade }, step, intent),
            _ => unreachable!(),
        }
    }

    pub(crate) fn die_on(&mut self, mut cascade: Cascade<'a>, next: CascadeNext)
        requires layout { cascade.layout ≡ self.old.layout }
        requires shape { cascade.shape ≡ self.old.shape }
        requires died { DiesAt cascade next }
        ensures { self.new ≡ dying_on cascade.entry next self.old }
    {
        match next {
            CascadeNext::Step(step, intent) => self.ask(Doing::Dying { cascade }, step, intent),
            CascadeNext::Died(name) => {
                self.put(Answer::Deinit(name));
                match cascade.next(None) {
                    CascadeNext::Step(step, intent) => self.ask(
                        Doing::Dying { cascade },
                        step,
                        intent,
                    ),
                    _ => unreachable!(),
                }
            }
            CascadeNext::Done => self.next_op(),
        }
    }

    /// The event of a deinit. A reference that was taken out of a field has come into the thread's hands.
    pub(crate) fn tell_deinit(&mut self, event: Option<Act>)
        requires idle { self.old.doing ≡ Ended }
        requires left { HasHandLeft self.old }
        ensures { self.new ≡ deinit_tells event self.old }
    {
        if matches!(event, Some(Act::Take { .. })) {
            self.hands += 1;
            self.taken += 1;
        }
        self.event = event;
    }

    fn begin_vacate(&mut self, slot: u32)
        requires { slot < self.old.layout.slots }
        ensures { self.new ≡ vacate_begun slot self.old }
    {
        let mut plan = Vacate::start(&self.layout, slot);
        match plan.next(None) {
            Next::Step(step) => self.ask(Doing::Vacating { slot, plan }, step, Intent::Vacate),
            Next::Done(()) => unreachable!(),
        }
    }

    pub(crate) fn vacate_on(&mut self, slot: u32, mut plan: Vacate, last: Option<u64>)
        requires takes { vacate_takes plan last }
        ensures { self.new ≡ vacated_on slot (one_turned plan last) (vacate_answer plan last) self.old }
    {
        match plan.next(last) {
            Next::Step(step) => self.ask(Doing::Vacating { slot, plan }, step, Intent::Vacate),
            Next::Done(()) => {
                self.event = Some(Act::Vacate { slot });
                self.next_op();
            }
        }
    }
}
