//! The steps of `copy`, `unown` and `load`: a reference comes into a variable from one in another variable. For `get` it comes from one in
//! a cell, while an access to the cell is under way.

ghost use Rattle.std.specs.Prelude.{◌≡◌, ◌<◌, length, Some, None};
ghost use Rattle.arc_plan.specs.Slots.{name_of_takes, name_of_answer, one_turned};
ghost use Rattle.arc_side.specs.Ups.{up_takes, up_turned, up_answer};
ghost use Rattle.arc_ops.specs.Thread.{Thread, asking};
ghost use Rattle.arc_ops.specs.Plans.{of_hand, hand_of, list_of, intent_of, act_of, gain_begun, name_begun};
ghost use Rattle.arc_ops.specs.Gains.{has_gained, gained_on, named_on, found_dead, came_by, gained};
ghost use Rattle.arc_ops.specs.Takes.{IsGainAnswer};
ghost use Rattle.arc_ops.specs.Steppers.{IsHeld, IsSource, FewBefore};
ghost use Rattle.arc_ops.specs.declared.stepper.Doing.TheVariants.{Gaining, Ended};

use crate::stepper::{Doing, Held, Stepper};
use arc_model::{Act, Got, Kind, Origin};
use arc_plan::NameOf;
use arc_rule::{Intent, Next, Plan, Step};
use arc_script::Answer;
use arc_side::{Up, UpAnswer};

/// How a reference is gained from one that a variable or a cell holds.
#[derive(Clone, Copy, Debug, PartialEq, Eq)]
pub(crate) enum Gain {
    /// One of the same kind.
    Copy,
    /// An unowned one, by a strong one.
    Unown,
    /// A strong one, by an unowned one, where the object is live.
    Load,
}

/// Where a gain takes from: a hand of the thread or a cell, with the kind of the reference there and the slot of its object.
#[derive(Clone, Copy, Debug, PartialEq, Eq)]
pub(crate) struct Source {
    pub origin: Origin,
    pub kind: Kind,
    pub place: u32,
}

impl Source {
    pub(crate) fn of(held: Held) -> Source
        ensures { result ≡ of_hand held }
    {
        Source {
            origin: Origin::Hand(held.hand),
            kind: held.kind,
            place: held.place,
        }
    }

    fn hand(self) -> u32
        ensures { result ≡ hand_of self.origin }
    {
        match self.origin {
            Origin::Hand(hand) => hand,
            Origin::Cell(_) => 0,
        }
    }
}

impl Gain {
    /// The list of the object that grows, which is the kind of the new reference.
    fn list(self, from: Source) -> Kind
        ensures { result ≡ list_of self from }
    {
        match self {
            Gain::Copy => from.kind,
            Gain::Unown => Kind::Unowned,
            Gain::Load => Kind::Strong,
        }
    }

    fn intent(self, from: Source) -> Intent
        ensures { result ≡ intent_of self from }
    {
        match self {
            Gain::Copy => Intent::Copy { from: from.origin },
            Gain::Unown => Intent::UnownedOf { of: from.hand() },
            Gain::Load => Intent::Load { of: from.hand() },
        }
    }

    /// What it does where the reference comes into this hand.
    fn act(self, from: Source, hand: u32) -> Act
        ensures { result ≡ act_of self from hand }
    {
        match self {
            Gain::Copy => Act::Copy {
                from: from.origin,
                hand,
            },
            Gain::Unown => Act::UnownedOf {
                of: from.hand(),
                hand,
            },
            Gain::Load => Act::Load {
                of: from.hand(),
                got: Got::Hand(hand),
            },
        }
    }
}

impl<'a> Stepper<'a> {
    pub(crate) fn begin_gain(&mut self, gain: Gain, to: u32, from: Source)
        requires at { self.old.index < length self.old.program }
        requires few { FewBefore self.old }
        requires to { to < length self.old.vars }
        requires from { IsSource self.old.layout from }
        ensures { self.new ≡ gain_begun gain to from self.old }
    {
        let mut plan = Up::start(&self.layout, from.place, gain.list(from), self.shape.caps());
        match plan.next(None) {
            Next::Step(step) => self.ask_gain(gain, to, from, plan, step),
            Next::Done(_) => unreachable!(),
        }
    }

    fn ask_gain(&mut self, gain: Gain, to: u32, from: Source, plan: Up, step: Step)
        requires at { self.old.index < length self.old.program }
        requires few { FewBefore self.old }
        requires to { to < length self.old.vars }
        requires from { IsSource self.old.layout from }
        ensures { self.new ≡ asking (Gaining gain to from plan) step (intent_of gain from) self.old }
    {
        let doing = Doing::Gaining {
            gain,
            to,
            from,
            plan,
        };
        self.ask(doing, step, gain.intent(from));
    }

    pub(crate) fn gain_on(
        &mut self,
        gain: Gain,
        to: u32,
        from: Source,
        mut plan: Up,
        last: Option<u64>,
    )
        requires takes { up_takes plan last }
        requires answer { IsGainAnswer gain (up_answer plan last) }
        requires idle { self.old.doing ≡ Ended }
        requires at { self.old.index < length self.old.program }
        requires few { FewBefore self.old }
        requires to { to < length self.old.vars }
        requires from { IsSource self.old.layout from }
        ensures { self.new ≡ gained_on gain to from (up_turned plan last) (up_answer plan last) self.old }
    {
        match plan.next(last) {
            Next::Step(step) => self.ask_gain(gain, to, from, plan, step),
            Next::Done(UpAnswer::Up) => self.has_gained(gain, to, from),
            Next::Done(UpAnswer::Dead) => self.find_dead(to, from),
            Next::Done(UpAnswer::Again(_)) => self.begin_gain(gain, to, from),
            Next::Done(_) => unreachable!(),
        }
    }

    /// The reference has come into the thread's hands. Before the line a load reads the object's name, and the access ends to a cell
    /// that was copied.
    fn has_gained(&mut self, gain: Gain, to: u32, from: Source)
        requires idle { self.old.doing ≡ Ended }
        requires at { self.old.index < length self.old.program }
        requires few { FewBefore self.old }
        requires to { to < length self.old.vars }
        requires from { IsSource self.old.layout from }
        ensures { self.new ≡ has_gained gain from.origin to (gained gain from self.old) (came_by gain from self.old) }
    {
        self.hands += 1;
        let hand = self.hands;
        self.event = Some(gain.act(from, hand));
        let held = Held {
            hand,
            kind: gain.list(from),
            place: from.place,
        };
        match (gain, from.origin) {
            (Gain::Load, _) => self.begin_name(to, held),
            (_, Origin::Cell(cell)) => self.begin_close(to, cell, held),
            _ => {
                self.put(Answer::Ok);
                self.replace(to, Some(held));
            }
        }
    }

    /// The object's deinit has begun: the variable becomes nil.
    fn find_dead(&mut self, to: u32, from: Source)
        requires { to < length self.old.vars }
        ensures { self.new ≡ found_dead to from self.old }
    {
        self.event = Some(Act::Load {
            of: from.hand(),
            got: Got::Dead,
        });
        self.put(Answer::Dead);
        self.replace(to, None);
    }

    fn begin_name(&mut self, to: u32, held: Held)
        requires at { self.old.index < length self.old.program }
        requires to { to < length self.old.vars }
        requires held { IsHeld self.old.layout.slots held }
        ensures { self.new ≡ name_begun to held self.old }
    {
        let mut plan = NameOf::start(&self.layout, held.place);
        match plan.next(None) {
            Next::Step(step) => self.ask(Doing::Naming { to, held, plan }, step, Intent::Look),
            Next::Done(_) => unreachable!(),
        }
    }

    pub(crate) fn name_on(&mut self, to: u32, held: Held, mut plan: NameOf, last: Option<u64>)
        requires at { self.old.index < length self.old.program }
        requires to { to < length self.old.vars }
        requires held { IsHeld self.old.layout.slots held }
        requires takes { name_of_takes plan last }
        ensures { self.new ≡ named_on to held (one_turned plan last) (name_of_answer plan last) self.old }
    {
        match plan.next(last) {
            Next::Step(step) => self.ask(Doing::Naming { to, held, plan }, step, Intent::Look),
            Next::Done(name) => {
                self.put(Answer::Got(name));
                self.replace(to, Some(held));
            }
        }
    }
}
