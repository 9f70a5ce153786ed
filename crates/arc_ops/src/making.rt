//! The steps of `new`: an object is made for a variable.

ghost use Rattle.std.specs.Prelude.{◌≡◌, ◌<◌, length, IfSome};
ghost use Rattle.arc_rule.specs.Isa.{IsName};
ghost use Rattle.arc_ops.specs.Thread.{Thread};
ghost use Rattle.arc_ops.specs.Plans.{make_begun, make_begun_as};
ghost use Rattle.arc_ops.specs.Makes.{came_to, made_on};
ghost use Rattle.arc_ops.specs.Steppers.{FewBefore, MakingGoesOn};
ghost use Rattle.arc_ops.specs.declared.stepper.Doing.TheVariants.{Ended};

use crate::asking::is_immortal;
use crate::stepper::{Doing, Held, Stepper};
use arc_model::{Act, Kind, ObjectName};
use arc_plan::{NewObject, NewObjectAnswer};
use arc_rule::{Intent, Next, Plan};
use arc_script::Answer;

impl<'a> Stepper<'a> {
    pub(crate) fn begin_make(&mut self, to: u32, class: u32)
        requires at { self.old.index < length self.old.program }
        requires few { FewBefore self.old }
        requires to { to < length self.old.vars }
        requires class { class < 64 }
        ensures { self.new ≡ make_begun to class self.old }
    {
        let name = ObjectName {
            class,
            thread: self.thread,
            number: self.made + 1,
        };
        self.begin_make_as(to, name);
    }

    fn begin_make_as(&mut self, to: u32, name: ObjectName)
        requires at { self.old.index < length self.old.program }
        requires few { FewBefore self.old }
        requires to { to < length self.old.vars }
        requires name { IsName name }
        ensures { self.new ≡ make_begun_as to name self.old }
    {
        let class = name.class;
        let immortal = is_immortal(self.shape, class);
        let mut plan = NewObject::start(&self.layout, name, immortal);
        match plan.next(None) {
            Next::Step(step) => {
                self.ask(
                    Doing::Making { to, name, plan },
                    step,
                    Intent::New { class },
                )
            }
            Next::Done(_) => unreachable!(),
        }
    }

    pub(crate) fn make_on(
        &mut self,
        to: u32,
        name: ObjectName,
        plan: NewObject,
        next: Next<NewObjectAnswer>,
    )
        requires at { self.old.index < length self.old.program }
        requires to { to < length self.old.vars }
        requires layout { plan.layout ≡ self.old.layout }
        requires idle { self.old.doing ≡ Ended }
        requires goes_on { MakingGoesOn self.old name plan.at next }
        ensures { self.new ≡ made_on to name plan next self.old }
    {
        match next {
            Next::Step(step) => {
                self.came_to(name, plan.took());
                let class = name.class;
                self.ask(
                    Doing::Making { to, name, plan },
                    step,
                    Intent::New { class },
                );
            }
            Next::Done(answer) => match answer {
                NewObjectAnswer::Slot(place) => {
                    let held = Held {
                        hand: self.hands,
                        kind: Kind::Strong,
                        place,
                    };
                    self.put(Answer::New(name));
                    self.replace(to, Some(held));
                }
                NewObjectAnswer::NoSlot => {
                    self.event = Some(Act::Full);
                    self.put(Answer::Full);
                    self.next_op();
                }
                NewObjectAnswer::Again(_) => self.begin_make_as(to, name),
            },
        }
    }

    /// The step that took a slot has made the object.
    fn came_to(&mut self, name: ObjectName, took: Option<u32>)
        requires idle { self.old.doing ≡ Ended }
        requires few { IfSome took (λ slot. FewBefore self.old) }
        ensures { self.new ≡ came_to name took self.old }
    {
        if let Some(slot) = took {
            self.hands += 1;
            self.made += 1;
            self.event = Some(Act::New {
                hand: self.hands,
                class: name.class,
                slot,
            });
        }
    }
}
