//! The deinit of an object after its last strong reference, and of the objects that die with it.

ghost use Rattle.std.specs.Prelude.{◌≡◌, ◌≤◌, ◌<◌, ◌+◌, ◌^◌, IfSome};
ghost use Rattle.arc_rule.specs.Places.{IsPlace, extent_of};
ghost use Rattle.arc_rule.specs.declared.layout.Place.TheVariants.{Count};
ghost use Rattle.arc_cells.specs.Chains.{IsParentIn};
ghost use Rattle.arc_side.specs.Lasts.{LastInEntry};
ghost use Rattle.arc_cells.specs.Cascades.{cascade_from, cascade_behind, cascade_takes, cascade_turned, cascade_answer, of_deinit, enters, climbs, finish_begins, finishes, has_finished, ends_on};

use crate::parent::{Parent, next_word, parent_in};
use crate::ref_drop::RefDrop;
use arc_model::{Act, Kind, ObjectName, Shape};
use arc_rule::{Intent, Layout, Next, Plan, Step, isa_name};
use arc_side::{Down, DownAnswer, SlotEnd, SlotEndNext};
use std::marker::Model;
use std::mem;

/// Where a cascade is.
#[derive(Debug, Drop)]
pub(crate) enum At {
    Start,
    /// It waits for the store of the next word.
    Entering,
    /// It waits for the isa word.
    Naming,
    Named(ObjectName),
    /// It waits for the word of this field of an object with this name.
    Looking(ObjectName, u32),
    /// It waits for the store of 0 in the field, which referred to this place.
    Taking(ObjectName, u32, u32),
    /// The reference that was in the field is dropped.
    Dropping(ObjectName, u32, RefDrop),
    /// It waits for the next word.
    Leaving,
    /// The unowned references lose the holder that stands for the strong ones.
    Finishing(Option<Parent>, Down),
    Ending(Option<Parent>, SlotEnd),
    /// It waits for the isa word of the object whose deinit goes on at this field.
    Resuming(u32),
    Ended,
}

/// What a cascade asks for or tells: a step, with what it is made for; that the object with this name is deinited; that all is over.
#[derive(Clone, Copy, Debug, PartialEq, Eq)]
pub enum CascadeNext {
    Step(Step, Intent),
    Died(ObjectName),
    Done,
}

/// The deinit of the object in a slot, once its last strong reference is gone, and of all objects that die with it. Which deinits wait
/// for which stands in the next words of the dying objects, so it takes no memory, whatever the depth. RefCount.h; that it is made in
/// single steps, one object after the other, is this project's own.
#[derive(Debug, Drop)]
pub struct Cascade<'a> {
    pub(crate) layout: Layout,
    pub(crate) shape: &'a Shape,
    /// The object that is being deinited.
    pub(crate) slot: u32,
    /// How many hands the thread had before.
    pub(crate) before: u32,
    pub(crate) taken: u32,
    pub(crate) at: At,
    pub(crate) event: Option<Act>,
}

impl<'a> Model for Cascade<'a> {
    ghost use Rattle.arc_cells.specs.Cascades.{CascadeState, IsCascade};

    ghost Value = { CascadeState };

    ghost view = { λ c. record { layout = c.layout; shape = c.shape.now; slot = c.slot; before = c.before; taken = c.taken; at = c.at; event = c.event } };

    ghost invariant = { λ c. IsCascade c.layout c.shape.now c.slot c.at };
}

impl<'a> Cascade<'a> {
    /// Of the object in this slot of a heap of this shape. The references that it takes out of fields are the hands 1, 2 and so on.
    pub fn start(layout: &Layout, shape: &'a Shape, slot: u32) -> Cascade<'a>
        requires layout { layout.now ≡ extent_of shape.now }
        requires slot { IsPlace layout.now (Count slot) }
        ensures { result ≡ cascade_from layout.now shape.now slot }
    {
        Cascade::start_behind(layout, shape, slot, 0)
    }

    /// The same, for a thread that has had `hands` hands: the references that it takes out of fields are the hands behind them.
    pub fn start_behind(layout: &Layout, shape: &'a Shape, slot: u32, hands: u32) -> Cascade<'a>
        requires layout { layout.now ≡ extent_of shape.now }
        requires slot { IsPlace layout.now (Count slot) }
        ensures { result ≡ cascade_behind layout.now shape.now slot hands }
    {
        Cascade {
            layout: *layout,
            shape,
            slot,
            before: hands,
            taken: 0,
            at: At::Start,
            event: None,
        }
    }

    /// Takes what the last step gave back, or None where no step was asked for, and says what comes next. It isn't called after
    /// Done, and takes no memory.
    pub fn next(&mut self, last: Option<u64>) -> CascadeNext
        requires { cascade_takes self.old last }
        ensures turned { self.new ≡ cascade_turned self.old last }
        ensures answer { result ≡ cascade_answer self.old last }
    {
        self.event = None;
        let word = last.unwrap_or(0);
        let at = mem::replace(&mut self.at, At::Ended);
        match at {
            At::Start => self.enter(None),
            At::Entering => {
                self.at = At::Naming;
                self.of_deinit(Step::Load {
                    place: self.layout.isa_of(self.slot),
                })
            }
            At::Naming => {
                let name = isa_name(word);
                self.at = At::Named(name);
                CascadeNext::Died(name)
            }
            At::Named(name) => self.look(name, 0),
            At::Looking(name, field) => self.looked(name, field, word),
            At::Taking(name, field, place) => self.take_out(name, field, place),
            At::Dropping(name, field, mut drop) => {
                let next = drop.next(last);
                self.event = drop.event();
                self.drop_on(name, field, drop, next)
            }
            At::Leaving => self.begin_finish(parent_in(word)),
            At::Finishing(parent, mut plan) => {
                let next = plan.next(last);
                self.finish(parent, plan, next)
            }
            At::Ending(parent, mut end) => {
                let next = end.next(last);
                self.event = end.event();
                self.end(parent, end, next)
            }
            At::Resuming(field) => self.look(isa_name(word), field),
            At::Ended => unreachable!(),
        }
    }

    /// The event of the step whose word was given last.
    pub fn event(&self) -> Option<Act>
        ensures { result ≡ self.now.event }
    {
        self.event
    }

    /// How many references were taken out of fields so far.
    pub fn hands(&self) -> u32
        ensures { result ≡ self.now.taken }
    {
        self.taken
    }

    pub(crate) fn of_deinit(&self, step: Step) -> CascadeNext
        ensures { result ≡ of_deinit self.now.slot step }
    {
        CascadeNext::Step(step, Intent::Deinit { slot: self.slot })
    }

    pub(crate) fn enter(&mut self, parent: Option<Parent>) -> CascadeNext
        requires { IsParentIn self.old.layout parent }
        ensures turned { self.new ≡ (enters self.old parent).after }
        ensures answer { result ≡ (enters self.old parent).says }
    {
        self.at = At::Entering;
        self.of_deinit(Step::Store {
            place: self.layout.next_of(self.slot),
            new: next_word(parent),
        })
    }

    fn climb(&mut self, parent: Option<Parent>) -> CascadeNext
        requires { IsParentIn self.old.layout parent }
        ensures turned { self.new ≡ (climbs self.old parent).after }
        ensures answer { result ≡ (climbs self.old parent).says }
    {
        match parent {
            None => {
                self.at = At::Ended;
                CascadeNext::Done
            }
            Some(p) => {
                self.slot = p.slot;
                self.at = At::Resuming(p.field);
                self.of_deinit(Step::Load {
                    place: self.layout.isa_of(p.slot),
                })
            }
        }
    }

    fn begin_finish(&mut self, parent: Option<Parent>) -> CascadeNext
        requires { IsParentIn self.old.layout parent }
        ensures turned { self.new ≡ (finish_begins self.old parent).after }
        ensures answer { result ≡ (finish_begins self.old parent).says }
    {
        let mut plan = Down::start(&self.layout, self.slot, Kind::Unowned);
        match plan.next(None) {
            Next::Step(step) => {
                self.at = At::Finishing(parent, plan);
                self.of_deinit(step)
            }
            Next::Done(_) => unreachable!(),
        }
    }

    fn has_finished(&mut self, last: bool)
        ensures { self.new ≡ has_finished self.old last }
    {
        self.event = Some(Act::Finish {
            slot: self.slot,
            last,
        });
    }

    fn finish(&mut self, parent: Option<Parent>, plan: Down, next: Next<DownAnswer>) -> CascadeNext
        requires parent { IsParentIn self.old.layout parent }
        requires plan { plan.layout ≡ self.old.layout }
        requires entry { LastInEntry self.old.layout next }
        ensures turned { self.new ≡ (finishes self.old parent plan next).after }
        ensures answer { result ≡ (finishes self.old parent plan next).says }
    {
        match next {
            Next::Step(step) => {
                self.at = At::Finishing(parent, plan);
                self.of_deinit(step)
            }
            Next::Done(DownAnswer::More(_)) => {
                self.has_finished(false);
                self.climb(parent)
            }
            Next::Done(DownAnswer::Last(entry)) => {
                self.has_finished(true);
                let mut end = SlotEnd::start(&self.layout, self.slot, entry);
                let next = end.next(None);
                self.end(parent, end, next)
            }
            Next::Done(DownAnswer::Again(_)) => self.begin_finish(parent),
        }
    }

    fn end(&mut self, parent: Option<Parent>, end: SlotEnd, next: SlotEndNext) -> CascadeNext
        requires { IsParentIn self.old.layout parent }
        ensures turned { self.new ≡ (ends_on self.old parent end next).after }
        ensures answer { result ≡ (ends_on self.old parent end next).says }
    {
        match next {
            SlotEndNext::Step(step, intent) => {
                self.at = At::Ending(parent, end);
                CascadeNext::Step(step, intent)
            }
            SlotEndNext::Done => self.climb(parent),
        }
    }
}
