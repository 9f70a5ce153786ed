//! The end of a slot, once no unowned reference holds its object there.

ghost use Rattle.std.specs.Prelude.{◌≡◌, ◌<◌, IfSome};
ghost use Rattle.arc_rule.specs.Places.{IsPlace};
ghost use Rattle.arc_rule.specs.declared.layout.Place.TheVariants.{Count, Link};
ghost use Rattle.arc_side.specs.SlotEnds.{slot_end_from, slot_end_takes, slot_end_turn, vacates, gives_back, leaves_entry, is_vacated, left_on};

use crate::entry_down::{EntryDown, EntryDownAnswer};
use crate::give_back::GiveBack;
use arc_model::{Act, Kind};
use arc_plan::Vacate;
use arc_rule::{Intent, Layout, Next, Plan, Step};
use std::marker::Model;
use std::mem;

/// Where the end of a slot is.
#[derive(Debug, Drop)]
enum At {
    Start,
    /// The slot's bit is being cleared.
    Vacating,
    /// The object's own weak holder leaves this entry.
    Leaving(u32, EntryDown),
    /// This entry's bit is being cleared.
    Returning(u32),
    Ended,
}

/// What the end of a slot asks for: a step, with what it is made for; or that it is over.
#[derive(Clone, Copy, Debug, PartialEq, Eq)]
pub enum SlotEndNext {
    Step(Step, Intent),
    Done,
}

/// The end of a slot, after the last unowned reference to its object: the slot is vacated, and where the object has an entry its own
/// weak holder leaves that, after the last of all the entry is given back. RefCount.h; that it is made in single steps is this
/// project's own.
#[derive(Debug, Drop)]
pub struct SlotEnd {
    layout: Layout,
    slot: u32,
    entry: Option<u32>,
    at: At,
    event: Option<Act>,
}

impl Model for SlotEnd {
    ghost use Rattle.arc_side.specs.SlotEnds.{SlotEnding, IsSlotEnd};

    ghost Value = { SlotEnding };

    ghost view = { λ p. record { layout = p.layout; slot = p.slot; entry = p.entry; at = p.at; event = p.event } };

    ghost invariant = { λ p. IsSlotEnd p.layout p.slot p.entry p.at };
}

impl SlotEnd {
    /// Of the slot, whose object has this entry, or none.
    pub fn start(layout: &Layout, slot: u32, entry: Option<u32>) -> SlotEnd
        requires slot { IsPlace layout.now (Count slot) }
        requires entry { IfSome entry (λ e. IsPlace layout.now (Link e)) }
        ensures { result ≡ slot_end_from layout.now slot entry }
    {
        SlotEnd {
            layout: *layout,
            slot,
            entry,
            at: At::Start,
            event: None,
        }
    }

    /// Takes what the last step gave back, or None at first, and says what comes next. It isn't called after Done, and takes no
    /// memory.
    pub fn next(&mut self, last: Option<u64>) -> SlotEndNext
        requires { slot_end_takes self.old last }
        ensures turned { self.new ≡ (slot_end_turn self.old last).after }
        ensures answer { result ≡ (slot_end_turn self.old last).says }
    {
        self.event = None;
        let at = mem::replace(&mut self.at, At::Ended);
        match at {
            At::Start => {
                self.at = At::Vacating;
                SlotEndNext::Step(vacates(&self.layout, self.slot), Intent::Vacate)
            }
            At::Vacating => self.vacated(),
            At::Leaving(entry, mut plan) => {
                let next = plan.next(last);
                self.leave(entry, plan, next)
            }
            At::Returning(entry) => {
                self.event = Some(Act::Back { entry });
                SlotEndNext::Done
            }
            At::Ended => unreachable!(),
        }
    }

    /// The event of the step whose word was given last.
    pub fn event(&self) -> Option<Act>
        ensures { result ≡ self.now.event }
    {
        self.event
    }

    fn vacated(&mut self) -> SlotEndNext
        ensures turned { self.new ≡ (is_vacated self.old self.old.entry).after }
        ensures answer { result ≡ (is_vacated self.old self.old.entry).says }
    {
        self.event = Some(Act::Vacate { slot: self.slot });
        match self.entry {
            None => {
                self.at = At::Ended;
                SlotEndNext::Done
            }
            Some(entry) => self.begin_to_leave(entry),
        }
    }

    fn begin_to_leave(&mut self, entry: u32) -> SlotEndNext
        requires { entry < self.old.layout.entries }
        ensures turned { self.new ≡ (leaves_entry self.old entry).after }
        ensures answer { result ≡ (leaves_entry self.old entry).says }
    {
        let mut plan = EntryDown::start(&self.layout, entry, Kind::Weak);
        match plan.next(None) {
            Next::Step(step) => {
                self.at = At::Leaving(entry, plan);
                SlotEndNext::Step(step, Intent::Gone)
            }
            Next::Done(_) => unreachable!(),
        }
    }

    fn leave(&mut self, entry: u32, plan: EntryDown, next: Next<EntryDownAnswer>) -> SlotEndNext
        requires { entry < self.old.layout.entries }
        ensures turned { self.new ≡ (left_on self.old entry plan next).after }
        ensures answer { result ≡ (left_on self.old entry plan next).says }
    {
        match next {
            Next::Step(step) => {
                self.at = At::Leaving(entry, plan);
                SlotEndNext::Step(step, Intent::Gone)
            }
            Next::Done(EntryDownAnswer::More) => {
                self.event = Some(Act::Gone { entry, last: false });
                self.at = At::Ended;
                SlotEndNext::Done
            }
            Next::Done(EntryDownAnswer::Last) => {
                self.event = Some(Act::Gone { entry, last: true });
                self.at = At::Returning(entry);
                SlotEndNext::Step(gives_back(&self.layout, entry), Intent::Back)
            }
            Next::Done(EntryDownAnswer::Again(_)) => self.begin_to_leave(entry),
        }
    }
}

fn vacates(layout: &Layout, slot: u32) -> Step
    requires { IsPlace layout.now (Count slot) }
    ensures { result ≡ vacates layout.now slot }
{
    match Vacate::start(layout, slot).next(None) {
        Next::Step(step) => step,
        Next::Done(()) => unreachable!(),
    }
}

/// The one step by which an entry is given back.
pub fn gives_back(layout: &Layout, entry: u32) -> Step
    requires { IsPlace layout.now (Link entry) }
    ensures { result ≡ gives_back layout.now entry }
{
    match GiveBack::start(layout, entry).next(None) {
        Next::Step(step) => step,
        Next::Done(()) => unreachable!(),
    }
}
