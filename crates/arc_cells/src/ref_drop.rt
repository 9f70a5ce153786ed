//! The drop of a reference of any kind that a hand has.

ghost use Rattle.std.specs.Prelude.{◌≡◌, ◌≢◌, ◌<◌, IfSome};
ghost use Rattle.arc_model.specs.declared.shape.Kind.TheVariants.{Strong, Unowned, Weak};
ghost use Rattle.arc_cells.specs.Drops.{IsPlaceOf, DiesInSlot, drop_from, drop_takes, drop_turn, drop_begins, counts_down, counts_down_weak, has_emptied, ended_on, slot_ends, has_dropped, counted_on, entry_counted_on};
ghost use Rattle.arc_side.specs.Lasts.{LastInEntry};

use arc_model::{Act, Kind};
use arc_rule::{Intent, Layout, Next, Plan, Step};
use arc_side::{Down, DownAnswer, EntryDown, EntryDownAnswer, SlotEnd, SlotEndNext, gives_back};
use std::marker::Model;
use std::mem;

/// Where the drop of a reference is.
#[derive(Debug, Drop)]
enum At {
    Start,
    /// A strong or unowned reference is counted down.
    Counting(Down),
    /// A weak reference is counted down.
    InEntry(EntryDown),
    /// The slot ends after its last unowned reference.
    Ending(SlotEnd),
    /// The entry is given back after its last weak reference.
    Returning,
    Ended,
}

/// What the drop of a reference asks for: a step, with what it is made for; or that it is over, or that after the last strong
/// reference the object in this slot dies.
#[derive(Clone, Copy, Debug, PartialEq, Eq)]
pub enum RefDropNext {
    Step(Step, Intent),
    Dies(u32),
    Done,
}

/// The drop of a reference that a hand has: one reference fewer in its list, and after the last one what that brings about. After the
/// last unowned reference the slot ends, after the last weak one the entry is given back; the deinit after the last strong one is
/// left to the caller. RefCount.h; that it is made in single steps is this project's own.
#[derive(Debug, Drop)]
pub struct RefDrop {
    layout: Layout,
    hand: u32,
    kind: Kind,
    place: u32,
    at: At,
    event: Option<Act>,
}

impl Model for RefDrop {
    ghost use Rattle.arc_cells.specs.Drops.{Dropping, IsDropOf};

    ghost Value = { Dropping };

    ghost view = { λ p. record { layout = p.layout; hand = p.hand; kind = p.kind; place = p.place; at = p.at; event = p.event } };

    ghost invariant = { λ p. IsDropOf p.layout p.kind p.place p.at };
}

impl RefDrop {
    /// Of the hand's reference of this kind, to the object in the slot `place`, or for a weak one to that with the entry `place`.
    pub fn start(layout: &Layout, hand: u32, kind: Kind, place: u32) -> RefDrop
        requires { IsPlaceOf layout.now kind place }
        ensures { result ≡ drop_from layout.now hand kind place }
    {
        RefDrop {
            layout: *layout,
            hand,
            kind,
            place,
            at: At::Start,
            event: None,
        }
    }

    /// Takes what the last step gave back, or None at first, and says what comes next. It isn't called after Done or Dies, and takes
    /// no memory.
    pub fn next(&mut self, last: Option<u64>) -> RefDropNext
        requires { drop_takes self.old last }
        ensures turned { self.new ≡ (drop_turn self.old last).after }
        ensures answer { result ≡ (drop_turn self.old last).says }
        ensures dies { DiesInSlot self.old.layout result }
        ensures layout { self.new.layout ≡ self.old.layout }
    {
        self.event = None;
        let at = mem::replace(&mut self.at, At::Ended);
        match at {
            At::Start => self.begin(),
            At::Counting(mut plan) => {
                let next = plan.next(last);
                self.count(plan, next)
            }
            At::InEntry(mut plan) => {
                let next = plan.next(last);
                self.count_weak(plan, next)
            }
            At::Ending(mut end) => {
                let next = end.next(last);
                self.event = end.event();
                self.end(end, next)
            }
            At::Returning => {
                self.event = Some(Act::Back { entry: self.place });
                RefDropNext::Done
            }
            At::Ended => unreachable!(),
        }
    }

    /// The event of the step whose word was given last.
    pub fn event(&self) -> Option<Act>
        ensures { result ≡ self.now.event }
    {
        self.event
    }

    fn begin(&mut self) -> RefDropNext
        ensures turned { self.new ≡ (drop_begins self.old self.old.kind).after }
        ensures answer { result ≡ (drop_begins self.old self.old.kind).says }
        ensures dies { DiesInSlot self.old.layout result }
        ensures layout { self.new.layout ≡ self.old.layout }
    {
        match self.kind {
            Kind::Weak => self.begin_weak(),
            Kind::Strong => self.begin_count(),
            Kind::Unowned => self.begin_count(),
        }
    }

    fn begin_count(&mut self) -> RefDropNext
        requires { self.old.kind ≢ Weak }
        ensures turned { self.new ≡ (counts_down self.old).after }
        ensures answer { result ≡ (counts_down self.old).says }
        ensures dies { DiesInSlot self.old.layout result }
        ensures layout { self.new.layout ≡ self.old.layout }
    {
        let mut plan = Down::start(&self.layout, self.place, self.kind);
        match plan.next(None) {
            Next::Step(step) => {
                self.at = At::Counting(plan);
                RefDropNext::Step(step, Intent::Drop { hand: self.hand })
            }
            Next::Done(_) => unreachable!(),
        }
    }

    fn begin_weak(&mut self) -> RefDropNext
        requires { self.old.kind ≡ Weak }
        ensures turned { self.new ≡ (counts_down_weak self.old).after }
        ensures answer { result ≡ (counts_down_weak self.old).says }
        ensures dies { DiesInSlot self.old.layout result }
        ensures layout { self.new.layout ≡ self.old.layout }
    {
        let mut plan = EntryDown::start(&self.layout, self.place, Kind::Weak);
        match plan.next(None) {
            Next::Step(step) => {
                self.at = At::InEntry(plan);
                RefDropNext::Step(step, Intent::Drop { hand: self.hand })
            }
            Next::Done(_) => unreachable!(),
        }
    }

    fn has_dropped(&mut self, last: bool)
        ensures { self.new ≡ has_dropped self.old last }
    {
        self.event = Some(Act::Drop {
            hand: self.hand,
            last,
        });
    }

    fn count(&mut self, plan: Down, next: Next<DownAnswer>) -> RefDropNext
        requires kind { self.old.kind ≢ Weak }
        requires layout { plan.layout ≡ self.old.layout }
        requires entry { LastInEntry self.old.layout next }
        ensures turned { self.new ≡ (counted_on self.old plan next).after }
        ensures answer { result ≡ (counted_on self.old plan next).says }
        ensures dies { DiesInSlot self.old.layout result }
        ensures layout { self.new.layout ≡ self.old.layout }
    {
        match next {
            Next::Step(step) => {
                self.at = At::Counting(plan);
                RefDropNext::Step(step, Intent::Drop { hand: self.hand })
            }
            Next::Done(DownAnswer::More(_)) => {
                self.has_dropped(false);
                self.at = At::Ended;
                RefDropNext::Done
            }
            Next::Done(DownAnswer::Last(entry)) => {
                self.has_dropped(true);
                self.emptied(entry)
            }
            Next::Done(DownAnswer::Again(_)) => self.begin_count(),
        }
    }

    fn emptied(&mut self, entry: Option<u32>) -> RefDropNext
        requires kind { self.old.kind ≢ Weak }
        requires entry { IfSome entry (λ e. e < self.old.layout.entries) }
        ensures turned { self.new ≡ (has_emptied self.old self.old.kind entry).after }
        ensures answer { result ≡ (has_emptied self.old self.old.kind entry).says }
        ensures dies { DiesInSlot self.old.layout result }
        ensures layout { self.new.layout ≡ self.old.layout }
    {
        match self.kind {
            Kind::Strong => {
                self.at = At::Ended;
                RefDropNext::Dies(self.place)
            }
            Kind::Unowned => {
                let mut end = SlotEnd::start(&self.layout, self.place, entry);
                let next = end.next(None);
                self.end(end, next)
            }
            Kind::Weak => unreachable!(),
        }
    }

    fn end(&mut self, end: SlotEnd, next: SlotEndNext) -> RefDropNext
        ensures turned { self.new ≡ (ended_on self.old end next).after }
        ensures answer { result ≡ (ended_on self.old end next).says }
        ensures dies { DiesInSlot self.old.layout result }
        ensures layout { self.new.layout ≡ self.old.layout }
    {
        match next {
            SlotEndNext::Step(step, intent) => {
                self.at = At::Ending(end);
                RefDropNext::Step(step, intent)
            }
            SlotEndNext::Done => {
                self.at = At::Ended;
                RefDropNext::Done
            }
        }
    }

    fn count_weak(&mut self, plan: EntryDown, next: Next<EntryDownAnswer>) -> RefDropNext
        requires { self.old.kind ≡ Weak }
        ensures turned { self.new ≡ (entry_counted_on self.old plan next).after }
        ensures answer { result ≡ (entry_counted_on self.old plan next).says }
        ensures dies { DiesInSlot self.old.layout result }
        ensures layout { self.new.layout ≡ self.old.layout }
    {
        match next {
            Next::Step(step) => {
                self.at = At::InEntry(plan);
                RefDropNext::Step(step, Intent::Drop { hand: self.hand })
            }
            Next::Done(EntryDownAnswer::More) => {
                self.has_dropped(false);
                self.at = At::Ended;
                RefDropNext::Done
            }
            Next::Done(EntryDownAnswer::Last) => {
                self.has_dropped(true);
                self.at = At::Returning;
                RefDropNext::Step(gives_back(&self.layout, self.place), Intent::Back)
            }
            Next::Done(EntryDownAnswer::Again(_)) => self.begin_weak(),
        }
    }
}
