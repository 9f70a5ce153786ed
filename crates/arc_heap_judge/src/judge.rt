//! The first need of an event that fails. Nothing here changes anything.

ghost use Rattle.std.specs.Prelude.{◌≡◌, ◌||◌, not, is_some};
ghost use Rattle.arc_model.specs.Needs.{first_failing};
ghost use Rattle.arc_model.specs.History.{History, judge};
ghost use Rattle.arc_heap_judge.specs.Stands.{StandsFor, IsInRange, thread_count};
ghost use Rattle.arc_model.specs.Cells.{same_kind};
ghost use Rattle.arc_model.specs.declared.event.Act.{Act};
ghost use Rattle.arc_model.specs.Shapes.{class_at};
ghost use Rattle.arc_heap_judge.specs.Index.{alive_in, alone_in, room_in, full_in};
ghost use Rattle.arc_heap_judge.specs.Judging.{verdict as judged, reaches, has_it, has_field_at, cell_shape_at, field_shape_at, gives, gets, are_empty, stands_at_cap, is_claim_of};
ghost use Rattle.std.specs.Prelude.{length, ◌∷◌, [], ◌<◌, Some};
ghost use Rattle.arc_model.specs.declared.event.Got.{Got};
ghost use Rattle.arc_model.specs.declared.event.Illegal.{Illegal};
ghost use Rattle.arc_heap_index.specs.declared.counted.Held.{Held};
ghost use Rattle.arc_heap_judge.specs.Index.{hand_at, hold as held};
ghost use Rattle.arc_heap_judge.specs.Judging.{meets, is_of_kind};
ghost use Rattle.arc_heap_index.specs.Freeing.{owner_at};

use crate::heap_index::HeapIndex;
use arc_heap_index::{Counted, Due, Found, Owner, count, holders, is_live, owes};
use arc_model::{Act, CellName, Got, Illegal, Kind, Origin, RefShape};

fn is_kind(a: Kind, b: Kind) -> bool
    ensures { result ≡ same_kind a b }
{
    match (a, b) {
        (Kind::Strong, Kind::Strong) => true,
        (Kind::Unowned, Kind::Unowned) => true,
        (Kind::Weak, Kind::Weak) => true,
        _ => false,
    }
}

impl HeapIndex {
    fn field_count(&self, class: u32) -> usize
        ensures { result ≡ length (class_at self.now.shape class).fields }
    {
        match self.shape.classes().get(class as usize) {
            None => 0,
            Some(class) => class.fields.len(),
        }
    }

    fn has_field(&self, w: Found, field: u32) -> bool
        ensures { result ≡ has_field_at self.now.shape field w }
    {
        (field as usize) < self.field_count(w.counted.class)
    }

    fn lives(&self, c: Counted) -> bool
        ensures { result ≡ alive_in self.now.shape c }
    {
        is_live(self.is_immortal(c), c)
    }

    // The list has no other holder.
    fn is_alone(&self, kind: Kind, c: Counted) -> bool
        ensures { result ≡ alone_in self.now.shape kind c }
    {
        holders(self.is_immortal(c), kind, c) == 1
    }

    // The list may grow.
    fn has_room(&self, kind: Kind, c: Counted) -> bool
        ensures { result ≡ room_in self.now.shape kind c }
    {
        count(kind, c) < self.shape.caps().wide() || self.is_immortal(c)
    }

    // The list has all the holders that it may have.
    fn is_full(&self, kind: Kind, c: Counted) -> bool
        ensures { result ≡ full_in self.now.shape kind c }
    {
        !self.is_immortal(c) && count(kind, c) == self.shape.caps().wide()
    }

    // The thread can reach the cell.
    fn reach_cell(&self, thread: u32, cell: CellName) -> Option<Illegal>
        ensures { result ≡ first_failing (reaches self.now thread cell) }
    {
        match cell {
            CellName::Global(_) => None,
            CellName::Field { slot, field } => {
                let Some(w) = self.slot_object(slot) else {
                    return Some(Illegal::NoSuchObject);
                };
                if !self.has_field(w, field) {
                    return Some(Illegal::NoSuchObject);
                }
                if self.reach.at(thread, slot) == 0 {
                    return Some(Illegal::NotHeld);
                }
                None
            }
        }
    }

    // The thread has the hand, or can reach the cell, which isn't nil.
    fn has(&self, thread: u32, from: Origin) -> Option<Illegal>
        ensures { result ≡ has_it self.now thread from }
    {
        match from {
            Origin::Hand(number) => match self.hold(self.hand(thread, number)) {
                None => Some(Illegal::NotHeld),
                Some(_) => None,
            },
            Origin::Cell(cell) => match self.reach_cell(thread, cell) {
                Some(illegal) => Some(illegal),
                None => match self.hold(self.cell(cell)) {
                    None => Some(Illegal::NotHeld),
                    Some(_) => None,
                },
            },
        }
    }

    fn judge_new(&self, thread: u32, hand: u32, class: u32, slot: u32) -> Option<Illegal>
        ensures { result ≡ judged self.now thread (Act.New hand class slot) }
    {
        if hand as usize != self.hands.length(thread) {
            return Some(Illegal::Taken);
        }
        match self.slot_object(slot) {
            Some(_) => Some(Illegal::Taken),
            None => None,
        }
    }

    fn judge_full(&self, thread: u32) -> Option<Illegal>
        ensures { result ≡ judged self.now thread Act.Full }
    {
        if self.slots.are_seen(self.mark(thread).slots) {
            None
        } else {
            Some(Illegal::NotTaken)
        }
    }

    fn judge_no_entry(&self, thread: u32) -> Option<Illegal>
        ensures { result ≡ judged self.now thread Act.NoEntry }
    {
        if self.entries.are_seen(self.mark(thread).entries) {
            None
        } else {
            Some(Illegal::NotTaken)
        }
    }

    fn judge_copy(&self, thread: u32, from: Origin, hand: u32) -> Option<Illegal>
        ensures { result ≡ judged self.now thread (Act.Copy from hand) }
    {
        match self.has(thread, from) {
            Some(illegal) => Some(illegal),
            None => {
                if hand as usize != self.hands.length(thread) {
                    return Some(Illegal::Taken);
                }
                match self.hold(self.origin(thread, from)) {
                    None => Some(Illegal::WrongAnswer),
                    Some(w) => {
                        if !self.has_room(w.place.kind, w.counted) {
                            return Some(Illegal::WrongAnswer);
                        }
                        None
                    }
                }
            }
        }
    }

    fn judge_unowned_of(&self, thread: u32, of: u32, hand: u32) -> Option<Illegal>
        ensures { result ≡ judged self.now thread (Act.UnownedOf of hand) }
    {
        let Some(w) = self.hold(self.hand(thread, of)) else {
            return Some(Illegal::NotHeld);
        };
        if !is_kind(w.place.kind, Kind::Strong) {
            return Some(Illegal::NotHeld);
        }
        if hand as usize != self.hands.length(thread) {
            return Some(Illegal::Taken);
        }
        if !self.has_room(Kind::Unowned, w.counted) {
            return Some(Illegal::WrongAnswer);
        }
        None
    }

    fn judge_weak_of(&self, thread: u32, of: u32, hand: u32) -> Option<Illegal>
        ensures { result ≡ judged self.now thread (Act.WeakOf of hand) }
    {
        let Some(w) = self.hold(self.hand(thread, of)) else {
            return Some(Illegal::NotHeld);
        };
        if !is_kind(w.place.kind, Kind::Strong) {
            return Some(Illegal::NotHeld);
        }
        if w.counted.entry.is_none() {
            return Some(Illegal::NoSuchObject);
        }
        if hand as usize != self.hands.length(thread) {
            return Some(Illegal::Taken);
        }
        if !self.has_room(Kind::Weak, w.counted) {
            return Some(Illegal::WrongAnswer);
        }
        None
    }

    fn judge_load(&self, thread: u32, of: u32, hand: u32) -> Option<Illegal>
        ensures { result ≡ judged self.now thread (Act.Load of (Got.Hand hand)) }
    {
        let Some(w) = self.hold(self.hand(thread, of)) else {
            return Some(Illegal::NotHeld);
        };
        if is_kind(w.place.kind, Kind::Strong) {
            return Some(Illegal::NotHeld);
        }
        if hand as usize != self.hands.length(thread) {
            return Some(Illegal::Taken);
        }
        if !self.lives(w.counted) {
            return Some(Illegal::WrongAnswer);
        }
        if !self.has_room(Kind::Strong, w.counted) {
            return Some(Illegal::WrongAnswer);
        }
        None
    }

    fn judge_dead(&self, thread: u32, of: u32, kind: Kind) -> Option<Illegal>
        ensures { result ≡ first_failing ((meets (is_of_kind kind) (held self.now (hand_at self.now thread of)), Illegal.NotHeld) ∷ (meets (λ (w : Held). not (alive_in self.now.shape w.counted)) (held self.now (hand_at self.now thread of)), Illegal.WrongAnswer) ∷ []) }
    {
        let Some(w) = self.hold(self.hand(thread, of)) else {
            return Some(Illegal::NotHeld);
        };
        if !is_kind(w.place.kind, kind) {
            return Some(Illegal::NotHeld);
        }
        if self.lives(w.counted) {
            return Some(Illegal::WrongAnswer);
        }
        None
    }

    fn judge_drop(&self, thread: u32, hand: u32, last: bool) -> Option<Illegal>
        ensures { result ≡ judged self.now thread (Act.Drop hand last) }
    {
        let Some(w) = self.hold(self.hand(thread, hand)) else {
            return Some(Illegal::NotHeld);
        };
        if last != self.is_alone(w.place.kind, w.counted) {
            return Some(Illegal::WrongAnswer);
        }
        None
    }

    fn judge_count_full(&self, thread: u32, list: Kind, from: Origin) -> Option<Illegal>
        ensures { result ≡ judged self.now thread (Act.CountFull list from) }
    {
        match self.has(thread, from) {
            Some(illegal) => Some(illegal),
            None => match self.hold(self.origin(thread, from)) {
                None => Some(Illegal::WrongAnswer),
                Some(w) => {
                    if !self.is_full(list, w.counted) {
                        return Some(Illegal::WrongAnswer);
                    }
                    None
                }
            },
        }
    }

    fn judge_claim(&self, thread: u32, entry: u32) -> Option<Illegal>
        ensures { result ≡ judged self.now thread (Act.Claim entry) }
    {
        let _ = thread;
        match self.entries.at(entry) {
            Some(_) => Some(Illegal::Taken),
            None => None,
        }
    }

    fn has_claimed(&self, thread: u32, entry: u32) -> bool
        ensures { result ≡ is_claim_of thread (owner_at entry self.now.entries) }
    {
        match self.entries.at(entry) {
            Some(Owner::Claim(p)) => p == thread,
            _ => false,
        }
    }

    fn is_at_cap(&self, why: Kind, c: Counted) -> bool
        ensures { result ≡ stands_at_cap self.now.shape why c }
    {
        match why {
            Kind::Strong => {
                self.lives(c) && u64::from(c.strong) == u64::from(self.shape.caps().strong()) + 1
            }
            Kind::Unowned => c.unowned == self.shape.caps().unowned(),
            Kind::Weak => self.lives(c),
        }
    }

    fn judge_side(&self, thread: u32, slot: u32, entry: u32, why: Kind) -> Option<Illegal>
        ensures { result ≡ judged self.now thread (Act.Side slot entry why) }
    {
        let Some(w) = self.slot_object(slot) else {
            return Some(Illegal::NoSuchObject);
        };
        if self.is_immortal(w.counted) {
            return Some(Illegal::NoSuchObject);
        }
        if !self.has_claimed(thread, entry) {
            return Some(Illegal::Duty);
        }
        if w.counted.entry.is_some() {
            return Some(Illegal::Taken);
        }
        if !self.is_at_cap(why, w.counted) {
            return Some(Illegal::WrongAnswer);
        }
        None
    }

    fn judge_back(&self, thread: u32, entry: u32) -> Option<Illegal>
        ensures { result ≡ judged self.now thread (Act.Back entry) }
    {
        if self.has_claimed(thread, entry) {
            None
        } else {
            Some(Illegal::Duty)
        }
    }

    fn field_shape(&self, w: Found, field: u32) -> Option<RefShape>
        ensures { result ≡ field_shape_at self.now.shape field (Some w) }
    {
        match self.shape.classes().get(w.counted.class as usize) {
            None => None,
            Some(class) => match class.fields.get(field as usize) {
                None => None,
                Some(shape) => Some(*shape),
            },
        }
    }

    fn cell_shape(&self, cell: CellName) -> Option<RefShape>
        ensures { result ≡ cell_shape_at self.now cell }
    {
        match cell {
            CellName::Field { slot, field } => match self.slot_object(slot) {
                None => None,
                Some(w) => self.field_shape(w, field),
            },
            CellName::Global(number) => match self.shape.globals().get(number as usize) {
                None => None,
                Some(shape) => Some(*shape),
            },
        }
    }

    // The hand that is put in is one of the thread's, of the cell's kind.
    fn can_give(&self, thread: u32, cell: CellName, put: Option<u32>) -> bool
        ensures { result ≡ (gives self.now thread cell put).0 }
    {
        match put {
            None => true,
            Some(hand) => match self.hold(self.hand(thread, hand)) {
                None => false,
                Some(w) => match self.cell_shape(cell) {
                    None => false,
                    Some(shape) => is_kind(shape.kind, w.place.kind),
                },
            },
        }
    }

    // The hand that comes is the thread's next.
    fn can_get(&self, thread: u32, took: Option<u32>) -> bool
        ensures { result ≡ (gets self.now thread took).0 }
    {
        match took {
            None => true,
            Some(hand) => hand as usize == self.hands.length(thread),
        }
    }

    fn judge_swap(
        &self,
        thread: u32,
        cell: CellName,
        put: Option<u32>,
        took: Option<u32>,
    ) -> Option<Illegal>
        ensures { result ≡ judged self.now thread (Act.Swap cell put took) }
    {
        match self.reach_cell(thread, cell) {
            Some(illegal) => Some(illegal),
            None => {
                if !self.can_give(thread, cell, put) {
                    return Some(Illegal::NotHeld);
                }
                if !self.can_get(thread, took) {
                    return Some(Illegal::Taken);
                }
                if took.is_some() != self.hold(self.cell(cell)).is_some() {
                    return Some(Illegal::WrongAnswer);
                }
                None
            }
        }
    }

    fn judge_look(&self, thread: u32, cell: CellName) -> Option<Illegal>
        ensures { result ≡ judged self.now thread (Act.Look cell) }
    {
        match self.reach_cell(thread, cell) {
            Some(illegal) => Some(illegal),
            None => match self.hold(self.cell(cell)) {
                Some(_) => Some(Illegal::WrongAnswer),
                None => None,
            },
        }
    }

    // Every field of the object in the slot below `end` is nil.
    fn are_nil(&self, slot: u32, end: usize) -> bool
        ensures { result ≡ are_empty self.now slot end }
    {
        for field in 0..end {
            if self.hold(self.cells.at(slot, field)).is_some() {
                return false;
            }
        }
        true
    }

    fn judge_take(&self, thread: u32, slot: u32, field: u32, hand: u32) -> Option<Illegal>
        ensures { result ≡ judged self.now thread (Act.Take slot field hand) }
    {
        let Some(w) = self.slot_object(slot) else {
            return Some(Illegal::NoSuchObject);
        };
        if !self.has_field(w, field) {
            return Some(Illegal::NoSuchObject);
        }
        if !owes(thread, Due::Deinit, w.counted) {
            return Some(Illegal::Duty);
        }
        if !self.are_nil(slot, field as usize) {
            return Some(Illegal::Duty);
        }
        if self.hold(self.cells.at(slot, field as usize)).is_none() {
            return Some(Illegal::NotHeld);
        }
        if hand as usize != self.hands.length(thread) {
            return Some(Illegal::Taken);
        }
        None
    }

    fn judge_finish(&self, thread: u32, slot: u32, last: bool) -> Option<Illegal>
        ensures { result ≡ judged self.now thread (Act.Finish slot last) }
    {
        let Some(w) = self.slot_object(slot) else {
            return Some(Illegal::NoSuchObject);
        };
        if !owes(thread, Due::Deinit, w.counted) {
            return Some(Illegal::Duty);
        }
        if !self.are_nil(slot, self.field_count(w.counted.class)) {
            return Some(Illegal::Duty);
        }
        if last != (w.counted.unowned == 1) {
            return Some(Illegal::WrongAnswer);
        }
        None
    }

    fn judge_vacate(&self, thread: u32, slot: u32) -> Option<Illegal>
        ensures { result ≡ judged self.now thread (Act.Vacate slot) }
    {
        let Some(w) = self.slot_object(slot) else {
            return Some(Illegal::NoSuchObject);
        };
        if !owes(thread, Due::Vacating, w.counted) {
            return Some(Illegal::Duty);
        }
        None
    }

    fn judge_gone(&self, thread: u32, entry: u32, last: bool) -> Option<Illegal>
        ensures { result ≡ judged self.now thread (Act.Gone entry last) }
    {
        let Some(w) = self.entry_object(entry) else {
            return Some(Illegal::NoSuchObject);
        };
        if !owes(thread, Due::Gone, w.counted) {
            return Some(Illegal::Duty);
        }
        if last != (w.counted.weak == 1) {
            return Some(Illegal::WrongAnswer);
        }
        None
    }

    fn judge_got(&self, thread: u32, of: u32, got: Got) -> Option<Illegal>
        ensures { result ≡ judged self.now thread (Act.Load of got) }
    {
        match got {
            Got::Hand(hand) => self.judge_load(thread, of, hand),
            Got::Dead => self.judge_dead(thread, of, Kind::Unowned),
            Got::Nil => self.judge_dead(thread, of, Kind::Weak),
        }
    }

    fn first_wrong(&self, thread: u32, act: Act) -> Option<Illegal>
        ensures { result ≡ judged self.now thread act }
    {
        match act {
            Act::New { hand, class, slot } => self.judge_new(thread, hand, class, slot),
            Act::Full => self.judge_full(thread),
            Act::Copy { from, hand } => self.judge_copy(thread, from, hand),
            Act::UnownedOf { of, hand } => self.judge_unowned_of(thread, of, hand),
            Act::WeakOf { of, hand } => self.judge_weak_of(thread, of, hand),
            Act::Load { of, got } => self.judge_got(thread, of, got),
            Act::Drop { hand, last } => self.judge_drop(thread, hand, last),
            Act::CountFull { list, from } => self.judge_count_full(thread, list, from),
            Act::Claim { entry } => self.judge_claim(thread, entry),
            Act::NoEntry => self.judge_no_entry(thread),
            Act::Side { slot, entry, why } => self.judge_side(thread, slot, entry, why),
            Act::Back { entry } => self.judge_back(thread, entry),
            Act::Swap { cell, put, took } => self.judge_swap(thread, cell, put, took),
            Act::Look { cell } => self.judge_look(thread, cell),
            Act::Take { slot, field, hand } => self.judge_take(thread, slot, field, hand),
            Act::Finish { slot, last } => self.judge_finish(thread, slot, last),
            Act::Vacate { slot } => self.judge_vacate(thread, slot),
            Act::Gone { entry, last } => self.judge_gone(thread, entry, last),
        }
    }

    /// What is wrong with the first need of the act that fails, where one does: the need of the event after each history that
    /// the index stands for.
    pub fn verdict(&self, thread: u32, act: Act) -> Option<Illegal>
        ensures value { result ≡ judged self.now thread act }
        ensures needs { (h : History) → StandsFor self.now h → thread < thread_count self.now → IsInRange self.now.shape act →
            result ≡ judge self.now.shape h (record { thread = thread; act = act }) }
    {
        self.first_wrong(thread, act)
    }
}
