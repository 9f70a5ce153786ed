//! What a legal event changes.

ghost use Rattle.std.specs.Prelude.{◌≡◌, OnOk, OnErr, IsOk, true, Some, None, is_some};
ghost use Rattle.arc_model.specs.declared.event.Act.{Act};
ghost use Rattle.arc_model.specs.declared.event.Got.{Got};
ghost use Rattle.arc_heap.specs.Applied.{grows};
ghost use Rattle.arc_heap_index.specs.Counting.{can_count};
ghost use Rattle.arc_heap_judge.specs.Index.{hand_at, cell_at, origin_at, hold as held, in_slot, with_entry as of_entry};
ghost use Rattle.arc_heap.specs.Moving.{reach_more, reach_less, hand_comes, hand_goes, object_becomes, joins as joined, joins_own, leaves as left, entry_goes, cell_becomes as cell_after, put_hand, goes_in, comes_out, swapped, made_new, placed_new, with_made, sided, finishes, vacates, goes_away, claims_if, fits, fits_own, fits_act, after_act, ticked};

use crate::model::ModelHeap;
use arc_heap_index::{
    Counted, Found, Held, Mark, Owner, Place, enter, finish, go, is_countable, one_less, one_more,
    raised, vacate,
};
use arc_model::{Act, CellName, Got, Kind, Memory, ObjectId, Origin};

impl ModelHeap {
    fn raise(&mut self, thread: u32, kind: Kind, slot: Option<u32>)
        ensures { self.new ≡ record self.old { reach = reach_more thread kind slot self.old.reach } }
    {
        match kind {
            Kind::Strong => match slot {
                None => {}
                Some(slot) => self.index.reach.raise(thread, slot),
            },
            _ => {}
        }
    }

    fn lower(&mut self, thread: u32, kind: Kind, slot: Option<u32>)
        ensures { self.new ≡ record self.old { reach = reach_less thread kind slot self.old.reach } }
    {
        match kind {
            Kind::Strong => match slot {
                None => {}
                Some(slot) => self.index.reach.lower(thread, slot),
            },
            _ => {}
        }
    }

    fn come(&mut self, thread: u32, w: Held) -> Result<(), Memory>
        ensures ok { OnOk result (self.new ≡ hand_comes thread (Some w) self.old) }
        ensures err { OnErr result (self.new ≡ self.old) }
    {
        self.index.hands.push(thread, Some(w.place))?;
        self.raise(thread, w.place.kind, w.counted.slot);
        Ok(())
    }

    fn go_away(&mut self, thread: u32, hand: u32, w: Held)
        ensures { self.new ≡ hand_goes thread hand (Some w) self.old }
    {
        self.index.hands.put(thread, hand, None);
        self.lower(thread, w.place.kind, w.counted.slot);
    }

    #[tactic(auto, using(arc_heap_index::proofs::Places::places))]
    fn set_object(&mut self, object: usize, counted: Counted)
        ensures { self.new ≡ object_becomes object counted self.old }
    {
        if object < self.index.objects.len() {
            self.index.objects[object] = counted;
        }
    }

    // A list of an immortal object has no greatest count: where no number counts one holder more, there is no memory for it.
    fn join(&mut self, thread: u32, kind: Kind, w: Held) -> Result<(), Memory>
        ensures ok { OnOk result ((can_count kind w.counted ≡ true) × (self.new ≡ joined thread kind (Some w) self.old)) }
        ensures err { OnErr result (self.new ≡ self.old) }
    {
        if !is_countable(kind, w.counted) {
            return Err(Memory);
        }
        let there = Held {
            place: Place {
                object: w.place.object,
                kind,
            },
            counted: w.counted,
        };
        self.come(thread, there)?;
        self.set_object(w.place.object, one_more(kind, w.counted));
        Ok(())
    }

    fn entry_to(&mut self, thread: u32, last: bool, kind: Kind, entry: Option<u32>)
        ensures { self.new ≡ entry_goes thread last kind entry self.old }
    {
        if last {
            match kind {
                Kind::Weak => match entry {
                    None => {}
                    Some(entry) => self.index.entries.change(entry, Owner::Claim(thread)),
                },
                _ => {}
            }
        }
    }

    fn leave(&mut self, thread: u32, hand: u32, last: bool, w: Held)
        ensures { self.new ≡ left thread hand last (Some w) self.old }
    {
        self.go_away(thread, hand, w);
        self.set_object(
            w.place.object,
            one_less(thread, w.place.kind, last, w.counted),
        );
        self.entry_to(thread, last, w.place.kind, w.counted.entry);
    }

    fn set_cell(&mut self, cell: CellName, place: Option<Place>)
        ensures { self.new ≡ cell_after cell place self.old }
    {
        match cell {
            CellName::Field { slot, field } => self.index.cells.put(slot, field, place),
            CellName::Global(number) => {
                let row = self.index.shape.slots();
                self.index.cells.put(row, number, place);
            }
        }
    }

    fn put_place(&self, thread: u32, put: Option<u32>) -> Option<Place>
        ensures { result ≡ put_hand thread put self.now }
    {
        match put {
            None => None,
            Some(hand) => self.index.hand(thread, hand),
        }
    }

    fn take_out(&mut self, thread: u32, took: Option<u32>, w: Option<Held>) -> Result<(), Memory>
        ensures ok { OnOk result (self.new ≡ comes_out thread took w self.old) }
        ensures err { OnErr result ((is_some took ≡ true) × (self.new ≡ self.old)) }
    {
        match took {
            None => Ok(()),
            Some(_) => match w {
                None => Ok(()),
                Some(w) => self.come(thread, w),
            },
        }
    }

    fn put_in(&mut self, thread: u32, put: Option<u32>)
        ensures { self.new ≡ goes_in thread put self.old }
    {
        match put {
            None => {}
            Some(hand) => match self.index.hold(self.index.hand(thread, hand)) {
                None => {}
                Some(w) => self.go_away(thread, hand, w),
            },
        }
    }

    fn swap(
        &mut self,
        thread: u32,
        cell: CellName,
        put: Option<u32>,
        took: Option<u32>,
    ) -> Result<(), Memory>
        ensures ok { OnOk result (self.new ≡ swapped thread cell put took self.old) }
        ensures err { OnErr result ((is_some took ≡ true) × (self.new ≡ self.old)) }
    {
        let there = self.put_place(thread, put);
        let w = self.index.hold(self.index.cell(cell));
        self.take_out(thread, took, w)?;
        self.put_in(thread, put);
        self.set_cell(cell, there);
        Ok(())
    }

    fn copy(&mut self, thread: u32, w: Option<Held>) -> Result<(), Memory>
        ensures ok { OnOk result ((fits_own w ≡ true) × (self.new ≡ joins_own thread w self.old)) }
        ensures err { OnErr result (self.new ≡ self.old) }
    {
        match w {
            None => Ok(()),
            Some(w) => self.join(thread, w.place.kind, w),
        }
    }

    fn form(&mut self, thread: u32, kind: Kind, w: Option<Held>) -> Result<(), Memory>
        ensures ok { OnOk result ((fits kind w ≡ true) × (self.new ≡ joined thread kind w self.old)) }
        ensures err { OnErr result (self.new ≡ self.old) }
    {
        match w {
            None => Ok(()),
            Some(w) => self.join(thread, kind, w),
        }
    }

    fn drop_hand(&mut self, thread: u32, hand: u32, last: bool, w: Option<Held>)
        ensures { self.new ≡ left thread hand last w self.old }
    {
        match w {
            None => {}
            Some(w) => self.leave(thread, hand, last, w),
        }
    }

    fn side(&mut self, entry: u32, w: Option<Found>)
        ensures { self.new ≡ sided entry w self.old }
    {
        match w {
            None => {}
            Some(w) => {
                self.set_object(w.object, enter(entry, w.counted));
                self.index.entries.change(entry, Owner::Object(w.object));
            }
        }
    }

    fn end_deinit(&mut self, thread: u32, last: bool, w: Option<Found>)
        ensures { self.new ≡ finishes thread last w self.old }
    {
        match w {
            None => {}
            Some(w) => self.set_object(w.object, finish(thread, last, w.counted)),
        }
    }

    fn leave_slot(&mut self, thread: u32, slot: u32, w: Option<Found>)
        ensures { self.new ≡ vacates thread slot w self.old }
    {
        match w {
            None => {}
            Some(w) => {
                self.set_object(w.object, vacate(thread, w.counted));
                self.index.slots.free(slot);
            }
        }
    }

    fn leave_entry(&mut self, thread: u32, entry: u32, last: bool, w: Option<Found>)
        ensures { self.new ≡ goes_away thread entry last w self.old }
    {
        match w {
            None => {}
            Some(w) => {
                self.set_object(w.object, go(last, w.counted));
                if last {
                    self.index.entries.change(entry, Owner::Claim(thread));
                }
            }
        }
    }

    fn claim(&mut self, thread: u32, entry: u32) -> Result<(), Memory>
        ensures ok { OnOk result (self.new ≡ after_act self.old thread (Act.Claim entry)) }
        ensures err { OnErr result (self.new ≡ self.old) }
    {
        self.index.entries.take(entry, Owner::Claim(thread))?;
        Ok(())
    }

    #[tactic(auto, using(arc_heap_index::proofs::Places::places))]
    fn set_made(&mut self, thread: u32, number: u32)
        ensures { self.new ≡ record self.old { marks = with_made thread number self.old.marks } }
    {
        if (thread as usize) < self.index.marks.len() {
            let mark = self.index.marks[thread as usize];
            self.index.marks[thread as usize] = Mark {
                made: number,
                ..mark
            };
        }
    }

    // The hand and the slot of a new object, or nothing.
    #[tactic(auto, using(arc_heap_index::proofs::Places::takes_back))]
    fn place_new(&mut self, thread: u32, object: usize, slot: u32) -> Result<(), Memory>
        ensures ok { OnOk result (self.new ≡ placed_new thread object slot self.old) }
        ensures err { OnErr result (self.new ≡ self.old) }
    {
        let place = Place {
            object,
            kind: Kind::Strong,
        };
        self.index.hands.push(thread, Some(place))?;
        match self.index.slots.take(slot, Owner::Object(object)) {
            Ok(()) => Ok(()),
            Err(_) => {
                self.index.hands.pop(thread);
                Err(Memory)
            }
        }
    }

    // An object, or nothing.
    fn make_object(&mut self, thread: u32, hand: u32, class: u32, slot: u32) -> Result<(), Memory>
        ensures ok { OnOk result (self.new ≡ made_new thread hand class slot self.old) }
        ensures err { OnErr result (self.new ≡ self.old) }
    {
        let number = raised(hand, self.index.mark(thread).made);
        let object = self.index.objects.as_slice().len();
        let counted = Counted {
            id: ObjectId { thread, number },
            class,
            slot: Some(slot),
            entry: None,
            owed: None,
            strong: 1,
            unowned: 1,
            weak: 1,
        };
        self.index.objects.push(counted)?;
        match self.place_new(thread, object, slot) {
            Err(_) => {
                let _ = self.index.objects.pop();
                Err(Memory)
            }
            Ok(()) => {
                self.set_made(thread, number);
                self.index.reach.raise(thread, slot);
                Ok(())
            }
        }
    }

    fn load(&mut self, thread: u32, of: u32, got: Got) -> Result<(), Memory>
        ensures ok { OnOk result ((fits_act self.old thread (Act.Load of got) ≡ true) × (self.new ≡ after_act self.old thread (Act.Load of got))) }
        ensures err { OnErr result ((grows (Act.Load of got) ≡ true) × (self.new ≡ self.old)) }
    {
        match got {
            Got::Hand(_) => {
                let w = self.index.hold(self.index.hand(thread, of));
                self.form(thread, Kind::Strong, w)
            }
            Got::Dead => Ok(()),
            Got::Nil => Ok(()),
        }
    }

    fn copy_from(&mut self, thread: u32, from: Origin) -> Result<(), Memory>
        ensures ok { OnOk result ((fits_own (held self.old (origin_at self.old thread from)) ≡ true) × (self.new ≡ joins_own thread (held self.old (origin_at self.old thread from)) self.old)) }
        ensures err { OnErr result (self.new ≡ self.old) }
    {
        let w = self.index.hold(self.index.origin(thread, from));
        self.copy(thread, w)
    }

    fn form_from(&mut self, thread: u32, kind: Kind, of: u32) -> Result<(), Memory>
        ensures ok { OnOk result ((fits kind (held self.old (hand_at self.old thread of)) ≡ true) × (self.new ≡ joined thread kind (held self.old (hand_at self.old thread of)) self.old)) }
        ensures err { OnErr result (self.new ≡ self.old) }
    {
        let w = self.index.hold(self.index.hand(thread, of));
        self.form(thread, kind, w)
    }

    fn release(&mut self, thread: u32, hand: u32, last: bool) -> Result<(), Memory>
        ensures ok { OnOk result (self.new ≡ after_act self.old thread (Act.Drop hand last)) }
        ensures err { IsOk result }
    {
        let w = self.index.hold(self.index.hand(thread, hand));
        self.drop_hand(thread, hand, last, w);
        Ok(())
    }

    fn publish(&mut self, slot: u32, entry: u32) -> Result<(), Memory>
        ensures ok { OnOk result (self.new ≡ sided entry (in_slot self.old slot) self.old) }
        ensures err { IsOk result }
    {
        let w = self.index.slot_object(slot);
        self.side(entry, w);
        Ok(())
    }

    fn give_back(&mut self, thread: u32, entry: u32) -> Result<(), Memory>
        ensures ok { OnOk result (self.new ≡ after_act self.old thread (Act.Back entry)) }
        ensures err { IsOk result }
    {
        let _ = thread;
        self.index.entries.free(entry);
        Ok(())
    }

    fn finish_at(&mut self, thread: u32, slot: u32, last: bool) -> Result<(), Memory>
        ensures ok { OnOk result (self.new ≡ after_act self.old thread (Act.Finish slot last)) }
        ensures err { IsOk result }
    {
        let w = self.index.slot_object(slot);
        self.end_deinit(thread, last, w);
        Ok(())
    }

    fn vacate_at(&mut self, thread: u32, slot: u32) -> Result<(), Memory>
        ensures ok { OnOk result (self.new ≡ after_act self.old thread (Act.Vacate slot)) }
        ensures err { IsOk result }
    {
        let w = self.index.slot_object(slot);
        self.leave_slot(thread, slot, w);
        Ok(())
    }

    fn gone_at(&mut self, thread: u32, entry: u32, last: bool) -> Result<(), Memory>
        ensures ok { OnOk result (self.new ≡ after_act self.old thread (Act.Gone entry last)) }
        ensures err { IsOk result }
    {
        let w = self.index.entry_object(entry);
        self.leave_entry(thread, entry, last, w);
        Ok(())
    }

    /// The index after the act, or no memory and nothing changed.
    pub(crate) fn perform(&mut self, thread: u32, act: Act) -> Result<(), Memory>
        ensures ok { OnOk result ((fits_act self.old thread act ≡ true) × (self.new ≡ after_act self.old thread act)) }
        ensures err { OnErr result ((grows act ≡ true) × (self.new ≡ self.old)) }
    {
        match act {
            Act::New { hand, class, slot } => self.make_object(thread, hand, class, slot),
            Act::Full => Ok(()),
            Act::Copy { from, hand: _ } => self.copy_from(thread, from),
            Act::UnownedOf { of, hand: _ } => self.form_from(thread, Kind::Unowned, of),
            Act::WeakOf { of, hand: _ } => self.form_from(thread, Kind::Weak, of),
            Act::Load { of, got } => self.load(thread, of, got),
            Act::Drop { hand, last } => self.release(thread, hand, last),
            Act::CountFull { list: _, from: _ } => Ok(()),
            Act::Claim { entry } => self.claim(thread, entry),
            Act::NoEntry => Ok(()),
            Act::Side {
                slot,
                entry,
                why: _,
            } => self.publish(slot, entry),
            Act::Back { entry } => self.give_back(thread, entry),
            Act::Swap { cell, put, took } => self.swap(thread, cell, put, took),
            Act::Look { cell: _ } => Ok(()),
            Act::Take { slot, field, hand } => {
                self.swap(thread, CellName::Field { slot, field }, None, Some(hand))
            }
            Act::Finish { slot, last } => self.finish_at(thread, slot, last),
            Act::Vacate { slot } => self.vacate_at(thread, slot),
            Act::Gone { entry, last } => self.gone_at(thread, entry, last),
        }
    }

    /// The thread's last event is now.
    #[tactic(auto, using(arc_heap_index::proofs::Places::places))]
    pub(crate) fn tick(&mut self, thread: u32)
        ensures { self.new ≡ ticked thread self.old }
    {
        let slots = self.index.slots.frees();
        let entries = self.index.entries.frees();
        if (thread as usize) < self.index.marks.len() {
            let mark = self.index.marks[thread as usize];
            self.index.marks[thread as usize] = Mark {
                made: mark.made,
                slots,
                entries,
            };
        }
    }
}
