//! A plain program that judges events.

ghost use Rattle.std.specs.Prelude.{◌≡◌, ◌<◌, ◌≤◌, ◌+◌, length, find, [], IfOk};
ghost use Rattle.arc_model.specs.Holders.{same_id};
ghost use Rattle.arc_model.specs.History.{History, heap_after};
ghost use Rattle.arc_heap_index.specs.declared.counted.Counted.{Counted};
ghost use Rattle.arc_heap_judge.specs.Judging.{verdict as judged};
ghost use Rattle.arc_heap_judge.specs.Stands.{StandsFor, IsInRange, thread_count};
ghost use Rattle.arc_heap.specs.Applied.{Answers, AppliesAfter, named, life_in, holders_in};
ghost use Rattle.arc_heap.specs.Asked.{lived_so, is_due_deinit, life_told, held_in};
ghost use Rattle.arc_heap.specs.Moving.{after_event, fits_act};

use crate::refusal::Refusal;
use arc_heap_index::{Counted, Due, Reach, Slots, Table, first_marks, holders, is_live};
use arc_heap_judge::HeapIndex;
use arc_model::{Event, Kind, Life, Memory, ObjectId, Shape};
use std::alloc::Global;
use std::marker::Model;

/// The heap after a history, by an index: for each hand and each cell where it counts, for each object how many holders each
/// list has, and who has each slot and each entry.
#[derive(Debug, Drop)]
pub struct ModelHeap {
    pub(crate) index: HeapIndex,
}

impl Model for ModelHeap {
    ghost use Rattle.arc_heap_judge.specs.Index.{Index};

    ghost Value = { Index };

    ghost view = { λ m. m.index };
}

impl ModelHeap {
    /// Judges the event, and brings the index to the heap after it. Ok exactly where the event is legal. A refusal says what is
    /// wrong with the first need that fails, or, at a legal event that makes something grow, that no memory was found; it
    /// changes nothing.
    pub fn apply(&mut self, event: Event) -> Result<(), Refusal>
        requires thread { event.thread < thread_count self.old }
        requires range { IsInRange self.old.shape event.act }
        ensures shape { self.new.shape ≡ self.old.shape }
        ensures threads { thread_count self.new ≡ thread_count self.old }
        ensures history { (h : History) → StandsFor self.old h → AppliesAfter h self.old self.new event result }
    {
        self.advance(event)
    }

    fn advance(&mut self, event: Event) -> Result<(), Refusal>
        ensures { Answers (judged self.old event.thread event.act) event.act (fits_act self.old event.thread event.act) self.old (after_event self.old event) self.new result }
    {
        if let Some(illegal) = self.index.verdict(event.thread, event.act) {
            return Err(Refusal::Illegal(illegal));
        }
        match self.perform(event.thread, event.act) {
            Err(_) => Err(Refusal::Memory),
            Ok(()) => {
                self.tick(event.thread);
                Ok(())
            }
        }
    }

    /// A heap of no objects, which stands for the empty history. Its threads are numbered from 0 to `threads`, at most 64.
    pub fn make(alloc: Global, shape: Shape, threads: u32) -> Result<ModelHeap, Memory>
        requires { threads ≤ 64 }
        ensures stands { IfOk result (λ m. StandsFor m []) }
        ensures shape { IfOk result (λ m. m.shape ≡ shape) }
        ensures threads { IfOk result (λ m. thread_count m ≡ threads + 1) }
    {
        let count = threads + 1;
        let slot_count = shape.slots();
        let entry_count = shape.entries();
        let global_count = shape.globals().len();
        let hands = Table::new(alloc, threads, 1, 1)?;
        let cells = Table::new(alloc, slot_count, 8, global_count)?;
        let reach = Reach::new(alloc, count, slot_count)?;
        let marks = first_marks(alloc, count, slot_count as usize, entry_count as usize)?;
        let slots = Slots::new(alloc, slot_count)?;
        let entries = Slots::new(alloc, entry_count)?;
        let index = HeapIndex {
            shape,
            hands,
            cells,
            reach,
            objects: Vec::new(alloc),
            marks,
            slots,
            entries,
        };
        Ok(ModelHeap { index })
    }

    fn told_life(&self, object: ObjectId) -> Option<Life>
        ensures { result ≡ life_told self.now.shape (find (λ (c : Counted). same_id c.id object) self.now.objects) }
    {
        let found = first_named(self.index.objects.as_slice(), object);
        self.life_found(found)
    }

    fn life_found(&self, found: Option<Counted>) -> Option<Life>
        ensures { result ≡ life_told self.now.shape found }
    {
        match found {
            None => None,
            Some(counted) => Some(life_of(self.index.is_immortal(counted), counted)),
        }
    }

    fn told_holders(&self, object: ObjectId, list: Kind) -> Option<u64>
        ensures { result ≡ held_in self.now.shape list (find (λ (c : Counted). same_id c.id object) self.now.objects) }
    {
        match first_named(self.index.objects.as_slice(), object) {
            None => None,
            Some(counted) => Some(holders(self.index.is_immortal(counted), list, counted)),
        }
    }

    /// The state of an object, or none where no thread has made that many.
    pub fn life(&self, object: ObjectId) -> Option<Life>
        ensures { (h : History) → StandsFor self.now h → result ≡ life_in self.now.shape (named object (heap_after h)) }
    {
        self.told_life(object)
    }

    /// How many holders a list of an object has, or none where no thread has made that many objects.
    pub fn holders(&self, object: ObjectId, list: Kind) -> Option<u64>
        ensures { (h : History) → StandsFor self.now h → result ≡ holders_in self.now.shape list (named object (heap_after h)) }
    {
        self.told_holders(object, list)
    }

    fn object_count(&self) -> u64
        ensures { result ≡ length self.now.objects }
    {
        self.index.objects.as_slice().len() as u64
    }

    /// How many objects were made.
    pub fn objects(&self) -> u64
        ensures { (h : History) → StandsFor self.now h → result ≡ length (heap_after h).objects }
    {
        self.object_count()
    }
}

// The object of that name.
fn first_named(objects: &[Counted], object: ObjectId) -> Option<Counted>
    ensures { result ≡ find (λ (c : Counted). same_id c.id object) objects.now }
{
    let mut at = 0;
    while at < objects.len() {
        let counted = objects[at];
        if is_same(counted.id, object) {
            return Some(counted);
        }
        at += 1;
    }
    None
}

fn is_same(a: ObjectId, b: ObjectId) -> bool
    ensures { result ≡ same_id a b }
{
    a.thread == b.thread && a.number == b.number
}

fn life_of(immortal: bool, c: Counted) -> Life
    ensures { result ≡ lived_so immortal c }
{
    if is_live(immortal, c) {
        return Life::Live;
    }
    if is_deiniting(c) {
        return Life::Deiniting;
    }
    if c.unowned != 0 {
        return Life::Deinited;
    }
    if c.weak != 0 {
        return Life::Freed;
    }
    Life::Dead
}

fn is_deiniting(c: Counted) -> bool
    ensures { result ≡ is_due_deinit c.owed }
{
    match c.owed {
        None => false,
        Some(debt) => match debt.due {
            Due::Deinit => true,
            Due::Vacating => false,
            Due::Gone => false,
        },
    }
}
