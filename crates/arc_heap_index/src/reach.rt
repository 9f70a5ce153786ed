//! How many strong hands each thread has of the object in each slot.
ghost use Rattle.std.specs.Prelude.{◌≡◌, ◌<◌, slice_index_or};
ghost use Rattle.arc_heap_index.specs.Counting.{at_place, most, raised as raised_to, tally_at, tally_raised, tally_lowered};
ghost use Rattle.std.specs.Prelude.{◌-◌, IfOk};
ghost use Rattle.arc_heap_index.specs.Fresh.{IsZero, AreZero};

use crate::counted::raised;
use std::alloc::{AllocError, Global};
use std::marker::Model;

/// How many strong hands a thread has of the object in each slot.
#[derive(Debug, Drop)]
pub struct Tally {
    counts: Vec<u32>,
}

impl Model for Tally {
    ghost use Rattle.std.specs.Prelude.{ℕ, List};

    ghost Value = { List ℕ };

    ghost view = { λ t. t.counts.items };
}

impl Tally {
    fn new(alloc: Global, count: u32) -> Result<Tally, AllocError>
        ensures { IfOk result (IsZero count) }
    {
        let mut counts = Vec::new(alloc);
        for _ in 0..count {
            counts.push(0)?;
        }
        Ok(Tally { counts })
    }

    fn at(&self, slot: u32) -> u32
        ensures { result ≡ slice_index_or self.now slot 0 }
    {
        match self.counts.get(slot as usize) {
            Some(n) => *n,
            None => 0,
        }
    }

    #[tactic(auto, using(crate::proofs::Places::places))]
    fn raise(&mut self, slot: u32)
        ensures { self.new ≡ at_place slot (raised_to most) self.old }
    {
        if (slot as usize) < self.counts.len() {
            self.counts[slot as usize] = raised(u32::MAX, self.counts[slot as usize]);
        }
    }

    #[tactic(auto, using(crate::proofs::Places::places))]
    fn lower(&mut self, slot: u32)
        ensures { self.new ≡ at_place slot (λ n. n - 1) self.old }
    {
        if (slot as usize) < self.counts.len() {
            self.counts[slot as usize] = self.counts[slot as usize].saturating_sub(1);
        }
    }
}

/// The same, for each thread.
#[derive(Debug, Drop)]
pub struct Reach {
    rows: Vec<Tally>,
}

impl Model for Reach {
    ghost use Rattle.std.specs.Prelude.{ℕ, List};

    ghost Value = { List (List ℕ) };

    ghost view = { λ r. r.rows.items };
}

impl Reach {
    /// That many threads, none of which has a strong hand of an object in one of that many slots.
    pub fn new(alloc: Global, threads: u32, slots: u32) -> Result<Reach, AllocError>
        ensures { IfOk result (AreZero threads slots) }
    {
        let mut rows = Vec::new(alloc);
        for _ in 0..threads {
            rows.push(Tally::new(alloc, slots)?)?;
        }
        Ok(Reach { rows })
    }

    pub fn at(&self, thread: u32, slot: u32) -> u32
        ensures { result ≡ tally_at thread slot self.now }
    {
        match self.rows.get(thread as usize) {
            Some(tally) => tally.at(slot),
            None => 0,
        }
    }

    #[tactic(auto, using(crate::proofs::Places::places))]
    pub fn raise(&mut self, thread: u32, slot: u32)
        ensures { self.new ≡ tally_raised thread slot self.old }
    {
        if (thread as usize) < self.rows.len() {
            let tally = &mut self.rows[thread as usize];
            tally.raise(slot);
        }
    }

    #[tactic(auto, using(crate::proofs::Places::places))]
    pub fn lower(&mut self, thread: u32, slot: u32)
        ensures { self.new ≡ tally_lowered thread slot self.old }
    {
        if (thread as usize) < self.rows.len() {
            let tally = &mut self.rows[thread as usize];
            tally.lower(slot);
        }
    }
}
