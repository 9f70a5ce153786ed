//! Who has each slot or entry, and a log of those that became free.
ghost use Rattle.std.specs.Prelude.{◌≡◌, ◌<◌, ◌≤◌, ℕ, Bool, false, length, None, OnOk, OnErr, IfOk};
ghost use Rattle.arc_heap_index.specs.Freeing.{is_current_entry, IsFront, owner_at, are_seen as each_seen, taken, freed, changed, AreFree};

use std::alloc::{AllocError, Global};
use std::marker::Model;

/// Who has a slot or an entry.
#[derive(Clone, Copy, Debug, PartialEq, Eq)]
pub enum Owner {
    /// An object, by its place among all that were made.
    Object(usize),
    /// A thread that claimed it.
    Claim(u32),
}

/// A slot or entry is taken, or it is free, by an entry of the log.
#[derive(Clone, Copy, Debug, PartialEq, Eq)]
pub enum SlotState {
    Taken(Owner),
    Free(usize),
}

/// Slots or entries, with a log of those that became free, the oldest first, and the log's first entry that still holds. The
/// log has room for an entry of each that is taken, so that nothing takes memory to become free.
#[derive(Debug, Drop)]
pub struct Slots {
    states: Vec<SlotState>,
    log: Vec<u32>,
    frees: usize,
    front: usize,
}

impl Model for Slots {
    ghost use Rattle.arc_heap_index.specs.Freeing.{Freed, IsLogged};

    ghost Value = { Freed };

    ghost view = { λ s. record { states = s.states.items; frees = s.frees } };

    ghost invariant = { λ s. IsLogged s.states.items s.log.items s.frees s.front };
}

fn is_current(states: &[SlotState], log: &[u32], at: usize) -> bool
    ensures { result ≡ is_current_entry states.now log.now at }
{
    match log.get(at) {
        None => false,
        Some(slot) => match states.get(*slot as usize) {
            Some(SlotState::Free(entry)) => *entry == at,
            _ => false,
        },
    }
}

// The first entry, at `from` or later, that still holds.
fn first_current(states: &[SlotState], log: &[u32], frees: usize, from: usize) -> usize
    requires within { from ≤ frees }
    requires stale { (j : ℕ) → j < from → is_current_entry states.now log.now j ≡ false }
    ensures { IsFront states.now log.now frees result }
{
    let mut at = from;
    while at < frees {
        if is_current(states, log, at) {
            return at;
        }
        at += 1;
    }
    at
}

impl Slots {
    /// That many, none of which was ever taken.
    pub fn new(alloc: Global, count: u32) -> Result<Slots, AllocError>
        ensures { IfOk result (λ s. AreFree count s) }
    {
        let mut states = Vec::new(alloc);
        let mut log = Vec::new(alloc);
        for slot in 0..count {
            states.push(SlotState::Free(slot as usize))?;
            log.push(slot)?;
        }
        Ok(Slots {
            states,
            log,
            frees: count as usize,
            front: 0,
        })
    }

    /// Who has it.
    pub fn at(&self, slot: u32) -> Option<Owner>
        ensures { result ≡ owner_at slot self.now }
    {
        match self.states.get(slot as usize) {
            Some(SlotState::Taken(holder)) => Some(*holder),
            _ => None,
        }
    }

    /// How often one became free.
    pub fn frees(&self) -> usize
        ensures { result ≡ self.now.frees }
    {
        self.frees
    }

    /// Each is taken, or became free when `since` had.
    pub fn are_seen(&self, since: usize) -> bool
        ensures { result ≡ each_seen since self.now }
    {
        if since <= self.front {
            return true;
        }
        if self.frees <= self.front {
            return true;
        }
        false
    }

    /// Takes one. It makes room for the entry that tells when it becomes free.
    #[tactic(auto, using(crate::proofs::Places::places))]
    pub fn take(&mut self, slot: u32, holder: Owner) -> Result<(), AllocError>
        ensures ok { OnOk result (self.new ≡ taken slot holder self.old) }
        ensures err { OnErr result (self.new ≡ self.old) }
    {
        self.log.push(0)?;
        if (slot as usize) < self.states.len() {
            self.states[slot as usize] = SlotState::Taken(holder);
            let front = first_current(
                self.states.as_slice(),
                self.log.as_slice(),
                self.frees,
                self.front,
            );
            self.front = front;
        }
        Ok(())
    }

    /// Gives one that is taken to another.
    #[tactic(auto, using(crate::proofs::Places::places))]
    pub fn change(&mut self, slot: u32, holder: Owner)
        ensures { self.new ≡ changed slot holder self.old }
    {
        if self.at(slot).is_none() {
            return;
        }
        if (slot as usize) < self.states.len() {
            self.states[slot as usize] = SlotState::Taken(holder);
        }
    }

    /// One that is taken becomes free.
    #[tactic(auto, using(crate::proofs::Places::places))]
    pub fn free(&mut self, slot: u32)
        ensures { self.new ≡ freed slot self.old }
    {
        if self.at(slot).is_none() {
            return;
        }
        let frees = self.frees;
        if frees >= self.log.len() {
            return;
        }
        if (slot as usize) >= self.states.len() {
            return;
        }
        self.log[frees] = slot;
        self.states[slot as usize] = SlotState::Free(frees);
        self.frees = frees + 1;
    }
}
