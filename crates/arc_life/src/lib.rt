//! The whole life of an object by single steps: each kind of step is made on one heap, with the event that it has and the word that it finds.
//!
//! A list of steps of one pass, written once, runs on a heap with a slot for each kind of object, one entry, a global and a field of
//! each kind. It promises, by contract, that each step finds the word that is written beside it and that the pass has then seen exactly
//! the events that are written.
//!
//! It is a test of `arc_table`'s single step: nothing that runs calls it, and its edits are wrong steps, which the prover refuses.
//! Several threads don't appear in it.
#![tactic(auto)]

mod deeds;
mod heaps;
mod life;
#[cfg(test)]
mod tests;

pub use deeds::{Deed, done};
pub use heaps::life_heap;
pub use life::lived;
