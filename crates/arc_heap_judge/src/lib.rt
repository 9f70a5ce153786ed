//! The index of a heap judges events: what it keeps, when it stands for a history, and the first need of an event that fails.
//!
//! An `Index` stands for a history where each of its parts says what the heap of holder lists after that history has. Of an event its
//! judge gives the first need that fails, or says that none does, in the order of `arc_model`'s table.
//!
//! It changes nothing: what an event makes of the index is `arc_heap`'s. It takes no memory.
#![tactic(auto)]

mod heap_index;
mod judge;

pub use heap_index::HeapIndex;
