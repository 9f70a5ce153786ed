//! The heap that threads share: its words are one table of atomic words, and each thread makes its steps with a pass.
//!
//! A `Heap` is made and split into passes, one for each thread; each call (a new object, retain, release, the end of an object, the
//! swap of a global) runs its plan by single atomic steps through `step`, and gives tokens for the references that the thread has. Its
//! contract says which acts of the one history the call was, in at most how many steps, what the pass still has, and each answer with
//! its cause.
//!
//! Passes are joined and the heap is closed with the words that show the heap after the whole history. Nothing is promised of time, of
//! progress, or that threads run at once. References that a thread forgets stay counted.
#![tactic(auto)]

mod asks;
mod cells;
mod close;
mod ends;
mod heap;
mod objects;
mod passes;
mod runs;
mod steps;
mod strong;
#[cfg(test)]
mod tests;
#[cfg(test)]
mod tests_end;
#[cfg(test)]
mod tests_threads;
mod tokens;

pub use close::{Closed, LastPass};
pub use ends::{Finish, Freed, Vacated};
pub use heap::{Heap, Note, Pass};
pub use tokens::{Any, Dying, Made, Release, Strong, Swapped, Up};
