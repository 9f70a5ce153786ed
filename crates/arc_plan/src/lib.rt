//! Plans on one inline word: an object is made, its strong and unowned references go up and down, its slot is given up.
//!
//! A plan is asked for its next step, given the word that the last one found, and in the end has an answer. Each is equal, by contract,
//! to a total function of what it was given: a search of the bits of free slots with the stores of a new object, counts that rise and
//! fall by one attempt and its exchange, and plans of one step.
//!
//! A plan knows no thread, no history and no reference, makes no step itself and takes no memory. What it may be given is a premise;
//! that its steps are allowed is shown in `arc_view`, and what its answers mean for a caller in `arc_table`.
#![tactic(auto)]

pub mod free;
mod slots;
mod strong;
#[cfg(test)]
mod tests;
mod unowned;

pub use slots::{NameOf, NewObject, NewObjectAnswer, Once, Vacate};
pub use strong::{StrongDown, StrongDownAnswer, StrongUp, StrongUpAnswer};
pub use unowned::{UnownedDown, UnownedDownAnswer, UnownedUp, UnownedUpAnswer};
