//! Cells and the deinit of an object as machines: which steps they make, which objects die.
//!
//! A `Swap` exchanges a cell's word, a `Begin` and an `End` bracket an access, a `RefDrop` drops one reference of any kind, and a
//! `Cascade` deinits an object with all that die with it, in single steps, without memory and at any depth. Each is equal, by contract,
//! to a total function of what it was given.
//!
//! They make no step themselves: they say which step they ask for and what it is made for, and are told the word. What they may be told
//! is a premise. That a step is allowed is shown in `arc_view`, that a deinit's events spell it in `arc_deinits`.
#![tactic(auto)]

mod begin;
mod cascade;
mod end;
mod fields;
mod parent;
mod ref_drop;
mod swap;
#[cfg(test)]
mod tests;

pub use begin::{Begin, BeginAnswer};
pub use cascade::{Cascade, CascadeNext};
pub use end::End;
pub use ref_drop::{RefDrop, RefDropNext};
pub use swap::{Swap, SwapAnswer};
