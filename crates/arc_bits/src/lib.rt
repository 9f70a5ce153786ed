//! The inline word of an object's header: its counts and flags, or the number of its side table entry, in 64 bits.
//!
//! `pack` and `unpack` go between a word and what it says, and back: each word has one reading at most. The four moves of counts
//! (`fast`) are one sum on the packed word each, and equal to the moves on counts by contract.
//!
//! It knows no heap, no slot and no thread, and makes no step: a word is a number here. Which counts a heap has is said in `arc_rule`;
//! whether a count may rise is its caller's to ask.
#![tactic(auto)]

mod fast;
mod moves;
mod packing;

pub use fast::{has_no_strong_extra, strong_down_packed, strong_up_packed};
pub use moves::{AtCap, strong_down, strong_up, unowned_down, unowned_up};
pub use packing::{Inline, Word, pack, unpack};
