//! How a thread's events and lines spell what it did: drops, deinits, the ends of slots and gains, as relations by data. No function does
//! anything: the contracts are laws.
//!
//! A thread's notes are its events, its lines, and what the heap showed in between, the newest first; each relation goes from the notes
//! before to the notes after. The notes are tied to a history of all threads: its events are the thread's share of it, and what is noted
//! held at that point.
//!
//! It promises that each spelling reads from left to right as well, that what is noted held at a point between two events of the thread,
//! and that a spelled deinit reads every field, drops all that it takes out and leaves no claim open. It says nothing of programs (these are
//! in `arc_programs`), and whoever judges or counts events needs none of it.
#![tactic(auto)]

mod laws;

pub use laws::{facts_are_recent, notes_are_share, nothing_is_left, reads_in_order};
