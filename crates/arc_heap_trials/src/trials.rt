//! What a trial is. The history is tried in five stages (making, migrating, referring, dying, again), each on the heap that the one
//! before it leaves. Every act occurs with every outcome, and before them, wherever it is judged so, each need of each act as the
//! first that fails: an event that is refused stands where it is tried.

use arc_model::{Act, Illegal};

/// A thread, its act, and what is wrong with the act's first need that fails, where one does.
pub type Trial = (u32, Act, Option<Illegal>);
