//! The heap of holder lists as a plain program, by an index: each event costs the same, however long the history is.
//!
//! `apply` judges an event and, where it is legal, makes what the event changes; a refusal says which need failed first. It promises
//! that this is the meaning of `arc_model`: the index stands for a history of legal events, and its judgment is that history's.
//!
//! It takes memory only where an event makes something grow, and says so where there is none. It is told events, one after the other,
//! and makes none up; it knows neither words nor threads that run.
#![tactic(auto)]

mod model;
mod moves;
mod refusal;

pub use model::ModelHeap;
pub use refusal::Refusal;
