//! What is written of a history is read back.
//!
//! No function does anything: the contract is a law. The history text that `arc_report` writes of a list of events that fit their
//! heading is read by `arc_check`'s reader as the same events. It says nothing of whether they are legal, nor of a text that was
//! changed.
#![tactic(auto)]

mod laws;

pub use laws::history_text_is_read;
