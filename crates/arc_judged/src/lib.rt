//! What a replay writes, as the judge of histories reads it. No function does anything: the contracts are laws.
//!
//! The history text that is printed behind a replay is read back by `arc_check` as the same events of the same heap, and the judge says of it that it
//! is legal, with as many events as were printed; so a replay's output, given to `arc check`, is never called illegal.
//!
//! It stands on what `arc_read_back` says of texts and on the laws of `arc_replays`. It says nothing of a text that was changed, and nothing where
//! the text is longer than the judge reads: that is a premise.
#![tactic(auto)]

mod laws;

pub use laws::{check_says_legal, report_goes_before, what_replay_writes_is_legal};
