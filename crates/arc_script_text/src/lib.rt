//! The canonical text of a script.
//!
//! `script_text` and `heading_text` are equal, by contract, to the canonical text of a script and of a heading, byte for byte; that it
//! is read back is a law of `arc_script_laws`. It reads nothing, and may say that there is no memory.
#![tactic(auto)]

mod write;

pub use write::{write_heading, write_script};
