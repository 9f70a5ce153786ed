//! The command line: the words that are read of it, and what they ask for.
//!
//! `command_of` gives for a list of words the one command that they ask for, or says that they ask for none; its table stands in the
//! definitions.
//!
//! It reads and writes nothing, and knows no status: what a command does and how it ends is `arc`'s.
#![tactic(auto)]

mod command;
mod number;
#[cfg(test)]
mod tests;
mod words;

pub use command::{Arg, Command, command_of};
pub use words::{Found, HostLine, Line, Words, words_of};
