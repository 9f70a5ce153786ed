//! The reader of scripts and of their headings.
//!
//! `read_script` answers the script that a text says, or the first line that is none and its number; `read_heading` does so for the
//! heading that a script and a history have alike. Both are equal, by contract, to functions of the text's lines, and the time is
//! linear.
//!
//! It may say that there is no memory. It judges the language only: whether a script can be run here is asked elsewhere.
#![tactic(auto)]

mod body;
mod field;
mod group;
mod head;
mod heading;
mod name_set;
mod read;
mod reader;
mod shape;

pub use heading::read_heading;
pub use read::read_script;
