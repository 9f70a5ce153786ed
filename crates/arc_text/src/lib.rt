//! Words, lines, numbers and names of texts.
//!
//! Bytes are split into lines and lines into words; numbers of at most twenty digits are read and written; a name is spelled as one.
//! Each function is equal, by contract, to one of the lists of bytes. It knows no language: what words mean is said in `arc_script` and
//! `arc_command`.
#![tactic(auto)]

mod lines;
mod name;
mod words;

pub use lines::Lines;
pub use name::Name;
pub use words::{are_plain, cut_at, is_comment, is_name, marks_in, number_in, words_of};
