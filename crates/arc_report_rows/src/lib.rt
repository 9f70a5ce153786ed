//! Worked reports, by their text.
//!
//! Each row is a script, or lines and words, with the text that was written by hand. Nothing is promised here, and nothing that runs
//! calls it.
#![tactic(auto)]

#[cfg(test)]
mod fixtures;
#[cfg(test)]
mod tests;
