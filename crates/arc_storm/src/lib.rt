//! Generated scripts.
//!
//! `storm` makes the script that a count and a start give: the same for the same numbers, on every machine, by the generator
//! `rand_pcg`. It promises that the script is one, within the limits of the language, and that its text is equal to what the
//! definitions draw.
//!
//! It promises nothing of how well a script tries what runs it. Tests compare whole texts by length and sum.
#![tactic(auto)]

mod declare;
mod generate;
#[cfg(test)]
mod tests;

pub use generate::storm;
