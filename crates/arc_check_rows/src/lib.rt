//! Histories written by hand, one that isn't legal for each need of each event, and texts that are none.
//!
//! Each row is a text and the answer that it is to have. Nothing is promised here, and nothing that runs calls it: it shows that what
//! `arc_check` promises is what was meant.
#![tactic(auto)]

#[cfg(test)]
mod rows;
#[cfg(test)]
mod tests;
