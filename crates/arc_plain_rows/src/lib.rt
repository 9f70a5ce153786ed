//! Replays of scripts, worked out by hand from what a schedule run is.
//!
//! Each row is a script, its schedule, and the steps, events and lines that were worked out by hand. Nothing is promised here, and
//! nothing that runs calls it.
#![tactic(auto)]

#[cfg(test)]
mod acts;
#[cfg(test)]
mod blocks;
#[cfg(test)]
mod fields;
#[cfg(test)]
mod globals;
#[cfg(test)]
mod lives;
#[cfg(test)]
mod rows;
#[cfg(test)]
mod schedules;
#[cfg(test)]
mod tests;
#[cfg(test)]
mod unowned;
