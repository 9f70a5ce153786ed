//! A history in which each act has each of its outcomes, and each need of each act fails, tried on the index of the heap.
//!
//! The history is a table, and each of its rows an event with the answer that it is to have. Nothing is promised here, and nothing that
//! runs calls it.
#![tactic(auto)]

#[cfg(test)]
mod again;
#[cfg(test)]
mod dying;
#[cfg(test)]
mod forever;
#[cfg(test)]
mod making;
#[cfg(test)]
mod migrating;
#[cfg(test)]
mod referring;
#[cfg(test)]
mod tests;
#[cfg(test)]
mod trials;
