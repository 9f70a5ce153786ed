//! Tests of the limits of the script language, and of large texts.
//!
//! Each limit is tried at its end and one past it. Nothing is promised here, and nothing that runs calls it.
#![tactic(auto)]

#[cfg(test)]
mod limits;
