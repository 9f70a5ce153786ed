//! Tests of the script language: which line is refused, and with which number.
//!
//! A text for each form of a line and each fault that it can have, and whole texts. Nothing is promised here, and nothing that runs
//! calls it.
#![tactic(auto)]

#[cfg(test)]
mod heading_lines;
#[cfg(test)]
mod operation_lines;
#[cfg(test)]
mod places;
#[cfg(test)]
mod rows;
#[cfg(test)]
mod second;
#[cfg(test)]
mod texts;
#[cfg(test)]
mod thread_lines;
