//! Bytes in and bytes out: sources and sinks that count their faults, and the calls that read or write all.
//!
//! A fault is answered only where the count of the object handed in rose, so that each caller above can say
//! whose fault ended it.
#![tactic(auto)]

mod in_memory;
mod moving;
mod standard;
mod traits;

pub use in_memory::{MemSink, MemSource, Memory};
pub use moving::{InFault, read_all, write_all};
pub use standard::{StdSink, StdSource};
pub use traits::{Failed, Sink, Source};

#[cfg(test)]
mod tests;
