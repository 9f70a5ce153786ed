//! The texts that a run or a replay prints: the report, the history text and the summary.
//!
//! Each text is equal, by contract, to a list of bytes that the definitions make of lines, events and words: the report with the lines
//! of each thread, the leaks by the bits of taken slots and the totals; the history with its heading; the summary of generated scripts.
//!
//! It reads nothing and judges nothing: lines and words are handed to it. It may say that there is no memory, and nothing else.
#![tactic(auto)]

mod events;
mod history;
mod leaks;
mod left;
mod lines;
mod names;
mod report;
mod shown;
mod summary;
mod totals;

pub use history::history_text;
pub use report::report_text;
pub use summary::summary_text;
