//! The judge of history texts: reads one, alone or behind a report, and says whether its events are legal.
//!
//! A text is read line by line against its heading; each event that is read is judged by `arc_heap`, and the first one that is illegal
//! is answered with its line and with the need that failed. A text that is none is answered with the line and the reason.
//!
//! It promises that it says legal for exactly the texts of legal histories, with the number of their events, whether the text stands
//! alone or behind a report. A text of more than 64 MiB isn't judged. It says nothing of scripts: whether a history is one of a script
//! isn't asked.
#![tactic(auto)]

mod act;
mod cell;
mod fault;
mod judge;
mod laws;
mod line;
mod names;
mod numbers;
mod scope;
mod text;
mod word;

pub use fault::CheckFault;
pub use judge::{Verdict, check};
pub use laws::{other_lines_go_before, written_history_is_read};
pub use line::EventLine;
pub use text::{Events, Opened, open_history};
