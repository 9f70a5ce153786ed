//! What a stepper tells: the events and the lines of its thread.

use arc_model::Event;
use arc_script::Line;
use sqlite_items::Items;

/// The lines of a thread, in their order. Contracts see the `Items` as the list; `Items::from_vec` makes one of a `Vec` without
/// taking memory.
#[derive(Debug, Drop)]
pub struct ThreadLines {
    pub thread: u32,
    pub lines: Items<Line>,
}

/// An event with the number of the step that made it, from 1.
#[derive(Clone, Copy, Debug, PartialEq, Eq)]
pub struct Stamped {
    pub step: u64,
    pub event: Event,
}
