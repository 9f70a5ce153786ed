//! Scripts, and the events and lines of their replays. Each step is counted by hand: `new` loads the bits of the slots, sets the first
//! one that is clear (here is `new`) and writes the count and the name, a copy and a drop load the count and exchange it, and the deinit
//! behind a last drop makes six steps: next word, name (here stands its line), next word, count, count (here is `finish`), and the bit of
//! the slot (here is `vacate`). Where an unowned reference is left there is no `vacate` behind `finish`, but right behind the drop of the
//! last one. An unowned reference is formed as one is copied; a load of one has one step more, in which the name is read.
//!
//! Without globals no thread sees an object of another, so the one step that another thread can make vain is that which sets a bit: it finds the bit
//! set that was clear when it was loaded, and `new` is begun again.

use arc_model::Act;
use arc_ops::Answer;

/// A script with its replay: the step, the thread and the act of each event, the operation and the answer of each thread's lines, the
/// number of steps, and the bits of the slots that are taken in the end.
pub struct Row {
    pub text: &'static str,
    pub events: &'static [(u64, u32, Act)],
    pub lines: &'static [&'static [(u32, Answer)]],
    pub steps: u64,
    pub taken: u64,
}
