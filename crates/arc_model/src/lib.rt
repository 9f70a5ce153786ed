//! The heap of holder lists: its shape, its events and which of them are legal, and the laws of every legal history.
//!
//! A heap has objects with lists of strong, unowned and weak holders; an event is one act of one thread; `IsLegal` says which histories
//! may be, event by event, by needs that are tests. The laws (`laws`) hold of every legal history: an object's strong list ends once, a
//! weak load gives the object only before, a slot or an entry is given again only once nothing refers to it, what other threads do
//! leaves a thread's own.
//!
//! There is no word, no bit and no packed count here, and no thread that runs. It doesn't say that a history comes about: that is what
//! the crates above show of steps. Limits of shapes and caps are those of RefCount.h.
#![tactic(auto)]

mod answer;
mod caps;
mod event;
mod laws;
mod memory;
mod shape;

pub use answer::Answer;
pub use caps::{Caps, CapsRefused};
pub use event::{Act, CellName, Event, Got, Illegal, Life, ObjectId, ObjectName, Origin};
pub use laws::{
    cell_kinds_after, cells_after, duties_last, entry_given_back_between, immortals_live_on,
    loads_before_end, nil_fields_stay, one_spot, others_leave, own_leave, seen_is_at_point,
    slot_vacated_between, strong_list_ends_once, well_formed_after,
};
pub use memory::Memory;
pub use shape::{ClassShape, Kind, RefShape, Shape, ShapeRefused};
