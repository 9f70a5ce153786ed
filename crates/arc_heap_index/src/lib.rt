//! The parts of the index of a heap: rows of places, counts of hands, logs of slots and entries, and an object's counts in
//! place of its holders.
//!
//! Places are found by number, hands are counted, and logs keep for each slot and entry since when it is taken. Each part is equal, by
//! contract, to a plain function of lists.
//!
//! It judges nothing: what the parts together say of an event stands in `arc_heap_judge`, and that they stand for a heap of holder
//! lists too.
#![tactic(auto)]

mod counted;
mod mark;
mod reach;
mod slots;
mod table;

pub use counted::{
    Counted, Debt, Due, Found, Held, Place, count, enter, finish, go, holders, is_countable,
    is_live, one_less, one_more, owes, raised, vacate,
};
pub use mark::{Mark, first_marks};
pub use reach::{Reach, Tally};
pub use slots::{Owner, SlotState, Slots};
pub use table::{Row, Table};
