//! Plans of references that an entry counts, or an inline word or an entry: a reference more, a reference fewer; and the plans by which
//! an entry is claimed, published and given back, and a slot ends.
//!
//! Each is a plan as those of `arc_plan` are: asked for a step, given a word, equal by contract to a total function. `Up` and `Down`
//! begin at the inline word and go on to the entry that it names, so that whoever counts a reference need not know where its count
//! lies.
//!
//! They know no thread, no history and no reference, make no step themselves and take no memory. That their steps are allowed is shown
//! in `arc_view`; what they may be given is a premise.
#![tactic(auto)]

mod claim;
mod count;
mod down;
mod entry_down;
mod entry_up;
mod give_back;
mod inline;
mod laws;
mod publish;
mod slot_end;
#[cfg(test)]
mod tests;
mod up;
mod weak_load;
mod weak_of;

pub use claim::{Claim, ClaimAnswer};
pub use down::{Down, DownAnswer};
pub use entry_down::{EntryDown, EntryDownAnswer};
pub use entry_up::{EntryUp, EntryUpAnswer};
pub use give_back::GiveBack;
pub use laws::downs_tell;
pub use publish::{Publish, PublishAnswer};
pub use slot_end::{SlotEnd, SlotEndNext, gives_back};
pub use up::{Up, UpAnswer};
pub use weak_load::{Reads, WeakLoad, WeakLoadAnswer};
pub use weak_of::{WeakOf, WeakOfAnswer};
