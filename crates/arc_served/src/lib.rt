//! Which scripts are served so far, and what a stepper reads of one: the phases and operations of each thread, and room for its lines.
//!
//! It promises that `is_served` answers yes for exactly the scripts that `IsServed` tells, that `Program` has the operations of a
//! thread's phases in one list, each with its number, and that `Lines` keeps each line that finds room, in its order. What is counted
//! (`phases_of`, `ops_in_first`, `vars_of`, `new_count`) is what the definitions say, and `proofs/` has that the blocks of well nested
//! phases go forth and end within their phase.
//!
//! It says nothing of steps, of events or of the heap, nor what an operation does: that is `arc_ops`. Nor does it say that a script is
//! valid: that is `arc_script`. A script that isn't served is no error here; who runs scripts asks first.
#![tactic(auto)]

mod kept;
mod program;
mod programs;
mod served;

pub use kept::Lines;
pub use program::Program;
pub use programs::{new_count, ops_in_first, phases_of, vars_of};
pub use served::is_served;
