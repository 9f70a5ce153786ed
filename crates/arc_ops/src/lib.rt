//! One thread of a script as a machine: the steps that it makes one after the other, the events of these steps and the lines of its
//! operations.
//!
//! A `Stepper` asks for one step at a time, is given the word that was found, and goes on by it: `next` is equal to `turned`, a total
//! function of the stepper and the word, made of the plans of `arc_plan`, `arc_side` and `arc_cells`. It promises that it asks for each
//! operation of its thread in order, that it keeps the lines of what it did, and that its hands are numbered as references come.
//!
//! It knows neither other threads nor the heap: that its steps are allowed, and what they find, is said above (`arc_ops_passes`), and what its
//! events and lines spell in `arc_spelled`. What it may be given is a premise (`takes`). It takes no memory once it is made. Scripts
//! that `arc_served` doesn't serve aren't its business.
#![tactic(auto)]

mod asking;
mod cell;
mod drop;
mod ending;
mod gain;
mod get;
mod making;
mod scope;
mod set;
mod stepper;
mod told;

pub use arc_script::{Answer, Line};
pub use stepper::{Move, Stepper, Turn};
pub use told::{Stamped, ThreadLines};
