//! Where each word of a heap lies, and the steps that are made on them.
//!
//! A `Layout` says where each word lies, an isa word names an object, and `Shows` says which words show which heap: the bridge between
//! the meaning (`arc_model`) and the words (`arc_bits`). A `Step` is a load, an exchange, a store, an or or an and of one word, an
//! `Intent` what it is made for, and a `Plan` whatever asks for steps. The attempt on a word (`Row`) stands here once, for all plans
//! that load, judge and exchange.
//!
//! No step is made here, and none is allowed or forbidden: that is `arc_view`'s. Nothing above speaks of bits.
#![tactic(auto)]

mod attempt;
mod isa;
mod layout;
mod plan;
mod step;

pub use attempt::{At, Choice, Row};
pub use isa::{isa_name, isa_word};
pub use layout::{Layout, Place, place_is_below, places_differ};
pub use plan::{Next, Plan};
pub use step::{Changed, Intent, Step};
