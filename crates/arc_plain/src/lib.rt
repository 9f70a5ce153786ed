//! Plain words, and the replay of a script on them.
//!
//! `replay` makes a heap of words in a list, a stepper for each thread, and lets these make their steps by the schedule; behind its last place
//! each phase goes on to its end, thread after thread. It promises that what it gives (events, lines, the last words, how many steps it
//! made) is that of a replay as `arc_replays` defines one, and so has one legal history; and that it ends, by a measure that each step makes less.
//!
//! It refuses nothing but for want of memory. Nothing here runs at once: steps come one after the other, and no promise is made of time. Which
//! scripts may be replayed is asked before, of `arc_served`.
#![tactic(auto)]

mod crew;
mod replay;
mod words;

pub use arc_ops::{Stamped, ThreadLines};
pub use replay::{Replay, replay_all};
pub use words::PlainWords;
