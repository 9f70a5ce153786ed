//! Whether a line is accepted, and what is refused in it.

pub use arc_model::Answer;

/// A line of a thread: the number of the operation among the thread's, from 1, or 0 for the end of the thread's scope, and its
/// answer.
#[derive(Clone, Copy, Debug, PartialEq, Eq)]
pub struct Line {
    pub operation: u32,
    pub answer: Answer,
}
