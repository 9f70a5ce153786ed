//! What an operation answers, as its line says it.

use crate::event::ObjectName;

/// What an operation answers, and the line that tells of a deinit.
#[derive(Clone, Copy, Debug, PartialEq, Eq)]
pub enum Answer {
    /// `new` made this object.
    New(ObjectName),
    /// `new` found no free slot.
    Full,
    /// `load` took a strong reference to this object.
    Got(ObjectName),
    Ok,
    /// The source or the owner was nil, or a weak reference's object isn't live.
    Nil,
    /// An unowned reference's object isn't live.
    Dead,
    /// No side table entry was free.
    NoEntry,
    /// A count is at its greatest.
    CountFull,
    /// The object's deinit began.
    Deinit(ObjectName),
}
