//! Why a history stops being legal, or why it can't be judged.
use arc_model::Illegal;

/// Why an event was refused.
#[derive(Clone, Copy, Debug, PartialEq, Eq)]
pub enum Refusal {
    /// The event isn't legal: what is wrong with the first of its needs that fails.
    Illegal(Illegal),
    /// No memory was found for a legal event that makes something grow, or a list already has 4,294,967,295 holders that come
    /// and go.
    Memory,
}
