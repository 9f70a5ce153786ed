//! References and duties of a pass, and what attempts answer.
use arc_rule::Changed;
use arc_view::view::View;
use atomic_table::Seat;
use std::snapshot::Snapshot;

/// A strong reference to the object in a slot. It is the last hand that its pass had got by then. It must be spent.
pub struct Strong {
    pub(crate) slot: u32,
    pub(crate) at: Snapshot<Seat<(), View>>,
}

/// The duty to deinit the object in a slot, whose last strong reference is gone. It must be spent.
pub struct Dying {
    pub(crate) slot: u32,
}

/// A reference that a cell can hold, or nil.
pub enum Any {
    Nil,
    Strong(Strong),
}

/// What the making of an object comes to.
pub enum Made {
    /// A reference to the new object.
    Ok(Strong),
    /// Each slot was found taken in this call.
    NoSlot,
    /// A word read in this call showed a slot free, and then the slot was found taken: the two words.
    Again(Changed),
}

/// What one more reference comes to, of the kind `T`.
pub enum Up<T> {
    /// The new reference, to the same object.
    Ok(T),
    /// The count has changed between two reads of this call.
    Again(Changed),
    /// The counts of the inline word that was read stand at the strong cap.
    AtCap,
    /// The strong count of the object's entry that was read is the greatest.
    CountFull,
}

/// What a release comes to.
pub enum Release {
    /// Other strong references remain.
    More,
    /// None remains, and the pass owes the object's deinit.
    Last(Dying),
    /// The count has changed between two reads of this call. The reference is given back.
    Again(Strong, Changed),
}

/// What an exchange with a global comes to.
pub enum Swapped {
    /// What was put in stands there, and this stood there before.
    Ok(Any),
    /// The word that was read says that an access to the global is under way. What was to be put in is given back.
    Busy(Any),
    /// The word has changed between two reads of this call. What was to be put in is given back.
    Again(Any, Changed),
}
