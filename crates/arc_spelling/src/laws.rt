//! Laws of how a thread's events spell what it did.

ghost use Rattle.arc_spelling.specs.SpellingInOrder.{ReadsInOrder};
ghost use Rattle.arc_spelling.specs.SpellingLaws.{DeinitsAreWhole, HandsAreDropped, ClaimsAreSettled};
ghost use Rattle.arc_spelling.specs.SpellingTies.{NotesAreShare, NotesCountHands, TiesWithoutCauses, CausesAreRecent, FactsAreRecent, OthersAddNothing};

/// Each drop, deinit, end of a slot and gain that is spelled with the newest note first is one from left to right.
pub fn reads_in_order()
    ensures { ReadsInOrder }
{}

/// The events among a thread's notes are its share of the history, and the hands that they bring are counted as the
/// thread's next hand is.
pub fn notes_are_share()
    ensures share { NotesAreShare }
    ensures hands { NotesCountHands }
{}

/// What is noted between two events of a thread held at a point between them, whatever other threads did, the cause of a
/// claim too; causes may be left aside.
pub fn facts_are_recent()
    ensures facts { FactsAreRecent }
    ensures others { OthersAddNothing }
    ensures causes { CausesAreRecent }
    ensures left_aside { TiesWithoutCauses }
{}

/// A deinit has its line and reads each field; each reference that it takes out is dropped; a gain leaves no claim open.
pub fn nothing_is_left()
    ensures deinits { DeinitsAreWhole }
    ensures hands { HandsAreDropped }
    ensures claims { ClaimsAreSettled }
{}
