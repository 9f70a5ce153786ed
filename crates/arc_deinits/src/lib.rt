//! What the events and lines of a deinit spell, with those of the objects that die with it.
//!
//! No function does anything: the contracts are laws. Behind each word that a cascade, the drop of a reference or the end of a slot may
//! be given, its events, its lines and what its loads found spell the deinit up to where it is, under the chain of deinits that wait
//! for one another; and where it is over they spell it whole.
//!
//! That what was found does hold of a heap, and that a next word names the deinit that waits, are premises. It says nothing of whether
//! a step is allowed.
#![tactic(auto)]

ghost use Rattle.arc_deinits.specs.References.{SlotEndsGoOn, DropsGoOn};
ghost use Rattle.arc_deinits.specs.Stands.{CascadesBegin, CascadesGoOn};

/// The end of a slot stands for the notes that spell it up to where it is, after each word that it may be given; where it is over, it is
/// spelled.
pub fn slot_ends_are_spelled()
    ensures { SlotEndsGoOn }
{}

/// So does the drop of a reference of any kind. Where it was the last strong one, its object is the one that dies.
pub fn drops_are_spelled()
    ensures { DropsGoOn }
{}

/// A cascade stands for the notes that spell the deinits up to where it is: a new one for those behind which it begins, and after each
/// word that it may be given for these with what the word shows. It tells an object once for each line of a deinit. Where all is over
/// the deinit is spelled.
pub fn cascades_are_spelled()
    ensures begins { CascadesBegin }
    ensures goes_on { CascadesGoOn }
{}
