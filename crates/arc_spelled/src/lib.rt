//! What the events and lines of a thread's machine spell. No function does anything: the contracts are laws.
//!
//! A stepper stands for notes: its events, its lines, and what the words showed that it was given. The notes of a new one are none; each word
//! that it may be given adds what it shows; and where the thread has ended, the notes spell its program, which `arc_programs` defines.
//! Where what was shown holds of the heap, the notes are those of the thread in the history.
//!
//! It says nothing of whether a step is allowed, nor that what a word shows does hold of a heap: that is a premise here, and shown in
//! `arc_ops_passes`. What comes out of cells, which other threads write too, and the chain of deinits that wait for one another are
//! premises as well.
#![tactic(auto)]

ghost use Rattle.arc_spelled.specs.Spelled.{SteppersBegin, MoreIsKnown, SteppersGoOn, EndedSteppersSpell, ReadySteppersHaveDone, AddedNotesAreTied};
ghost use Rattle.arc_spelled.specs.Puts.{PutsAreFew, NotesCountCells, FewAreTaken, HandsAreLeft};

/// A stepper stands for the notes that spell its thread's program up to where it is, under the chain of deinits that wait for one another: a
/// new one for none, and after each word that it may be given, and that shows the chain, for these with what this turn adds, where what comes
/// out of a cell is known. The event that it tells, or none, is what the events have more. It stands for the same notes where more is known
/// of what came.
pub fn stepper_stands_for()
    ensures begins { SteppersBegin }
    ensures more_is_known { MoreIsKnown }
    ensures goes_on { SteppersGoOn }
{}

/// Where a stepper has ended, its notes spell the program of its thread, and of their lines it has kept the first ones, as many as it
/// has room for.
pub fn ended_is_spelled()
    ensures { EndedSteppersSpell }
{}

/// Where a stepper waits for a phase, its notes spell the operations of the phases before that one.
pub fn ready_has_done()
    ensures { ReadySteppersHaveDone }
{}

/// Where the words that a thread's steps found show what holds of the heap, the notes that they add are those of the thread in the
/// history with the event.
pub fn added_notes_are_tied()
    ensures { AddedNotesAreTied }
{}

/// The notes that a stepper stands for put at most one reference into a cell for each operation of its program, wherever it is in an
/// operation, a drop or a deinit.
pub fn puts_are_few()
    ensures { PutsAreFew }
{}

/// A thread's share of a history puts into cells and takes out of fields what its notes do.
pub fn notes_count_cells()
    ensures { NotesCountCells }
{}

/// In a legal history in which the notes of each of a script's threads are those that a stepper stands for, and in which no other
/// thread has an event, each thread takes few references out of fields, since what comes out was put in before, and the operations
/// of a script are few. Each of these steppers has counted what its thread took, and has a hand left.
pub fn hands_are_left()
    ensures few { FewAreTaken }
    ensures left { HandsAreLeft }
{}
