//! How many references come out of cells: no more than were put into them, over all threads and for each thread.
//!
//! No function does anything: the contracts are laws of every legal history. What lies in cells, what swaps brought out of them and what
//! deinits took out of fields is together what swaps put in, so that a thread that knows how many operations can put one bounds the numbers
//! of the hands that deinits take (`HandsFit`).
//!
//! It says nothing of which hand is taken, nor of words, steps and programs: that each operation puts one reference at most is said in
//! `arc_spelled`. References that are retained without a cell aren't counted.
#![tactic(auto)]

ghost use Rattle.arc_hand_counts.specs.Laws.{CellsAddUp, TakesWerePut, OwnTakesWerePut, ThreadsAddUp, HandsFit};

/// After every legal history the cells that hold a reference, the references that swaps brought out of cells and those that
/// deinits took out of fields are together as many as the references that swaps put into cells. This project's own.
pub fn cells_add_up()
    ensures { CellsAddUp }
{}

/// Deinits take no more references out of fields than swaps put into cells, all threads together, and so does each thread
/// alone: what one thread takes another may have put there. This project's own.
pub fn takes_were_put()
    ensures all { TakesWerePut }
    ensures own { OwnTakesWerePut }
{}

/// Where no event is of a thread above a number, the acts of a sort in a history are those in the share of each thread up to
/// the number, added up. This project's own.
pub fn threads_add_up()
    ensures { ThreadsAddUp }
{}

/// Where each thread up to a number puts at most so many references into cells, and no other thread has an event, each
/// thread takes at most their sum out of fields. This project's own.
pub fn hands_fit()
    ensures { HandsFit }
{}
