//! What a run leaves: a thread whose program came to its end has nothing, and where strong fields lead one way along the
//! classes every object is dead.
//!
//! No function does anything: the contracts are laws. Between two operations a thread owes nothing and has claimed nothing; behind its
//! scope it has no hand; and behind the end section no object but an immortal one is left, where strong fields lead one way along the
//! classes.
//!
//! Where they lead in a circle objects may be left, and nothing is said of which. The history is a premise here, and so is that each
//! thread's program is in it.
#![tactic(auto)]

ghost use Rattle.arc_quiet.specs.Finished.{FinishedIsQuiet, SettledBetweenOperations};
ghost use Rattle.arc_quiet.specs.OneWay.{QuietIsDead};
ghost use Rattle.arc_quiet.specs.Premises.{CanBeMet, EachIsNeeded};
ghost use Rattle.arc_quiet.specs.Quiet.{LiveIsHeld};
ghost use Rattle.arc_quiet.specs.Whole.{CellsKeepClassesAfter, LeavesNothing, WholeIsQuiet};

/// In a heap in which no thread has a hand, a duty or a claim, and each global is nil, a live object that isn't immortal is held by
/// a strong field of a live object. Source: The Swift Programming Language, strong reference cycles between class instances.
pub fn live_is_held()
    ensures { LiveIsHeld }
{}

/// Where no class is immortal, the class of each strong field stands later among the class lines than the class that declares it, and
/// each cell refers to an object of its class, every object of such a heap is dead. This project's own.
pub fn quiet_is_dead()
    ensures { QuietIsDead }
{}

/// Between two operations a thread owes nothing and has claimed nothing: an operation ends each deinit that it brings about, frees
/// what it was the last to hold, and publishes or gives back an entry that it claimed. Source: RefCount.h, a release runs the
/// deinit and frees the allocation before it returns.
pub fn settled_between_operations()
    ensures { SettledBetweenOperations }
{}

/// A thread whose program came to its end holds nothing, owes nothing and has claimed nothing, whatever other threads did
/// meanwhile or do later. Source: this project's own; each operation ends with the release of what it replaced.
pub fn finished_is_quiet()
    ensures { FinishedIsQuiet }
{}

/// Where every thread of a script has its whole program in a history, thread 0 behind all others, and no other thread an event,
/// the heap after it is quiet: nobody holds, owes or has claimed anything, and each global is nil.
pub fn whole_is_quiet()
    ensures { WholeIsQuiet }
{}

/// Where every thread of a script has its whole program in a history, and no other thread an event, each cell refers to an
/// object of the class that the script declares for it. This project's own.
pub fn cells_keep_classes()
    ensures { CellsKeepClassesAfter }
{}

/// A program without an immortal class whose strong fields lead one way leaves nothing behind: where the class of each strong field stands later among the
/// class lines than the class that declares it, every thread's share is spelled to its end, thread 0's events stand last and
/// no event is of another thread, every object is dead. Source: The Swift Programming Language, a leak is a strong reference
/// cycle; the order of the classes is this project's own.
pub fn leaves_nothing()
    ensures { LeavesNothing }
{}

/// Each premise of that law is needed: where one fails and all others hold an object may be left, as in a strong cycle, for an
/// immortal object, where a thread stops before its end, where a global isn't cleared or is written behind the end section, and where a thread without
/// a program has an event. All premises hold of some history.
pub fn each_premise_is_needed()
    ensures needed { EachIsNeeded }
    ensures met { CanBeMet }
{}
