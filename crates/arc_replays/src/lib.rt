//! A replay of many threads over plain words: which steps it makes, in which order, and that what comes of them is one legal history. No function
//! does anything.
//!
//! The stages that a replay comes to are a relation by data: a place of the schedule is followed, a phase begins, a thread makes a step. At each
//! stage every thread drives a pass of one heap, whose words these are; so each step that a thread asks for may be made, and in the end there is
//! one history: legal, with the program and the lines of each thread, its phases in their order, and no entry taken. Where strong fields lead one
//! way along the classes and immortal objects have none, no object is left but immortal ones.
#![tactic(auto)]

ghost use Rattle.arc_replays.specs.Laws.{StagesAreWhole, ThreadsAreAtWork, StepsMayBeMade, PhasesMayBegin, ReplaysAreHistories};
ghost use Rattle.arc_replays.specs.Replaying.{PlainStepsKeep, ReplaysBegin, ReplaysBeginPhases, ReplaysGoOn, ReplaysAreOneHistory, EndedThreadsSpell};

/// A step on plain words that the rule allows keeps it, and the history has its event more.
pub fn plain_steps_keep()
    ensures { PlainStepsKeep }
{}

/// New steppers may be replayed on words that are all 0. Each step of a thread, whichever it is, goes on so, with its event next in the
/// history. That is one legal history, in which each thread's notes are its own; where one has ended they spell its program, and where all
/// have the words show the heap after it.
pub fn replays_go_on()
    ensures begin { ReplaysBegin }
    ensures phase { ReplaysBeginPhases }
    ensures go_on { ReplaysGoOn }
    ensures one { ReplaysAreOneHistory }
    ensures spell { EndedThreadsSpell }
{}

/// At each stage of a replay there are the script's threads, at work, and a word for each place. A step that a thread asks for may be made,
/// whatever word it finds there, which shows the chain of the thread's deinits that wait, and a phase that a thread waits for may begin.
pub fn stages_go_on()
    ensures whole { StagesAreWhole }
    ensures at_work { ThreadsAreAtWork }
    ensures step { StepsMayBeMade }
    ensures phase { PhasesMayBegin }
{}

/// A replay that has come to its end is one legal history of the script, with the lines of its threads, and no entry is taken. Where strong
/// fields lead one way along the classes and immortal objects have none, no object is left but immortal ones.
pub fn replays_are_histories()
    ensures { ReplaysAreHistories }
{}
