//! A thread's stepper drives its pass of a shared heap: one relation between the two, and the laws of the steps that it asks for. No function
//! does anything.
//!
//! Each reference of the stepper is a hand of the pass, of its kind and for its variable's class, and the pass has no other; what is under way in
//! its plan is what the pass has under way, accesses to cells too; and its notes are the acts of the pass. So each step that it asks for is one that the rule allows, what the step finds it may be
//! given, and the act that it tells is the one that the pass made. What runs scripts over the shared heap, and what replays them over plain words,
//! rest on these laws.
#![tactic(auto)]

ghost use Rattle.arc_ops_passes.specs.Laws.{NewSteppersDrive, ScriptsNameVariables, PhasesBegin, PhasesAreDone, StepsAreAllowed, SteppersDriveOn, OutsideIsNoAccess, EndedSteppersHoldNothing, SteppersMeet, NotesAreTakenIn, HandsAreTakenIn};

/// A new stepper drives a new pass.
pub fn steppers_begin()
    ensures { NewSteppersDrive }
{}

/// Where a stepper waits for a phase, its pass has done exactly the phases before that one, and it goes on when the phase begins, if its
/// operations name variables that there are, as those of a script do.
pub fn phases_begin()
    ensures done { PhasesAreDone }
    ensures variables { ScriptsNameVariables }
    ensures begin { PhasesBegin }
{}

/// A pass may make each step that the stepper that drives it asks for.
pub fn steps_are_allowed()
    ensures { StepsAreAllowed }
{}

/// The stepper may be given what such a step finds, tells the act that the pass made, and drives the pass on, while there are numbers of
/// hands left for what deinits take out of fields.
pub fn steppers_drive_on()
    ensures { SteppersDriveOn }
{}

/// A pass accesses no cell while its stepper is outside all accesses.
pub fn accesses_are_known()
    ensures { OutsideIsNoAccess }
{}

/// Between phases a pass may take in what others had seen, and what a pass did stays its own where another takes it in.
pub fn passes_meet()
    ensures meet { SteppersMeet }
    ensures taken { NotesAreTakenIn }
    ensures hands { HandsAreTakenIn }
{}

/// A stepper that has ended leaves its pass with no hand, duty or claim, and nothing under way.
pub fn ended_hold_nothing()
    ensures { EndedSteppersHoldNothing }
{}
