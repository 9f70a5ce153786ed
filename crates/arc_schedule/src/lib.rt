//! The steps of a script as a list that a reader can check, and that a replay makes these. No function does anything: the contracts are laws.
//!
//! The list is made by the schedule: its places in order, and behind them each phase to its end. What a step does is told by the plan that
//! asks for it and what that answers, without a stepper and without notes; each step has its thread, its place, the word that it finds and the
//! event that it tells. Worked lists of small scripts stand beside the definition.
//!
//! It promises that a replay makes exactly these steps. It doesn't say that a script has one list alone, and nothing of runs on real threads, in
//! which the order isn't given.
#![tactic(auto)]

ghost use Rattle.arc_schedule.specs.Law.{ReplaysAreScheduleRuns};
ghost use Rattle.arc_schedule.specs.Worked.{PlacesComeFirst, AccessesEndFirst, OperationsTell, BlocksAreRun, LoadsGive, LoadsFindDead, GetsCopy, SetsSwap, EndsClear, DeinitsNest};

/// The steps of a replay that came to its end are a schedule run of its script: the words go from all 0 by what each step means, each
/// thread's steps are those of its operations, phase by phase, and their order is that of the phases and of the schedule. They are as many
/// as the replay counts and leave its words. Its events are those that the plans of the operations tell, each with the number and the
/// thread of its step.
pub fn replays_are_schedule_runs()
    ensures { ReplaysAreScheduleRuns }
{}

/// Two worked orders of two threads: the schedule's places come first, and where they run out a thread inside an access ends its operation
/// before the threads go on in the order of their numbers. A worked operation, whose event is no function of the step and the word. Worked
/// blocks, one that is run and one that is passed over. And worked loads of an unowned reference: the object lives, so its name is read
/// behind the exchange that has the event; and its deinit has begun, which the first step tells. Then a worked get, whose copy stands
/// between the begin of an access and its end, a worked set, which another access stands in the way of, and a worked end section; and a worked
/// deinit, which brings about another one.
pub fn schedules_are_followed()
    ensures places { PlacesComeFirst }
    ensures accesses { AccessesEndFirst }
    ensures events { OperationsTell }
    ensures blocks { BlocksAreRun }
    ensures loads { LoadsGive }
    ensures loads_dead { LoadsFindDead }
    ensures gets { GetsCopy }
    ensures sets { SetsSwap }
    ensures end_section { EndsClear }
    ensures deinits { DeinitsNest }
{}
