//! Laws of how a thread's events and lines spell its program.
//!
//! No function does anything: the contracts are laws. `IsProgram` says which notes (events, lines, what the heap showed) are those of a
//! thread that does its operations in order, drops its variables at the end of its scope, and skips the blocks that it skips;
//! `GlobalsCleared` says it of the end section.
//!
//! It promises that the lines of a program are numbered as they should be, that each global is cleared once, and that other threads'
//! events leave a program as it is. Nothing is said of steps and words, nor of which histories come about.
#![tactic(auto)]

ghost use Rattle.arc_programs.specs.ProgramsHistories.{ScopesEmpty, EachGlobalIsCleared, NamesAreObjects, ProgramsStay, ProgramsWithoutCauses};
ghost use Rattle.arc_programs.specs.ProgramsLaws.{OperationsHaveLines, ProgramsAreNumbered, EndSectionsTellDeinits};

/// An operation has one line that tells its answer, and behind it those of the deinits that it brings about.
pub fn operations_have_lines()
    ensures { OperationsHaveLines }
{}

/// The lines of a program have its operations in their order, one answer each, and behind them the deinits at the end of the
/// scope, with number 0; the end section has deinits alone.
pub fn programs_are_numbered()
    ensures programs { ProgramsAreNumbered }
    ensures end_section { EndSectionsTellDeinits }
{}

/// At the end of a program every variable is nil, and at the end of the end section each global was cleared once.
pub fn nothing_is_held()
    ensures variables { ScopesEmpty }
    ensures globals { EachGlobalIsCleared }
{}

/// The name that `new` tells is that of the object in the slot that it took.
pub fn names_are_objects()
    ensures { NamesAreObjects }
{}

/// What other threads do leaves a program's spelling as it is, and causes may be left aside.
pub fn programs_stay()
    ensures others { ProgramsStay }
    ensures causes { ProgramsWithoutCauses }
{}
