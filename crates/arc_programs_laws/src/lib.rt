//! Laws of a history that has the whole of a script, for all operations of the language: how many deinit lines there are, how many
//! lines a thread can have, which classes lines name, and that no entry is claimed in the end.
//!
//! No function does anything. Each law is of a legal history in which every thread has its program: one deinit line for each strong
//! list that was emptied, room for every line, phases that follow one another. It says nothing of how the history came about, nor of
//! objects that stay: those are in `arc_quiet`.
#![tactic(auto)]

ghost use Rattle.arc_programs_laws.specs.Claims.{ClaimsEnd};
ghost use Rattle.arc_programs_laws.specs.Deinits.{DeinitLinesAreEmptied, LastDropsEmpty};
ghost use Rattle.arc_programs_laws.specs.Names.{EventsNameClasses, LinesNameClasses};
ghost use Rattle.arc_programs_laws.specs.Phases.{PhasesAreTold};
ghost use Rattle.arc_programs_laws.specs.Room.{EveryLineFindsRoom};

/// An event empties the strong list of an object where it drops the last strong reference to it, and nowhere else. Source: RefCount.h.
pub fn last_drops_empty()
    ensures { LastDropsEmpty }
{}

/// The lines of all threads of a script, with those of the end section, have a deinit for each event that emptied a strong list,
/// and no other. Source: RefCount.h, deinit begins with the release of the last strong reference.
pub fn deinit_lines_are_emptied()
    ensures { DeinitLinesAreEmptied }
{}

/// Where all threads of a script have their programs, no entry is claimed in the end.
pub fn claims_end()
    ensures { ClaimsEnd }
{}

/// A thread has at most a line for each of its operations and one for each object that the script may make. This project's own.
pub fn every_line_finds_room()
    ensures { EveryLineFindsRoom }
{}

/// Each object that is made, and each that a line names, is of a class that the script declares.
pub fn lines_name_classes()
    ensures events { EventsNameClasses }
    ensures lines { LinesNameClasses }
{}

/// Of two histories that have the whole of one script the phases may follow in one and not in the other. This project's own.
pub fn phases_are_told()
    ensures { PhasesAreTold }
{}
