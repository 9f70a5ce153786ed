//! Laws of all legal histories. Each function's contract is its law; no function does anything.

ghost use Rattle.arc_model.specs.Laws.{StrongListEndsOnce, LoadsBeforeEnd, SlotVacatedBetween, EntryGivenBackBetween, ImmortalsLiveOn};
ghost use Rattle.arc_model.specs.Lookup.{LookupAfter};
ghost use Rattle.arc_model.specs.Others.{NextHandStays, SeenIsAtPoint, OthersLeave, StaysQuiet, OthersLeaveFields, SoleHolderStays, UnsharedStays};
ghost use Rattle.arc_model.specs.Own.{OwnLeave, OwnGains, OwnEnds, OwnDuties, OwnClaims, DutiesLast};
ghost use Rattle.arc_model.specs.CellLaws.{NilFieldsStay, CellsAfter, CellKindsAfter};
ghost use Rattle.arc_model.specs.WellFormed.{WellFormedAfter};

/// At most one event empties an object's strong list, and so an object is deinited at most once: it is the strong `drop` of
/// its last holder, and no later event adds to the list. Source: RefCount.h, when the strong count reaches zero the object
/// is deinited.
pub fn strong_list_ends_once()
    ensures { StrongListEndsOnce }
{}

/// Each load that gives an object stands before the event that empties its strong list. Source: RefCount.h, from the start
/// of deinit a load of a weak reference gives nil, and a load of an unowned reference is an error.
pub fn loads_before_end()
    ensures { LoadsBeforeEnd }
{}

/// Between two `new` events in one slot stands a `vacate` of it, at which the first object has no strong and no unowned
/// holder. Source: RefCount.h, when the unowned count reaches zero the allocation is freed.
pub fn slot_vacated_between()
    ensures { SlotVacatedBetween }
{}

/// Between two `claim` events of one entry stands a `back` of it, and each object that had the entry between them has no
/// weak holder then. Source: RefCount.h, when the weak count reaches zero the side table entry is freed.
pub fn entry_given_back_between()
    ensures { EntryGivenBackBetween }
{}

/// An object of an immortal class is live in its slot from its `new` on, without an entry, and is never deinited. That a class
/// is immortal is this project's own.
pub fn immortals_live_on()
    ensures { ImmortalsLiveOn }
{}

/// After a legal history each object stands at one stage of its life; each hand and each cell stands at most once, in one
/// list of one object; each slot is in at most one object; an entry is claimed once or belongs to one object; a thread's
/// objects are numbered from 1; a field that isn't nil is one of an object that is live or whose deinit is owed; an
/// immortal object has a slot and no entry.
pub fn well_formed_after()
    ensures { WellFormedAfter }
{}

/// Where a hand or a cell stands is the one place and list that it stands in.
pub fn one_spot()
    ensures { LookupAfter }
{}

/// Events of other threads leave a thread's hands, duties and claims, and the number of its next hand; a thread that has
/// nothing goes on having nothing.
/// While a thread owes an object's deinit, they leave the object's fields. Where the thread's hand is an object's only
/// unowned or only weak holder they leave that list, and where it is the only holder at all they leave all three lists.
pub fn others_leave()
    ensures kept { OthersLeave }
    ensures number { NextHandStays }
    ensures quiet { StaysQuiet }
    ensures fields { OthersLeaveFields }
    ensures sole { SoleHolderStays }
    ensures unshared { UnsharedStays }
{}

/// A thread's event leaves each of its hands but the one that it ends, which is nowhere then. The hand that it brings
/// stands where its source stood. What the thread owes and has claimed then is by its act and by where its hand stood.
pub fn own_leave()
    ensures hands { OwnLeave }
    ensures gains { OwnGains }
    ensures ends { OwnEnds }
    ensures duties { OwnDuties }
    ensures claims { OwnClaims }
{}

/// A duty stands until its own thread ends it by the act for it: no event overwrites it.
pub fn duties_last()
    ensures { DutiesLast }
{}

/// A nil field of an object that isn't live stays nil, so the fields before a dying object's next field do.
pub fn nil_fields_stay()
    ensures { NilFieldsStay }
{}

/// An event changes the cell that it swaps or takes a reference out of, and no other: the cell stands where the hand that
/// was put in stood, or is nil.
pub fn cells_after()
    ensures { CellsAfter }
{}

/// A cell that isn't nil stands in a list of the kind that the shape names for it: a strong cell in a strong list, and so on.
pub fn cell_kinds_after()
    ensures { CellKindsAfter }
{}

/// What `full` and `noentry` look back for is a point of the history, since the thread's event before or since the start.
pub fn seen_is_at_point()
    ensures { SeenIsAtPoint }
{}
