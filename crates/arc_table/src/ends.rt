//! The end of an object: what its strong references held together, and its slot.
ghost use Rattle.std.specs.Prelude.{◌≡◌, ◌<◌, Some};
ghost use Rattle.arc_model.specs.declared.event.Act.TheVariants.{Vacate as vacate_act};
ghost use Rattle.arc_rule.specs.declared.step.Intent.TheVariants.{Deinit as deinit_intent, Vacate as vacate_intent};
ghost use Rattle.arc_view.specs.Admission.{OwesNoName};
ghost use Rattle.arc_table.specs.Calls.{IsCall};
ghost use Rattle.arc_table.specs.Ends.{IsBareDying, IsBareDyingWith, HasNoField, IsFinishedInline, inline_finish_act, finish_steps, IsFinishedInEntry, entry_finish_act, IsEnded, ended_act, IsFinished, finish_act, IsFreed, IsLeft, IsVacated};
ghost use Rattle.arc_table.specs.Possessions.{StillHas};
ghost use Rattle.arc_table.specs.Runs.{Walked};
ghost use Rattle.arc_table.specs.Seats.{heap_id, shape_of, part_id, part_view, pass_id, view_of};
ghost use Rattle.arc_table.specs.Tokens.{IsOwed};

use crate::asks::Asks;
use crate::heap::{Heap, Part, Pass};
use crate::tokens::Dying;
use arc_model::Kind;
use arc_plan::{UnownedDown, UnownedDownAnswer, Vacate};
use arc_rule::Changed;
use arc_side::{EntryDown, EntryDownAnswer};
use std::marker::Brand;

/// The duty to vacate the slot of an object to which no strong and no unowned reference is left. It must be spent.
pub struct Freed {
    pub(crate) slot: u32,
    pub(crate) entry: Option<u32>,
}

/// What is left of an object that had an entry when its slot was vacated: the pass owes its end in the entry. No call ends that duty
/// yet, so it may be let go.
#[derive(Drop)]
pub struct Vacated {
    pub(crate) entry: u32,
}

/// What the end of a deinit comes to.
pub enum Finish {
    /// Unowned references remain, and the slot stays taken.
    More,
    /// None remains, and the pass owes the vacating of the slot.
    Last(Freed),
    /// The count has changed between two reads of this call. The duty is given back.
    Again(Dying, Changed),
}

/// The same wherever the unowned references are counted: the last one with the object's entry.
#[derive(Clone, Copy, Debug, PartialEq, Eq)]
pub(crate) enum Ended {
    More,
    Last(Option<u32>),
    Again(Changed),
}

impl Heap {
    /// The unowned reference of the strong ones by the inline word.
    fn finish_inline<J: Asks>(&self, part: &mut Part, slot: u32) -> UnownedDownAnswer
        requires own { part_id part.old ≡ heap_id self.now }
        requires asks { (J.intent ≡ deinit_intent slot) × (J.shape ≡ shape_of self.now) }
        requires within { slot < (shape_of self.now).slots }
        requires dying { IsBareDying (shape_of self.now) (part_view part.old) slot }
        requires free { OwesNoName (part_view part.old) }
        ensures called { IsCall (shape_of self.now) (inline_finish_act slot result) (finish_steps result) part.old part.new }
        ensures walked { Walked (part_view part.old) (part_view part.new) }
        ensures finished { IsFinishedInline (shape_of self.now) slot (part_view part.old) (part_view part.new) result }
    {
        let plan = UnownedDown::start(&self.layout, slot);
        self.run_as::<J, UnownedDown>(part, plan)
    }

    /// The same by the unowned count of the object's entry.
    fn finish_in_entry<J: Asks>(&self, part: &mut Part, slot: u32, entry: u32) -> EntryDownAnswer
        requires own { part_id part.old ≡ heap_id self.now }
        requires asks { (J.intent ≡ deinit_intent slot) × (J.shape ≡ shape_of self.now) }
        requires within { entry < (shape_of self.now).entries }
        requires dying { IsBareDyingWith (shape_of self.now) (part_view part.old) slot entry }
        requires free { OwesNoName (part_view part.old) }
        ensures called { IsCall (shape_of self.now) (entry_finish_act slot result) 2 part.old part.new }
        ensures finished { IsFinishedInEntry (shape_of self.now) slot entry (part_view part.old) (part_view part.new) result }
    {
        let plan = EntryDown::start(&self.layout, entry, Kind::Unowned);
        self.run_as::<J, EntryDown>(part, plan)
    }

    fn end_deinit<J: Asks>(&self, part: &mut Part, slot: u32) -> Ended
        requires own { part_id part.old ≡ heap_id self.now }
        requires asks { (J.intent ≡ deinit_intent slot) × (J.shape ≡ shape_of self.now) }
        requires within { slot < (shape_of self.now).slots }
        requires dying { IsBareDying (shape_of self.now) (part_view part.old) slot }
        requires free { OwesNoName (part_view part.old) }
        ensures called { IsCall (shape_of self.now) (ended_act slot result) 3 part.old part.new }
        ensures ended { IsEnded (shape_of self.now) slot (part_view part.old) (part_view part.new) result }
    {
        match self.finish_inline::<J>(part, slot) {
            UnownedDownAnswer::More => Ended::More,
            UnownedDownAnswer::Last => Ended::Last(None),
            UnownedDownAnswer::Again(changed) => Ended::Again(changed),
            UnownedDownAnswer::Slow(entry) => {
                match self.finish_in_entry::<J>(part, slot, entry) {
                    EntryDownAnswer::More => Ended::More,
                    EntryDownAnswer::Last => Ended::Last(Some(entry)),
                    EntryDownAnswer::Again(changed) => Ended::Again(changed),
                }
            }
        }
    }

    /// The deinit of an object without fields ends: the unowned reference that its strong ones held together is taken down. Where no other
    /// one is left, the pass owes the vacating of its slot. At most three steps; it takes no memory and waits for nobody. `Again` where the
    /// count has changed between two reads of this call: then the deinit is owed still. RefCount.h (DEINITED, FREED).
    pub fn finish(&self, pass: &mut Pass, dying: Dying) -> Finish
        requires own { pass_id pass.old ≡ heap_id self.now }
        requires owed { IsOwed (shape_of self.now) (view_of pass.old) dying }
        requires bare { HasNoField (shape_of self.now) (view_of pass.old) dying.slot }
        requires free { OwesNoName (view_of pass.old) }
        ensures called { IsCall (shape_of self.now) (finish_act dying result) 3 pass.old.part pass.new.part }
        ensures finished { IsFinished (shape_of self.now) dying (view_of pass.old) (view_of pass.new) result }
        ensures has { StillHas (finish_act dying result) (view_of pass.old) (view_of pass.new) }
    {
        match self.end_deinit::<Brand>(&mut pass.part, dying.slot) {
            Ended::More => {
                let Dying { slot: _ } = dying;
                Finish::More
            }
            Ended::Last(entry) => {
                let Dying { slot } = dying;
                Finish::Last(Freed { slot, entry })
            }
            Ended::Again(changed) => Finish::Again(dying, changed),
        }
    }

    fn vacate_slot<J: Asks>(&self, part: &mut Part, freed: &Freed)
        requires own { part_id part.old ≡ heap_id self.now }
        requires asks { (J.intent ≡ vacate_intent) × (J.shape ≡ shape_of self.now) }
        requires freed { IsFreed (shape_of self.now) (part_view part.old) freed.now }
        requires free { OwesNoName (part_view part.old) }
        ensures called { IsCall (shape_of self.now) (Some (vacate_act freed.now.slot)) 1 part.old part.new }
        ensures left { IsLeft (part_view part.old) (part_view part.new) freed.now.slot freed.now.entry }
    {
        let plan = Vacate::start(&self.layout, freed.slot);
        self.run_as::<J, Vacate>(part, plan);
    }

    /// The slot of an object that no strong and no unowned reference leads to is free from then on. Where the object has an entry, what is
    /// left of it is there. One step; it takes no memory and waits for nobody. RefCount.h (FREED, DEAD).
    pub fn vacate(&self, pass: &mut Pass, freed: Freed) -> Option<Vacated>
        requires own { pass_id pass.old ≡ heap_id self.now }
        requires freed { IsFreed (shape_of self.now) (view_of pass.old) freed }
        requires free { OwesNoName (view_of pass.old) }
        ensures called { IsCall (shape_of self.now) (Some (vacate_act freed.slot)) 1 pass.old.part pass.new.part }
        ensures vacated { IsVacated freed (view_of pass.old) (view_of pass.new) result }
        ensures has { StillHas (Some (vacate_act freed.slot)) (view_of pass.old) (view_of pass.new) }
    {
        self.vacate_slot::<Brand>(&mut pass.part, &freed);
        let Freed { slot: _, entry } = freed;
        let entry = entry?;
        Some(Vacated { entry })
    }
}
