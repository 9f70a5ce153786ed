//! Strong references more and fewer.
ghost use Rattle.std.specs.Prelude.{◌≡◌, ◌<◌};
ghost use Rattle.arc_model.specs.declared.event.Origin.TheVariants.{Hand};
ghost use Rattle.arc_rule.specs.declared.step.Intent.TheVariants.{Copy as copy_intent, Drop as drop_intent};
ghost use Rattle.arc_view.specs.Admission.{OwesNoName};
ghost use Rattle.arc_table.specs.Attempts.{IsRaisedInline, inline_up_act, up_steps, IsRaisedInEntry, entry_up_act, entry_up_steps, IsLoweredInline, inline_down_act, down_steps, IsLoweredInEntry, entry_down_act};
ghost use Rattle.arc_table.specs.Calls.{IsFree, IsCall};
ghost use Rattle.arc_table.specs.Causes.{HasEntry, IsLookOfImmortal};
ghost use Rattle.arc_table.specs.Possessions.{StillHas};
ghost use Rattle.arc_table.specs.Runs.{Walked};
ghost use Rattle.arc_table.specs.Seats.{heap_id, shape_of, part_id, part_view, pass_id, view_of};
ghost use Rattle.arc_table.specs.Tokens.{hand_of, IsHeld, IsRaised, raised_act, IsUp, up_act, IsLowered, lowered_act, IsReleased, release_act};

use crate::asks::Asks;
use crate::heap::{Heap, Part, Pass};
use crate::tokens::{Dying, Release, Strong, Up};
use arc_model::Kind;
use arc_plan::{StrongDown, StrongDownAnswer, StrongUp, StrongUpAnswer};
use arc_rule::Changed;
use arc_side::{EntryDown, EntryDownAnswer, EntryUp, EntryUpAnswer};
use std::marker::Brand;
use std::snapshot::Snapshot;

/// What one more strong reference comes to, wherever they are counted.
#[derive(Clone, Copy, Debug, PartialEq, Eq)]
pub(crate) enum Raised {
    Up,
    AtCap,
    CountFull,
    Again(Changed),
}

/// What one strong reference fewer comes to.
#[derive(Clone, Copy, Debug, PartialEq, Eq)]
pub(crate) enum Lowered {
    More,
    Last,
    Again(Changed),
}

impl Heap {
    /// One more by the inline word.
    #[inline(always)]
    fn raise_inline<J: Asks>(&self, part: &mut Part, of: &Strong) -> StrongUpAnswer
        requires own { part_id part.old ≡ heap_id self.now }
        requires asks { (J.intent ≡ copy_intent (Hand (hand_of of.now))) × (J.shape ≡ shape_of self.now) }
        requires held { IsHeld (shape_of self.now) (part_view part.old) of.now }
        requires free { OwesNoName (part_view part.old) }
        ensures called { IsCall (shape_of self.now) (inline_up_act (hand_of of.now) (part_view part.old) result) (up_steps result) part.old part.new }
        ensures walked { Walked (part_view part.old) (part_view part.new) }
        ensures raised { IsRaisedInline (shape_of self.now) (hand_of of.now) of.now.slot (part_view part.old) (part_view part.new) result }
        ensures immortal { IsLookOfImmortal (shape_of self.now) (hand_of of.now) of.now.slot (part_view part.old) (part_view part.new) }
    {
        let plan = StrongUp::start(&self.layout, of.slot, self.shape.caps().strong());
        self.run_as::<J, StrongUp>(part, plan)
    }

    /// One more by the strong count of the object's entry.
    fn raise_in_entry<J: Asks>(&self, part: &mut Part, of: &Strong, entry: u32) -> EntryUpAnswer
        requires own { part_id part.old ≡ heap_id self.now }
        requires asks { (J.intent ≡ copy_intent (Hand (hand_of of.now))) × (J.shape ≡ shape_of self.now) }
        requires held { IsHeld (shape_of self.now) (part_view part.old) of.now }
        requires entry { HasEntry (part_view part.old) (hand_of of.now) entry }
        requires within { entry < (shape_of self.now).entries }
        requires free { OwesNoName (part_view part.old) }
        ensures called { IsCall (shape_of self.now) (entry_up_act (hand_of of.now) (part_view part.old) result) (entry_up_steps result) part.old part.new }
        ensures raised { IsRaisedInEntry (shape_of self.now) (hand_of of.now) entry (part_view part.old) (part_view part.new) result }
    {
        let plan = EntryUp::start(&self.layout, entry, Kind::Strong, self.shape.caps().wide());
        self.run_as::<J, EntryUp>(part, plan)
    }

    #[inline(always)]
    fn raise<J: Asks>(&self, part: &mut Part, of: &Strong) -> Raised
        requires own { part_id part.old ≡ heap_id self.now }
        requires asks { (J.intent ≡ copy_intent (Hand (hand_of of.now))) × (J.shape ≡ shape_of self.now) }
        requires held { IsHeld (shape_of self.now) (part_view part.old) of.now }
        requires free { OwesNoName (part_view part.old) }
        ensures called { IsCall (shape_of self.now) (raised_act (hand_of of.now) (part_view part.old) result) 3 part.old part.new }
        ensures raised { IsRaised (shape_of self.now) (hand_of of.now) of.now.slot (part_view part.old) (part_view part.new) result }
        ensures immortal { IsLookOfImmortal (shape_of self.now) (hand_of of.now) of.now.slot (part_view part.old) (part_view part.new) }
    {
        match self.raise_inline::<J>(part, of) {
            StrongUpAnswer::Up => Raised::Up,
            StrongUpAnswer::Dead => unreachable!(),
            StrongUpAnswer::AtCap => Raised::AtCap,
            StrongUpAnswer::Again(changed) => Raised::Again(changed),
            StrongUpAnswer::Slow(entry) => match self.raise_in_entry::<J>(part, of, entry) {
                EntryUpAnswer::Up => Raised::Up,
                EntryUpAnswer::Zero => unreachable!(),
                EntryUpAnswer::CountFull => Raised::CountFull,
                EntryUpAnswer::Again(changed) => Raised::Again(changed),
            },
        }
    }

    /// One more strong reference to an object of which the pass has one. At most three steps; it takes no memory and waits for nobody.
    /// `AtCap` where the inline word that was read counts as many strong references as it can, `CountFull` where the object's entry does,
    /// `Again` where the count has changed between two reads of this call: then the pass has what it had. RefCount.h (increment).
    /// Of an object of an immortal class it is one load, which shows that word, and no word changes.
    #[inline(always)]
    pub fn retain(&self, pass: &mut Pass, of: &Strong) -> Up<Strong>
        requires own { pass_id pass.old ≡ heap_id self.now }
        requires held { IsHeld (shape_of self.now) (view_of pass.old) of.now }
        requires free { OwesNoName (view_of pass.old) }
        ensures called { IsCall (shape_of self.now) (up_act of.now result) 3 pass.old.part pass.new.part }
        ensures up { IsUp (shape_of self.now) of.now (view_of pass.old) (view_of pass.new) result }
        ensures immortal { IsLookOfImmortal (shape_of self.now) (hand_of of.now) of.now.slot (view_of pass.old) (view_of pass.new) }
        ensures has { StillHas (up_act of.now result) (view_of pass.old) (view_of pass.new) }
    {
        match self.raise::<Brand>(&mut pass.part, of) {
            Raised::Up => {
                let at = Snapshot::of(&pass.part.seat);
                Up::Ok(Strong { slot: of.slot, at })
            }
            Raised::AtCap => Up::AtCap,
            Raised::CountFull => Up::CountFull,
            Raised::Again(changed) => Up::Again(changed),
        }
    }

    /// One fewer by the inline word.
    #[inline(always)]
    fn lower_inline<J: Asks>(&self, part: &mut Part, held: &Strong) -> StrongDownAnswer
        requires own { part_id part.old ≡ heap_id self.now }
        requires asks { (J.intent ≡ drop_intent (hand_of held.now)) × (J.shape ≡ shape_of self.now) }
        requires held { IsHeld (shape_of self.now) (part_view part.old) held.now }
        requires free { IsFree (part_view part.old) }
        ensures called { IsCall (shape_of self.now) (inline_down_act (hand_of held.now) result) (down_steps result) part.old part.new }
        ensures walked { Walked (part_view part.old) (part_view part.new) }
        ensures lowered { IsLoweredInline (shape_of self.now) (hand_of held.now) held.now.slot (part_view part.old) (part_view part.new) result }
        ensures immortal { IsLookOfImmortal (shape_of self.now) (hand_of held.now) held.now.slot (part_view part.old) (part_view part.new) }
    {
        let plan = StrongDown::start(&self.layout, held.slot);
        self.run_as::<J, StrongDown>(part, plan)
    }

    /// One fewer by the strong count of the object's entry.
    fn lower_in_entry<J: Asks>(&self, part: &mut Part, held: &Strong, entry: u32) -> EntryDownAnswer
        requires own { part_id part.old ≡ heap_id self.now }
        requires asks { (J.intent ≡ drop_intent (hand_of held.now)) × (J.shape ≡ shape_of self.now) }
        requires held { IsHeld (shape_of self.now) (part_view part.old) held.now }
        requires entry { HasEntry (part_view part.old) (hand_of held.now) entry }
        requires within { entry < (shape_of self.now).entries }
        requires free { IsFree (part_view part.old) }
        ensures called { IsCall (shape_of self.now) (entry_down_act (hand_of held.now) result) 2 part.old part.new }
        ensures lowered { IsLoweredInEntry (shape_of self.now) (hand_of held.now) entry (part_view part.old) (part_view part.new) result }
    {
        let plan = EntryDown::start(&self.layout, entry, Kind::Strong);
        self.run_as::<J, EntryDown>(part, plan)
    }

    #[inline(always)]
    fn lower<J: Asks>(&self, part: &mut Part, held: &Strong) -> Lowered
        requires own { part_id part.old ≡ heap_id self.now }
        requires asks { (J.intent ≡ drop_intent (hand_of held.now)) × (J.shape ≡ shape_of self.now) }
        requires held { IsHeld (shape_of self.now) (part_view part.old) held.now }
        requires free { IsFree (part_view part.old) }
        ensures called { IsCall (shape_of self.now) (lowered_act (hand_of held.now) result) 3 part.old part.new }
        ensures lowered { IsLowered (shape_of self.now) (hand_of held.now) held.now.slot (part_view part.old) (part_view part.new) result }
        ensures immortal { IsLookOfImmortal (shape_of self.now) (hand_of held.now) held.now.slot (part_view part.old) (part_view part.new) }
    {
        match self.lower_inline::<J>(part, held) {
            StrongDownAnswer::More => Lowered::More,
            StrongDownAnswer::Last => Lowered::Last,
            StrongDownAnswer::Again(changed) => Lowered::Again(changed),
            StrongDownAnswer::Slow(entry) => match self.lower_in_entry::<J>(part, held, entry) {
                EntryDownAnswer::More => Lowered::More,
                EntryDownAnswer::Last => Lowered::Last,
                EntryDownAnswer::Again(changed) => Lowered::Again(changed),
            },
        }
    }

    /// A strong reference is given up. Where it was the last one the object is deiniting from the very step that takes the count down, and
    /// the pass owes its deinit. At most three steps; it takes no memory and waits for nobody. `Again` where the count has changed between two
    /// reads of this call: then nothing was given up. RefCount.h (doDecrement). Of an object of an immortal class it is one load, which
    /// shows that word; no word changes, and it is never the last one.
    #[inline(always)]
    pub fn release(&self, pass: &mut Pass, held: Strong) -> Release
        requires own { pass_id pass.old ≡ heap_id self.now }
        requires held { IsHeld (shape_of self.now) (view_of pass.old) held }
        requires free { IsFree (view_of pass.old) }
        ensures called { IsCall (shape_of self.now) (release_act held result) 3 pass.old.part pass.new.part }
        ensures released { IsReleased (shape_of self.now) held (view_of pass.old) (view_of pass.new) result }
        ensures immortal { IsLookOfImmortal (shape_of self.now) (hand_of held) held.slot (view_of pass.old) (view_of pass.new) }
        ensures has { StillHas (release_act held result) (view_of pass.old) (view_of pass.new) }
    {
        match self.lower::<Brand>(&mut pass.part, &held) {
            Lowered::More => {
                let Strong { slot: _, at: _ } = held;
                Release::More
            }
            Lowered::Last => {
                let Strong { slot, at: _ } = held;
                Release::Last(Dying { slot })
            }
            Lowered::Again(changed) => Release::Again(held, changed),
        }
    }
}
