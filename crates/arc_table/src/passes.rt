//! How passes are split off, noted, and taken in.
ghost use Rattle.std.specs.Prelude.{◌≡◌, ◌<◌, None};
ghost use Rattle.arc_view.specs.Admission.{OwesNoName};
ghost use Rattle.arc_view.specs.Views.{StartsWith, spent_view};
ghost use Rattle.arc_view.specs.Passes.{parted, newcomer, noted, glanced, met, joined, IsFirst, HoldsNothing};
ghost use Rattle.arc_table.specs.Calls.{IsCall, HasTakenIn};
ghost use Rattle.arc_table.specs.Possessions.{StillHas};
ghost use Rattle.arc_table.specs.Seats.{heap_id, shape_of, part_id, part_view, pass_id, view_of, note_id, seen_of};

use crate::heap::{Heap, Note, Part, Pass};
use arc_rule::Intent;
use arc_view::view::View;
use atomic_table::{Join, Split};
use std::marker::Brand;

pub struct Parts;

impl Split<View> for Parts {
    ghost left = { parted };

    ghost right = { newcomer };
}

pub struct Copies;

impl Split<View> for Copies {
    ghost left = { glanced };

    ghost right = { noted };
}

pub struct Meets;

impl Join<View> for Meets {
    ghost both = { met };

    ghost spent = { spent_view };
}

pub struct TakesIn;

impl Join<View> for TakesIn {
    ghost both = { joined };

    ghost spent = { spent_view };
}

impl Heap {
    /// Another pass, with the next number, which has nothing and has seen as much. The first pass splits off at most 64. One step.
    pub fn split(&self, pass: &mut Pass) -> Pass
        requires own { pass_id pass.old ≡ heap_id self.now }
        requires first { IsFirst (view_of pass.old) }
        requires room { (view_of pass.old).splits < 64 }
        ensures same { (pass_id pass.new ≡ pass_id pass.old) × (pass_id result ≡ pass_id pass.old) }
        ensures parted { view_of pass.new ≡ parted (view_of pass.old) }
        ensures new { view_of result ≡ newcomer (view_of pass.old) }
    {
        let seat = self.table.shared.split_seat::<Parts>(&mut pass.part.seat);
        pass.splits += 1;
        let part = Part { seat };
        Pass {
            part,
            number: pass.splits,
            made: 0,
            splits: 0,
        }
    }

    /// A copy of what the pass has seen. One step.
    pub fn note(&self, pass: &mut Pass) -> Note
        requires own { pass_id pass.old ≡ heap_id self.now }
        ensures same { (pass_id pass.new ≡ pass_id pass.old) × (note_id result ≡ pass_id pass.old) }
        ensures glanced { view_of pass.new ≡ glanced (view_of pass.old) }
        ensures copied { seen_of result ≡ (view_of pass.old).seen }
    {
        let seat = self.table.shared.split_seat::<Copies>(&mut pass.part.seat);
        Note { seat }
    }

    fn meet_part(&self, part: &mut Part, note: Note)
        requires own { (part_id part.old ≡ heap_id self.now) × (note_id note ≡ heap_id self.now) }
        requires free { OwesNoName (part_view part.old) }
        ensures called { IsCall (shape_of self.now) None 2 part.old part.new }
        ensures met { StartsWith (part_view part.new).seen (seen_of note) }
    {
        let Note { seat } = note;
        self.table.shared.join_seat::<Meets>(&mut part.seat, seat);
        self.load_for::<Brand>(part, 0, Intent::Look);
    }

    /// What the pass has seen begins with what it had seen and with what the note had: both stand in one legal history. Two steps.
    pub fn meet(&self, pass: &mut Pass, note: Note)
        requires own { (pass_id pass.old ≡ heap_id self.now) × (note_id note ≡ heap_id self.now) }
        requires free { OwesNoName (view_of pass.old) }
        ensures called { IsCall (shape_of self.now) None 2 pass.old.part pass.new.part }
        ensures met { StartsWith (view_of pass.new).seen (seen_of note) }
        ensures has { StillHas None (view_of pass.old) (view_of pass.new) }
    {
        self.meet_part(&mut pass.part, note);
    }

    fn join_part(&self, part: &mut Part, taken: Part)
        requires own { (part_id part.old ≡ heap_id self.now) × (part_id taken ≡ heap_id self.now) }
        requires first { IsFirst (part_view part.old) }
        requires free { OwesNoName (part_view part.old) }
        requires nothing { HoldsNothing (part_view taken) }
        ensures took { HasTakenIn (shape_of self.now) part.old taken part.new }
    {
        let Part { seat } = taken;
        self.table.shared.join_seat::<TakesIn>(&mut part.seat, seat);
        self.load_for::<Brand>(part, 0, Intent::Look);
    }

    /// The first pass takes in another that has nothing. The other's whole share stands in what is seen then. Two steps.
    pub fn join(&self, pass: &mut Pass, taken: Pass)
        requires own { (pass_id pass.old ≡ heap_id self.now) × (pass_id taken ≡ heap_id self.now) }
        requires first { IsFirst (view_of pass.old) }
        requires free { OwesNoName (view_of pass.old) }
        requires nothing { HoldsNothing (view_of taken) }
        ensures took { HasTakenIn (shape_of self.now) pass.old.part taken.part pass.new.part }
        ensures has { StillHas None (view_of pass.old) (view_of pass.new) }
    {
        let Pass {
            part,
            number: _,
            made: _,
            splits: _,
        } = taken;
        self.join_part(&mut pass.part, part);
    }
}
