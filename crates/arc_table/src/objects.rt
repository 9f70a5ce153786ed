//! The making of objects, and their names.
ghost use Rattle.std.specs.Prelude.{◌≡◌, ◌+◌, ◌<◌, ◌≤◌, length, None};
ghost use Rattle.arc_model.specs.declared.event.ObjectName.{ObjectName as Name};
ghost use Rattle.arc_rule.specs.declared.step.Intent.TheVariants.{New, Look};
ghost use Rattle.arc_view.specs.Admission.{OwesNoName};
ghost use Rattle.arc_view.specs.Rule.{news};
ghost use Rattle.arc_rule.specs.Bits.{words_of};
ghost use Rattle.arc_model.specs.Shapes.{class_at};
ghost use Rattle.arc_table.specs.Calls.{IsCall};
ghost use Rattle.arc_table.specs.Possessions.{StillHas};
ghost use Rattle.arc_table.specs.Seats.{heap_id, shape_of, part_id, part_view, pass_id, view_of};
ghost use Rattle.arc_table.specs.Tokens.{IsNextName, IsCreated, created_act, IsMade, made_act, IsHeld, IsNameOf};

use crate::asks::Asks;
use crate::heap::{Heap, Part, Pass};
use crate::tokens::{Made, Strong};
use arc_model::ObjectName;
use arc_plan::{NameOf, NewObject, NewObjectAnswer};
use std::marker::Brand;
use std::snapshot::Snapshot;

impl Heap {
    fn create<J: Asks>(&self, part: &mut Part, name: ObjectName, immortal: bool) -> NewObjectAnswer
        requires own { part_id part.old ≡ heap_id self.now }
        requires asks { (J.intent ≡ New name.class) × (J.shape ≡ shape_of self.now) }
        requires class { name.class < length (shape_of self.now).classes }
        requires immortal { immortal ≡ (class_at (shape_of self.now) name.class).immortal }
        requires few { name.thread ≤ 64 }
        requires room { news (part_view part.old).number (part_view part.old).seen < 100000 }
        requires free { OwesNoName (part_view part.old) }
        requires next { IsNextName (part_view part.old) name }
        ensures called { IsCall (shape_of self.now) (created_act name.class (part_view part.old) result) (words_of (shape_of self.now).slots + 3) part.old part.new }
        ensures created { IsCreated (shape_of self.now) name.class (part_view part.old) (part_view part.new) result }
    {
        let _sized = self.shape.slots();
        let plan = NewObject::start(&self.layout, name, immortal);
        self.run_on::<J, NewObject>(part, plan, None)
    }

    /// A new object of a class of the shape, in the first slot that is found free, with one strong reference, which is the pass's.
    /// A pass makes at most 100,000 objects. At most as many steps as there are words of slot bits, and three; it takes no memory and
    /// waits for nobody. `NoSlot` where each slot was found taken in this call, `Again` where a slot was found free and then taken:
    /// then nothing was made. This project's own.
    pub fn new_object(&self, pass: &mut Pass, class: u32) -> Made
        requires own { pass_id pass.old ≡ heap_id self.now }
        requires class { class < length (shape_of self.now).classes }
        requires room { news (view_of pass.old).number (view_of pass.old).seen < 100000 }
        requires free { OwesNoName (view_of pass.old) }
        ensures called { IsCall (shape_of self.now) (made_act class result) (words_of (shape_of self.now).slots + 3) pass.old.part pass.new.part }
        ensures made { IsMade (shape_of self.now) class (view_of pass.old) (view_of pass.new) result }
        ensures has { StillHas (made_act class result) (view_of pass.old) (view_of pass.new) }
    {
        let name = ObjectName {
            class,
            thread: pass.number,
            number: pass.made + 1,
        };
        let shape = &self.shape.classes()[class as usize];
        match self.create::<Brand>(&mut pass.part, name, shape.immortal) {
            NewObjectAnswer::Slot(slot) => {
                pass.made += 1;
                let at = Snapshot::of(&pass.part.seat);
                Made::Ok(Strong { slot, at })
            }
            NewObjectAnswer::NoSlot => Made::NoSlot,
            NewObjectAnswer::Again(changed) => Made::Again(changed),
        }
    }

    fn load_name<J: Asks>(&self, part: &mut Part, of: &Strong) -> ObjectName
        requires own { part_id part.old ≡ heap_id self.now }
        requires asks { (J.intent ≡ Look) × (J.shape ≡ shape_of self.now) }
        requires held { IsHeld (shape_of self.now) (part_view part.old) of.now }
        requires free { OwesNoName (part_view part.old) }
        ensures called { IsCall (shape_of self.now) None 1 part.old part.new }
        ensures named { IsNameOf (part_view part.old) of.now result }
    {
        let plan = NameOf::start(&self.layout, of.slot);
        self.run_as::<J, NameOf>(part, plan)
    }

    /// The name of the object of a strong reference: its class, the number of the pass that made it, and its number among the
    /// objects of that pass. One step; it takes no memory and waits for nobody. This project's own.
    pub fn name_of(&self, pass: &mut Pass, of: &Strong) -> ObjectName
        requires own { pass_id pass.old ≡ heap_id self.now }
        requires held { IsHeld (shape_of self.now) (view_of pass.old) of.now }
        requires free { OwesNoName (view_of pass.old) }
        ensures called { IsCall (shape_of self.now) None 1 pass.old.part pass.new.part }
        ensures named { IsNameOf (view_of pass.old) of.now result }
        ensures has { StillHas None (view_of pass.old) (view_of pass.new) }
    {
        self.load_name::<Brand>(&mut pass.part, of)
    }
}
