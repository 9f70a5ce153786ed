//! Steps that are made one after another by the only pass of a heap.
ghost use Rattle.std.specs.Prelude.{◌≡◌, ◌++◌, true};
ghost use Rattle.arc_table.specs.Seats.{heap_id, shape_of, pass_id, view_of};
ghost use Rattle.arc_life.specs.Alone.{IsAlone, GoesAs, after_all, events_of};

use arc_model::Act;
use arc_rule::{Intent, Step};
use arc_table::{Heap, Pass};

/// A step, what it is made for, the word that it finds, 0 for a store, and its event, where it has one.
#[derive(Clone, Copy)]
pub struct Deed(pub Step, pub Intent, pub u64, pub Option<Act>);

/// Makes these steps one after another, until one finds another word than is written beside it. Since no other pass was split off, none does: each
/// word that is read is the one that the steps before have left at its place. What the pass has seen since are the events of the steps.
pub fn done(heap: &Heap, pass: &mut Pass, deeds: &[Deed]) -> bool
    requires own { pass_id pass.old ≡ heap_id heap.now }
    requires alone { IsAlone (view_of pass.old) }
    requires goes { GoesAs (shape_of heap.now) (view_of pass.old) deeds.now }
    ensures same { pass_id pass.new ≡ pass_id pass.old }
    ensures alone { IsAlone (view_of pass.new) }
    ensures found { result ≡ true }
    ensures after { view_of pass.new ≡ after_all (shape_of heap.now) (view_of pass.old) deeds.now }
    ensures seen { (view_of pass.new).seen ≡ events_of deeds.now ++ (view_of pass.old).seen }
{
    for deed in deeds {
        let Deed(step, intent, word, _) = *deed;
        if heap.step(pass, step, intent) != word {
            return false;
        }
    }
    true
}
