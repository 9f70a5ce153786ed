//! The heap in which the object lives.
ghost use Rattle.std.specs.Prelude.{◌≡◌, [], IfSome};
ghost use Rattle.arc_view.specs.Views.{first_view};
ghost use Rattle.arc_table.specs.Seats.{heap_id, shape_of, pass_id, view_of};
ghost use Rattle.arc_life.specs.Life.{life_shape, holder, leaf_cell};

use arc_model::{Caps, ClassShape, Kind, RefShape, Shape};
use arc_table::{Heap, Pass};
use std::alloc::Global;

/// A class without fields.
fn bare_class(alloc: Global, immortal: bool) -> ClassShape
    ensures { result ≡ record { fields = []; immortal = immortal } }
{
    ClassShape {
        fields: Vec::new(alloc),
        immortal,
    }
}

/// A cell for references of a kind to objects of class 0.
fn to_leaf(kind: Kind) -> RefShape
    ensures { result ≡ leaf_cell kind }
{
    RefShape { kind, class: 0 }
}

/// A field of each kind for objects of class 0, and one more for a strong reference.
fn holder_class(alloc: Global) -> Option<ClassShape>
    ensures { IfSome result (λ c. c ≡ holder) }
{
    let mut fields = Vec::new(alloc);
    fields.push(to_leaf(Kind::Strong)).ok()?;
    fields.push(to_leaf(Kind::Unowned)).ok()?;
    fields.push(to_leaf(Kind::Weak)).ok()?;
    fields.push(to_leaf(Kind::Strong)).ok()?;
    Some(ClassShape {
        fields,
        immortal: false,
    })
}

/// Three slots, one entry, small caps, and a global for a strong reference to an object of class 0. Class 0 has no fields, class 1 a field of
/// each kind, and class 2 is immortal. `None` where no memory was found.
pub fn life_heap(alloc: Global) -> Option<(Heap, Pass)>
    ensures made { IfSome result (λ r. (pass_id r.1 ≡ heap_id r.0) × (view_of r.1 ≡ first_view) × (shape_of r.0 ≡ life_shape)) }
{
    let caps = Caps::new(1, 2, 5).ok()?;
    let mut classes = Vec::new(alloc);
    classes.push(bare_class(alloc, false)).ok()?;
    classes.push(holder_class(alloc)?).ok()?;
    classes.push(bare_class(alloc, true)).ok()?;
    let mut globals = Vec::new(alloc);
    globals.push(to_leaf(Kind::Strong)).ok()?;
    let shape = Shape::new(3, 1, caps, classes, globals).ok()?;
    Heap::make(alloc, shape).ok()
}
