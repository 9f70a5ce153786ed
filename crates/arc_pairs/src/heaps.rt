//! The heaps that threads work on.
ghost use Rattle.std.specs.Prelude.{ℕ, ◌≡◌, ◌<◌, [], Some, IfSome, slice_get};
ghost use Rattle.arc_model.specs.declared.shape.Kind.TheVariants.{Strong};
ghost use Rattle.arc_view.specs.Views.{first_view};
ghost use Rattle.arc_table.specs.Seats.{shape_of, view_of};
ghost use Rattle.arc_pairs.specs.Ready.{IsReady, IsPlain, HasImmortal, AreForOurs};

use arc_model::{Caps, ClassShape, Kind, RefShape, Shape};
use arc_table::{Heap, Pass};
use std::alloc::Global;

/// A heap of one class without fields, with these globals, and its first pass. `None` where no memory was found, or a number is out of range:
/// 1 to 4,096 slots, at most 64 globals.
pub fn plain_heap(alloc: Global, slots: u32, globals: Vec<RefShape>) -> Option<(Heap, Pass)>
    ensures ready { IfSome result (λ r. IsReady r.0 r.1) }
    ensures plain { IfSome result (λ r. IsPlain r.0) }
    ensures first { IfSome result (λ r. view_of r.1 ≡ first_view) }
    ensures globals { IfSome result (λ r. (shape_of r.0).globals ≡ globals.items) }
{
    let caps = Caps::new(1_000_000, 1_000_000, 2_000_000).ok()?;
    let mut classes = Vec::new(alloc);
    let class = ClassShape {
        fields: Vec::new(alloc),
        immortal: false,
    };
    classes.push(class).ok()?;
    let shape = Shape::new(slots, 1, caps, classes, globals).ok()?;
    Heap::make(alloc, shape).ok()
}

/// A class without fields.
fn bare_class(alloc: Global, immortal: bool) -> ClassShape
    ensures { result ≡ record { fields = []; immortal = immortal } }
{
    ClassShape {
        fields: Vec::new(alloc),
        immortal,
    }
}

/// A heap of 4,096 slots and two classes without fields, of which the second is immortal, and its first pass. `None` where no memory was found.
pub fn lasting_heap(alloc: Global) -> Option<(Heap, Pass)>
    ensures ready { IfSome result (λ r. IsReady r.0 r.1) }
    ensures plain { IfSome result (λ r. IsPlain r.0) }
    ensures immortal { IfSome result (λ r. HasImmortal r.0) }
    ensures first { IfSome result (λ r. view_of r.1 ≡ first_view) }
{
    let caps = Caps::new(1_000_000, 1_000_000, 2_000_000).ok()?;
    let mut classes = Vec::new(alloc);
    classes.push(bare_class(alloc, false)).ok()?;
    classes.push(bare_class(alloc, true)).ok()?;
    let shape = Shape::new(4096, 1, caps, classes, Vec::new(alloc)).ok()?;
    Heap::make(alloc, shape).ok()
}

/// So many globals for strong references to objects of class 0. `None` where no memory was found.
fn strong_globals(alloc: Global, count: u32) -> Option<Vec<RefShape>>
    ensures { IfSome result (λ v. (g : ℕ) → g < count → slice_get v.items g ≡ Some (record { kind = Strong; class = 0 })) }
{
    let global = RefShape {
        kind: Kind::Strong,
        class: 0,
    };
    let Ok(globals) = vec![in alloc; global; count as usize] else {
        return None;
    };
    Some(globals)
}

/// Such a heap of one slot, with so many globals, at most 64, for strong references to its objects.
pub fn shared_heap(alloc: Global, globals: u32) -> Option<(Heap, Pass)>
    ensures ready { IfSome result (λ r. IsReady r.0 r.1) }
    ensures plain { IfSome result (λ r. IsPlain r.0) }
    ensures first { IfSome result (λ r. view_of r.1 ≡ first_view) }
    ensures globals { IfSome result (λ r. AreForOurs r.0 globals) }
{
    let cells = strong_globals(alloc, globals)?;
    plain_heap(alloc, 1, cells)
}
