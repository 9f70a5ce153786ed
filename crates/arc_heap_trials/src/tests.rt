//! The answers of the index to the trials, and what it tells of the heap that they leave.

ghost use Rattle.std.specs.Prelude.{◌≡◌, true};
ghost use Rattle.arc_heap_judge.specs.Stands.{IsCellInRange, IsOriginInRange, IsInRange, thread_count};

use crate::again::AGAIN;
use crate::dying::DYING;
use crate::forever::FOREVER;
use crate::making::MAKING;
use crate::migrating::MIGRATING;
use crate::referring::REFERRING;
use crate::trials::Trial;
use arc_heap::{ModelHeap, Refusal};
use arc_model::{
    Act, Caps, CellName, ClassShape, Event, Illegal, Kind, Life, Memory, ObjectId, Origin,
    RefShape, Shape,
};
use std::alloc::Global;

fn is_cell_in_range(shape: &Shape, cell: CellName) -> bool
    ensures { result ≡ true → IsCellInRange shape.now cell }
{
    match cell {
        CellName::Field { slot, field } => slot < shape.slots() && field < 8,
        CellName::Global(number) => (number as usize) < shape.globals().len(),
    }
}

fn is_origin_in_range(shape: &Shape, from: Origin) -> bool
    ensures { result ≡ true → IsOriginInRange shape.now from }
{
    match from {
        Origin::Hand(number) => true,
        Origin::Cell(cell) => is_cell_in_range(shape, cell),
    }
}

fn is_in_range(shape: &Shape, act: Act) -> bool
    ensures { result ≡ true → IsInRange shape.now act }
{
    match act {
        Act::New { hand, class, slot } => {
            (class as usize) < shape.classes().len() && slot < shape.slots()
        }
        Act::Copy { from, hand } => is_origin_in_range(shape, from),
        Act::CountFull { list, from } => is_origin_in_range(shape, from),
        Act::Claim { entry } => entry < shape.entries(),
        Act::Side { slot, entry, why } => slot < shape.slots() && entry < shape.entries(),
        Act::Back { entry } => entry < shape.entries(),
        Act::Swap { cell, put, took } => is_cell_in_range(shape, cell),
        Act::Look { cell } => is_cell_in_range(shape, cell),
        Act::Take { slot, field, hand } => slot < shape.slots() && field < 8,
        Act::Finish { slot, last } => slot < shape.slots(),
        Act::Vacate { slot } => slot < shape.slots(),
        Act::Gone { entry, last } => entry < shape.entries(),
        Act::Full => true,
        Act::UnownedOf { of, hand } => true,
        Act::WeakOf { of, hand } => true,
        Act::Load { of, got } => true,
        Act::Drop { hand, last } => true,
        Act::NoEntry => true,
    }
}

/// The heap gives the trial's answer.
fn answers(heap: &mut ModelHeap, shape: &Shape, trial: Trial) -> bool
    requires threads { thread_count heap.old ≡ 3 }
    requires shape { heap.old.shape ≡ shape.now }
    ensures threads { thread_count heap.new ≡ 3 }
    ensures shape { heap.new.shape ≡ shape.now }
{
    let (thread, act, wrong) = trial;
    if thread > 2 || !is_in_range(shape, act) {
        return false;
    }
    let answer = match wrong {
        None => Ok(()),
        Some(illegal) => Err(Refusal::Illegal(illegal)),
    };
    heap.apply(Event { thread, act }) == answer
}

/// The number, from 0, of the first trial that has another answer.
fn first_wrong(heap: &mut ModelHeap, shape: &Shape, trials: &[Trial]) -> Option<usize>
    requires threads { thread_count heap.old ≡ 3 }
    requires shape { heap.old.shape ≡ shape.now }
    ensures threads { thread_count heap.new ≡ 3 }
    ensures shape { heap.new.shape ≡ shape.now }
{
    for (number, trial) in trials.iter().enumerate() {
        if !answers(heap, shape, *trial) {
            return Some(number);
        }
    }
    None
}

fn refs(alloc: Global, strong: u32) -> Result<Vec<RefShape>, Memory> {
    let mut cells = Vec::new(alloc);
    cells.push(RefShape {
        kind: Kind::Strong,
        class: strong,
    })?;
    cells.push(RefShape {
        kind: Kind::Unowned,
        class: 0,
    })?;
    cells.push(RefShape {
        kind: Kind::Weak,
        class: 0,
    })?;
    Ok(cells)
}

fn small(alloc: Global) -> Result<Shape, Memory> {
    let caps = Caps::new(1, 2, 3).map_err(|_| Memory)?;
    let mut classes = Vec::new(alloc);
    classes.push(ClassShape {
        fields: refs(alloc, 1)?,
        immortal: false,
    })?;
    classes.push(ClassShape {
        fields: Vec::new(alloc),
        immortal: false,
    })?;
    Shape::new(2, 2, caps, classes, refs(alloc, 0)?).map_err(|_| Memory)
}

/// Each trial has the answer that the needs of its act give it, the stages one after the other on one heap.
#[test]
fn each_trial_is_answered_as_it_is_to_be(rt: HostRuntime) -> Result<(), Memory> {
    let shape = small(rt.alloc())?;
    let mut heap = ModelHeap::make(rt.alloc(), shape.copy(rt.alloc())?, 2)?;
    assert_eq!(rt; heap.objects(), 0);
    assert_eq!(rt; first_wrong(&mut heap, &shape, MAKING), None);
    assert_eq!(rt; first_wrong(&mut heap, &shape, MIGRATING), None);
    assert_eq!(rt; first_wrong(&mut heap, &shape, REFERRING), None);
    assert_eq!(rt; first_wrong(&mut heap, &shape, DYING), None);
    assert_eq!(rt; first_wrong(&mut heap, &shape, AGAIN), None);
    assert_eq!(rt; heap.objects(), 4);
    for (number, life, weak) in [
        (1, Some(Life::Dead), Some(0)),
        (4, Some(Life::Dead), Some(0)),
        (5, None, None),
    ] {
        let object = ObjectId { thread: 1, number };
        assert_eq!(rt; heap.life(object), life);
        assert_eq!(rt; heap.holders(object, Kind::Weak), weak);
    }
    Ok(())
}

fn immortal(alloc: Global) -> Result<Shape, Memory> {
    let caps = Caps::new(0, 1, 1).map_err(|_| Memory)?;
    let mut classes = Vec::new(alloc);
    classes.push(ClassShape {
        fields: Vec::new(alloc),
        immortal: true,
    })?;
    Shape::new(1, 1, caps, classes, Vec::new(alloc)).map_err(|_| Memory)
}

/// An object of an immortal class stays live after the release of every reference.
#[test]
fn an_immortal_object_stays(rt: HostRuntime) -> Result<(), Memory> {
    let shape = immortal(rt.alloc())?;
    let mut heap = ModelHeap::make(rt.alloc(), shape.copy(rt.alloc())?, 2)?;
    assert_eq!(rt; first_wrong(&mut heap, &shape, FOREVER), None);
    assert_eq!(rt; heap.objects(), 1);
    let object = ObjectId {
        thread: 1,
        number: 1,
    };
    assert_eq!(rt; heap.life(object), Some(Life::Live));
    assert_eq!(rt; heap.holders(object, Kind::Strong), Some(1));
    assert_eq!(rt; heap.holders(object, Kind::Unowned), Some(1));
    assert_eq!(rt; heap.holders(object, Kind::Weak), Some(1));
    Ok(())
}
