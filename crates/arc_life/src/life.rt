//! The life of an object, part by part. Word 1 is the global; the words of the slots begin at 2, 13 and 24, those of the entry at 35; 39 and 40
//! hold their bits.
ghost use Rattle.std.specs.Prelude.{◌≡◌, true};
ghost use Rattle.arc_view.specs.Views.{first_view};
ghost use Rattle.arc_table.specs.Seats.{heap_id, shape_of, pass_id, view_of};
ghost use Rattle.arc_table.specs.Ending.{last_seen, IsClosed};
ghost use Rattle.arc_life.specs.Life.{life_shape, after_born, after_migrated, after_counted, after_joined, after_held, after_emptied, at_end, whole_life, WordsLeft};

use crate::deeds::{Deed, done};
use arc_model::CellName::{Field, Global};
use arc_model::Origin::{Cell, Hand};
use arc_model::{Act, Got, Kind};
use arc_rule::Intent;
use arc_rule::Intent::{
    Access, Back, Claim, Copy, Deinit, Drop, Gone, Look, New, Publish, Swap, UnownedOf, Vacate,
    WeakOf,
};
use arc_rule::Step::{And, Exchange, Load, Or, Store};
use arc_table::{Closed, Heap, Pass};

/// An object of class 0 is made in slot 0 and named. Its references are counted in its inline word, up to both caps.
#[rattlefmt::skip]
pub const BORN: [Deed; 20] = [
    Deed(Or { place: 39, bits: 1 }, New { class: 0 }, 0, Some(Act::New { hand: 1, class: 0, slot: 0 })),
    Deed(Store { place: 2, new: 2 }, New { class: 0 }, 0, None),
    Deed(Store { place: 3, new: 65_536 }, New { class: 0 }, 0, None),
    Deed(Load { place: 39 }, New { class: 0 }, 1, None),
    Deed(Load { place: 3 }, Look, 65_536, None),
    Deed(Load { place: 2 }, Copy { from: Hand(1) }, 2, None),
    Deed(Exchange { place: 2, old: 2, new: 0x2_0000_0002 }, Copy { from: Hand(1) }, 2, Some(Act::Copy { from: Hand(1), hand: 2 })),
    Deed(Load { place: 2 }, Look, 0x2_0000_0002, None),
    Deed(Exchange { place: 2, old: 0x2_0000_0002, new: 2 }, Drop { hand: 2 }, 0x2_0000_0002, Some(Act::Drop { hand: 2, last: false })),
    Deed(Load { place: 2 }, Look, 2, None),
    Deed(Exchange { place: 2, old: 4, new: 0x2_0000_0004 }, Copy { from: Hand(1) }, 2, None),
    Deed(Load { place: 2 }, Look, 2, None),
    Deed(Exchange { place: 2, old: 2, new: 4 }, UnownedOf { of: 1 }, 2, Some(Act::UnownedOf { of: 1, hand: 3 })),
    Deed(Load { place: 2 }, Intent::Load { of: 3 }, 4, None),
    Deed(Exchange { place: 2, old: 4, new: 0x2_0000_0004 }, Intent::Load { of: 3 }, 4, Some(Act::Load { of: 3, got: Got::Hand(4) })),
    Deed(Load { place: 2 }, Look, 0x2_0000_0004, None),
    Deed(Exchange { place: 2, old: 0x2_0000_0004, new: 0x2_0000_0002 }, Drop { hand: 3 }, 0x2_0000_0004, Some(Act::Drop { hand: 3, last: false })),
    Deed(Load { place: 2 }, Look, 0x2_0000_0002, None),
    Deed(Exchange { place: 2, old: 0x2_0000_0002, new: 0x2_0000_0004 }, UnownedOf { of: 1 }, 0x2_0000_0002, Some(Act::UnownedOf { of: 1, hand: 5 })),
    Deed(Load { place: 2 }, Look, 0x2_0000_0004, None),
];

/// It gets the one entry: claimed, filled, and published by one exchange of the inline word. No other entry is found free.
#[rattlefmt::skip]
pub const MIGRATED: [Deed; 14] = [
    Deed(Load { place: 40 }, Claim { of: Hand(1) }, 0, None),
    Deed(Or { place: 40, bits: 1 }, Claim { of: Hand(1) }, 0, Some(Act::Claim { entry: 0 })),
    Deed(Store { place: 35, new: 1 }, Claim { of: Hand(1) }, 0, None),
    Deed(Store { place: 36, new: 2 }, Publish { of: Hand(1), why: Kind::Strong }, 0, None),
    Deed(Store { place: 37, new: 2 }, Publish { of: Hand(1), why: Kind::Strong }, 0, None),
    Deed(Store { place: 38, new: 1 }, Publish { of: Hand(1), why: Kind::Strong }, 0, None),
    Deed(Exchange { place: 2, old: 0x2_0000_0004, new: 0x8000_0000_0000_0000 }, Publish { of: Hand(1), why: Kind::Strong }, 0x2_0000_0004, Some(Act::Side { slot: 0, entry: 0, why: Kind::Strong })),
    Deed(Load { place: 2 }, Look, 0x8000_0000_0000_0000, None),
    Deed(Load { place: 35 }, Look, 1, None),
    Deed(Load { place: 36 }, Look, 2, None),
    Deed(Load { place: 37 }, Look, 2, None),
    Deed(Load { place: 38 }, Look, 1, None),
    Deed(Load { place: 40 }, Claim { of: Hand(1) }, 1, Some(Act::NoEntry)),
    Deed(Or { place: 40, bits: 1 }, Claim { of: Hand(1) }, 1, None),
];

/// References of each kind come and go in the entry. The strong count reaches the greatest of an entry, which refuses one more.
#[rattlefmt::skip]
pub const COUNTED: [Deed; 23] = [
    Deed(Load { place: 35 }, Look, 1, None),
    Deed(Exchange { place: 36, old: 2, new: 3 }, Copy { from: Hand(1) }, 2, Some(Act::Copy { from: Hand(1), hand: 6 })),
    Deed(Load { place: 36 }, Look, 3, None),
    Deed(Exchange { place: 37, old: 2, new: 3 }, Copy { from: Hand(5) }, 2, Some(Act::Copy { from: Hand(5), hand: 7 })),
    Deed(Load { place: 37 }, Look, 3, None),
    Deed(Exchange { place: 38, old: 1, new: 2 }, WeakOf { of: 1 }, 1, Some(Act::WeakOf { of: 1, hand: 8 })),
    Deed(Load { place: 38 }, Look, 2, None),
    Deed(Exchange { place: 38, old: 2, new: 3 }, Copy { from: Hand(8) }, 2, Some(Act::Copy { from: Hand(8), hand: 9 })),
    Deed(Load { place: 38 }, Look, 3, None),
    Deed(Exchange { place: 36, old: 3, new: 4 }, Intent::Load { of: 8 }, 3, Some(Act::Load { of: 8, got: Got::Hand(10) })),
    Deed(Load { place: 36 }, Look, 4, None),
    Deed(Exchange { place: 36, old: 4, new: 5 }, Intent::Load { of: 7 }, 4, Some(Act::Load { of: 7, got: Got::Hand(11) })),
    Deed(Load { place: 36 }, Look, 5, None),
    Deed(Load { place: 36 }, Copy { from: Hand(1) }, 5, Some(Act::CountFull { list: Kind::Strong, from: Hand(1) })),
    Deed(Load { place: 36 }, Look, 5, None),
    Deed(Exchange { place: 37, old: 3, new: 4 }, UnownedOf { of: 1 }, 3, Some(Act::UnownedOf { of: 1, hand: 12 })),
    Deed(Load { place: 37 }, Look, 4, None),
    Deed(Exchange { place: 36, old: 5, new: 4 }, Drop { hand: 11 }, 5, Some(Act::Drop { hand: 11, last: false })),
    Deed(Load { place: 36 }, Look, 4, None),
    Deed(Exchange { place: 37, old: 4, new: 3 }, Drop { hand: 12 }, 4, Some(Act::Drop { hand: 12, last: false })),
    Deed(Load { place: 37 }, Look, 3, None),
    Deed(Exchange { place: 38, old: 3, new: 2 }, Drop { hand: 9 }, 3, Some(Act::Drop { hand: 9, last: false })),
    Deed(Load { place: 38 }, Look, 2, None),
];

/// An object with fields is made in slot 1 and an immortal one in slot 2, of which references come and go by loads. No slot is left.
#[rattlefmt::skip]
pub const JOINED: [Deed; 19] = [
    Deed(Or { place: 39, bits: 2 }, New { class: 1 }, 1, Some(Act::New { hand: 13, class: 1, slot: 1 })),
    Deed(Store { place: 13, new: 2 }, New { class: 1 }, 0, None),
    Deed(Store { place: 14, new: 0x2_0001 }, New { class: 1 }, 0, None),
    Deed(Load { place: 13 }, Look, 2, None),
    Deed(Load { place: 14 }, Look, 0x2_0001, None),
    Deed(Or { place: 39, bits: 4 }, New { class: 2 }, 3, Some(Act::New { hand: 14, class: 2, slot: 2 })),
    Deed(Store { place: 24, new: 1 }, New { class: 2 }, 0, None),
    Deed(Store { place: 25, new: 0x3_0002 }, New { class: 2 }, 0, None),
    Deed(Load { place: 24 }, Look, 1, None),
    Deed(Load { place: 25 }, Look, 0x3_0002, None),
    Deed(Load { place: 39 }, New { class: 0 }, 7, Some(Act::Full)),
    Deed(Or { place: 39, bits: 1 }, New { class: 0 }, 7, None),
    Deed(Load { place: 24 }, Copy { from: Hand(14) }, 1, Some(Act::Copy { from: Hand(14), hand: 15 })),
    Deed(Load { place: 24 }, UnownedOf { of: 14 }, 1, Some(Act::UnownedOf { of: 14, hand: 16 })),
    Deed(Load { place: 24 }, Intent::Load { of: 16 }, 1, Some(Act::Load { of: 16, got: Got::Hand(17) })),
    Deed(Load { place: 24 }, Drop { hand: 15 }, 1, Some(Act::Drop { hand: 15, last: false })),
    Deed(Load { place: 24 }, Drop { hand: 16 }, 1, Some(Act::Drop { hand: 16, last: false })),
    Deed(Load { place: 24 }, Drop { hand: 17 }, 1, Some(Act::Drop { hand: 17, last: false })),
    Deed(Load { place: 24 }, Drop { hand: 14 }, 1, Some(Act::Drop { hand: 14, last: false })),
];

/// Each field takes a reference of its kind and is copied from under an access, and a strong one goes through the global.
#[rattlefmt::skip]
pub const HELD: [Deed; 30] = [
    Deed(Load { place: 16 }, Access { cell: Field { slot: 1, field: 0 } }, 0, Some(Act::Look { cell: Field { slot: 1, field: 0 } })),
    Deed(Load { place: 16 }, Look, 0, None),
    Deed(Exchange { place: 16, old: 0, new: 2 }, Swap { cell: Field { slot: 1, field: 0 }, put: Some(4) }, 0, Some(Act::Swap { cell: Field { slot: 1, field: 0 }, put: Some(4), took: None })),
    Deed(Load { place: 16 }, Look, 2, None),
    Deed(Exchange { place: 17, old: 0, new: 2 }, Swap { cell: Field { slot: 1, field: 1 }, put: Some(5) }, 0, Some(Act::Swap { cell: Field { slot: 1, field: 1 }, put: Some(5), took: None })),
    Deed(Load { place: 17 }, Look, 2, None),
    Deed(Exchange { place: 18, old: 0, new: 2 }, Swap { cell: Field { slot: 1, field: 2 }, put: Some(8) }, 0, Some(Act::Swap { cell: Field { slot: 1, field: 2 }, put: Some(8), took: None })),
    Deed(Load { place: 18 }, Look, 2, None),
    Deed(Exchange { place: 16, old: 2, new: 1 }, Access { cell: Field { slot: 1, field: 0 } }, 2, None),
    Deed(Load { place: 16 }, Look, 1, None),
    Deed(Exchange { place: 36, old: 4, new: 5 }, Copy { from: Cell(Field { slot: 1, field: 0 }) }, 4, Some(Act::Copy { from: Cell(Field { slot: 1, field: 0 }), hand: 18 })),
    Deed(Load { place: 36 }, Look, 5, None),
    Deed(Store { place: 16, new: 2 }, Access { cell: Field { slot: 1, field: 0 } }, 0, None),
    Deed(Load { place: 16 }, Look, 2, None),
    Deed(Exchange { place: 17, old: 2, new: 1 }, Access { cell: Field { slot: 1, field: 1 } }, 2, None),
    Deed(Load { place: 17 }, Look, 1, None),
    Deed(Exchange { place: 37, old: 3, new: 4 }, Copy { from: Cell(Field { slot: 1, field: 1 }) }, 3, Some(Act::Copy { from: Cell(Field { slot: 1, field: 1 }), hand: 19 })),
    Deed(Load { place: 37 }, Look, 4, None),
    Deed(Store { place: 17, new: 2 }, Access { cell: Field { slot: 1, field: 1 } }, 0, None),
    Deed(Load { place: 17 }, Look, 2, None),
    Deed(Exchange { place: 18, old: 2, new: 1 }, Access { cell: Field { slot: 1, field: 2 } }, 2, None),
    Deed(Load { place: 18 }, Look, 1, None),
    Deed(Exchange { place: 38, old: 2, new: 3 }, Copy { from: Cell(Field { slot: 1, field: 2 }) }, 2, Some(Act::Copy { from: Cell(Field { slot: 1, field: 2 }), hand: 20 })),
    Deed(Load { place: 38 }, Look, 3, None),
    Deed(Store { place: 18, new: 2 }, Access { cell: Field { slot: 1, field: 2 } }, 0, None),
    Deed(Load { place: 18 }, Look, 2, None),
    Deed(Exchange { place: 1, old: 0, new: 2 }, Swap { cell: Global(0), put: Some(6) }, 0, Some(Act::Swap { cell: Global(0), put: Some(6), took: None })),
    Deed(Load { place: 1 }, Look, 2, None),
    Deed(Exchange { place: 1, old: 2, new: 0 }, Swap { cell: Global(0), put: None }, 2, Some(Act::Swap { cell: Global(0), put: None, took: Some(21) })),
    Deed(Load { place: 1 }, Look, 0, None),
];

/// The object with fields dies: its deinit takes each reference out, passes the field that is nil, and ends, and its slot is free.
#[rattlefmt::skip]
pub const EMPTIED: [Deed; 16] = [
    Deed(Exchange { place: 13, old: 2, new: 0x1_0000_0002 }, Drop { hand: 13 }, 2, Some(Act::Drop { hand: 13, last: true })),
    Deed(Load { place: 13 }, Look, 0x1_0000_0002, None),
    Deed(Store { place: 15, new: 0 }, Deinit { slot: 1 }, 0, None),
    Deed(Load { place: 16 }, Deinit { slot: 1 }, 2, None),
    Deed(Store { place: 16, new: 0 }, Deinit { slot: 1 }, 0, Some(Act::Take { slot: 1, field: 0, hand: 22 })),
    Deed(Load { place: 16 }, Look, 0, None),
    Deed(Store { place: 17, new: 0 }, Deinit { slot: 1 }, 0, Some(Act::Take { slot: 1, field: 1, hand: 23 })),
    Deed(Load { place: 17 }, Look, 0, None),
    Deed(Store { place: 18, new: 0 }, Deinit { slot: 1 }, 0, Some(Act::Take { slot: 1, field: 2, hand: 24 })),
    Deed(Load { place: 18 }, Look, 0, None),
    Deed(Load { place: 19 }, Deinit { slot: 1 }, 0, None),
    Deed(Load { place: 15 }, Deinit { slot: 1 }, 0, None),
    Deed(Exchange { place: 13, old: 0x1_0000_0002, new: 0x1_0000_0000 }, Deinit { slot: 1 }, 0x1_0000_0002, Some(Act::Finish { slot: 1, last: true })),
    Deed(Load { place: 13 }, Look, 0x1_0000_0000, None),
    Deed(And { place: 39, bits: 0xffff_ffff_ffff_fffd }, Vacate, 7, Some(Act::Vacate { slot: 1 })),
    Deed(Load { place: 39 }, New { class: 0 }, 5, None),
];

/// The object dies in its entry: what is left refuses to give a strong reference, its slot is free, and at last its entry.
#[rattlefmt::skip]
pub const ENDED: [Deed; 32] = [
    Deed(Exchange { place: 36, old: 5, new: 4 }, Drop { hand: 1 }, 5, Some(Act::Drop { hand: 1, last: false })),
    Deed(Load { place: 36 }, Look, 4, None),
    Deed(Exchange { place: 36, old: 4, new: 3 }, Drop { hand: 10 }, 4, Some(Act::Drop { hand: 10, last: false })),
    Deed(Load { place: 36 }, Look, 3, None),
    Deed(Exchange { place: 36, old: 3, new: 2 }, Drop { hand: 18 }, 3, Some(Act::Drop { hand: 18, last: false })),
    Deed(Load { place: 36 }, Look, 2, None),
    Deed(Exchange { place: 36, old: 2, new: 1 }, Drop { hand: 21 }, 2, Some(Act::Drop { hand: 21, last: false })),
    Deed(Load { place: 36 }, Look, 1, None),
    Deed(Exchange { place: 36, old: 1, new: 0 }, Drop { hand: 22 }, 1, Some(Act::Drop { hand: 22, last: true })),
    Deed(Load { place: 36 }, Look, 0, None),
    Deed(Load { place: 36 }, Intent::Load { of: 7 }, 0, Some(Act::Load { of: 7, got: Got::Dead })),
    Deed(Load { place: 36 }, Intent::Load { of: 20 }, 0, Some(Act::Load { of: 20, got: Got::Nil })),
    Deed(Load { place: 36 }, Look, 0, None),
    Deed(Store { place: 4, new: 0 }, Deinit { slot: 0 }, 0, None),
    Deed(Load { place: 4 }, Deinit { slot: 0 }, 0, None),
    Deed(Exchange { place: 37, old: 4, new: 3 }, Deinit { slot: 0 }, 4, Some(Act::Finish { slot: 0, last: false })),
    Deed(Load { place: 37 }, Look, 3, None),
    Deed(Exchange { place: 37, old: 3, new: 2 }, Drop { hand: 7 }, 3, Some(Act::Drop { hand: 7, last: false })),
    Deed(Load { place: 37 }, Look, 2, None),
    Deed(Exchange { place: 37, old: 2, new: 1 }, Drop { hand: 19 }, 2, Some(Act::Drop { hand: 19, last: false })),
    Deed(Load { place: 37 }, Look, 1, None),
    Deed(Exchange { place: 37, old: 1, new: 0 }, Drop { hand: 23 }, 1, Some(Act::Drop { hand: 23, last: true })),
    Deed(Load { place: 37 }, Look, 0, None),
    Deed(And { place: 39, bits: 0xffff_ffff_ffff_fffe }, Vacate, 5, Some(Act::Vacate { slot: 0 })),
    Deed(Load { place: 39 }, New { class: 0 }, 4, None),
    Deed(Exchange { place: 38, old: 3, new: 2 }, Gone, 3, Some(Act::Gone { entry: 0, last: false })),
    Deed(Load { place: 38 }, Look, 2, None),
    Deed(Exchange { place: 38, old: 2, new: 1 }, Drop { hand: 20 }, 2, Some(Act::Drop { hand: 20, last: false })),
    Deed(Load { place: 38 }, Look, 1, None),
    Deed(Exchange { place: 38, old: 1, new: 0 }, Drop { hand: 24 }, 1, Some(Act::Drop { hand: 24, last: true })),
    Deed(And { place: 40, bits: 0xffff_ffff_ffff_fffe }, Back, 1, Some(Act::Back { entry: 0 })),
    Deed(Load { place: 40 }, Claim { of: Hand(1) }, 0, None),
];

/// The object is made.
fn born(heap: &Heap, pass: &mut Pass) -> bool
    requires own { pass_id pass.old ≡ heap_id heap.now }
    requires shape { shape_of heap.now ≡ life_shape }
    requires before { view_of pass.old ≡ first_view }
    ensures same { pass_id pass.new ≡ pass_id pass.old }
    ensures found { result ≡ true }
    ensures after { view_of pass.new ≡ after_born }
{
    done(heap, pass, &BORN)
}

/// It gets its entry.
fn migrated(heap: &Heap, pass: &mut Pass) -> bool
    requires own { pass_id pass.old ≡ heap_id heap.now }
    requires shape { shape_of heap.now ≡ life_shape }
    requires before { view_of pass.old ≡ after_born }
    ensures same { pass_id pass.new ≡ pass_id pass.old }
    ensures found { result ≡ true }
    ensures after { view_of pass.new ≡ after_migrated }
{
    done(heap, pass, &MIGRATED)
}

/// Its references are counted there.
fn counted(heap: &Heap, pass: &mut Pass) -> bool
    requires own { pass_id pass.old ≡ heap_id heap.now }
    requires shape { shape_of heap.now ≡ life_shape }
    requires before { view_of pass.old ≡ after_migrated }
    ensures same { pass_id pass.new ≡ pass_id pass.old }
    ensures found { result ≡ true }
    ensures after { view_of pass.new ≡ after_counted }
{
    done(heap, pass, &COUNTED)
}

/// The other two objects are made.
fn joined(heap: &Heap, pass: &mut Pass) -> bool
    requires own { pass_id pass.old ≡ heap_id heap.now }
    requires shape { shape_of heap.now ≡ life_shape }
    requires before { view_of pass.old ≡ after_counted }
    ensures same { pass_id pass.new ≡ pass_id pass.old }
    ensures found { result ≡ true }
    ensures after { view_of pass.new ≡ after_joined }
{
    done(heap, pass, &JOINED)
}

/// Cells take references to it.
fn held(heap: &Heap, pass: &mut Pass) -> bool
    requires own { pass_id pass.old ≡ heap_id heap.now }
    requires shape { shape_of heap.now ≡ life_shape }
    requires before { view_of pass.old ≡ after_joined }
    ensures same { pass_id pass.new ≡ pass_id pass.old }
    ensures found { result ≡ true }
    ensures after { view_of pass.new ≡ after_held }
{
    done(heap, pass, &HELD)
}

/// The object with fields ends.
fn emptied(heap: &Heap, pass: &mut Pass) -> bool
    requires own { pass_id pass.old ≡ heap_id heap.now }
    requires shape { shape_of heap.now ≡ life_shape }
    requires before { view_of pass.old ≡ after_held }
    ensures same { pass_id pass.new ≡ pass_id pass.old }
    ensures found { result ≡ true }
    ensures after { view_of pass.new ≡ after_emptied }
{
    done(heap, pass, &EMPTIED)
}

/// The object ends.
fn ended(heap: &Heap, pass: &mut Pass) -> bool
    requires own { pass_id pass.old ≡ heap_id heap.now }
    requires shape { shape_of heap.now ≡ life_shape }
    requires before { view_of pass.old ≡ after_emptied }
    ensures same { pass_id pass.new ≡ pass_id pass.old }
    ensures found { result ≡ true }
    ensures after { view_of pass.new ≡ at_end }
{
    done(heap, pass, &ENDED)
}

/// Makes the steps of the life. Each finds the word that is written beside it, and so the one that the step before has left there. Then the pass
/// has seen the events of the steps, and no others.
pub fn lived(heap: &Heap, pass: &mut Pass) -> bool
    requires own { pass_id pass.old ≡ heap_id heap.now }
    requires shape { shape_of heap.now ≡ life_shape }
    requires before { view_of pass.old ≡ first_view }
    ensures same { pass_id pass.new ≡ pass_id pass.old }
    ensures found { result ≡ true }
    ensures after { view_of pass.new ≡ at_end }
    ensures told { (view_of pass.new).seen ≡ whole_life }
{
    born(heap, pass)
        && migrated(heap, pass)
        && counted(heap, pass)
        && joined(heap, pass)
        && held(heap, pass)
        && emptied(heap, pass)
        && ended(heap, pass)
}

/// Ends the heap after the life. What is left in its words is the immortal object alone.
pub fn closed(heap: Heap, pass: Pass) -> Closed
    requires own { pass_id pass ≡ heap_id heap }
    requires shape { shape_of heap ≡ life_shape }
    requires before { view_of pass ≡ at_end }
    ensures told { last_seen result ≡ whole_life }
    ensures closed { IsClosed life_shape result }
    ensures left { WordsLeft result.words.items }
{
    heap.close(pass)
}
