//! Tests: each plan meets a word that another thread has changed.
ghost use Rattle.std.specs.Prelude.{◌≡◌, IfSome};

use crate::{
    NameOf, NewObject, NewObjectAnswer, StrongDown, StrongDownAnswer, StrongUp, StrongUpAnswer,
    UnownedDown, UnownedDownAnswer, UnownedUp, UnownedUpAnswer, Vacate,
};
use arc_model::{Caps, ObjectName, Shape};
use arc_rule::{Changed, Layout, Next, Plan, Step};
use std::alloc::Global;

/// Two slots and one entry.
fn small_layout(alloc: Global) -> Option<Layout>
    ensures { IfSome result (λ l. l ≡ record { globals = 0; slots = 2; entries = 1 }) }
{
    let caps = Caps::new(5, 6, 7).ok()?;
    let shape = Shape::new(2, 1, caps, Vec::new(alloc), Vec::new(alloc)).ok()?;
    Some(Layout::of(&shape))
}

fn exchange(place: u32, old: u64, new: u64) -> Step
    ensures { result ≡ Step.Exchange place old new }
{
    Step::Exchange { place, old, new }
}

#[test]
#[tactic(auto, unfolding(arc_bits::specs::Words::unpacked))]
fn retain_meets_another_word(rt: HostRuntime) {
    let layout = small_layout(rt.alloc()).expect(&rt, "a layout");
    let mut up = StrongUp::start(&layout, 0, 5);
    assert_eq!(rt; up.next(None), Next::Step(Step::Load { place: 1 }));
    assert_eq!(rt; up.next(Some(2)), Next::Step(exchange(1, 2, 0x2_0000_0002)));
    assert_eq!(rt;
        up.next(Some(4)),
        Next::Done(StrongUpAnswer::Again(Changed { seen: 2, found: 4 }))
    );
}

#[test]
#[tactic(auto, unfolding(arc_bits::specs::Words::unpacked))]
fn unowned_count_stands_at_its_cap(rt: HostRuntime) {
    let layout = small_layout(rt.alloc()).expect(&rt, "a layout");
    let mut up = UnownedUp::start(&layout, 0, 6);
    assert_eq!(rt; up.next(None), Next::Step(Step::Load { place: 1 }));
    assert_eq!(rt; up.next(Some(0xc)), Next::Done(UnownedUpAnswer::AtCap));
}

#[test]
#[tactic(auto, unfolding(arc_bits::specs::Words::unpacked))]
fn counts_go_up(rt: HostRuntime) {
    let layout = small_layout(rt.alloc()).expect(&rt, "a layout");
    let mut strong = StrongUp::start(&layout, 0, 5);
    assert_eq!(rt; strong.next(None), Next::Step(Step::Load { place: 1 }));
    assert_eq!(rt;
        strong.next(Some(2)),
        Next::Step(exchange(1, 2, 0x2_0000_0002))
    );
    assert_eq!(rt; strong.next(Some(2)), Next::Done(StrongUpAnswer::Up));
    let mut unowned = UnownedUp::start(&layout, 1, 6);
    assert_eq!(rt; unowned.next(None), Next::Step(Step::Load { place: 12 }));
    assert_eq!(rt; unowned.next(Some(2)), Next::Step(exchange(12, 2, 4)));
    assert_eq!(rt; unowned.next(Some(2)), Next::Done(UnownedUpAnswer::Up));
}

#[test]
#[tactic(auto, unfolding(arc_bits::specs::Words::unpacked))]
fn counts_go_down(rt: HostRuntime) {
    let layout = small_layout(rt.alloc()).expect(&rt, "a layout");
    let mut strong = StrongDown::start(&layout, 0);
    assert_eq!(rt; strong.next(None), Next::Step(Step::Load { place: 1 }));
    assert_eq!(rt;
        strong.next(Some(2)),
        Next::Step(exchange(1, 2, 0x1_0000_0002))
    );
    assert_eq!(rt; strong.next(Some(2)), Next::Done(StrongDownAnswer::Last));
    let mut unowned = UnownedDown::start(&layout, 0);
    assert_eq!(rt; unowned.next(None), Next::Step(Step::Load { place: 1 }));
    assert_eq!(rt;
        unowned.next(Some(0x1_0000_0004)),
        Next::Step(exchange(1, 0x1_0000_0004, 0x1_0000_0002))
    );
    assert_eq!(rt;
        unowned.next(Some(0x1_0000_0004)),
        Next::Done(UnownedDownAnswer::More)
    );
}

#[test]
#[tactic(auto, unfolding(arc_bits::specs::Words::unpacked))]
fn immortal_object_keeps_its_word(rt: HostRuntime) {
    let layout = small_layout(rt.alloc()).expect(&rt, "a layout");
    let mut up = StrongUp::start(&layout, 0, 5);
    assert_eq!(rt; up.next(None), Next::Step(Step::Load { place: 1 }));
    assert_eq!(rt; up.next(Some(1)), Next::Done(StrongUpAnswer::Up));
    let mut down = StrongDown::start(&layout, 0);
    assert_eq!(rt; down.next(None), Next::Step(Step::Load { place: 1 }));
    assert_eq!(rt; down.next(Some(1)), Next::Done(StrongDownAnswer::More));
}

/// Two slots, whose bits are at place 27.
#[test]
fn second_slot_is_taken_named_and_left(rt: HostRuntime) {
    let layout = small_layout(rt.alloc()).expect(&rt, "a layout");
    let name = ObjectName {
        class: 0,
        thread: 1,
        number: 1,
    };
    let mut new = NewObject::start(&layout, name, false);
    assert_eq!(rt; new.next(None), Next::Step(Step::Load { place: 27 }));
    assert_eq!(rt;
        new.next(Some(1)),
        Next::Step(Step::Or { place: 27, bits: 2 })
    );
    assert_eq!(rt;
        new.next(Some(1)),
        Next::Step(Step::Store { place: 12, new: 2 })
    );
    assert_eq!(rt;
        new.next(Some(0)),
        Next::Step(Step::Store {
            place: 13,
            new: 65_792
        })
    );
    assert_eq!(rt; new.next(Some(0)), Next::Done(NewObjectAnswer::Slot(1)));
    let mut name_of = NameOf::start(&layout, 1);
    assert_eq!(rt; name_of.next(None), Next::Step(Step::Load { place: 13 }));
    assert_eq!(rt; name_of.next(Some(65_792)), Next::Done(name));
    let mut vacate = Vacate::start(&layout, 1);
    assert_eq!(rt;
        vacate.next(None),
        Next::Step(Step::And {
            place: 27,
            bits: 0xffff_ffff_ffff_fffd
        })
    );
    assert_eq!(rt; vacate.next(Some(3)), Next::Done(()));
}

#[test]
fn bit_is_lost_or_none_is_clear(rt: HostRuntime) {
    let layout = small_layout(rt.alloc()).expect(&rt, "a layout");
    let name = ObjectName {
        class: 0,
        thread: 1,
        number: 1,
    };
    let mut lost = NewObject::start(&layout, name, true);
    assert_eq!(rt; lost.next(None), Next::Step(Step::Load { place: 27 }));
    assert_eq!(rt;
        lost.next(Some(0)),
        Next::Step(Step::Or { place: 27, bits: 1 })
    );
    assert_eq!(rt;
        lost.next(Some(1)),
        Next::Done(NewObjectAnswer::Again(Changed { seen: 0, found: 1 }))
    );
    let mut full = NewObject::start(&layout, name, true);
    assert_eq!(rt; full.next(None), Next::Step(Step::Load { place: 27 }));
    assert_eq!(rt; full.next(Some(3)), Next::Done(NewObjectAnswer::NoSlot));
}
