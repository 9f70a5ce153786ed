//! Tests of the plans on cells, of a drop and of the first steps of a deinit.

ghost use Rattle.std.specs.Prelude.{◌≡◌, IfSome};
ghost use Rattle.arc_rule.specs.Places.{extent_of};

use crate::{
    Begin, BeginAnswer, Cascade, CascadeNext, End, RefDrop, RefDropNext, Swap, SwapAnswer,
};
use arc_model::{Act, Caps, ClassShape, Kind, RefShape, Shape};
use arc_rule::{Changed, Intent, Layout, Next, Plan, Step};
use std::alloc::Global;

/// One global, one slot and one entry: the global's word is the place 1, the slot's words are 2 to 12, the entry's 13 to 16.
fn small_shape(alloc: Global) -> Option<Shape>
    ensures { IfSome result (λ s. extent_of s ≡ record { globals = 1; slots = 1; entries = 1 }) }
{
    let caps = Caps::new(5, 6, 7).ok()?;
    let mut globals = Vec::new(alloc);
    globals
        .push(RefShape {
            kind: Kind::Strong,
            class: 0,
        })
        .ok()?;
    let mut classes = Vec::new(alloc);
    classes
        .push(ClassShape {
            fields: Vec::new(alloc),
            immortal: false,
        })
        .ok()?;
    Shape::new(1, 1, caps, classes, globals).ok()
}

fn small_layout(alloc: Global) -> Option<Layout>
    ensures { IfSome result (λ l. l ≡ record { globals = 1; slots = 1; entries = 1 }) }
{
    let shape = small_shape(alloc)?;
    Some(Layout::of(&shape))
}

#[test]
fn global_is_exchanged(rt: HostRuntime) {
    let layout = small_layout(rt.alloc()).expect(&rt, "a layout");
    let exchange = Next::Step(Step::Exchange {
        place: 1,
        old: 0,
        new: 2,
    });
    let mut swap = Swap::start(&layout, 1, 2);
    assert_eq!(rt; swap.next(None), Next::Step(Step::Load { place: 1 }));
    assert_eq!(rt; swap.next(Some(0)), exchange);
    assert_eq!(rt; swap.next(Some(0)), Next::Done(SwapAnswer::Took(0)));
    let mut again = Swap::start(&layout, 1, 2);
    assert_eq!(rt; again.next(None), Next::Step(Step::Load { place: 1 }));
    assert_eq!(rt; again.next(Some(0)), exchange);
    assert_eq!(rt;
        again.next(Some(1)),
        Next::Done(SwapAnswer::Again(Changed { seen: 0, found: 1 }))
    );
    let mut busy = Swap::start(&layout, 1, 2);
    assert_eq!(rt; busy.next(None), Next::Step(Step::Load { place: 1 }));
    assert_eq!(rt; busy.next(Some(1)), Next::Done(SwapAnswer::Busy));
}

#[test]
fn access_begins(rt: HostRuntime) {
    let layout = small_layout(rt.alloc()).expect(&rt, "a layout");
    let mut held = Begin::start(&layout, 1);
    assert_eq!(rt; held.next(None), Next::Step(Step::Load { place: 1 }));
    assert_eq!(rt;
        held.next(Some(4)),
        Next::Step(Step::Exchange {
            place: 1,
            old: 4,
            new: 1
        })
    );
    assert_eq!(rt; held.next(Some(4)), Next::Done(BeginAnswer::Held(4)));
    let mut nil = Begin::start(&layout, 1);
    assert_eq!(rt; nil.next(None), Next::Step(Step::Load { place: 1 }));
    assert_eq!(rt; nil.next(Some(0)), Next::Done(BeginAnswer::Nil));
    let mut busy = Begin::start(&layout, 1);
    assert_eq!(rt; busy.next(None), Next::Step(Step::Load { place: 1 }));
    assert_eq!(rt; busy.next(Some(1)), Next::Done(BeginAnswer::Busy));
}

#[test]
fn access_ends(rt: HostRuntime) {
    let layout = small_layout(rt.alloc()).expect(&rt, "a layout");
    let mut end = End::start(&layout, 1, 2);
    assert_eq!(rt;
        end.next(None),
        Next::Step(Step::Store { place: 1, new: 2 })
    );
    assert_eq!(rt; end.next(Some(0)), Next::Done(()));
}

#[test]
fn last_weak_reference_gives_the_entry_back(rt: HostRuntime) {
    let layout = small_layout(rt.alloc()).expect(&rt, "a layout");
    let of_hand = Intent::Drop { hand: 7 };
    let exchange = Step::Exchange {
        place: 16,
        old: 1,
        new: 0,
    };
    let clear = Step::And {
        place: 18,
        bits: u64::MAX - 1,
    };
    let mut drop = RefDrop::start(&layout, 7, Kind::Weak, 0);
    assert_eq!(rt;
        drop.next(None),
        RefDropNext::Step(Step::Load { place: 16 }, of_hand)
    );
    assert_eq!(rt; drop.next(Some(1)), RefDropNext::Step(exchange, of_hand));
    assert_eq!(rt; drop.next(Some(1)), RefDropNext::Step(clear, Intent::Back));
    assert_eq!(rt;
        drop.event(),
        Some(Act::Drop {
            hand: 7,
            last: true
        })
    );
    assert_eq!(rt; drop.next(Some(1)), RefDropNext::Done);
    assert_eq!(rt; drop.event(), Some(Act::Back { entry: 0 }));
}

#[test]
fn deinit_begins(rt: HostRuntime) {
    let shape = small_shape(rt.alloc()).expect(&rt, "a shape");
    let layout = Layout::of(&shape);
    let of_deinit = Intent::Deinit { slot: 0 };
    let mut cascade = Cascade::start(&layout, &shape, 0);
    assert_eq!(rt;
        cascade.next(None),
        CascadeNext::Step(Step::Store { place: 4, new: 0 }, of_deinit)
    );
    assert_eq!(rt;
        cascade.next(Some(0)),
        CascadeNext::Step(Step::Load { place: 3 }, of_deinit)
    );
    assert_eq!(rt; cascade.event(), None);
    assert_eq!(rt; cascade.hands(), 0);
}
