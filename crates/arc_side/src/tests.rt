//! Tests of the plans on entries.

ghost use Rattle.std.specs.Prelude.{◌≡◌, IfSome};
ghost use Rattle.arc_side.specs.declared.publish.Publishing.TheVariants.{Start};

use crate::{
    Claim, ClaimAnswer, Down, DownAnswer, EntryDown, EntryDownAnswer, EntryUp, EntryUpAnswer,
    GiveBack, Publish, PublishAnswer, SlotEnd, SlotEndNext, Up, UpAnswer, WeakLoad, WeakLoadAnswer,
    WeakOf, WeakOfAnswer,
};
use arc_model::{Act, Caps, Kind, Shape};
use arc_rule::{Changed, Intent, Layout, Next, Plan, Step};
use std::alloc::Global;

/// Two slots and one entry: the entry's words are the places 23 to 26.
fn small_layout(alloc: Global) -> Option<Layout>
    ensures { IfSome result (λ l. l ≡ record { globals = 0; slots = 2; entries = 1 }) }
{
    let caps = Caps::new(5, 6, 7).ok()?;
    let shape = Shape::new(2, 1, caps, Vec::new(alloc), Vec::new(alloc)).ok()?;
    Some(Layout::of(&shape))
}

fn exchange(place: u32, old: u64, new: u64) -> Step
    ensures { result ≡ Step.Exchange place old new }
{
    Step::Exchange { place, old, new }
}

#[test]
fn strong_count_goes_up(rt: HostRuntime) {
    let layout = small_layout(rt.alloc()).expect(&rt, "a layout");
    let mut up = EntryUp::start(&layout, 0, Kind::Strong, 7);
    assert_eq!(rt; up.next(None), Next::Step(Step::Load { place: 24 }));
    assert_eq!(rt; up.next(Some(3)), Next::Step(exchange(24, 3, 4)));
    assert_eq!(rt; up.next(Some(3)), Next::Done(EntryUpAnswer::Up));
}

#[test]
fn count_refuses_one_more(rt: HostRuntime) {
    let layout = small_layout(rt.alloc()).expect(&rt, "a layout");
    let mut strong = EntryUp::start(&layout, 0, Kind::Strong, 7);
    assert_eq!(rt; strong.next(None), Next::Step(Step::Load { place: 24 }));
    assert_eq!(rt; strong.next(Some(0)), Next::Done(EntryUpAnswer::Zero));
    let mut weak = EntryUp::start(&layout, 0, Kind::Weak, 7);
    assert_eq!(rt; weak.next(None), Next::Step(Step::Load { place: 26 }));
    assert_eq!(rt; weak.next(Some(7)), Next::Done(EntryUpAnswer::CountFull));
}

#[test]
fn count_goes_down(rt: HostRuntime) {
    let layout = small_layout(rt.alloc()).expect(&rt, "a layout");
    let mut last = EntryDown::start(&layout, 0, Kind::Unowned);
    assert_eq!(rt; last.next(None), Next::Step(Step::Load { place: 25 }));
    assert_eq!(rt; last.next(Some(1)), Next::Step(exchange(25, 1, 0)));
    assert_eq!(rt; last.next(Some(1)), Next::Done(EntryDownAnswer::Last));
    let mut again = EntryDown::start(&layout, 0, Kind::Unowned);
    assert_eq!(rt; again.next(None), Next::Step(Step::Load { place: 25 }));
    assert_eq!(rt; again.next(Some(2)), Next::Step(exchange(25, 2, 1)));
    assert_eq!(rt;
        again.next(Some(3)),
        Next::Done(EntryDownAnswer::Again(Changed { seen: 2, found: 3 }))
    );
}

fn small_caps() -> Option<Caps>
    ensures { IfSome result (λ c. c ≡ record { strong = 5; unowned = 6; wide = 7 }) }
{
    Caps::new(5, 6, 7).ok()
}

/// The inline word with bit 63 set and the number 0 is that of entry 0.
const IN_ENTRY: u64 = 0x8000_0000_0000_0000;

#[test]
#[tactic(auto, unfolding(arc_bits::specs::Words::unpacked))]
fn reference_more_goes_on_in_the_entry(rt: HostRuntime) {
    let layout = small_layout(rt.alloc()).expect(&rt, "a layout");
    let caps = small_caps().expect(&rt, "caps");
    let mut inline = Up::start(&layout, 0, Kind::Strong, caps);
    assert_eq!(rt; inline.next(None), Next::Step(Step::Load { place: 1 }));
    assert_eq!(rt;
        inline.next(Some(2)),
        Next::Step(exchange(1, 2, 0x2_0000_0002))
    );
    assert_eq!(rt; inline.next(Some(2)), Next::Done(UpAnswer::Up));
    let mut strong = Up::start(&layout, 0, Kind::Strong, caps);
    assert_eq!(rt; strong.next(None), Next::Step(Step::Load { place: 1 }));
    assert_eq!(rt;
        strong.next(Some(IN_ENTRY)),
        Next::Step(Step::Load { place: 24 })
    );
    assert_eq!(rt; strong.next(Some(0)), Next::Done(UpAnswer::Dead));
    let mut unowned = Up::start(&layout, 1, Kind::Unowned, caps);
    assert_eq!(rt; unowned.next(None), Next::Step(Step::Load { place: 12 }));
    assert_eq!(rt;
        unowned.next(Some(IN_ENTRY)),
        Next::Step(Step::Load { place: 25 })
    );
    assert_eq!(rt; unowned.next(Some(6)), Next::Step(exchange(25, 6, 7)));
    assert_eq!(rt; unowned.next(Some(6)), Next::Done(UpAnswer::Up));
}

#[test]
#[tactic(auto, unfolding(arc_bits::specs::Words::unpacked))]
fn reference_fewer_names_the_entry(rt: HostRuntime) {
    let layout = small_layout(rt.alloc()).expect(&rt, "a layout");
    let mut inline = Down::start(&layout, 0, Kind::Strong);
    assert_eq!(rt; inline.next(None), Next::Step(Step::Load { place: 1 }));
    assert_eq!(rt;
        inline.next(Some(2)),
        Next::Step(exchange(1, 2, 0x1_0000_0002))
    );
    assert_eq!(rt; inline.next(Some(2)), Next::Done(DownAnswer::Last(None)));
    let mut unowned = Down::start(&layout, 1, Kind::Unowned);
    assert_eq!(rt; unowned.next(None), Next::Step(Step::Load { place: 12 }));
    assert_eq!(rt;
        unowned.next(Some(IN_ENTRY)),
        Next::Step(Step::Load { place: 25 })
    );
    assert_eq!(rt; unowned.next(Some(1)), Next::Step(exchange(25, 1, 0)));
    assert_eq!(rt;
        unowned.next(Some(1)),
        Next::Done(DownAnswer::Last(Some(0)))
    );
    let mut immortal = Down::start(&layout, 1, Kind::Strong);
    assert_eq!(rt; immortal.next(None), Next::Step(Step::Load { place: 12 }));
    assert_eq!(rt; immortal.next(Some(1)), Next::Done(DownAnswer::More(None)));
}

#[test]
#[tactic(auto, unfolding(arc_bits::specs::Words::unpacked))]
fn weak_reference_is_counted_in_the_entry(rt: HostRuntime) {
    let layout = small_layout(rt.alloc()).expect(&rt, "a layout");
    let mut formed = WeakOf::start(&layout, 1, 7);
    assert_eq!(rt; formed.next(None), Next::Step(Step::Load { place: 12 }));
    assert_eq!(rt;
        formed.next(Some(IN_ENTRY)),
        Next::Step(Step::Load { place: 26 })
    );
    assert_eq!(rt; formed.next(Some(1)), Next::Step(exchange(26, 1, 2)));
    assert_eq!(rt; formed.next(Some(1)), Next::Done(WeakOfAnswer::Up(0)));
    let mut without = WeakOf::start(&layout, 1, 7);
    assert_eq!(rt; without.next(None), Next::Step(Step::Load { place: 12 }));
    assert_eq!(rt; without.next(Some(2)), Next::Done(WeakOfAnswer::NoSide));
}

#[test]
fn weak_reference_is_loaded(rt: HostRuntime) {
    let layout = small_layout(rt.alloc()).expect(&rt, "a layout");
    let mut live = WeakLoad::start(&layout, 0, 7);
    assert_eq!(rt; live.next(None), Next::Step(Step::Load { place: 24 }));
    assert_eq!(rt; live.next(Some(1)), Next::Step(exchange(24, 1, 2)));
    assert_eq!(rt; live.next(Some(1)), Next::Step(Step::Load { place: 23 }));
    assert_eq!(rt; live.next(Some(2)), Next::Done(WeakLoadAnswer::Got(1)));
    let mut dead = WeakLoad::start(&layout, 0, 7);
    assert_eq!(rt; dead.next(None), Next::Step(Step::Load { place: 24 }));
    assert_eq!(rt; dead.next(Some(0)), Next::Done(WeakLoadAnswer::Nil));
    let mut again = WeakLoad::start(&layout, 0, 7);
    assert_eq!(rt; again.next(None), Next::Step(Step::Load { place: 24 }));
    assert_eq!(rt; again.next(Some(1)), Next::Step(exchange(24, 1, 2)));
    assert_eq!(rt;
        again.next(Some(3)),
        Next::Done(WeakLoadAnswer::Again(Changed { seen: 1, found: 3 }))
    );
}

/// Two slots and 66 entries: entry e's words begin at 23 + 4 e, and the words of the entries' bits are the places 288 and 289.
fn wide_layout(alloc: Global) -> Option<Layout>
    ensures { IfSome result (λ l. l ≡ record { globals = 0; slots = 2; entries = 66 }) }
{
    let caps = Caps::new(5, 6, 7).ok()?;
    let shape = Shape::new(2, 66, caps, Vec::new(alloc), Vec::new(alloc)).ok()?;
    Some(Layout::of(&shape))
}

fn store(place: u32, new: u64) -> Step
    ensures { result ≡ Step.Store place new }
{
    Step::Store { place, new }
}

#[test]
fn free_entry_is_claimed(rt: HostRuntime) {
    let layout = wide_layout(rt.alloc()).expect(&rt, "a layout");
    let take = Step::Or {
        place: 289,
        bits: 2,
    };
    let mut claim = Claim::start(&layout, 1);
    assert_eq!(rt; claim.next(None), Next::Step(Step::Load { place: 288 }));
    assert_eq!(rt;
        claim.next(Some(u64::MAX)),
        Next::Step(Step::Load { place: 289 })
    );
    let mut again = claim;
    assert_eq!(rt; claim.next(Some(1)), Next::Step(take));
    assert_eq!(rt; claim.next(Some(1)), Next::Step(store(283, 2)));
    assert_eq!(rt; claim.next(Some(0)), Next::Done(ClaimAnswer::Entry(65)));
    assert_eq!(rt; again.next(Some(1)), Next::Step(take));
    assert_eq!(rt;
        again.next(Some(3)),
        Next::Done(ClaimAnswer::Again(Changed { seen: 1, found: 3 }))
    );
}

#[test]
fn no_entry_is_free(rt: HostRuntime) {
    let layout = wide_layout(rt.alloc()).expect(&rt, "a layout");
    let mut claim = Claim::start(&layout, 0);
    assert_eq!(rt; claim.next(None), Next::Step(Step::Load { place: 288 }));
    assert_eq!(rt;
        claim.next(Some(u64::MAX)),
        Next::Step(Step::Load { place: 289 })
    );
    assert_eq!(rt; claim.next(Some(3)), Next::Done(ClaimAnswer::NoEntry));
}

#[test]
fn entry_is_given_back(rt: HostRuntime) {
    let layout = wide_layout(rt.alloc()).expect(&rt, "a layout");
    let mut give_back = GiveBack::start(&layout, 65);
    let clear = Step::And {
        place: 289,
        bits: u64::MAX - 2,
    };
    assert_eq!(rt; give_back.next(None), Next::Step(clear));
    assert_eq!(rt; give_back.next(Some(2)), Next::Done(()));
}

/// The publication of the one entry for slot 1, which has the place 12 for its inline word.
fn publish(layout: &Layout, why: Kind, caps: Caps) -> Publish
    requires { layout.now ≡ record { globals = 0; slots = 2; entries = 1 } }
    ensures { result ≡ record { layout = layout.now; slot = 1; entry = 0; why = why; caps = caps; at = Start } }
{
    Publish::start(layout, 1, 0, why, caps)
}

#[test]
#[tactic(auto, unfolding(arc_bits::specs::Words::unpacked))]
fn counts_move_into_an_entry(rt: HostRuntime) {
    let layout = small_layout(rt.alloc()).expect(&rt, "a layout");
    let caps = small_caps().expect(&rt, "caps");
    let mut weak = publish(&layout, Kind::Weak, caps);
    // Three strong references and two unowned ones.
    let word = 0x4_0000_0004;
    assert_eq!(rt; weak.next(None), Next::Step(Step::Load { place: 12 }));
    assert_eq!(rt; weak.next(Some(word)), Next::Step(store(24, 3)));
    assert_eq!(rt; weak.next(Some(0)), Next::Step(store(25, 2)));
    assert_eq!(rt; weak.next(Some(0)), Next::Step(store(26, 1)));
    assert_eq!(rt;
        weak.next(Some(0)),
        Next::Step(exchange(12, word, IN_ENTRY))
    );
    let mut again = weak;
    assert_eq!(rt; weak.next(Some(word)), Next::Done(PublishAnswer::Done));
    assert_eq!(rt;
        again.next(Some(2)),
        Next::Done(PublishAnswer::Again(Changed {
            seen: word,
            found: 2
        }))
    );
}

#[test]
#[tactic(auto, unfolding(arc_bits::specs::Words::unpacked))]
fn unowned_count_of_a_dying_object_moves(rt: HostRuntime) {
    let layout = small_layout(rt.alloc()).expect(&rt, "a layout");
    let caps = small_caps().expect(&rt, "caps");
    let word = 0x1_0000_000c;
    let mut unowned = publish(&layout, Kind::Unowned, caps);
    assert_eq!(rt; unowned.next(None), Next::Step(Step::Load { place: 12 }));
    assert_eq!(rt; unowned.next(Some(word)), Next::Step(store(24, 0)));
    let mut strong = publish(&layout, Kind::Strong, caps);
    assert_eq!(rt; strong.next(None), Next::Step(Step::Load { place: 12 }));
    assert_eq!(rt;
        strong.next(Some(word)),
        Next::Done(PublishAnswer::NotNeeded)
    );
}

#[test]
#[tactic(auto, unfolding(arc_bits::specs::Words::unpacked))]
fn entry_is_not_needed(rt: HostRuntime) {
    let layout = small_layout(rt.alloc()).expect(&rt, "a layout");
    let caps = small_caps().expect(&rt, "caps");
    let mut immortal = publish(&layout, Kind::Weak, caps);
    assert_eq!(rt; immortal.next(None), Next::Step(Step::Load { place: 12 }));
    assert_eq!(rt;
        immortal.next(Some(1)),
        Next::Done(PublishAnswer::NotNeeded)
    );
    let mut has_one = publish(&layout, Kind::Strong, caps);
    assert_eq!(rt; has_one.next(None), Next::Step(Step::Load { place: 12 }));
    assert_eq!(rt;
        has_one.next(Some(IN_ENTRY)),
        Next::Done(PublishAnswer::NotNeeded)
    );
    let mut has_room = publish(&layout, Kind::Strong, caps);
    assert_eq!(rt; has_room.next(None), Next::Step(Step::Load { place: 12 }));
    assert_eq!(rt;
        has_room.next(Some(0x8_0000_0002)),
        Next::Done(PublishAnswer::NotNeeded)
    );
}

#[test]
fn slot_ends(rt: HostRuntime) {
    let layout = small_layout(rt.alloc()).expect(&rt, "a layout");
    let vacate = Step::And {
        place: 27,
        bits: u64::MAX - 2,
    };
    let mut bare = SlotEnd::start(&layout, 1, None);
    assert_eq!(rt; bare.next(None), SlotEndNext::Step(vacate, Intent::Vacate));
    assert_eq!(rt; bare.next(Some(3)), SlotEndNext::Done);
    assert_eq!(rt; bare.event(), Some(Act::Vacate { slot: 1 }));
    let mut end = SlotEnd::start(&layout, 1, Some(0));
    assert_eq!(rt; end.next(None), SlotEndNext::Step(vacate, Intent::Vacate));
    assert_eq!(rt;
        end.next(Some(3)),
        SlotEndNext::Step(Step::Load { place: 26 }, Intent::Gone)
    );
    assert_eq!(rt;
        end.next(Some(1)),
        SlotEndNext::Step(exchange(26, 1, 0), Intent::Gone)
    );
    let clear = Step::And {
        place: 28,
        bits: u64::MAX - 1,
    };
    assert_eq!(rt; end.next(Some(1)), SlotEndNext::Step(clear, Intent::Back));
    assert_eq!(rt;
        end.event(),
        Some(Act::Gone {
            entry: 0,
            last: true
        })
    );
    assert_eq!(rt; end.next(Some(1)), SlotEndNext::Done);
    assert_eq!(rt; end.event(), Some(Act::Back { entry: 0 }));
}
