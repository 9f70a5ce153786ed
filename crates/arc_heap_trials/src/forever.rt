//! Events that the index is tried on, the oldest first: those of an object of an immortal class.

use crate::trials::Trial;
use arc_model::{Act, Got, Illegal, Kind, Origin};

/// Each act on such an object, where an entry's counts are at most 1. It is never released last, no count is too great, and it
/// gains no entry. Afterwards nobody has a reference to it.
pub static FOREVER: &[Trial] = &[
    (
        1,
        Act::New {
            hand: 1,
            class: 0,
            slot: 0,
        },
        None,
    ),
    (
        1,
        Act::CountFull {
            list: Kind::Strong,
            from: Origin::Hand(1),
        },
        Some(Illegal::WrongAnswer),
    ),
    (
        1,
        Act::CountFull {
            list: Kind::Unowned,
            from: Origin::Hand(1),
        },
        Some(Illegal::WrongAnswer),
    ),
    (
        1,
        Act::Copy {
            from: Origin::Hand(1),
            hand: 2,
        },
        None,
    ),
    (1, Act::UnownedOf { of: 1, hand: 3 }, None),
    (
        1,
        Act::WeakOf { of: 1, hand: 4 },
        Some(Illegal::NoSuchObject),
    ),
    (1, Act::Claim { entry: 0 }, None),
    (
        1,
        Act::Side {
            slot: 0,
            entry: 0,
            why: Kind::Strong,
        },
        Some(Illegal::NoSuchObject),
    ),
    (
        1,
        Act::Side {
            slot: 0,
            entry: 0,
            why: Kind::Unowned,
        },
        Some(Illegal::NoSuchObject),
    ),
    (
        1,
        Act::Side {
            slot: 0,
            entry: 0,
            why: Kind::Weak,
        },
        Some(Illegal::NoSuchObject),
    ),
    (1, Act::Back { entry: 0 }, None),
    (
        1,
        Act::Drop {
            hand: 1,
            last: true,
        },
        Some(Illegal::WrongAnswer),
    ),
    (
        1,
        Act::Drop {
            hand: 1,
            last: false,
        },
        None,
    ),
    (
        1,
        Act::Drop {
            hand: 2,
            last: true,
        },
        Some(Illegal::WrongAnswer),
    ),
    (
        1,
        Act::Drop {
            hand: 2,
            last: false,
        },
        None,
    ),
    (
        1,
        Act::Load {
            of: 3,
            got: Got::Dead,
        },
        Some(Illegal::WrongAnswer),
    ),
    (
        1,
        Act::Load {
            of: 3,
            got: Got::Hand(4),
        },
        None,
    ),
    (
        1,
        Act::Copy {
            from: Origin::Hand(3),
            hand: 5,
        },
        None,
    ),
    (
        1,
        Act::Drop {
            hand: 4,
            last: true,
        },
        Some(Illegal::WrongAnswer),
    ),
    (
        1,
        Act::Drop {
            hand: 4,
            last: false,
        },
        None,
    ),
    (
        1,
        Act::Drop {
            hand: 5,
            last: false,
        },
        None,
    ),
    (
        1,
        Act::Drop {
            hand: 3,
            last: true,
        },
        Some(Illegal::WrongAnswer),
    ),
    (
        1,
        Act::Drop {
            hand: 3,
            last: false,
        },
        None,
    ),
    (
        1,
        Act::Finish {
            slot: 0,
            last: true,
        },
        Some(Illegal::Duty),
    ),
    (1, Act::Vacate { slot: 0 }, Some(Illegal::Duty)),
    (
        1,
        Act::New {
            hand: 6,
            class: 0,
            slot: 0,
        },
        Some(Illegal::Taken),
    ),
    (1, Act::Full, None),
];
