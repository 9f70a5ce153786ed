//! The fifth and last stage of the history: slots and entries are used again.

use crate::trials::Trial;
use arc_model::{Act, CellName, Got, Illegal, Kind};

/// The first object's last unowned and weak references go, then its slot and its entry are used again by one object, and the other
/// slot by another.
pub static AGAIN: &[Trial] = &[
    (
        1,
        Act::Load {
            of: 7,
            got: Got::Dead,
        },
        None,
    ),
    (
        1,
        Act::Drop {
            hand: 7,
            last: true,
        },
        None,
    ),
    (1, Act::Vacate { slot: 0 }, None),
    (1, Act::Full, Some(Illegal::NotTaken)),
    (
        1,
        Act::Gone {
            entry: 0,
            last: true,
        },
        Some(Illegal::WrongAnswer),
    ),
    (
        1,
        Act::Gone {
            entry: 0,
            last: false,
        },
        None,
    ),
    (
        2,
        Act::Load {
            of: 1,
            got: Got::Nil,
        },
        None,
    ),
    (
        1,
        Act::Swap {
            cell: CellName::Global(2),
            put: None,
            took: Some(10),
        },
        None,
    ),
    (
        1,
        Act::Drop {
            hand: 10,
            last: false,
        },
        None,
    ),
    (
        2,
        Act::Drop {
            hand: 1,
            last: true,
        },
        None,
    ),
    (2, Act::Back { entry: 0 }, None),
    (
        1,
        Act::New {
            hand: 11,
            class: 1,
            slot: 0,
        },
        None,
    ),
    (1, Act::UnownedOf { of: 11, hand: 12 }, None),
    (
        1,
        Act::Load {
            of: 12,
            got: Got::Hand(13),
        },
        None,
    ),
    (
        1,
        Act::Drop {
            hand: 13,
            last: false,
        },
        None,
    ),
    (1, Act::Claim { entry: 0 }, None),
    (
        1,
        Act::Side {
            slot: 0,
            entry: 0,
            why: Kind::Unowned,
        },
        None,
    ),
    (
        1,
        Act::Drop {
            hand: 12,
            last: false,
        },
        None,
    ),
    (
        1,
        Act::Drop {
            hand: 11,
            last: true,
        },
        None,
    ),
    (
        1,
        Act::Finish {
            slot: 0,
            last: true,
        },
        None,
    ),
    (1, Act::Vacate { slot: 0 }, None),
    (
        1,
        Act::Gone {
            entry: 0,
            last: true,
        },
        None,
    ),
    (1, Act::Back { entry: 0 }, None),
    (
        1,
        Act::New {
            hand: 14,
            class: 1,
            slot: 1,
        },
        None,
    ),
    (
        1,
        Act::Drop {
            hand: 14,
            last: true,
        },
        None,
    ),
    (
        1,
        Act::Finish {
            slot: 1,
            last: true,
        },
        None,
    ),
    (1, Act::Vacate { slot: 1 }, None),
];
