//! The fourth stage of the history: the deinits of both objects.

use crate::trials::Trial;
use arc_model::{Act, Got, Illegal};

/// The last strong reference to the first object goes, and its deinit takes its fields: the second object dies meanwhile and
/// leaves its slot and its entry, then the first one's deinit is finished.
pub static DYING: &[Trial] = &[
    (
        1,
        Act::Drop {
            hand: 9,
            last: false,
        },
        None,
    ),
    (
        1,
        Act::Drop {
            hand: 8,
            last: false,
        },
        None,
    ),
    (
        2,
        Act::Drop {
            hand: 2,
            last: true,
        },
        None,
    ),
    (
        2,
        Act::Load {
            of: 1,
            got: Got::Hand(3),
        },
        Some(Illegal::WrongAnswer),
    ),
    (
        1,
        Act::Load {
            of: 7,
            got: Got::Hand(10),
        },
        Some(Illegal::WrongAnswer),
    ),
    (
        1,
        Act::Take {
            slot: 0,
            field: 0,
            hand: 10,
        },
        Some(Illegal::Duty),
    ),
    (
        2,
        Act::Take {
            slot: 0,
            field: 1,
            hand: 3,
        },
        Some(Illegal::Duty),
    ),
    (
        2,
        Act::Take {
            slot: 0,
            field: 0,
            hand: 4,
        },
        Some(Illegal::Taken),
    ),
    (
        2,
        Act::Finish {
            slot: 0,
            last: false,
        },
        Some(Illegal::Duty),
    ),
    (
        2,
        Act::Take {
            slot: 0,
            field: 0,
            hand: 3,
        },
        None,
    ),
    (
        2,
        Act::Take {
            slot: 0,
            field: 0,
            hand: 4,
        },
        Some(Illegal::NotHeld),
    ),
    (
        2,
        Act::Drop {
            hand: 3,
            last: true,
        },
        None,
    ),
    (
        2,
        Act::Take {
            slot: 1,
            field: 0,
            hand: 4,
        },
        Some(Illegal::NoSuchObject),
    ),
    (
        1,
        Act::Finish {
            slot: 1,
            last: true,
        },
        Some(Illegal::Duty),
    ),
    (
        2,
        Act::Finish {
            slot: 1,
            last: false,
        },
        Some(Illegal::WrongAnswer),
    ),
    (2, Act::Vacate { slot: 1 }, Some(Illegal::Duty)),
    (
        2,
        Act::Finish {
            slot: 1,
            last: true,
        },
        None,
    ),
    (1, Act::Vacate { slot: 1 }, Some(Illegal::Duty)),
    (
        2,
        Act::Gone {
            entry: 1,
            last: true,
        },
        Some(Illegal::Duty),
    ),
    (2, Act::Vacate { slot: 1 }, None),
    (2, Act::Full, Some(Illegal::NotTaken)),
    (
        2,
        Act::Take {
            slot: 1,
            field: 0,
            hand: 4,
        },
        Some(Illegal::NoSuchObject),
    ),
    (
        2,
        Act::Finish {
            slot: 1,
            last: true,
        },
        Some(Illegal::NoSuchObject),
    ),
    (2, Act::Vacate { slot: 1 }, Some(Illegal::NoSuchObject)),
    (
        1,
        Act::Gone {
            entry: 1,
            last: true,
        },
        Some(Illegal::Duty),
    ),
    (
        2,
        Act::Gone {
            entry: 1,
            last: false,
        },
        Some(Illegal::WrongAnswer),
    ),
    (
        2,
        Act::Gone {
            entry: 1,
            last: true,
        },
        None,
    ),
    (
        2,
        Act::Gone {
            entry: 1,
            last: true,
        },
        Some(Illegal::NoSuchObject),
    ),
    (2, Act::Back { entry: 1 }, None),
    (2, Act::NoEntry, Some(Illegal::NotTaken)),
    (
        2,
        Act::Take {
            slot: 0,
            field: 1,
            hand: 4,
        },
        None,
    ),
    (
        2,
        Act::Drop {
            hand: 4,
            last: false,
        },
        None,
    ),
    (
        2,
        Act::Finish {
            slot: 0,
            last: true,
        },
        Some(Illegal::WrongAnswer),
    ),
    (
        2,
        Act::Finish {
            slot: 0,
            last: false,
        },
        None,
    ),
];
