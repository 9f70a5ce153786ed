//! The second stage of the history: the first object's counts move into an entry.

use crate::trials::Trial;
use arc_model::{Act, CellName, Got, Illegal, Kind, Origin};

/// The first object gains references until its strong count is at the cap of the inline word, moves into an entry, and rises there
/// until it is at the cap of an entry.
pub static MIGRATING: &[Trial] = &[
    (
        1,
        Act::Drop {
            hand: 1,
            last: false,
        },
        Some(Illegal::WrongAnswer),
    ),
    (
        1,
        Act::Swap {
            cell: CellName::Global(1),
            put: Some(1),
            took: None,
        },
        Some(Illegal::NotHeld),
    ),
    (
        1,
        Act::Swap {
            cell: CellName::Global(0),
            put: Some(1),
            took: Some(4),
        },
        Some(Illegal::Taken),
    ),
    (
        1,
        Act::Swap {
            cell: CellName::Global(0),
            put: Some(1),
            took: Some(3),
        },
        Some(Illegal::WrongAnswer),
    ),
    (
        1,
        Act::Copy {
            from: Origin::Hand(1),
            hand: 3,
        },
        None,
    ),
    (
        1,
        Act::Copy {
            from: Origin::Hand(9),
            hand: 4,
        },
        Some(Illegal::NotHeld),
    ),
    (
        2,
        Act::Copy {
            from: Origin::Hand(1),
            hand: 1,
        },
        Some(Illegal::NotHeld),
    ),
    (
        1,
        Act::Copy {
            from: Origin::Hand(1),
            hand: 5,
        },
        Some(Illegal::Taken),
    ),
    (
        1,
        Act::WeakOf { of: 1, hand: 4 },
        Some(Illegal::NoSuchObject),
    ),
    (
        1,
        Act::WeakOf { of: 1, hand: 9 },
        Some(Illegal::NoSuchObject),
    ),
    (
        1,
        Act::Load {
            of: 1,
            got: Got::Hand(4),
        },
        Some(Illegal::NotHeld),
    ),
    (
        1,
        Act::Drop {
            hand: 1,
            last: true,
        },
        Some(Illegal::WrongAnswer),
    ),
    (1, Act::Claim { entry: 0 }, None),
    (2, Act::Claim { entry: 0 }, Some(Illegal::Taken)),
    (1, Act::NoEntry, Some(Illegal::NotTaken)),
    (
        2,
        Act::Side {
            slot: 0,
            entry: 0,
            why: Kind::Strong,
        },
        Some(Illegal::Duty),
    ),
    (
        1,
        Act::Side {
            slot: 1,
            entry: 0,
            why: Kind::Strong,
        },
        Some(Illegal::WrongAnswer),
    ),
    (
        1,
        Act::Side {
            slot: 0,
            entry: 0,
            why: Kind::Unowned,
        },
        Some(Illegal::WrongAnswer),
    ),
    (2, Act::Back { entry: 0 }, Some(Illegal::Duty)),
    (
        1,
        Act::Side {
            slot: 0,
            entry: 0,
            why: Kind::Strong,
        },
        None,
    ),
    (1, Act::WeakOf { of: 1, hand: 5 }, Some(Illegal::Taken)),
    (
        1,
        Act::CountFull {
            list: Kind::Strong,
            from: Origin::Hand(1),
        },
        Some(Illegal::WrongAnswer),
    ),
    (2, Act::Claim { entry: 0 }, Some(Illegal::Taken)),
    (1, Act::Back { entry: 0 }, Some(Illegal::Duty)),
    (
        1,
        Act::Copy {
            from: Origin::Hand(1),
            hand: 4,
        },
        None,
    ),
    (
        1,
        Act::Copy {
            from: Origin::Hand(1),
            hand: 5,
        },
        Some(Illegal::WrongAnswer),
    ),
    (
        1,
        Act::CountFull {
            list: Kind::Strong,
            from: Origin::Hand(5),
        },
        Some(Illegal::NotHeld),
    ),
    (
        1,
        Act::CountFull {
            list: Kind::Strong,
            from: Origin::Hand(4),
        },
        None,
    ),
    (
        1,
        Act::Swap {
            cell: CellName::Global(0),
            put: Some(3),
            took: None,
        },
        None,
    ),
    (
        2,
        Act::Copy {
            from: Origin::Cell(CellName::Global(0)),
            hand: 2,
        },
        Some(Illegal::Taken),
    ),
    (
        2,
        Act::Copy {
            from: Origin::Cell(CellName::Global(0)),
            hand: 1,
        },
        Some(Illegal::WrongAnswer),
    ),
    (
        1,
        Act::Swap {
            cell: CellName::Global(0),
            put: Some(1),
            took: Some(9),
        },
        Some(Illegal::Taken),
    ),
    (
        1,
        Act::Swap {
            cell: CellName::Global(0),
            put: Some(1),
            took: None,
        },
        Some(Illegal::WrongAnswer),
    ),
    (
        1,
        Act::Look {
            cell: CellName::Global(0),
        },
        Some(Illegal::WrongAnswer),
    ),
    (
        1,
        Act::CountFull {
            list: Kind::Strong,
            from: Origin::Cell(CellName::Global(0)),
        },
        None,
    ),
    (2, Act::Claim { entry: 1 }, None),
    (2, Act::NoEntry, None),
    (2, Act::Back { entry: 1 }, None),
];
