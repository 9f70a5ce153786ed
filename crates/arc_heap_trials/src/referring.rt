//! The third stage of the history: unowned and weak references to the first object.

use crate::trials::Trial;
use arc_model::{Act, CellName, Got, Illegal, Kind, Origin};

/// Unowned and weak references to the first object are formed, put into cells, copied and loaded. The second object, which a field
/// of the first holds, gains the other entry.
pub static REFERRING: &[Trial] = &[
    (1, Act::WeakOf { of: 1, hand: 5 }, None),
    (1, Act::UnownedOf { of: 1, hand: 7 }, Some(Illegal::Taken)),
    (1, Act::WeakOf { of: 5, hand: 6 }, Some(Illegal::NotHeld)),
    (1, Act::UnownedOf { of: 1, hand: 6 }, None),
    (1, Act::UnownedOf { of: 6, hand: 7 }, Some(Illegal::NotHeld)),
    (
        1,
        Act::Load {
            of: 6,
            got: Got::Dead,
        },
        Some(Illegal::WrongAnswer),
    ),
    (
        1,
        Act::Load {
            of: 6,
            got: Got::Nil,
        },
        Some(Illegal::NotHeld),
    ),
    (
        1,
        Act::Swap {
            cell: CellName::Field { slot: 0, field: 0 },
            put: Some(6),
            took: None,
        },
        Some(Illegal::NotHeld),
    ),
    (
        1,
        Act::Look {
            cell: CellName::Field { slot: 0, field: 2 },
        },
        None,
    ),
    (
        1,
        Act::Swap {
            cell: CellName::Global(2),
            put: Some(5),
            took: None,
        },
        None,
    ),
    (
        2,
        Act::Copy {
            from: Origin::Cell(CellName::Global(2)),
            hand: 1,
        },
        None,
    ),
    (
        1,
        Act::WeakOf { of: 1, hand: 7 },
        Some(Illegal::WrongAnswer),
    ),
    (
        2,
        Act::Load {
            of: 1,
            got: Got::Hand(2),
        },
        Some(Illegal::WrongAnswer),
    ),
    (
        2,
        Act::Load {
            of: 1,
            got: Got::Dead,
        },
        Some(Illegal::NotHeld),
    ),
    (
        2,
        Act::Load {
            of: 1,
            got: Got::Nil,
        },
        Some(Illegal::WrongAnswer),
    ),
    (
        1,
        Act::Drop {
            hand: 4,
            last: false,
        },
        None,
    ),
    (
        2,
        Act::Load {
            of: 1,
            got: Got::Hand(5),
        },
        Some(Illegal::Taken),
    ),
    (
        1,
        Act::CountFull {
            list: Kind::Strong,
            from: Origin::Cell(CellName::Global(0)),
        },
        Some(Illegal::WrongAnswer),
    ),
    (
        2,
        Act::Load {
            of: 1,
            got: Got::Hand(2),
        },
        None,
    ),
    (
        1,
        Act::Swap {
            cell: CellName::Field { slot: 0, field: 1 },
            put: Some(6),
            took: None,
        },
        None,
    ),
    (
        1,
        Act::Copy {
            from: Origin::Cell(CellName::Field { slot: 0, field: 1 }),
            hand: 9,
        },
        Some(Illegal::Taken),
    ),
    (
        1,
        Act::CountFull {
            list: Kind::Unowned,
            from: Origin::Cell(CellName::Field { slot: 0, field: 1 }),
        },
        Some(Illegal::WrongAnswer),
    ),
    (
        1,
        Act::Look {
            cell: CellName::Field { slot: 0, field: 1 },
        },
        Some(Illegal::WrongAnswer),
    ),
    (
        1,
        Act::Copy {
            from: Origin::Cell(CellName::Field { slot: 0, field: 1 }),
            hand: 7,
        },
        None,
    ),
    (
        1,
        Act::Copy {
            from: Origin::Cell(CellName::Field { slot: 0, field: 1 }),
            hand: 8,
        },
        Some(Illegal::WrongAnswer),
    ),
    (
        1,
        Act::UnownedOf { of: 1, hand: 8 },
        Some(Illegal::WrongAnswer),
    ),
    (
        1,
        Act::Swap {
            cell: CellName::Field { slot: 0, field: 1 },
            put: None,
            took: Some(9),
        },
        Some(Illegal::Taken),
    ),
    (
        1,
        Act::Swap {
            cell: CellName::Field { slot: 0, field: 1 },
            put: None,
            took: None,
        },
        Some(Illegal::WrongAnswer),
    ),
    (
        1,
        Act::CountFull {
            list: Kind::Unowned,
            from: Origin::Cell(CellName::Field { slot: 0, field: 1 }),
        },
        None,
    ),
    (
        1,
        Act::Swap {
            cell: CellName::Global(0),
            put: Some(1),
            took: Some(8),
        },
        None,
    ),
    (
        1,
        Act::Swap {
            cell: CellName::Global(0),
            put: None,
            took: Some(9),
        },
        None,
    ),
    (
        1,
        Act::Swap {
            cell: CellName::Field { slot: 0, field: 0 },
            put: Some(2),
            took: None,
        },
        None,
    ),
    (1, Act::Claim { entry: 1 }, None),
    (
        1,
        Act::Side {
            slot: 0,
            entry: 1,
            why: Kind::Strong,
        },
        Some(Illegal::Taken),
    ),
    (
        1,
        Act::Side {
            slot: 1,
            entry: 1,
            why: Kind::Weak,
        },
        None,
    ),
];
