//! The first stage of the history: two objects are made.

use crate::trials::Trial;
use arc_model::{Act, CellName, Illegal, Kind, Origin};

/// Two objects are made, which fill both slots. Fields, globals and hands that hold nothing are copied, counted, exchanged, looked
/// at and released.
pub static MAKING: &[Trial] = &[
    (
        1,
        Act::New {
            hand: 0,
            class: 1,
            slot: 1,
        },
        Some(Illegal::Taken),
    ),
    (
        1,
        Act::New {
            hand: 1,
            class: 0,
            slot: 0,
        },
        None,
    ),
    (
        1,
        Act::Side {
            slot: 1,
            entry: 0,
            why: Kind::Strong,
        },
        Some(Illegal::NoSuchObject),
    ),
    (
        1,
        Act::New {
            hand: 3,
            class: 1,
            slot: 1,
        },
        Some(Illegal::Taken),
    ),
    (
        1,
        Act::New {
            hand: 2,
            class: 1,
            slot: 0,
        },
        Some(Illegal::Taken),
    ),
    (1, Act::Full, Some(Illegal::NotTaken)),
    (
        1,
        Act::Copy {
            from: Origin::Cell(CellName::Field { slot: 1, field: 0 }),
            hand: 2,
        },
        Some(Illegal::NoSuchObject),
    ),
    (
        1,
        Act::CountFull {
            list: Kind::Strong,
            from: Origin::Cell(CellName::Field { slot: 1, field: 0 }),
        },
        Some(Illegal::NoSuchObject),
    ),
    (
        1,
        Act::Swap {
            cell: CellName::Field { slot: 1, field: 0 },
            put: Some(1),
            took: None,
        },
        Some(Illegal::NoSuchObject),
    ),
    (
        1,
        Act::Look {
            cell: CellName::Field { slot: 1, field: 0 },
        },
        Some(Illegal::NoSuchObject),
    ),
    (
        1,
        Act::New {
            hand: 2,
            class: 1,
            slot: 1,
        },
        None,
    ),
    (
        1,
        Act::Copy {
            from: Origin::Cell(CellName::Field { slot: 1, field: 0 }),
            hand: 3,
        },
        Some(Illegal::NoSuchObject),
    ),
    (
        1,
        Act::Copy {
            from: Origin::Cell(CellName::Field { slot: 0, field: 3 }),
            hand: 3,
        },
        Some(Illegal::NoSuchObject),
    ),
    (
        2,
        Act::Copy {
            from: Origin::Cell(CellName::Field { slot: 0, field: 0 }),
            hand: 1,
        },
        Some(Illegal::NotHeld),
    ),
    (
        1,
        Act::Copy {
            from: Origin::Cell(CellName::Field { slot: 0, field: 0 }),
            hand: 3,
        },
        Some(Illegal::NotHeld),
    ),
    (
        1,
        Act::CountFull {
            list: Kind::Strong,
            from: Origin::Cell(CellName::Field { slot: 1, field: 0 }),
        },
        Some(Illegal::NoSuchObject),
    ),
    (
        2,
        Act::CountFull {
            list: Kind::Strong,
            from: Origin::Cell(CellName::Field { slot: 0, field: 0 }),
        },
        Some(Illegal::NotHeld),
    ),
    (
        1,
        Act::CountFull {
            list: Kind::Strong,
            from: Origin::Cell(CellName::Field { slot: 0, field: 0 }),
        },
        Some(Illegal::NotHeld),
    ),
    (
        1,
        Act::Swap {
            cell: CellName::Field { slot: 1, field: 0 },
            put: Some(1),
            took: None,
        },
        Some(Illegal::NoSuchObject),
    ),
    (
        2,
        Act::Swap {
            cell: CellName::Field { slot: 0, field: 0 },
            put: None,
            took: None,
        },
        Some(Illegal::NotHeld),
    ),
    (
        1,
        Act::Swap {
            cell: CellName::Field { slot: 0, field: 0 },
            put: Some(5),
            took: None,
        },
        Some(Illegal::NotHeld),
    ),
    (
        1,
        Act::Swap {
            cell: CellName::Field { slot: 0, field: 0 },
            put: Some(2),
            took: Some(3),
        },
        Some(Illegal::WrongAnswer),
    ),
    (
        1,
        Act::Look {
            cell: CellName::Field { slot: 1, field: 0 },
        },
        Some(Illegal::NoSuchObject),
    ),
    (
        2,
        Act::Look {
            cell: CellName::Field { slot: 0, field: 0 },
        },
        Some(Illegal::NotHeld),
    ),
    (1, Act::Full, None),
    (
        1,
        Act::Look {
            cell: CellName::Global(0),
        },
        None,
    ),
    (
        1,
        Act::Copy {
            from: Origin::Cell(CellName::Global(0)),
            hand: 3,
        },
        Some(Illegal::NotHeld),
    ),
    (
        1,
        Act::CountFull {
            list: Kind::Strong,
            from: Origin::Cell(CellName::Global(0)),
        },
        Some(Illegal::NotHeld),
    ),
    (
        1,
        Act::Swap {
            cell: CellName::Global(0),
            put: None,
            took: None,
        },
        None,
    ),
    (
        1,
        Act::Drop {
            hand: 3,
            last: false,
        },
        Some(Illegal::NotHeld),
    ),
    (
        1,
        Act::Drop {
            hand: 0,
            last: true,
        },
        Some(Illegal::NotHeld),
    ),
];
