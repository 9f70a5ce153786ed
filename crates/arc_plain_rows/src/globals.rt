//! Scripts with globals, and the events and lines of their replays, counted by hand. A `set` loads the cell and exchanges it (here is
//! `swap`), and then stands the drop of what was there. A `get` loads the cell and exchanges its word for 1, loads the count and exchanges
//! it (here is `copy`), and stores the cell's word again; where the cell is nil, or another access is under way, its load is all. In the
//! end thread 0 loads and exchanges each global, and drops what was there.

use crate::rows::Row;
use arc_model::{Act, CellName, ObjectName, Origin};
use arc_ops::Answer;

/// A script with its replay, and the lines of the end section.
pub struct GlobalRow {
    pub row: Row,
    pub end: &'static [(u32, Answer)],
}

const G: CellName = CellName::Global(0);

const H: CellName = CellName::Global(1);

const NODE: ObjectName = ObjectName {
    class: 0,
    thread: 1,
    number: 1,
};

const SECOND: ObjectName = ObjectName {
    class: 0,
    thread: 1,
    number: 2,
};

const NEW: Act = Act::New {
    hand: 1,
    class: 0,
    slot: 0,
};

const FINISH_MORE: Act = Act::Finish {
    slot: 0,
    last: false,
};

const FINISH_LAST: Act = Act::Finish {
    slot: 0,
    last: true,
};

const VACATE: Act = Act::Vacate { slot: 0 };

pub const GLOBALS: &[GlobalRow] = &[
    // a reference goes into a global, is copied out of it, and takes the place of the one there; the end section drops the last one
    GlobalRow {
        row: Row {
            text: "arc 1\nslots 2\nentries 1\nclass Node\nglobal g strong Node\nthread 1\nvar a strong Node\nvar b strong Node\nnew a Node\nset @g a\nget b @g\nset @g b\nget a @g\ndone\n",
            events: &[
                (2, 1, NEW),
                (
                    6,
                    1,
                    Act::Swap {
                        cell: G,
                        put: Some(1),
                        took: None,
                    },
                ),
                (
                    10,
                    1,
                    Act::Copy {
                        from: Origin::Cell(G),
                        hand: 2,
                    },
                ),
                (
                    13,
                    1,
                    Act::Swap {
                        cell: G,
                        put: Some(2),
                        took: Some(3),
                    },
                ),
                (
                    15,
                    1,
                    Act::Drop {
                        hand: 3,
                        last: false,
                    },
                ),
                (
                    19,
                    1,
                    Act::Copy {
                        from: Origin::Cell(G),
                        hand: 4,
                    },
                ),
                (
                    22,
                    1,
                    Act::Drop {
                        hand: 4,
                        last: false,
                    },
                ),
                (
                    24,
                    0,
                    Act::Swap {
                        cell: G,
                        put: None,
                        took: Some(1),
                    },
                ),
                (
                    26,
                    0,
                    Act::Drop {
                        hand: 1,
                        last: true,
                    },
                ),
                (31, 0, FINISH_LAST),
                (32, 0, VACATE),
            ],
            lines: &[&[
                (1, Answer::New(NODE)),
                (2, Answer::Ok),
                (3, Answer::Ok),
                (4, Answer::Ok),
                (5, Answer::Ok),
            ]],
            steps: 32,
            taken: 0,
        },
        end: &[(0, Answer::Deinit(NODE))],
    },
    // a nil global is looked at and set to nil; an unowned one keeps the slot behind the deinit; the end section exchanges nil for nil, too
    GlobalRow {
        row: Row {
            text: "arc 1\nslots 1\nentries 1\nclass Node\nglobal g strong Node\nglobal h unowned Node\nthread 1\nvar a strong Node\nvar u unowned Node\nget a @g\nset @g a\nnew a Node\nunown u a\nset @h u\ndrop a\nget u @h\nget a @g\ndone\n",
            events: &[
                (1, 1, Act::Look { cell: G }),
                (
                    3,
                    1,
                    Act::Swap {
                        cell: G,
                        put: None,
                        took: None,
                    },
                ),
                (5, 1, NEW),
                (9, 1, Act::UnownedOf { of: 1, hand: 2 }),
                (
                    11,
                    1,
                    Act::Swap {
                        cell: H,
                        put: Some(2),
                        took: None,
                    },
                ),
                (
                    13,
                    1,
                    Act::Drop {
                        hand: 1,
                        last: true,
                    },
                ),
                (18, 1, FINISH_MORE),
                (
                    22,
                    1,
                    Act::Copy {
                        from: Origin::Cell(H),
                        hand: 3,
                    },
                ),
                (24, 1, Act::Look { cell: G }),
                (
                    26,
                    1,
                    Act::Drop {
                        hand: 3,
                        last: false,
                    },
                ),
                (
                    28,
                    0,
                    Act::Swap {
                        cell: G,
                        put: None,
                        took: None,
                    },
                ),
                (
                    30,
                    0,
                    Act::Swap {
                        cell: H,
                        put: None,
                        took: Some(1),
                    },
                ),
                (
                    32,
                    0,
                    Act::Drop {
                        hand: 1,
                        last: true,
                    },
                ),
                (33, 0, VACATE),
            ],
            lines: &[&[
                (1, Answer::Nil),
                (2, Answer::Ok),
                (3, Answer::New(NODE)),
                (4, Answer::Ok),
                (5, Answer::Ok),
                (6, Answer::Ok),
                (6, Answer::Deinit(NODE)),
                (7, Answer::Ok),
                (8, Answer::Nil),
            ]],
            steps: 33,
            taken: 0,
        },
        end: &[],
    },
    // the object that a `set` takes out of a global, with the last reference to it, is deinited behind the line of the `set`
    GlobalRow {
        row: Row {
            text: "arc 1\nslots 2\nentries 1\nclass Node\nglobal g strong Node\nthread 1\nvar a strong Node\nnew a Node\nset @g a\nnew a Node\nset @g a\ndone\n",
            events: &[
                (2, 1, NEW),
                (
                    6,
                    1,
                    Act::Swap {
                        cell: G,
                        put: Some(1),
                        took: None,
                    },
                ),
                (
                    8,
                    1,
                    Act::New {
                        hand: 2,
                        class: 0,
                        slot: 1,
                    },
                ),
                (
                    12,
                    1,
                    Act::Swap {
                        cell: G,
                        put: Some(2),
                        took: Some(3),
                    },
                ),
                (
                    14,
                    1,
                    Act::Drop {
                        hand: 3,
                        last: true,
                    },
                ),
                (19, 1, FINISH_LAST),
                (20, 1, VACATE),
                (
                    22,
                    0,
                    Act::Swap {
                        cell: G,
                        put: None,
                        took: Some(1),
                    },
                ),
                (
                    24,
                    0,
                    Act::Drop {
                        hand: 1,
                        last: true,
                    },
                ),
                (
                    29,
                    0,
                    Act::Finish {
                        slot: 1,
                        last: true,
                    },
                ),
                (30, 0, Act::Vacate { slot: 1 }),
            ],
            lines: &[&[
                (1, Answer::New(NODE)),
                (2, Answer::Ok),
                (3, Answer::New(SECOND)),
                (4, Answer::Ok),
                (4, Answer::Deinit(NODE)),
            ]],
            steps: 30,
            taken: 0,
        },
        end: &[(0, Answer::Deinit(SECOND))],
    },
    // the second thread finds the global accessed three times, and reads it once the first one has ended its access
    GlobalRow {
        row: Row {
            text: "arc 1\nslots 1\nentries 1\nclass Node\nglobal g strong Node\nthread 1\nvar a strong Node\nvar b strong Node\nnew a Node\nset @g a\nget b @g\nthread 2\nvar c strong Node\nget c @g\nschedule 1 1 1 1 1 1 1 1 2 2 2\ndone\n",
            events: &[
                (2, 1, NEW),
                (
                    6,
                    1,
                    Act::Swap {
                        cell: G,
                        put: Some(1),
                        took: None,
                    },
                ),
                (
                    13,
                    1,
                    Act::Copy {
                        from: Origin::Cell(G),
                        hand: 2,
                    },
                ),
                (
                    16,
                    1,
                    Act::Drop {
                        hand: 2,
                        last: false,
                    },
                ),
                (
                    20,
                    2,
                    Act::Copy {
                        from: Origin::Cell(G),
                        hand: 1,
                    },
                ),
                (
                    23,
                    2,
                    Act::Drop {
                        hand: 1,
                        last: false,
                    },
                ),
                (
                    25,
                    0,
                    Act::Swap {
                        cell: G,
                        put: None,
                        took: Some(1),
                    },
                ),
                (
                    27,
                    0,
                    Act::Drop {
                        hand: 1,
                        last: true,
                    },
                ),
                (32, 0, FINISH_LAST),
                (33, 0, VACATE),
            ],
            lines: &[
                &[(1, Answer::New(NODE)), (2, Answer::Ok), (3, Answer::Ok)],
                &[(1, Answer::Ok)],
            ],
            steps: 33,
            taken: 0,
        },
        end: &[(0, Answer::Deinit(NODE))],
    },
];
