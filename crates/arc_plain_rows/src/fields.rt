//! Scripts with fields, and the events and lines of their replays, counted by hand. A field is read and set as a global is. A deinit stores the
//! next word and loads the name (here stands its line), and then loads field by field: what is there comes out with a store of 0 (here is
//! `take`), and is dropped. Where that was the last strong reference another deinit stands here from its next word to the bit of its slot, and
//! behind it the name is loaded again. Behind the last field the next word, the count (twice, here is `finish`), and the bit of the slot.

use crate::acts::{
    COPY, DROP_LAST, DROP_MORE, DROP_SECOND, DROP_SECOND_MORE, DROP_THIRD, FINISH_0, FINISH_1,
    LEAF_OF_2, NEW_IN_0, NEXT_IN_1, NEXT_LEAF, NEXT_NODE, NODE, OTHER_IN_1, SECOND_IN_1, VACATE_0,
    VACATE_1,
};
use crate::globals::GlobalRow;
use crate::rows::Row;
use arc_model::{Act, CellName, Got, ObjectName, Origin};
use arc_ops::Answer;

const G: CellName = CellName::Global(0);

/// The first field of the object in slot 0.
const FIRST_OF_0: CellName = CellName::Field { slot: 0, field: 0 };

const SECOND_OF_0: CellName = CellName::Field { slot: 0, field: 1 };

const FIRST_OF_1: CellName = CellName::Field { slot: 1, field: 0 };

const VACATE_2: Act = Act::Vacate { slot: 2 };

/// The first object of thread 1, where it is of class 1.
const LEAF: ObjectName = ObjectName {
    class: 1,
    thread: 1,
    number: 1,
};

/// The third object of thread 1, of class 0.
const THIRD_NODE: ObjectName = ObjectName {
    class: 0,
    thread: 1,
    number: 3,
};

pub static FIELDS: &[Row] = &[
    // the object that a field leads to is deinited under its owner
    Row {
        text: "arc 1\nslots 2\nentries 1\nclass Node next:strong:Leaf\nclass Leaf\nthread 1\nvar a strong Node\nvar b strong Leaf\nnew a Node\nnew b Leaf\nset a.next b\ndrop a\ndone\n",
        events: &[
            (2, 1, NEW_IN_0),
            (6, 1, NEXT_IN_1),
            (
                10,
                1,
                Act::Swap {
                    cell: FIRST_OF_0,
                    put: Some(2),
                    took: None,
                },
            ),
            (12, 1, DROP_LAST),
            (
                16,
                1,
                Act::Take {
                    slot: 0,
                    field: 0,
                    hand: 3,
                },
            ),
            (18, 1, DROP_THIRD),
            (23, 1, FINISH_1),
            (24, 1, VACATE_1),
            (28, 1, FINISH_0),
            (29, 1, VACATE_0),
        ],
        lines: &[&[
            (1, Answer::New(NODE)),
            (2, Answer::New(NEXT_LEAF)),
            (3, Answer::Ok),
            (4, Answer::Ok),
            (4, Answer::Deinit(NODE)),
            (4, Answer::Deinit(NEXT_LEAF)),
        ]],
        steps: 29,
        taken: 0,
    },
    // through an owner that is nil a `set` leaves its variable as it is, and a `get` makes its own nil, both without a step for the cell; then the
    // field is nil, has the reference, is copied out of, and is nil again
    Row {
        text: "arc 1\nslots 2\nentries 1\nclass Node next:strong:Leaf\nclass Leaf\nthread 1\nvar a strong Node\nvar b strong Leaf\nvar c strong Leaf\nnew b Leaf\nset a.next b\ncopy c b\nget c a.next\nnew a Node\nget c a.next\nset a.next b\nget c a.next\nset a.next b\ndrop a\ndone\n",
        events: &[
            (
                2,
                1,
                Act::New {
                    hand: 1,
                    class: 1,
                    slot: 0,
                },
            ),
            (6, 1, COPY),
            (8, 1, DROP_SECOND_MORE),
            (
                10,
                1,
                Act::New {
                    hand: 3,
                    class: 0,
                    slot: 1,
                },
            ),
            (13, 1, Act::Look { cell: FIRST_OF_1 }),
            (
                15,
                1,
                Act::Swap {
                    cell: FIRST_OF_1,
                    put: Some(1),
                    took: None,
                },
            ),
            (
                19,
                1,
                Act::Copy {
                    from: Origin::Cell(FIRST_OF_1),
                    hand: 4,
                },
            ),
            (
                22,
                1,
                Act::Swap {
                    cell: FIRST_OF_1,
                    put: None,
                    took: Some(5),
                },
            ),
            (
                24,
                1,
                Act::Drop {
                    hand: 5,
                    last: false,
                },
            ),
            (26, 1, DROP_THIRD),
            (32, 1, FINISH_1),
            (33, 1, VACATE_1),
            (
                35,
                1,
                Act::Drop {
                    hand: 4,
                    last: true,
                },
            ),
            (40, 1, FINISH_0),
            (41, 1, VACATE_0),
        ],
        lines: &[&[
            (1, Answer::New(LEAF)),
            (2, Answer::Nil),
            (3, Answer::Ok),
            (4, Answer::Nil),
            (5, Answer::New(NEXT_NODE)),
            (6, Answer::Nil),
            (7, Answer::Ok),
            (8, Answer::Ok),
            (9, Answer::Ok),
            (10, Answer::Ok),
            (10, Answer::Deinit(NEXT_NODE)),
            (0, Answer::Deinit(LEAF)),
        ]],
        steps: 41,
        taken: 0,
    },
    // an owner's variable is itself the one that a `get` fills, so that the owner is deinited behind the access, and next its field is nil
    Row {
        text: "arc 1\nslots 2\nentries 1\nclass Node next:strong:Node\nthread 1\nvar a strong Node\nvar b strong Node\nnew a Node\nnew b Node\nset a.next b\nget a a.next\nget a a.next\ndone\n",
        events: &[
            (2, 1, NEW_IN_0),
            (6, 1, SECOND_IN_1),
            (
                10,
                1,
                Act::Swap {
                    cell: FIRST_OF_0,
                    put: Some(2),
                    took: None,
                },
            ),
            (
                14,
                1,
                Act::Copy {
                    from: Origin::Cell(FIRST_OF_0),
                    hand: 3,
                },
            ),
            (17, 1, DROP_LAST),
            (
                21,
                1,
                Act::Take {
                    slot: 0,
                    field: 0,
                    hand: 4,
                },
            ),
            (
                23,
                1,
                Act::Drop {
                    hand: 4,
                    last: false,
                },
            ),
            (26, 1, FINISH_0),
            (27, 1, VACATE_0),
            (28, 1, Act::Look { cell: FIRST_OF_1 }),
            (30, 1, DROP_THIRD),
            (36, 1, FINISH_1),
            (37, 1, VACATE_1),
        ],
        lines: &[&[
            (1, Answer::New(NODE)),
            (2, Answer::New(NEXT_NODE)),
            (3, Answer::Ok),
            (4, Answer::Ok),
            (4, Answer::Deinit(NODE)),
            (5, Answer::Nil),
            (5, Answer::Deinit(NEXT_NODE)),
        ]],
        steps: 37,
        taken: 0,
    },
    // an unowned field doesn't keep its object, but the slot: its reference is the last unowned one, and goes in the owner's deinit, where the slot is
    // given back
    Row {
        text: "arc 1\nslots 2\nentries 1\nclass Node peer:unowned:Leaf\nclass Leaf\nthread 1\nvar a strong Node\nvar b strong Leaf\nvar u unowned Leaf\nnew a Node\nnew b Leaf\nunown u b\nset a.peer u\ndrop b\nget u a.peer\nload b u\ndrop u\ndrop a\ndone\n",
        events: &[
            (2, 1, NEW_IN_0),
            (6, 1, NEXT_IN_1),
            (10, 1, Act::UnownedOf { of: 2, hand: 3 }),
            (
                12,
                1,
                Act::Swap {
                    cell: FIRST_OF_0,
                    put: Some(3),
                    took: None,
                },
            ),
            (14, 1, DROP_SECOND),
            (
                19,
                1,
                Act::Finish {
                    slot: 1,
                    last: false,
                },
            ),
            (
                23,
                1,
                Act::Copy {
                    from: Origin::Cell(FIRST_OF_0),
                    hand: 4,
                },
            ),
            (
                25,
                1,
                Act::Load {
                    of: 4,
                    got: Got::Dead,
                },
            ),
            (
                27,
                1,
                Act::Drop {
                    hand: 4,
                    last: false,
                },
            ),
            (29, 1, DROP_LAST),
            (
                33,
                1,
                Act::Take {
                    slot: 0,
                    field: 0,
                    hand: 5,
                },
            ),
            (
                35,
                1,
                Act::Drop {
                    hand: 5,
                    last: true,
                },
            ),
            (36, 1, VACATE_1),
            (39, 1, FINISH_0),
            (40, 1, VACATE_0),
        ],
        lines: &[&[
            (1, Answer::New(NODE)),
            (2, Answer::New(NEXT_LEAF)),
            (3, Answer::Ok),
            (4, Answer::Ok),
            (5, Answer::Ok),
            (5, Answer::Deinit(NEXT_LEAF)),
            (6, Answer::Ok),
            (7, Answer::Dead),
            (8, Answer::Ok),
            (9, Answer::Ok),
            (9, Answer::Deinit(NODE)),
        ]],
        steps: 40,
        taken: 0,
    },
    // a leaf refers back to its owner, which outlives it: the reference goes while the owner's deinit waits
    Row {
        text: "arc 1\nslots 2\nentries 1\nclass Node kid:strong:Leaf\nclass Leaf up:unowned:Node\nthread 1\nvar a strong Node\nvar b strong Leaf\nvar u unowned Node\nnew a Node\nnew b Leaf\nunown u a\nset b.up u\nset a.kid b\ndone\n",
        events: &[
            (2, 1, NEW_IN_0),
            (6, 1, NEXT_IN_1),
            (10, 1, Act::UnownedOf { of: 1, hand: 3 }),
            (
                12,
                1,
                Act::Swap {
                    cell: FIRST_OF_1,
                    put: Some(3),
                    took: None,
                },
            ),
            (
                14,
                1,
                Act::Swap {
                    cell: FIRST_OF_0,
                    put: Some(2),
                    took: None,
                },
            ),
            (16, 1, DROP_LAST),
            (
                20,
                1,
                Act::Take {
                    slot: 0,
                    field: 0,
                    hand: 4,
                },
            ),
            (
                22,
                1,
                Act::Drop {
                    hand: 4,
                    last: true,
                },
            ),
            (
                26,
                1,
                Act::Take {
                    slot: 1,
                    field: 0,
                    hand: 5,
                },
            ),
            (
                28,
                1,
                Act::Drop {
                    hand: 5,
                    last: false,
                },
            ),
            (31, 1, FINISH_1),
            (32, 1, VACATE_1),
            (36, 1, FINISH_0),
            (37, 1, VACATE_0),
        ],
        lines: &[&[
            (1, Answer::New(NODE)),
            (2, Answer::New(NEXT_LEAF)),
            (3, Answer::Ok),
            (4, Answer::Ok),
            (5, Answer::Ok),
            (0, Answer::Deinit(NODE)),
            (0, Answer::Deinit(NEXT_LEAF)),
        ]],
        steps: 37,
        taken: 0,
    },
    // three objects die under one another, by the second field of the first one and the first field of the second one, which then loads its second
    Row {
        text: "arc 1\nslots 3\nentries 1\nclass Node left:strong:Node right:strong:Node\nthread 1\nvar a strong Node\nvar b strong Node\nvar c strong Node\nnew a Node\nnew b Node\nnew c Node\nset b.left c\nset a.right b\ndrop a\ndone\n",
        events: &[
            (2, 1, NEW_IN_0),
            (6, 1, SECOND_IN_1),
            (
                10,
                1,
                Act::New {
                    hand: 3,
                    class: 0,
                    slot: 2,
                },
            ),
            (
                14,
                1,
                Act::Swap {
                    cell: FIRST_OF_1,
                    put: Some(3),
                    took: None,
                },
            ),
            (
                16,
                1,
                Act::Swap {
                    cell: SECOND_OF_0,
                    put: Some(2),
                    took: None,
                },
            ),
            (18, 1, DROP_LAST),
            (
                23,
                1,
                Act::Take {
                    slot: 0,
                    field: 1,
                    hand: 4,
                },
            ),
            (
                25,
                1,
                Act::Drop {
                    hand: 4,
                    last: true,
                },
            ),
            (
                29,
                1,
                Act::Take {
                    slot: 1,
                    field: 0,
                    hand: 5,
                },
            ),
            (
                31,
                1,
                Act::Drop {
                    hand: 5,
                    last: true,
                },
            ),
            (
                38,
                1,
                Act::Finish {
                    slot: 2,
                    last: true,
                },
            ),
            (39, 1, VACATE_2),
            (44, 1, FINISH_1),
            (45, 1, VACATE_1),
            (49, 1, FINISH_0),
            (50, 1, VACATE_0),
        ],
        lines: &[&[
            (1, Answer::New(NODE)),
            (2, Answer::New(NEXT_NODE)),
            (3, Answer::New(THIRD_NODE)),
            (4, Answer::Ok),
            (5, Answer::Ok),
            (6, Answer::Ok),
            (6, Answer::Deinit(NODE)),
            (6, Answer::Deinit(NEXT_NODE)),
            (6, Answer::Deinit(THIRD_NODE)),
        ]],
        steps: 50,
        taken: 0,
    },
    // two objects that keep each other stay
    Row {
        text: "arc 1\nslots 2\nentries 1\nclass Node next:strong:Node\nthread 1\nvar a strong Node\nvar b strong Node\nvar c strong Node\nnew a Node\nnew b Node\ncopy c b\nset a.next c\nset b.next a\ndone\n",
        events: &[
            (2, 1, NEW_IN_0),
            (6, 1, SECOND_IN_1),
            (
                10,
                1,
                Act::Copy {
                    from: Origin::Hand(2),
                    hand: 3,
                },
            ),
            (
                12,
                1,
                Act::Swap {
                    cell: FIRST_OF_0,
                    put: Some(3),
                    took: None,
                },
            ),
            (
                14,
                1,
                Act::Swap {
                    cell: FIRST_OF_1,
                    put: Some(1),
                    took: None,
                },
            ),
            (16, 1, DROP_SECOND_MORE),
        ],
        lines: &[&[
            (1, Answer::New(NODE)),
            (2, Answer::New(NEXT_NODE)),
            (3, Answer::Ok),
            (4, Answer::Ok),
            (5, Answer::Ok),
        ]],
        steps: 16,
        taken: 3,
    },
];

/// The rows with a global, through which the threads share an object with fields.
pub const SHARED_FIELDS: &[GlobalRow] = &[
    // the field of an object that a global keeps: both threads see it nil, thread 1 sets it, thread 2 finds it changed and takes the other leaf's place
    GlobalRow {
        row: Row {
            text: "arc 1\nslots 3\nentries 1\nclass Node next:strong:Leaf\nclass Leaf\nglobal g strong Node\nthread 1\nvar a strong Node\nvar b strong Leaf\nnew a Node\nset @g a\nphase\nget a @g\nnew b Leaf\nset a.next b\nthread 2\nvar c strong Node\nvar d strong Leaf\nphase\nget c @g\nnew d Leaf\nset c.next d\nschedule 1 1 1 1 1 1\nschedule 1 1 1 1 1 1 1 1 1 2 2 2 2 2 2 2 2 2\nschedule 1 2 1 2\ndone\n",
            events: &[
                (2, 1, NEW_IN_0),
                (
                    6,
                    1,
                    Act::Swap {
                        cell: G,
                        put: Some(1),
                        took: None,
                    },
                ),
                (
                    10,
                    1,
                    Act::Copy {
                        from: Origin::Cell(G),
                        hand: 2,
                    },
                ),
                (13, 1, OTHER_IN_1),
                (
                    19,
                    2,
                    Act::Copy {
                        from: Origin::Cell(G),
                        hand: 1,
                    },
                ),
                (
                    22,
                    2,
                    Act::New {
                        hand: 2,
                        class: 1,
                        slot: 2,
                    },
                ),
                (
                    27,
                    1,
                    Act::Swap {
                        cell: FIRST_OF_0,
                        put: Some(3),
                        took: None,
                    },
                ),
                (30, 1, DROP_SECOND_MORE),
                (
                    32,
                    2,
                    Act::Swap {
                        cell: FIRST_OF_0,
                        put: Some(2),
                        took: Some(3),
                    },
                ),
                (34, 2, DROP_THIRD),
                (39, 2, FINISH_1),
                (40, 2, VACATE_1),
                (42, 2, DROP_MORE),
                (
                    44,
                    0,
                    Act::Swap {
                        cell: G,
                        put: None,
                        took: Some(1),
                    },
                ),
                (46, 0, DROP_LAST),
                (
                    50,
                    0,
                    Act::Take {
                        slot: 0,
                        field: 0,
                        hand: 2,
                    },
                ),
                (52, 0, DROP_SECOND),
                (
                    57,
                    0,
                    Act::Finish {
                        slot: 2,
                        last: true,
                    },
                ),
                (58, 0, VACATE_2),
                (62, 0, FINISH_0),
                (63, 0, VACATE_0),
            ],
            lines: &[
                &[
                    (1, Answer::New(NODE)),
                    (2, Answer::Ok),
                    (3, Answer::Ok),
                    (4, Answer::New(NEXT_LEAF)),
                    (5, Answer::Ok),
                ],
                &[
                    (1, Answer::Ok),
                    (2, Answer::New(LEAF_OF_2)),
                    (3, Answer::Ok),
                    (3, Answer::Deinit(NEXT_LEAF)),
                ],
            ],
            steps: 63,
            taken: 0,
        },
        end: &[(0, Answer::Deinit(NODE)), (0, Answer::Deinit(LEAF_OF_2))],
    },
];
