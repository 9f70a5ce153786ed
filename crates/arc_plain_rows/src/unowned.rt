//! Unowned references.

use crate::acts::{
    DROP_LAST, DROP_MORE, DROP_SECOND, DROP_SECOND_MORE, DROP_THIRD, FINISH_0, FINISH_0_MORE,
    FOUND_DEAD, LOADED, NEW_IN_0, NEXT_NODE, NODE, UNOWN, VACATE_0,
};
use crate::rows::Row;
use arc_model::{Act, Got, Origin};
use arc_ops::Answer;

pub static UNOWNED: &[Row] = &[
    // an unowned reference doesn't keep its object: a load after the deinit finds it dead, and the slot stays taken
    Row {
        text: "arc 1\nslots 1\nentries 1\nclass Node\nthread 1\nvar a strong Node\nvar b strong Node\nvar c strong Node\nvar u unowned Node\nnew a Node\nunown u a\ndrop a\nload b u\nnew c Node\ndone\n",
        events: &[
            (2, 1, NEW_IN_0),
            (6, 1, UNOWN),
            (8, 1, DROP_LAST),
            (13, 1, FINISH_0_MORE),
            (14, 1, FOUND_DEAD),
            (15, 1, Act::Full),
            (17, 1, DROP_SECOND),
            (18, 1, VACATE_0),
        ],
        lines: &[&[
            (1, Answer::New(NODE)),
            (2, Answer::Ok),
            (3, Answer::Ok),
            (3, Answer::Deinit(NODE)),
            (4, Answer::Dead),
            (5, Answer::Full),
        ]],
        steps: 18,
        taken: 0,
    },
    // a load before the end keeps the object; once the last unowned reference is gone the slot is given again
    Row {
        text: "arc 1\nslots 1\nentries 1\nclass Node\nthread 1\nvar a strong Node\nvar b strong Node\nvar u unowned Node\nnew a Node\nunown u a\nload b u\ndrop a\ndrop b\nload b u\ndrop u\nnew b Node\ndone\n",
        events: &[
            (2, 1, NEW_IN_0),
            (6, 1, UNOWN),
            (8, 1, LOADED),
            (11, 1, DROP_MORE),
            (13, 1, DROP_THIRD),
            (18, 1, FINISH_0_MORE),
            (19, 1, FOUND_DEAD),
            (21, 1, DROP_SECOND),
            (22, 1, VACATE_0),
            (
                24,
                1,
                Act::New {
                    hand: 4,
                    class: 0,
                    slot: 0,
                },
            ),
            (
                28,
                1,
                Act::Drop {
                    hand: 4,
                    last: true,
                },
            ),
            (33, 1, FINISH_0),
            (34, 1, VACATE_0),
        ],
        lines: &[&[
            (1, Answer::New(NODE)),
            (2, Answer::Ok),
            (3, Answer::Got(NODE)),
            (4, Answer::Ok),
            (5, Answer::Ok),
            (5, Answer::Deinit(NODE)),
            (6, Answer::Dead),
            (7, Answer::Ok),
            (8, Answer::New(NEXT_NODE)),
            (0, Answer::Deinit(NEXT_NODE)),
        ]],
        steps: 34,
        taken: 0,
    },
    // unowned references are copied, also after the deinit, moved, and dropped where another takes their place
    Row {
        text: "arc 1\nslots 1\nentries 1\nclass Node\nthread 1\nvar a strong Node\nvar u unowned Node\nvar v unowned Node\nnew a Node\nunown u a\ncopy v u\nunown u a\nmove u v\ndrop a\ncopy v u\ndone\n",
        events: &[
            (2, 1, NEW_IN_0),
            (6, 1, UNOWN),
            (
                8,
                1,
                Act::Copy {
                    from: Origin::Hand(2),
                    hand: 3,
                },
            ),
            (10, 1, Act::UnownedOf { of: 1, hand: 4 }),
            (12, 1, DROP_SECOND_MORE),
            (
                14,
                1,
                Act::Drop {
                    hand: 4,
                    last: false,
                },
            ),
            (16, 1, DROP_LAST),
            (21, 1, FINISH_0_MORE),
            (
                23,
                1,
                Act::Copy {
                    from: Origin::Hand(3),
                    hand: 5,
                },
            ),
            (
                25,
                1,
                Act::Drop {
                    hand: 3,
                    last: false,
                },
            ),
            (
                27,
                1,
                Act::Drop {
                    hand: 5,
                    last: true,
                },
            ),
            (28, 1, VACATE_0),
        ],
        lines: &[&[
            (1, Answer::New(NODE)),
            (2, Answer::Ok),
            (3, Answer::Ok),
            (4, Answer::Ok),
            (5, Answer::Ok),
            (6, Answer::Ok),
            (6, Answer::Deinit(NODE)),
            (7, Answer::Ok),
        ]],
        steps: 28,
        taken: 0,
    },
    // nothing is formed of nil, and nothing is loaded of it; the destination becomes nil
    Row {
        text: "arc 1\nslots 1\nentries 1\nclass Node\nthread 1\nvar a strong Node\nvar u unowned Node\nunown u a\nload a u\nnew a Node\nload a u\ndone\n",
        events: &[
            (2, 1, NEW_IN_0),
            (6, 1, DROP_LAST),
            (11, 1, FINISH_0),
            (12, 1, VACATE_0),
        ],
        lines: &[&[
            (1, Answer::Nil),
            (2, Answer::Nil),
            (3, Answer::New(NODE)),
            (4, Answer::Nil),
            (4, Answer::Deinit(NODE)),
        ]],
        steps: 12,
        taken: 0,
    },
    // an immortal object is found by a load after each of its references is gone: no word changes, and each drop has one step
    Row {
        text: "arc 2\nslots 1\nentries 1\nimmortal Root\nthread 1\nvar a strong Root\nvar b strong Root\nvar u unowned Root\nnew a Root\nunown u a\ndrop a\nload b u\ndrop b\ndrop u\ndone\n",
        events: &[
            (2, 1, NEW_IN_0),
            (5, 1, UNOWN),
            (6, 1, DROP_MORE),
            (7, 1, LOADED),
            (
                9,
                1,
                Act::Drop {
                    hand: 3,
                    last: false,
                },
            ),
            (10, 1, DROP_SECOND_MORE),
        ],
        lines: &[&[
            (1, Answer::New(NODE)),
            (2, Answer::Ok),
            (3, Answer::Ok),
            (4, Answer::Got(NODE)),
            (5, Answer::Ok),
            (6, Answer::Ok),
        ]],
        steps: 10,
        taken: 1,
    },
];
