//! Lives in one thread.

use crate::acts::{
    COPY, DROP_LAST, DROP_MORE, DROP_SECOND, FINISH_0, FINISH_1, NEW_IN_0, NEXT_NODE, NODE,
    SECOND_IN_1, VACATE_0, VACATE_1,
};
use crate::rows::Row;
use arc_model::Act;
use arc_ops::Answer;

pub static LIVES: &[Row] = &[
    // no thread
    Row {
        text: "arc 1\nslots 1\nentries 1\nclass Node\ndone\n",
        events: &[],
        lines: &[],
        steps: 0,
        taken: 0,
    },
    // the smallest life
    Row {
        text: "arc 1\nslots 1\nentries 1\nclass Node\nthread 1\nvar a strong Node\nnew a Node\ndrop a\ndone\n",
        events: &[
            (2, 1, NEW_IN_0),
            (6, 1, DROP_LAST),
            (11, 1, FINISH_0),
            (12, 1, VACATE_0),
        ],
        lines: &[&[
            (1, Answer::New(NODE)),
            (2, Answer::Ok),
            (2, Answer::Deinit(NODE)),
        ]],
        steps: 12,
        taken: 0,
    },
    // a copy keeps the object
    Row {
        text: "arc 1\nslots 1\nentries 1\nclass Node\nthread 1\nvar a strong Node\nvar b strong Node\nnew a Node\ncopy b a\ndrop a\ndrop b\ndone\n",
        events: &[
            (2, 1, NEW_IN_0),
            (6, 1, COPY),
            (8, 1, DROP_MORE),
            (10, 1, DROP_SECOND),
            (15, 1, FINISH_0),
            (16, 1, VACATE_0),
        ],
        lines: &[&[
            (1, Answer::New(NODE)),
            (2, Answer::Ok),
            (3, Answer::Ok),
            (4, Answer::Ok),
            (4, Answer::Deinit(NODE)),
        ]],
        steps: 16,
        taken: 0,
    },
    // no slot is free, as the first load tells, and the scope ends
    Row {
        text: "arc 1\nslots 1\nentries 1\nclass Node\nthread 1\nvar a strong Node\nvar b strong Node\ndrop b\nnew a Node\nnew b Node\ndone\n",
        events: &[
            (2, 1, NEW_IN_0),
            (5, 1, Act::Full),
            (7, 1, DROP_LAST),
            (12, 1, FINISH_0),
            (13, 1, VACATE_0),
        ],
        lines: &[&[
            (1, Answer::Nil),
            (2, Answer::New(NODE)),
            (3, Answer::Full),
            (0, Answer::Deinit(NODE)),
        ]],
        steps: 13,
        taken: 0,
    },
    // what a variable held goes when another reference is moved into it, and when nil is copied into it
    Row {
        text: "arc 1\nslots 2\nentries 1\nclass Node\nthread 1\nvar a strong Node\nvar b strong Node\nnew a Node\nnew b Node\nmove b a\ncopy b a\ndone\n",
        events: &[
            (2, 1, NEW_IN_0),
            (6, 1, SECOND_IN_1),
            (10, 1, DROP_SECOND),
            (15, 1, FINISH_1),
            (16, 1, VACATE_1),
            (18, 1, DROP_LAST),
            (23, 1, FINISH_0),
            (24, 1, VACATE_0),
        ],
        lines: &[&[
            (1, Answer::New(NODE)),
            (2, Answer::New(NEXT_NODE)),
            (3, Answer::Ok),
            (3, Answer::Deinit(NEXT_NODE)),
            (4, Answer::Nil),
            (4, Answer::Deinit(NODE)),
        ]],
        steps: 24,
        taken: 0,
    },
];
