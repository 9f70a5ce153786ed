//! Lives in several threads, by schedules and phases.

use crate::acts::{
    DROP_LAST, FINISH_0, FINISH_1, LEAF_IN_1, LEAF_OF_2, NEW_IN_0, NEW_IN_1, NODE, NODE_OF_2,
    NODE_OF_3, VACATE_0, VACATE_1,
};
use crate::rows::Row;
use arc_model::Act;
use arc_ops::Answer;

pub static SCHEDULES: &[Row] = &[
    // without places one thread goes after the other, in the order of their numbers
    Row {
        text: "arc 1\nslots 1\nentries 1\nclass Node\nthread 1\nvar a strong Node\nnew a Node\ndrop a\nthread 2\nvar a strong Node\nnew a Node\ndone\n",
        events: &[
            (2, 1, NEW_IN_0),
            (6, 1, DROP_LAST),
            (11, 1, FINISH_0),
            (12, 1, VACATE_0),
            (14, 2, NEW_IN_0),
            (18, 2, DROP_LAST),
            (23, 2, FINISH_0),
            (24, 2, VACATE_0),
        ],
        lines: &[
            &[
                (1, Answer::New(NODE)),
                (2, Answer::Ok),
                (2, Answer::Deinit(NODE)),
            ],
            &[(1, Answer::New(NODE_OF_2)), (0, Answer::Deinit(NODE_OF_2))],
        ],
        steps: 24,
        taken: 0,
    },
    // one slot, turn about: thread 1 makes the odd steps; thread 2 loads the bit while it is clear and finds it set at step 4, and then at
    // each even step until the slot is free again
    Row {
        text: "arc 1\nslots 1\nentries 1\nclass Node\nthread 1\nvar a strong Node\nnew a Node\ndrop a\nthread 2\nvar a strong Node\nnew a Node\nnew a Node\nnew a Node\nnew a Node\nnew a Node\nnew a Node\nnew a Node\nnew a Node\nnew a Node\nnew a Node\nschedule 1 2 1 2 1 2 1 2 1 2 1 2 1 2 1 2 1 2 1 2 1 2 1 2\ndone\n",
        events: &[
            (3, 1, NEW_IN_0),
            (6, 2, Act::Full),
            (8, 2, Act::Full),
            (10, 2, Act::Full),
            (11, 1, DROP_LAST),
            (12, 2, Act::Full),
            (14, 2, Act::Full),
            (16, 2, Act::Full),
            (18, 2, Act::Full),
            (20, 2, Act::Full),
            (21, 1, FINISH_0),
            (22, 2, Act::Full),
            (23, 1, VACATE_0),
            (25, 2, NEW_IN_0),
            (29, 2, DROP_LAST),
            (34, 2, FINISH_0),
            (35, 2, VACATE_0),
        ],
        lines: &[
            &[
                (1, Answer::New(NODE)),
                (2, Answer::Ok),
                (2, Answer::Deinit(NODE)),
            ],
            &[
                (1, Answer::Full),
                (2, Answer::Full),
                (3, Answer::Full),
                (4, Answer::Full),
                (5, Answer::Full),
                (6, Answer::Full),
                (7, Answer::Full),
                (8, Answer::Full),
                (9, Answer::Full),
                (10, Answer::New(NODE_OF_2)),
                (0, Answer::Deinit(NODE_OF_2)),
            ],
        ],
        steps: 35,
        taken: 0,
    },
    // both threads load the bits while all are clear: thread 1 sets the first one at step 3, so thread 2 finds it set at step 4, loads the
    // bits again at step 6 and sets the second one at step 8
    Row {
        text: "arc 1\nslots 2\nentries 1\nclass Node\nthread 1\nvar a strong Node\nnew a Node\nthread 2\nvar b strong Node\nnew b Node\nschedule 1 2 1 2 1 2 1 2\ndone\n",
        events: &[
            (3, 1, NEW_IN_0),
            (8, 2, NEW_IN_1),
            (10, 1, DROP_LAST),
            (15, 1, FINISH_0),
            (16, 1, VACATE_0),
            (20, 2, DROP_LAST),
            (25, 2, FINISH_1),
            (26, 2, VACATE_1),
        ],
        lines: &[
            &[(1, Answer::New(NODE)), (0, Answer::Deinit(NODE))],
            &[(1, Answer::New(NODE_OF_2)), (0, Answer::Deinit(NODE_OF_2))],
        ],
        steps: 26,
        taken: 0,
    },
    // two phases: thread 1's last place of the first phase is used up without a step, the second phase goes on with what is left, and
    // where no place is left thread 1 goes first
    Row {
        text: "arc 1\nslots 2\nentries 1\nclass Node\nthread 1\nvar a strong Node\nnew a Node\nphase\ndrop a\nthread 2\nvar b strong Node\nnew b Node\nphase\ndrop b\nschedule 2 2 1 1 1 1 1 2 2\nschedule 1 2 1\ndone\n",
        events: &[
            (2, 2, NEW_IN_0),
            (4, 1, NEW_IN_1),
            (11, 1, DROP_LAST),
            (16, 1, FINISH_1),
            (17, 1, VACATE_1),
            (18, 2, DROP_LAST),
            (23, 2, FINISH_0),
            (24, 2, VACATE_0),
        ],
        lines: &[
            &[
                (1, Answer::New(NODE)),
                (2, Answer::Ok),
                (2, Answer::Deinit(NODE)),
            ],
            &[
                (1, Answer::New(NODE_OF_2)),
                (2, Answer::Ok),
                (2, Answer::Deinit(NODE_OF_2)),
            ],
        ],
        steps: 24,
        taken: 0,
    },
    // the second phase has no step, so it uses up no place: thread 2 begins the third one
    Row {
        text: "arc 1\nslots 2\nentries 1\nclass Node\nclass Leaf\nthread 1\nvar a strong Node\nvar b strong Node\nnew a Node\nphase\nmove b a\nphase\ndrop b\ndrop a\nthread 2\nvar c strong Leaf\nnew c Leaf\nphase\nphase\ndrop c\nschedule 1 1 2 2 1 1 2 2\nschedule 2 2\ndone\n",
        events: &[
            (2, 1, NEW_IN_0),
            (4, 2, LEAF_IN_1),
            (10, 2, DROP_LAST),
            (12, 1, DROP_LAST),
            (17, 1, FINISH_0),
            (18, 1, VACATE_0),
            (23, 2, FINISH_1),
            (24, 2, VACATE_1),
        ],
        lines: &[
            &[
                (1, Answer::New(NODE)),
                (2, Answer::Ok),
                (3, Answer::Ok),
                (3, Answer::Deinit(NODE)),
                (4, Answer::Nil),
            ],
            &[
                (1, Answer::New(LEAF_OF_2)),
                (2, Answer::Ok),
                (2, Answer::Deinit(LEAF_OF_2)),
            ],
        ],
        steps: 24,
        taken: 0,
    },
    // the places of a thread that has ended before it made a step are used up
    Row {
        text: "arc 1\nslots 1\nentries 1\nclass Node\nthread 1\nthread 2\nvar a strong Node\nnew a Node\nthread 3\nvar a strong Node\nnew a Node\nschedule 1 3 3 1 2 1 3\ndone\n",
        events: &[
            (2, 3, NEW_IN_0),
            (3, 2, Act::Full),
            (7, 3, DROP_LAST),
            (12, 3, FINISH_0),
            (13, 3, VACATE_0),
        ],
        lines: &[
            &[],
            &[(1, Answer::Full)],
            &[(1, Answer::New(NODE_OF_3)), (0, Answer::Deinit(NODE_OF_3))],
        ],
        steps: 13,
        taken: 0,
    },
];
