//! Immortal objects and blocks.

use crate::acts::{
    COPY, DROP_LAST, DROP_MORE, DROP_SECOND, DROP_SECOND_MORE, DROP_THIRD, FINISH_0, FINISH_1,
    NEW_IN_0, NEW_IN_1, NEXT_IN_1, NEXT_LEAF, NEXT_NODE, NODE, NODE_OF_2, OTHER_IN_1, SECOND_IN_0,
    VACATE_0, VACATE_1,
};
use crate::rows::Row;
use arc_model::Act;
use arc_ops::Answer;

pub static BLOCKS: &[Row] = &[
    // an immortal object: a copy and a drop of it are a load that shows 1, here in steps 5, 6 and 11, and its slot stays taken
    Row {
        text: "arc 2\nslots 2\nentries 1\nimmortal Root\nclass Node\nthread 1\nvar r strong Root\nvar s strong Root\nvar n strong Node\nnew r Root\ncopy s r\ndrop r\nnew n Node\ndone\n",
        events: &[
            (2, 1, NEW_IN_0),
            (5, 1, COPY),
            (6, 1, DROP_MORE),
            (8, 1, OTHER_IN_1),
            (11, 1, DROP_SECOND_MORE),
            (13, 1, DROP_THIRD),
            (18, 1, FINISH_1),
            (19, 1, VACATE_1),
        ],
        lines: &[&[
            (1, Answer::New(NODE)),
            (2, Answer::Ok),
            (3, Answer::Ok),
            (4, Answer::New(NEXT_LEAF)),
            (0, Answer::Deinit(NEXT_LEAF)),
        ]],
        steps: 19,
        taken: 1,
    },
    // blocks in blocks: that of operation 3 is skipped, the others are run, and the beginnings of blocks have neither numbers nor steps
    Row {
        text: "arc 2\nslots 1\nentries 1\nclass Node\nthread 1\nvar a strong Node\nvar b strong Node\nifnil a\nnew a Node\nifsome a\ncopy b a\nifnil b\ndrop a\nend\nend\nend\nifsome b\ndrop a\nend\ndrop b\ndone\n",
        events: &[
            (2, 1, NEW_IN_0),
            (6, 1, COPY),
            (8, 1, DROP_MORE),
            (10, 1, DROP_SECOND),
            (15, 1, FINISH_0),
            (16, 1, VACATE_0),
        ],
        lines: &[&[
            (1, Answer::New(NODE)),
            (2, Answer::Ok),
            (4, Answer::Ok),
            (5, Answer::Ok),
            (5, Answer::Deinit(NODE)),
        ]],
        steps: 16,
        taken: 0,
    },
    // blocks in phases: thread 1 skips operations 2 and 3 with the block that holds them, and 5 in one that is run; thread 2 gets no object
    // in its first phase, so it skips operation 2, and its last phase is a block that is run
    Row {
        text: "arc 2\nslots 1\nentries 1\nclass Node\nthread 1\nvar a strong Node\nnew a Node\nphase\nifnil a\nnew a Node\nifsome a\ndrop a\nend\nend\ndrop a\nphase\nifnil a\nifsome a\ndrop a\nend\nnew a Node\nend\nthread 2\nvar c strong Node\nnew c Node\nifsome c\ndrop c\nend\nphase\nphase\nifnil c\nnew c Node\nend\ndone\n",
        events: &[
            (2, 1, NEW_IN_0),
            (5, 2, Act::Full),
            (7, 1, DROP_LAST),
            (12, 1, FINISH_0),
            (13, 1, VACATE_0),
            (15, 1, SECOND_IN_0),
            (19, 1, DROP_SECOND),
            (24, 1, FINISH_0),
            (25, 1, VACATE_0),
            (27, 2, NEW_IN_0),
            (31, 2, DROP_LAST),
            (36, 2, FINISH_0),
            (37, 2, VACATE_0),
        ],
        lines: &[
            &[
                (1, Answer::New(NODE)),
                (4, Answer::Ok),
                (4, Answer::Deinit(NODE)),
                (6, Answer::New(NEXT_NODE)),
                (0, Answer::Deinit(NEXT_NODE)),
            ],
            &[
                (1, Answer::Full),
                (3, Answer::New(NODE_OF_2)),
                (0, Answer::Deinit(NODE_OF_2)),
            ],
        ],
        steps: 37,
        taken: 0,
    },
    // a block that is run finds no slot free, so that the next one is skipped; the immortal object keeps its slot
    Row {
        text: "arc 2\nslots 2\nentries 1\nimmortal Root\nclass Node\nthread 1\nvar r strong Root\nvar n strong Node\nvar m strong Node\nvar k strong Node\nnew r Root\nnew n Node\nmove k n\nifnil n\nnew m Node\nend\nifsome m\ndrop m\nend\ndrop r\ndone\n",
        events: &[
            (2, 1, NEW_IN_0),
            (6, 1, NEXT_IN_1),
            (9, 1, Act::Full),
            (10, 1, DROP_MORE),
            (12, 1, DROP_SECOND),
            (17, 1, FINISH_1),
            (18, 1, VACATE_1),
        ],
        lines: &[&[
            (1, Answer::New(NODE)),
            (2, Answer::New(NEXT_LEAF)),
            (3, Answer::Ok),
            (4, Answer::Full),
            (6, Answer::Ok),
            (0, Answer::Deinit(NEXT_LEAF)),
        ]],
        steps: 18,
        taken: 1,
    },
    // thread 1 has no step in its first phase, whose block is skipped, so its three places there are used up; in its second phase it loads the
    // bits at step 5, while thread 2 skips its block and begins its drop, and sets a bit at step 7, which is the last place
    Row {
        text: "arc 2\nslots 2\nentries 1\nclass Node\nthread 1\nvar a strong Node\nifsome a\ndrop a\nend\nphase\nnew a Node\nthread 2\nvar b strong Node\nnew b Node\nphase\nifnil b\nnew b Node\nend\ndrop b\nschedule 1 2 2 1 1 2 2 1 2 1\ndone\n",
        events: &[
            (2, 2, NEW_IN_0),
            (7, 1, NEW_IN_1),
            (11, 1, DROP_LAST),
            (16, 1, FINISH_1),
            (17, 1, VACATE_1),
            (18, 2, DROP_LAST),
            (23, 2, FINISH_0),
            (24, 2, VACATE_0),
        ],
        lines: &[
            &[(2, Answer::New(NODE)), (0, Answer::Deinit(NODE))],
            &[
                (1, Answer::New(NODE_OF_2)),
                (3, Answer::Ok),
                (3, Answer::Deinit(NODE_OF_2)),
            ],
        ],
        steps: 24,
        taken: 0,
    },
];
