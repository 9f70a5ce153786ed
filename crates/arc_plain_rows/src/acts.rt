//! The events and the names of objects that rows have in common.

use arc_model::{Act, Got, ObjectName, Origin};

pub const NEW_IN_0: Act = Act::New {
    hand: 1,
    class: 0,
    slot: 0,
};

pub const NEW_IN_1: Act = Act::New {
    hand: 1,
    class: 0,
    slot: 1,
};

pub const SECOND_IN_1: Act = Act::New {
    hand: 2,
    class: 0,
    slot: 1,
};

pub const SECOND_IN_0: Act = Act::New {
    hand: 2,
    class: 0,
    slot: 0,
};

pub const LEAF_IN_1: Act = Act::New {
    hand: 1,
    class: 1,
    slot: 1,
};

pub const NEXT_IN_1: Act = Act::New {
    hand: 2,
    class: 1,
    slot: 1,
};

pub const OTHER_IN_1: Act = Act::New {
    hand: 3,
    class: 1,
    slot: 1,
};

pub const COPY: Act = Act::Copy {
    from: Origin::Hand(1),
    hand: 2,
};

pub const DROP_MORE: Act = Act::Drop {
    hand: 1,
    last: false,
};

pub const DROP_LAST: Act = Act::Drop {
    hand: 1,
    last: true,
};

pub const DROP_SECOND: Act = Act::Drop {
    hand: 2,
    last: true,
};

pub const UNOWN: Act = Act::UnownedOf { of: 1, hand: 2 };

pub const LOADED: Act = Act::Load {
    of: 2,
    got: Got::Hand(3),
};

pub const FOUND_DEAD: Act = Act::Load {
    of: 2,
    got: Got::Dead,
};

pub const FINISH_0_MORE: Act = Act::Finish {
    slot: 0,
    last: false,
};

pub const DROP_SECOND_MORE: Act = Act::Drop {
    hand: 2,
    last: false,
};

pub const DROP_THIRD: Act = Act::Drop {
    hand: 3,
    last: true,
};

pub const FINISH_0: Act = Act::Finish {
    slot: 0,
    last: true,
};

pub const FINISH_1: Act = Act::Finish {
    slot: 1,
    last: true,
};

pub const VACATE_0: Act = Act::Vacate { slot: 0 };

pub const VACATE_1: Act = Act::Vacate { slot: 1 };

/// The first object of thread 1, of class 0.
pub const NODE: ObjectName = ObjectName {
    class: 0,
    thread: 1,
    number: 1,
};

/// The second one.
pub const NEXT_NODE: ObjectName = ObjectName {
    class: 0,
    thread: 1,
    number: 2,
};

/// The first Node of thread 2.
pub const NODE_OF_2: ObjectName = ObjectName {
    class: 0,
    thread: 2,
    number: 1,
};

/// The first Node of thread 3.
pub const NODE_OF_3: ObjectName = ObjectName {
    class: 0,
    thread: 3,
    number: 1,
};

/// The second object of thread 1, of class 1.
pub const NEXT_LEAF: ObjectName = ObjectName {
    class: 1,
    thread: 1,
    number: 2,
};

/// The first Leaf of thread 2.
pub const LEAF_OF_2: ObjectName = ObjectName {
    class: 1,
    thread: 2,
    number: 1,
};
