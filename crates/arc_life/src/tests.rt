//! The life is made.

use crate::heaps::life_heap;
use crate::life::{closed, lived};

/// The words at the end, from the one that is always 0 on: the inline word and the isa word of the immortal object, and the bit of its slot. What
/// else isn't 0 are inline words and isa words of free slots, and the link of the free entry.
#[rattlefmt::skip]
const LEFT: [u64; 41] = [
    0, 0,
    0x8000_0000_0000_0000, 65_536, 0, 0, 0, 0, 0, 0, 0, 0, 0,
    0x1_0000_0000, 0x2_0001, 0, 0, 0, 0, 0, 0, 0, 0, 0,
    1, 0x3_0002, 0, 0, 0, 0, 0, 0, 0, 0, 0,
    1, 0, 0, 0,
    4, 0,
];

/// With ample memory a heap is made. Nobody else makes steps in it, so each step finds its word, and the heap can be closed.
#[test]
fn object_lives(rt: HostRuntime) {
    let (heap, mut pass) = life_heap(rt.alloc()).expect(&rt, "a heap");
    assert_eq!(rt; lived(&heap, &mut pass), true);
    assert_eq!(rt; closed(heap, pass).words.as_slice(), LEFT.as_slice());
}
