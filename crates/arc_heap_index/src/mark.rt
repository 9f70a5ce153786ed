//! Marks of the threads: what was made and what had become free at the last event of each.
ghost use Rattle.std.specs.Prelude.{IfOk};
ghost use Rattle.arc_heap_index.specs.Fresh.{AreMarked};

use std::alloc::{AllocError, Global};

/// What is kept of a thread: how many objects it made, and how often a slot or an entry had become free at its last event.
#[derive(Clone, Copy, Debug, PartialEq, Eq)]
pub struct Mark {
    pub made: u32,
    pub slots: usize,
    pub entries: usize,
}

/// The marks of so many threads, none of which has made anything or has had an event since the start.
pub fn first_marks(
    alloc: Global,
    count: u32,
    slots: usize,
    entries: usize,
) -> Result<Vec<Mark>, AllocError>
    ensures { IfOk result (λ v. AreMarked count slots entries v.items) }
{
    let mut marks = Vec::new(alloc);
    for _ in 0..count {
        marks.push(Mark {
            made: 0,
            slots,
            entries,
        })?;
    }
    Ok(marks)
}
