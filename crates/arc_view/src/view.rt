//! What a pass knows of a shared heap. No value of these types is made: contracts alone see them.
use arc_model::{CellName, Event};
use arc_rule::{Place, Step};
use std::collections::LinkedList;

/// What a seat of the table is for.
#[derive(Clone, Copy)]
pub enum Role {
    /// It makes steps.
    Pass,
    /// It keeps what a pass had seen.
    Note,
    /// It was taken in by another.
    Spent,
}

/// A step that was made: what it gave back, how many events the history had before its own one, and how many of them were
/// the pass's.
#[derive(Clone, Copy)]
pub struct Mark {
    pub step: Step,
    pub found: u64,
    pub length: u64,
    pub made: u64,
}

/// What had been seen before a join. It has all events of the threads `of`, since none of them makes any until the next step.
pub struct Old {
    pub seen: LinkedList<Event>,
    pub of: LinkedList<u32>,
}

/// A word that no other pass writes.
#[derive(Clone, Copy)]
pub struct Stored {
    pub place: Place,
    pub word: u64,
}

/// An access to a cell that was begun: the cell's word says so, and the pass has the word that was there.
#[derive(Clone, Copy)]
pub struct Begun {
    pub cell: CellName,
    pub value: u64,
}

/// Where a deinit goes on once another has ended: at a field of an object whose deinit was entered before, or past its last one.
#[derive(Clone, Copy)]
pub struct Parent {
    pub slot: u32,
    pub field: u32,
}

/// A deinit that was entered, by its next word. The fields before the next one are nil.
#[derive(Clone, Copy)]
pub struct Entered {
    pub slot: u32,
    pub parent: Option<Parent>,
    pub next_field: u32,
}

/// The object that was put into a slot, and whose inline word and then isa word are still to be written; `counted`: the inline word was.
#[derive(Clone, Copy)]
pub struct Naming {
    pub slot: u32,
    pub counted: bool,
}

/// What a pass has under way, and no history shows: the new object whose words it still has to write, the access that it holds,
/// the words that it has stored in the entries that it claimed, and the deinits that it has entered.
pub struct Working {
    pub owes: Option<Naming>,
    pub access: Option<Begun>,
    pub stored: LinkedList<Stored>,
    pub entered: LinkedList<Entered>,
}

/// What a seat of the table knows. Hands, duties and claims aren't here: they are functions of the number and of what was
/// seen. The history and the trail begin with what came last. `splits` and `taken` are of the first pass: how many passes it
/// split off, and the numbers of those that it took in.
pub struct View {
    pub number: u32,
    pub role: Role,
    pub seen: LinkedList<Event>,
    pub trail: LinkedList<Mark>,
    pub splits: u32,
    pub taken: LinkedList<u32>,
    pub olds: LinkedList<Old>,
    pub working: Working,
}
