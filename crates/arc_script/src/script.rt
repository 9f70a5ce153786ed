//! What a script is.

use crate::copy::{copied_classes, copied_threads, copied_vars};
use arc_model::{Kind, Memory, Shape};
use arc_text::Name;
use sqlite_items::Items;
use std::alloc::{AllocError, Global};

/// A field of a class: its name, and the kind and the class of what it refers to. A class is named by its place among the class
/// lines, from 0.
#[derive(Debug, Drop)]
pub struct FieldDecl {
    pub name: Name,
    pub kind: Kind,
    pub class: u32,
}

/// A class with its fields, at most 8, in the order of declaration. The fields are an `Items`, which contracts see as the list. The
/// objects of an immortal class are never freed.
#[derive(Debug, Drop)]
pub struct ClassDecl {
    pub name: Name,
    pub immortal: bool,
    pub fields: Items<FieldDecl>,
}

/// A variable or a global: its name, and the kind and the class of what it refers to.
#[derive(Debug, Drop)]
pub struct VarDecl {
    pub name: Name,
    pub kind: Kind,
    pub class: u32,
}

/// A cell in an operation: a field of what a variable refers to, or a global. All are named by their places, from 0.
#[derive(Clone, Copy, Debug, PartialEq, Eq)]
pub enum OpCell {
    Field { owner: u32, field: u32 },
    Global(u32),
}

/// An operation, or where a block begins. Variables and classes are named by their places, from 0. A block is what stands between
/// its beginning and the place `to` in the list of the phase; it is passed over unless its variable is nil, or isn't.
#[derive(Clone, Copy, Debug, PartialEq, Eq)]
pub enum Op {
    New { to: u32, class: u32 },
    Copy { to: u32, from: u32 },
    Drop { var: u32 },
    Move { to: u32, from: u32 },
    Unown { to: u32, of: u32 },
    Weak { to: u32, of: u32 },
    Load { to: u32, of: u32 },
    Get { to: u32, cell: OpCell },
    Set { cell: OpCell, from: u32 },
    IfNil { var: u32, to: u32 },
    IfSome { var: u32, to: u32 },
}

/// A thread's variables, at most 256, and the operations of each of its phases, 1 to 64.
#[derive(Debug, Drop)]
pub struct ThreadDecl {
    pub vars: Items<VarDecl>,
    pub phases: Items<Items<Op>>,
}

/// What a script says. Lists are an `Items`, which contracts see as the list of its elements; `Items::from_vec` makes one of a
/// `Vec` without taking memory. `IsScript` of `specs/Valid.antt` says which values are scripts.
#[derive(Debug, Drop)]
pub struct Script {
    pub version: u32,
    pub shape: Shape,
    pub classes: Items<ClassDecl>,
    pub globals: Items<VarDecl>,
    pub threads: Items<ThreadDecl>,
    pub schedule: Items<u32>,
}

impl Script {
    ghost use Rattle.std.specs.Prelude.{◌≡◌, IfOk};

    /// An equal script. `Memory` where there is none.
    pub fn copy(&self, alloc: Global) -> Result<Script, Memory>
        ensures { IfOk result (λ s. s ≡ self.now) }
    {
        Ok(Script {
            version: self.version,
            shape: self.shape.copy(alloc)?,
            classes: copied_classes(alloc, self.classes.as_slice())?,
            globals: copied_vars(alloc, self.globals.as_slice())?,
            threads: copied_threads(alloc, self.threads.as_slice())?,
            schedule: Items::from_slice(alloc, self.schedule.as_slice())?,
        })
    }
}

/// What a script's heading says, and where it ends: the byte and the number of the line right behind its last line.
#[derive(Debug, Drop)]
pub struct Heading {
    pub shape: Shape,
    pub classes: Items<ClassDecl>,
    pub globals: Items<VarDecl>,
    pub end: usize,
    pub line: u32,
}

/// Why a text could not be read: its first line with a fault, from 1, and the least number of a fault that this line has, or no
/// memory.
#[derive(Clone, Copy, Debug, PartialEq, Eq)]
pub enum ReadFault {
    Refused { line: u32, why: u32 },
    Memory,
}

impl From<AllocError> for ReadFault {
    ghost use Rattle.std.specs.Prelude.{◌≡◌};
    ghost use Rattle.arc_script.specs.declared.script.ReadFault.TheVariants.{Memory};

    ghost from_gives = { λ _ e. e ≡ Memory };

    fn from(_e: AllocError) -> ReadFault {
        ReadFault::Memory
    }
}
