//! What the words of an event may name: threads, classes, globals.

use crate::names::{class_place, global_place};
use arc_script::{ClassDecl, VarDecl};
use arc_text::number_in;
use sqlite_items::Items;
use std::marker::Model;

/// What the words of an event may name. Seen as `Naming`.
#[derive(Drop)]
pub struct Scope {
    slots: u32,
    entries: u32,
    threads: u32,
    classes: Items<ClassDecl>,
    globals: Items<VarDecl>,
}

impl Model for Scope {
    ghost use Rattle.arc_check.specs.Scopes.{Naming, NamingFits};

    ghost Value = { Naming };

    ghost view = { λ s. record { slots = s.slots; entries = s.entries; threads = s.threads; classes = s.classes; globals = s.globals } };

    ghost invariant = { λ s. NamingFits s.slots s.entries s.threads s.classes s.globals };
}

impl Scope {
    ghost use Rattle.std.specs.Prelude.{◌≡◌};
    ghost use Rattle.arc_script.specs.Lookups.{class_place, var_place};
    ghost use Rattle.arc_check.specs.Scopes.{NamingFits, slot_in, entry_in, thread_in};

    /// The scope of a heap with so many slots and entries, for threads 0 to `threads`.
    pub fn new(
        slots: u32,
        entries: u32,
        threads: u32,
        classes: Items<ClassDecl>,
        globals: Items<VarDecl>,
    ) -> Scope
        requires { NamingFits slots entries threads classes globals }
        ensures { result ≡ record { slots = slots; entries = entries; threads = threads; classes = classes; globals = globals } }
    {
        Scope {
            slots,
            entries,
            threads,
            classes,
            globals,
        }
    }

    /// The number of a slot.
    pub fn slot_in(&self, word: &[u8]) -> Option<u32>
        ensures { result ≡ slot_in self.now word.now }
    {
        number_in(word, 0, self.slots - 1)
    }

    /// The number of an entry.
    pub fn entry_in(&self, word: &[u8]) -> Option<u32>
        ensures { result ≡ entry_in self.now word.now }
    {
        number_in(word, 0, self.entries - 1)
    }

    /// The number of a thread, or 0.
    pub fn thread_in(&self, word: &[u8]) -> Option<u32>
        ensures { result ≡ thread_in self.now word.now }
    {
        number_in(word, 0, self.threads)
    }

    /// The place of a class.
    pub fn class_of(&self, name: &[u8]) -> Option<u32>
        ensures { result ≡ class_place self.now.classes name.now }
    {
        class_place(self.classes.as_slice(), name)
    }

    /// The place of a global.
    pub fn global_of(&self, name: &[u8]) -> Option<u32>
        ensures { result ≡ var_place self.now.globals name.now }
    {
        global_place(self.globals.as_slice(), name)
    }
}
