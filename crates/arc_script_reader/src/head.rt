//! The lines before the first thread.

ghost use Rattle.std.specs.Prelude.{◌≡◌, ◌≤◌, All, length, map, IfOk, OnOk};
ghost use Rattle.arc_text.specs.Lines.{lines_of};
ghost use Rattle.arc_script.specs.declared.script.ClassDecl.{ClassDecl};
ghost use Rattle.arc_script_reader.specs.Fields.{seen};
ghost use Rattle.arc_script.specs.Group.{named, run_group};
ghost use Rattle.arc_script.specs.HeadLines.{slots_line, entries_line, caps_line, class_with, class_line, global_line};
ghost use Rattle.arc_script.specs.Grammar.{no_head, shape_said};
ghost use Rattle.arc_script.specs.Reading.{Enters};

use crate::field::{
    FieldWord, are_field_words, declare, field_words, has_bad_kind, has_misspelled, has_repeat,
    has_unknown, has_weak_immortal,
};
use crate::group::Group;
use crate::shape::shape_of;
use arc_model::{Caps, Shape};
use arc_script::{ClassDecl, LineFault, Reason, VarDecl, class_place, decl_of};
use arc_text::{Name, is_name, number_in};
use sqlite_items::Items;
use std::alloc::{AllocError, Global};
use std::marker::Model;

/// What the lines of a heading say so far. Seen as `HeadSaid`.
#[derive(Drop)]
pub struct Head<'a> {
    version: u32,
    slots: u32,
    entries: u32,
    caps: Caps,
    classes: Items<ClassDecl>,
    globals: Items<VarDecl>,
    group: Group<'a>,
}

impl<'a> Model for Head<'a> {
    ghost use Rattle.arc_script.specs.Said.{HeadSaid, HeadFits};

    ghost Value = { HeadSaid };

    ghost view = { λ h. record { version = h.version; slots = h.slots; entries = h.entries; caps = h.caps; classes = h.classes; globals = h.globals; group = h.group } };

    ghost invariant = { λ h. HeadFits h.version h.slots h.entries h.classes h.globals h.group };
}

impl<'a> Head<'a> {
    /// A heading of which nothing was read, in a text of this version.
    pub fn new(alloc: Global, version: u32) -> Head<'a>
        ensures { result ≡ no_head version }
    {
        Head {
            version,
            slots: 1,
            entries: 1,
            caps: Caps::new(1_073_741_823, 2_147_483_647, 4_294_967_295).unwrap(),
            classes: Items::new(alloc),
            globals: Items::new(alloc),
            group: Group::new(alloc),
        }
    }

    pub fn classes(&self) -> &[ClassDecl]
        ensures value { result.now ≡ self.now.classes }
        ensures few { length result.now ≤ 64 }
        ensures few_fields { All (λ (c : ClassDecl). length c.fields ≤ 8) result.now }
    {
        self.classes.as_slice()
    }

    pub fn globals(&self) -> &[VarDecl]
        ensures value { result.now ≡ self.now.globals }
        ensures few { length result.now ≤ 64 }
    {
        self.globals.as_slice()
    }

    pub fn version(&self) -> u32
        ensures { result ≡ self.now.version }
    {
        self.version
    }

    pub fn take_version(&mut self, version: u32)
        ensures { self.new ≡ record self.old { version = version } }
    {
        self.version = version;
    }

    pub fn take_slots(&mut self, number: &[u8]) -> Result<(), LineFault>
        ensures { Enters result (slots_line self.old number.now) self.new }
    {
        let Some(slots) = number_in(number, 1, 4096) else {
            return Err(LineFault::Refused(Reason::Number));
        };
        self.slots = slots;
        Ok(())
    }

    pub fn take_entries(&mut self, number: &[u8]) -> Result<(), LineFault>
        ensures { Enters result (entries_line self.old number.now) self.new }
    {
        let Some(entries) = number_in(number, 1, 4096) else {
            return Err(LineFault::Refused(Reason::Number));
        };
        self.entries = entries;
        Ok(())
    }

    pub fn take_caps(&mut self, strong: &[u8], unowned: &[u8], wide: &[u8]) -> Result<(), LineFault>
        ensures { Enters result (caps_line self.old strong.now unowned.now wide.now) self.new }
    {
        let Some(strong) = number_in(strong, 0, 1_073_741_823) else {
            return Err(LineFault::Refused(Reason::Number));
        };
        let Some(unowned) = number_in(unowned, 1, 2_147_483_647) else {
            return Err(LineFault::Refused(Reason::Number));
        };
        let Some(wide) = number_in(wide, 1, 4_294_967_295) else {
            return Err(LineFault::Refused(Reason::Number));
        };
        if wide <= strong || wide < unowned {
            return Err(LineFault::Refused(Reason::WideCap));
        }
        self.caps = Caps::new(strong, unowned, wide).unwrap();
        Ok(())
    }

    /// Looks ahead over the group that begins with a class line: whether it is that of an immortal class, the words behind its first
    /// one, and the text behind the line.
    pub fn look_ahead(
        &mut self,
        alloc: Global,
        immortal: bool,
        words: &[&'a [u8]],
        rest: &'a [u8],
    ) -> Result<(), AllocError>
        requires { length (lines_of rest.now) ≤ 67108864 }
        ensures { OnOk result (self.new ≡ record self.old { group = named immortal (map (λ w. w.now) words.now) (run_group self.old.version (lines_of rest.now)) }) }
    {
        self.group.begin(alloc, self.version, immortal, words, rest)
    }

    fn take_class_with(
        &mut self,
        alloc: Global,
        immortal: bool,
        name: &[u8],
        fields: &[FieldWord],
    ) -> Result<(), LineFault>
        ensures { Enters result (class_with self.old immortal name.now (map seen fields.now)) self.new }
    {
        if !is_name(name) || has_misspelled(fields) {
            return Err(LineFault::Refused(Reason::Spelling));
        }
        let repeats = has_repeat(alloc, fields)?;
        if class_place(self.classes.as_slice(), name).is_some() || repeats {
            return Err(LineFault::Refused(Reason::Again));
        }
        if has_unknown(alloc, &self.group, fields)? {
            return Err(LineFault::Refused(Reason::Unknown));
        }
        if has_bad_kind(fields) {
            return Err(LineFault::Refused(Reason::Kind));
        }
        if self.classes.len() >= 64 || fields.len() > 8 {
            return Err(LineFault::Refused(Reason::TooMany));
        }
        let fields = declare(alloc, &self.group, fields)?;
        if has_weak_immortal(&self.group, fields.as_slice()) {
            return Err(LineFault::Refused(Reason::WeakImmortal));
        }
        let Some(name) = Name::new(Vec::from_slice(alloc, name)?) else {
            return Err(LineFault::Refused(Reason::Spelling));
        };
        self.classes.push(ClassDecl {
            name,
            immortal,
            fields,
        })?;
        Ok(())
    }

    pub fn take_class(
        &mut self,
        alloc: Global,
        immortal: bool,
        words: &[&[u8]],
    ) -> Result<(), LineFault>
        ensures { Enters result (class_line self.old immortal (map (λ w. w.now) words.now)) self.new }
    {
        let [name, words @ ..] = words else {
            return Err(LineFault::Refused(Reason::WordCount));
        };
        if !are_field_words(words) {
            return Err(LineFault::Refused(Reason::WordCount));
        }
        let fields = field_words(alloc, words)?;
        self.take_class_with(alloc, immortal, name, &fields)
    }

    pub fn take_global(
        &mut self,
        alloc: Global,
        name: &[u8],
        kind: &[u8],
        class: &[u8],
    ) -> Result<(), LineFault>
        ensures { Enters result (global_line self.old name.now kind.now class.now) self.new }
    {
        let global = decl_of(
            alloc,
            64,
            self.globals.as_slice(),
            self.classes.as_slice(),
            name,
            kind,
            class,
        )?;
        self.globals.push(global)?;
        Ok(())
    }

    /// The shape, the classes and the globals.
    pub fn into_parts(
        self,
        alloc: Global,
    ) -> Result<(Shape, Items<ClassDecl>, Items<VarDecl>), AllocError>
        ensures { IfOk result (λ p. (p.0 ≡ shape_said self.entry) × (p.1 ≡ self.entry.classes) × (p.2 ≡ self.entry.globals)) }
    {
        let Head {
            version: _,
            slots,
            entries,
            caps,
            classes,
            globals,
            group: _,
        } = self;
        let shape = shape_of(
            alloc,
            slots,
            entries,
            caps,
            classes.as_slice(),
            globals.as_slice(),
        )?;
        Ok((shape, classes, globals))
    }
}
