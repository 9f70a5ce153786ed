//! The group of class lines, whose names each line of it may use.

ghost use Rattle.std.specs.Prelude.{◌≡◌, ◌+◌, ◌<◌, ◌≤◌, ◌^◌, ℕ, false, List, [], length, map, slice_index_or, IfOk, OnOk, OnErr};
ghost use Rattle.arc_text.specs.Words.{words_of};
ghost use Rattle.arc_text.specs.Lines.{lines_of};
ghost use Rattle.arc_script.specs.Valid.{place_of};
ghost use Rattle.arc_script.specs.Said.{Grouped};
ghost use Rattle.arc_script.specs.Group.{named, line_group, run_group, group_names, group_immortals};
ghost use Rattle.arc_script.specs.Lookups.{is_among};
ghost use Rattle.arc_script_reader.specs.NameSets.{holds};
ghost use Rattle.arc_script_reader.specs.Ahead.{seen, names_with, class_mark};

use crate::name_set::add_name;
use arc_text::{Lines, is_comment, words_of};
use std::alloc::{AllocError, Global};
use std::collections::HashSet;
use std::marker::Model;

/// The name that a class line gives, and whether the class that it declares is immortal.
#[derive(Clone, Copy, Debug)]
pub struct GroupName<'a> {
    pub name: &'a [u8],
    pub immortal: bool,
}

/// What a line says of a run of class lines.
#[derive(Drop)]
enum Ahead<'a> {
    /// The run goes on, and the line names nothing.
    Nothing,
    /// A class line with this name.
    Name(GroupName<'a>),
    /// The run ends before this line.
    End,
}

/// Whether a class line that begins so is that of an immortal class: nothing where no class line of this version begins so.
fn class_word(version: u32, word: &[u8]) -> Option<bool>
    ensures { result ≡ class_mark version word.now }
{
    if word == b"class".as_slice() {
        Some(false)
    } else if word == b"immortal".as_slice() && version == 2 {
        Some(true)
    } else {
        None
    }
}

fn line_ahead<'a>(alloc: Global, version: u32, line: &'a [u8]) -> Result<Ahead<'a>, AllocError>
    ensures { IfOk result (λ a. (later : List Grouped) → line_group version (words_of line.now) later ≡ names_with a later) }
{
    let words = words_of(alloc, line)?;
    match words.as_slice() {
        [] => Ok(Ahead::Nothing),
        [first, rest @ ..] => {
            if is_comment(first) {
                return Ok(Ahead::Nothing);
            }
            let Some(immortal) = class_word(version, first) else {
                return Ok(Ahead::End);
            };
            match rest {
                [name, ..] => Ok(Ahead::Name(GroupName { name, immortal })),
                [] => Ok(Ahead::Nothing),
            }
        }
    }
}

fn run_of<'a>(
    alloc: Global,
    version: u32,
    immortal: bool,
    words: &[&'a [u8]],
    rest: &'a [u8],
) -> Result<Vec<GroupName<'a>>, AllocError>
    ensures { IfOk result (λ v. map seen v.items ≡ named immortal (map (λ w. w.now) words.now) (run_group version (lines_of rest.now))) }
{
    let mut names = Vec::new(alloc);
    if let [name, ..] = words {
        names.push(GroupName { name, immortal })?;
    }
    for line in Lines::new(rest) {
        match line_ahead(alloc, version, line)? {
            Ahead::Nothing => {}
            Ahead::Name(name) => names.push(name)?,
            Ahead::End => return Ok(names),
        }
    }
    Ok(names)
}

fn set_of<'a>(alloc: Global, names: &[GroupName<'a>]) -> Result<HashSet<&'a [u8]>, AllocError>
    ensures { IfOk result (λ set. (q : List ℕ) → holds set q ≡ is_among (group_names (map seen names.now)) q) }
{
    let mut set = HashSet::new(alloc);
    for name in names {
        add_name(&mut set, name.name)?;
    }
    Ok(set)
}

/// What an unbroken run of class lines names. Seen as the list of it.
#[derive(Drop)]
pub struct Group<'a> {
    names: Vec<GroupName<'a>>,
}

impl<'a> Model for Group<'a> {
    ghost use Rattle.std.specs.Prelude.{List, map};
    ghost use Rattle.arc_script.specs.Said.{Grouped};
    ghost use Rattle.arc_script_reader.specs.Ahead.{seen};

    ghost Value = { List Grouped };

    ghost view = { λ g. map seen g.names.items };
}

impl<'a> Group<'a> {
    /// The group of no class line.
    pub fn new(alloc: Global) -> Group<'a>
        ensures { result ≡ [] }
    {
        Group {
            names: Vec::new(alloc),
        }
    }

    /// Takes the names of the run that begins with a class line: whether it is that of an immortal class, the words behind its first
    /// one, and the text behind the line.
    pub fn begin(
        &mut self,
        alloc: Global,
        version: u32,
        immortal: bool,
        words: &[&'a [u8]],
        rest: &'a [u8],
    ) -> Result<(), AllocError>
        ensures names { OnOk result (self.new ≡ named immortal (map (λ w. w.now) words.now) (run_group version (lines_of rest.now))) }
        ensures few { OnOk result (length self.new ≤ length (lines_of rest.now) + 1) }
        ensures err { OnErr result (self.new ≡ self.old) }
    {
        self.names = run_of(alloc, version, immortal, words, rest)?;
        Ok(())
    }

    /// The place of a name.
    pub fn place(&self, name: &[u8]) -> Option<u32>
        requires { length self.now < 2 ^ 32 }
        ensures { result ≡ place_of (group_names self.now) name.now }
    {
        match self.names.iter().position(|n| n.name == name) {
            Some(place) => Some(place as u32),
            None => None,
        }
    }

    /// The names as a set.
    pub fn name_set(&self, alloc: Global) -> Result<HashSet<&'a [u8]>, AllocError>
        ensures { IfOk result (λ set. (q : List ℕ) → holds set q ≡ is_among (group_names self.now) q) }
    {
        set_of(alloc, &self.names)
    }

    /// Whether the class at this place, from 0, is immortal.
    pub fn is_immortal(&self, place: u32) -> bool
        ensures { result ≡ slice_index_or (group_immortals self.now) place false }
    {
        match self.names.get(place as usize) {
            Some(name) => name.immortal,
            None => false,
        }
    }
}
