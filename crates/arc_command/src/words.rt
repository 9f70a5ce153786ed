//! The words of the command line, as far as a command can need them.

ghost use Rattle.std.specs.Prelude.{◌≡◌, ℕ, List, Option, None, drop, length, IfSome};
ghost use Rattle.arc_command.specs.Commands.{command_of};
ghost use Rattle.arc_command.specs.Lines.{Finds, word_read};

use crate::command::{Arg, LONGEST};
use arrayvec::ArrayVec;
use std::env::FillError;
use std::rt::Env;

/// How many words are read, one more than a command has.
const MOST: usize = 4;

/// The words that were read of a command line.
pub type Words = ArrayVec<Arg, MOST>;

/// What is found in the place of a word.
#[derive(Clone, Copy, Debug, PartialEq, Eq)]
pub enum Found {
    /// A word of so many bytes, which stand at the start of the buffer.
    Word(usize),
    /// A word that is longer than the buffer.
    TooLong,
    /// No word.
    Absent,
}

/// Where the words of a command line come from.
pub trait Line {
    /// The words, with the program's name first, where the line tells them.
    ghost words: { Self → Option (List (List ℕ)) };

    /// Copies word `i` to the start of `into`. Word 0 is the program's name.
    fn word(&self, i: usize, into: &mut [u8]) -> Found
        ensures same { length into.new ≡ length into.old }
        ensures found { Finds (words self.now) i result into.new };
}

/// The command line of the process.
#[derive(Drop)]
pub struct HostLine<'a, E> {
    host: &'a E,
}

impl<'a, E: Env> HostLine<'a, E> {
    pub fn new(host: &'a E) -> HostLine<'a, E> {
        HostLine { host }
    }
}

impl<E: Env> Line for HostLine<'_, E> {
    ghost words = { λ _. None };

    fn word(&self, i: usize, into: &mut [u8]) -> Found {
        match self.host.arg(i, into) {
            Ok(length) => Found::Word(length),
            Err(FillError::TooLong) => Found::TooLong,
            Err(FillError::NotPresent) => Found::Absent,
        }
    }
}

/// Word `i` of the line. One that is longer than any word of a command is handed on as an empty one.
fn word_of<L: Line>(line: &L, i: usize) -> Option<Arg>
    ensures { IfSome (L.words line.now) (λ words. result ≡ word_read words i) }
{
    let mut bytes = [0; LONGEST];
    match line.word(i, &mut bytes) {
        Found::Word(length) => Some(Arg::of(&bytes[..length])),
        Found::TooLong => Some(Arg::empty()),
        Found::Absent => None,
    }
}

/// The words of the line behind the program's name, as far as a command needs them.
pub fn words_of<L: Line>(line: &L) -> Words
    // They ask for what the words of the line ask for, of which none is left out.
    ensures { IfSome (L.words line.now) (λ words. command_of result.items ≡ command_of (drop 1 words)) }
{
    let mut words = Words::new();
    for i in 0..MOST {
        match word_of(line, i + 1) {
            Some(word) => words.push(word),
            None => break,
        }
    }
    words
}
