//! What the words of the command line ask for.

ghost use Rattle.std.specs.Prelude.{◌≡◌, [], IfSome};
ghost use Rattle.arc_command.specs.Commands.{command_of, one_word, script_asked, CountFits};
ghost use Rattle.arc_command.specs.Lines.{as_read};

use crate::number::long_number;
use arc_text::number_in;
use arrayvec::ArrayVec;
use std::marker::Model;

/// The most bytes that a word of a command has, those of 2^64 - 1.
pub(crate) const LONGEST: usize = 20;

/// A word of the command line as it is read: one that is longer than any word of a command is empty. Seen as its bytes.
#[derive(Debug, Default, Drop)]
pub struct Arg {
    bytes: ArrayVec<u8, LONGEST>,
}

impl Model for Arg {
    ghost use Rattle.std.specs.Prelude.{ℕ, List};

    ghost Value = { List ℕ };

    ghost view = { λ a. a.bytes.items };
}

impl Arg {
    /// An empty word.
    pub fn empty() -> Arg
        ensures { result ≡ [] }
    {
        Arg {
            bytes: ArrayVec::new(),
        }
    }

    /// The word of these bytes, or an empty one where they are more than a word of a command has.
    pub fn of(bytes: &[u8]) -> Arg
        ensures { result ≡ as_read bytes.now }
    {
        let mut read = ArrayVec::new();
        match read.try_extend_from_slice(bytes) {
            Ok(()) => Arg { bytes: read },
            Err(_) => Arg::empty(),
        }
    }

    /// The word's bytes.
    pub fn bytes(&self) -> &[u8]
        ensures { result.now ≡ self.now }
    {
        &self.bytes
    }
}

/// What the words of the command line ask for.
#[derive(Clone, Copy, Debug, PartialEq, Eq)]
pub enum Command {
    /// Reads a script and writes the report and the history of its replay.
    Replay,
    /// Reads a history, alone or behind a report, and says whether its events are legal.
    Check,
    /// Writes the generated script of `count` operations, 1 to 100,000, that these numbers give.
    Script { count: u32, start: u64 },
}

fn script_asked(count: &[u8], start: &[u8]) -> Option<Command>
    ensures command { result ≡ script_asked count.now start.now }
    ensures fits { IfSome result CountFits }
{
    match number_in(count, 1, 100_000) {
        Some(count) => match long_number(start) {
            Some(start) => Some(Command::Script { count, start }),
            None => None,
        },
        None => None,
    }
}

fn one_word(name: &[u8]) -> Option<Command>
    ensures command { result ≡ one_word name.now }
    ensures fits { IfSome result CountFits }
{
    if name == b"replay".as_slice() {
        Some(Command::Replay)
    } else if name == b"check".as_slice() {
        Some(Command::Check)
    } else {
        None
    }
}

/// The command of these words, or None exactly where they are no row of the table of words.
pub fn command_of(words: &[Arg]) -> Option<Command>
    ensures command { result ≡ command_of words.now }
    ensures fits { IfSome result CountFits }
{
    match words {
        [name] => one_word(name.bytes()),
        [name, count, start] => {
            if name.bytes() == b"script".as_slice() {
                script_asked(count.bytes(), start.bytes())
            } else {
                None
            }
        }
        _ => None,
    }
}
