//! The beginning of an access to a cell.

ghost use Rattle.std.specs.Prelude.{◌≡◌, ⊤};
ghost use Rattle.arc_rule.specs.declared.attempt.At.TheVariants.{Start};
ghost use Rattle.arc_rule.specs.Attempts.{goes_nowhere};
ghost use Rattle.arc_cells.specs.declared.begin.BeginAnswer.TheVariants.{Held, Again};
ghost use Rattle.arc_cells.specs.Begins.{begin_row, begin_change};
ghost use Rattle.arc_cells.specs.Swaps.{IsInTable};

use arc_rule::{At, Changed, Choice, Layout, Row};
use std::alloc::AllocError;
use std::marker::Model;

/// What an attempt to begin an access to a cell comes to.
#[derive(Clone, Copy, Debug, PartialEq, Eq)]
pub enum BeginAnswer {
    /// The access is under way, and this is the cell's word: 2 plus the place of its reference.
    Held(u64),
    /// The cell is nil: its word was 0.
    Nil,
    /// Another access to the cell is under way: its word was 1.
    Busy,
    /// The word has changed in the meantime.
    Again(Changed),
}

/// An access to a cell begins, unless the cell is nil or accessed: one load and one exchange for 1. The Swift Programming Language asks for
/// exclusive access to memory; that the word 1 stands for it is this project's own.
#[derive(Debug)]
pub struct Begin {
    layout: Layout,
    place: u32,
    at: At,
}

impl Model for Begin {
    ghost use Rattle.arc_cells.specs.Begins.{Beginning};
    ghost use Rattle.arc_cells.specs.Swaps.{IsInTable};

    ghost Value = { Beginning };

    ghost view = { λ p. record { layout = p.layout; place = p.place; at = p.at } };

    ghost invariant = { λ p. IsInTable p.layout p.place };

    ghost inverse = { λ p. record { layout = p.layout; place = p.place; at = p.at } };
}

impl Clone for Begin {
    ghost is_clone = { λ old new. new ≡ old };

    fn clone(&self) -> Result<Self, AllocError> {
        Ok(*self)
    }
}

impl Copy for Begin {}

impl Begin {
    /// An access to the cell whose word is at this place of the table.
    pub fn start(layout: &Layout, place: u32) -> Begin
        requires { IsInTable layout.now place }
        ensures { result ≡ record { layout = layout.now; place = place; at = Start } }
    {
        Begin {
            layout: *layout,
            place,
            at: At::Start,
        }
    }
}

impl Row for Begin {
    type Answer = BeginAnswer;

    ghost at = { λ p. p.at };

    ghost moved = { λ p at. record p { at = at } };

    ghost place = { λ p. p.place };

    ghost fits = { λ p w. ⊤ };

    ghost choice = { λ p w. begin_row w };

    ghost after = { λ p seen. Held seen };

    ghost again = { Again };

    ghost onward = { goes_nowhere };

    ghost load_leaves = { λ p. 1 };

    ghost exchange_leaves = { λ p. 0 };

    ghost changes = { begin_change };

    fn at(&self) -> At {
        self.at
    }

    fn move_to(&mut self, to: At) {
        self.at = to;
    }

    fn place(&self) -> u32 {
        self.place
    }

    fn choice(&self, word: u64) -> Choice<BeginAnswer> {
        match word {
            0 => Choice::Tell(BeginAnswer::Nil),
            1 => Choice::Tell(BeginAnswer::Busy),
            _ => Choice::Write(1),
        }
    }

    fn after(&self, seen: u64) -> BeginAnswer {
        BeginAnswer::Held(seen)
    }

    fn again(words: Changed) -> BeginAnswer {
        BeginAnswer::Again(words)
    }

    fn onward(&self, _last: Option<u64>) -> Option<Begin> {
        None
    }
}
