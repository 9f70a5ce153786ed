//! The exchange of a cell's word.

ghost use Rattle.std.specs.Prelude.{◌≡◌, ⊤};
ghost use Rattle.arc_rule.specs.declared.attempt.At.TheVariants.{Start};
ghost use Rattle.arc_rule.specs.Attempts.{goes_nowhere};
ghost use Rattle.arc_cells.specs.declared.swap.SwapAnswer.TheVariants.{Took, Again};
ghost use Rattle.arc_cells.specs.Swaps.{IsInTable, swap_row, swap_change};

use arc_rule::{At, Changed, Choice, Layout, Row};
use std::alloc::AllocError;
use std::marker::Model;

/// What an attempt to exchange the word of a cell comes to.
#[derive(Clone, Copy, Debug, PartialEq, Eq)]
pub enum SwapAnswer {
    /// The new word stands in the cell, and this one stood there before.
    Took(u64),
    /// An access to the cell is under way: its word was 1.
    Busy,
    /// The word has changed in the meantime.
    Again(Changed),
}

/// The word of a cell is exchanged for another: one load and one exchange. A plain step machine, this project's own.
#[derive(Debug)]
pub struct Swap {
    layout: Layout,
    place: u32,
    new: u64,
    at: At,
}

impl Model for Swap {
    ghost use Rattle.arc_cells.specs.Swaps.{SwapAttempt, IsInTable};

    ghost Value = { SwapAttempt };

    ghost view = { λ p. record { layout = p.layout; place = p.place; new = p.new; at = p.at } };

    ghost invariant = { λ p. IsInTable p.layout p.place };

    ghost inverse = { λ p. record { layout = p.layout; place = p.place; new = p.new; at = p.at } };
}

impl Clone for Swap {
    ghost is_clone = { λ old new. new ≡ old };

    fn clone(&self) -> Result<Self, AllocError> {
        Ok(*self)
    }
}

impl Copy for Swap {}

impl Swap {
    /// The word at this place of the table, that of a cell, is to become `new`.
    pub fn start(layout: &Layout, place: u32, new: u64) -> Swap
        requires { IsInTable layout.now place }
        ensures { result ≡ record { layout = layout.now; place = place; new = new; at = Start } }
    {
        Swap {
            layout: *layout,
            place,
            new,
            at: At::Start,
        }
    }
}

impl Row for Swap {
    type Answer = SwapAnswer;

    ghost at = { λ p. p.at };

    ghost moved = { λ p at. record p { at = at } };

    ghost place = { λ p. p.place };

    ghost fits = { λ p w. ⊤ };

    ghost choice = { λ p w. swap_row p.new w };

    ghost after = { λ p seen. Took seen };

    ghost again = { Again };

    ghost onward = { goes_nowhere };

    ghost load_leaves = { λ p. 1 };

    ghost exchange_leaves = { λ p. 0 };

    ghost changes = { swap_change };

    fn at(&self) -> At {
        self.at
    }

    fn move_to(&mut self, to: At) {
        self.at = to;
    }

    fn place(&self) -> u32 {
        self.place
    }

    fn choice(&self, word: u64) -> Choice<SwapAnswer> {
        if word == 1 {
            Choice::Tell(SwapAnswer::Busy)
        } else {
            Choice::Write(self.new)
        }
    }

    fn after(&self, seen: u64) -> SwapAnswer {
        SwapAnswer::Took(seen)
    }

    fn again(words: Changed) -> SwapAnswer {
        SwapAnswer::Again(words)
    }

    fn onward(&self, _last: Option<u64>) -> Option<Swap> {
        None
    }
}
