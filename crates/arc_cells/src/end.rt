//! The end of an access to a cell.

ghost use Rattle.std.specs.Prelude.{◌≡◌};
ghost use Rattle.arc_plan.specs.declared.slots.Once.TheVariants.{Start};
ghost use Rattle.arc_plan.specs.Slots.{no_reading, no_change};
ghost use Rattle.arc_cells.specs.Swaps.{IsInTable};
ghost use Rattle.arc_cells.specs.Ends.{end_takes, end_turned, end_answer, end_asked, end_left};

use arc_plan::Once;
use arc_rule::{Layout, Next, Plan, Step};
use std::alloc::AllocError;
use std::marker::Model;

/// An access to a cell ends: the word that the cell had before goes back, by one store. This project's own.
#[derive(Debug)]
pub struct End {
    layout: Layout,
    place: u32,
    value: u64,
    at: Once,
}

impl Model for End {
    ghost use Rattle.arc_cells.specs.Ends.{AccessEnd};
    ghost use Rattle.arc_cells.specs.Swaps.{IsInTable};

    ghost Value = { AccessEnd };

    ghost view = { λ p. record { layout = p.layout; place = p.place; value = p.value; at = p.at } };

    ghost invariant = { λ p. IsInTable p.layout p.place };

    ghost inverse = { λ p. record { layout = p.layout; place = p.place; value = p.value; at = p.at } };
}

impl Clone for End {
    ghost is_clone = { λ old new. new ≡ old };

    fn clone(&self) -> Result<Self, AllocError> {
        Ok(*self)
    }
}

impl Copy for End {}

impl End {
    /// The word at this place of the table, that of the cell, is to become `value`, which it was before the access.
    pub fn start(layout: &Layout, place: u32, value: u64) -> End
        requires { IsInTable layout.now place }
        ensures { result ≡ record { layout = layout.now; place = place; value = value; at = Start } }
    {
        End {
            layout: *layout,
            place,
            value,
            at: Once::Start,
        }
    }
}

impl Plan for End {
    type Answer = ();

    ghost takes = { end_takes };

    ghost turned = { end_turned };

    ghost answer = { end_answer };

    ghost asked = { end_asked };

    ghost left = { end_left };

    ghost rests = { no_reading };

    ghost changed = { no_change };

    fn next(&mut self, _last: Option<u64>) -> Next<()> {
        self.at.ask(Step::Store {
            place: self.place,
            new: self.value,
        })
    }
}
