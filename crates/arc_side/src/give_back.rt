//! An entry is given back.

ghost use Rattle.std.specs.Prelude.{◌≡◌};
ghost use Rattle.arc_rule.specs.Places.{IsPlace};
ghost use Rattle.arc_rule.specs.declared.layout.Place.TheVariants.{Link};
ghost use Rattle.arc_plan.specs.declared.slots.Once.TheVariants.{Start};
ghost use Rattle.arc_plan.specs.Slots.{no_reading, no_change};
ghost use Rattle.arc_side.specs.Returns.{give_back_takes, give_back_turned, give_back_answer, give_back_asked, give_back_left};

use arc_plan::Once;
use arc_plan::free::bit;
use arc_rule::{Layout, Next, Plan, Step};
use std::alloc::AllocError;
use std::marker::Model;

/// An entry is given back: its bit is cleared. This project's own.
#[derive(Debug)]
pub struct GiveBack {
    layout: Layout,
    entry: u32,
    at: Once,
}

impl Model for GiveBack {
    ghost use Rattle.arc_side.specs.Returns.{Return};
    ghost use Rattle.arc_rule.specs.Places.{IsPlace};
    ghost use Rattle.arc_rule.specs.declared.layout.Place.TheVariants.{Link};

    ghost Value = { Return };

    ghost view = { λ p. record { layout = p.layout; entry = p.entry; at = p.at } };

    ghost invariant = { λ p. IsPlace p.layout (Link p.entry) };

    ghost inverse = { λ p. record { layout = p.layout; entry = p.entry; at = p.at } };
}

impl Clone for GiveBack {
    ghost is_clone = { λ old new. new ≡ old };

    fn clone(&self) -> Result<Self, AllocError> {
        Ok(*self)
    }
}

impl Copy for GiveBack {}

impl GiveBack {
    /// The entry, which was claimed and is no object's, is to be free.
    pub fn start(layout: &Layout, entry: u32) -> GiveBack
        requires { IsPlace layout.now (Link entry) }
        ensures { result ≡ record { layout = layout.now; entry = entry; at = Start } }
    {
        GiveBack {
            layout: *layout,
            entry,
            at: Once::Start,
        }
    }
}

impl Plan for GiveBack {
    type Answer = ();

    ghost takes = { give_back_takes };

    ghost turned = { give_back_turned };

    ghost answer = { give_back_answer };

    ghost asked = { give_back_asked };

    ghost left = { give_back_left };

    ghost rests = { no_reading };

    ghost changed = { no_change };

    fn next(&mut self, _last: Option<u64>) -> Next<()> {
        self.at.ask(Step::And {
            place: self.layout.entry_bits(self.entry),
            bits: !bit(self.entry),
        })
    }
}
