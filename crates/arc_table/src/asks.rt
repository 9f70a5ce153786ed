//! What a step is made for, which proofs alone see.
ghost use Rattle.arc_rule.specs.declared.step.Step.TheVariants.{Load, Exchange, Store, Or, And};
ghost use Rattle.arc_rule.specs.declared.step.Intent.TheVariants.{Look};
ghost use Rattle.arc_view.specs.Steps.{Tells};

use arc_view::view::View;
use atomic_table::Play;
use std::marker::{Brand, PhantomData};

/// The intent of a step and the shape of the heap. Each call picks these.
pub trait Asks {
    ghost use Rattle.arc_model.specs.Shapes.{HeapShape};
    ghost use Rattle.arc_rule.specs.declared.step.Intent.{Intent};

    ghost intent: { Intent };

    ghost shape: { HeapShape };
}

impl Asks for Brand {
    ghost intent = { Look };

    ghost shape = { record { slots = 0; entries = 0; caps = record { strong = 0; unowned = 0; wide = 0 }; classes = []; globals = [] } };

    ghost use Rattle.std.specs.Prelude.{[]};
}

pub struct Loading<J: Asks> {
    of: PhantomData<J>,
}

impl<S, J: Asks> Play<S, View> for Loading<J> {
    ghost then = { λ s me found after. Tells J.shape J.intent (Load s.word) me found after };
}

pub struct Exchanging<J: Asks> {
    of: PhantomData<J>,
}

impl<S, J: Asks> Play<S, View> for Exchanging<J> {
    ghost then = { λ s me found after. Tells J.shape J.intent (Exchange s.word s.first s.second) me found after };
}

pub struct Storing<J: Asks> {
    of: PhantomData<J>,
}

impl<S, J: Asks> Play<S, View> for Storing<J> {
    ghost then = { λ s me found after. Tells J.shape J.intent (Store s.word s.first) me found after };
}

/// An Or sets bits.
pub struct Setting<J: Asks> {
    of: PhantomData<J>,
}

impl<S, J: Asks> Play<S, View> for Setting<J> {
    ghost then = { λ s me found after. Tells J.shape J.intent (Or s.word s.first) me found after };
}

/// An And clears bits.
pub struct Clearing<J: Asks> {
    of: PhantomData<J>,
}

impl<S, J: Asks> Play<S, View> for Clearing<J> {
    ghost then = { λ s me found after. Tells J.shape J.intent (And s.word s.first) me found after };
}
