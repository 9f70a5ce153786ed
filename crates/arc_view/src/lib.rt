//! What each thread knows of a shared heap, and the rule that holds between any two atomic steps.
//!
//! A view is what a pass knows: what it has seen, what it did, what is under way. The rule is a fact of a list of words and a list of
//! views, and says that one history has all of these. `Admits` says which step a view may make, and the laws that such a step keeps the
//! rule and that the history then has its event, or none, and nothing else; each kind of step has a file of its own.
//!
//! No function does anything. It knows neither threads that run nor plans, and promises nothing of progress: a step that isn't made has
//! no law.
#![tactic(auto)]

ghost use Rattle.arc_view.specs.Rule.{IsKept};
ghost use Rattle.arc_view.specs.Views.{first_view};

use arc_model::Shape;
use atomic_table::TableRule;

pub mod view;

use crate::view::View;

/// The rule of a shared heap. The table's key is the heap's shape.
pub struct Law;

impl<S> TableRule<S, View, Shape> for Law {
    ghost holds = { IsKept };

    ghost first = { λ _. first_view };
}
