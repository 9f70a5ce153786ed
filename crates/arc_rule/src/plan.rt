//! What a plan comes to when it is asked: a step, or its answer.
ghost use Rattle.std.specs.Prelude.{◌≡◌};
ghost use Rattle.arc_rule.specs.Plans.{WaitsFor, FewerLeft, RestsOn, HoldsChange};

use crate::step::Step;

/// What a plan asks for, or answers at its end.
#[derive(Clone, Copy, Debug, PartialEq, Eq)]
pub enum Next<A> {
    Step(Step),
    Done(A),
}

/// A machine that asks for steps and comes to an answer. It has no effect of its own.
pub trait Plan: Drop {
    type Answer;

    ghost use Rattle.std.specs.Prelude.{ℕ};
    ghost use Rattle.std.specs.declared.option.Option.{Option};
    ghost use Rattle.arc_rule.specs.declared.step.Step.{Step};
    ghost use Rattle.arc_rule.specs.declared.step.Changed.{Changed};
    ghost use Rattle.arc_rule.specs.declared.plan.Next.{Next};
    ghost use Rattle.arc_rule.specs.Plans.{Reading};

    /// What `next` may be given: nothing at first, and then what the step before gave back, where it meets the plan's condition.
    ghost takes: { Self → Option ℕ → Type 0 };

    /// The plan after what it is given.
    ghost turned: { Self → Option ℕ → Self };

    /// What it asks for or answers then.
    ghost answer: { Self → Option ℕ → Next Self.Answer };

    /// The step that it has asked for, and waits for.
    ghost asked: { Self → Option Step };

    /// How many steps at most it may still ask for.
    ghost left: { Self → ℕ };

    /// The word that it rests on, where it has read one.
    ghost rests: { Self → Option Reading };

    /// The two words, where the answer says that a word has changed.
    ghost changed: { Self.Answer → Option Changed };

    /// The next step, or the answer. It is called with None first and then with what the step before gave back, and not after Done.
    fn next(&mut self, last: Option<u64>) -> Next<Self::Answer>
        requires { takes self.old last }
        ensures turned { self.new ≡ turned self.old last }
        ensures answer { result ≡ answer self.old last }
        ensures waits { WaitsFor result (asked self.new) }
        ensures fewer { FewerLeft result (left self.old) (left self.new) }
        ensures rests { RestsOn (asked self.old) last (rests self.old) (rests self.new) }
        ensures change { HoldsChange changed (asked self.old) last (rests self.old) result };
}
