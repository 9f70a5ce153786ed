//! An attempt on one word after another: where it is, what sets one apart from another, and the plan that each is.
ghost use Rattle.std.specs.Prelude.{◌≡◌, Some, None};
ghost use Rattle.std.specs.Option.{unwrap_or};
ghost use Rattle.arc_rule.specs.Plans.{WaitsFor, FewerLeft, RestsOn, HoldsChange};
ghost use Rattle.arc_rule.specs.declared.attempt.At.TheVariants.{Loading};
ghost use Rattle.arc_rule.specs.Attempts.{takes_at, turned_at, turned_by, answer_at, answer_by, asked_at, leaves_at, rests_at, TellsNoChange, ChoiceLeavesFewer, OnwardLeavesFewer};

use crate::plan::{Next, Plan};
use crate::step::{Changed, Step};

/// Where an attempt on one word is. It loads the word, and where the word allows it exchanges it once.
#[derive(Clone, Copy, Debug, PartialEq, Eq)]
pub enum At {
    Start,
    /// It waits for the word.
    Loading,
    /// It asked to exchange the word `seen` for `new`, and waits for the word that was found.
    Exchanging { seen: u64, new: u64 },
    Ended,
}

/// What an attempt does with the word that it loaded.
#[derive(Clone, Copy, Debug, PartialEq, Eq)]
pub enum Choice<A> {
    /// It answers at once.
    Tell(A),
    /// It exchanges the word for this one.
    Write(u64),
}

/// What sets one attempt apart from another: the place of its word, what it does with the word, and what it answers. Each such type is a `Plan`.
pub trait Row: Drop {
    type Answer;

    ghost use Rattle.std.specs.Prelude.{ℕ};
    ghost use Rattle.std.specs.declared.option.Option.{Option};
    ghost use Rattle.arc_rule.specs.declared.step.Changed.{Changed};
    ghost use Rattle.arc_rule.specs.declared.attempt.Choice.{Choice};
    ghost use Rattle.arc_rule.specs.declared.attempt.At.{At};

    /// Where it is.
    ghost at: { Self → At };

    /// The same attempt, there.
    ghost moved: { Self → At → Self };

    /// The place of the word.
    ghost place: { Self → ℕ };

    /// Which words its load may give.
    ghost fits: { Self → ℕ → Type 0 };

    /// What it does with the word that the load gave.
    ghost choice: { Self → ℕ → Choice Self.Answer };

    /// Its answer where the exchange found the word that the load gave.
    ghost after: { Self → ℕ → Self.Answer };

    /// Its answer where the exchange found another word.
    ghost again: { Changed → Self.Answer };

    /// The attempt on another word that it goes on to in place of a choice or an answer, after what it is given.
    ghost onward: { Self → Option ℕ → Option Self };

    /// How many steps at most it asks for after its load.
    ghost load_leaves: { Self → ℕ };

    /// How many steps at most it asks for after its exchange.
    ghost exchange_leaves: { Self → ℕ };

    /// The two words, where the answer says that the word has changed.
    ghost changes: { Self.Answer → Option Changed };

    fn at(&self) -> At
        ensures { result ≡ at self.now };

    fn move_to(&mut self, to: At)
        ensures moved { self.new ≡ moved self.old to }
        ensures at { at self.new ≡ to }
        ensures place { place self.new ≡ place self.old }
        ensures after_load { load_leaves self.new ≡ load_leaves self.old }
        ensures after_exchange { exchange_leaves self.new ≡ exchange_leaves self.old };

    fn place(&self) -> u32
        ensures { result ≡ place self.now };

    fn choice(&self, word: u64) -> Choice<Self::Answer>
        requires at { at self.now ≡ Loading }
        requires fits { fits self.now word }
        requires here { onward self.now (Some word) ≡ None }
        ensures choice { result ≡ choice self.now word }
        ensures silent { TellsNoChange changes result }
        ensures fewer { ChoiceLeavesFewer (load_leaves self.now) (exchange_leaves self.now) result };

    fn after(&self, seen: u64) -> Self::Answer
        ensures after { result ≡ after self.now seen }
        ensures silent { changes result ≡ None };

    fn again(words: Changed) -> Self::Answer
        ensures again { result ≡ again words }
        ensures tells { changes result ≡ Some words };

    fn onward(&self, last: Option<u64>) -> Option<Self>
        requires takes { takes_at (fits self.now) (at self.now) last }
        ensures onward { result ≡ onward self.now last }
        ensures fewer { OnwardLeavesFewer load_leaves (leaves_at (load_leaves self.now) (exchange_leaves self.now) (at self.now)) result };
}

impl<T: Row> Plan for T {
    type Answer = T::Answer;

    ghost takes = { λ p last. takes_at (T.fits p) (T.at p) last };

    ghost turned = { λ p last. turned_by T.moved p (T.onward p last) (turned_at (T.choice p) (T.at p) (unwrap_or last 0)) };

    ghost answer = { λ p last. answer_by T.place (T.onward p last) (answer_at (T.choice p) (T.after p) T.again (T.place p) (T.at p) (unwrap_or last 0)) };

    ghost asked = { λ p. asked_at (T.place p) (T.at p) };

    ghost left = { λ p. leaves_at (T.load_leaves p) (T.exchange_leaves p) (T.at p) };

    ghost rests = { λ p. rests_at (T.place p) (T.at p) };

    ghost changed = { T.changes };

    #[inline(always)]
    fn next(&mut self, last: Option<u64>) -> Next<T::Answer> {
        if let Some(next) = self.onward(last) {
            let place = next.place();
            *self = next;
            self.move_to(At::Loading);
            return Next::Step(Step::Load { place });
        }
        let place = self.place();
        let word = last.unwrap_or(0);
        match self.at() {
            At::Start => {
                self.move_to(At::Loading);
                Next::Step(Step::Load { place })
            }
            At::Loading => match self.choice(word) {
                Choice::Tell(answer) => {
                    self.move_to(At::Ended);
                    Next::Done(answer)
                }
                Choice::Write(new) => {
                    self.move_to(At::Exchanging { seen: word, new });
                    Next::Step(Step::Exchange {
                        place,
                        old: word,
                        new,
                    })
                }
            },
            At::Exchanging { seen, new: _ } => {
                let answer = if word == seen {
                    self.after(seen)
                } else {
                    T::again(Changed { seen, found: word })
                };
                self.move_to(At::Ended);
                Next::Done(answer)
            }
            At::Ended => unreachable!(),
        }
    }
}
