//! The words of a heap as a plain vector.

ghost use Rattle.std.specs.Prelude.{◌≡◌, ◌<◌, None, length, replicate, IfOk};
ghost use Rattle.arc_rule.specs.Places.{extent_of, word_count};
ghost use Rattle.arc_rule.specs.Steps.{place_of, found_by, made_by};
ghost use Rattle.arc_rule.specs.Plans.{RunsOn, RunsTo};

use arc_model::{Memory, Shape};
use arc_rule::{Layout, Next, Plan, Step};
use std::alloc::Global;
use std::marker::Model;

/// The words of a heap in a plain vector, for one caller.
#[derive(Debug, Drop)]
pub struct PlainWords {
    words: Vec<u64>,
}

impl Model for PlainWords {
    ghost use Rattle.std.specs.Prelude.{ℕ, List};

    ghost Value = { List ℕ };

    ghost view = { λ w. w.words.items };
}

impl PlainWords {
    /// The words of a heap of this shape, all 0.
    pub fn make(alloc: Global, shape: &Shape) -> Result<PlainWords, Memory>
        ensures { IfOk result (λ w. w ≡ replicate (word_count (extent_of shape.now)) 0) }
    {
        let layout = Layout::of(shape);
        let words = vec![in alloc; 0; layout.words() as usize]?;
        Ok(PlainWords { words })
    }

    /// Makes one step, and gives back the word that it finds, and 0 for a store. An exchange writes where it finds the old word.
    /// Takes no memory.
    pub fn step(&mut self, step: Step) -> u64
        requires { place_of step < length self.old }
        ensures found { result ≡ found_by step self.old }
        ensures made { self.new ≡ made_by step self.old }
    {
        match step {
            Step::Load { place } => self.words[place as usize],
            Step::Exchange { place, old, new } => {
                let word = self.words[place as usize];
                if word == old {
                    self.words[place as usize] = new;
                }
                word
            }
            Step::Store { place, new } => {
                self.words[place as usize] = new;
                0
            }
            Step::Or { place, bits } => {
                let word = self.words[place as usize];
                self.words[place as usize] = word | bits;
                word
            }
            Step::And { place, bits } => {
                let word = self.words[place as usize];
                self.words[place as usize] = word & bits;
                word
            }
        }
    }

    /// Makes the steps of a plan that fits the words, to its answer. It is never that a word has changed, since nobody else changes
    /// the words. Takes no memory.
    pub fn run<P: Plan + Drop>(&mut self, plan: P) -> P::Answer
        requires { RunsOn P.takes P.turned P.answer plan None self.old }
        ensures comes_to { RunsTo P.turned P.answer plan None self.old result self.new }
        ensures never_again { P.changed result ≡ None }
    {
        let mut plan = plan;
        let mut last = None;
        loop {
            match plan.next(last) {
                Next::Step(step) => last = Some(self.step(step)),
                Next::Done(answer) => return answer,
            }
        }
    }

    /// The words, by their places.
    pub fn words(&self) -> &[u64]
        ensures { result.now ≡ self.now }
    {
        self.words.as_slice()
    }
}
