//! An entry is taken for the object in a slot.

ghost use Rattle.std.specs.Prelude.{◌≡◌, ◌<◌, Some};
ghost use Rattle.arc_rule.specs.Bits.{words_of};
ghost use Rattle.arc_rule.specs.Places.{IsPlace, number};
ghost use Rattle.arc_rule.specs.Plans.{WaitsFor, FewerLeft, RestsOn, HoldsChange};
ghost use Rattle.arc_rule.specs.declared.layout.Place.TheVariants.{Count, EntryBits};
ghost use Rattle.arc_side.specs.declared.claim.Claiming.TheVariants.{Start, Looking};
ghost use Rattle.arc_side.specs.Claims.{claim_takes, claim_turned, claim_answer, claim_asked, claim_left, claim_rests, claim_change};

use arc_plan::free::{bit, free_thing};
use arc_rule::{Changed, Layout, Next, Plan, Step};
use std::alloc::AllocError;
use std::marker::Model;

/// What the taking of an entry comes to.
#[derive(Clone, Copy, Debug, PartialEq, Eq)]
pub enum ClaimAnswer {
    /// The entry with this number is taken, and its link is stored.
    Entry(u32),
    /// Each entry was found taken.
    NoEntry,
    /// The entry was taken in the meantime: its bit was clear in the one word, and set in the other.
    Again(Changed),
}

/// Where the taking of an entry is.
#[derive(Clone, Copy, Debug, PartialEq, Eq)]
pub enum Claiming {
    Start,
    /// It waits for a word of the entries' bits.
    Looking { word: u32 },
    /// It sets the entry's bit, which was clear in the word `seen`, and waits for the word that was found.
    Taking { entry: u32, seen: u64 },
    /// It has the entry, and stores its link.
    Linking { entry: u32 },
    Ended,
}

/// The first entry that is free is taken: the words of the entries' bits are loaded in turn until one has a clear bit, that bit is set,
/// and then the link is stored, one more than the slot. This project's own.
#[derive(Debug)]
pub struct Claim {
    layout: Layout,
    slot: u32,
    at: Claiming,
}

impl Model for Claim {
    ghost use Rattle.arc_side.specs.Claims.{EntryClaim, IsClaim};

    ghost Value = { EntryClaim };

    ghost view = { λ p. record { layout = p.layout; slot = p.slot; at = p.at } };

    ghost invariant = { λ p. IsClaim p.layout p.slot p.at };

    ghost inverse = { λ p. record { layout = p.layout; slot = p.slot; at = p.at } };
}

impl Clone for Claim {
    ghost is_clone = { λ old new. new ≡ old };

    fn clone(&self) -> Result<Self, AllocError> {
        Ok(*self)
    }
}

impl Copy for Claim {}

impl Claim {
    /// The taking of an entry for the object in the slot.
    pub fn start(layout: &Layout, slot: u32) -> Claim
        requires { IsPlace layout.now (Count slot) }
        ensures { result ≡ record { layout = layout.now; slot = slot; at = Start } }
    {
        Claim {
            layout: *layout,
            slot,
            at: Claiming::Start,
        }
    }

    /// A word of the entries' bits is loaded.
    fn look(&mut self, word: u32) -> Next<ClaimAnswer>
        requires { word < words_of self.old.layout.entries }
        ensures turned { self.new ≡ record self.old { at = Looking word } }
        ensures answer { result ≡ Next.Step (Step.Load (number self.old.layout (EntryBits word))) }
    {
        let _few = self.layout.entries();
        self.at = Claiming::Looking { word };
        Next::Step(Step::Load {
            place: self.layout.entry_bits(64 * word),
        })
    }

    /// After a word of the entries' bits: the lowest entry that it leaves free is taken, or the next word is loaded.
    fn look_on(&mut self, word: u32, bits: u64) -> Next<ClaimAnswer>
        requires at { self.old.at ≡ Looking word }
        ensures turned { self.new ≡ claim_turned self.old (Some bits) }
        ensures answer { result ≡ claim_answer self.old (Some bits) }
        ensures waits { WaitsFor result (claim_asked self.new) }
        ensures fewer { FewerLeft result (claim_left self.old) (claim_left self.new) }
        ensures rests { RestsOn (claim_asked self.old) (Some bits) (claim_rests self.old) (claim_rests self.new) }
        ensures change { HoldsChange claim_change (claim_asked self.old) (Some bits) (claim_rests self.old) result }
    {
        let layout = self.layout;
        if let Some(entry) = free_thing(layout.entries(), word, bits) {
            self.at = Claiming::Taking { entry, seen: bits };
            return Next::Step(Step::Or {
                place: layout.entry_bits(entry),
                bits: bit(entry),
            });
        }
        if word + 1 < layout.entry_words() {
            return self.look(word + 1);
        }
        self.at = Claiming::Ended;
        Next::Done(ClaimAnswer::NoEntry)
    }
}

impl Plan for Claim {
    type Answer = ClaimAnswer;

    ghost takes = { claim_takes };

    ghost turned = { claim_turned };

    ghost answer = { claim_answer };

    ghost asked = { claim_asked };

    ghost left = { claim_left };

    ghost rests = { claim_rests };

    ghost changed = { claim_change };

    fn next(&mut self, last: Option<u64>) -> Next<ClaimAnswer> {
        let found = last.unwrap_or(0);
        match self.at {
            Claiming::Start => self.look(0),
            Claiming::Looking { word } => self.look_on(word, found),
            Claiming::Taking { entry, seen } => {
                if found & bit(entry) != 0 {
                    self.at = Claiming::Ended;
                    return Next::Done(ClaimAnswer::Again(Changed { seen, found }));
                }
                self.at = Claiming::Linking { entry };
                Next::Step(Step::Store {
                    place: self.layout.link_of(entry),
                    new: u64::from(self.slot) + 1,
                })
            }
            Claiming::Linking { entry } => {
                self.at = Claiming::Ended;
                Next::Done(ClaimAnswer::Entry(entry))
            }
            Claiming::Ended => unreachable!(),
        }
    }
}
