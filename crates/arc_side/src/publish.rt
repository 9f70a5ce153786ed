//! An entry becomes that of the object in a slot.

ghost use Rattle.std.specs.Prelude.{◌≡◌, Some, IfSome, IsTrue};
ghost use Rattle.arc_bits.specs.declared.packing.Inline.{Inline};
ghost use Rattle.arc_bits.specs.declared.packing.Word.TheVariants.{Counts};
ghost use Rattle.arc_bits.specs.Words.{CountsFit, packed, unpacked};
ghost use Rattle.arc_rule.specs.Places.{IsPlace, number};
ghost use Rattle.arc_rule.specs.declared.layout.Place.TheVariants.{Count, Link};
ghost use Rattle.arc_side.specs.declared.publish.Publishing.TheVariants.{Start};
ghost use Rattle.arc_side.specs.Entries.{count_place};
ghost use Rattle.arc_side.specs.Publications.{PublishWord, is_needed, moved_counts, entry_count, publish_takes, publish_turned, publish_answer, publish_asked, publish_left, publish_rests, publish_change};

use crate::count::count_of;
use arc_bits::{Inline, Word, pack, unpack};
use arc_model::{Caps, Kind};
use arc_rule::{Changed, Layout, Next, Plan, Step};
use std::alloc::AllocError;
use std::marker::Model;

/// What the publication of an entry comes to.
#[derive(Clone, Copy, Debug, PartialEq, Eq)]
pub enum PublishAnswer {
    /// The entry is the object's.
    Done,
    /// The word read doesn't ask for an entry: it has one already, its counts have room, or it is that of an immortal object.
    NotNeeded,
    /// The word has changed in the meantime.
    Again(Changed),
}

/// Where the publication of an entry is.
#[derive(Clone, Copy, Debug, PartialEq, Eq)]
pub enum Publishing {
    Start,
    /// It waits for the inline word.
    Loading,
    /// It stores the entry's count of the list, by the counts that it read.
    Storing { counts: Inline, list: Kind },
    /// It exchanges the inline word of these counts for the entry's number, and waits for the word that was found.
    Exchanging { counts: Inline },
    Ended,
}

/// The counts of the object in a slot move into an entry that was claimed for it: they are read, stored in the entry, and from the one
/// exchange of the inline word on they lie there. RefCount.h; the order of the stores is this project's own.
#[derive(Debug)]
pub struct Publish {
    layout: Layout,
    slot: u32,
    entry: u32,
    why: Kind,
    caps: Caps,
    at: Publishing,
}

impl Model for Publish {
    ghost use Rattle.arc_side.specs.Publications.{Publication, IsPublication};

    ghost Value = { Publication };

    ghost view = { λ p. record { layout = p.layout; slot = p.slot; entry = p.entry; why = p.why; caps = p.caps; at = p.at } };

    ghost invariant = { λ p. IsPublication p.layout p.slot p.entry p.at };

    ghost inverse = { λ p. record { layout = p.layout; slot = p.slot; entry = p.entry; why = p.why; caps = p.caps; at = p.at } };
}

impl Clone for Publish {
    ghost is_clone = { λ old new. new ≡ old };

    fn clone(&self) -> Result<Self, AllocError> {
        Ok(*self)
    }
}

impl Copy for Publish {}

impl Publish {
    /// The entry is to become that of the object in the slot. `why` is the count that stands at its cap, strong or unowned, or weak.
    pub fn start(layout: &Layout, slot: u32, entry: u32, why: Kind, caps: Caps) -> Publish
        requires slot { IsPlace layout.now (Count slot) }
        requires entry { IsPlace layout.now (Link entry) }
        ensures { result ≡ record { layout = layout.now; slot = slot; entry = entry; why = why; caps = caps; at = Start } }
    {
        Publish {
            layout: *layout,
            slot,
            entry,
            why,
            caps,
            at: Publishing::Start,
        }
    }

    fn is_needed(&self, counts: Inline) -> bool
        ensures { result ≡ is_needed self.now.why self.now.caps counts }
    {
        match self.why {
            Kind::Strong => !counts.deiniting && counts.strong_extra == self.caps.strong(),
            Kind::Unowned => counts.unowned == self.caps.unowned(),
            Kind::Weak => !counts.deiniting,
        }
    }

    /// The counts of the word that was read, where they are to move.
    fn moved_counts(&self, word: u64) -> Option<Inline>
        requires { PublishWord self.now word }
        ensures moved { result ≡ moved_counts self.now.why self.now.caps (unpacked word) }
        ensures fit { IfSome result (λ c. CountsFit c × (packed (Counts c) ≡ word)) }
    {
        match unpack(word) {
            Some(Word::Counts(counts)) if self.is_needed(counts) => Some(counts),
            _ => None,
        }
    }

    /// The entry's count of the list is stored.
    fn store(&mut self, counts: Inline, list: Kind) -> Next<PublishAnswer>
        requires { CountsFit counts }
        ensures turned { self.new ≡ record self.old { at = Publishing.Storing counts list } }
        ensures answer { result ≡ Next.Step (Step.Store (number self.old.layout (count_place list self.old.entry)) (entry_count list counts)) }
    {
        self.at = Publishing::Storing { counts, list };
        Next::Step(Step::Store {
            place: count_of(&self.layout, self.entry, list),
            new: entry_count(counts, list),
        })
    }
}

/// An entry's count of the list, for the object that has these counts.
fn entry_count(counts: Inline, list: Kind) -> u64
    requires { CountsFit counts }
    ensures { result ≡ entry_count list counts }
{
    match list {
        Kind::Strong if counts.deiniting => 0,
        Kind::Strong => u64::from(counts.strong_extra) + 1,
        Kind::Unowned => u64::from(counts.unowned),
        Kind::Weak => 1,
    }
}

impl Plan for Publish {
    type Answer = PublishAnswer;

    ghost takes = { publish_takes };

    ghost turned = { publish_turned };

    ghost answer = { publish_answer };

    ghost asked = { publish_asked };

    ghost left = { publish_left };

    ghost rests = { publish_rests };

    ghost changed = { publish_change };

    fn next(&mut self, last: Option<u64>) -> Next<PublishAnswer> {
        let place = self.layout.count_of(self.slot);
        let word = last.unwrap_or(0);
        match self.at {
            Publishing::Start => {
                self.at = Publishing::Loading;
                Next::Step(Step::Load { place })
            }
            Publishing::Loading => match self.moved_counts(word) {
                Some(counts) => self.store(counts, Kind::Strong),
                None => {
                    self.at = Publishing::Ended;
                    Next::Done(PublishAnswer::NotNeeded)
                }
            },
            Publishing::Storing { counts, list } => match list {
                Kind::Strong => self.store(counts, Kind::Unowned),
                Kind::Unowned => self.store(counts, Kind::Weak),
                Kind::Weak => {
                    self.at = Publishing::Exchanging { counts };
                    Next::Step(Step::Exchange {
                        place,
                        old: pack(Word::Counts(counts)),
                        new: pack(Word::Slow(self.entry)),
                    })
                }
            },
            Publishing::Exchanging { counts } => {
                self.at = Publishing::Ended;
                let seen = pack(Word::Counts(counts));
                Next::Done(if word == seen {
                    PublishAnswer::Done
                } else {
                    PublishAnswer::Again(Changed { seen, found: word })
                })
            }
            Publishing::Ended => unreachable!(),
        }
    }
}
