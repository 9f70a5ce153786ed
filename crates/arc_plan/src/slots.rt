//! A new object's plan: a free slot by the bit words, the words stored, the bit set; and the plan that gives a slot up.
ghost use Rattle.std.specs.Prelude.{◌≡◌, ◌≢◌, ◌<◌, ◌≤◌, ◌/◌, Some, IfSome};
ghost use Rattle.arc_rule.specs.Bits.{words_of, bit_of};
ghost use Rattle.arc_rule.specs.Isa.{IsName};
ghost use Rattle.arc_rule.specs.Places.{IsPlace, number};
ghost use Rattle.arc_rule.specs.Plans.{WaitsFor, FewerLeft, RestsOn, HoldsChange};
ghost use Rattle.arc_rule.specs.declared.layout.Place.TheVariants.{Count, Isa};
ghost use Rattle.arc_plan.specs.Slots.{creation_takes, creation_turned, creation_answer, creation_asked, creation_left, creation_rests, creation_change, free_slot, slot_taken, looked, looked_answer, looking, taking, new_word, IsTaking, vacate_takes, vacate_answer, vacate_asked, name_of_takes, once_turned, once_answer, one_turned, name_of_answer, name_of_asked, one_left, no_reading, no_change};

use crate::free::{bit, free_thing};
use arc_bits::{Inline, Word, pack};
use arc_model::ObjectName;
use arc_rule::{Changed, Layout, Next, Plan, Step, isa_name, isa_word};
use std::alloc::AllocError;
use std::marker::Model;

/// What the making of an object comes to.
#[derive(Clone, Copy, Debug, PartialEq, Eq)]
pub enum NewObjectAnswer {
    /// The object is in this slot.
    Slot(u32),
    /// Each slot was found taken.
    NoSlot,
    /// The slot was taken in the meantime: its bit was clear in the one word, and set in the other.
    Again(Changed),
}

/// Where the making of an object is.
#[derive(Clone, Copy, Debug, PartialEq, Eq)]
pub enum Making {
    Start,
    /// It waits for a word of the slots' bits.
    Looking { word: u32 },
    /// It sets the slot's bit, which was clear in the word `seen`, and waits for the word that was found.
    Taking { slot: u32, seen: u64 },
    /// It has the slot, and stores the inline word.
    Counting { slot: u32 },
    /// It has the slot, and stores the name.
    Naming { slot: u32 },
    Ended,
}

/// Whether the one step of a plan was asked for.
#[derive(Clone, Copy, Debug, PartialEq, Eq)]
pub enum Once {
    Start,
    Asked,
    Ended,
}

/// An object is made in the first slot that is free: the words of the slots' bits are loaded in turn until one has a clear bit, that
/// bit is set, and then the inline word and the isa word are stored.
#[derive(Debug)]
pub struct NewObject {
    layout: Layout,
    name: ObjectName,
    immortal: bool,
    at: Making,
}

impl Model for NewObject {
    ghost use Rattle.arc_plan.specs.Slots.{Creation, IsCreation};

    ghost Value = { Creation };

    ghost view = { λ p. record { layout = p.layout; name = p.name; immortal = p.immortal; at = p.at } };

    ghost invariant = { λ p. IsCreation p.layout p.name p.at };

    ghost inverse = { λ p. record { layout = p.layout; name = p.name; immortal = p.immortal; at = p.at } };
}

impl Clone for NewObject {
    ghost is_clone = { λ old new. new ≡ old };

    fn clone(&self) -> Result<Self, AllocError> {
        Ok(*self)
    }
}

impl Copy for NewObject {}

impl NewObject {
    ghost use Rattle.arc_plan.specs.declared.slots.Making.TheVariants.{Start, Looking};

    /// The making of the object with this name. `immortal` says whether its class is.
    pub fn start(layout: &Layout, name: ObjectName, immortal: bool) -> NewObject
        requires { IsName name }
        ensures { result ≡ record { layout = layout.now; name = name; immortal = immortal; at = Start } }
    {
        NewObject {
            layout: *layout,
            name,
            immortal,
            at: Making::Start,
        }
    }

    /// The slot that its last step took: both words of the new object are still to be stored.
    pub fn took(&self) -> Option<u32>
        ensures { result ≡ slot_taken self.now.at }
    {
        match self.at {
            Making::Counting { slot } => Some(slot),
            _ => None,
        }
    }

    /// After the word of the slots' bits: the lowest slot that it leaves free is taken, or the next word is read.
    fn look_on(&mut self, word: u32, bits: u64) -> Next<NewObjectAnswer>
        requires at { self.old.at ≡ Looking word }
        ensures turned { self.new ≡ record self.old { at = looked self.old.layout.slots word bits (free_slot self.old.layout.slots word bits) } }
        ensures answer { result ≡ looked_answer self.old.layout word (free_slot self.old.layout.slots word bits) }
        ensures waits { WaitsFor result (creation_asked self.new) }
        ensures fewer { FewerLeft result (creation_left self.old) (creation_left self.new) }
        ensures rests { RestsOn (creation_asked self.old) (Some bits) (creation_rests self.old) (creation_rests self.new) }
        ensures change { HoldsChange creation_change (creation_asked self.old) (Some bits) (creation_rests self.old) result }
    {
        let layout = self.layout;
        if let Some(slot) = free_thing(layout.slots(), word, bits) {
            self.at = Making::Taking { slot, seen: bits };
            return Next::Step(taking(&layout, slot));
        }
        if word + 1 < layout.slot_words() {
            self.at = Making::Looking { word: word + 1 };
            return Next::Step(looking(&layout, word + 1));
        }
        self.at = Making::Ended;
        Next::Done(NewObjectAnswer::NoSlot)
    }
}

/// One strong reference, and one unowned reference on its behalf, or the word of an immortal object.
fn new_word(immortal: bool) -> u64
    ensures { result ≡ new_word immortal }
{
    if immortal {
        return pack(Word::Immortal);
    }
    pack(Word::Counts(Inline {
        strong_extra: 0,
        unowned: 1,
        deiniting: false,
    }))
}

fn looking(layout: &Layout, word: u32) -> Step
    requires { word < words_of layout.now.slots }
    ensures { result ≡ looking layout.now word }
{
    let _few = layout.slots();
    Step::Load {
        place: layout.slot_bits(64 * word),
    }
}

fn taking(layout: &Layout, slot: u32) -> Step
    requires { slot < layout.now.slots }
    ensures { result ≡ taking layout.now slot }
{
    Step::Or {
        place: layout.slot_bits(slot),
        bits: bit(slot),
    }
}

impl Plan for NewObject {
    type Answer = NewObjectAnswer;

    ghost takes = { creation_takes };

    ghost turned = { creation_turned };

    ghost answer = { creation_answer };

    ghost asked = { creation_asked };

    ghost left = { creation_left };

    ghost rests = { creation_rests };

    ghost changed = { creation_change };

    fn next(&mut self, last: Option<u64>) -> Next<NewObjectAnswer> {
        let found = last.unwrap_or(0);
        match self.at {
            Making::Start => {
                self.at = Making::Looking { word: 0 };
                Next::Step(looking(&self.layout, 0))
            }
            Making::Looking { word } => self.look_on(word, found),
            Making::Taking { slot, seen } => {
                if found & bit(slot) != 0 {
                    self.at = Making::Ended;
                    return Next::Done(NewObjectAnswer::Again(Changed { seen, found }));
                }
                self.at = Making::Counting { slot };
                Next::Step(Step::Store {
                    place: self.layout.count_of(slot),
                    new: new_word(self.immortal),
                })
            }
            Making::Counting { slot } => {
                self.at = Making::Naming { slot };
                Next::Step(Step::Store {
                    place: self.layout.isa_of(slot),
                    new: isa_word(self.name),
                })
            }
            Making::Naming { slot } => {
                self.at = Making::Ended;
                Next::Done(NewObjectAnswer::Slot(slot))
            }
            Making::Ended => unreachable!(),
        }
    }
}

/// The slot is given up: its bit is cleared.
#[derive(Debug)]
pub struct Vacate {
    layout: Layout,
    slot: u32,
    at: Once,
}

impl Model for Vacate {
    ghost use Rattle.arc_plan.specs.Slots.{OneStep};
    ghost use Rattle.arc_rule.specs.Places.{IsPlace};
    ghost use Rattle.arc_rule.specs.declared.layout.Place.TheVariants.{Count};

    ghost Value = { OneStep };

    ghost view = { λ p. record { layout = p.layout; slot = p.slot; at = p.at } };

    ghost invariant = { λ p. IsPlace p.layout (Count p.slot) };

    ghost inverse = { λ p. record { layout = p.layout; slot = p.slot; at = p.at } };
}

impl Clone for Vacate {
    ghost is_clone = { λ old new. new ≡ old };

    fn clone(&self) -> Result<Self, AllocError> {
        Ok(*self)
    }
}

impl Copy for Vacate {}

impl Vacate {
    ghost use Rattle.arc_plan.specs.declared.slots.Once.TheVariants.{Start};

    /// The object in the slot leaves it.
    pub fn start(layout: &Layout, slot: u32) -> Vacate
        requires { IsPlace layout.now (Count slot) }
        ensures { result ≡ record { layout = layout.now; slot = slot; at = Start } }
    {
        Vacate {
            layout: *layout,
            slot,
            at: Once::Start,
        }
    }
}

impl Once {
    /// The step, or the answer once the step was made.
    pub fn ask(&mut self, step: Step) -> Next<()>
        requires { self.old ≢ Once.Ended }
        ensures turned { self.new ≡ once_turned self.old }
        ensures answer { result ≡ once_answer step tt self.old }
    {
        match *self {
            Once::Start => {
                *self = Once::Asked;
                Next::Step(step)
            }
            Once::Asked => {
                *self = Once::Ended;
                Next::Done(())
            }
            Once::Ended => unreachable!(),
        }
    }
}

impl Plan for Vacate {
    type Answer = ();

    ghost takes = { vacate_takes };

    ghost turned = { one_turned };

    ghost answer = { vacate_answer };

    ghost asked = { vacate_asked };

    ghost left = { one_left };

    ghost rests = { no_reading };

    ghost changed = { no_change };

    fn next(&mut self, _last: Option<u64>) -> Next<()> {
        self.at.ask(Step::And {
            place: self.layout.slot_bits(self.slot),
            bits: !bit(self.slot),
        })
    }
}

/// The name of the object in a slot: a load of its isa word.
#[derive(Debug)]
pub struct NameOf {
    layout: Layout,
    slot: u32,
    at: Once,
}

impl Model for NameOf {
    ghost use Rattle.arc_plan.specs.Slots.{OneStep};
    ghost use Rattle.arc_rule.specs.Places.{IsPlace};
    ghost use Rattle.arc_rule.specs.declared.layout.Place.TheVariants.{Isa};

    ghost Value = { OneStep };

    ghost view = { λ p. record { layout = p.layout; slot = p.slot; at = p.at } };

    ghost invariant = { λ p. IsPlace p.layout (Isa p.slot) };

    ghost inverse = { λ p. record { layout = p.layout; slot = p.slot; at = p.at } };
}

impl Clone for NameOf {
    ghost is_clone = { λ old new. new ≡ old };

    fn clone(&self) -> Result<Self, AllocError> {
        Ok(*self)
    }
}

impl Copy for NameOf {}

impl NameOf {
    ghost use Rattle.arc_plan.specs.declared.slots.Once.TheVariants.{Start};

    /// The name of the object in the slot.
    pub fn start(layout: &Layout, slot: u32) -> NameOf
        requires { IsPlace layout.now (Isa slot) }
        ensures { result ≡ record { layout = layout.now; slot = slot; at = Start } }
    {
        NameOf {
            layout: *layout,
            slot,
            at: Once::Start,
        }
    }
}

impl Plan for NameOf {
    type Answer = ObjectName;

    ghost takes = { name_of_takes };

    ghost turned = { one_turned };

    ghost answer = { name_of_answer };

    ghost asked = { name_of_asked };

    ghost left = { one_left };

    ghost rests = { no_reading };

    ghost changed = { no_change };

    fn next(&mut self, last: Option<u64>) -> Next<ObjectName> {
        match self.at {
            Once::Start => {
                self.at = Once::Asked;
                Next::Step(Step::Load {
                    place: self.layout.isa_of(self.slot),
                })
            }
            Once::Asked => {
                self.at = Once::Ended;
                Next::Done(isa_name(last.unwrap_or(0)))
            }
            Once::Ended => unreachable!(),
        }
    }
}
