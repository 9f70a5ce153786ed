//! Single steps.
ghost use Rattle.std.specs.Prelude.{◌≡◌};
ghost use Rattle.arc_rule.specs.declared.step.Step.TheVariants.{Load, Exchange, Store, Or, And};
ghost use Rattle.arc_view.specs.Admission.{Admits};
ghost use Rattle.arc_view.specs.Steps.{Told, given_back};
ghost use Rattle.arc_table.specs.Seats.{heap_id, shape_of, part_id, part_view, pass_id, view_of};
ghost use Rattle.arc_view_laws.specs.Strangers.{makes_object};

use crate::asks::{Asks, Clearing, Exchanging, Loading, Setting, Storing};
use crate::heap::{Heap, Part, Pass};
use arc_rule::{Intent, Step};
use std::marker::Brand;

impl Heap {
    pub(crate) fn load_as<J: Asks>(&self, part: &mut Part, place: u32) -> u64
        requires own { part_id part.old ≡ heap_id self.now }
        requires asks { J.shape ≡ shape_of self.now }
        requires kind { Admits (shape_of self.now) (part_view part.old) (Load place) J.intent }
        ensures same { part_id part.new ≡ part_id part.old }
        ensures told { Told (shape_of self.now) J.intent (Load place) (part_view part.old) result (part_view part.new) }
    {
        self.table
            .shared
            .load::<Loading<J>>(&mut part.seat, place as usize)
    }

    pub(crate) fn exchange_as<J: Asks>(
        &self,
        part: &mut Part,
        place: u32,
        old: u64,
        new: u64,
    ) -> u64
        requires own { part_id part.old ≡ heap_id self.now }
        requires asks { J.shape ≡ shape_of self.now }
        requires kind { Admits (shape_of self.now) (part_view part.old) (Exchange place old new) J.intent }
        ensures same { part_id part.new ≡ part_id part.old }
        ensures told { Told (shape_of self.now) J.intent (Exchange place old new) (part_view part.old) result (part_view part.new) }
    {
        self.table
            .shared
            .compare_exchange::<Exchanging<J>>(&mut part.seat, place as usize, old, new)
    }

    pub(crate) fn store_as<J: Asks>(&self, part: &mut Part, place: u32, new: u64)
        requires own { part_id part.old ≡ heap_id self.now }
        requires asks { J.shape ≡ shape_of self.now }
        requires kind { Admits (shape_of self.now) (part_view part.old) (Store place new) J.intent }
        ensures same { part_id part.new ≡ part_id part.old }
        ensures told { Told (shape_of self.now) J.intent (Store place new) (part_view part.old) 0 (part_view part.new) }
    {
        self.table
            .shared
            .store::<Storing<J>>(&mut part.seat, place as usize, new);
    }

    pub(crate) fn or_as<J: Asks>(&self, part: &mut Part, place: u32, bits: u64) -> u64
        requires own { part_id part.old ≡ heap_id self.now }
        requires asks { J.shape ≡ shape_of self.now }
        requires kind { Admits (shape_of self.now) (part_view part.old) (Or place bits) J.intent }
        ensures same { part_id part.new ≡ part_id part.old }
        ensures told { Told (shape_of self.now) J.intent (Or place bits) (part_view part.old) result (part_view part.new) }
    {
        self.table
            .shared
            .fetch_or::<Setting<J>>(&mut part.seat, place as usize, bits)
    }

    pub(crate) fn and_as<J: Asks>(&self, part: &mut Part, place: u32, bits: u64) -> u64
        requires own { part_id part.old ≡ heap_id self.now }
        requires asks { J.shape ≡ shape_of self.now }
        requires kind { Admits (shape_of self.now) (part_view part.old) (And place bits) J.intent }
        ensures same { part_id part.new ≡ part_id part.old }
        ensures told { Told (shape_of self.now) J.intent (And place bits) (part_view part.old) result (part_view part.new) }
    {
        self.table
            .shared
            .fetch_and::<Clearing<J>>(&mut part.seat, place as usize, bits)
    }

    pub(crate) fn load_for<J: Asks>(&self, part: &mut Part, place: u32, _intent: Intent) -> u64
        requires own { part_id part.old ≡ heap_id self.now }
        requires asks { (J.intent ≡ _intent) × (J.shape ≡ shape_of self.now) }
        requires kind { Admits (shape_of self.now) (part_view part.old) (Load place) _intent }
        ensures same { part_id part.new ≡ part_id part.old }
        ensures told { Told (shape_of self.now) _intent (Load place) (part_view part.old) result (part_view part.new) }
    {
        self.load_as::<J>(part, place)
    }

    fn exchange_for<J: Asks>(
        &self,
        part: &mut Part,
        place: u32,
        old: u64,
        new: u64,
        _intent: Intent,
    ) -> u64
        requires own { part_id part.old ≡ heap_id self.now }
        requires asks { (J.intent ≡ _intent) × (J.shape ≡ shape_of self.now) }
        requires kind { Admits (shape_of self.now) (part_view part.old) (Exchange place old new) _intent }
        ensures same { part_id part.new ≡ part_id part.old }
        ensures told { Told (shape_of self.now) _intent (Exchange place old new) (part_view part.old) result (part_view part.new) }
    {
        self.exchange_as::<J>(part, place, old, new)
    }

    fn store_for<J: Asks>(&self, part: &mut Part, place: u32, new: u64, _intent: Intent)
        requires own { part_id part.old ≡ heap_id self.now }
        requires asks { (J.intent ≡ _intent) × (J.shape ≡ shape_of self.now) }
        requires kind { Admits (shape_of self.now) (part_view part.old) (Store place new) _intent }
        ensures same { part_id part.new ≡ part_id part.old }
        ensures told { Told (shape_of self.now) _intent (Store place new) (part_view part.old) 0 (part_view part.new) }
    {
        self.store_as::<J>(part, place, new);
    }

    fn or_for<J: Asks>(&self, part: &mut Part, place: u32, bits: u64, _intent: Intent) -> u64
        requires own { part_id part.old ≡ heap_id self.now }
        requires asks { (J.intent ≡ _intent) × (J.shape ≡ shape_of self.now) }
        requires kind { Admits (shape_of self.now) (part_view part.old) (Or place bits) _intent }
        ensures same { part_id part.new ≡ part_id part.old }
        ensures told { Told (shape_of self.now) _intent (Or place bits) (part_view part.old) result (part_view part.new) }
    {
        self.or_as::<J>(part, place, bits)
    }

    fn and_for<J: Asks>(&self, part: &mut Part, place: u32, bits: u64, _intent: Intent) -> u64
        requires own { part_id part.old ≡ heap_id self.now }
        requires asks { (J.intent ≡ _intent) × (J.shape ≡ shape_of self.now) }
        requires kind { Admits (shape_of self.now) (part_view part.old) (And place bits) _intent }
        ensures same { part_id part.new ≡ part_id part.old }
        ensures told { Told (shape_of self.now) _intent (And place bits) (part_view part.old) result (part_view part.new) }
    {
        self.and_as::<J>(part, place, bits)
    }

    fn step_for(&self, part: &mut Part, step: Step, intent: Intent) -> u64
        requires own { part_id part.old ≡ heap_id self.now }
        requires kind { Admits (shape_of self.now) (part_view part.old) step intent }
        ensures same { part_id part.new ≡ part_id part.old }
        ensures told { Told (shape_of self.now) intent step (part_view part.old) result (part_view part.new) }
        ensures given { result ≡ given_back step result }
    {
        match step {
            Step::Load { place } => self.load_for::<Brand>(part, place, intent),
            Step::Exchange { place, old, new } => {
                self.exchange_for::<Brand>(part, place, old, new, intent)
            }
            Step::Store { place, new } => {
                self.store_for::<Brand>(part, place, new, intent);
                0
            }
            Step::Or { place, bits } => self.or_for::<Brand>(part, place, bits, intent),
            Step::And { place, bits } => self.and_for::<Brand>(part, place, bits, intent),
        }
    }

    /// One atomic step, of a kind that what the pass has allows; Look allows loads alone. What came to be seen is legal. It gives
    /// back the word that was found, and 0, which means nothing, by a store.
    pub fn step(&self, pass: &mut Pass, step: Step, intent: Intent) -> u64
        requires own { pass_id pass.old ≡ heap_id self.now }
        requires kind { Admits (shape_of self.now) (view_of pass.old) step intent }
        ensures same { pass_id pass.new ≡ pass_id pass.old }
        ensures told { Told (shape_of self.now) intent step (view_of pass.old) result (view_of pass.new) }
        ensures given { result ≡ given_back step result }
    {
        let found = self.step_for(&mut pass.part, step, intent);
        if makes_object(step, intent, found) {
            pass.made += 1;
        }
        found
    }
}

/// The step has made an object.
fn makes_object(step: Step, intent: Intent, found: u64) -> bool
    ensures { result ≡ makes_object step intent found }
{
    match (step, intent) {
        (Step::Or { place: _, bits }, Intent::New { class: _ }) => found & bits == 0,
        _ => false,
    }
}
