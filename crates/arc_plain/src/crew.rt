//! The steppers of a replay, and whose turn it is.

ghost use Rattle.std.specs.Prelude.{◌≡◌, ◌<◌, ◌≤◌, ◌^◌, ◌+◌, true, false, All, length, reverse, slice_get, None, Some, IfOk, OnOk, IsTrue};
ghost use Rattle.arc_rule.specs.Places.{extent_of};
ghost use Rattle.arc_rule.specs.Steps.{place_of, found_by};
ghost use Rattle.arc_script.specs.Valid.{IsScript};
ghost use Rattle.arc_served.specs.Served.{IsServed};
ghost use Rattle.arc_ops.specs.Thread.{stepper_of, in_access, in_operation};
ghost use Rattle.arc_ops.specs.Turns.{turned};
ghost use Rattle.arc_ops.specs.Takes.{takes};
ghost use Rattle.arc_ops.specs.Steppers.{IsStepper};
ghost use Rattle.arc_replays.specs.Stages.{IsSome, IsNone, has_step, awaits_phase, first_stage, new_threads, stamped};
ghost use Rattle.arc_plain.specs.Crews.{Progress, IsUnderWay, IsInPhases, IsAlone, AreFollowed, MayEnd, MayGoOn, PlaceFollowed, PlacesFollowed, AccessEnded, AccessesEnded, ThreadFinished, PhaseFinished, PhasesDone, IsDone, given, has_made, place_used, thread_begun, phase_begun, step_count, steps_asked, thread_at};

use crate::words::PlainWords;
use arc_model::{Act, Event, Memory};
use arc_ops::{Move, Stamped, Stepper};
use arc_rule::{Layout, Step};
use arc_script::Script;
use std::alloc::{AllocError, Global};
use std::marker::Model;

/// The threads of a script at work on plain words, thread 0 first: what each asks for, how many of them have a step, how many phases
/// have begun, how many places of the schedule were followed, and the events with the numbers of their steps.
#[derive(Debug, Drop)]
pub(crate) struct Crew<'a> {
    script: &'a Script,
    steppers: Vec<Stepper<'a>>,
    moves: Vec<Move>,
    busy: usize,
    begun: usize,
    followed: usize,
    words: PlainWords,
    events: Vec<Stamped>,
    steps: u64,
}

impl<'a> Model for Crew<'a> {
    ghost use Rattle.std.specs.Prelude.{drop, reverse};
    ghost use Rattle.arc_plain.specs.Crews.{Progress, IsCrew};

    ghost Value = { Progress };

    ghost view = { λ c. record { script = c.script.now; stage = record { begun = c.begun; places = drop c.followed c.script.now.schedule; threads = c.steppers.items; words = c.words; steps = c.steps; events = reverse c.events.items } } };

    ghost invariant = { λ c. IsCrew c.steppers.items c.moves.items c.busy };
}

/// The steppers of the script's threads, thread 0 first.
fn new_steppers<'a>(alloc: Global, script: &'a Script) -> Result<Vec<Stepper<'a>>, Memory>
    requires script { IsScript script.now }
    requires served { IsServed script.now }
    ensures { IfOk result (λ v. v.items ≡ new_threads script.now (length script.now.threads + 1) 0) }
{
    let layout = Layout::of(&script.shape);
    let mut steppers = Vec::new(alloc);
    for thread in 0..script.threads.len() + 1 {
        steppers.push(Stepper::make(alloc, script, &layout, thread as u32)?)?;
    }
    Ok(steppers)
}

/// Keeps the event of a step, where it has one.
fn keep(
    events: &mut Vec<Stamped>,
    step: u64,
    thread: u32,
    event: Option<Act>,
) -> Result<(), AllocError>
    ensures { OnOk result (reverse events.new.items ≡ stamped step thread event (reverse events.old.items)) }
{
    match event {
        None => Ok(()),
        Some(act) => {
            events.push(Stamped {
                step,
                event: Event { thread, act },
            })?;
            Ok(())
        }
    }
}

/// 1 for a step.
fn count_of(next: Move) -> usize
    ensures { result ≡ step_count next }
{
    match next {
        Move::Step { step: _, intent: _ } => 1,
        Move::PhaseEnd => 0,
        Move::Ended => 0,
    }
}

impl<'a> Crew<'a> {
    /// The threads before any has begun, on words that are all 0.
    pub(crate) fn make(alloc: Global, script: &'a Script) -> Result<Crew<'a>, Memory>
        requires script { IsScript script.now }
        requires served { IsServed script.now }
        ensures { IfOk result (λ c. c ≡ record { script = script.now; stage = first_stage script.now }) }
    {
        let words = PlainWords::make(alloc, &script.shape)?;
        let steppers = new_steppers(alloc, script)?;
        let moves = vec![in alloc; Move::PhaseEnd; steppers.len()]?;
        Ok(Crew {
            script,
            steppers,
            moves,
            busy: 0,
            begun: 0,
            followed: 0,
            words,
            events: Vec::new(alloc),
            steps: 0,
        })
    }

    /// Makes the steps of all phases, and then those of thread 0.
    pub(crate) fn run(&mut self) -> Result<(), AllocError>
        requires script { IsScript self.old.script }
        requires served { IsServed self.old.script }
        requires first { self.old.stage ≡ first_stage self.old.script }
        ensures { OnOk result (IsDone self.old self.new) }
    {
        self.run_phases()?;
        self.begin(0);
        self.finish_thread(0)
    }

    pub(crate) fn steppers(&self) -> &[Stepper<'a>]
        ensures { result.now ≡ self.now.stage.threads }
    {
        self.steppers.as_slice()
    }

    pub(crate) fn words(&self) -> &[u64]
        ensures { result.now ≡ self.now.stage.words }
    {
        self.words.words()
    }

    pub(crate) fn steps(&self) -> u64
        ensures { result ≡ self.now.stage.steps }
    {
        self.steps
    }

    /// The events, the first one first.
    pub(crate) fn into_events(self) -> Vec<Stamped>
        ensures { reverse result.items ≡ self.entry.stage.events }
    {
        let Crew { events, .. } = self;
        events
    }

    /// One phase after the other: it begins where no thread has a step, the places of the schedule are followed, and where none is left
    /// the threads make their steps in the order of their numbers.
    fn run_phases(&mut self) -> Result<(), AllocError>
        requires script { IsScript self.old.script }
        requires served { IsServed self.old.script }
        requires first { self.old.stage ≡ first_stage self.old.script }
        ensures { OnOk result (PhasesDone self.old self.new) }
    {
        while self.awaits_phase() {
            self.begin_phase();
            self.follow()?;
            self.finish_phase()?;
        }
        Ok(())
    }

    /// Whether a thread but thread 0 waits for its next phase.
    fn awaits_phase(&self) -> bool
        ensures some { result ≡ true → IsSome awaits_phase self.now.stage.threads }
        ensures none { result ≡ false → IsNone awaits_phase self.now.stage.threads }
        ensures steppers { All IsStepper self.now.stage.threads }
    {
        for thread in 1..self.steppers.len() {
            if self.waits(thread as u32) {
                return true;
            }
        }
        false
    }

    fn waits(&self, thread: u32) -> bool
        requires { thread < length self.now.stage.threads }
        ensures { result ≡ awaits_phase (thread_at thread self.now) }
    {
        match self.asks(thread) {
            Move::PhaseEnd => true,
            Move::Step { step: _, intent: _ } => false,
            Move::Ended => false,
        }
    }

    /// Each thread that waits for the next phase begins it, but thread 0.
    fn begin_phase(&mut self)
        requires in_phases { IsInPhases self.old }
        requires none { IsNone has_step self.old.stage.threads }
        requires some { IsSome awaits_phase self.old.stage.threads }
        ensures begun { self.new ≡ phase_begun self.old }
        ensures in_phases { IsInPhases self.new }
    {
        for thread in 1..self.steppers.len() {
            self.begin(thread as u32);
        }
        self.begun += 1;
    }

    /// A thread that waits for its next phase begins it.
    fn begin(&mut self, thread: u32)
        requires there { thread < length self.old.stage.threads }
        requires takes { awaits_phase (thread_at thread self.old) ≡ true → takes (thread_at thread self.old) None }
        ensures begun { self.new ≡ thread_begun thread self.old }
        ensures steppers { All IsStepper self.new.stage.threads }
    {
        match self.asks(thread) {
            Move::PhaseEnd => {
                self.turn(thread, None);
            }
            Move::Step { step: _, intent: _ } => {}
            Move::Ended => {}
        }
    }

    /// Follows the places of the schedule while a thread has a step.
    fn follow(&mut self) -> Result<(), AllocError>
        requires in_phases { IsInPhases self.old }
        requires steps { self.old.stage.steps + length self.old.stage.places < 2 ^ 62 }
        ensures { OnOk result (PlacesFollowed self.old self.new) }
    {
        while self.has_step() {
            let Some(thread) = self.next_place() else {
                return Ok(());
            };
            self.follow_place(thread)?;
        }
        Ok(())
    }

    /// Whether a thread has a step.
    fn has_step(&self) -> bool
        ensures { (result ≡ true → 1 ≤ steps_asked self.now.stage.threads) × (result ≡ false → steps_asked self.now.stage.threads ≡ 0) }
    {
        self.busy > 0
    }

    /// The thread of the schedule's next place.
    fn next_place(&self) -> Option<u32>
        ensures { result ≡ slice_get self.now.stage.places 0 }
    {
        let script = self.script;
        script.schedule.get(self.followed).copied()
    }

    /// The schedule's next place is used up.
    fn pass_place(&mut self)
        requires some { 1 ≤ length self.old.stage.places }
        requires few { length self.old.script.schedule ≤ 1000000 }
        ensures { self.new ≡ place_used self.old }
    {
        self.followed += 1;
    }

    /// The thread makes the step that it has. Where it has none, its place is used up.
    fn follow_place(&mut self, thread: u32) -> Result<(), AllocError>
        requires in_phases { IsInPhases self.old }
        requires next { slice_get self.old.stage.places 0 ≡ Some thread }
        requires some { 1 ≤ steps_asked self.old.stage.threads }
        requires steps { self.old.stage.steps < 2 ^ 62 }
        ensures { OnOk result (PlaceFollowed self.old self.new) }
    {
        self.pass_place();
        match self.asks(thread) {
            Move::Step { step, intent: _ } => self.make_step(thread, step),
            Move::PhaseEnd => Ok(()),
            Move::Ended => Ok(()),
        }
    }

    /// Each thread inside an access ends its operation, and then each thread, in the order of the numbers, makes steps until its phase has
    /// ended.
    fn finish_phase(&mut self) -> Result<(), AllocError>
        requires in_phases { IsInPhases self.old }
        requires followed { AreFollowed self.old }
        requires steps { self.old.stage.steps < 2 ^ 60 }
        ensures { OnOk result (PhaseFinished self.old self.new) }
    {
        self.end_accesses()?;
        for thread in 1..self.steppers.len() {
            self.finish_thread(thread as u32)?;
        }
        Ok(())
    }

    /// Each thread inside an access ends its operation, in the order of the numbers, so that no other thread waits for it.
    fn end_accesses(&mut self) -> Result<(), AllocError>
        requires in_phases { IsInPhases self.old }
        requires followed { AreFollowed self.old }
        requires steps { self.old.stage.steps < 2 ^ 60 }
        ensures { OnOk result (AccessesEnded self.old self.new) }
    {
        for thread in 1..self.steppers.len() {
            self.end_access(thread as u32)?;
        }
        Ok(())
    }

    /// The thread ends its operation, if it is inside an access.
    fn end_access(&mut self, thread: u32) -> Result<(), AllocError>
        requires under_way { IsUnderWay self.old }
        requires there { thread < length self.old.stage.threads }
        requires may { in_access (thread_at thread self.old) ≡ true → MayEnd thread self.old }
        requires steps { self.old.stage.steps < 2 ^ 61 }
        ensures { OnOk result (AccessEnded thread self.old self.new) }
    {
        if self.in_access(thread) {
            self.end_operation(thread)
        } else {
            Ok(())
        }
    }

    /// The thread, which is inside an access, makes steps to the end of its operation. It waits for no other thread, so it ends.
    fn end_operation(&mut self, thread: u32) -> Result<(), AllocError>
        requires under_way { IsUnderWay self.old }
        requires there { thread < length self.old.stage.threads }
        requires may { MayEnd thread self.old }
        requires steps { self.old.stage.steps < 2 ^ 61 }
        ensures { OnOk result (AccessEnded thread self.old self.new) }
    {
        while self.in_operation(thread) {
            match self.asks(thread) {
                Move::Step { step, intent: _ } => self.make_step(thread, step)?,
                Move::PhaseEnd => return Ok(()),
                Move::Ended => return Ok(()),
            }
        }
        Ok(())
    }

    fn in_access(&self, thread: u32) -> bool
        requires { thread < length self.now.stage.threads }
        ensures { result ≡ in_access (thread_at thread self.now) }
    {
        self.steppers[thread as usize].in_access()
    }

    fn in_operation(&self, thread: u32) -> bool
        requires { thread < length self.now.stage.threads }
        ensures { result ≡ in_operation (thread_at thread self.now) }
    {
        self.steppers[thread as usize].in_operation()
    }

    /// The thread makes steps until its phase has ended. No other thread is inside an access, so it waits for none, and it ends.
    fn finish_thread(&mut self, thread: u32) -> Result<(), AllocError>
        requires under_way { IsUnderWay self.old }
        requires there { thread < length self.old.stage.threads }
        requires may { MayGoOn thread self.old }
        requires alone { IsAlone thread self.old }
        requires steps { self.old.stage.steps < 2 ^ 61 }
        ensures { OnOk result (ThreadFinished thread self.old self.new) }
    {
        loop {
            match self.asks(thread) {
                Move::Step { step, intent: _ } => self.make_step(thread, step)?,
                Move::PhaseEnd => return Ok(()),
                Move::Ended => return Ok(()),
            }
        }
    }

    /// What the thread asks for.
    fn asks(&self, thread: u32) -> Move
        requires { thread < length self.now.stage.threads }
        ensures asked { result ≡ (thread_at thread self.now).asked }
        ensures steppers { All IsStepper self.now.stage.threads }
    {
        self.moves[thread as usize]
    }

    /// The thread makes the step: its stepper is given what the step finds, and the event is kept.
    fn make_step(&mut self, thread: u32, step: Step) -> Result<(), AllocError>
        requires there { thread < length self.old.stage.threads }
        requires place { place_of step < length self.old.stage.words }
        requires takes { takes (thread_at thread self.old) (Some (found_by step self.old.stage.words)) }
        requires steps { self.old.stage.steps < 2 ^ 62 }
        ensures made { OnOk result (self.new ≡ has_made thread step self.old) }
        ensures steppers { OnOk result (All IsStepper self.new.stage.threads) }
    {
        let found = self.words.step(step);
        let event = self.turn(thread, Some(found));
        self.steps += 1;
        keep(&mut self.events, self.steps, thread, event)
    }

    /// Gives the thread's stepper the word, or None where its phase begins, and keeps what it asks for then.
    fn turn(&mut self, thread: u32, last: Option<u64>) -> Option<Act>
        requires there { thread < length self.old.stage.threads }
        requires takes { takes (thread_at thread self.old) last }
        ensures given { self.new ≡ given thread last self.old }
        ensures event { result ≡ (turned (thread_at thread self.old) last).event }
        ensures steppers { All IsStepper self.new.stage.threads }
    {
        let place = thread as usize;
        let before = count_of(self.asks(thread));
        let turn = self.steppers[place].next(last);
        self.busy = count_of(turn.next) + (self.busy - before);
        self.moves[place] = turn.next;
        turn.event
    }
}
