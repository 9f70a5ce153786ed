//! The stepper: one thread of a script as a machine of steps.

ghost use Rattle.std.specs.Prelude.{◌≡◌, ◌≤◌, length, IfOk};
ghost use Rattle.arc_rule.specs.Places.{extent_of};
ghost use Rattle.arc_script.specs.Valid.{IsScript};
ghost use Rattle.arc_served.specs.Served.{IsServed};
ghost use Rattle.arc_ops.specs.Thread.{stepper_of, number_of, first_of, in_access, in_operation, put, asking};
ghost use Rattle.arc_ops.specs.Turns.{turned};
ghost use Rattle.arc_ops.specs.Takes.{takes};
ghost use Rattle.arc_ops.specs.Steppers.{IsStepper, IsUnderWay, IsInOperation};

use crate::asking::nil_vars;
use crate::cell::Cell;
use crate::gain::{Gain, Source};
use arc_cells::{Begin, Cascade, End, Swap};
use arc_model::{Act, CellName, Kind, Memory, ObjectName, Origin, Shape};
use arc_plan::{NameOf, NewObject, Vacate};
use arc_rule::{Intent, Layout, Plan, Step};
use arc_script::{Answer, Line, Op, Script, VarDecl};
use arc_served::{Lines, Program, new_count, phases_of, vars_of};
use arc_side::{Down, Up};
use sqlite_items::Items;
use std::alloc::Global;
use std::marker::Model;
use std::mem;

/// A reference in the hands of a thread: its number among the references that came into these hands, from 1, its kind, and the slot
/// of its object.
#[derive(Clone, Copy, Debug, PartialEq, Eq)]
pub(crate) struct Held {
    pub hand: u32,
    pub kind: Kind,
    pub place: u32,
}

/// What a stepper is doing.
#[derive(Debug, Drop)]
pub(crate) enum Doing<'a> {
    /// Nothing is under way.
    Ready,
    /// An object is made for a variable.
    Making {
        to: u32,
        name: ObjectName,
        plan: NewObject,
    },
    /// A reference is gained for a variable from one in another variable, or in a cell that is accessed.
    Gaining {
        gain: Gain,
        to: u32,
        from: Source,
        plan: Up,
    },
    /// The name is read of the object of a reference that was loaded.
    Naming {
        to: u32,
        held: Held,
        plan: NameOf,
    },
    /// An access to a cell begins, whose reference is to be copied for a variable.
    Opening {
        to: u32,
        cell: Cell,
        plan: Begin,
    },
    /// The access to a cell ends whose reference was copied.
    Closing {
        to: u32,
        cell: CellName,
        held: Held,
        plan: End,
    },
    /// A cell gets the reference of a variable.
    Setting {
        from: u32,
        cell: Cell,
        plan: Swap,
    },
    /// The next global is cleared.
    Clearing {
        plan: Swap,
    },
    /// A reference is given up.
    Dropping {
        held: Held,
        plan: Down,
    },
    /// An object is deinited.
    Dying {
        cascade: Cascade<'a>,
    },
    /// A slot ends, whose object has no reference left but weak ones.
    Vacating {
        slot: u32,
        plan: Vacate,
    },
    Ended,
}

/// What a stepper asks for: a step and what it is made for, or nothing more in this phase, or nothing more at all.
#[derive(Clone, Copy, Debug, PartialEq, Eq)]
pub enum Move {
    Step { step: Step, intent: Intent },
    PhaseEnd,
    Ended,
}

/// The event of the step whose word was given, where it has one, and what comes next.
#[derive(Clone, Copy, Debug, PartialEq, Eq)]
pub struct Turn {
    pub event: Option<Act>,
    pub next: Move,
}

/// One thread of a script as a machine: it asks for the steps of the thread's operations one after the other, and keeps the lines.
/// So far of the scripts that `is_served` tells.
#[derive(Debug, Drop)]
pub struct Stepper<'a> {
    pub(crate) layout: Layout,
    pub(crate) shape: &'a Shape,
    pub(crate) thread: u32,
    pub(crate) phases: &'a [Items<Op>],
    pub(crate) program: Program,
    pub(crate) vars: Vec<Option<Held>>,
    pub(crate) declared: &'a [VarDecl],
    pub(crate) phase: usize,
    pub(crate) index: usize,
    pub(crate) doing: Doing<'a>,
    pub(crate) asked: Move,
    pub(crate) first: bool,
    pub(crate) hands: u32,
    pub(crate) made: u32,
    pub(crate) cleared: u32,
    pub(crate) taken: u32,
    pub(crate) event: Option<Act>,
    pub(crate) lines: Lines,
}

impl<'a> Model for Stepper<'a> {
    ghost use Rattle.std.specs.Prelude.{map};
    ghost use Rattle.arc_script.specs.declared.script.VarDecl.{VarDecl};
    ghost use Rattle.arc_ops.specs.Thread.{Thread};
    ghost use Rattle.arc_ops.specs.Steppers.{IsStepper};

    ghost Value = { Thread };

    ghost view = { λ t. record { layout = t.layout; shape = t.shape.now; thread = t.thread; phases = t.phases.now; program = t.program; vars = t.vars.items; classes = map (λ (v : VarDecl). v.class) t.declared.now; phase = t.phase; index = t.index; doing = t.doing; asked = t.asked; first = t.first; hands = t.hands; made = t.made; cleared = t.cleared; taken = t.taken; event = t.event; kept = t.lines } };

    ghost invariant = { λ t. IsStepper (record { layout = t.layout; shape = t.shape.now; thread = t.thread; phases = t.phases.now; program = t.program; vars = t.vars.items; classes = map (λ (v : VarDecl). v.class) t.declared.now; phase = t.phase; index = t.index; doing = t.doing; asked = t.asked; first = t.first; hands = t.hands; made = t.made; cleared = t.cleared; taken = t.taken; event = t.event; kept = t.lines }) };
}

impl<'a> Stepper<'a> {
    /// The stepper of a thread of the script, or of thread 0, the end section. It reserves room for as many lines as the thread has
    /// operations and the script has `new` operations; a line that finds no room later isn't kept.
    pub fn make(
        alloc: Global,
        script: &'a Script,
        layout: &Layout,
        thread: u32,
    ) -> Result<Stepper<'a>, Memory>
        requires script { IsScript script.now }
        requires served { IsServed script.now }
        requires layout { layout.now ≡ extent_of script.now.shape }
        requires thread { thread ≤ length script.now.threads }
        ensures { IfOk result (λ s. s ≡ stepper_of script.now thread) }
    {
        let phases = phases_of(script, thread);
        let program = Program::make(alloc, phases)?;
        let declared = vars_of(script, thread);
        let vars = nil_vars(alloc, declared.len())?;
        let room = program.len() + new_count(script.threads.as_slice());
        let lines = Lines::make(alloc, room)?;
        Ok(Stepper {
            layout: *layout,
            shape: &script.shape,
            thread,
            phases,
            program,
            vars,
            declared,
            phase: 0,
            index: 0,
            doing: Doing::Ready,
            asked: Move::PhaseEnd,
            first: false,
            hands: 0,
            made: 0,
            cleared: 0,
            taken: 0,
            event: None,
            lines,
        })
    }

    /// Takes None at the start of a phase, and else what the last step gave back, and says what comes next. It takes no memory, and
    /// isn't called after Ended.
    pub fn next(&mut self, last: Option<u64>) -> Turn
        requires takes { takes self.old last }
        ensures turned { self.new ≡ turned self.old last }
        ensures event { result.event ≡ self.new.event }
        ensures next { result.next ≡ self.new.asked }
        ensures is_stepper { IsStepper self.new }
    {
        self.event = None;
        self.first = false;
        let doing = mem::replace(&mut self.doing, Doing::Ended);
        match doing {
            Doing::Ready => self.begin(),
            Doing::Making { to, name, mut plan } => {
                let next = plan.next(last);
                self.make_on(to, name, plan, next);
            }
            Doing::Gaining {
                gain,
                to,
                from,
                plan,
            } => self.gain_on(gain, to, from, plan, last),
            Doing::Naming { to, held, plan } => self.name_on(to, held, plan, last),
            Doing::Opening { to, cell, plan } => self.open_on(to, cell, plan, last),
            Doing::Closing {
                to,
                cell,
                held,
                plan,
            } => self.close_on(to, cell, held, plan, last),
            Doing::Setting { from, cell, plan } => self.set_on(from, cell, plan, last),
            Doing::Clearing { plan } => self.clear_on(plan, last),
            Doing::Dropping { held, plan } => self.drop_on(held, plan, last),
            Doing::Dying { mut cascade } => {
                let next = cascade.next(last);
                self.tell_deinit(cascade.event());
                self.die_on(cascade, next);
            }
            Doing::Vacating { slot, plan } => self.vacate_on(slot, plan, last),
            Doing::Ended => unreachable!(),
        }
        Turn {
            event: self.event,
            next: self.asked,
        }
    }

    /// The number of the operation whose first step was asked for just now, from 1.
    pub fn first_of(&self) -> Option<u32>
        ensures { result ≡ first_of self.now }
    {
        if self.first && self.index < self.program.len() {
            Some(self.number())
        } else {
            None
        }
    }

    /// Whether an access to a cell has begun and hasn't ended.
    pub fn in_access(&self) -> bool
        ensures { result ≡ in_access self.now }
    {
        match self.doing {
            Doing::Gaining { from, .. } => matches!(from.origin, Origin::Cell(_)),
            Doing::Closing { .. } => true,
            _ => false,
        }
    }

    /// Whether an operation's first step was made and its last one, the drop of the old value included, wasn't yet.
    pub fn in_operation(&self) -> bool
        ensures { result ≡ in_operation self.now }
    {
        let busy = match self.doing {
            Doing::Ready => false,
            Doing::Ended => false,
            _ => true,
        };
        busy && !self.first && self.index < self.program.len()
    }

    /// The lines so far.
    pub fn lines(&self) -> &[Line]
        ensures { result.now ≡ self.now.kept.lines }
    {
        self.lines.as_slice()
    }

    fn number(&self) -> u32
        ensures { result ≡ number_of self.now }
    {
        if self.index < self.program.len() {
            self.program.number(self.index)
        } else {
            0
        }
    }

    /// Keeps a line of the operation that is under way.
    pub(crate) fn put(&mut self, answer: Answer)
        ensures { self.new ≡ put answer self.old }
    {
        let operation = self.number();
        self.lines.put(Line { operation, answer });
    }

    pub(crate) fn ask(&mut self, doing: Doing<'a>, step: Step, intent: Intent)
        requires under_way { IsUnderWay self.old.layout self.old.shape (length self.old.vars) doing }
        requires in_operation { IsInOperation self.old doing }
        ensures { self.new ≡ asking doing.entry step intent self.old }
    {
        self.doing = doing;
        self.asked = Move::Step { step, intent };
    }
}
