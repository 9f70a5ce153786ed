//! The operations of a thread one after the other: where each begins, the end of a phase, and the end of the scope.

ghost use Rattle.std.specs.Prelude.{◌≡◌, true, ◌<◌, ◌||◌, length, slice_get, Some, IfSome};
ghost use Rattle.arc_ops.specs.Thread.{Thread, is_held, value};
ghost use Rattle.arc_ops.specs.Begins.{asks, is_there, begun, begun_op, begun_get, begun_set, begun_gain, begun_nil, begun_move, phase_over, scope_begun, scope_over, next_op};
ghost use Rattle.arc_served.specs.Programs.{OwnerFits, HasCell};
ghost use Rattle.arc_ops.specs.Cells.{cell_of};
ghost use Rattle.arc_ops.specs.Steppers.{IsHeld, IsCell, FewBefore};
ghost use Rattle.arc_ops.specs.declared.stepper.Doing.TheVariants.{Ended};

use crate::asking::{first_asking, first_held};
use crate::cell::Cell;
use crate::gain::{Gain, Source};
use crate::stepper::{Doing, Held, Move, Stepper};
use arc_script::{Answer, Op, OpCell};
use arc_served::ops_in_first;

impl<'a> Stepper<'a> {
    /// Goes on to the first operation of the phase that asks for a step, or to the end of the phase.
    pub(crate) fn begin(&mut self)
        requires idle { self.old.doing ≡ Ended }
        requires few { self.old.index < length self.old.program → FewBefore self.old }
        ensures { self.new ≡ begun self.old }
    {
        let end = ops_in_first(self.phase + 1, self.phases);
        let at = first_asking(
            &self.program,
            end,
            &mut self.vars,
            self.index,
            &mut self.lines,
        );
        self.index = at;
        if at < end {
            let op = self.program.op(at);
            self.begin_op(op);
        } else {
            self.end_phase();
        }
    }

    /// The operations of the phase are done: the next phase is to begin, and behind the last one the scope ends.
    fn end_phase(&mut self)
        requires idle { self.old.doing ≡ Ended }
        requires few { self.old.index < length self.old.program → FewBefore self.old }
        ensures { self.new ≡ phase_over self.old }
    {
        if self.phase + 1 < self.phases.len() {
            self.phase += 1;
            self.doing = Doing::Ready;
            self.asked = Move::PhaseEnd;
        } else {
            self.end_scope();
        }
    }

    fn begin_op(&mut self, op: Op)
        requires at { slice_get self.old.program self.old.index ≡ Some op }
        requires asks { asks self.old.vars op ≡ true }
        requires few { FewBefore self.old }
        ensures { (rest : Thread → Thread) → self.new ≡ begun_op op self.old rest }
    {
        self.first = true;
        match op {
            Op::New { to, class } => self.begin_make(to, class),
            Op::Copy { to, from } => self.begin_from(Gain::Copy, to, from),
            Op::Unown { to, of } => self.begin_from(Gain::Unown, to, of),
            Op::Load { to, of } => self.begin_from(Gain::Load, to, of),
            Op::Get { to, cell } => self.begin_get(to, cell),
            Op::Set { cell, from } => self.begin_put(cell, from),
            Op::Move { to, from } => match self.vars[from as usize] {
                Some(held) => self.begin_move(to, from, held),
                None => self.begin_nil(to),
            },
            Op::Drop { var } => match self.vars[var as usize] {
                Some(held) => {
                    self.put(Answer::Ok);
                    self.vars[var as usize] = None;
                    self.begin_drop(held);
                }
                None => unreachable!(),
            },
            _ => unreachable!(),
        }
    }

    /// The cell that an operation names; through an owner that is nil there is none.
    fn cell_of(&self, cell: OpCell) -> Option<Cell>
        requires owner { OwnerFits (length self.now.vars) cell }
        requires there { HasCell self.now.shape self.now.classes cell }
        ensures value { result ≡ cell_of cell self.now }
        ensures is_cell { IfSome result (λ c. IsCell self.now.layout c) }
    {
        match cell {
            OpCell::Global(global) => Some(Cell::global(self.shape, global)),
            OpCell::Field { owner, field } => {
                let class = self.declared[owner as usize].class;
                match self.vars[owner as usize] {
                    Some(held) => Some(Cell::field(self.shape, class, field, held)),
                    None => None,
                }
            }
        }
    }

    /// A cell is read; through an owner that is nil the destination becomes nil.
    fn begin_get(&mut self, to: u32, cell: OpCell)
        requires at { self.old.index < length self.old.program }
        requires few { FewBefore self.old }
        requires to { to < length self.old.vars }
        requires owner { OwnerFits (length self.old.vars) cell }
        requires there { HasCell self.old.shape self.old.classes cell }
        requires held { (is_there self.old.vars cell || is_held (value self.old.vars to)) ≡ true }
        requires first { self.old.first ≡ true }
        ensures { (rest : Thread → Thread) → self.new ≡ begun_get to (cell_of cell self.old) (value self.old.vars to) self.old rest }
    {
        match self.cell_of(cell) {
            Some(cell) => self.begin_open(to, cell),
            None => self.begin_nil(to),
        }
    }

    /// A cell is written, which is there.
    fn begin_put(&mut self, cell: OpCell, from: u32)
        requires at { self.old.index < length self.old.program }
        requires few { FewBefore self.old }
        requires from { from < length self.old.vars }
        requires owner { OwnerFits (length self.old.vars) cell }
        requires there { HasCell self.old.shape self.old.classes cell }
        requires held { is_there self.old.vars cell ≡ true }
        requires first { self.old.first ≡ true }
        ensures { (rest : Thread → Thread) → self.new ≡ begun_set from (cell_of cell self.old) self.old rest }
    {
        match self.cell_of(cell) {
            Some(cell) => self.begin_set(from, cell),
            None => unreachable!(),
        }
    }

    /// A reference is gained from the one in a variable; a nil one makes the destination nil.
    fn begin_from(&mut self, gain: Gain, to: u32, from: u32)
        requires at { self.old.index < length self.old.program }
        requires few { FewBefore self.old }
        requires to { to < length self.old.vars }
        requires from { from < length self.old.vars }
        requires held { (is_held (value self.old.vars from) || is_held (value self.old.vars to)) ≡ true }
        requires first { self.old.first ≡ true }
        ensures { (rest : Thread → Thread) → self.new ≡ begun_gain gain to (value self.old.vars from) (value self.old.vars to) self.old rest }
    {
        match self.vars[from as usize] {
            Some(held) => self.begin_gain(gain, to, Source::of(held)),
            None => self.begin_nil(to),
        }
    }

    /// The variable becomes nil, and what it held is dropped.
    fn begin_nil(&mut self, to: u32)
        requires to { to < length self.old.vars }
        requires held { is_held (value self.old.vars to) ≡ true }
        requires first { self.old.first ≡ true }
        ensures { (rest : Thread → Thread) → self.new ≡ begun_nil to (value self.old.vars to) self.old rest }
    {
        match self.vars[to as usize] {
            Some(old) => {
                self.put(Answer::Nil);
                self.vars[to as usize] = None;
                self.begin_drop(old);
            }
            None => unreachable!(),
        }
    }

    /// The reference goes to another variable, and what that held is dropped.
    fn begin_move(&mut self, to: u32, from: u32, held: Held)
        requires to { to < length self.old.vars }
        requires from { from < length self.old.vars }
        requires held { is_held (value self.old.vars to) ≡ true }
        requires first { self.old.first ≡ true }
        requires place { IsHeld self.old.layout.slots held }
        ensures { (rest : Thread → Thread) → self.new ≡ begun_move to from (Some held) (value self.old.vars to) self.old rest }
    {
        match self.vars[to as usize] {
            Some(old) => {
                self.put(Answer::Ok);
                self.vars[to as usize] = Some(held);
                self.vars[from as usize] = None;
                self.begin_drop(old);
            }
            None => unreachable!(),
        }
    }

    /// Drops the variables that aren't nil, one after the other, in the order of declaration.
    fn end_scope(&mut self)
        ensures { self.new ≡ scope_begun self.old }
    {
        match first_held(&self.vars) {
            None => self.end_thread(),
            Some(var) => match self.vars[var] {
                Some(held) => {
                    self.vars[var] = None;
                    self.begin_drop(held);
                }
                None => {}
            },
        }
    }

    /// Nothing is left to be done, but that thread 0 clears the globals in the order of declaration.
    fn end_thread(&mut self)
        ensures { self.new ≡ scope_over self.old }
    {
        if self.thread == 0 && self.cleared < self.shape.globals().len() as u32 {
            self.begin_clear();
        } else {
            self.doing = Doing::Ended;
            self.asked = Move::Ended;
        }
    }

    /// The operation is over, or a drop at the end of the scope or in the end section.
    pub(crate) fn next_op(&mut self)
        ensures { self.new ≡ next_op self.old }
    {
        self.doing = Doing::Ended;
        if self.index < self.program.len() {
            self.index += 1;
        }
        self.begin();
    }
}
