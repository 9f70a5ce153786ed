//! What a stepper asks for next.

ghost use Rattle.std.specs.Prelude.{ℕ, ◌≡◌, ◌<◌, ◌≤◌, false, All, length, position, replicate, slice_get, None, Some, IfOk};
ghost use Rattle.arc_model.specs.Shapes.{class_at};
ghost use Rattle.arc_script.specs.declared.script.Op.{Op};
ghost use Rattle.arc_script.specs.Valid.{begins_block};
ghost use Rattle.arc_served.specs.Programs.{VarsFit, OwnerFits, GoesForth};
ghost use Rattle.arc_ops.specs.Thread.{Thread, is_held};
ghost use Rattle.arc_ops.specs.Begins.{AsksAt, asks, is_there, block_goes_on, begun, begun_op, phase_end, skipped};
ghost use Rattle.arc_ops.specs.Steppers.{HeldFits};

use crate::stepper::Held;
use arc_model::Shape;
use arc_script::{Answer, Line, Op, OpCell};
use arc_served::{Lines, Program};
use std::alloc::{AllocError, Global};

/// Whether the class is immortal.
pub(crate) fn is_immortal(shape: &Shape, class: u32) -> bool
    ensures { result ≡ (class_at shape.now class).immortal }
{
    match shape.classes().get(class as usize) {
        Some(class) => class.immortal,
        None => false,
    }
}

/// The first operation from this one on that asks for a step, or the end of the phase. Those before it are done: their lines are put,
/// and what they move is moved.
pub(crate) fn first_asking(
    program: &Program,
    end: usize,
    vars: &mut Vec<Option<Held>>,
    index: usize,
    lines: &mut Lines,
) -> usize
    requires fit { All (VarsFit (length vars.old.items)) program.now }
    requires few { length program.now ≤ 100000 }
    requires end { end ≤ length program.now }
    requires index { index ≤ length program.now }
    requires blocks { (i : ℕ) (o : Op) → i < end → slice_get program.now i ≡ Some o → GoesForth i end o }
    ensures from { index ≤ result }
    ensures within { result ≤ length program.now }
    ensures count { length vars.new.items ≡ length vars.old.items }
    ensures held { (slots : ℕ) → All (HeldFits slots) vars.old.items → All (HeldFits slots) vars.new.items }
    ensures asks { result < end → AsksAt program.now vars.new.items result }
    ensures same { (t : Thread) → t.program ≡ program.now → phase_end t ≡ end → begun (record t { index = index; vars = vars.old.items; kept = lines.old }) ≡ begun (record t { index = result; vars = vars.new.items; kept = lines.new }) }
{
    let mut at = index;
    while at < end {
        let op = program.op(at);
        if let Some(on) = block_goes_on(op, at, vars) {
            at = on;
        } else {
            if asks(op, vars) {
                return at;
            }
            let answer = do_at_once(op, vars);
            lines.put(Line {
                operation: program.number(at),
                answer,
            });
            at += 1;
        }
    }
    at
}

/// Where the thread goes on that comes to a block at this place: in the block where that is run, else behind it.
fn block_goes_on(op: Op, at: usize, vars: &[Option<Held>]) -> Option<usize>
    requires fits { VarsFit (length vars.now) op }
    requires few { at < 100000 }
    ensures goes_on { result ≡ block_goes_on vars.now at op }
    ensures operation { result ≡ None → begins_block op ≡ false }
{
    match op {
        Op::IfNil { var, to } => {
            if is_held(vars[var as usize]) {
                Some(to as usize)
            } else {
                Some(at + 1)
            }
        }
        Op::IfSome { var, to } => {
            if is_held(vars[var as usize]) {
                Some(at + 1)
            } else {
                Some(to as usize)
            }
        }
        _ => None,
    }
}

/// Does an operation that asks for no step.
fn do_at_once(op: Op, vars: &mut Vec<Option<Held>>) -> Answer
    requires fits { VarsFit (length vars.old.items) op }
    requires asks { asks vars.old.items op ≡ false }
    requires operation { begins_block op ≡ false }
    ensures count { length vars.new.items ≡ length vars.old.items }
    ensures held { (slots : ℕ) → All (HeldFits slots) vars.old.items → All (HeldFits slots) vars.new.items }
    ensures done { (t : Thread) (rest : Thread → Thread) → t.vars ≡ vars.old.items → begun_op op t rest ≡ rest (record (skipped result t) { vars = vars.new.items }) }
{
    match op {
        Op::Move { to, from } => match vars[from as usize] {
            None => Answer::Nil,
            Some(held) => {
                vars[to as usize] = Some(held);
                vars[from as usize] = None;
                Answer::Ok
            }
        },
        _ => Answer::Nil,
    }
}

/// So many variables, all nil.
pub(crate) fn nil_vars(alloc: Global, count: usize) -> Result<Vec<Option<Held>>, AllocError>
    ensures { IfOk result (λ v. v.items ≡ replicate count None) }
{
    let mut vars = Vec::with_capacity(alloc, count)?;
    for _ in 0..count {
        vars.push(None)?;
    }
    Ok(vars)
}

/// Whether the operation asks for a step.
fn asks(op: Op, vars: &[Option<Held>]) -> bool
    requires { VarsFit (length vars.now) op }
    ensures { result ≡ asks vars.now op }
{
    match op {
        Op::New { to: _, class: _ } => true,
        Op::Copy { to, from } => is_held(vars[from as usize]) || is_held(vars[to as usize]),
        Op::Unown { to, of } => is_held(vars[of as usize]) || is_held(vars[to as usize]),
        Op::Load { to, of } => is_held(vars[of as usize]) || is_held(vars[to as usize]),
        Op::Move { to, from: _ } => is_held(vars[to as usize]),
        Op::Drop { var } => is_held(vars[var as usize]),
        Op::Get { to, cell } => is_there(cell, vars) || is_held(vars[to as usize]),
        Op::Set { cell, from: _ } => is_there(cell, vars),
        _ => false,
    }
}

/// Whether the cell is there: through an owner that is nil there is none.
fn is_there(cell: OpCell, vars: &[Option<Held>]) -> bool
    requires { OwnerFits (length vars.now) cell }
    ensures { result ≡ is_there vars.now cell }
{
    match cell {
        OpCell::Global(_) => true,
        OpCell::Field { owner, field: _ } => is_held(vars[owner as usize]),
    }
}

pub(crate) fn first_held(vars: &[Option<Held>]) -> Option<usize>
    ensures { result ≡ position is_held vars.now }
{
    vars.iter().position(|var| is_held(*var))
}

fn is_held(var: Option<Held>) -> bool
    ensures { result ≡ is_held var }
{
    match var {
        None => false,
        Some(_) => true,
    }
}
