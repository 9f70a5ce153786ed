//! The operations of a thread in one list.

ghost use Rattle.std.specs.Prelude.{ℕ, ◌≡◌, ◌<◌, ◌≤◌, ◌+◌, ◌++◌, length, map, take, slice_get, flat_map, All, Some, IfOk};
ghost use Rattle.arc_script.specs.Valid.{begins_block};
ghost use Rattle.arc_script.specs.OneList.{in_one_list, moved_behind};
ghost use Rattle.arc_served.specs.Programs.{IsNumbered, ToFits, ordinal};

use arc_script::Op;
use sqlite_items::Items;
use std::alloc::{AllocError, Global};
use std::marker::Model;

/// The operations of a thread, phase by phase, each with its number.
#[derive(Debug, Drop)]
pub struct Program {
    ops: Vec<Op>,
    numbers: Vec<u32>,
}

impl Model for Program {
    ghost use Rattle.std.specs.Prelude.{List};
    ghost use Rattle.arc_script.specs.declared.script.Op.{Op};
    ghost use Rattle.arc_served.specs.Programs.{IsNumbered};

    ghost Value = { List Op };

    ghost view = { λ p. p.ops.items };

    ghost invariant = { λ p. IsNumbered p.ops.items p.numbers.items };
}

impl Program {
    /// The operations of these phases in one list.
    pub fn make(alloc: Global, phases: &[Items<Op>]) -> Result<Program, AllocError>
        requires few { length (flat_map (λ ops. ops) phases.now) ≤ 100000 }
        requires to { All (All ToFits) phases.now }
        ensures { IfOk result (λ program. program ≡ in_one_list 0 phases.now) }
    {
        let ops = program_in(alloc, phases)?;
        let numbers = numbers_in(alloc, &ops)?;
        Ok(Program { ops, numbers })
    }

    /// How many operations there are.
    pub fn len(&self) -> usize
        ensures { result ≡ length self.now }
    {
        self.ops.len()
    }

    /// The operation at this place.
    pub fn op(&self, at: usize) -> Op
        requires { at < length self.now }
        ensures { slice_get self.now at ≡ Some result }
    {
        self.ops[at]
    }

    /// Its number.
    pub fn number(&self, at: usize) -> u32
        requires { at < length self.now }
        ensures { result ≡ ordinal self.now at }
    {
        self.numbers[at]
    }
}

/// All operations of the phases, in their order.
fn program_in(alloc: Global, phases: &[Items<Op>]) -> Result<Vec<Op>, AllocError>
    requires few { length (flat_map (λ ops. ops) phases.now) ≤ 100000 }
    requires to { All (All ToFits) phases.now }
    ensures { IfOk result (λ ops. ops.items ≡ in_one_list 0 phases.now) }
{
    let mut program = Vec::new(alloc);
    for ops in phases.iter() {
        put_phase(&mut program, ops.as_slice())?;
    }
    Ok(program)
}

/// Behind the operations there are, those of one more phase.
fn put_phase(program: &mut Vec<Op>, ops: &[Op]) -> Result<(), AllocError>
    requires few { length program.old.items + length ops.now ≤ 100000 }
    requires to { All ToFits ops.now }
    ensures { IfOk result (λ done. program.new.items ≡ program.old.items ++ map (moved_behind (length program.old.items)) ops.now) }
{
    let before = program.len() as u32;
    for op in ops.iter() {
        program.push(moved_behind(before, *op))?;
    }
    Ok(())
}

/// So many operations stand before: the place behind a block is counted with them.
fn moved_behind(before: u32, op: Op) -> Op
    requires few { before ≤ 100000 }
    requires to { ToFits op }
    ensures { result ≡ moved_behind before op }
{
    match op {
        Op::IfNil { var, to } => Op::IfNil {
            var,
            to: before + to,
        },
        Op::IfSome { var, to } => Op::IfSome {
            var,
            to: before + to,
        },
        _ => op,
    }
}

fn numbers_in(alloc: Global, program: &[Op]) -> Result<Vec<u32>, AllocError>
    requires few { length program.now ≤ 100000 }
    ensures { IfOk result (λ numbers. IsNumbered program.now numbers.items) }
{
    let mut numbers = Vec::with_capacity(alloc, program.len())?;
    let mut number = 0;
    for op in program.iter() {
        if !begins_block(*op) {
            number += 1;
        }
        numbers.push(number)?;
    }
    Ok(numbers)
}

fn begins_block(op: Op) -> bool
    ensures { result ≡ begins_block op }
{
    match op {
        Op::IfNil { .. } => true,
        Op::IfSome { .. } => true,
        _ => false,
    }
}
