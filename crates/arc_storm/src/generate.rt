//! The generator of large scripts. This project's own.

ghost use Rattle.std.specs.Prelude.{◌≡◌, ◌*◌, ◌%◌, ◌<◌, ◌≤◌, IfOk, OnOk};
ghost use Rattle.rand_pcg.specs.Pcg.{pcg32};
ghost use Rattle.arc_script.specs.Valid.{IsScript};
ghost use Rattle.arc_storm.specs.Storm.{after, link_cell, link_from, link_to, seen_cell, operation, operations, places, dealt, storm_thread, storm_threads, storm_script};

use crate::declare::{classes, globals, shape, vars};
use arc_model::Memory;
use arc_script::{Op, OpCell, Script, ThreadDecl};
use rand_core::SeedableRng;
use rand_core::utils::NextWord;
use rand_pcg::Lcg64Xsh32;
use sqlite_items::Items;
use std::alloc::{AllocError, Global};

/// The next word, modulo `limit`.
fn draw(rng: &mut Lcg64Xsh32, limit: u32) -> u32
    requires { 0 < limit }
    ensures value { result ≡ (pcg32 rng.old).0 % limit }
    ensures below { result < limit }
    ensures next { rng.new ≡ (pcg32 rng.old).1 }
{
    rng.next_word() % limit
}

/// The field that leads from a class to the next, or from the last one back to the first.
fn link_cell(class: u32) -> OpCell
    requires { class < 3 }
    ensures { result ≡ link_cell class }
{
    OpCell::Field {
        owner: 4 * class,
        field: 0,
    }
}

/// The variable that is set into that field.
fn link_from(class: u32) -> u32
    requires { class < 3 }
    ensures { result ≡ link_from class }
{
    if class < 2 { 4 * (class + 1) } else { 2 }
}

/// The variable that the field is read into.
fn link_to(class: u32) -> u32
    requires { class < 3 }
    ensures { result ≡ link_to class }
{
    if class < 2 { 4 * (class + 1) + 1 } else { 2 }
}

/// The weak field of a class.
fn seen_cell(class: u32) -> OpCell
    requires { class < 3 }
    ensures { result ≡ seen_cell class }
{
    OpCell::Field {
        owner: 4 * class,
        field: if class < 2 { 2 } else { 1 },
    }
}

/// The operation of a row of the table, on the variables of a class.
fn operation(row: u32, class: u32) -> Op
    requires rows { row < 14 }
    requires classes { class < 3 }
    ensures { result ≡ operation row class }
{
    let first = 4 * class;
    let second = first + 1;
    let unowned = first + 2;
    let weak = first + 3;
    let global = OpCell::Global(class);
    match row {
        0 => Op::New { to: first, class },
        1 => Op::New { to: second, class },
        2 => Op::Copy {
            to: second,
            from: first,
        },
        3 => Op::Drop { var: first },
        4 => Op::Unown {
            to: unowned,
            of: first,
        },
        5 => Op::Weak {
            to: weak,
            of: first,
        },
        6 => Op::Load {
            to: second,
            of: unowned,
        },
        7 => Op::Load {
            to: second,
            of: weak,
        },
        8 => Op::Get {
            to: first,
            cell: global,
        },
        9 => Op::Set {
            cell: global,
            from: second,
        },
        10 => Op::Set {
            cell: link_cell(class),
            from: link_from(class),
        },
        11 => Op::Set {
            cell: seen_cell(class),
            from: 3,
        },
        12 => Op::Get {
            to: link_to(class),
            cell: link_cell(class),
        },
        _ => Op::Drop { var: second },
    }
}

/// As many operations, of two words each.
fn draw_operations(alloc: Global, rng: &mut Lcg64Xsh32, count: u32) -> Result<Vec<Op>, AllocError>
    ensures operations { IfOk result (λ v. v.items ≡ operations rng.old count) }
    ensures next { OnOk result (rng.new ≡ after (2 * count) rng.old) }
{
    let mut operations = Vec::new(alloc);
    for i in 0..count {
        let row = draw(rng, 14);
        let class = draw(rng, 3);
        operations.push(operation(row, class))?;
    }
    Ok(operations)
}

/// As many places of the schedule, a word each.
fn draw_places(alloc: Global, rng: &mut Lcg64Xsh32, count: u32) -> Result<Items<u32>, AllocError>
    ensures { IfOk result (λ v. v ≡ places rng.old count) }
{
    let mut places = Items::new(alloc);
    for i in 0..count {
        places.push(1 + draw(rng, 16))?;
    }
    Ok(places)
}

/// The operations that a thread gets where all are dealt to sixteen threads in turn.
fn deal(alloc: Global, operations: &[Op], thread: usize) -> Result<Items<Op>, AllocError>
    ensures { IfOk result (λ ops. ops ≡ dealt operations.now thread) }
{
    let mut dealt = Items::new(alloc);
    for (i, operation) in operations.iter().enumerate() {
        if i % 16 == thread {
            dealt.push(*operation)?;
        }
    }
    Ok(dealt)
}

/// A thread of one phase.
fn thread(alloc: Global, operations: &[Op], thread: usize) -> Result<ThreadDecl, AllocError>
    ensures { IfOk result (λ t. t ≡ storm_thread operations.now thread) }
{
    let vars = vars(alloc)?;
    let mut phases = Items::new(alloc);
    phases.push(deal(alloc, operations, thread)?)?;
    Ok(ThreadDecl { vars, phases })
}

fn deal_threads(alloc: Global, operations: &[Op]) -> Result<Items<ThreadDecl>, AllocError>
    ensures { IfOk result (λ dealt. dealt ≡ storm_threads operations.now) }
{
    let mut threads = Items::new(alloc);
    for i in 0..16 {
        threads.push(thread(alloc, operations, i)?)?;
    }
    Ok(threads)
}

/// A valid script of `count` operations, 1 to 100,000, in sixteen threads of one phase, with four schedule places for each
/// operation. Its choices are the words of a Pcg32 generator that is seeded with `start`, so that the same numbers give the
/// same script. It takes time in proportion to `count`.
pub fn storm(alloc: Global, count: u32, start: u64) -> Result<Script, Memory>
    requires some { 1 ≤ count }
    requires few { count ≤ 100000 }
    ensures script { IfOk result (λ s. s ≡ storm_script count start) }
    ensures valid { IfOk result IsScript }
{
    let mut rng = Lcg64Xsh32::seed_from_u64(start);
    let operations = draw_operations(alloc, &mut rng, count)?;
    let schedule = draw_places(alloc, &mut rng, 4 * count)?;
    let classes = classes(alloc)?;
    let globals = globals(alloc)?;
    let shape = shape(alloc, classes.as_slice(), globals.as_slice())?;
    let threads = deal_threads(alloc, &operations)?;
    Ok(Script {
        version: 1,
        shape,
        classes,
        globals,
        threads,
        schedule,
    })
}
