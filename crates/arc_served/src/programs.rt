//! The operations of a thread, phase by phase.

ghost use Rattle.std.specs.Prelude.{◌≡◌, ◌≤◌, length, map, count_by, sum_by, flat_map, IfOk};
ghost use Rattle.arc_script.specs.Valid.{op_count};
ghost use Rattle.arc_served.specs.Programs.{declared_of, phases_of, ops_in_first, vars_of, classes_of, is_new, new_count_of, new_count};
ghost use Rattle.std.specs.Option.{option_copied};

use arc_script::{Op, Script, ThreadDecl, VarDecl};
use sqlite_items::Items;

fn declared_of(script: &Script, thread: u32) -> Option<&ThreadDecl>
    ensures { option_copied result ≡ declared_of script.now thread }
{
    if thread == 0 {
        None
    } else {
        script.threads.get(thread as usize - 1)
    }
}

/// The operations of each phase of the thread; thread 0 has no phase.
pub fn phases_of(script: &Script, thread: u32) -> &[Items<Op>]
    ensures { result.now ≡ phases_of script.now thread }
{
    match declared_of(script, thread) {
        None => &[],
        Some(decl) => decl.phases.as_slice(),
    }
}

/// How many operations there are in the first phases.
pub fn ops_in_first(k: usize, phases: &[Items<Op>]) -> usize
    requires few { length (flat_map (λ ops. ops) phases.now) ≤ 100000 }
    ensures within { result ≤ length (flat_map (λ ops. ops) phases.now) }
    ensures count { result ≡ ops_in_first k phases.now }
{
    let mut count = 0;
    for i in 0..k.min(phases.len()) {
        count += phases[i].len();
    }
    count
}

/// The variables of the thread, as they are declared; thread 0 has none.
pub fn vars_of(script: &Script, thread: u32) -> &[VarDecl]
    ensures count { length result.now ≡ vars_of script.now thread }
    ensures classes { map (λ (v : VarDecl). v.class) result.now ≡ classes_of script.now thread }
{
    match declared_of(script, thread) {
        None => &[],
        Some(decl) => decl.vars.as_slice(),
    }
}

/// How many objects the threads may make.
pub fn new_count(threads: &[ThreadDecl]) -> usize
    requires few { op_count threads.now ≤ 100000 }
    ensures few { result ≤ 100000 }
    ensures count { result ≡ sum_by new_count_of threads.now }
{
    let mut count = 0;
    for thread in threads.iter() {
        count += new_count_of(thread);
    }
    count
}

fn new_count_of(thread: &ThreadDecl) -> usize
    requires few { sum_by (λ ops. length ops) thread.now.phases ≤ 100000 }
    ensures few { result ≤ sum_by (λ ops. length ops) thread.now.phases }
    ensures count { result ≡ new_count_of thread.now }
{
    let mut count = 0;
    for ops in thread.phases.as_slice().iter() {
        count += new_in(ops.as_slice());
    }
    count
}

fn new_in(ops: &[Op]) -> usize
    ensures few { result ≤ length ops.now }
    ensures count { result ≡ count_by is_new ops.now }
{
    ops.iter().filter(|op| is_new(op)).count()
}

fn is_new(op: &Op) -> bool
    ensures { result ≡ is_new op.now }
{
    match *op {
        Op::New { to: _, class: _ } => true,
        _ => false,
    }
}
