//! Which scripts steppers serve.

ghost use Rattle.std.specs.Prelude.{◌≡◌, ◌↔◌, All, IsTrue};
ghost use Rattle.arc_side.specs.Inline.{IsCountedInline};
ghost use Rattle.arc_served.specs.Served.{IsServed, IsServedThread, IsServedOp, IsServedVar, IsServedRef, IsServedClass};

use arc_model::{Caps, ClassShape, Kind, RefShape};
use arc_script::{Op, Script, ThreadDecl, VarDecl};

fn is_served_op(op: &Op) -> bool
    ensures { IsTrue result ↔ IsServedOp op.now }
{
    match *op {
        Op::New { to: _, class: _ } => true,
        Op::Copy { to: _, from: _ } => true,
        Op::Move { to: _, from: _ } => true,
        Op::Drop { var: _ } => true,
        Op::Unown { to: _, of: _ } => true,
        Op::Load { to: _, of: _ } => true,
        Op::Get { to: _, cell: _ } => true,
        Op::Set { cell: _, from: _ } => true,
        Op::IfNil { .. } => true,
        Op::IfSome { .. } => true,
        _ => false,
    }
}

fn are_served_ops(ops: &[Op]) -> bool
    ensures { IsTrue result ↔ All IsServedOp ops.now }
{
    ops.iter().all(|op| is_served_op(op))
}

fn is_served_var(var: &VarDecl) -> bool
    ensures { IsTrue result ↔ IsServedVar var.now }
{
    is_served_kind(var.kind)
}

fn are_served_vars(vars: &[VarDecl]) -> bool
    ensures { IsTrue result ↔ All IsServedVar vars.now }
{
    vars.iter().all(|var| is_served_var(var))
}

fn is_served_thread(thread: &ThreadDecl) -> bool
    ensures { IsTrue result ↔ IsServedThread thread.now }
{
    let vars = are_served_vars(thread.vars.as_slice());
    let ops = thread
        .phases
        .as_slice()
        .iter()
        .all(|ops| are_served_ops(ops.as_slice()));
    vars && ops
}

fn are_served_threads(threads: &[ThreadDecl]) -> bool
    ensures { IsTrue result ↔ All IsServedThread threads.now }
{
    threads.iter().all(|thread| is_served_thread(thread))
}

fn is_served_kind(kind: Kind) -> bool
    ensures { IsTrue result ↔ IsCountedInline kind }
{
    match kind {
        Kind::Strong => true,
        Kind::Unowned => true,
        Kind::Weak => false,
    }
}

fn is_served_ref(field: &RefShape) -> bool
    ensures { IsTrue result ↔ IsServedRef field.now }
{
    is_served_kind(field.kind)
}

fn is_served_class(class: &ClassShape) -> bool
    ensures { IsTrue result ↔ IsServedClass class.now }
{
    class.fields.iter().all(|field| is_served_ref(field))
}

fn are_served_classes(classes: &[ClassShape]) -> bool
    ensures { IsTrue result ↔ All IsServedClass classes.now }
{
    classes.iter().all(|class| is_served_class(class))
}

fn are_greatest(caps: Caps) -> bool
    ensures { IsTrue result ↔ ((caps.strong ≡ 1073741823) × (caps.unowned ≡ 2147483647) × (caps.wide ≡ 4294967295)) }
{
    caps.strong() == 1_073_741_823 && caps.unowned() == 2_147_483_647 && caps.wide() == u32::MAX
}

/// Whether the script is one of those that are served so far: strong and unowned globals and fields, threads with strong and unowned
/// variables and the operations `new`, `copy`, `move`, `drop`, `unown`, `load`, `get` and `set`, in any blocks and phases and by any
/// schedule; and the greatest caps.
pub fn is_served(script: &Script) -> bool
    ensures { IsTrue result ↔ IsServed script.now }
{
    if !are_greatest(script.shape.caps()) {
        return false;
    }
    if !are_served_classes(script.shape.classes()) {
        return false;
    }
    are_served_vars(script.globals.as_slice()) && are_served_threads(script.threads.as_slice())
}
