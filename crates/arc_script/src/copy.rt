//! Copies of scripts and their parts.

ghost use Rattle.std.specs.Prelude.{◌≡◌, IfOk};

use crate::script::{ClassDecl, FieldDecl, Op, ThreadDecl, VarDecl};
use sqlite_items::Items;
use std::alloc::{AllocError, Global};

fn copied_fields(alloc: Global, fields: &[FieldDecl]) -> Result<Items<FieldDecl>, AllocError>
    ensures { IfOk result (λ v. v ≡ fields.now) }
{
    let mut copies = Items::new(alloc);
    for field in fields {
        copies.push(FieldDecl {
            name: field.name.copy(alloc)?,
            kind: field.kind,
            class: field.class,
        })?;
    }
    Ok(copies)
}

/// Equal classes.
pub fn copied_classes(alloc: Global, classes: &[ClassDecl]) -> Result<Items<ClassDecl>, AllocError>
    ensures { IfOk result (λ v. v ≡ classes.now) }
{
    let mut copies = Items::new(alloc);
    for class in classes {
        copies.push(ClassDecl {
            name: class.name.copy(alloc)?,
            immortal: class.immortal,
            fields: copied_fields(alloc, class.fields.as_slice())?,
        })?;
    }
    Ok(copies)
}

/// Equal variables or globals.
pub fn copied_vars(alloc: Global, vars: &[VarDecl]) -> Result<Items<VarDecl>, AllocError>
    ensures { IfOk result (λ v. v ≡ vars.now) }
{
    let mut copies = Items::new(alloc);
    for var in vars {
        copies.push(VarDecl {
            name: var.name.copy(alloc)?,
            kind: var.kind,
            class: var.class,
        })?;
    }
    Ok(copies)
}

fn copied_phases(alloc: Global, phases: &[Items<Op>]) -> Result<Items<Items<Op>>, AllocError>
    ensures { IfOk result (λ v. v ≡ phases.now) }
{
    let mut copies = Items::new(alloc);
    for ops in phases {
        copies.push(Items::from_slice(alloc, ops.as_slice())?)?;
    }
    Ok(copies)
}

/// Equal threads.
pub fn copied_threads(
    alloc: Global,
    threads: &[ThreadDecl],
) -> Result<Items<ThreadDecl>, AllocError>
    ensures { IfOk result (λ v. v ≡ threads.now) }
{
    let mut copies = Items::new(alloc);
    for thread in threads {
        copies.push(ThreadDecl {
            vars: copied_vars(alloc, thread.vars.as_slice())?,
            phases: copied_phases(alloc, thread.phases.as_slice())?,
        })?;
    }
    Ok(copies)
}
