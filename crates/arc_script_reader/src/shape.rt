//! The shape of a heap, from the lines that say it.

ghost use Rattle.std.specs.Prelude.{◌≡◌, ◌≤◌, All, length, IfOk};
ghost use Rattle.arc_model.specs.Ranges.{SlotsFit, EntriesFit};
ghost use Rattle.arc_script.specs.declared.script.ClassDecl.{ClassDecl};
ghost use Rattle.arc_script.specs.Valid.{field_refs, class_refs, var_refs};

use arc_model::{Caps, ClassShape, RefShape, Shape};
use arc_script::{ClassDecl, FieldDecl, VarDecl};
use std::alloc::{AllocError, Global};

fn field_refs(alloc: Global, fields: &[FieldDecl]) -> Result<Vec<RefShape>, AllocError>
    ensures { IfOk result (λ v. v.items ≡ field_refs fields.now) }
{
    let mut refs = Vec::new(alloc);
    for field in fields {
        refs.push(RefShape {
            kind: field.kind,
            class: field.class,
        })?;
    }
    Ok(refs)
}

fn var_refs(alloc: Global, vars: &[VarDecl]) -> Result<Vec<RefShape>, AllocError>
    ensures { IfOk result (λ v. v.items ≡ var_refs vars.now) }
{
    let mut refs = Vec::new(alloc);
    for var in vars {
        refs.push(RefShape {
            kind: var.kind,
            class: var.class,
        })?;
    }
    Ok(refs)
}

fn class_refs(alloc: Global, classes: &[ClassDecl]) -> Result<Vec<ClassShape>, AllocError>
    ensures { IfOk result (λ v. v.items ≡ class_refs classes.now) }
{
    let mut shapes = Vec::new(alloc);
    for class in classes {
        let fields = field_refs(alloc, class.fields.as_slice())?;
        shapes.push(ClassShape {
            fields,
            immortal: class.immortal,
        })?;
    }
    Ok(shapes)
}

/// The shape of a heap for these classes and globals.
pub fn shape_of(
    alloc: Global,
    slots: u32,
    entries: u32,
    caps: Caps,
    classes: &[ClassDecl],
    globals: &[VarDecl],
) -> Result<Shape, AllocError>
    requires slots { SlotsFit slots }
    requires entries { EntriesFit entries }
    requires classes { length classes.now ≤ 64 }
    requires fields { All (λ (c : ClassDecl). length c.fields ≤ 8) classes.now }
    requires globals { length globals.now ≤ 64 }
    ensures { IfOk result (λ s. s ≡ record { slots = slots; entries = entries; caps = caps; classes = class_refs classes.now; globals = var_refs globals.now }) }
{
    let classes = class_refs(alloc, classes)?;
    let globals = var_refs(alloc, globals)?;
    Ok(Shape::new(slots, entries, caps, classes, globals).unwrap())
}
