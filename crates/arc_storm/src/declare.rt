//! What each generated script declares.

ghost use Rattle.std.specs.Prelude.{◌≡◌, ◌++◌, IsTrue, IfOk, OnOk};
ghost use Rattle.arc_text.specs.Words.{is_name};
ghost use Rattle.arc_script.specs.Valid.{field_refs, class_refs, var_refs};
ghost use Rattle.arc_storm.specs.Storm.{field, var, kid_fields, class, class_vars, storm_classes, storm_globals, storm_vars, storm_shape};

use arc_model::{Caps, ClassShape, Kind, RefShape, Shape};
use arc_script::{ClassDecl, FieldDecl, VarDecl};
use arc_text::Name;
use sqlite_items::Items;
use std::alloc::{AllocError, Global};

fn named(alloc: Global, bytes: &[u8]) -> Result<Name, AllocError>
    requires { IsTrue (is_name bytes.now) }
    ensures { IfOk result (λ name. name ≡ bytes.now) }
{
    let Some(name) = Name::new(Vec::from_slice(alloc, bytes)?) else {
        unreachable!()
    };
    Ok(name)
}

fn field(alloc: Global, name: &[u8], kind: Kind, class: u32) -> Result<FieldDecl, AllocError>
    requires { IsTrue (is_name name.now) }
    ensures { IfOk result (λ f. f ≡ field name.now kind class) }
{
    let name = named(alloc, name)?;
    Ok(FieldDecl { name, kind, class })
}

fn var(alloc: Global, name: &[u8], kind: Kind, class: u32) -> Result<VarDecl, AllocError>
    requires { IsTrue (is_name name.now) }
    ensures { IfOk result (λ v. v ≡ var name.now kind class) }
{
    let name = named(alloc, name)?;
    Ok(VarDecl { name, kind, class })
}

fn kid_fields(alloc: Global, kid: Option<u32>) -> Result<Items<FieldDecl>, AllocError>
    ensures { IfOk result (λ fields. fields ≡ kid_fields kid) }
{
    let mut fields = Items::new(alloc);
    match kid {
        Some(class) => {
            fields.push(field(alloc, b"kid", Kind::Strong, class)?)?;
            Ok(fields)
        }
        None => Ok(fields),
    }
}

fn class(alloc: Global, name: &[u8], kid: Option<u32>) -> Result<ClassDecl, AllocError>
    requires { IsTrue (is_name name.now) }
    ensures { IfOk result (λ c. c ≡ class name.now kid) }
{
    let name = named(alloc, name)?;
    let mut fields = kid_fields(alloc, kid)?;
    fields.push(field(alloc, b"peer", Kind::Unowned, 0)?)?;
    fields.push(field(alloc, b"seen", Kind::Weak, 0)?)?;
    Ok(ClassDecl {
        name,
        immortal: false,
        fields,
    })
}

/// The classes. Strong fields lead from each to the next alone.
pub fn classes(alloc: Global) -> Result<Items<ClassDecl>, AllocError>
    ensures { IfOk result (λ declared. declared ≡ storm_classes) }
{
    let mut classes = Items::new(alloc);
    classes.push(class(alloc, b"Top", Some(1))?)?;
    classes.push(class(alloc, b"Mid", Some(2))?)?;
    classes.push(class(alloc, b"Low", None)?)?;
    Ok(classes)
}

/// The globals, one of each class.
pub fn globals(alloc: Global) -> Result<Items<VarDecl>, AllocError>
    ensures { IfOk result (λ declared. declared ≡ storm_globals) }
{
    let mut globals = Items::new(alloc);
    globals.push(var(alloc, b"gt", Kind::Strong, 0)?)?;
    globals.push(var(alloc, b"gm", Kind::Strong, 1)?)?;
    globals.push(var(alloc, b"gl", Kind::Strong, 2)?)?;
    Ok(globals)
}

/// The variables of a class: two strong ones, an unowned one and a weak one.
fn push_vars(
    vars: &mut Items<VarDecl>,
    alloc: Global,
    class: u32,
    first: &[u8],
    second: &[u8],
    unowned: &[u8],
    weak: &[u8],
) -> Result<(), AllocError>
    requires first { IsTrue (is_name first.now) }
    requires second { IsTrue (is_name second.now) }
    requires unowned { IsTrue (is_name unowned.now) }
    requires weak { IsTrue (is_name weak.now) }
    ensures { OnOk result (vars.new ≡ vars.old ++ class_vars class first.now second.now unowned.now weak.now) }
{
    vars.push(var(alloc, first, Kind::Strong, class)?)?;
    vars.push(var(alloc, second, Kind::Strong, class)?)?;
    vars.push(var(alloc, unowned, Kind::Unowned, class)?)?;
    vars.push(var(alloc, weak, Kind::Weak, class)?)
}

/// The variables of each thread.
pub fn vars(alloc: Global) -> Result<Items<VarDecl>, AllocError>
    ensures { IfOk result (λ declared. declared ≡ storm_vars) }
{
    let mut vars = Items::new(alloc);
    push_vars(&mut vars, alloc, 0, b"t0", b"t1", b"tu", b"tw")?;
    push_vars(&mut vars, alloc, 1, b"m0", b"m1", b"mu", b"mw")?;
    push_vars(&mut vars, alloc, 2, b"l0", b"l1", b"lu", b"lw")?;
    Ok(vars)
}

fn field_shapes(alloc: Global, fields: &[FieldDecl]) -> Result<Vec<RefShape>, AllocError>
    ensures { IfOk result (λ v. v.items ≡ field_refs fields.now) }
{
    let mut shapes = Vec::new(alloc);
    for field in fields {
        shapes.push(RefShape {
            kind: field.kind,
            class: field.class,
        })?;
    }
    Ok(shapes)
}

fn class_shapes(alloc: Global, classes: &[ClassDecl]) -> Result<Vec<ClassShape>, AllocError>
    ensures { IfOk result (λ v. v.items ≡ class_refs classes.now) }
{
    let mut shapes = Vec::new(alloc);
    for class in classes {
        let fields = field_shapes(alloc, class.fields.as_slice())?;
        shapes.push(ClassShape {
            fields,
            immortal: class.immortal,
        })?;
    }
    Ok(shapes)
}

fn global_shapes(alloc: Global, globals: &[VarDecl]) -> Result<Vec<RefShape>, AllocError>
    ensures { IfOk result (λ v. v.items ≡ var_refs globals.now) }
{
    let mut shapes = Vec::new(alloc);
    for global in globals {
        shapes.push(RefShape {
            kind: global.kind,
            class: global.class,
        })?;
    }
    Ok(shapes)
}

/// The shape: as many slots and entries as a script may have, and the greatest caps.
pub fn shape(alloc: Global, classes: &[ClassDecl], globals: &[VarDecl]) -> Result<Shape, AllocError>
    requires classes { classes.now ≡ storm_classes }
    requires globals { globals.now ≡ storm_globals }
    ensures { IfOk result (λ s. s ≡ storm_shape) }
{
    let Ok(caps) = Caps::new(1_073_741_823, 2_147_483_647, 4_294_967_295) else {
        unreachable!()
    };
    let classes = class_shapes(alloc, classes)?;
    let globals = global_shapes(alloc, globals)?;
    let Ok(shape) = Shape::new(4096, 4096, caps, classes, globals) else {
        unreachable!()
    };
    Ok(shape)
}
