//! The canonical text of a script and of a heading.

ghost use Rattle.std.specs.Prelude.{◌≡◌, ◌<◌, ◌≤◌, ◌++◌, ◌∷◌, [], List, codes, map, take, drop, reverse, length, OnOk, IfOk};
ghost use Rattle.std.specs.List.{AllByRecursion, flat_map};
ghost use Rattle.std.specs.Fmt.{decimal};
ghost use Rattle.arc_script.specs.declared.script.FieldDecl.{FieldDecl};
ghost use Rattle.arc_script.specs.declared.script.VarDecl.{VarDecl};
ghost use Rattle.arc_script.specs.declared.script.Op.{Op};
ghost use Rattle.arc_script.specs.Valid.{name_at, class_names, var_names, IsCell, IsOp, AreFields, AreClasses, AreVars, IsThread, IsHeading, IsScript};
ghost use Rattle.arc_script.specs.Canonical.{kind_word, field_word, cell_word, numbers_line, shape_lines, class_word, class_line, decl_line, heading_text, pair_line, op_line, ends_here, ends_at, still_open, with_end, op_lines, later_phase, phase_lines, thread_lines, threads_lines, schedule_lines, spaced, line_text, text_of, canonical};

use arc_model::{Kind, Memory, Shape};
use arc_script::{
    ClassDecl, FieldDecl, Op, OpCell, Script, ThreadDecl, VarDecl, fields_at, ref_at,
};
use sqlite_items::Items;
use std::alloc::{AllocError, Global};
use std::io::Write;

fn put_word(out: &mut Vec<u8>, word: &[u8]) -> Result<(), AllocError>
    ensures { OnOk result (out.new.items ≡ out.old.items ++ spaced word.now) }
{
    out.push(b' ')?;
    out.extend_from_slice(word)
}

fn put_number(out: &mut Vec<u8>, number: u32) -> Result<(), AllocError>
    ensures { OnOk result (out.new.items ≡ out.old.items ++ spaced (decimal number)) }
{
    match write!(out, " {number}") {
        Ok(()) => Ok(()),
        Err(_) => Err(AllocError),
    }
}

fn put_line(out: &mut Vec<u8>, first: &[u8], words: &[&[u8]]) -> Result<(), AllocError>
    ensures { OnOk result (out.new.items ≡ out.old.items ++ line_text (first.now ∷ map (λ w. w.now) words.now)) }
{
    out.extend_from_slice(first)?;
    for word in words {
        put_word(out, word)?;
    }
    out.push(b'\n')?;
    Ok(())
}

fn put_numbers(out: &mut Vec<u8>, first: &[u8], numbers: &[u32]) -> Result<(), AllocError>
    ensures { OnOk result (out.new.items ≡ out.old.items ++ line_text (numbers_line first.now numbers.now)) }
{
    out.extend_from_slice(first)?;
    for number in numbers {
        put_number(out, *number)?;
    }
    out.push(b'\n')?;
    Ok(())
}

fn put_shape(out: &mut Vec<u8>, shape: &Shape) -> Result<(), AllocError>
    ensures { OnOk result (out.new.items ≡ out.old.items ++ text_of (shape_lines shape.now)) }
{
    let caps = shape.caps();
    put_numbers(out, b"slots", &[shape.slots()])?;
    put_numbers(out, b"entries", &[shape.entries()])?;
    put_numbers(out, b"caps", &[caps.strong(), caps.unowned(), caps.wide()])
}

fn kind_word(kind: Kind) -> &'static [u8]
    ensures { result.now ≡ kind_word kind }
{
    match kind {
        Kind::Strong => b"strong",
        Kind::Unowned => b"unowned",
        Kind::Weak => b"weak",
    }
}

fn put_field(out: &mut Vec<u8>, classes: &[ClassDecl], field: &FieldDecl) -> Result<(), AllocError>
    requires { field.now.class < length classes.now }
    ensures { OnOk result (out.new.items ≡ out.old.items ++ spaced (field_word classes.now field.now)) }
{
    put_word(out, field.name.bytes())?;
    out.push(b':')?;
    out.extend_from_slice(kind_word(field.kind))?;
    out.push(b':')?;
    out.extend_from_slice(classes[field.class as usize].name.bytes())
}

fn class_word(immortal: bool) -> &'static [u8]
    ensures { result.now ≡ class_word immortal }
{
    if immortal { b"immortal" } else { b"class" }
}

fn put_class(out: &mut Vec<u8>, classes: &[ClassDecl], class: &ClassDecl) -> Result<(), AllocError>
    requires { AllByRecursion (λ (f : FieldDecl). f.class < length classes.now) class.now.fields }
    ensures { OnOk result (out.new.items ≡ out.old.items ++ line_text (class_line classes.now class.now)) }
{
    out.extend_from_slice(class_word(class.immortal))?;
    put_word(out, class.name.bytes())?;
    for field in class.fields.as_slice() {
        put_field(out, classes, field)?;
    }
    out.push(b'\n')?;
    Ok(())
}

fn put_classes(out: &mut Vec<u8>, classes: &[ClassDecl]) -> Result<(), AllocError>
    requires { AreClasses classes.now }
    ensures { OnOk result (out.new.items ≡ out.old.items ++ text_of (map (class_line classes.now) classes.now)) }
{
    for class in classes {
        put_class(out, classes, class)?;
    }
    Ok(())
}

fn put_decl(
    out: &mut Vec<u8>,
    word: &[u8],
    classes: &[ClassDecl],
    var: &VarDecl,
) -> Result<(), AllocError>
    requires { var.now.class < length classes.now }
    ensures { OnOk result (out.new.items ≡ out.old.items ++ line_text (decl_line word.now classes.now var.now)) }
{
    out.extend_from_slice(word)?;
    put_word(out, var.name.bytes())?;
    put_word(out, kind_word(var.kind))?;
    put_word(out, classes[var.class as usize].name.bytes())?;
    out.push(b'\n')?;
    Ok(())
}

fn put_decls(
    out: &mut Vec<u8>,
    word: &[u8],
    classes: &[ClassDecl],
    vars: &[VarDecl],
) -> Result<(), AllocError>
    requires { AllByRecursion (λ (v : VarDecl). v.class < length classes.now) vars.now }
    ensures { OnOk result (out.new.items ≡ out.old.items ++ text_of (map (decl_line word.now classes.now) vars.now)) }
{
    for var in vars {
        put_decl(out, word, classes, var)?;
    }
    Ok(())
}

fn put_heading(
    out: &mut Vec<u8>,
    shape: &Shape,
    classes: &[ClassDecl],
    globals: &[VarDecl],
) -> Result<(), AllocError>
    requires { IsHeading shape.now classes.now globals.now }
    ensures { OnOk result (out.new.items ≡ out.old.items ++ heading_text shape.now classes.now globals.now) }
{
    put_shape(out, shape)?;
    put_classes(out, classes)?;
    put_decls(out, b"global", classes, globals)
}

fn put_cell(
    out: &mut Vec<u8>,
    classes: &[ClassDecl],
    globals: &[VarDecl],
    vars: &[VarDecl],
    cell: OpCell,
) -> Result<(), AllocError>
    requires { IsCell classes.now globals.now vars.now cell }
    ensures { OnOk result (out.new.items ≡ out.old.items ++ spaced (cell_word classes.now globals.now vars.now cell)) }
{
    match cell {
        OpCell::Field { owner, field } => {
            let fields = fields_at(classes, ref_at(vars, owner).class);
            put_word(out, vars[owner as usize].name.bytes())?;
            out.push(b'.')?;
            out.extend_from_slice(fields[field as usize].name.bytes())
        }
        OpCell::Global(global) => {
            out.extend_from_slice(b" @")?;
            out.extend_from_slice(globals[global as usize].name.bytes())
        }
    }
}

fn put_pair(
    out: &mut Vec<u8>,
    word: &[u8],
    vars: &[VarDecl],
    to: u32,
    of: u32,
) -> Result<(), AllocError>
    requires to { to < length vars.now }
    requires of { of < length vars.now }
    ensures { OnOk result (out.new.items ≡ out.old.items ++ line_text (pair_line word.now vars.now to of)) }
{
    let to = vars[to as usize].name.bytes();
    put_line(out, word, &[to, vars[of as usize].name.bytes()])
}

fn put_new(
    out: &mut Vec<u8>,
    classes: &[ClassDecl],
    vars: &[VarDecl],
    to: u32,
    class: u32,
) -> Result<(), AllocError>
    requires to { to < length vars.now }
    requires class { class < length classes.now }
    ensures { OnOk result (out.new.items ≡ out.old.items ++ line_text (codes "new" ∷ name_at (var_names vars.now) to ∷ name_at (class_names classes.now) class ∷ [])) }
{
    let to = vars[to as usize].name.bytes();
    put_line(out, b"new", &[to, classes[class as usize].name.bytes()])
}

fn put_get(
    out: &mut Vec<u8>,
    classes: &[ClassDecl],
    globals: &[VarDecl],
    vars: &[VarDecl],
    to: u32,
    cell: OpCell,
) -> Result<(), AllocError>
    requires to { to < length vars.now }
    requires cell { IsCell classes.now globals.now vars.now cell }
    ensures { OnOk result (out.new.items ≡ out.old.items ++ line_text (op_line classes.now globals.now vars.now (Op.Get to cell))) }
{
    out.extend_from_slice(b"get")?;
    put_word(out, vars[to as usize].name.bytes())?;
    put_cell(out, classes, globals, vars, cell)?;
    out.push(b'\n')?;
    Ok(())
}

fn put_set(
    out: &mut Vec<u8>,
    classes: &[ClassDecl],
    globals: &[VarDecl],
    vars: &[VarDecl],
    cell: OpCell,
    from: u32,
) -> Result<(), AllocError>
    requires from { from < length vars.now }
    requires cell { IsCell classes.now globals.now vars.now cell }
    ensures { OnOk result (out.new.items ≡ out.old.items ++ line_text (op_line classes.now globals.now vars.now (Op.Set cell from))) }
{
    out.extend_from_slice(b"set")?;
    put_cell(out, classes, globals, vars, cell)?;
    put_word(out, vars[from as usize].name.bytes())?;
    out.push(b'\n')?;
    Ok(())
}

fn put_op(
    out: &mut Vec<u8>,
    classes: &[ClassDecl],
    globals: &[VarDecl],
    vars: &[VarDecl],
    op: Op,
) -> Result<(), AllocError>
    requires { IsOp classes.now globals.now vars.now op }
    ensures { OnOk result (out.new.items ≡ out.old.items ++ line_text (op_line classes.now globals.now vars.now op)) }
{
    match op {
        Op::New { to, class } => put_new(out, classes, vars, to, class),
        Op::Copy { to, from } => put_pair(out, b"copy", vars, to, from),
        Op::Drop { var } => put_line(out, b"drop", &[vars[var as usize].name.bytes()]),
        Op::Move { to, from } => put_pair(out, b"move", vars, to, from),
        Op::Unown { to, of } => put_pair(out, b"unown", vars, to, of),
        Op::Weak { to, of } => put_pair(out, b"weak", vars, to, of),
        Op::Load { to, of } => put_pair(out, b"load", vars, to, of),
        Op::Get { to, cell } => put_get(out, classes, globals, vars, to, cell),
        Op::Set { cell, from } => put_set(out, classes, globals, vars, cell, from),
        Op::IfNil { var, .. } => put_line(out, b"ifnil", &[vars[var as usize].name.bytes()]),
        Op::IfSome { var, .. } => put_line(out, b"ifsome", &[vars[var as usize].name.bytes()]),
    }
}

/// Whether the inmost open block, the last one, ends at this place.
fn ends_here(ends: &Items<u32>, at: usize) -> bool
    ensures { result ≡ ends_here at (reverse ends.now) }
{
    match ends.as_slice() {
        [.., end] => *end as usize == at,
        [] => false,
    }
}

/// The blocks that end at this place.
fn put_ends(out: &mut Vec<u8>, ends: &mut Items<u32>, at: usize) -> Result<(), AllocError>
    ensures text { OnOk result (out.new.items ≡ out.old.items ++ text_of (ends_at at (reverse ends.old))) }
    ensures open { OnOk result (reverse ends.new ≡ still_open at (reverse ends.old)) }
{
    'ends: while ends_here(ends, at) {
        ends.pop();
        put_line(out, b"end", &[])?;
    }
    Ok(())
}

fn open_block(ends: &mut Items<u32>, op: Op) -> Result<(), AllocError>
    ensures { OnOk result (reverse ends.new ≡ with_end op (reverse ends.old)) }
{
    match op {
        Op::IfNil { to, .. } | Op::IfSome { to, .. } => ends.push(to),
        _ => Ok(()),
    }
}

fn put_ops(
    alloc: Global,
    out: &mut Vec<u8>,
    classes: &[ClassDecl],
    globals: &[VarDecl],
    vars: &[VarDecl],
    ops: &[Op],
) -> Result<(), AllocError>
    requires { AllByRecursion (IsOp classes.now globals.now vars.now) ops.now }
    ensures { OnOk result (out.new.items ≡ out.old.items ++ text_of (op_lines classes.now globals.now vars.now ops.now)) }
{
    let mut ends = Items::new(alloc);
    let mut at = 0;
    for op in ops {
        put_ends(out, &mut ends, at)?;
        put_op(out, classes, globals, vars, *op)?;
        open_block(&mut ends, *op)?;
        at += 1;
    }
    put_ends(out, &mut ends, at)
}

fn put_later(
    alloc: Global,
    out: &mut Vec<u8>,
    classes: &[ClassDecl],
    globals: &[VarDecl],
    vars: &[VarDecl],
    phases: &[Items<Op>],
) -> Result<(), AllocError>
    requires { AllByRecursion (λ (ops : List Op). AllByRecursion (IsOp classes.now globals.now vars.now) ops) phases.now }
    ensures { OnOk result (out.new.items ≡ out.old.items ++ text_of (flat_map (later_phase classes.now globals.now vars.now) phases.now)) }
{
    for ops in phases {
        put_line(out, b"phase", &[])?;
        put_ops(alloc, out, classes, globals, vars, ops.as_slice())?;
    }
    Ok(())
}

fn put_phases(
    alloc: Global,
    out: &mut Vec<u8>,
    classes: &[ClassDecl],
    globals: &[VarDecl],
    vars: &[VarDecl],
    phases: &[Items<Op>],
) -> Result<(), AllocError>
    requires { AllByRecursion (λ (ops : List Op). AllByRecursion (IsOp classes.now globals.now vars.now) ops) phases.now }
    ensures { OnOk result (out.new.items ≡ out.old.items ++ text_of (phase_lines classes.now globals.now vars.now phases.now)) }
{
    match phases {
        [] => Ok(()),
        [first, later @ ..] => {
            put_ops(alloc, out, classes, globals, vars, first.as_slice())?;
            put_later(alloc, out, classes, globals, vars, later)
        }
    }
}

fn put_thread(
    alloc: Global,
    out: &mut Vec<u8>,
    classes: &[ClassDecl],
    globals: &[VarDecl],
    number: u32,
    thread: &ThreadDecl,
) -> Result<(), AllocError>
    requires { IsThread classes.now globals.now thread.now }
    ensures { OnOk result (out.new.items ≡ out.old.items ++ text_of (thread_lines classes.now globals.now number thread.now)) }
{
    let vars = thread.vars.as_slice();
    put_numbers(out, b"thread", &[number])?;
    put_decls(out, b"var", classes, vars)?;
    put_phases(alloc, out, classes, globals, vars, thread.phases.as_slice())
}

fn put_threads(
    alloc: Global,
    out: &mut Vec<u8>,
    classes: &[ClassDecl],
    globals: &[VarDecl],
    threads: &[ThreadDecl],
) -> Result<(), AllocError>
    requires few { length threads.now ≤ 64 }
    requires threads { AllByRecursion (IsThread classes.now globals.now) threads.now }
    ensures { OnOk result (out.new.items ≡ out.old.items ++ text_of (threads_lines classes.now globals.now 1 threads.now)) }
{
    let mut number = 1;
    for thread in threads {
        put_thread(alloc, out, classes, globals, number, thread)?;
        number += 1;
    }
    Ok(())
}

/// The places of one line, and those behind them.
fn line_places(places: &[u32]) -> (&[u32], &[u32])
    ensures first { result.0.now ≡ take 32 places.now }
    ensures later { result.1.now ≡ drop 32 places.now }
{
    if places.len() < 32 {
        (places, &places[places.len()..])
    } else {
        (&places[..32], &places[32..])
    }
}

fn put_schedule(out: &mut Vec<u8>, places: &[u32]) -> Result<(), AllocError>
    ensures { OnOk result (out.new.items ≡ out.old.items ++ text_of (schedule_lines places.now)) }
{
    let mut rest = places;
    'lines: while !rest.is_empty() {
        let (first, later) = line_places(rest);
        put_numbers(out, b"schedule", first)?;
        rest = later;
    }
    Ok(())
}

/// The lines of a heading from `slots` on, as in the canonical text of a script.
pub fn write_heading(
    alloc: Global,
    shape: &Shape,
    classes: &[ClassDecl],
    globals: &[VarDecl],
) -> Result<Vec<u8>, Memory>
    requires { IsHeading shape.now classes.now globals.now }
    ensures { IfOk result (λ v. v.items ≡ heading_text shape.now classes.now globals.now) }
{
    let mut out = Vec::new(alloc);
    put_heading(&mut out, shape, classes, globals)?;
    Ok(out)
}

/// The one canonical text of a script: single spaces, no comments, always a `caps` line, the lines in the order of the grammar,
/// `schedule` lines of 32 places, and a newline after each line. `read_script` reads it back as the same script.
pub fn write_script(alloc: Global, script: &Script) -> Result<Vec<u8>, Memory>
    requires { IsScript script.now }
    ensures { IfOk result (λ v. v.items ≡ canonical script.now) }
{
    let mut out = Vec::new(alloc);
    let classes = script.classes.as_slice();
    let globals = script.globals.as_slice();
    put_numbers(&mut out, b"arc", &[script.version])?;
    put_heading(&mut out, &script.shape, classes, globals)?;
    put_threads(alloc, &mut out, classes, globals, script.threads.as_slice())?;
    put_schedule(&mut out, script.schedule.as_slice())?;
    put_line(&mut out, b"done", &[])?;
    Ok(out)
}
