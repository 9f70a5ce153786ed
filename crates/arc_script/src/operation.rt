//! What the words of an operation say.

ghost use Rattle.std.specs.Prelude.{◌≡◌, ◌≤◌, map, length};
ghost use Rattle.arc_script.specs.Reading.{ScopeFits};
ghost use Rattle.arc_script.specs.Valid.{begins_block, goes_to};
ghost use Rattle.arc_script.specs.OpLines.{new_of, drop_of, pair_kinds, needs_two, pair_op, pair_of, at_cell, get_of, set_of, block_op, block_of, op_of};

use crate::find::{
    cell_of, cell_ref, class_place, has_strong_owner, is_cell_spelled, is_cell_word, is_owner,
    ref_at, same_kind, var_place,
};
use crate::keyword::{BlockWord, Keyword, PairWord};
use crate::reason::Reason;
use crate::script::{ClassDecl, Op, OpCell, VarDecl};
use arc_model::Kind;
use arc_text::is_name;

fn new_of(classes: &[ClassDecl], vars: &[VarDecl], to: &[u8], class: &[u8]) -> Result<Op, Reason>
    requires few_classes { length classes.now ≤ 64 }
    requires few_vars { length vars.now ≤ 256 }
    ensures { result ≡ new_of classes.now vars.now to.now class.now }
{
    if !is_name(to) || !is_name(class) {
        return Err(Reason::Spelling);
    }
    let Some(to) = var_place(vars, to) else {
        return Err(Reason::Unknown);
    };
    let Some(class) = class_place(classes, class) else {
        return Err(Reason::Unknown);
    };
    let held = ref_at(vars, to);
    if !same_kind(held.kind, Kind::Strong) {
        return Err(Reason::Kind);
    }
    if held.class != class {
        return Err(Reason::Classes);
    }
    Ok(Op::New { to, class })
}

fn drop_of(vars: &[VarDecl], var: &[u8]) -> Result<Op, Reason>
    requires { length vars.now ≤ 256 }
    ensures { result ≡ drop_of vars.now var.now }
{
    if !is_name(var) {
        return Err(Reason::Spelling);
    }
    let Some(var) = var_place(vars, var) else {
        return Err(Reason::Unknown);
    };
    Ok(Op::Drop { var })
}

/// Whether the operation goes from a reference of this kind to one of that.
fn pair_kinds(word: PairWord, to: Kind, of: Kind) -> bool
    ensures { result ≡ pair_kinds word to of }
{
    match word {
        PairWord::Copy | PairWord::Move => same_kind(to, of),
        PairWord::Unown => same_kind(to, Kind::Unowned) && same_kind(of, Kind::Strong),
        PairWord::Weak => same_kind(to, Kind::Weak) && same_kind(of, Kind::Strong),
        PairWord::Load => same_kind(to, Kind::Strong) && !same_kind(of, Kind::Strong),
    }
}

fn needs_two(word: PairWord) -> bool
    ensures { result ≡ needs_two word }
{
    matches!(word, PairWord::Copy | PairWord::Move)
}

fn pair_op(word: PairWord, to: u32, of: u32) -> Op
    ensures { result ≡ pair_op word to of }
{
    match word {
        PairWord::Copy => Op::Copy { to, from: of },
        PairWord::Move => Op::Move { to, from: of },
        PairWord::Unown => Op::Unown { to, of },
        PairWord::Weak => Op::Weak { to, of },
        PairWord::Load => Op::Load { to, of },
    }
}

fn pair_of(vars: &[VarDecl], word: PairWord, to: &[u8], of: &[u8]) -> Result<Op, Reason>
    requires { length vars.now ≤ 256 }
    ensures { result ≡ pair_of vars.now word to.now of.now }
{
    if !is_name(to) || !is_name(of) {
        return Err(Reason::Spelling);
    }
    let Some(to) = var_place(vars, to) else {
        return Err(Reason::Unknown);
    };
    let Some(of) = var_place(vars, of) else {
        return Err(Reason::Unknown);
    };
    let target = ref_at(vars, to);
    let source = ref_at(vars, of);
    if !pair_kinds(word, target.kind, source.kind) {
        return Err(Reason::Kind);
    }
    if target.class != source.class {
        return Err(Reason::Classes);
    }
    if needs_two(word) && to == of {
        return Err(Reason::SameVariable);
    }
    Ok(pair_op(word, to, of))
}

/// A variable and a cell for references of one kind and class, each by its place, from 0.
#[derive(Clone, Copy, Debug)]
pub struct AtCell {
    pub var: u32,
    pub cell: OpCell,
}

fn at_cell(
    classes: &[ClassDecl],
    globals: &[VarDecl],
    vars: &[VarDecl],
    var: &[u8],
    cell: &[u8],
) -> Result<AtCell, Reason>
    requires { ScopeFits classes.now globals.now vars.now }
    ensures { result ≡ at_cell classes.now globals.now vars.now var.now cell.now }
{
    if !is_cell_word(cell) {
        return Err(Reason::WordCount);
    }
    if !is_name(var) || !is_cell_spelled(cell) {
        return Err(Reason::Spelling);
    }
    let Some(var) = var_place(vars, var) else {
        return Err(Reason::Unknown);
    };
    let Some(cell) = cell_of(classes, globals, vars, cell) else {
        return Err(Reason::Unknown);
    };
    let held = ref_at(vars, var);
    let kept = cell_ref(classes, globals, vars, cell);
    if !has_strong_owner(vars, cell) || !same_kind(held.kind, kept.kind) {
        return Err(Reason::Kind);
    }
    if held.class != kept.class {
        return Err(Reason::Classes);
    }
    Ok(AtCell { var, cell })
}

fn get_of(
    classes: &[ClassDecl],
    globals: &[VarDecl],
    vars: &[VarDecl],
    to: &[u8],
    cell: &[u8],
) -> Result<Op, Reason>
    requires { ScopeFits classes.now globals.now vars.now }
    ensures { result ≡ get_of classes.now globals.now vars.now to.now cell.now }
{
    match at_cell(classes, globals, vars, to, cell) {
        Ok(AtCell { var, cell }) => Ok(Op::Get { to: var, cell }),
        Err(reason) => Err(reason),
    }
}

fn set_of(
    classes: &[ClassDecl],
    globals: &[VarDecl],
    vars: &[VarDecl],
    cell: &[u8],
    from: &[u8],
) -> Result<Op, Reason>
    requires { ScopeFits classes.now globals.now vars.now }
    ensures { result ≡ set_of classes.now globals.now vars.now cell.now from.now }
{
    match at_cell(classes, globals, vars, from, cell) {
        Ok(AtCell { var, cell }) => {
            if is_owner(var, cell) {
                Err(Reason::SameVariable)
            } else {
                Ok(Op::Set { cell, from: var })
            }
        }
        Err(reason) => Err(reason),
    }
}

fn block_op(word: BlockWord, var: u32) -> Op
    ensures { result ≡ block_op word var }
{
    match word {
        BlockWord::IfNil => Op::IfNil { var, to: 0 },
        BlockWord::IfSome => Op::IfSome { var, to: 0 },
    }
}

fn block_of(vars: &[VarDecl], word: BlockWord, var: &[u8]) -> Result<Op, Reason>
    requires { length vars.now ≤ 256 }
    ensures { result ≡ block_of vars.now word var.now }
{
    if !is_name(var) {
        return Err(Reason::Spelling);
    }
    let Some(var) = var_place(vars, var) else {
        return Err(Reason::Unknown);
    };
    Ok(block_op(word, var))
}

/// Whether a block begins here.
pub fn begins_block(op: Op) -> bool
    ensures { result ≡ begins_block op }
{
    matches!(op, Op::IfNil { .. } | Op::IfSome { .. })
}

/// The same beginning of a block that goes to this place.
pub fn goes_to(to: u32, op: Op) -> Op
    ensures { result ≡ goes_to to op }
{
    match op {
        Op::IfNil { var, .. } => Op::IfNil { var, to },
        Op::IfSome { var, .. } => Op::IfSome { var, to },
        _ => op,
    }
}

/// The operation that a line says: its first word and the words behind it, read among these classes, globals and variables. Else
/// the least reason against it. This project's own.
pub fn op_of(
    classes: &[ClassDecl],
    globals: &[VarDecl],
    vars: &[VarDecl],
    keyword: Keyword,
    words: &[&[u8]],
) -> Result<Op, Reason>
    requires { ScopeFits classes.now globals.now vars.now }
    ensures { result ≡ op_of classes.now globals.now vars.now keyword (map (λ w. w.now) words.now) }
{
    match keyword {
        Keyword::New => match words {
            [to, class] => new_of(classes, vars, to, class),
            _ => Err(Reason::WordCount),
        },
        Keyword::Drop => match words {
            [var] => drop_of(vars, var),
            _ => Err(Reason::WordCount),
        },
        Keyword::Pair(word) => match words {
            [to, of] => pair_of(vars, word, to, of),
            _ => Err(Reason::WordCount),
        },
        Keyword::Get => match words {
            [to, cell] => get_of(classes, globals, vars, to, cell),
            _ => Err(Reason::WordCount),
        },
        Keyword::Set => match words {
            [cell, from] => set_of(classes, globals, vars, cell, from),
            _ => Err(Reason::WordCount),
        },
        Keyword::Block(word) => match words {
            [var] => block_of(vars, word, var),
            _ => Err(Reason::WordCount),
        },
        _ => Err(Reason::WordCount),
    }
}
