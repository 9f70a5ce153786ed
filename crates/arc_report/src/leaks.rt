//! Which objects and entries a heap's words show to be left.

ghost use Rattle.std.specs.Prelude.{◌≡◌, ◌≤◌, ◌<◌, true, map, length, vec_len, All, IfOk, IsTrue};
ghost use Rattle.std.specs.List.{AllByRecursion};
ghost use Rattle.arc_rule.specs.Places.{word_count};
ghost use Rattle.arc_report.specs.Order.{in_order};
ghost use Rattle.arc_report.specs.Words.{is_taken, numbers_where, AreFinalWords};
ghost use Rattle.arc_report.specs.Leaks.{leak_at, leak_cmp, leaks_of, is_immortal, leak_count, IsLeak};

use arc_rule::{Layout, isa_name};
use arc_script::ClassDecl;
use std::alloc::{AllocError, Global};

/// An object that still has a slot.
#[derive(Clone, Copy, Debug, PartialEq, Eq, PartialOrd, Ord)]
pub(crate) struct Leak {
    pub thread: u32,
    pub number: u32,
    pub class: u32,
    pub slot: u32,
}

pub(crate) fn is_taken(layout: &Layout, words: &[u64], slot: u32) -> bool
    requires slot { slot < layout.now.slots }
    requires whole { length words.now ≡ word_count layout.now }
    ensures { result ≡ is_taken layout.now words.now slot }
{
    let bits = words[layout.slot_bits(slot) as usize];
    (bits >> (slot % 64)) % 2 == 1
}

fn leak_at(layout: &Layout, words: &[u64], slot: u32) -> Leak
    requires slot { slot < layout.now.slots }
    requires words { AreFinalWords layout.now words.now }
    requires taken { is_taken layout.now words.now slot ≡ true }
    ensures { result ≡ leak_at layout.now words.now slot }
{
    let name = isa_name(words[layout.isa_of(slot) as usize]);
    Leak {
        thread: name.thread,
        number: name.number,
        class: name.class,
        slot,
    }
}

fn taken_slots(alloc: Global, layout: &Layout, words: &[u64]) -> Result<Vec<Leak>, AllocError>
    requires { AreFinalWords layout.now words.now }
    ensures { IfOk result (λ v. v.items ≡ map (leak_at layout.now words.now) (numbers_where (is_taken layout.now words.now) layout.now.slots)) }
{
    let mut leaks = Vec::new(alloc);
    for slot in 0..layout.slots() {
        if is_taken(layout, words, slot) {
            leaks.push(leak_at(layout, words, slot))?;
        }
    }
    Ok(leaks)
}

fn sort_leaks(leaks: &mut Vec<Leak>)
    ensures { leaks.new.items ≡ in_order leak_cmp leaks.old.items }
{
    leaks.sort_unstable();
}

/// The objects that still have a slot, by thread and then by number.
pub(crate) fn leaks_of(
    alloc: Global,
    layout: &Layout,
    words: &[u64],
) -> Result<Vec<Leak>, AllocError>
    requires { AreFinalWords layout.now words.now }
    ensures leaks { IfOk result (λ v. v.items ≡ leaks_of layout.now words.now) }
    ensures each { IfOk result (λ v. AllByRecursion (IsLeak layout.now words.now) v.items) }
{
    let mut leaks = taken_slots(alloc, layout, words)?;
    sort_leaks(&mut leaks);
    Ok(leaks)
}

/// Whether the object is of an immortal class.
pub(crate) fn is_immortal(classes: &[ClassDecl], leak: &Leak) -> bool
    ensures { result ≡ is_immortal classes.now leak.now }
{
    match classes.get(leak.class as usize) {
        Some(class) => class.immortal,
        None => false,
    }
}

/// How many of these objects are leaks: all but those of immortal classes.
pub(crate) fn leak_count(classes: &[ClassDecl], leaks: &[Leak]) -> usize
    ensures { result ≡ leak_count classes.now leaks.now }
{
    leaks
        .iter()
        .filter(|leak| !is_immortal(classes, leak))
        .count()
}
