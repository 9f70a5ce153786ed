//! The lines of what is left.

ghost use Rattle.std.specs.Prelude.{◌≡◌, ◌++◌, ◌<◌, length, OnOk, IfOk};
ghost use Rattle.std.specs.String.{string_bytes};
ghost use Rattle.std.specs.List.{flat_map, AllByRecursion};
ghost use Rattle.arc_bits.specs.Words.{unpacked};
ghost use Rattle.arc_rule.specs.Places.{word_count};
ghost use Rattle.arc_report.specs.Words.{is_live, is_entry_taken, is_freed, AreFinalWords, EntryIsThere, ObjectsHaveClasses};
ghost use Rattle.arc_report.specs.Leaks.{counts_text, leak_text, freed_of, freed_text, IsLeak};
ghost use Rattle.arc_report.specs.Report.{left_text, left_total};

use crate::leaks::{Leak, is_immortal, is_taken, leak_count, leaks_of};
use crate::names::object_in;
use arc_bits::{Word, pack, unpack};
use arc_model::ObjectName;
use arc_rule::Layout;
use arc_script::ClassDecl;
use std::alloc::{AllocError, Global};

fn is_live(layout: &Layout, words: &[u64], found: Option<Word>) -> bool
    requires whole { length words.now ≡ word_count layout.now }
    requires entry { EntryIsThere layout.now found }
    ensures { result ≡ is_live layout.now words.now found }
{
    match found {
        Some(Word::Counts(counts)) => !counts.deiniting,
        Some(Word::Slow(entry)) => words[layout.strong_of(entry) as usize] != 0,
        Some(Word::Immortal) => true,
        Some(Word::Free) => false,
        None => false,
    }
}

fn put_counts(out: &mut String, layout: &Layout, words: &[u64], word: u64) -> Result<(), AllocError>
    requires whole { length words.now ≡ word_count layout.now }
    requires entry { EntryIsThere layout.now (unpacked word) }
    ensures { OnOk result (string_bytes out.new ≡ string_bytes out.old ++ counts_text layout.now words.now word) }
{
    let found = unpack(word);
    let state = if is_live(layout, words, found) {
        "live"
    } else {
        "deinited"
    };
    write!(out, "{state} {word:016x}")?;
    if let Some(Word::Slow(entry)) = found {
        let strong = words[layout.strong_of(entry) as usize];
        let unowned = words[layout.unowned_of(entry) as usize];
        let weak = words[layout.weak_of(entry) as usize];
        write!(out, " side {strong} {unowned} {weak}")?;
    }
    Ok(())
}

fn put_leak(
    out: &mut String,
    classes: &[ClassDecl],
    layout: &Layout,
    words: &[u64],
    leak: Leak,
) -> Result<(), AllocError>
    requires words { AreFinalWords layout.now words.now }
    requires classes { ObjectsHaveClasses (length classes.now) layout.now words.now }
    requires leak { IsLeak layout.now words.now leak }
    ensures { OnOk result (string_bytes out.new ≡ string_bytes out.old ++ leak_text classes.now layout.now words.now leak) }
{
    let name = ObjectName {
        class: leak.class,
        thread: leak.thread,
        number: leak.number,
    };
    let object = object_in(classes, name);
    if is_immortal(classes, &leak) {
        return writeln!(out, "immortal {object}");
    }
    write!(out, "leak {object} ")?;
    put_counts(
        out,
        layout,
        words,
        words[layout.count_of(leak.slot) as usize],
    )?;
    writeln!(out)
}

fn put_leaks(
    out: &mut String,
    classes: &[ClassDecl],
    layout: &Layout,
    words: &[u64],
    leaks: &[Leak],
) -> Result<(), AllocError>
    requires words { AreFinalWords layout.now words.now }
    requires classes { ObjectsHaveClasses (length classes.now) layout.now words.now }
    requires leaks { AllByRecursion (IsLeak layout.now words.now) leaks.now }
    ensures { OnOk result (string_bytes out.new ≡ string_bytes out.old ++ flat_map (leak_text classes.now layout.now words.now) leaks.now) }
{
    for leak in leaks {
        put_leak(out, classes, layout, words, *leak)?;
    }
    Ok(())
}

fn is_entry_taken(layout: &Layout, words: &[u64], entry: u32) -> bool
    requires entry { entry < layout.now.entries }
    requires whole { length words.now ≡ word_count layout.now }
    ensures { result ≡ is_entry_taken layout.now words.now entry }
{
    let bits = words[layout.entry_bits(entry) as usize];
    (bits >> (entry % 64)) % 2 == 1
}

fn is_freed(layout: &Layout, words: &[u64], entry: u32) -> bool
    requires entry { entry < layout.now.entries }
    requires words { AreFinalWords layout.now words.now }
    ensures { result ≡ is_freed layout.now words.now entry }
{
    if !is_entry_taken(layout, words, entry) {
        return false;
    }
    let slot = (words[layout.link_of(entry) as usize] - 1) as u32;
    !is_taken(layout, words, slot)
        || words[layout.count_of(slot) as usize] != pack(Word::Slow(entry))
}

/// The entries whose object has no slot any more, by number.
fn freed_of(alloc: Global, layout: &Layout, words: &[u64]) -> Result<Vec<u32>, AllocError>
    requires { AreFinalWords layout.now words.now }
    ensures freed { IfOk result (λ v. v.items ≡ freed_of layout.now words.now) }
    ensures each { IfOk result (λ v. AllByRecursion (λ entry. entry < layout.now.entries) v.items) }
{
    let mut freed = Vec::new(alloc);
    for entry in 0..layout.entries() {
        if is_freed(layout, words, entry) {
            freed.push(entry)?;
        }
    }
    Ok(freed)
}

fn put_freed(
    out: &mut String,
    layout: &Layout,
    words: &[u64],
    freed: &[u32],
) -> Result<(), AllocError>
    requires whole { length words.now ≡ word_count layout.now }
    requires freed { AllByRecursion (λ entry. entry < layout.now.entries) freed.now }
    ensures { OnOk result (string_bytes out.new ≡ string_bytes out.old ++ flat_map (freed_text layout.now words.now) freed.now) }
{
    for entry in freed {
        let weak = words[layout.weak_of(*entry) as usize];
        writeln!(out, "freed {entry} {weak}")?;
    }
    Ok(())
}

/// The lines of what is left, and how many leaks that is.
pub(crate) fn put_left(
    out: &mut String,
    alloc: Global,
    classes: &[ClassDecl],
    layout: &Layout,
    words: &[u64],
) -> Result<usize, AllocError>
    requires words { AreFinalWords layout.now words.now }
    requires classes { ObjectsHaveClasses (length classes.now) layout.now words.now }
    ensures text { IfOk result (λ n. string_bytes out.new ≡ string_bytes out.old ++ left_text classes.now layout.now words.now) }
    ensures total { IfOk result (λ n. n ≡ left_total classes.now layout.now words.now) }
{
    let leaks = leaks_of(alloc, layout, words)?;
    let freed = freed_of(alloc, layout, words)?;
    put_leaks(out, classes, layout, words, &leaks)?;
    put_freed(out, layout, words, &freed)?;
    Ok(leak_count(classes, &leaks) + freed.len())
}
