//! Scripts, words and lines that the tests of reports share.

ghost use Rattle.std.specs.Prelude.{◌≡◌, ◌<◌, ◌≤◌, ◌/◌, true, length, IfOk};
ghost use Rattle.arc_bits.specs.Words.{unpacked};
ghost use Rattle.arc_rule.specs.declared.layout.Place.TheVariants.{Isa, Count, Link};
ghost use Rattle.arc_rule.specs.Bits.{is_set};
ghost use Rattle.arc_rule.specs.Places.{word_count};
ghost use Rattle.arc_rule.specs.Isa.{IsIsaWord, isa_name_of};
ghost use Rattle.arc_script.specs.Valid.{IsHeading};
ghost use Rattle.arc_report.specs.Words.{word_at, is_taken, is_entry_taken, EntryIsThere, AreFinalWords, ObjectsHaveClasses};

use arc_bits::{Word, unpack};
use arc_model::Memory;
use arc_rule::Layout;
use arc_script::Script;
use arc_script_reader::read_script;
use std::alloc::Global;

/// The script that the text says.
pub(crate) fn script_in(alloc: Global, text: &str) -> Result<Script, Memory>
    requires { length text.now ≤ 67108864 }
    ensures { IfOk result (λ s. IsHeading s.shape s.classes s.globals) }
{
    match read_script(alloc, text.as_bytes()) {
        Ok(script) => Ok(script),
        Err(_) => Err(Memory),
    }
}

fn is_set(thing: u32, bits: u64) -> bool
    ensures { result ≡ is_set thing bits }
{
    (bits >> (thing % 64)) % 2 == 1
}

fn is_readable(layout: &Layout, words: &[u64], slot: u32, classes: usize) -> bool
    requires slot { slot < layout.now.slots }
    requires whole { length words.now ≡ word_count layout.now }
    ensures name { result ≡ true → is_taken layout.now words.now slot ≡ true → IsIsaWord (word_at layout.now words.now (Isa slot)) }
    ensures class { result ≡ true → is_taken layout.now words.now slot ≡ true → (isa_name_of (word_at layout.now words.now (Isa slot))).class < classes }
    ensures entry { result ≡ true → is_taken layout.now words.now slot ≡ true → EntryIsThere layout.now (unpacked (word_at layout.now words.now (Count slot))) }
{
    if !is_set(slot, words[layout.slot_bits(slot) as usize]) {
        return true;
    }
    let isa = words[layout.isa_of(slot) as usize];
    let there = match unpack(words[layout.count_of(slot) as usize]) {
        Some(Word::Slow(entry)) => entry < layout.entries(),
        _ => true,
    };
    let class = isa % 256;
    isa < 1 << 48 && class < 64 && (class as usize) < classes && there
}

fn is_linked(layout: &Layout, words: &[u64], entry: u32) -> bool
    requires entry { entry < layout.now.entries }
    requires whole { length words.now ≡ word_count layout.now }
    ensures { result ≡ true → is_entry_taken layout.now words.now entry ≡ true → (1 ≤ word_at layout.now words.now (Link entry)) × (word_at layout.now words.now (Link entry) ≤ layout.now.slots) }
{
    let link = words[layout.link_of(entry) as usize];
    !is_set(entry, words[layout.entry_bits(entry) as usize])
        || (1 <= link && link <= u64::from(layout.slots()))
}

/// Whether a report of these words relies on nothing that they lack, for a script of so many classes.
pub(crate) fn are_readable(layout: &Layout, words: &[u64], classes: usize) -> bool
    ensures words { result ≡ true → AreFinalWords layout.now words.now }
    ensures classes { result ≡ true → ObjectsHaveClasses classes layout.now words.now }
{
    if words.len() != layout.words() as usize {
        return false;
    }
    for slot in 0..layout.slots() {
        if !is_readable(layout, words, slot, classes) {
            return false;
        }
    }
    for entry in 0..layout.entries() {
        if !is_linked(layout, words, entry) {
            return false;
        }
    }
    true
}
