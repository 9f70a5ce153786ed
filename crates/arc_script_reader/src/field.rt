//! The fields of a class line.

ghost use Rattle.std.specs.Prelude.{◌≡◌, ◌<◌, ◌^◌, ℕ, List, false, map, length, IsTrue, IfOk};
ghost use Rattle.std.specs.List.{list_any, list_all};
ghost use Rattle.arc_text.specs.Words.{is_name};
ghost use Rattle.arc_script.specs.Lookups.{is_among, has_repeat};
ghost use Rattle.arc_script_reader.specs.NameSets.{holds};
ghost use Rattle.arc_script.specs.Group.{group_names};
ghost use Rattle.arc_script.specs.HeadLines.{is_field_word, spelled_of, is_misspelled, lacks_class, lacks_kind, declared_of, is_weak_field};
ghost use Rattle.arc_script_reader.specs.Fields.{seen, name_of};

use crate::group::Group;
use crate::name_set::{add_name, has_name};
use arc_model::Kind;
use arc_script::{FieldDecl, is_weak, kind_of};
use arc_text::{Name, cut_at, is_name, marks_in};
use sqlite_items::Items;
use std::alloc::{AllocError, Global};
use std::collections::HashSet;

/// A field as it is spelled.
#[derive(Clone, Copy, Debug)]
pub struct FieldWord<'a> {
    name: &'a [u8],
    kind: &'a [u8],
    class: &'a [u8],
}

fn is_field_word(word: &[u8]) -> bool
    ensures { result ≡ is_field_word word.now }
{
    marks_in(word, b':') == 2
}

/// Whether each word has a field's three parts.
pub fn are_field_words(words: &[&[u8]]) -> bool
    ensures { result ≡ list_all is_field_word (map (λ w. w.now) words.now) }
{
    words.iter().all(|w| is_field_word(w))
}

fn field_word(word: &[u8]) -> FieldWord<'_>
    ensures { seen result ≡ spelled_of word.now }
{
    let (name, rest) = cut_at(word, b':');
    let (kind, class) = cut_at(rest, b':');
    FieldWord { name, kind, class }
}

/// The fields that the words spell.
pub fn field_words<'a>(alloc: Global, words: &[&'a [u8]]) -> Result<Vec<FieldWord<'a>>, AllocError>
    ensures { IfOk result (λ v. map seen v.items ≡ map spelled_of (map (λ w. w.now) words.now)) }
{
    let mut fields = Vec::new(alloc);
    for word in words {
        fields.push(field_word(word))?;
    }
    Ok(fields)
}

/// Whether a name of a field or of its class isn't spelled as one.
pub fn has_misspelled(fields: &[FieldWord]) -> bool
    ensures { result ≡ list_any is_misspelled (map seen fields.now) }
{
    fields.iter().any(|f| !is_name(f.name) || !is_name(f.class))
}

fn has_unplaced(group: &Group, fields: &[FieldWord]) -> bool
    requires { length group.now < 2 ^ 32 }
    ensures { result ≡ list_any (lacks_class (group_names group.now)) (map seen fields.now) }
{
    fields.iter().any(|f| group.place(f.class).is_none())
}

fn has_unnamed(group: &Group, names: &HashSet<&[u8]>, fields: &[FieldWord]) -> bool
    requires { (q : List ℕ) → holds names.now q ≡ is_among (group_names group.now) q }
    ensures { result ≡ list_any (lacks_class (group_names group.now)) (map seen fields.now) }
{
    fields.iter().any(|f| !has_name(names, f.class))
}

/// Whether a field's class isn't in the group. More fields than a class may have are looked up in a set.
pub fn has_unknown(alloc: Global, group: &Group, fields: &[FieldWord]) -> Result<bool, AllocError>
    requires { length group.now < 2 ^ 32 }
    ensures { IfOk result (λ b. b ≡ list_any (lacks_class (group_names group.now)) (map seen fields.now)) }
{
    if fields.len() <= 8 {
        return Ok(has_unplaced(group, fields));
    }
    let names = group.name_set(alloc)?;
    Ok(has_unnamed(group, &names, fields))
}

/// Whether a field's kind is none.
pub fn has_bad_kind(fields: &[FieldWord]) -> bool
    ensures { result ≡ list_any lacks_kind (map seen fields.now) }
{
    fields.iter().any(|f| kind_of(f.kind).is_none())
}

/// Whether a field's name stands twice.
pub fn has_repeat<'a>(alloc: Global, fields: &[FieldWord<'a>]) -> Result<bool, AllocError>
    ensures { IfOk result (λ b. b ≡ has_repeat (map name_of (map seen fields.now))) }
{
    let mut names = HashSet::new(alloc);
    for field in fields {
        if !add_name(&mut names, field.name)? {
            return Ok(true);
        }
    }
    Ok(false)
}

fn declared(alloc: Global, group: &Group, field: FieldWord) -> Result<FieldDecl, AllocError>
    requires named { IsTrue (is_name field.name.now) }
    requires few { length group.now < 2 ^ 32 }
    ensures { IfOk result (λ f. f ≡ declared_of (group_names group.now) (seen field.entry)) }
{
    let name = Name::new(Vec::from_slice(alloc, field.name)?).unwrap();
    let kind = kind_of(field.kind).unwrap_or(Kind::Strong);
    let class = group.place(field.class).unwrap_or(0);
    Ok(FieldDecl { name, kind, class })
}

/// Whether a field is a weak reference to an immortal class of the group.
pub fn has_weak_immortal(group: &Group, fields: &[FieldDecl]) -> bool
    ensures { result ≡ list_any (is_weak_field group.now) fields.now }
{
    fields
        .iter()
        .any(|f| is_weak(f.kind) && group.is_immortal(f.class))
}

/// The fields, each of a class and a kind that there are.
pub fn declare(
    alloc: Global,
    group: &Group,
    fields: &[FieldWord],
) -> Result<Items<FieldDecl>, AllocError>
    requires named { list_any is_misspelled (map seen fields.now) ≡ false }
    requires few { length group.now < 2 ^ 32 }
    ensures { IfOk result (λ v. v ≡ map (declared_of (group_names group.now)) (map seen fields.now)) }
{
    let mut all = Items::new(alloc);
    for field in fields {
        all.push(declared(alloc, group, *field)?)?;
    }
    Ok(all)
}
