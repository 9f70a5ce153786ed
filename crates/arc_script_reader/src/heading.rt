//! The heading alone, as history texts have it.

ghost use Rattle.std.specs.Prelude.{◌≡◌, ◌+◌, ◌<◌, ◌≤◌, ◌^◌, length, map, IfOk};
ghost use Rattle.arc_text.specs.Lines.{lines_of};
ghost use Rattle.arc_script_reader.specs.Fronts.{front};
ghost use Rattle.arc_script_reader.specs.Heads.{Heads, is_behind, last_behind, end_behind};
ghost use Rattle.arc_script.specs.HeadingText.{may_end, heads, heading_keyword, headed_form, headed_line, heading_at, heading_of};
ghost use Rattle.arc_script.specs.Reading.{Reads};

use crate::reader::Reader;
use arc_script::{
    Heading, Keyword, LineFault, Place, ReadFault, Reason, is_heading_word, keyword_of, stands,
};
use arc_text::{Lines, are_plain, is_comment, words_of};
use std::alloc::{AllocError, Global};

/// What a line is to a heading.
#[derive(Clone, Copy, Debug, PartialEq, Eq)]
enum Taken {
    Passed,
    Entered,
    Behind,
}

fn is_behind(taken: Taken) -> bool
    ensures { result ≡ is_behind taken }
{
    matches!(taken, Taken::Behind)
}

/// The number of the line right behind the heading's last line, where the line with this number was taken so.
fn last_behind(taken: Taken, number: u32, last: u32) -> u32
    requires { number + 1 < 2 ^ 32 }
    ensures { result ≡ last_behind taken number last }
{
    match taken {
        Taken::Entered => number + 1,
        _ => last,
    }
}

/// The byte right behind the heading's last line, where the line before this byte was taken so.
fn end_behind(taken: Taken, here: usize, end: usize) -> usize
    ensures { result ≡ end_behind taken here end }
{
    match taken {
        Taken::Entered => here,
        _ => end,
    }
}

/// Whether a heading may end behind such a line. `caps`: the caps line must be there.
fn may_end(caps: bool, place: Place) -> bool
    ensures { result ≡ may_end caps place }
{
    match place {
        Place::Entries => !caps,
        Place::Caps | Place::Class | Place::Global => true,
        _ => false,
    }
}

/// Whether a line that begins so may come next in the heading.
fn heads(caps: bool, version: u32, place: Place, keyword: Keyword) -> bool
    ensures { result ≡ heads caps version place keyword }
{
    if !is_heading_word(keyword) || !stands(version, place, keyword) {
        return false;
    }
    !caps || !matches!(place, Place::Entries) || matches!(keyword, Keyword::Caps)
}

/// The keyword of a line that may come next in the heading.
fn heading_keyword(caps: bool, version: u32, place: Place, first: &[u8]) -> Option<Keyword>
    ensures { result ≡ heading_keyword caps version place first.now }
{
    match keyword_of(first) {
        Some(keyword) => {
            if heads(caps, version, place, keyword) {
                Some(keyword)
            } else {
                None
            }
        }
        None => None,
    }
}

fn take_words<'a>(
    alloc: Global,
    reader: &mut Reader<'a>,
    caps: bool,
    line: &[u8],
    first: &[u8],
    words: &[&'a [u8]],
    rest: &'a [u8],
) -> Result<Taken, LineFault>
    requires { length (lines_of rest.now) ≤ 67108864 }
    ensures { Heads result (headed_form caps (front reader.old) line.now first.now (map (λ w. w.now) words.now) (lines_of rest.now)) (front reader.old) (front reader.new) }
{
    let keyword = heading_keyword(caps, reader.head.version(), reader.place, first);
    if keyword.is_none() && may_end(caps, reader.place) {
        return Ok(Taken::Behind);
    }
    if !are_plain(line) {
        return Err(LineFault::Refused(Reason::Byte));
    }
    let Some(keyword) = keyword else {
        return Err(LineFault::Refused(Reason::FirstWord));
    };
    reader.take_heading(alloc, keyword, words, rest)?;
    Ok(Taken::Entered)
}

#[tactic(auto, unfolding(arc_script::specs::HeadingText::headed_line))]
fn take_line<'a>(
    alloc: Global,
    reader: &mut Reader<'a>,
    caps: bool,
    line: &'a [u8],
    rest: &'a [u8],
) -> Result<Taken, LineFault>
    requires { length (lines_of rest.now) ≤ 67108864 }
    ensures { Heads result (headed_line caps (front reader.old) line.now (lines_of rest.now)) (front reader.old) (front reader.new) }
{
    let words = words_of(alloc, line)?;
    match words.as_slice() {
        [] => Ok(Taken::Passed),
        [first, words @ ..] => {
            if is_comment(first) {
                return Ok(Taken::Passed);
            }
            take_words(alloc, reader, caps, line, first, words, rest)
        }
    }
}

fn finish(alloc: Global, reader: Reader, end: usize, line: u32) -> Result<Heading, AllocError>
    ensures { IfOk result (λ h. h ≡ heading_at end (record { head = (front reader.entry).head; line = line })) }
{
    let Reader { head, .. } = reader;
    let (shape, classes, globals) = head.into_parts(alloc)?;
    Ok(Heading {
        shape,
        classes,
        globals,
        end,
        line,
    })
}

/// The heading that begins at byte `at` of the text, on the line with number `line`: its lines from `slots` to its last class or
/// global, or to `caps` or `entries` where it has none. `caps` says that the caps line must be there. In version 2 there may be `immortal` lines. Once
/// `entries` was read, and `caps` where it must be there, the heading ends before the first line, those that are passed over apart,
/// whose first word can't stand there as a line of the heading. Refused as `read_script` is; Memory where there is none.
pub fn read_heading(
    alloc: Global,
    text: &[u8],
    at: usize,
    line: u32,
    version: u32,
    caps: bool,
) -> Result<Heading, ReadFault>
    requires small { length text.now ≤ 67108864 }
    requires within { at ≤ length text.now }
    requires numbered { line ≤ at + 1 }
    requires version { (1 ≤ version) × (version ≤ 2) }
    ensures { Reads result (heading_of text.now at line version caps) }
{
    let mut reader = Reader::new(alloc, version, Place::Version);
    let mut lines = Lines::new(&text[at..]);
    let mut number = line;
    let mut last = line;
    let mut end = at;
    'reading: while let Some(next) = lines.next_line() {
        match take_line(alloc, &mut reader, caps, next, lines.rest()) {
            Ok(taken) => {
                if is_behind(taken) {
                    return Ok(finish(alloc, reader, end, last)?);
                }
                last = last_behind(taken, number, last);
                end = end_behind(taken, text.len() - lines.rest().len(), end);
                number += 1;
            }
            Err(LineFault::Refused(reason)) => {
                return Err(ReadFault::Refused {
                    line: number,
                    why: reason.number(),
                });
            }
            Err(LineFault::Memory) => return Err(ReadFault::Memory),
        }
    }
    if !may_end(caps, reader.place) {
        return Err(ReadFault::Refused {
            line: number,
            why: Reason::FirstWord.number(),
        });
    }
    Ok(finish(alloc, reader, end, last)?)
}
