//! A line of an event: its number and the words behind it.

ghost use Rattle.std.specs.Prelude.{◌≡◌, IfOk, map, slice_index};
ghost use Rattle.std.specs.Char.{is_ascii_digit};
ghost use Rattle.arc_check.specs.EventForms.{event_form, event_line};
ghost use Rattle.arc_check.specs.EventTexts.{version_in, version_said, version_begun, threads_line, events_line, opening_form, opening_words, opening_line, done_line, told_form, told_words, told_line};
ghost use Rattle.arc_check.specs.Reading.{Gives};

use crate::act::{act_of, fits};
use crate::fault::LineFault;
use crate::numbers::step_in;
use crate::scope::Scope;
use crate::word::{EventWord, event_word_of};
use arc_model::Event;
use arc_script::Reason;
use arc_text::{are_plain, is_comment, number_in, words_of};
use std::alloc::{AllocError, Global};

/// An event of a history text: the number of its line, counted from the text's first line, the number of its step, which nothing
/// judges, and the event.
#[derive(Clone, Copy, Debug, PartialEq, Eq)]
pub struct EventLine {
    pub line: u32,
    pub step: u64,
    pub event: Event,
}

/// What a line between the heading and the events says.
#[derive(Clone, Copy, Debug, PartialEq, Eq)]
pub enum Opening {
    /// Nothing: the line is passed over.
    Passed,
    /// The number of threads.
    Threads(u32),
    /// The events come next, of so many threads.
    Events(u32),
}

/// What a line behind `events` says.
#[derive(Clone, Copy, Debug, PartialEq, Eq)]
pub enum Told {
    /// Nothing: the line is passed over.
    Passed,
    /// An event, with the number of its step.
    Event { step: u64, event: Event },
    /// The history has no more events.
    Done,
}

fn version_in(word: &[u8]) -> Option<u32>
    ensures { result ≡ version_in word.now }
{
    if word == b"1".as_slice() {
        Some(1)
    } else if word == b"2".as_slice() {
        Some(2)
    } else {
        None
    }
}

fn version_said(words: &[&[u8]]) -> Option<u32>
    ensures { result ≡ version_said (map (λ w. w.now) words.now) }
{
    match words {
        [first, second] => {
            if *first == b"history".as_slice() {
                version_in(second)
            } else {
                None
            }
        }
        _ => None,
    }
}

/// The version of the history text that begins with this line.
#[tactic(auto, unfolding(crate::specs::EventTexts::version_begun))]
pub fn version_begun(alloc: Global, line: &[u8]) -> Result<Option<u32>, AllocError>
    ensures { IfOk result (λ v. v ≡ version_begun line.now) }
{
    let words = words_of(alloc, line)?;
    Ok(version_said(&words))
}

fn threads_line(words: &[&[u8]]) -> Result<Opening, Reason>
    ensures { result ≡ threads_line (map (λ w. w.now) words.now) }
{
    let [number] = words else {
        return Err(Reason::WordCount);
    };
    let Some(threads) = number_in(number, 0, 64) else {
        return Err(Reason::Number);
    };
    Ok(Opening::Threads(threads))
}

fn events_line(threads: u32, words: &[&[u8]]) -> Result<Opening, Reason>
    ensures { result ≡ events_line threads (map (λ w. w.now) words.now) }
{
    match words {
        [] => Ok(Opening::Events(threads)),
        _ => Err(Reason::WordCount),
    }
}

fn opening_form(threads: Option<u32>, first: &[u8], words: &[&[u8]]) -> Result<Opening, Reason>
    ensures { result ≡ opening_form threads first.now (map (λ w. w.now) words.now) }
{
    match threads {
        None => {
            if first != b"threads".as_slice() {
                return Err(Reason::FirstWord);
            }
            threads_line(words)
        }
        Some(threads) => {
            if first != b"events".as_slice() {
                return Err(Reason::FirstWord);
            }
            events_line(threads, words)
        }
    }
}

fn opening_words(threads: Option<u32>, line: &[u8], words: &[&[u8]]) -> Result<Opening, Reason>
    ensures { result ≡ opening_words threads line.now (map (λ w. w.now) words.now) }
{
    match words {
        [] => Ok(Opening::Passed),
        [first, words @ ..] => {
            if is_comment(first) {
                return Ok(Opening::Passed);
            }
            if !are_plain(line) {
                return Err(Reason::Byte);
            }
            opening_form(threads, first, words)
        }
    }
}

/// What a line between the heading and the events says, once the number of threads was said or before.
#[tactic(auto, unfolding(crate::specs::EventTexts::opening_line))]
pub fn opening_line(alloc: Global, threads: Option<u32>, line: &[u8]) -> Result<Opening, LineFault>
    ensures { Gives result (opening_line threads line.now) }
{
    let words = words_of(alloc, line)?;
    match opening_words(threads, line, &words) {
        Ok(opening) => Ok(opening),
        Err(reason) => Err(LineFault::Refused(reason)),
    }
}

fn event_form(
    scope: &Scope,
    step: &[u8],
    thread: &[u8],
    word: EventWord,
    words: &[&[u8]],
) -> Result<Told, Reason>
    ensures { result ≡ event_form scope.now step.now thread.now word (map (λ w. w.now) words.now) }
{
    if !fits(word, words) {
        return Err(Reason::WordCount);
    }
    let Some(step) = step_in(step) else {
        return Err(Reason::Number);
    };
    let Some(thread) = scope.thread_in(thread) else {
        return Err(Reason::Number);
    };
    let act = act_of(scope, word, words)?;
    Ok(Told::Event {
        step,
        event: Event { thread, act },
    })
}

fn event_line(scope: &Scope, step: &[u8], words: &[&[u8]]) -> Result<Told, Reason>
    ensures { result ≡ event_line scope.now step.now (map (λ w. w.now) words.now) }
{
    let [thread, first, words @ ..] = words else {
        return Err(Reason::WordCount);
    };
    let Some(word) = event_word_of(first) else {
        return Err(Reason::FirstWord);
    };
    event_form(scope, step, thread, word, words)
}

fn done_line(words: &[&[u8]]) -> Result<Told, Reason>
    ensures { result ≡ done_line (map (λ w. w.now) words.now) }
{
    match words {
        [] => Ok(Told::Done),
        _ => Err(Reason::WordCount),
    }
}

/// Whether a line that begins with this word is an event's.
fn is_numbered(word: &[u8]) -> bool
    ensures { result ≡ is_ascii_digit (slice_index word.now 0) }
{
    match word {
        [] => false,
        [first, ..] => first.is_ascii_digit(),
    }
}

fn told_form(scope: &Scope, ended: bool, first: &[u8], words: &[&[u8]]) -> Result<Told, Reason>
    ensures { result ≡ told_form scope.now ended first.now (map (λ w. w.now) words.now) }
{
    if ended {
        return Err(Reason::FirstWord);
    }
    if first == b"done".as_slice() {
        return done_line(words);
    }
    if !is_numbered(first) {
        return Err(Reason::FirstWord);
    }
    event_line(scope, first, words)
}

fn told_words(scope: &Scope, ended: bool, line: &[u8], words: &[&[u8]]) -> Result<Told, Reason>
    ensures { result ≡ told_words scope.now ended line.now (map (λ w. w.now) words.now) }
{
    match words {
        [] => Ok(Told::Passed),
        [first, words @ ..] => {
            if is_comment(first) {
                return Ok(Told::Passed);
            }
            if !are_plain(line) {
                return Err(Reason::Byte);
            }
            told_form(scope, ended, first, words)
        }
    }
}

/// What a line behind `events` says, before `done` or behind it.
#[tactic(auto, unfolding(crate::specs::EventTexts::told_line))]
pub fn told_line(alloc: Global, scope: &Scope, ended: bool, line: &[u8]) -> Result<Told, LineFault>
    ensures { Gives result (told_line scope.now ended line.now) }
{
    let words = words_of(alloc, line)?;
    match told_words(scope, ended, line, &words) {
        Ok(told) => Ok(told),
        Err(reason) => Err(LineFault::Refused(reason)),
    }
}
