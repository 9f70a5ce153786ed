//! The lines of a text.

ghost use Rattle.std.specs.Prelude.{◌≡◌, [], ◌∷◌, ◌<◌, length, position, MatchOption};
ghost use Rattle.std.specs.List.{after_first};
ghost use Rattle.std.specs.Iterator.{YieldsFirstRef, item_count};
ghost use Rattle.arc_text.specs.Words.{is_newline};
ghost use Rattle.arc_text.specs.Lines.{lines_of};

use std::marker::Model;

/// Where the first newline stands.
fn newline_in(text: &[u8]) -> Option<usize>
    ensures { result ≡ position is_newline text.now }
{
    text.iter().position(|b| *b == b'\n')
}

/// The first line of a text, and what stands behind it.
fn first_line(text: &[u8]) -> (&[u8], &[u8])
    requires { 0 < length text.now }
    ensures line { lines_of text.now ≡ result.0.now ∷ lines_of result.1.now }
    ensures rest { result.1.now ≡ after_first is_newline text.now }
{
    match newline_in(text) {
        Some(end) => (&text[..end], &text[end + 1..]),
        None => (text, &text[text.len()..]),
    }
}

/// The lines of a text. The last one may end without a newline. Seen as the bytes that are left.
#[derive(Drop)]
pub struct Lines<'a> {
    rest: &'a [u8],
}

impl<'a> Model for Lines<'a> {
    ghost use Rattle.std.specs.Prelude.{ℕ, List};

    ghost Value = { List ℕ };

    ghost view = { λ s. s.rest.now };
}

impl<'a> Lines<'a> {
    pub fn new(text: &'a [u8]) -> Lines<'a>
        ensures { result ≡ text.now }
    {
        Lines { rest: text }
    }

    /// The next line, without its newline.
    pub fn next_line(&mut self) -> Option<&'a [u8]>
        ensures { MatchOption result ((self.old ≡ []) × (self.new ≡ [])) (λ line. (lines_of self.old ≡ line.now ∷ lines_of self.new) × (self.new ≡ after_first is_newline self.old)) }
    {
        if self.rest.is_empty() {
            return None;
        }
        let (line, rest) = first_line(self.rest);
        self.rest = rest;
        Some(line)
    }

    /// The bytes that are left.
    pub fn rest(&self) -> &'a [u8]
        ensures { result.now ≡ self.now }
    {
        self.rest
    }
}

impl<'a> Iterator for Lines<'a> {
    type Item = &'a [u8];

    ghost next_gives = { YieldsFirstRef (λ s. lines_of s) };

    ghost remaining = { item_count (λ s. lines_of s) };

    fn next(&mut self) -> Option<&'a [u8]> {
        if self.rest.is_empty() {
            return None;
        }
        let (line, rest) = first_line(self.rest);
        self.rest = rest;
        Some(line)
    }
}
