//! A name: a letter, and at most 31 letters, digits and underscores behind it.

ghost use Rattle.std.specs.Prelude.{◌≡◌, ◌↔◌, IsTrue, IsSome, IfSome, IfOk};
ghost use Rattle.arc_text.specs.Words.{is_name};

use crate::words::is_name;
use std::alloc::{AllocError, Global};
use std::fmt;
use std::marker::Model;

/// A name of a script: an ASCII letter and at most 31 letters, digits and underscores. Seen as its bytes. This project's own.
#[derive(Debug, Drop)]
pub struct Name {
    text: String,
}

impl Model for Name {
    ghost use Rattle.std.specs.Prelude.{ℕ, List, IsTrue, string_bytes};
    ghost use Rattle.arc_text.specs.Words.{is_name};

    ghost Value = { List ℕ };

    ghost view = { λ n. string_bytes n.text };

    ghost invariant = { λ n. IsTrue (is_name (string_bytes n.text)) };
}

impl Name {
    /// The name of these bytes, or None exactly where they aren't spelled as a name.
    pub fn new(bytes: Vec<u8>) -> Option<Name>
        ensures some { IsSome result ↔ IsTrue (is_name bytes.items) }
        ensures bytes { IfSome result (λ name. name ≡ bytes.items) }
    {
        if !is_name(&bytes) {
            return None;
        }
        let Ok(text) = String::from_utf8(bytes) else {
            return None;
        };
        Some(Name { text })
    }

    /// The name's bytes.
    pub fn bytes(&self) -> &[u8]
        ensures { result.now ≡ self.now }
    {
        self.text.as_bytes()
    }

    /// The name as text.
    pub fn text(&self) -> &str
        ensures { result.now ≡ self.now }
    {
        self.text.as_str()
    }

    /// An equal name.
    pub fn copy(&self, alloc: Global) -> Result<Name, AllocError>
        ensures { IfOk result (λ name. name ≡ self.now) }
    {
        let text = String::from_str(alloc, self.text.as_str())?;
        Ok(Name { text })
    }
}

impl fmt::Display for Name {
    ghost use Rattle.std.specs.Prelude.{Some};

    ghost output = { λ n. Some n };

    fn fmt<W: fmt::Write>(&self, f: &mut fmt::Formatter<W>) -> fmt::Result {
        let text = self.text.as_str();
        write!(f, "{text}")
    }
}
