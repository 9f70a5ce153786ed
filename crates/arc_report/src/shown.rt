//! What is shown of an answer.

use arc_model::Got;
use std::fmt;

/// An object's name with its class in words.
#[derive(Clone, Copy, Debug)]
pub(crate) struct ObjectText<'a> {
    pub class: &'a str,
    pub thread: u32,
    pub number: u32,
}

/// A cell with its global in words.
#[derive(Clone, Copy, Debug)]
pub(crate) enum CellText<'a> {
    Field { slot: u32, field: u32 },
    Global(&'a str),
}

/// Where a reference is taken from, with a global in words.
#[derive(Clone, Copy, Debug)]
pub(crate) enum OriginText<'a> {
    Hand(u32),
    Cell(CellText<'a>),
}

/// What a load gave.
#[derive(Clone, Copy, Debug)]
pub(crate) struct GotText(pub Got);

/// A hand, or nil.
#[derive(Clone, Copy, Debug)]
pub(crate) struct HandText(pub Option<u32>);

impl fmt::Display for ObjectText<'_> {
    ghost use Rattle.std.specs.Prelude.{Some};
    ghost use Rattle.arc_report.specs.Shown.{shown_object};

    ghost output = { λ o. Some (shown_object o) };

    fn fmt<W: fmt::Write>(&self, f: &mut fmt::Formatter<W>) -> fmt::Result {
        let class = self.class;
        let thread = self.thread;
        let number = self.number;
        write!(f, "{class}#{thread}.{number}")
    }
}

impl fmt::Display for CellText<'_> {
    ghost use Rattle.std.specs.Prelude.{Some};
    ghost use Rattle.arc_report.specs.Shown.{shown_cell};

    ghost output = { λ c. Some (shown_cell c) };

    fn fmt<W: fmt::Write>(&self, f: &mut fmt::Formatter<W>) -> fmt::Result {
        match self {
            CellText::Field { slot, field } => write!(f, "{slot}.{field}"),
            CellText::Global(name) => write!(f, "@{name}"),
        }
    }
}

impl fmt::Display for OriginText<'_> {
    ghost use Rattle.std.specs.Prelude.{Some};
    ghost use Rattle.arc_report.specs.Shown.{shown_origin};

    ghost output = { λ o. Some (shown_origin o) };

    fn fmt<W: fmt::Write>(&self, f: &mut fmt::Formatter<W>) -> fmt::Result {
        match self {
            OriginText::Hand(hand) => write!(f, "{hand}"),
            OriginText::Cell(cell) => write!(f, "{cell}"),
        }
    }
}

impl fmt::Display for GotText {
    ghost use Rattle.std.specs.Prelude.{Some};
    ghost use Rattle.arc_report.specs.Events.{got_text};

    ghost output = { λ g. Some (got_text g.0) };

    fn fmt<W: fmt::Write>(&self, f: &mut fmt::Formatter<W>) -> fmt::Result {
        match self.0 {
            Got::Hand(hand) => write!(f, "{hand}"),
            Got::Dead => write!(f, "dead"),
            Got::Nil => write!(f, "nil"),
        }
    }
}

impl fmt::Display for HandText {
    ghost use Rattle.std.specs.Prelude.{Some};
    ghost use Rattle.arc_report.specs.Events.{hand_text};

    ghost output = { λ h. Some (hand_text h.0) };

    fn fmt<W: fmt::Write>(&self, f: &mut fmt::Formatter<W>) -> fmt::Result {
        match self.0 {
            Some(hand) => write!(f, "{hand}"),
            None => write!(f, "nil"),
        }
    }
}
