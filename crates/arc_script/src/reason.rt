//! The reasons for which a line is refused, by their numbers.

ghost use Rattle.std.specs.Prelude.{◌≡◌};
ghost use Rattle.arc_script.specs.Reasons.{reason_number};

use std::alloc::{AllocError, AllocFailed};

/// What is wrong with a line: the least of these that holds is its refusal.
#[derive(Clone, Copy, Debug, PartialEq, Eq)]
pub enum Reason {
    /// A byte that is no tab and not in 32 to 126.
    Byte,
    /// A first word that is unknown or doesn't stand at this place.
    FirstWord,
    /// A wrong number of words, or a field or cell without its parts.
    WordCount,
    /// A number that isn't spelled so or isn't in its range.
    Number,
    /// A name that isn't spelled so.
    Spelling,
    /// A name that its set has.
    Again,
    /// A class, field, global or variable that there isn't.
    Unknown,
    /// A word that is no kind, or a reference of another kind than the operation needs.
    Kind,
    /// Two references of different classes where they must agree.
    Classes,
    /// One variable where there must be two.
    SameVariable,
    /// One more than a limit allows, or a part that is.
    TooMany,
    /// A wide cap below strong cap plus 1, or below the unowned cap.
    WideCap,
    /// A weak field, global or variable of an immortal class.
    WeakImmortal,
    /// An `end` with no open block, or a line that may not stand while a block is open.
    OpenBlock,
}

impl Reason {
    /// The refusal's number, 1 to 14.
    pub fn number(self) -> u32
        ensures { result ≡ reason_number self }
    {
        match self {
            Reason::Byte => 1,
            Reason::FirstWord => 2,
            Reason::WordCount => 3,
            Reason::Number => 4,
            Reason::Spelling => 5,
            Reason::Again => 6,
            Reason::Unknown => 7,
            Reason::Kind => 8,
            Reason::Classes => 9,
            Reason::SameVariable => 10,
            Reason::TooMany => 11,
            Reason::WideCap => 12,
            Reason::WeakImmortal => 13,
            Reason::OpenBlock => 14,
        }
    }
}

/// Why a line could not be read.
#[derive(Clone, Copy, Debug, PartialEq, Eq)]
pub enum LineFault {
    Refused(Reason),
    Memory,
}

impl From<AllocError> for LineFault {
    ghost use Rattle.std.specs.Prelude.{◌≡◌};
    ghost use Rattle.arc_script.specs.declared.reason.LineFault.TheVariants.{Memory};

    ghost from_gives = { λ _ e. e ≡ Memory };

    fn from(_e: AllocError) -> LineFault {
        LineFault::Memory
    }
}

impl<T: Drop> From<AllocFailed<T>> for LineFault {
    ghost use Rattle.std.specs.Prelude.{◌≡◌};
    ghost use Rattle.arc_script.specs.declared.reason.LineFault.TheVariants.{Memory};

    ghost from_gives = { λ _ e. e ≡ Memory };

    fn from(_e: AllocFailed<T>) -> LineFault {
        LineFault::Memory
    }
}
