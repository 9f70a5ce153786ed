//! Where and why a history text is refused.

use arc_script::Reason;
use std::alloc::{AllocError, AllocFailed};

/// Why a text could not be judged: its first line with a fault, counted from the first line of the history text, and the least number of a fault
/// that this line has, or no memory.
#[derive(Clone, Copy, Debug, PartialEq, Eq)]
pub enum CheckFault {
    Refused { line: u32, why: u32 },
    Memory,
}

impl From<AllocError> for CheckFault {
    ghost use Rattle.std.specs.Prelude.{◌≡◌};
    ghost use Rattle.arc_check.specs.declared.fault.CheckFault.TheVariants.{Memory};

    ghost from_gives = { λ _ e. e ≡ Memory };

    fn from(_e: AllocError) -> CheckFault {
        CheckFault::Memory
    }
}

impl<T: Drop> From<AllocFailed<T>> for CheckFault {
    ghost use Rattle.std.specs.Prelude.{◌≡◌};
    ghost use Rattle.arc_check.specs.declared.fault.CheckFault.TheVariants.{Memory};

    ghost from_gives = { λ _ e. e ≡ Memory };

    fn from(_e: AllocFailed<T>) -> CheckFault {
        CheckFault::Memory
    }
}

/// Why a line could not be read.
#[derive(Clone, Copy, Debug, PartialEq, Eq)]
pub enum LineFault {
    Refused(Reason),
    Memory,
}

impl From<AllocError> for LineFault {
    ghost use Rattle.std.specs.Prelude.{◌≡◌};
    ghost use Rattle.arc_check.specs.declared.fault.LineFault.TheVariants.{Memory};

    ghost from_gives = { λ _ e. e ≡ Memory };

    fn from(_e: AllocError) -> LineFault {
        LineFault::Memory
    }
}

impl LineFault {
    ghost use Rattle.std.specs.Prelude.{◌≡◌};
    ghost use Rattle.arc_check.specs.Reading.{at_line};

    /// The fault of a text whose line with this number has this one.
    pub fn at_line(self, line: u32) -> CheckFault
        ensures { result ≡ at_line line self }
    {
        match self {
            LineFault::Refused(reason) => CheckFault::Refused {
                line,
                why: reason.number(),
            },
            LineFault::Memory => CheckFault::Memory,
        }
    }
}
