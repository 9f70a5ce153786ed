//! The statuses, and the number of each as the program ends with it.

ghost use Rattle.std.specs.Prelude.{◌≡◌};
ghost use Rattle.arc.specs.Statuses.{number_of, EndsWith};

use std::process::ExitCode;

/// How a call of the program ended. This project's own.
#[derive(Clone, Copy, Debug, PartialEq, Eq)]
pub enum Status {
    /// The whole output went out.
    Done,
    /// A history has an event that isn't legal.
    NotLegal,
    /// The words of the command line ask for nothing that there is.
    Usage,
    /// The input failed.
    ReadFault,
    /// The output failed, and a part of it went out.
    WriteFault,
    /// The input is no script, or one that isn't served.
    Refused,
    /// The input is longer than the limit.
    TooLong,
    /// No memory was found.
    Memory,
}

impl Status {
    fn number(self) -> u8
        ensures { result ≡ number_of self }
    {
        match self {
            Status::Done => 0,
            Status::NotLegal => 1,
            Status::Usage => 2,
            Status::ReadFault => 3,
            Status::WriteFault => 4,
            Status::Refused => 5,
            Status::TooLong => 6,
            Status::Memory => 7,
        }
    }

    /// What the program ends with, by the table of statuses.
    pub fn code(self) -> ExitCode
        ensures { EndsWith result self }
    {
        ExitCode::from(self.number())
    }
}
