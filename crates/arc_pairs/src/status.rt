//! How the program of pairs ends.

/// How the program ended, and the status that it ends with. This project's own.
#[derive(Clone, Copy, Debug, PartialEq, Eq)]
pub enum Status {
    /// The output went out.
    Done = 0,
    /// The words of the command line ask for nothing that there is.
    Usage = 2,
    /// The clock could not be read.
    ReadFault = 3,
    /// The output failed.
    WriteFault = 4,
    /// No memory was found.
    Memory = 7,
}
