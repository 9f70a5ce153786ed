//! What a source and a sink are, by their bytes and their counts of faults.

ghost use Rattle.std.specs.Prelude.{ℕ, ◌<◌, List, length, IfOk};
ghost use Rattle.std.specs.declared.option.Option.{Option};
ghost use Rattle.std.specs.Io.{ReadsAtMost, WritesAtMost};
ghost use Rattle.std.specs.Io.KnownBytes.{ReadConsumes, WriteAppends};
ghost use Rattle.arc_io.specs.Causes.{HasCause, CountsFault};

/// The answer of a source or a sink whose outside failed. Its count of faults has risen.
/// This project's own.
#[derive(Clone, Copy, Debug, PartialEq, Eq)]
pub struct Failed;

/// Bytes that come in, such as a script. This project's own.
pub trait Source {
    /// The bytes that are left, where the source tells them.
    ghost left: { Self → Option (List ℕ) };

    /// How many faults the source has counted. It never falls, and stands still at 2^64 - 1.
    ghost faults: { Self → ℕ };

    /// Gives the next bytes, as many as the answer says, at the front of `into`.
    ///
    /// `Ok(0)` for an `into` that is not empty means the end of the input.
    ///
    /// # Errors
    ///
    /// `Failed` where the count of faults rose by one in this call, and it rises at no other answer. Nothing was taken.
    fn read(&mut self, into: &mut [u8]) -> Result<usize, Failed>
        ensures bound { ReadsAtMost result into.new }
        ensures bytes { ReadConsumes (left self.old) (left self.new) result into.new }
        ensures cause { HasCause (faults self.old) (faults self.new) result }
        ensures count { CountsFault (faults self.old) (faults self.new) result };
}

/// Bytes that go out, such as a report. This project's own.
pub trait Sink {
    /// The bytes that were taken, where the sink tells them.
    ghost taken: { Self → Option (List ℕ) };

    /// How many faults the sink has counted. It never falls, and stands still at 2^64 - 1.
    ghost faults: { Self → ℕ };

    /// Takes the first bytes of a piece, as many as the answer says.
    ///
    /// # Errors
    ///
    /// `Failed` where the count of faults rose by one in this call, and it rises at no other answer. Nothing was taken.
    fn write(&mut self, piece: &[u8]) -> Result<usize, Failed>
        ensures bound { WritesAtMost result piece.now }
        ensures progress { IfOk result (λ n. 0 < length piece.now → 0 < n) }
        ensures bytes { WriteAppends (taken self.old) (taken self.new) result piece.now }
        ensures cause { HasCause (faults self.old) (faults self.new) result }
        ensures count { CountsFault (faults self.old) (faults self.new) result };
}
