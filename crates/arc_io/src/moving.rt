//! The calls that read all of a source and write all to a sink.

ghost use Rattle.std.specs.Prelude.{◌≡◌, ◌+◌, ◌≤◌, vec_len, IfOk, OnOk, OnErr, IfSome, IsErrOf};
ghost use Rattle.std.specs.Io.KnownBytes.{Appends, IsAtEnd};
ghost use Rattle.arc_io.specs.Causes.{Rose, HasCause, CountsFault, next_count};
ghost use Rattle.arc_io.specs.Moved.{Took, TookAtMost, AppendsPrefix};

use crate::traits::{Failed, Sink, Source};
use std::alloc::Global;

/// How many bytes are asked for at a time.
const CHUNK: usize = 4096;

/// Why the input was not read to its end. This project's own.
#[derive(Clone, Copy, Debug, PartialEq, Eq)]
pub enum InFault {
    /// The source failed.
    Read,
    /// The input has more bytes than the limit.
    TooLong,
    /// No memory was found for the bytes.
    Memory,
}

/// Reads all the bytes that are left, at most `limit` of them. This project's own.
///
/// # Errors
///
/// `Read` where the source failed, and then its count of faults rose by one. `TooLong` where `limit` plus 1 bytes were
/// taken. `Memory` where none was found; at most `limit` bytes were taken then.
pub fn read_all<S: Source>(alloc: Global, source: &mut S, limit: usize) -> Result<Vec<u8>, InFault>
    ensures bytes { IfOk result (λ v. IfSome (S.left source.old) (λ left. v.items ≡ left)) }
    ensures end { OnOk result (IsAtEnd (S.left source.new)) }
    ensures limit { IfOk result (λ v. vec_len v ≤ limit) }

    // One byte past the limit was taken exactly where the answer says so.
    ensures too_long { IsErrOf result InFault.TooLong → Took (S.left source.old) (S.left source.new) (limit + 1) }
    ensures within { (result ≡ Err InFault.TooLong → ⊥) → TookAtMost (S.left source.old) (S.left source.new) limit }

    ensures later { S.faults source.old ≤ S.faults source.new }
    ensures fault { IsErrOf result InFault.Read → Rose (S.faults source.old) (S.faults source.new) }

    // One fault was counted exactly where the source failed, and none where it gave all or too many bytes.
    ensures counted { IsErrOf result InFault.Read → S.faults source.new ≡ next_count (S.faults source.old) }
    ensures uncounted { (result ≡ Err InFault.Read → ⊥) → S.faults source.new ≡ S.faults source.old }
{
    let mut bytes = Vec::new(alloc);
    let mut chunk = [0u8; CHUNK];
    'reading: loop {
        let room = limit - bytes.len();
        let asked = if room < CHUNK { room + 1 } else { CHUNK };
        let count = match source.read(&mut chunk[..asked]) {
            Ok(count) => count,
            Err(_) => return Err(InFault::Read),
        };
        if count == 0 {
            return Ok(bytes);
        }

        // Before the bytes are kept, so that want of memory never hides a byte past the limit.
        if count > room {
            return Err(InFault::TooLong);
        }
        if bytes.extend_from_slice(&chunk[..count]).is_err() {
            return Err(InFault::Memory);
        }
    }
}

/// Writes all of the bytes, piece by piece. Takes no memory. This project's own.
///
/// # Errors
///
/// `Failed` where the sink failed, and then its count of faults rose by one. A prefix of the bytes was appended, and not
/// all of them.
pub fn write_all<K: Sink>(sink: &mut K, bytes: &[u8]) -> Result<(), Failed>
    ensures ok { OnOk result (Appends (K.taken sink.old) (K.taken sink.new) bytes.now) }
    ensures prefix { OnErr result (AppendsPrefix (K.taken sink.old) (K.taken sink.new) bytes.now) }
    ensures cause { HasCause (K.faults sink.old) (K.faults sink.new) result }
    ensures count { CountsFault (K.faults sink.old) (K.faults sink.new) result }
{
    let mut at = 0;
    while at < bytes.len() {
        at += sink.write(&bytes[at..])?;
    }
    Ok(())
}
