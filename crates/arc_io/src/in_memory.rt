//! Sources and sinks in memory, which fail at the calls that they are told to.

ghost use Rattle.std.specs.Prelude.{◌≡◌, ◌↔◌, ◌⊎◌, ◌<◌, min, [], length, Some, IsTrue, IsErr, IfOk};
ghost use Rattle.std.specs.Io.{ReadsAtMost, WritesAtMost};
ghost use Rattle.std.specs.Io.KnownBytes.{ReadConsumes, WriteAppends};
ghost use Rattle.arc_io.specs.Causes.{HasCause, CountsFault, next_count};
ghost use Rattle.arc_io.specs.InMemory.{IsListed, FindsNoRoom, room_left};

use crate::traits::{Failed, Sink, Source};
use std::alloc::Global;
use std::marker::Model;

/// No memory was found. This project's own.
#[derive(Clone, Copy, Debug, PartialEq, Eq)]
pub struct Memory;

/// A source over bytes in memory, whose calls of the listed numbers fail. This project's own.
#[derive(Debug, Drop)]
pub struct MemSource {
    bytes: Vec<u8>,
    at: usize,
    fails: Vec<u32>,
    most: usize,
    calls: u64,
    faults: u64,
}

impl Model for MemSource {
    ghost use Rattle.std.specs.Prelude.{◌≤◌, ◌<◌, drop, vec_len};
    ghost use Rattle.arc_io.specs.InMemory.{SourceState};

    ghost Value = { SourceState };

    ghost view = { λ s. record {
      left = drop s.at s.bytes.items;
      fails = s.fails.items;
      most = s.most;
      calls = s.calls;
      faults = s.faults;
    } };

    ghost invariant = { λ s. (s.at ≤ vec_len s.bytes) × (0 < s.most) };
}

impl MemSource {
    /// A source of these bytes. A call gives at most `most` of them, which is at least 1. `fails` has the
    /// numbers, from 1, of the calls that fail. Takes no memory.
    pub fn new(bytes: Vec<u8>, fails: Vec<u32>, most: usize) -> MemSource
        requires { 0 < most }
        ensures { result ≡ record { left = bytes.items; fails = fails.items; most = most; calls = 0; faults = 0 } }
    {
        MemSource {
            bytes,
            at: 0,
            fails,
            most,
            calls: 0,
            faults: 0,
        }
    }
}

impl Source for MemSource {
    ghost left = { λ s. Some s.left };

    ghost faults = { λ s. s.faults };

    fn read(&mut self, into: &mut [u8]) -> Result<usize, Failed>
        ensures bound { ReadsAtMost result into.new }
        ensures bytes { ReadConsumes (Some self.old.left) (Some self.new.left) result into.new }
        ensures cause { HasCause self.old.faults self.new.faults result }

        // The calls of the listed numbers fail, and no other.
        ensures number { self.new.calls ≡ next_count self.old.calls }
        ensures failing { IsErr result ↔ IsListed self.old.fails self.new.calls }
        ensures count { CountsFault self.old.faults self.new.faults result }

        ensures given { IfOk result (λ n. n ≡ min self.old.most (min (length into.old) (length self.old.left))) }
        ensures same_list { self.new.fails ≡ self.old.fails }
        ensures same_most { self.new.most ≡ self.old.most }
    {
        self.calls = self.calls.saturating_add(1);
        if is_listed(&self.fails, self.calls) {
            self.faults = self.faults.saturating_add(1);
            return Err(Failed);
        }
        let left = self.bytes.len() - self.at;
        let count = self.most.min(into.len()).min(left);
        let end = self.at + count;
        into[..count].copy_from_slice(&self.bytes[self.at..end]);
        self.at = end;
        Ok(count)
    }
}

/// A sink in memory with room for so many bytes, whose calls of the listed numbers fail, and its writes once the
/// room is used up. This project's own.
#[derive(Debug, Drop)]
pub struct MemSink {
    taken: Vec<u8>,
    room: usize,
    fails: Vec<u32>,
    most: usize,
    calls: u64,
    faults: u64,
}

impl Model for MemSink {
    ghost use Rattle.std.specs.Prelude.{◌≤◌, ◌<◌, vec_len, vec_capacity};
    ghost use Rattle.arc_io.specs.InMemory.{SinkState};

    ghost Value = { SinkState };

    ghost view = { λ s. record {
      taken = s.taken.items;
      room = s.room;
      fails = s.fails.items;
      most = s.most;
      calls = s.calls;
      faults = s.faults;
    } };

    ghost invariant = { λ s. (s.room ≤ vec_capacity s.taken) × (vec_len s.taken ≤ s.room) × (0 < s.most) };
}

impl MemSink {
    /// A sink with room for `room` bytes in all. A call takes at most `most` of them, which is at least 1. `fails`
    /// has the numbers, from 1, of the calls that fail.
    ///
    /// # Errors
    ///
    /// `Memory` where none was found for that many bytes.
    pub fn make(alloc: Global, room: usize, fails: Vec<u32>, most: usize) -> Result<MemSink, Memory>
        requires { 0 < most }
        ensures { IfOk result (λ sink. sink ≡ record {
          taken = [];
          room = room;
          fails = fails.items;
          most = most;
          calls = 0;
          faults = 0;
        }) }
    {
        let Ok(taken) = Vec::with_capacity(alloc, room) else {
            return Err(Memory);
        };
        Ok(MemSink {
            taken,
            room,
            fails,
            most,
            calls: 0,
            faults: 0,
        })
    }

    /// The bytes that were taken so far.
    pub fn taken(&self) -> &[u8]
        ensures { result.now ≡ self.now.taken }
    {
        &self.taken
    }
}

impl Sink for MemSink {
    ghost taken = { λ s. Some s.taken };

    ghost faults = { λ s. s.faults };

    fn write(&mut self, piece: &[u8]) -> Result<usize, Failed>
        ensures bound { WritesAtMost result piece.now }
        ensures progress { IfOk result (λ n. 0 < length piece.now → 0 < n) }
        ensures bytes { WriteAppends (Some self.old.taken) (Some self.new.taken) result piece.now }
        ensures cause { HasCause self.old.faults self.new.faults result }

        // The calls of the listed numbers fail, those that find no room for a piece, and no other.
        ensures number { self.new.calls ≡ next_count self.old.calls }
        ensures failing { IsErr result ↔ (IsListed self.old.fails self.new.calls ⊎ FindsNoRoom self.old piece.now) }
        ensures count { CountsFault self.old.faults self.new.faults result }

        ensures given { IfOk result (λ n. n ≡ min self.old.most (min (length piece.now) (room_left self.old))) }
        ensures same_list { self.new.fails ≡ self.old.fails }
        ensures same_most { self.new.most ≡ self.old.most }
        ensures same_room { self.new.room ≡ self.old.room }
    {
        self.calls = self.calls.saturating_add(1);
        let left = self.room - self.taken.len();
        if is_listed(&self.fails, self.calls) || (left == 0 && !piece.is_empty()) {
            self.faults = self.faults.saturating_add(1);
            return Err(Failed);
        }
        let count = self.most.min(piece.len()).min(left);
        match self.taken.extend_from_slice(&piece[..count]) {
            Ok(()) => Ok(count),
            Err(_) => unreachable!(),
        }
    }
}

/// Whether the call of this number is to fail.
fn is_listed(fails: &[u32], call: u64) -> bool
    ensures { IsTrue result ↔ IsListed fails.now call }
{
    u32::try_from(call).is_ok_and(|number| fails.contains(&number))
}
