//! Tests with readers and writers of the host that fail, stop or give little.

use super::*;
use std::alloc::{AllocError, Global};
use std::io;
use std::test::*;

#[test]
fn a_source_is_read_in_pieces_up_to_the_limit(rt: HostRuntime) -> Result<(), Fail> {
    let alloc = rt.alloc();
    let mut source = MemSource::new(b"hello".to_vec(alloc)?, Vec::new(alloc), 2);
    let bytes = read_all(alloc, &mut source, 5).ok().ok_or("a fault")?;
    assert_eq!(rt; bytes.as_slice(), b"hello".as_slice());
    let mut source = MemSource::new(b"hello".to_vec(alloc)?, Vec::new(alloc), 2);
    assert!(rt; matches!(read_all(alloc, &mut source, 4), Err(InFault::TooLong)));
    Ok(())
}

#[test]
fn a_second_write_that_fails_leaves_a_prefix(rt: HostRuntime) -> Result<(), Fail> {
    let alloc = rt.alloc();
    let mut sink = MemSink::make(alloc, 100, vec![in alloc; 2]?, 10)
        .ok()
        .ok_or("no memory")?;
    assert!(rt; write_all(&mut sink, b"report 1\nthread 1\n").is_err());
    assert_eq!(rt; sink.taken(), b"report 1\nt".as_slice());
    assert!(rt; write_all(&mut sink, b"hread 1\n").is_ok());
    assert_eq!(rt; sink.taken(), b"report 1\nthread 1\n".as_slice());
    Ok(())
}

#[test]
fn a_sink_whose_room_is_used_up_fails(rt: HostRuntime) -> Result<(), Fail> {
    let alloc = rt.alloc();
    let mut sink = MemSink::make(alloc, 4, Vec::new(alloc), 3)
        .ok()
        .ok_or("no memory")?;
    assert!(rt; write_all(&mut sink, b"12345").is_err());
    assert_eq!(rt; sink.taken(), b"1234".as_slice());
    assert!(rt; sink.write(b"") == Ok(0));
    Ok(())
}

/// The bytes that a reader gives in all: each byte tells its place.
fn told_bytes(alloc: Global, count: usize) -> Result<Vec<u8>, AllocError> {
    (0..count).map(|at| (at % 251) as u8).collect(alloc)
}

/// Gives bytes, at most so many a call, and fails at the call of this number, and at no other.
#[derive(Drop)]
struct FailsOnce<'a> {
    bytes: &'a [u8],
    most: usize,
    failing: u32,
    calls: u32,
}

impl io::Read for FailsOnce<'_> {
    fn read(&mut self, into: &mut [u8]) -> io::Result<usize> {
        self.calls = self.calls.saturating_add(1);
        if self.calls == self.failing {
            return Err(io::Error::from(io::ErrorKind::Other));
        }
        let count = self.most.min(into.len()).min(self.bytes.len());
        let (given, rest) = self.bytes.split_at(count);
        into[..count].copy_from_slice(given);
        self.bytes = rest;
        Ok(count)
    }
}

#[test]
fn a_reader_that_fails_at_each_call_in_turn_goes_on(rt: HostRuntime) -> Result<(), Fail> {
    let alloc = rt.alloc();
    let all = told_bytes(alloc, 10_000)?;
    for (failing, before) in [(1, 0), (2, 4096), (3, 8192), (4, 10_000)] {
        let mut source = StdSource::new(FailsOnce {
            bytes: all.as_slice(),
            most: 5000,
            failing,
            calls: 0,
        });
        assert!(rt;
            matches!(read_all(alloc, &mut source, 10_000), Err(InFault::Read)),
            "at call {failing}"
        );
        let rest = read_all(alloc, &mut source, 10_000)
            .ok()
            .ok_or("a second fault")?;
        assert!(rt;
            Some(rest.as_slice()) == all.get(before..),
            "behind call {failing}"
        );
    }
    Ok(())
}

#[test]
fn a_piece_of_more_than_64_kib_is_read_in_one_call(rt: HostRuntime) -> Result<(), Fail> {
    let alloc = rt.alloc();
    let all = told_bytes(alloc, 70_000)?;
    let mut source = StdSource::new(FailsOnce {
        bytes: all.as_slice(),
        most: 70_000,
        failing: 1,
        calls: 0,
    });
    let mut piece = vec![in alloc; 0u8; 70_000]?;
    assert!(rt; source.read(&mut piece) == Err(Failed));
    assert!(rt; source.read(&mut piece) == Ok(70_000));
    assert!(rt; piece == all);
    assert!(rt; source.read(&mut piece) == Ok(0));
    Ok(())
}

/// Takes bytes, at most so many a call, and at the call of this number fails, or takes nothing.
#[derive(Drop)]
struct StopsOnce<'a> {
    taken: &'a mut Vec<u8>,
    most: usize,
    stopping: u32,
    fails: bool,
    calls: u32,
}

impl io::Write for StopsOnce<'_> {
    fn write(&mut self, piece: &[u8]) -> io::Result<usize> {
        self.calls = self.calls.saturating_add(1);
        if self.calls == self.stopping && self.fails {
            return Err(io::Error::from(io::ErrorKind::Other));
        }
        if self.calls == self.stopping {
            return Ok(0);
        }
        let count = self.most.min(piece.len());
        match self.taken.extend_from_slice(&piece[..count]) {
            Ok(()) => Ok(count),
            Err(_) => Err(io::Error::from(io::ErrorKind::OutOfMemory)),
        }
    }

    fn flush(&mut self) -> io::Result<()> {
        Ok(())
    }
}

#[test]
fn a_writer_that_stops_at_each_call_in_turn_goes_on(rt: HostRuntime) -> Result<(), Fail> {
    let alloc = rt.alloc();
    let all = told_bytes(alloc, 150_000)?;
    for (stopping, before, fails) in [
        (1, 0, true),
        (2, 70_000, true),
        (3, 140_000, true),
        (1, 0, false),
        (2, 70_000, false),
        (3, 140_000, false),
    ] {
        let mut taken = Vec::new(alloc);
        let mut sink = StdSink::new(StopsOnce {
            taken: &mut taken,
            most: 70_000,
            stopping,
            fails,
            calls: 0,
        });
        assert!(rt; write_all(&mut sink, &all).is_err(), "at call {stopping}");
        let rest = all.get(before..).ok_or("fewer bytes")?;
        assert!(rt;
            write_all(&mut sink, rest).is_ok(),
            "behind call {stopping}"
        );
        assert!(rt; taken == all, "behind call {stopping}");
    }
    Ok(())
}
