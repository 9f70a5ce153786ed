//! Tests of command lines, with hosts that have no word or too many.

use crate::{Command, HostLine, command_of, words_of};
use std::env::FillError;
use std::rt::Env;

/// A command line behind a program's name.
#[derive(Drop)]
struct Given<'a> {
    words: [Option<&'a [u8]>; 4],
}

impl Env for Given<'_> {
    fn arg(&self, i: usize, buf: &mut [u8]) -> Result<usize, FillError> {
        if i == 0 {
            return Ok(0);
        }
        let Some(Some(word)) = self.words.get(i - 1) else {
            return Err(FillError::NotPresent);
        };
        if buf.len() < word.len() {
            return Err(FillError::TooLong);
        }
        buf[..word.len()].copy_from_slice(word);
        Ok(word.len())
    }

    fn var(&self, _name: &str, _buf: &mut [u8]) -> Result<usize, FillError> {
        Err(FillError::NotPresent)
    }

    fn var_at(&self, _i: usize, _buf: &mut [u8]) -> Result<usize, FillError> {
        Err(FillError::NotPresent)
    }
}

#[test]
fn the_words_of_the_host_are_read_in_order(rt: HostRuntime) {
    let script = Some(b"script".as_slice());
    let start = Some(b"18446744073709551615".as_slice());
    for (words, want) in [
        (
            [Some(b"replay".as_slice()), None, None, None],
            Some(Command::Replay),
        ),
        (
            [script, Some(b"16"), start, None],
            Some(Command::Script {
                count: 16,
                start: u64::MAX,
            }),
        ),
        ([script, Some(b"16"), start, Some(b"x")], None),
        ([script, start, Some(b"16"), None], None),
        (
            [script, Some(b"16"), Some(b"184467440737095516150"), None],
            None,
        ),
        ([Some(b"check\xff"), None, None, None], None),
        ([None, None, None, None], None),
    ] {
        let read = words_of(&HostLine::new(&Given { words }));
        assert_eq!(rt; command_of(&read), want);
    }
}
