//! What the words of the command line ask for.
ghost use Rattle.std.specs.Prelude.{◌≤◌, IfSome};

use std::fmt;

/// What the threads do.
#[derive(Clone, Copy, Debug, PartialEq, Eq)]
pub enum Mode {
    /// Pairs of a retain and a release of an object of its own.
    Own,
    /// The same of one object, which they share.
    Shared,
    /// Objects that are made and let go at once.
    Lives,
    /// The same behind objects that stay in their slots for ever.
    Behind,
}

impl fmt::Display for Mode {
    fn fmt<W: fmt::Write>(&self, f: &mut fmt::Formatter<W>) -> fmt::Result {
        f.write_str(match self {
            Mode::Own => "own",
            Mode::Shared => "shared",
            Mode::Lives => "lives",
            Mode::Behind => "behind",
        })
    }
}

/// What is asked for: a mode, 1 to 32 threads, 1 to 6,400,000 times, and whether the time is wanted too.
#[derive(Clone, Copy, Debug, PartialEq, Eq)]
pub struct Asked {
    pub mode: Mode,
    pub threads: u32,
    pub times: u32,
    pub is_timed: bool,
}

fn mode_of(word: &str) -> Option<Mode> {
    match word {
        "own" => Some(Mode::Own),
        "shared" => Some(Mode::Shared),
        "lives" => Some(Mode::Lives),
        "behind" => Some(Mode::Behind),
        _ => None,
    }
}

/// The number that the word spells, where it is 1 to `most`.
fn number_of(word: &str, most: u32) -> Option<u32>
    ensures { IfSome result (λ n. (1 ≤ n) × (n ≤ most)) }
{
    let number = word.parse::<u32>().ok()?;
    if number < 1 || number > most {
        return None;
    }
    Some(number)
}

/// `None` where the words ask for nothing that there is.
pub fn asked_by(words: &[String]) -> Option<Asked>
    ensures { IfSome result (λ a. (1 ≤ a.threads) × (a.threads ≤ 32) × (a.times ≤ 6400000)) }
{
    let (mode, threads, times, is_timed) = match words {
        [mode, threads, times] => (mode, threads, times, false),
        [mode, threads, times, last] if last.as_str() == "timed" => (mode, threads, times, true),
        _ => return None,
    };
    Some(Asked {
        mode: mode_of(mode)?,
        threads: number_of(threads, 32)?,
        times: number_of(times, 6_400_000)?,
        is_timed,
    })
}
