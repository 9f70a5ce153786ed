//! What a command writes, put together from its parts.

ghost use Rattle.std.specs.Prelude.{◌≡◌, ◌≢◌, ◌≤◌, true, false, Some, length, IfOk, IfErr, OnOk};
ghost use Rattle.std.specs.Io.KnownBytes.{IsAtEnd};
ghost use Rattle.arc_io.specs.Moved.{TookAtMost};
ghost use Rattle.arc_script.specs.Valid.{IsScript};
ghost use Rattle.arc_script.specs.Canonical.{canonical};
ghost use Rattle.arc_storm.specs.Storm.{storm_script};
ghost use Rattle.arc_served.specs.Served.{IsServed};
ghost use Rattle.arc_command.specs.Commands.{CountFits, reads, limit_of};
ghost use Rattle.arc.specs.Outputs.{TellsReplay, TellsOf, illegal_number, legal_text, illegal_text, TellsVerdict, IsOutput, RefusesText, IsCause};

use arc_check::{CheckFault, Verdict, check};
use arc_command::Command;
use arc_io::{InFault, Source, read_all};
use arc_model::{Illegal, Memory};
use arc_plain::replay_all;
use arc_report::{history_text, report_text};
use arc_script::{ReadFault, Script};
use arc_script_reader::read_script;
use arc_script_text::write_script;
use arc_served::is_served;
use arc_storm::storm;
use std::alloc::{AllocError, Global};

/// The most bytes of a script's text.
pub const LIMIT: usize = 8_388_608;

/// The most bytes of a text that holds a history.
pub const HISTORY_LIMIT: usize = 67_108_864;

/// What a command writes, and whether what it judged is legal.
#[derive(Debug, Drop)]
pub struct Output {
    pub text: Vec<u8>,
    pub legal: bool,
}

/// Why a command has nothing to write.
#[derive(Clone, Copy, Debug, PartialEq, Eq)]
pub enum Fault {
    Read,
    TooLong,
    /// The text is refused: the line and the number of its fault, or 0 and 0 for a script that isn't served yet.
    Refused { line: u32, why: u32 },
    Memory,
}

/// The report and the history text of the script's replay.
fn replay_text(alloc: Global, script: &Script) -> Result<Vec<u8>, Memory>
    requires script { IsScript script.now }
    requires served { IsServed script.now }
    ensures { IfOk result (λ v. TellsReplay script.now v.items) }
{
    let replay = replay_all(alloc, script)?;
    let mut text = report_text(alloc, script, &replay.threads, &replay.end, &replay.words)?;
    let history = history_text(alloc, script, &replay.events)?;
    text.extend_from_slice(&history)?;
    Ok(text)
}

fn output_of_text(alloc: Global, text: &[u8]) -> Result<Vec<u8>, Fault>
    requires { length text.now ≤ LIMIT }
    ensures output { IfOk result (λ v. TellsOf text.now v.items) }
    ensures refused { IfErr result (λ e. RefusesText Command.Replay e text.now) }
{
    let script = match read_script(alloc, text) {
        Ok(script) => script,
        Err(ReadFault::Refused { line, why }) => return Err(Fault::Refused { line, why }),
        Err(ReadFault::Memory) => return Err(Fault::Memory),
    };
    if !is_served(&script) {
        return Err(Fault::Refused { line: 0, why: 0 });
    }
    match replay_text(alloc, &script) {
        Ok(output) => Ok(output),
        Err(Memory) => Err(Fault::Memory),
    }
}

/// The canonical text of the generated script.
fn script_text(alloc: Global, count: u32, start: u64) -> Result<Vec<u8>, Memory>
    requires some { 1 ≤ count }
    requires few { count ≤ 100000 }
    ensures { IfOk result (λ v. v.items ≡ canonical (storm_script count start)) }
{
    let script = storm(alloc, count, start)?;
    write_script(alloc, &script)
}

/// The number of what is wrong with an event, 1 to 6.
fn illegal_number(why: Illegal) -> u32
    ensures { result ≡ illegal_number why }
{
    match why {
        Illegal::NotHeld => 1,
        Illegal::NoSuchObject => 2,
        Illegal::Taken => 3,
        Illegal::NotTaken => 4,
        Illegal::WrongAnswer => 5,
        Illegal::Duty => 6,
    }
}

fn legal_line(alloc: Global, events: u32) -> Result<Vec<u8>, AllocError>
    ensures { IfOk result (λ v. v.items ≡ legal_text events) }
{
    let line = format!(in alloc; "legal {events}\n")?;
    line.as_bytes().to_vec(alloc)
}

fn illegal_line(alloc: Global, line: u32, why: Illegal) -> Result<Vec<u8>, AllocError>
    ensures { IfOk result (λ v. v.items ≡ illegal_text line why) }
{
    let reason = illegal_number(why);
    let line = format!(in alloc; "illegal line {line} reason {reason}\n")?;
    line.as_bytes().to_vec(alloc)
}

/// The line that tells the verdict on the history that the text holds.
fn verdict_line(alloc: Global, text: &[u8]) -> Result<Output, Fault>
    requires { length text.now ≤ HISTORY_LIMIT }
    ensures output { IfOk result (λ o. TellsVerdict text.now o.legal o.text.items) }
    ensures refused { IfErr result (λ e. RefusesText Command.Check e text.now) }
{
    match check(alloc, text) {
        Ok(Verdict::Legal { events }) => match legal_line(alloc, events) {
            Ok(text) => Ok(Output { text, legal: true }),
            Err(_) => Err(Fault::Memory),
        },
        Ok(Verdict::Illegal { line, why }) => match illegal_line(alloc, line, why) {
            Ok(text) => Ok(Output { text, legal: false }),
            Err(_) => Err(Fault::Memory),
        },
        Err(CheckFault::Refused { line, why }) => Err(Fault::Refused { line, why }),
        Err(CheckFault::Memory) => Err(Fault::Memory),
    }
}

/// The verdict on what is left in the source.
fn judged<S: Source>(alloc: Global, source: &mut S) -> Result<Output, Fault>
    ensures output { IfOk result (λ o. IsOutput Command.Check (S.left source.old) o.legal o.text.items) }
    ensures fault { IfErr result (λ e. IsCause Command.Check e (S.left source.old) (S.left source.new) (S.faults source.old) (S.faults source.new)) }
    ensures end { OnOk result (IsAtEnd (S.left source.new)) }
    ensures within { (result ≡ Err Fault.TooLong → ⊥) → TookAtMost (S.left source.old) (S.left source.new) HISTORY_LIMIT }
    ensures uncounted { (result ≡ Err Fault.Read → ⊥) → S.faults source.new ≡ S.faults source.old }
{
    match read_all(alloc, source, HISTORY_LIMIT) {
        Ok(text) => verdict_line(alloc, &text),
        Err(InFault::Read) => Err(Fault::Read),
        Err(InFault::TooLong) => Err(Fault::TooLong),
        Err(InFault::Memory) => Err(Fault::Memory),
    }
}

/// The replay of the script that is left in the source.
fn replayed<S: Source>(alloc: Global, source: &mut S) -> Result<Output, Fault>
    ensures output { IfOk result (λ o. IsOutput Command.Replay (S.left source.old) o.legal o.text.items) }
    ensures fault { IfErr result (λ e. IsCause Command.Replay e (S.left source.old) (S.left source.new) (S.faults source.old) (S.faults source.new)) }
    ensures end { OnOk result (IsAtEnd (S.left source.new)) }
    ensures within { (result ≡ Err Fault.TooLong → ⊥) → TookAtMost (S.left source.old) (S.left source.new) LIMIT }
    ensures uncounted { (result ≡ Err Fault.Read → ⊥) → S.faults source.new ≡ S.faults source.old }
{
    match read_all(alloc, source, LIMIT) {
        Ok(text) => match output_of_text(alloc, &text) {
            Ok(text) => Ok(Output { text, legal: true }),
            Err(fault) => Err(fault),
        },
        Err(InFault::Read) => Err(Fault::Read),
        Err(InFault::TooLong) => Err(Fault::TooLong),
        Err(InFault::Memory) => Err(Fault::Memory),
    }
}

/// What the command writes. `script` reads nothing from the source.
pub fn output_of<S: Source>(
    alloc: Global,
    command: Command,
    source: &mut S,
) -> Result<Output, Fault>
    requires { CountFits command }
    ensures output { IfOk result (λ o. IsOutput command (S.left source.old) o.legal o.text.items) }
    ensures fault { IfErr result (λ e. IsCause command e (S.left source.old) (S.left source.new) (S.faults source.old) (S.faults source.new)) }
    ensures end { OnOk result (reads command ≡ true → IsAtEnd (S.left source.new)) }
    ensures reading { IfErr result (λ e. e ≢ Fault.Memory → reads command ≡ true) }
    ensures judging { IfOk result (λ o. o.legal ≡ false → command ≡ Command.Check) }
    ensures within { (result ≡ Err Fault.TooLong → ⊥) → TookAtMost (S.left source.old) (S.left source.new) (limit_of (Some command)) }
    ensures uncounted { (result ≡ Err Fault.Read → ⊥) → S.faults source.new ≡ S.faults source.old }
    ensures unread { reads command ≡ false → source.new ≡ source.old }
{
    match command {
        Command::Replay => replayed(alloc, source),
        Command::Check => judged(alloc, source),
        Command::Script { count, start } => match script_text(alloc, count, start) {
            Ok(text) => Ok(Output { text, legal: true }),
            Err(Memory) => Err(Fault::Memory),
        },
    }
}
