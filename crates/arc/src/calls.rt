//! The commands, each a call that tells which status it ends with.

ghost use Rattle.std.specs.Prelude.{◌≡◌, ◌↔◌, ◌⊎◌, ◌+◌, Bool, List, ℕ, Some, None, true, false, IfOk, IsSomeAnd};
ghost use Rattle.std.specs.String.{string_bytes};
ghost use Rattle.std.specs.Io.KnownBytes.{Appends, IsAtEnd};
ghost use Rattle.arc_io.specs.Causes.{Rose, next_count};
ghost use Rattle.arc_io.specs.Moved.{Took, TookAtMost, AppendsPrefix};
ghost use Rattle.arc_command.specs.Commands.{command_of, is_reading, limit_of};
ghost use Rattle.arc_quiet.specs.Whole.{StandsLast};
ghost use Rattle.arc_replays.specs.Promises.{DeinitsOnce, LoadsComeBefore, SlotsAreVacated, EntriesAreGivenBack};
ghost use Rattle.arc.specs.Statuses.{EndsWith, ended, usage_line, read_fault_line, too_long_line, memory_line, refused_text, Sends, IsOfInput, IsPastInput};
ghost use Rattle.arc.specs.Outputs.{IsOutput, IsRefusal, IsValidInput, IsUnservedInput, legal_text};
ghost use Rattle.arc.specs.Judged.{HadReplay};
ghost use Rattle.arc.specs.Printed.{Prints, OfHistory, OfShape, IsScheduledReplay, KeepsPhases, HasNoOtherThread, TellsEachDeinit, ClaimsNothing, LeavesNothing};

use crate::output::{Fault, output_of};
use crate::status::Status;
use arc_command::{Arg, Command, command_of};
use arc_io::{Sink, Source, write_all};
use std::alloc::{AllocError, Global};
use std::process::ExitCode;

/// Writes the line of a status, and ends with it.
fn tell<K: Sink>(sink: &mut K, status: Status, line: &[u8]) -> ExitCode
    ensures same { EndsWith result status }
    ensures sent { Sends (K.taken sink.old) (K.taken sink.new) (K.faults sink.old) (K.faults sink.new) line.now }
{
    match write_all(sink, line) {
        Ok(()) => status.code(),
        Err(_) => status.code(),
    }
}

/// How a call ended whose whole output went out.
fn ended(legal: bool) -> ExitCode
    ensures { EndsWith result (ended legal) }
{
    if legal {
        Status::Done.code()
    } else {
        Status::NotLegal.code()
    }
}

fn refused_line(alloc: Global, line: u32, why: u32) -> Result<String, AllocError>
    ensures { IfOk result (λ s. string_bytes s ≡ refused_text line why) }
{
    format!(in alloc; "refused line {line} reason {why}\n")
}

/// What the program does for these words: it reads from the source what the command reads, writes to the sink what the command
/// writes or the one line of another status, and ends with the number of its status.
pub fn arc_plain_top<S: Source, K: Sink>(
    alloc: Global,
    words: &[Arg],
    source: &mut S,
    sink: &mut K,
) -> ExitCode
    // It ends with the number of some status.
    ensures of_table { (status : Status) × EndsWith result status }

    // The words are refused exactly where they are no row of the table.
    ensures usage { EndsWith result Status.Usage ↔ (command_of words.now ≡ None) }

    // Only `replay` and `check` read, and a fault of reading or of the text comes only with them.
    ensures unread { is_reading (command_of words.now) ≡ false → source.new ≡ source.old }
    ensures reading { IsOfInput result → is_reading (command_of words.now) ≡ true }

    // Whatever is written of a text, or says that it is refused, comes once all of it was read.
    ensures end { IsPastInput result → is_reading (command_of words.now) ≡ true → IsAtEnd (S.left source.new) }

    // The whole output went out, and nothing that was judged isn't legal.
    ensures done { EndsWith result Status.Done → IsSomeAnd (command_of words.now) (λ c. (out : List ℕ) ×
        IsOutput c (S.left source.old) true out × Appends (K.taken sink.old) (K.taken sink.new) out) }

    // An event isn't legal, and its line went out.
    ensures not_legal { EndsWith result Status.NotLegal → (command_of words.now ≡ Some Command.Check) × ((out : List ℕ) ×
        IsOutput Command.Check (S.left source.old) false out × Appends (K.taken sink.old) (K.taken sink.new) out) }

    // A part of the output went out, since the sink failed.
    ensures write_fault { EndsWith result Status.WriteFault → IsSomeAnd (command_of words.now) (λ c. (legal : Bool) × (out : List ℕ) ×
        IsOutput c (S.left source.old) legal out × AppendsPrefix (K.taken sink.old) (K.taken sink.new) out)
        × Rose (K.faults sink.old) (K.faults sink.new) }

    // The steps of the replay that was printed are those of the script's operations, in the order of its schedule.
    ensures scheduled { EndsWith result Status.Done → command_of words.now ≡ Some Command.Replay →
        Prints IsScheduledReplay (S.left source.old) (K.taken sink.old) (K.taken sink.new) }

    // In the history that was printed each event of a phase stands before each event of a later one, and thread 0's stand last. No
    // event is of a thread that the script doesn't have.
    ensures phases_follow { EndsWith result Status.Done → command_of words.now ≡ Some Command.Replay →
        Prints KeepsPhases (S.left source.old) (K.taken sink.old) (K.taken sink.new) }
    ensures main_stands_last { EndsWith result Status.Done → command_of words.now ≡ Some Command.Replay →
        Prints (OfHistory (StandsLast 0)) (S.left source.old) (K.taken sink.old) (K.taken sink.new) }
    ensures no_other_thread { EndsWith result Status.Done → command_of words.now ≡ Some Command.Replay →
        Prints HasNoOtherThread (S.left source.old) (K.taken sink.old) (K.taken sink.new) }

    // Said of each object whose strong list becomes empty: it is deinited once, as its last strong holder goes. There are as many
    // deinit lines as such events.
    ensures deinited_once { EndsWith result Status.Done → command_of words.now ≡ Some Command.Replay →
        Prints (OfShape DeinitsOnce) (S.left source.old) (K.taken sink.old) (K.taken sink.new) }
    ensures deinits_told { EndsWith result Status.Done → command_of words.now ≡ Some Command.Replay →
        Prints TellsEachDeinit (S.left source.old) (K.taken sink.old) (K.taken sink.new) }

    // A load gives an object only before that.
    ensures loads_before { EndsWith result Status.Done → command_of words.now ≡ Some Command.Replay →
        Prints (OfShape LoadsComeBefore) (S.left source.old) (K.taken sink.old) (K.taken sink.new) }

    // No slot is given again while a strong or unowned holder remains, and no entry while a weak one does. No entry is claimed in the
    // end.
    ensures slots_vacated { EndsWith result Status.Done → command_of words.now ≡ Some Command.Replay →
        Prints (OfShape SlotsAreVacated) (S.left source.old) (K.taken sink.old) (K.taken sink.new) }
    ensures entries_given_back { EndsWith result Status.Done → command_of words.now ≡ Some Command.Replay →
        Prints (OfHistory EntriesAreGivenBack) (S.left source.old) (K.taken sink.old) (K.taken sink.new) }
    ensures none_claimed { EndsWith result Status.Done → command_of words.now ≡ Some Command.Replay →
        Prints (OfHistory ClaimsNothing) (S.left source.old) (K.taken sink.old) (K.taken sink.new) }

    // Where no class is immortal and strong fields lead one way, every object is dead in the end.
    ensures leaves_nothing { EndsWith result Status.Done → command_of words.now ≡ Some Command.Replay →
        Prints LeavesNothing (S.left source.old) (K.taken sink.old) (K.taken sink.new) }

    // Of the report and the history text that `replay` writes, `check` says that so many events are legal.
    ensures replays_are_legal { command_of words.now ≡ Some Command.Check → (events : ℕ) → HadReplay (S.left source.old) events →
        (Rose (S.faults source.old) (S.faults source.new) → ⊥) → (Rose (K.faults sink.old) (K.faults sink.new) → ⊥) →
        (EndsWith result Status.Done × Appends (K.taken sink.old) (K.taken sink.new) (legal_text events)) ⊎ EndsWith result Status.Memory }

    // The source counted a fault exactly where the answer says so.
    ensures read_fault { EndsWith result Status.ReadFault → S.faults source.new ≡ next_count (S.faults source.old) }
    ensures no_read_fault { (EndsWith result Status.ReadFault → ⊥) → S.faults source.new ≡ S.faults source.old }

    // One byte past the limit was taken exactly where the answer says so.
    ensures too_long { EndsWith result Status.TooLong → Took (S.left source.old) (S.left source.new) (limit_of (command_of words.now) + 1) }
    ensures within { (EndsWith result Status.TooLong → ⊥) → TookAtMost (S.left source.old) (S.left source.new) (limit_of (command_of words.now)) }

    // The text is no script, or none that is served, or holds no history, and the line names the place and the reason.
    ensures refused { EndsWith result Status.Refused → IsSomeAnd (command_of words.now) (λ c. (line : ℕ) × (why : ℕ) × IsRefusal c (S.left source.old) line why ×
        Sends (K.taken sink.old) (K.taken sink.new) (K.faults sink.old) (K.faults sink.new) (refused_text line why)) }

    // The line of each other status went out, and nothing else.
    ensures usage_line { EndsWith result Status.Usage → Sends (K.taken sink.old) (K.taken sink.new) (K.faults sink.old) (K.faults sink.new) usage_line }
    ensures read_fault_line { EndsWith result Status.ReadFault → Sends (K.taken sink.old) (K.taken sink.new) (K.faults sink.old) (K.faults sink.new) read_fault_line }
    ensures too_long_line { EndsWith result Status.TooLong → Sends (K.taken sink.old) (K.taken sink.new) (K.faults sink.old) (K.faults sink.new) too_long_line }
    ensures memory_line { EndsWith result Status.Memory → Sends (K.taken sink.old) (K.taken sink.new) (K.faults sink.old) (K.faults sink.new) memory_line }

    // A text that can't be served, read to its end without a fault, is refused, unless memory runs out.
    ensures refuses { IsSomeAnd (command_of words.now) (λ c. IsUnservedInput c (S.left source.old)) →
        (Rose (S.faults source.old) (S.faults source.new) → ⊥) → EndsWith result Status.Refused ⊎ EndsWith result Status.Memory }

    // Input that can be served, and no fault of the outside, give the whole output, unless memory runs out.
    ensures complete { IsSomeAnd (command_of words.now) (λ c. IsValidInput c (S.left source.old)) →
        (Rose (S.faults source.old) (S.faults source.new) → ⊥) → (Rose (K.faults sink.old) (K.faults sink.new) → ⊥) →
        EndsWith result Status.Done ⊎ EndsWith result Status.NotLegal ⊎ EndsWith result Status.Memory }
{
    let Some(command) = command_of(words) else {
        return tell(
            sink,
            Status::Usage,
            b"usage: arc run, replay, check, script COUNT START, storm COUNT START\n",
        );
    };
    match output_of(alloc, command, source) {
        Ok(output) => match write_all(sink, &output.text) {
            Ok(()) => ended(output.legal),
            Err(_) => Status::WriteFault.code(),
        },
        Err(Fault::Read) => tell(sink, Status::ReadFault, b"read fault\n"),
        Err(Fault::TooLong) => tell(sink, Status::TooLong, b"too long\n"),
        Err(Fault::Memory) => tell(sink, Status::Memory, b"memory\n"),
        Err(Fault::Refused { line, why }) => match refused_line(alloc, line, why) {
            Ok(text) => tell(sink, Status::Refused, text.as_bytes()),
            Err(_) => tell(sink, Status::Memory, b"memory\n"),
        },
    }
}
