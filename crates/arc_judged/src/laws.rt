//! Laws of what a replay writes. Each function's contract is its law; no function does anything.

ghost use Rattle.std.specs.Prelude.{length};
ghost use Rattle.arc_script.specs.declared.script.Script.{Script};
ghost use Rattle.arc_script.specs.Valid.{IsScript};
ghost use Rattle.arc_served.specs.Served.{IsServed};
ghost use Rattle.arc_plain.specs.declared.replay.Replay.{Replay};
ghost use Rattle.arc_plain.specs.Replays.{IsReplay};
ghost use Rattle.arc_report.specs.History.{history};
ghost use Rattle.arc_check.specs.Behind.{GoesBefore};
ghost use Rattle.arc_judged.specs.Written.{report_of, HoldsLegal, IsWrittenLegal, IsCheckedLegal};

/// The report of a replay goes before a history text and changes nothing of it.
pub fn report_goes_before()
    ensures { (s : Script) (r : Replay) → IsScript s → IsReplay s r → GoesBefore (report_of s r) }
{}

/// The history text of a replay of a served script is read as its events, which are legal, alone and behind the report of the
/// replay.
pub fn what_replay_writes_is_legal()
    ensures alone { (s : Script) (r : Replay) → IsScript s → IsServed s → IsReplay s r → HoldsLegal (history s r.events.items) (length r.events.items) }
    ensures behind { (s : Script) (r : Replay) → IsScript s → IsServed s → IsReplay s r → IsWrittenLegal s r }
{}

/// Whatever `check` may answer of the report and the history text of such a replay: it says legal, with the number of the replay's
/// events, unless memory ran out.
pub fn check_says_legal()
    ensures { (s : Script) (r : Replay) → IsScript s → IsServed s → IsReplay s r → IsCheckedLegal s r }
{}
