//! Laws of the texts that are written and read. Each function's contract is its law; no function does anything.

ghost use Rattle.std.specs.Prelude.{◌≡◌, ◌++◌, ℕ, List};
ghost use Rattle.std.specs.List.{AllByRecursion};
ghost use Rattle.arc_script.specs.declared.script.Script.{Script};
ghost use Rattle.arc_ops.specs.declared.told.Stamped.{Stamped};
ghost use Rattle.arc_report.specs.History.{history};
ghost use Rattle.arc_check.specs.EventTexts.{history_of};
ghost use Rattle.arc_check.specs.Behind.{GoesBefore};
ghost use Rattle.arc_read_back.specs.ReadBack.{HasHeading, StampedFits, told_of};

/// The history text of a run is read as its events, alone and behind whatever may stand before a history text.
pub fn history_text_is_read()
    ensures alone { (s : Script) (events : List Stamped) → HasHeading s → AllByRecursion (StampedFits s) events → history_of (history s events) ≡ Ok (told_of s events) }
    ensures behind { (s : Script) (events : List Stamped) (before : List ℕ) → HasHeading s → AllByRecursion (StampedFits s) events → GoesBefore before → history_of (before ++ history s events) ≡ Ok (told_of s events) }
{}
