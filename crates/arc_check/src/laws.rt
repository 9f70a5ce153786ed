//! What holds of the texts themselves. Each function's contract is its law; no function does anything.

ghost use Rattle.std.specs.Prelude.{◌≡◌, ◌^◌, ◌<◌, ◌≤◌, ◌++◌, false, ℕ, List, [], ◌∷◌};
ghost use Rattle.std.specs.List.{AllByRecursion};
ghost use Rattle.arc_text.specs.Words.{is_newline};
ghost use Rattle.arc_model.specs.Shapes.{HeapShape};
ghost use Rattle.arc_script.specs.declared.script.ClassDecl.{ClassDecl};
ghost use Rattle.arc_script.specs.declared.script.VarDecl.{VarDecl};
ghost use Rattle.arc_script.specs.Valid.{OfSecond, IsHeading};
ghost use Rattle.arc_check.specs.declared.line.EventLine.{EventLine};
ghost use Rattle.arc_check.specs.EventTexts.{starts, history_of};
ghost use Rattle.arc_check.specs.WrittenHistory.{named_of, numbered, first_line, written_history, EventFits};
ghost use Rattle.arc_check.specs.Behind.{GoesBefore};

/// The canonical text of a history is read as that history: its shape, its number of threads, and its events in order, each with the
/// number of its line. (A wide cap that the code holds is a `u32`.)
pub fn written_history_is_read()
    ensures { (version : ℕ) (shape : HeapShape) (classes : List ClassDecl) (globals : List VarDecl) (threads : ℕ) (events : List EventLine) → 1 ≤ version → version ≤ 2 → AllByRecursion (λ (c : ClassDecl). OfSecond version c.immortal) classes → IsHeading shape classes globals → shape.caps.wide < 2 ^ 32 → threads ≤ 64 → AllByRecursion (EventFits (named_of shape classes globals threads)) events → history_of (written_history version shape classes globals threads events) ≡ Ok (record { shape = shape; threads = threads; events = numbered (first_line classes globals) events }) }
{}

/// A whole line that doesn't begin a history goes before one and changes nothing of it, and so do such lines one after another.
pub fn other_lines_go_before()
    ensures line { (line : List ℕ) → AllByRecursion (λ b. is_newline b ≡ false) line → starts line ≡ false → GoesBefore (line ++ 10 ∷ []) }
    ensures none { GoesBefore [] }
    ensures both { (first second : List ℕ) → GoesBefore first → GoesBefore second → GoesBefore (first ++ second) }
{}
