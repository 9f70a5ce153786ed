//! What holds of the texts themselves.

ghost use Rattle.std.specs.Prelude.{◌≡◌, ◌<◌, ◌≤◌, ◌^◌, ℕ, List, ◌∷◌, length, Ok, Err};
ghost use Rattle.arc_script.specs.declared.script.Script.{Script};
ghost use Rattle.arc_script.specs.Valid.{IsScript};
ghost use Rattle.arc_script.specs.Grammar.{Front, Refusal, settled, said_line, script_of};
ghost use Rattle.arc_script.specs.Canonical.{canonical};
ghost use Rattle.arc_script.specs.Accepted.{Says, StandsFor};
ghost use Rattle.arc_script.specs.declared.reason.Reason.{Reason};
ghost use Rattle.arc_script_laws.specs.Faults.{IsIn, LineHas};
ghost use Rattle.arc_script.specs.Group.{run_group, group_names};
ghost use Rattle.arc_script_laws.specs.Runs.{HasInRun};
ghost use Rattle.arc_script_laws.specs.Refused.{IsRefused};

/// A line that is accepted has the words of what it says.
pub fn accepted_line_says()
    ensures { (front next : Front) (line first : List ℕ) (words lines : List (List ℕ)) → said_line front line first words lines ≡ Ok next → Says front (first ∷ words) lines next }
{}

/// What is read is a valid script.
pub fn read_is_valid()
    ensures { (text : List ℕ) (s : Script) → script_of text ≡ Ok s → IsScript s }
{}

/// An accepted text stands for its script, line by line.
pub fn accepted_text_says()
    ensures { (text : List ℕ) (s : Script) → script_of text ≡ Ok s → StandsFor text s }
{}

/// The canonical text of a script is read as that script. (A wide cap of a script that the code holds is a `u32`.)
pub fn written_is_read()
    ensures { (s : Script) → IsScript s → s.shape.caps.wide < 2 ^ 32 → script_of (canonical s) ≡ Ok s }
{}

/// A line that is refused has what its reason says.
pub fn refused_line_has()
    ensures { (front : Front) (line first : List ℕ) (words lines : List (List ℕ)) (reason : Reason) → length (settled front).threads ≤ 64 → said_line front line first words lines ≡ Err reason → LineHas reason front line first words lines }
{}

/// A text that is refused has, at the line with that number, what the reason with that number says; all lines before it are
/// accepted.
pub fn refused_text_has()
    ensures { (text : List ℕ) (r : Refusal) → script_of text ≡ Err r → IsRefused text r }
{}

/// The names that a class line may use are those that stand as second words in its unbroken run of class lines.
pub fn run_has_names()
    ensures has { (version : ℕ) (lines : List (List ℕ)) (name : List ℕ) → IsIn (group_names (run_group version lines)) name → HasInRun version name lines }
    ensures names { (version : ℕ) (lines : List (List ℕ)) (name : List ℕ) → HasInRun version name lines → IsIn (group_names (run_group version lines)) name }
{}
