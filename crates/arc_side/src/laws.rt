//! What the answers of the plans rest on.

ghost use Rattle.arc_side.specs.Lasts.{DownsTell};

/// One reference fewer waits for the step that it asks for, and tells Last of the exchange of the last count. It does nothing: its
/// contract is the law.
pub fn downs_tell()
    ensures { DownsTell }
{}
