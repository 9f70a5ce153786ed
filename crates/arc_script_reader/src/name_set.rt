//! Which names were taken.

ghost use Rattle.std.specs.Prelude.{◌≡◌, ◌||◌, ℕ, List, bytes_eq, map, not, IfOk, OnOk};
ghost use Rattle.arc_script.specs.Lookups.{is_among};
ghost use Rattle.arc_script_reader.specs.NameSets.{holds};

use std::alloc::{AllocError, Global};
use std::collections::HashSet;

/// Adds a name, and says whether it is new.
pub fn add_name<'a>(names: &mut HashSet<&'a [u8]>, name: &'a [u8]) -> Result<bool, AllocError>
    ensures fresh { IfOk result (λ fresh. fresh ≡ not (holds names.old name.now)) }
    ensures holds { OnOk result ((q : List ℕ) → holds names.new q ≡ (bytes_eq q name.now || holds names.old q)) }
{
    Ok(names.insert(name)?)
}

/// Whether the name is in the set.
pub fn has_name(names: &HashSet<&[u8]>, name: &[u8]) -> bool
    ensures { result ≡ holds names.now name.now }
{
    names.contains(name)
}
