//! Classes and globals by their names.

ghost use Rattle.std.specs.Prelude.{◌≡◌, ◌≤◌, length};
ghost use Rattle.arc_script.specs.Lookups.{class_place, var_place};

use arc_script::{ClassDecl, VarDecl};

/// The place of a class.
pub fn class_place(classes: &[ClassDecl], name: &[u8]) -> Option<u32>
    requires { length classes.now ≤ 64 }
    ensures { result ≡ class_place classes.now name.now }
{
    match classes.iter().position(|c| c.name.bytes() == name) {
        Some(place) => Some(place as u32),
        None => None,
    }
}

/// The place of a global.
pub fn global_place(globals: &[VarDecl], name: &[u8]) -> Option<u32>
    requires { length globals.now ≤ 64 }
    ensures { result ≡ var_place globals.now name.now }
{
    match globals.iter().position(|v| v.name.bytes() == name) {
        Some(place) => Some(place as u32),
        None => None,
    }
}
