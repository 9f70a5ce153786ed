//! The next word of a dying object: which deinit waits for its own.

ghost use Rattle.std.specs.Prelude.{◌≡◌, ◌<◌, ◌/◌, ◌^◌};
ghost use Rattle.arc_cells.specs.Chains.{next_word_of, parent_in};

/// The deinit that waits for that of an object which its field referred to: its slot, and the field to go on with.
#[derive(Clone, Copy, Debug, PartialEq, Eq)]
pub struct Parent {
    pub slot: u32,
    pub field: u32,
}

/// The next word of an object whose deinit this one waits for. This project's own.
pub(crate) fn next_word(parent: Option<Parent>) -> u64
    ensures { result ≡ next_word_of parent }
{
    match parent {
        None => 0,
        Some(p) => 1 + 16 * u64::from(p.slot) + u64::from(p.field),
    }
}

/// The deinit that a next word names.
pub(crate) fn parent_in(word: u64) -> Option<Parent>
    requires { word / 16 < 2 ^ 32 }
    ensures { result ≡ parent_in word }
{
    if word == 0 {
        return None;
    }
    Some(Parent {
        slot: ((word - 1) / 16) as u32,
        field: ((word - 1) % 16) as u32,
    })
}
