//! The word of an object that says which object it is.
ghost use Rattle.std.specs.Prelude.{◌≡◌};
ghost use Rattle.arc_rule.specs.Isa.{isa_word_of, isa_name_of, IsName, IsIsaWord};

use arc_model::ObjectName;

/// The isa word of the object with this name: class + 256 * thread + 65536 * number. The class is below 64 and the thread below 256.
/// This project's own.
pub fn isa_word(name: ObjectName) -> u64
    requires { IsName name }
    ensures word { result ≡ isa_word_of name }
    ensures isa_word { IsIsaWord result }
    ensures back { isa_name_of result ≡ name }
{
    u64::from(name.class) + 256 * u64::from(name.thread) + 65536 * u64::from(name.number)
}

/// The name that an isa word is of.
pub fn isa_name(word: u64) -> ObjectName
    requires { IsIsaWord word }
    ensures name { result ≡ isa_name_of word }
    ensures is_name { IsName result }
    ensures back { isa_word_of result ≡ word }
{
    ObjectName {
        class: (word % 256) as u32,
        thread: (word / 256 % 256) as u32,
        number: (word / 65536) as u32,
    }
}
