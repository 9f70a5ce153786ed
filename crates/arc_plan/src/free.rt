//! The words that hold a bit for each slot or each entry: the bit of a thing, and the lowest thing that is free.
ghost use Rattle.std.specs.Prelude.{◌≡◌, ◌<◌, ◌≤◌, ◌/◌, IfSome};
ghost use Rattle.arc_rule.specs.Bits.{words_of, bit_of};
ghost use Rattle.arc_plan.specs.Searches.{free_thing, IsTaking};

/// The bit of a slot or an entry in its word.
pub fn bit(thing: u32) -> u64
    ensures { result ≡ bit_of thing }
{
    1u64 << (thing % 64)
}

/// The lowest slot or entry whose bit is clear in word `word` of the bits of so many things, at most 4,096.
pub fn free_thing(things: u32, word: u32, bits: u64) -> Option<u32>
    requires some { word < words_of things }
    requires few { things ≤ 4096 }
    ensures free { result ≡ free_thing things word bits }
    ensures clear { IfSome result (λ x. IsTaking things x bits × (x / 64 ≡ word)) }
{
    if bits == u64::MAX {
        return None;
    }
    let thing = 64 * word + bits.trailing_ones();
    if thing < things.min(64 * (word + 1)) {
        Some(thing)
    } else {
        None
    }
}
