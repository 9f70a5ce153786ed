//! The count of all threads.
ghost use Rattle.std.specs.Prelude.{ℕ, ◌≤◌, ◌<◌, ◌*◌, Option, length, slice_index_or, IfSome};

/// What the threads counted together.
pub fn total(counts: &[u32]) -> u64
    requires { length counts.now ≤ 32 }
    ensures { (m : ℕ) → ((i : ℕ) (d : ℕ) → i < length counts.now → slice_index_or counts.now i d ≤ m) → result ≤ length counts.now * m }
{
    let mut total = 0;
    for count in counts {
        total += u64::from(*count);
    }
    total
}

/// The same, where each thread found memory.
pub fn known_total(counts: &[Option<u32>]) -> Option<u64>
    requires { length counts.now ≤ 32 }
    ensures { (m : ℕ) → ((i : ℕ) (d : Option ℕ) → i < length counts.now → IfSome (slice_index_or counts.now i d) (λ n. n ≤ m)) → IfSome result (λ n. n ≤ length counts.now * m) }
{
    let mut total = 0;
    for count in counts {
        let ended = (*count)?;
        total += u64::from(ended);
    }
    Some(total)
}
