//! Counts of what passes between two ends.

ghost use Rattle.std.specs.Prelude.{◌≡◌, ◌+◌, ◌≤◌, ◌^◌, MatchResult};

use std::alloc::AllocError;

/// What is answered where a count, or an offset, leaves 64 bits: out of memory, since none has room
/// for as many of anything.
pub fn past_64_bits() -> AllocError {
    AllocError
}

/// A count and so many more; out of memory exactly where that leaves 64 bits.
pub fn plus(count: u64, more: u64) -> Result<u64, AllocError>
    ensures { MatchResult result (λ sum. sum ≡ count + more) (λ _. 2 ^ 64 ≤ count + more) }
{
    match count.checked_add(more) {
        Some(sum) => Ok(sum),
        None => Err(past_64_bits()),
    }
}
