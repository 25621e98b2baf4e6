//! Counts and 32-bit numbers.
//!
//! The tables of a text and its program have numbers of 32 bits: of words, operations, units,
//! temps, frames and ordinals. A text for which they aren't enough has no room, as if memory ran
//! out, so the error is the same.

ghost use Rattle.std.specs.Prelude.{◌≡◌, ◌+◌, IfOk};
ghost use Rattle.cp_model.specs.Integers as integers;

use std::alloc::AllocError;

/// The number of integers from `low` to `high`, both included.
pub fn count_between(low: i32, high: i32) -> usize
    ensures { result ≡ integers.count_between low high }
{
    if high < low {
        return 0;
    }
    (i64::from(high) - i64::from(low) + 1) as usize
}

/// Converts a number to 32 bits.
pub fn small_number(n: usize) -> Result<u32, AllocError>
    ensures { IfOk result (λ m. m ≡ n) }
{
    u32::try_from(n).map_err(|_| AllocError)
}

/// The sum of two numbers of 32 bits.
pub fn small_sum(a: u32, b: u32) -> Result<u32, AllocError>
    ensures { IfOk result (λ n. n ≡ a + b) }
{
    a.checked_add(b).ok_or(AllocError)
}
