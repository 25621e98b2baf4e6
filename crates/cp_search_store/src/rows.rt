//! Rows: the numbers of the private states of each state, one row after another.

ghost use Rattle.std.specs.Prelude.{◌≡◌, IfSome, Some, slice_get, true};
ghost use Rattle.cp_search_store.specs.Stored.{row};

use cp_private::hashing::mix;

/// The row of the state with an index.
pub(crate) fn row_at(numbers: &[u32], width: usize, index: usize) -> Option<&[u32]>
    ensures { IfSome result (λ r. r.now ≡ row width numbers.now index) }
{
    let start = index.checked_mul(width)?;
    let end = start.checked_add(width)?;
    if numbers.len() < end {
        return None;
    }
    Some(&numbers[start..end])
}

/// The number at an index.
pub(crate) fn number_at(numbers: &[u32], index: usize) -> Option<u32>
    ensures { IfSome result (λ n. slice_get numbers.now index ≡ Some n) }
{
    match numbers.get(index) {
        Some(number) => Some(*number),
        None => None,
    }
}

/// Whether two rows are the same.
pub(crate) fn is_same_row(one: &[u32], other: &[u32]) -> bool
    ensures { result ≡ true → one.now ≡ other.now }
{
    one == other
}

/// A hash of the number of a kernel and of a row.
pub(crate) fn hash_of(kernel: u32, row: &[u32]) -> u64 {
    let mut hash = mix(0, kernel.into());
    for number in row {
        hash = mix(hash, u64::from(*number));
    }
    hash
}
