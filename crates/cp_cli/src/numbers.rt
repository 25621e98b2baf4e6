//! Numbers of the command line.

ghost use Rattle.std.specs.Prelude.{◌≡◌, ◌≤◌, IfSome};
ghost use Rattle.cp_cli.specs.Numbers.{number_within};

/// The largest number that an option may have.
pub const MAX_OPTION_NUMBER: u32 = 10_000_000;

/// The largest number of rounds, and of megabytes.
pub const MAX_ROUNDS: u32 = 1_000_000;

/// The number that decimal digits represent, if it is from `low` to `most`.
pub fn number(text: &[u8], low: u32, most: u32) -> Option<u32>
    requires small { most ≤ MAX_OPTION_NUMBER }
    ensures value { result ≡ number_within low most text.now }
    ensures within { IfSome result (λ n. (low ≤ n) × (n ≤ most)) }
{
    if text.is_empty() {
        return None;
    }
    let mut n: u32 = 0;
    for byte in text {
        if *byte < b'0' || b'9' < *byte {
            return None;
        }
        n = 10 * n + u32::from(*byte - b'0');
        if most < n {
            return None;
        }
    }
    if n < low { None } else { Some(n) }
}
