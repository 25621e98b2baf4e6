//! Divisors that need no tests.

ghost use Rattle.std.specs.Prelude.{◌≡◌, ◌≤ℤ◌, pos, IfSome};

use cp_model::ordinals::LAST_INTEGER;

/// A divisor by which no division faults, and whose remainders are all in range.
#[derive(Clone, Copy)]
pub struct Divisor {
    pub(crate) number: i32,
    ghost range: { (pos 1 ≤ℤ number) × (number ≤ℤ pos 32767) },
}

impl Divisor {
    pub(crate) fn new(number: i32) -> Option<Divisor>
        ensures { IfSome result (λ d. d.number ≡ number) }
    {
        if 0 < number && number <= LAST_INTEGER {
            Some(Divisor { number })
        } else {
            None
        }
    }

    /// The divisor as a number.
    #[inline(always)]
    pub(crate) fn number(self) -> i32
        ensures number { result ≡ self.number }
        ensures range { (pos 1 ≤ℤ result) × (result ≤ℤ pos 32767) }
    {
        self.number
    }
}
