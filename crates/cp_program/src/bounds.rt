//! The numbers that a variable may hold.

ghost use Rattle.std.specs.Prelude.{◌≡◌};
ghost use Rattle.cp_model.specs.Places.{within};

/// The least and the greatest number that a variable of a simple type may hold.
#[derive(Clone, Copy)]
pub struct Bounds {
    pub low: i32,
    pub high: i32,
}

impl Bounds {
    /// Whether a number is within the bounds, both included.
    // The bounds are taken by reference, since they are parts of operations: by value, each step
    // would copy them before it compares.
    #[inline(always)]
    pub fn contain(&self, n: i32) -> bool
        ensures { result ≡ within self.now.low self.now.high n }
    {
        self.low <= n && n <= self.high
    }
}
