//! What a call finds, and where it returns to.

ghost use Rattle.std.specs.Prelude.{◌≡◌};

/// The component whose routine is called.
#[derive(Clone, Copy)]
pub(crate) struct Called {
    /// The address of its first word.
    pub(crate) component: usize,
    /// Whether it has been initialised.
    pub(crate) is_set: bool,
    /// The monitor that is entered, or 0.
    pub(crate) gate: u32,
}

/// Where a call returns to.
#[derive(Clone, Copy)]
pub(crate) struct Back {
    /// The number of the operation at which the caller continues.
    pub(crate) counter: u32,
    /// The temp of the caller that receives the value.
    pub(crate) into: u32,
}

impl Back {
    pub(crate) fn new(counter: u32, into: u32) -> Back
        ensures counter { result.counter ≡ counter }
        ensures into { result.into ≡ into }
    {
        Back { counter, into }
    }
}
