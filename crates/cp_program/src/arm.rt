//! The labels of a `case`.

/// A label of a `case`, and the place to which it leads.
#[derive(Clone, Copy)]
pub struct Arm {
    pub label: i32,
    pub place: u32,
}
