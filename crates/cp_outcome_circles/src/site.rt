//! The `continue` statements of processes, as plain data.

/// How a process comes to a `continue`.
#[derive(Clone, Copy, PartialEq, Eq)]
pub enum Reach {
    /// By a call that it can still make.
    ByCall,
    /// It is inside of the entry.
    Inside,
    /// Not any more, though its program has a call of the entry.
    Past,
}

/// A `continue` in an entry of a monitor, and how a process comes to it.
#[derive(Clone, Copy)]
pub struct ContinueSite {
    /// The number of the monitor, from 1.
    pub monitor: u32,
    /// Its place in the text.
    pub at: usize,
    pub reach: Reach,
}

impl Reach {
    /// The nearer of two ways: by a call, then inside.
    pub fn nearer(self, other: Reach) -> Reach {
        match (self, other) {
            (Reach::ByCall, _) | (_, Reach::ByCall) => Reach::ByCall,
            (Reach::Inside, _) | (_, Reach::Inside) => Reach::Inside,
            _ => Reach::Past,
        }
    }
}
