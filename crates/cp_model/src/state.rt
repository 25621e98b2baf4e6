//! Why a process of a running program has stopped.

/// Why a process has stopped. Reports print its number, which is `fault_number` in
/// `specs/StateViews.antt`.
#[derive(Clone, Copy, Debug, PartialEq, Eq)]
pub enum Fault {
    /// 1: a value out of range.
    Range,
    /// 2: an index out of bounds.
    Index,
    /// 3: arithmetic beyond the integers.
    Overflow,
    /// 4: a zero divisor.
    DivisionByZero,
    /// 5: a delay in a queue in which a process already is.
    QueueTaken,
    /// 6: a call of a component that isn't initialised.
    NotInitialised,
    /// 7: `init` of a component that was already initialised.
    InitialisedTwice,
    /// 8: a `case` with no matching label.
    NoLabel,
    /// 9: a function that returns without a result.
    NoResult,
}
