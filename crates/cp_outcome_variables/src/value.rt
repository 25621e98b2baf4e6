//! A value in the words of traces.

use serde::Serialize;

/// The value of a simple variable or of a queue.
#[derive(Drop, Serialize)]
#[serde(untagged)]
pub enum VariableValue {
    Integer(i32),
    Boolean(bool),
    Character(char),
    /// The name of a value of an enumeration, or of the process that waits in a queue.
    Name(String),
    /// A queue in which no process waits.
    Empty,
}
