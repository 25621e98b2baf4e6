//! The changes of a process or a monitor.

use cp_inspect::component_table::Owner;
use serde::Serialize;

/// The value of a simple variable or of a queue.
#[derive(Drop, Serialize)]
#[serde(untagged)]
pub(crate) enum Value<'t> {
    Integer(i32),
    Boolean(bool),
    Character(char),
    /// The name of a value of an enumeration, or of the process that waits in a queue.
    Name(&'t str),
    /// A queue in which no process waits.
    Empty,
}

/// What was before, and what is now.
#[derive(Drop, Serialize)]
pub(crate) struct Step<T> {
    pub(crate) from: T,
    pub(crate) to: T,
}

/// What a process wrote.
#[derive(Drop, Serialize)]
pub(crate) struct Output {
    pub(crate) text: String,
}

/// The values of a variable or a queue.
#[derive(Drop, Serialize)]
pub(crate) struct VariableChange<'t> {
    pub(crate) variable: &'t str,
    pub(crate) from: Value<'t>,
    pub(crate) to: Value<'t>,
}

/// A change.
#[derive(Drop, Serialize)]
#[serde(untagged)]
pub(crate) enum Change<'t> {
    /// The status of a process, in the words of a report.
    Status(Step<String>),
    /// What a process wrote.
    Out(Output),
    /// A variable or a queue.
    Variable(VariableChange<'t>),
    /// The gate of a monitor: the name of its holder, `free` or `unset`.
    Gate(Step<&'t str>),
    /// The processes that ask for the gate of a monitor, by name.
    Askers(Step<Vec<&'t str>>),
}

impl Change<'_> {
    /// The word for its kind.
    pub(crate) fn kind(&self) -> &'static str {
        match self {
            Change::Status(_) => "status",
            Change::Out(_) => "out",
            Change::Variable(_) => "variable",
            Change::Gate(_) => "gate",
            Change::Askers(_) => "askers",
        }
    }
}

/// What changed of a process or a monitor, in the order in which it is reported.
#[derive(Drop)]
pub(crate) struct Changes<'t> {
    pub(crate) owner: Owner,
    pub(crate) name: &'t str,
    pub(crate) changes: Vec<Change<'t>>,
}
