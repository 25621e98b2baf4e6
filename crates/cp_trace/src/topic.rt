//! What a trace is about.

use cp_base_names::Key;
use cp_inspect::component_table::ComponentTable;
use cp_model::tree::Tree;

/// What a trace is about: the processes and monitors of a text, in some rounds of its machine.
#[derive(Drop)]
pub struct Topic<'a, 't> {
    /// The tree of the text.
    pub tree: &'t Tree,
    /// The key of its names.
    pub key: Key,
    /// Its processes and monitors.
    pub component_table: ComponentTable<'t>,
    /// The names of those that are reported, or none if all are. A name that no process or monitor
    /// has selects none.
    pub only: &'a [&'a str],
    /// How many rounds were made before.
    pub done: u64,
    /// How many rounds are reported.
    pub rounds: u32,
}
