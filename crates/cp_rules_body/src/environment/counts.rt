//! The counts of an environment: how many types, routines and other rows its tables have, and how
//! many processes and monitors there are so far.
//!
//! What is added to a table next gets the number of its rows as its number. Processes and monitors
//! have no table, so declarations set how many there are. cp_model's `specs/RulesEnvironment.antt`
//! defines the environment.

ghost use Rattle.std.specs.Prelude.{◌≡◌, length};

use crate::environment::Environment;

// How many there are.
impl<'t> Environment<'t> {
    /// The number of types.
    pub fn type_count(&self) -> usize
        ensures { result ≡ length self.now.types }
    {
        self.types.len()
    }

    /// The number of tables of members.
    pub fn table_count(&self) -> usize
        ensures { result ≡ length self.now.members }
    {
        self.members.len()
    }

    /// The number of system types.
    pub fn system_count(&self) -> usize
        ensures { result ≡ length self.now.systems }
    {
        self.systems.len()
    }

    /// The number of routines.
    pub fn routine_count(&self) -> usize
        ensures { result ≡ length self.now.routines }
    {
        self.routines.len()
    }

    /// The number of parameters.
    pub fn parameter_count(&self) -> usize
        ensures { result ≡ length self.now.parameters }
    {
        self.parameters.len()
    }

    /// The number of processes so far, counting the initial one.
    pub fn process_count(&self) -> usize
        ensures { result ≡ self.now.processes }
    {
        self.processes
    }

    /// The number of monitors so far.
    pub fn monitor_count(&self) -> usize
        ensures { result ≡ self.now.monitors }
    {
        self.monitors
    }
}

// What declarations count.
impl<'t> Environment<'t> {
    /// Sets the number of processes.
    pub fn count_processes(&mut self, count: usize)
        ensures { self.new ≡ record self.old { processes = count } }
    {
        self.processes = count;
    }

    /// Sets the number of monitors.
    pub fn count_monitors(&mut self, count: usize)
        ensures { self.new ≡ record self.old { monitors = count } }
    {
        self.monitors = count;
    }
}
