//! The parameters of searches.

ghost use Rattle.cp_base_config.specs.Plans.{AreWorkers};

/// The parameters of a search: the largest number of states, how much memory they may take, in MB,
/// by how many workers it is made, and what is written.
#[derive(Clone, Copy)]
pub struct Searching {
    pub states: u32,
    pub memory: u32,
    /// How many threads look at states, from 1 to 64.
    pub workers: u32,
    pub form: SearchForm,
    ghost workers_in_range: { AreWorkers workers },
}

/// What is written of a search.
#[derive(Clone, Copy)]
pub enum SearchForm {
    /// Lines: the shortest schedules, call by call, and how much was seen.
    Lines,
    /// The same content, as a JSON object.
    Json,
}
