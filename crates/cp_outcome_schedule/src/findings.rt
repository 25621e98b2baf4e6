//! What a search has found.

use cp_compile_symbols::Tables;
use cp_model::tree::Tree;
use cp_outcome_reasons::snapshot::StatusSnapshot;
use cp_program::program::Program;
use cp_search::notes::Stop;
use cp_search_schedule::schedule::Schedule;

/// A text, its program, and who may wait forever.
#[derive(Clone, Copy)]
pub struct Subject<'r, 't> {
    pub bytes: &'r [u8],
    pub tree: &'t Tree,
    pub tables: &'r Tables<'t>,
    pub program: &'r Program,
    /// The numbers of the processes that may wait forever.
    pub servers: &'r [u32],
}

/// A schedule that was found, and where its replay leaves all processes.
#[derive(Drop)]
pub struct Found {
    pub schedule: Schedule,
    pub snapshot: StatusSnapshot,
}

/// A kind of schedule that a search looks for.
#[derive(Drop)]
pub enum Finding {
    /// None was found.
    None,
    /// The shortest one, which was replayed.
    Schedule(Found),
    /// One was found whose order text is too long to be read.
    TooLong,
    /// One was found, but a replay doesn't lead there: a defect of cpm.
    Defect,
}

/// What a search has found.
#[derive(Drop)]
pub struct Findings {
    pub stuck: Finding,
    pub fault: Finding,
    /// Whether each process has ended, or is a server and is delayed, in a state that was seen.
    pub has_ended: bool,
    /// How many states were seen.
    pub states: usize,
    /// How many calls led from one state to another.
    pub transitions: u64,
    /// Why not all were seen.
    pub stop: Option<Stop>,
}

impl Findings {
    /// Whether a schedule was found that is too long to be replayed.
    pub(crate) fn has_long(&self) -> bool {
        matches!(self.stuck, Finding::TooLong) || matches!(self.fault, Finding::TooLong)
    }
}

impl Finding {
    /// Whether a schedule of this kind was found.
    pub fn is_found(&self) -> bool {
        !matches!(self, Finding::None)
    }

    /// Whether a schedule was found that can't be replayed as it should.
    pub fn is_defect(&self) -> bool {
        matches!(self, Finding::Defect)
    }
}
