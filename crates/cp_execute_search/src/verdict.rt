//! What a search has shown, and the exit status for it.

ghost use Rattle.std.specs.Prelude.{◌≡◌};
ghost use Rattle.cp_execute_search.specs.Statuses.{status};

/// What a search has shown.
#[derive(Clone, Copy)]
pub enum SearchVerdict {
    /// No schedule faults or gets stuck.
    Fine,
    /// Some schedule gets stuck, and none was found that faults.
    Stuck,
    /// Some schedule faults.
    Fault,
    /// Nothing of this: not all states were seen, or a schedule is too long to be replayed.
    Running,
    /// A schedule that was found doesn't lead where the search says: a defect of cpm.
    Defect,
}

/// The exit status of a verdict.
pub fn status_of(verdict: SearchVerdict) -> u8
    ensures { result ≡ status verdict }
{
    match verdict {
        SearchVerdict::Fine => 0,
        SearchVerdict::Stuck => 5,
        SearchVerdict::Fault => 6,
        SearchVerdict::Running => 7,
        SearchVerdict::Defect => 4,
    }
}

/// The word for a verdict.
pub(crate) fn word_of(verdict: SearchVerdict) -> &'static str {
    match verdict {
        SearchVerdict::Fine => "fine",
        SearchVerdict::Stuck => "stuck",
        SearchVerdict::Fault => "fault",
        SearchVerdict::Running => "running",
        SearchVerdict::Defect => "defect",
    }
}
