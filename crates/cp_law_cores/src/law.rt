//! The laws of cores, as functions with empty bodies.

ghost use Rattle.cp_law_cores.specs.Laws.{CoreReportsEnd, CoreReportsFaults, CoreReportsKind, CoreReportsSound, CoreReportsStill};
ghost use Rattle.cp_law_cores.specs.Laws.{NobodyBegins, ReachedStatesHaveCores, RoundsKeepCores, StepsKeepCores, WipedRepresents};

/// Each state that rounds reach has a core, if the program doesn't use the clock. The steps of the
/// core are those of the state.
pub fn states()
    ensures reached { ReachedStatesHaveCores }
    ensures kind { CoreReportsKind }
    ensures steps { StepsKeepCores }
    ensures ends { RoundsKeepCores }
{}

/// A core reports whether its state is still, whether all have ended in it, and who has faulted.
pub fn verdicts()
    ensures still { CoreReportsStill }
    ensures end { CoreReportsEnd }
    ensures sound { CoreReportsSound }
    ensures faults { CoreReportsFaults }
{}

/// When the end of a round changes no core, and which words of a core may be wiped.
pub fn searching()
    ensures nobody { NobodyBegins }
    ensures wiped { WipedRepresents }
{}
