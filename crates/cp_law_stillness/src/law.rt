//! The laws of still states, as functions with empty bodies: their contracts are the laws.

ghost use Rattle.cp_law_stillness.specs.Laws.{StillEventsChangeNothing, StillHasNoStep, StillPhasedRoundChangesNothing, StillReplayChangesNothing, StillRoundChangesNothing, StillRunChangesNothing, StillTurnsChangeNothing};
ghost use Rattle.cp_law_stillness.specs.Laws.{ReportOfCount, StaysStill, StillAfterMoreRounds};

/// No process of a still state has a next step, so no step and no turn of one changes anything.
pub fn turns()
    ensures kind { StillHasNoStep }
    ensures turns { StillTurnsChangeNothing }
{}

/// Rounds of a still state, whole or as any lists of events of the processes, change only
/// the count of rounds.
pub fn rounds()
    ensures events { StillEventsChangeNothing }
    ensures round { StillRoundChangesNothing }
    ensures phased { StillPhasedRoundChangesNothing }
    ensures run { StillRunChangesNothing }
    ensures replay { StillReplayChangesNothing }
{}

/// If only the count of rounds has grown, a still state is still, and one that isn't still isn't.
/// So once a run is still it stays still, however many rounds follow.
pub fn lasting()
    ensures stays { StaysStill }
    ensures more { StillAfterMoreRounds }
{}

/// If only the count of rounds has grown, the report differs only in its first line.
pub fn report()
    ensures { ReportOfCount }
{}
