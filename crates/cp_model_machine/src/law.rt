//! The laws of steps, turns and starts, and those of whole rounds and reports. `specs/Laws.antt`
//! and `specs/RoundLaws.antt` state them.

ghost use Rattle.cp_model_machine.specs.Chains.{ChainIsChain, ReportHasChains, RunHasChains, StatesMakeHierarchies};
ghost use Rattle.cp_model_machine.specs.Laws.{JoinedStepIsStep, KernelStepIsStep, KernelTurnIsTurn, KernelTurnKeepsBegins, KernelTurnKeepsParts};
ghost use Rattle.cp_model_machine.specs.Laws.{PrivateStepIsStep, PrivateTurnIsTurn, PrivateTurnKeepsKernel, PrivateTurnKeepsParts};
ghost use Rattle.cp_model_machine.specs.Laws.{OutputMoves, StartIsKernel, StartIsPart, WakingIsWaking};
ghost use Rattle.cp_model_machine.specs.RoundLaws.{EndIsEnd, LawfulReplayIsRound, ReplayIsReplay, ReportIsReport, RoundIsRound, RoundsAreRun, RunIsReported, StartIsIn};

/// If a private state is that of its process in a state with the invariant, then the machine's
/// private step makes it that of the process in the state after the meaning's private step. The
/// same holds for turns of any number of steps. The function does nothing: calling it gives the
/// caller the laws as facts.
pub fn private_steps()
    ensures step { PrivateStepIsStep }
    ensures turn { PrivateTurnIsTurn }
{}

/// If a kernel is that of a state with the invariant, and a private state is that of its process,
/// then the machine's kernel step makes them those of the state after the meaning's kernel step.
/// The same holds for turns of any number of steps, and for a step of any kind that is made with the
/// words of all monitors in reach.
pub fn kernel_steps()
    ensures step { KernelStepIsStep }
    ensures joined { JoinedStepIsStep }
    ensures turn { KernelTurnIsTurn }
{}

/// A turn of one process keeps the private states of the others right, both those that have begun
/// and those that haven't. A private turn also keeps the kernel right.
pub fn others()
    ensures kernel { KernelTurnKeepsParts }
    ensures begins { KernelTurnKeepsBegins }
    ensures private { PrivateTurnKeepsParts }
    ensures shared { PrivateTurnKeepsKernel }
{}

/// A private state stays that of its process when its output moves to the transcript, and when the
/// process wakes.
pub fn between_turns()
    ensures output { OutputMoves }
    ensures wake { WakingIsWaking }
{}

/// The first private state of each process is that of the process in the start of the meaning. Only
/// the first process runs from the start on, and each other one is right for a process that hasn't
/// begun. The first kernel is that of the start.
pub fn start()
    ensures parts { StartIsPart }
    ensures kernel { StartIsKernel }
{}

/// The first machine is in the start of the meaning. A phased round leads a machine to the state
/// that the meaning's phased round leads to, and any number of rounds to the state that one
/// processor reaches. The end of a round is that of the meaning, too.
pub fn rounds()
    ensures start { StartIsIn }
    ensures round { RoundIsRound }
    ensures end { EndIsEnd }
    ensures run { RoundsAreRun }
{}

/// The report read from the words of a machine between two rounds is that of the state that the
/// machine is in. So after any number of rounds from the start, it is the report of one processor.
pub fn reports()
    ensures read { ReportIsReport }
    ensures run { RunIsReported }
{}

/// A list of events of processes of the text, lawful or not, leads a machine that is in a state to
/// the state that the same events lead to. A lawful list leads to the state that one processor
/// reaches.
pub fn replays()
    ensures replay { ReplayIsReplay }
    ensures lawful { LawfulReplayIsRound }
{}

/// The gates of each state that a machine is in make a hierarchy, by the places of the monitors'
/// types in the text, so no processes wait for each other in a circle. The chain that is read off a
/// machine's kernel is the asking chain of the state, which ends. Between rounds, the report with
/// the lines of these chains is that of the state.
pub fn waits()
    ensures hierarchy { StatesMakeHierarchies }
    ensures chain { ChainIsChain }
    ensures report { ReportHasChains }
    ensures run { RunHasChains }
{}
