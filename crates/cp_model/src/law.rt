//! The laws of rounds, as functions with empty bodies.
//!
//! A caller obtains a law as a fact by calling its function: `one_processor` for a single round,
//! and `invariant` to pass from one round to the next. The laws are stated in `specs/Laws.antt`,
//! over the invariant of `specs/Invariant.antt`, and described in docs/meaning.md, "Laws".

ghost use Rattle.cp_model.specs.Laws.{LawfulRoundIsSequential, PhasedRoundIsSequential, LawfulRoundIsSequentialFromStart, PhasedRoundIsSequentialFromStart};
ghost use Rattle.cp_model.specs.Laws.{InvariantAtStart, PrivateStepKeepsInvariant, KernelStepKeepsInvariant, PrivateTurnKeepsInvariant, KernelTurnKeepsInvariant, OwnPartsKeepInvariant, WakeKeepsInvariant, CloseKeepsInvariant, EventKeepsInvariant, RoundKeepsInvariant, SequentialRoundKeepsInvariant, RunKeepsInvariant};
ghost use Rattle.cp_model.specs.Laws.{ReferencesAreInReach, OnlyActivationsRefer, ClassRightsKeepOwner};
ghost use Rattle.cp_model.specs.Laws.{OwnPartIsTurned, OwnPartsKeepKernelPart, WakeKeepsKernelPart, PrivateStepKeepsKernelPart, PrivateStepKeepsOtherParts, KernelTurnKeepsOtherParts, KernelTurnKeepsPrivatelyReady, KernelTurnMakesNonePrivate};
ghost use Rattle.cp_model.specs.Laws.{PrivateStepsCommute, PrivateStepCommutesWithKernelTurn, SharedTurnsAreLawful};
ghost use Rattle.cp_model.specs.Laws.{ChainWithinIsAskingChain, AskingChainIsOne, ReportWithinIsReport};
ghost use Rattle.cp_model.specs.Laws.{WakeKeepsCount, PrivateTurnKeepsCount, KernelTurnKeepsCount, OwnPartsKeepCount};

/// From every state that satisfies the invariant, each lawful order of a round and the phased round
/// leave the state that one processor leaves. The same holds from every state that rounds reach
/// from the start, in any orders.
pub fn one_processor()
    ensures lawful { LawfulRoundIsSequential }
    ensures phased { PhasedRoundIsSequential }
    ensures lawful_from_start { LawfulRoundIsSequentialFromStart }
    ensures phased_from_start { PhasedRoundIsSequentialFromStart }
{}

/// The invariant holds at the start, and each part of a round keeps it, whatever the text and the
/// order of events.
pub fn invariant()
    ensures start { InvariantAtStart }
    ensures private_step { PrivateStepKeepsInvariant }
    ensures kernel_step { KernelStepKeepsInvariant }
    ensures private_turn { PrivateTurnKeepsInvariant }
    ensures kernel_turn { KernelTurnKeepsInvariant }
    ensures own_parts { OwnPartsKeepInvariant }
    ensures wake { WakeKeepsInvariant }
    ensures close { CloseKeepsInvariant }
    ensures event { EventKeepsInvariant }
    ensures round { RoundKeepsInvariant }
    ensures sequential_round { SequentialRoundKeepsInvariant }
    ensures run { RunKeepsInvariant }
{}

/// In every state that satisfies the invariant, what a `var` parameter refers to is in the reach of
/// its process, and a right to a class names a class of the same owner.
pub fn reach()
    ensures references { ReferencesAreInReach }
    ensures activations { OnlyActivationsRefer }
    ensures classes { ClassRightsKeepOwner }
{}

/// What the turns of a round leave unchanged: the private states of other processes, the own part
/// of a process that is privately ready, and the kernel's part.
pub fn parts()
    ensures turned { OwnPartIsTurned }
    ensures own_parts { OwnPartsKeepKernelPart }
    ensures wake { WakeKeepsKernelPart }
    ensures private_step { PrivateStepKeepsKernelPart }
    ensures beside_private_step { PrivateStepKeepsOtherParts }
    ensures beside_kernel_turn { KernelTurnKeepsOtherParts }
    ensures privately_ready { KernelTurnKeepsPrivatelyReady }
    ensures none_private { KernelTurnMakesNonePrivate }
{}

/// A private step commutes with the private steps and the kernel turns of other processes, so
/// private turns may be shared out and cut into steps in any way.
pub fn changing_places()
    ensures private_steps { PrivateStepsCommute }
    ensures kernel_turn { PrivateStepCommutesWithKernelTurn }
    ensures shared_turns { SharedTurnsAreLawful }
{}

/// A process has at most one asking chain. A chain or report that is computed within a bound is the
/// one that the definition gives.
pub fn chains()
    ensures chain { ChainWithinIsAskingChain }
    ensures one { AskingChainIsOne }
    ensures report { ReportWithinIsReport }
{}

/// Nothing within a round changes the count of rounds.
pub fn count()
    ensures wake { WakeKeepsCount }
    ensures private_turn { PrivateTurnKeepsCount }
    ensures kernel_turn { KernelTurnKeepsCount }
    ensures own_parts { OwnPartsKeepCount }
{}
