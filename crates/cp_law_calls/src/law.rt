//! The laws of eager steps and of orders of calls, as functions with empty bodies.

ghost use Rattle.cp_law_calls.specs.Laws.{DifferentCallsCommute, EagerStepsCommute, LateIsOfKernel, LeavingMovesEarlier, PrivateIsEager, ReachedAreGood, RoundKeepsGood, StartIsGood, StepKeepsGood, StepsOfKindsKeepGood, TakingMovesLater};
ghost use Rattle.cp_law_calls.specs.Laws.{ByCallsIsOrder, CallsDetermineEnd, DifferentCallsSwap, OrderIsByCalls, OrderIsRun, OrdersStayWithin, RunIsOrder, SameCallersSameEnd, SettlesOnce, StepPastClosing, StillIsByCalls, TimelessTexts};
ghost use Rattle.cp_law_calls.specs.Exclusion.{HolderIsInside, InsideHolds, NoTwoInside};
ghost use Rattle.cp_law_calls.specs.Laws.{AcceptedByCallsIsOrder, AcceptedCallsDetermineEnd, AcceptedStillIsByCalls};

/// The states in which the laws of eager steps hold: the start of a well-typed text, and what steps
/// and rounds make of it. No two processes hold one gate in them.
pub fn good_states()
    ensures start { StartIsGood }
    ensures step { StepKeepsGood }
    ensures kinds { StepsOfKindsKeepGood }
    ensures round { RoundKeepsGood }
    ensures reached { ReachedAreGood }
{}

/// An eager step changes places with every step of another process. So taking a gate may be moved
/// later, and leaving a monitor earlier. Calls of different monitors change places, too.
pub fn eager_steps()
    ensures both { EagerStepsCommute }
    ensures taking { TakingMovesLater }
    ensures leaving { LeavingMovesEarlier }
    ensures calls { DifferentCallsCommute }
    ensures private { PrivateIsEager }
    ensures kernel { LateIsOfKernel }
{}

/// A well-typed text without `realtime` and `wait` doesn't use the clock.
pub fn timeless()
    ensures { TimelessTexts }
{}

/// If nothing uses the clock, rounds in any order are runs of steps, except for the count of rounds
/// and for who is fresh.
pub fn rounds()
    ensures closing { StepPastClosing }
    ensures run { OrderIsRun }
    ensures order { RunIsOrder }
{}

/// If nothing uses the clock, calls reach whatever a reached state settles as, and so each still
/// state. The order of calls determines what is reached. A closed list of states has all of it.
pub fn orders_of_calls()
    ensures once { SettlesOnce }
    ensures calls { OrderIsByCalls }
    ensures still { StillIsByCalls }
    ensures order { ByCallsIsOrder }
    ensures end { CallsDetermineEnd }
    ensures callers { SameCallersSameEnd }
    ensures swap { DifferentCallsSwap }
    ensures within { OrdersStayWithin }
{}

/// For accepted texts without `realtime` and `wait`: calls reach each still state that rounds
/// reach, and rounds reach what calls reach. The order of calls determines the end.
pub fn accepted_texts()
    ensures still { AcceptedStillIsByCalls }
    ensures order { AcceptedByCallsIsOrder }
    ensures end { AcceptedCallsDetermineEnd }
{}

/// Mutual exclusion, for an accepted text and each state that rounds in any order reach. A process
/// is in a monitor exactly if it holds its gate, so no two processes are in one monitor.
pub fn mutual_exclusion()
    ensures holds { InsideHolds }
    ensures inside { HolderIsInside }
    ensures apart { NoTwoInside }
{}
