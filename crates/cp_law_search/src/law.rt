//! The laws of searches by calls, as functions with empty bodies. Only `accepted_tree_is_clockless`
//! has one, which calls other laws.

ghost use Rattle.cp_model.specs.Rules.{Accepted};
ghost use Rattle.cp_model.specs.View as view;
ghost use Rattle.cp_law_search.specs.Laws.{CompiledStillStatesAreMembers, CompiledTextsAreClockless, TextIsClockless};
ghost use Rattle.cp_law_search.specs.Laws.{EagerStepSettles, PrivateTurnSettles, SettledSettles, StepsOfKinds};
ghost use Rattle.cp_law_search.specs.Laws.{CoreReportsWay, FaultsAreInMembers, FoundByCallsIsReal, FoundIsExact, NoOrderIsStuckByCalls, OrdersSettleByCalls, RunIsReal, StillStatesAreMembers, VerdictsAreOfMembers};

use cp_model::tree::Tree;
use cp_model_program::law::accepted_tree_has_program;

/// The compiled program of a text without `realtime` and `wait` doesn't use the clock.
pub fn clockless_texts()
    ensures { CompiledTextsAreClockless }
{}

/// The compiled program of an accepted tree doesn't use the clock, if its text has neither
/// `realtime` nor `wait`. The laws below require only this test of the text.
pub fn accepted_tree_is_clockless(tree: &Tree)
    requires { Accepted (view.tree tree.now) }
    ensures { TextIsClockless (view.tree tree.now) }
{
    accepted_tree_has_program(tree);
    clockless_texts();
}

/// A core of a state reports the way of each process.
pub fn ways()
    ensures { CoreReportsWay }
{}

/// Let a set of cores be closed by calls, let the first core settle as a member, and let the program
/// not use the clock. Then each state that rounds in any order reach settles as a member. The
/// verdict of each still state is that of a member, and each fault has occurred in a member.
pub fn closed_by_calls()
    ensures settles { OrdersSettleByCalls }
    ensures still { StillStatesAreMembers }
    ensures compiled { CompiledStillStatesAreMembers }
    ensures verdict { VerdictsAreOfMembers }
    ensures faults { FaultsAreInMembers }
    ensures none_stuck { NoOrderIsStuckByCalls }
{}

/// Rounds of one-step turns reach what a run of cores reaches.
pub fn found_by_calls()
    ensures run { RunIsReal }
    ensures calls { FoundByCallsIsReal }
    ensures exact { FoundIsExact }
{}

/// How a search settles a core: by private turns, and by single steps.
pub fn settling()
    ensures kinds { StepsOfKinds }
    ensures step { EagerStepSettles }
    ensures turn { PrivateTurnSettles }
    ensures here { SettledSettles }
{}
