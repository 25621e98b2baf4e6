//! The hierarchy of gates as laws: functions with empty bodies, whose contracts are the laws.

ghost use Rattle.cp_law_gates.specs.Laws.{AcceptedTextsMakeHierarchy, OrderMakesHierarchy, RoundsKeepOrder, StartIsInOrder, WholeRoundsKeepOrder};

/// If the gates of a state are in order, each asking chain ends at a process that asks for no gate.
pub fn chains_end()
    ensures { OrderMakesHierarchy }
{}

/// For a well-typed text the order holds at the start, and each round keeps it, whole or as any
/// list of events, lawful or not.
pub fn order()
    ensures start { StartIsInOrder }
    ensures round { RoundsKeepOrder }
    ensures whole { WholeRoundsKeepOrder }
{}

/// For every accepted text, in every state that rounds reach, the gates make a hierarchy: those
/// that a process holds are of types each defined earlier in the text than the one before, and each
/// asking chain ends.
pub fn hierarchy()
    ensures { AcceptedTextsMakeHierarchy }
{}
