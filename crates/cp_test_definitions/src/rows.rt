//! The worked texts of the folder `worked`: each function says of one folder that the definitions
//! give its answers.
//!
//! Written by worked/make_rows.py.

ghost use Rattle.cp_test_definitions.specs.Calls.{Calls};
ghost use Rattle.cp_test_definitions.specs.Classes.{Classes};
ghost use Rattle.cp_test_definitions.specs.Clock.{Clock};
ghost use Rattle.cp_test_definitions.specs.Components.{Components};
ghost use Rattle.cp_test_definitions.specs.Examples.{Examples};
ghost use Rattle.cp_test_definitions.specs.Meaning.{Meaning};
ghost use Rattle.cp_test_definitions.specs.Monitors.{Monitors};
ghost use Rattle.cp_test_definitions.specs.Names.{Names};
ghost use Rattle.cp_test_definitions.specs.Nesting.{Nesting};
ghost use Rattle.cp_test_definitions.specs.Orders.{Orders};
ghost use Rattle.cp_test_definitions.specs.Processes.{Processes};
ghost use Rattle.cp_test_definitions.specs.Refusals.{Refusals};
ghost use Rattle.cp_test_definitions.specs.Tutorial.{Tutorial};
ghost use Rattle.cp_test_definitions.specs.Types.{Types};
ghost use Rattle.cp_test_definitions.specs.Variables.{Variables};
ghost use Rattle.cp_test_definitions.specs.Wanted.{Wanted};

/// Each of the answers of `worked/calls`.
pub fn calls_hold()
    ensures { Calls }
{}

/// Each of the answers of `worked/classes`.
pub fn classes_hold()
    ensures { Classes }
{}

/// Each of the answers of `worked/clock`.
pub fn clock_hold()
    ensures { Clock }
{}

/// Each of the answers of `worked/components`.
pub fn components_hold()
    ensures { Components }
{}

/// Each of the answers of `worked/examples`.
pub fn examples_hold()
    ensures { Examples }
{}

/// Each of the answers of `worked/meaning`.
pub fn meaning_hold()
    ensures { Meaning }
{}

/// Each of the answers of `worked/monitors`.
pub fn monitors_hold()
    ensures { Monitors }
{}

/// Each of the answers of `worked/names`.
pub fn names_hold()
    ensures { Names }
{}

/// Each of the answers of `worked/nesting`.
pub fn nesting_hold()
    ensures { Nesting }
{}

/// Each of the answers of `worked/orders`.
pub fn orders_hold()
    ensures { Orders }
{}

/// Each of the answers of `worked/processes`.
pub fn processes_hold()
    ensures { Processes }
{}

/// Each of the answers of `worked/refusals`.
pub fn refusals_hold()
    ensures { Refusals }
{}

/// Each of the answers of `worked/tutorial`.
pub fn tutorial_hold()
    ensures { Tutorial }
{}

/// Each of the answers of `worked/types`.
pub fn types_hold()
    ensures { Types }
{}

/// Each of the answers of `worked/variables`.
pub fn variables_hold()
    ensures { Variables }
{}

/// Each of the answers of `worked/wanted`.
pub fn wanted_hold()
    ensures { Wanted }
{}
