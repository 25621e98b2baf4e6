//! Runs of some worked texts, which `worked/make_rows.py` selects.

ghost use Rattle.cp_test_machine.specs.Runs.{Runs};

/// In each of these runs the machine of the compiled program gives the same answer as the meaning.
pub fn runs_hold()
    ensures { Runs }
{}
