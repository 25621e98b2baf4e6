//! The law of what is later in a text, as a function with an empty body whose contract is the law.

ghost use Rattle.cp_rules_cutoff.specs.Laws.{RestReportsNothingEarlier};

/// Once a violation is reported and all that is left of a text is after its place, nothing that is
/// reported of the rest is earlier.
pub fn rest()
    ensures { RestReportsNothingEarlier }
{}
