//! What holds of a component of each sort.

ghost use Rattle.std.specs.Prelude.{◌≡◌};
ghost use Rattle.cp_model.specs.Components.{same_sort};
ghost use Rattle.cp_model.specs.Erase.{sort_of};
ghost use Rattle.cp_model.specs.RulesDeclarations as declarations;
ghost use Rattle.cp_model.specs.RulesEnvironment as environment;
ghost use Rattle.cp_model.specs.RulesTypes as types;

use crate::tree::Sort;

impl Sort {
    /// Whether this is the sort of processes.
    pub fn is_process(self) -> bool
        ensures { result ≡ environment.is_process self }
    {
        matches!(self, Sort::Process)
    }

    /// Whether this is the sort of monitors.
    pub fn is_monitor(self) -> bool
        ensures { result ≡ environment.is_monitor self }
    {
        matches!(self, Sort::Monitor)
    }

    /// Whether this is the sort of classes.
    pub fn is_class(self) -> bool
        ensures { result ≡ types.is_class self }
    {
        matches!(self, Sort::Class)
    }

    /// Whether a component of this sort has words of its own: a process or a monitor. A class takes
    /// its words from its owner.
    pub fn is_owner(self) -> bool
        ensures { result ≡ declarations.is_owner self }
    {
        !matches!(self, Sort::Class)
    }

    /// Whether two sorts are the same.
    pub fn is_same(self, other: Sort) -> bool
        ensures { result ≡ same_sort (sort_of self) (sort_of other) }
    {
        matches!(
            (self, other),
            (Sort::Process, Sort::Process)
                | (Sort::Monitor, Sort::Monitor)
                | (Sort::Class, Sort::Class)
        )
    }
}
