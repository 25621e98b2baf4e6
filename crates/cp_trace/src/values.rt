//! The values of the variables of a component.

use crate::changes::{Change, VariableChange};
use crate::owners::word;
use crate::vocabulary::Vocabulary;
use cp_inspect::component_table::Owner;
use cp_inspect::inspect::Inspect;
use cp_inspect::leaves::Leaf;
use cp_inspect::place::Value;
use std::alloc::{AllocError, Global};

/// The values of the variables of a component when they were seen last.
#[derive(Drop)]
pub(crate) struct Values {
    of: Owner,
    /// A value for each place of the component.
    seen: Vec<Value>,
}

impl Values {
    /// The values that the variables at these places of a process or monitor have in a
    /// machine.
    pub(crate) fn of<M: Inspect>(
        alloc: Global,
        of: Owner,
        leaves: &[Leaf],
        machine: &M,
    ) -> Result<Values, AllocError> {
        let mut seen = Vec::with_capacity(alloc, leaves.len())?;
        for place in leaves {
            seen.push(machine.value_at(&place.in_owner(of)))?;
        }
        Ok(Values { of, seen })
    }

    // Adds the change of the variable at the place with a number, if there is one.
    fn push_change<'a, 't: 'a, M: Inspect>(
        &mut self,
        vocabulary: &Vocabulary<'t>,
        number: usize,
        place: &'a Leaf,
        machine: &M,
        changes: &mut Vec<Change<'a>>,
    ) -> Result<(), AllocError> {
        let now = machine.value_at(&place.in_owner(self.of));
        let Some(seen) = self.seen.get_mut(number) else {
            return Ok(());
        };
        if *seen == now {
            return Ok(());
        }
        changes.push(Change::Variable(VariableChange {
            variable: word(&place.path),
            from: vocabulary.value(machine, place.of, *seen),
            to: vocabulary.value(machine, place.of, now),
        }))?;
        *seen = now;
        Ok(())
    }

    /// Adds each change of the variables at these places, in their order.
    pub(crate) fn push_changes<'a, 't: 'a, M: Inspect>(
        &mut self,
        vocabulary: &Vocabulary<'t>,
        leaves: &'a [Leaf],
        machine: &M,
        changes: &mut Vec<Change<'a>>,
    ) -> Result<(), AllocError> {
        for (number, place) in leaves.iter().enumerate() {
            self.push_change(vocabulary, number, place, machine, changes)?;
        }
        Ok(())
    }
}
