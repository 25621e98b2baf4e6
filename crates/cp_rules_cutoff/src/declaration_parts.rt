//! Definitions, variables, routines and system types.

ghost use Rattle.std.specs.Prelude.{◌≡◌, ◌&&◌, map, nat_lt};
ghost use Rattle.cp_model.specs.Syntax as s;
ghost use Rattle.cp_model.specs.View as view;
ghost use Rattle.cp_model.specs.declared.tree.ConstantDefinition as constant;
ghost use Rattle.cp_rules_cutoff.specs.After as after;
ghost use Rattle.cp_rules_cutoff.specs.After.{all_after, name_after, optional_after, parameters_after};

use crate::parts::{Part, both_after};
use cp_model::tree::{
    Body, ConstantDefinition, Defined, Parameters, Routine, Section, System, TypeDefinition,
};

impl Part for Body {
    ghost Plain = { s.Body };

    ghost view = { view.body };

    ghost after = { after.body_after };

    #[tactic(auto, using(crate::proofs::StatementParts::statements_are))]
    fn is_after(&self, place: usize) -> bool {
        self.at.is_after(place) && self.statements.is_after(place)
    }
}

impl Part for Parameters {
    ghost Plain = { s.Parameters };

    ghost view = { view.parameters };

    ghost after = { after.parameters_after };

    fn is_after(&self, place: usize) -> bool {
        self.by_reference.is_after(place) && both_after(&self.names, &self.of, place)
    }
}

// Whether what is before the variables of a routine is after `place`.
fn heading_after(r: &Routine, place: usize) -> bool
    ensures { result ≡ (optional_after (nat_lt place) r.now.entry
        && name_after place r.now.name
        && all_after (parameters_after place) (map view.parameters r.now.parameters.items)
        && optional_after (name_after place) r.now.result_type) }
{
    both_after(&r.entry, &r.name, place) && both_after(&r.parameters, &r.result_type, place)
}

impl Part for Routine {
    ghost Plain = { s.Routine };

    ghost view = { view.routine };

    ghost after = { after.routine_after };

    fn is_after(&self, place: usize) -> bool {
        heading_after(self, place) && both_after(&self.variables, &self.body, place)
    }
}

impl Part for System {
    ghost Plain = { s.System };

    ghost view = { view.system };

    ghost after = { after.system_after };

    fn is_after(&self, place: usize) -> bool {
        both_after(&self.parameters, &self.variables, place)
            && both_after(&self.routines, &self.body, place)
    }
}

impl Part for Defined {
    ghost Plain = { s.Defined };

    ghost view = { view.defined_type };

    ghost after = { after.defined_after };

    fn is_after(&self, place: usize) -> bool {
        match self {
            Defined::Written(t) => t.is_after(place),
            Defined::Enumeration(values) => values.is_after(place),
            Defined::System(y) => y.is_after(place),
        }
    }
}

impl Part for ConstantDefinition {
    ghost Plain = { constant.ConstantDefinition };

    ghost view = { λ d. d };

    ghost after = { after.constant_definition_after };

    fn is_after(&self, place: usize) -> bool {
        self.name.is_after(place) && self.value.is_after(place)
    }
}

impl Part for TypeDefinition {
    ghost Plain = { s.TypeDefinition };

    ghost view = { view.type_definition };

    ghost after = { after.type_definition_after };

    fn is_after(&self, place: usize) -> bool {
        self.name.is_after(place) && self.defined.is_after(place)
    }
}

impl Part for Section {
    ghost Plain = { s.Section };

    ghost view = { view.section_of };

    ghost after = { after.section_after };

    fn is_after(&self, place: usize) -> bool {
        match self {
            Section::Constants(list) => list.is_after(place),
            Section::Types(list) => list.is_after(place),
        }
    }
}
