//! Counts the parameters of system types, of which the law of the compiler allows fewer than 2^20.

ghost use Rattle.std.specs.Prelude.{◌≡◌, [], ◌∷◌, map};
ghost use Rattle.cp_model.specs.Erase as erase;
ghost use Rattle.cp_model.specs.View as view;
ghost use Rattle.cp_model_program.specs.ParameterCounts.{are_short, is_short};

use cp_model::tree::{Defined, Parameters, Section, Tree, TypeDefinition};

/// The parameters that a system type has at most.
const MAX_PARAMETERS: usize = 1_048_575;

fn is_list_short(parameters: &[Parameters]) -> bool
    ensures { result ≡ is_short (map erase.parameter_group (map view.parameters parameters.now)) }
{
    let mut room = MAX_PARAMETERS;
    for group in parameters {
        if group.names.len() > room {
            return false;
        }
        room -= group.names.len();
    }
    true
}

fn is_definition_short(definition: &TypeDefinition) -> bool
    ensures { result ≡ are_short
        (erase.type_definition (view.type_definition definition.now) ∷ []) }
{
    match &definition.defined {
        Defined::System(system) => is_list_short(&system.parameters),
        _ => true,
    }
}

fn are_types_short(types: &[TypeDefinition]) -> bool
    ensures { result ≡ are_short
        (map erase.type_definition (map view.type_definition types.now)) }
{
    for definition in types {
        if !is_definition_short(definition) {
            return false;
        }
    }
    true
}

fn is_section_short(section: &Section) -> bool
    ensures { result ≡ are_short (erase.section (view.section_of section.now)) }
{
    match section {
        Section::Constants(_) => true,
        Section::Types(types) => are_types_short(types),
    }
}

fn are_sections_short(sections: &[Section]) -> bool
    ensures { result ≡ are_short (erase.sections (map view.section_of sections.now)) }
{
    for section in sections {
        if !is_section_short(section) {
            return false;
        }
    }
    true
}

/// Whether each system type of a tree has fewer than 2^20 parameters. In a source of at most a
/// mebibyte each has.
pub fn has_short_parameters(tree: &Tree) -> bool
    ensures { result ≡ are_short (erase.abstract (view.tree tree.now)).definitions }
{
    are_sections_short(&tree.sections)
}
