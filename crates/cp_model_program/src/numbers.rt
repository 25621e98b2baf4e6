//! The numbers in the code's tree have 16 bits, so those after a minus in its definitions are
//! within the bound that the law requires.

ghost use Rattle.std.specs.Prelude.{[], ◌∷◌, map};
ghost use Rattle.cp_model.specs.Erase as erase;
ghost use Rattle.cp_model.specs.View as view;
ghost use Rattle.cp_model.specs.View.{type_definition};
ghost use Rattle.cp_law_typing.specs.Magnitudes.{AreNegativesWithin, BeginsWithin, IsNegativeWithin};

use cp_model::tree::{
    Constant, ConstantDefinition, Defined, Section, Tree, TypeDefinition, TypeExpression,
};

fn read_constant(constant: &Constant)
    ensures { IsNegativeWithin 65535 (erase.constant constant.now) }
{
    if let Constant::Negative { value, .. } = constant {
        let _value = *value;
    }
}

#[cycle(types)]
fn read_type(written: &TypeExpression)
    ensures { BeginsWithin 65535 (erase.type_expression (view.type_expression written.now)) }
{
    match written {
        TypeExpression::Subrange(bounds) => read_constant(&bounds.0),
        TypeExpression::Array { element, .. } => read_type(element),
        _ => {}
    }
}

fn read_constants(definitions: &[ConstantDefinition])
    ensures { AreNegativesWithin 65535 (map erase.constant_definition definitions.now) }
{
    for d in definitions {
        read_constant(&d.value);
    }
}

fn read_definition(definition: &TypeDefinition)
    ensures { AreNegativesWithin 65535 (erase.type_definition (type_definition definition.now) ∷ []) }
{
    if let Defined::Written(t) = &definition.defined {
        read_type(t);
    }
}

fn read_types(types: &[TypeDefinition])
    ensures { AreNegativesWithin 65535 (map erase.type_definition (map type_definition types.now)) }
{
    for d in types {
        read_definition(d);
    }
}

fn read_section(section: &Section)
    ensures { AreNegativesWithin 65535 (erase.section (view.section_of section.now)) }
{
    match section {
        Section::Constants(definitions) => read_constants(definitions),
        Section::Types(types) => read_types(types),
    }
}

fn read_sections(sections: &[Section])
    ensures { AreNegativesWithin 65535 (erase.sections (map view.section_of sections.now)) }
{
    for section in sections {
        read_section(section);
    }
}

/// Reads the numbers of a tree's definitions, so that the caller knows that those after a minus are
/// within the bound that the law requires.
pub fn read_numbers(tree: &Tree)
    ensures { AreNegativesWithin 65535 (erase.abstract (view.tree tree.now)).definitions }
{
    read_sections(&tree.sections)
}
