//! The outermost scope: what the definitions of a text define, in text order.

ghost use Rattle.std.specs.Prelude.{◌≡◌, IfOk, OnOk, map, pos};
ghost use Rattle.cp_model.specs.Abstract as a;
ghost use Rattle.cp_model.specs.Declarations.{globals, is_component};
ghost use Rattle.cp_model.specs.Types as t;
ghost use Rattle.cp_model.specs.Types.{ResolvedType, standard_scope};
ghost use Rattle.cp_model.specs.Erase as erase;
ghost use Rattle.cp_model.specs.View as view;
ghost use Rattle.cp_compile_symbols.specs.Outer.{Defines, MakesComponents, NamesType, OuterRepresents, component_of, defining, defining_all, with_standard, with_type, with_value, with_values};
ghost use Rattle.cp_compile_symbols.specs.Representing.{MakesFields, Represents, base_of, entry, simple_of, value_of, with_parameter, with_parameters, type_from};

use crate::names::{Names, Value};
use crate::resolving::add_fields;
use crate::types::{Base, Field, Simple, TypeRow, Types};
use cp_base_names::Key;
use cp_model::ordinals::{FIRST_INTEGER, LAST_CHARACTER, LAST_INTEGER};
use cp_model::tree::{
    ConstantDefinition, Defined, Identifier, Parameters, Section, System, Tree, TypeDefinition,
    TypeExpression,
};
use std::alloc::{AllocError, Global};

/// The names and types of the outermost scope.
#[derive(Drop)]
pub struct Outer<'t> {
    pub(crate) names: Names<'t>,
    pub(crate) types: Types<'t>,
}

// Converts a number to an ordinal.
fn ordinal(n: usize) -> Result<i32, AllocError>
    ensures { IfOk result (λ i. i ≡ pos n) }
{
    if n > 0x7fff_ffff {
        return Err(AllocError);
    }
    Ok(n as i32)
}

fn value<'t>(base: Base<'t>, ordinal: i32) -> Value<'t>
    ensures { value_of result ≡ (base_of base.entry, ordinal) }
{
    Value { base, ordinal }
}

// A simple type whose start value is 0.
fn simple<'t>(base: Base<'t>, low: i32, high: i32) -> Simple<'t>
    ensures { simple_of result ≡ t.Simple (base_of base.entry) low high (pos 0) }
{
    Simple {
        base,
        low,
        high,
        start: 0,
    }
}

// The value of an enumeration that has this number.
fn enumeration_value<'t>(base: Base<'t>, number: usize) -> Result<Value<'t>, AllocError>
    ensures { IfOk result (λ v. value_of v ≡ (base_of base.entry, pos number)) }
{
    let ordinal = ordinal(number)?;
    Ok(value(base, ordinal))
}

// The type of an enumeration whose last value has the number `last`.
fn enumeration<'t>(base: Base<'t>, last: usize) -> Result<Simple<'t>, AllocError>
    ensures { IfOk result (λ s. simple_of s ≡ t.Simple (base_of base.entry) (pos 0) (pos last)
        (pos 0)) }
{
    let last = ordinal(last)?;
    Ok(simple(base, 0, last))
}

impl<'t> Types<'t> {
    /// Whether the variables of a type are components.
    pub fn is_component(&self, number: usize) -> bool
        ensures { (t : ResolvedType) → Represents self.now number t → result ≡ is_component t }
    {
        matches!(self.row(number), Some(TypeRow::Component { .. }))
    }

    // Adds the parameters of one group, except rights to components.
    fn add_parameter(
        &mut self,
        names: &Names<'t>,
        group: &'t Parameters,
        members: &mut Vec<Field<'t>>,
    ) -> Result<(), AllocError>
        ensures { OnOk result (MakesFields names.now self.old self.new (map entry members.old.items)
            (map entry members.new.items) (with_parameter group.now)) }
    {
        let of = self.named_type(names, &group.of)?;
        if !self.is_component(of) {
            add_fields(members, &group.names, of)?;
        }
        Ok(())
    }

    /// Adds the parameters of these groups, except rights to components.
    pub fn add_parameters(
        &mut self,
        names: &Names<'t>,
        groups: &'t [Parameters],
        members: &mut Vec<Field<'t>>,
    ) -> Result<(), AllocError>
        ensures { OnOk result (MakesFields names.now self.old self.new (map entry members.old.items)
            (map entry members.new.items) (with_parameters groups.now)) }
    {
        for group in groups {
            self.add_parameter(names, group, members)?;
        }
        Ok(())
    }

    // Adds the type of the components of a system type, and returns its number.
    fn component(&mut self, names: &Names<'t>, system: &'t System) -> Result<usize, AllocError>
        ensures { IfOk result (λ n. MakesComponents names.now self.old self.new system.now n) }
    {
        let mut members = Vec::new(self.alloc);
        self.add_parameters(names, &system.parameters, &mut members)?;
        self.fields(names, &system.variables, &mut members)?;
        let number = self.add_system(system)?;
        self.add(TypeRow::Component {
            system: number,
            members,
        })
    }
}

impl<'t> Outer<'t> {
    // Adds a constant.
    fn add_constant(&mut self, name: &'t [u8], value: Value<'t>) -> Result<(), AllocError>
        ensures { OnOk result (Defines self.old self.new
            (with_value name.now (value_of value.entry))) }
    {
        self.names.constants.set(name, value)
    }

    // Adds the name of a type.
    fn add_type(&mut self, name: &'t [u8], of: usize) -> Result<(), AllocError>
        ensures { OnOk result (NamesType self.old self.new name.now of) }
    {
        self.names.types.set(name, of)
    }

    // Adds a simple type and its name.
    fn add_base(&mut self, name: &'t [u8], base: Simple<'t>) -> Result<(), AllocError>
        ensures { OnOk result (Defines self.old self.new
            (with_type name.now (λ g. simple_of base.entry))) }
    {
        let of = self.types.add(TypeRow::Simple(base))?;
        self.add_type(name, of)
    }

    // Adds the standard names.
    fn add_standard(&mut self) -> Result<(), AllocError>
        ensures { OnOk result (Defines self.old self.new with_standard) }
    {
        let queue = self.types.add(TypeRow::Queue)?;
        self.add_type(b"queue", queue)?;
        self.add_base(b"char", simple(Base::Char, 0, LAST_CHARACTER as i32))?;
        self.add_base(b"boolean", simple(Base::Boolean, 0, 1))?;
        self.add_base(
            b"integer",
            simple(Base::Integer, FIRST_INTEGER, LAST_INTEGER),
        )?;
        self.add_constant(b"true", value(Base::Boolean, 1))?;
        self.add_constant(b"false", value(Base::Boolean, 0))
    }

    /// The scope of the standard names.
    pub fn standard(alloc: Global, key: Key) -> Result<Outer<'t>, AllocError>
        ensures { IfOk result (λ outer. OuterRepresents outer standard_scope) }
    {
        let mut outer = Outer {
            names: Names::new(alloc, key),
            types: Types::new(alloc, key),
        };
        outer.add_standard()?;
        Ok(outer)
    }

    fn define_constant(&mut self, definition: &'t ConstantDefinition) -> Result<(), AllocError>
        ensures { OnOk result (Defines self.old self.new
            (defining (erase.constant_definition definition.now))) }
    {
        match self.names.value(&definition.value) {
            Some(value) => self.add_constant(definition.name.name.as_bytes(), value),
            None => Ok(()),
        }
    }

    fn define_type(
        &mut self,
        name: &'t Identifier,
        written: &'t TypeExpression,
    ) -> Result<(), AllocError>
        ensures { OnOk result (Defines self.old self.new (with_type name.now.name (type_from written.now))) }
    {
        let of = self.types.resolve(&self.names, written)?;
        self.add_type(name.name.as_bytes(), of)
    }

    // Adds the values of an enumeration, the last one first.
    fn add_values(&mut self, base: Base<'t>, values: &'t [Identifier]) -> Result<(), AllocError>
        ensures { OnOk result (Defines self.old self.new
            (with_values (base_of base.entry) 0 values.now)) }
    {
        let mut left = values.len();
        while left > 0 {
            left -= 1;
            let value = enumeration_value(base, left)?;
            self.add_constant(values[left].name.as_bytes(), value)?;
        }
        Ok(())
    }

    fn define_enumeration(
        &mut self,
        identifier: &'t Identifier,
        values: &'t [Identifier],
    ) -> Result<(), AllocError>
        ensures { OnOk result (Defines self.old self.new
            (defining (a.EnumDef identifier.now.name (map erase.name values.now)))) }
    {
        let last = values.len().saturating_sub(1);
        let name = identifier.name.as_bytes();
        let base = Base::Enumeration { name, last };
        self.add_base(name, enumeration(base, last)?)?;
        self.add_values(base, values)
    }

    fn define_system(&mut self, name: &'t Identifier, system: &'t System) -> Result<(), AllocError>
        ensures { OnOk result (Defines self.old self.new
            (with_type name.now.name (component_of system.now))) }
    {
        let of = self.types.component(&self.names, system)?;
        self.add_type(name.name.as_bytes(), of)
    }

    fn define_as(&mut self, definition: &'t TypeDefinition) -> Result<(), AllocError>
        ensures { OnOk result (Defines self.old self.new
            (defining (erase.type_definition (view.type_definition definition.now)))) }
    {
        match &definition.defined {
            Defined::Written(t) => self.define_type(&definition.name, t),
            Defined::Enumeration(values) => self.define_enumeration(&definition.name, values),
            Defined::System(system) => self.define_system(&definition.name, system),
        }
    }

    fn define_constants(&mut self, list: &'t [ConstantDefinition]) -> Result<(), AllocError>
        ensures { OnOk result (Defines self.old self.new
            (defining_all (map erase.constant_definition list.now))) }
    {
        for d in list {
            self.define_constant(d)?;
        }
        Ok(())
    }

    fn define_types(&mut self, list: &'t [TypeDefinition]) -> Result<(), AllocError>
        ensures { OnOk result (Defines self.old self.new
            (defining_all (map erase.type_definition (map view.type_definition list.now)))) }
    {
        for d in list {
            self.define_as(d)?;
        }
        Ok(())
    }

    fn define_section(&mut self, section: &'t Section) -> Result<(), AllocError>
        ensures { OnOk result (Defines self.old self.new
            (defining_all (erase.section (view.section_of section.now)))) }
    {
        match section {
            Section::Constants(list) => self.define_constants(list),
            Section::Types(list) => self.define_types(list),
        }
    }

    fn define_sections(&mut self, sections: &'t [Section]) -> Result<(), AllocError>
        ensures { OnOk result (Defines self.old self.new
            (defining_all (erase.sections (map view.section_of sections.now)))) }
    {
        for section in sections {
            self.define_section(section)?;
        }
        Ok(())
    }

    /// The outermost scope of a text.
    pub fn of_tree(alloc: Global, key: Key, tree: &'t Tree) -> Result<Outer<'t>, AllocError>
        ensures { IfOk result (λ outer. OuterRepresents outer
            (globals (erase.abstract (view.tree tree.now)))) }
    {
        let mut outer = Outer::standard(alloc, key)?;
        outer.define_sections(&tree.sections)?;
        Ok(outer)
    }
}
