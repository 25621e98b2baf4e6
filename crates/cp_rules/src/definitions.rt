//! The definitions of a text: constants, types and enumerations, one after another.

ghost use Rattle.std.specs.Prelude.{◌≡◌, [], ℕ, None, IfOk, OnOk, length, map, pos, ◌-◌};
ghost use Rattle.cp_model.specs.Rules as rules;
ghost use Rattle.cp_model.specs.RulesDeclarations as d;
ghost use Rattle.cp_model.specs.RulesEnvironment as r;
ghost use Rattle.cp_model.specs.View as view;
ghost use Rattle.cp_rules.specs.Checking.{after};
ghost use Rattle.cp_rules.specs.Endings.{rest_of, reported_with, whole};
ghost use Rattle.cp_rules.specs.Definitions.{constant_entity, define_constants, define_sections, define_types, type_entity};

use crate::checker::{Checker, Judged};
use crate::remaining::Remaining;
use cp_model::rules::{Entity, Position, Structure, TypeRow};
use cp_model::tree::{
    ConstantDefinition, Defined, Identifier, Section, Tree, TypeDefinition, TypeExpression,
};
use std::alloc::AllocError;

fn constant_entity(of: Judged<(usize, i32)>) -> Entity
    ensures { result ≡ constant_entity of }
{
    match of {
        Ok((base, ordinal)) => Entity::Constant(base, ordinal),
        Err(violation) => Entity::Broken(violation),
    }
}

fn type_entity(of: Judged<usize>) -> Entity
    ensures { result ≡ type_entity of }
{
    match of {
        Ok(t) => Entity::Type(t),
        Err(violation) => Entity::Broken(violation),
    }
}

// Converts a number of values to an ordinal. More values than there are ordinals would need more
// memory than there is.
fn ordinal(n: usize) -> Result<i32, AllocError>
    ensures { IfOk result (λ i. i ≡ pos n) }
{
    if n > 0x7fff_ffff {
        return Err(AllocError);
    }
    Ok(n as i32)
}

// The row of an enumeration of `count` values.
fn enumeration(t: usize, count: usize) -> Result<TypeRow, AllocError>
    ensures { IfOk result (λ row. row ≡ r.simple_row t (pos 0) (pos (count - 1))) }
{
    let last = ordinal(count.saturating_sub(1))?;
    Ok(TypeRow {
        structure: Structure::Simple(t, 0, last),
        words: 1,
        has_queues: false,
    })
}

impl<'t> Checker<'t> {
    fn define_constant(&mut self, definition: &'t ConstantDefinition) -> Result<(), AllocError>
        ensures { OnOk result
            (self.new ≡ after self.old (rules.define_constant self.old.env definition.now)) }
    {
        let outside = self.mark();
        self.declare(&definition.name, Entity::UnfinishedConstant)?;
        let value = self.constant(&definition.value);
        self.set_from(outside, constant_entity(value));
        Ok(())
    }

    // Declares the values of an enumeration, numbered from 0. C1: one is already visible.
    fn declare_values(&mut self, t: usize, names: &'t [Identifier]) -> Result<(), AllocError>
        ensures { OnOk result
            (self.new ≡ after self.old (d.declare_each self.old.env (rules.values t 0 names.now))) }
    {
        self.environment.reserve_names(names.len())?;
        for (i, x) in names.iter().enumerate() {
            self.declare(x, Entity::Constant(t, ordinal(i)?))?;
        }
        Ok(())
    }

    // Defines an enumeration. C1: one of its values is already visible, or occurs twice.
    fn define_enumeration(
        &mut self,
        name: &'t Identifier,
        names: &'t [Identifier],
    ) -> Result<(), AllocError>
        ensures { OnOk result
            (self.new ≡ after self.old (rules.define_enumeration self.old.env name.now names.now)) }
    {
        let t = self.environment.type_count();
        let row = enumeration(t, names.len())?;
        self.add_type(row)?;
        // What its name represents makes no difference to its values.
        self.declare(name, Entity::Type(t))?;
        self.declare_values(t, names)
    }

    fn define_type(
        &mut self,
        name: &'t Identifier,
        written: &'t TypeExpression,
    ) -> Result<(), AllocError>
        ensures { OnOk result
            (self.new ≡ after self.old
            (rules.define_type self.old.env name.now (view.type_expression written.now))) }
    {
        let outside = self.mark();
        self.declare(name, Entity::UnfinishedType)?;
        let of = self.judge_type(Position::Definition, written)?;
        self.set_from(outside, type_entity(of));
        Ok(())
    }

    fn define(&mut self, definition: &'t TypeDefinition) -> Result<(), AllocError>
        ensures { OnOk result
            (self.new ≡ after self.old
            (rules.define_as self.old.env definition.now.name (view.defined_type definition.now.defined))) }
    {
        match &definition.defined {
            Defined::Written(t) => self.define_type(&definition.name, t),
            Defined::Enumeration(names) => self.define_enumeration(&definition.name, names),
            Defined::System(y) => self.define_system(&definition.name, y),
        }
    }

    fn define_constants(&mut self, list: &'t [ConstantDefinition]) -> Result<(), AllocError>
        ensures { OnOk result (self.new ≡ after self.old (define_constants self.old.env list.now)) }
    {
        for d in list {
            self.define_constant(d)?;
        }
        Ok(())
    }

    /// Judges definitions of types, in order. Fails only if memory runs out.
    pub fn define_types(&mut self, list: &'t [TypeDefinition]) -> Result<(), AllocError>
        ensures { OnOk result
            (self.new ≡ after self.old
            (define_types self.old.env (map view.type_definition list.now))) }
    {
        self.environment.reserve_names(list.len())?;
        self.environment.reserve_types(list.len())?;
        for d in list {
            self.define(d)?;
        }
        Ok(())
    }

    fn define_section(&mut self, section: &'t Section) -> Result<(), AllocError>
        ensures { OnOk result
            (self.new ≡ after self.old
            (rules.define_section self.old.env (view.section_of section.now))) }
    {
        match section {
            Section::Constants(list) => self.define_constants(list),
            Section::Types(list) => self.define_types(list),
        }
    }

    // Judges definitions until something is reported, and returns those that are left.
    fn define_types_until_broken(
        &mut self,
        list: &'t [TypeDefinition],
    ) -> Result<&'t [TypeDefinition], AllocError>
        ensures same_end { IfOk result
            (λ left. after self.new
            (define_types self.new.env (map view.type_definition left.now))
            ≡ after self.old (define_types self.old.env (map view.type_definition list.now))) }
        ensures all_if_sound { IfOk result (λ left. self.new.diagnostics ≡ None → left.now ≡ []) }
    {
        self.environment.reserve_names(list.len())?;
        self.environment.reserve_types(list.len())?;
        for (i, d) in list.iter().enumerate() {
            self.define(d)?;
            if self.diagnostics.first().is_some() {
                return Ok(&list[i + 1..]);
            }
        }
        Ok(&[])
    }

    // Judges a section until something is reported, and returns the definitions that are left.
    fn define_section_until_broken(
        &mut self,
        section: &'t Section,
    ) -> Result<&'t [TypeDefinition], AllocError>
        ensures same_end { IfOk result
            (λ left. after self.new
            (define_types self.new.env (map view.type_definition left.now))
            ≡ after self.old (rules.define_section self.old.env (view.section_of section.now))) }
        ensures all_if_sound { IfOk result (λ left. self.new.diagnostics ≡ None → left.now ≡ []) }
    {
        match section {
            Section::Constants(list) => {
                self.define_constants(list)?;
                Ok(&[])
            }
            Section::Types(list) => self.define_types_until_broken(list),
        }
    }

    /// Judges the definitions of a text until something is reported, and returns what is left.
    /// Fails only if memory runs out.
    pub fn define_until_broken(&mut self, tree: &'t Tree) -> Result<Remaining<'t>, AllocError>
        ensures { IfOk result
            (λ left. reported_with self.new (rest_of left)
            ≡ reported_with self.old (whole (view.tree tree.now))) }
    {
        for (i, section) in tree.sections.iter().enumerate() {
            let definitions = self.define_section_until_broken(section)?;
            if self.diagnostics.first().is_some() {
                let sections = &tree.sections[i + 1..];
                return Ok(Remaining {
                    definitions,
                    sections,
                    tree,
                });
            }
        }
        Ok(Remaining {
            definitions: &[],
            sections: &[],
            tree,
        })
    }

    /// Judges the definitions of a text, in order. Fails only if memory runs out.
    pub fn define_sections(&mut self, sections: &'t [Section]) -> Result<(), AllocError>
        ensures { OnOk result
            (self.new ≡ after self.old
            (define_sections self.old.env (map view.section_of sections.now))) }
    {
        for section in sections {
            self.define_section(section)?;
        }
        Ok(())
    }
}
