//! Compiles the system types of a text in text order, and records the first unit of each named
//! type.

ghost use Rattle.std.specs.Prelude.{◌≡◌, IfOk, IsSomeAnd, OnOk, Some, length, map};
ghost use Rattle.cp_model.specs.Abstract as a;
ghost use Rattle.cp_model.specs.Erase as erase;
ghost use Rattle.cp_model.specs.Types.{ComponentOf, GlobalScope, Members};
ghost use Rattle.cp_model.specs.Names.{lookup};
ghost use Rattle.cp_model.specs.View as tree;
ghost use Rattle.cp_model_program.specs.Compile.{CompiledTypes, first_of_type, with_system};
ghost use Rattle.cp_compile_emit.specs.Planning.{known_of};
ghost use Rattle.cp_compile.specs.CompiledTexts.{CompilesAll, CompilesOne, DefinesType, IsText, TypesAre, system_number};
ghost use Rattle.cp_compile_lower.specs.Initialisation.{IsTable};
ghost use Rattle.cp_compile.specs.Compiles.{EndsAt, IsCompiled};

use crate::system::SystemCompiler;
use cp_base_names::NameTable;
use cp_compile_emit::Emitter;
use cp_compile_emit::plan::Planner;
use cp_compile_symbols::{SystemTable, Tables};
use cp_model::tree::{Defined, Section, System, TypeDefinition, TypeExpression};
use std::alloc::AllocError;

/// What the definitions of a text are compiled with.
#[derive(Clone, Copy)]
pub struct TextCompiler<'s, 't> {
    pub(crate) tables: &'s Tables<'t>,
    pub(crate) planner: &'s Planner<'s, 't>,
}

// The first unit of a written type. For a name, it is that of the type that the name means.
fn first_of_type_expression(written: &TypeExpression, firsts: &NameTable<u32>) -> u32
    ensures { result
        ≡ first_of_type firsts.now (erase.type_expression (tree.type_expression written.now)) }
{
    match written {
        TypeExpression::Named(x) => firsts.find(x.name.as_bytes()).unwrap_or(0),
        TypeExpression::Array {
            indices,
            element,
            ..
        } => match indices.as_slice() {
            [] => first_of_type_expression(element, firsts),
            [_, ..] => 0,
        },
        TypeExpression::Subrange(_) => 0,
        TypeExpression::Record { .. } => 0,
    }
}

impl<'s, 't> TextCompiler<'s, 't> {
    // The number of the system type that a name is defined as.
    fn number(&self, name: &[u8]) -> Option<usize>
        ensures { result ≡ system_number self.now.tables.now name.now }
    {
        let of = self.tables.names.types.find(name)?;
        self.tables.types.system_of(of)
    }

    // The table of the system type that a name is defined as.
    fn table(&self, name: &[u8]) -> Option<&'s SystemTable<'t>>
        ensures { (g : GlobalScope) (s : a.System) (ms : Members) → IsText self.now g
            → lookup name.now g.types ≡ Some (ComponentOf s ms)
            → IsSomeAnd result (λ table. IsTable g self.now.tables.now.types table.now s) }
    {
        self.tables.system(self.number(name)?)
    }

    // Compiles the system type that a name is defined as, and returns its first unit.
    fn system(
        &self,
        name: &[u8],
        text: &System,
        firsts: &NameTable<'t, u32>,
        emitter: &mut Emitter,
    ) -> Result<u32, AllocError>
        ensures code { IfOk result (λ first. (g : GlobalScope) (m : CompiledTypes) (s : a.System)
            (ms : Members) → IsText self.now g → erase.system (tree.system text.now) ≡ s
            → lookup name.now g.types ≡ Some (ComponentOf s ms)
            → TypesAre (known_of self.now.planner.now) emitter.old firsts.now m
            → IsCompiled (known_of self.now.planner.now) emitter.new
            (with_system g m.firsts s m.compiled) × (first ≡ length m.compiled.units)) }
        ensures origin { OnOk result ((g : GlobalScope) (s : a.System) (ms : Members)
            → IsText self.now g → erase.system (tree.system text.now) ≡ s
            → lookup name.now g.types ≡ Some (ComponentOf s ms)
            → EndsAt text.now.body.at emitter.old.origins.items emitter.new.origins.items) }
    {
        let first = emitter.units()?;
        let Some(table) = self.table(name) else {
            // There is a table for each system type.
            return Ok(first);
        };
        let compiler = SystemCompiler {
            tables: self.tables,
            planner: self.planner,
            firsts,
            system: table,
            first,
        };
        let body = &text.body;
        compiler.compile(
            text.sort,
            &text.routines,
            &body.statements,
            body.at,
            emitter,
        )?;
        Ok(first)
    }

    // Compiles the type that is defined, if it is a system type, and returns its first unit.
    fn first_of(
        &self,
        definition: &TypeDefinition,
        firsts: &NameTable<'t, u32>,
        emitter: &mut Emitter,
    ) -> Result<u32, AllocError>
        ensures { IfOk result (DefinesType self.now emitter.old emitter.new firsts.now
            (erase.type_definition (tree.type_definition definition.now))) }
    {
        match &definition.defined {
            Defined::Written(t) => Ok(first_of_type_expression(t, firsts)),
            Defined::Enumeration(_) => Ok(0),
            Defined::System(text) => self.system(
                definition.name.name.as_bytes(),
                text,
                firsts,
                emitter,
            ),
        }
    }

    // Compiles the definition of a type, and records its first unit.
    fn definition(
        &self,
        definition: &'t TypeDefinition,
        firsts: &mut NameTable<'t, u32>,
        emitter: &mut Emitter,
    ) -> Result<(), AllocError>
        ensures { OnOk result (CompilesOne self.now emitter.old emitter.new firsts.old firsts.new
            (erase.type_definition (tree.type_definition definition.now))) }
    {
        let first = self.first_of(definition, firsts, emitter)?;
        firsts.set(definition.name.name.as_bytes(), first)
    }

    // Compiles the type definitions of a section.
    fn types(
        &self,
        list: &'t [TypeDefinition],
        firsts: &mut NameTable<'t, u32>,
        emitter: &mut Emitter,
    ) -> Result<(), AllocError>
        ensures { OnOk result (CompilesAll self.now emitter.old emitter.new firsts.old firsts.new
            (map erase.type_definition (map tree.type_definition list.now))) }
    {
        for d in list {
            self.definition(d, firsts, emitter)?;
        }
        Ok(())
    }

    fn section(
        &self,
        section: &'t Section,
        firsts: &mut NameTable<'t, u32>,
        emitter: &mut Emitter,
    ) -> Result<(), AllocError>
        ensures { OnOk result (CompilesAll self.now emitter.old emitter.new firsts.old firsts.new
            (erase.section (tree.section_of section.now))) }
    {
        match section {
            Section::Constants(_) => Ok(()),
            Section::Types(list) => self.types(list, firsts, emitter),
        }
    }

    /// Compiles the system types of a text in text order.
    pub fn sections(
        &self,
        sections: &'t [Section],
        firsts: &mut NameTable<'t, u32>,
        emitter: &mut Emitter,
    ) -> Result<(), AllocError>
        ensures { OnOk result (CompilesAll self.now emitter.old emitter.new firsts.old firsts.new
            (erase.sections (map tree.section_of sections.now))) }
    {
        for section in sections {
            self.section(section, firsts, emitter)?;
        }
        Ok(())
    }
}
