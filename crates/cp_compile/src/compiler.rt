//! Compiles a text to a program.

ghost use Rattle.std.specs.Prelude.{◌≡◌, [], IfOk, List, length};
ghost use Rattle.cp_model.specs.Declarations.{globals};
ghost use Rattle.cp_model.specs.Rules.{Accepted};
ghost use Rattle.cp_model.specs.Types.{GlobalScope};
ghost use Rattle.cp_model.specs.View as syntax;
ghost use Rattle.cp_model.specs.declared.tree.Tree as text;
ghost use Rattle.cp_model_program.specs.Compile as code;
ghost use Rattle.cp_model_program.specs.Programs.{StartPlan};
ghost use Rattle.cp_compile_emit.specs.Planning.{known_of};
ghost use Rattle.cp_compile_symbols.specs.Texts.{TablesRepresent};
ghost use Rattle.cp_program.specs.View as view;
ghost use Rattle.cp_program.specs.View.{origins_of};
ghost use Rattle.cp_compile.specs.Compiles.{EndsAt};
ghost use Rattle.cp_compile.specs.CompiledPrograms.{ArePlansOf, ComponentsLie, IsCode, IsPlanner, text_of};

use crate::components::{InitialCompiler, Owner};
use crate::definitions::TextCompiler;
use crate::layout::{lay_monitors, lay_processes};
use crate::system::SystemCompiler;
use cp_base_names::NameTable;
use cp_compile_emit::Emitter;
use cp_compile_emit::plan::Planner;
use cp_compile_emit::starts::has_room;
use cp_compile_symbols::{Tables, small_number, small_sum};
use cp_model::tree::{Sort, Tree};
use cp_program::program::{Monitor, Process, Program};
use std::alloc::{AllocError, Global};

/// The code of a text: its operations and units, the first unit of each type by name, and the first
/// unit of the initial process.
#[derive(Drop)]
struct Code<'t> {
    emitter: Emitter,
    firsts: NameTable<'t, u32>,
    first: u32,
}

/// The numbers of the plans of components: that of the first system type, which those of the others
/// follow, and that of the initial process.
#[derive(Clone, Copy)]
struct Plans {
    first: u32,
    initial: u32,
}

/// The monitors and processes, and the number of shared words, which the monitors and the waiting
/// parameters of processes take.
#[derive(Drop)]
struct Components {
    monitors: Vec<Monitor>,
    processes: Vec<Process>,
    shared: u32,
}

// Compiles the system types of a text, followed by the initial process.
fn compile_code<'t>(
    alloc: Global,
    tree: &'t Tree,
    tables: &Tables<'t>,
    planner: &Planner<'_, 't>,
) -> Result<Code<'t>, AllocError>
    ensures code { IfOk result (λ code. Accepted (syntax.tree tree.now)
        → TablesRepresent (globals (text_of tree.now)) tables.now tree.now
        → IsPlanner tables.now planner.now (globals (text_of tree.now))
        → IsCode (known_of planner.now) code (text_of tree.now)) }
    ensures origin { IfOk result (λ code.
        TablesRepresent (globals (text_of tree.now)) tables.now tree.now
        → IsPlanner tables.now planner.now (globals (text_of tree.now))
        → EndsAt tree.now.body.at [] code.emitter.origins.items) }
{
    let mut firsts = NameTable::new(alloc, tables.key);
    let mut emitter = Emitter::new(alloc);
    TextCompiler { tables, planner }.sections(&tree.sections, &mut firsts, &mut emitter)?;
    let first = emitter.units()?;
    let initial = SystemCompiler {
        tables,
        planner,
        firsts: &firsts,
        system: &tables.initial,
        first,
    };
    initial.compile(
        Sort::Process,
        &tree.routines,
        &tree.body.statements,
        tree.body.at,
        &mut emitter,
    )?;
    Ok(Code {
        emitter,
        firsts,
        first,
    })
}

// Makes the plans of the components of all system types and of the initial process.
fn make_plans<'t>(tables: &Tables<'t>, planner: &mut Planner<'_, 't>) -> Result<Plans, AllocError>
    ensures plans { IfOk result (λ plans. (g : GlobalScope) (t : text.Tree)
        → TablesRepresent g tables.now t → IsPlanner tables.now planner.old g
        → ArePlansOf (known_of planner.new) g tables.now t plans) }
    ensures planner { (g : GlobalScope)
        → IsPlanner tables.now planner.old g → IsPlanner tables.now planner.new g }
{
    let table = &tables.initial;
    let initial = planner.add_component(has_room(table), &table.parameters, &table.variables)?;
    let first = planner.add_components()?;
    Ok(Plans { first, initial })
}

// Lays out the monitors and processes of a text.
fn lay_components<'t>(
    alloc: Global,
    tree: &'t Tree,
    tables: &Tables<'t>,
    code: &Code<'t>,
    plans: Plans,
) -> Result<Components, AllocError>
    ensures { IfOk result (λ components. (known : List StartPlan)
        → TablesRepresent (globals (text_of tree.now)) tables.now tree.now
        → IsCode known code.now (text_of tree.now)
        → ArePlansOf known (globals (text_of tree.now)) tables.now tree.now plans
        → ComponentsLie known components (text_of tree.now)) }
{
    let compiler = InitialCompiler {
        tables,
        firsts: &code.firsts,
        plans: plans.first,
    };
    let mut monitors = Vec::new(alloc);
    compiler.add_owners(Sort::Monitor, &mut monitors)?;
    let routines = small_number(tree.routines.len())?;
    let body = small_sum(code.first, routines)?;
    let mut processes = Vec::new(alloc);
    processes.push(Owner::of(&tables.initial, body, plans.initial)?)?;
    compiler.add_owners(Sort::Process, &mut processes)?;
    let monitors = lay_monitors(alloc, &monitors)?;
    let processes = lay_processes(alloc, &processes, monitors.words)?;
    Ok(Components {
        monitors: monitors.monitors,
        processes: processes.processes,
        shared: processes.end,
    })
}

/// Compiles a text with these tables to a program. For an accepted text and the tables that are
/// for it, it is the program that the definition `compile` of `cp_model_program` makes, which
/// represents the text. Each operation has an origin.
///
/// # Errors
///
/// `AllocError` if memory runs out, or a number of 32 bits isn't enough for the program.
pub fn compile<'t>(
    alloc: Global,
    tree: &'t Tree,
    tables: &Tables<'t>,
) -> Result<Program, AllocError>
    ensures program { IfOk result (λ program. Accepted (syntax.tree tree.now)
        → TablesRepresent (globals (text_of tree.now)) tables.now tree.now
        → view.program program ≡ code.compile (text_of tree.now)) }
    ensures origins { IfOk result
        (λ program. length (origins_of program) ≡ length (view.program program).operations) }
{
    let mut planner = Planner::new(alloc, tables)?;
    let plans = make_plans(tables, &mut planner)?;
    let code = compile_code(alloc, tree, tables, &planner)?;
    let components = lay_components(alloc, tree, tables, &code, plans)?;
    let (operations, origins, units) = code.emitter.into_parts();
    Ok(Program::new(
        operations,
        origins,
        units,
        components.monitors,
        components.processes,
        planner.into_plans(),
        components.shared,
    ))
}
