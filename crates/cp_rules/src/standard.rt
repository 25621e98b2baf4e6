//! What is visible everywhere: the standard types, constants and routines.

ghost use Rattle.std.specs.Prelude.{◌≡◌, IfOk, OnOk, true};
ghost use Rattle.cp_model.specs.RulesEnvironment as r;
ghost use Rattle.cp_rules.specs.StandardNames as standard_names;

use cp_base_names::Key;
use cp_model::ordinals::{FIRST_INTEGER, LAST_CHARACTER, LAST_INTEGER};
use cp_model::rules::{Entity, Standard, Structure, TypeRow};
use cp_rules_body::Environment;
use cp_rules_body::bases::{BOOLEAN, CHAR, INTEGER, QUEUE};
use cp_rules_body::scope::Scope;
use std::alloc::{AllocError, Global};

// Declares a standard name. No two are the same.
fn add<'t>(names: &mut Scope<'t>, name: &'t [u8], entity: Entity) -> Result<(), AllocError>
    ensures { OnOk result (names.new ≡ standard_names.with_name name.now entity names.old) }
{
    names.add_if_new(name, entity)?;
    Ok(())
}

fn add_types(names: &mut Scope) -> Result<(), AllocError>
    ensures { OnOk result (names.new ≡ standard_names.with_types names.old) }
{
    add(names, b"integer".as_slice(), Entity::Type(INTEGER))?;
    add(names, b"boolean".as_slice(), Entity::Type(BOOLEAN))?;
    add(names, b"char".as_slice(), Entity::Type(CHAR))?;
    add(names, b"queue".as_slice(), Entity::Type(QUEUE))
}

fn add_constants(names: &mut Scope) -> Result<(), AllocError>
    ensures { OnOk result (names.new ≡ standard_names.with_constants names.old) }
{
    add(names, b"false".as_slice(), Entity::Constant(BOOLEAN, 0))?;
    add(names, b"true".as_slice(), Entity::Constant(BOOLEAN, 1))
}

fn add_functions(names: &mut Scope) -> Result<(), AllocError>
    ensures { OnOk result (names.new ≡ standard_names.with_functions names.old) }
{
    add(names, b"abs".as_slice(), Entity::Standard(Standard::Abs))?;
    add(names, b"succ".as_slice(), Entity::Standard(Standard::Succ))?;
    add(names, b"pred".as_slice(), Entity::Standard(Standard::Pred))?;
    add(names, b"ord".as_slice(), Entity::Standard(Standard::Ord))?;
    add(names, b"chr".as_slice(), Entity::Standard(Standard::Chr))?;
    add(
        names,
        b"empty".as_slice(),
        Entity::Standard(Standard::Empty),
    )
}

fn add_procedures(names: &mut Scope) -> Result<(), AllocError>
    ensures { OnOk result (names.new ≡ standard_names.with_procedures names.old) }
{
    add(
        names,
        b"delay".as_slice(),
        Entity::Standard(Standard::Delay),
    )?;
    add(
        names,
        b"continue".as_slice(),
        Entity::Standard(Standard::Continue),
    )?;
    add(
        names,
        b"display".as_slice(),
        Entity::Standard(Standard::Display),
    )?;
    add(
        names,
        b"accept".as_slice(),
        Entity::Standard(Standard::Accept),
    )?;
    add(
        names,
        b"realtime".as_slice(),
        Entity::Standard(Standard::Realtime),
    )?;
    add(names, b"wait".as_slice(), Entity::Standard(Standard::Wait))
}

fn names<'t>(alloc: Global, key: Key) -> Result<Scope<'t>, AllocError>
    ensures { IfOk result (λ names. names ≡ r.standard_names) }
{
    let mut names = Scope::new(alloc, key)?;
    add_types(&mut names)?;
    add_constants(&mut names)?;
    add_functions(&mut names)?;
    add_procedures(&mut names)?;
    Ok(names)
}

fn simple(base: usize, low: i32, high: i32) -> TypeRow
    ensures { result ≡ r.simple_row base low high }
{
    TypeRow {
        structure: Structure::Simple(base, low, high),
        words: 1,
        has_queues: false,
    }
}

fn types(alloc: Global) -> Result<Vec<TypeRow>, AllocError>
    ensures { IfOk result (λ types. types.items ≡ r.standard_environment.types) }
{
    let mut types = Vec::new(alloc);
    types.push(simple(INTEGER, FIRST_INTEGER, LAST_INTEGER))?;
    types.push(simple(BOOLEAN, 0, 1))?;
    types.push(simple(CHAR, 0, LAST_CHARACTER as i32))?;
    types.push(TypeRow {
        structure: Structure::Queue,
        words: 1,
        has_queues: true,
    })?;
    Ok(types)
}

/// The environment of a text before its first definition. Fails only if memory runs out.
pub fn standard_environment<'t>(alloc: Global, key: Key) -> Result<Environment<'t>, AllocError>
    ensures { IfOk result (λ env. env ≡ r.standard_environment) }
{
    Ok(Environment::new(alloc, names(alloc, key)?, types(alloc)?))
}
