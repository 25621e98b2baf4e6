//! Variables: groups of names of one type, and the words that they take from their owner.

ghost use Rattle.std.specs.Prelude.{◌≡◌, IfOk, OnOk, map};
ghost use Rattle.cp_model.specs.RulesEnvironment as r;
ghost use Rattle.cp_model.specs.RulesTypes.{cap_words};
ghost use Rattle.cp_model.specs.RulesDeclarations as d;
ghost use Rattle.cp_model.specs.View as view;
ghost use Rattle.cp_rules.specs.Checking.{after};
ghost use Rattle.cp_rules.specs.Declaring.{Declares, entity_of_type, words_of_type};

use crate::checker::{Checker, Judged};
use crate::words::{product, sum};
use cp_model::rules::{Access, Entity, Position, Structure};
use cp_model::tree::Fields;
use cp_rules_body::Environment;
use cp_rules_body::bases::INTEGER;
use std::alloc::AllocError;

/// What a name represents while its type isn't known: a variable, which can't be used as a type.
pub const UNFINISHED: Entity = Entity::Variable(INTEGER, Access::Own);

// What a variable of a type represents.
fn entity(of: Judged<usize>) -> Entity
    ensures { result ≡ entity_of_type d.own_variable of }
{
    match of {
        Ok(t) => Entity::Variable(t, Access::Own),
        Err(violation) => Entity::Broken(violation),
    }
}

fn words_in(env: &Environment, words: usize, structure: Structure) -> usize
    ensures { result ≡ d.words_in env.now words structure }
{
    match structure {
        Structure::System(y) => if env.system_row(y).sort.is_owner() {
            0
        } else {
            words
        },
        _ => words,
    }
}

/// The number of words that one variable of a type takes from its owner.
pub fn words(env: &Environment, of: Judged<usize>) -> usize
    ensures { result ≡ words_of_type env.now of }
{
    match of {
        Ok(t) => words_in(env, env.words(t), env.structure(t)),
        Err(_) => 0,
    }
}

impl<'t> Checker<'t> {
    // Declares variables of one type, and returns the words that they take. While the type is
    // judged their names are visible, but not as types.
    fn variable_group(&mut self, position: Position, group: &'t Fields) -> Result<usize, AllocError>
        ensures { IfOk result
            (λ n. Declares self.old self.new n
            (d.variable_group self.old.env position (view.variables group.now))) }
    {
        let outside = self.mark();
        self.declare_all(&group.names, UNFINISHED)?;
        let of = self.judge_type(position, &group.of)?;
        let each = words(&self.environment, of);
        self.set_from(outside, entity(of));
        self.owners(position, of, &group.names);
        Ok(product(group.names.len(), each))
    }

    /// Declares variables, and returns the words that they take from their owner, counted up to one
    /// above the limit. Fails only if memory runs out.
    pub fn variables(
        &mut self,
        position: Position,
        groups: &'t [Fields],
    ) -> Result<usize, AllocError>
        ensures { IfOk result
            (λ n. Declares self.old self.new n
            (d.variables self.old.env position (map view.variables groups.now))) }
    {
        self.environment.reserve_names(groups.len())?;
        let mut words = 0;
        for group in groups {
            let more = self.variable_group(position, group)?;
            words = sum(words, more);
        }
        Ok(words)
    }
}
