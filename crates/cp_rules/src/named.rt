//! Constants and types that are used by name in definitions, subranges, headings and declarations
//! of variables.

ghost use Rattle.std.specs.Prelude.{◌≡◌, [], ◌∷◌};
ghost use Rattle.cp_model.specs.RulesEnvironment as r;
ghost use Rattle.cp_model.specs.RulesTypes as types;
ghost use Rattle.cp_rules.specs.Checking.{Judges};

use crate::checker::{Checker, Judged};
use cp_model::rules::{Entity, Rule};
use cp_model::tree::{Constant, Identifier};
use cp_rules_body::constants::{constant, unfinished_of_other_sort};
use cp_rules_body::names::resolve;

impl<'t> Checker<'t> {
    /// What a name represents. C1: it isn't visible. A violation in its declaration is reported
    /// again.
    pub fn judge_name(&mut self, name: &Identifier) -> Judged<Entity>
        ensures { Judges self.old self.new result (r.c1_named self.old.env name.now) }
    {
        resolve(&self.environment, &mut self.diagnostics, name)
    }

    /// The base type and the ordinal of a constant.
    pub fn constant(&mut self, label: &Constant) -> Judged<(usize, i32)>
        ensures { Judges self.old self.new result (types.constant self.old.env label.now) }
    {
        constant(&self.environment, &mut self.diagnostics, label)
    }

    // C2: a type is wanted, but the name is of another sort. C4: a type is used inside its own
    // definition.
    fn type_of_entity(&mut self, name: &Identifier, entity: Entity) -> Judged<usize>
        ensures { Judges self.old self.new result (types.c2_type name.now entity) }
    {
        match entity {
            Entity::Type(t) => Ok(t),
            Entity::UnfinishedType => self.breaks(Rule::C4, name.at),
            Entity::UnfinishedConstant => unfinished_of_other_sort(&mut self.diagnostics, name.at),
            Entity::UnfinishedRoutine(_) => unfinished_of_other_sort(
                &mut self.diagnostics,
                name.at,
            ),
            _ => self.breaks(Rule::C2, name.at),
        }
    }

    /// The type that a name represents.
    pub fn named_type(&mut self, name: &Identifier) -> Judged<usize>
        ensures { Judges self.old self.new result (types.named_type self.old.env name.now) }
    {
        let entity = self.judge_name(name)?;
        self.type_of_entity(name, entity)
    }
}
