//! What is left of a text while its definitions are judged. `specs/Endings.antt` defines what it
//! means.

ghost use Rattle.std.specs.Prelude.{◌≡◌, ◌&&◌};
ghost use Rattle.cp_rules_cutoff.specs.After.{all_after, routine_after, section_after, type_definition_after, variables_after};
ghost use Rattle.cp_rules_cutoff.specs.Rest.{rest_after};

use cp_model::tree::{Section, Tree, TypeDefinition};
use cp_rules_cutoff::parts::{Part, all_after, both_after};

/// What is left of a text after some of its definitions: the rest of a section of types, further
/// sections, and the initial process.
#[derive(Drop)]
pub struct Remaining<'t> {
    pub(crate) definitions: &'t [TypeDefinition],
    pub(crate) sections: &'t [Section],
    pub(crate) tree: &'t Tree,
}

impl<'t> Remaining<'t> {
    ghost use Rattle.cp_rules.specs.Endings.{rest_of};

    // Whether the definitions that are left are after a place.
    fn are_definitions_after(&self, place: usize) -> bool
        ensures { result ≡ (all_after (type_definition_after place) (rest_of self.now).definitions
            && all_after (section_after place) (rest_of self.now).sections) }
    {
        all_after(self.definitions, place) && all_after(self.sections, place)
    }

    // Whether the variables and the routines of the initial process are after a place.
    fn are_declarations_after(&self, place: usize) -> bool
        ensures { result ≡ (all_after (variables_after place) (rest_of self.now).variables
            && all_after (routine_after place) (rest_of self.now).routines) }
    {
        both_after(&self.tree.variables, &self.tree.routines, place)
    }

    /// Whether all that is left is after a place.
    pub fn is_after(&self, place: usize) -> bool
        ensures { result ≡ rest_after place (rest_of self.now) }
    {
        if !self.are_definitions_after(place) {
            return false;
        }
        self.are_declarations_after(place) && self.tree.body.is_after(place)
    }
}
