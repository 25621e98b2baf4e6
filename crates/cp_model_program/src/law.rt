//! The law of the compiler, which is stated in `specs/Known.antt`.

ghost use Rattle.cp_model.specs.Rules.{Accepted};
ghost use Rattle.cp_model.specs.View as view;
ghost use Rattle.cp_model_program.specs.Known.{AcceptedTextsHavePrograms, HasProgram};

use crate::numbers::read_numbers;
use cp_model::tree::Tree;

/// The program that the compiler makes of an accepted text represents it
/// (`specs/IsProgramFor.antt`), provided that the numbers after a minus in its definitions are at
/// most 65,535, and that its system types have few parameters. This function has an empty body: a
/// caller obtains the law as a fact by calling it.
pub fn accepted_texts_have_programs()
    ensures { AcceptedTextsHavePrograms }
{}

/// The program that the compiler makes of the text of an accepted tree represents it, if its system
/// types have few parameters. The tree's numbers have 16 bits.
pub fn accepted_tree_has_program(tree: &Tree)
    requires { Accepted (view.tree tree.now) }
    ensures { HasProgram (view.tree tree.now) }
{
    read_numbers(tree);
    accepted_texts_have_programs();
}
