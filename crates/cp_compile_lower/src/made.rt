//! What is made of designators and arguments. The calls to make before are kept apart, added to
//! those that were there.

ghost use Rattle.std.specs.Prelude.{◌≡◌, []};

use cp_program::operation::Argument;
use cp_program::term::PlaceExpression;
use std::alloc::Global;

/// The place expression of a designator, the first temp after the values of its calls, and the
/// number of the type of its place, if it has one.
#[derive(Drop)]
pub struct MadePlaceExpression {
    pub(crate) place_expression: PlaceExpression,
    pub(crate) temps: u32,
    pub(crate) of: Option<usize>,
}

/// An argument, and the first temp after the values of its calls.
#[derive(Drop)]
pub struct MadeArgument {
    pub(crate) argument: Argument,
    pub(crate) temps: u32,
}

/// Arguments, and the first temp after the values of their calls.
#[derive(Drop)]
pub struct MadeArguments {
    pub(crate) arguments: Vec<Argument>,
    pub(crate) temps: u32,
}

/// No arguments, and no calls before them.
pub fn no_arguments(alloc: Global, low: u32) -> MadeArguments
    ensures arguments { result.arguments.items ≡ [] }
    ensures temps { result.temps ≡ low }
{
    MadeArguments {
        arguments: Vec::new(alloc),
        temps: low,
    }
}
