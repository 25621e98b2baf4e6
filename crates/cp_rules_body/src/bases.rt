//! The base types, by their numbers in the environment.

ghost use Rattle.std.specs.Prelude.{◌≡◌, Option, None, Some};
ghost use Rattle.cp_model.specs.RulesEnvironment as r;

/// The number of the type integer.
pub const INTEGER: usize = 0;

/// The number of the type boolean.
pub const BOOLEAN: usize = 1;

/// The number of the type char.
pub const CHAR: usize = 2;

/// The number of the type queue.
pub const QUEUE: usize = 3;

/// Whether `base` is the base type `wanted`.
pub fn is_base(wanted: usize, base: Option<usize>) -> bool
    ensures { result ≡ r.is_base wanted base }
{
    match base {
        Some(base) => wanted == base,
        None => false,
    }
}
