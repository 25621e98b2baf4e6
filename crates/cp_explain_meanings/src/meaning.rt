//! What names and types represent.

use cp_model::ordinals::{FIRST_INTEGER, LAST_CHARACTER, LAST_INTEGER};
use cp_model::tree::{Sort, TypeExpression};

/// The ordinals of a simple type.
#[derive(Clone, Copy)]
pub struct Ordinals {
    pub(crate) first: i32,
    pub(crate) last: i32,
}

impl Ordinals {
    /// Whether an ordinal is one of these.
    pub fn contains(self, ordinal: i32) -> bool {
        self.first <= ordinal && ordinal <= self.last
    }
}

/// The ordinals of the characters.
pub const CHARACTERS: Ordinals = Ordinals {
    first: 0,
    last: LAST_CHARACTER as i32,
};

/// The ordinals of the integers.
pub const INTEGERS: Ordinals = Ordinals {
    first: FIRST_INTEGER,
    last: LAST_INTEGER,
};

/// The ordinals of the Booleans.
pub const BOOLEANS: Ordinals = Ordinals { first: 0, last: 1 };

/// What a type looks like.
#[derive(Clone, Copy)]
pub enum Shape<'t> {
    Simple(Ordinals),
    /// An array, by the index types that are left and its element type.
    Array(&'t [TypeExpression], &'t TypeExpression),
    /// A record type, by its place.
    Record(usize),
    /// A system type, by the place of its name.
    System(Sort, usize),
    Queue,
}

/// What a name represents.
#[derive(Clone, Copy)]
pub enum Meaning<'t> {
    /// A constant, by its ordinal.
    Constant(i32),
    Type(Shape<'t>),
    /// A variable, a parameter, or a part of one.
    Variable(Shape<'t>),
    /// A routine of the component itself, by its number in the text.
    Routine(usize),
    /// An entry routine of another component of this sort, by its number in the text.
    Entry(Sort, usize),
}
