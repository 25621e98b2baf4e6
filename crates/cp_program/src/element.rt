//! Indices that are a word, or a word and a number, and elements by one such index. Their places
//! need no chain of operands: what an index and its bounds come to is worked out when the program
//! is made.

ghost use Rattle.std.specs.Prelude.{◌≡◌, ◌≤◌, ◌≤ℤ◌, ◌-ℤ◌, pos, negsuc};
ghost use Rattle.cp_program.specs.Shifts.{added_by, distance_to};

use crate::bounds::Bounds;
use crate::term::Root;

/// The word that an index reads.
#[derive(Clone, Copy)]
pub enum Slot {
    /// The word at this offset from the first word of the running activation.
    Local(u32),
    /// The word at this offset from the first word of the running component.
    Member(u32),
}

/// What is added to the word of an index, or subtracted from it.
#[derive(Clone, Copy)]
pub enum Addend {
    Nothing,
    Add(i32),
    Subtract(i32),
}

/// A part of each element of an array.
#[derive(Clone, Copy)]
pub struct ElementPart {
    /// The bounds of the array.
    pub(crate) bounds: Bounds,
    /// The size of an element in words.
    pub(crate) size: u32,
    /// The distance of the part from where its element begins.
    pub(crate) plus: u32,
}

/// An index that is a word, or a word and a number. It selects the element whose distance from the
/// first one, in elements, is the sum of the word and `shift`.
#[derive(Clone, Copy)]
pub struct NearIndex {
    pub(crate) part: ElementPart,
    pub(crate) slot: Slot,
    pub(crate) addend: Addend,
    pub(crate) shift: i32,
    /// The greatest distance, in elements.
    pub(crate) last: u32,
    ghost shifted: { shift ≡ added_by addend -ℤ part.bounds.low },
    ghost reach: { pos last ≡ part.bounds.high -ℤ part.bounds.low },
    ghost exact: { (negsuc 32767 ≤ℤ part.bounds.low) × (part.bounds.high ≤ℤ pos 32767) },
}

/// An element, or a part of one, of an array that begins at a root.
#[derive(Clone, Copy)]
pub struct Element {
    /// Where the part begins in the first element.
    pub(crate) first: Root,
    pub(crate) index: NearIndex,
    ghost within: { index.part.plus ≤ distance_to first },
}
