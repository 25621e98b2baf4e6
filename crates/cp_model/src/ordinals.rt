//! The ordinals of the integers and of the last character (`first_ordinal` and `last_ordinal` of
//! `specs/Types.antt`).

/// The least integer.
pub const FIRST_INTEGER: i32 = -32_768;

/// The greatest integer.
pub const LAST_INTEGER: i32 = 32_767;

/// The ordinal of the last character.
pub const LAST_CHARACTER: u8 = 127;
