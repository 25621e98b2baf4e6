//! Fields of objects. Each object of this crate is written by hand with these, since a derived
//! `Serialize` says nothing of what it writes (`specs/Values.antt`).

ghost use Rattle.std.specs.Prelude.{◌≡◌, OnOk};
ghost use Rattle.cp_explain.specs.Values.{WritesField, WritesSome, fields_with};

use serde::{Serialize, Serializer};

/// Writes a field of an object: its name and its value.
pub(crate) fn write_field<T: Serialize, S: Serializer>(
    out: &mut S,
    name: &str,
    value: &T,
) -> Result<(), S::Error>
    ensures { OnOk result
        (WritesField name.now (T.writes value.now) (S.written out.old) (S.written out.new)) }
{
    out.key(name)?;
    value.serialize(out)
}

/// Writes a field of an object if it has a value.
pub(crate) fn write_some<T: Serialize, S: Serializer>(
    out: &mut S,
    name: &str,
    value: &Option<T>,
) -> Result<(), S::Error>
    ensures { OnOk result
        (WritesSome name.now T.writes value.now (S.written out.old) (S.written out.new)) }
{
    match value {
        Some(value) => write_field(out, name, value),
        None => Ok(()),
    }
}

/// The number of fields of an object, of which the last is written only if it has a value.
pub(crate) fn count_fields<T>(always: u8, last: &Option<T>) -> usize
    ensures { result ≡ fields_with always last.now }
{
    match last {
        Some(_) => usize::from(always) + 1,
        None => usize::from(always),
    }
}
