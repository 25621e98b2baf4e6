//! What is reported of a simple part or a queue that is visited.

ghost use Rattle.std.specs.Prelude.{◌≡◌, ◌++◌, [], OnOk, if◌then◌else◌};
ghost use Rattle.cp_model_program.specs.Starts.{word};
ghost use Rattle.cp_model.specs.Locations.{Path};
ghost use Rattle.cp_model.specs.Report.{path_text};
ghost use Rattle.cp_inspect.specs.WalkOutputs.{line_of, queue_line_of, report_leaf, value_line_of, visit_of};
ghost use Rattle.cp_inspect.specs.Values.{value_in};

use crate::place::{Kind, Value};
use crate::text::push_occupant;
use cp_base_digits::decimal::push_integer;
use std::alloc::AllocError;

// The word at an address. A missing word reads as 0.
fn word_at(words: &[i32], at: usize) -> i32
    ensures { result ≡ word words.now at }
{
    match words.get(at) {
        Some(n) => *n,
        None => 0,
    }
}

// The value of the variable of this kind at an address.
fn value_at(words: &[i32], kind: Kind, at: usize) -> Value
    ensures { result ≡ value_in kind (word words.now at) }
{
    Value::of(kind, word_at(words, at))
}

/// What a walk reports.
#[derive(Clone, Copy)]
pub enum WalkOutput<'w> {
    /// A line for each part, with its value, which is in these words.
    Lines(&'w [i32]),
    /// The path of the queue at this address.
    PathOf(usize),
    /// Nothing. The walk keeps the places.
    Leaves,
}

fn push_value_line(out: &mut Vec<u8>, path: &[u8], n: i32) -> Result<(), AllocError>
    ensures { OnOk result (out.new.items ≡ out.old.items ++ value_line_of path.now n) }
{
    out.extend_from_slice(b"var ")?;
    out.extend_from_slice(path)?;
    out.extend_from_slice(b" = ")?;
    push_integer(out, i64::from(n))?;
    out.extend_from_slice(b"\n")
}

fn push_queue_line(out: &mut Vec<u8>, path: &[u8], process: Option<u32>) -> Result<(), AllocError>
    ensures { OnOk result (out.new.items ≡ out.old.items ++ queue_line_of path.now process) }
{
    out.extend_from_slice(b"queue ")?;
    out.extend_from_slice(path)?;
    out.extend_from_slice(b" = ")?;
    push_occupant(out, process)?;
    out.extend_from_slice(b"\n")
}

fn push_line(out: &mut Vec<u8>, path: &[u8], value: Value) -> Result<(), AllocError>
    ensures { OnOk result (out.new.items ≡ out.old.items ++ line_of path.now value) }
{
    match value {
        Value::Ordinal(n) => push_value_line(out, path, n),
        Value::Queue(process) => push_queue_line(out, path, process),
    }
}

impl<'w> WalkOutput<'w> {
    /// Adds what is reported of a simple part or a queue at an address. `path` is the text of its
    /// path.
    pub fn report(
        &self,
        out: &mut Vec<u8>,
        kind: Kind,
        path: &[u8],
        at: usize,
    ) -> Result<(), AllocError>
        ensures { OnOk result ((p : Path) → path_text p ≡ path.now
            → out.new.items ≡ out.old.items ++ report_leaf (visit_of self.now) kind p at) }
    {
        match *self {
            WalkOutput::Lines(words) => push_line(out, path, value_at(words, kind, at)),
            WalkOutput::PathOf(target) => match kind {
                Kind::Simple => Ok(()),
                Kind::Queue => push_path_if(out, at == target, path),
            },
            WalkOutput::Leaves => Ok(()),
        }
    }
}

fn push_path_if(out: &mut Vec<u8>, is_it: bool, path: &[u8]) -> Result<(), AllocError>
    ensures { OnOk result (out.new.items ≡ out.old.items ++ (if is_it then path.now else [])) }
{
    if is_it {
        out.extend_from_slice(path)
    } else {
        Ok(())
    }
}
