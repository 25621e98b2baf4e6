//! Where a `case` leads. If the labels are close to one another, the table has a place for each
//! number, and otherwise it has the labels.

ghost use Rattle.std.specs.Prelude.{◌≡◌, ℕ, ◌*◌, None, Some, IfOk, [], if◌then◌else◌, int_le, length, map, replicate, slice_set};
ghost use Rattle.cp_model_program.specs.CodedStatements as coded;
ghost use Rattle.cp_model_program.specs.Layout.{distance};
ghost use Rattle.cp_compile_emit.specs.Arms.{bounds_of};
ghost use Rattle.cp_program.specs.Labels.{arm};
ghost use Rattle.cp_program.specs.View as view;

use cp_compile_symbols::count_between;
use cp_program::arm::Arm;
use cp_program::arms::Arms;
use cp_program::operation::Table;
use std::alloc::{AllocError, Global};

// The lowest of `n` and the labels.
fn lowest(n: i32, arms: &[Arm]) -> i32
    ensures { result ≡ coded.lowest n (map arm arms.now) }
{
    let mut least = n;
    for x in arms {
        least = if least <= x.label { least } else { x.label };
    }
    least
}

// The highest of `n` and the labels.
fn highest(n: i32, arms: &[Arm]) -> i32
    ensures { result ≡ coded.highest n (map arm arms.now) }
{
    let mut greatest = n;
    for x in arms {
        greatest = if greatest <= x.label {
            x.label
        } else {
            greatest
        };
    }
    greatest
}

// The lowest and the highest label, if there are labels.
fn bounds(arms: &[Arm]) -> Option<(i32, i32)>
    ensures { result ≡ bounds_of (map arm arms.now) }
{
    let first = arms.first()?;
    Some((
        lowest(first.label, &arms[1..]),
        highest(first.label, &arms[1..]),
    ))
}

// Puts the place of an arm at its label, where `places` belong to the numbers from `low` on.
fn put(places: &mut Vec<Option<u32>>, low: i32, arm: Arm)
    ensures { places.new.items
        ≡ (if int_le low arm.label then slice_set places.old.items (distance low arm.label)
        (Some arm.place) else places.old.items) }
{
    if arm.label < low {
        return;
    }
    let far = (i64::from(arm.label) - i64::from(low)) as usize;
    if far < places.len() {
        places[far] = Some(arm.place);
    }
}

// Places for `count` numbers, all without a place.
fn no_places(alloc: Global, count: usize) -> Result<Vec<Option<u32>>, AllocError>
    ensures { IfOk result (λ places. places.items ≡ replicate count None) }
{
    Ok(vec![in alloc; None; count]?)
}

// The places of `count` numbers, from `low` on. The first arm with a label is put last, so it wins.
fn places(
    alloc: Global,
    arms: &[Arm],
    low: i32,
    count: usize,
) -> Result<Vec<Option<u32>>, AllocError>
    ensures { IfOk result
        (λ places. places.items ≡ coded.places_from (map arm arms.now) low count) }
{
    let mut places = no_places(alloc, count)?;
    for i in (0..arms.len()).rev() {
        put(&mut places, low, arms[i]);
    }
    Ok(places)
}

/// The table of a `case` with these arms. If it has a place for each number, it has at most four
/// places for each arm.
pub fn table_of(alloc: Global, arms: Vec<Arm>) -> Result<Table, AllocError>
    ensures { IfOk result (λ table. view.table table ≡ coded.table_of (map arm arms.items)) }
{
    let Some((low, high)) = bounds(&arms) else {
        return Ok(Table::Sparse(Arms::new(alloc, arms)?));
    };
    let count = count_between(low, high);
    if count > 4 * arms.len() {
        return Ok(Table::Sparse(Arms::new(alloc, arms)?));
    }
    let places = places(alloc, &arms, low, count)?;
    Ok(Table::Dense { low, places })
}
