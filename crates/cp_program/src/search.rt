//! The look-up of where a `case` leads, in constant or logarithmic time.

ghost use Rattle.std.specs.Prelude.{◌≡◌, IfOk, map};
ghost use Rattle.cp_model_program.specs.Programs as code;
ghost use Rattle.cp_model_program.specs.Tables.{place_in};
ghost use Rattle.cp_program.specs.Labels.{arm, place_of_label};
ghost use Rattle.cp_program.specs.View as view;

use crate::arm::Arm;
use crate::arms::Arms;
use crate::operation::Table;
use std::alloc::{AllocError, Global};
use std::collections::BTreeMap;

impl Arms {
    /// Creates the arms of a `case`, given in text order. The first arm with a label counts.
    pub fn new(alloc: Global, arms: Vec<Arm>) -> Result<Arms, AllocError>
        ensures { IfOk result (λ x. x.arms.items ≡ arms.items) }
    {
        let mut places = BTreeMap::new(alloc);
        for i in (0..arms.len()).rev() {
            let arm = arms[i];
            places.insert(arm.label, arm.place)?;
        }
        Ok(Arms { arms, places })
    }

    /// The place of the first arm with this label, if there is one.
    pub fn place(&self, label: i32) -> Option<u32>
        ensures { result ≡ place_of_label self.now.arms.items label }
    {
        self.places.get(&label).copied()
    }
}

impl Table {
    /// The place to which a number leads, if a label matches it.
    pub fn place(&self, n: i32) -> Option<u32>
        ensures { result ≡ place_in (view.table self.now) n }
    {
        match self {
            Table::Dense { low, places } => dense_place(*low, places, n),
            Table::Sparse(arms) => arms.place(n),
        }
    }
}

// The place of a number, where `places` belong to the numbers from `low` on.
fn dense_place(low: i32, places: &[Option<u32>], n: i32) -> Option<u32>
    ensures { result ≡ place_in (code.Dense low places.now) n }
{
    if n < low {
        return None;
    }
    let far = (i64::from(n) - i64::from(low)) as usize;
    match places.get(far) {
        Some(place) => *place,
        None => None,
    }
}
