//! The labels of a `case` that are far apart.

ghost use Rattle.std.specs.Prelude.{◌≡◌, ℤ};
ghost use Rattle.std.specs.BTreeMap as tree;
ghost use Rattle.std.specs.Ordering.{int_cmp};
ghost use Rattle.cp_program.specs.Labels.{place_of_label};

use crate::arm::Arm;
use std::collections::BTreeMap;

/// The arms in text order, and the place of the first arm with each label.
#[derive(Drop)]
pub struct Arms {
    pub(crate) arms: Vec<Arm>,
    pub(crate) places: BTreeMap<i32, u32>,
    ghost found: { (n : ℤ) → tree.get int_cmp places n ≡ place_of_label arms.items n },
}
