//! The first and last names of designators.

ghost use Rattle.std.specs.Prelude.{◌≡◌, map, drop};
ghost use Rattle.cp_model.specs.RulesNames as r;
ghost use Rattle.cp_model.specs.View.{designator, selector, selectors_of};

use cp_model::tree::{Designator, Identifier, Selector};

/// The first name of a designator.
pub fn first_name(designated: &Designator) -> &Identifier
    ensures { result.now ≡ r.first_name (designator designated.now) }
{
    &designated.root
}

/// The last name of a designator: that of its last field, or the first.
pub fn last_name(designated: &Designator) -> &Identifier
    ensures { result.now ≡ r.last_name (designator designated.now) }
{
    let mut last = &designated.root;
    for s in &designated.selectors {
        if let Selector::Field { name, .. } = s {
            last = name;
        }
    }
    last
}

/// Whether the selectors include a field.
pub fn has_field(selectors: &[Selector]) -> bool
    ensures { result ≡ r.has_field (selectors_of (map selector selectors.now)) }
{
    for s in selectors {
        if let Selector::Field { .. } = s {
            return true;
        }
    }
    false
}
