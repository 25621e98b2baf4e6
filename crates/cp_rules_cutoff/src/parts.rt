//! Parts of a tree, and lists of them.

ghost use Rattle.std.specs.Prelude.{◌≡◌, ◌&&◌, ℕ, Bool, map, nat_lt};
ghost use Rattle.cp_model.specs.declared.tree.Constant as constant;
ghost use Rattle.cp_model.specs.declared.tree.Identifier as identifier;
ghost use Rattle.cp_rules_cutoff.specs.After.{all_after, constant_after, name_after, optional_after};

use cp_model::tree::{Constant, Identifier};

/// A part of the tree of a text.
pub trait Part {
    /// The plain data that the definitions see.
    ghost Plain: { Type 0 };

    ghost view: { Self → Plain };

    ghost after: { ℕ → Plain → Bool };

    /// Whether each place in the part is after `place`.
    fn is_after(&self, place: usize) -> bool
        ensures { result ≡ after place (view self.now) };
}

/// Whether each place in these parts is after `place`.
pub fn all_after<X: Part>(parts: &[X], place: usize) -> bool
    ensures { result ≡ all_after (X.after place) (map X.view parts.now) }
{
    for part in parts {
        if !part.is_after(place) {
            return false;
        }
    }
    true
}

/// Whether each place in these two parts is after `place`.
pub fn both_after<X: Part, Y: Part>(x: &X, y: &Y, place: usize) -> bool
    ensures { result ≡ (X.after place (X.view x.now) && Y.after place (Y.view y.now)) }
{
    x.is_after(place) && y.is_after(place)
}

impl<X: Part> Part for Vec<X> {
    ghost use Rattle.std.specs.Prelude.{List};

    ghost Plain = { List X.Plain };

    ghost view = { λ v. map X.view v.items };

    ghost after = { λ p. all_after (X.after p) };

    fn is_after(&self, place: usize) -> bool {
        all_after(self.as_slice(), place)
    }
}

impl<X: Part> Part for Box<X> {
    ghost Plain = { X.Plain };

    ghost view = { λ b. X.view b.value };

    ghost after = { X.after };

    fn is_after(&self, place: usize) -> bool {
        (**self).is_after(place)
    }
}

impl<X: Part> Part for Option<X> {
    ghost use Rattle.std.specs.Prelude.{Option, option_map};

    ghost Plain = { Option X.Plain };

    ghost view = { option_map X.view };

    ghost after = { λ p. optional_after (X.after p) };

    fn is_after(&self, place: usize) -> bool {
        match self {
            Some(part) => part.is_after(place),
            None => true,
        }
    }
}

/// The place of a token.
impl Part for usize {
    ghost Plain = { ℕ };

    ghost view = { λ at. at };

    ghost after = { nat_lt };

    fn is_after(&self, place: usize) -> bool {
        place < *self
    }
}

impl Part for Identifier {
    ghost Plain = { identifier.Identifier };

    ghost view = { λ x. x };

    ghost after = { name_after };

    fn is_after(&self, place: usize) -> bool {
        self.at.is_after(place)
    }
}

impl Part for Constant {
    ghost Plain = { constant.Constant };

    ghost view = { λ c. c };

    ghost after = { constant_after };

    fn is_after(&self, place: usize) -> bool {
        match self {
            Constant::Number { at, .. } => at.is_after(place),
            Constant::Negative { at, .. } => at.is_after(place),
            Constant::Character { at, .. } => at.is_after(place),
            Constant::Named(x) => x.is_after(place),
        }
    }
}
