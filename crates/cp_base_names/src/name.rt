//! A name as a key: it is hashed by its letters, in one call.

ghost use Rattle.std.specs.Prelude.{◌≡◌, ◌∷◌, []};
ghost use Rattle.std.specs.Str.{bytes_eq};
ghost use Rattle.std.specs.Cmp.Rules.{comparing};
ghost use Rattle.std.proofs.Common.{ap, rules};
ghost use Rattle.std.specs.Cmp.Lexicographic.{bytes_decides, nat_list_eq_equiv};

use indexmap::Equivalent;
use std::hash::{Hash, Hasher};

/// A name. It is hashed as a whole: the letters of a slice would be hashed one by one.
#[derive(Clone, Copy)]
pub struct Name<'t> {
    pub(crate) letters: &'t [u8],
}

impl PartialEq for Name<'_> {
    ghost eq = { λ x y. bytes_eq x.letters.now y.letters.now };

    ghost laws = { Prim.search (comparing, rules) };

    #[inline(always)]
    fn eq(&self, other: &Self) -> bool {
        self.letters == other.letters
    }
}

impl Eq for Name<'_> {
    ghost laws = { Prim.search (comparing, rules) };
}

impl Hash for Name<'_> {
    ghost hash_input = { λ n. n.letters.now ∷ [] };

    ghost respects_eq = { λ x y h. ap (λ l. l ∷ []) ((bytes_decides x.letters.now y.letters.now).0 h) };

    #[inline(always)]
    fn hash<H: Hasher>(&self, state: &mut H) {
        state.write(self.letters);
    }
}

// A name of one text equals the same name of another.
impl<'q, 't> Equivalent<Name<'t>> for Name<'q> {
    ghost equivalent = { λ q k. bytes_eq q.letters.now k.letters.now };

    ghost respects_hash = { λ q k h. ap (λ l. l ∷ []) ((bytes_decides q.letters.now k.letters.now).0 h) };

    ghost respects_eq = { λ q x y. nat_list_eq_equiv.congr q.letters.now x.letters.now y.letters.now };

    #[inline(always)]
    fn equivalent(&self, key: &Name<'t>) -> bool {
        self.letters == key.letters
    }
}
