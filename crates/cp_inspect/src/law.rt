//! What the codes of places mean: a law about `specs/LeafCodes.antt`.

ghost use Rattle.std.specs.Prelude.{◌≡◌, List, map};
ghost use Rattle.cp_inspect.specs.LeafCodes.{leaf_codes, place_of};
ghost use Rattle.cp_inspect.specs.declared.leaves.Leaf.{Leaf};

/// Places with the same codes have the same paths, addresses and kinds, in the same order. This
/// function has no body: a caller has the law as a fact once it calls the function.
pub fn codes_determine_places()
    ensures { (places others : List Leaf) → leaf_codes places ≡ leaf_codes others
        → map place_of places ≡ map place_of others }
{}
