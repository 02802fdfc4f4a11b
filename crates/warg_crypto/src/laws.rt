//! What holds of all hashes and of all framed parts, stated over their bytes alone.

ghost use Rattle.std.specs.Prelude.{◌≡◌, ℕ, ◌↔◌, List, All, IsTrue};
ghost use Rattle.std.specs.Ordering.{nat_cmp};
ghost use Rattle.std.specs.Cmp.Lexicographic.{slice_cmp};
ghost use Rattle.warg_crypto.specs.Framed.{framed, IsPart};

use crate::hash::Hash;
use std::cmp::Ordering;

/// Hashes are ordered by their bytes, the first that differ deciding.
pub fn order_by_bytes<D>(first: &Hash<D>, second: &Hash<D>) -> Ordering
    ensures { result ≡ slice_cmp nat_cmp first.now second.now }
{
    first.cmp(second)
}

/// Hashes are equal exactly if their bytes are.
pub fn equal_by_bytes<D>(first: &Hash<D>, second: &Hash<D>) -> bool
    ensures { IsTrue result ↔ (first.now ≡ second.now) }
{
    first == second
}

/// Framed parts of the same bytes are the same parts: as many, and each the same.
#[tactic(auto, using(crate::proofs::FramedLemmas::framed_parts))]
pub fn framed_apart()
    ensures { (xs ys : List (List ℕ)) → All IsPart xs → All IsPart ys → framed xs ≡ framed ys
        → xs ≡ ys }
{}
