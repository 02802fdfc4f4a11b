//! Laws of the map, over its definitions alone.

ghost use Rattle.std.specs.Prelude.{◌≡◌, ℕ, List, Bool, Option, Some, length, ◌+◌, ◌++◌};
ghost use Rattle.std.specs.Option.{option_map};
ghost use Rattle.std.specs.FinMap.{get, insert};
ghost use Rattle.std.specs.List.Sorted.{IsPermutation};
ghost use Rattle.std.specs.Ordering.{nat_cmp};
ghost use Rattle.std.specs.Cmp.Lexicographic.{slice_cmp};
ghost use Rattle.warg_crypto.specs.Digests.{IsDigest};
ghost use Rattle.warg_crypto.specs.EmptyTrees.{empty_root};
ghost use Rattle.warg_map.specs.Bits.{key_bits};
ghost use Rattle.warg_crypto.specs.Tree.{leaf_digest};
ghost use Rattle.warg_map.specs.Sparse.{SparseMap, HasLevels, bits_cmp, root_of_levels, sparse_root, leaf_at, inserted, map_of, HasDistinctKeys};
ghost use Rattle.warg_map.specs.Last.{last_under};
ghost use Rattle.warg_map.specs.ProofValue.{proof_value};
ghost use Rattle.warg_map.specs.Peers.{Proves, ProvesAbsent, ProvesEmpty};

use crate::map::Map;
use std::alloc::Allocator;
use warg_crypto::SupportedDigest;

/// Insertions of keys of distinct digests give one map in any order, and so one root; and one map has one proof of each
/// key ([`one_proof`]).
pub fn any_order()
    ensures { (H : List ℕ → List ℕ) (m : SparseMap) (xs ys : List (List ℕ × List ℕ))
        → IsPermutation xs ys → HasDistinctKeys H xs → inserted H m xs ≡ inserted H m ys }
{}

/// A map has one proof of bits that it holds.
pub fn one_proof()
    ensures { (H : List ℕ → List ℕ) (m : SparseMap) (bits : List Bool)
        (ps qs : List (Option (List ℕ))) → Proves H 256 m bits ps → Proves H 256 m bits qs
        → ps ≡ qs }
{}

/// A map has one proof of bits that it doesn't hold.
pub fn one_absence_proof()
    ensures { (H : List ℕ → List ℕ) (m : SparseMap) (bits : List Bool)
        (ps qs : List (Option (List ℕ))) → ProvesAbsent H m bits ps → ProvesAbsent H m bits qs
        → ps ≡ qs }
{}

/// The proof of held bits leads from the leaf digest that is held to the map's root, and from any leaf digest to the
/// root of the map that holds this one in its place.
pub fn own_proof()
    ensures { (H : List ℕ → List ℕ) (m : SparseMap) (bits : List Bool)
        (peers : List (Option (List ℕ))) (x : List ℕ) → length bits ≡ 256
        → Proves H 256 m bits peers
        → (get m bits ≡ Some x → proof_value H peers x bits ≡ sparse_root H 256 m)
        × (proof_value H peers x bits ≡ sparse_root H 256 (insert m bits x)) }
{}

/// The proof that the leaf digest of bits is that of an empty leaf leads from this one to the map's root, and from any
/// leaf digest to the root of the map that holds it there.
pub fn own_absence()
    ensures { (H : List ℕ → List ℕ) (m : SparseMap) (bits : List Bool)
        (peers : List (Option (List ℕ))) (x : List ℕ) → length bits ≡ 256
        → ProvesEmpty H m bits peers
        → (leaf_at H m bits ≡ empty_root H 0
        → proof_value H peers (empty_root H 0) bits ≡ sparse_root H 256 m)
        × (proof_value H peers x bits ≡ sparse_root H 256 (insert m bits x)) }
{}

/// Two maps with the same leaf digest under each key's bits have one root. Where no key is held, that is the digest of
/// an empty leaf.
pub fn one_root()
    ensures { (H : List ℕ → List ℕ) (m n : SparseMap)
        → ((bits : List Bool) → length bits ≡ 256 → leaf_at H m bits ≡ leaf_at H n bits)
        → sparse_root H 256 m ≡ sparse_root H 256 n }
{}

/// All bits that a map holds are 256.
pub fn held_bits<D: SupportedDigest, K, V, A: Allocator>(map: &Map<D, K, V, A>)
    ensures { HasLevels 256 map.now }
{
    let _link = &map.link;
}

/// Keys of the same bits have the same digest.
pub fn same_digest()
    ensures { (H : List ℕ → List ℕ) (key other : List ℕ) → IsDigest (H key) → IsDigest (H other)
        → key_bits H key ≡ key_bits H other → H key ≡ H other }
{}

/// Digests are in the order of their bits.
pub fn order_of_bits()
    ensures { (H : List ℕ → List ℕ) (key other : List ℕ) → IsDigest (H key) → IsDigest (H other)
        → bits_cmp (key_bits H key) (key_bits H other) ≡ slice_cmp nat_cmp (H key) (H other) }
{}

/// A map of insertions holds under some bits the leaf digest of the last insertion whose key has them, or nothing.
pub fn last_held()
    ensures { (H : List ℕ → List ℕ) (bits : List Bool) (insertions : List (List ℕ × List ℕ))
        → get (map_of H insertions) bits ≡ option_map (λ e. leaf_digest H e.1)
        (last_under H bits insertions) }
{}

/// The proof of held bits leads from the leaf digest that is held to the plain root at each prefix of the bits.
pub fn root_at_prefix()
    ensures { (H : List ℕ → List ℕ) (m : SparseMap) (prefix rest : List Bool)
        (peers : List (Option (List ℕ))) (x : List ℕ) → length prefix + length rest ≡ 256
        → Proves H 256 m (prefix ++ rest) peers → get m (prefix ++ rest) ≡ Some x
        → proof_value H peers x rest ≡ root_of_levels H (length rest)
        (λ bits. get m (prefix ++ bits)) }
{}

/// The proof that bits aren't held leads from an empty leaf to the plain root at each prefix of the bits.
pub fn absent_root_at_prefix()
    ensures { (H : List ℕ → List ℕ) (m : SparseMap) (prefix rest : List Bool)
        (peers : List (Option (List ℕ))) → length prefix + length rest ≡ 256
        → ProvesAbsent H m (prefix ++ rest) peers
        → proof_value H peers (empty_root H 0) rest
        ≡ root_of_levels H (length rest) (λ bits. get m (prefix ++ bits)) }
{}
