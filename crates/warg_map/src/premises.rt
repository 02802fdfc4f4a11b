//! What the premises of the laws are for: the contract of each function says that the law of its name is false without any one
//! of them, and it has no effect.

ghost use Rattle.std.specs.Prelude.{◌≡◌, ℕ, List, Bool, Option, Some, length, ◌+◌, ◌++◌};
ghost use Rattle.std.specs.FinMap.{get, insert};
ghost use Rattle.std.specs.List.Sorted.{IsPermutation};
ghost use Rattle.std.specs.Ordering.{nat_cmp};
ghost use Rattle.std.specs.Cmp.Lexicographic.{slice_cmp};
ghost use Rattle.warg_crypto.specs.Digests.{IsDigest};
ghost use Rattle.warg_crypto.specs.EmptyTrees.{empty_root};
ghost use Rattle.warg_map.specs.Bits.{key_bits};
ghost use Rattle.warg_map.specs.Sparse.{SparseMap, bits_cmp, root_of_levels, sparse_root, leaf_at, inserted, HasDistinctKeys};
ghost use Rattle.warg_map.specs.ProofValue.{proof_value};
ghost use Rattle.warg_map.specs.Peers.{Proves, ProvesAbsent, ProvesEmpty};

/// Other insertions make another map, and so may those of keys of one digest in another order.
pub fn any_order()
    ensures permutation { ¬ ((H : List ℕ → List ℕ) (m : SparseMap) (xs ys : List (List ℕ × List ℕ)) →
        HasDistinctKeys H xs → inserted H m xs ≡ inserted H m ys) }
    ensures distinct { ¬ ((H : List ℕ → List ℕ) (m : SparseMap) (xs ys : List (List ℕ × List ℕ)) →
        IsPermutation xs ys → inserted H m xs ≡ inserted H m ys) }
{}

/// Other peers are no proof. Of the two proofs one is left out.
pub fn one_proof()
    ensures { ¬ ((H : List ℕ → List ℕ) (m : SparseMap) (bits : List Bool) (ps qs : List (Option (List ℕ))) →
        Proves H 256 m bits qs → ps ≡ qs) }
{}

/// Nor are they one of an absence.
pub fn one_absence_proof()
    ensures { ¬ ((H : List ℕ → List ℕ) (m : SparseMap) (bits : List Bool) (ps qs : List (Option (List ℕ))) →
        ProvesAbsent H m bits qs → ps ≡ qs) }
{}

/// Fewer bits, other peers and another leaf digest lead to another root.
pub fn own_proof()
    ensures bits { ¬ ((H : List ℕ → List ℕ) (m : SparseMap) (bits : List Bool) (peers : List (Option (List
        ℕ))) (x : List ℕ) → Proves H 256 m bits peers → (get m bits ≡ Some x → proof_value H peers x bits ≡
        sparse_root H 256 m) × (proof_value H peers x bits ≡ sparse_root H 256 (insert m bits x))) }
    ensures proof { ¬ ((H : List ℕ → List ℕ) (m : SparseMap) (bits : List Bool) (peers : List (Option (List
        ℕ))) (x : List ℕ) → length bits ≡ 256 → (get m bits ≡ Some x → proof_value H peers x bits ≡
        sparse_root H 256 m) × (proof_value H peers x bits ≡ sparse_root H 256 (insert m bits x))) }
    ensures held { ¬ ((H : List ℕ → List ℕ) (m : SparseMap) (bits : List Bool) (peers : List (Option (List
        ℕ))) (x : List ℕ) → length bits ≡ 256 → Proves H 256 m bits peers → (proof_value H peers x bits ≡
        sparse_root H 256 m) × (proof_value H peers x bits ≡ sparse_root H 256 (insert m bits x))) }
{}

/// So it is of an absence.
pub fn own_absence()
    ensures bits { ¬ ((H : List ℕ → List ℕ) (m : SparseMap) (bits : List Bool) (peers : List (Option (List
        ℕ))) (x : List ℕ) → ProvesEmpty H m bits peers → (leaf_at H m bits ≡ empty_root H 0 → proof_value H
        peers (empty_root H 0) bits ≡ sparse_root H 256 m) × (proof_value H peers x bits ≡ sparse_root H 256
        (insert m bits x))) }
    ensures proof { ¬ ((H : List ℕ → List ℕ) (m : SparseMap) (bits : List Bool) (peers : List (Option (List
        ℕ))) (x : List ℕ) → length bits ≡ 256 → (leaf_at H m bits ≡ empty_root H 0 → proof_value H peers
        (empty_root H 0) bits ≡ sparse_root H 256 m) × (proof_value H peers x bits ≡ sparse_root H 256
        (insert m bits x))) }
    ensures empty { ¬ ((H : List ℕ → List ℕ) (m : SparseMap) (bits : List Bool) (peers : List (Option (List
        ℕ))) (x : List ℕ) → length bits ≡ 256 → ProvesEmpty H m bits peers → proof_value H peers (empty_root
        H 0) bits ≡ sparse_root H 256 m) }
{}

/// Maps with other leaf digests have other roots.
pub fn one_root()
    ensures { ¬ ((H : List ℕ → List ℕ) (m n : SparseMap) → sparse_root H 256 m ≡ sparse_root H 256 n) }
{}

/// Digests of other lengths may have the same bits, and other bits are of another digest.
pub fn same_digest()
    ensures first { ¬ ((H : List ℕ → List ℕ) (key other : List ℕ) → IsDigest (H other) → key_bits H key ≡
        key_bits H other → H key ≡ H other) }
    ensures second { ¬ ((H : List ℕ → List ℕ) (key other : List ℕ) → IsDigest (H key) → key_bits H key ≡
        key_bits H other → H key ≡ H other) }
    ensures bits { ¬ ((H : List ℕ → List ℕ) (key other : List ℕ) → IsDigest (H key) → IsDigest (H other) → H
        key ≡ H other) }
{}

/// Digests of other lengths may be in another order than their bits.
pub fn order_of_bits()
    ensures first { ¬ ((H : List ℕ → List ℕ) (key other : List ℕ) → IsDigest (H other) → bits_cmp (key_bits H
        key) (key_bits H other) ≡ slice_cmp nat_cmp (H key) (H other)) }
    ensures second { ¬ ((H : List ℕ → List ℕ) (key other : List ℕ) → IsDigest (H key) → bits_cmp (key_bits H
        key) (key_bits H other) ≡ slice_cmp nat_cmp (H key) (H other)) }
{}

/// Fewer bits, other peers and another leaf digest lead to another digest at a prefix.
pub fn root_at_prefix()
    ensures bits { ¬ ((H : List ℕ → List ℕ) (m : SparseMap) (prefix rest : List Bool) (peers : List (Option
        (List ℕ))) (x : List ℕ) → Proves H 256 m (prefix ++ rest) peers → get m (prefix ++ rest) ≡ Some x →
        proof_value H peers x rest ≡ root_of_levels H (length rest) (λ bits. get m (prefix ++ bits))) }
    ensures proof { ¬ ((H : List ℕ → List ℕ) (m : SparseMap) (prefix rest : List Bool) (peers : List (Option
        (List ℕ))) (x : List ℕ) → length prefix + length rest ≡ 256 → get m (prefix ++ rest) ≡ Some x →
        proof_value H peers x rest ≡ root_of_levels H (length rest) (λ bits. get m (prefix ++ bits))) }
    ensures held { ¬ ((H : List ℕ → List ℕ) (m : SparseMap) (prefix rest : List Bool) (peers : List (Option
        (List ℕ))) (x : List ℕ) → length prefix + length rest ≡ 256 → Proves H 256 m (prefix ++ rest) peers →
        proof_value H peers x rest ≡ root_of_levels H (length rest) (λ bits. get m (prefix ++ bits))) }
{}

/// So it is of an absence, and of fewer bits.
pub fn absent_root_at_prefix()
    ensures bits { ¬ ((H : List ℕ → List ℕ) (m : SparseMap) (prefix rest : List Bool) (peers : List (Option
        (List ℕ))) → ProvesAbsent H m (prefix ++ rest) peers → proof_value H peers (empty_root H 0) rest ≡
        root_of_levels H (length rest) (λ bits. get m (prefix ++ bits))) }
    ensures proof { ¬ ((H : List ℕ → List ℕ) (m : SparseMap) (prefix rest : List Bool) (peers : List (Option
        (List ℕ))) → length prefix + length rest ≡ 256 → proof_value H peers (empty_root H 0) rest ≡
        root_of_levels H (length rest) (λ bits. get m (prefix ++ bits))) }
{}
