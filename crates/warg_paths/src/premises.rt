//! What the premises of the laws are for: the contract of each function is the law, and it has no effect. Without any one of
//! these premises the law is false. Of premises that both paths have, one is left out.

ghost use Rattle.std.specs.Prelude.{◌≡◌, ℕ, ◌*◌, ◌<◌, ◌≤◌, ◌⊎◌, List, Option, Some, IsSome};
ghost use Rattle.warg_crypto.specs.Collisions.{AreHashes, SomeCollision};
ghost use Rattle.warg_log.specs.Cut.{old_over};
ghost use Rattle.warg_log.specs.Walks.{IsKnown, needed, needed_between};
ghost use Rattle.warg_paths.specs.Paths.{inclusion_of, inclusion_root, consistency_of, consistency_roots};
ghost use Rattle.warg_paths.specs.Ways.{ArePathInputs, AreGrowthInputs};

/// Two inclusion paths of one place to one root may differ, without a collision, where one has digests of other lengths.
pub fn path_sizes_are_needed()
    ensures { ¬ ((H : List ℕ → List ℕ) (m n : ℕ) (x y root : List ℕ) (xs ys : List (List ℕ))
        → AreHashes ys
        → inclusion_root H m n x xs ≡ Some root → inclusion_root H m n y ys ≡ Some root
        → ((x ≡ y) × (xs ≡ ys)) ⊎ SomeCollision H (ArePathInputs H m n x xs y ys)) }
{}

/// And where one doesn't lead to the root.
pub fn path_roots_are_needed()
    ensures { ¬ ((H : List ℕ → List ℕ) (m n : ℕ) (x y root : List ℕ) (xs ys : List (List ℕ))
        → AreHashes xs → AreHashes ys → inclusion_root H m n y ys ≡ Some root
        → ((x ≡ y) × (xs ≡ ys)) ⊎ SomeCollision H (ArePathInputs H m n x xs y ys)) }
{}

/// Two consistency paths between one pair of lengths to the same roots may differ, without a collision, where one has
/// digests of other lengths.
pub fn consistency_sizes_are_needed()
    ensures { ¬ ((H : List ℕ → List ℕ) (m n : ℕ) (r s old new : List ℕ) (xs ys : List (List ℕ))
        → AreHashes ys → consistency_roots H m n r xs ≡ Some (old, new)
        → consistency_roots H m n s ys ≡ Some (old, new)
        → (xs ≡ ys) ⊎ SomeCollision H (AreGrowthInputs H m n r xs s ys)) }
{}

/// And where one doesn't lead to the roots.
pub fn consistency_roots_are_needed()
    ensures { ¬ ((H : List ℕ → List ℕ) (m n : ℕ) (r s old new : List ℕ) (xs ys : List (List ℕ))
        → AreHashes xs → AreHashes ys → consistency_roots H m n s ys ≡ Some (old, new)
        → (xs ≡ ys) ⊎ SomeCollision H (AreGrowthInputs H m n r xs s ys)) }
{}

/// No path may be made where a digest that its proof needs isn't known.
pub fn known_digests_are_needed()
    ensures inclusion { ¬ ((H : List ℕ → List ℕ) (F : ℕ → Option (List ℕ)) (m n : ℕ) → m < n
        → IsSome (inclusion_of (old_over H F) m n)) }
    ensures consistency { ¬ ((H : List ℕ → List ℕ) (F : ℕ → Option (List ℕ)) (m n : ℕ) → 0 < m → m ≤ n
        → IsSome (consistency_of (old_over H F) m n)) }
{}

/// Nor a consistency path from no entries.
pub fn old_entries_are_needed()
    ensures { ¬ ((H : List ℕ → List ℕ) (F : ℕ → Option (List ℕ)) (m n : ℕ) → m ≤ n
        → IsKnown F (needed_between m n) → IsSome (consistency_of (old_over H F) m n)) }
{}

/// Nor an inclusion path of a leaf that isn't below the length.
pub fn index_below_is_needed()
    ensures { ¬ ((H : List ℕ → List ℕ) (F : ℕ → Option (List ℕ)) (m n : ℕ)
        → IsKnown F (needed (2 * m) n) → IsSome (inclusion_of (old_over H F) m n)) }
{}

/// Nor a consistency path between lengths that aren't in order.
pub fn order_of_lengths_is_needed()
    ensures { ¬ ((H : List ℕ → List ℕ) (F : ℕ → Option (List ℕ)) (m n : ℕ) → 0 < m
        → IsKnown F (needed_between m n) → IsSome (consistency_of (old_over H F) m n)) }
{}
