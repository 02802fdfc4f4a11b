//! Laws of the paths: the contract of each function is the law, and it has no effect.

ghost use Rattle.std.specs.Prelude.{◌≡◌, ℕ, ◌+◌, ◌-◌, ◌*◌, ◌^◌, ◌<◌, ◌≤◌, ◌⊎◌, Bool, false, List, [], length, take, Option, Some, IsSome, slice_index_or};
ghost use Rattle.warg_log.specs.Ranges.{Range, front_part, rest_part};
ghost use Rattle.warg_log.specs.Tree.{front_of, root_of, own_digest};
ghost use Rattle.warg_log.specs.Cut.{cut_root, old_over};
ghost use Rattle.warg_log.specs.Walks.{IsKnown, needed, needed_between};
ghost use Rattle.warg_crypto.specs.Collisions.{AreHashes, SomeCollision};
ghost use Rattle.warg_paths.specs.Paths.{beside, inclusion_over, inclusion_of, path_at_end, consistency_over, consistency_of, inclusion_root, consistency_roots, led_to, led_to_both};
ghost use Rattle.warg_paths.specs.Ways.{ArePathInputs, AreGrowthInputs};

/// The inclusion path of one leaf is empty (RFC 6962, section 2.1.1).
pub fn inclusion_of_one()
    ensures { (R : Range → Option (List ℕ)) (m : ℕ) (r : Range) → r.count ≡ 1
        → inclusion_over R m r ≡ Some [] }
{}

/// The inclusion path of a leaf among the first k of more leaves, k the greatest power of two below their number,
/// is its path there and then the root of the rest; that of any other leaf is its path in the rest and then the
/// root of the first k (RFC 6962, section 2.1.1).
pub fn inclusion_of_more()
    ensures front { (R : Range → Option (List ℕ)) (m : ℕ) (r : Range) → 1 < r.count
        → m < front_of r.count
        → inclusion_over R m r ≡ beside (inclusion_over R m (front_part r)) (R (rest_part r)) }
    ensures rest { (R : Range → Option (List ℕ)) (m : ℕ) (r : Range) → 1 < r.count
        → front_of r.count ≤ m → inclusion_over R m r
        ≡ beside (inclusion_over R (m - front_of r.count) (rest_part r)) (R (front_part r)) }
{}

/// The consistency path of all leaves is empty where their root is known, and else that root (RFC 6962,
/// section 2.1.2).
pub fn consistency_of_all()
    ensures { (R : Range → Option (List ℕ)) (whole : Bool) (r : Range) → 0 < r.count
        → consistency_over R whole r.count r ≡ path_at_end R whole r }
{}

/// The consistency path of the first m of more leaves: where they end in the first k, their path there and then
/// the root of the rest; else the path in the rest, where they are no whole log, and then the root of the first k
/// (RFC 6962, section 2.1.2).
pub fn consistency_of_more()
    ensures front { (R : Range → Option (List ℕ)) (whole : Bool) (m : ℕ) (r : Range) → 0 < m
        → m < r.count → m ≤ front_of r.count → consistency_over R whole m r
        ≡ beside (consistency_over R whole m (front_part r)) (R (rest_part r)) }
    ensures rest { (R : Range → Option (List ℕ)) (whole : Bool) (m : ℕ) (r : Range) → m < r.count
        → front_of r.count < m → consistency_over R whole m r
        ≡ beside (consistency_over R false (m - front_of r.count) (rest_part r)) (R (front_part r)) }
{}

/// An inclusion path and an inclusion proof of one leaf over one data lead to one root, or both to none.
pub fn path_leads_as_proof()
    ensures { (H : List ℕ → List ℕ) (F : ℕ → Option (List ℕ)) (m n : ℕ) (x : List ℕ) → m < n
        → led_to H m n x (inclusion_of (old_over H F) m n) ≡ cut_root H F (2 * m) x n }
{}

/// A path is made where the digests that its proof needs are known: whoever has those of the needed nodes gets the inclusion
/// path of a leaf below the length, or the consistency path between two lengths in order, of which the first isn't 0.
#[tactic(auto, using(crate::proofs::KnownLemmas::inclusion_known, crate::proofs::KnownLemmas::consistency_known))]
pub fn path_is_made()
    ensures inclusion { (H : List ℕ → List ℕ) (F : ℕ → Option (List ℕ)) (m n : ℕ) → m < n
        → IsKnown F (needed (2 * m) n) → IsSome (inclusion_of (old_over H F) m n) }
    ensures consistency { (H : List ℕ → List ℕ) (F : ℕ → Option (List ℕ)) (m n : ℕ) → 0 < m → m ≤ n
        → IsKnown F (needed_between m n) → IsSome (consistency_of (old_over H F) m n) }
{}

/// A log's own inclusion paths lead to its roots: over its own digests the path of a leaf at a length up to its own
/// leads from the leaf's digest to the root of so many leaves.
pub fn own_inclusion_path()
    ensures { (H : List ℕ → List ℕ) (ds : List (List ℕ)) (m n : ℕ) → m < n → n ≤ length ds
        → led_to H m n (slice_index_or ds m []) (inclusion_of (old_over H (own_digest H ds)) m n)
        ≡ Some (root_of H (take n ds)) }
{}

/// A log's own consistency paths lead to its roots: over its own digests the path between two lengths up to its own
/// leads from the root of the first to both.
pub fn own_consistency_path()
    ensures { (H : List ℕ → List ℕ) (ds : List (List ℕ)) (m n : ℕ) → 0 < m → m ≤ n → n ≤ length ds
        → led_to_both H m n (root_of H (take m ds))
        (consistency_of (old_over H (own_digest H ds)) m n)
        ≡ Some (root_of H (take m ds), root_of H (take n ds)) }
{}

/// A path is unique: two inclusion paths of one place and length that lead to one root lead from one digest and are
/// one, or what the digest function takes in the one evaluation and in the other, at one range on the way to the leaf,
/// collides.
pub fn path_is_unique()
    ensures { (H : List ℕ → List ℕ) (m n : ℕ) (x y root : List ℕ) (xs ys : List (List ℕ))
        → AreHashes xs → AreHashes ys
        → inclusion_root H m n x xs ≡ Some root → inclusion_root H m n y ys ≡ Some root
        → ((x ≡ y) × (xs ≡ ys)) ⊎ SomeCollision H (ArePathInputs H m n x xs y ys) }
{}

/// A consistency path is unique: two between one pair of lengths that lead to the same roots are one, or what the digest
/// function takes in the one evaluation and in the other, for the old root or for the new one at one range on the way,
/// collides.
pub fn consistency_path_is_unique()
    ensures { (H : List ℕ → List ℕ) (m n : ℕ) (r s old new : List ℕ) (xs ys : List (List ℕ))
        → AreHashes xs → AreHashes ys
        → consistency_roots H m n r xs ≡ Some (old, new)
        → consistency_roots H m n s ys ≡ Some (old, new)
        → (xs ≡ ys) ⊎ SomeCollision H (AreGrowthInputs H m n r xs s ys) }
{}

/// An inclusion path of a log of at most 2^h entries has at most h digests, so one of at most 2^63 has at most 63.
pub fn path_is_short()
    ensures { (R : Range → Option (List ℕ)) (m n h : ℕ) (path : List (List ℕ)) → n ≤ 2 ^ h
        → inclusion_of R m n ≡ Some path → length path ≤ h }
{}

/// A consistency path to at most 2^h entries has at most h + 1 digests, so one to at most 2^63 has at most 64.
pub fn consistency_path_is_short()
    ensures { (R : Range → Option (List ℕ)) (m n h : ℕ) (path : List (List ℕ)) → 0 < m → m ≤ n
        → n ≤ 2 ^ h → consistency_of R m n ≡ Some path → length path ≤ h + 1 }
{}
