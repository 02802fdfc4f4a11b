//! Laws of the definitions in `specs/`: the contract of each function is the law, and it has no effect.
//!
//! Read them beside the definitions: they state the standard's own words (RFC 6962, section 2.1) where
//! a definition takes another road, and they are all that a proof about the definitions needs.

ghost use Rattle.std.specs.Prelude.{◌≡◌, ◌≢◌, ℕ, ◌+◌, ◌-◌, ◌*◌, ◌/◌, ◌%◌, ◌^◌, ◌<◌, ◌≤◌, ◌↔◌, List, [], ◌∷◌, ◌++◌, length, take, drop, map, Option, Some, None, Ok, Err, IsSome, IsTrue, slice_index_or};
ghost use Rattle.std.specs.List.{AllByRecursion};
ghost use Rattle.std.specs.Ordering.{nat_cmp, ordering_then};
ghost use Rattle.std.specs.Cmp.Lexicographic.{slice_cmp};
ghost use Rattle.warg_log.specs.Nodes.{IsNode, ExistsAt, sibling_place, height_of, place_of, node_over, number_of, balanced_over, balanced_roots, Follow, Fall};
ghost use Rattle.warg_crypto.specs.Tree.{branch, leaf_digest};
ghost use Rattle.warg_log.specs.Ranges.{Range, front_part, rest_part, IsAligned};
ghost use Rattle.warg_log.specs.Tree.{front_of, root_of, root_over, leaves_of, leaves_below, own_digest};
ghost use Rattle.warg_log.specs.Cut.{Evaluation, joined, cut_over, cut_root, with_own, old_over, old_root, IsFull, is_beside};
ghost use Rattle.warg_log.specs.Walks.{needed, needed_over, climbed, joined_all, IsKnown};
ghost use Rattle.warg_log.specs.Blocks.{Blocks, StandsFor, joined_blocks, pushed};
ghost use Rattle.warg_log.specs.Consistency.{consistency, IsConsistent};
ghost use Rattle.warg_log.specs.Inclusion.{inclusion};
ghost use Rattle.warg_log.specs.declared.proof.InclusionProofError.TheVariants.{LeafTooNew, HashNotKnown};
ghost use Rattle.warg_log.specs.Claims.{InclusionClaim, leaf_claim};

use crate::log::Checkpoint;
use std::cmp::Ordering;

/// The root of no digests is the digest of no bytes (RFC 6962, section 2.1).
pub fn root_of_none()
    ensures { (H : List ℕ → List ℕ) → root_of H [] ≡ H [] }
{}

/// The root of one digest is that digest (RFC 6962, section 2.1).
#[tactic(auto, using(crate::proofs::RootLemmas::root_of_one))]
pub fn root_of_one()
    ensures { (H : List ℕ → List ℕ) (d : List ℕ) → root_of H (d ∷ []) ≡ d }
{}

/// The root of more digests is the branch over the root of the first k and that of the rest, k the
/// greatest power of two below their number (RFC 6962, section 2.1).
pub fn root_of_more()
    ensures { (H : List ℕ → List ℕ) (ds : List (List ℕ)) → 1 < length ds
        → root_of H ds ≡ branch H (root_of H (take (front_of (length ds)) ds))
        (root_of H (drop (front_of (length ds)) ds)) }
{}

/// `front_of n` is the greatest power of two below `n`: it is one, it lies below `n`, and its double
/// doesn't.
pub fn front_is_greatest()
    ensures { (n : ℕ) → 1 < n → IsFull (front_of n) × (front_of n < n) × (n ≤ 2 * front_of n) }
{}

/// Each number is the node of one height and one place.
pub fn number_is_node()
    ensures is { (x : ℕ) → IsNode x (height_of x) (place_of x) }
    ensures only { (x k j : ℕ) → IsNode x k j → (height_of x ≡ k) × (place_of x ≡ j) }
{}

/// A node and its sibling have one parent: the node of the height above over either is the same.
#[tactic(auto, using(crate::proofs::NodeLemmas::one_number, std::proofs::lemmas::Bool::Decides::nat_tests))]
pub fn parent_of_sibling()
    ensures { (x y k j : ℕ) → IsNode x (k + 1) (sibling_place j / 2) → IsNode y (k + 1) (j / 2)
        → x ≡ y }
{}

/// The halves of the parent are the node and its sibling, in the order of their places.
#[tactic(auto, using(crate::proofs::NodeLemmas::one_number, std::proofs::lemmas::Bool::Decides::nat_tests))]
pub fn children_of_parent()
    ensures left { (l r x s k j : ℕ) → IsNode l k (2 * (j / 2)) → IsNode r k (2 * (j / 2) + 1)
        → IsNode x k j → IsNode s k (sibling_place j) → j % 2 ≡ 0 → (l ≡ x) × (r ≡ s) }
    ensures right { (l r x s k j : ℕ) → IsNode l k (2 * (j / 2)) → IsNode r k (2 * (j / 2) + 1)
        → IsNode x k j → IsNode s k (sibling_place j) → j % 2 ≡ 1 → (l ≡ s) × (r ≡ x) }
{}

/// The balanced roots of a length: their leaves follow one another from the first to the last one, and
/// their heights fall. No other nodes are so.
#[tactic(auto, using(crate::proofs::BalancedLemmas::roots_follow, crate::proofs::BalancedLemmas::roots_fall, crate::proofs::ClimbLemmas::balanced_roots_only))]
pub fn balanced_in_a_row()
    ensures follow { (n : ℕ) → Follow 0 n (balanced_roots n) }
    ensures fall { (n : ℕ) → Fall n (balanced_roots n) }
    ensures only { (n h : ℕ) (ts : List ℕ) → Follow 0 n ts → Fall h ts → ts ≡ balanced_roots n }
{}

/// The balanced root of a range of a power of two of leaves is the node over it.
#[tactic(auto, using(crate::proofs::ForCallers::balanced_full))]
pub fn balanced_full()
    ensures { (a n : ℕ) → IsFull n → balanced_over a n ≡ node_over a n ∷ [] }
{}

/// The balanced roots of any other range are the node over its first part, and those of the rest.
#[tactic(auto, using(crate::proofs::ForCallers::balanced_parts))]
pub fn balanced_parts()
    ensures { (a n : ℕ) → 1 < n → (IsFull n → ⊥)
        → balanced_over a n ≡ node_over a (front_of n) ∷ balanced_over (a + front_of n)
        (n - front_of n) }
{}

/// The cut root of the target's own range is the digest in its place.
#[tactic(auto, using(crate::proofs::ForCallers::cut_target))]
pub fn cut_target()
    ensures { (H : List ℕ → List ℕ) (e : Evaluation) → cut_over H e e.target ≡ Some e.digest }
{}

/// The cut root of a range that misses the target and has a power of two of leaves is the digest that
/// is held for it.
pub fn cut_beside()
    ensures { (H : List ℕ → List ℕ) (e : Evaluation) (r : Range)
        → IsFull r.count → IsTrue (is_beside e.target r)
        → cut_over H e r ≡ e.held (node_over r.start r.count) }
{}

/// The cut root of any other range is the branch over those of its two parts.
#[tactic(auto, using(crate::proofs::CutLemmas::cut_over_parts))]
pub fn cut_parts()
    ensures { (H : List ℕ → List ℕ) (e : Evaluation) (r : Range) → 1 < r.count → r ≢ e.target
        → (IsFull r.count → IsTrue (is_beside e.target r) → ⊥)
        → cut_over H e r ≡ joined H (cut_over H e (front_part r)) (cut_over H e (rest_part r)) }
{}

/// The target's own range needs no node.
#[tactic(auto, using(crate::proofs::WayLemmas::way_over_target), unfolding(crate::specs::Walks::read_on))]
pub fn needed_target()
    ensures { (t : Range) → needed_over t t ≡ [] }
{}

/// A range that misses the target and has a power of two of leaves needs the node over it.
pub fn needed_beside()
    ensures { (t r : Range) → IsFull r.count → IsTrue (is_beside t r)
        → needed_over t r ≡ node_over r.start r.count ∷ [] }
{}

/// Any other range needs what its two parts need: the rest's nodes stand first where the first part misses
/// the target, and else the first part's.
pub fn needed_parts()
    ensures rest_first { (t r : Range) → 1 < r.count
        → (IsFull r.count → IsTrue (is_beside t r) → ⊥) → IsTrue (is_beside t (front_part r))
        → needed_over t r ≡ needed_over t (rest_part r) ++ needed_over t (front_part r) }
    ensures front_first { (t r : Range) → 1 < r.count → r ≢ t → (IsTrue (is_beside t (front_part r)) → ⊥)
        → needed_over t r ≡ needed_over t (front_part r) ++ needed_over t (rest_part r) }
{}

/// The needed nodes exist at the length.
#[tactic(auto, using(crate::proofs::ForCallers::needed_exist))]
pub fn needed_exist()
    ensures { (t n : ℕ) → 0 < n → AllByRecursion (λ x. ExistsAt x n) (needed t n) }
{}

/// A cut root is there exactly if the digest of each needed node is.
#[tactic(auto, using(crate::proofs::ReadLemmas::needed_exactly))]
pub fn needed_known()
    ensures { (H : List ℕ → List ℕ) (F : ℕ → Option (List ℕ)) (t : ℕ) (x : List ℕ) (n : ℕ)
        → IsKnown F (needed t n) ↔ IsSome (cut_root H F t x n) }
{}

/// The cut root by the digests of a walk, in its order: the target's digest is joined with those of the
/// siblings on the way up to its balanced root, the lower number's on the left; then the digests of all
/// balanced roots, with what it has become in that root's place, are joined from right to left.
pub fn cut_by_walk()
    ensures { (H : List ℕ → List ℕ) (F : ℕ → Option (List ℕ)) (t : ℕ) (x : List ℕ) (n steps : ℕ)
        (left right : List ℕ)
        → balanced_roots n ≡ left ++ number_of (height_of t + steps)
        (place_of t / 2 ^ steps) ∷ right
        → cut_root H F t x n ≡ joined_all H (map F left ++ climbed H F (Some x) (height_of t)
        (place_of t) steps ∷ map F right) }
{}

/// Over a log's own digests, with a node's own digest in its place, the cut root at each length up to
/// the log's is the root of that many leaves.
#[tactic(auto, using(crate::proofs::CutLemmas::cut_root_own))]
pub fn cut_own()
    ensures { (H : List ℕ → List ℕ) (ds : List (List ℕ)) (t n : ℕ) → 0 < n → n ≤ length ds
        → cut_root H (own_digest H ds) t (root_of H (leaves_below t ds)) n
        ≡ Some (root_of H (take n ds)) }
{}

/// The same of a range that begins at a multiple of a power of two and has at most so many leaves, as each
/// range of the recursion does: its cut root is the root over it, whichever the target is.
#[tactic(auto, using(crate::proofs::ForCallers::cut_own_range))]
pub fn cut_own_range()
    ensures { (H : List ℕ → List ℕ) (ds : List (List ℕ)) (t r : Range) → 0 < r.count
        → IsAligned r.start r.count → r.start + r.count ≤ length ds
        → cut_over H (with_own H ds t) r ≡ Some (root_over H ds r.start r.count) }
{}

/// An inclusion proof leads to a root exactly if its node exists at its length and this is the cut root. Else it
/// is `LeafTooNew` exactly if the node doesn't exist, and `HashNotKnown` exactly if it does and a digest is lacking.
#[tactic(auto, using(crate::proofs::EvaluationLemmas::leads, crate::proofs::EvaluationLemmas::too_new, crate::proofs::EvaluationLemmas::unknown))]
pub fn inclusion_met()
    ensures ok { (H : List ℕ → List ℕ) (F : ℕ → Option (List ℕ)) (p : InclusionClaim)
        (x root : List ℕ)
        → (inclusion H F p x ≡ Ok root) ↔ (ExistsAt p.leaf.0 p.log_length
        × (cut_root H F p.leaf.0 x p.log_length ≡ Some root)) }
    ensures too_new { (H : List ℕ → List ℕ) (F : ℕ → Option (List ℕ)) (p : InclusionClaim)
        (x : List ℕ)
        → (inclusion H F p x ≡ Err LeafTooNew) ↔ ¬ ExistsAt p.leaf.0 p.log_length }
    ensures not_known { (H : List ℕ → List ℕ) (F : ℕ → Option (List ℕ)) (p : InclusionClaim)
        (x : List ℕ)
        → (inclusion H F p x ≡ Err HashNotKnown) ↔ (ExistsAt p.leaf.0 p.log_length
        × (cut_root H F p.leaf.0 x p.log_length ≡ None)) }
{}

/// A log's proof of an entry of its own leads to the log's root: over the log's own digests, leaf `i`
/// with entry `i` has, at each length above `i` up to the log's, the root of that many entries.
pub fn own_inclusion()
    ensures { (H : List ℕ → List ℕ) (entries : List (List ℕ)) (i n : ℕ) → i < n → n ≤ length entries
        → inclusion H (own_digest H (leaves_of H entries)) (leaf_claim i n)
        (leaf_digest H (slice_index_or entries i []))
        ≡ Ok (root_of H (leaves_of H (take n entries))) }
{}

/// The old root of a range of a power of two of leaves is the digest that is held for it.
#[tactic(auto, using(crate::proofs::ForCallers::old_full))]
pub fn old_full()
    ensures { (H : List ℕ → List ℕ) (F : ℕ → Option (List ℕ)) (r : Range) → IsFull r.count
        → old_over H F r ≡ F (node_over r.start r.count) }
{}

/// The old root of any other range is the branch over those of its two parts.
#[tactic(auto, using(crate::proofs::ForCallers::old_parts))]
pub fn old_parts()
    ensures { (H : List ℕ → List ℕ) (F : ℕ → Option (List ℕ)) (r : Range) → 1 < r.count
        → (IsFull r.count → ⊥)
        → old_over H F r ≡ joined H (old_over H F (front_part r)) (old_over H F (rest_part r)) }
{}

/// Over a log's own digests, the old root at each length up to the log's is the root of that many
/// leaves.
pub fn old_own()
    ensures { (H : List ℕ → List ℕ) (ds : List (List ℕ)) (m : ℕ) → m ≤ length ds
        → old_root H (own_digest H ds) m ≡ Some (root_of H (take m ds)) }
{}

/// The same of a range that begins at a multiple of a power of two and has at most so many leaves.
#[tactic(auto, using(crate::proofs::ForCallers::old_own_range))]
pub fn old_own_range()
    ensures { (H : List ℕ → List ℕ) (ds : List (List ℕ)) (r : Range) → 0 < r.count
        → IsAligned r.start r.count → r.start + r.count ≤ length ds
        → old_over H (own_digest H ds) r ≡ Some (root_over H ds r.start r.count) }
{}

/// A consistency proof evaluates to two roots exactly if these meet it.
pub fn consistency_met()
    ensures only { (H : List ℕ → List ℕ) (F : ℕ → Option (List ℕ)) (m n : ℕ) (old new : List ℕ)
        → consistency H F m n ≡ Ok (old, new) → IsConsistent H F m n old new }
    ensures then { (H : List ℕ → List ℕ) (F : ℕ → Option (List ℕ)) (m n : ℕ) (old new : List ℕ)
        → IsConsistent H F m n old new → consistency H F m n ≡ Ok (old, new) }
{}

/// A log's consistency proofs lead to the roots that it had: over the log's own digests, a proof from a
/// length of at least 1 to one that isn't smaller, up to the log's, has the roots of that many leaves.
#[tactic(auto, using(crate::proofs::EvaluationLemmas::consistency_own))]
pub fn own_consistency()
    ensures { (H : List ℕ → List ℕ) (ds : List (List ℕ)) (m n : ℕ) → 0 < m → m ≤ n → n ≤ length ds
        → consistency H (own_digest H ds) m n ≡ Ok (root_of H (take m ds), root_of H (take n ds)) }
{}

/// Blocks that stand for leaf digests stand, after a push of one more, for these and that one behind them.
pub fn pushed_stands()
    ensures { (H : List ℕ → List ℕ) (b : Blocks) (d : List ℕ) (ds : List (List ℕ))
        → StandsFor H b ds → StandsFor H (pushed H b d) (ds ++ d ∷ []) }
{}

/// Blocks that stand for leaf digests, joined from the right, are the root over these.
#[tactic(auto, using(crate::proofs::StackLemmas::stands_root))]
pub fn stands_for_root()
    ensures { (H : List ℕ → List ℕ) (b : Blocks) (ds : List (List ℕ)) → StandsFor H b ds
        → joined_blocks H b.digests ≡ root_of H ds }
{}

/// Checkpoints are ordered by their roots' bytes, and where these are equal by their lengths.
pub fn order_by_root_then_length<D>(first: &Checkpoint<D>, second: &Checkpoint<D>) -> Ordering
    ensures { result ≡ ordering_then (slice_cmp nat_cmp first.now.root second.now.root)
        (nat_cmp first.now.length second.now.length) }
{
    first.cmp(second)
}

/// Checkpoints are equal exactly if their roots and their lengths are, which is where their order calls
/// them equal.
pub fn equal_by_root_and_length<D>(first: &Checkpoint<D>, second: &Checkpoint<D>) -> bool
    ensures parts { IsTrue result ↔ ((first.now.root ≡ second.now.root)
        × (first.now.length ≡ second.now.length)) }
    ensures order { IsTrue result ↔ (ordering_then
        (slice_cmp nat_cmp first.now.root second.now.root)
        (nat_cmp first.now.length second.now.length) ≡ Ordering.Equal) }
{
    first == second
}
