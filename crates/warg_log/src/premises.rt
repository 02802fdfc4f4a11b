//! What the premises of the laws are for: the contract of each function says that the law of its name is false without any one
//! of them, and it has no effect.

ghost use Rattle.std.specs.Prelude.{◌≡◌, ◌≢◌, ℕ, ◌+◌, ◌-◌, ◌*◌, ◌/◌, ◌%◌, ◌<◌, ◌≤◌, List, [], ◌∷◌, ◌++◌, length, take, drop, map, Option, Some, Ok, IsTrue, slice_index_or};
ghost use Rattle.std.specs.List.{AllByRecursion};
ghost use Rattle.warg_crypto.specs.Tree.{branch, leaf_digest};
ghost use Rattle.warg_log.specs.Nodes.{IsNode, ExistsAt, sibling_place, height_of, place_of, node_over, balanced_over, balanced_roots, Follow, Fall};
ghost use Rattle.warg_log.specs.Ranges.{Range, front_part, rest_part, IsAligned};
ghost use Rattle.warg_log.specs.Tree.{front_of, root_of, root_over, leaves_of, leaves_below, own_digest};
ghost use Rattle.warg_log.specs.Cut.{Evaluation, joined, cut_over, cut_root, with_own, old_over, old_root, IsFull, is_beside};
ghost use Rattle.warg_log.specs.Walks.{needed, needed_over, climbed, joined_all};
ghost use Rattle.warg_log.specs.Blocks.{Blocks, StandsFor, joined_blocks, pushed};
ghost use Rattle.warg_log.specs.Consistency.{consistency, IsConsistent};
ghost use Rattle.warg_log.specs.Inclusion.{inclusion};
ghost use Rattle.warg_log.specs.Claims.{leaf_claim};

/// A root of no digests is no branch.
pub fn root_of_more()
    ensures { ¬ ((H : List ℕ → List ℕ) (ds : List (List ℕ)) → root_of H ds ≡ branch H (root_of H (take
        (front_of (length ds)) ds)) (root_of H (drop (front_of (length ds)) ds))) }
{}

/// No power of two is below 1.
pub fn front_is_greatest()
    ensures { ¬ ((n : ℕ) → IsFull (front_of n) × (front_of n < n) × (n ≤ 2 * front_of n)) }
{}

/// A number has no other height or place than its own.
pub fn number_is_node()
    ensures { ¬ ((x k j : ℕ) → (height_of x ≡ k) × (place_of x ≡ j)) }
{}

/// Another number is no parent of a node, or of its sibling.
pub fn parent_of_sibling()
    ensures of_sibling { ¬ ((x y k j : ℕ) → IsNode y (k + 1) (j / 2) → x ≡ y) }
    ensures of_node { ¬ ((x y k j : ℕ) → IsNode x (k + 1) (sibling_place j / 2) → x ≡ y) }
{}

/// Other numbers are no halves, and a node is the half on the side of its place.
pub fn children_of_parent()
    ensures left_left_child { ¬ ((l r x s k j : ℕ) → IsNode r k (2 * (j / 2) + 1) → IsNode x k j → IsNode s k
        (sibling_place j) → j % 2 ≡ 0 → (l ≡ x) × (r ≡ s)) }
    ensures left_right_child { ¬ ((l r x s k j : ℕ) → IsNode l k (2 * (j / 2)) → IsNode x k j → IsNode s k
        (sibling_place j) → j % 2 ≡ 0 → (l ≡ x) × (r ≡ s)) }
    ensures left_node { ¬ ((l r x s k j : ℕ) → IsNode l k (2 * (j / 2)) → IsNode r k (2 * (j / 2) + 1) →
        IsNode s k (sibling_place j) → j % 2 ≡ 0 → (l ≡ x) × (r ≡ s)) }
    ensures left_sibling { ¬ ((l r x s k j : ℕ) → IsNode l k (2 * (j / 2)) → IsNode r k (2 * (j / 2) + 1) →
        IsNode x k j → j % 2 ≡ 0 → (l ≡ x) × (r ≡ s)) }
    ensures left_place { ¬ ((l r x s k j : ℕ) → IsNode l k (2 * (j / 2)) → IsNode r k (2 * (j / 2) + 1) →
        IsNode x k j → IsNode s k (sibling_place j) → (l ≡ x) × (r ≡ s)) }
    ensures right_left_child { ¬ ((l r x s k j : ℕ) → IsNode r k (2 * (j / 2) + 1) → IsNode x k j → IsNode s
        k (sibling_place j) → j % 2 ≡ 1 → (l ≡ s) × (r ≡ x)) }
    ensures right_right_child { ¬ ((l r x s k j : ℕ) → IsNode l k (2 * (j / 2)) → IsNode x k j → IsNode s k
        (sibling_place j) → j % 2 ≡ 1 → (l ≡ s) × (r ≡ x)) }
    ensures right_node { ¬ ((l r x s k j : ℕ) → IsNode l k (2 * (j / 2)) → IsNode r k (2 * (j / 2) + 1) →
        IsNode s k (sibling_place j) → j % 2 ≡ 1 → (l ≡ s) × (r ≡ x)) }
    ensures right_sibling { ¬ ((l r x s k j : ℕ) → IsNode l k (2 * (j / 2)) → IsNode r k (2 * (j / 2) + 1) →
        IsNode x k j → j % 2 ≡ 1 → (l ≡ s) × (r ≡ x)) }
    ensures right_place { ¬ ((l r x s k j : ℕ) → IsNode l k (2 * (j / 2)) → IsNode r k (2 * (j / 2) + 1) →
        IsNode x k j → IsNode s k (sibling_place j) → (l ≡ s) × (r ≡ x)) }
{}

/// Other nodes fall, and others follow one another.
pub fn balanced_in_a_row()
    ensures follow { ¬ ((n h : ℕ) (ts : List ℕ) → Fall h ts → ts ≡ balanced_roots n) }
    ensures fall { ¬ ((n : ℕ) (ts : List ℕ) → Follow 0 n ts → ts ≡ balanced_roots n) }
{}

/// No leaves have no node.
pub fn balanced_full()
    ensures { ¬ ((a n : ℕ) → balanced_over a n ≡ node_over a n ∷ []) }
{}

/// No leaves have no parts, and a power of two of them has one node.
pub fn balanced_parts()
    ensures more { ¬ ((a n : ℕ) → (IsFull n → ⊥) → balanced_over a n ≡ node_over a (front_of n) ∷
        balanced_over (a + front_of n) (n - front_of n)) }
    ensures not_full { ¬ ((a n : ℕ) → 1 < n → balanced_over a n ≡ node_over a (front_of n) ∷ balanced_over (a
        + front_of n) (n - front_of n)) }
{}

/// No digest is read for a range with other counts, or for the target.
pub fn cut_beside()
    ensures full { ¬ ((H : List ℕ → List ℕ) (e : Evaluation) (r : Range) → IsTrue (is_beside e.target r) →
        cut_over H e r ≡ e.held (node_over r.start r.count)) }
    ensures beside { ¬ ((H : List ℕ → List ℕ) (e : Evaluation) (r : Range) → IsFull r.count → cut_over H e r
        ≡ e.held (node_over r.start r.count)) }
{}

/// No leaves have no parts; the target has its digest, and a node that is read its own.
pub fn cut_parts()
    ensures more { ¬ ((H : List ℕ → List ℕ) (e : Evaluation) (r : Range) → r ≢ e.target → (IsFull r.count →
        IsTrue (is_beside e.target r) → ⊥) → cut_over H e r ≡ joined H (cut_over H e (front_part r))
        (cut_over H e (rest_part r))) }
    ensures other { ¬ ((H : List ℕ → List ℕ) (e : Evaluation) (r : Range) → 1 < r.count → (IsFull r.count →
        IsTrue (is_beside e.target r) → ⊥) → cut_over H e r ≡ joined H (cut_over H e (front_part r))
        (cut_over H e (rest_part r))) }
    ensures apart { ¬ ((H : List ℕ → List ℕ) (e : Evaluation) (r : Range) → 1 < r.count → r ≢ e.target →
        cut_over H e r ≡ joined H (cut_over H e (front_part r)) (cut_over H e (rest_part r))) }
{}

/// Other counts need more nodes, and the target none.
pub fn needed_beside()
    ensures full { ¬ ((t r : Range) → IsTrue (is_beside t r) → needed_over t r ≡ node_over r.start r.count ∷
        []) }
    ensures beside { ¬ ((t r : Range) → IsFull r.count → needed_over t r ≡ node_over r.start r.count ∷ []) }
{}

/// No leaves have no parts; a node that is read needs itself, and the target none; and the order is by the first part.
pub fn needed_parts()
    ensures rest_first_more { ¬ ((t r : Range) → (IsFull r.count → IsTrue (is_beside t r) → ⊥) → IsTrue
        (is_beside t (front_part r)) → needed_over t r ≡ needed_over t (rest_part r) ++ needed_over t
        (front_part r)) }
    ensures rest_first_apart { ¬ ((t r : Range) → 1 < r.count → IsTrue (is_beside t (front_part r)) →
        needed_over t r ≡ needed_over t (rest_part r) ++ needed_over t (front_part r)) }
    ensures rest_first_order { ¬ ((t r : Range) → 1 < r.count → (IsFull r.count → IsTrue (is_beside t r) → ⊥)
        → needed_over t r ≡ needed_over t (rest_part r) ++ needed_over t (front_part r)) }
    ensures front_first_more { ¬ ((t r : Range) → r ≢ t → (IsTrue (is_beside t (front_part r)) → ⊥) →
        needed_over t r ≡ needed_over t (front_part r) ++ needed_over t (rest_part r)) }
    ensures front_first_other { ¬ ((t r : Range) → 1 < r.count → (IsTrue (is_beside t (front_part r)) → ⊥) →
        needed_over t r ≡ needed_over t (front_part r) ++ needed_over t (rest_part r)) }
    ensures front_first_order { ¬ ((t r : Range) → 1 < r.count → r ≢ t → needed_over t r ≡ needed_over t
        (front_part r) ++ needed_over t (rest_part r)) }
{}

/// At no length no node exists.
pub fn needed_exist()
    ensures { ¬ ((t n : ℕ) → AllByRecursion (λ x. ExistsAt x n) (needed t n)) }
{}

/// From another node the walk comes elsewhere.
pub fn cut_by_walk()
    ensures { ¬ ((H : List ℕ → List ℕ) (F : ℕ → Option (List ℕ)) (t : ℕ) (x : List ℕ) (n steps : ℕ) (left
        right : List ℕ) → cut_root H F t x n ≡ joined_all H (map F left ++ climbed H F (Some x) (height_of t)
        (place_of t) steps ∷ map F right)) }
{}

/// A log has no digest at no length, or past its own.
pub fn cut_own()
    ensures some { ¬ ((H : List ℕ → List ℕ) (ds : List (List ℕ)) (t n : ℕ) → n ≤ length ds → cut_root H
        (own_digest H ds) t (root_of H (leaves_below t ds)) n ≡ Some (root_of H (take n ds))) }
    ensures length { ¬ ((H : List ℕ → List ℕ) (ds : List (List ℕ)) (t n : ℕ) → 0 < n → cut_root H (own_digest
        H ds) t (root_of H (leaves_below t ds)) n ≡ Some (root_of H (take n ds))) }
{}

/// Nor of no leaves, of leaves across two nodes, or past its own.
pub fn cut_own_range()
    ensures some { ¬ ((H : List ℕ → List ℕ) (ds : List (List ℕ)) (t r : Range) → IsAligned r.start r.count →
        r.start + r.count ≤ length ds → cut_over H (with_own H ds t) r ≡ Some (root_over H ds r.start
        r.count)) }
    ensures aligned { ¬ ((H : List ℕ → List ℕ) (ds : List (List ℕ)) (t r : Range) → 0 < r.count → r.start +
        r.count ≤ length ds → cut_over H (with_own H ds t) r ≡ Some (root_over H ds r.start r.count)) }
    ensures length { ¬ ((H : List ℕ → List ℕ) (ds : List (List ℕ)) (t r : Range) → 0 < r.count → IsAligned
        r.start r.count → cut_over H (with_own H ds t) r ≡ Some (root_over H ds r.start r.count)) }
{}

/// A log has no proof of an entry past a length, or at a length past its own.
pub fn own_inclusion()
    ensures index { ¬ ((H : List ℕ → List ℕ) (entries : List (List ℕ)) (i n : ℕ) → n ≤ length entries →
        inclusion H (own_digest H (leaves_of H entries)) (leaf_claim i n) (leaf_digest H (slice_index_or
        entries i [])) ≡ Ok (root_of H (leaves_of H (take n entries)))) }
    ensures length { ¬ ((H : List ℕ → List ℕ) (entries : List (List ℕ)) (i n : ℕ) → i < n → inclusion H
        (own_digest H (leaves_of H entries)) (leaf_claim i n) (leaf_digest H (slice_index_or entries i [])) ≡
        Ok (root_of H (leaves_of H (take n entries)))) }
{}

/// Other counts have a branch.
pub fn old_full()
    ensures { ¬ ((H : List ℕ → List ℕ) (F : ℕ → Option (List ℕ)) (r : Range) → old_over H F r ≡ F (node_over
        r.start r.count)) }
{}

/// No leaves have no parts, and a power of two of them has one digest.
pub fn old_parts()
    ensures more { ¬ ((H : List ℕ → List ℕ) (F : ℕ → Option (List ℕ)) (r : Range) → (IsFull r.count → ⊥) →
        old_over H F r ≡ joined H (old_over H F (front_part r)) (old_over H F (rest_part r))) }
    ensures not_full { ¬ ((H : List ℕ → List ℕ) (F : ℕ → Option (List ℕ)) (r : Range) → 1 < r.count →
        old_over H F r ≡ joined H (old_over H F (front_part r)) (old_over H F (rest_part r))) }
{}

/// A log has no digest past its length.
pub fn old_own()
    ensures { ¬ ((H : List ℕ → List ℕ) (ds : List (List ℕ)) (m : ℕ) → old_root H (own_digest H ds) m ≡ Some
        (root_of H (take m ds))) }
{}

/// Nor of no leaves, or of leaves across two nodes.
pub fn old_own_range()
    ensures some { ¬ ((H : List ℕ → List ℕ) (ds : List (List ℕ)) (r : Range) → IsAligned r.start r.count →
        r.start + r.count ≤ length ds → old_over H (own_digest H ds) r ≡ Some (root_over H ds r.start
        r.count)) }
    ensures aligned { ¬ ((H : List ℕ → List ℕ) (ds : List (List ℕ)) (r : Range) → 0 < r.count → r.start +
        r.count ≤ length ds → old_over H (own_digest H ds) r ≡ Some (root_over H ds r.start r.count)) }
    ensures length { ¬ ((H : List ℕ → List ℕ) (ds : List (List ℕ)) (r : Range) → 0 < r.count → IsAligned
        r.start r.count → old_over H (own_digest H ds) r ≡ Some (root_over H ds r.start r.count)) }
{}

/// A proof from no length is met by no roots, and leads to none.
pub fn consistency_met()
    ensures leads { ¬ ((H : List ℕ → List ℕ) (F : ℕ → Option (List ℕ)) (m n : ℕ) (old new : List ℕ) →
        IsConsistent H F m n old new) }
    ensures met { ¬ ((H : List ℕ → List ℕ) (F : ℕ → Option (List ℕ)) (m n : ℕ) (old new : List ℕ) →
        consistency H F m n ≡ Ok (old, new)) }
{}

/// A log has no proof from no length, to a smaller one, or to one past its own.
pub fn own_consistency()
    ensures some { ¬ ((H : List ℕ → List ℕ) (ds : List (List ℕ)) (m n : ℕ) → m ≤ n → n ≤ length ds →
        consistency H (own_digest H ds) m n ≡ Ok (root_of H (take m ds), root_of H (take n ds))) }
    ensures order { ¬ ((H : List ℕ → List ℕ) (ds : List (List ℕ)) (m n : ℕ) → 0 < m → n ≤ length ds →
        consistency H (own_digest H ds) m n ≡ Ok (root_of H (take m ds), root_of H (take n ds))) }
    ensures length { ¬ ((H : List ℕ → List ℕ) (ds : List (List ℕ)) (m n : ℕ) → 0 < m → m ≤ n → consistency H
        (own_digest H ds) m n ≡ Ok (root_of H (take m ds), root_of H (take n ds))) }
{}

/// Other blocks stand for no digests after a push.
pub fn pushed_stands()
    ensures { ¬ ((H : List ℕ → List ℕ) (b : Blocks) (d : List ℕ) (ds : List (List ℕ)) → StandsFor H (pushed H
        b d) (ds ++ d ∷ [])) }
{}

/// Other blocks join to another digest.
pub fn stands_for_root()
    ensures { ¬ ((H : List ℕ → List ℕ) (b : Blocks) (ds : List (List ℕ)) → joined_blocks H b.digests ≡
        root_of H ds) }
{}
