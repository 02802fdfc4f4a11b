//! What the premises of the laws of tiles are for: the contract of each function is the law, and it has no effect. Without
//! any one premise the law is false.

ghost use Rattle.std.specs.Prelude.{◌≡◌, ℕ, ◌<◌, ◌≤◌, ◌⊎◌, true, List, length, map, Option, Some};
ghost use Rattle.std.specs.List.{AllByRecursion};
ghost use Rattle.warg_crypto.specs.Collisions.{GivesHashes, AreHashes, SomeCollision};
ghost use Rattle.warg_log.specs.Tree.{root_of, own_digest};
ghost use Rattle.warg_log.specs.Cut.{with_target, cut_root};
ghost use Rattle.warg_log.specs.Ranges.{range_of};
ghost use Rattle.warg_log.specs.Walks.{needed, IsKnown};
ghost use Rattle.warg_tiles.specs.Between.{AreNew, tiles_between};
ghost use Rattle.warg_tiles.specs.Tiles.{TileAt};
ghost use Rattle.warg_tiles.specs.TileData.{Tiles, IsTileBy, has_below, root_below, digest_by, AreOwnBelow};
ghost use Rattle.warg_tiles.specs.TileLog.{partial_tiles, full_between, root_by_tiles, ArePartialTiles, AreFullBetween, ArePartialOf};
ghost use Rattle.warg_tiles.specs.Placed.{IsTilePlaced, IsEvaluationPlaced, IsEdgePlaced};
ghost use Rattle.warg_tiles.specs.CheckpointText.{Said, CanBeSaid, text_before};

use warg_log::GREATEST_LENGTH;

/// A tile's digests may give a node's own digest and be others, without a collision, where digests have any length.
pub fn tile_hashes_are_needed()
    ensures { ¬ ((H : List ℕ → List ℕ) (ds : List (List ℕ)) (t : TileAt) (digests : List (List ℕ)) (x : ℕ)
        → AreHashes ds → AreHashes digests → length digests ≡ t.width
        → has_below t x ≡ true → own_digest H ds x ≡ Some (root_below H digests x)
        → AreOwnBelow H ds t digests x ⊎ SomeCollision H (IsTilePlaced H digests x ds)) }
{}

/// And where the log's leaf digests have any length.
pub fn tile_leaf_sizes_are_needed()
    ensures { ¬ ((H : List ℕ → List ℕ) (ds : List (List ℕ)) (t : TileAt) (digests : List (List ℕ)) (x : ℕ)
        → AreHashes digests → length digests ≡ t.width
        → has_below t x ≡ true → own_digest H ds x ≡ Some (root_below H digests x)
        → AreOwnBelow H ds t digests x ⊎ SomeCollision H (IsTilePlaced H digests x ds)) }
{}

/// And where the tile's digests have.
pub fn tile_sizes_are_needed()
    ensures { ¬ ((H : List ℕ → List ℕ) (ds : List (List ℕ)) (t : TileAt) (digests : List (List ℕ)) (x : ℕ)
        → AreHashes ds → length digests ≡ t.width
        → has_below t x ≡ true → own_digest H ds x ≡ Some (root_below H digests x)
        → AreOwnBelow H ds t digests x ⊎ SomeCollision H (IsTilePlaced H digests x ds)) }
{}

/// And where they are fewer than its width.
pub fn tile_count_is_needed()
    ensures { (H : List ℕ → List ℕ) → GivesHashes H → ¬ ((ds : List (List ℕ)) (t : TileAt)
        (digests : List (List ℕ)) (x : ℕ) → AreHashes ds → AreHashes digests
        → has_below t x ≡ true → own_digest H ds x ≡ Some (root_below H digests x)
        → AreOwnBelow H ds t digests x ⊎ SomeCollision H (IsTilePlaced H digests x ds)) }
{}

/// And where the node isn't above the tile's digests.
pub fn tile_place_is_needed()
    ensures { (H : List ℕ → List ℕ) → ¬ ((ds : List (List ℕ)) (t : TileAt) (digests : List (List ℕ)) (x : ℕ)
        → AreHashes ds → AreHashes digests → length digests ≡ t.width
        → own_digest H ds x ≡ Some (root_below H digests x)
        → AreOwnBelow H ds t digests x ⊎ SomeCollision H (IsTilePlaced H digests x ds)) }
{}

/// And where the digests give another one for the node.
pub fn tile_root_is_needed()
    ensures { (H : List ℕ → List ℕ) → ¬ ((ds : List (List ℕ)) (t : TileAt) (digests : List (List ℕ)) (x : ℕ)
        → AreHashes ds → AreHashes digests → length digests ≡ t.width → has_below t x ≡ true
        → AreOwnBelow H ds t digests x ⊎ SomeCollision H (IsTilePlaced H digests x ds)) }
{}

/// Tiles may lead to a log's root and give another digest than its own, without a collision, where digests have any length.
pub fn tiles_hashes_are_needed()
    ensures { ¬ ((H : List ℕ → List ℕ) (ds : List (List ℕ)) (tiles : Tiles) (node : ℕ) (x : List ℕ)
        → AreHashes ds → AllByRecursion (λ t. AreHashes t.1) tiles → 0 < length ds
        → cut_root H (digest_by H tiles) node x (length ds) ≡ Some (root_of H ds)
        → AllByRecursion (λ y. digest_by H tiles y ≡ own_digest H ds y) (needed node (length ds))
        ⊎ SomeCollision H
        (IsEvaluationPlaced H (with_target (digest_by H tiles) (range_of node) x) ds)) }
{}

/// And where the log's leaf digests have any length.
pub fn tiles_leaf_sizes_are_needed()
    ensures { ¬ ((H : List ℕ → List ℕ) (ds : List (List ℕ)) (tiles : Tiles) (node : ℕ) (x : List ℕ)
        → AllByRecursion (λ t. AreHashes t.1) tiles → 0 < length ds
        → cut_root H (digest_by H tiles) node x (length ds) ≡ Some (root_of H ds)
        → AllByRecursion (λ y. digest_by H tiles y ≡ own_digest H ds y) (needed node (length ds))
        ⊎ SomeCollision H
        (IsEvaluationPlaced H (with_target (digest_by H tiles) (range_of node) x) ds)) }
{}

/// And where those of the tiles have.
pub fn tiles_sizes_are_needed()
    ensures { ¬ ((H : List ℕ → List ℕ) (ds : List (List ℕ)) (tiles : Tiles) (node : ℕ) (x : List ℕ)
        → AreHashes ds → 0 < length ds
        → cut_root H (digest_by H tiles) node x (length ds) ≡ Some (root_of H ds)
        → AllByRecursion (λ y. digest_by H tiles y ≡ own_digest H ds y) (needed node (length ds))
        ⊎ SomeCollision H
        (IsEvaluationPlaced H (with_target (digest_by H tiles) (range_of node) x) ds)) }
{}

/// And where the log has no entry.
pub fn tiles_entry_is_needed()
    ensures { (H : List ℕ → List ℕ) → GivesHashes H → ¬ ((ds : List (List ℕ)) (tiles : Tiles) (node : ℕ)
        (x : List ℕ) → AreHashes ds → AllByRecursion (λ t. AreHashes t.1) tiles
        → cut_root H (digest_by H tiles) node x (length ds) ≡ Some (root_of H ds)
        → AllByRecursion (λ y. digest_by H tiles y ≡ own_digest H ds y) (needed node (length ds))
        ⊎ SomeCollision H
        (IsEvaluationPlaced H (with_target (digest_by H tiles) (range_of node) x) ds)) }
{}

/// And where they don't lead to its root.
pub fn tiles_root_is_needed()
    ensures { (H : List ℕ → List ℕ) → ¬ ((ds : List (List ℕ)) (tiles : Tiles) (node : ℕ) (x : List ℕ)
        → AreHashes ds → AllByRecursion (λ t. AreHashes t.1) tiles → 0 < length ds
        → AllByRecursion (λ y. digest_by H tiles y ≡ own_digest H ds y) (needed node (length ds))
        ⊎ SomeCollision H
        (IsEvaluationPlaced H (with_target (digest_by H tiles) (range_of node) x) ds)) }
{}

/// Partial tiles may lead to a log's root and not be its own, without a collision, where digests have any length.
pub fn partial_hashes_are_needed()
    ensures { ¬ ((H : List ℕ → List ℕ) (ds : List (List ℕ)) (tiles : Tiles) → AreHashes ds
        → length ds ≤ GREATEST_LENGTH → ArePartialTiles (length ds) tiles
        → root_by_tiles H tiles ≡ root_of H ds
        → AllByRecursion (λ t. IsTileBy (own_digest H ds) t.0 t.1) tiles
        ⊎ SomeCollision H (IsEdgePlaced H tiles ds)) }
{}

/// And where the log's leaf digests have any length.
pub fn partial_leaf_sizes_are_needed()
    ensures { ¬ ((H : List ℕ → List ℕ) (ds : List (List ℕ)) (tiles : Tiles)
        → length ds ≤ GREATEST_LENGTH → ArePartialTiles (length ds) tiles
        → root_by_tiles H tiles ≡ root_of H ds
        → AllByRecursion (λ t. IsTileBy (own_digest H ds) t.0 t.1) tiles
        ⊎ SomeCollision H (IsEdgePlaced H tiles ds)) }
{}

/// And where they stand at other places.
pub fn partial_places_are_needed()
    ensures { (H : List ℕ → List ℕ) → ¬ ((ds : List (List ℕ)) (tiles : Tiles) → AreHashes ds
        → length ds ≤ GREATEST_LENGTH → AllByRecursion (λ t. length t.1 ≡ t.0.width) tiles
        → AllByRecursion (λ t. AreHashes t.1) tiles
        → root_by_tiles H tiles ≡ root_of H ds
        → AllByRecursion (λ t. IsTileBy (own_digest H ds) t.0 t.1) tiles
        ⊎ SomeCollision H (IsEdgePlaced H tiles ds)) }
{}

/// And where one has fewer digests than its width.
pub fn partial_counts_are_needed()
    ensures { (H : List ℕ → List ℕ) → GivesHashes H → ¬ ((ds : List (List ℕ)) (tiles : Tiles) → AreHashes ds
        → length ds ≤ GREATEST_LENGTH → map (λ t. t.0) tiles ≡ partial_tiles (length ds)
        → AllByRecursion (λ t. AreHashes t.1) tiles
        → root_by_tiles H tiles ≡ root_of H ds
        → AllByRecursion (λ t. IsTileBy (own_digest H ds) t.0 t.1) tiles
        ⊎ SomeCollision H (IsEdgePlaced H tiles ds)) }
{}

/// And where its digests have any length.
pub fn partial_sizes_are_needed()
    ensures { ¬ ((H : List ℕ → List ℕ) (ds : List (List ℕ)) (tiles : Tiles) → AreHashes ds
        → length ds ≤ GREATEST_LENGTH → map (λ t. t.0) tiles ≡ partial_tiles (length ds)
        → AllByRecursion (λ t. length t.1 ≡ t.0.width) tiles
        → root_by_tiles H tiles ≡ root_of H ds
        → AllByRecursion (λ t. IsTileBy (own_digest H ds) t.0 t.1) tiles
        ⊎ SomeCollision H (IsEdgePlaced H tiles ds)) }
{}

/// And where they lead to another root.
pub fn partial_root_is_needed()
    ensures { (H : List ℕ → List ℕ) → ¬ ((ds : List (List ℕ)) (tiles : Tiles) → AreHashes ds
        → length ds ≤ GREATEST_LENGTH → ArePartialTiles (length ds) tiles
        → AllByRecursion (λ t. IsTileBy (own_digest H ds) t.0 t.1) tiles
        ⊎ SomeCollision H (IsEdgePlaced H tiles ds)) }
{}

/// Tiles with other digests may give a node another digest than its own.
pub fn own_tiles_are_needed()
    ensures { (H : List ℕ → List ℕ) → ¬ ((ds : List (List ℕ)) (tiles : Tiles) (x : ℕ) (d : List ℕ)
        → digest_by H tiles x ≡ Some d → own_digest H ds x ≡ Some d) }
{}

/// And a node for which they give none may have any digest or none.
pub fn given_digests_are_needed()
    ensures { (H : List ℕ → List ℕ) → ¬ ((ds : List (List ℕ)) (tiles : Tiles) (x : ℕ) (d : List ℕ)
        → AllByRecursion (λ t. IsTileBy (own_digest H ds) t.0 t.1) tiles → own_digest H ds x ≡ Some d) }
{}

/// `tiles_between` gives tiles that a length has and a greater one hasn't only in part.
pub fn old_length_is_needed()
    ensures { ¬ ((old new : ℕ) → new ≤ GREATEST_LENGTH → AreNew old new (tiles_between old new)) }
{}

/// Nor does it give those above the eighth level, which no log here has.
pub fn new_length_is_needed()
    ensures { ¬ ((old new : ℕ) → old ≤ new → AreNew old new (tiles_between old new)) }
{}

/// Nor are there partial tiles above it.
pub fn partial_length_is_needed()
    ensures { ¬ ((n : ℕ) → ArePartialOf n (partial_tiles n)) }
{}

/// Other tiles need not be enough.
pub fn named_tiles_are_needed()
    ensures { (H : List ℕ → List ℕ) → ¬ ((n : ℕ) (tiles : Tiles) (nodes : List ℕ)
        → IsKnown (digest_by H tiles) nodes) }
{}

/// And of a log of more entries than tiles of eight levels take, as no log is.
pub fn partial_bound_is_needed()
    ensures { ¬ ((H : List ℕ → List ℕ) (ds : List (List ℕ)) (tiles : Tiles) → GivesHashes H → AreHashes ds
        → ArePartialTiles (length ds) tiles
        → root_by_tiles H tiles ≡ root_of H ds
        → AllByRecursion (λ t. IsTileBy (own_digest H ds) t.0 t.1) tiles
        ⊎ SomeCollision H (IsEdgePlaced H tiles ds)) }
{}

/// Nor does `take_full` give those above it.
pub fn full_length_is_needed()
    ensures { ¬ ((old new : ℕ) → AreFullBetween old new (full_between old new)) }
{}

/// Of two different values with the bytes of one text, one may say what no text can.
pub fn texts_are_needed()
    ensures { ¬ ((s t : Said) (a b : Option (List ℕ)) → CanBeSaid t → text_before s a ≡ text_before t b
        → (s ≡ t) × (a ≡ b)) }
{}

/// And those of different texts say different things.
pub fn one_text_is_needed()
    ensures { ¬ ((s t : Said) (a b : Option (List ℕ)) → CanBeSaid s → CanBeSaid t → (s ≡ t) × (a ≡ b)) }
{}
