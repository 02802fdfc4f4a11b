//! Laws of the tiles: the contract of each function is the law, and it has no effect.

ghost use Rattle.std.specs.Prelude.{◌≡◌, ℕ, ◌<◌, ◌≤◌, ◌⊎◌, true, List, length, map, Option, Some};
ghost use Rattle.std.specs.List.{AllByRecursion};
ghost use Rattle.std.specs.Ordering.{nat_cmp, ordering_then};
ghost use Rattle.warg_crypto.specs.Collisions.{GivesHashes, AreHashes, SomeCollision};
ghost use Rattle.warg_log.specs.Tree.{root_of, own_digest};
ghost use Rattle.warg_log.specs.Cut.{with_target, cut_root};
ghost use Rattle.warg_log.specs.Ranges.{range_of};
ghost use Rattle.warg_log.specs.Walks.{needed, IsKnown};
ghost use Rattle.warg_tiles.specs.Between.{AreNew, tiles_between};
ghost use Rattle.warg_tiles.specs.Tiles.{TileAt};
ghost use Rattle.warg_tiles.specs.TileData.{Tiles, IsTileBy, has_below, root_below, digest_by, AreOwnBelow};
ghost use Rattle.warg_tiles.specs.TileLog.{partial_tiles, full_between, root_by_tiles, ArePartialTiles, AreFullBetween, ArePartialOf};
ghost use Rattle.warg_tiles.specs.Fetching.{AreFor};
ghost use Rattle.warg_tiles.specs.Placed.{IsTilePlaced, IsEvaluationPlaced, IsEdgePlaced};
ghost use Rattle.warg_tiles.specs.CheckpointText.{Said, CanBeSaid, text_before};

use crate::tile::Tile;
use std::cmp::Ordering;
use warg_log::GREATEST_LENGTH;

/// A digest that the tiles of a log give is the node's: where each tile has the log's own digests, and they give a digest for
/// a node, the log has the node, and this is its digest.
#[tactic(auto, using(crate::proofs::OwnLemmas::digest_by_own))]
pub fn digest_by_own_tiles()
    ensures { (H : List ℕ → List ℕ) (ds : List (List ℕ)) (tiles : Tiles) (x : ℕ) (d : List ℕ)
        → AllByRecursion (λ t. IsTileBy (own_digest H ds) t.0 t.1) tiles
        → digest_by H tiles x ≡ Some d → own_digest H ds x ≡ Some d }
{}

/// Tiles of anyone: where a tile's digests give a node's own digest in a log, those below the node are the log's own, or
/// two byte strings collide, which the tree over these digests and that over the log's leaves hash at one range.
#[tactic(auto, using(crate::proofs::StoredLemmas::tile_collides))]
pub fn tile_or_collision()
    ensures { (H : List ℕ → List ℕ) (ds : List (List ℕ)) (t : TileAt) (digests : List (List ℕ))
        (x : ℕ) → GivesHashes H → AreHashes ds → AreHashes digests → length digests ≡ t.width
        → has_below t x ≡ true → own_digest H ds x ≡ Some (root_below H digests x)
        → AreOwnBelow H ds t digests x ⊎ SomeCollision H (IsTilePlaced H digests x ds) }
{}

/// Tiles of anyone, as data of a proof: where they lead from a node and its digest to a log's root at its length, each digest
/// that they give for a needed node is the log's own, or two byte strings collide, which the evaluation and the tree over
/// the log's leaves hash at one range.
pub fn tiles_or_collision()
    ensures { (H : List ℕ → List ℕ) (ds : List (List ℕ)) (tiles : Tiles) (node : ℕ) (x : List ℕ)
        → GivesHashes H → AreHashes ds → AllByRecursion (λ t. AreHashes t.1) tiles → 0 < length ds
        → cut_root H (digest_by H tiles) node x (length ds) ≡ Some (root_of H ds)
        → AllByRecursion (λ y. digest_by H tiles y ≡ own_digest H ds y) (needed node (length ds))
        ⊎ SomeCollision H
        (IsEvaluationPlaced H (with_target (digest_by H tiles) (range_of node) x) ds) }
{}

/// Partial tiles of anyone: where they lead to a log's root at its length, they are the log's own, or two byte strings
/// collide, which the tree over a tile's digests and the root behind them, and that over the log's leaves hash at one range.
/// So a log that was opened from stored tiles, and has the checkpoint of the one that stored them, has its digests.
#[tactic(auto, using(crate::proofs::StoredLemmas::edge_collides))]
pub fn partial_tiles_or_collision()
    ensures { (H : List ℕ → List ℕ) (ds : List (List ℕ)) (tiles : Tiles) → GivesHashes H → AreHashes ds
        → length ds ≤ GREATEST_LENGTH → ArePartialTiles (length ds) tiles
        → root_by_tiles H tiles ≡ root_of H ds
        → AllByRecursion (λ t. IsTileBy (own_digest H ds) t.0 t.1) tiles
        ⊎ SomeCollision H (IsEdgePlaced H tiles ds) }
{}

/// A checkpoint text is read in one way: where two are the same bytes, each with what stands behind it, they say the same
/// and the same stands behind them. So what `write` gives is read as what was written.
#[tactic(auto, using(crate::proofs::TextLemmas::text_once))]
pub fn checkpoint_text_once()
    ensures { (s t : Said) (a b : Option (List ℕ)) → CanBeSaid s → CanBeSaid t
        → text_before s a ≡ text_before t b → (s ≡ t) × (a ≡ b) }
{}

/// The tiles that `tiles_between` gives are exactly those that a log has at its new length and hadn't at its old one, each
/// once. A wider tile in the place of a partial one is another tile.
pub fn each_new_tile_once()
    ensures { (old new : ℕ) → old ≤ new → new ≤ GREATEST_LENGTH → AreNew old new (tiles_between old new) }
{}

/// The full tiles that `take_full` hands out are exactly those that the log has now and hadn't at the last call, each once,
/// in the order in which entries fill them.
pub fn each_full_tile_once()
    ensures { (old new : ℕ) → new ≤ GREATEST_LENGTH → AreFullBetween old new (full_between old new) }
{}

/// The partial tiles of a length, which `partial` gives and `open` takes, are exactly its tiles that aren't full, each once,
/// by level.
pub fn each_partial_tile_once()
    ensures { (n : ℕ) → n ≤ GREATEST_LENGTH → ArePartialOf n (partial_tiles n) }
{}

/// The tiles that `tiles_for_inclusion` and `tiles_for_consistency` name are enough: whoever has them knows the digest of
/// each needed node, so the evaluation has a root (`warg_log::laws::needed_known`), and the path is made
/// (`warg_paths::laws::path_is_made`).
pub fn named_tiles_are_enough()
    ensures { (H : List ℕ → List ℕ) (n : ℕ) (tiles : Tiles) (nodes : List ℕ)
        → AreFor n (map (λ t. t.0) tiles) nodes → IsKnown (digest_by H tiles) nodes }
{}

/// Tiles are ordered by their levels, where these are equal by their numbers, and then by their widths.
pub fn order_by_level_then_number(first: &Tile, second: &Tile) -> Ordering
    ensures { result ≡ ordering_then (nat_cmp first.now.level second.now.level)
        (ordering_then (nat_cmp first.now.number second.now.number)
        (nat_cmp first.now.width second.now.width)) }
{
    first.cmp(second)
}
