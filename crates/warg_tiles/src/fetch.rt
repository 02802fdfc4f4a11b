//! The tiles to fetch for a proof.

ghost use Rattle.std.specs.Prelude.{◌≡◌, ◌*◌, ◌<◌, ◌≤◌, ◌∷◌, true, map, IfOk, OnOk};
ghost use Rattle.std.specs.List.{AllByRecursion};
ghost use Rattle.warg_log.specs.Nodes.{ExistsAt};
ghost use Rattle.warg_log.specs.Walks.{needed, needed_between};
ghost use Rattle.warg_tiles.specs.Between.{IsTileOf};
ghost use Rattle.warg_tiles.specs.TileData.{has_below};
ghost use Rattle.warg_tiles.specs.Fetching.{gives, AreFor, IsAdded};

use crate::data::TileData;
use crate::tile::Tile;
use std::alloc::{AllocError, Allocator};
use warg_crypto::Sha256;
use warg_log::{GREATEST_LENGTH, LogData, Node};

/// The tiles from which the proof of the entry at `index`, from 0, in the log of the first `length` entries is made:
/// each node that the proof needs has all digests of its level below it in one of them, and each of them has those of
/// such a node. Each is named once, and is as wide as it is at that length. It fails only if allocation fails.
pub fn tiles_for_inclusion<A: Allocator + Copy>(
    alloc: A,
    index: usize,
    length: usize,
) -> Result<Vec<Tile, A>, AllocError>
    requires inside { index < length }
    requires fits { length ≤ GREATEST_LENGTH }
    ensures { IfOk result (λ tiles. AreFor length tiles.items (needed (2 * index) length)) }
{
    let mut tiles = Vec::new(alloc);
    add_inclusion(&mut tiles, alloc, Node::leaf(index), length)?;
    Ok(tiles)
}

/// The tiles from which the proof is made that the log of the first `old_length` entries is a beginning of that of the
/// first `new_length`: each node that the proof needs has all digests of its level below it in one of them, and each of
/// them has those of such a node. Each is named once, and is as wide as it is at the new length. It fails only if
/// allocation fails.
pub fn tiles_for_consistency<A: Allocator + Copy>(
    alloc: A,
    old_length: usize,
    new_length: usize,
) -> Result<Vec<Tile, A>, AllocError>
    requires order { old_length ≤ new_length }
    requires fits { new_length ≤ GREATEST_LENGTH }
    ensures { IfOk result (λ tiles. AreFor new_length tiles.items
        (needed_between old_length new_length)) }
{
    let mut tiles = Vec::new(alloc);
    let roots = Node::broots_for_len(alloc, old_length)?;
    'roots: for root in roots.as_slice() {
        add_root(&mut tiles, alloc, *root, new_length)?;
    }
    Ok(tiles)
}

// Adds the tiles of an old balanced root, and those from which its proof is made.
fn add_root<A: Allocator + Copy>(
    tiles: &mut Vec<Tile, A>,
    alloc: A,
    root: Node,
    length: usize,
) -> Result<(), AllocError>
    requires exists { ExistsAt root.0 length }
    requires fits { length ≤ GREATEST_LENGTH }
    requires some { 0 < length }
    ensures { OnOk result (IsAdded length tiles.old.items tiles.new.items
        (root.0 ∷ needed root.0 length)) }
{
    add_nodes(tiles, &[root], length)?;
    add_inclusion(tiles, alloc, root, length)
}

// Adds the tiles from which the proof of a node is made.
fn add_inclusion<A: Allocator + Copy>(
    tiles: &mut Vec<Tile, A>,
    alloc: A,
    node: Node,
    length: usize,
) -> Result<(), AllocError>
    requires exists { ExistsAt node.0 length }
    requires fits { length ≤ GREATEST_LENGTH }
    requires some { 0 < length }
    ensures { OnOk result (IsAdded length tiles.old.items tiles.new.items (needed node.0 length)) }
{
    let none: TileData<Sha256, (), A> = TileData::new(alloc);
    let walk = match none.prove_inclusion(node, length).walk(alloc) {
        Ok(walk) => walk,
        Err(_) => return Err(AllocError),
    };
    add_nodes(tiles, walk.nodes(), length)
}

// Adds the tiles of some nodes of the log.
fn add_nodes<A: Allocator>(
    tiles: &mut Vec<Tile, A>,
    nodes: &[Node],
    length: usize,
) -> Result<(), AllocError>
    requires exist { AllByRecursion (λ node. ExistsAt node.0 length) nodes.now }
    requires fits { length ≤ GREATEST_LENGTH }
    ensures { OnOk result (IsAdded length tiles.old.items tiles.new.items
        (map (λ x. x.0) nodes.now)) }
{
    'nodes: for node in nodes {
        if !give(tiles.as_slice(), *node) {
            tiles.push(tile_for(*node, length))?;
        }
    }
    Ok(())
}

// Whether one of the tiles has all digests of its level below a node.
fn give(tiles: &[Tile], node: Node) -> bool
    ensures { result ≡ gives tiles.now node.0 }
{
    let least = Tile::over(node);
    'tiles: for tile in tiles {
        if tile.covers(&least) {
            return true;
        }
    }
    false
}

// The tile of a node of the log, as wide as it is at this length.
fn tile_for(node: Node, length: usize) -> Tile
    requires exists { ExistsAt node.0 length }
    requires fits { length ≤ GREATEST_LENGTH }
    ensures of { IsTileOf length result }
    ensures gives { has_below result node.0 ≡ true }
{
    let least = Tile::over(node);
    let count = length >> (8 * least.level());
    let width = (count - 256 * least.number()).min(256);
    Tile::new(least.level(), least.number(), width)
}
