//! Tiles of a log's tree.

ghost use Rattle.std.specs.Prelude.{◌≡◌, ◌*◌, ◌<◌, ◌≤◌, ◌↔◌, map, IsTrue, IfOk};
ghost use Rattle.std.specs.List.{range_with_len};
ghost use Rattle.warg_log.specs.Nodes.{place_of};
ghost use Rattle.warg_tiles.specs.Tiles.{node_in, tile_end, tile_over};
ghost use Rattle.warg_tiles.specs.TileData.{covers};

use std::alloc::{AllocError, Allocator};
use std::marker::Model;
use warg_log::{GREATEST_LENGTH, LeafRange, Node};

/// The digests of one height in a row, up to 256 of them, as one file: digest `i` of the tile with level `L` and number
/// `N` is that of the node of height `8 * L` whose leaves begin at `(256 * N + i) * 2^(8 * L)` (C2SP tlog-tiles).
///
/// The level is at most 63. The width, the number of digests, is between 1 and 256; a tile of width 256 is full, any
/// other is partial. Tiles are ordered by level, then by number, then by width.
#[derive(Clone, Copy, PartialEq, Eq, PartialOrd, Ord, Hash, Debug)]
pub struct Tile {
    level: u32,
    number: usize,
    width: usize,
}

// Contracts see a tile as its level, its number and its width.
impl Model for Tile {
    ghost use Rattle.std.specs.Prelude.{◌<◌, ◌≤◌};
    ghost use Rattle.warg_tiles.specs.Tiles.{TileAt};

    ghost Value = { TileAt };

    ghost view = { λ t. record { level = t.level; number = t.number; width = t.width } };

    ghost invariant = { λ t. (t.level ≤ 63) × (0 < t.width) × (t.width ≤ 256) };

    ghost inverse = { λ t. record { level = t.level; number = t.number; width = t.width } };
}

impl Tile {
    /// The tile of this level, this number and this width.
    pub fn new(level: u32, number: usize, width: usize) -> Tile
        requires level { level ≤ 63 }
        requires some { 0 < width }
        requires most { width ≤ 256 }
        ensures level { result.level ≡ level }
        ensures number { result.number ≡ number }
        ensures width { result.width ≡ width }
    {
        Tile {
            level,
            number,
            width,
        }
    }

    /// The least tile from which a node's digest can be made: its level is the node's height by 8, and it ends where
    /// the node's leaves end.
    pub fn over(node: Node) -> Tile
        ensures { result ≡ tile_over node.0 }
    {
        let height = node.height();
        let place = place_of(node) << (height % 8);
        Tile::new(height / 8, place / 256, place % 256 + (1 << (height % 8)))
    }

    /// The level, at most 63: the height of the tile's nodes is 8 times that.
    pub fn level(&self) -> u32
        ensures value { result ≡ self.now.level }
        ensures most { result ≤ 63 }
    {
        self.level
    }

    /// The number among the tiles of the level, from 0.
    pub fn number(&self) -> usize
        ensures value { result ≡ self.now.number }
    {
        self.number
    }

    /// How many digests the tile has, from 1 to 256.
    pub fn width(&self) -> usize
        ensures value { result ≡ self.now.width }
        ensures some { 0 < result }
        ensures most { result ≤ 256 }
    {
        self.width
    }

    /// The node of the tile's digest at a place, from 0.
    #[tactic(auto, using(crate::proofs::TileLemmas::level_low))]
    pub fn node(&self, place: usize) -> Node
        requires inside { place < self.now.width }
        requires fits { tile_end self.now ≤ GREATEST_LENGTH }
        ensures { result.0 ≡ node_in self.now place }
    {
        let count = 1 << (8 * self.level);
        Node::over(&LeafRange::new((256 * self.number + place) * count, count))
    }

    /// The nodes whose digests the tile has, from left to right. It fails only if allocation fails.
    pub fn nodes<A: Allocator>(&self, alloc: A) -> Result<Vec<Node, A>, AllocError>
        requires { tile_end self.now ≤ GREATEST_LENGTH }
        ensures { IfOk result (λ nodes. map (λ node. node.0) nodes.items
            ≡ map (node_in self.now) (range_with_len 0 self.now.width)) }
    {
        let mut nodes = Vec::new(alloc);
        'places: for place in 0..self.width() {
            nodes.push(self.node(place))?;
        }
        Ok(nodes)
    }

    // Whether the tile has all digests of another one: it is of the same level and number, and at least as wide.
    pub(crate) fn covers(&self, other: &Tile) -> bool
        ensures { result ≡ covers self.now other.now }
    {
        self.level == other.level && (self.number == other.number && other.width <= self.width)
    }

    /// Whether a log of this length has all nodes of the tile.
    pub fn exists_at_length(&self, length: usize) -> bool
        requires { length ≤ GREATEST_LENGTH }
        ensures { IsTrue result ↔ (tile_end self.now ≤ length) }
    {
        if self.level >= 8 {
            return false;
        }
        if self.number >= 1 << 55 {
            return false;
        }
        256 * self.number + self.width <= length >> (8 * self.level)
    }

    /// Whether the tile has 256 digests.
    pub fn is_full(&self) -> bool
        ensures { IsTrue result ↔ (self.now.width ≡ 256) }
    {
        self.width == 256
    }
}

// How many nodes of the node's height stand before it.
fn place_of(node: Node) -> usize
    ensures { result ≡ place_of node.0 }
{
    let height = node.height();
    if height < 63 {
        node.index() >> (height + 1)
    } else {
        0
    }
}
