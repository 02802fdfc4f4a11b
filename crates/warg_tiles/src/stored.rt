//! Tiles with their digests.

ghost use Rattle.std.specs.Prelude.{◌≡◌, ◌<◌, length, Option};
ghost use Rattle.warg_tiles.specs.TileData.{digest_of};

use crate::root::root_over;
use crate::tile::Tile;
use std::alloc::{Allocator, Global};
use warg_crypto::{Hash, SupportedDigest};
use warg_log::Node;

/// A tile with its digests, as many as its width.
#[derive(Drop)]
pub struct StoredTile<D, A: Allocator = Global> {
    pub tile: Tile,
    pub digests: Vec<Hash<D>, A>,
    pub ghost count: { length digests.items ≡ tile.width },
}

impl<D, A: Allocator> StoredTile<D, A> {
    /// The tile with these digests.
    pub fn new(tile: Tile, digests: Vec<Hash<D>, A>) -> Self
        requires { length digests.items ≡ tile.width }
        ensures tile { result.tile ≡ tile }
        ensures digests { result.digests.items ≡ digests.items }
    {
        StoredTile { tile, digests }
    }
}

impl<D: SupportedDigest, A: Allocator> StoredTile<D, A> {
    // The digest of a node by the tile, where it has all digests of its level below the node.
    pub(crate) fn digest_of(&self, node: Node) -> Option<Hash<D>>
        ensures { result ≡ digest_of D.digest (self.now.tile, self.now.digests.items) node.0 }
    {
        let least = Tile::over(node);
        if !self.tile.covers(&least) {
            return None;
        }
        let end = least.width();
        let start = end - (1 << (node.height() % 8));
        Some(root_over(&self.digests.as_slice()[start..end]))
    }
}
