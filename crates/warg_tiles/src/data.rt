//! Digests of tiles: made out of a log's data, and data of proofs.

ghost use Rattle.std.specs.Prelude.{◌≡◌, ◌≢◌, ◌*◌, ◌<◌, ◌≤◌, ◌↔◌, [], ◌∷◌, ◌++◌, length, map, Err, Option, IfOk, OnOk, OnErr};
ghost use Rattle.warg_tiles.specs.Tiles.{tile_end};
ghost use Rattle.warg_tiles.specs.TileData.{IsTileBy, LacksOf, covered_by, digest_by, digests_in};

use crate::error::{TileBytesError, TileError};
use crate::stored::StoredTile;
use crate::tile::Tile;
use std::alloc::{AllocError, Allocator, Global};
use std::marker::{Model, PhantomData};
use warg_crypto::{Hash, SupportedDigest, VisitBytes};
use warg_log::{GREATEST_LENGTH, LogData, Node};

/// The digests of a tile by the data: of each of its nodes, from left to right. `HashNotKnown` exactly if the data
/// lacks one of them, before allocating; else it fails only if allocation fails.
pub fn tile_hashes<D: SupportedDigest, V: VisitBytes, L: LogData<D, V>, A: Allocator>(
    alloc: A,
    hashes: &L,
    tile: &Tile,
) -> Result<Vec<Hash<D>, A>, TileError>
    requires { tile_end tile.now ≤ GREATEST_LENGTH }
    ensures ok { IfOk result (λ digests. IsTileBy (L.digest_at hashes.now) tile.now digests.items) }
    ensures not_known { (result ≡ Err TileError.HashNotKnown)
        ↔ LacksOf (L.digest_at hashes.now) tile.now }
{
    'known: for place in 0..tile.width() {
        if !hashes.has_hash(tile.node(place)) {
            return Err(TileError::HashNotKnown);
        }
    }
    let mut digests = Vec::new(alloc);
    'places: for place in 0..tile.width() {
        match hashes.hash_for(tile.node(place)) {
            Some(digest) => digests.push(digest)?,
            None => unreachable!(),
        }
    }
    Ok(digests)
}

/// The digests of tiles that were fetched, as data of proofs: the digest of a node is the root over those of the first
/// tile that has all digests of the node's level below it. So each proof and each path of a log is made out of its
/// tiles.
///
/// A search goes through the tiles, of which a proof needs a few.
#[derive(Drop)]
pub struct TileData<D: SupportedDigest, V: VisitBytes, A: Allocator = Global> {
    tiles: Vec<StoredTile<D, A>, A>,
    of: PhantomData<V>,
}

// Contracts see the data as the list of the tiles with their digests.
impl<D: SupportedDigest, V: VisitBytes, A: Allocator> Model for TileData<D, V, A> {
    ghost use Rattle.std.specs.Prelude.{map};
    ghost use Rattle.warg_tiles.specs.TileData.{Tiles};

    ghost Value = { Tiles };

    ghost view = { λ d. map (λ h. (h.tile, h.digests.items)) d.tiles.items };
}

impl<D: SupportedDigest, V: VisitBytes, A: Allocator> TileData<D, V, A> {
    /// The data of no tiles. It does not allocate yet.
    pub fn new(alloc: A) -> Self
        ensures { result ≡ [] }
    {
        TileData {
            tiles: Vec::new(alloc),
            of: PhantomData,
        }
    }

    /// Adds a tile with its digests. A refused call leaves the data as it was; it fails only if allocation fails.
    pub fn insert(&mut self, tile: Tile, digests: Vec<Hash<D>, A>) -> Result<(), AllocError>
        requires { length digests.items ≡ tile.width }
        ensures ok { OnOk result (self.new ≡ self.old ++ (tile, digests.items) ∷ []) }
        ensures err { OnErr result (self.new ≡ self.old) }
    {
        self.tiles.push(StoredTile { tile, digests })?;
        Ok(())
    }

    /// Whether one of the tiles has all digests of this one: it has its level and its number, and is at least as wide.
    pub fn has_tile(&self, tile: &Tile) -> bool
        ensures { result ≡ covered_by self.now tile.now }
    {
        any_covers(self.tiles.as_slice(), tile)
    }
}

// Whether one of the tiles has all digests of another one.
fn any_covers<D, A: Allocator>(tiles: &[StoredTile<D, A>], tile: &Tile) -> bool
    ensures { result ≡ covered_by (map (λ h. (h.tile, h.digests.items)) tiles.now) tile.now }
{
    'tiles: for held in tiles {
        if held.tile.covers(tile) {
            return true;
        }
    }
    false
}

impl<D: SupportedDigest, V: VisitBytes, A: Allocator + Copy> TileData<D, V, A> {
    /// Adds a tile by the bytes of its file, which are its digests one after the other. `Length` exactly if they aren't
    /// 32 for each digest of its width, before allocating; else it fails only if allocation fails. A refused call
    /// leaves the data as it was.
    pub fn insert_bytes(&mut self, tile: Tile, bytes: &[u8]) -> Result<(), TileBytesError>
        ensures ok { OnOk result (self.new ≡ self.old ++ (tile, digests_in tile.width bytes.now) ∷ []) }
        ensures fits { OnOk result (length bytes.now ≡ 32 * tile.width) }
        ensures length { (result ≡ Err TileBytesError.Length) ↔ (length bytes.now ≢ 32 * tile.width) }
        ensures err { OnErr result (self.new ≡ self.old) }
    {
        if bytes.len() != 32 * tile.width() {
            return Err(TileBytesError::Length);
        }
        let digests = digests_in(*self.tiles.allocator(), tile.width(), bytes)?;
        self.insert(tile, digests)?;
        Ok(())
    }
}

impl<D: SupportedDigest, V: VisitBytes, A: Allocator> LogData<D, V> for TileData<D, V, A> {
    ghost digest_at = { λ d x. digest_by D.digest d x };

    fn has_hash(&self, node: Node) -> bool {
        LogData::<D, V>::hash_for(self, node).is_some()
    }

    fn hash_for(&self, node: Node) -> Option<Hash<D>> {
        digest_in(self.tiles.as_slice(), node)
    }
}

// The digest of a node by the first of the tiles that gives one.
fn digest_in<D: SupportedDigest, A: Allocator>(
    tiles: &[StoredTile<D, A>],
    node: Node,
) -> Option<Hash<D>>
    ensures { result ≡ digest_by D.digest (map (λ h. (h.tile, h.digests.items)) tiles.now) node.0 }
{
    'tiles: for held in tiles {
        if let Some(digest) = held.digest_of(node) {
            return Some(digest);
        }
    }
    None
}

// The digests that bytes are, so many of them.
fn digests_in<D, A: Allocator>(
    alloc: A,
    count: usize,
    bytes: &[u8],
) -> Result<Vec<Hash<D>, A>, AllocError>
    requires count { count ≤ 256 }
    requires length { length bytes.now ≡ 32 * count }
    ensures { IfOk result (λ digests. digests.items ≡ digests_in count bytes.now) }
{
    let mut digests = Vec::with_capacity(alloc, count)?;
    'places: for place in 0..count {
        match Hash::try_from(&bytes[32 * place..32 * place + 32]) {
            Ok(digest) => digests.push(digest)?,
            Err(_) => unreachable!(),
        }
    }
    Ok(digests)
}
