//! A log that keeps its right edge alone.

ghost use Rattle.std.specs.Prelude.{◌≡◌, ℕ, ◌+◌, ◌-◌, ◌*◌, ◌/◌, ◌%◌, ◌^◌, ◌<◌, ◌≤◌, ◌↔◌, List, [], ◌∷◌, ◌++◌, Some, None, length, map, take, Err, IsTrue, IfOk, IfErr, OnOk, OnErr};
ghost use Rattle.std.specs.List.{AllByRecursion};
ghost use Rattle.std.specs.Option.{option_to_list};
ghost use Rattle.warg_crypto.specs.Tree.{leaf_digest};
ghost use Rattle.warg_log.specs.Tree.{root_of, own_digest};
ghost use Rattle.warg_tiles.specs.TileData.{IsTileBy};
ghost use Rattle.warg_tiles.specs.TileLog.{StandsFor, AreTilesOf, edge_tiles, split_into, root_on, root_by_tiles, partial_tiles, full_between, completed_from, tile_fault, tiles_fault};
ghost use Rattle.warg_tiles.specs.Private.Edges.{width_from, edge_from, EndsWith, AreAdded, root_if, tile_behind, partial_from, joined};

use crate::error::OpenError;
use crate::root::root_over;
use crate::stored::StoredTile;
use crate::tile::Tile;
use std::alloc::{AllocError, Allocator, Global};
use std::marker::{Model, PhantomData};
use std::mem;
use warg_crypto::{Hash, SupportedDigest, VisitBytes, hash_branch, hash_empty, hash_leaf};
use warg_log::{Checkpoint, GREATEST_LENGTH, LogBuilder, Node};

/// A log that keeps its right edge alone, the digests of its partial tiles: at most 255 of each level, whatever the
/// log's length. Full tiles wait until they are taken, for whoever stores them.
///
/// It returns checkpoints, but no digests for proofs: these are made out of the stored tiles.
#[derive(Drop)]
pub struct TileLog<D: SupportedDigest, V: VisitBytes, A: Allocator = Global> {
    count: usize,
    taken: usize,
    edge: Vec<Hash<D>, A>,
    full: Vec<StoredTile<D, A>, A>,
    of: PhantomData<V>,
}

// Contracts see the log as its length, that at the last call of `take_full`, and the digests of its tiles.
impl<D: SupportedDigest, V: VisitBytes, A: Allocator> Model for TileLog<D, V, A> {
    ghost use Rattle.warg_log.specs.declared.log.TheConstants.{GREATEST_LENGTH};
    ghost use Rattle.std.specs.Prelude.{◌≡◌, ◌^◌, ◌≤◌, length, map};
    ghost use Rattle.warg_tiles.specs.TileLog.{RightEdge};
    ghost use Rattle.warg_tiles.specs.Private.Edges.{edge_width};

    ghost Value = { RightEdge };

    ghost view = { λ l. record {
      len = l.count;
      taken = l.taken;
      digests = l.edge.items;
      full = map (λ t. (t.tile, t.digests.items)) l.full.items;
    } };

    ghost invariant = { λ l. (length l.edge.items ≡ edge_width 8 l.count) × (l.count ≤ GREATEST_LENGTH)
        × (l.taken ≤ l.count) };
}

impl<D: SupportedDigest, V: VisitBytes, A: Allocator + Copy> TileLog<D, V, A> {
    /// The log of no entries. It does not allocate yet.
    #[tactic(auto, unfolding(crate::specs::Private::Edges::edge_width))]
    pub fn new(alloc: A) -> Self
        ensures value { result ≡ record { len = 0; taken = 0; digests = []; full = [] } }
        ensures stands { StandsFor D.digest result [] }
    {
        TileLog {
            count: 0,
            taken: 0,
            edge: Vec::new(alloc),
            full: Vec::new(alloc),
            of: PhantomData,
        }
    }

    /// The log of this length whose partial tiles these are, by level, as `partial` gives them: it goes on from there,
    /// and its full tiles count as taken. The first fault by name: `Place` and `Width` of a tile that isn't the one of
    /// its place or its width, `Count` where there are more or fewer; before allocating. Else it fails only if
    /// allocation fails.
    ///
    /// The digests are taken as they are: compare the checkpoint, which has the root by them, with that of the log.
    /// Where the two are equal, the digests are the log's own, or two byte strings collide
    /// (`laws::partial_tiles_or_collision`).
    pub fn open(alloc: A, log_length: usize, tiles: &[StoredTile<D, A>]) -> Result<Self, OpenError>
        requires { log_length ≤ GREATEST_LENGTH }
        ensures length { IfOk result (λ log. (log.len ≡ log_length) × (log.taken ≡ log_length)
            × (log.full ≡ [])) }
        ensures edge { IfOk result (λ log.
            edge_tiles log ≡ map (λ t. (t.tile, t.digests.items)) tiles.now) }
        ensures stands { IfOk result (λ log. (ds : List (List ℕ)) → length ds ≡ log_length
            → AllByRecursion
            (λ t. IsTileBy (own_digest D.digest ds) t.tile t.digests.items) tiles.now
            → StandsFor D.digest log ds) }
        ensures count { (result ≡ Err OpenError.Count)
            ↔ (tiles_fault (partial_tiles log_length) (map (λ t. t.tile) tiles.now)
            ≡ Some OpenError.Count) }
        ensures place { (result ≡ Err OpenError.Place)
            ↔ (tiles_fault (partial_tiles log_length) (map (λ t. t.tile) tiles.now)
            ≡ Some OpenError.Place) }
        ensures width { (result ≡ Err OpenError.Width)
            ↔ (tiles_fault (partial_tiles log_length) (map (λ t. t.tile) tiles.now)
            ≡ Some OpenError.Width) }
    {
        check_tiles(0, log_length, tiles)?;
        let mut edge = Vec::new(alloc);
        push_digests(&mut edge, tiles)?;
        Ok(TileLog {
            count: log_length,
            taken: log_length,
            edge,
            full: Vec::new(alloc),
            of: PhantomData,
        })
    }

    /// The number of entries, at most [`GREATEST_LENGTH`](warg_log::GREATEST_LENGTH).
    pub fn length(&self) -> usize
        ensures value { result ≡ self.now.len }
        ensures fits { self.now.len ≤ GREATEST_LENGTH }
    {
        self.count
    }

    /// Whether the log has no entry.
    pub fn is_empty(&self) -> bool
        ensures { IsTrue result ↔ (self.now.len ≡ 0) }
    {
        self.count == 0
    }

    /// The tiles that were filled since the last call of `take_full`, as that call hands them out.
    pub fn full(&self) -> &[StoredTile<D, A>]
        ensures value { map (λ t. (t.tile, t.digests.items)) result.now ≡ self.now.full }
        ensures tiles { (ds : List (List ℕ)) → StandsFor D.digest self.now ds
            → AreTilesOf D.digest ds (full_between self.now.taken self.now.len)
            (map (λ t. (t.tile, t.digests.items)) result.now) }
    {
        self.full.as_slice()
    }

    /// Takes the tiles that were filled since the last call, each once, in the order in which entries filled them. The
    /// log goes on with none of them.
    pub fn take_full(&mut self) -> Vec<StoredTile<D, A>, A>
        ensures value { map (λ t. (t.tile, t.digests.items)) result.items ≡ self.old.full }
        ensures tiles { (ds : List (List ℕ)) → StandsFor D.digest self.old ds
            → AreTilesOf D.digest ds (full_between self.old.taken self.old.len)
            (map (λ t. (t.tile, t.digests.items)) result.items) }
        ensures rest { self.new ≡ record self.old { taken = self.old.len; full = [] } }
        ensures stands { (ds : List (List ℕ)) → StandsFor D.digest self.old ds
            → StandsFor D.digest self.new ds }
    {
        self.taken = self.count;
        let alloc = *self.full.allocator();
        mem::replace(&mut self.full, Vec::new(alloc))
    }

    /// The partial tiles, those of the right edge, by level: none for a level whose nodes fill tiles. It fails only if
    /// allocation fails.
    pub fn partial(&self, alloc: A) -> Result<Vec<StoredTile<D, A>, A>, AllocError>
        ensures value { IfOk result (λ tiles.
            map (λ t. (t.tile, t.digests.items)) tiles.items ≡ edge_tiles self.now) }
        ensures tiles { IfOk result (λ tiles. (ds : List (List ℕ)) → StandsFor D.digest self.now ds
            → AreTilesOf D.digest ds (partial_tiles self.now.len)
            (map (λ t. (t.tile, t.digests.items)) tiles.items)) }
    {
        partial_tiles(alloc, self.edge.as_slice(), self.count)
    }

    // As `push`, of the digest of a leaf that fills a tile.
    fn push_last(&mut self, digest: Hash<D>) -> Result<(), AllocError>
        requires fits { self.old.len < GREATEST_LENGTH }
        requires last { self.old.len % 256 ≡ 255 }
        ensures length { OnOk result ((self.new.len ≡ self.old.len + 1)
            × (self.new.taken ≡ self.old.taken)) }
        ensures stands { OnOk result ((ds : List (List ℕ)) → StandsFor D.digest self.old ds
            → StandsFor D.digest self.new (ds ++ digest ∷ [])) }
        ensures err { OnErr result (self.new ≡ self.old) }
    {
        let alloc = *self.full.allocator();
        let mut filled = Vec::new(alloc);
        let (kept, digest) = fill(
            alloc,
            &mut filled,
            self.edge.as_slice(),
            0,
            self.count,
            digest,
        )?;
        self.edge.reserve(1)?;
        self.full.append(&mut filled)?;
        self.edge.truncate(kept);
        self.edge.push_reserved(digest);
        self.count += 1;
        Ok(())
    }
}

impl<D: SupportedDigest, V: VisitBytes, A: Allocator + Copy> LogBuilder<D, V> for TileLog<D, V, A> {
    ghost len = { λ l. l.len };

    ghost stands_for = { λ l ds. StandsFor D.digest l ds };

    /// A push hashes the leaf, and the branches of each tile that it fills: on average one branch an entry.
    fn push(&mut self, entry: &V) -> Result<Node, AllocError>
        requires { self.old.len < GREATEST_LENGTH }
        ensures node { IfOk result (λ node. node.0 ≡ 2 * self.old.len) }
        ensures length { OnOk result ((self.new.len ≡ self.old.len + 1)
            × (self.new.taken ≡ self.old.taken)) }
        ensures stands { OnOk result ((ds : List (List ℕ)) → StandsFor D.digest self.old ds
            → StandsFor D.digest self.new (ds ++ leaf_digest D.digest (V.bytes entry.now) ∷ [])) }
        ensures err { OnErr result (self.new ≡ self.old) }
    {
        let digest = hash_leaf::<D, V>(entry);
        let leaf = Node::leaf(self.count);
        if self.count % 256 < 255 {
            self.edge.push(digest)?;
            self.count += 1;
            return Ok(leaf);
        }
        self.push_last(digest)?;
        Ok(leaf)
    }

    /// The root is made of the digests of the partial tiles, wherever these are from.
    fn checkpoint(&self) -> Checkpoint<D>
        ensures by_tiles { result.root ≡ root_by_tiles D.digest (edge_tiles self.now) }
        ensures root { (ds : List (List ℕ)) → StandsFor D.digest self.now ds
            → result.root ≡ root_of D.digest ds }
        ensures length { result.length ≡ self.now.len }
        ensures fits { self.now.len ≤ GREATEST_LENGTH }
    {
        match root_of_edge(self.edge.as_slice(), self.count) {
            Some(root) => Checkpoint::new(root, self.count),
            None => Checkpoint::new(hash_empty(), self.count),
        }
    }

    ghost stands_len = { λ s ds stands. stands.count };
}

// The partial tiles of a log of this length, out of its right edge.
fn partial_tiles<D, A: Allocator + Copy>(
    alloc: A,
    edge: &[Hash<D>],
    count: usize,
) -> Result<Vec<StoredTile<D, A>, A>, AllocError>
    requires fits { count ≤ GREATEST_LENGTH }
    requires width { length edge.now ≡ width_from 0 count }
    ensures split { IfOk result (λ tiles. map (λ t. (t.tile, t.digests.items)) tiles.items
        ≡ split_into (partial_tiles count) edge.now) }
    ensures own { IfOk result (λ tiles. (H : List ℕ → List ℕ) (ds : List (List ℕ)) → length ds ≡ count
        → edge.now ≡ edge_from H ds 0 count → AreTilesOf H ds (partial_tiles count)
        (map (λ t. (t.tile, t.digests.items)) tiles.items)) }
{
    let mut tiles = Vec::new(alloc);
    let mut rest = edge;
    'levels: for level in 0..8u32 {
        let places = count >> (8 * level);
        let (above, digests) = rest.split_at(rest.len() - places % 256);
        push_partial(&mut tiles, level, places, digests)?;
        rest = above;
    }
    Ok(tiles)
}

// Adds the partial tile of a level that has so many nodes, if there is one.
fn push_partial<D, A: Allocator + Copy>(
    tiles: &mut Vec<StoredTile<D, A>, A>,
    level: u32,
    places: usize,
    digests: &[Hash<D>],
) -> Result<(), AllocError>
    requires level { level < 8 }
    requires count { length digests.now ≡ places % 256 }
    ensures none { OnOk result (places % 256 ≡ 0 → tiles.new.items ≡ tiles.old.items) }
    ensures some { OnOk result (0 < places % 256
        → map (λ t. (t.tile, t.digests.items)) tiles.new.items
        ≡ tile_behind (map (λ t. (t.tile, t.digests.items)) tiles.old.items)
        (record { level = level; number = places / 256; width = places % 256 }) digests.now) }
{
    if digests.is_empty() {
        return Ok(());
    }
    let tile = Tile::new(level, places / 256, digests.len());
    let digests = copies(*tiles.allocator(), digests)?;
    tiles.push(StoredTile::new(tile, digests))?;
    Ok(())
}

// The root of a log of this length, out of its right edge; none of no entries.
#[tactic(auto, using(crate::proofs::PushLemmas::width_below))]
fn root_of_edge<D: SupportedDigest>(edge: &[Hash<D>], count: usize) -> Option<Hash<D>>
    requires fits { count ≤ GREATEST_LENGTH }
    requires width { length edge.now ≡ width_from 0 count }
    ensures by_tiles { result ≡ root_on D.digest None (split_into (partial_tiles count) edge.now) }
    ensures own { (ds : List (List ℕ)) → length ds ≡ count → edge.now ≡ edge_from D.digest ds 0 count
        → result ≡ root_if D.digest ds }
{
    let mut root = None;
    let mut rest = edge;
    'levels: for level in 0..8u32 {
        let width = (count >> (8 * level)) % 256;
        let (above, digests) = rest.split_at(rest.len() - width);
        root = root_with(digests, root);
        rest = above;
    }
    root
}

// The first fault of tiles that aren't the partial tiles of a length from a level on.
fn check_tiles<D, A: Allocator>(
    level: u32,
    log_length: usize,
    tiles: &[StoredTile<D, A>],
) -> Result<(), OpenError>
    requires { level ≤ 8 }
    ensures ok { OnOk result (tiles_fault (partial_from log_length level)
        (map (λ t. t.tile) tiles.now) ≡ None) }
    ensures err { IfErr result (λ e. tiles_fault (partial_from log_length level)
        (map (λ t. t.tile) tiles.now) ≡ Some e) }
{
    if level == 8 {
        return if tiles.is_empty() {
            Ok(())
        } else {
            Err(OpenError::Count)
        };
    }
    let places = log_length >> (8 * level);
    if places % 256 == 0 {
        return check_tiles(level + 1, log_length, tiles);
    }
    let Some((first, others)) = tiles.split_first() else {
        return Err(OpenError::Count);
    };
    check_tile(&Tile::new(level, places / 256, places % 256), &first.tile)?;
    check_tiles(level + 1, log_length, others)
}

// The fault of a tile in another's place.
fn check_tile(wanted: &Tile, given: &Tile) -> Result<(), OpenError>
    ensures ok { OnOk result (tile_fault wanted.now given.now ≡ None) }
    ensures err { IfErr result (λ e. tile_fault wanted.now given.now ≡ Some e) }
{
    if wanted.level() != given.level() || wanted.number() != given.number() {
        return Err(OpenError::Place);
    }
    if wanted.width() != given.width() {
        return Err(OpenError::Width);
    }
    Ok(())
}

// Writes the digests of tiles, those of the last one first.
fn push_digests<D, A: Allocator + Copy>(
    edge: &mut Vec<Hash<D>, A>,
    tiles: &[StoredTile<D, A>],
) -> Result<(), AllocError>
    ensures { OnOk result (edge.new.items ≡ edge.old.items ++ joined
        (map (λ t. t.digests.items) tiles.now)) }
{
    let Some((first, rest)) = tiles.split_first() else {
        return Ok(());
    };
    push_digests(edge, rest)?;
    let mut digests = copies(*edge.allocator(), first.digests.as_slice())?;
    edge.append(&mut digests)
}

// Puts a node's digest behind the right edge from a level on, where so many nodes of the level stand before it. Each
// tile that this fills goes behind the others, and its root up by one level. What is left are the first digests of the
// edge, so many, and the digest behind them.
fn fill<D: SupportedDigest, A: Allocator + Copy>(
    alloc: A,
    filled: &mut Vec<StoredTile<D, A>, A>,
    edge: &[Hash<D>],
    level: u32,
    count: usize,
    digest: Hash<D>,
) -> Result<(usize, Hash<D>), AllocError>
    requires fits { (count + 1) * 2 ^ (8 * level) ≤ GREATEST_LENGTH }
    requires width { length edge.now ≡ width_from level count }
    ensures kept { IfOk result (λ r. (r.0 ≤ length edge.now)
        × (r.0 + 1 ≡ width_from level (count + 1))) }
    ensures edge { IfOk result (λ r. (ds : List (List ℕ))
        → EndsWith D.digest ds level count edge.now digest
        → take r.0 edge.now ++ r.1 ∷ [] ≡ edge_from D.digest ds level (count + 1)) }
    ensures filled { OnOk result ((ds : List (List ℕ))
        → EndsWith D.digest ds level count edge.now digest
        → AreAdded D.digest ds (completed_from (8 - level) level (count + 1))
        (map (λ t. (t.tile, t.digests.items)) filled.old.items)
        (map (λ t. (t.tile, t.digests.items)) filled.new.items)) }
{
    if count % 256 < 255 {
        return Ok((edge.len(), digest));
    }
    let (above, partial) = edge.split_at(edge.len() - 255);
    let mut digests = copies(alloc, partial)?;
    digests.push(digest)?;
    let root = root_over(digests.as_slice());
    filled.push(StoredTile::new(Tile::new(level, count / 256, 256), digests))?;
    fill(alloc, filled, above, level + 1, count / 256, root)
}

// The same digests once more, with room for one behind them.
fn copies<D, A: Allocator>(alloc: A, digests: &[Hash<D>]) -> Result<Vec<Hash<D>, A>, AllocError>
    ensures { IfOk result (λ copies. copies.items ≡ digests.now) }
{
    let mut copies = Vec::with_capacity(alloc, digests.len() + 1)?;
    'digests: for digest in digests {
        copies.push(digest.copied())?;
    }
    Ok(copies)
}

// The root over digests and one more behind them, if there is one; none of no digest.
fn root_with<D: SupportedDigest>(digests: &[Hash<D>], last: Option<Hash<D>>) -> Option<Hash<D>>
    ensures { result ≡ root_if D.digest (digests.now ++ option_to_list last) }
{
    match last {
        Some(last) => Some(root_before(digests, last)),
        None => {
            if digests.is_empty() {
                None
            } else {
                Some(root_over(digests))
            }
        }
    }
}

// The root over digests and one more behind them.
#[tactic(auto, using(crate::proofs::ChunkLemmas::root_alone))]
fn root_before<D: SupportedDigest>(digests: &[Hash<D>], last: Hash<D>) -> Hash<D>
    ensures { result ≡ root_of D.digest (digests.now ++ last ∷ []) }
{
    if digests.is_empty() {
        return last;
    }
    let (front, rest) = digests.split_at(1 << digests.len().ilog2());
    hash_branch(&root_over(front), &root_before(rest, last))
}
