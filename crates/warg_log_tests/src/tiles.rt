//! Logs that keep their right edge: their tiles and checkpoints beside those of a log that holds every digest.

use refusing::Refusing;
use std::alloc::{Allocator, Global};
use std::process::Abort;
use warg_crypto::weak::Sum;
use warg_crypto::{Hash, Sha256, SupportedDigest};
use warg_log::{GREATEST_LENGTH, LogBuilder, LogData, Node, VecLog};
use warg_tiles::{
    EntryError, OpenError, StoredTile, Tile, TileBytesError, TileData, TileLog, push_entry,
    tile_hashes, tiles_between,
};

// The same entries in two logs: one holds the digest of every node, the other those of its right edge.
#[derive(Drop)]
struct Logs<D: SupportedDigest> {
    all: VecLog<D, u64>,
    edge: TileLog<D, u64>,
}

impl<D: SupportedDigest> Logs<D> {
    fn new(alloc: Global) -> Logs<D> {
        Logs {
            all: VecLog::default(alloc),
            edge: TileLog::new(alloc),
        }
    }

    // Pushes so many entries on both.
    fn push(&mut self, rt: &impl Abort, count: usize) {
        for _ in 0..count {
            let entry = self.all.length() as u64;
            self.all.append(&entry).expect(rt, "memory");
            assert!(rt; self.edge.length() < GREATEST_LENGTH);
            self.edge.push(&entry).expect(rt, "memory");
        }
    }

    // Goes on from the partial tiles of the log that keeps its right edge.
    fn open_again(&mut self, rt: &(impl AllocGlobal + Abort)) {
        let tiles = self.edge.partial(rt.alloc()).expect(rt, "memory");
        let log = TileLog::open(rt.alloc(), self.edge.length(), tiles.as_slice());
        self.edge = log.expect(rt, "a log");
    }

    // Whether both have one length and one root.
    fn agree(&self) -> bool {
        self.all.length() == self.edge.length() && self.all.checkpoint() == self.edge.checkpoint()
    }

    // Whether both agree, and the log's partial tiles are those of its length, with its digests.
    fn are_right(&self, rt: &(impl AllocGlobal + Abort)) -> bool {
        let tiles = self.edge.partial(rt.alloc()).expect(rt, "memory");
        self.agree() && self.are_own(rt, tiles.as_slice(), 0, false)
    }

    // Takes the full tiles, which are those that an older length hadn't, with the log's digests. How many they are.
    fn take_full(&mut self, rt: &(impl AllocGlobal + Abort), old: usize) -> usize {
        let tiles = self.edge.take_full();
        assert!(rt; self.are_own(rt, tiles.as_slice(), old, true));
        tiles.len()
    }

    // Whether these are the full or the partial tiles that an older length hadn't, with the log's digests.
    fn are_own(
        &self,
        rt: &(impl AllocGlobal + Abort),
        tiles: &[StoredTile<D>],
        old: usize,
        full: bool,
    ) -> bool {
        let mut count = 0usize;
        assert!(rt; old <= self.all.length());
        for tile in &tiles_between(rt.alloc(), old, self.all.length()).expect(rt, "memory") {
            if tile.is_full() == full {
                count = count.saturating_add(1);
                assert!(rt; self.is_among(rt, tiles, tile));
            }
        }
        count == tiles.len()
    }

    // Whether a tile is among these, with the log's digests.
    fn is_among(
        &self,
        rt: &(impl AllocGlobal + Abort),
        tiles: &[StoredTile<D>],
        tile: &Tile,
    ) -> bool {
        assert!(rt; tile.exists_at_length(GREATEST_LENGTH));
        let digests = tile_hashes(rt.alloc(), &self.all, tile).expect(rt, "digests");
        for stored in tiles {
            if stored.tile == *tile {
                return stored.digests.as_slice() == digests.as_slice();
            }
        }
        false
    }
}

#[test]
fn tiles_at_each_length(rt: HostRuntime) {
    let mut logs: Logs<Sum> = Logs::new(rt.alloc());
    for old in 0..600usize {
        logs.push(&rt, 1);
        let _ = logs.take_full(&rt, old);
        assert!(rt; logs.are_right(&rt));
    }
}

#[test]
fn tiles_of_three_levels(rt: HostRuntime) {
    let mut logs: Logs<Sum> = Logs::new(rt.alloc());
    logs.push(&rt, 65_300);
    assert!(rt; logs.take_full(&rt, 0) == 255);
    for _ in 65_300..65_540 {
        logs.push(&rt, 1);
        assert!(rt; logs.are_right(&rt));
    }
    assert!(rt; logs.take_full(&rt, 65_300) == 2);
}

#[test]
fn opened_again_at_each_length(rt: HostRuntime) {
    let mut logs: Logs<Sha256> = Logs::new(rt.alloc());
    for _ in 0..300 {
        logs.push(&rt, 1);
        logs.open_again(&rt);
        assert!(rt; logs.agree());
    }
    for step in 1..40usize {
        logs.push(&rt, step);
        logs.open_again(&rt);
        assert!(rt; logs.are_right(&rt));
    }
}

// How a log of a length is refused out of the partial tiles of another one.
fn refusal(
    rt: &(impl AllocGlobal + Abort),
    tiles: &[StoredTile<Sum>],
    length: usize,
) -> Option<OpenError> {
    assert!(rt; length <= GREATEST_LENGTH);
    TileLog::<Sum, u64>::open(rt.alloc(), length, tiles).err()
}

// Other lengths, and how a log of them is refused out of the partial tiles of 300 entries.
static OTHER_LENGTHS: [(usize, Option<OpenError>); 5] = [
    (300, None),
    (301, Some(OpenError::Width)),
    (44, Some(OpenError::Place)),
    (256, Some(OpenError::Place)),
    (0, Some(OpenError::Count)),
];

#[test]
fn opened_at_another_length(rt: HostRuntime) {
    let mut logs: Logs<Sum> = Logs::new(rt.alloc());
    logs.push(&rt, 300);
    let tiles = logs.edge.partial(rt.alloc()).expect(&rt, "memory");
    assert!(rt; tiles.len() == 2);
    assert!(rt; refusal(&rt, &tiles.as_slice()[..1], 300) == Some(OpenError::Count));
    for (length, fault) in &OTHER_LENGTHS {
        assert!(rt; refusal(&rt, tiles.as_slice(), *length) == *fault);
    }
}

type Scarce<A> = TileLog<Sum, u64, A>;

// The log of so many entries.
fn scarce<A: Allocator + Copy>(rt: &impl Abort, alloc: A, length: usize) -> Scarce<A> {
    let mut log = Scarce::new(alloc);
    for entry in 0..length {
        assert!(rt; log.length() < GREATEST_LENGTH);
        log.push(&(entry as u64)).expect(rt, "memory");
    }
    log
}

// Whether so few growths suffice for a push on the log of so many entries. Else it stays as it was.
fn is_pushed(rt: &(impl AllocGlobal + Abort), length: usize, growths: u64) -> bool {
    let memory = Refusing::after(rt.alloc(), u64::MAX);
    let mut log = scarce(rt, &memory, length);
    memory.exhaust();
    memory.grant(growths);
    let before = log.checkpoint();
    assert!(rt; log.length() < GREATEST_LENGTH);
    let is_pushed = log.push(&0).is_ok();
    assert!(rt; is_pushed || log.checkpoint() == before);
    is_pushed
}

#[test]
fn pushes_without_memory(rt: HostRuntime) {
    for length in [0usize, 1, 255, 256, 511] {
        let mut is_done = false;
        for growths in 0..8u64 {
            is_done = is_pushed(&rt, length, growths) || is_done;
        }
        assert!(rt; is_done);
    }
}

// A log of hashes, so that the types of the crate go together.
#[test]
fn full_tiles_in_turn(rt: HostRuntime) {
    let mut log: TileLog<Sha256, Hash<Sha256>> = TileLog::new(rt.alloc());
    assert!(rt; log.is_empty());
    for _ in 0..512 {
        assert!(rt; log.length() < GREATEST_LENGTH);
        log.push(&Hash::of(&())).expect(&rt, "memory");
    }
    assert!(rt; log.take_full().len() == 2);
    assert!(rt; log.take_full().len() == 0);
    assert!(rt; log.partial(rt.alloc()).expect(&rt, "memory").len() == 1);
}

type Data = TileData<Sha256, u64>;

// A tile by the bytes of its file, of which one is missing at first.
#[test]
fn a_tile_by_its_bytes(rt: HostRuntime) {
    let mut data = Data::new(rt.alloc());
    let tile = Tile::new(0, 0, 2);
    assert!(rt; data.insert_bytes(tile, &[1; 63]) == Err(TileBytesError::Length));
    assert!(rt; !data.has_hash(Node(0)) && !data.has_tile(&tile));
    let mut bytes = [1; 64];
    bytes[32..].copy_from_slice(&[2; 32]);
    assert!(rt; data.insert_bytes(tile, bytes.as_slice()).is_ok());
    assert!(rt; data.hash_for(Node(2)) == Some(Hash::from_array([2; 32])));
    assert!(rt; data.has_tile(&tile) && data.has_tile(&Tile::new(0, 0, 1)));
    assert!(rt; !data.has_tile(&Tile::new(0, 0, 3)) && !data.has_tile(&Tile::new(0, 1, 2)));
}

// The nodes of the tile with a path, unless it's none or memory lacks.
fn nodes_at<A: Allocator>(memory: A, path: &str) -> Option<Vec<Node, A>> {
    let tile = Tile::from_path(path).ok()?;
    if !tile.exists_at_length(GREATEST_LENGTH) {
        return None;
    }
    tile.nodes(memory).ok()
}

// Tiles, and the first two of their nodes.
static NODES_OF_TILES: [(&str, usize, usize); 3] = [
    ("tile/0/000.p/2", 0, 2),
    ("tile/0/001.p/2", 512, 514),
    ("tile/1/000.p/2", 255, 767),
];

// The nodes of a tile, by the numbering of nodes: leaf i is node 2 i, and 256 leaves have the node 255.
#[test]
fn nodes_of_tiles(rt: HostRuntime) {
    for (path, first, second) in &NODES_OF_TILES {
        let nodes = nodes_at(rt.alloc(), path).expect(&rt, "no nodes");
        assert!(rt; nodes.as_slice() == [Node(*first), Node(*second)].as_slice());
        let memory = Refusing::after(rt.alloc(), 0);
        assert!(rt; nodes_at(&memory, path).is_none() && memory.has_refused());
    }
}

// An entry behind another; one of 65,536 bytes is too long, and one of 65,535 isn't.
#[test]
fn entries_one_by_one(rt: HostRuntime) {
    let mut bytes = Vec::new(rt.alloc());
    push_entry(&mut bytes, b"ab").expect(&rt, "memory");
    push_entry(&mut bytes, b"").expect(&rt, "memory");
    assert!(rt; bytes.as_slice() == b"\x00\x02ab\x00\x00".as_slice());
    let long = vec![in rt.alloc(); 7u8; 65536].expect(&rt, "memory");
    assert!(rt; push_entry(&mut bytes, long.as_slice()) == Err(EntryError::TooLong));
    assert!(rt; bytes.len() == 6);
    push_entry(&mut bytes, &long.as_slice()[1..]).expect(&rt, "memory");
    assert!(rt; bytes.len() == 6 + 65537 && bytes[6] == 255 && bytes[7] == 255);
}

#[test]
fn an_entry_without_memory(rt: HostRuntime) {
    let memory = Refusing::after(rt.alloc(), 0);
    let mut none = Vec::new(&memory);
    let refused = push_entry(&mut none, b"ab");
    assert!(rt; refused == Err(EntryError::Memory) && none.len() == 0);
}
