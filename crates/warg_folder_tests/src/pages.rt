//! What the pages of a map hold, with ample memory, beside a map in memory.

use std::alloc::{AllocError, Global};
use std::collections::HashMap;
use std::process::Abort;
use warg_crypto::{Hash, Sha256, hash_leaf};
use warg_map::Map;
use warg_pages::{LoneKeyCheck, MapPage, PageVisitor, PagedMap, Pages, held_in_pages, visit_pages};

static PAIRS: [(&[u8], &[u8]); 4] = [
    (b"a", b"one"),
    (b"b", b"two"),
    (b"a", b"three"),
    (b"c", b""),
];

// The newest pages of a map, each by its prefix, as bytes.
#[derive(Drop)]
struct Newest {
    alloc: Global,
    bytes: HashMap<Vec<u8>, Vec<u8>>,
}

// Why a page isn't lent.
#[derive(Debug, Drop)]
enum NotLent {
    NoPage,
    Memory,
}

impl Pages<Global> for Newest {
    ghost use Rattle.std.specs.Prelude.{None};

    type Error = NotLent;

    // Nothing is proved of what a test reads.
    ghost Known = { Unit {0} };

    ghost IsKnown = { λ _ _. Unit {0} };

    ghost bytes_at = { λ _ _ _. None };

    ghost tells_all = { λ _. ⊥ };

    fn page(&mut self, prefix: &[u8], _version: u64) -> Result<Vec<u8>, NotLent> {
        match self.bytes.get(prefix) {
            Some(bytes) => Vec::from_slice(self.alloc, bytes.as_slice()).map_err(
                |_| NotLent::Memory,
            ),
            None => Err(NotLent::NoPage),
        }
    }
}

// How many keys stand alone in slots, and how many pages were seen.
#[derive(Drop)]
struct Seen {
    keys: usize,
    pages: usize,
}

impl PageVisitor<Sha256, Global> for Seen {
    ghost HasSeen = { λ _ _. Unit {0} };

    fn visit(
        &mut self,
        _prefix: &[u8],
        _version: u64,
        page: &MapPage<Sha256, Global>,
    ) -> Result<(), AllocError> {
        for slot in page.slots() {
            self.keys = self.keys.saturating_add(slot.lone.is_some() as usize);
        }
        self.pages = self.pages.saturating_add(1);
        Ok(())
    }
}

// The pages of the pairs, and the map's root.
fn pages_of(rt: &(impl AllocGlobal + Abort)) -> (Newest, PagedMap<Sha256>) {
    let mut map = PagedMap::new();
    let mut pages = Newest {
        alloc: rt.alloc(),
        bytes: HashMap::new(rt.alloc()),
    };
    let changed = map.insert_all(rt.alloc(), &mut pages, &PAIRS);
    for page in changed.expect(rt, "an insertion") {
        let bytes = page.page.write(rt.alloc()).expect(rt, "memory");
        let prefix = page.prefix.clone().expect(rt, "memory");
        let older: Result<_, _> = pages.bytes.insert(prefix, bytes);
        let _ = older.expect(rt, "memory");
    }
    (pages, map)
}

// Whether the pages hold a value under a key, of this version.
fn is_held(rt: &impl Abort, pages: &mut Newest, key: &[u8], version: u64, value: &[u8]) -> bool {
    let key: Hash<Sha256> = Hash::of(&key);
    match held_in_pages(pages.alloc, pages, 4, &key).expect(rt, "a key's pages") {
        Some(held) => held.version == version && held.leaf == hash_leaf(&value),
        None => false,
    }
}

// Changes the last byte of each page, which is of a lone key's leaf digest here.
fn spoil(pages: &mut Newest) {
    for bytes in pages.bytes.values_mut() {
        if let Some(last) = bytes.last_mut() {
            *last ^= 1;
        }
    }
}

// Whether a visit of the pages below a root comes to its end.
fn is_visited(
    pages: &mut Newest,
    root: &Hash<Sha256>,
    lone_keys: LoneKeyCheck,
    seen: &mut Seen,
) -> bool {
    visit_pages(pages.alloc, pages, root, 4, lone_keys, seen).is_ok()
}

#[test]
fn lone_keys_are_hashed_or_skipped(rt: HostRuntime) {
    let (mut pages, map) = pages_of(&rt);
    let mut seen = Seen { keys: 0, pages: 0 };
    assert!(rt; is_visited(&mut pages, &map.root, LoneKeyCheck::Skipped, &mut seen));
    assert!(rt; seen.pages == pages.bytes.len());
    spoil(&mut pages);
    assert!(rt; is_visited(&mut pages, &map.root, LoneKeyCheck::Skipped, &mut seen));
    assert!(rt; !is_visited(&mut pages, &map.root, LoneKeyCheck::Hashed, &mut seen));
}

// Whether a visit of the pages below a root sees all of them, with so many keys.
fn have_keys(pages: &mut Newest, root: &Hash<Sha256>, count: usize) -> bool {
    let mut seen = Seen { keys: 0, pages: 0 };
    let is_done = is_visited(pages, root, LoneKeyCheck::Hashed, &mut seen);
    is_done && seen.keys == count && seen.pages == pages.bytes.len()
}

static HELD: [(&[u8], u64, &[u8], bool); 3] = [
    (b"a", 3, b"three", true),
    (b"c", 4, b"", true),
    (b"d", 4, b"", false),
];

#[test]
fn pages_hold_what_the_map_does(rt: HostRuntime) {
    let (mut pages, paged) = pages_of(&rt);
    let map = Map::<Sha256, &[u8], &[u8]>::default(rt.alloc()).extend(PAIRS.iter().copied());
    let map = map.expect(&rt, "a map");
    assert!(rt; paged.root == *map.root());
    assert!(rt; have_keys(&mut pages, &paged.root, map.len()));
    for (key, version, value, are_held) in &HELD {
        assert!(rt; is_held(&rt, &mut pages, key, *version, value) == *are_held);
    }
}
