//! A map that is kept in pages alone, beside one in memory.

use crate::bench::Bench;
use crate::maps::{Keys, pairs_of};
use crate::{Entry, entries};
use anyhow::{Result, bail};
use std::alloc::Global;
use std::collections::HashMap;
use warg_crypto::Sha256;
use warg_map::Map;
use warg_pages::{ChangedPage, PagedMap, Pages};

/// The newest pages of a map, each by its prefix, as bytes.
#[derive(Drop)]
struct Newest {
    alloc: Global,
    bytes: HashMap<Vec<u8>, Vec<u8>>,
}

/// Why a page isn't lent.
#[derive(Debug, Drop)]
enum NotLent {
    NoPage,
    Memory,
}

impl<'a> Pages<Global> for &'a Newest {
    ghost use Rattle.std.specs.Prelude.{None};

    type Error = NotLent;

    // Nothing is proved of what a measure reads.
    ghost Known = { Unit {0} };

    ghost IsKnown = { λ _ _. Unit {0} };

    ghost bytes_at = { λ _ _ _. None };

    ghost tells_all = { λ _. ⊥ };

    fn page(&mut self, prefix: &[u8], _version: u64) -> Result<Vec<u8>, NotLent> {
        match self.bytes.get(prefix) {
            Some(bytes) => Vec::from_slice(self.alloc, bytes.as_slice()).map_err(
                |_| NotLent::Memory,
            ),
            None => Err(NotLent::NoPage),
        }
    }
}

/// Measures insertions of new keys into a map of others.
pub fn measure(bench: &Bench<'_>, held: usize, new: usize) -> Result<()> {
    let all = entries(bench.alloc(), held.saturating_add(new))?;
    let (old, more) = all.as_slice().split_at(held.min(all.len()));
    in_memory(bench, old, more)?;
    in_pages(bench, old, more)
}

fn in_memory(bench: &Bench<'_>, old: &[Entry], more: &[Entry]) -> Result<()> {
    let empty: Keys = Map::default(bench.alloc());
    let map = empty.extend(pairs_of(bench, old)?.into_iter())?;
    bench.pieces(
        "Map::extend of a map",
        1,
        more.len(),
        |_| is_extended(bench, &map, more),
    )
}

fn in_pages(bench: &Bench<'_>, old: &[Entry], more: &[Entry]) -> Result<()> {
    let mut paged = PagedMap::new();
    let mut pages = Newest {
        alloc: bench.alloc(),
        bytes: HashMap::new(bench.alloc()),
    };
    let changed = inserted(bench, &mut paged, &pages, old)?;
    keep(&mut pages, changed)?;
    bench.pieces(
        "PagedMap::insert_all",
        1,
        more.len(),
        |_| is_inserted(bench, &paged, &pages, more),
    )
}

fn is_extended(bench: &Bench<'_>, map: &Keys, keys: &[Entry]) -> bool {
    match pairs_of(bench, keys) {
        Ok(pairs) => map.extend(pairs.into_iter()).is_ok(),
        Err(_) => false,
    }
}

// Inserts keys into a copy of a map.
fn is_inserted(bench: &Bench<'_>, map: &PagedMap<Sha256>, pages: &Newest, keys: &[Entry]) -> bool {
    let Ok(root) = map.root.clone() else {
        return false;
    };
    let mut copy = PagedMap {
        root,
        version: map.version,
    };
    inserted(bench, &mut copy, pages, keys).is_ok()
}

// Inserts keys, each with itself as its value, and gives the pages that change.
fn inserted(
    bench: &Bench<'_>,
    map: &mut PagedMap<Sha256>,
    mut pages: &Newest,
    keys: &[Entry],
) -> Result<Vec<ChangedPage<Sha256>>> {
    let pairs = pairs_of(bench, keys)?;
    if pairs.len() as u64 > u64::MAX - map.version {
        bail!("too many insertions");
    }
    match map.insert_all(bench.alloc(), &mut pages, pairs.as_slice()) {
        Ok(changed) => Ok(changed),
        Err(_) => bail!("the pages are not those of the map"),
    }
}

// Keeps changed pages in place of those before.
fn keep(pages: &mut Newest, changed: Vec<ChangedPage<Sha256>>) -> Result<()> {
    for it in changed {
        let bytes = it.page.write(pages.alloc)?;
        let prefix = Vec::from_slice(pages.alloc, it.prefix.as_slice())?;
        pages.bytes.insert(prefix, bytes)?;
    }
    Ok(())
}
