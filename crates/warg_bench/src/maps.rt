//! Maps: insertions, extensions, proofs and evaluations.

use crate::bench::{Bench, share};
use crate::{Entry, entries, entry};
use anyhow::Result;
use warg_crypto::Sha256;
use warg_map::{Map, Proof};

/// A map whose digests are of SHA-256.
pub type Keys = Map<Sha256, Entry, Entry>;

/// A proof in such a map.
pub type KeyProof = Proof<Sha256, Entry, Entry>;

/// The map of these keys, each with itself as its value.
pub fn map_of(bench: &Bench<'_>, keys: &[Entry]) -> Result<Keys> {
    let mut map = Map::default(bench.alloc());
    for key in keys {
        map = map.insert(*key, *key)?;
    }
    Ok(map)
}

/// These keys, each with itself as its value.
pub fn pairs_of(bench: &Bench<'_>, keys: &[Entry]) -> Result<Vec<(Entry, Entry)>> {
    let mut pairs = Vec::new(bench.alloc());
    for key in keys {
        pairs.push((*key, *key))?;
    }
    Ok(pairs)
}

/// Measures a map of so many keys.
pub fn measure(bench: &Bench<'_>, count: usize) -> Result<()> {
    let list = entries(bench.alloc(), count)?;
    let map = map_of(bench, list.as_slice())?;
    measure_map(bench, &map, list.as_slice())
}

fn measure_map(bench: &Bench<'_>, map: &Keys, keys: &[Entry]) -> Result<()> {
    print_size(bench, map, keys.len())?;
    insertions(bench, map, keys)?;
    extensions(bench, keys)?;
    proofs(bench, map, keys)
}

fn insertions(bench: &Bench<'_>, map: &Keys, keys: &[Entry]) -> Result<()> {
    let known = &entry(0);
    bench.pieces(
        "Map::insert",
        1,
        keys.len(),
        |_| map_of(bench, keys).is_ok(),
    )?;
    bench.calls(
        "Map::insert of a known key",
        100,
        |_| map.insert(*known, *known).is_ok(),
    )
}

fn extensions(bench: &Bench<'_>, keys: &[Entry]) -> Result<()> {
    let count = keys.len();
    bench.pieces(
        "Map::extend",
        1,
        count,
        |_| extended(bench, keys, count).is_ok(),
    )?;
    bench.pieces(
        "two Map::extend",
        1,
        count,
        |_| extended(bench, keys, count / 2).is_ok(),
    )
}

fn proofs(bench: &Bench<'_>, map: &Keys, keys: &[Entry]) -> Result<()> {
    let known = &entry(0);
    bench.calls("Map::prove", keys.len(), |number| {
        is_proved(map, keys, number)
    })?;
    match &map.prove(*known)? {
        Some(proof) => bench.calls("evaluation of a map's proof", 1_000, |_| {
            proof.evaluate(known, known) == *map.root()
        }),
        None => Ok(()),
    }
}

fn is_proved(map: &Keys, keys: &[Entry], number: usize) -> bool {
    match keys.get(number % keys.len().max(1)) {
        Some(key) => matches!(map.prove(*key), Ok(Some(_))),
        None => false,
    }
}

// Extends the empty map by the first keys, as many as `first`, and then by the others.
fn extended(bench: &Bench<'_>, keys: &[Entry], first: usize) -> Result<Keys> {
    let (first, second) = keys.split_at(first.min(keys.len()));
    let empty: Keys = Map::default(bench.alloc());
    let half = empty.extend(pairs_of(bench, first)?.into_iter())?;
    if second.is_empty() {
        return Ok(half);
    }
    Ok(half.extend(pairs_of(bench, second)?.into_iter())?)
}

// The bytes of a map's nodes, by the sizes of their fields and two counters each: 150 for a lone key, of which there is
// one a key, and 112 for each of the others, forks and stems.
fn print_size(bench: &Bench<'_>, map: &Keys, count: usize) -> Result<()> {
    let (nodes, keys) = (map.node_count(), count as u128);
    let others = nodes.saturating_sub(keys).saturating_mul(112);
    let bytes = share(others.saturating_add(keys.saturating_mul(150)), keys);
    let size = format!(in bench.alloc(); "keys: {nodes} nodes, {bytes} bytes a key")?;
    bench.say("a map of", count, size.as_str())
}
