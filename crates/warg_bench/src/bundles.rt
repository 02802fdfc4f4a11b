//! Messages of bundles, written and read.

use crate::bench::Bench;
use anyhow::Result;
use std::alloc::Global;
use warg_protobuf::{HashEntry, LogProofBundle, MapInclusionProof, MapProofBundle, OptionalHash};

/// Measures the messages of a log's bundle of 64 hashes and of a map's of 256 peers.
pub fn measure(bench: &Bench<'_>) -> Result<()> {
    let alloc = bench.alloc();
    let bundle = log_bundle(alloc)?;
    let bytes = bundle.encode(alloc)?;
    of_log(bench, &bundle, bytes.as_slice())?;
    let bundle = map_bundle(alloc)?;
    let bytes = bundle.encode(alloc)?;
    of_map(bench, &bundle, bytes.as_slice())
}

fn of_log(bench: &Bench<'_>, bundle: &LogProofBundle, bytes: &[u8]) -> Result<()> {
    let alloc = bench.alloc();
    bench.calls(
        "a log bundle's encode",
        1_000,
        |_| bundle.encode(alloc).is_ok(),
    )?;
    bench.calls(
        "a log bundle's decode",
        1_000,
        |_| LogProofBundle::decode(alloc, bytes).is_ok(),
    )
}

fn of_map(bench: &Bench<'_>, bundle: &MapProofBundle, bytes: &[u8]) -> Result<()> {
    let alloc = bench.alloc();
    bench.calls(
        "a map bundle's encode",
        1_000,
        |_| bundle.encode(alloc).is_ok(),
    )?;
    bench.calls(
        "a map bundle's decode",
        1_000,
        |_| MapProofBundle::decode(alloc, bytes).is_ok(),
    )
}

fn log_bundle(alloc: Global) -> Result<LogProofBundle> {
    let mut hashes = Vec::new(alloc);
    for index in 0..64u32 {
        let hash = vec![in alloc; 7u8; 32]?;
        hashes.push(HashEntry { index, hash })?;
    }
    Ok(LogProofBundle {
        log_length: 100_000,
        consistent_lengths: Vec::new(alloc),
        included_indices: Vec::new(alloc),
        hashes,
    })
}

fn map_bundle(alloc: Global) -> Result<MapProofBundle> {
    let mut hashes = Vec::new(alloc);
    for _ in 0..256u32 {
        let hash = Some(vec![in alloc; 7u8; 32]?);
        hashes.push(OptionalHash { hash })?;
    }
    Ok(MapProofBundle {
        proofs: vec![in alloc; MapInclusionProof { hashes }]?,
        absences: Vec::new(alloc),
    })
}
