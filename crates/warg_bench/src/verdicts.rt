//! Verdicts on proofs in bytes, witnesses, and the program on lines.

use crate::bench::Bench;
use crate::logs::{Log, log_of};
use crate::maps::{KeyProof, Keys, map_of, pairs_of};
use crate::{ENTRIES, Entry, entries, entry};
use anyhow::Result;
use warg_bundle::{LogProofBundle, MapProofBundle};
use warg_check::{check_consistency, check_inclusion, check_key, check_update};
use warg_crypto::Sha256;
use warg_log::{LogBuilder, LogData, Node};
use warg_program::run;
use warg_witness::{witness_absent, witness_key, witness_value};

// How many keys the map has, and the log over which a witness looks.
const KEYS: usize = 10_000;

/// Measures verdicts, witnesses, and the program on lines.
pub fn measure(bench: &Bench<'_>) -> Result<()> {
    let list = entries(bench.alloc(), ENTRIES)?;
    over_entries(bench, list.as_slice())?;
    over_keys(bench, list.get(..KEYS).unwrap_or_default())
}

fn over_entries(bench: &Bench<'_>, entries: &[Entry]) -> Result<()> {
    let log = log_of(bench, entries)?;
    of_inclusion(bench, &log)?;
    of_consistency(bench, &log)
}

fn over_keys(bench: &Bench<'_>, keys: &[Entry]) -> Result<()> {
    let map = map_of(bench, keys)?;
    of_key(bench, &map)?;
    of_update(bench, &map)?;
    over_log(bench, keys)?;
    over_map(bench, &map, keys)?;
    on_lines(bench, keys)
}

fn on_lines(bench: &Bench<'_>, keys: &[Entry]) -> Result<()> {
    let lines = lines_of(bench, keys)?;
    let lines = lines.as_slice();
    bench.calls("10,000 insert lines and a map", 1, |_| is_run(bench, lines))
}

fn of_inclusion(bench: &Bench<'_>, log: &Log) -> Result<()> {
    let alloc = bench.alloc();
    let proofs = vec![in alloc; log.prove_inclusion(Node(0), ENTRIES)]?;
    let bundle = LogProofBundle::bundle(alloc, Vec::new(alloc), proofs, log)?;
    let bytes = bundle.encode(alloc)?;
    let (bytes, value, root) = (bytes.as_slice(), entry(0), log.checkpoint().root());
    bench.calls("check_inclusion", 1_000, |_| {
        check_inclusion(alloc, bytes, 0, &value, &root) == Ok(true)
    })
}

fn of_consistency(bench: &Bench<'_>, log: &Log) -> Result<()> {
    let alloc = bench.alloc();
    let proof = log.prove_consistency(66_666, ENTRIES);
    let (old, new) = proof.evaluate(log)?;
    let bundle = LogProofBundle::bundle(alloc, vec![in alloc; proof]?, Vec::new(alloc), log)?;
    let bytes = bundle.encode(alloc)?;
    let bytes = bytes.as_slice();
    bench.calls("check_consistency", 1_000, |_| {
        check_consistency(alloc, bytes, 0, &old, &new) == Ok(true)
    })
}

// The bundle of one proof, as bytes.
fn bundle_of(bench: &Bench<'_>, proof: KeyProof) -> Result<Vec<u8>> {
    let proofs = vec![in bench.alloc(); proof]?;
    Ok(MapProofBundle::bundle(proofs).encode(bench.alloc())?)
}

fn of_key(bench: &Bench<'_>, map: &Keys) -> Result<()> {
    let (alloc, key) = (bench.alloc(), &entry(0));
    let Some(proof) = map.prove(*key)? else {
        return Ok(());
    };
    let bytes = bundle_of(bench, proof)?;
    let bytes = bytes.as_slice();
    bench.calls("decoding of a key's bundle", 1_000, |_| {
        MapProofBundle::<Sha256, Entry, Entry>::decode(alloc, bytes).is_ok()
    })?;
    bench.calls("check_key", 1_000, |_| {
        check_key(alloc, bytes, 0, key, key, map.root()) == Ok(true)
    })
}

// A step that an auditor checks: a key's value becomes another one.
fn of_update(bench: &Bench<'_>, map: &Keys) -> Result<()> {
    let (alloc, key, value) = (bench.alloc(), &entry(0), &entry(KEYS));
    let step = map.insert_with_proof(*key, *value)?;
    let bytes = bundle_of(bench, step.proof)?;
    let (bytes, old, new) = (bytes.as_slice(), map.root(), step.map.root());
    bench.calls("check_update", 1_000, |_| {
        check_update(alloc, bytes, 0, key, key, value, old, new) == Ok(true)
    })
}

fn over_log(bench: &Bench<'_>, entries: &[Entry]) -> Result<()> {
    let alloc = bench.alloc();
    let log = log_of(bench, entries)?;
    let proof = log.prove_inclusion(Node(4), log.length());
    bench.calls(
        "the tree over 10,000 entries",
        5,
        |_| log_of(bench, entries).is_ok(),
    )?;
    bench.calls("witness_value over 10,000 entries", 5, |_| {
        witness_value(alloc, &proof, &log, &[7; 32], entries).is_ok()
    })
}

fn over_map(bench: &Bench<'_>, map: &Keys, keys: &[Entry]) -> Result<()> {
    let (alloc, key, other) = (bench.alloc(), &entry(0), &[8; 32]);
    let pairs = pairs_of(bench, keys)?;
    let pairs = pairs.as_slice();
    if let Some(proof) = &map.prove(*key)? {
        bench.calls("witness_key over 10,000 insertions", 1, |_| {
            witness_key(alloc, proof, key, other, pairs).is_ok()
        })?;
    }
    if let Some(proof) = &map.prove_absence(*other)? {
        bench.calls("witness_absent over 10,000 insertions", 1, |_| {
            witness_absent(alloc, proof, other, pairs).is_ok()
        })?;
    }
    Ok(())
}

// Lines that insert the keys, and one for the map.
fn lines_of(bench: &Bench<'_>, keys: &[Entry]) -> Result<Vec<u8>> {
    let mut lines = Vec::new(bench.alloc());
    for key in keys {
        let digits = hex::encode(bench.alloc(), key.as_slice())?;
        let digits = digits.as_bytes();
        for part in [b"insert ".as_slice(), digits, b" ", digits, b"\n"] {
            lines.extend_from_slice(part)?;
        }
    }
    lines.extend_from_slice(b"map\n")?;
    Ok(lines)
}

fn is_run(bench: &Bench<'_>, lines: &[u8]) -> bool {
    let mut input = lines;
    let mut written = Vec::new(bench.alloc());
    matches!(run(bench.alloc(), &mut input, &mut written), Ok(true))
}
