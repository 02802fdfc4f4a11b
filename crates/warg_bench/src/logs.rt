//! Logs: pushes, evaluations, images, and paths as deployed logs send them.

use crate::bench::Bench;
use crate::{Entry, entries};
use anyhow::Result;
use warg_crypto::{Hash, Sha256, hash_leaf};
use warg_log::{Checkpoint, LogBuilder, LogData, Node, StackLog, VecLog, push_all};
use warg_paths::{check_record, check_tree, consistency_path, inclusion_path, root_of_inclusion};

/// A log whose digests are of SHA-256.
pub type Log = VecLog<Sha256, Entry>;

/// The log of these entries.
pub fn log_of(bench: &Bench<'_>, entries: &[Entry]) -> Result<Log> {
    let mut log = VecLog::default(bench.alloc());
    push_all(&mut log, entries)?;
    Ok(log)
}

/// Measures a log of so many entries.
pub fn measure(bench: &Bench<'_>, count: usize) -> Result<()> {
    let list = entries(bench.alloc(), count)?;
    let log = log_of(bench, list.as_slice())?;
    measure_log(bench, &log, list.as_slice())
}

fn measure_log(bench: &Bench<'_>, log: &Log, list: &[Entry]) -> Result<()> {
    bench.say("a log of", list.len(), "entries")?;
    pushes(bench, list)?;
    evaluations(bench, log, list)?;
    image(bench, log)?;
    inclusion_path_of_the_first(bench, log, list)?;
    consistency_path_of_two_thirds(bench, log)
}

fn pushes(bench: &Bench<'_>, list: &[Entry]) -> Result<()> {
    let count = list.len();
    bench.pieces("VecLog::push", 1, count, |_| log_of(bench, list).is_ok())?;
    bench.pieces(
        "StackLog::push",
        1,
        count,
        |_| stack_of(bench, list).is_ok(),
    )
}

// Calls are spread over the log.
fn evaluations(bench: &Bench<'_>, log: &Log, list: &[Entry]) -> Result<()> {
    let every = list.len() / 1_000;
    bench.calls("inclusion evaluation", 1_000, |number| {
        is_included(log, number.saturating_mul(every), list)
    })?;
    bench.calls("consistency evaluation", 1_000, |number| {
        is_consistent(log, number.saturating_mul(every).saturating_add(1))
    })?;
    bench.calls(
        "consistency evaluation from 65,535",
        100,
        |_| is_consistent(log, 65_535),
    )
}

fn stack_of(bench: &Bench<'_>, list: &[Entry]) -> Result<StackLog<Sha256, Entry>> {
    let mut stack = StackLog::default(bench.alloc());
    push_all(&mut stack, list)?;
    Ok(stack)
}

// Proves that an entry is in the log, and evaluates the proof.
fn is_included(log: &Log, index: usize, entries: &[Entry]) -> bool {
    let Some(entry) = entries.get(index) else {
        return false;
    };
    let proof = log.prove_inclusion(Node(index.saturating_mul(2)), log.length());
    proof.evaluate_value(log, entry).is_ok()
}

// Proves that an old length's log is a beginning of the log, and evaluates the proof.
fn is_consistent(log: &Log, old: usize) -> bool {
    let length = log.length();
    let proof = log.prove_consistency(old.min(length), length);
    proof.evaluate(log).is_ok()
}

// The log as bytes.
fn image(bench: &Bench<'_>, log: &Log) -> Result<()> {
    let bytes = log.to_protobuf()?;
    written_and_read(bench, log, bytes.as_slice())
}

fn written_and_read(bench: &Bench<'_>, log: &Log, bytes: &[u8]) -> Result<()> {
    let (alloc, count) = (bench.alloc(), log.length());
    bench.pieces(
        "VecLog::to_protobuf",
        1,
        count,
        |_| log.to_protobuf().is_ok(),
    )?;
    bench.pieces(
        "VecLog::from_protobuf",
        1,
        count,
        |_| Log::from_protobuf(alloc, bytes).is_ok(),
    )
}

fn inclusion_path_of_the_first(bench: &Bench<'_>, log: &Log, list: &[Entry]) -> Result<()> {
    let value = list.first().copied().unwrap_or([7; 32]);
    let path = inclusion_path(bench.alloc(), log, 0, log.length())?;
    along_inclusion_path(bench, &log.checkpoint(), &value, path.as_slice())
}

fn along_inclusion_path(
    bench: &Bench<'_>,
    known: &Checkpoint<Sha256>,
    value: &Entry,
    path: &[Hash<Sha256>],
) -> Result<()> {
    let (leaf, length) = (hash_leaf(value), known.length());
    bench.calls("root_of_inclusion", 1_000, |_| {
        root_of_inclusion(0, length, &leaf, path).is_some()
    })?;
    bench.calls(
        "check_record",
        1_000,
        |_| check_record(known, 0, value, path),
    )
}

fn consistency_path_of_two_thirds(bench: &Bench<'_>, log: &Log) -> Result<()> {
    let (old, known) = (log.length() / 3 * 2, &log.checkpoint());
    let (old_root, _) = log.prove_consistency(old, log.length()).evaluate(log)?;
    let path = consistency_path(bench.alloc(), log, old, log.length())?;
    let (old, path) = (&Checkpoint::new(old_root, old), path.as_slice());
    bench.calls("check_tree", 1_000, |_| check_tree(old, known, path))
}
