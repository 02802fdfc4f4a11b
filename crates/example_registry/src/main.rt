//! A registry: reads releases, a line each, and keeps them in a log. For each release it prints what a client needs:
//! the release, the log's checkpoint, and a bundle of proofs as hexadecimal digits, separated by tabs.
//!
//! The bundle proves that the release is the log's last entry, and that the log before it is a beginning of the log.
#![tactic(auto)]

use anyhow::Result;
use std::alloc::Global;
use warg_bundle::{BundleError, LogProofBundle};
use warg_crypto::Sha256;
use warg_log::{LogBuilder, LogData, Node, VecLog};

type Log = VecLog<Sha256, String>;

fn main(rt: HostRuntime) -> Result<()> {
    let mut log = Log::default(rt.alloc());
    for line in rt.lines(rt.alloc()) {
        publish(&rt, &mut log, &line?)?;
    }
    Ok(())
}

// Adds a release to the log, and prints it with its proofs.
fn publish(rt: &HostRuntime, log: &mut Log, release: &String) -> Result<()> {
    log.append(release)?;
    let checkpoint = log.checkpoint();
    let bytes = last_entry(rt.alloc(), log)?.encode(rt.alloc())?;
    let bundle = hex::encode(rt.alloc(), bytes.as_slice())?;
    println!(rt; "{release}\t{checkpoint}\t{bundle}")?;
    Ok(())
}

// The proofs that the last entry is in the log, and that the log before it is a beginning of the log.
fn last_entry(alloc: Global, log: &Log) -> Result<LogProofBundle<Sha256, String>, BundleError> {
    let length = log.length();
    let before = length.saturating_sub(1);
    let inclusion = log.prove_inclusion(Node::leaf(before), length);
    let consistency = log.prove_consistency(before, length);
    LogProofBundle::bundle(
        alloc,
        vec![in alloc; consistency]?,
        vec![in alloc; inclusion]?,
        log,
    )
}
