//! A log, a proof out of it as bytes, and the verdict of a client who holds the log's checkpoint.
#![tactic(auto)]

use anyhow::Result;
use warg_bundle::inclusion_bytes;
use warg_check::check_entry;
use warg_crypto::Sha256;
use warg_log::{LogBuilder, VecLog};

fn main(rt: HostRuntime) -> Result<()> {
    let alloc = rt.alloc();

    // A registry keeps a log of entries, and tells everyone its checkpoint: root and length.
    let mut log: VecLog<Sha256, &str> = VecLog::default(alloc);
    log.append(&"one")?;
    log.append(&"two")?;
    let checkpoint = log.checkpoint();

    // It sends a proof of entry 1, as bytes.
    let bytes = inclusion_bytes(alloc, &log, 1, log.length())?;

    // A client checks the bytes: is entry 1 of the log with this checkpoint "two"?
    let verdict = check_entry(alloc, bytes.as_slice(), 0, 1, &"two", &checkpoint)?;
    println!(rt; "{verdict}")?;
    Ok(())
}
