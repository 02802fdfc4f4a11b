//! An auditor of a registry. It reads the folder `registry`, and shows that the map is the one that the log's entries make.
//! Then it shows that the log continues each checkpoint that it remembers from earlier audits, a line each on standard
//! input: how many entries there were, and their root. It prints the checkpoint to remember next, and stops at the first
//! that isn't continued: then the registry has shown different logs.
#![tactic(auto)]

use anyhow::{Result, bail};
use std::cell::Cell;
use warg_crypto::Sha256;
use warg_log::Checkpoint;
use warg_paths::check_tree;
use warg_registry::RegistryReader;
use warg_store::{LogReader, Progress, SystemFolder};

// How many entries were read.
#[derive(Drop)]
struct Steps(usize);

impl Progress for Steps {
    fn step(&mut self) {
        self.0 = self.0.saturating_add(1);
    }
}

fn main(rt: HostRuntime) -> Result<()> {
    // (here the folder leaves why the system refuses a call)
    let fault = Cell::new(None);
    let folder = SystemFolder::new(&rt, "registry", &fault)?;
    let mut registry = RegistryReader::open(rt.alloc(), folder)?;
    let newest = audit(&rt, &mut registry)?;
    compare(&rt, &mut registry.into_log(), &newest)
}

// The registry's checkpoint, once all is as its entries have it.
fn audit(
    rt: &HostRuntime,
    registry: &mut RegistryReader<SystemFolder<'_>>,
) -> Result<Checkpoint<Sha256>> {
    let newest = registry.audit(&mut Steps(0))?;
    let (length, root) = (newest.length(), newest.root());
    println!(rt; "{length} entries, root {root}")?;
    let root = registry.root();
    println!(rt; "the map's root is {root}")?;
    Ok(newest)
}

// Goes through the checkpoints on standard input, up to the first that the log doesn't continue.
fn compare(
    rt: &HostRuntime,
    log: &mut LogReader<SystemFolder<'_>>,
    newest: &Checkpoint<Sha256>,
) -> Result<()> {
    for line in rt.lines(rt.alloc()) {
        let Some(old) = checkpoint_of(line?.as_str()) else {
            bail!("not a length and a root");
        };
        let (length, root) = (old.length(), old.root());
        if !continues(log, &old, newest)? {
            bail!("the log doesn't continue {length} {root}");
        }
        println!(rt; "{length} entries are still there")?;
    }
    Ok(())
}

fn checkpoint_of(line: &str) -> Option<Checkpoint<Sha256>> {
    let (length, root) = line.split_once(' ')?;
    Some(Checkpoint::new(root.parse().ok()?, length.parse().ok()?))
}

// Whether a log's path leads from an old checkpoint to the newest.
fn continues(
    log: &mut LogReader<SystemFolder<'_>>,
    old: &Checkpoint<Sha256>,
    newest: &Checkpoint<Sha256>,
) -> Result<bool> {
    if old.length() > newest.length() {
        return Ok(false);
    }
    let path = log.consistency_path(old.length(), newest.length())?;
    Ok(check_tree(old, newest, path.as_slice()))
}
