//! The claims that the program judges, and the evidence for them.

use crate::given::{bytes, checkpoint, evidence_bytes, number, root};
use anyhow::{Result, anyhow};
use clap::ArgMatches;
use std::alloc::Global;
use warg_check::{
    CheckError, check_absent, check_entry, check_entry_path, check_growth, check_growth_path,
    check_insertion, check_key, check_update,
};
use warg_crypto::{Hash, Sha256};
use warg_log::Checkpoint;

/// What is said of a log or a map by its root.
#[derive(Drop)]
pub enum Claim {
    /// The log has the value at the index.
    Entry {
        index: usize,
        value: Vec<u8>,
        checkpoint: Checkpoint<Sha256>,
    },
    /// The old log is a beginning of the new one.
    Growth {
        old: Checkpoint<Sha256>,
        new: Checkpoint<Sha256>,
    },
    /// The map holds the value under the key.
    Key {
        key: Vec<u8>,
        value: Vec<u8>,
        root: Hash<Sha256>,
    },
    /// The map holds nothing under the key, or no bytes.
    Absent {
        key: Vec<u8>,
        root: Hash<Sha256>,
    },
    /// The new map is the old one, with the new value under the key in place of the old one.
    Update {
        key: Vec<u8>,
        old_value: Vec<u8>,
        new_value: Vec<u8>,
        old_root: Hash<Sha256>,
        new_root: Hash<Sha256>,
    },
    /// The new map is the old one, and the value under a key that had none, or no bytes.
    Insertion {
        key: Vec<u8>,
        value: Vec<u8>,
        old_root: Hash<Sha256>,
        new_root: Hash<Sha256>,
    },
}

/// What is to show a claim: the proof at a place of a bundle, or a path. No path shows a claim about a map.
#[derive(Drop)]
pub enum Evidence {
    Bundle { bytes: Vec<u8>, at: usize },
    Path(Vec<u8>),
}

impl Claim {
    /// The claim that a subcommand makes of its options.
    pub fn of(rt: &HostRuntime, name: &str, asked: &ArgMatches<'_>) -> Result<Claim> {
        match name {
            "entry" | "entry-path" => Claim::of_entry(rt, asked),
            "growth" | "growth-path" => Claim::of_growth(asked),
            "key" => Claim::of_key(rt, asked),
            "absent" => Claim::of_absence(rt, asked),
            "update" => Claim::of_update(rt, asked),
            "insertion" => Claim::of_insertion(rt, asked),
            _ => Err(anyhow!("no claim is called {name}")),
        }
    }

    fn of_entry(rt: &HostRuntime, asked: &ArgMatches<'_>) -> Result<Claim> {
        Ok(Claim::Entry {
            index: number(asked, "index")?,
            value: bytes(rt, asked, "value")?,
            checkpoint: checkpoint(asked, "length", "root")?,
        })
    }

    fn of_growth(asked: &ArgMatches<'_>) -> Result<Claim> {
        Ok(Claim::Growth {
            old: checkpoint(asked, "old-length", "old-root")?,
            new: checkpoint(asked, "new-length", "new-root")?,
        })
    }

    fn of_key(rt: &HostRuntime, asked: &ArgMatches<'_>) -> Result<Claim> {
        Ok(Claim::Key {
            key: bytes(rt, asked, "key")?,
            value: bytes(rt, asked, "value")?,
            root: root(asked, "root")?,
        })
    }

    fn of_absence(rt: &HostRuntime, asked: &ArgMatches<'_>) -> Result<Claim> {
        Ok(Claim::Absent {
            key: bytes(rt, asked, "key")?,
            root: root(asked, "root")?,
        })
    }

    fn of_update(rt: &HostRuntime, asked: &ArgMatches<'_>) -> Result<Claim> {
        Ok(Claim::Update {
            key: bytes(rt, asked, "key")?,
            old_value: bytes(rt, asked, "old-value")?,
            new_value: bytes(rt, asked, "new-value")?,
            old_root: root(asked, "old-root")?,
            new_root: root(asked, "new-root")?,
        })
    }

    fn of_insertion(rt: &HostRuntime, asked: &ArgMatches<'_>) -> Result<Claim> {
        Ok(Claim::Insertion {
            key: bytes(rt, asked, "key")?,
            value: bytes(rt, asked, "value")?,
            old_root: root(asked, "old-root")?,
            new_root: root(asked, "new-root")?,
        })
    }

    /// The verdict by the evidence, or why this is refused.
    pub fn verdict(&self, alloc: Global, evidence: &Evidence) -> Result<bool, CheckError> {
        match evidence {
            Evidence::Bundle { bytes, at } => self.verdict_by_bundle(alloc, bytes, *at),
            Evidence::Path(bytes) => self.verdict_by_path(alloc, bytes),
        }
    }

    fn verdict_by_path(&self, alloc: Global, path: &[u8]) -> Result<bool, CheckError> {
        match self {
            Claim::Entry {
                index,
                value,
                checkpoint,
            } => check_entry_path(alloc, path, *index, value, checkpoint),
            Claim::Growth { old, new } => check_growth_path(alloc, path, old, new),
            _ => Ok(false),
        }
    }

    fn verdict_by_bundle(
        &self,
        alloc: Global,
        bundle: &[u8],
        at: usize,
    ) -> Result<bool, CheckError> {
        match self {
            Claim::Entry {
                index,
                value,
                checkpoint,
            } => check_entry(alloc, bundle, at, *index, value, checkpoint),
            Claim::Growth { old, new } => check_growth(alloc, bundle, at, old, new),
            Claim::Key { key, value, root } => check_key(alloc, bundle, at, key, value, root),
            Claim::Absent { key, root } => check_absent(alloc, bundle, at, key, root),
            Claim::Update {
                key,
                old_value,
                new_value,
                old_root,
                new_root,
            } => check_update(
                alloc, bundle, at, key, old_value, new_value, old_root, new_root,
            ),
            Claim::Insertion {
                key,
                value,
                old_root,
                new_root,
            } => check_insertion(alloc, bundle, at, key, value, old_root, new_root),
        }
    }
}

impl Evidence {
    /// The evidence that a subcommand takes.
    pub fn of(rt: &HostRuntime, name: &str, asked: &ArgMatches<'_>) -> Result<Evidence> {
        let bytes = evidence_bytes(rt, asked)?;
        if name.ends_with("-path") {
            return Ok(Evidence::Path(bytes));
        }
        Ok(Evidence::Bundle {
            bytes,
            at: number(asked, "at")?,
        })
    }
}
