//! What evidence with a true verdict shows, with the entries or insertions at hand: the claim is true of them, or two byte
//! strings of one digest.

use crate::claim::{Claim, Evidence};
use crate::world::{entries, insertions, old_and_new_entries, old_and_new_insertions};
use anyhow::Result;
use warg_claims::{
    convict_absent, convict_entry, convict_entry_path, convict_growth, convict_growth_path,
    convict_insertion, convict_key, convict_update,
};
use warg_crypto::{Hash, Sha256};
use warg_log::Checkpoint;
use warg_witness::Finding;

/// What the evidence shows of the entries or insertions on these lines.
pub fn convict(
    rt: &HostRuntime,
    claim: &Claim,
    evidence: &Evidence,
    lines: &str,
) -> Result<Finding<Sha256>> {
    match claim {
        Claim::Entry {
            index,
            value,
            checkpoint,
        } => of_entry(rt, evidence, *index, value, checkpoint, lines),
        Claim::Growth { old, new } => of_growth(rt, evidence, old, new, lines),
        claim => match evidence {
            Evidence::Bundle { bytes, at } => of_map(rt, claim, bytes, *at, lines),
            Evidence::Path(_) => Ok(Finding::NotMet),
        },
    }
}

fn of_entry(
    rt: &HostRuntime,
    evidence: &Evidence,
    index: usize,
    value: &Vec<u8>,
    log: &Checkpoint<Sha256>,
    lines: &str,
) -> Result<Finding<Sha256>> {
    let entries = entries(rt, lines)?;
    Ok(match evidence {
        Evidence::Bundle { bytes, at } => {
            convict_entry(rt.alloc(), bytes, *at, index, value, log, &entries)?
        }
        Evidence::Path(bytes) => convict_entry_path(
            rt.alloc(),
            bytes,
            index,
            value,
            log,
            &entries,
        )?,
    })
}

fn of_growth(
    rt: &HostRuntime,
    evidence: &Evidence,
    old: &Checkpoint<Sha256>,
    new: &Checkpoint<Sha256>,
    lines: &str,
) -> Result<Finding<Sha256>> {
    let (before, after) = old_and_new_entries(rt, lines)?;
    Ok(match evidence {
        Evidence::Bundle { bytes, at } => {
            convict_growth(rt.alloc(), bytes, *at, old, new, &before, &after)?
        }
        Evidence::Path(bytes) => {
            convict_growth_path(rt.alloc(), bytes, old, new, &before, &after)?
        }
    })
}

fn of_map(
    rt: &HostRuntime,
    claim: &Claim,
    bundle: &[u8],
    at: usize,
    lines: &str,
) -> Result<Finding<Sha256>> {
    match claim {
        Claim::Key { key, value, root } => {
            let world = insertions(rt, lines)?;
            Ok(convict_key(rt.alloc(), bundle, at, key, value, root, &world)?)
        }
        Claim::Absent { key, root } => {
            let world = insertions(rt, lines)?;
            Ok(convict_absent(rt.alloc(), bundle, at, key, root, &world)?)
        }
        Claim::Update {
            key,
            old_value,
            new_value,
            old_root,
            new_root,
        } => {
            let (old, new) = old_and_new_insertions(rt, lines)?;
            Ok(convict_update(
                rt.alloc(),
                bundle,
                at,
                key,
                old_value,
                new_value,
                old_root,
                new_root,
                &old,
                &new,
            )?)
        }
        Claim::Insertion {
            key,
            value,
            old_root,
            new_root,
        } => {
            let (old, new) = old_and_new_insertions(rt, lines)?;
            Ok(convict_insertion(
                rt.alloc(),
                bundle,
                at,
                key,
                value,
                old_root,
                new_root,
                &old,
                &new,
            )?)
        }
        _ => Ok(Finding::NotMet),
    }
}
