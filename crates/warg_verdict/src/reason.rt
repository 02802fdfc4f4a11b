//! Why a verdict is false: what the proof is of, or where it leads, in place of what is claimed.

use crate::claim::{Claim, Evidence};
use std::alloc::Global;
use warg_bundle::{LogProofBundle, MapProofBundle};
use warg_check::CheckError;
use warg_crypto::{Hash, Sha256};
use warg_log::{Checkpoint, ConsistencyProof, ConsistencyProofError, InclusionProofError};

const ANOTHER_ROOT: &str = "another root";

const ANOTHER_OLD_ROOT: &str = "another old root";

const ANOTHER_NEW_ROOT: &str = "another new root";

const NO_PATH: &str = "the path doesn't lead there";

const NO_DIGEST: &str = "a digest is missing";

/// The first thing by which evidence isn't that of a claim whose verdict is false. Of a path that is all that can be said.
pub fn reason(
    alloc: Global,
    claim: &Claim,
    evidence: &Evidence,
) -> Result<&'static str, CheckError> {
    match evidence {
        Evidence::Bundle { bytes, at } => of_bundle(alloc, claim, bytes, *at),
        Evidence::Path(_) => Ok(NO_PATH),
    }
}

fn of_bundle(
    alloc: Global,
    claim: &Claim,
    bundle: &[u8],
    at: usize,
) -> Result<&'static str, CheckError> {
    match claim {
        Claim::Entry {
            index,
            value,
            checkpoint,
        } => of_entry(alloc, bundle, at, *index, value, checkpoint),
        Claim::Growth { old, new } => of_growth(alloc, bundle, at, old, new),
        Claim::Key { .. } | Claim::Absent { .. } => Ok(ANOTHER_ROOT),
        Claim::Update {
            key,
            old_value,
            old_root,
            ..
        } => of_update(alloc, bundle, at, key, old_value, old_root),
        Claim::Insertion { key, old_root, .. } => of_insertion(alloc, bundle, at, key, old_root),
    }
}

fn of_entry(
    alloc: Global,
    bundle: &[u8],
    at: usize,
    index: usize,
    value: &Vec<u8>,
    checkpoint: &Checkpoint<Sha256>,
) -> Result<&'static str, CheckError> {
    let bundle = LogProofBundle::<Sha256, Vec<u8>, Global>::decode(alloc, bundle)?;
    let Some(proof) = bundle.inclusion_proof(at) else {
        return Err(CheckError::NoSuchProof);
    };
    if proof.log_length() != checkpoint.length() {
        return Ok("another length");
    }
    if proof.leaf().leaf_index() != Some(index) {
        return Ok("another index");
    }
    match proof.evaluate_value(bundle.hashes(), value) {
        Ok(_) => Ok(ANOTHER_ROOT),
        Err(InclusionProofError::LeafTooNew) => Ok("no such entry"),
        Err(_) => Ok(NO_DIGEST),
    }
}

fn of_growth(
    alloc: Global,
    bundle: &[u8],
    at: usize,
    old: &Checkpoint<Sha256>,
    new: &Checkpoint<Sha256>,
) -> Result<&'static str, CheckError> {
    let bundle = LogProofBundle::<Sha256, (), Global>::decode(alloc, bundle)?;
    match bundle.consistency_proof(at) {
        Some(proof) => Ok(of_lengths(&bundle, &proof, old, new)),
        None => Err(CheckError::NoSuchProof),
    }
}

fn of_lengths(
    bundle: &LogProofBundle<Sha256, (), Global>,
    proof: &ConsistencyProof<Sha256, ()>,
    old: &Checkpoint<Sha256>,
    new: &Checkpoint<Sha256>,
) -> &'static str {
    if proof.old_length() != old.length() {
        "another old length"
    } else if proof.new_length() != new.length() {
        "another new length"
    } else {
        of_roots(&proof.evaluate(bundle.hashes()), &old.root())
    }
}

// Why two roots aren't those of the checkpoints, where one of them isn't.
fn of_roots(
    found: &Result<(Hash<Sha256>, Hash<Sha256>), ConsistencyProofError>,
    old_root: &Hash<Sha256>,
) -> &'static str {
    match found {
        Ok((root, _)) => of_two(*root == *old_root),
        Err(ConsistencyProofError::OldLengthZero) => "the old log is empty",
        Err(ConsistencyProofError::PointsOutOfOrder) => "the old log is longer",
        Err(_) => NO_DIGEST,
    }
}

fn of_update(
    alloc: Global,
    bundle: &[u8],
    at: usize,
    key: &Vec<u8>,
    old_value: &Vec<u8>,
    old_root: &Hash<Sha256>,
) -> Result<&'static str, CheckError> {
    let proofs = MapProofBundle::<Sha256, Vec<u8>, Vec<u8>, Global>::decode(
        alloc, bundle,
    )?.unbundle();
    match proofs.as_slice().get(at) {
        Some(proof) => Ok(of_two(proof.evaluate(key, old_value) == *old_root)),
        None => Err(CheckError::NoSuchProof),
    }
}

fn of_insertion(
    alloc: Global,
    bundle: &[u8],
    at: usize,
    key: &Vec<u8>,
    old_root: &Hash<Sha256>,
) -> Result<&'static str, CheckError> {
    let bundle = MapProofBundle::<Sha256, Vec<u8>, Vec<u8>, Global>::decode(alloc, bundle)?;
    let (_proofs, absences) = bundle.unbundle_all();
    match absences.as_slice().get(at) {
        Some(absence) => Ok(of_two(absence.evaluate_absent(key) == *old_root)),
        None => Err(CheckError::NoSuchProof),
    }
}

// Which of two roots the proof doesn't lead to, where it leads to the old one or not.
fn of_two(leads_to_the_old_one: bool) -> &'static str {
    if leads_to_the_old_one {
        ANOTHER_NEW_ROOT
    } else {
        ANOTHER_OLD_ROOT
    }
}
