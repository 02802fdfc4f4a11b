//! The witness for consistency proofs.

ghost use Rattle.std.specs.Prelude.{◌≡◌, length, map, Ok, Err, IfOk};
ghost use Rattle.warg_log.specs.Consistency.{consistency};
ghost use Rattle.warg_log.specs.declared.consistency.ConsistencyProofError.{ConsistencyProofError};
ghost use Rattle.warg_witness.specs.Findings.{Finds};
ghost use Rattle.warg_witness.specs.Claims.{Begins, IsConsistencyMet};
ghost use Rattle.warg_witness.specs.Placed.{IsConsistencyPlaced};

use crate::collision::Finding;
use crate::paths::find_difference;
use crate::trees::plain_trees;
use std::alloc::{AllocError, Allocator};
use warg_crypto::{SupportedDigest, VisitBytes};
use warg_log::{ConsistencyProof, LogBuilder, LogData};
use warg_paths::consistency_path;

/// Whether a consistency proof's claim is true of the entries: the new entries begin with the old ones, byte
/// by byte.
///
/// `NotMet` exactly if the entries aren't as many as the proof's lengths say, or the evaluation over the data
/// isn't Ok, both of which are decided before allocating, or it isn't with the roots of the trees over the
/// entries: so for the old length 0, and for an old length above the new one. `Holds` exactly if it is, and the claim
/// is true. Else a collision, one of: what the digest function takes for the old root (first) and in the tree over the
/// old entries (second) at one range; what it takes in the evaluation (first) and in the tree over the new entries
/// (second) at one range around a balanced root of the old length; what it takes in the old tree (first) and in the new
/// one (second) at one range of both.
///
/// It hashes each leaf and branch of both trees once, and the branches of the proof's evaluation; besides, those of the
/// data's consistency path, and what [`witness_tree`](crate::witness_tree) does with this path and both trees. It fails
/// only if allocation fails. An entry of more than `usize::MAX` bytes counts as that.
pub fn witness_consistency<
    D: SupportedDigest,
    V: VisitBytes,
    L: LogData<D, V>,
    A: Allocator + Copy,
>(
    alloc: A,
    proof: &ConsistencyProof<D, V>,
    hashes: &L,
    old: &[V],
    new: &[V],
) -> Result<Finding<D, A>, AllocError>
    ensures count { ¬ ((length old.now ≡ proof.now.old_length)
        × (length new.now ≡ proof.now.new_length)) → result ≡ Ok Finding.NotMet }
    ensures fails { (fault : ConsistencyProofError)
        → consistency D.digest (L.digest_at hashes.now) proof.now.old_length proof.now.new_length
        ≡ Err fault → result ≡ Ok Finding.NotMet }
    ensures found { IfOk result (Finds
        (IsConsistencyMet D.digest
        (L.digest_at hashes.now) proof.now.old_length proof.now.new_length
        (map V.bytes old.now) (map V.bytes new.now))
        (Begins (map V.bytes old.now) (map V.bytes new.now))
        (IsConsistencyPlaced D.digest (L.digest_at hashes.now) (map V.bytes old.now)
        (map V.bytes new.now))) }
{
    if old.len() != proof.old_length() || new.len() != proof.new_length() {
        return Ok(Finding::NotMet);
    }
    let Ok((old_root, new_root)) = proof.evaluate(hashes) else {
        return Ok(Finding::NotMet);
    };
    let trees = plain_trees(alloc, old, new)?;
    if old_root != trees.old.root() || new_root != trees.new.root() {
        return Ok(Finding::NotMet);
    }
    // Out of memory alone: the data of a proof that is met has each digest of the path.
    let Ok(path) = consistency_path(alloc, hashes, old.len(), new.len()) else {
        return Err(AllocError);
    };
    find_difference(alloc, &path, old, new, &trees)
}
