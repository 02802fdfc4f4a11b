//! Convictions of a step from one map to another.

ghost use Rattle.std.specs.Prelude.{IfOk};
ghost use Rattle.warg_map.specs.Sparse.{pair_bytes};
ghost use Rattle.warg_check.specs.Claims.Claim.{update, insertion};
ghost use Rattle.warg_check.specs.Claims.Evidence.{by_bundle};
ghost use Rattle.warg_claims.specs.Convictions.{Convicts};

use crate::convict::is_true;
use std::alloc::{AllocError, Allocator};
use warg_bundle::MapProofBundle;
use warg_check::{check_insertion, check_update};
use warg_crypto::{Hash, SupportedDigest, VisitBytes};
use warg_witness::{Finding, witness_change};

/// Whether the claim that the map with the new root is the one with the old root, with the new value under the key in place of
/// the old one, which the proof at a place of a bundle shows ([`check_update`]), is true of both maps' insertions: the key had
/// the old value, and each key has in the new map what one more insertion of the new value gives.
///
/// `NotMet` exactly if the verdict isn't true, or the maps of the insertions have other roots. `Holds` exactly if it is, they
/// have these roots, and the claim is true. Else a collision: one of [`convict_key`] for the old value and the old
/// insertions; or what the digest function takes in the map of the old insertions and the new value (first) and in the map
/// of the new ones (second) at one prefix of bits; or two inserted keys with one digest.
///
/// It reads the bundle twice, and then does what [`witness_change`] does. It fails only if allocation fails.
pub fn convict_update<D: SupportedDigest, K: VisitBytes, V: VisitBytes, A: Allocator + Copy>(
    alloc: A,
    bytes: &[u8],
    at: usize,
    key: &K,
    old_value: &V,
    new_value: &V,
    old_root: &Hash<D>,
    new_root: &Hash<D>,
    old_insertions: &[(K, V)],
    new_insertions: &[(K, V)],
) -> Result<Finding<D, A>, AllocError>
    ensures { IfOk result (Convicts D.digest
        (update (K.bytes key.now) (V.bytes old_value.now) (V.bytes new_value.now)
        old_root.now new_root.now)
        (by_bundle bytes.now at)
        (pair_bytes K.bytes V.bytes old_insertions.now, pair_bytes K.bytes V.bytes new_insertions.now)) }
{
    let verdict = check_update(
        alloc, bytes, at, key, old_value, new_value, old_root, new_root,
    );
    if !is_true(verdict)? {
        return Ok(Finding::NotMet);
    }
    let Ok(bundle) = MapProofBundle::<D, K, V, A>::decode(alloc, bytes) else {
        return Err(AllocError);
    };
    let proofs = bundle.unbundle();
    match proofs.as_slice().get(at) {
        Some(proof) => witness_change(
            alloc,
            proof,
            key,
            old_value,
            new_value,
            old_insertions,
            new_insertions,
        ),
        None => Ok(Finding::NotMet),
    }
}

/// Whether the claim that the map with the new root is the one with the old root and the value under a key that had none, or
/// no bytes, which the absence at a place of a bundle shows ([`check_insertion`]), is true of both maps' insertions.
///
/// What it returns is what [`convict_update`] does for an old value without bytes, at the same cost.
pub fn convict_insertion<D: SupportedDigest, K: VisitBytes, V: VisitBytes, A: Allocator + Copy>(
    alloc: A,
    bytes: &[u8],
    at: usize,
    key: &K,
    value: &V,
    old_root: &Hash<D>,
    new_root: &Hash<D>,
    old_insertions: &[(K, V)],
    new_insertions: &[(K, V)],
) -> Result<Finding<D, A>, AllocError>
    ensures { IfOk result (Convicts D.digest
        (insertion (K.bytes key.now) (V.bytes value.now) old_root.now new_root.now)
        (by_bundle bytes.now at)
        (pair_bytes K.bytes V.bytes old_insertions.now, pair_bytes K.bytes V.bytes new_insertions.now)) }
{
    let verdict = check_insertion(alloc, bytes, at, key, value, old_root, new_root);
    if !is_true(verdict)? {
        return Ok(Finding::NotMet);
    }
    let Ok(bundle) = MapProofBundle::<D, K, V, A>::decode(alloc, bytes) else {
        return Err(AllocError);
    };
    let (_proofs, absences) = bundle.unbundle_all();
    match absences.as_slice().get(at) {
        Some(absence) => witness_change(
            alloc,
            absence,
            key,
            &(),
            value,
            old_insertions,
            new_insertions,
        ),
        None => Ok(Finding::NotMet),
    }
}
