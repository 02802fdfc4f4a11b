//! Verdicts on one insertion into a map, for auditors: whoever holds the map's root follows it without the map.

ghost use Rattle.std.specs.Prelude.{◌≡◌, ◌≢◌, Err};
ghost use Rattle.warg_crypto.specs.EmptyTrees.{empty_root};
ghost use Rattle.warg_crypto.specs.Tree.{leaf_digest};
ghost use Rattle.warg_protobuf.specs.declared.error.WireError.TheVariants as wire;
ghost use Rattle.warg_protobuf.specs.declared.value_error.DecodeError.TheVariants as decoding;
ghost use Rattle.warg_protobuf.specs.Reading.{Answers};
ghost use Rattle.warg_check.specs.UpdateVerdicts.{leads_both};
ghost use Rattle.warg_check.specs.Claims.{verdict};
ghost use Rattle.warg_check.specs.Claims.Claim.{update, insertion};
ghost use Rattle.warg_check.specs.Claims.Evidence.{by_bundle};

use crate::verdict::CheckError;
use std::alloc::Allocator;
use warg_bundle::MapProofBundle;
use warg_crypto::{Hash, SupportedDigest, VisitBytes};
use warg_map::Proof;

/// Whether the proof at a place of a map bundle, counted from 0, shows that the map with the new root is the one with
/// the old root, with the new value under the key in place of the old one: whether it evaluates from the old value to
/// the old root, and from the new value to the new root.
///
/// So nothing else was inserted, changed or removed between the two roots, up to a collision. The errors are those of
/// [`check_key`](crate::check_key). Each evaluation takes the digests of the key, of a leaf and of 256 branches, and
/// where the first leads elsewhere the second isn't made.
///
/// ```rust
/// let holds = check_update(alloc, bytes.as_slice(), 0, &"left-pad", &"1.0.0", &"1.1.0", &old, &new)?;
/// ```
pub fn check_update<D: SupportedDigest, K: VisitBytes, V: VisitBytes, A: Allocator + Copy>(
    alloc: A,
    bytes: &[u8],
    at: usize,
    key: &K,
    old_value: &V,
    new_value: &V,
    old_root: &Hash<D>,
    new_root: &Hash<D>,
) -> Result<bool, CheckError>
    ensures verdict { Answers CheckError.Memory result
        (verdict D.digest (update (K.bytes key.now) (V.bytes old_value.now) (V.bytes new_value.now)
        old_root.now new_root.now) (by_bundle bytes.now at)) }
    ensures memory { result ≢ Err (CheckError.Decode decoding.Memory) }
    ensures wire { result ≢ Err (CheckError.Decode (decoding.Wire wire.Memory)) }
{
    let bundle = MapProofBundle::<D, K, V, A>::decode(alloc, bytes)?;
    let proofs = bundle.unbundle();
    match proofs.as_slice().get(at) {
        Some(proof) => Ok(is_update(proof, key, old_value, new_value, old_root, new_root)),
        None => Err(CheckError::NoSuchProof),
    }
}

// Whether a proof evaluates from the old value to the old root, and from the new value to the new root.
fn is_update<D: SupportedDigest, K: VisitBytes, V: VisitBytes, A: Allocator>(
    proof: &Proof<D, K, V, A>,
    key: &K,
    old_value: &V,
    new_value: &V,
    old_root: &Hash<D>,
    new_root: &Hash<D>,
) -> bool
    ensures { result ≡ leads_both D.digest (K.bytes key.now)
        (leaf_digest D.digest (V.bytes old_value.now)) (leaf_digest D.digest (V.bytes new_value.now))
        old_root.now new_root.now proof.now }
{
    proof.evaluate(key, old_value) == *old_root && proof.evaluate(key, new_value) == *new_root
}

/// Whether the absence at a place of a map bundle, counted from 0, shows that the map with the new root is the one with
/// the old root, and the value under a key that had none, or one without bytes: whether it evaluates from an empty leaf
/// to the old root, and from the value to the new root.
///
/// What it means, and what it costs, is as for [`check_update`]. The errors are those of
/// [`check_absent`](crate::check_absent).
///
/// ```rust
/// let holds = check_insertion(alloc, bytes.as_slice(), 0, &"left-pad", &"1.0.0", &old, &new)?;
/// ```
pub fn check_insertion<D: SupportedDigest, K: VisitBytes, V: VisitBytes, A: Allocator + Copy>(
    alloc: A,
    bytes: &[u8],
    at: usize,
    key: &K,
    value: &V,
    old_root: &Hash<D>,
    new_root: &Hash<D>,
) -> Result<bool, CheckError>
    ensures verdict { Answers CheckError.Memory result
        (verdict D.digest (insertion (K.bytes key.now) (V.bytes value.now) old_root.now new_root.now)
        (by_bundle bytes.now at)) }
    ensures memory { result ≢ Err (CheckError.Decode decoding.Memory) }
    ensures wire { result ≢ Err (CheckError.Decode (decoding.Wire wire.Memory)) }
{
    let bundle = MapProofBundle::<D, K, V, A>::decode(alloc, bytes)?;
    let (_proofs, absences) = bundle.unbundle_all();
    match absences.as_slice().get(at) {
        Some(absence) => Ok(is_insertion(absence, key, value, old_root, new_root)),
        None => Err(CheckError::NoSuchProof),
    }
}

// Whether an absence evaluates from an empty leaf to the old root, and from the value to the new root.
fn is_insertion<D: SupportedDigest, K: VisitBytes, V: VisitBytes, A: Allocator>(
    absence: &Proof<D, K, V, A>,
    key: &K,
    value: &V,
    old_root: &Hash<D>,
    new_root: &Hash<D>,
) -> bool
    ensures { result ≡ leads_both D.digest (K.bytes key.now)
        (empty_root D.digest 0) (leaf_digest D.digest (V.bytes value.now))
        old_root.now new_root.now absence.now }
{
    absence.evaluate_absent(key) == *old_root && absence.evaluate(key, value) == *new_root
}
