//! Verdicts on the proofs in a stranger's bytes, for whoever holds a root.

ghost use Rattle.std.specs.Prelude.{◌≡◌, ◌≢◌, Err};
ghost use Rattle.warg_protobuf.specs.declared.error.WireError.TheVariants as wire;
ghost use Rattle.warg_protobuf.specs.declared.value_error.DecodeError.TheVariants as decoding;
ghost use Rattle.warg_protobuf.specs.Reading.{Answers};
ghost use Rattle.warg_check.specs.Verdicts.{check_fault, includes, inclusion_verdict, extends, consistency_verdict};
ghost use Rattle.warg_check.specs.Claims.{verdict};
ghost use Rattle.warg_check.specs.Claims.Claim.{value_under, nothing_under};
ghost use Rattle.warg_check.specs.Claims.Evidence.{by_bundle};

use std::alloc::Allocator;
use thiserror::Error;
use warg_bundle::{LogProofBundle, MapProofBundle};
use warg_crypto::{Hash, SupportedDigest, VisitBytes};
use warg_log::{ConsistencyProof, InclusionProof};
use warg_protobuf::DecodeError;

/// Why there is no verdict.
#[derive(Debug, PartialEq, Eq, Drop, Error)]
pub enum CheckError {
    /// The bytes are no bundle. The fault inside is never `Memory`.
    #[error("{0}")]
    Decode(DecodeError),
    /// The bundle has no proof of the kind at the place.
    #[error("no such proof")]
    NoSuchProof,
    /// Memory was refused.
    #[error("out of memory")]
    Memory,
}

impl From<DecodeError> for CheckError {
    ghost from_gives = { λ fault error. error ≡ check_fault fault };

    fn from(fault: DecodeError) -> Self {
        match fault {
            DecodeError::Memory => CheckError::Memory,
            fault => CheckError::Decode(fault),
        }
    }
}

/// Whether the inclusion proof at a place of a log bundle, counted from 0, shows that the log with this root
/// holds the value: whether it evaluates to the root over the bundle's own digests.
///
/// `Decode` carries the first fault of the bytes, and `NoSuchProof` says that a bundle without fault has no
/// more than `at` inclusion proofs. A proof that can't be evaluated isn't true.
pub fn check_inclusion<D: SupportedDigest, V: VisitBytes, A: Allocator + Copy>(
    alloc: A,
    bytes: &[u8],
    at: usize,
    value: &V,
    root: &Hash<D>,
) -> Result<bool, CheckError>
    ensures verdict { Answers CheckError.Memory result
        (inclusion_verdict D.digest bytes.now at (V.bytes value.now) root.now) }
    ensures memory { result ≢ Err (CheckError.Decode decoding.Memory) }
    ensures wire { result ≢ Err (CheckError.Decode (decoding.Wire wire.Memory)) }
{
    let bundle = LogProofBundle::<D, V, A>::decode(alloc, bytes)?;
    match bundle.inclusion_proof(at) {
        Some(proof) => Ok(is_included(&bundle, &proof, value, root)),
        None => Err(CheckError::NoSuchProof),
    }
}

// Whether an inclusion proof of a bundle evaluates, over the bundle's digests and with the value, to the root.
pub(crate) fn is_included<D: SupportedDigest, V: VisitBytes, A: Allocator>(
    bundle: &LogProofBundle<D, V, A>,
    proof: &InclusionProof<D, V>,
    value: &V,
    root: &Hash<D>,
) -> bool
    requires { proof.now.log_length ≡ bundle.now.log_length }
    ensures { result ≡ includes D.digest (V.bytes value.now) root.now bundle.now proof.now.leaf }
{
    match proof.evaluate_value(bundle.hashes(), value) {
        Ok(found) => found == *root,
        Err(_) => false,
    }
}

/// Whether the consistency proof at a place of a log bundle, counted from 0, shows that the log with the old
/// root is a beginning of the log with the new one: whether it evaluates to the two roots over the bundle's
/// own digests.
///
/// The errors are those of [`check_inclusion`], for consistency proofs.
pub fn check_consistency<D: SupportedDigest, A: Allocator + Copy>(
    alloc: A,
    bytes: &[u8],
    at: usize,
    old: &Hash<D>,
    new: &Hash<D>,
) -> Result<bool, CheckError>
    ensures verdict { Answers CheckError.Memory result
        (consistency_verdict D.digest bytes.now at old.now new.now) }
    ensures memory { result ≢ Err (CheckError.Decode decoding.Memory) }
    ensures wire { result ≢ Err (CheckError.Decode (decoding.Wire wire.Memory)) }
{
    let bundle = LogProofBundle::<D, (), A>::decode(alloc, bytes)?;
    match bundle.consistency_proof(at) {
        Some(proof) => Ok(is_extended(&bundle, &proof, old, new)),
        None => Err(CheckError::NoSuchProof),
    }
}

// Whether a consistency proof of a bundle evaluates, over the bundle's digests, to the two roots.
pub(crate) fn is_extended<D: SupportedDigest, A: Allocator>(
    bundle: &LogProofBundle<D, (), A>,
    proof: &ConsistencyProof<D, ()>,
    old: &Hash<D>,
    new: &Hash<D>,
) -> bool
    requires { proof.now.new_length ≡ bundle.now.log_length }
    ensures { result ≡ extends D.digest old.now new.now bundle.now proof.now.old_length }
{
    match proof.evaluate(bundle.hashes()) {
        Ok((found_old, found_new)) => found_old == *old && found_new == *new,
        Err(_) => false,
    }
}

/// Whether the proof at a place of a map bundle, counted from 0, shows that the map with this root holds the
/// value under the key: whether it evaluates to the root.
///
/// The errors are those of [`check_inclusion`], for a map bundle and its proofs; its absences aren't counted.
pub fn check_key<D: SupportedDigest, K: VisitBytes, V: VisitBytes, A: Allocator + Copy>(
    alloc: A,
    bytes: &[u8],
    at: usize,
    key: &K,
    value: &V,
    root: &Hash<D>,
) -> Result<bool, CheckError>
    ensures verdict { Answers CheckError.Memory result
        (verdict D.digest (value_under (K.bytes key.now) (V.bytes value.now) root.now)
        (by_bundle bytes.now at)) }
    ensures memory { result ≢ Err (CheckError.Decode decoding.Memory) }
    ensures wire { result ≢ Err (CheckError.Decode (decoding.Wire wire.Memory)) }
{
    let bundle = MapProofBundle::<D, K, V, A>::decode(alloc, bytes)?;
    let proofs = bundle.unbundle();
    match proofs.as_slice().get(at) {
        Some(proof) => Ok(proof.evaluate(key, value) == *root),
        None => Err(CheckError::NoSuchProof),
    }
}

/// Whether the absence at a place of a map bundle, counted from 0, shows that the map with this root holds
/// nothing under the key, or a value without bytes: whether it evaluates to the root.
///
/// The errors are those of [`check_inclusion`], for a map bundle and its absences; its proofs aren't counted.
pub fn check_absent<D: SupportedDigest, K: VisitBytes, A: Allocator + Copy>(
    alloc: A,
    bytes: &[u8],
    at: usize,
    key: &K,
    root: &Hash<D>,
) -> Result<bool, CheckError>
    ensures verdict { Answers CheckError.Memory result
        (verdict D.digest (nothing_under (K.bytes key.now) root.now) (by_bundle bytes.now at)) }
    ensures memory { result ≢ Err (CheckError.Decode decoding.Memory) }
    ensures wire { result ≢ Err (CheckError.Decode (decoding.Wire wire.Memory)) }
{
    let bundle = MapProofBundle::<D, K, (), A>::decode(alloc, bytes)?;
    let (_proofs, absences) = bundle.unbundle_all();
    let Some(absence) = absences.as_slice().get(at) else {
        return Err(CheckError::NoSuchProof);
    };
    Ok(absence.evaluate_absent(key) == *root)
}
