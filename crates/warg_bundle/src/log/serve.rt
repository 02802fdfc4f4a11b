//! Proofs of a `VecLog` as bytes, for whoever serves it.

ghost use Rattle.std.specs.Prelude.{◌≡◌, ◌^◌, ◌<◌, ◌≤◌, ◌↔◌, [], ◌∷◌, length, Ok, Err, IfOk};
ghost use Rattle.warg_log.specs.Tree.{own_digest};
ghost use Rattle.warg_log.specs.Claims.{leaf_claim};
ghost use Rattle.warg_bundle.specs.Bundling.{bundled, SpellsBundle};
ghost use Rattle.warg_bundle.specs.LogBundles.{Bundle, NodesFit};

use crate::log::error::BundleError;
use crate::log::proof_bundle::ProofBundle;
use std::alloc::{AllocError, AllocFailed, Allocator};
use thiserror::Error;
use warg_crypto::{SupportedDigest, VisitBytes};
use warg_log::{ConsistencyProof, InclusionProof, OutOfRange, VecLog};
use warg_protobuf::EncodeError;

/// Why no bytes of a proof are given.
#[derive(Debug, PartialEq, Eq, Drop, Error)]
pub enum ServeError {
    /// The index or a length is none of the log's.
    #[error("out of the log's range")]
    OutOfRange,
    /// The length is above 2^31: the number of a node of the proof doesn't fit in 32 bits.
    #[error("value does not fit in 32 bits")]
    TooLarge,
    /// Memory ran out.
    #[error("out of memory")]
    Memory,
}

impl From<OutOfRange> for ServeError {
    ghost use Rattle.std.specs.Prelude.{◌≡◌};
    ghost use Rattle.warg_bundle.specs.declared.log.serve.ServeError.TheVariants as serve;

    ghost from_gives = { λ _ error. error ≡ serve.OutOfRange };

    fn from(_error: OutOfRange) -> ServeError {
        ServeError::OutOfRange
    }
}

impl From<AllocError> for ServeError {
    ghost use Rattle.std.specs.Prelude.{◌≡◌};
    ghost use Rattle.warg_bundle.specs.declared.log.serve.ServeError.TheVariants as serve;

    ghost from_gives = { λ _ error. error ≡ serve.Memory };

    fn from(_error: AllocError) -> ServeError {
        ServeError::Memory
    }
}

impl<T: Drop> From<AllocFailed<T>> for ServeError {
    ghost use Rattle.std.specs.Prelude.{◌≡◌};
    ghost use Rattle.warg_bundle.specs.declared.log.serve.ServeError.TheVariants as serve;

    ghost from_gives = { λ _ error. error ≡ serve.Memory };

    fn from(_error: AllocFailed<T>) -> ServeError {
        ServeError::Memory
    }
}

// The greatest length of which a bundle has room for every proof: in a longer log each proof has a node whose number
// doesn't fit in 32 bits.
const GREATEST_SERVED: usize = 1 << 31;

/// The bytes of a bundle with the proof of the entry at an index, counted from 0, in the log of a length, and with the
/// digests that it needs. The errors: `OutOfRange` exactly if the index isn't below the length, or the length is above
/// the log's; else `TooLarge` exactly if the length is above 2^31, where a number of the bundle doesn't fit in 32 bits,
/// both before allocating; else it fails only if allocation fails.
pub fn inclusion_bytes<D: SupportedDigest, V: VisitBytes, A: Allocator, B: Allocator + Copy>(
    alloc: B,
    log: &VecLog<D, V, A>,
    index: usize,
    log_length: usize,
) -> Result<Vec<u8, B>, ServeError>
    ensures ok { IfOk result (λ bytes. SpellsBundle (own_digest D.digest log.now) []
        (leaf_claim index log_length ∷ []) bytes.items) }
    ensures out_of_range { (result ≡ Err ServeError.OutOfRange)
        ↔ ¬ ((index < log_length) × (log_length ≤ length log.now)) }
    ensures too_large { (result ≡ Err ServeError.TooLarge)
        ↔ ((index < log_length) × (log_length ≤ length log.now) × (2 ^ 31 < log_length)) }
{
    let proof = log.proof_at(index, log_length)?;
    if log_length > GREATEST_SERVED {
        return Err(ServeError::TooLarge);
    }
    let proofs = vec![in alloc; proof]?;
    Ok(bundle_bytes(alloc, Vec::new(alloc), proofs, log)?)
}

/// The bytes of a bundle with the proof that the log of an old length is a beginning of that of a new one, and with the
/// digests that it needs. The errors: `OutOfRange` exactly if the old length is 0 or above the new one, or the new one
/// is above the log's; else `TooLarge` exactly if the new length is above 2^31, where a number of the bundle doesn't
/// fit in 32 bits, both before allocating; else it fails only if allocation fails.
pub fn growth_bytes<D: SupportedDigest, V: VisitBytes, A: Allocator, B: Allocator + Copy>(
    alloc: B,
    log: &VecLog<D, V, A>,
    old_length: usize,
    new_length: usize,
) -> Result<Vec<u8, B>, ServeError>
    ensures ok { IfOk result (λ bytes. SpellsBundle (own_digest D.digest log.now)
        (record { old_length = old_length; new_length = new_length } ∷ []) [] bytes.items) }
    ensures out_of_range { (result ≡ Err ServeError.OutOfRange)
        ↔ ¬ ((0 < old_length) × (old_length ≤ new_length) × (new_length ≤ length log.now)) }
    ensures too_large { (result ≡ Err ServeError.TooLarge) ↔ ((0 < old_length)
        × (old_length ≤ new_length) × (new_length ≤ length log.now) × (2 ^ 31 < new_length)) }
{
    let proof = log.growth_between(old_length, new_length)?;
    if new_length > GREATEST_SERVED {
        return Err(ServeError::TooLarge);
    }
    let proofs = vec![in alloc; proof]?;
    Ok(bundle_bytes(alloc, proofs, Vec::new(alloc), log)?)
}

// The bytes of the bundle of these proofs, which are the log's own and have room in one, with the digests that they
// need. It fails only if allocation fails.
fn bundle_bytes<D: SupportedDigest, V: VisitBytes, A: Allocator, B: Allocator + Copy>(
    alloc: B,
    consistencies: Vec<ConsistencyProof<D, V>, B>,
    inclusions: Vec<InclusionProof<D, V>, B>,
    log: &VecLog<D, V, A>,
) -> Result<Vec<u8, B>, AllocError>
    requires { (b : Bundle) × (bundled (own_digest D.digest log.now) consistencies.items
        inclusions.items ≡ Ok b) × NodesFit b }
    ensures { IfOk result (λ bytes. SpellsBundle (own_digest D.digest log.now) consistencies.items
        inclusions.items bytes.items) }
{
    let bundle = match ProofBundle::bundle(alloc, consistencies, inclusions, log) {
        Ok(bundle) => bundle,
        Err(BundleError::Memory) => return Err(AllocError),
        Err(_) => unreachable!(),
    };
    match bundle.encode(alloc) {
        Ok(bytes) => Ok(bytes),
        Err(EncodeError::Memory) => Err(AllocError),
        Err(EncodeError::TooLarge) => unreachable!(),
    }
}
