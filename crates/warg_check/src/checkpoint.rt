//! Verdicts for whoever holds checkpoints: they bind the lengths and the leaf's place, too.

ghost use Rattle.std.specs.Prelude.{◌≡◌, ◌≢◌, Err};
ghost use Rattle.warg_protobuf.specs.declared.error.WireError.TheVariants as wire;
ghost use Rattle.warg_protobuf.specs.declared.value_error.DecodeError.TheVariants as decoding;
ghost use Rattle.warg_protobuf.specs.Reading.{Answers};
ghost use Rattle.warg_check.specs.CheckpointVerdicts.{is_leaf_at, shows_entry, shows_growth};
ghost use Rattle.warg_check.specs.Claims.{verdict};
ghost use Rattle.warg_check.specs.Claims.Claim.{entry_at, growth};
ghost use Rattle.warg_check.specs.Claims.Evidence.{by_bundle};

use crate::verdict::{CheckError, is_extended, is_included};
use std::alloc::Allocator;
use warg_bundle::LogProofBundle;
use warg_crypto::{Hash, SupportedDigest, VisitBytes};
use warg_log::{Checkpoint, ConsistencyProof, InclusionProof, Node};

/// Whether the inclusion proof at a place of a log bundle, counted from 0, shows that entry `index`, from 0,
/// of the log with this checkpoint has the value's bytes: whether it is a proof of that leaf at the
/// checkpoint's length, and evaluates to its root.
///
/// The errors are those of [`check_inclusion`](crate::check_inclusion).
///
/// ```rust
/// let holds = check_entry(alloc, bytes.as_slice(), 0, 0, &"left-pad 1.0.0", &checkpoint)?;
/// ```
pub fn check_entry<D: SupportedDigest, V: VisitBytes, A: Allocator + Copy>(
    alloc: A,
    bytes: &[u8],
    at: usize,
    index: usize,
    value: &V,
    checkpoint: &Checkpoint<D>,
) -> Result<bool, CheckError>
    ensures verdict { Answers CheckError.Memory result
        (verdict D.digest (entry_at index (V.bytes value.now) checkpoint.now) (by_bundle bytes.now at)) }
    ensures memory { result ≢ Err (CheckError.Decode decoding.Memory) }
    ensures wire { result ≢ Err (CheckError.Decode (decoding.Wire wire.Memory)) }
{
    let bundle = LogProofBundle::<D, V, A>::decode(alloc, bytes)?;
    match bundle.inclusion_proof(at) {
        Some(proof) => Ok(is_entry(&bundle, &proof, index, value, checkpoint)),
        None => Err(CheckError::NoSuchProof),
    }
}

// Whether an inclusion proof of a bundle is of this leaf at the checkpoint's length, and evaluates to its root.
fn is_entry<D: SupportedDigest, V: VisitBytes, A: Allocator>(
    bundle: &LogProofBundle<D, V, A>,
    proof: &InclusionProof<D, V>,
    index: usize,
    value: &V,
    checkpoint: &Checkpoint<D>,
) -> bool
    requires { proof.now.log_length ≡ bundle.now.log_length }
    ensures { result ≡ shows_entry D.digest index
        (V.bytes value.now) checkpoint.now.length checkpoint.now.root bundle.now proof.now.leaf }
{
    is_leaf(proof.leaf(), index)
        && proof.log_length() == checkpoint.length()
        && is_included(bundle, proof, value, &checkpoint.root())
}

// Whether the node is that of the leaf at an index.
fn is_leaf(node: Node, index: usize) -> bool
    ensures { result ≡ is_leaf_at index node }
{
    match node.leaf_index() {
        Some(found) => found == index,
        None => false,
    }
}

/// Whether the consistency proof at a place of a log bundle, counted from 0, shows that the log with the old
/// checkpoint is a beginning of the log with the new one: whether it is a proof from the old checkpoint's
/// length to the new one's, and evaluates to both roots.
///
/// From an empty log it is false: every log continues that one, and no proof is made of it. The errors are
/// those of [`check_consistency`](crate::check_consistency).
pub fn check_growth<D: SupportedDigest, A: Allocator + Copy>(
    alloc: A,
    bytes: &[u8],
    at: usize,
    old: &Checkpoint<D>,
    new: &Checkpoint<D>,
) -> Result<bool, CheckError>
    ensures verdict { Answers CheckError.Memory result
        (verdict D.digest (growth old.now new.now) (by_bundle bytes.now at)) }
    ensures memory { result ≢ Err (CheckError.Decode decoding.Memory) }
    ensures wire { result ≢ Err (CheckError.Decode (decoding.Wire wire.Memory)) }
{
    let bundle = LogProofBundle::<D, (), A>::decode(alloc, bytes)?;
    match bundle.consistency_proof(at) {
        Some(proof) => Ok(is_growth(&bundle, &proof, old, new)),
        None => Err(CheckError::NoSuchProof),
    }
}

// Whether a consistency proof of a bundle is between these lengths, and evaluates to both roots.
fn is_growth<D: SupportedDigest, A: Allocator>(
    bundle: &LogProofBundle<D, (), A>,
    proof: &ConsistencyProof<D, ()>,
    old: &Checkpoint<D>,
    new: &Checkpoint<D>,
) -> bool
    requires { proof.now.new_length ≡ bundle.now.log_length }
    ensures { result
        ≡ shows_growth D.digest old.now.length old.now.root new.now.length new.now.root bundle.now proof.now.old_length }
{
    proof.old_length() == old.length()
        && proof.new_length() == new.length()
        && is_extended(bundle, proof, &old.root(), &new.root())
}
