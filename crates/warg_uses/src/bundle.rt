//! A registry that hands out proofs of its releases.

ghost use Rattle.std.specs.Prelude.{◌≡◌, ◌*◌, ◌<◌, [], ◌∷◌, length, IfOk};
ghost use Rattle.warg_bundle.specs.LogBundles.{bundle_of};

use std::alloc::Global;
use warg_bundle::{BundleError, LogProofBundle};
use warg_crypto::Sha256;
use warg_log::{LogData, Node, VecLog};
use warg_protobuf::EncodeError;

/// The bundle of the proof that the release at an index, counted from 0, is in the log.
pub fn proof_of(
    alloc: Global,
    log: &VecLog<Sha256, String>,
    index: usize,
) -> Result<LogProofBundle<Sha256, String>, BundleError>
    requires { index < length log.now }
    ensures node { IfOk result (λ bundle. bundle.included_nodes ≡ record { 0 = 2 * index } ∷ []) }
    ensures length { IfOk result (λ bundle. bundle.log_length ≡ length log.now) }
{
    let length = log.length();
    let proof = log.prove_inclusion(Node::leaf(index), length);
    LogProofBundle::bundle(alloc, Vec::new(alloc), vec![in alloc; proof]?, log)
}

/// The bundle's bytes, which whoever decodes them reads as the same bundle.
pub fn bytes_to_send(
    alloc: Global,
    bundle: &LogProofBundle<Sha256, String>,
) -> Result<Vec<u8>, EncodeError>
    ensures { IfOk result (λ bytes. bundle_of bytes.items ≡ Ok bundle.now) }
{
    bundle.encode(alloc)
}
