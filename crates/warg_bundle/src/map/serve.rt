//! The proof of a key as bytes, for whoever serves a map.

ghost use Rattle.std.specs.Prelude.{◌≡◌, ◌≢◌, Err, IfOk};
ghost use Rattle.warg_map.specs.Bits.{key_bits};
ghost use Rattle.warg_bundle.specs.Served.{SpellsKey};
ghost use Rattle.warg_bundle.specs.Private.KeyBundles.{bundle_of_one};

use crate::map::proof_bundle::ProofBundle;
use std::alloc::{AllocError, Allocator};
use warg_crypto::{SupportedDigest, VisitBytes};
use warg_map::{KeyProof, Map};
use warg_protobuf::EncodeError;

/// The bytes of a bundle with one proof: that of what is held under `key`, or that of its absence where its digest
/// isn't held. All of it lies in `alloc`, but the proof, which lies where the map does. It fails only if allocation
/// fails.
pub fn key_bytes<
    D: SupportedDigest,
    K: VisitBytes + Drop,
    V: VisitBytes + Drop,
    A: Allocator + Copy,
>(alloc: A, map: &Map<D, K, V, A>, key: &K) -> Result<Vec<u8, A>, EncodeError>
    ensures ok { IfOk result (λ bytes. SpellsKey D.digest map.now
        (key_bits D.digest (K.bytes key.now)) bytes.items) }
    ensures too_large { result ≢ Err EncodeError.TooLarge }
{
    let proof = map.prove_key(key)?;
    let bundle = bundle_of(alloc, proof)?;
    bundle.encode(alloc)
}

// The bundle of one proof.
fn bundle_of<D, K, V, A: Allocator + Copy>(
    alloc: A,
    proof: KeyProof<D, K, V, A>,
) -> Result<ProofBundle<D, K, V, A>, AllocError>
    ensures { IfOk result (λ bundle. bundle ≡ bundle_of_one proof) }
{
    let mut list = Vec::new(alloc);
    match proof {
        KeyProof::Presence(proof) => {
            list.push(proof)?;
            Ok(ProofBundle::bundle(list))
        }
        KeyProof::Absence(proof) => {
            list.push(proof)?;
            Ok(ProofBundle::bundle_with(Vec::new(alloc), list))
        }
    }
}
