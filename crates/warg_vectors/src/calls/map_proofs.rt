//! Proofs of maps that are given by their peers, and what they evaluate to.

use crate::call::Call;
use crate::fault::{Answered, Fault, Promise};
use crate::memory::Memory;
use crate::words::{Given, Words};
use std::alloc::{AllocError, Allocator, Global};
use warg_crypto::SupportedDigest;
use warg_map::Proof;
use warg_protobuf::{DecodeError, MapInclusionProof, OptionalHash};

/// A proof over bytes.
pub(super) type BytesProof<D, A = Global> = Proof<D, Vec<u8>, Vec<u8>, A>;

// The peers of a proof, as their bytes.
type Peers = Vec<Option<Vec<u8>>>;

/// A list of its peers, of which there are at most 256.
impl<D: SupportedDigest> Given for BytesProof<D> {
    fn read(words: &mut Words<'_>) -> Result<BytesProof<D>, Fault> {
        let peers: Peers = Vec::read(words)?;
        match proof_of(*peers.allocator(), &peers) {
            Ok(proof) => Ok(proof),
            Err(DecodeError::Memory) => Err(Fault::Memory),
            Err(_) => Err(Fault::BadCall),
        }
    }
}

// The proof of the message of these peers.
fn proof_of<D: SupportedDigest, A: Allocator + Copy>(
    alloc: A,
    peers: &Peers,
) -> Result<BytesProof<D, A>, DecodeError> {
    let mut hashes = Vec::new(alloc);
    for peer in peers.as_slice() {
        hashes.push(optional_hash(alloc, peer)?)?;
    }
    Proof::from_message(alloc, MapInclusionProof { hashes })
}

fn optional_hash<A: Allocator + Copy>(
    alloc: A,
    peer: &Option<Vec<u8>>,
) -> Result<OptionalHash<A>, AllocError> {
    let hash = match peer {
        Some(bytes) => Some(Vec::from_slice(alloc, bytes.as_slice())?),
        None => None,
    };
    Ok(OptionalHash { hash })
}

/// The peers of a proof, which are those of the proof of its message.
pub(super) fn map_proof<D: SupportedDigest, M: Memory>(call: &mut Call<'_, M>) -> Answered {
    let peers: Peers = call.read()?;
    let proof: BytesProof<D, M> = call.made(proof_of(call.memory, &peers))?;
    let other = call.again(|memory| through_message(&proof, memory))?;
    Fault::unless(other.peers() == proof.peers(), Promise::SameValue)?;
    call.to.list(proof.peers())
}

fn through_message<D: SupportedDigest, M: Memory>(
    proof: &BytesProof<D, M>,
    memory: M,
) -> Result<BytesProof<D, M>, Fault> {
    let message = proof.to_message(memory)?;
    Ok(Proof::from_message(memory, message)?)
}

pub(super) fn evaluate<D: SupportedDigest, M: Memory>(
    call: &mut Call<'_, M>,
    (proof, key, value): &(BytesProof<D>, Vec<u8>, Vec<u8>),
) -> Answered {
    call.to.show(&proof.evaluate(key, value))
}

pub(super) fn evaluate_absent<D: SupportedDigest, M: Memory>(
    call: &mut Call<'_, M>,
    (proof, key): &(BytesProof<D>, Vec<u8>),
) -> Answered {
    call.to.show(&proof.evaluate_absent(key))
}
