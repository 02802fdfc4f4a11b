//! Proofs as messages.

ghost use Rattle.std.specs.Prelude.{◌≡◌, ◌≢◌, ◌<◌, ◌⊎◌, length, None, Some, Ok, Err, IfOk, IfErr, map};
ghost use Rattle.warg_protobuf.specs.OptionalHash.{hash_view};
ghost use Rattle.warg_protobuf.specs.MapInclusionProof.{proof_view};
ghost use Rattle.warg_protobuf.specs.Reading.{Answers};
ghost use Rattle.warg_protobuf.specs.Decoding.{first_fault};
ghost use Rattle.warg_map.specs.Messages.{peer_fault, proof_in};

use crate::proof::Proof;
use std::alloc::{AllocError, Allocator};
use warg_crypto::Hash;
use warg_protobuf::{DecodeError, MapInclusionProof as Message, OptionalHash};

// The most peers that a proof has: one for each level of the tree.
const MOST_PEERS: usize = 256;

impl<D, K, V, A: Allocator + Copy> Proof<D, K, V, A> {
    /// The proof that a message holds.
    ///
    /// The errors: `TooManyPeers` where there are more than 256 peers, before allocating; then `HashLength` where one
    /// of them is there and doesn't have 32 bytes.
    pub fn from_message(alloc: A, message: Message<A>) -> Result<Self, DecodeError>
        ensures exact { Answers DecodeError.Memory result (proof_in (proof_view message)) }
        ensures most { 256 < length (proof_view message) → result ≡ Err DecodeError.TooManyPeers }
        ensures message { IfOk result (λ proof. proof ≡ proof_view message) }
        ensures wire { (e : _) → result ≢ Err (DecodeError.Wire e) }
    {
        if message.hashes.len() > MOST_PEERS {
            return Err(DecodeError::TooManyPeers);
        }
        let peers = read_peers(alloc, message.hashes)?;
        Ok(Proof::new(peers))
    }

    /// The proof's message, which holds the same proof.
    pub fn to_message(&self, alloc: A) -> Result<Message<A>, AllocError>
        ensures ok { IfOk result (λ message. proof_view message ≡ self.now) }
        ensures again { IfOk result (λ message. proof_in (proof_view message) ≡ Ok self.now) }
    {
        let hashes = optional_hashes(alloc, self.peers())?;
        Ok(Message { hashes })
    }
}

// The peers that these hold.
fn read_peers<D, A: Allocator>(
    alloc: A,
    hashes: Vec<OptionalHash<A>, A>,
) -> Result<Vec<Option<Hash<D>>, A>, DecodeError>
    ensures ok { IfOk result (λ peers. peers.items ≡ map hash_view hashes.items) }
    ensures good { IfOk result (λ peers. first_fault peer_fault (map hash_view hashes.items)
        ≡ None) }
    ensures fault { IfErr result (λ e. (e ≡ DecodeError.Memory)
        ⊎ ((e ≡ DecodeError.HashLength) × (first_fault peer_fault (map hash_view hashes.items)
        ≡ Some e))) }
{
    let mut peers = Vec::new(alloc);
    'hashes: for hash in hashes {
        peers.push(read_peer(hash)?)?;
    }
    Ok(peers)
}

// The peer that this holds.
fn read_peer<D, A: Allocator>(hash: OptionalHash<A>) -> Result<Option<Hash<D>>, DecodeError>
    ensures ok { IfOk result (λ peer. peer ≡ hash_view hash) }
    ensures good { IfOk result (λ peer. peer_fault (hash_view hash) ≡ None) }
    ensures fault { IfErr result (λ e. (e ≡ DecodeError.HashLength)
        × (peer_fault (hash_view hash) ≡ Some e)) }
{
    let Some(bytes) = hash.hash else {
        return Ok(None);
    };
    match Hash::try_from(bytes) {
        Ok(hash) => Ok(Some(hash)),
        Err(_) => Err(DecodeError::HashLength),
    }
}

// These peers, as a message has them.
fn optional_hashes<D, A: Allocator + Copy>(
    alloc: A,
    peers: &[Option<Hash<D>>],
) -> Result<Vec<OptionalHash<A>, A>, AllocError>
    ensures ok { IfOk result (λ hashes. map hash_view hashes.items ≡ peers.now) }
    ensures good { IfOk result (λ hashes. first_fault peer_fault peers.now ≡ None) }
{
    let mut hashes = Vec::new(alloc);
    'peers: for peer in peers {
        hashes.push(optional_hash(alloc, peer)?)?;
    }
    Ok(hashes)
}

// This peer, as a message has it.
fn optional_hash<D, A: Allocator>(
    alloc: A,
    peer: &Option<Hash<D>>,
) -> Result<OptionalHash<A>, AllocError>
    ensures ok { IfOk result (λ hash. hash_view hash ≡ peer.now) }
    ensures good { IfOk result (λ hash. peer_fault peer.now ≡ None) }
{
    let Some(hash) = peer else {
        return Ok(OptionalHash { hash: None });
    };
    let bytes = Vec::from_slice(alloc, hash.bytes())?;
    Ok(OptionalHash { hash: Some(bytes) })
}
