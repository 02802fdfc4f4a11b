//! Collisions out of false claims about a map.

use crate::call::{Call, Pairs};
use crate::calls::map_proofs::BytesProof;
use crate::calls::maps::Pair;
use crate::fault::Answered;
use crate::memory::Memory;
use warg_crypto::SupportedDigest;

// A proof, and its key or its value.
type Claim<D> = (BytesProof<D>, Vec<u8>);

// Insertions, and the pairs that are given.
type Behind = (Vec<Pair>, Pairs);

pub(super) fn key<D: SupportedDigest, M: Memory>(
    call: &mut Call<'_, M>,
    (proof, (key, value), (insertions, pairs)): &(BytesProof<D>, Pair, Behind),
) -> Answered {
    let found = warg_witness::witness_key(call.memory, proof, key, value, insertions);
    call.write_found(found, pairs)
}

pub(super) fn absent<D: SupportedDigest, M: Memory>(
    call: &mut Call<'_, M>,
    (proof, key, (insertions, pairs)): &(BytesProof<D>, Vec<u8>, Behind),
) -> Answered {
    let found = warg_witness::witness_absent(call.memory, proof, key, insertions);
    call.write_found(found, pairs)
}

pub(super) fn update<D: SupportedDigest, M: Memory>(
    call: &mut Call<'_, M>,
    ((proof, key), (old, new), (insertions, pairs)): &(Claim<D>, Pair, Behind),
) -> Answered {
    let found = warg_witness::witness_update(call.memory, proof, key, old, new, insertions);
    call.write_found(found, pairs)
}

pub(super) fn agree<D: SupportedDigest, M: Memory>(
    call: &mut Call<'_, M>,
    (key, ((first, value), (second, other)), pairs): &(Vec<u8>, (Claim<D>, Claim<D>), Pairs),
) -> Answered {
    let found = warg_witness::agree_key(call.memory, key, first, value, second, other);
    call.write_found(found, pairs)
}
