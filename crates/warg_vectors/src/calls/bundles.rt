//! Bundles of a log's proofs, and of a map's.

use crate::call::Call;
use crate::calls::maps::{BytesMap, MapProof, Pair, grown, proof_in};
use crate::calls::stored::{LogBundle, write, write_same};
use crate::fault::{Answered, Fault, Promise};
use crate::memory::Memory;
use crate::words::{Data, Length};
use std::alloc::AllocError;
use warg_bundle::{LogProofBundle, MapProofBundle};
use warg_crypto::SupportedDigest;
use warg_log::{ConsistencyProof, InclusionProof, LogData, Node};

// The old and the new lengths of consistency proofs.
type Lengths = Vec<(Length, Length)>;

// The nodes of inclusion proofs, each with its log's length.
type Places = Vec<(Node, Length)>;

/// The bytes of a bundle, which is taken apart and put together again.
pub(super) fn bundle<D: SupportedDigest, M: Memory>(
    call: &mut Call<'_, M>,
    (data, lengths, places): &(Data<D>, Lengths, Places),
) -> Answered {
    let bundle = bundle_of(call, data, lengths, places)?;
    let other = call.again(|memory| of_parts(&bundle, memory))?;
    write_same(call, &bundle, &other)
}

fn bundle_of<D: SupportedDigest, M: Memory>(
    call: &Call<'_, M>,
    data: &Data<D>,
    lengths: &[(Length, Length)],
    places: &[(Node, Length)],
) -> Result<LogBundle<D, M>, Fault> {
    let consistencies = consistencies_of(call.memory, data, lengths)?;
    let inclusions = inclusions_of(call.memory, data, places)?;
    let bundled = LogProofBundle::bundle(call.memory, consistencies, inclusions, &data.held);
    data.unless_changed()?;
    call.made(bundled)
}

fn consistencies_of<D: SupportedDigest, M: Memory>(
    memory: M,
    data: &Data<D>,
    lengths: &[(Length, Length)],
) -> Result<Vec<ConsistencyProof<D, Vec<u8>>, M>, AllocError> {
    let mut proofs = Vec::new(memory);
    for (old, new) in lengths {
        proofs.push(data.held.prove_consistency(old.value, new.value))?;
    }
    Ok(proofs)
}

fn inclusions_of<D: SupportedDigest, M: Memory>(
    memory: M,
    data: &Data<D>,
    places: &[(Node, Length)],
) -> Result<Vec<InclusionProof<D, Vec<u8>>, M>, AllocError> {
    let mut proofs = Vec::new(memory);
    for (node, length) in places {
        proofs.push(data.held.prove_inclusion(*node, length.value))?;
    }
    Ok(proofs)
}

fn of_parts<D: SupportedDigest, M: Memory>(
    bundle: &LogBundle<D, M>,
    memory: M,
) -> Result<LogBundle<D, M>, Fault> {
    let (data, consistencies, inclusions) = bundle.unbundle(memory)?;
    Ok(LogProofBundle::bundle(memory, consistencies, inclusions, &data)?)
}

// A bundle of the proofs of a map from bytes to bytes.
type BytesBundle<'a, D, M> = MapProofBundle<D, &'a [u8], &'a [u8], M>;

// Keys that a map holds, and keys that it doesn't.
type Keys = (Vec<Vec<u8>>, Vec<Vec<u8>>);

/// The bytes of a bundle of a map's proofs, which is the bundle of its message, too.
pub(super) fn map_bundle<D: SupportedDigest, M: Memory>(call: &mut Call<'_, M>) -> Answered {
    let (pairs, keys): (Vec<Pair>, Keys) = call.read()?;
    let bundle: BytesBundle<'_, D, M> = bundled(call.memory, pairs.as_slice(), &keys)?;
    write(call, &bundle)
}

fn bundled<'a, D: SupportedDigest, M: Memory>(
    memory: M,
    pairs: &'a [Pair],
    keys: &'a Keys,
) -> Result<BytesBundle<'a, D, M>, Fault> {
    let map = grown(memory, pairs)?;
    let proofs = proofs_in(&map, memory, keys.0.as_slice(), false)?;
    let absences = proofs_in(&map, memory, keys.1.as_slice(), true)?;
    if absences.is_empty() {
        return Ok(MapProofBundle::bundle(proofs));
    }
    Ok(MapProofBundle::bundle_with(proofs, absences))
}

// The proofs of the keys, or of their absences.
fn proofs_in<'a, D: SupportedDigest, M: Memory>(
    map: &BytesMap<'a, D, M>,
    memory: M,
    keys: &'a [Vec<u8>],
    absent: bool,
) -> Result<Vec<MapProof<'a, D, M>, M>, Fault> {
    let mut proofs = Vec::new(memory);
    for key in keys {
        match proof_in(map, memory, key.as_slice(), absent)? {
            Some(proof) => proofs.push(proof)?,
            None => return Err(Fault::Broken(Promise::Answer)),
        }
    }
    Ok(proofs)
}
