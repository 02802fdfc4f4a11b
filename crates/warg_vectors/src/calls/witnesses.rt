//! Collisions out of false claims about a log.

use crate::call::{Call, Pairs};
use crate::fault::Answered;
use crate::memory::Memory;
use crate::words::{Data, Length};
use warg_crypto::{Hash, SupportedDigest};
use warg_log::{LogData, Node};

// A node, and the length of the log.
type Place = (Node, Length);

// The data of a proof, and the value that it is of.
type Claim<D> = (Data<D>, Vec<u8>);

// A value, and the path from its record.
type Record<D> = (Vec<u8>, Vec<Hash<D>>);

// The values of a log's entries.
type Entries = Vec<Vec<u8>>;

pub(super) fn value<D: SupportedDigest, M: Memory>(
    call: &mut Call<'_, M>,
    ((node, length), (data, value), (entries, pairs)): &(Place, Claim<D>, (Entries, Pairs)),
) -> Answered {
    let proof = data.held.prove_inclusion(*node, length.value);
    let found = warg_witness::witness_value(call.memory, &proof, &data.held, value, entries);
    data.unless_changed()?;
    call.write_found(found, pairs)
}

pub(super) fn hash<D: SupportedDigest, M: Memory>(
    call: &mut Call<'_, M>,
    ((node, length), (data, hash), (entries, pairs)): &(
        Place,
        (Data<D>, Hash<D>),
        (Entries, Pairs),
    ),
) -> Answered {
    let proof = data.held.prove_inclusion(*node, length.value);
    let hash = hash.copied();
    let found = warg_witness::witness_hash(call.memory, &proof, &data.held, hash, entries);
    data.unless_changed()?;
    call.write_found(found, pairs)
}

pub(super) fn consistency<D: SupportedDigest, M: Memory>(
    call: &mut Call<'_, M>,
    ((from, until), data, (old, new, pairs)): &(
        (Length, Length),
        Data<D>,
        (Entries, Entries, Pairs),
    ),
) -> Answered {
    let proof = data.held.prove_consistency(from.value, until.value);
    let found = warg_witness::witness_consistency(call.memory, &proof, &data.held, old, new);
    data.unless_changed()?;
    call.write_found(found, pairs)
}

pub(super) fn record<D: SupportedDigest, M: Memory>(
    call: &mut Call<'_, M>,
    ((index, path), value, (entries, pairs)): &((usize, Vec<Hash<D>>), Vec<u8>, (Entries, Pairs)),
) -> Answered {
    let found = warg_witness::witness_record(call.memory, *index, path, value, entries);
    call.write_found(found, pairs)
}

pub(super) fn tree<D: SupportedDigest, M: Memory>(
    call: &mut Call<'_, M>,
    (path, (old, new), pairs): &(Vec<Hash<D>>, (Entries, Entries), Pairs),
) -> Answered {
    call.write_found(
        warg_witness::witness_tree(call.memory, path, old, new),
        pairs,
    )
}

pub(super) fn agree_value<D: SupportedDigest, M: Memory>(
    call: &mut Call<'_, M>,
    (place, claims, pairs): &(Place, (Claim<D>, Claim<D>), Pairs),
) -> Answered {
    let ((data, value), (other, other_value)) = claims;
    let proof = data.held.prove_inclusion(place.0, place.1.value);
    let (held, other_held) = (&data.held, &other.held);
    let found = warg_witness::agree_value(
        call.memory,
        &proof,
        held,
        value,
        other_held,
        other_value,
    );
    data.unless_changed()?;
    other.unless_changed()?;
    call.write_found(found, pairs)
}

pub(super) fn agree_record<D: SupportedDigest, M: Memory>(
    call: &mut Call<'_, M>,
    ((index, length), (first, second), pairs): &((usize, Length), (Record<D>, Record<D>), Pairs),
) -> Answered {
    let ((value, path), (other, other_path)) = (first, second);
    let length = length.value;
    let found = warg_witness::agree_record(
        call.memory,
        *index,
        length,
        value,
        path,
        other,
        other_path,
    );
    call.write_found(found, pairs)
}
