//! Verdicts on proofs and paths in bytes, under SHA-256.

use crate::call::Call;
use crate::calls::maps::Pair;
use crate::fault::Answered;
use crate::memory::Memory;
use warg_check as check;
use warg_crypto::{Hash, Sha256};
use warg_log::Checkpoint;

type Root = Hash<Sha256>;

// The old root, and the new one.
type Roots = (Root, Root);

type Known = Checkpoint<Sha256>;

// The bytes, and the place of the proof in them.
type Place = (Vec<u8>, usize);

// The index of an entry, and its value.
type Record = (usize, Vec<u8>);

pub(super) fn inclusion<M: Memory>(
    call: &mut Call<'_, M>,
    ((bytes, at), value, root): &(Place, Vec<u8>, Root),
) -> Answered {
    call.show(check::check_inclusion(call.memory, bytes, *at, value, root))
}

pub(super) fn consistency<M: Memory>(
    call: &mut Call<'_, M>,
    ((bytes, at), old, new): &(Place, Root, Root),
) -> Answered {
    call.show(check::check_consistency(call.memory, bytes, *at, old, new))
}

pub(super) fn key<M: Memory>(
    call: &mut Call<'_, M>,
    ((bytes, at), (key, value), root): &(Place, Pair, Root),
) -> Answered {
    call.show(check::check_key(call.memory, bytes, *at, key, value, root))
}

pub(super) fn absent<M: Memory>(
    call: &mut Call<'_, M>,
    ((bytes, at), key, root): &(Place, Vec<u8>, Root),
) -> Answered {
    call.show(check::check_absent(call.memory, bytes, *at, key, root))
}

pub(super) fn entry<M: Memory>(
    call: &mut Call<'_, M>,
    ((bytes, at), (index, value), known): &(Place, Record, Known),
) -> Answered {
    call.show(check::check_entry(call.memory, bytes, *at, *index, value, known))
}

pub(super) fn growth<M: Memory>(
    call: &mut Call<'_, M>,
    ((bytes, at), old, new): &(Place, Known, Known),
) -> Answered {
    call.show(check::check_growth(call.memory, bytes, *at, old, new))
}

pub(super) fn update<M: Memory>(
    call: &mut Call<'_, M>,
    ((bytes, at), (key, (old, new)), (from, to)): &(Place, (Vec<u8>, Pair), Roots),
) -> Answered {
    call.show(check::check_update(call.memory, bytes, *at, key, old, new, from, to))
}

pub(super) fn insertion<M: Memory>(
    call: &mut Call<'_, M>,
    ((bytes, at), (key, value), (old, new)): &(Place, Pair, Roots),
) -> Answered {
    call.show(check::check_insertion(call.memory, bytes, *at, key, value, old, new))
}

pub(super) fn record<M: Memory>(
    call: &mut Call<'_, M>,
    (bytes, (index, value), known): &(Vec<u8>, Record, Known),
) -> Answered {
    let path = call.made(warg_paths::hashes_in(call.memory, bytes))?;
    call.to.show(&warg_paths::check_record(known, *index, value, path.as_slice()))
}

pub(super) fn tree<M: Memory>(
    call: &mut Call<'_, M>,
    (bytes, old, new): &(Vec<u8>, Known, Known),
) -> Answered {
    let path = call.made(warg_paths::hashes_in(call.memory, bytes))?;
    call.to
        .show(&warg_paths::check_tree(old, new, path.as_slice()))
}
