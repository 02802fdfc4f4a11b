//! Maps that pairs are inserted into, and their proofs.

ghost use Rattle.std.specs.Prelude.{length};
ghost use Rattle.std.specs.Iterator.{at_most};

use crate::answer::Answer;
use crate::call::Call;
use crate::fault::{Answered, Fault, Promise};
use crate::memory::Memory;
use std::alloc::{AllocError, Allocator};
use warg_crypto::{Hash, SupportedDigest};
use warg_map::{Insertion, KeyProof, Map, MapError, Proof};

/// A map from bytes to bytes.
pub(super) type BytesMap<'a, D, A> = Map<D, &'a [u8], &'a [u8], A>;

/// A proof of such a map.
pub(super) type MapProof<'a, D, A> = Proof<D, &'a [u8], &'a [u8], A>;

/// A key, and the value that is inserted under it.
pub(super) type Pair = (Vec<u8>, Vec<u8>);

/// The map of some pairs, inserted one by one. Extending the empty map by all of them gives the same, and so does extending
/// that of the first half by the others, and that of those before the last two by these.
pub(super) fn map<D: SupportedDigest, M: Memory>(call: &mut Call<'_, M>) -> Answered {
    let pairs: Vec<Pair> = call.read()?;
    let map: BytesMap<'_, D, M> = grown_both_ways(call.memory, pairs.as_slice())?;
    write_map(&mut call.to, &map)
}

fn write_map<D: SupportedDigest, A: Allocator>(
    to: &mut Answer,
    map: &BytesMap<'_, D, A>,
) -> Answered {
    to.show(&map.len())?;
    to.show(map.root())?;
    to.show(&map.node_count())
}

fn grown_both_ways<'a, D: SupportedDigest, M: Memory>(
    memory: M,
    pairs: &'a [Pair],
) -> Result<BytesMap<'a, D, M>, Fault> {
    let map = grown(memory, pairs)?;
    for count in [0, pairs.len() / 2, pairs.len().saturating_sub(2)] {
        expect_extended(&map, memory, pairs, count)?;
    }
    Ok(map)
}

// A fault unless the map of the first pairs, extended by the others, is the map of all.
fn expect_extended<'a, D: SupportedDigest, M: Memory>(
    map: &BytesMap<'a, D, M>,
    memory: M,
    pairs: &'a [Pair],
    count: usize,
) -> Answered {
    let (front, rest) = pairs.split_at(count.min(pairs.len()));
    let before: BytesMap<'a, D, M> = grown(memory, front)?;
    let extended = extended(&before.clone()?, memory, rest)?;
    Fault::unless(Seen::of(map).is(&extended), Promise::SameValue)
}

/// The map of these pairs, inserted one by one.
pub(super) fn grown<'a, D: SupportedDigest, M: Memory>(
    memory: M,
    pairs: &'a [Pair],
) -> Result<BytesMap<'a, D, M>, Fault> {
    let mut map = Map::default(memory);
    for pair in pairs {
        map = inserted(&map, memory, pair)?;
    }
    Ok(map)
}

// The map with one pair more.
fn inserted<'a, D: SupportedDigest, M: Memory>(
    map: &BytesMap<'a, D, M>,
    memory: M,
    pair: &'a Pair,
) -> Result<BytesMap<'a, D, M>, Fault> {
    let before = Seen::of(map);
    match map.insert(pair.0.as_slice(), pair.1.as_slice()) {
        Err(MapError::Memory) => {
            memory.grant();
            Fault::unless(before.is(map), Promise::Unchanged)?;
            insert_again(map, pair)
        }
        ended => Ok(ended?),
    }
}

// Inserts a pair that was refused, where a proof of the old map leads to the root of the new one. The run ends with the
// refusal.
fn insert_again<'a, D: SupportedDigest, M: Memory>(
    map: &BytesMap<'a, D, M>,
    pair: &'a Pair,
) -> Result<BytesMap<'a, D, M>, Fault> {
    let (key, value) = (pair.0.as_slice(), pair.1.as_slice());
    let (KeyProof::Presence(proof) | KeyProof::Absence(proof)) = map.prove_key(&key)?;
    let next = map.insert(key, value)?;
    Fault::unless(
        proof.evaluate(&key, &value) == *next.root(),
        Promise::SameRoot,
    )?;
    Err(Fault::Memory)
}

// The map with some pairs more. Where it is refused, it is extended again.
fn extended<'a, D: SupportedDigest, M: Memory>(
    map: &BytesMap<'a, D, M>,
    memory: M,
    pairs: &'a [Pair],
) -> Result<BytesMap<'a, D, M>, Fault> {
    let before = Seen::of(map);
    match map.extend(Slices { rest: pairs }) {
        Err(MapError::Memory) => {
            memory.grant();
            Fault::unless(before.is(map), Promise::Unchanged)?;
            Ok(map.extend(Slices { rest: pairs })?)
        }
        ended => Ok(ended?),
    }
}

// The pairs, as an iterator that is dropped with what is left of it.
#[derive(Drop)]
struct Slices<'a> {
    rest: &'a [Pair],
}

impl<'a> Iterator for Slices<'a> {
    type Item = (&'a [u8], &'a [u8]);

    ghost remaining = { λ s. at_most (length s.rest.now) };

    fn next(&mut self) -> Option<(&'a [u8], &'a [u8])> {
        let (first, rest) = self.rest.split_first()?;
        self.rest = rest;
        Some((first.0.as_slice(), first.1.as_slice()))
    }
}

// What is seen of a map.
#[derive(Drop)]
struct Seen<D> {
    root: Hash<D>,
    len: usize,
    count: u128,
}

impl<D: SupportedDigest> Seen<D> {
    fn of<A: Allocator>(map: &BytesMap<'_, D, A>) -> Seen<D> {
        Seen {
            root: map.root().copied(),
            len: map.len(),
            count: map.node_count(),
        }
    }

    fn is<A: Allocator>(&self, map: &BytesMap<'_, D, A>) -> bool {
        let empty = map.is_empty() == (self.len == 0);
        *map.root() == self.root && map.len() == self.len && map.node_count() == self.count && empty
    }
}

/// The proof of a key, or of its absence.
pub(super) fn prove<D: SupportedDigest, M: Memory>(
    call: &mut Call<'_, M>,
    absent: bool,
) -> Answered {
    let question: Question = call.read()?;
    match proved::<D, M>(call.memory, &question, absent)? {
        Some(proof) => call.to.list(proof.peers()),
        None => call.to.word("none"),
    }
}

// Pairs, and a key.
type Question = (Vec<Pair>, Vec<u8>);

// The proof of a key in the map of the pairs, or of its absence. It leads to the map's root.
fn proved<'a, D: SupportedDigest, M: Memory>(
    memory: M,
    question: &'a Question,
    absent: bool,
) -> Result<Option<MapProof<'a, D, M>>, Fault> {
    let map = grown(memory, question.0.as_slice())?;
    let proof = proof_in(&map, memory, question.1.as_slice(), absent)?;
    if let Some(proof) = &proof {
        let root = root_from(proof, question, absent);
        Fault::unless(root == *map.root(), Promise::SameRoot)?;
    }
    Ok(proof)
}

// The root to which a proof of the key leads from the value that was last inserted under its digest, or from none.
fn root_from<'a, D: SupportedDigest, A: Allocator>(
    proof: &MapProof<'a, D, A>,
    question: &'a Question,
    absent: bool,
) -> Hash<D> {
    let key = question.1.as_slice();
    if absent {
        return proof.evaluate_absent(&key);
    }
    let mut value: &'a [u8] = &[];
    let hash = Hash::<D>::of(&question.1);
    for pair in question.0.as_slice() {
        if Hash::<D>::of(&pair.0) == hash {
            value = pair.1.as_slice();
        }
    }
    proof.evaluate(&key, &value)
}

/// The proof of a key, or of its absence. Where it is refused, the map is the one of before, and is asked again.
pub(super) fn proof_in<'a, D: SupportedDigest, M: Memory>(
    map: &BytesMap<'a, D, M>,
    memory: M,
    key: &'a [u8],
    absent: bool,
) -> Result<Option<MapProof<'a, D, M>>, Fault> {
    let before = Seen::of(map);
    if let Ok(proof) = ask(map, key, absent) {
        return Ok(proof);
    }
    memory.grant();
    Fault::unless(before.is(map), Promise::Unchanged)?;
    Ok(ask(map, key, absent)?)
}

fn ask<'a, D: SupportedDigest, M: Memory>(
    map: &BytesMap<'a, D, M>,
    key: &'a [u8],
    absent: bool,
) -> Result<Option<MapProof<'a, D, M>>, AllocError> {
    if absent {
        map.prove_absence(key)
    } else {
        map.prove(key)
    }
}

/// The count and the root of the map of some pairs with one pair more, whether its key is new, and the proof's peers.
pub(super) fn insert_with_proof<D: SupportedDigest, M: Memory>(call: &mut Call<'_, M>) -> Answered {
    let (pairs, pair): (Vec<Pair>, Pair) = call.read()?;
    let step: Step<'_, D, M> = inserted_with_proof(call.memory, pairs.as_slice(), &pair)?;
    write_step(&mut call.to, &step)
}

fn write_step<D: SupportedDigest, A: Allocator>(
    to: &mut Answer,
    step: &Step<'_, D, A>,
) -> Answered {
    to.show(&step.map.len())?;
    to.show(step.map.root())?;
    to.show(&step.is_new)?;
    to.list(step.proof.peers())
}

// An insertion into a map from bytes to bytes.
type Step<'a, D, A> = Insertion<D, &'a [u8], &'a [u8], A>;

fn inserted_with_proof<'a, D: SupportedDigest, M: Memory>(
    memory: M,
    pairs: &'a [Pair],
    pair: &'a Pair,
) -> Result<Step<'a, D, M>, Fault> {
    let map: BytesMap<'a, D, M> = grown(memory, pairs)?;
    Ok(map.insert_with_proof(pair.0.as_slice(), pair.1.as_slice())?)
}
