//! Proofs of a log, and what they evaluate to.

use crate::answer::Answer;
use crate::call::Call;
use crate::fault::{Answered, Fault, Promise};
use crate::memory::Memory;
use crate::words::{Data, Length};
use std::alloc::{Allocator, Global};
use warg_crypto::{Hash, Sha256, SupportedDigest};
use warg_log::{InclusionProof, InclusionProofWalk, LogData, Node, VecLog};

// A log of which only its proofs are looked at.
type Empty = VecLog<Sha256, Vec<u8>>;

// A node, and the length of the log.
type Place = (Node, Length);

pub(super) fn walk<M: Memory>(call: &mut Call<'_, M>, (node, length): &Place) -> Answered {
    let proof = Empty::default(call.alloc()).prove_inclusion(*node, length.value);
    let walk = call.made(proof.walk(call.memory))?;
    write(&mut call.to, &walk)
}

fn write<A: Allocator>(to: &mut Answer, walk: &InclusionProofWalk<A>) -> Answered {
    to.list(walk.nodes())?;
    to.show(&walk.initial_walk_len())?;
    to.show(&walk.lower_broots())?;
    to.show(&walk.upper_broots())
}

/// The nodes of the inclusion proofs of a consistency proof, each of which has to be at the new length.
pub(super) fn inclusions<M: Memory>(
    call: &mut Call<'_, M>,
    (old, new): &(Length, Length),
) -> Answered {
    let proof = Empty::default(call.alloc()).prove_consistency(old.value, new.value);
    let inclusions = call.made(proof.inclusions(call.memory))?;
    let leaves = leaves_of(call.alloc(), inclusions.as_slice(), new.value)?;
    call.to.list(leaves.as_slice())
}

fn leaves_of(
    alloc: Global,
    inclusions: &[InclusionProof<Sha256, Vec<u8>>],
    length: usize,
) -> Result<Vec<Node>, Fault> {
    let mut leaves = Vec::new(alloc);
    for inclusion in inclusions {
        Fault::unless(inclusion.log_length() == length, Promise::SameValue)?;
        leaves.push(inclusion.leaf())?;
    }
    Ok(leaves)
}

pub(super) fn evaluate_value<D: SupportedDigest, M: Memory>(
    call: &mut Call<'_, M>,
    ((node, length), data, value): &(Place, Data<D>, Vec<u8>),
) -> Answered {
    let proof = data.held.prove_inclusion(*node, length.value);
    call.show(proof.evaluate_value(&data.held, value))
}

pub(super) fn evaluate_hash<D: SupportedDigest, M: Memory>(
    call: &mut Call<'_, M>,
    ((node, length), data, hash): &(Place, Data<D>, Hash<D>),
) -> Answered {
    let proof = data.held.prove_inclusion(*node, length.value);
    call.show(proof.evaluate_hash(&data.held, hash.copied()))
}

pub(super) fn consistency<D: SupportedDigest, M: Memory>(
    call: &mut Call<'_, M>,
    (old, new, data): &(Length, Length, Data<D>),
) -> Answered {
    let proof = data.held.prove_consistency(old.value, new.value);
    let (old_root, new_root) = call.made(proof.evaluate(&data.held))?;
    call.to.show(&old_root)?;
    call.to.show(&new_root)
}
