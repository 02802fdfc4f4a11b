//! Bundles of a log's proofs: their parts, and refusals that come before allocating.

use crate::digests::{Z, all, bytes_of, hash_of};
use refusing::Refusing;
use std::alloc::{Allocator, Global};
use std::process::Abort;
use warg_bundle::{BundleError, LogProofBundle};
use warg_crypto::{Hash, Sha256};
use warg_log::{
    ConsistencyProof, ConsistencyProofError, InclusionProof, InclusionProofError, LogData, Node,
    SparseLogData,
};
use warg_protobuf::EncodeError;

type Bundle<A> = LogProofBundle<Sha256, (), A>;

type Data = SparseLogData<Sha256, ()>;

// Consistency from 2 to 3 and inclusion of the first and the last entry in the log of no bytes, `00` and `10`.
const BOTH: &str = "0803 120102 1a020004 2224 0801 1220 U2 2224 0802 1220 L1 2224 0804 1220 L2";

fn nothing(alloc: Global) -> Data {
    SparseLogData::from(Vec::new(alloc))
}

// The bundle of these words.
fn lent<A: Allocator + Copy>(rt: &(impl AllocGlobal + Abort), memory: A, words: &str) -> Bundle<A> {
    LogProofBundle::decode(memory, &bytes_of(rt, words)).expect(rt, "a bundle")
}

// Whether the bundle answers these inclusion proofs and no others.
fn has_inclusions<A: Allocator>(bundle: &Bundle<A>, data: &Data) -> bool {
    all(&[
        bundle.inclusion_proof(0) == Some(data.prove_inclusion(Node(0), 3)),
        bundle.inclusion_proof(1) == Some(data.prove_inclusion(Node(4), 3)),
        bundle.inclusion_proof(2).is_none(),
    ])
}

// Whether it answers this consistency proof and no other.
fn has_consistency<A: Allocator>(bundle: &Bundle<A>, data: &Data) -> bool {
    all(&[
        bundle.consistency_proof(0) == Some(data.prove_consistency(2, 3)),
        bundle.consistency_proof(1).is_none(),
    ])
}

// Whether the bundle holds the digest of node 1, that of node 2, and none of node 0.
fn has_digests<A: Allocator>(bundle: &Bundle<A>, second: &Hash<Sha256>) -> bool {
    let hashes = bundle.hashes();
    all(&[
        hashes.has_hash(Node(2)),
        !hashes.has_hash(Node(0)),
        hashes.hash_for(Node(1)).as_ref() == Some(second),
    ])
}

#[test]
fn readers_without_memory(rt: HostRuntime) {
    let memory = Refusing::after(rt.alloc(), 99);
    let bundle = lent(&rt, &memory, BOTH);
    let second = hash_of(&rt, "U2");
    memory.exhaust();
    let none = nothing(rt.alloc());
    assert!(rt; has_inclusions(&bundle, &none) && has_consistency(&bundle, &none));
    assert!(rt; has_digests(&bundle, &second));
    assert!(rt; none.prove_consistency(2, 3).evaluate(&none).is_err());
    assert!(rt; all(&[memory.left() == 0, !memory.has_refused()]));
}

// Whether these are the proofs of the bundle, in order.
fn are_parts<A: Allocator>(
    data: &SparseLogData<Sha256, (), A>,
    consistencies: &[ConsistencyProof<Sha256, ()>],
    inclusions: &[InclusionProof<Sha256, ()>],
) -> bool {
    let proof = data.prove_consistency(2, 3);
    let first = data.prove_inclusion(Node(0), 3);
    let last = data.prove_inclusion(Node(4), 3);
    all(&[
        inclusions == [first, last].as_slice(),
        consistencies == [proof].as_slice(),
        proof.evaluate(data).is_ok(),
    ])
}

#[test]
fn parts_in_order(rt: HostRuntime) {
    let memory = Refusing::after(rt.alloc(), 99);
    let bundle = lent(&rt, &memory, BOTH);
    let (hashes, consistencies, inclusions) = bundle.unbundle(&memory).expect(&rt, "memory");
    assert!(rt; are_parts(&hashes, consistencies.as_slice(), inclusions.as_slice()));
}

// The bundle of the first entry's proof, which comes in one allocator, in another one.
fn bundled<A: Allocator + Copy>(rt: &impl Abort, memory: A, lists: A, data: &Data) -> Bundle<A> {
    let proofs = vec![in lists; data.prove_inclusion(Node(0), 3)].expect(rt, "memory");
    LogProofBundle::bundle(memory, Vec::new(lists), proofs, data).expect(rt, "a bundle")
}

// All parts of a bundle lie in the allocator that is handed over, whichever one the proofs came in.
#[test]
fn a_bundle_lies_in_one_allocator(rt: HostRuntime) {
    let memory = Refusing::after(rt.alloc(), 99);
    let lists = Refusing::after(rt.alloc(), 1);
    let data = lent(&rt, rt.alloc(), BOTH);
    let bundle = bundled(&rt, &memory, &lists, data.hashes());
    assert!(rt; all(&[memory.left() < 99, lists.left() == 0, !lists.has_refused()]));
    assert!(rt; bundle.unbundle(&memory).is_ok() && !lists.has_refused());
    assert!(rt; bundle.unbundle(&lists).is_err() && lists.has_refused());
}

// Bundles with another length, old length, node or digest.
static OTHERS: [&str; 6] = [
    "0804 120102 1a020004 2224 0801 1220 U2 2224 0802 1220 L1 2224 0804 1220 L2",
    "0803 120101 1a020004 2224 0801 1220 U2 2224 0802 1220 L1 2224 0804 1220 L2",
    "0803 120102 1a020002 2224 0801 1220 U2 2224 0802 1220 L1 2224 0804 1220 L2",
    "0803 120102 1a020004 2224 0801 1220 U2 2224 0802 1220 L1 2224 0804 1220 L1",
    "0803 120102 1a020004 2224 0801 1220 U2 2224 0802 1220 L1 2224 0805 1220 L2",
    "0803 120102 1a020004 2224 0801 1220 U2 2224 0802 1220 L1",
];

// Bundles are equal exactly if their lengths, old lengths, nodes and digests are.
#[test]
fn equal_bundles(rt: HostRuntime) {
    let bundle = lent(&rt, rt.alloc(), BOTH);
    assert!(rt; bundle == lent(&rt, rt.alloc(), BOTH));
    for other in &OTHERS {
        assert!(rt; bundle != lent(&rt, rt.alloc(), other));
    }
}

// Whether bundling these proofs over no data is refused for this fault, where every growth is.
fn is_refused(
    rt: &(impl AllocGlobal + Abort),
    consistencies: &[ConsistencyProof<Sha256, ()>],
    inclusions: &[InclusionProof<Sha256, ()>],
    want: BundleError,
) -> bool {
    let memory = Refusing::after(rt.alloc(), 2);
    let consistencies = Vec::from_slice(&memory, consistencies).expect(rt, "memory");
    let inclusions = Vec::from_slice(&memory, inclusions).expect(rt, "memory");
    memory.exhaust();
    let none = nothing(rt.alloc());
    LogProofBundle::bundle(&memory, consistencies, inclusions, &none).err() == Some(want)
}

#[test]
fn early_refusals_of_consistency_proofs(rt: HostRuntime) {
    let data = nothing(rt.alloc());
    let backwards = [data.prove_consistency(3, 2)];
    let fault = BundleError::Consistency(ConsistencyProofError::PointsOutOfOrder);
    assert!(rt; is_refused(&rt, &backwards, &[], fault));
    let different = [data.prove_consistency(0, 5), data.prove_consistency(1, 4)];
    assert!(rt; is_refused(&rt, &different, &[], BundleError::DifferentRoots));
    let long = [data.prove_consistency(0, 1 << 32)];
    assert!(rt; is_refused(&rt, &long, &[], BundleError::TooLarge));
}

#[test]
fn early_refusals_of_inclusion_proofs(rt: HostRuntime) {
    let data = nothing(rt.alloc());
    let late = [data.prove_inclusion(Node(2), 1)];
    let fault = BundleError::Inclusion(InclusionProofError::LeafTooNew);
    assert!(rt; is_refused(&rt, &[], &late, fault));
    let known = [data.prove_inclusion(Node(0), 2)];
    assert!(rt; is_refused(&rt, &[], &known, BundleError::Memory));
    let old = [data.prove_consistency(0, 5)];
    let new = [data.prove_inclusion(Node(8), 4)];
    assert!(rt; is_refused(&rt, &old, &new, BundleError::DifferentRoots));
    assert!(rt; is_refused(&rt, &[], &[], BundleError::NoProofs));
}

// The bundle of a node whose number is above 32 bits.
fn too_large<A: Allocator + Copy>(rt: &(impl AllocGlobal + Abort), memory: A) -> Bundle<A> {
    let held = vec![in rt.alloc(); (Node((1 << 31) - 1), hash_of(rt, Z))].expect(rt, "memory");
    let data: Data = SparseLogData::from(held);
    let proofs = vec![in memory; data.prove_inclusion(Node(1 << 32), (1 << 31) + 1)];
    let proofs = proofs.expect(rt, "memory");
    LogProofBundle::bundle(memory, Vec::new(memory), proofs, &data).expect(rt, "a bundle")
}

// Whether that bundle isn't written.
fn is_not_written<A: Allocator + Copy>(bundle: &Bundle<A>, memory: A) -> bool {
    all(&[
        bundle.encode(memory) == Err(EncodeError::TooLarge),
        matches!(bundle.to_message(memory), Err(EncodeError::TooLarge)),
    ])
}

#[test]
fn too_large_to_write_without_memory(rt: HostRuntime) {
    let memory = Refusing::after(rt.alloc(), 99);
    let bundle = too_large(&rt, &memory);
    memory.exhaust();
    assert!(rt; is_not_written(&bundle, &memory));
    let proof = nothing(rt.alloc()).prove_inclusion(Node(1 << 32), (1 << 31) + 1);
    assert!(rt; bundle.inclusion_proof(0) == Some(proof));
    assert!(rt; !memory.has_refused());
}
