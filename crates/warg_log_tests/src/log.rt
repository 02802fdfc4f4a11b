//! The log: its own proofs at all lengths, what it holds, clones, comparison, and calls without memory.

use crate::digests::{U2, U3, all, hash_ending_in, hash_of};
use refusing::Refusing;
use std::alloc::{Allocator, Global};
use std::process::Abort;
use warg_crypto::weak::Sum;
use warg_crypto::{Hash, Sha256, SupportedDigest, VisitBytes};
use warg_log::{
    AppendError, Checkpoint, ConsistencyProof, ConsistencyProofError, InclusionProof,
    InclusionProofError, InclusionProofWalk, LogBuilder, LogData, Node, SparseLogData, StackLog,
    VecLog, push_all,
};

type TextLog = VecLog<Sha256, &'static str>;

type TextStack = StackLog<Sha256, &'static str>;

static TEXTS: [&str; 25] = [
    "93", "67", "30", "37", "23", "75", "57", "89", "76", "42", "9", "14", "40", "59", "26", "66",
    "77", "38", "47", "34", "8", "81", "101", "102", "103",
];

// The root of the first texts, up to each.
static ROOTS: [&str; 25] = [
    "45cc86009fe278f9256f90958fa9d6ff1e18e582fb3e543a2f1ff348db63a579",
    "5eebc66b7ff695b18f767cd17019164ec1f19745fb49f54d1b732c1cc6cd2918",
    "f6726b46ba4b0fe6cc1c7308eb795c7a9438d07ecefe42e386dbc872226b8a8b",
    "c4b2e10f8da5bff6587b9ace2622e91deaaab36661dd5481b6a915d402442c0c",
    "ebd87e2c00b36d7eebae0c9067c684eb720c909a25996c188a1444cb429ee081",
    "4138cc2dfcc54f60040bde0b34e9c87903908a3bbfe190535425fe6752ead345",
    "c20570351e6cb7f33401871408a7ccae6df46e684da3d2affc63633587f6f810",
    "d760b01cf856ef0fe14f1825bbae96c7cabafea7895c537e49cb00129e8f0450",
    "60b59db47b8a3885e47f9f04baac25afbdb4ee17bb5d5987f90387e293450504",
    "6979fdf8c5e6ccc15efd39b31a76fe294e514261c4b3a5f58f0b728bb8b731e5",
    "8cd0e75a4e135cbf0bde860cab0ccc0e1c8988959c06a3d195643c81f993eb22",
    "69b2122c252e61e38c1805cb42282b952dd2187659caa4ab20ff37550c051f5d",
    "82b3d88dd6961ce689050dd9eaa21f3fbe93e360d6ef04c3ee272a5ac3c70291",
    "d7b4ef928ad3bd587621c94cbb707c3d168ac993845eb02aec5b8e8cce3e6ee3",
    "db652d2d7449511a09f92ac3bd068e6810aba88b308faa226606452c5f65f0bc",
    "da81348e920d0d09e3c679ca0448a60c84f1f64defc26a4f56bf5f73983b76e0",
    "5884357af3b2e64c3719b7e3cd1cf3723da843aa00f6ba08d53da7de19dd0fb5",
    "a6a28146a4b4b9122478a07f264043b725542be3f12099b3a2c57fb859b61ec0",
    "ac1b3802ee1384943ab59384aadf29477a37d012a1292a87359ee4ce88ba840f",
    "de54267fbb55841a9da69e28a07a84f016df4ef19c1e73c4ed73ea302f4601d5",
    "ba411dc875de23018ff2bcfee856ee06a8ccae7c9472aa6377e1f6fdf1560be1",
    "93c6595fb1ff8ff4704d33ae102f2c85cec6b73bc8376c875d86a8688fe7b59f",
    "ed75b4c6952a510df984bbd453d0f413e778659b5b7e78ba3d7865e73737d0af",
    "11b196085f92610160f15abcf4b0cf2eeb55b2ab09d9f6a8eb8ba845b8d51703",
    "ee6921c0459174f5b3a56994d5ee1bc98e4718ee665815520c25aa0f7c3482dd",
];

// The log of these entries, appended one by one.
fn log_of<D: SupportedDigest, V: VisitBytes, A: Allocator>(
    rt: &impl Abort,
    alloc: A,
    entries: &[V],
) -> VecLog<D, V, A> {
    let mut log = VecLog::default(alloc);
    for entry in entries {
        log.append(entry).expect(rt, "memory");
    }
    log
}

fn texts(rt: &(impl AllocGlobal + Abort)) -> TextLog {
    log_of(rt, rt.alloc(), &TEXTS)
}

fn roots(rt: &(impl AllocGlobal + Abort)) -> Vec<Hash<Sha256>> {
    let mut roots = Vec::new(rt.alloc());
    for root in &ROOTS {
        roots.push(hash_of(rt, root)).expect(rt, "memory");
    }
    roots
}

// Whether the proof of a text leads to the root up to another one, or is refused where the text came later.
fn is_included(log: &TextLog, roots: &[Hash<Sha256>], place: usize, last: usize) -> bool {
    if place >= 25 || last >= 25 {
        return false;
    }
    let proof = log.prove_inclusion(Node(2 * place), last + 1);
    match proof.evaluate_value(log, &TEXTS[place]) {
        Ok(found) => place <= last && roots.get(last) == Some(&found),
        Err(fault) => place > last && fault == InclusionProofError::LeafTooNew,
    }
}

// Whether the proof between two lengths leads to their roots, or is refused where the old one is above the new one.
fn is_consistent(log: &TextLog, roots: &[Hash<Sha256>], old: usize, new: usize) -> bool {
    if old >= 25 || new >= 25 {
        return false;
    }
    let proof = log.prove_consistency(old + 1, new + 1);
    match proof.evaluate(log) {
        Ok((before, after)) => {
            old <= new && roots.get(old) == Some(&before) && roots.get(new) == Some(&after)
        }
        Err(fault) => old > new && fault == ConsistencyProofError::PointsOutOfOrder,
    }
}

#[test]
fn own_proofs(rt: HostRuntime) {
    let (log, roots) = (texts(&rt), roots(&rt));
    assert!(rt; log.length() == 25);
    for old in 0..25 {
        for new in 0..25 {
            assert!(rt; is_included(&log, roots.as_slice(), old, new));
            assert!(rt; is_consistent(&log, roots.as_slice(), old, new));
        }
    }
}

// An entry is appended to a log and to a stack alike.
#[test]
fn entries_appended(rt: HostRuntime) {
    let mut log = TextLog::default(rt.alloc());
    let mut stack = TextStack::default(rt.alloc());
    for text in &TEXTS {
        assert!(rt; log.append(text) == stack.append(text));
    }
    let root = hash_of(&rt, ROOTS[24]);
    assert!(rt; log.root() == root);
    assert!(rt; is_at(&log, &root, 25));
    assert!(rt; is_at(&stack, &root, 25));
}

// Whether a log has this root at this length.
fn is_at<B: LogBuilder<Sha256, &'static str>>(log: &B, root: &Hash<Sha256>, length: usize) -> bool {
    let checkpoint = log.checkpoint();
    checkpoint.root() == *root && checkpoint.length() == length
}

#[test]
fn clones_grow_apart(rt: HostRuntime) {
    let mut log = TextLog::default(rt.alloc());
    let mut stack = TextStack::default(rt.alloc());
    assert!(rt; push_all(&mut log, &["", "\0"]) == push_all(&mut stack, &["", "\0"]));
    let mut longer = log.clone().expect(&rt, "memory");
    let mut higher = stack.clone().expect(&rt, "memory");
    assert!(rt; longer.append(&"\x10") == higher.append(&"\x10"));
    let (two, three) = (hash_of(&rt, U2), hash_of(&rt, U3));
    assert!(rt; all(&[is_at(&log, &two, 2), is_at(&stack, &two, 2)]));
    assert!(rt; all(&[is_at(&longer, &three, 3), is_at(&higher, &three, 3)]));
}

type ByteLog<A = Global> = VecLog<Sum, u8, A>;

// Whether the log holds the node's digest where the node exists, and else none.
fn holds_what_exists(log: &ByteLog, number: usize) -> bool {
    let node = Node(number);
    let held = log.hash_for(node);
    if node.exists_at_length(log.length()) {
        return log.has_hash(node) && held.is_some() && held.as_ref() == log.as_ref().get(number);
    }
    !log.has_hash(node) && held.is_none()
}

#[test]
fn digests_of_nodes_that_exist(rt: HostRuntime) {
    let log = log_of(&rt, rt.alloc(), &[100, 102, 104, 106, 108, 110, 112]);
    for number in 0..20 {
        assert!(rt; holds_what_exists(&log, number));
    }
    assert!(rt; holds_what_exists(&log, usize::MAX));
}

// Whether the first is below the second, which has the root of the third and is below that.
fn are_ordered(low: &Checkpoint<Sum>, high: &Checkpoint<Sum>, longer: &Checkpoint<Sum>) -> bool {
    let clone: Result<_, _> = low.clone();
    let is_root = longer.root() == high.root();
    all(&[
        low < high,
        is_root,
        clone.as_ref() == Ok(low),
        high < longer,
        high != longer,
    ])
}

#[test]
fn checkpoints_are_ordered_by_root_then_length(rt: HostRuntime) {
    let low = log_of::<Sum, u8, _>(&rt, rt.alloc(), &[1]).checkpoint();
    let high = log_of::<Sum, u8, _>(&rt, rt.alloc(), &[9]).checkpoint();
    let longer = log_of::<Sum, u8, _>(&rt, rt.alloc(), &[4, 4]).checkpoint();
    assert!(rt; are_ordered(&low, &high, &longer));
}

// Whether an inclusion proof is its clone, has its parts, and isn't another one.
fn is_told_apart(log: &ByteLog, proof: &InclusionProof<Sum, u8>) -> bool {
    let clone: Result<_, _> = proof.clone();
    all(&[
        clone.as_ref() == Ok(proof),
        proof.leaf() == Node(2),
        proof.log_length() == 3,
        *proof != log.prove_inclusion(Node(2), 4),
        *proof != log.prove_inclusion(Node(0), 3),
    ])
}

// The same of a consistency proof.
fn is_told_apart_too(log: &ByteLog, proof: &ConsistencyProof<Sum, u8>) -> bool {
    let clone: Result<_, _> = proof.clone();
    all(&[
        clone.as_ref() == Ok(proof),
        [proof.old_length(), proof.new_length()] == [2, 3],
        *proof != log.prove_consistency(3, 3),
        *proof != log.prove_consistency(2, 2),
    ])
}

// Whether the walk of an entry is that of the same one, and not of another one.
fn is_walk_apart(log: &ByteLog, walk: &InclusionProofWalk, alloc: Global) -> bool {
    let same = log.prove_inclusion(Node(2), 3).walk(alloc);
    let other = log.prove_inclusion(Node(0), 3).walk(alloc);
    all(&[
        same.as_ref() == Ok(walk),
        other.is_ok(),
        other.as_ref() != Ok(walk),
    ])
}

#[test]
fn proofs_compared(rt: HostRuntime) {
    let log = log_of(&rt, rt.alloc(), &[1, 2, 3]);
    assert!(rt; is_told_apart(&log, &log.prove_inclusion(Node(2), 3)));
    assert!(rt; is_told_apart_too(&log, &log.prove_consistency(2, 3)));
    let walk = log
        .prove_inclusion(Node(2), 3)
        .walk(rt.alloc())
        .expect(&rt, "memory");
    assert!(rt; is_walk_apart(&log, &walk, rt.alloc()));
}

// Whether a log of three entries answers as it should, by calls that do not allocate.
fn answers_alone<A: Allocator>(log: &ByteLog<A>) -> bool {
    all(&[
        log.has_hash(Node(1)),
        log.hash_for(Node(1)) == Some(hash_ending_in(4)),
        log.checkpoint().root() == hash_ending_in(8),
    ])
}

// Whether its proof of the second entry leads to its root.
fn proves_alone<A: Allocator>(log: &ByteLog<A>) -> bool {
    let proof = log.prove_inclusion(Node(2), 3);
    let root = hash_ending_in(8);
    all(&[
        proof.evaluate_value(log, &2).as_ref() == Ok(&root),
        proof.evaluate_hash(log, hash_ending_in(2)).as_ref() == Ok(&root),
    ])
}

// Whether its proof from two entries leads to both roots.
fn grows_alone<A: Allocator>(log: &ByteLog<A>) -> bool {
    let roots = log.prove_consistency(2, 3).evaluate(log);
    roots == Ok((hash_ending_in(4), log.checkpoint().root()))
}

// Whether the walk of the second entry of three has its parts.
fn is_walk_of_second<A: Allocator>(walk: &InclusionProofWalk<A>) -> bool {
    [
        walk.initial_walk_len(),
        walk.lower_broots(),
        walk.upper_broots(),
    ] == [1, 1, 0]
        && walk.nodes() == [Node(0), Node(4)].as_slice()
}

// Whether new logs are empty.
fn are_empty<A: Allocator + Copy>(alloc: A) -> bool {
    let log: ByteLog<A> = VecLog::default(alloc);
    let stack: StackLog<Sum, u8, A> = StackLog::default(alloc);
    log.length() == 0 && stack.is_empty()
}

#[test]
fn a_log_s_calls_without_memory(rt: HostRuntime) {
    let memory = Refusing::after(rt.alloc(), 99);
    let log = log_of(&rt, &memory, &[1, 2, 3]);
    let walk = log
        .prove_inclusion(Node(2), 3)
        .walk(&memory)
        .expect(&rt, "memory");
    memory.exhaust();
    assert!(rt; all(&[answers_alone(&log), proves_alone(&log), grows_alone(&log)]));
    assert!(rt; all(&[is_walk_of_second(&walk), are_empty(&memory)]));
    assert!(rt; all(&[memory.left() == 0, !memory.has_refused()]));
}

type Given<A> = SparseLogData<Sum, u8, A>;

// Whether proofs over these digests lead to the sums.
fn leads_to_sums<A: Allocator>(data: &Given<A>) -> bool {
    let consistency = data.prove_consistency(2, 3);
    let inclusion = data.prove_inclusion(Node(1), 3);
    all(&[
        consistency.evaluate(data) == Ok((hash_ending_in(5), hash_ending_in(13))),
        inclusion.evaluate_hash(data, hash_ending_in(9)) == Ok(hash_ending_in(17)),
    ])
}

#[test]
fn given_digests_without_memory(rt: HostRuntime) {
    let memory = Refusing::after(rt.alloc(), 99);
    let pairs = vec![in &memory; (Node(1), hash_ending_in(5)), (Node(4), hash_ending_in(7))];
    let data = Given::from(pairs.expect(&rt, "memory"));
    memory.exhaust();
    for (number, is_held) in [(1, true), (4, true), (0, false), (3, false), (5, false)] {
        assert!(rt; data.has_hash(Node(number)) == is_held);
    }
    assert!(rt; data.hash_for(Node(1)) == Some(hash_ending_in(5)));
    assert!(rt; leads_to_sums(&data));
    assert!(rt; all(&[memory.left() == 0, !memory.has_refused()]));
}

// Whether the tested call gives the proof of a text that leads to this root of five texts.
fn gives_proof(log: &TextLog, root: &Hash<Sha256>) -> bool {
    match log.proof_at(3, 5) {
        Ok(proof) => proof.evaluate_value(log, &"37").as_ref() == Ok(root),
        Err(_) => false,
    }
}

// Whether it gives the proof between four texts and nine that leads to these roots.
fn gives_growth(log: &TextLog, old: Hash<Sha256>, new: Hash<Sha256>) -> bool {
    match log.growth_between(4, 9) {
        Ok(proof) => proof.evaluate(log) == Ok((old, new)),
        Err(_) => false,
    }
}

// Calls that test what others require: what is in range is the proof, and what isn't is refused.
#[test]
fn ranges_tested(rt: HostRuntime) {
    let log = texts(&rt);
    assert!(rt; gives_proof(&log, &hash_of(&rt, ROOTS[4])));
    assert!(rt; gives_growth(&log, hash_of(&rt, ROOTS[3]), hash_of(&rt, ROOTS[8])));
    for (index, length) in [(5, 5), (0, 26)] {
        assert!(rt; log.proof_at(index, length).is_err());
    }
    for (old, new) in [(0, 9), (10, 9), (9, 26)] {
        assert!(rt; log.growth_between(old, new).is_err());
    }
}

// Whether an entry is refused for want of memory, and the log is left as it was.
fn is_left_empty<A: Allocator>(alloc: A) -> bool {
    let mut log: VecLog<Sum, &str, A> = VecLog::default(alloc);
    let refused = log.append(&"a") == Err(AppendError::Memory);
    refused && log.length() == 0
}

#[test]
fn an_entry_without_memory(rt: HostRuntime) {
    assert!(rt; is_left_empty(&Refusing::after(rt.alloc(), 0)));
}
