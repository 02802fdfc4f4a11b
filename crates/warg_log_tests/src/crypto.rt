//! Bytes, digests and hashes, against values computed by Python's hashlib.

ghost use Rattle.std.specs.Prelude.{◌≡◌, ◌↔◌, IsTrue};
ghost use Rattle.std.specs.Ordering.{nat_cmp};
ghost use Rattle.std.specs.Cmp.Lexicographic.{slice_cmp};

use crate::digests;
use crate::digests::{L0, L1, L2, U2, U3, Z, all, hash_ending_in};
use refusing::Refusing;
use std::alloc::Allocator;
use std::cmp::Ordering;
use std::hash::{DefaultHasher, Hasher};
use std::process::Abort;
use warg_crypto::weak::{Flat, Own32, Sum};
use warg_crypto::{
    Framed, Hash, HashLength, Sha256, Side, VisitBytes, bytes_of, empty_tree_hash, hash_branch,
    hash_empty, hash_leaf, have_same_bytes,
};

// Equality and order as a caller has them: by the bytes.
fn compared<D>(a: &Hash<D>, b: &Hash<D>) -> (bool, Ordering)
    ensures equal { IsTrue result.0 ↔ (a.now ≡ b.now) }
    ensures order { result.1 ≡ slice_cmp nat_cmp a.now b.now }
{
    (a == b, a.cmp(b))
}

fn hashed<D>(hash: &Hash<D>) -> u64 {
    let mut hasher = DefaultHasher::new();
    std::hash::Hash::hash(hash, &mut hasher);
    hasher.finish()
}

// Whether a hash is spelled by these digits.
fn is_spelled<D>(hash: &Hash<D>, digits: &str) -> bool {
    let mut bytes = [0; 32];
    hex::decode_to_slice(digits, &mut bytes).is_ok() && hash.bytes() == bytes.as_slice()
}

// The hash of bytes in three pieces, each given by its digits.
fn hash_of_pieces(rt: &(impl AllocGlobal + Abort), pieces: &[&str; 3]) -> Hash<Sha256> {
    let pair = (
        digests::bytes_of(rt, pieces[1]),
        digests::bytes_of(rt, pieces[2]),
    );
    Hash::of(&(digests::bytes_of(rt, pieces[0]), pair))
}

static HASHES_OF_PIECES: [([&str; 3], &str); 6] = [
    (["", "", ""], Z),
    (["00", "", ""], L0),
    (["00", "00", ""], L1),
    (["00", "10", ""], L2),
    (["01", L0, L1], U2),
    (["01", U2, L2], U3),
];

#[test]
fn sha256_of_bytes_in_pieces(rt: HostRuntime) {
    for (pieces, want) in &HASHES_OF_PIECES {
        assert!(rt; is_spelled(&hash_of_pieces(&rt, pieces), want));
    }
}

type Pair = (&'static str, &'static str);

static PAIRS: [(Pair, Pair, bool); 4] = [
    (("foo1", "0"), ("foo", "10"), true),
    (("foo", ""), ("foo1", ""), false),
    (("foo1", ""), ("foo", ""), false),
    (("foo", ""), ("bar", ""), false),
];

#[test]
fn values_are_compared_by_their_bytes(rt: HostRuntime) {
    for (first, second, are_same) in &PAIRS {
        assert!(rt; have_same_bytes(first, second) == Ok(*are_same));
    }
}

#[test]
fn leaves_and_branches(rt: HostRuntime) {
    let one = hash_leaf::<Sha256, &str>(&"one");
    let two = hash_leaf::<Sha256, &str>(&"two");
    let leaf = "d0d7360ab79f58ab1e1e3fe64ad77e2ea0bc07e36b5f46ed2223edd9298df9e9";
    let root = "4f55f619d9215235778b2b9f17d6f4915b16171214d152381293669764de722e";
    assert!(rt;
        all(&[
            is_spelled(&hash_empty::<Sha256>(), Z),
            is_spelled(&one, leaf)
        ])
    );
    assert!(rt; is_spelled(&hash_branch(&one, &two), root));
    assert!(rt; is_spelled(&Side::Left.branch(&one, &two), root));
    assert!(rt; is_spelled(&Side::Left.opposite().branch(&two, &one), root));
}

const ABC: &str = "ba7816bf8f01cfea414140de5dae2223b00361a396177a9cb410ff61f20015ad";

// Whether a value's bytes are `abc`.
fn is_abc<V: VisitBytes>(value: &V) -> bool {
    is_spelled(&Hash::<Sha256>::of(value), ABC)
}

#[test]
fn values_as_bytes(rt: HostRuntime) {
    assert!(rt; all(&[is_abc(b"abc"), is_abc(&b"abc".as_slice()), is_abc(&"abc")]));
    assert!(rt; all(&[is_abc(&("a", (b'b', (), "c"))), is_abc(&("a", b'b', "c"))]));
    let twice = "4f8b42c22dd3729b519ba6f68d2da7cc5b2d606d05daed5ad5128cc03e6c6358";
    assert!(rt; is_spelled(&Hash::<Sha256>::of(&Hash::<Sha256>::of(b"abc")), twice));
}

#[test]
fn lists_and_texts_as_bytes(rt: HostRuntime) {
    assert!(rt; is_abc(&b"abc".to_vec(rt.alloc()).expect(&rt, "memory")));
    assert!(rt; is_abc(&String::from_str(rt.alloc(), "abc").expect(&rt, "memory")));
}

#[test]
fn parts_told_apart(rt: HostRuntime) {
    let one = Hash::<Sha256>::of(&Framed(&[b"foo1", b"0"]));
    let want = "81c85b0d7696692be40b49d9fa01760d053d159757493c511e665eb134dfe306";
    assert!(rt; is_spelled(&one, want));
    let other = Hash::<Sha256>::of(&Framed(&[b"foo", b"10"]));
    let want = "d7fef63f36544036f6d95e5acbff8bbdcf030db129bf2345cdf931aeacc173b2";
    assert!(rt; is_spelled(&other, want));
}

#[test]
fn numbers_as_bytes(rt: HostRuntime) {
    let hash = Hash::<Sha256>::of(&(7u32, (1u64 << 40) + 5));
    let want = "c3b5e2f31249034a5de06ac4fe0a8fa1168a17712c6f682326e8ec770fb96a90";
    assert!(rt; is_spelled(&hash, want));
    let array: &[u8; 32] = hash.as_ref();
    assert!(rt; *array == <[u8; 32]>::from(hash.copied()));
}

// Whether bytes make a hash of them exactly if they are 32.
fn is_hash_of_32(bytes: Vec<u8>) -> bool {
    let length = bytes.len();
    match Hash::<Sha256>::try_from(bytes) {
        Ok(hash) => length == 32 && hash.bytes() == [7; 32].as_slice(),
        Err(HashLength) => length != 32,
    }
}

#[test]
fn hashes_of_32_bytes(rt: HostRuntime) {
    for length in 0..40usize {
        let bytes = vec![in rt.alloc(); 7u8; length].expect(&rt, "memory");
        assert!(rt; is_hash_of_32(bytes));
    }
    let hash = hash_ending_in::<Sum>(5);
    assert!(rt; [hash.len(), hash.bit_len()] == [32, 256]);
}

#[test]
fn hashes_compared(rt: HostRuntime) {
    let (low, high) = (hash_ending_in::<Sum>(5), hash_ending_in::<Sum>(7));
    assert!(rt; compared(&low, &high) == (false, Ordering::Less));
    assert!(rt; compared(&high, &low.copied()) == (false, Ordering::Greater));
    let clone = low.clone().expect(&rt, "a hash");
    assert!(rt; compared(&low, &clone) == (true, Ordering::Equal));
    assert!(rt; low < high && hashed(&low) == hashed(&low.copied()));
}

static EMPTY_TREES: [(usize, &str); 4] = [
    (0, L0),
    (
        1,
        "fe43d66afa4a9a5c4f9c9da89f4ffb52635c8f342e7ffb731d68e36c5982072a",
    ),
    (
        255,
        "b72987f56f03521324099543074b9ef941c521dc0f02900ac76ac16025745aed",
    ),
    (
        256,
        "c6689f10812a0980976d9533d83875282166159567ec35155716c1413af53d6a",
    ),
];

#[test]
fn empty_trees(rt: HostRuntime) {
    for (height, want) in &EMPTY_TREES {
        // Out of a table, and by hashing: no input here has 32 bytes.
        assert!(rt; is_spelled(&empty_tree_hash::<Sha256>(*height), want));
        assert!(rt; is_spelled(&empty_tree_hash::<Own32>(*height), want));
    }
}

// The last bytes of the empty trees of the first heights by sums.
static EMPTY_SUMS: [u8; 11] = [0, 1, 3, 7, 15, 31, 63, 127, 255, 255, 255];

#[test]
fn empty_trees_of_weak_digests(rt: HostRuntime) {
    for (height, sum) in EMPTY_SUMS.iter().enumerate() {
        assert!(rt; empty_tree_hash::<Sum>(height) == hash_ending_in(*sum));
    }
    assert!(rt; empty_tree_hash::<Sum>(256) == hash_ending_in(255));
    assert!(rt; empty_tree_hash::<Flat>(9) == hash_ending_in(0));
}

// Pieces for which a list has to grow twice.
const PIECES: ([u8; 2], &str) = (*b"ab", "and a longer piece, for which the list grows again");

// Whether the bytes of the pieces are listed whole.
fn are_listed<A: Allocator>(alloc: A) -> bool {
    match bytes_of(alloc, &PIECES) {
        Ok(bytes) => {
            bytes.as_slice() == b"aband a longer piece, for which the list grows again".as_slice()
        }
        Err(_) => false,
    }
}

#[test]
fn bytes_with_each_growth_refused(rt: HostRuntime) {
    for (growths, listed) in [(0, false), (1, false), (9, true)] {
        let memory = Refusing::after(rt.alloc(), growths);
        assert!(rt; are_listed(&memory) == listed && memory.has_refused() != listed);
        memory.grant(9);
        assert!(rt; are_listed(&memory));
    }
}

// Whether a list is hashed, becomes a hash, and a hash is cloned.
fn are_hashed<A: Allocator>(list: Vec<u8, A>) -> bool {
    let hash = Hash::<Sha256>::of(&list);
    let clone: Result<_, _> = hash.clone();
    clone == Ok(hash) && Hash::<Sha256>::try_from(list).is_ok()
}

#[test]
fn hashes_without_memory(rt: HostRuntime) {
    let memory = Refusing::after(rt.alloc(), 1);
    assert!(rt; are_hashed(vec![in &memory; 7u8; 32].expect(&rt, "one growth")));
    assert!(rt; memory.left() == 0 && !memory.has_refused());
}
