//! Witnesses: values in other pieces, a log's own proofs at all lengths, and counts that are looked at first.

use refusing::Refusing;
use std::alloc::Allocator;
use std::process::Abort;
use warg_crypto::weak::{Flat, Sum};
use warg_crypto::{Hash, Sha256, SupportedDigest};
use warg_log::{GREATEST_LENGTH, LogData, Node, SparseLogData, VecLog, push_all};
use warg_witness::{Finding, witness_consistency, witness_hash, witness_value};

fn shows<D: SupportedDigest, A: Allocator>(
    finding: &Finding<D, A>,
    first: &[u8],
    second: &[u8],
) -> bool {
    match finding {
        Finding::Collision(collision) => collision.first() == first && collision.second() == second,
        _ => false,
    }
}

type Pair = (&'static str, &'static str);

type Pieces = VecLog<Flat, Pair>;

static ENTRIES: [Pair; 1] = [("ab", "cd")];

static SAME: [Pair; 4] = [("ab", "cd"), ("", "abcd"), ("abcd", ""), ("abc", "d")];

// Values are compared by their bytes, in whichever pieces these come: under a digest that is always the same
// every claim is met, and only the same bytes make it true.
#[test]
fn the_same_value_in_other_pieces(rt: HostRuntime) {
    for value in &SAME {
        assert!(rt; found(&rt, *value) == Finding::Holds);
    }
}

static OTHERS: [(Pair, &[u8]); 4] = [
    (("ab", "c"), b"\0abc"),
    (("abc", "de"), b"\0abcde"),
    (("a", "bce"), b"\0abce"),
    (("", ""), b"\0"),
];

#[test]
fn other_values_in_pieces(rt: HostRuntime) {
    for (value, bytes) in &OTHERS {
        assert!(rt; shows(&found(&rt, *value), bytes, b"\0abcd"));
    }
}

// What the log's own proof shows of a value.
fn found(rt: &(impl AllocGlobal + Abort), value: Pair) -> Finding<Flat> {
    let mut log = Pieces::default(rt.alloc());
    push_all(&mut log, &ENTRIES).expect(rt, "memory");
    let proof = log.prove_inclusion(Node(0), 1);
    witness_value(rt.alloc(), &proof, &log, &value, &ENTRIES).expect(rt, "memory")
}

// Findings are equal exactly if they are of one kind, with the same byte strings.
#[test]
fn equal_findings(rt: HostRuntime) {
    let collision = found(&rt, ("ab", "c"));
    assert!(rt; collision == found(&rt, ("a", "bc")));
    assert!(rt; collision != found(&rt, ("ab", "d")));
    assert!(rt; collision != found(&rt, ("ab", "cd")));
    assert!(rt; found(&rt, ("ab", "cd")) == found(&rt, ("abcd", "")));
}

// The entries of an honest log, in which some are the same.
static TEXTS: [&str; 25] = [
    "93", "67", "30", "37", "23", "75", "57", "89", "76", "42", "9", "14", "40", "59", "26", "66",
    "77", "38", "47", "34", "8", "67", "", "93", "103",
];

type TextLog = VecLog<Sha256, &'static str>;

fn texts(rt: &(impl AllocGlobal + Abort)) -> TextLog {
    let mut log = VecLog::default(rt.alloc());
    push_all(&mut log, &TEXTS).expect(rt, "memory");
    log
}

// Whether a log's own proof of an entry of its first ones shows that it is there.
fn holds_entry(
    rt: &(impl AllocGlobal + Abort),
    log: &TextLog,
    place: usize,
    length: usize,
) -> bool {
    if place >= length || length > 25 {
        return false;
    }
    let proof = log.prove_inclusion(Node(2 * place), length);
    let finding = witness_value(rt.alloc(), &proof, log, &TEXTS[place], &TEXTS[..length]);
    matches!(finding, Ok(Finding::Holds))
}

// Whether its own proof between two lengths shows that it grew so.
fn holds_growth(rt: &(impl AllocGlobal + Abort), log: &TextLog, old: usize, new: usize) -> bool {
    if old > new || new > 25 {
        return false;
    }
    let proof = log.prove_consistency(old, new);
    let finding = witness_consistency(rt.alloc(), &proof, log, &TEXTS[..old], &TEXTS[..new]);
    matches!(finding, Ok(Finding::Holds))
}

#[test]
fn a_log_s_own_proofs_hold(rt: HostRuntime) {
    let log = texts(&rt);
    for length in 1..26 {
        for place in 0..length {
            assert!(rt; holds_entry(&rt, &log, place, length));
            assert!(rt; holds_growth(&rt, &log, place + 1, length));
        }
    }
}

type Numbers = VecLog<Sum, [u8; 4]>;

// The first million numbers.
fn million(rt: &(impl AllocGlobal + Abort)) -> Vec<[u8; 4]> {
    let mut entries = Vec::new(rt.alloc());
    for number in 0..1_000_000u32 {
        entries.push(number.to_be_bytes()).expect(rt, "memory");
    }
    entries
}

// What a witness finds of the claim that number 700,000 is this value.
fn judged(
    rt: &(impl AllocGlobal + Abort),
    entries: &[[u8; 4]],
    log: &Numbers,
    value: [u8; 4],
) -> Finding<Sum> {
    let proof = log.prove_inclusion(Node(1_400_000), log.length());
    witness_value(rt.alloc(), &proof, log, &value, entries).expect(rt, "memory")
}

// The way down is as deep as the tree is high, and each entry is hashed once.
#[test]
fn a_witness_over_a_million_entries(rt: HostRuntime) {
    let entries = million(&rt);
    let entries = entries.as_slice();
    let mut log = Numbers::default(rt.alloc());
    push_all(&mut log, entries).expect(&rt, "memory");
    assert!(rt; judged(&rt, entries, &log, 700_000u32.to_be_bytes()) == Finding::Holds);
    assert!(rt; judged(&rt, entries, &log, [0; 4]) == Finding::NotMet);
}

type Nothing = SparseLogData<Sum, u8>;

// Whether claims of a value and of a hash are not met, without memory.
fn are_not_met<A: Allocator + Copy>(none: A, data: &Nothing) -> bool {
    let proof = data.prove_inclusion(Node(0), 2);
    let value = witness_value(none, &proof, data, &1, &[1]);
    let hash = witness_hash(none, &proof, data, Hash::from_array([1; 32]), &[1]);
    matches!(value, Ok(Finding::NotMet)) && matches!(hash, Ok(Finding::NotMet))
}

// Other counts of entries are looked at before allocating.
#[test]
fn other_counts_without_memory(rt: HostRuntime) {
    let none = Refusing::after(rt.alloc(), 0);
    let data = Nothing::from(Vec::new(rt.alloc()));
    assert!(rt; are_not_met(&none, &data));
    for (old, new) in [(1, 2), (2, 3), (GREATEST_LENGTH, GREATEST_LENGTH)] {
        let proof = data.prove_consistency(old, new);
        let finding = witness_consistency(&none, &proof, &data, &[1], &[1, 2, 3]);
        assert!(rt; matches!(finding, Ok(Finding::NotMet)));
    }
    assert!(rt; !none.has_refused());
}
