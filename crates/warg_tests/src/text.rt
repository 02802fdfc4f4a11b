//! Hashes as text, and what is seen of hashes, checkpoints, leaves and bundles.

use std::cmp::Ordering;
use warg_bundle::LogProofBundle;
use warg_crypto::laws::{equal_by_bytes, order_by_bytes};
use warg_crypto::{Hash, Sha256};
use warg_log::laws::{equal_by_root_and_length, order_by_root_then_length};
use warg_log::{Checkpoint, GREATEST_LENGTH, Node};

// SHA-256 of the byte 00.
const DIGITS: &str = "6e340b9cffb37a989ca544e6bb780a2c78901d3fb33738768511a30617afa01d";

const UPPER: &str = "6E340B9CFFB37A989CA544E6BB780A2C78901D3FB33738768511A30617AFA01D";

#[test]
fn hashes_are_shown_as_digits(rt: HostRuntime) {
    let text = Hash::<Sha256>::of(&0u8)
        .to_string(rt.alloc())
        .expect(&rt, "memory");
    assert!(rt; text.as_str() == DIGITS);
}

// Texts, and whether each is the hash: those with a digit too few, and with a letter that is none, aren't.
static TEXTS: [(&str, bool); 6] = [
    (DIGITS, true),
    (UPPER, true),
    ("", false),
    ("6e", false),
    (
        "6e340b9cffb37a989ca544e6bb780a2c78901d3fb33738768511a30617afa01",
        false,
    ),
    (
        "ge340b9cffb37a989ca544e6bb780a2c78901d3fb33738768511a30617afa01d",
        false,
    ),
];

#[test]
fn digits_of_either_case_are_read(rt: HostRuntime) {
    for (text, is_hash) in &TEXTS {
        let hash = text.parse::<Hash<Sha256>>().ok();
        assert!(rt; hash.is_some() == *is_hash);
        assert!(rt; hash.is_none() || hash == Some(Hash::of(&0u8)));
    }
}

#[test]
fn slices_of_32_bytes_are_hashes(rt: HostRuntime) {
    let bytes = [7u8; 33];
    let hash = Hash::<Sha256>::try_from(&bytes[..32]).ok();
    assert!(rt; hash == Some(Hash::from_array([7; 32])));
    let longer = Hash::<Sha256>::try_from(bytes.as_slice()).ok();
    assert!(rt; longer.is_none());
}

#[test]
fn orders_of_hashes_and_checkpoints(rt: HostRuntime) {
    let low: Hash<Sha256> = Hash::from_array([1; 32]);
    let high: Hash<Sha256> = Hash::from_array([2; 32]);
    assert!(rt; order_by_bytes(&low, &high) == Ordering::Less);
    assert!(rt; equal_by_bytes(&low, &low.copied()) && !equal_by_bytes(&low, &high));
    let short = Checkpoint::new(low.copied(), 1);
    let long = Checkpoint::new(low, 2);
    let other = Checkpoint::new(high, 0);
    assert!(rt; order_by_root_then_length(&short, &long) == Ordering::Less);
    assert!(rt; order_by_root_then_length(&other, &long) == Ordering::Greater);
    assert!(rt; equal_by_root_and_length(&long, &long) && !equal_by_root_and_length(&short, &long));
}

#[test]
fn leaves_by_their_indices(rt: HostRuntime) {
    assert!(rt; Node::leaf(3) == Node(6) && GREATEST_LENGTH == 9_223_372_036_854_775_808);
    for (number, index) in [(0, Some(0)), (6, Some(3)), (5, None), (usize::MAX, None)] {
        assert!(rt; Node(number).leaf_index() == index, "{number}");
    }
}

#[test]
fn counts_of_a_bundle_s_proofs(rt: HostRuntime) {
    let bytes = [8, 3, 18, 1, 2, 26, 2, 0, 4];
    let bundle = LogProofBundle::<Sha256, ()>::decode(rt.alloc(), &bytes).expect(&rt, "a bundle");
    assert!(rt; bundle.consistency_proof_count() == 1 && bundle.inclusion_proof_count() == 2);
}
