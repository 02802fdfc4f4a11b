//! What the texts of faults say.

use std::alloc::AllocError;
use std::fmt::Display;
use std::process::Abort;
use warg_bundle::BundleError;
use warg_check::CheckError;
use warg_log::{ConsistencyProofError, InclusionProofError};
use warg_map::MapError;
use warg_program::RunError;
use warg_protobuf::{DecodeError, EncodeError, WireError};

// Asserts that each fault has its text.
fn assert_texts<E: Display>(rt: &(impl AllocGlobal + Abort), rows: &[(E, &str)]) {
    for (fault, text) in rows {
        assert!(rt; fault.to_string(rt.alloc()).expect(rt, "memory").as_str() == *text);
    }
}

static INCLUSION_FAULTS: [(InclusionProofError, &str); 3] = [
    (
        InclusionProofError::LeafTooNew,
        "leaf newer than when it should be included",
    ),
    (
        InclusionProofError::HashNotKnown,
        "required hash for proof is not available",
    ),
    (InclusionProofError::Memory, "out of memory"),
];

static CONSISTENCY_FAULTS: [(ConsistencyProofError, &str); 5] = [
    (
        ConsistencyProofError::PointsOutOfOrder,
        "tries to prove later value comes before earlier",
    ),
    (
        ConsistencyProofError::HashNotKnown,
        "a hash needed for evaluation was not available",
    ),
    (
        ConsistencyProofError::DivergingRoots,
        "constituent inclusion proofs diverge produce different roots",
    ),
    (ConsistencyProofError::OldLengthZero, "old length is zero"),
    (ConsistencyProofError::Memory, "out of memory"),
];

static BUNDLE_FAULTS: [(BundleError, &str); 7] = [
    (
        BundleError::Consistency(ConsistencyProofError::PointsOutOfOrder),
        "tries to prove later value comes before earlier",
    ),
    (
        BundleError::Inclusion(InclusionProofError::LeafTooNew),
        "leaf newer than when it should be included",
    ),
    (
        BundleError::DifferentRoots,
        "Bundle must contain proofs for the same root",
    ),
    (
        BundleError::NoProofs,
        "A bundle can not be made from no proofs",
    ),
    (BundleError::TooLarge, "number does not fit in 32 bits"),
    (BundleError::HashNotFound, "Necessary hash not found"),
    (BundleError::Memory, "out of memory"),
];

static ENCODE_FAULTS: [(EncodeError, &str); 2] = [
    (EncodeError::TooLarge, "number does not fit in 32 bits"),
    (EncodeError::Memory, "out of memory"),
];

static DECODE_FAULTS: [(DecodeError, &str); 7] = [
    (DecodeError::Wire(WireError::Truncated), "truncated"),
    (DecodeError::HashLength, "hash is not 32 bytes"),
    (DecodeError::NotAscending, "hash indices are not ascending"),
    (DecodeError::NotALog, "not the image of a log"),
    (
        DecodeError::NotAStack,
        "not the balanced roots of the length",
    ),
    (DecodeError::TooManyPeers, "more than 256 peers"),
    (DecodeError::Memory, "out of memory"),
];

static WIRE_FAULTS: [(WireError, &str); 8] = [
    (WireError::Truncated, "truncated"),
    (WireError::BadVarint, "bad varint"),
    (WireError::BadTag, "bad tag"),
    (WireError::Group, "group"),
    (WireError::BadWireType, "bad wire type"),
    (WireError::WrongWireType, "wrong wire type"),
    (WireError::NumberTooLarge, "number too large"),
    (WireError::Memory, "out of memory"),
];

static CHECK_FAULTS: [(CheckError, &str); 3] = [
    (
        CheckError::Decode(DecodeError::HashLength),
        "hash is not 32 bytes",
    ),
    (CheckError::NoSuchProof, "no such proof"),
    (CheckError::Memory, "out of memory"),
];

static MAP_FAULTS: [(MapError, &str); 2] = [
    (MapError::Full, "map is full"),
    (MapError::Memory, "out of memory"),
];

static RUN_FAULTS: [(RunError, &str); 4] = [
    (RunError::Read, "read failed"),
    (RunError::Write, "write failed"),
    (RunError::Memory, "out of memory"),
    (RunError::Full, "log or map is full"),
];

#[test]
fn of_proofs_and_bundles(rt: HostRuntime) {
    assert_texts(&rt, &INCLUSION_FAULTS);
    assert_texts(&rt, &CONSISTENCY_FAULTS);
    let fault = ConsistencyProofError::from(InclusionProofError::LeafTooNew);
    assert_texts(&rt, &[(fault, "constituent inclusion proof failed")]);
    assert_texts(&rt, &BUNDLE_FAULTS);
    assert_texts(&rt, &CHECK_FAULTS);
}

#[test]
fn of_messages(rt: HostRuntime) {
    assert_texts(&rt, &ENCODE_FAULTS);
    assert_texts(&rt, &DECODE_FAULTS);
    assert_texts(&rt, &WIRE_FAULTS);
    assert_texts(&rt, &[(WireError::from(AllocError), "out of memory")]);
}

#[test]
fn of_maps_and_runs(rt: HostRuntime) {
    assert_texts(&rt, &MAP_FAULTS);
    assert_texts(&rt, &RUN_FAULTS);
}
