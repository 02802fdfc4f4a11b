//! Messages: what their fields hold, and how they are compared.

ghost use Rattle.std.specs.Prelude.{Ok};
ghost use Rattle.warg_protobuf.specs.Reading.{Gives};
ghost use Rattle.warg_protobuf.specs.LogProofBundle.{log_view};

use crate::digests::{L0, all, bytes_of};
use refusing::Refusing;
use std::alloc::Allocator;
use warg_protobuf::{
    DigestBytes, HashEntry, LogProofBundle, MapInclusionProof, MapProofBundle, StackLog, VecLog,
    WireError,
};

// Decoding what was encoded gives the same message, by the contracts of the two alone.
fn written_and_read<A: Allocator + Copy>(
    alloc: A,
    bundle: &LogProofBundle<A>,
) -> Result<LogProofBundle<A>, WireError>
    ensures { Gives log_view result (Ok (log_view bundle.now)) }
{
    let bytes = bundle.encode(alloc)?;
    LogProofBundle::decode(alloc, &bytes)
}

// Whether an entry has this number and the digest of one byte.
fn is_entry(entry: Option<&HashEntry>, index: u32) -> bool {
    let mut digest = [0; 32];
    match entry {
        Some(entry) => {
            hex::decode_to_slice(L0, &mut digest).is_ok()
                && entry.index == index
                && entry.hash.as_slice() == digest.as_slice()
        }
        None => false,
    }
}

fn has_fields(bundle: &LogProofBundle) -> bool {
    all(&[
        bundle.log_length == 300,
        bundle.consistent_lengths.as_slice() == [1, 2].as_slice(),
        bundle.included_indices.as_slice() == [5, 300].as_slice(),
        is_entry(bundle.hashes.first(), 300),
        bundle.hashes.len() == 1,
    ])
}

#[test]
fn fields_of_a_log_bundle(rt: HostRuntime) {
    let bytes = bytes_of(&rt, "08ac02 12020102 1a0305ac02 2225 08ac02 1220 L0");
    let bundle = LogProofBundle::decode(rt.alloc(), &bytes).expect(&rt, "a bundle");
    assert!(rt; has_fields(&bundle));
    let same = written_and_read(rt.alloc(), &bundle).expect(&rt, "the bundle");
    let other = LogProofBundle::decode(rt.alloc(), &[8, 5]).expect(&rt, "another bundle");
    assert!(rt; bundle == same && bundle != other);
}

// How many peers a proof has, and how many of them are there.
fn counted(proof: Option<&MapInclusionProof>) -> Option<(usize, usize)> {
    let proof = proof?;
    let mut held = 0usize;
    for peer in &proof.hashes {
        held = held.saturating_add(peer.hash.is_some() as usize);
    }
    Some((proof.hashes.len(), held))
}

fn has_peers(bundle: &MapProofBundle) -> bool {
    all(&[
        [bundle.proofs.len(), bundle.absences.len()] == [2, 1],
        counted(bundle.proofs.first()) == Some((2, 1)),
        counted(bundle.proofs.last()) == Some((0, 0)),
        counted(bundle.absences.first()) == Some((1, 1)),
    ])
}

#[test]
fn fields_of_a_map_bundle(rt: HostRuntime) {
    let bytes = bytes_of(&rt, "0a26 0a00 0a22 0a20 L0 0a00 1204 0a020a00");
    let bundle = MapProofBundle::decode(rt.alloc(), &bytes).expect(&rt, "a bundle");
    assert!(rt; has_peers(&bundle));
    let same = MapProofBundle::decode(rt.alloc(), &bytes).expect(&rt, "the bundle");
    let other = MapProofBundle::decode(rt.alloc(), &[10, 0]).expect(&rt, "another bundle");
    assert!(rt; bundle == same && bundle != other);
}

#[test]
fn fields_of_logs(rt: HostRuntime) {
    let bytes = bytes_of(&rt, "0805 1224 0807 1220 L0 1200");
    let stack = StackLog::decode(rt.alloc(), &bytes).expect(&rt, "a log");
    assert!(rt; stack.length == 5 && stack.stack.len() == 2);
    assert!(rt; is_entry(stack.stack.first(), 7));
    assert!(rt; StackLog::decode(rt.alloc(), &bytes) == Ok(stack));
    let bytes = bytes_of(&rt, "0803 12020102 1200");
    let log = VecLog::decode(rt.alloc(), &bytes).expect(&rt, "a log");
    assert!(rt; log.length == 3 && log.tree.len() == 2);
    let first = log.tree.first().expect(&rt, "a digest");
    assert!(rt; first.as_slice() == [1, 2].as_slice());
    assert!(rt; VecLog::decode(rt.alloc(), &bytes) == Ok(log));
}

// Whether 32 sevens are the digest of themselves, and of no other bytes.
fn are_digest<A: Allocator>(alloc: A) -> bool {
    match DigestBytes::from_slice(alloc, &[7; 32]) {
        Ok(digest) => all(&[
            digest == DigestBytes::from_array([7; 32]),
            digest != DigestBytes::from_array([8; 32]),
        ]),
        Err(_) => false,
    }
}

#[test]
fn digests_of_32_bytes_take_no_memory(rt: HostRuntime) {
    let none = Refusing::after(rt.alloc(), 0);
    assert!(rt; are_digest(&none));
    assert!(rt; DigestBytes::from_slice(&none, &[7; 31]).is_err());
}

// Whether a length that is announced is read.
fn is_announced<A: Allocator + Copy>(alloc: A) -> bool {
    match StackLog::decode(alloc, &[0x08, 0xff, 0xff, 0xff, 0xff, 0x0f]) {
        Ok(log) => log.length == u32::MAX,
        Err(_) => false,
    }
}

// Whether digests that are announced lack.
fn are_truncated<A: Allocator + Copy>(alloc: A) -> bool {
    let cut = VecLog::decode(alloc, &[0x12, 0xff, 0xff, 0xff, 0xff, 0x07, 0]);
    cut == Err(WireError::Truncated)
}

#[test]
fn nothing_is_reserved_by_an_announced_length(rt: HostRuntime) {
    let none = Refusing::after(rt.alloc(), 0);
    assert!(rt; is_announced(&none) && are_truncated(&none));
    assert!(rt; !none.has_refused());
}
