//! Digests and bytes that several subjects speak of. Those of SHA-256 are computed by Python's hashlib.

use std::process::Abort;
use warg_crypto::{Hash, Sha256};

/// The digest of no bytes: the root of no entries.
pub(crate) const Z: &str = "e3b0c44298fc1c149afbf4c8996fb92427ae41e4649b934ca495991b7852b855";

/// The leaf digest of an entry of no bytes.
pub(crate) const L0: &str = "6e340b9cffb37a989ca544e6bb780a2c78901d3fb33738768511a30617afa01d";

/// The leaf digest of the entry `00`.
pub(crate) const L1: &str = "96a296d224f285c67bee93c30f8a309157f0daa35dc5b87e410b78630a09cfc7";

/// The leaf digest of the entry `10`.
pub(crate) const L2: &str = "0298d122906dcfc10892cb53a73992fc5b9f493ea4c9badb27b791b4127a7fe7";

/// The root of the entries of no bytes and `00`.
pub(crate) const U2: &str = "fac54203e7cc696cf0dfcb42c92a1d9dbaf70ad9e621f4bd8d98662f00e3c125";

/// The root of the entries of no bytes, `00` and `10`.
pub(crate) const U3: &str = "aeb6bcfe274b70a14fb067a5e5578264db0fa9b51af5e0ba159158f329e06e77";

static NAMES: [(&str, &str); 4] = [("L0", L0), ("L1", L1), ("L2", L2), ("U2", U2)];

// The digits that a word names, or the word.
fn digits_of(word: &str) -> &str {
    for (name, digits) in &NAMES {
        if word == *name {
            return digits;
        }
    }
    word
}

/// The bytes of hexadecimal words, one after the other; a digest goes by its name.
pub(crate) fn bytes_of(rt: &(impl AllocGlobal + Abort), words: &str) -> Vec<u8> {
    let mut bytes = Vec::new(rt.alloc());
    for word in words.split(' ') {
        let more = hex::decode(rt.alloc(), digits_of(word)).expect(rt, "digits");
        bytes
            .extend_from_slice(more.as_slice())
            .expect(rt, "memory");
    }
    bytes
}

/// The hash of these hexadecimal digits, or of this name.
pub(crate) fn hash_of(rt: &(impl AllocGlobal + Abort), digits: &str) -> Hash<Sha256> {
    Hash::try_from(bytes_of(rt, digits)).expect(rt, "32 bytes")
}

/// The hash of 31 zero bytes and this one.
pub(crate) fn hash_ending_in<D>(byte: u8) -> Hash<D> {
    let mut bytes = [0; 32];
    bytes[31] = byte;
    Hash::from_array(bytes)
}

/// Whether all of these are true. Each of them is looked at.
pub(crate) fn all(kept: &[bool]) -> bool {
    !kept.contains(&false)
}
