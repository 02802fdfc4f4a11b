//! The messages of a transparency log's proofs and images, and their bytes.
//!
//! The bytes are the wire encoding of proto3. A message is its fields, one after the other; a field is a tag
//! (its number and its wire type, as a varint) and a payload.
//!
//! | message | field | number | type |
//! |---|---|---|---|
//! | [`HashEntry`] | `index` | 1 | uint32 |
//! | | `hash` | 2 | bytes |
//! | [`LogProofBundle`] | `log_length` | 1 | uint32 |
//! | | `consistent_lengths` | 2 | repeated uint32 |
//! | | `included_indices` | 3 | repeated uint32 |
//! | | `hashes` | 4 | repeated `HashEntry` |
//! | [`OptionalHash`] | `hash` | 1 | bytes, with presence |
//! | [`MapInclusionProof`] | `hashes` | 1 | repeated `OptionalHash` |
//! | [`MapProofBundle`] | `proofs` | 1 | repeated `MapInclusionProof` |
//! | | `absences` | 2 | repeated `MapInclusionProof` |
//! | [`StackLog`] | `length` | 1 | uint32 |
//! | | `stack` | 2 | repeated `HashEntry` |
//! | [`VecLog`] | `length` | 1 | uint32 |
//! | | `tree` | 2 | repeated bytes |
//!
//! Reading takes what proto3 takes: varints that aren't shortest, packed and unpacked numbers mixed, single
//! fields that come again (the last one counts), unknown fields (skipped). It refuses what proto3 would read
//! as something else than was written: groups, and a uint32 above 2^32 - 1. Each refusal is the first fault
//! from the left, by its name ([`WireError`]).
//!
//! Writing has one form: fields by ascending number, shortest varints, numbers packed; no field for a number
//! that is 0, for bytes that are empty and have no presence, and for an empty list.
#![tactic(auto)]

mod digest_bytes;
mod error;
mod field;
pub mod laws;
mod log_proof_bundle;
mod map_inclusion_proof;
mod map_proof_bundle;
mod message;
mod optional_hash;
mod stack_log;
mod value_error;
mod vec_log;
mod writer;

pub use digest_bytes::DigestBytes;
pub use error::WireError;
pub use log_proof_bundle::{HashEntry, LogProofBundle};
pub use map_inclusion_proof::MapInclusionProof;
pub use map_proof_bundle::MapProofBundle;
pub use optional_hash::OptionalHash;
pub use stack_log::StackLog;
pub use value_error::{DecodeError, EncodeError};
pub use vec_log::VecLog;
