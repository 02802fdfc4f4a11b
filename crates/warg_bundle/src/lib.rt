//! Bundles: proofs of one log or one map as one message, with the digests that a log's proofs need.
//!
//! Whoever serves a log or a map calls `inclusion_bytes`, `growth_bytes` or `key_bytes` for a proof as bytes. A log's
//! bundle is in `log`, a map's in `map`; what their bytes are read as stands in `specs/LogBundles` and `MapBundles`.
#![tactic(auto)]

pub mod laws;
pub mod log;
pub mod map;

pub use log::{
    BundleError, ProofBundle as LogProofBundle, ServeError, growth_bytes, inclusion_bytes,
};
pub use map::{ProofBundle as MapProofBundle, key_bytes};
