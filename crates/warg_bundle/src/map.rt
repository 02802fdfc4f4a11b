//! Bundles of a map's proofs.

mod proof_bundle;
mod serve;

pub use proof_bundle::ProofBundle;
pub use serve::key_bytes;
