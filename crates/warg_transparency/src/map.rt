//! The verifiable map: what the Rust crate's module `map` has.

pub use warg_bundle::MapProofBundle;
pub use warg_bundle::map::ProofBundle;
pub use warg_map::{Map, MapError, Proof};
