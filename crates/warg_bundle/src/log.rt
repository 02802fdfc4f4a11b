//! Bundles of a log's proofs.

mod error;
mod needed;
mod proof_bundle;
mod serve;

pub use error::BundleError;
pub use proof_bundle::ProofBundle;
pub use serve::{ServeError, growth_bytes, inclusion_bytes};
