//! Why proofs make no bundle.

ghost use Rattle.std.specs.Prelude.{◌≡◌};

use std::alloc::{AllocError, AllocFailed};
use thiserror::Error;
use warg_log::{ConsistencyProofError, InclusionProofError};

/// Why proofs make no bundle.
#[derive(Debug, PartialEq, Eq, Drop, Error)]
pub enum BundleError {
    /// A consistency proof's old length is above its new one.
    #[error("{0}")]
    Consistency(ConsistencyProofError),
    /// An inclusion proof's node doesn't exist at its length.
    #[error("{0}")]
    Inclusion(InclusionProofError),
    /// A proof's length isn't the first proof's.
    #[error("Bundle must contain proofs for the same root")]
    DifferentRoots,
    /// There are no proofs.
    #[error("A bundle can not be made from no proofs")]
    NoProofs,
    /// The proofs' length is above `u32::MAX`.
    #[error("number does not fit in 32 bits")]
    TooLarge,
    /// A digest that a proof needs isn't in the data.
    #[error("Necessary hash not found")]
    HashNotFound,
    /// Memory was refused.
    #[error("out of memory")]
    Memory,
}

impl From<AllocError> for BundleError {
    ghost use Rattle.warg_bundle.specs.declared.log.error.BundleError.TheVariants.{Memory};

    ghost from_gives = { λ _ error. error ≡ Memory };

    fn from(_error: AllocError) -> Self {
        BundleError::Memory
    }
}

impl<T: Drop> From<AllocFailed<T>> for BundleError {
    ghost use Rattle.warg_bundle.specs.declared.log.error.BundleError.TheVariants.{Memory};

    ghost from_gives = { λ _ error. error ≡ Memory };

    fn from(_error: AllocFailed<T>) -> Self {
        BundleError::Memory
    }
}
