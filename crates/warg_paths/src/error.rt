//! Why there is no path, and why bytes are no path.

ghost use Rattle.std.specs.Prelude.{◌≡◌};

use std::alloc::{AllocError, AllocFailed};
use thiserror::Error;
use warg_crypto::HashLength;

/// Why data gives no path.
#[derive(Debug, PartialEq, Eq, Drop, Error)]
pub enum PathError {
    /// The leaf isn't below the length, or the old length isn't between 1 and the new one.
    #[error("no such place at this length")]
    OutOfRange,
    /// A digest that the path needs isn't in the data.
    #[error("necessary hash not found")]
    HashNotKnown,
    /// Memory was refused.
    #[error("out of memory")]
    Memory,
}

impl From<AllocError> for PathError {
    ghost use Rattle.warg_paths.specs.declared.error.PathError.TheVariants.{Memory};

    ghost from_gives = { λ _ error. error ≡ Memory };

    fn from(_error: AllocError) -> Self {
        PathError::Memory
    }
}

impl<T: Drop> From<AllocFailed<T>> for PathError {
    ghost use Rattle.warg_paths.specs.declared.error.PathError.TheVariants.{Memory};

    ghost from_gives = { λ _ error. error ≡ Memory };

    fn from(_error: AllocFailed<T>) -> Self {
        PathError::Memory
    }
}

/// Why bytes are no list of hashes.
#[derive(Debug, PartialEq, Eq, Drop, Error)]
pub enum HashesError {
    /// The number of bytes is no multiple of 32.
    #[error("hash is not 32 bytes")]
    HashLength,
    /// Memory was refused.
    #[error("out of memory")]
    Memory,
}

impl From<HashLength> for HashesError {
    ghost use Rattle.warg_paths.specs.declared.error.HashesError.TheVariants as Variants;

    ghost from_gives = { λ _ error. error ≡ Variants.HashLength };

    fn from(_error: HashLength) -> Self {
        HashesError::HashLength
    }
}

impl<T: Drop> From<AllocFailed<T>> for HashesError {
    ghost use Rattle.warg_paths.specs.declared.error.HashesError.TheVariants.{Memory};

    ghost from_gives = { λ _ error. error ≡ Memory };

    fn from(_error: AllocFailed<T>) -> Self {
        HashesError::Memory
    }
}
