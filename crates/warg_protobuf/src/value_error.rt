//! Why a value has no message, and why a message or bytes are no value.

ghost use Rattle.std.specs.Prelude.{◌≡◌};
ghost use Rattle.warg_protobuf.specs.Decoding.{wire_fault};

use crate::error::WireError;
use std::alloc::{AllocError, AllocFailed};
use thiserror::Error;
use warg_crypto::HashLength;

/// Why a value can't be written.
#[derive(Debug, PartialEq, Eq, Drop, Error)]
pub enum EncodeError {
    /// A length or a node's number is above `u32::MAX`.
    #[error("number does not fit in 32 bits")]
    TooLarge,
    /// Memory was refused.
    #[error("out of memory")]
    Memory,
}

impl From<AllocError> for EncodeError {
    ghost use Rattle.warg_protobuf.specs.declared.value_error.EncodeError.TheVariants.{Memory};

    ghost from_gives = { λ _ error. error ≡ Memory };

    fn from(_error: AllocError) -> Self {
        EncodeError::Memory
    }
}

impl<T: Drop> From<AllocFailed<T>> for EncodeError {
    ghost use Rattle.warg_protobuf.specs.declared.value_error.EncodeError.TheVariants.{Memory};

    ghost from_gives = { λ _ error. error ≡ Memory };

    fn from(_error: AllocFailed<T>) -> Self {
        EncodeError::Memory
    }
}

/// Why a message or bytes are read as no value: the first fault, or out of memory.
#[derive(Debug, PartialEq, Eq, Drop, Error)]
pub enum DecodeError {
    /// The bytes are no message. The fault inside is never `Memory`.
    #[error("{0}")]
    Wire(WireError),
    /// A digest doesn't have 32 bytes.
    #[error("hash is not 32 bytes")]
    HashLength,
    /// The number of a bundle's node isn't above the one before it.
    #[error("hash indices are not ascending")]
    NotAscending,
    /// The digests aren't those of the nodes of a log of that length.
    #[error("not the image of a log")]
    NotALog,
    /// The nodes aren't the balanced roots of the length.
    #[error("not the balanced roots of the length")]
    NotAStack,
    /// A map's proof has more than 256 peers.
    #[error("more than 256 peers")]
    TooManyPeers,
    /// Memory was refused.
    #[error("out of memory")]
    Memory,
}

impl From<WireError> for DecodeError {
    ghost from_gives = { λ fault error. error ≡ wire_fault fault };

    fn from(fault: WireError) -> Self {
        match fault {
            WireError::Memory => DecodeError::Memory,
            fault => DecodeError::Wire(fault),
        }
    }
}

impl From<HashLength> for DecodeError {
    ghost use Rattle.warg_protobuf.specs.declared.value_error.DecodeError.TheVariants as decode;

    ghost from_gives = { λ _ error. error ≡ decode.HashLength };

    fn from(_error: HashLength) -> Self {
        DecodeError::HashLength
    }
}

impl From<AllocError> for DecodeError {
    ghost use Rattle.warg_protobuf.specs.declared.value_error.DecodeError.TheVariants.{Memory};

    ghost from_gives = { λ _ error. error ≡ Memory };

    fn from(_error: AllocError) -> Self {
        DecodeError::Memory
    }
}

impl<T: Drop> From<AllocFailed<T>> for DecodeError {
    ghost use Rattle.warg_protobuf.specs.declared.value_error.DecodeError.TheVariants.{Memory};

    ghost from_gives = { λ _ error. error ≡ Memory };

    fn from(_error: AllocFailed<T>) -> Self {
        DecodeError::Memory
    }
}
