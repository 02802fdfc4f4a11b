//! Why bytes are no message.
ghost use Rattle.std.specs.Prelude.{◌≡◌};
ghost use Rattle.warg_protobuf.specs.declared.error.WireError.TheVariants.{Memory, NumberTooLarge};

use std::alloc::{AllocError, AllocFailed};
use std::num::TryFromIntError;
use thiserror::Error;

/// The first fault of the bytes from left to right, or out of memory.
///
/// Each field is split off whole, and then checked at once if its number is known. Splitting off looks for
/// the faults from `Truncated` or `BadVarint` in the tag, over `BadTag`, `Group` and `BadWireType`, to
/// `Truncated` or `BadVarint` in the payload; checking for `WrongWireType`, then `NumberTooLarge`, then the
/// faults inside a packed list or an inner message, from left to right.
#[derive(Debug, Drop, PartialEq, Eq, Error)]
pub enum WireError {
    /// The bytes end inside a varint, or fewer are left than a payload's type or length says.
    #[error("truncated")]
    Truncated,
    /// The tenth byte of a varint is above 01.
    #[error("bad varint")]
    BadVarint,
    /// A tag is above 2^32 - 1, or its field number is 0.
    #[error("bad tag")]
    BadTag,
    /// A field has wire type 3 or 4, the marks of a group.
    #[error("group")]
    Group,
    /// A field has wire type 6 or 7, which stand for nothing.
    #[error("bad wire type")]
    BadWireType,
    /// A known field has another wire type than its type is read from.
    #[error("wrong wire type")]
    WrongWireType,
    /// A uint32 is above 2^32 - 1.
    #[error("number too large")]
    NumberTooLarge,
    /// Allocation failed. This says nothing of the bytes.
    #[error("out of memory")]
    Memory,
}

impl From<AllocError> for WireError {
    ghost from_gives = { λ _ e. e ≡ Memory };

    fn from(_e: AllocError) -> WireError {
        WireError::Memory
    }
}

impl<T: Drop> From<AllocFailed<T>> for WireError {
    ghost from_gives = { λ _ e. e ≡ Memory };

    fn from(_e: AllocFailed<T>) -> WireError {
        WireError::Memory
    }
}

impl From<TryFromIntError> for WireError {
    ghost from_gives = { λ _ e. e ≡ NumberTooLarge };

    fn from(_e: TryFromIntError) -> WireError {
        WireError::NumberTooLarge
    }
}
