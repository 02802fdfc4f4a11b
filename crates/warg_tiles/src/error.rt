//! Why a call of this crate is refused.

ghost use Rattle.std.specs.Prelude.{◌≡◌};

use std::alloc::{AllocError, AllocFailed};
use thiserror::Error;

/// Why an entry isn't written to a bundle.
#[derive(Debug, PartialEq, Eq, Drop, Error)]
pub enum EntryError {
    /// An entry has more than 65,535 bytes.
    #[error("entry is too long")]
    TooLong,
    /// Memory was refused.
    #[error("out of memory")]
    Memory,
}

impl From<AllocError> for EntryError {
    ghost use Rattle.warg_tiles.specs.declared.error.EntryError.TheVariants.{Memory};

    ghost from_gives = { λ _ error. error ≡ Memory };

    fn from(_error: AllocError) -> Self {
        EntryError::Memory
    }
}

/// Why bytes are no bundle's.
#[derive(Debug, PartialEq, Eq, Drop, Error)]
pub enum EntriesError {
    /// The bytes end within an entry's length, or within an entry.
    #[error("bundle is cut short")]
    Truncated,
    /// Memory was refused.
    #[error("out of memory")]
    Memory,
}

impl<T: Drop> From<AllocFailed<T>> for EntriesError {
    ghost use Rattle.warg_tiles.specs.declared.error.EntriesError.TheVariants.{Memory};

    ghost from_gives = { λ _ error. error ≡ Memory };

    fn from(_error: AllocFailed<T>) -> Self {
        EntriesError::Memory
    }
}

/// Why data give no tile.
#[derive(Debug, PartialEq, Eq, Drop, Error)]
pub enum TileError {
    /// A digest of the tile isn't in the data.
    #[error("necessary hash not found")]
    HashNotKnown,
    /// Memory was refused.
    #[error("out of memory")]
    Memory,
}

impl<T: Drop> From<AllocFailed<T>> for TileError {
    ghost use Rattle.warg_tiles.specs.declared.error.TileError.TheVariants.{Memory};

    ghost from_gives = { λ _ error. error ≡ Memory };

    fn from(_error: AllocFailed<T>) -> Self {
        TileError::Memory
    }
}

/// Why bytes aren't taken for a tile's.
#[derive(Debug, PartialEq, Eq, Drop, Error)]
pub enum TileBytesError {
    /// The bytes aren't 32 for each digest of the tile's width.
    #[error("not 32 bytes for each digest of the tile")]
    Length,
    /// Memory was refused.
    #[error("out of memory")]
    Memory,
}

impl From<AllocError> for TileBytesError {
    ghost use Rattle.warg_tiles.specs.declared.error.TileBytesError.TheVariants.{Memory};

    ghost from_gives = { λ _ error. error ≡ Memory };

    fn from(_error: AllocError) -> Self {
        TileBytesError::Memory
    }
}

/// Why bytes are no checkpoint text, or what was to be said can't be said in one.
#[derive(Debug, PartialEq, Eq, Drop, Error)]
pub enum CheckpointTextError {
    /// The first line isn't an origin: it is empty, or has no newline behind it.
    #[error("origin is not a line")]
    Origin,
    /// The second line isn't a length in decimal up to 2^63.
    #[error("length is not a decimal number up to 2^63")]
    Length,
    /// The third line isn't the base64 of 32 bytes.
    #[error("root is not the base64 of 32 bytes")]
    Root,
    /// A further line is empty, has a newline in it, or none behind it.
    #[error("extension is not a line")]
    Extension,
    /// Memory was refused.
    #[error("out of memory")]
    Memory,
}

impl From<AllocError> for CheckpointTextError {
    ghost use Rattle.warg_tiles.specs.declared.error.CheckpointTextError.TheVariants.{Memory};

    ghost from_gives = { λ _ error. error ≡ Memory };

    fn from(_error: AllocError) -> Self {
        CheckpointTextError::Memory
    }
}

impl<T: Drop> From<AllocFailed<T>> for CheckpointTextError {
    ghost use Rattle.warg_tiles.specs.declared.error.CheckpointTextError.TheVariants.{Memory};

    ghost from_gives = { λ _ error. error ≡ Memory };

    fn from(_error: AllocFailed<T>) -> Self {
        CheckpointTextError::Memory
    }
}

/// Why tiles are not the partial tiles of a length, from which a log goes on.
#[derive(Debug, PartialEq, Eq, Drop, Error)]
pub enum OpenError {
    /// There are more or fewer tiles.
    #[error("not as many tiles as the length has partial ones")]
    Count,
    /// A tile has another level or another number.
    #[error("tile of another place")]
    Place,
    /// A tile has another width.
    #[error("tile of another width")]
    Width,
    /// Memory was refused.
    #[error("out of memory")]
    Memory,
}

impl From<AllocError> for OpenError {
    ghost use Rattle.warg_tiles.specs.declared.error.OpenError.TheVariants.{Memory};

    ghost from_gives = { λ _ error. error ≡ Memory };

    fn from(_error: AllocError) -> Self {
        OpenError::Memory
    }
}
