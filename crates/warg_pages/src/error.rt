//! Why a call of this crate is refused.

ghost use Rattle.std.specs.Prelude.{◌≡◌};

use std::alloc::{AllocError, AllocFailed};
use thiserror::Error;

/// Why bytes are read as no page.
#[derive(Debug, PartialEq, Eq, Drop, Error)]
pub enum PageError {
    /// A slot is cut, slots don't ascend, or a kind isn't 0 or 1.
    #[error("not the bytes of a page")]
    BadPage,
    /// Memory was refused.
    #[error("out of memory")]
    Memory,
}

impl From<AllocError> for PageError {
    ghost use Rattle.warg_pages.specs.declared.error.PageError.TheVariants.{Memory};

    ghost from_gives = { λ _ error. error ≡ Memory };

    fn from(_error: AllocError) -> Self {
        PageError::Memory
    }
}

impl<T: Drop> From<AllocFailed<T>> for PageError {
    ghost use Rattle.warg_pages.specs.declared.error.PageError.TheVariants.{Memory};

    ghost from_gives = { λ _ error. error ≡ Memory };

    fn from(_error: AllocFailed<T>) -> Self {
        PageError::Memory
    }
}

/// Why pages lead to no proof of a key.
#[derive(Debug, PartialEq, Eq, Drop, Error)]
pub enum WayError {
    /// The bytes at a page's name aren't those of a page, or a lone key has the version 0.
    #[error("not the bytes of a page")]
    BadPage,
    /// A page doesn't have the digest of the slot that names it, or the first one that of the root.
    #[error("page of another digest")]
    WrongDigest,
    /// A lone key doesn't have its slot's digest, doesn't begin with its slot's prefix, or isn't there at the last byte.
    #[error("not the lone key of its slot")]
    WrongLoneKey,
    /// Memory was refused.
    #[error("out of memory")]
    Memory,
}

impl From<AllocError> for WayError {
    ghost use Rattle.warg_pages.specs.declared.error.WayError.TheVariants.{Memory};

    ghost from_gives = { λ _ error. error ≡ Memory };

    fn from(_error: AllocError) -> Self {
        Self::Memory
    }
}

impl<T: Drop> From<AllocFailed<T>> for WayError {
    ghost use Rattle.warg_pages.specs.declared.error.WayError.TheVariants.{Memory};

    ghost from_gives = { λ _ error. error ≡ Memory };

    fn from(_error: AllocFailed<T>) -> Self {
        WayError::Memory
    }
}

/// Why a key isn't proved by the pages of a source.
#[derive(Debug, Drop)]
pub enum ProveError<E> {
    /// The source refuses a page.
    Pages(E),
    /// The pages lead to no proof.
    Way(WayError),
}

impl<E> From<WayError> for ProveError<E> {
    ghost use Rattle.warg_pages.specs.declared.error.ProveError.TheVariants.{Way};

    ghost from_gives = { λ way error. error ≡ Way way };

    fn from(way: WayError) -> Self {
        ProveError::Way(way)
    }
}
