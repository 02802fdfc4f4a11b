//! Why bytes are read as no insertion, a text as none of a registry, and a call on a registry's folder is refused.

ghost use Rattle.std.specs.Prelude.{◌≡◌, ◌↔◌, Some, IsErrOf};
ghost use Rattle.warg_pages.specs.Refusals.{IsMemoryUnless};
ghost use Rattle.warg_store.specs.Refusals.{IsNoFault, IsNoFailure};

use std::alloc::{AllocError, AllocFailed, Global};
use thiserror::Error;
use warg_pages::WayError;
use warg_store::{CommitError, Damage, FolderError, LogError, PushError};

/// Why bytes are no insertion's entry.
#[derive(Clone, Copy, Debug, PartialEq, Eq, Error)]
pub enum InsertionFault {
    /// The bytes end within the key or its length.
    #[error("entry ends within the key")]
    Key,
    /// The bytes end within the value or its length.
    #[error("entry ends within the value")]
    Value,
    /// Bytes follow the value.
    #[error("entry goes on after the value")]
    Longer,
}

/// A text's further lines are no map's: there are several, or one of another form.
#[derive(Clone, Copy, Debug, PartialEq, Eq, Error)]
#[error("further lines of a checkpoint that aren't one line of a map's root")]
pub struct BadMapLine;

/// Why a registry isn't opened.
#[derive(Debug, PartialEq, Eq, Drop, Error)]
pub enum RegistryError {
    /// The folder has a log without a map: no further line of its checkpoint names one.
    #[error("log has no map")]
    NoMap,
    /// The log isn't opened. `Damaged` also names a checkpoint whose further lines aren't one line of a map's root.
    #[error("{0}")]
    Log(LogError),
}

impl From<LogError> for RegistryError {
    ghost use Rattle.std.specs.Prelude.{◌≡◌};
    ghost use Rattle.warg_registry.specs.declared.error.RegistryError.TheVariants.{Log};

    ghost from_gives = { λ cause error. error ≡ Log cause };

    fn from(cause: LogError) -> Self {
        RegistryError::Log(cause)
    }
}

/// Why insertions aren't published.
#[derive(Debug, PartialEq, Eq, Drop, Error)]
pub enum PublishError {
    /// The entry of an insertion would have more than 65,535 bytes.
    #[error("entry of an insertion has more than 65,535 bytes")]
    TooLong,
    /// The log would have more than 2^63 entries, or its checkpoint's text more than 2^20 bytes.
    #[error("log would have more than 2^63 entries, or a checkpoint's text of more than 2^20 bytes")]
    Full,
    /// An earlier call has failed once it had begun to write: open the folder again.
    #[error("a call has failed")]
    Closed,
    /// A page is missing or corrupt, memory was refused, or the device failed.
    #[error("{0}")]
    Log(LogError),
}

impl From<LogError> for PublishError {
    ghost use Rattle.std.specs.Prelude.{◌≡◌};
    ghost use Rattle.warg_registry.specs.declared.error.PublishError.TheVariants.{Log};

    ghost from_gives = { λ cause error. error ≡ Log cause };

    fn from(cause: LogError) -> Self {
        PublishError::Log(cause)
    }
}

impl From<AllocError> for PublishError {
    ghost use Rattle.std.specs.Prelude.{◌≡◌};
    ghost use Rattle.warg_folder.specs.declared.device.FolderError.TheVariants.{Memory};
    ghost use Rattle.warg_store.specs.declared.error.LogError.TheVariants.{Folder};
    ghost use Rattle.warg_registry.specs.declared.error.PublishError.TheVariants.{Log};

    ghost from_gives = { λ _ error. error ≡ Log (Folder Memory) };

    fn from(_error: AllocError) -> Self {
        PublishError::Log(LogError::Folder(FolderError::Memory))
    }
}

impl<T: Drop> From<AllocFailed<T>> for PublishError {
    ghost use Rattle.std.specs.Prelude.{◌≡◌};
    ghost use Rattle.warg_folder.specs.declared.device.FolderError.TheVariants.{Memory};
    ghost use Rattle.warg_store.specs.declared.error.LogError.TheVariants.{Folder};
    ghost use Rattle.warg_registry.specs.declared.error.PublishError.TheVariants.{Log};

    ghost from_gives = { λ _ error. error ≡ Log (Folder Memory) };

    fn from(_error: AllocFailed<T>) -> Self {
        PublishError::Log(LogError::Folder(FolderError::Memory))
    }
}

impl From<PushError> for PublishError {
    ghost use Rattle.std.specs.Prelude.{◌≡◌};
    ghost use Rattle.warg_registry.specs.Publishing.{of_push};

    ghost from_gives = { λ cause error. error ≡ of_push cause };

    fn from(cause: PushError) -> Self {
        match cause {
            PushError::TooLong => PublishError::TooLong,
            PushError::Full => PublishError::Full,
            PushError::Closed => PublishError::Closed,
            PushError::Folder(error) => PublishError::Log(LogError::Folder(error)),
        }
    }
}

impl From<CommitError> for PublishError {
    ghost use Rattle.std.specs.Prelude.{◌≡◌};
    ghost use Rattle.warg_registry.specs.Publishing.{of_commit};

    ghost from_gives = { λ cause error. error ≡ of_commit cause };

    fn from(cause: CommitError) -> Self {
        match cause {
            CommitError::Memory => PublishError::Log(LogError::Folder(FolderError::Memory)),
            CommitError::TooLong => PublishError::Full,
            CommitError::Closed => PublishError::Closed,
            CommitError::Folder(error) => PublishError::Log(LogError::Folder(error)),
        }
    }
}

/// What was wrong when a page was read.
#[derive(Clone, Copy, PartialEq, Eq)]
pub(crate) enum ReadFault {
    /// No file has its name.
    NoFile,
    /// The device failed.
    DeviceFailed,
}

impl ReadFault {
    /// What was wrong, where something was: a refusal of memory says nothing of the page.
    pub(crate) fn of(read: &Result<Option<Vec<u8>>, FolderError>) -> Option<ReadFault>
        ensures { result ≡ Some ReadFault.DeviceFailed → IsErrOf read.now FolderError.Failed }
    {
        match read {
            Ok(Some(_)) => None,
            Ok(None) => Some(ReadFault::NoFile),
            Err(FolderError::Memory) => None,
            Err(FolderError::Failed) => Some(ReadFault::DeviceFailed),
        }
    }
}

/// That a file is missing or corrupt.
pub(crate) fn damaged(alloc: Global, name: &str, fault: &'static str) -> LogError
    ensures { IsNoFailure result }
{
    match String::from_str(alloc, name) {
        Ok(name) => LogError::Damaged(Damage { name, fault }),
        Err(_) => LogError::Folder(FolderError::Memory),
    }
}

/// Why a page wasn't read: its device failed, or memory was refused.
pub(crate) fn of_reading(fault: Option<ReadFault>) -> FolderError
    ensures { (result ≡ FolderError.Failed) ↔ (fault ≡ Some ReadFault.DeviceFailed) }
{
    match fault {
        Some(ReadFault::DeviceFailed) => FolderError::Failed,
        Some(ReadFault::NoFile) => FolderError::Memory,
        None => FolderError::Memory,
    }
}

/// What is wrong with pages, where this one was read last.
pub(crate) fn of_pages(alloc: Global, last: &str, error: WayError) -> LogError
    ensures whole { IsMemoryUnless ⊥ error → IsNoFault ⊥ result }
    ensures other { IsNoFailure result }
{
    match error {
        WayError::Memory => LogError::Folder(FolderError::Memory),
        WayError::BadPage => damaged(alloc, last, "isn't a page of a map"),
        WayError::WrongDigest => {
            damaged(
                alloc,
                last,
                "hasn't the digest that the checkpoint or the page above it has",
            )
        }
        WayError::WrongLoneKey => damaged(alloc, last, "has a lone key that isn't its slot's"),
    }
}
