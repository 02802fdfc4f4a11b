//! Why a call on a log's folder is refused.

ghost use Rattle.std.specs.Prelude.{◌≡◌, ◌≢◌};

use std::alloc::{AllocError, AllocFailed, Global};
use thiserror::Error;
use warg_folder::{FolderError, MARK, RecoverError};

/// A file that is missing or corrupt.
#[derive(Debug, PartialEq, Eq, Drop, Error)]
#[error("{name} {fault}")]
pub struct Damage {
    /// The file's name below the folder; `tile` or `map` where it isn't known which file below is at fault.
    pub name: String,
    /// What is wrong with it.
    pub fault: &'static str,
}

/// Why a log isn't opened or read.
#[derive(Debug, PartialEq, Eq, Drop, Error)]
pub enum LogError {
    /// The folder has no log.
    #[error("no log")]
    NoLog,
    /// A file is missing or corrupt.
    #[error("{0}")]
    Damaged(Damage),
    /// The checkpoint is an older one than that of the log's state: how many entries each has.
    #[error("the checkpoint has {found} entries, and the log {newest}")]
    RolledBack { found: usize, newest: usize },
    /// The log keeps no such entry, bundle or length. `bound` is the limit: a length, or the number of bundles.
    #[error("out of range: the bound is {bound}")]
    OutOfRange { bound: usize },
    /// A call on the folder was refused.
    #[error("{0}")]
    Folder(FolderError),
}

impl From<FolderError> for LogError {
    ghost use Rattle.warg_store.specs.declared.error.LogError.TheVariants.{Folder};

    ghost from_gives = { λ cause error. error ≡ Folder cause };

    fn from(cause: FolderError) -> Self {
        LogError::Folder(cause)
    }
}

impl From<AllocError> for LogError {
    ghost use Rattle.warg_folder.specs.declared.device.FolderError.TheVariants.{Memory};
    ghost use Rattle.warg_store.specs.declared.error.LogError.TheVariants.{Folder};

    ghost from_gives = { λ _ error. error ≡ Folder Memory };

    fn from(_error: AllocError) -> Self {
        LogError::Folder(FolderError::Memory)
    }
}

impl<T: Drop> From<AllocFailed<T>> for LogError {
    ghost use Rattle.warg_folder.specs.declared.device.FolderError.TheVariants.{Memory};
    ghost use Rattle.warg_store.specs.declared.error.LogError.TheVariants.{Folder};

    ghost from_gives = { λ _ error. error ≡ Folder Memory };

    fn from(_error: AllocFailed<T>) -> Self {
        LogError::Folder(FolderError::Memory)
    }
}

impl LogError {
    ghost use Rattle.warg_store.specs.Refusals.{IsNoFault, IsNoFailure};

    /// That a file is missing or corrupt.
    pub(crate) fn damaged(alloc: Global, name: &str, fault: &'static str) -> LogError
        ensures { IsNoFailure result }
    {
        match String::from_str(alloc, name) {
            Ok(name) => LogError::Damaged(Damage { name, fault }),
            Err(_) => LogError::Folder(FolderError::Memory),
        }
    }

    /// That tiles don't lead to the checkpoint's root.
    pub(crate) fn no_root(alloc: Global) -> LogError
        ensures { IsNoFailure result }
    {
        LogError::damaged(alloc, "tile", "doesn't lead to the checkpoint's root")
    }

    /// Why a folder wasn't recovered.
    pub(crate) fn of_recovery(alloc: Global, error: &RecoverError) -> LogError
        ensures whole { error.now ≢ RecoverError.TooLong → IsNoFault ⊥ result }
        ensures cause { error.now ≢ RecoverError.Folder FolderError.Failed → IsNoFailure result }
    {
        match error {
            RecoverError::Folder(FolderError::Memory) => LogError::Folder(FolderError::Memory),
            RecoverError::Folder(FolderError::Failed) => LogError::Folder(FolderError::Failed),
            RecoverError::TooLong => {
                LogError::damaged(alloc, MARK, "is longer than a checkpoint's text")
            }
        }
    }
}
