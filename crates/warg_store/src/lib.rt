//! A log in a folder of files: what a crash at any moment leaves of it, and what its readers find.
//!
//! The definitions that the contracts cite stand in `specs/`: read Log, Growing and Reading first, and before them those of
//! `warg_folder`, whose calls are offered here, too.
#![tactic(auto)]

mod auditing;
mod discarding;
mod edge;
mod error;
mod fetched;
mod log;
mod log_folder;
mod older;
mod opening;
mod pages;
mod pruning;
mod reader;
mod reading;
mod signing;

pub use auditing::{Progress, rebuild};
pub use error::{Damage, LogError};
pub use log_folder::{CommitError, LogFolder, PushError};
pub use opening::CreateError;
pub use reader::LogReader;
pub use reading::Path;
pub use signing::SignError;
pub use warg_folder::{
    Call, Fault, Folder, FolderError, FolderLock, LockError, MOST_TEXT, MemoryFolder, RecoverError,
    SystemFolder, commit, discard, recover, stage,
};
