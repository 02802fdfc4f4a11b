//! A folder of files on a device that may crash at any moment: what is staged and committed there, and what a crash leaves.
//!
//! The definitions that the contracts cite stand in `specs/`: read Files, Moments and Commits first.
#![tactic(auto)]

mod committing;
mod device;
mod disk;
mod lock;
mod memory;
mod names;
mod recovery;
mod seen;
mod staging;
mod system;

pub use committing::{MOST_TEXT, commit, is_signed};
pub use device::{Folder, FolderError};
pub use disk::Fault;
pub use lock::{FolderLock, LockError};
pub use memory::{Call, MemoryFolder};
pub use names::{CHECKPOINT, LOCK, MARK, STATE, is_log_file, is_page, is_served, page_name};
pub use recovery::{RecoverError, recover};
pub use staging::{discard, stage};
pub use system::SystemFolder;
