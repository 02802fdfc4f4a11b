//! The lock of a folder of the system's. What a disk does no clause says: this file is to be read, and is tested.

use crate::disk::{Fault, joined};
use crate::names::{CHECKPOINT, LOCK, OWN_FOLDER};
use std::alloc::AllocError;
use std::fs::{File, TryLockError};
use std::io::ErrorKind;
use std::os::unix::fs::OpenOptionsExt;
use std::path::Path;
use std::{fs, io};

/// Why a folder isn't locked.
#[derive(Drop)]
pub enum LockError {
    /// Another run holds the lock.
    Locked,
    /// The folder isn't there, or has no log.
    NoLog,
    /// The system refused a call.
    Failed(Fault),
    /// Memory was refused.
    Memory,
}

impl From<AllocError> for LockError {
    ghost use Rattle.std.specs.Prelude.{◌≡◌};
    ghost use Rattle.warg_folder.specs.declared.lock.LockError.TheVariants.{Memory};

    ghost from_gives = { λ _ error. error ≡ Memory };

    fn from(_error: AllocError) -> Self {
        LockError::Memory
    }
}

impl LockError {
    fn of(path: String, error: io::Error, is_read: bool) -> LockError {
        match error.kind() {
            ErrorKind::OutOfMemory => LockError::Memory,
            _ => LockError::Failed(Fault {
                path,
                error,
                is_read,
            }),
        }
    }
}

/// The lock of a folder, for the one run that writes there. It ends with this value, and with a run that is killed.
#[derive(Drop)]
pub struct FolderLock {
    file: File,
}

impl FolderLock {
    /// Makes a folder for a log, and those above it, where they aren't there, forces their names to the disk, and takes the
    /// folder's lock. `Locked` where another run holds it; else it fails only if the system refuses a call or memory.
    pub fn create(rt: &HostRuntime, folder: &str) -> Result<FolderLock, LockError> {
        match make(rt, folder) {
            Ok(()) => locked(rt, folder),
            Err(error) => {
                let path = String::from_str(rt.alloc(), folder)?;
                Err(LockError::of(path, error, false))
            }
        }
    }

    /// Takes the lock of a folder that has a log, also of one that has the served files alone, as a copy has. `NoLog` where
    /// it has none, and `Locked` where another run holds it; else it fails only if the system refuses a call or memory.
    pub fn take(rt: &HostRuntime, folder: &str) -> Result<FolderLock, LockError> {
        if !has(rt, folder, OWN_FOLDER)? && has(rt, folder, CHECKPOINT)? {
            return FolderLock::create(rt, folder);
        }
        locked(rt, folder)
    }
}

// Makes a log's folders, and forces their names. A folder above that can't be read isn't forced, nor are those above it.
fn make(rt: &HostRuntime, folder: &str) -> io::Result<()> {
    fs::create_dir_all(rt, joined(rt.alloc(), folder, OWN_FOLDER)?.as_str())?;
    for above in Path::new(folder).ancestors().skip(1) {
        let name = above.as_str();
        let Ok(above) = File::open(rt, if name.is_empty() { "." } else { name }) else {
            break;
        };
        above.sync_all()?;
    }
    Ok(())
}

// Whether something stands at a name of the folder.
fn has(rt: &HostRuntime, folder: &str, name: &str) -> Result<bool, LockError> {
    let path = joined(rt.alloc(), folder, name)?;
    match fs::symlink_metadata(rt, path.as_str()) {
        Ok(_) => Ok(true),
        Err(error) if error.kind() == ErrorKind::NotFound => Ok(false),
        Err(error) => Err(LockError::of(path, error, true)),
    }
}

fn locked(rt: &HostRuntime, folder: &str) -> Result<FolderLock, LockError> {
    let path = joined(rt.alloc(), folder, LOCK)?;
    let file = match opened(rt, folder, path.as_str()) {
        Ok(file) => file,
        Err(error) if error.kind() == ErrorKind::NotFound => return Err(LockError::NoLog),
        Err(error) => return Err(LockError::of(path, error, false)),
    };
    match file.try_lock() {
        Ok(()) => Ok(FolderLock { file }),
        Err(TryLockError::WouldBlock) => Err(LockError::Locked),
        Err(TryLockError::Error(error)) => Err(LockError::of(path, error, false)),
    }
}

// Opens the lock's file, or makes it. A name that has anything but a regular file is refused, and one behind a link.
fn opened(rt: &HostRuntime, folder: &str, path: &str) -> io::Result<File> {
    let own = joined(rt.alloc(), folder, OWN_FOLDER)?;
    if !fs::symlink_metadata(rt, own.as_str())?.is_dir() {
        return Err(ErrorKind::NotADirectory.into());
    }
    let mut options = File::options();
    options.write(true).mode(0o600);
    match fs::symlink_metadata(rt, path) {
        Ok(found) if found.is_file() => {}
        Ok(_) => return Err(ErrorKind::Unsupported.into()),
        Err(error) if error.kind() == ErrorKind::NotFound => {
            options.create_new(true);
        }
        Err(error) => return Err(error),
    }
    options.open(rt, path)
}
