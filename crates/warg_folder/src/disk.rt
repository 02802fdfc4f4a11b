//! The system's calls on a folder's files, by their names. No clause says what they do: this file is to be read, and is tested.

ghost use Rattle.std.specs.Prelude.{◌<◌, length};

use crate::device::FolderError;
use crate::names::{STAGED, STAGED_FOLDER};
use std::alloc::{AllocError, Global};
use std::cell::Cell;
use std::fs::{File, FileType};
use std::io::{ErrorKind, Read, Write};
use std::{fs, io};

/// A call on a file that the system refused: the file's path, and why.
#[derive(Drop)]
pub struct Fault {
    pub path: String,
    pub error: io::Error,
    /// Whether it was a read.
    pub is_read: bool,
}

/// A folder of the system's. What is staged stands in one folder of it, with no folder for the parts of its name.
#[derive(Drop)]
pub(crate) struct Disk<'a> {
    pub(crate) rt: &'a HostRuntime,
    pub(crate) root: String,
    /// The last call that was refused.
    pub(crate) fault: &'a Cell<Option<Fault>>,
}

impl Disk<'_> {
    fn path(&self, name: &str) -> Result<String, AllocError> {
        let place = place_of(self.rt.alloc(), name)?;
        joined(self.rt.alloc(), self.root.as_str(), place.as_str())
    }

    /// What a call on a name came to. If it was refused, its fault is told in the cell.
    pub(crate) fn told<T>(
        &self,
        name: &str,
        answer: io::Result<T>,
        is_read: bool,
    ) -> Result<T, FolderError> {
        match answer {
            Ok(value) => Ok(value),
            Err(error) => Err(self.failed(name, error, is_read)),
        }
    }

    // The refusal for a call on a name that failed.
    fn failed(&self, name: &str, error: io::Error, is_read: bool) -> FolderError {
        match self.path(name) {
            Ok(path) if error.kind() != ErrorKind::OutOfMemory => {
                self.fault.set(Some(Fault {
                    path,
                    error,
                    is_read,
                }));
                FolderError::Failed
            }
            _ => FolderError::Memory,
        }
    }

    /// Whether a folder is there, if the one above it is. Refuses anything else.
    pub(crate) fn has_folder(&self, folder: &str) -> io::Result<bool> {
        match self.kind_at(folder)? {
            Some(kind) if !kind.is_dir() => Err(ErrorKind::NotADirectory.into()),
            kind => Ok(kind.is_some()),
        }
    }

    /// Whether a name has a file, if its folder is there. Refuses anything but a regular file.
    pub(crate) fn has_file(&self, name: &str) -> io::Result<bool> {
        match self.kind_at(name)? {
            Some(kind) if !kind.is_file() => Err(ErrorKind::Unsupported.into()),
            kind => Ok(kind.is_some()),
        }
    }

    // The kind of what stands at a name, if anything does: no link is followed.
    fn kind_at(&self, name: &str) -> io::Result<Option<FileType>> {
        match fs::symlink_metadata(self.rt, self.path(name)?.as_str()) {
            Ok(found) => Ok(Some(found.file_type())),
            Err(error) if error.kind() == ErrorKind::NotFound => Ok(None),
            Err(error) => Err(error),
        }
    }

    /// Makes a folder where there is none, and returns whether it did. Refuses anything else that is there.
    pub(crate) fn make_folder(&self, folder: &str) -> io::Result<bool> {
        match fs::create_dir(self.rt, self.path(folder)?.as_str()) {
            Ok(()) => Ok(true),
            Err(error) if error.kind() == ErrorKind::AlreadyExists => Ok(!self.has_folder(folder)?),
            Err(error) => Err(error),
        }
    }

    /// The bytes of a file that is there, but no more than one above `most`.
    pub(crate) fn read(&self, name: &str, most: usize) -> io::Result<Vec<u8>> {
        let mut bytes = Vec::new(self.rt.alloc());
        let file = File::open(self.rt, self.path(name)?.as_str())?;
        file.take((most as u64).saturating_add(1))
            .read_to_end(&mut bytes)?;
        Ok(bytes)
    }

    /// Makes a file where there is nothing, and forces its bytes.
    pub(crate) fn make_file(&self, name: &str, bytes: &[u8]) -> io::Result<()> {
        let mut file = File::create_new(self.rt, self.path(name)?.as_str())?;
        file.write_all(bytes)?;
        file.sync_all()
    }

    /// Gives a file another name.
    pub(crate) fn rename(&self, from: &str, to: &str) -> io::Result<()> {
        fs::rename(self.rt, self.path(from)?.as_str(), self.path(to)?.as_str())
    }

    /// Removes a file.
    pub(crate) fn remove(&self, name: &str) -> io::Result<()> {
        fs::remove_file(self.rt, self.path(name)?.as_str())
    }

    /// Forces the names in a folder.
    pub(crate) fn force(&self, folder: &str) -> io::Result<()> {
        File::open(self.rt, self.path(folder)?.as_str())?.sync_all()
    }

    /// The names below a folder that is there: of the files that begin with a prefix or, where none is given, of the folders,
    /// itself among them.
    pub(crate) fn below(&self, folder: &str, prefix: Option<&str>) -> io::Result<Vec<String>> {
        let alloc = self.rt.alloc();
        let mut names = Vec::new(alloc);
        let mut folders = Vec::new(alloc);
        folders.push(String::from_str(alloc, folder)?)?;
        for _ in 0..u64::MAX {
            let Some(folder) = folders.pop() else {
                break;
            };
            self.add_entries(&mut names, &mut folders, folder.as_str(), prefix)?;
            if prefix.is_none() {
                names.push(folder)?;
            }
        }
        Ok(names)
    }

    // Adds the names of the files in a folder that begin with a prefix, and its folders.
    fn add_entries(
        &self,
        names: &mut Vec<String>,
        folders: &mut Vec<String>,
        folder: &str,
        prefix: Option<&str>,
    ) -> io::Result<()> {
        for entry in fs::read_dir(self.rt, self.path(folder)?.as_str())? {
            let entry = entry?;
            let kind = entry.file_type()?;
            let name = name_at(self.rt.alloc(), folder, entry.file_name())?;
            if kind.is_dir() && folder != STAGED_FOLDER {
                folders.push(name)?;
            } else if kind.is_file()
                && matches!(prefix, Some(it) if name.as_str().starts_with(it))
            {
                names.push(name)?;
            }
        }
        Ok(())
    }
}

/// The folder in which a file or a folder stands.
pub(crate) fn folder_of(name: &str) -> &str
    ensures { 0 < length name.now → length result.now < length name.now }
{
    match name.rsplit_once('/') {
        Some(_) if name.starts_with(STAGED) => STAGED_FOLDER,
        Some((folder, _)) => folder,
        None => "",
    }
}

// The place of a name. Of what is staged, a `/` behind the folder is `%2F` and a `%` is `%25`, so that no two names have one
// place. The system takes no more than 255 bytes there.
fn place_of(alloc: Global, name: &str) -> Result<String, AllocError> {
    let Some(staged) = name.strip_prefix(STAGED) else {
        return String::from_str(alloc, name);
    };
    let escaped = staged.replace(alloc, "%", "%25")?;
    let flat = escaped.as_str().replace(alloc, "/", "%2F")?;
    joined(alloc, STAGED_FOLDER, flat.as_str())
}

// The name that has this place in a folder.
fn name_at(alloc: Global, folder: &str, place: &str) -> Result<String, AllocError> {
    if folder != STAGED_FOLDER {
        return joined(alloc, folder, place);
    }
    let escaped = place.replace(alloc, "%2F", "/")?;
    let staged = escaped.as_str().replace(alloc, "%25", "%")?;
    joined(alloc, folder, staged.as_str())
}

/// A name below a folder. It takes no more memory than it has bytes.
pub(crate) fn joined(alloc: Global, folder: &str, name: &str) -> Result<String, AllocError> {
    if folder.is_empty() {
        return String::from_str(alloc, name);
    }
    let length = folder.len().saturating_add(name.len()).saturating_add(1);
    let mut joined = String::with_capacity(alloc, length)?;
    joined.push_str(folder)?;
    joined.push('/')?;
    joined.push_str(name)?;
    Ok(joined)
}
