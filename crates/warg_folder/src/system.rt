//! A folder of the system's files. What a disk does no clause says: this file is to be read, and is tested.

ghost use Rattle.std.specs.Prelude.{None};
ghost use Rattle.warg_folder.specs.System.{nothing, OnlyNothing, NothingSince, nothing_stays, nothing_counts, nothing_now};

use crate::device::{Folder, FolderError};
use crate::disk::{Disk, Fault, folder_of};
use crate::names::{MARK, OWN_FOLDER, REPLACING, STAGED_FOLDER};
use crate::seen::SeenFolders;
use std::alloc::{AllocError, Global};
use std::cell::Cell;
use std::io;

/// A folder of the system's files. Each file is forced to the disk as it is written, and `sync` forces each folder in which a
/// name is new or gone; the first one forces what an earlier run may have left. What is staged stands in one folder, with no
/// folder for the parts of its name, so that a commit makes and forces those alone in which its files are served. `list` leaves
/// out the file that `replace` writes first, `.log/replacing`: a run that was cut off may have left it.
///
/// No name is followed through a link, and a name that is no regular file is refused. Whoever writes looks at a folder once
/// until the next `sync`, and relies on it meanwhile: nobody else is to change folders.
#[derive(Drop)]
pub struct SystemFolder<'a> {
    disk: Disk<'a>,
    seen: SeenFolders,
    // What an earlier run may have left is forced, too.
    is_settled: bool,
    // A sync has failed: the system may have dropped what was written.
    is_lost: bool,
}

impl<'a> SystemFolder<'a> {
    /// The folder of this path. The last call that is refused leaves its fault in the cell.
    pub fn new(
        rt: &'a HostRuntime,
        path: &str,
        fault: &'a Cell<Option<Fault>>,
    ) -> Result<SystemFolder<'a>, AllocError> {
        let root = String::from_str(rt.alloc(), path)?;
        Ok(SystemFolder {
            disk: Disk { rt, root, fault },
            seen: SeenFolders::new(rt.alloc()),
            is_settled: false,
            is_lost: false,
        })
    }

    // Whether a folder is there. Refuses one on whose path anything but a folder stands.
    fn has_folder(&self, folder: &str) -> io::Result<bool> {
        let is_seen = self.seen.has(folder);
        Ok(is_seen || self.has_folder(folder_of(folder))? && self.disk.has_folder(folder)?)
    }

    // Whether a name has a file. Refuses one that has anything else, and one behind a link.
    fn has_file(&self, name: &str) -> io::Result<bool> {
        Ok(self.has_folder(folder_of(name))? && self.disk.has_file(name)?)
    }

    // Makes a folder where it isn't there, and those above it.
    fn make_folder(&mut self, folder: &str) -> io::Result<()> {
        if self.seen.has(folder) {
            return Ok(());
        }
        self.make_folder(folder_of(folder))?;
        if self.disk.make_folder(folder)? {
            self.seen.note(folder_of(folder), true)?;
        }
        Ok(self.seen.note(folder, false)?)
    }

    fn read_file(&self, name: &str, most: usize) -> io::Result<Option<Vec<u8>>> {
        if !self.has_file(name)? {
            return Ok(None);
        }
        Ok(Some(self.disk.read(name, most)?))
    }

    // The names of the files that begin with a prefix, but for the one that is to take another one's place.
    fn listed(&self, prefix: &str) -> io::Result<Vec<String>> {
        let mut names = self.below(folder_of(prefix), Some(prefix))?;
        names.retain(|name| name.as_str() != REPLACING);
        Ok(names)
    }

    // As `below` of a disk, also where the folder isn't there.
    fn below(&self, folder: &str, prefix: Option<&str>) -> io::Result<Vec<String>> {
        if !self.has_folder(folder)? {
            return Ok(Vec::new(self.disk.rt.alloc()));
        }
        self.disk.below(folder, prefix)
    }

    // Makes a file anew: a link that stands at its name is refused, and nothing is written through it.
    fn make_file(&mut self, name: &str, bytes: &[u8]) -> io::Result<()> {
        self.make_folder(folder_of(name))?;
        if self.has_file(name)? {
            self.disk.remove(name)?;
        }
        self.seen.note(folder_of(name), true)?;
        self.disk.make_file(name, bytes)
    }

    fn move_file(&mut self, from: &str, to: &str) -> io::Result<()> {
        if !self.has_file(from)? {
            return Ok(());
        }
        self.make_folder(folder_of(to))?;
        self.has_file(to)?;
        self.seen.note(folder_of(from), true)?;
        self.seen.note(folder_of(to), true)?;
        self.disk.rename(from, to)
    }

    fn remove_file(&mut self, name: &str) -> io::Result<()> {
        if !self.has_file(name)? {
            return Ok(());
        }
        self.seen.note(folder_of(name), true)?;
        self.disk.remove(name)
    }

    // Forces the folders in which a name is new or gone, the first time also those that an earlier run may have left.
    fn force_all(&mut self) -> io::Result<()> {
        if !self.is_settled {
            self.note_left()?;
            self.is_settled = true;
        }
        self.seen.force(&self.disk)
    }

    // Notes the folders in which an earlier run may have left names that aren't forced: those of a log's own files, and, where
    // its commit stands, those in which that puts its files.
    fn note_left(&mut self) -> io::Result<()> {
        for folder in ["", OWN_FOLDER, STAGED_FOLDER] {
            if self.has_folder(folder)? {
                self.seen.note(folder, true)?;
            }
        }
        if !matches!(self.has_file(MARK), Ok(false)) {
            for served in ["map", "tile"] {
                for folder in &self.below(served, None)? {
                    self.seen.note(folder.as_str(), true)?;
                }
            }
        }
        Ok(())
    }
}

impl Folder for SystemFolder<'_> {
    // Nothing is known of a disk.
    ghost IsFaithful = { ⊥ };

    ghost seen = { λ _. nothing };

    ghost may_leave = { λ _. OnlyNothing };

    ghost moment = { λ _. 0 };

    ghost left_since = { λ _. NothingSince };

    ghost faults = { λ _. 0 };

    ghost seen_may_stay = { λ _. nothing_stays };

    ghost counts_now = { λ _. nothing_counts };

    ghost only_now = { λ _. nothing_now };

    fn read(&mut self, _: Global, name: &str, most: usize) -> Result<Option<Vec<u8>>, FolderError> {
        self.disk.told(name, self.read_file(name, most), true)
    }

    fn list(&mut self, _: Global, prefix: &str) -> Result<Vec<String>, FolderError> {
        self.disk.told(prefix, self.listed(prefix), true)
    }

    fn write(&mut self, name: &str, bytes: &[u8]) -> Result<(), FolderError> {
        let made = self.make_file(name, bytes);
        self.disk.told(name, made, false)
    }

    fn rename(&mut self, from: &str, to: &str) -> Result<(), FolderError> {
        let moved = self.move_file(from, to);
        self.disk.told(to, moved, false)
    }

    fn remove(&mut self, name: &str) -> Result<(), FolderError> {
        let removed = self.remove_file(name);
        self.disk.told(name, removed, false)
    }

    fn sync(&mut self) -> Result<(), FolderError> {
        if self.is_lost {
            return Err(FolderError::Failed);
        }
        let forced = self.force_all();
        self.is_lost = forced.is_err();
        self.disk.told("", forced, false)
    }

    fn replace(&mut self, name: &str, bytes: &[u8]) -> Result<(), FolderError> {
        self.write(REPLACING, bytes)?;
        self.rename(REPLACING, name)?;
        self.sync()
    }
}
