//! The folders that whoever writes has seen.

ghost use Rattle.std.specs.Prelude.{◌≡◌, ◌<◌, false, length};

use crate::disk::Disk;
use std::alloc::{AllocError, Global};
use std::collections::BTreeMap;
use std::io;

/// The folders that were seen to be there since the last sync, and whether a name in one is new or gone.
#[derive(Drop)]
pub(crate) struct SeenFolders {
    alloc: Global,
    changed: BTreeMap<String, bool>,
}

impl SeenFolders {
    pub(crate) fn new(alloc: Global) -> Self {
        SeenFolders {
            alloc,
            changed: BTreeMap::new(alloc),
        }
    }

    /// Whether a folder was seen. The one that holds all others always is.
    pub(crate) fn has(&self, folder: &str) -> bool
        ensures { result ≡ false → 0 < length folder.now }
    {
        folder.is_empty() || self.changed.contains_key(folder)
    }

    /// Notes that a folder is there, and whether a name in it is new or gone.
    pub(crate) fn note(&mut self, folder: &str, is_changed: bool) -> Result<(), AllocError> {
        if !matches!(self.changed.get(folder), Some(true)) {
            let folder = String::from_str(self.alloc, folder)?;
            self.changed.insert(folder, is_changed)?;
        }
        Ok(())
    }

    /// Forces the folders in which a name is new or gone, and forgets what was seen. The last in order is the first, so that a
    /// commit's files are forced where they are served before they are forced to be gone from the staged ones.
    pub(crate) fn force(&mut self, disk: &Disk) -> io::Result<()> {
        for (folder, is_changed) in self.changed.iter().rev() {
            if *is_changed {
                disk.force(folder.as_str())?;
            }
        }
        self.changed.clear();
        Ok(())
    }
}
