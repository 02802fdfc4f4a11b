//! A command's run on one folder: its runtime, the folder's name, and what the system refused.

use crate::refusal::Refusal;
use std::alloc::AllocError;
use std::cell::Cell;
use warg_store::{Fault, FolderLock, LogFolder, LogReader, Progress, SystemFolder};

/// A log in a folder of the system's.
pub type Log<'a> = LogFolder<SystemFolder<'a>>;

/// A command's run on one folder.
#[derive(Drop)]
pub struct Session<'a> {
    pub rt: &'a HostRuntime,
    /// The folder's name.
    pub folder: &'a str,
    /// The last call of the system that was refused.
    pub fault: Cell<Option<Fault>>,
}

impl<'a> Session<'a> {
    /// The run on the folder of this name.
    pub fn new(rt: &'a HostRuntime, folder: &'a str) -> Result<Session<'a>, Refusal> {
        if folder.is_empty() {
            return Err(Refusal::Argument("the folder has no name".into()));
        }
        Ok(Session {
            rt,
            folder,
            fault: Cell::new(None),
        })
    }

    /// The folder's files.
    pub fn files(&self) -> Result<SystemFolder<'_>, AllocError> {
        SystemFolder::new(self.rt, self.folder, &self.fault)
    }

    /// The folder's log, for those who read.
    pub fn reader(&self) -> Result<LogReader<SystemFolder<'_>>, Refusal> {
        self.done(LogReader::open(self.rt.alloc(), self.files()?))
    }

    /// The folder's log, for the one who holds the folder's lock.
    pub fn log(&self) -> Result<Log<'_>, Refusal> {
        self.done(LogFolder::open(self.rt.alloc(), self.files()?))
    }

    /// The folder's lock, for the one who writes.
    pub fn lock(&self) -> Result<FolderLock, Refusal> {
        self.locked(FolderLock::take(self.rt, self.folder))
    }

    /// The path of a file of the folder.
    pub fn path(&self, name: &str) -> Result<String, AllocError> {
        format!(in self.rt.alloc(); "{}/{name}", self.folder)
    }

    /// The folder's own path.
    pub fn name(&self) -> Result<String, AllocError> {
        String::from_str(self.rt.alloc(), self.folder)
    }
}

/// A count of entries, of which a line on standard error tells each million.
#[derive(Drop)]
pub struct Counted<'a>(pub &'a HostRuntime, pub usize);

impl Progress for Counted<'_> {
    fn step(&mut self) {
        self.1 = self.1.saturating_add(1);
        if self.1 % 1_000_000 == 0 {
            let _ = eprintln!(self.0; "warg_tlog: {} entries", self.1);
        }
    }
}
