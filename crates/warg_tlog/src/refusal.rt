//! Why a command is refused, with what to do instead, and the exit status.

use crate::session::Session;
use std::alloc::{AllocError, Global};
use std::borrow::CowStr;
use std::io;
use std::io::ErrorKind;
use thiserror::Error;
use warg_registry::{PublishError, RegistryError};
use warg_store::{Damage, FolderError, FolderLock, LockError, LogError};

/// Why a command is refused: a line on standard error.
#[derive(Debug, Drop, Error)]
pub enum Refusal {
    #[error("{0}; see warg_tlog --help")]
    Argument(CowStr<'static>),
    #[error("line {0} of standard input {1}")]
    Line(usize, &'static str),
    #[error("entry {0} of standard input {1}")]
    Entry(usize, &'static str),
    #[error("an entry on standard input has more than 65,535 bytes")]
    LongEntry,
    #[error("{0} is the text to sign: standard input isn't it with signatures after an empty line")]
    Note(String),
    #[error("{0} has no log: make one there by warg_tlog init FOLDER ORIGIN")]
    NoLog(String),
    #[error("{0} has a log already: add to it by warg_tlog append FOLDER, or name another folder")]
    Exists(String),
    #[error("{0} is locked by another run: wait for its end, and try again")]
    Locked(String),
    #[error("no such entry or length, the bound is {0}: see warg_tlog checkpoint FOLDER")]
    OutOfRange(usize),
    #[error("{0} {1}: {2}")]
    Damaged(String, &'static str, &'static str),
    #[error("{0} has {1} entries where the log has {2}: put back what .log/state has")]
    RolledBack(String, usize, usize),
    #[error("the log is at another checkpoint, of {0} entries")]
    Elsewhere(usize),
    #[error("{0} can't be written, as there is no room: make room")]
    NoRoom(CowStr<'static>),
    #[error("{0} can't be written: {1}")]
    Unwritable(CowStr<'static>, io::Error),
    #[error("{0} can't be written any more by this run: run the command again")]
    Lost(String),
    #[error("{0} can't be read: {1}")]
    Unreadable(CowStr<'static>, io::Error),
    #[error("out of memory: run the command again with more")]
    Memory(#[from(alloc)] AllocError),
    #[error("the log has 2^63 entries and takes no more: make another by warg_tlog init FOLDER ORIGIN")]
    Full,
    #[error("{0} is a registry, with a map: add insertions to it by warg_tlog publish FOLDER")]
    HasMap(String),
    #[error("{0} is a log without a map: add entries to it by warg_tlog append FOLDER, or make a registry by warg_tlog init --map FOLDER ORIGIN")]
    NoMap(String),
}

impl Refusal {
    /// The exit status.
    pub fn status(&self) -> u8 {
        match self {
            Refusal::Argument(_) => 2,
            Refusal::Line(..) | Refusal::Entry(..) | Refusal::LongEntry | Refusal::Note(_) => 3,
            Refusal::NoLog(_) => 4,
            Refusal::Exists(_) => 5,
            Refusal::Locked(_) => 6,
            Refusal::OutOfRange(_) => 7,
            Refusal::Damaged(..) => 8,
            Refusal::RolledBack(..) | Refusal::Elsewhere(_) => 9,
            Refusal::NoRoom(_) => 10,
            Refusal::Unwritable(..) | Refusal::Lost(_) => 11,
            Refusal::Unreadable(..) => 12,
            Refusal::Memory(_) => 13,
            Refusal::Full => 14,
            Refusal::HasMap(_) | Refusal::NoMap(_) => 15,
        }
    }

    /// What the line says behind the refusal: where a write was cut off, the log may have what was to be added.
    pub fn rest(&self) -> &'static str {
        match self {
            Refusal::NoRoom(_) | Refusal::Unwritable(..) | Refusal::Memory(_) =>
                "; what was to be added may be in the log, whose length warg_tlog append FOLDER < /dev/null (publish for a registry) prints",
            _ => "",
        }
    }

    /// That the command line isn't understood. What it says goes up to the first empty line.
    pub fn of_arguments(alloc: Global, error: &clap::Error) -> Result<Refusal, AllocError> {
        let text = error.to_string(alloc)?;
        let lines = text.lines().take_while(|line| !line.is_empty());
        let parts = lines.map(|line| line.strip_prefix("error:").unwrap_or(line).trim());
        let parts: Vec<&str> = parts.collect(alloc)?;
        Ok(Refusal::Argument(parts.join(alloc, " ")?.into()))
    }

    /// That the system refused a call on a file or a stream.
    pub fn of(path: impl Into<CowStr<'static>>, error: io::Error, is_read: bool) -> Refusal {
        let path = path.into();
        match error.kind() {
            ErrorKind::OutOfMemory => Refusal::Memory(AllocError),
            _ if is_read => Refusal::Unreadable(path, error),
            ErrorKind::StorageFull | ErrorKind::QuotaExceeded => Refusal::NoRoom(path),
            _ => Refusal::Unwritable(path, error),
        }
    }
}

/// What became of a write on standard output.
pub fn said(done: io::Result<()>) -> Result<(), Refusal> {
    done.map_err(|error| Refusal::of("standard output", error, false))
}

/// What a read of standard input returned.
pub fn read<T: Drop>(done: io::Result<T>) -> Result<T, Refusal> {
    done.map_err(|error| Refusal::of("standard input", error, true))
}

impl Session<'_> {
    /// What a call on a log or a registry returned, or the refusal for it.
    pub fn done<T: Drop, E: Into<PublishError>>(&self, done: Result<T, E>) -> Result<T, Refusal> {
        match done {
            Ok(value) => Ok(value),
            Err(error) => Err(self.of_call(error.into())?),
        }
    }

    /// What became of a registry that was to be opened.
    pub fn opened<T: Drop>(&self, opened: Result<T, RegistryError>) -> Result<T, Refusal> {
        match opened {
            Err(RegistryError::NoMap) => Err(Refusal::NoMap(self.name()?)),
            Err(RegistryError::Log(error)) => self.done(Err(error)),
            Ok(registry) => Ok(registry),
        }
    }

    /// What became of a lock that was to be taken.
    pub fn locked(&self, lock: Result<FolderLock, LockError>) -> Result<FolderLock, Refusal> {
        match lock {
            Ok(lock) => Ok(lock),
            Err(LockError::Locked) => Err(Refusal::Locked(self.name()?)),
            Err(LockError::NoLog) => Err(Refusal::NoLog(self.name()?)),
            Err(LockError::Failed(it)) => Err(Refusal::of(it.path, it.error, it.is_read)),
            Err(LockError::Memory) => Err(Refusal::Memory(AllocError)),
        }
    }

    // The refusal for a call on a log or a registry.
    fn of_call(&self, error: PublishError) -> Result<Refusal, AllocError> {
        Ok(match error {
            PublishError::TooLong => Refusal::LongEntry,
            PublishError::Full => Refusal::Full,
            PublishError::Closed => Refusal::Lost(self.name()?),
            PublishError::Log(LogError::NoLog) => Refusal::NoLog(self.name()?),
            PublishError::Log(LogError::Damaged(damage)) => self.of_damage(&damage)?,
            PublishError::Log(LogError::RolledBack { found, newest }) => {
                Refusal::RolledBack(self.path("checkpoint")?, found, newest)
            }
            PublishError::Log(LogError::OutOfRange { bound }) => Refusal::OutOfRange(bound),
            PublishError::Log(LogError::Folder(FolderError::Memory)) => Refusal::Memory(AllocError),
            PublishError::Log(LogError::Folder(FolderError::Failed)) => match self.fault.take() {
                Some(it) => Refusal::of(it.path, it.error, it.is_read),
                None => Refusal::Lost(self.name()?),
            },
        })
    }

    // The refusal for a file that is missing or corrupt.
    fn of_damage(&self, damage: &Damage) -> Result<Refusal, AllocError> {
        let path = self.path(damage.name.as_str())?;
        let remedy = match damage.name.as_str() {
            "checkpoint" =>
                "in a log without signatures copy it over .log/state if warg_tlog checkpoint FOLDER succeeds, else copy .log/state over it; in a signed log put it back from a copy of the log",
            ".log/state" =>
                "in a log without signatures copy checkpoint over it; in a signed log put it back from a copy of the log",
            name if name.starts_with("map") =>
                "put it back from a copy of the registry; warg_tlog audit FOLDER says which file differs",
            _ =>
                "put it back from a copy of the log; warg_tlog audit FOLDER says which file differs, and warg_tlog rebuild FOLDER makes tiles again from bundles",
        };
        Ok(Refusal::Damaged(path, damage.fault, remedy))
    }
}
