//! The commands of a log. Those of them that read change no file and wait for no lock.

use crate::lines::Lines;
use crate::refusal::{Refusal, read, said};
use crate::session::{Counted, Log, Session};
use crate::usage::text;
use crate::verify::checkpoint_of;
use clap::ArgMatches;
use std::io::{Read, Write};
use warg_crypto::Sha256;
use warg_explorer::PAGE;
use warg_log::Checkpoint;
use warg_registry::{RegistryFolder, RegistryReader};
use warg_store::{
    CreateError, Folder, FolderLock, LogError, LogFolder, LogReader, MOST_TEXT, Path, Progress,
    SignError, SystemFolder,
};
use warg_tiles::CheckpointText;

// The most bytes of a signed note.
const MOST_NOTE: u64 = MOST_TEXT as u64;

const NO_ORIGIN: &str =
    "an origin has 1 to 65,535 bytes, and no space, plus sign or control character";

impl Session<'_> {
    /// Makes a log of no entries, or a registry of no insertions.
    pub fn init(&self, asked: &ArgMatches<'_>) -> Result<(), Refusal> {
        let origin = text(asked, "ORIGIN");
        if !is_origin(origin) {
            return Err(Refusal::Argument(NO_ORIGIN.into()));
        }
        let _lock = self.locked(FolderLock::create(self.rt, self.folder))?;
        let fault = "the origin isn't one line of text";
        match self.make(origin.as_bytes(), asked.get_flag("map")) {
            Ok(()) => Ok(()),
            Err(CreateError::Exists) => Err(Refusal::Exists(self.name()?)),
            Err(CreateError::Origin) => Err(Refusal::Argument(fault.into())),
            Err(CreateError::Folder(error)) => self.done(Err(LogError::Folder(error))),
        }
    }

    fn make(&self, origin: &[u8], has_map: bool) -> Result<(), CreateError> {
        let (alloc, files) = (self.rt.alloc(), self.files()?);
        if has_map {
            return RegistryFolder::create(alloc, files, origin).map(|_| ());
        }
        LogFolder::create(alloc, files, origin).map(|_| ())
    }

    /// Adds the entries of standard input, and prints the index of the first one and the new length.
    pub fn append(&self, asked: &ArgMatches<'_>) -> Result<(), Refusal> {
        let every = asked.get_one("every").unwrap_or(usize::MAX);
        if every == 0 {
            return Err(Refusal::Argument("--every has to be at least 1".into()));
        }
        let _lock = self.lock()?;
        self.append_to(&mut self.log()?, asked, every)
    }

    fn append_to(
        &self,
        log: &mut Log<'_>,
        asked: &ArgMatches<'_>,
        every: usize,
    ) -> Result<(), Refusal> {
        if names_map(log.text()) {
            return Err(Refusal::HasMap(self.name()?));
        }
        let first = length_of(asked, &log.checkpoint())?;
        self.push_all(log, every, asked.get_flag("binary"))?;
        self.done(log.commit())?;
        self.say_added(first, log.length())
    }

    // Adds the entries of standard input, and commits each so many of them.
    fn push_all(&self, log: &mut Log<'_>, every: usize, is_binary: bool) -> Result<(), Refusal> {
        let mut lines = Lines::new(self.rt)?;
        let mut counted = Counted(self.rt, 0);
        for _ in 0..u64::MAX {
            let Some(entry) = lines.next_entry(is_binary)? else {
                break;
            };
            self.done(log.push(entry))?;
            counted.step();
            if counted.1.checked_rem(every) == Some(0) {
                self.done(log.commit())?;
            }
        }
        Ok(())
    }

    /// Prints where the entries begin that were added, and the new length.
    pub fn say_added(&self, first: usize, length: usize) -> Result<(), Refusal> {
        said(println!(self.rt; "first {first}, length {length}"))
    }

    /// Serves the signed note on standard input as the log's checkpoint.
    pub fn sign(&self) -> Result<(), Refusal> {
        let mut note = Vec::new(self.rt.alloc());
        read(self.rt.reader().take(MOST_NOTE + 1).read_to_end(&mut note))?;
        let _lock = self.lock()?;
        let signed = self.log()?.sign(note.as_slice());
        match signed {
            Ok(()) => Ok(()),
            Err(SignError::Folder(error)) => self.done(Err(LogError::Folder(error))),
            Err(_) => Err(Refusal::Note(self.path(".log/state")?)),
        }
    }

    /// Removes the files that nothing needs any more, and prints how many these were.
    pub fn prune(&self) -> Result<(), Refusal> {
        let _lock = self.lock()?;
        let removed = self.pruned(self.log()?)?;
        said(println!(self.rt; "{removed} files removed"))
    }

    fn pruned(&self, mut log: Log<'_>) -> Result<usize, Refusal> {
        if !names_map(log.text()) {
            return self.done(log.prune());
        }
        let registry = RegistryFolder::open(self.rt.alloc(), log.into_folder());
        self.done(self.opened(registry)?.prune())
    }

    /// Makes each tile again from the bundles, and prints how many entries they have.
    pub fn rebuild(&self) -> Result<(), Refusal> {
        let _lock = self.lock()?;
        let mut counted = Counted(self.rt, 0);
        let made = warg_store::rebuild(self.rt.alloc(), &mut self.files()?, &mut counted);
        let length = self.done(made)?.length();
        said(println!(self.rt; "tiles of {length} entries made again"))
    }

    /// Puts the page that shows the log in a browser into the folder, as `index.html`.
    pub fn put_page(&self) -> Result<(), Refusal> {
        let _lock = self.lock()?;
        let put = self.files()?.replace("index.html", PAGE.as_bytes());
        self.done(put.map_err(LogError::Folder))
    }

    /// Prints the checkpoint's text.
    pub fn print_checkpoint(&self) -> Result<(), Refusal> {
        let text = self.done(self.reader()?.checkpoint_text())?;
        said(self.rt.stdout().write_all(text.as_slice()))
    }

    /// Prints the inclusion path of an entry, at a length or else at the checkpoint's.
    pub fn print_inclusion(&self, asked: &ArgMatches<'_>) -> Result<(), Refusal> {
        let mut log = self.reader()?;
        let index = asked.get_one("INDEX").unwrap_or(0);
        let length = asked.get_one("LENGTH").unwrap_or(log.checkpoint().length());
        self.print_path(log.inclusion_path(index, length))
    }

    /// Prints the consistency path from an old length to a new one, or else to the checkpoint's.
    pub fn print_consistency(&self, asked: &ArgMatches<'_>) -> Result<(), Refusal> {
        let mut log = self.reader()?;
        let old = asked.get_one("OLD").unwrap_or(0);
        let new = asked.get_one("NEW").unwrap_or(log.checkpoint().length());
        self.print_path(log.consistency_path(old, new))
    }

    fn print_path(&self, path: Result<Path, LogError>) -> Result<(), Refusal> {
        let path = self.done(path)?;
        'digests: for digest in path.as_slice() {
            said(println!(self.rt; "{digest}"))?;
        }
        Ok(())
    }

    /// Reads every entry and makes each tile again, of a registry also its map, and says what is as the entries have it.
    pub fn audit(&self) -> Result<(), Refusal> {
        let (checkpoint, pages) = self.audited(self.reader()?)?;
        let (length, root) = (checkpoint.length(), checkpoint.root());
        said(println!(self.rt;
            "{length} entries, root {root}: each file, partial ones of older lengths too,{pages} is as the entries have it"
        ))
    }

    // The checkpoint of a log that is as its entries have it, and what it has beside its tiles.
    fn audited(
        &self,
        mut log: LogReader<SystemFolder<'_>>,
    ) -> Result<(Checkpoint<Sha256>, &'static str), Refusal> {
        let mut counted = Counted(self.rt, 0);
        if !names_map(log.text()) {
            return Ok((self.done(log.audit(&mut counted))?, ""));
        }
        let registry = RegistryReader::open(self.rt.alloc(), log.into_folder());
        let audited = self.opened(registry)?.audit(&mut counted);
        Ok((self.done(audited)?, " and each page of the map"))
    }
}

/// The length of a log, which is refused if it isn't at the checkpoint that is asked for.
pub fn length_of(asked: &ArgMatches<'_>, at: &Checkpoint<Sha256>) -> Result<usize, Refusal> {
    let Some(from) = asked.get_str("from") else {
        return Ok(at.length());
    };
    let (length, root) = from.split_once(':').unwrap_or((from, ""));
    let fault = "--from has to be LENGTH:ROOT, the root in base64 or hexadecimal digits";
    match checkpoint_of(length, root) {
        Some(from) if from == *at => Ok(at.length()),
        Some(_) => Err(Refusal::Elsewhere(at.length())),
        None => Err(Refusal::Argument(fault.into())),
    }
}

// Whether a text is a log's name (C2SP tlog-checkpoint).
fn is_origin(text: &str) -> bool {
    let is_refused = |byte| byte <= b' ' || byte == b'+' || byte == 127;
    (1..65_536).contains(&text.len()) && !text.bytes().any(is_refused)
}

// Whether a checkpoint's text is a registry's: a further line is to name its map's root.
fn names_map(text: &CheckpointText<Sha256>) -> bool {
    let mut lines = text.extensions().iter();
    lines.any(|line| line.as_slice().starts_with(b"map "))
}
