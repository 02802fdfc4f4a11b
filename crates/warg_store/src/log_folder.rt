//! A log in a folder, as whoever adds to it holds it.

ghost use Rattle.std.specs.Prelude.{◌≡◌, ◌+◌, ◌<◌, ◌≤◌, ◌⊎◌, ◌↔◌, ◌++◌, length, map, option_map, unwrap_or, true, false, Err, IfOk, IfErr, IfSome, OnOk, OnErr};
ghost use Rattle.std.specs.List.{AllByRecursion};
ghost use Rattle.warg_crypto.specs.Digests.{sha256};
ghost use Rattle.warg_log.specs.Tree.{leaves_of};
ghost use Rattle.warg_tiles.specs.CheckpointText.{IsLine, text_of};
ghost use Rattle.warg_tiles.specs.TileLog.{StandsFor};
ghost use Rattle.warg_folder.specs.Moments.{LeavesOnly, HasCause, HasCauseOf};
ghost use Rattle.warg_folder.specs.Commits.{IsBeside, IsStaging};
ghost use Rattle.warg_store.specs.Growing.{IsReady, IsSameBut, Has, HasAll, HasNext, IsEndOf, IsPut, ArePartsOf, with_entry, IsFresh, with_page, IsRefusedBy};
ghost use Rattle.warg_store.specs.Log.{LogOf, CanBeKept, IsCommitting, said_of};

use crate::log::{commit_log, stage_bundle, stage_tiles};
use std::alloc::{AllocError, Global};
use std::marker::Model;
use thiserror::Error;
use warg_crypto::Sha256;
use warg_folder::{Folder, FolderError, MOST_TEXT, page_name, stage};
use warg_log::{Checkpoint, GREATEST_LENGTH, LogBuilder};
use warg_tiles::{CheckpointText, EntryError, StoredTile, Tile, TileLog, push_entry};

/// Why an entry isn't added.
#[derive(Debug, PartialEq, Eq, Drop, Error)]
pub enum PushError {
    /// The entry has more than 65,535 bytes.
    #[error("entry has more than 65,535 bytes")]
    TooLong,
    /// The log has 2^63 entries.
    #[error("log has 2^63 entries")]
    Full,
    /// A commit has failed: open the folder again.
    #[error("a commit has failed")]
    Closed,
    /// A call on the folder was refused.
    #[error("{0}")]
    Folder(FolderError),
}

impl From<FolderError> for PushError {
    ghost use Rattle.warg_store.specs.declared.log_folder.PushError.TheVariants.{Folder};

    ghost from_gives = { λ cause error. error ≡ Folder cause };

    fn from(cause: FolderError) -> Self {
        PushError::Folder(cause)
    }
}

impl From<AllocError> for PushError {
    ghost use Rattle.warg_folder.specs.declared.device.FolderError.TheVariants.{Memory};
    ghost use Rattle.warg_store.specs.declared.log_folder.PushError.TheVariants.{Folder};

    ghost from_gives = { λ _ error. error ≡ Folder Memory };

    fn from(_error: AllocError) -> Self {
        PushError::Folder(FolderError::Memory)
    }
}

impl From<EntryError> for PushError {
    ghost use Rattle.warg_store.specs.Errors.{push_error};

    ghost from_gives = { λ cause error. error ≡ push_error cause };

    fn from(cause: EntryError) -> Self {
        match cause {
            EntryError::TooLong => PushError::TooLong,
            EntryError::Memory => PushError::Folder(FolderError::Memory),
        }
    }
}

/// Why a commit is refused.
#[derive(Debug, PartialEq, Eq, Drop, Error)]
pub enum CommitError {
    /// Memory was refused before anything was written.
    #[error("out of memory")]
    Memory,
    /// The checkpoint's text would have more than 2^20 bytes.
    #[error("checkpoint's text has more than 2^20 bytes")]
    TooLong,
    /// An earlier commit has failed: open the folder again.
    #[error("a commit has failed")]
    Closed,
    /// A call on the folder was refused: open it again.
    #[error("{0}")]
    Folder(FolderError),
}

impl From<AllocError> for CommitError {
    ghost use Rattle.warg_store.specs.declared.log_folder.CommitError.TheVariants.{Memory};

    ghost from_gives = { λ _ error. error ≡ Memory };

    fn from(_error: AllocError) -> Self {
        CommitError::Memory
    }
}

impl From<FolderError> for CommitError {
    ghost use Rattle.warg_store.specs.declared.log_folder.CommitError.TheVariants.{Folder};

    ghost from_gives = { λ cause error. error ≡ Folder cause };

    fn from(cause: FolderError) -> Self {
        CommitError::Folder(cause)
    }
}

/// A log in a folder, with the right edge of all that was pushed: at most 255 digests of each level, and the entries that fill
/// no bundle yet. So its memory doesn't grow with the log; a commit lists the names of the files that it stages.
#[derive(Drop)]
pub struct LogFolder<F: Folder + Drop> {
    pub(crate) alloc: Global,
    pub(crate) folder: F,
    text: CheckpointText<Sha256>,
    is_open: bool,
    edge: TileLog<Sha256, Vec<u8>>,
    entry: Vec<u8>,
    bundle: Vec<u8>,
    held: usize,
}

impl<F: Folder + Drop> Model for LogFolder<F> {
    ghost use Rattle.warg_store.specs.Growing.{LogIn};

    ghost Value = { LogIn F };

    ghost view = { λ l. record {
      folder = l.folder;
      text = l.text;
      is_open = l.is_open;
      edge = l.edge;
      bundle = l.bundle.items;
      held = l.held;
    } };
}

// What a log's end has for a commit: the checkpoint's text, the same in bytes, and the partial tiles.
#[derive(Drop)]
struct LogEnd {
    text: CheckpointText<Sha256>,
    bytes: Vec<u8>,
    tiles: Vec<StoredTile<Sha256>>,
}

impl<F: Folder + Drop> LogFolder<F> {
    // The log of a folder that keeps this checkpoint, with its right edge and the entries of its last bundle.
    pub(crate) fn with(
        alloc: Global,
        folder: F,
        text: CheckpointText<Sha256>,
        edge: TileLog<Sha256, Vec<u8>>,
        bundle: Vec<u8>,
        held: usize,
    ) -> Self
        ensures { result ≡ record {
          folder = folder;
          text = text;
          is_open = true;
          edge = edge;
          bundle = bundle.items;
          held = held;
        } }
    {
        LogFolder {
            alloc,
            folder,
            text,
            is_open: true,
            edge,
            entry: Vec::new(alloc),
            bundle,
            held,
        }
    }

    /// The number of entries, those included that aren't committed.
    pub fn length(&self) -> usize
        ensures value { result ≡ self.now.edge.len }
        ensures fits { result ≤ GREATEST_LENGTH }
    {
        self.edge.length()
    }

    /// The checkpoint of the log's state: what the last commit has kept.
    pub fn checkpoint(&self) -> Checkpoint<Sha256>
        ensures length { result.length ≡ self.now.text.length }
        ensures root { result.root ≡ self.now.text.root }
        ensures fits { result.length ≤ GREATEST_LENGTH }
    {
        self.text.checkpoint()
    }

    /// What the text of the log's state says: what the last commit has kept.
    pub fn text(&self) -> &CheckpointText<Sha256>
        ensures { result.now ≡ self.now.text }
    {
        &self.text
    }

    // The text of the log's state.
    pub(crate) fn state_text(&self) -> Result<Vec<u8>, AllocError>
        ensures { IfOk result (λ bytes. bytes.items ≡ text_of self.now.text) }
    {
        self.text.write(self.alloc)
    }

    /// The log's origin.
    pub fn origin(&self) -> &[u8]
        ensures value { result.now ≡ self.now.text.origin }
        ensures line { IsLine result.now }
    {
        self.text.origin()
    }

    /// The folder, as it is: what was pushed and not committed is dropped once it is opened again.
    pub fn into_folder(self) -> F
        ensures { result ≡ self.folder }
    {
        self.folder
    }

    /// Adds an entry after the others. Nothing that is served changes before a commit. `TooLong` exactly if the entry has
    /// more than 65,535 bytes, else `Full` exactly if the log has 2^63 entries, else `Closed` exactly if a commit has failed:
    /// each leaves the log as it was. Else it fails only if memory is refused or the device fails: no entry is added, and the
    /// folder is then opened again.
    pub fn push(&mut self, entry: &[u8]) -> Result<(), PushError>
        requires { F.IsFaithful → IsReady F.seen F.may_leave self.old }
        ensures pushed { F.IsFaithful → OnOk result ((served old next : LogOf)
            → Has F.seen F.may_leave served old next self.old
            → Has F.seen F.may_leave served old (with_entry next entry.now) self.new) }
        ensures ready { F.IsFaithful → IsReady F.seen F.may_leave self.new }
        ensures text { self.new.text ≡ self.old.text }
        ensures length { OnOk result (self.new.edge.len ≡ self.old.edge.len + 1) }
        ensures refused { OnErr result (self.new.edge.len ≡ self.old.edge.len) }
        ensures kept { (65535 < length entry.now) ⊎ (GREATEST_LENGTH ≤ self.old.edge.len) ⊎ (self.old.is_open ≡ false)
            → self.new ≡ self.old }
        ensures too_long { (result ≡ Err PushError.TooLong) ↔ (65535 < length entry.now) }
        ensures full { (result ≡ Err PushError.Full)
            ↔ ((length entry.now ≤ 65535) × (GREATEST_LENGTH ≤ self.old.edge.len)) }
        ensures closed { (result ≡ Err PushError.Closed) ↔ ((length entry.now ≤ 65535)
            × (self.old.edge.len < GREATEST_LENGTH) × (self.old.is_open ≡ false)) }
        ensures cause { HasCauseOf (PushError.Folder FolderError.Failed) F.IsFaithful
            (F.faults self.old.folder) (F.faults self.new.folder) result }
        ensures any_moment { F.IsFaithful → self.old.is_open ≡ true
            → LeavesOnly F.moment F.left_since self.old.folder self.new.folder
            (IsBeside (F.seen self.old.folder)) }
    {
        if entry.len() > 65_535 {
            return Err(PushError::TooLong);
        }
        if self.edge.length() >= GREATEST_LENGTH {
            return Err(PushError::Full);
        }
        if !self.is_open {
            return Err(PushError::Closed);
        }
        self.make_room()?;
        self.add(entry)
    }

    /// Puts a page beside what was pushed: a file at this path below `map/`, which no page has that is served, kept or to be
    /// kept. Nothing that is served changes before a commit, and only a commit of at least one new entry keeps the page. `Closed`
    /// exactly if a commit has failed; else it fails only if memory is refused or the device fails, and the folder is then opened
    /// again.
    pub fn put_page(&mut self, path: &str, bytes: &[u8]) -> Result<(), PushError>
        requires { F.IsFaithful → IsReady F.seen F.may_leave self.old }
        ensures page { F.IsFaithful → OnOk result ((served old next : LogOf)
            → Has F.seen F.may_leave served old next self.old → IsFresh served old next path.now
            → Has F.seen F.may_leave served old (with_page next (path.now, bytes.now)) self.new) }
        ensures ready { F.IsFaithful → IsReady F.seen F.may_leave self.new }
        ensures same { IsSameBut self.old self.new }
        ensures closed { (result ≡ Err PushError.Closed) ↔ (self.old.is_open ≡ false) }
        ensures refused { OnErr result ((result ≡ Err PushError.TooLong → ⊥) × (result ≡ Err PushError.Full → ⊥)) }
        ensures any_moment { F.IsFaithful → self.old.is_open ≡ true
            → LeavesOnly F.moment F.left_since self.old.folder self.new.folder
            (IsBeside (F.seen self.old.folder)) }
        ensures cause { HasCauseOf (PushError.Folder FolderError.Failed) F.IsFaithful
            (F.faults self.old.folder) (F.faults self.new.folder) result }
    {
        if self.is_open {
            let name = page_name(self.alloc, path)?;
            stage(self.alloc, &mut self.folder, name.as_str(), bytes)?;
            Ok(())
        } else {
            Err(PushError::Closed)
        }
    }

    /// Keeps what was pushed, and serves it, unless the checkpoint is signed: that one is served until another is signed. All
    /// of it or nothing, whatever happens at whatever moment; after `Ok` a crash leaves all of it. The checkpoint's text keeps
    /// its further lines. No file below `tile/` or `map/` changes its bytes. A commit of no new entry changes nothing, and
    /// keeps no page.
    ///
    /// `Closed` exactly if an earlier commit has failed. `TooLong` where the checkpoint's text would have more than 2^20 bytes.
    /// It and `Memory` come only before anything is written, and the log is as it was. After `Folder` it takes no more: open
    /// the folder again.
    pub fn commit(&mut self) -> Result<(), CommitError>
        requires { F.IsFaithful → IsReady F.seen F.may_leave self.old }
        ensures ready { F.IsFaithful → IsReady F.seen F.may_leave self.new }
        ensures any_moment { F.IsFaithful → (served old next : LogOf)
            → Has F.seen F.may_leave served old next self.old → next.lines ≡ old.lines
            → LeavesOnly F.moment F.left_since self.old.folder self.new.folder
            (IsCommitting served old next (F.seen self.old.folder)) }
        ensures committed { F.IsFaithful → OnOk result ((served old next : LogOf)
            → Has F.seen F.may_leave served old next self.old → next.lines ≡ old.lines
            → HasNext F.seen F.may_leave served next self.new) }
        ensures closed { (result ≡ Err CommitError.Closed) ↔ (self.old.is_open ≡ false) }
        ensures refused { IfErr result (λ error. IsRefusedBy error self.old self.new) }
        ensures too_long { result ≡ Err CommitError.TooLong → (served old next : LogOf)
            → Has F.seen F.may_leave served old next self.old → next.lines
            ≡ old.lines
            → CanBeKept next → ⊥ }
        ensures cause { HasCauseOf (CommitError.Folder FolderError.Failed) F.IsFaithful
            (F.faults self.old.folder) (F.faults self.new.folder) result }
    {
        self.commit_lines(None)
    }

    /// As [`commit`](Self::commit), with these as the further lines of the checkpoint's text. Without a new entry the text keeps
    /// the lines that it has.
    pub fn commit_with(&mut self, lines: &[Vec<u8>]) -> Result<(), CommitError>
        requires ready { F.IsFaithful → IsReady F.seen F.may_leave self.old }
        requires lines { AllByRecursion IsLine (map (λ l. l.items) lines.now) }
        ensures ready { F.IsFaithful → IsReady F.seen F.may_leave self.new }
        ensures any_moment { F.IsFaithful → (served old next : LogOf)
            → Has F.seen F.may_leave served old next self.old → next.lines
            ≡ map (λ l. l.items) lines.now
            → LeavesOnly F.moment F.left_since self.old.folder self.new.folder
            (IsCommitting served old next (F.seen self.old.folder)) }
        ensures committed { F.IsFaithful → OnOk result ((served old next : LogOf)
            → Has F.seen F.may_leave served old next self.old → next.lines
            ≡ map (λ l. l.items) lines.now
            → HasNext F.seen F.may_leave served next self.new) }
        ensures closed { (result ≡ Err CommitError.Closed) ↔ (self.old.is_open ≡ false) }
        ensures refused { IfErr result (λ error. IsRefusedBy error self.old self.new) }
        ensures too_long { result ≡ Err CommitError.TooLong → (served old next : LogOf)
            → Has F.seen F.may_leave served old next self.old → next.lines
            ≡ map (λ l. l.items) lines.now
            → CanBeKept next → ⊥ }
        ensures cause { HasCauseOf (CommitError.Folder FolderError.Failed) F.IsFaithful
            (F.faults self.old.folder) (F.faults self.new.folder) result }
    {
        self.commit_lines(Some(lines))
    }

    // Keeps what was pushed, with these further lines, or those of the state's text.
    fn commit_lines(&mut self, lines: Option<&[Vec<u8>]>) -> Result<(), CommitError>
        requires ready { F.IsFaithful → IsReady F.seen F.may_leave self.old }
        requires lines { IfSome lines (λ ls. AllByRecursion IsLine (map (λ l. l.items) ls.now)) }
        ensures ready { F.IsFaithful → IsReady F.seen F.may_leave self.new }
        ensures any_moment { F.IsFaithful → (served old next : LogOf)
            → Has F.seen F.may_leave served old next self.old → next.lines
            ≡ unwrap_or (option_map (λ ls. map (λ l. l.items) ls.now) lines.entry) old.lines
            → LeavesOnly F.moment F.left_since self.old.folder self.new.folder
            (IsCommitting served old next (F.seen self.old.folder)) }
        ensures committed { F.IsFaithful → OnOk result ((served old next : LogOf)
            → Has F.seen F.may_leave served old next self.old → next.lines
            ≡ unwrap_or (option_map (λ ls. map (λ l. l.items) ls.now) lines.entry) old.lines
            → HasNext F.seen F.may_leave served next self.new) }
        ensures closed { (result ≡ Err CommitError.Closed) ↔ (self.old.is_open ≡ false) }
        ensures refused { IfErr result (λ error. IsRefusedBy error self.old self.new) }
        ensures too_long { result ≡ Err CommitError.TooLong → (served old next : LogOf)
            → Has F.seen F.may_leave served old next self.old → next.lines
            ≡ unwrap_or (option_map (λ ls. map (λ l. l.items) ls.now) lines.entry) old.lines
            → CanBeKept next → ⊥ }
        ensures cause { HasCauseOf (CommitError.Folder FolderError.Failed) F.IsFaithful
            (F.faults self.old.folder) (F.faults self.new.folder) result }
    {
        if !self.is_open {
            return Err(CommitError::Closed);
        }
        if self.edge.length() == self.text.checkpoint().length() {
            return Ok(());
        }
        let end = self.end(lines)?;
        match self.put(&end) {
            Ok(()) => {
                self.text = end.text;
                Ok(())
            }
            Err(error) => {
                self.is_open = false;
                Err(CommitError::Folder(error))
            }
        }
    }

    // What the log's end has for the next commit.
    fn end(&self, lines: Option<&[Vec<u8>]>) -> Result<LogEnd, CommitError>
        requires { IfSome lines (λ ls. AllByRecursion IsLine (map (λ l. l.items) ls.now)) }
        ensures is { IfOk result (λ end. (served old next : LogOf) → Has F.seen F.may_leave served old next self.now
            → next.lines ≡ unwrap_or (option_map (λ ls. map (λ l. l.items) ls.now) lines.entry) old.lines
            → IsEndOf next end.text end.bytes.items end.tiles.items) }
        ensures short { IfOk result (λ end. length end.bytes.items ≤ MOST_TEXT) }
        ensures refused { IfErr result (λ error. (error ≡ CommitError.Memory) ⊎ (error ≡ CommitError.TooLong)) }
        ensures too_long { result ≡ Err CommitError.TooLong → (served old next : LogOf)
            → Has F.seen F.may_leave served old next self.now
            → next.lines ≡ unwrap_or (option_map (λ ls. map (λ l. l.items) ls.now) lines.entry) old.lines
            → CanBeKept next → ⊥ }
    {
        let text = self.next_text(self.lines_or(lines))?;
        let bytes = text.write(self.alloc)?;
        if bytes.len() > MOST_TEXT {
            return Err(CommitError::TooLong);
        }
        let tiles = self.edge.partial(self.alloc)?;
        Ok(LogEnd { text, bytes, tiles })
    }

    // Stages what the log's end has, and commits all that is staged.
    fn put(&mut self, end: &LogEnd) -> Result<(), FolderError>
        requires staging { F.IsFaithful → IsStaging (F.seen self.old.folder) (F.may_leave self.old.folder) }
        requires short { length end.now.bytes.items ≤ MOST_TEXT }
        ensures ready { F.IsFaithful
            → OnOk result (IsStaging (F.seen self.new.folder) (F.may_leave self.new.folder)) }
        ensures same { IsSameBut self.old self.new }
        ensures any_moment { F.IsFaithful → (served old next : LogOf)
            → Has F.seen F.may_leave served old next self.old → self.old.text.length < self.old.edge.len
            → IsEndOf next end.now.text end.now.bytes.items end.now.tiles.items
            → LeavesOnly F.moment F.left_since self.old.folder self.new.folder
            (IsCommitting served old next (F.seen self.old.folder)) }
        ensures put { F.IsFaithful → OnOk result ((served old next : LogOf)
            → Has F.seen F.may_leave served old next self.old → self.old.text.length < self.old.edge.len
            → IsEndOf next end.now.text end.now.bytes.items end.now.tiles.items
            → IsPut F.seen F.may_leave served next self.new) }
        ensures cause { HasCause F.IsFaithful (F.faults self.old.folder) (F.faults self.new.folder) result }
    {
        self.stage_edge(end.tiles.as_slice())?;
        commit_log(self.alloc, &mut self.folder, end.bytes.as_slice())?;
        let _ = self.edge.take_full();
        Ok(())
    }

    // These lines, or where none are given the further ones of the state's text.
    fn lines_or<'a>(&'a self, lines: Option<&'a [Vec<u8>]>) -> &'a [Vec<u8>]
        requires { IfSome lines (λ ls. AllByRecursion IsLine (map (λ l. l.items) ls.now)) }
        ensures these { map (λ l. l.items) result.now
            ≡ unwrap_or (option_map (λ ls. map (λ l. l.items) ls.now) lines.entry) self.now.text.extensions }
        ensures each { AllByRecursion IsLine (map (λ l. l.items) result.now) }
    {
        match lines {
            Some(lines) => lines,
            None => self.text.extensions(),
        }
    }

    // The text of the checkpoint over all that was pushed, with these further lines.
    fn next_text(&self, lines: &[Vec<u8>]) -> Result<CheckpointText<Sha256>, CommitError>
        ensures said { IfOk result (λ text. (log : LogOf) → self.now.text.origin ≡ log.origin
            → map (λ l. l.items) lines.now ≡ log.lines
            → StandsFor sha256 self.now.edge (leaves_of sha256 log.entries) → text ≡ said_of log) }
        ensures line { IsLine self.now.text.origin }
        ensures fits { self.now.edge.len ≤ GREATEST_LENGTH }
        ensures memory { IfErr result (λ error. error ≡ CommitError.Memory) }
    {
        match CheckpointText::new(self.alloc, self.text.origin(), self.edge.checkpoint()) {
            Ok(text) => with_lines(text, lines),
            Err(_) => Err(CommitError::Memory),
        }
    }

    // Stages what the log's end has of tiles and of a bundle.
    fn stage_edge(&mut self, tiles: &[StoredTile<Sha256>]) -> Result<(), FolderError>
        requires { F.IsFaithful → IsStaging (F.seen self.old.folder) (F.may_leave self.old.folder) }
        ensures ready { F.IsFaithful → IsStaging (F.seen self.new.folder) (F.may_leave self.new.folder) }
        ensures same { IsSameBut self.old self.new }
        ensures any_moment { F.IsFaithful → LeavesOnly F.moment F.left_since self.old.folder self.new.folder
            (IsBeside (F.seen self.old.folder)) }
        ensures staged { F.IsFaithful → OnOk result ((served old next : LogOf)
            → Has F.seen F.may_leave served old next self.old → self.old.text.length < self.old.edge.len
            → ArePartsOf next tiles.now
            → HasAll F.seen F.may_leave served old next self.new) }
        ensures cause { HasCause F.IsFaithful (F.faults self.old.folder) (F.faults self.new.folder) result }
    {
        self.make_room()?;
        let older = self.text.checkpoint().length();
        stage_tiles(self.alloc, &mut self.folder, older, tiles)?;
        let number = self.edge.length() / 256;
        if self.held == 0 {
            return Ok(());
        }
        let tile = Tile::new(0, number, self.held);
        stage_bundle(self.alloc, &mut self.folder, &tile, self.bundle.as_slice())
    }

    // Stages a full bundle and the tiles that it filled, if there is one.
    fn make_room(&mut self) -> Result<(), FolderError>
        requires { F.IsFaithful → IsStaging (F.seen self.old.folder) (F.may_leave self.old.folder) }
        ensures ready { F.IsFaithful → IsStaging (F.seen self.new.folder) (F.may_leave self.new.folder) }
        ensures any_moment { F.IsFaithful → LeavesOnly F.moment F.left_since self.old.folder self.new.folder
            (IsBeside (F.seen self.old.folder)) }
        ensures same { IsSameBut self.old self.new }
        ensures room { OnOk result (self.new.held < 256) }
        ensures has { F.IsFaithful → OnOk result ((served old next : LogOf)
            → Has F.seen F.may_leave served old next self.old
            → Has F.seen F.may_leave served old next self.new) }
        ensures cause { HasCause F.IsFaithful (F.faults self.old.folder) (F.faults self.new.folder) result }
    {
        if self.held < 256 {
            return Ok(());
        }
        self.stage_full()
    }

    // Stages the bundle of 256 entries, and the tiles that they filled.
    fn stage_full(&mut self) -> Result<(), FolderError>
        requires { F.IsFaithful → IsStaging (F.seen self.old.folder) (F.may_leave self.old.folder) }
        ensures ready { F.IsFaithful → IsStaging (F.seen self.new.folder) (F.may_leave self.new.folder) }
        ensures any_moment { F.IsFaithful → LeavesOnly F.moment F.left_since self.old.folder self.new.folder
            (IsBeside (F.seen self.old.folder)) }
        ensures same { IsSameBut self.old self.new }
        ensures held { OnOk result (self.new.held ≡ 0) }
        ensures has { F.IsFaithful → OnOk result ((served old next : LogOf) → self.old.held ≡ 256
            → Has F.seen F.may_leave served old next self.old
            → Has F.seen F.may_leave served old next self.new) }
        ensures cause { HasCause F.IsFaithful (F.faults self.old.folder) (F.faults self.new.folder) result }
    {
        stage_tiles(
            self.alloc,
            &mut self.folder,
            self.text.checkpoint().length(),
            self.edge.full(),
        )?;
        let tile = Tile::new(0, self.edge.length().saturating_sub(1) / 256, 256);
        stage_bundle(self.alloc, &mut self.folder, &tile, self.bundle.as_slice())?;
        let _ = self.edge.take_full();
        self.bundle.clear();
        self.held = 0;
        Ok(())
    }

    // Adds an entry to the right edge and to the bundle, or leaves both as they were.
    fn add(&mut self, entry: &[u8]) -> Result<(), PushError>
        requires short { length entry.now < 65536 }
        requires room { self.old.held < 256 }
        requires fits { self.old.edge.len < GREATEST_LENGTH }
        ensures folder { self.new.folder ≡ self.old.folder }
        ensures length { OnOk result (self.new.edge.len ≡ self.old.edge.len + 1) }
        ensures refused { OnErr result (self.new ≡ self.old) }
        ensures memory { OnErr result (result ≡ Err (PushError.Folder FolderError.Memory)) }
        ensures has { OnOk result ((served old next : LogOf)
            → Has F.seen F.may_leave served old next self.old
            → Has F.seen F.may_leave served old (with_entry next entry.now) self.new) }
        ensures same { (self.new.text ≡ self.old.text) × (self.new.is_open ≡ self.old.is_open) }
    {
        self.entry.clear();
        self.entry.extend_from_slice(entry)?;
        let before = self.bundle.len();
        push_entry(&mut self.bundle, entry)?;
        match self.edge.push(&self.entry) {
            Ok(_) => {
                self.held += 1;
                Ok(())
            }
            Err(_) => {
                self.bundle.truncate(before);
                Err(PushError::Folder(FolderError::Memory))
            }
        }
    }
}

// The text with further lines after its own.
pub(crate) fn with_lines(
    mut text: CheckpointText<Sha256>,
    lines: &[Vec<u8>],
) -> Result<CheckpointText<Sha256>, CommitError>
    ensures longer { IfOk result (λ longer. longer ≡ record text {
      extensions = text.extensions ++ map (λ l. l.items) lines.now;
    }) }
    ensures memory { IfErr result (λ error. error ≡ CommitError.Memory) }
{
    'lines: for line in lines {
        if text.push_extension(line.as_slice()).is_err() {
            return Err(CommitError::Memory);
        }
    }
    Ok(text)
}
