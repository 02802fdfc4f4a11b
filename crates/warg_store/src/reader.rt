//! A log as a folder serves it, as whoever reads it holds it.

ghost use Rattle.std.specs.Prelude.{◌≡◌, ◌⊎◌, ◌+◌, ◌-◌, ◌*◌, ◌<◌, ◌≤◌, length, map, take, min, Some, None, IsErrAnd, IfOk, IfErr, OnOk, MatchResult, option_map, slice_get};
ghost use Rattle.warg_tiles.specs.CheckpointText.{Said, text_of};
ghost use Rattle.warg_store.specs.Audited.{HasOlder, IsOfEntries, ShowsLogAndOlder};
ghost use Rattle.warg_store.specs.Log.{LogOf, HasLog, Serves, IsOneOf};
ghost use Rattle.warg_folder.specs.Moments.{IsRead, HasCause, HasLostCause};
ghost use Rattle.warg_folder.specs.Names.{checkpoint, page_name};
ghost use Rattle.warg_store.specs.Opening.{IsAtRest};
ghost use Rattle.warg_store.specs.Reading.{Reads, checkpoint_said, bundle_in, inclusion_in, consistency_in, IsShown, IncludesBy, GrowsBy};
ghost use Rattle.warg_store.specs.Refusals.{IsNoFault, HasLogCause};

use crate::auditing::{Progress, audited};
use crate::edge::{open_edge, read_edge};
use crate::error::LogError;
use crate::opening::{read_newest, read_text};
use crate::pages::read_page;
use crate::reading::{Path, entry, growth, inclusion, read_entries, read_entry};
use std::alloc::Global;
use std::marker::Model;
use warg_crypto::Sha256;
use warg_folder::{CHECKPOINT, Folder, FolderError};
use warg_log::Checkpoint;
use warg_tiles::CheckpointText;

/// A log as a folder serves it, for those who read: no call changes the folder, and none needs a lock. Whatever commits go on
/// meanwhile, the files of the checkpoint that was read stay, until a `prune` that follows a newer checkpoint.
#[derive(Drop)]
pub struct LogReader<F: Folder + Drop> {
    alloc: Global,
    folder: F,
    text: CheckpointText<Sha256>,
}

impl<F: Folder + Drop> Model for LogReader<F> {
    ghost use Rattle.warg_store.specs.Reading.{ServedIn};

    ghost Value = { ServedIn F };

    ghost view = { λ r. record { folder = r.folder; text = r.text } };
}

impl<F: Folder + Drop> LogReader<F> {
    /// Reads a folder's checkpoint. `NoLog` where neither it nor the log's state is there; `RolledBack` where the state is
    /// newer, no commit is under way, and the checkpoint isn't signed; `Damaged` where either is corrupt, the checkpoint
    /// alone is missing, or it is older than the state and has another origin.
    pub fn open(alloc: Global, mut folder: F) -> Result<LogReader<F>, LogError>
        ensures reads { F.IsFaithful → IfOk result (λ reader. (log : LogOf) → Serves log (F.seen folder)
            → Reads F.seen log reader) }
        ensures opens { F.IsFaithful → (served kept : LogOf) → HasLog served kept (F.seen folder)
            → IfErr result (IsNoFault ⊥) }
        ensures newest { F.IsFaithful → (kept : Said) → IsAtRest kept (F.seen folder)
            → IfOk result (λ reader. kept.length ≤ reader.text.length) }

        // At each moment of a commit, a signing or a pruning it reads the log that was served, or the next one.
        ensures meanwhile { F.IsFaithful → (served old next : LogOf) → IsOneOf served old next (F.seen folder)
            → MatchResult result (λ reader. Reads F.seen served reader ⊎ Reads F.seen next reader) (IsNoFault ⊥) }

        ensures cause { HasLostCause F.faults (LogError.Folder FolderError.Failed) F.IsFaithful folder result }
    {
        let text = read_newest(alloc, &mut folder)?;
        Ok(LogReader {
            alloc,
            folder,
            text,
        })
    }

    /// Reads the checkpoint that a folder serves, and no other file: as [`open`](LogReader::open), but for the comparison with
    /// the log's state, so an older checkpoint that was put back isn't noticed. `NoLog` where there is none; `Damaged` where
    /// it is corrupt.
    pub fn open_served(alloc: Global, mut folder: F) -> Result<LogReader<F>, LogError>
        ensures reads { F.IsFaithful → IfOk result (λ reader. (log : LogOf) → Serves log (F.seen folder)
            → Reads F.seen log reader) }
        ensures opens { F.IsFaithful → (log : LogOf) → Serves log (F.seen folder) → IfErr result (IsNoFault ⊥) }
        ensures none { F.IsFaithful → F.seen folder checkpoint ≡ None
            → IsErrAnd result (λ error. (error ≡ LogError.NoLog) ⊎ IsNoFault ⊥ error) }

        // At each moment of a commit, a signing or a pruning it reads the log that was served, or the next one.
        ensures meanwhile { F.IsFaithful → (served old next : LogOf) → IsOneOf served old next (F.seen folder)
            → MatchResult result (λ reader. Reads F.seen served reader ⊎ Reads F.seen next reader) (IsNoFault ⊥) }

        ensures cause { HasLostCause F.faults (LogError.Folder FolderError.Failed) F.IsFaithful folder result }
    {
        match read_text(alloc, &mut folder, CHECKPOINT)? {
            Some(text) => Ok(LogReader {
                alloc,
                folder,
                text,
            }),
            None => Err(LogError::NoLog),
        }
    }

    /// The folder.
    pub fn into_folder(self) -> F
        ensures { result ≡ self.folder }
    {
        let LogReader { folder, .. } = self;
        folder
    }

    /// The checkpoint.
    pub fn checkpoint(&self) -> Checkpoint<Sha256>
        ensures { result ≡ checkpoint_said self.now.text }
    {
        self.text.checkpoint()
    }

    /// The log's origin.
    pub fn origin(&self) -> &[u8]
        ensures { result.now ≡ self.now.text.origin }
    {
        self.text.origin()
    }

    /// What the checkpoint's text says.
    pub fn text(&self) -> &CheckpointText<Sha256>
        ensures { result.now ≡ self.now.text }
    {
        &self.text
    }

    /// As [`LogFolder::page`].
    pub fn page(&mut self, path: &str, most: usize) -> Result<Option<Vec<u8>>, FolderError>
        ensures found { F.IsFaithful → IfOk result (λ found. option_map (λ v. v.items) found
            ≡ option_map (take (most + 1)) (F.seen self.old.folder (page_name path.now))) }
        ensures same { self.new ≡ record self.old { folder = self.new.folder } }
        ensures read { F.IsFaithful
            → IsRead F.seen F.may_leave F.moment F.left_since self.old.folder self.new.folder }
        ensures cause { HasCause F.IsFaithful (F.faults self.old.folder) (F.faults self.new.folder) result }
    {
        read_page(self.alloc, &mut self.folder, path, most)
    }

    /// The checkpoint's text, without its signatures, once the log's last tiles lead to its root. `Damaged` where one of them is
    /// missing or corrupt.
    pub fn checkpoint_text(&mut self) -> Result<Vec<u8>, LogError>
        ensures text { IfOk result (λ text. text.items ≡ text_of self.old.text) }
        ensures whole { F.IsFaithful → (log : LogOf) → Reads F.seen log self.old → IfErr result (IsNoFault ⊥) }
        ensures reads { F.IsFaithful → (log : LogOf) → Reads F.seen log self.old → Reads F.seen log self.new }
        ensures cause { HasLogCause F.IsFaithful (F.faults self.old.folder) (F.faults self.new.folder) result }
    {
        let checkpoint = self.text.checkpoint();
        let edge = read_edge(self.alloc, &mut self.folder, checkpoint.length())?;
        open_edge(self.alloc, CHECKPOINT, &checkpoint, edge.as_slice())?;
        Ok(self.text.write(self.alloc)?)
    }

    /// As [`LogFolder::entry`], of the checkpoint.
    pub fn entry(&mut self, index: usize) -> Result<Vec<u8>, LogError>
        ensures shown { IfOk result (λ entry. IsShown (checkpoint_said self.old.text) index entry.items) }
        ensures own { F.IsFaithful → IfOk result (λ entry. (log : LogOf) → Reads F.seen log self.old
            → slice_get log.entries index ≡ Some entry.items) }
        ensures whole { F.IsFaithful → (log : LogOf) → Reads F.seen log self.old
            → IfErr result (IsNoFault (length log.entries ≤ index)) }
        ensures reads { F.IsFaithful → (log : LogOf) → Reads F.seen log self.old → Reads F.seen log self.new }
        ensures cause { HasLogCause F.IsFaithful (F.faults self.old.folder) (F.faults self.new.folder) result }
    {
        let checkpoint = self.text.checkpoint();
        entry(self.alloc, &mut self.folder, index, &checkpoint)
    }

    /// The entries of a bundle, from 0: 256 of them, or those that are left in the last one. They aren't compared with
    /// the checkpoint's root. `OutOfRange` where the log has no such bundle; `Damaged` where its file is missing, or
    /// isn't one of so many entries. It changes nothing.
    pub fn entries(&mut self, bundle: usize) -> Result<Vec<Vec<u8>>, LogError>
        ensures inside { OnOk result (256 * bundle < self.old.text.length) }
        ensures count { IfOk result (λ entries. length entries.items ≡ min (self.old.text.length - 256 * bundle) 256) }
        ensures own { F.IsFaithful → IfOk result (λ entries. (log : LogOf) → Reads F.seen log self.old
            → map (λ e. e.items) entries.items ≡ bundle_in log bundle) }
        ensures whole { F.IsFaithful → (log : LogOf) → Reads F.seen log self.old
            → IfErr result (IsNoFault (length log.entries ≤ 256 * bundle)) }
        ensures same { self.new ≡ record self.old { folder = self.new.folder } }
        ensures read { F.IsFaithful
            → IsRead F.seen F.may_leave F.moment F.left_since self.old.folder self.new.folder }
        ensures cause { HasLogCause F.IsFaithful (F.faults self.old.folder) (F.faults self.new.folder) result }
    {
        let length = self.text.checkpoint().length();
        let bundles = length.div_ceil(256);
        if bundle >= bundles {
            return Err(LogError::OutOfRange { bound: bundles });
        }
        read_entries(self.alloc, &mut self.folder, bundle, length)
    }

    /// The bytes of the entry at `index`, from 0, out of its bundle alone: they aren't compared with the checkpoint's root.
    /// `OutOfRange` where the log has no such entry; `Damaged` where the bundle's file is missing, or isn't one of as many
    /// entries as the log has there. It changes nothing.
    pub fn bundle_entry(&mut self, index: usize) -> Result<Vec<u8>, LogError>
        ensures inside { OnOk result (index < self.old.text.length) }
        ensures own { F.IsFaithful → IfOk result (λ entry. (log : LogOf) → Reads F.seen log self.old
            → slice_get log.entries index ≡ Some entry.items) }
        ensures whole { F.IsFaithful → (log : LogOf) → Reads F.seen log self.old
            → IfErr result (IsNoFault (length log.entries ≤ index)) }
        ensures same { self.new ≡ record self.old { folder = self.new.folder } }
        ensures read { F.IsFaithful
            → IsRead F.seen F.may_leave F.moment F.left_since self.old.folder self.new.folder }
        ensures cause { HasLogCause F.IsFaithful (F.faults self.old.folder) (F.faults self.new.folder) result }
    {
        let length = self.text.checkpoint().length();
        if index >= length {
            return Err(LogError::OutOfRange { bound: length });
        }
        read_entry(self.alloc, &mut self.folder, index, length)
    }

    /// As [`LogFolder::inclusion_path`], of the checkpoint.
    pub fn inclusion_path(&mut self, index: usize, length: usize) -> Result<Path, LogError>
        ensures leads { IfOk result (λ path. IncludesBy (checkpoint_said self.old.text) index length path.items) }
        ensures own { F.IsFaithful → IfOk result (λ path. (log : LogOf) → Reads F.seen log self.old
            → inclusion_in log index length ≡ Some path.items) }
        ensures whole { F.IsFaithful → (log : LogOf) → Reads F.seen log self.old
            → IfErr result (IsNoFault ((self.old.text.length < length) ⊎ (length ≤ index))) }
        ensures reads { F.IsFaithful → (log : LogOf) → Reads F.seen log self.old → Reads F.seen log self.new }
        ensures cause { HasLogCause F.IsFaithful (F.faults self.old.folder) (F.faults self.new.folder) result }
    {
        let checkpoint = self.text.checkpoint();
        inclusion(self.alloc, &mut self.folder, index, length, &checkpoint)
    }

    /// As [`LogFolder::consistency_path`], of the checkpoint.
    pub fn consistency_path(&mut self, old: usize, new: usize) -> Result<Path, LogError>
        ensures leads { IfOk result (λ path. GrowsBy (checkpoint_said self.old.text) old new path.items) }
        ensures own { F.IsFaithful → IfOk result (λ path. (log : LogOf) → Reads F.seen log self.old
            → consistency_in log old new ≡ Some path.items) }
        ensures whole { F.IsFaithful → (log : LogOf) → Reads F.seen log self.old
            → IfErr result (IsNoFault ((self.old.text.length < new) ⊎ (old ≡ 0) ⊎ (new < old))) }
        ensures reads { F.IsFaithful → (log : LogOf) → Reads F.seen log self.old → Reads F.seen log self.new }
        ensures cause { HasLogCause F.IsFaithful (F.faults self.old.folder) (F.faults self.new.folder) result }
    {
        let checkpoint = self.text.checkpoint();
        growth(self.alloc, &mut self.folder, old, new, &checkpoint)
    }

    /// As [`LogFolder::audit`], of the checkpoint.
    pub fn audit<P: Progress>(&mut self, progress: &mut P) -> Result<Checkpoint<Sha256>, LogError>
        ensures entries { IfOk result IsOfEntries }
        ensures served { IfOk result (λ found. found ≡ checkpoint_said self.old.text) }
        ensures files { F.IsFaithful → IfOk result (ShowsLogAndOlder (F.seen self.old.folder)) }
        ensures whole { F.IsFaithful → (log : LogOf) → Reads F.seen log self.old
            → HasOlder log (F.seen self.old.folder) → IfErr result (IsNoFault ⊥) }
        ensures same { self.new ≡ record self.old { folder = self.new.folder } }
        ensures read { F.IsFaithful
            → IsRead F.seen F.may_leave F.moment F.left_since self.old.folder self.new.folder }
        ensures cause { HasLogCause F.IsFaithful (F.faults self.old.folder) (F.faults self.new.folder) result }
    {
        let checkpoint = self.text.checkpoint();
        audited(
            self.alloc,
            &mut self.folder,
            CHECKPOINT,
            &checkpoint,
            progress,
        )
    }
}
