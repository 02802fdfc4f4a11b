//! Entries and paths out of a log's folder, each once it leads to the root of the log's state.

ghost use Rattle.std.specs.Prelude.{◌≡◌, ◌⊎◌, ◌-◌, ◌*◌, ◌<◌, ◌≤◌, ℕ, List, [], length, map, take, min, true, Some, Ok, IfOk, IfErr, IfSome, IsSomeAnd, OnOk, IsTrue, slice_get, slice_index_or};
ghost use Rattle.warg_crypto.specs.Digests.{sha256};
ghost use Rattle.warg_log.specs.Cut.{old_over};
ghost use Rattle.warg_log.specs.Ranges.{leaves_from};
ghost use Rattle.warg_log.specs.Tree.{root_of, leaves_of};
ghost use Rattle.warg_log.specs.Walks.{IsKnown, needed, needed_between};
ghost use Rattle.warg_paths.specs.Paths.{consistency_roots};
ghost use Rattle.warg_tiles.specs.Between.{filled};
ghost use Rattle.warg_tiles.specs.EntryBundles.{bundle_of};
ghost use Rattle.warg_tiles.specs.TileData.{digest_by};
ghost use Rattle.warg_tiles.specs.TilePaths.{entries_path};
ghost use Rattle.warg_store.specs.Audited.{HasOlder, IsOfEntries, ShowsLogAndOlder};
ghost use Rattle.warg_store.specs.Growing.{Has};
ghost use Rattle.warg_store.specs.Log.{LogOf, AreShort, HasFiles};
ghost use Rattle.warg_folder.specs.Moments.{Within, IsRead};
ghost use Rattle.warg_store.specs.Private.Fetched.{AreOwn};
ghost use Rattle.warg_store.specs.Reading.{checkpoint_said, AreOfLog, bundle_in, inclusion_in, consistency_in, LeadsTo, IsShown, IncludesBy, GrowsBy};
ghost use Rattle.warg_store.specs.Rebuilt.{HasBundlesOf};
ghost use Rattle.warg_store.specs.Refusals.{IsNoFault, IsNoFailure, HasLogCause};

use crate::auditing::{Progress, audited};
use crate::edge::{damaged_bundle, entries_of, read_bundle};
use crate::error::LogError;
use crate::fetched::{Fetched, fetch, fetch_leaf};
use crate::log_folder::LogFolder;
use std::alloc::Global;
use warg_crypto::{Hash, Sha256};
use warg_folder::{Folder, FolderError, STATE};
use warg_log::{Checkpoint, GREATEST_LENGTH, LeafRange, stored_root};
use warg_paths::{
    PathError, check_record, check_tree, consistency_path, inclusion_path, root_of_inclusion,
    roots_of_consistency,
};
use warg_tiles::{Tile, tiles_for_consistency, tiles_for_inclusion};

// What is wrong with a bundle that lacks an entry or has another one.
const OTHER_ENTRIES: &str = "has other entries than its tile";

/// The digests of a path, from the bottom up.
pub type Path = Vec<Hash<Sha256>>;

impl<F: Folder + Drop> LogFolder<F> {
    /// The bytes of the entry at `index`, from 0, once its inclusion path leads to the root of the log's state. `OutOfRange`
    /// where the log keeps no such entry; `Damaged` where a file that it needs is missing or corrupt.
    pub fn entry(&mut self, index: usize) -> Result<Vec<u8>, LogError>
        ensures shown { IfOk result (λ entry. IsShown (checkpoint_said self.old.text) index entry.items) }
        ensures own { F.IsFaithful → IfOk result (λ entry. (served old next : LogOf)
            → Has F.seen F.may_leave served old next self.old
            → slice_get old.entries index ≡ Some entry.items) }
        ensures whole { F.IsFaithful → (served old next : LogOf) → Has F.seen F.may_leave served old next self.old
            → IfErr result (IsNoFault (length old.entries ≤ index)) }
        ensures has { F.IsFaithful → (served old next : LogOf) → Has F.seen F.may_leave served old next self.old
            → Has F.seen F.may_leave served old next self.new }
        ensures cause { HasLogCause F.IsFaithful (F.faults self.old.folder) (F.faults self.new.folder) result }
    {
        let checkpoint = self.checkpoint();
        entry(self.alloc, &mut self.folder, index, &checkpoint)
    }

    /// The inclusion path of the entry at `index`, from 0, in the log of the first `length` entries, once it leads to the root
    /// of the log's state (RFC 6962, section 2.1.1). `OutOfRange` where the log keeps fewer than `length` entries, or `index`
    /// isn't below `length`; `Damaged` where a file that it needs is missing or corrupt.
    pub fn inclusion_path(&mut self, index: usize, length: usize) -> Result<Path, LogError>
        ensures leads { IfOk result (λ path. IncludesBy (checkpoint_said self.old.text) index length path.items) }
        ensures own { F.IsFaithful → IfOk result (λ path. (served old next : LogOf)
            → Has F.seen F.may_leave served old next self.old
            → inclusion_in old index length ≡ Some path.items) }
        ensures whole { F.IsFaithful → (served old next : LogOf) → Has F.seen F.may_leave served old next self.old
            → IfErr result (IsNoFault ((self.old.text.length < length) ⊎ (length ≤ index))) }
        ensures has { F.IsFaithful → (served old next : LogOf) → Has F.seen F.may_leave served old next self.old
            → Has F.seen F.may_leave served old next self.new }
        ensures cause { HasLogCause F.IsFaithful (F.faults self.old.folder) (F.faults self.new.folder) result }
    {
        let checkpoint = self.checkpoint();
        inclusion(self.alloc, &mut self.folder, index, length, &checkpoint)
    }

    /// The consistency path from the first `old` entries to the first `new`, once it leads to the root of the log's state (RFC
    /// 6962, section 2.1.2). `OutOfRange` where `old` is 0 or greater than `new`, or the log keeps fewer entries than `new`;
    /// `Damaged` where a file that it needs is missing or corrupt.
    pub fn consistency_path(&mut self, old: usize, new: usize) -> Result<Path, LogError>
        ensures leads { IfOk result (λ path. GrowsBy (checkpoint_said self.old.text) old new path.items) }
        ensures own { F.IsFaithful → IfOk result (λ path. (served kept next : LogOf)
            → Has F.seen F.may_leave served kept next self.old
            → consistency_in kept old new ≡ Some path.items) }
        ensures whole { F.IsFaithful → (served kept next : LogOf)
            → Has F.seen F.may_leave served kept next self.old
            → IfErr result (IsNoFault ((self.old.text.length < new) ⊎ (old ≡ 0) ⊎ (new < old))) }
        ensures has { F.IsFaithful → (served old next : LogOf) → Has F.seen F.may_leave served old next self.old
            → Has F.seen F.may_leave served old next self.new }
        ensures cause { HasLogCause F.IsFaithful (F.faults self.old.folder) (F.faults self.new.folder) result }
    {
        let checkpoint = self.checkpoint();
        growth(self.alloc, &mut self.folder, old, new, &checkpoint)
    }

    /// Reads every entry that the log keeps, makes each tile again, and compares, also with the partial tiles and bundles of
    /// older lengths that are still there. `Damaged` names the first file that differs. A checkpoint that passes is that of the
    /// entries that were read, and the folder has each tile and bundle of a log with it, and of older lengths none with other
    /// bytes. Where no file differs, it fails only if memory is refused or the device fails. It changes nothing.
    pub fn audit<P: Progress>(&mut self, progress: &mut P) -> Result<Checkpoint<Sha256>, LogError>
        ensures entries { IfOk result IsOfEntries }
        ensures kept { IfOk result (λ found. found ≡ checkpoint_said self.old.text) }
        ensures files { F.IsFaithful → IfOk result (ShowsLogAndOlder (F.seen self.old.folder)) }
        ensures whole { F.IsFaithful → (served old next : LogOf) → Has F.seen F.may_leave served old next self.old
            → HasOlder old (F.seen self.old.folder) → IfErr result (IsNoFault ⊥) }
        ensures same { self.new ≡ record self.old { folder = self.new.folder } }
        ensures read { F.IsFaithful
            → IsRead F.seen F.may_leave F.moment F.left_since self.old.folder self.new.folder }
        ensures cause { HasLogCause F.IsFaithful (F.faults self.old.folder) (F.faults self.new.folder) result }
    {
        let checkpoint = self.checkpoint();
        audited(self.alloc, &mut self.folder, STATE, &checkpoint, progress)
    }
}

/// An entry, once its inclusion path leads to the checkpoint's root.
pub(crate) fn entry<F: Folder>(
    alloc: Global,
    folder: &mut F,
    index: usize,
    checkpoint: &Checkpoint<Sha256>,
) -> Result<Vec<u8>, LogError>
    ensures shown { IfOk result (λ entry. IsShown checkpoint.now index entry.items) }
    ensures own { F.IsFaithful → IfOk result (λ entry. (log : LogOf) → HasFiles log (F.seen folder.old)
        → AreShort log.entries → length log.entries ≡ checkpoint.now.length
        → slice_get log.entries index ≡ Some entry.items) }
    ensures whole { F.IsFaithful → (log : LogOf) → AreOfLog log checkpoint.now (F.seen folder.old)
        → IfErr result (IsNoFault (checkpoint.now.length ≤ index)) }
    ensures seen { F.IsFaithful → F.seen folder.new ≡ F.seen folder.old }
    ensures crash { F.IsFaithful → Within (F.may_leave folder.old) (F.may_leave folder.new) }
    ensures cause { HasLogCause F.IsFaithful (F.faults folder.old) (F.faults folder.new) result }
{
    let length = checkpoint.length();
    if index >= length {
        return Err(LogError::OutOfRange { bound: length });
    }
    let path = inclusion(alloc, folder, index, length, checkpoint)?;
    let entry = read_entry(alloc, folder, index, length)?;
    if check_record(checkpoint, index, &entry, path.as_slice()) {
        Ok(entry)
    } else {
        Err(damaged_bundle(alloc, &bundle_tile(index / 256, length), OTHER_ENTRIES))
    }
}

/// An entry as its bundle has it.
pub(crate) fn read_entry<F: Folder>(
    alloc: Global,
    folder: &mut F,
    index: usize,
    log_length: usize,
) -> Result<Vec<u8>, LogError>
    requires { index < log_length }
    ensures own { F.IsFaithful → IfOk result (λ entry. (log : LogOf) → HasFiles log (F.seen folder.old)
        → AreShort log.entries → length log.entries ≡ log_length
        → slice_get log.entries index ≡ Some entry.items) }
    ensures whole { F.IsFaithful → (log : LogOf) → HasFiles log (F.seen folder.old)
        → AreShort log.entries → length log.entries ≡ log_length → IfErr result (IsNoFault ⊥) }
    ensures read { F.IsFaithful → IsRead F.seen F.may_leave F.moment F.left_since folder.old folder.new }
    ensures cause { HasLogCause F.IsFaithful (F.faults folder.old) (F.faults folder.new) result }
{
    let tile = bundle_tile(index / 256, log_length);
    let bytes = read_bundle(alloc, folder, &tile)?;
    let entries = entries_of(alloc, &tile, bytes.as_slice())?;
    match entries.as_slice().get(index % 256) {
        Some(entry) => Ok(entry.to_vec(alloc)?),
        None => Err(damaged_bundle(alloc, &tile, OTHER_ENTRIES)),
    }
}

/// The entries of a bundle, from 0, as the file of a log of so many entries has them.
pub(crate) fn read_entries<F: Folder>(
    alloc: Global,
    folder: &mut F,
    bundle: usize,
    log_length: usize,
) -> Result<Vec<Vec<u8>>, LogError>
    requires { 256 * bundle < log_length }
    ensures count { IfOk result (λ entries. length entries.items ≡ min (log_length - 256 * bundle) 256) }
    ensures own { F.IsFaithful → IfOk result (λ entries. (log : LogOf) → HasBundlesOf log (F.seen folder.old)
        → AreShort log.entries → length log.entries ≡ log_length
        → map (λ e. e.items) entries.items ≡ bundle_in log bundle) }
    ensures file { F.IsFaithful → IfOk result (λ entries. F.seen folder.old (entries_path (filled 0 log_length bundle))
        ≡ Some (bundle_of (map (λ e. e.items) entries.items))) }
    ensures short { IfOk result (λ entries. AreShort (map (λ e. e.items) entries.items)) }
    ensures whole { F.IsFaithful → (log : LogOf) → HasBundlesOf log (F.seen folder.old)
        → AreShort log.entries → length log.entries ≡ log_length → IfErr result (IsNoFault ⊥) }
    ensures read { F.IsFaithful → IsRead F.seen F.may_leave F.moment F.left_since folder.old folder.new }
    ensures cause { HasLogCause F.IsFaithful (F.faults folder.old) (F.faults folder.new) result }
{
    let tile = bundle_tile(bundle, log_length);
    let bytes = read_bundle(alloc, folder, &tile)?;
    let entries = entries_of(alloc, &tile, bytes.as_slice())?;
    Ok(copies(alloc, entries.as_slice())?)
}

// The same entries, as bytes of their own.
fn copies(alloc: Global, entries: &[&[u8]]) -> Result<Vec<Vec<u8>>, FolderError>
    ensures copies { IfOk result (λ copies. map (λ e. e.items) copies.items ≡ map (λ e. e.now) entries.now) }
    ensures memory { IfErr result (λ error. error ≡ FolderError.Memory) }
{
    let mut copies = Vec::new(alloc);
    'entries: for entry in entries {
        copies.push(entry.to_vec(alloc)?)?;
    }
    Ok(copies)
}

// The tile over the entries of a bundle, in a log of so many.
fn bundle_tile(bundle: usize, log_length: usize) -> Tile
    requires { 256 * bundle < log_length }
    ensures { result ≡ filled 0 log_length bundle }
{
    Tile::new(0, bundle, (log_length - 256 * bundle).min(256))
}

/// The inclusion path of an entry at a length, once it leads to the checkpoint's root.
pub(crate) fn inclusion<F: Folder>(
    alloc: Global,
    folder: &mut F,
    index: usize,
    log_length: usize,
    checkpoint: &Checkpoint<Sha256>,
) -> Result<Path, LogError>
    ensures leads { IfOk result (λ path. IncludesBy checkpoint.now index log_length path.items) }
    ensures own { F.IsFaithful → IfOk result (λ path. (log : LogOf) → HasFiles log (F.seen folder.old)
        → length log.entries ≡ checkpoint.now.length
        → inclusion_in log index log_length ≡ Some path.items) }
    ensures whole { F.IsFaithful → (log : LogOf) → AreOfLog log checkpoint.now (F.seen folder.old)
        → IfErr result (IsNoFault ((checkpoint.now.length < log_length) ⊎ (log_length ≤ index))) }
    ensures seen { F.IsFaithful → F.seen folder.new ≡ F.seen folder.old }
    ensures crash { F.IsFaithful → Within (F.may_leave folder.old) (F.may_leave folder.new) }
    ensures cause { HasLogCause F.IsFaithful (F.faults folder.old) (F.faults folder.new) result }
{
    let length = checkpoint.length();
    if log_length > length || log_length > GREATEST_LENGTH {
        return Err(LogError::OutOfRange { bound: length });
    }
    if index >= log_length {
        return Err(LogError::OutOfRange { bound: log_length });
    }
    let mut tiles = Fetched::new(alloc);
    let leaf = fetch_inclusion(alloc, folder, &mut tiles, index, log_length, length)?;
    let path = made(alloc, inclusion_path(alloc, &tiles, index, log_length))?;
    let root = root_of_inclusion(index, log_length, &leaf, path.as_slice());
    check_root(alloc, folder, &mut tiles, log_length, root, checkpoint)?;
    Ok(path)
}

// Reads the tiles that the inclusion path of an entry takes, and its leaf digest, of a log that keeps so many entries.
fn fetch_inclusion<F: Folder>(
    alloc: Global,
    folder: &mut F,
    tiles: &mut Fetched,
    index: usize,
    log_length: usize,
    kept: usize,
) -> Result<Hash<Sha256>, LogError>
    requires order { index < log_length }
    requires fits { log_length ≤ GREATEST_LENGTH }
    ensures own { F.IsFaithful → OnOk result ((log : LogOf) → HasFiles log (F.seen folder.old)
        → length log.entries ≡ kept → log_length ≤ kept → AreOwn log tiles.old
        → AreOwn log tiles.new) }
    ensures leaf { F.IsFaithful → IfOk result (λ leaf. (log : LogOf) → HasFiles log (F.seen folder.old)
        → length log.entries ≡ kept → log_length ≤ kept → AreOwn log tiles.old
        → leaf ≡ slice_index_or (leaves_of sha256 log.entries) index []) }
    ensures known { OnOk result (IsKnown (digest_by sha256 tiles.new) (needed (2 * index) log_length)) }
    ensures whole { F.IsFaithful → (log : LogOf) → HasFiles log (F.seen folder.old)
        → length log.entries ≡ kept → log_length ≤ kept → IfErr result (IsNoFault ⊥) }
    ensures seen { F.IsFaithful → F.seen folder.new ≡ F.seen folder.old }
    ensures crash { F.IsFaithful → Within (F.may_leave folder.old) (F.may_leave folder.new) }
    ensures cause { HasLogCause F.IsFaithful (F.faults folder.old) (F.faults folder.new) result }
{
    let named = tiles_for_inclusion(alloc, index, log_length)?;
    fetch(alloc, folder, tiles, named.as_slice(), kept)?;
    fetch_leaf(alloc, folder, tiles, index, kept)
}

/// The consistency path from an old length to a new one, once it leads to the checkpoint's root.
pub(crate) fn growth<F: Folder>(
    alloc: Global,
    folder: &mut F,
    old: usize,
    new: usize,
    checkpoint: &Checkpoint<Sha256>,
) -> Result<Path, LogError>
    ensures leads { IfOk result (λ path. GrowsBy checkpoint.now old new path.items) }
    ensures own { F.IsFaithful → IfOk result (λ path. (log : LogOf) → HasFiles log (F.seen folder.old)
        → length log.entries ≡ checkpoint.now.length
        → consistency_in log old new ≡ Some path.items) }
    ensures whole { F.IsFaithful → (log : LogOf) → AreOfLog log checkpoint.now (F.seen folder.old)
        → IfErr result (IsNoFault ((checkpoint.now.length < new) ⊎ (old ≡ 0) ⊎ (new < old))) }
    ensures seen { F.IsFaithful → F.seen folder.new ≡ F.seen folder.old }
    ensures crash { F.IsFaithful → Within (F.may_leave folder.old) (F.may_leave folder.new) }
    ensures cause { HasLogCause F.IsFaithful (F.faults folder.old) (F.faults folder.new) result }
{
    if new > checkpoint.length() || new > GREATEST_LENGTH {
        return Err(LogError::OutOfRange {
            bound: checkpoint.length(),
        });
    }
    if old == 0 || old > new {
        return Err(LogError::OutOfRange { bound: new });
    }
    let mut tiles = Fetched::new(alloc);
    let path = fetched_growth(alloc, folder, &mut tiles, old, new, checkpoint.length())?;
    let root = new_root(&tiles, old, new, path.as_slice());
    check_root(alloc, folder, &mut tiles, new, root, checkpoint)?;
    Ok(path)
}

// The consistency path by the tiles of a log of some length, which are read.
fn fetched_growth<F: Folder>(
    alloc: Global,
    folder: &mut F,
    tiles: &mut Fetched,
    old: usize,
    new: usize,
    log_length: usize,
) -> Result<Path, LogError>
    requires order { old ≤ new }
    requires fits { new ≤ GREATEST_LENGTH }
    ensures own { F.IsFaithful → IfOk result (λ path. (log : LogOf) → HasFiles log (F.seen folder.old)
        → length log.entries ≡ log_length → new ≤ log_length → AreOwn log tiles.old
        → consistency_in log old new ≡ Some path.items) }
    ensures tiles { F.IsFaithful → OnOk result ((log : LogOf) → HasFiles log (F.seen folder.old)
        → length log.entries ≡ log_length → new ≤ log_length → AreOwn log tiles.old
        → AreOwn log tiles.new) }
    ensures known { OnOk result (IsKnown (digest_by sha256 tiles.new) (needed_between old new)) }
    ensures whole { F.IsFaithful → (log : LogOf) → HasFiles log (F.seen folder.old)
        → length log.entries ≡ log_length → 0 < old → new ≤ log_length
        → IfErr result (IsNoFault ⊥) }
    ensures seen { F.IsFaithful → F.seen folder.new ≡ F.seen folder.old }
    ensures crash { F.IsFaithful → Within (F.may_leave folder.old) (F.may_leave folder.new) }
    ensures cause { HasLogCause F.IsFaithful (F.faults folder.old) (F.faults folder.new) result }
{
    let named = tiles_for_consistency(alloc, old, new)?;
    fetch(alloc, folder, tiles, named.as_slice(), log_length)?;
    made(alloc, consistency_path(alloc, &*tiles, old, new))
}

// The path that was made, or the refusal for tiles that give none.
fn made(alloc: Global, path: Result<Path, PathError>) -> Result<Path, LogError>
    ensures path { IfOk result (λ made. path ≡ Ok made) }
    ensures whole { IfErr path (λ error. error ≡ PathError.Memory) → IfErr result (IsNoFault ⊥) }
    ensures other { IfErr result IsNoFailure }
{
    match path {
        Ok(path) => Ok(path),
        Err(PathError::Memory) => Err(LogError::Folder(FolderError::Memory)),
        Err(_) => Err(LogError::no_root(alloc)),
    }
}

// The new root by a consistency path that leads from the old root, which the tiles have.
fn new_root(tiles: &Fetched, old: usize, new: usize, path: &[Hash<Sha256>]) -> Option<Hash<Sha256>>
    requires some { 0 < old }
    requires fits { old ≤ GREATEST_LENGTH }
    ensures leads { IfSome result (λ to. (from : List ℕ)
        × (consistency_roots sha256 old new from path.now ≡ Some (from, to))) }
    ensures whole { (from to : List ℕ)
        → old_over sha256 (digest_by sha256 tiles.now) (leaves_from 0 old) ≡ Some from
        → consistency_roots sha256 old new from path.now ≡ Some (from, to) → result ≡ Some to }
{
    let from = stored_root(tiles, &LeafRange::new(0, old))?;
    let (old_root, new_root) = roots_of_consistency(old, new, &from, path)?;
    if old_root == from {
        Some(new_root)
    } else {
        None
    }
}

// Refuses a root that isn't the checkpoint's, or at an older length one that no consistency path leads from to it.
fn check_root<F: Folder>(
    alloc: Global,
    folder: &mut F,
    tiles: &mut Fetched,
    log_length: usize,
    root: Option<Hash<Sha256>>,
    checkpoint: &Checkpoint<Sha256>,
) -> Result<(), LogError>
    ensures leads { OnOk result (IsSomeAnd root (LeadsTo checkpoint.now log_length)) }
    ensures whole { F.IsFaithful → (log : LogOf) → AreOfLog log checkpoint.now (F.seen folder.old)
        → 0 < log_length → log_length ≤ checkpoint.now.length → AreOwn log tiles.old
        → root ≡ Some (root_of sha256 (take log_length (leaves_of sha256 log.entries)))
        → IfErr result (IsNoFault ⊥) }
    ensures seen { F.IsFaithful → F.seen folder.new ≡ F.seen folder.old }
    ensures crash { F.IsFaithful → Within (F.may_leave folder.old) (F.may_leave folder.new) }
    ensures cause { HasLogCause F.IsFaithful (F.faults folder.old) (F.faults folder.new) result }
{
    let Some(root) = root else {
        return Err(LogError::no_root(alloc));
    };
    let old = Checkpoint::new(root, log_length);
    if old == *checkpoint {
        return Ok(());
    }
    if is_beginning(alloc, folder, tiles, &old, checkpoint)? {
        Ok(())
    } else {
        Err(LogError::no_root(alloc))
    }
}

// Whether the log of an older checkpoint is a beginning of the log of the checkpoint, by its tiles.
fn is_beginning<F: Folder>(
    alloc: Global,
    folder: &mut F,
    tiles: &mut Fetched,
    old: &Checkpoint<Sha256>,
    checkpoint: &Checkpoint<Sha256>,
) -> Result<bool, LogError>
    ensures leads { IfOk result (λ is. IsTrue is → LeadsTo checkpoint.now old.now.length old.now.root) }
    ensures is { F.IsFaithful → IfOk result (λ is. (log : LogOf)
        → AreOfLog log checkpoint.now (F.seen folder.old) → AreOwn log tiles.old
        → 0 < old.now.length → old.now.length < checkpoint.now.length
        → old.now.root ≡ root_of sha256 (take old.now.length (leaves_of sha256 log.entries))
        → is ≡ true) }
    ensures whole { F.IsFaithful → (log : LogOf) → AreOfLog log checkpoint.now (F.seen folder.old)
        → 0 < old.now.length → IfErr result (IsNoFault ⊥) }
    ensures seen { F.IsFaithful → F.seen folder.new ≡ F.seen folder.old }
    ensures crash { F.IsFaithful → Within (F.may_leave folder.old) (F.may_leave folder.new) }
    ensures cause { HasLogCause F.IsFaithful (F.faults folder.old) (F.faults folder.new) result }
{
    let (old_length, length) = (old.length(), checkpoint.length());
    if old_length >= length || length > GREATEST_LENGTH {
        return Ok(false);
    }
    let path = fetched_growth(alloc, folder, tiles, old_length, length, length)?;
    Ok(check_tree(old, checkpoint, path.as_slice()))
}
