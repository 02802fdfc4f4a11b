//! The right edge of a log that a folder keeps: its partial tiles and its last bundle.

ghost use Rattle.std.specs.Prelude.{◌≡◌, ◌*◌, ◌/◌, ◌≤◌, length, map, drop, true, Some, IfOk, IfErr, option_copied};
ghost use Rattle.std.specs.List.{flat_map};
ghost use Rattle.warg_crypto.specs.Digests.{sha256};
ghost use Rattle.warg_crypto.specs.Tree.{leaf_digest};
ghost use Rattle.warg_log.specs.Tree.{leaves_of};
ghost use Rattle.warg_tiles.specs.EntryBundles.{bundle_of};
ghost use Rattle.warg_tiles.specs.TileLog.{StandsFor, tile_digests};
ghost use Rattle.warg_tiles.specs.TilePaths.{tile_path, entries_path};
ghost use Rattle.warg_store.specs.Growing.{ArePartsOf};
ghost use Rattle.warg_store.specs.Log.{LogOf, AreShort, CanBeKept, IsBundleIn, HasFiles, said_of, tile_bytes, bundle_bytes};
ghost use Rattle.warg_folder.specs.Moments.{IsRead};
ghost use Rattle.warg_store.specs.Reading.{checkpoint_said};
ghost use Rattle.warg_store.specs.Refusals.{IsNoFault, IsNoFailure, HasLogCause};

use crate::error::LogError;
use std::alloc::Global;
use warg_crypto::{Hash, Sha256, hash_leaf};
use warg_folder::{Folder, FolderError};
use warg_log::{Checkpoint, GREATEST_LENGTH, LogBuilder};
use warg_paths::{HashesError, hashes_in};
use warg_tiles::{EntriesError, OpenError, StoredTile, Tile, TileLog, read_entries};

// The bytes of a full tile.
const MOST_TILE: usize = 256 * 32;

// An entry has at most 65,535 bytes, and two for its length.
const MOST_BUNDLE: usize = 256 * 65_537;

// What is wrong with a file of another size.
const CUT: &str = "is cut short, or too long";

/// Reads a tile. `Damaged` where its file is missing, or has another number of digests.
#[tactic(auto, using(warg_folder::proofs::ForCallers::read_by, warg_folder::proofs::ForCallers::read_is))]
pub(crate) fn read_tile<F: Folder>(
    alloc: Global,
    folder: &mut F,
    tile: Tile,
) -> Result<StoredTile<Sha256>, LogError>
    ensures own { F.IsFaithful → IfOk result (λ read. (log : LogOf)
        → F.seen folder.old (tile_path tile) ≡ Some (tile_bytes log tile)
        → read.digests.items ≡ tile_digests sha256 (leaves_of sha256 log.entries) tile) }
    ensures file { F.IsFaithful → IfOk result (λ read. F.seen folder.old (tile_path tile)
        ≡ Some (flat_map (λ digest. digest) read.digests.items)) }
    ensures tile { IfOk result (λ read. read.tile ≡ tile) }
    ensures whole { F.IsFaithful → (log : LogOf)
        → F.seen folder.old (tile_path tile) ≡ Some (tile_bytes log tile) → IfErr result (IsNoFault ⊥) }
    ensures read { F.IsFaithful → IsRead F.seen F.may_leave F.moment F.left_since folder.old folder.new }
    ensures cause { HasLogCause F.IsFaithful (F.faults folder.old) (F.faults folder.new) result }
{
    let path = tile.path(alloc)?;
    let Some(bytes) = folder.read(alloc, path.as_str(), MOST_TILE)? else {
        return Err(LogError::damaged(alloc, path.as_str(), "is missing"));
    };
    let width = tile.width();
    let digests = match hashes_in::<Sha256, Global>(alloc, bytes.as_slice()) {
        Ok(digests) => digests,
        Err(HashesError::HashLength) => return Err(LogError::damaged(alloc, path.as_str(), CUT)),
        Err(HashesError::Memory) => return Err(LogError::Folder(FolderError::Memory)),
    };
    if digests.len() != width {
        return Err(LogError::damaged(alloc, path.as_str(), CUT));
    }
    Ok(StoredTile::new(tile, digests))
}

/// Reads the partial tiles of a length, by level.
#[tactic(auto, using(warg_folder::proofs::ForCallers::read_is))]
pub(crate) fn read_edge<F: Folder>(
    alloc: Global,
    folder: &mut F,
    log_length: usize,
) -> Result<Vec<StoredTile<Sha256>>, LogError>
    ensures edge { F.IsFaithful → IfOk result (λ edge. (log : LogOf)
        → log_length ≡ length log.entries → HasFiles log (F.seen folder.old)
        → ArePartsOf log edge.items) }
    ensures whole { F.IsFaithful → (log : LogOf) → log_length ≡ length log.entries
        → HasFiles log (F.seen folder.old) → IfErr result (IsNoFault ⊥) }
    ensures read { F.IsFaithful → IsRead F.seen F.may_leave F.moment F.left_since folder.old folder.new }
    ensures cause { HasLogCause F.IsFaithful (F.faults folder.old) (F.faults folder.new) result }
{
    let mut edge = Vec::new(alloc);
    'levels: for level in 0..8 {
        let count = log_length >> (8 * level);
        if count % 256 != 0 {
            let tile = Tile::new(level, count / 256, count % 256);
            edge.push(read_tile(alloc, folder, tile)?)?;
        }
    }
    Ok(edge)
}

/// The log that goes on from these partial tiles. `Damaged` names the checkpoint's file where they don't lead to its root.
pub(crate) fn open_edge(
    alloc: Global,
    name: &str,
    checkpoint: &Checkpoint<Sha256>,
    edge: &[StoredTile<Sha256>],
) -> Result<TileLog<Sha256, Vec<u8>>, LogError>
    requires { checkpoint.now.length ≤ GREATEST_LENGTH }
    ensures length { IfOk result (λ log. (log.len ≡ checkpoint.now.length)
        × (log.taken ≡ checkpoint.now.length)) }
    ensures stands { IfOk result (λ log. (kept : LogOf)
        → checkpoint.now.length ≡ length kept.entries → ArePartsOf kept edge.now
        → StandsFor sha256 log (leaves_of sha256 kept.entries)) }
    ensures whole { (kept : LogOf) → checkpoint.now ≡ checkpoint_said (said_of kept)
        → ArePartsOf kept edge.now → IfErr result (IsNoFault ⊥) }
    ensures other { IfErr result IsNoFailure }
{
    let log = match TileLog::open(alloc, checkpoint.length(), edge) {
        Ok(log) => log,
        Err(error) => return Err(refused_edge(alloc, name, &error)),
    };
    if log.checkpoint() != *checkpoint {
        return Err(other_root(alloc, name));
    }
    Ok(log)
}

// Why no log goes on from the partial tiles.
fn refused_edge(alloc: Global, name: &str, error: &OpenError) -> LogError
    ensures memory { error.now ≡ OpenError.Memory → IsNoFault ⊥ result }
    ensures other { IsNoFailure result }
{
    match error {
        OpenError::Memory => LogError::Folder(FolderError::Memory),
        _ => other_root(alloc, name),
    }
}

// That the root in this file isn't that of the last tiles.
fn other_root(alloc: Global, name: &str) -> LogError
    ensures { IsNoFailure result }
{
    LogError::damaged(alloc, name, "has another root than the log's last tiles")
}

/// Reads a bundle of the entries below a tile of level 0. `Damaged` where its file is missing.
#[tactic(auto, using(warg_folder::proofs::ForCallers::read_by, warg_folder::proofs::ForCallers::read_is))]
pub(crate) fn read_bundle<F: Folder>(
    alloc: Global,
    folder: &mut F,
    tile: &Tile,
) -> Result<Vec<u8>, LogError>
    requires { tile.now.level ≡ 0 }
    ensures own { F.IsFaithful → IfOk result (λ read. (log : LogOf)
        → AreShort log.entries → tile.now.width ≤ 256
        → F.seen folder.old (entries_path tile.now) ≡ Some (bundle_bytes log tile.now)
        → read.items ≡ bundle_bytes log tile.now) }
    ensures file { F.IsFaithful → IfOk result (λ read. length read.items ≤ 256 * 65537
        → F.seen folder.old (entries_path tile.now) ≡ Some read.items) }
    ensures whole { F.IsFaithful → (log : LogOf)
        → F.seen folder.old (entries_path tile.now) ≡ Some (bundle_bytes log tile.now)
        → IfErr result (IsNoFault ⊥) }
    ensures read { F.IsFaithful → IsRead F.seen F.may_leave F.moment F.left_since folder.old folder.new }
    ensures cause { HasLogCause F.IsFaithful (F.faults folder.old) (F.faults folder.new) result }
{
    let path = tile.entries_path(alloc)?;
    match folder.read(alloc, path.as_str(), MOST_BUNDLE)? {
        Some(bytes) => Ok(bytes),
        None => Err(LogError::damaged(alloc, path.as_str(), "is missing")),
    }
}

/// The entries of a bundle's bytes. `Damaged` where they aren't those of as many entries as the tile is wide.
pub(crate) fn entries_of<'a>(
    alloc: Global,
    tile: &Tile,
    bytes: &'a [u8],
) -> Result<Vec<&'a [u8]>, LogError>
    requires { tile.now.level ≡ 0 }
    ensures entries { IfOk result (λ entries. bytes.now ≡ bundle_of (map (λ e. e.now) entries.items)) }
    ensures count { IfOk result (λ entries. length entries.items ≡ tile.now.width) }
    ensures short { IfOk result (λ entries. AreShort (map (λ e. e.now) entries.items)) }
    ensures whole { (log : LogOf) → AreShort log.entries → IsBundleIn log tile.now
        → bytes.now ≡ bundle_bytes log tile.now → IfErr result (IsNoFault ⊥) }
    ensures other { IfErr result IsNoFailure }
{
    let entries = match read_entries(alloc, bytes) {
        Ok(entries) => entries,
        Err(EntriesError::Truncated) => return Err(damaged_bundle(alloc, tile, CUT)),
        Err(EntriesError::Memory) => return Err(LogError::Folder(FolderError::Memory)),
    };
    if entries.len() != tile.width() {
        return Err(damaged_bundle(alloc, tile, CUT));
    }
    Ok(entries)
}

/// That a bundle is corrupt.
pub(crate) fn damaged_bundle(alloc: Global, tile: &Tile, fault: &'static str) -> LogError
    requires { tile.now.level ≡ 0 }
    ensures { IsNoFailure result }
{
    match tile.entries_path(alloc) {
        Ok(path) => LogError::damaged(alloc, path.as_str(), fault),
        Err(_) => LogError::Folder(FolderError::Memory),
    }
}

/// Reads what the log of the checkpoint in this file goes on from: its right edge, and the entries of the last bundle.
/// `Damaged` names the first file that is missing or corrupt.
pub(crate) fn read_end<F: Folder>(
    alloc: Global,
    folder: &mut F,
    name: &str,
    checkpoint: &Checkpoint<Sha256>,
) -> Result<(TileLog<Sha256, Vec<u8>>, Vec<u8>), LogError>
    requires { checkpoint.now.length ≤ GREATEST_LENGTH }
    ensures length { IfOk result (λ end. (end.0.len ≡ checkpoint.now.length)
        × (end.0.taken ≡ checkpoint.now.length)) }
    ensures end { F.IsFaithful → IfOk result (λ end. (log : LogOf) → CanBeKept log
        → checkpoint.now.length ≡ length log.entries → HasFiles log (F.seen folder.old)
        → StandsFor sha256 end.0 (leaves_of sha256 log.entries)
        × (end.1.items ≡ bundle_of (drop (256 * (length log.entries / 256)) log.entries))) }
    ensures whole { F.IsFaithful → (log : LogOf) → CanBeKept log
        → checkpoint.now ≡ checkpoint_said (said_of log) → HasFiles log (F.seen folder.old)
        → IfErr result (IsNoFault ⊥) }
    ensures read { F.IsFaithful → IsRead F.seen F.may_leave F.moment F.left_since folder.old folder.new }
    ensures cause { HasLogCause F.IsFaithful (F.faults folder.old) (F.faults folder.new) result }
{
    let edge = read_edge(alloc, folder, checkpoint.length())?;
    let log = open_edge(alloc, name, checkpoint, edge.as_slice())?;
    let bundle = read_last_bundle(alloc, folder, edge.as_slice())?;
    Ok((log, bundle))
}

/// Reads the bundle below the last tile of level 0, if that isn't full. `Damaged` where the entries aren't the tile's.
#[tactic(auto, using(warg_folder::proofs::ForCallers::read_is))]
pub(crate) fn read_last_bundle<F: Folder>(
    alloc: Global,
    folder: &mut F,
    edge: &[StoredTile<Sha256>],
) -> Result<Vec<u8>, LogError>
    ensures bundle { F.IsFaithful → IfOk result (λ bytes. (log : LogOf) → CanBeKept log
        → HasFiles log (F.seen folder.old) → ArePartsOf log edge.now
        → bytes.items ≡ bundle_of (drop (256 * (length log.entries / 256)) log.entries)) }
    ensures whole { F.IsFaithful → (log : LogOf) → CanBeKept log → HasFiles log (F.seen folder.old)
        → ArePartsOf log edge.now → IfErr result (IsNoFault ⊥) }
    ensures read { F.IsFaithful → IsRead F.seen F.may_leave F.moment F.left_since folder.old folder.new }
    ensures cause { HasLogCause F.IsFaithful (F.faults folder.old) (F.faults folder.new) result }
{
    match edge.first() {
        Some(stored) if stored.tile.level() == 0 => {
            let bytes = read_bundle(alloc, folder, &stored.tile)?;
            check_entries(alloc, stored, bytes.as_slice())?;
            Ok(bytes)
        }
        _ => Ok(Vec::new(alloc)),
    }
}

// Refuses entries that aren't those of the tile.
fn check_entries(alloc: Global, stored: &StoredTile<Sha256>, bytes: &[u8]) -> Result<(), LogError>
    requires { stored.now.tile.level ≡ 0 }
    ensures whole { (log : LogOf) → AreShort log.entries → IsBundleIn log stored.now.tile
        → bytes.now ≡ bundle_bytes log stored.now.tile
        → stored.now.digests.items ≡ tile_digests sha256 (leaves_of sha256 log.entries) stored.now.tile
        → IfErr result (IsNoFault ⊥) }
    ensures other { IfErr result IsNoFailure }
{
    let entries = entries_of(alloc, &stored.tile, bytes)?;
    'entries: for (place, entry) in entries.as_slice().iter().enumerate() {
        if !is_leaf(stored.digests.as_slice().get(place), entry) {
            let fault = "has other entries than its tile";
            return Err(damaged_bundle(alloc, &stored.tile, fault));
        }
    }
    Ok(())
}

// Whether a digest is there and is the leaf digest of an entry.
fn is_leaf(digest: Option<&Hash<Sha256>>, entry: &[u8]) -> bool
    ensures { option_copied digest.entry ≡ Some (leaf_digest sha256 entry.now) → result ≡ true }
{
    match digest {
        Some(digest) => hash_leaf::<Sha256, &[u8]>(&entry) == *digest,
        None => false,
    }
}
