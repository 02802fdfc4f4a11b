//! The tiles that a path is made of.

ghost use Rattle.std.specs.Prelude.{◌≡◌, ◌∷◌, [], ℕ, ◌<◌, ◌≤◌, length, IfOk, IfErr, OnOk, slice_index_or};
ghost use Rattle.std.specs.List.{AllByRecursion};
ghost use Rattle.warg_crypto.specs.Digests.{sha256};
ghost use Rattle.warg_log.specs.Tree.{leaves_of};
ghost use Rattle.warg_tiles.specs.Between.{IsTileOf};
ghost use Rattle.warg_store.specs.Log.{LogOf, IsTileIn, HasFiles};
ghost use Rattle.warg_folder.specs.Moments.{Within};
ghost use Rattle.warg_store.specs.Private.Fetched.{AreOwn, GivesMore};
ghost use Rattle.warg_store.specs.Refusals.{IsNoFault, HasLogCause};

use crate::edge::read_tile;
use crate::error::LogError;
use std::alloc::Global;
use warg_crypto::{Hash, Sha256};
use warg_folder::{Folder, FolderError};
use warg_log::{GREATEST_LENGTH, LogData, Node};
use warg_tiles::{Tile, TileData};

/// The tiles that were read for a path.
pub(crate) type Fetched = TileData<Sha256, Vec<u8>>;

/// Reads the tiles that weren't read yet, each as wide as the log of this length has it.
pub(crate) fn fetch<F: Folder>(
    alloc: Global,
    folder: &mut F,
    fetched: &mut Fetched,
    tiles: &[Tile],
    log_length: usize,
) -> Result<(), LogError>
    ensures own { F.IsFaithful → OnOk result ((log : LogOf) (n : ℕ) → HasFiles log (F.seen folder.old)
        → length log.entries ≡ log_length → n ≤ log_length → n ≤ GREATEST_LENGTH
        → AllByRecursion (IsTileOf n) tiles.now → AreOwn log fetched.old → AreOwn log fetched.new) }
    ensures gives { OnOk result (GivesMore fetched.old tiles.now fetched.new) }
    ensures whole { F.IsFaithful → (log : LogOf) (n : ℕ) → HasFiles log (F.seen folder.old)
        → length log.entries ≡ log_length → n ≤ log_length → n ≤ GREATEST_LENGTH
        → AllByRecursion (IsTileOf n) tiles.now → IfErr result (IsNoFault ⊥) }
    ensures seen { F.IsFaithful → F.seen folder.new ≡ F.seen folder.old }
    ensures crash { F.IsFaithful → Within (F.may_leave folder.old) (F.may_leave folder.new) }
    ensures cause { HasLogCause F.IsFaithful (F.faults folder.old) (F.faults folder.new) result }
{
    'tiles: for tile in tiles {
        fetch_one(alloc, folder, fetched, tile_at(tile, log_length))?;
    }
    Ok(())
}

// Reads a tile, unless one that is as wide was read in its place.
fn fetch_one<F: Folder>(
    alloc: Global,
    folder: &mut F,
    fetched: &mut Fetched,
    tile: Tile,
) -> Result<(), LogError>
    ensures own { F.IsFaithful → OnOk result ((log : LogOf) → HasFiles log (F.seen folder.old)
        → IsTileIn log tile → AreOwn log fetched.old → AreOwn log fetched.new) }
    ensures gives { OnOk result (GivesMore fetched.old (tile ∷ []) fetched.new) }
    ensures whole { F.IsFaithful → (log : LogOf) → HasFiles log (F.seen folder.old)
        → IsTileIn log tile → IfErr result (IsNoFault ⊥) }
    ensures seen { F.IsFaithful → F.seen folder.new ≡ F.seen folder.old }
    ensures crash { F.IsFaithful → Within (F.may_leave folder.old) (F.may_leave folder.new) }
    ensures cause { HasLogCause F.IsFaithful (F.faults folder.old) (F.faults folder.new) result }
{
    if fetched.has_tile(&tile) {
        return Ok(());
    }
    let stored = read_tile(alloc, folder, tile)?;
    fetched.insert(stored.tile, stored.digests)?;
    Ok(())
}

/// The leaf digest of an entry. Where no tile has it yet, its own is read.
pub(crate) fn fetch_leaf<F: Folder>(
    alloc: Global,
    folder: &mut F,
    fetched: &mut Fetched,
    index: usize,
    log_length: usize,
) -> Result<Hash<Sha256>, LogError>
    requires { index < GREATEST_LENGTH }
    ensures own { F.IsFaithful → OnOk result ((log : LogOf) → HasFiles log (F.seen folder.old)
        → length log.entries ≡ log_length → index < log_length → AreOwn log fetched.old
        → AreOwn log fetched.new) }
    ensures leaf { F.IsFaithful → IfOk result (λ leaf. (log : LogOf) → HasFiles log (F.seen folder.old)
        → length log.entries ≡ log_length → index < log_length → AreOwn log fetched.old
        → leaf ≡ slice_index_or (leaves_of sha256 log.entries) index []) }
    ensures gives { OnOk result (GivesMore fetched.old [] fetched.new) }
    ensures whole { F.IsFaithful → (log : LogOf) → HasFiles log (F.seen folder.old)
        → length log.entries ≡ log_length → index < log_length → IfErr result (IsNoFault ⊥) }
    ensures seen { F.IsFaithful → F.seen folder.new ≡ F.seen folder.old }
    ensures crash { F.IsFaithful → Within (F.may_leave folder.old) (F.may_leave folder.new) }
    ensures cause { HasLogCause F.IsFaithful (F.faults folder.old) (F.faults folder.new) result }
{
    let leaf = Node::leaf(index);
    if let Some(digest) = fetched.hash_for(leaf) {
        return Ok(digest);
    }
    let tile = Tile::new(0, index / 256, index % 256 + 1);
    fetch_one(alloc, folder, fetched, tile_at(&tile, log_length))?;
    match fetched.hash_for(leaf) {
        Some(digest) => Ok(digest),
        None => Err(LogError::no_root(alloc)),
    }
}

// The tile as wide as it is in a log of this length.
fn tile_at(tile: &Tile, log_length: usize) -> Tile
    ensures level { result.level ≡ tile.now.level }
    ensures number { result.number ≡ tile.now.number }
    ensures width { tile.now.width ≤ result.width }
    ensures of { (n : ℕ) → n ≤ log_length → n ≤ GREATEST_LENGTH → IsTileOf n tile.now
        → IsTileOf log_length result }
{
    if tile.level() >= 8 {
        return *tile;
    }
    let count = log_length >> (8 * tile.level());
    let before = tile.number().saturating_mul(256);
    let width = count.saturating_sub(before).min(256);
    Tile::new(tile.level(), tile.number(), width.max(tile.width()))
}
