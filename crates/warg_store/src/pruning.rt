//! Files that the log no longer needs.

ghost use Rattle.std.specs.Prelude.{None, ◌≡◌, ◌≤◌, ◌<◌, ◌^◌, ◌↔◌, ℕ, true, List, length, if◌then◌else◌, All, IsSome, IsTrue, IfOk, IfErr, IfSome, OnOk, string_bytes};
ghost use Rattle.warg_tiles.specs.Between.{IsTileOf};
ghost use Rattle.warg_tiles.specs.Tiles.{TileAt, IsTile};
ghost use Rattle.warg_folder.specs.Files.{Files, without, AreApart};
ghost use Rattle.warg_folder.specs.Moments.{Only, LeavesOnly, IsRead, HasCause};
ghost use Rattle.warg_folder.specs.Names.{is_staged};
ghost use Rattle.warg_folder.specs.Commits.{IsStaging};
ghost use Rattle.warg_store.specs.Log.{LogOf, Serves, Keeps, IsOneOf};
ghost use Rattle.warg_store.specs.Growing.{Has};
ghost use Rattle.warg_store.specs.Refusals.{IsNoFault, HasLogCause};
ghost use Rattle.warg_store.specs.Pruned.{full_of, HasFull, IsSpare, IsPruned, AreGone};
ghost use Rattle.warg_store.specs.Private.Steps.{IsPruning, PrunesOn};

use crate::error::LogError;
use crate::log_folder::LogFolder;
use crate::opening::read_served;
use std::alloc::{AllocError, Global};
use warg_folder::{Folder, FolderError};
use warg_log::GREATEST_LENGTH;
use warg_tiles::Tile;

// A tile, or the one over a bundle, and the path of the full one in its place.
#[derive(Drop)]
struct Named {
    tile: Tile,
    full: String,
}

impl<F: Folder + Drop> LogFolder<F> {
    /// Removes each partial tile and bundle whose full one is there, except those that the served checkpoint needs, and no
    /// other file. Readers at an older length then read the full one, as C2SP's tlog-tiles has it; a `LogReader` at one finds
    /// the partial one missing (`Damaged`): open a new one. Returns how many files were removed. `Damaged` where the served
    /// checkpoint is missing or corrupt. After an error, open the folder again.
    pub fn prune(&mut self) -> Result<usize, LogError>
        ensures pruned { F.IsFaithful → OnOk result ((served old next : LogOf)
            → Has F.seen F.may_leave served old next self.old
            → Has F.seen F.may_leave served old next self.new) }
        ensures any_moment { F.IsFaithful → (served old next : LogOf)
            → Has F.seen F.may_leave served old next self.old
            → LeavesOnly F.moment F.left_since self.old.folder self.new.folder (IsOneOf served old old) }
        ensures only { F.IsFaithful → (served old next : LogOf)
            → Has F.seen F.may_leave served old next self.old
            → IsPruned (length old.entries) (length served.entries)
            (F.seen self.old.folder) (F.seen self.new.folder) }
        ensures all { F.IsFaithful → OnOk result ((served old next : LogOf)
            → Has F.seen F.may_leave served old next self.old → (n : List ℕ)
            → IsSpare (length old.entries) (length served.entries) (F.seen self.old.folder) n
            → F.seen self.new.folder n ≡ None) }
        ensures whole { F.IsFaithful → (served old next : LogOf)
            → Has F.seen F.may_leave served old next self.old → IfErr result (IsNoFault ⊥) }
        ensures gone { F.IsFaithful → IfOk result (λ n.
            AreGone n (F.seen self.old.folder) (F.seen self.new.folder)) }
        ensures few { IfOk result (λ n. n < 2 ^ 63) }
        ensures cause { HasLogCause F.IsFaithful (F.faults self.old.folder) (F.faults self.new.folder) result }
    {
        let kept = self.checkpoint().length();
        prune_all(self.alloc, &mut self.folder, kept)
    }
}

// As `prune`, of a folder whose log keeps so many entries.
fn prune_all<F: Folder>(alloc: Global, folder: &mut F, kept: usize) -> Result<usize, LogError>
    requires { kept ≤ GREATEST_LENGTH }
    ensures any_moment { F.IsFaithful → (served log : LogOf) → Keeps served log (F.seen folder.old)
        → IsStaging (F.seen folder.old) (F.may_leave folder.old)
        → LeavesOnly F.moment F.left_since folder.old folder.new
        (IsPruning kept (length served.entries) (F.seen folder.old)) }
    ensures done { F.IsFaithful → OnOk result (Only (F.seen folder.new) (F.may_leave folder.new)
        × ((n : List ℕ) → is_staged n ≡ true → F.seen folder.new n ≡ F.seen folder.old n)) }
    ensures all { F.IsFaithful → OnOk result ((served log : LogOf) → Keeps served log (F.seen folder.old)
        → IsStaging (F.seen folder.old) (F.may_leave folder.old) → (n : List ℕ)
        → IsSpare kept (length served.entries) (F.seen folder.old) n → F.seen folder.new n ≡ None) }
    ensures whole { F.IsFaithful → (log : LogOf) → Serves log (F.seen folder.old) → IfErr result (IsNoFault ⊥) }
    ensures gone { F.IsFaithful → IfOk result (λ n. AreGone n (F.seen folder.old) (F.seen folder.new)) }
    ensures few { IfOk result (λ n. n < 2 ^ 63) }
    ensures cause { HasLogCause F.IsFaithful (F.faults folder.old) (F.faults folder.new) result }
{
    let served = read_served(alloc, folder)?.checkpoint().length();
    let names = folder.list(alloc, "tile/")?;
    let removed = prune_each(alloc, folder, names.as_slice(), kept, served)?;
    folder.sync()?;
    Ok(removed)
}

// Removes those of the named files that are spare. Returns how many they were.
fn prune_each<F: Folder>(
    alloc: Global,
    folder: &mut F,
    names: &[String],
    kept: usize,
    served: usize,
) -> Result<usize, FolderError>
    requires kept { kept ≤ GREATEST_LENGTH }
    requires served { served ≤ GREATEST_LENGTH }
    ensures run { F.IsFaithful → PrunesOn F.moment F.left_since F.may_leave kept served folder.old folder.new }
    ensures staged { F.IsFaithful → OnOk result ((n : List ℕ) → is_staged n ≡ true
        → F.seen folder.new n ≡ F.seen folder.old n) }
    ensures all { F.IsFaithful → OnOk result ((s : Files)
        → ((d : Files) → F.may_leave folder.old d → IsPruning kept served s d)
        → All (λ name. IsSpare kept served s (string_bytes name)
        → F.seen folder.new (string_bytes name) ≡ None) names.now) }
    ensures gone { F.IsFaithful → AreApart names.now
        → All (λ name. IsSome (F.seen folder.old (string_bytes name))) names.now
        → IfOk result (λ n. AreGone n (F.seen folder.old) (F.seen folder.new)) }
    ensures few { IfOk result (λ n. n ≤ length names.now) }
    ensures cause { HasCause F.IsFaithful (F.faults folder.old) (F.faults folder.new) result }
{
    let mut removed = 0usize;
    'names: for name in names {
        if prune_one(alloc, folder, name.as_str(), kept, served)? {
            removed = removed.saturating_add(1);
        }
    }
    Ok(removed)
}

// Removes a file if it is spare. Whether it was.
fn prune_one<F: Folder>(
    alloc: Global,
    folder: &mut F,
    name: &str,
    kept: usize,
    served: usize,
) -> Result<bool, FolderError>
    requires kept { kept ≤ GREATEST_LENGTH }
    requires served { served ≤ GREATEST_LENGTH }
    ensures run { F.IsFaithful → PrunesOn F.moment F.left_since F.may_leave kept served folder.old folder.new }
    ensures spare { F.IsFaithful → IfOk result (λ is. IsTrue is ↔ IsSpare kept served (F.seen folder.old) name.now) }
    ensures gone { F.IsFaithful → IfOk result (λ is. F.seen folder.new
        ≡ (if is then without name.now (F.seen folder.old) else F.seen folder.old)) }
    ensures cause { HasCause F.IsFaithful (F.faults folder.old) (F.faults folder.new) result }
{
    let is_spare = is_spare_file(alloc, folder, name, kept, served)?;
    if is_spare {
        folder.remove(name)?;
    }
    Ok(is_spare)
}

// Whether a file is spare. It only reads the folder.
fn is_spare_file<F: Folder>(
    alloc: Global,
    folder: &mut F,
    name: &str,
    kept: usize,
    served: usize,
) -> Result<bool, FolderError>
    requires kept { kept ≤ GREATEST_LENGTH }
    requires served { served ≤ GREATEST_LENGTH }
    ensures spare { F.IsFaithful → IfOk result (λ is. IsTrue is ↔ IsSpare kept served (F.seen folder.old) name.now) }
    ensures read { F.IsFaithful → IsRead F.seen F.may_leave F.moment F.left_since folder.old folder.new }
    ensures cause { HasCause F.IsFaithful (F.faults folder.old) (F.faults folder.new) result }
{
    let Some(named) = tile_named(alloc, name)? else {
        return Ok(false);
    };
    if !is_spare(&named.tile, kept, served) {
        return Ok(false);
    }
    let full = folder.read(alloc, named.full.as_str(), 0)?;
    Ok(full.is_some())
}

// Whether the tile is a partial one that the served length hasn't, and the kept length has the full one.
fn is_spare(tile: &Tile, kept: usize, served: usize) -> bool
    requires kept { kept ≤ GREATEST_LENGTH }
    requires served { served ≤ GREATEST_LENGTH }
    ensures { IsTrue result ↔ ((tile.now.width < 256) × IsTileOf kept (full_of tile.now)
        × (IsTileOf served tile.now → ⊥)) }
{
    if tile.width() == 256 || is_tile_of(tile, served) {
        return false;
    }
    is_tile_of(&Tile::new(tile.level(), tile.number(), 256), kept)
}

// Whether the tile is one of a log of this length, which fills it as wide as it is.
fn is_tile_of(tile: &Tile, length: usize) -> bool
    requires { length ≤ GREATEST_LENGTH }
    ensures { IsTrue result ↔ IsTileOf length tile.now }
{
    if tile.level() >= 8 {
        return false;
    }
    let count = length >> (8 * tile.level());
    let before = tile.number().saturating_mul(256);
    count.saturating_sub(before).min(256) == tile.width()
}

// The tile, or the one over the bundle, whose path a name is.
fn tile_named(alloc: Global, name: &str) -> Result<Option<Named>, AllocError>
    ensures tile { IfOk result (λ found. IfSome found (λ named. IsTile named.tile)) }
    ensures paths { IfOk result (λ found. IfSome found (λ named.
        HasFull name.now named.tile (string_bytes named.full))) }
    ensures none { IfOk result (λ found. found ≡ None → (t : TileAt) (full : List ℕ) → IsTile t
        → HasFull name.now t full → ⊥) }
{
    if let Ok(tile) = Tile::from_entries_path(name) {
        let full = Tile::new(0, tile.number(), 256).entries_path(alloc)?;
        return Ok(Some(Named { tile, full }));
    }
    match Tile::from_path(name) {
        Ok(tile) => {
            let full = Tile::new(tile.level(), tile.number(), 256).path(alloc)?;
            Ok(Some(Named { tile, full }))
        }
        Err(_) => Ok(None),
    }
}
