//! Older partial tiles and bundles, which stay where a log has grown: each is the beginning of what took its place.

ghost use Rattle.std.specs.Prelude.{◌≡◌, ◌↔◌, ◌++◌, ◌<◌, ◌≤◌, ℕ, List, length, map, take, codes, true, Some, IsSome, IsTrue, IfOk, IfErr, OnOk, All, Contains, nat_eq, string_bytes};
ghost use Rattle.std.specs.List.{flat_map, starts_with};
ghost use Rattle.warg_tiles.specs.EntryBundles.{bundle_of};
ghost use Rattle.warg_tiles.specs.TilePaths.{tile_path, entries_path};
ghost use Rattle.warg_store.specs.Audited.{HasOlder};
ghost use Rattle.warg_store.specs.Log.{LogOf, AreShort, tile_bytes, bundle_bytes};
ghost use Rattle.warg_store.specs.Private.Compared.{IsOwnTile, IsPartOf, IsBeginning, tile_of, path_beside};
ghost use Rattle.warg_store.specs.Reading.{bundle_in};
ghost use Rattle.warg_store.specs.Refusals.{IsNoFault, HasLogCause};
ghost use Rattle.warg_folder.specs.Moments.{IsRead, HasCause};

use crate::edge::{damaged_bundle, read_bundle, read_tile};
use crate::error::LogError;
use std::alloc::{AllocError, Global};
use warg_crypto::Sha256;
use warg_folder::{Folder, FolderError};
use warg_tiles::{EntryError, StoredTile, Tile, write_entries};

// What is wrong with an older file.
const NO_BEGINNING: &str = "isn't the beginning of the file that took its place";

/// A file that took the place of older partial ones.
#[derive(Clone, Copy)]
pub(crate) enum Newer<'a> {
    Tile(&'a StoredTile<Sha256>),
    /// The bundle of this number, with its entries.
    Bundle(usize, &'a [Vec<u8>]),
}

impl Newer<'_> {
    // The path of the full file in its place.
    fn full_path(&self, alloc: Global) -> Result<String, AllocError>
        ensures { IfOk result (λ path. string_bytes path
            ≡ path_beside self.now (record (tile_of self.now) { width = 256 })) }
    {
        match self {
            Newer::Tile(newer) => {
                Tile::new(newer.tile.level(), newer.tile.number(), 256).path(alloc)
            }
            Newer::Bundle(number, _) => Tile::new(0, *number, 256).entries_path(alloc),
        }
    }
}

/// Reads the older partial files in the place of a newer one. `Damaged` names one that isn't a beginning of it.
#[tactic(auto, using(warg_folder::proofs::ForCallers::read_is))]
pub(crate) fn compare_older<F: Folder>(
    alloc: Global,
    folder: &mut F,
    newer: &Newer,
) -> Result<(), LogError>
    ensures older { F.IsFaithful → OnOk result ((name : List ℕ) → IsBeginning newer.now (F.seen folder.old) name) }
    ensures whole { F.IsFaithful → (log : LogOf) → AreShort log.entries → IsPartOf log newer.now
        → HasOlder log (F.seen folder.old) → IfErr result (IsNoFault ⊥) }
    ensures read { F.IsFaithful → IsRead F.seen F.may_leave F.moment F.left_since folder.old folder.new }
    ensures cause { HasLogCause F.IsFaithful (F.faults folder.old) (F.faults folder.new) result }
{
    let names = partial_names(alloc, folder, newer.full_path(alloc)?)?;
    'names: for name in names.as_slice() {
        compare_named(alloc, folder, name.as_str(), newer)?;
    }
    Ok(())
}

// Refuses the file of this name, if it is an older one and isn't a beginning of the newer one.
#[tactic(auto, using(warg_folder::proofs::ForCallers::read_is))]
fn compare_named<F: Folder>(
    alloc: Global,
    folder: &mut F,
    name: &str,
    newer: &Newer,
) -> Result<(), LogError>
    ensures older { F.IsFaithful → OnOk result (IsBeginning newer.now (F.seen folder.old) name.now) }
    ensures whole { F.IsFaithful → (log : LogOf) → AreShort log.entries → IsPartOf log newer.now
        → HasOlder log (F.seen folder.old) → IsSome (F.seen folder.old name.now) → IfErr result (IsNoFault ⊥) }
    ensures read { F.IsFaithful → IsRead F.seen F.may_leave F.moment F.left_since folder.old folder.new }
    ensures cause { HasLogCause F.IsFaithful (F.faults folder.old) (F.faults folder.new) result }
{
    match newer {
        Newer::Tile(newer) => match Tile::from_path(name) {
            Ok(tile) if is_older(&tile, &newer.tile) => {
                compare_older_tile(alloc, folder, tile, newer)
            }
            _ => Ok(()),
        },
        Newer::Bundle(number, entries) => match Tile::from_entries_path(name) {
            Ok(tile) if tile.number() == *number && tile.width() < entries.len() => {
                compare_older_bundle(alloc, folder, &tile, entries)
            }
            _ => Ok(()),
        },
    }
}

// Whether a tile has fewer digests than another one in its place.
fn is_older(tile: &Tile, newer: &Tile) -> bool
    ensures { IsTrue result ↔ ((tile.now.level ≡ newer.now.level) × (tile.now.number ≡ newer.now.number)
        × (tile.now.width < newer.now.width)) }
{
    tile.level() == newer.level() && tile.number() == newer.number() && tile.width() < newer.width()
}

// Refuses a tile that isn't a beginning of a newer one.
#[tactic(auto, using(warg_folder::proofs::ForCallers::read_is))]
fn compare_older_tile<F: Folder>(
    alloc: Global,
    folder: &mut F,
    tile: Tile,
    newer: &StoredTile<Sha256>,
) -> Result<(), LogError>
    ensures file { F.IsFaithful → OnOk result (F.seen folder.old (tile_path tile)
        ≡ Some (flat_map (λ digest. digest) (take tile.width newer.now.digests.items))) }
    ensures whole { F.IsFaithful → (log : LogOf) → IsOwnTile log (newer.now.tile, newer.now.digests.items)
        → tile.level ≡ newer.now.tile.level → tile.number ≡ newer.now.tile.number → tile.width < newer.now.tile.width
        → F.seen folder.old (tile_path tile) ≡ Some (tile_bytes log tile) → IfErr result (IsNoFault ⊥) }
    ensures read { F.IsFaithful → IsRead F.seen F.may_leave F.moment F.left_since folder.old folder.new }
    ensures cause { HasLogCause F.IsFaithful (F.faults folder.old) (F.faults folder.new) result }
{
    let older = read_tile(alloc, folder, tile)?.digests;
    if newer.digests.as_slice().starts_with(older.as_slice()) {
        return Ok(());
    }
    let path = tile.path(alloc)?;
    Err(LogError::damaged(alloc, path.as_str(), NO_BEGINNING))
}

// Refuses a bundle that isn't a beginning of these entries.
#[tactic(auto, using(warg_folder::proofs::ForCallers::read_is))]
fn compare_older_bundle<F: Folder>(
    alloc: Global,
    folder: &mut F,
    tile: &Tile,
    entries: &[Vec<u8>],
) -> Result<(), LogError>
    requires level { tile.now.level ≡ 0 }
    requires less { tile.now.width ≤ length entries.now }
    ensures file { F.IsFaithful → OnOk result (F.seen folder.old (entries_path tile.now)
        ≡ Some (bundle_of (take tile.now.width (map (λ e. e.items) entries.now)))) }
    ensures whole { F.IsFaithful → (log : LogOf) → AreShort log.entries
        → map (λ e. e.items) entries.now ≡ bundle_in log tile.now.number
        → F.seen folder.old (entries_path tile.now) ≡ Some (bundle_bytes log tile.now)
        → IfErr result (IsNoFault ⊥) }
    ensures read { F.IsFaithful → IsRead F.seen F.may_leave F.moment F.left_since folder.old folder.new }
    ensures cause { HasLogCause F.IsFaithful (F.faults folder.old) (F.faults folder.new) result }
{
    let found = read_bundle(alloc, folder, tile)?;
    if is_bundle(alloc, found.as_slice(), &entries[..tile.width()])? {
        return Ok(());
    }
    Err(damaged_bundle(alloc, tile, NO_BEGINNING))
}

// Whether bytes are those of the bundle of these entries.
fn is_bundle(alloc: Global, bytes: &[u8], entries: &[Vec<u8>]) -> Result<bool, FolderError>
    ensures is { IfOk result (λ is. AreShort (map (λ e. e.items) entries.now)
        → bytes.now ≡ bundle_of (map (λ e. e.items) entries.now) → is ≡ true) }
    ensures only { IfOk result (λ is. is ≡ true → AreShort (map (λ e. e.items) entries.now)
        × (bytes.now ≡ bundle_of (map (λ e. e.items) entries.now))) }
    ensures memory { IfErr result (λ error. error ≡ FolderError.Memory) }
{
    match write_entries(alloc, entries) {
        Ok(bundle) => Ok(bytes == bundle.as_slice()),
        Err(EntryError::TooLong) => Ok(false),
        Err(EntryError::Memory) => Err(FolderError::Memory),
    }
}

// The names of the partial files at the place of a full one.
#[tactic(auto, using(warg_folder::proofs::ForCallers::read_by, warg_folder::proofs::ForCallers::read_is))]
fn partial_names<F: Folder>(
    alloc: Global,
    folder: &mut F,
    full: String,
) -> Result<Vec<String>, FolderError>
    ensures there { F.IsFaithful → IfOk result
        (λ names. All (λ name. IsSome (F.seen folder.old (string_bytes name))) names.items) }
    ensures all { F.IsFaithful → IfOk result (λ names. (n : List ℕ) → IsSome (F.seen folder.old n)
        → starts_with nat_eq n (string_bytes full ++ codes ".p/") ≡ true
        → Contains (map (λ name. string_bytes name) names.items) n) }
    ensures read { F.IsFaithful → IsRead F.seen F.may_leave F.moment F.left_since folder.old folder.new }
    ensures cause { HasCause F.IsFaithful (F.faults folder.old) (F.faults folder.new) result }
{
    let mut prefix = full;
    prefix.push_str(".p/")?;
    folder.list(alloc, prefix.as_str())
}
