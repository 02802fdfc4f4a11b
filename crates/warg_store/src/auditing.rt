//! Every tile made again from the entries.

ghost use Rattle.std.specs.Prelude.{◌≡◌, ◌⊎◌, ℕ, ◌+◌, ◌*◌, ◌<◌, ◌≤◌, List, [], ◌∷◌, ◌++◌, Some, length, map, take, min, IfErr, IfOk, OnOk};
ghost use Rattle.std.specs.List.{AllByRecursion, flat_map};
ghost use Rattle.warg_crypto.specs.Digests.{sha256};
ghost use Rattle.warg_log.specs.Tree.{root_of, leaves_of};
ghost use Rattle.warg_tiles.specs.CheckpointText.{Said, text_of};
ghost use Rattle.warg_tiles.specs.TileLog.{StandsFor};
ghost use Rattle.warg_tiles.specs.TilePaths.{tile_path};
ghost use Rattle.warg_folder.specs.Files.{Files};
ghost use Rattle.warg_folder.specs.Moments.{Only, IsRead, LeavesOnly};
ghost use Rattle.warg_folder.specs.Commits.{opened, committed, IsStaging, NothingStaged, IsBetween};
ghost use Rattle.warg_store.specs.Audited.{HasEntries, HasOlder, IsOfEntries, ShowsLog, ShowsLogAndOlder};
ghost use Rattle.warg_store.specs.Log.{LogOf, HasState};
ghost use Rattle.warg_store.specs.Opening.{CanBeServed};
ghost use Rattle.warg_store.specs.Reading.{AreOfLog, bundle_in, checkpoint_said};
ghost use Rattle.warg_store.specs.Rebuilt.{HasBundlesOf, IsStated, IsRebuilt, IsRebuilding};
ghost use Rattle.warg_store.specs.Private.Compared.{HasTiles, HasNarrower, HasNarrowerBundles, IsOwnTile, IsWhole};
ghost use Rattle.warg_store.specs.Private.Used.{IsReadyFor, IsUsed, AreUsed, IsEnough, HasUsed, HasUsedAll, IsRemaking};
ghost use Rattle.warg_store.specs.Refusals.{IsNoFault, IsNoFailure, HasLogCause};

use crate::edge::read_tile;
use crate::error::LogError;
use crate::log::stage_tiles;
use crate::older::{Newer, compare_older};
use crate::opening::read_state;
use crate::reading::read_entries;
use std::alloc::Global;
use warg_crypto::Sha256;
use warg_folder::{Folder, FolderError, MOST_TEXT, STATE, commit, recover};
use warg_log::{Checkpoint, GREATEST_LENGTH, LogBuilder};
use warg_tiles::{CheckpointText, StoredTile, TileLog};

/// Told how far a long run has come.
pub trait Progress {
    /// One more entry was read.
    fn step(&mut self);
}

// What becomes of a tile that was made again.
#[derive(Clone, Copy)]
pub(crate) enum Use {
    Compare,
    Stage,
}

// The checkpoint in this file, if every tile is the one over the entries, and their root is its root.
pub(crate) fn audited<F: Folder, P: Progress>(
    alloc: Global,
    folder: &mut F,
    name: &str,
    checkpoint: &Checkpoint<Sha256>,
    progress: &mut P,
) -> Result<Checkpoint<Sha256>, LogError>
    requires { checkpoint.now.length ≤ GREATEST_LENGTH }
    ensures entries { IfOk result IsOfEntries }
    ensures said { IfOk result (λ found. found ≡ checkpoint.now) }
    ensures files { F.IsFaithful → IfOk result (ShowsLogAndOlder (F.seen folder.old)) }
    ensures whole { F.IsFaithful → (log : LogOf) → AreOfLog log checkpoint.now (F.seen folder.old)
        → HasOlder log (F.seen folder.old) → IfErr result (IsNoFault ⊥) }
    ensures read { F.IsFaithful → IsRead F.seen F.may_leave F.moment F.left_since folder.old folder.new }
    ensures cause { HasLogCause F.IsFaithful (F.faults folder.old) (F.faults folder.new) result }
{
    let log = replayed(alloc, folder, checkpoint.length(), Use::Compare, progress)?;
    same_root(alloc, name, &log, checkpoint)
}

/// Makes each tile of a folder's log again, from its bundles, once they lead to the root of the log's state, and commits
/// them with the state's text: where tiles are missing or corrupt and the entries are not. It may crash too, and is then
/// called again. `NoLog` where there is no log; `Damaged` names the first bundle that is missing or corrupt, the state where
/// it is corrupt or the bundles lead to another root, or the text of a commit that stands where that is too long. Else it
/// fails only if memory is refused or the device fails. All else that is served stays the same.
pub fn rebuild<F: Folder, P: Progress>(
    alloc: Global,
    folder: &mut F,
    progress: &mut P,
) -> Result<Checkpoint<Sha256>, LogError>
    ensures entries { IfOk result IsOfEntries }
    ensures rebuilt { F.IsFaithful → IfOk result (ShowsLog (F.seen folder.new)) }
    ensures made { F.IsFaithful → IfOk result (λ found. (said : Said) × (found ≡ checkpoint_said said)
        × IsRebuilt said (opened (F.seen folder.old)) (F.seen folder.new)) }
    ensures whole { F.IsFaithful → (log : LogOf) → HasState log (opened (F.seen folder.old))
        → HasBundlesOf log (opened (F.seen folder.old)) → IfErr result (IsNoFault ⊥) }
    ensures durable { F.IsFaithful → OnOk result (Only (F.seen folder.new) (F.may_leave folder.new)) }

    // A crash, or a reader, at any moment finds what it might have found before, or the old files or those made again.
    ensures any_moment { F.IsFaithful → LeavesOnly F.moment F.left_since folder.old folder.new
        (λ c. F.may_leave folder.old c ⊎ IsRebuilding (F.seen folder.old) c) }

    ensures cause { HasLogCause F.IsFaithful (F.faults folder.old) (F.faults folder.new) result }
{
    if let Err(error) = recover(alloc, folder) {
        return Err(LogError::of_recovery(alloc, &error));
    }
    let state = read_state(alloc, folder)?;
    remade(alloc, folder, &state, progress)
}

// The checkpoint that a state says, once its log's tiles are made again.
fn remade<F: Folder, P: Progress>(
    alloc: Global,
    folder: &mut F,
    state: &CheckpointText<Sha256>,
    progress: &mut P,
) -> Result<Checkpoint<Sha256>, LogError>
    requires staging { F.IsFaithful → IsStaging (F.seen folder.old) (F.may_leave folder.old) }
    requires empty { F.IsFaithful → NothingStaged (F.seen folder.old) }
    requires stated { F.IsFaithful → IsStated state.now (F.seen folder.old) }
    ensures entries { IfOk result IsOfEntries }
    ensures said { IfOk result (λ found. found ≡ checkpoint_said state.now) }
    ensures made { F.IsFaithful → OnOk result (IsRebuilt state.now (F.seen folder.old) (F.seen folder.new)) }
    ensures whole { F.IsFaithful → (log : LogOf) → HasState log (F.seen folder.old)
        → HasBundlesOf log (F.seen folder.old) → IfErr result (IsNoFault ⊥) }
    ensures durable { F.IsFaithful → OnOk result (Only (F.seen folder.new) (F.may_leave folder.new)) }
    ensures any_moment { F.IsFaithful → LeavesOnly F.moment F.left_since folder.old folder.new
        (IsRemaking state.now (F.seen folder.old)) }
    ensures cause { HasLogCause F.IsFaithful (F.faults folder.old) (F.faults folder.new) result }
{
    let checkpoint = state.checkpoint();
    let log = replayed(alloc, folder, checkpoint.length(), Use::Stage, progress)?;
    let found = same_root(alloc, STATE, &log, &checkpoint)?;
    commit_state(alloc, folder, state)?;
    Ok(found)
}

// Commits what is staged with the state's text.
fn commit_state<F: Folder>(
    alloc: Global,
    folder: &mut F,
    state: &CheckpointText<Sha256>,
) -> Result<(), LogError>
    requires { F.IsFaithful → IsStaging (F.seen folder.old) (F.may_leave folder.old) }
    ensures committed { F.IsFaithful → OnOk result
        (F.seen folder.new ≡ committed (text_of state.now) (F.seen folder.old)) }
    ensures whole { CanBeServed state.now → IfErr result (IsNoFault ⊥) }
    ensures durable { F.IsFaithful → OnOk result (Only (F.seen folder.new) (F.may_leave folder.new)) }
    ensures any_moment { F.IsFaithful → LeavesOnly F.moment F.left_since folder.old folder.new
        (IsBetween (F.seen folder.old) (committed (text_of state.now) (F.seen folder.old))) }
    ensures cause { HasLogCause F.IsFaithful (F.faults folder.old) (F.faults folder.new) result }
{
    let text = state.write(alloc)?;
    if text.len() > MOST_TEXT {
        return Err(LogError::damaged(alloc, STATE, "is longer than a checkpoint's text"));
    }
    Ok(commit(alloc, folder, text.as_slice())?)
}

// The log's checkpoint, if it is the one that its state says.
fn same_root(
    alloc: Global,
    name: &str,
    log: &TileLog<Sha256, Vec<u8>>,
    checkpoint: &Checkpoint<Sha256>,
) -> Result<Checkpoint<Sha256>, LogError>
    requires { HasEntries log.now }
    ensures entries { IfOk result IsOfEntries }
    ensures said { IfOk result (λ found. found ≡ checkpoint.now) }
    ensures same { IfOk result (λ found. (ds : List (List ℕ)) → StandsFor sha256 log.now ds
        → (found.length ≡ length ds) × (found.root ≡ root_of sha256 ds)) }
    ensures whole { (ds : List (List ℕ)) → StandsFor sha256 log.now ds → checkpoint.now.length ≡ length ds
        → checkpoint.now.root ≡ root_of sha256 ds → IfErr result (IsNoFault ⊥) }
    ensures other { IfErr result IsNoFailure }
{
    let found = log.checkpoint();
    if found == *checkpoint {
        return Ok(found);
    }
    let fault = "has another root than the log's entries";
    Err(LogError::damaged(alloc, name, fault))
}

// The log of so many entries, as the bundles have them. Each tile is used as soon as it is made.
fn replayed<F: Folder, P: Progress>(
    alloc: Global,
    folder: &mut F,
    log_length: usize,
    use_as: Use,
    progress: &mut P,
) -> Result<TileLog<Sha256, Vec<u8>>, LogError>
    requires fits { log_length ≤ GREATEST_LENGTH }
    requires ready { F.IsFaithful → IsReadyFor use_as (F.seen folder.old) (F.may_leave folder.old) }
    ensures has { IfOk result HasEntries }
    ensures files { F.IsFaithful → IfOk result (HasUsedAll use_as (F.seen folder.old) (F.seen folder.new)) }
    ensures own { F.IsFaithful → IfOk result (λ log. (kept : LogOf) → IsEnough use_as kept (F.seen folder.old)
        → length kept.entries ≡ log_length → StandsFor sha256 log (leaves_of sha256 kept.entries)) }
    ensures whole { F.IsFaithful → (kept : LogOf) → IsEnough use_as kept (F.seen folder.old)
        → length kept.entries ≡ log_length → IfErr result (IsNoFault ⊥) }
    ensures used { F.IsFaithful → IsUsed use_as F.seen F.may_leave F.moment F.left_since folder.old folder.new }
    ensures cause { HasLogCause F.IsFaithful (F.faults folder.old) (F.faults folder.new) result }
{
    let mut log = TileLog::new(alloc);
    'bundles: for number in 0..log_length.div_ceil(256) {
        replay_bundle(
            alloc, folder, &mut log, log_length, number, use_as, progress,
        )?;
    }
    use_tiles(alloc, folder, use_as, log.partial(alloc)?.as_slice())?;
    Ok(log)
}

// Adds the entries of a bundle of the log of so many entries, and uses the tiles that they fill.
fn replay_bundle<F: Folder, P: Progress>(
    alloc: Global,
    folder: &mut F,
    log: &mut TileLog<Sha256, Vec<u8>>,
    log_length: usize,
    number: usize,
    use_as: Use,
    progress: &mut P,
) -> Result<(), LogError>
    requires inside { 256 * number < log_length }
    requires fits { log_length ≤ GREATEST_LENGTH }
    requires has { HasEntries log.old }
    requires ready { F.IsFaithful → IsReadyFor use_as (F.seen folder.old) (F.may_leave folder.old) }
    ensures has { OnOk result (HasEntries log.new) }
    ensures files { F.IsFaithful → OnOk result ((first : Files)
        → HasUsed use_as first (F.seen folder.old) (256 * number) log.old
        → HasUsed use_as first (F.seen folder.new) (min (256 * number + 256) log_length) log.new) }
    ensures own { F.IsFaithful → OnOk result ((kept : LogOf) → IsEnough use_as kept (F.seen folder.old)
        → length kept.entries ≡ log_length
        → StandsFor sha256 log.old (leaves_of sha256 (take (256 * number) kept.entries))
        → StandsFor sha256 log.new (leaves_of sha256 (take (256 * number + 256) kept.entries))) }
    ensures whole { F.IsFaithful → (kept : LogOf) → IsEnough use_as kept (F.seen folder.old)
        → length kept.entries ≡ log_length
        → StandsFor sha256 log.old (leaves_of sha256 (take (256 * number) kept.entries))
        → IfErr result (IsNoFault ⊥) }
    ensures used { F.IsFaithful → IsUsed use_as F.seen F.may_leave F.moment F.left_since folder.old folder.new }
    ensures cause { HasLogCause F.IsFaithful (F.faults folder.old) (F.faults folder.new) result }
{
    let entries = read_entries(alloc, folder, number, log_length)?;
    push_all(log, entries.as_slice(), progress)?;
    use_bundle(alloc, folder, use_as, number, entries.as_slice())?;
    use_tiles(alloc, folder, use_as, log.take_full().as_slice())
}

// Adds entries to a log.
fn push_all<P: Progress>(
    log: &mut TileLog<Sha256, Vec<u8>>,
    entries: &[Vec<u8>],
    progress: &mut P,
) -> Result<(), LogError>
    ensures pushed { OnOk result ((es : List (List ℕ)) → StandsFor sha256 log.old (leaves_of sha256 es)
        → StandsFor sha256 log.new (leaves_of sha256 (es ++ map (λ e. e.items) entries.now))) }
    ensures taken { log.new.taken ≡ log.old.taken }
    ensures memory { IfErr result (IsNoFault ⊥) }
    ensures other { IfErr result IsNoFailure }
{
    'entries: for entry in entries {
        push_one(log, entry)?;
        progress.step();
    }
    Ok(())
}

// Adds an entry to a log.
fn push_one(log: &mut TileLog<Sha256, Vec<u8>>, entry: &Vec<u8>) -> Result<(), FolderError>
    ensures pushed { OnOk result ((es : List (List ℕ)) → StandsFor sha256 log.old (leaves_of sha256 es)
        → StandsFor sha256 log.new (leaves_of sha256 (es ++ entry.now.items ∷ []))) }
    ensures taken { log.new.taken ≡ log.old.taken }
    ensures memory { IfErr result (λ error. error ≡ FolderError.Memory) }
{
    if log.length() >= GREATEST_LENGTH {
        return Err(FolderError::Memory);
    }
    log.push(entry)?;
    Ok(())
}

// Compares the older partial bundles at the place of one, where tiles are compared.
#[tactic(auto, using(warg_folder::proofs::ForCallers::read_is))]
fn use_bundle<F: Folder>(
    alloc: Global,
    folder: &mut F,
    use_as: Use,
    number: usize,
    entries: &[Vec<u8>],
) -> Result<(), LogError>
    ensures older { F.IsFaithful → use_as ≡ Use.Compare → OnOk result
        (HasNarrowerBundles (F.seen folder.old) number (map (λ e. e.items) entries.now)) }
    ensures whole { F.IsFaithful → (kept : LogOf) → IsEnough use_as kept (F.seen folder.old)
        → map (λ e. e.items) entries.now ≡ bundle_in kept number → IfErr result (IsNoFault ⊥) }
    ensures read { F.IsFaithful → IsRead F.seen F.may_leave F.moment F.left_since folder.old folder.new }
    ensures cause { HasLogCause F.IsFaithful (F.faults folder.old) (F.faults folder.new) result }
{
    match use_as {
        Use::Stage => Ok(()),
        Use::Compare => compare_older(alloc, folder, &Newer::Bundle(number, entries)),
    }
}

// Compares tiles with their files, or stages them.
fn use_tiles<F: Folder>(
    alloc: Global,
    folder: &mut F,
    use_as: Use,
    tiles: &[StoredTile<Sha256>],
) -> Result<(), LogError>
    requires { F.IsFaithful → IsReadyFor use_as (F.seen folder.old) (F.may_leave folder.old) }
    ensures tiles { F.IsFaithful → OnOk result
        (AreUsed use_as (map (λ t. (t.tile, t.digests.items)) tiles.now) (F.seen folder.old) (F.seen folder.new)) }
    ensures whole { F.IsFaithful → (kept : LogOf) → IsEnough use_as kept (F.seen folder.old)
        → AllByRecursion (IsOwnTile kept) (map (λ t. (t.tile, t.digests.items)) tiles.now)
        → IfErr result (IsNoFault ⊥) }
    ensures used { F.IsFaithful → IsUsed use_as F.seen F.may_leave F.moment F.left_since folder.old folder.new }
    ensures cause { HasLogCause F.IsFaithful (F.faults folder.old) (F.faults folder.new) result }
{
    match use_as {
        Use::Stage => Ok(stage_tiles(alloc, folder, 0, tiles)?),
        Use::Compare => compare_tiles(alloc, folder, tiles),
    }
}

fn compare_tiles<F: Folder>(
    alloc: Global,
    folder: &mut F,
    tiles: &[StoredTile<Sha256>],
) -> Result<(), LogError>
    ensures files { F.IsFaithful → OnOk result
        (HasTiles (F.seen folder.old) (map (λ t. (t.tile, t.digests.items)) tiles.now)) }
    ensures older { F.IsFaithful → OnOk result (AllByRecursion (HasNarrower (F.seen folder.old))
        (map (λ t. (t.tile, t.digests.items)) tiles.now)) }
    ensures whole { F.IsFaithful → (log : LogOf) → IsWhole log (F.seen folder.old)
        → AllByRecursion (IsOwnTile log) (map (λ t. (t.tile, t.digests.items)) tiles.now)
        → IfErr result (IsNoFault ⊥) }
    ensures read { F.IsFaithful → IsRead F.seen F.may_leave F.moment F.left_since folder.old folder.new }
    ensures cause { HasLogCause F.IsFaithful (F.faults folder.old) (F.faults folder.new) result }
{
    'tiles: for tile in tiles {
        compare_tile(alloc, folder, tile)?;
    }
    Ok(())
}

// Refuses a tile's file that hasn't its digests, and an older partial one that isn't a beginning of it.
#[tactic(auto, using(warg_folder::proofs::ForCallers::read_is))]
fn compare_tile<F: Folder>(
    alloc: Global,
    folder: &mut F,
    stored: &StoredTile<Sha256>,
) -> Result<(), LogError>
    ensures file { F.IsFaithful → OnOk result (F.seen folder.old (tile_path stored.now.tile)
        ≡ Some (flat_map (λ digest. digest) stored.now.digests.items)) }
    ensures older { F.IsFaithful → OnOk result
        (HasNarrower (F.seen folder.old) (stored.now.tile, stored.now.digests.items)) }
    ensures whole { F.IsFaithful → (log : LogOf) → IsWhole log (F.seen folder.old)
        → IsOwnTile log (stored.now.tile, stored.now.digests.items) → IfErr result (IsNoFault ⊥) }
    ensures read { F.IsFaithful → IsRead F.seen F.may_leave F.moment F.left_since folder.old folder.new }
    ensures cause { HasLogCause F.IsFaithful (F.faults folder.old) (F.faults folder.new) result }
{
    let found = read_tile(alloc, folder, stored.tile)?;
    if found.digests.as_slice() == stored.digests.as_slice() {
        return compare_older(alloc, folder, &Newer::Tile(stored));
    }
    let path = stored.tile.path(alloc)?;
    let fault = "isn't the tile over the entries of their bundles, so one of these files differs";
    Err(LogError::damaged(alloc, path.as_str(), fault))
}
