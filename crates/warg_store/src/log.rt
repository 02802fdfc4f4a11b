//! A log's files: tiles, entry bundles and the checkpoint's text, staged and committed.

ghost use Rattle.std.specs.Prelude.{◌≡◌, ◌≤◌, [], ◌∷◌, length, map, IfOk, OnOk};
ghost use Rattle.std.specs.List.{flat_map};
ghost use Rattle.warg_tiles.specs.TilePaths.{tile_path, entries_path};
ghost use Rattle.warg_folder.specs.Files.{put};
ghost use Rattle.warg_folder.specs.Moments.{Only, LeavesOnly, HasCause};
ghost use Rattle.warg_folder.specs.Names.{staged};
ghost use Rattle.warg_folder.specs.Commits.{IsBeside, IsStaging, NothingStaged};
ghost use Rattle.warg_store.specs.Log.{LogOf, CanBeKept, checkpoint_of, Extends, Keeps, KeepsNext, IsCommitting, AreStagedFor};
ghost use Rattle.warg_store.specs.Staged.{staged_all, new_files};

use std::alloc::{AllocError, Global};
use warg_crypto::{Hash, Sha256};
use warg_folder::{Folder, FolderError, MOST_TEXT, commit, stage};
use warg_log::GREATEST_LENGTH;
use warg_tiles::{StoredTile, Tile};

// Commits a log's new tiles and bundles, which are staged, and its checkpoint's text.
pub(crate) fn commit_log<F: Folder>(
    alloc: Global,
    folder: &mut F,
    text: &[u8],
) -> Result<(), FolderError>
    requires staging { F.IsFaithful → IsStaging (F.seen folder.old) (F.may_leave folder.old) }
    requires short { length text.now ≤ MOST_TEXT }
    ensures any_moment { F.IsFaithful → (served old next : LogOf) → Keeps served old (F.seen folder.old)
        → Extends old next → AreStagedFor served old next (F.seen folder.old) → text.now ≡ checkpoint_of next → CanBeKept next
        → LeavesOnly F.moment F.left_since folder.old folder.new
        (IsCommitting served old next (F.seen folder.old)) }
    ensures next { F.IsFaithful → OnOk result ((served old next : LogOf) → Keeps served old (F.seen folder.old)
        → Extends old next → AreStagedFor served old next (F.seen folder.old) → text.now ≡ checkpoint_of next → CanBeKept next
        → KeepsNext served next (F.seen folder.new)) }
    ensures durable { F.IsFaithful → OnOk result (Only (F.seen folder.new) (F.may_leave folder.new)) }
    ensures ready { F.IsFaithful → OnOk result (IsStaging (F.seen folder.new) (F.may_leave folder.new)) }
    ensures empty { F.IsFaithful → OnOk result (NothingStaged (F.seen folder.new)) }
    ensures cause { HasCause F.IsFaithful (F.faults folder.old) (F.faults folder.new) result }
{
    commit(alloc, folder, text)
}

// Stages those of a log's tiles that it hadn't at an older length.
pub(crate) fn stage_tiles<F: Folder>(
    alloc: Global,
    folder: &mut F,
    older: usize,
    tiles: &[StoredTile<Sha256>],
) -> Result<(), FolderError>
    requires fits { older ≤ GREATEST_LENGTH }
    requires staging { F.IsFaithful → IsStaging (F.seen folder.old) (F.may_leave folder.old) }
    ensures staged { F.IsFaithful → OnOk result (F.seen folder.new ≡ staged_all
        (new_files older (map (λ t. (t.tile, t.digests.items)) tiles.now)) (F.seen folder.old)) }
    ensures staging { F.IsFaithful → IsStaging (F.seen folder.new) (F.may_leave folder.new) }
    ensures any_moment { F.IsFaithful → LeavesOnly F.moment F.left_since folder.old folder.new
        (IsBeside (F.seen folder.old)) }
    ensures cause { HasCause F.IsFaithful (F.faults folder.old) (F.faults folder.new) result }
{
    'tiles: for stored in tiles {
        stage_new(alloc, folder, older, stored)?;
    }
    Ok(())
}

// Stages a tile, if the log hadn't it at an older length.
fn stage_new<F: Folder>(
    alloc: Global,
    folder: &mut F,
    older: usize,
    stored: &StoredTile<Sha256>,
) -> Result<(), FolderError>
    requires fits { older ≤ GREATEST_LENGTH }
    requires staging { F.IsFaithful → IsStaging (F.seen folder.old) (F.may_leave folder.old) }
    ensures staged { F.IsFaithful → OnOk result (F.seen folder.new ≡ staged_all
        (new_files older ((stored.now.tile, stored.now.digests.items) ∷ [])) (F.seen folder.old)) }
    ensures staging { F.IsFaithful → IsStaging (F.seen folder.new) (F.may_leave folder.new) }
    ensures any_moment { F.IsFaithful → LeavesOnly F.moment F.left_since folder.old folder.new
        (IsBeside (F.seen folder.old)) }
    ensures cause { HasCause F.IsFaithful (F.faults folder.old) (F.faults folder.new) result }
{
    if stored.tile.exists_at_length(older) {
        return Ok(());
    }
    stage_tile(alloc, folder, stored)
}

// Stages a tile for the next commit: its digests, one after the other, at the tile's path.
fn stage_tile<F: Folder>(
    alloc: Global,
    folder: &mut F,
    stored: &StoredTile<Sha256>,
) -> Result<(), FolderError>
    requires { F.IsFaithful → IsStaging (F.seen folder.old) (F.may_leave folder.old) }
    ensures staged { F.IsFaithful → OnOk result (F.seen folder.new ≡ put (
      staged (tile_path stored.now.tile),
      flat_map (λ digest. digest) stored.now.digests.items,
    ) (F.seen folder.old)) }
    ensures staging { F.IsFaithful → IsStaging (F.seen folder.new) (F.may_leave folder.new) }
    ensures any_moment { F.IsFaithful → LeavesOnly F.moment F.left_since folder.old folder.new
        (IsBeside (F.seen folder.old)) }
    ensures cause { HasCause F.IsFaithful (F.faults folder.old) (F.faults folder.new) result }
{
    let path = stored.tile.path(alloc)?;
    let bytes = joined(alloc, stored.digests.as_slice())?;
    stage(alloc, folder, path.as_str(), bytes.as_slice())
}

// Stages the bytes of the bundle of the entries below a tile of level 0 for the next commit, at the bundle's path.
pub(crate) fn stage_bundle<F: Folder>(
    alloc: Global,
    folder: &mut F,
    tile: &Tile,
    bytes: &[u8],
) -> Result<(), FolderError>
    requires level { tile.now.level ≡ 0 }
    requires staging { F.IsFaithful → IsStaging (F.seen folder.old) (F.may_leave folder.old) }
    ensures staged { F.IsFaithful → OnOk result (F.seen folder.new
        ≡ put (staged (entries_path tile.now), bytes.now) (F.seen folder.old)) }
    ensures staging { F.IsFaithful → IsStaging (F.seen folder.new) (F.may_leave folder.new) }
    ensures any_moment { F.IsFaithful → LeavesOnly F.moment F.left_since folder.old folder.new
        (IsBeside (F.seen folder.old)) }
    ensures cause { HasCause F.IsFaithful (F.faults folder.old) (F.faults folder.new) result }
{
    let path = tile.entries_path(alloc)?;
    stage(alloc, folder, path.as_str(), bytes)
}

// Digests, one after the other.
fn joined(alloc: Global, digests: &[Hash<Sha256>]) -> Result<Vec<u8>, AllocError>
    ensures { IfOk result (λ bytes. bytes.items ≡ flat_map (λ digest. digest) digests.now) }
{
    let mut bytes = Vec::new(alloc);
    'digests: for digest in digests {
        bytes.extend_from_slice(digest.bytes())?;
    }
    Ok(bytes)
}
