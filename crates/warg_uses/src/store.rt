//! A log that is kept in a folder, and read out of it.

ghost use Rattle.std.specs.Prelude.{◌≡◌, ◌⊎◌, Some, IfOk, slice_get};
ghost use Rattle.warg_store.specs.Growing.{HasNext, with_entry};
ghost use Rattle.warg_store.specs.Log.{LogOf, HasLog, Serves, IsOneOf};
ghost use Rattle.warg_folder.specs.Commits.{opened};

use anyhow::Result;
use std::alloc::Global;
use warg_store::{Folder, LogError, LogFolder, LogReader};

/// Opens a folder's log, adds a release and commits: the log that the folder stood for, with one more entry.
pub fn released<F: Folder + Drop>(alloc: Global, folder: F, release: &[u8]) -> Result<LogFolder<F>>
    ensures { F.IsFaithful → IfOk result (λ log. (served kept : LogOf)
        → HasLog served kept (opened (F.seen folder))
        → HasNext F.seen F.may_leave served (with_entry kept release.now) log) }
{
    let mut log = LogFolder::open(alloc, folder)?;
    log.push(release)?;
    log.commit()?;
    Ok(log)
}

/// The release at an index, out of a folder that serves a log, as a mirror or a client has it: at a moment of a commit, that
/// of the log that was served or of the next one.
pub fn served_release<F: Folder + Drop>(
    alloc: Global,
    folder: F,
    index: usize,
) -> Result<Vec<u8>, LogError>
    ensures served { F.IsFaithful → IfOk result (λ release. (log : LogOf) → Serves log (F.seen folder)
        → slice_get log.entries index ≡ Some release.items) }
    ensures meanwhile { F.IsFaithful → IfOk result (λ release. (served old next : LogOf)
        → IsOneOf served old next (F.seen folder) → (slice_get served.entries index ≡ Some release.items)
        ⊎ (slice_get next.entries index ≡ Some release.items)) }
{
    let mut reader = LogReader::open(alloc, folder)?;
    reader.entry(index)
}
