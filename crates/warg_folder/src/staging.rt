//! Files of a commit before it stands.

ghost use Rattle.std.specs.Prelude.{◌≡◌, ◌⊎◌, ℕ, List, None, true, OnOk, All, string_bytes};
ghost use Rattle.warg_folder.specs.Files.{Files, put};
ghost use Rattle.warg_folder.specs.Moments.{Only, LeavesOnly, HasCause};
ghost use Rattle.warg_folder.specs.Names.{staged, is_staged, is_served};
ghost use Rattle.warg_folder.specs.Commits.{without_staged, NothingStaged, IsBeside, IsStaging};
ghost use Rattle.warg_folder.specs.Private.Steps.{IsRemoving};

use crate::device::{Folder, FolderError};
use crate::names::{STAGED, staged_name};
use std::alloc::Global;

/// Stages a file for the next commit, under a name at which commits put files. Nothing that is served is touched. A file
/// that was staged under the name is replaced.
pub fn stage<F: Folder>(
    alloc: Global,
    folder: &mut F,
    name: &str,
    bytes: &[u8],
) -> Result<(), FolderError>
    requires served { is_served name.now ≡ true }
    requires staging { F.IsFaithful → IsStaging (F.seen folder.old) (F.may_leave folder.old) }
    ensures staged { F.IsFaithful → OnOk result
        (F.seen folder.new ≡ put (staged name.now, bytes.now) (F.seen folder.old)) }
    ensures staging { F.IsFaithful → IsStaging (F.seen folder.new) (F.may_leave folder.new) }
    ensures any_moment { F.IsFaithful → LeavesOnly F.moment F.left_since folder.old folder.new
        (IsBeside (F.seen folder.old)) }
    ensures cause { HasCause F.IsFaithful (F.faults folder.old) (F.faults folder.new) result }
{
    let staged = staged_name(alloc, name)?;
    folder.write(staged.as_str(), bytes)
}

/// Drops what is staged. Nothing that is served is touched.
pub fn discard<F: Folder>(alloc: Global, folder: &mut F) -> Result<(), FolderError>
    requires { F.IsFaithful → IsStaging (F.seen folder.old) (F.may_leave folder.old) }
    ensures dropped { F.IsFaithful → OnOk result (F.seen folder.new ≡ without_staged (F.seen folder.old)) }
    ensures durable { F.IsFaithful → OnOk result (Only (F.seen folder.new) (F.may_leave folder.new)) }
    ensures ready { F.IsFaithful → OnOk result (IsStaging (F.seen folder.new) (F.may_leave folder.new)) }
    ensures empty { F.IsFaithful → OnOk result (NothingStaged (F.seen folder.new)) }
    ensures any_moment { F.IsFaithful → LeavesOnly F.moment F.left_since folder.old folder.new
        (IsBeside (F.seen folder.old)) }
    ensures cause { HasCause F.IsFaithful (F.faults folder.old) (F.faults folder.new) result }
{
    remove_staged(alloc, folder)
}

// Removes each staged file, where no commit stands or one is done.
pub(crate) fn remove_staged<F: Folder>(alloc: Global, folder: &mut F) -> Result<(), FolderError>
    requires { F.IsFaithful → (c : Files) → F.may_leave folder.old c → IsRemoving (F.seen folder.old) c }
    ensures removed { F.IsFaithful → OnOk result (F.seen folder.new ≡ without_staged (F.seen folder.old)) }
    ensures durable { F.IsFaithful → OnOk result (Only (F.seen folder.new) (F.may_leave folder.new)) }
    ensures any_moment { F.IsFaithful → LeavesOnly F.moment F.left_since folder.old folder.new
        (IsRemoving (F.seen folder.old)) }
    ensures cause { HasCause F.IsFaithful (F.faults folder.old) (F.faults folder.new) result }
{
    let names = folder.list(alloc, STAGED)?;
    remove_all(folder, names.as_slice())?;
    folder.sync()
}

// Removes staged files.
fn remove_all<F: Folder>(folder: &mut F, names: &[String]) -> Result<(), FolderError>
    requires staged { F.IsFaithful → All (λ name. is_staged (string_bytes name) ≡ true) names.now }
    requires removing { F.IsFaithful → (c : Files) → F.may_leave folder.old c → IsRemoving (F.seen folder.old) c }
    ensures removed { F.IsFaithful → OnOk result
        (All (λ name. F.seen folder.new (string_bytes name) ≡ None) names.now) }
    ensures fewer { F.IsFaithful → OnOk result ((n : List ℕ)
        → (F.seen folder.new n ≡ F.seen folder.old n) ⊎ (F.seen folder.new n ≡ None)) }
    ensures crash { F.IsFaithful → (c : Files) → F.may_leave folder.new c → IsRemoving (F.seen folder.old) c }
    ensures any_moment { F.IsFaithful → LeavesOnly F.moment F.left_since folder.old folder.new
        (IsRemoving (F.seen folder.old)) }
    ensures cause { HasCause F.IsFaithful (F.faults folder.old) (F.faults folder.new) result }
{
    'names: for name in names {
        folder.remove(name.as_str())?;
    }
    Ok(())
}
