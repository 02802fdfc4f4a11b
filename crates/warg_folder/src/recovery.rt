//! A folder after a crash, an error or a restart.

ghost use Rattle.std.specs.Prelude.{◌≡◌, ◌⊎◌, ◌+◌, ◌<◌, ℕ, List, length, take, option_map, Some, None, Err, IfOk, OnOk};
ghost use Rattle.warg_folder.specs.Moments.{Only, LeavesOnly, HasCause, HasCauseOf};
ghost use Rattle.warg_folder.specs.Names.{mark};
ghost use Rattle.warg_folder.specs.Commits.{opened, IsStaging, NothingStaged, IsBetween};

use crate::committing::{MOST_TEXT, finish};
use crate::device::{Folder, FolderError};
use crate::names::MARK;
use crate::staging::remove_staged;
use std::alloc::Global;
use thiserror::Error;

/// Why a folder isn't opened.
#[derive(Debug, PartialEq, Eq, Drop, Error)]
pub enum RecoverError {
    /// A call on the folder was refused.
    #[error("{0}")]
    Folder(FolderError),
    /// The text of the commit that stands is longer than any.
    #[error("text is too long")]
    TooLong,
}

impl From<FolderError> for RecoverError {
    ghost use Rattle.warg_folder.specs.declared.recovery.RecoverError.TheVariants.{Folder};

    ghost from_gives = { λ cause error. error ≡ Folder cause };

    fn from(cause: FolderError) -> Self {
        RecoverError::Folder(cause)
    }
}

/// Finishes the commit that stands, or drops what is staged where none does. It may crash too: it is then called again.
/// `TooLong` only if the text of the commit that stands is longer than any.
pub fn recover<F: Folder>(alloc: Global, folder: &mut F) -> Result<(), RecoverError>
    ensures opened { F.IsFaithful → OnOk result (F.seen folder.new ≡ opened (F.seen folder.old)) }
    ensures durable { F.IsFaithful → OnOk result (Only (F.seen folder.new) (F.may_leave folder.new)) }
    ensures ready { F.IsFaithful → OnOk result (IsStaging (F.seen folder.new) (F.may_leave folder.new)) }
    ensures empty { F.IsFaithful → OnOk result (NothingStaged (F.seen folder.new)) }

    // A crash, or a reader, at any moment finds what it might have found before, or what the folder stands for.
    ensures any_moment { F.IsFaithful → LeavesOnly F.moment F.left_since folder.old folder.new
        (λ c. F.may_leave folder.old c ⊎ IsBetween (F.seen folder.old) (opened (F.seen folder.old)) c) }

    ensures too_long { F.IsFaithful → result ≡ Err RecoverError.TooLong → (text : List ℕ)
        × (F.seen folder.old mark ≡ Some text) × (MOST_TEXT < length text) }
    ensures cause { HasCauseOf (RecoverError.Folder FolderError.Failed) F.IsFaithful
        (F.faults folder.old) (F.faults folder.new) result }
{
    match settled_mark(alloc, folder)? {
        Some(text) => finish_read(alloc, folder, text.as_slice()),
        None => drop_staged(alloc, folder),
    }
}

// Drops what is staged, where no commit stands.
fn drop_staged<F: Folder>(alloc: Global, folder: &mut F) -> Result<(), RecoverError>
    requires durable { F.IsFaithful → Only (F.seen folder.old) (F.may_leave folder.old) }
    requires idle { F.IsFaithful → F.seen folder.old mark ≡ None }
    ensures opened { F.IsFaithful → OnOk result (F.seen folder.new ≡ opened (F.seen folder.old)) }
    ensures durable { F.IsFaithful → OnOk result (Only (F.seen folder.new) (F.may_leave folder.new)) }
    ensures any_moment { F.IsFaithful → LeavesOnly F.moment F.left_since folder.old folder.new
        (IsBetween (F.seen folder.old) (opened (F.seen folder.old))) }
    ensures not_long { result ≡ Err RecoverError.TooLong → ⊥ }
    ensures cause { HasCauseOf (RecoverError.Folder FolderError.Failed) F.IsFaithful
        (F.faults folder.old) (F.faults folder.new) result }
{
    remove_staged(alloc, folder)?;
    Ok(())
}

// The text of the commit that stands, if one does, once a crash leaves what is seen.
fn settled_mark<F: Folder>(alloc: Global, folder: &mut F) -> Result<Option<Vec<u8>>, FolderError>
    ensures found { F.IsFaithful → IfOk result (λ found. option_map (λ v. v.items) found
        ≡ option_map (take (MOST_TEXT + 1)) (F.seen folder.old mark)) }
    ensures seen { F.IsFaithful → F.seen folder.new ≡ F.seen folder.old }
    ensures durable { F.IsFaithful → OnOk result (Only (F.seen folder.new) (F.may_leave folder.new)) }
    ensures any_moment { F.IsFaithful → LeavesOnly F.moment F.left_since folder.old folder.new (F.may_leave folder.old) }
    ensures cause { HasCause F.IsFaithful (F.faults folder.old) (F.faults folder.new) result }
{
    folder.sync()?;
    folder.read(alloc, MARK, MOST_TEXT)
}

// Finishes the commit whose text was read, if it was read whole.
fn finish_read<F: Folder>(alloc: Global, folder: &mut F, text: &[u8]) -> Result<(), RecoverError>
    requires durable { F.IsFaithful → Only (F.seen folder.old) (F.may_leave folder.old) }
    requires read { F.IsFaithful → Some text.now ≡ option_map (take (MOST_TEXT + 1)) (F.seen folder.old mark) }
    ensures opened { F.IsFaithful → OnOk result (F.seen folder.new ≡ opened (F.seen folder.old)) }
    ensures durable { F.IsFaithful → OnOk result (Only (F.seen folder.new) (F.may_leave folder.new)) }
    ensures any_moment { F.IsFaithful → LeavesOnly F.moment F.left_since folder.old folder.new
        (IsBetween (F.seen folder.old) (opened (F.seen folder.old))) }
    ensures too_long { F.IsFaithful → result ≡ Err RecoverError.TooLong → (text : List ℕ)
        × (F.seen folder.old mark ≡ Some text) × (MOST_TEXT < length text) }
    ensures cause { HasCauseOf (RecoverError.Folder FolderError.Failed) F.IsFaithful
        (F.faults folder.old) (F.faults folder.new) result }
{
    if text.len() > MOST_TEXT {
        return Err(RecoverError::TooLong);
    }
    Ok(finish(alloc, folder, text)?)
}
