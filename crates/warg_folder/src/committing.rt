//! A commit of staged files.

ghost use Rattle.std.specs.Prelude.{◌≡◌, ◌≤◌, ℕ, List, length, Some, None, true, map, OnOk, Contains, IfOk, string_bytes};
ghost use Rattle.warg_folder.specs.Files.{Files};
ghost use Rattle.warg_folder.specs.Moments.{Only, Within, Elapses, LeavesOnly, HasCause};
ghost use Rattle.warg_folder.specs.Names.{checkpoint, mark, staged, is_served};
ghost use Rattle.warg_folder.specs.Commits.{begins_line, has_empty_line, is_signed, told, opened, committed, IsStaging, NothingStaged, IsBetween};
ghost use Rattle.warg_folder.specs.Private.Steps.{IsMoving, IsPut};

use crate::device::{Folder, FolderError};
use crate::names::{CHECKPOINT, MARK, STAGED, STATE, served_name};
use crate::staging::remove_staged;
use std::alloc::Global;

/// The greatest length of a checkpoint's text.
pub const MOST_TEXT: usize = 1 << 20;

/// Puts what is staged at its names, and the text as the log's state and its checkpoint: all of it or nothing, whatever
/// happens at whatever moment. After an error, open the folder again.
pub fn commit<F: Folder>(alloc: Global, folder: &mut F, text: &[u8]) -> Result<(), FolderError>
    requires staging { F.IsFaithful → IsStaging (F.seen folder.old) (F.may_leave folder.old) }
    requires short { length text.now ≤ MOST_TEXT }

    // A crash, or a reader, at any moment finds the old files or the next ones.
    ensures any_moment { F.IsFaithful → LeavesOnly F.moment F.left_since folder.old folder.new
        (IsBetween (F.seen folder.old) (committed text.now (F.seen folder.old))) }

    // After `Ok` each crash leaves the next ones, and nothing else.
    ensures committed { F.IsFaithful → OnOk result
        (F.seen folder.new ≡ committed text.now (F.seen folder.old)) }
    ensures durable { F.IsFaithful → OnOk result (Only (F.seen folder.new) (F.may_leave folder.new)) }
    ensures ready { F.IsFaithful → OnOk result (IsStaging (F.seen folder.new) (F.may_leave folder.new)) }
    ensures empty { F.IsFaithful → OnOk result (NothingStaged (F.seen folder.new)) }

    ensures cause { HasCause F.IsFaithful (F.faults folder.old) (F.faults folder.new) result }
{
    folder.sync()?;
    folder.replace(MARK, text)?;
    finish(alloc, folder, text)
}

// Finishes the commit that stands.
pub(crate) fn finish<F: Folder>(
    alloc: Global,
    folder: &mut F,
    text: &[u8],
) -> Result<(), FolderError>
    requires durable { F.IsFaithful → Only (F.seen folder.old) (F.may_leave folder.old) }
    requires stands { F.IsFaithful → F.seen folder.old mark ≡ Some text.now }
    ensures any_moment { F.IsFaithful → LeavesOnly F.moment F.left_since folder.old folder.new
        (IsBetween (F.seen folder.old) (opened (F.seen folder.old))) }
    ensures opened { F.IsFaithful → OnOk result (F.seen folder.new ≡ opened (F.seen folder.old)) }
    ensures durable { F.IsFaithful → OnOk result (Only (F.seen folder.new) (F.may_leave folder.new)) }
    ensures cause { HasCause F.IsFaithful (F.faults folder.old) (F.faults folder.new) result }
{
    move_staged(alloc, folder)?;
    put_text(alloc, folder, text)?;
    remove_staged(alloc, folder)
}

// Moves each staged file to its name.
fn move_staged<F: Folder>(alloc: Global, folder: &mut F) -> Result<(), FolderError>
    requires { F.IsFaithful → Only (F.seen folder.old) (F.may_leave folder.old) }
    ensures moving { F.IsFaithful → IsMoving (F.seen folder.old) (F.seen folder.new) }
    ensures moved { F.IsFaithful → OnOk result ((n : List ℕ) → is_served n ≡ true
        → F.seen folder.new (staged n) ≡ None) }
    ensures any_moment { F.IsFaithful → LeavesOnly F.moment F.left_since folder.old folder.new
        (IsMoving (F.seen folder.old)) }
    ensures durable { F.IsFaithful → OnOk result (Only (F.seen folder.new) (F.may_leave folder.new)) }
    ensures cause { HasCause F.IsFaithful (F.faults folder.old) (F.faults folder.new) result }
{
    let names = folder.list(alloc, STAGED)?;
    move_all(folder, names.as_slice())?;
    folder.sync()
}

// Moves files with these staged names to those at which commits put them.
fn move_all<F: Folder>(folder: &mut F, names: &[String]) -> Result<(), FolderError>
    requires { F.IsFaithful → Only (F.seen folder.old) (F.may_leave folder.old) }
    ensures moved { F.IsFaithful → OnOk result ((n : List ℕ) → is_served n ≡ true
        → Contains (map (λ name. string_bytes name) names.now) (staged n)
        → F.seen folder.new (staged n) ≡ None) }
    ensures crash { F.IsFaithful → (c : Files) → F.may_leave folder.new c → IsMoving (F.seen folder.old) c }
    ensures any_moment { F.IsFaithful → LeavesOnly F.moment F.left_since folder.old folder.new
        (IsMoving (F.seen folder.old)) }
    ensures cause { HasCause F.IsFaithful (F.faults folder.old) (F.faults folder.new) result }
{
    'names: for name in names {
        move_one(folder, name.as_str())?;
    }
    Ok(())
}

// Moves a file with this staged name to that at which a commit puts it, if it is a commit's.
fn move_one<F: Folder>(folder: &mut F, from: &str) -> Result<(), FolderError>
    ensures moved { F.IsFaithful → OnOk result ((n : List ℕ) → is_served n ≡ true
        → (from.now ≡ staged n → F.seen folder.new (staged n) ≡ None)
        × (F.seen folder.old (staged n) ≡ None → F.seen folder.new (staged n) ≡ None)) }
    ensures crash { F.IsFaithful → (s c : Files) → ((d : Files) → F.may_leave folder.old d → IsMoving s d)
        → F.may_leave folder.new c → IsMoving s c }
    ensures any_moment { F.IsFaithful → (s : Files) → ((d : Files) → F.may_leave folder.old d → IsMoving s d)
        → LeavesOnly F.moment F.left_since folder.old folder.new (IsMoving s) }
    ensures cause { HasCause F.IsFaithful (F.faults folder.old) (F.faults folder.new) result }
{
    match served_name(from) {
        Some(to) => folder.rename(from, to),
        None => Ok(()),
    }
}

// Puts the text as the log's state and, unless a signed one is there, as its checkpoint.
fn put_text<F: Folder>(alloc: Global, folder: &mut F, text: &[u8]) -> Result<(), FolderError>
    requires { F.IsFaithful → Only (F.seen folder.old) (F.may_leave folder.old) }
    ensures put { F.IsFaithful → OnOk result (F.seen folder.new ≡ told text.now (F.seen folder.old)) }
    ensures durable { F.IsFaithful → OnOk result (Only (F.seen folder.new) (F.may_leave folder.new)) }
    ensures any_moment { F.IsFaithful → LeavesOnly F.moment F.left_since folder.old folder.new
        (IsPut text.now (F.seen folder.old)) }
    ensures cause { HasCause F.IsFaithful (F.faults folder.old) (F.faults folder.new) result }
{
    let is_signed = is_signed(alloc, folder)?;
    folder.replace(STATE, text)?;
    if is_signed {
        return Ok(());
    }
    folder.replace(CHECKPOINT, text)
}

/// Whether the checkpoint that the folder serves is signed: an empty line stands in it, or it is longer than any text.
pub fn is_signed<F: Folder>(alloc: Global, folder: &mut F) -> Result<bool, FolderError>
    ensures signed { F.IsFaithful → IfOk result
        (λ found. found ≡ is_signed (F.seen folder.old checkpoint)) }
    ensures seen { F.IsFaithful → F.seen folder.new ≡ F.seen folder.old }
    ensures crash { F.IsFaithful → Within (F.may_leave folder.old) (F.may_leave folder.new) }
    ensures time { F.IsFaithful → Elapses F.moment F.left_since F.may_leave folder.old folder.new }
    ensures cause { HasCause F.IsFaithful (F.faults folder.old) (F.faults folder.new) result }
{
    match folder.read(alloc, CHECKPOINT, MOST_TEXT)? {
        Some(bytes) => Ok(has_signatures(bytes.as_slice())),
        None => Ok(false),
    }
}

// Whether a checkpoint of these bytes is signed.
#[tactic(auto, unfolding(crate::specs::Commits::is_signed))]
fn has_signatures(bytes: &[u8]) -> bool
    ensures { result ≡ is_signed (Some bytes.now) }
{
    bytes.len() > MOST_TEXT || has_empty_line(bytes)
}

// Whether an empty line stands in the bytes.
#[tactic(auto, unfolding(crate::specs::Commits::has_empty_line))]
fn has_empty_line(bytes: &[u8]) -> bool
    ensures { result ≡ has_empty_line bytes.now }
{
    let mut rest = bytes;
    'bytes: while let [first, behind @ ..] = rest {
        if *first == b'\n' && begins_line(behind) {
            return true;
        }
        rest = behind;
    }
    false
}

// Whether the bytes begin with a newline.
fn begins_line(bytes: &[u8]) -> bool
    ensures { result ≡ begins_line bytes.now }
{
    match bytes {
        [first, ..] => *first == b'\n',
        [] => false,
    }
}
