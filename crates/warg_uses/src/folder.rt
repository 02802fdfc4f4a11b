//! Files that are put into a folder all at once.

ghost use Rattle.std.specs.Prelude.{◌≡◌, ◌≤◌, Some, OnOk, codes, length};
ghost use Rattle.warg_folder.specs.Moments.{Only};

use std::alloc::Global;
use warg_folder::{Folder, MOST_TEXT, RecoverError, commit, recover, stage};

/// Serves a notice and a checkpoint's text out of a folder, both at once, whatever happened to the folder before. After `Ok`
/// no crash takes them back.
pub fn noticed<F: Folder>(
    alloc: Global,
    folder: &mut F,
    notice: &[u8],
    text: &[u8],
) -> Result<(), RecoverError>
    requires { length text.now ≤ MOST_TEXT }
    ensures served { F.IsFaithful → OnOk result (F.seen folder.new (codes "map/notice") ≡ Some notice.now) }
    ensures durable { F.IsFaithful → OnOk result (Only (F.seen folder.new) (F.may_leave folder.new)) }
{
    recover(alloc, folder)?;
    stage(alloc, folder, "map/notice", notice)?;
    Ok(commit(alloc, folder, text)?)
}
