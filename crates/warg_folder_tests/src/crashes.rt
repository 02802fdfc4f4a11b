//! What a crash leaves of the calls on a folder in memory.

use std::process::Abort;
use warg_store::{Call, Folder, FolderError, MemoryFolder};

// How many calls come after the last sync.
fn unforced(calls: &[Call]) -> usize {
    calls
        .iter()
        .rev()
        .take_while(|call| !matches!(call, Call::Synced))
        .count()
}

// How many choices a crash after these calls has, of those for the first four changes that weren't forced.
pub(crate) fn choices(calls: &[Call]) -> usize {
    let mut choices = 1usize;
    for _ in 0..unforced(calls).min(4) {
        choices = choices.saturating_mul(3);
    }
    choices
}

// What a crash after these calls leaves, where the choice says of each change that wasn't forced whether it is done, lost
// or torn: its digits to the base 3, the first change's first.
pub(crate) fn crashed(
    rt: &(impl AllocGlobal + Abort),
    calls: &[Call],
    choice: usize,
) -> MemoryFolder {
    let mut folder = MemoryFolder::new(rt.alloc());
    let mut rest = choice;
    let forced = calls.len().saturating_sub(unforced(calls));
    for (index, call) in calls.iter().enumerate() {
        if index < forced {
            leave(&mut folder, call, 0).expect(rt, "a change");
        } else {
            leave(&mut folder, call, rest % 3).expect(rt, "a change");
            rest /= 3;
        }
    }
    folder.sync().expect(rt, "a sync");
    folder
}

// Does to a folder what a crash leaves of a call: all of it, nothing, or a part.
fn leave(folder: &mut MemoryFolder, call: &Call, outcome: usize) -> Result<(), FolderError> {
    match call {
        Call::Written(name, bytes) => match outcome {
            0 => folder.replace(name.as_str(), bytes.as_slice()),
            1 => Ok(()),
            _ => folder.replace(name.as_str(), &bytes.as_slice()[..bytes.len() / 2]),
        },
        Call::Renamed(from, to) if outcome == 0 => folder.rename(from.as_str(), to.as_str()),
        Call::Removed(name) if outcome == 0 => folder.remove(name.as_str()),
        Call::Replaced(name, bytes) => folder.replace(name.as_str(), bytes.as_slice()),
        _ => Ok(()),
    }
}
