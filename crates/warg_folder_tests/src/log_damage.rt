//! Folders in memory that are damaged, or of an older form: each is refused by name, made again, or taken over.

use crate::log_folder::{
    Steps, checkpoint_of, is_file, keeps, opened, two_commits, with_log, with_more,
};
use std::process::Abort;
use warg_store::{Folder, LogError, LogFolder, MemoryFolder, rebuild};

// Whether an error names this file.
pub(crate) fn names(error: &LogError, name: &str) -> bool {
    match error {
        LogError::Damaged(damage) => damage.name.as_str() == name,
        _ => false,
    }
}

// Whether an audit of a folder's log names this file.
pub(crate) fn audit_names<F: Folder + Drop>(
    rt: &(impl AllocGlobal + Abort),
    folder: F,
    name: &str,
) -> bool {
    match opened(rt, folder).audit(&mut Steps(0)) {
        Err(error) => names(&error, name),
        Ok(_) => false,
    }
}

// Whether a folder isn't opened, and the error names this file.
fn is_damaged<F: Folder + Drop>(rt: &impl AllocGlobal, folder: F, name: &str) -> bool {
    match LogFolder::open(rt.alloc(), folder) {
        Ok(_) => false,
        Err(error) => names(&error, name),
    }
}

static FILES: [&str; 5] = [
    "tile/0/001.p/3",
    "tile/entries/001.p/3",
    "tile/1/000.p/1",
    ".log/state",
    "checkpoint",
];

#[test]
fn a_damaged_file_is_named(rt: HostRuntime) {
    for name in &FILES {
        let (mut folder, _) = two_commits(&rt, 3, 259);
        folder.replace(name, b"not it").expect(&rt, "a change");
        assert!(rt; is_damaged(&rt, folder, name));
    }
}

// Whether a folder's tiles are made again, with a step for each of so many entries.
fn is_rebuilt<F: Folder>(rt: &(impl AllocGlobal + Abort), folder: &mut F, count: usize) -> bool {
    let mut read = Steps(0);
    let checkpoint = rebuild(rt.alloc(), folder, &mut read).expect(rt, "tiles");
    read.0 == count && checkpoint == checkpoint_of(rt, count)
}

// One tile is removed, and another one spoilt.
#[test]
fn tiles_are_made_again_from_bundles(rt: HostRuntime) {
    let (mut folder, _) = two_commits(&rt, 3, 259);
    folder.remove("tile/0/000").expect(&rt, "a change");
    folder
        .replace("tile/1/000.p/1", b"not it")
        .expect(&rt, "a change");
    assert!(rt; is_rebuilt(&rt, &mut folder, 259));
    assert!(rt; keeps(&rt, folder, 259));
}

#[test]
fn a_folder_without_a_state_is_taken_over(rt: HostRuntime) {
    let (mut folder, _) = two_commits(&rt, 3, 5);
    folder.remove(".log/state").expect(&rt, "a change");
    let folder = with_more(&rt, folder, 5, 6);
    assert!(rt; opened(&rt, folder).checkpoint() == checkpoint_of(&rt, 6));
}

// The folder, whose log has two entries, after a commit of two more, with the older checkpoint.
pub(crate) fn rolled_back(rt: &(impl AllocGlobal + Abort)) -> MemoryFolder {
    let mut folder = with_log(rt, MemoryFolder::new(rt.alloc()), 2);
    let older = folder
        .read(rt.alloc(), "checkpoint", 999)
        .expect(rt, "a file")
        .expect(rt, "a text");
    let mut folder = with_more(rt, folder, 2, 4);
    folder
        .replace("checkpoint", older.as_slice())
        .expect(rt, "a change");
    folder
}

// A folder isn't opened if its checkpoint is of two entries and its state of four.
#[test]
fn an_older_checkpoint_is_known(rt: HostRuntime) {
    let found = LogFolder::open(rt.alloc(), rolled_back(&rt));
    assert!(rt;
        matches!(
            found,
            Err(LogError::RolledBack {
                found: 2,
                newest: 4
            })
        )
    );
}

// A file is read no further than one byte above the most.
#[test]
fn a_read_gives_no_more_than_it_is_told(rt: HostRuntime) {
    let mut folder = MemoryFolder::new(rt.alloc());
    folder.write("a", b"abc").expect(&rt, "a change");
    folder.rename("a", "b").expect(&rt, "a change");
    folder.rename("c", "b").expect(&rt, "a change");
    assert!(rt; folder.read(rt.alloc(), "a", 9) == Ok(None));
    assert!(rt; is_file(&rt, &mut folder, "b", 1, b"ab"));
}
