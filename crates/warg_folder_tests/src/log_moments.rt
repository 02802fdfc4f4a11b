//! Every moment of small runs of a log in a folder, and everything that a crash may leave there; and random runs.

use crate::crashes::{choices, crashed};
use crate::log_folder::{
    Steps, checkpoint_of, count, new_log, opened, reader_of, two_commits, with_more,
};
use std::process::Abort;
use warg_crypto::Sha256;
use warg_log::Checkpoint;
use warg_store::{Call, Folder, MemoryFolder, recover};

// Two logs, by their checkpoints.
type Logs = [Checkpoint<Sha256>; 2];

// The logs of so many entries.
fn logs_of(rt: &(impl AllocGlobal + Abort), old: usize, new: usize) -> Logs {
    [checkpoint_of(rt, old), checkpoint_of(rt, new)]
}

// Asserts that a reader finds one of two logs in a folder, whole.
fn assert_served<F: Folder + Drop>(rt: &(impl AllocGlobal + Abort), folder: F, logs: &Logs) -> F {
    let mut reader = reader_of(rt, folder);
    let found = reader.audit(&mut Steps(0)).expect(rt, "an audit");
    assert!(rt; logs.contains(&found));
    reader.into_folder()
}

// Asserts that who opens a folder finds one of two logs there, whole, and leaves no staged file.
fn assert_kept<F: Folder + Drop>(rt: &(impl AllocGlobal + Abort), folder: F, logs: &Logs) -> F {
    let mut log = opened(rt, folder);
    let found = log.audit(&mut Steps(0)).expect(rt, "an audit");
    assert!(rt; logs.contains(&found));
    let mut folder = log.into_folder();
    assert!(rt; count(rt, &mut folder, ".log/staged/") == 0);
    folder
}

// Asserts both.
fn assert_one_of(rt: &(impl AllocGlobal + Abort), left: MemoryFolder, logs: &Logs) -> MemoryFolder {
    assert_kept(rt, assert_served(rt, left, logs), logs)
}

#[test]
fn each_crash_leaves_one_log_or_the_next(rt: HostRuntime) {
    let (folder, first) = two_commits(&rt, 2, 4);
    let logs = logs_of(&rt, 2, 4);
    for moment in first..folder.calls().len() + 1 {
        let calls = &folder.calls()[..moment];
        for choice in 0..choices(calls) {
            let _ = assert_one_of(&rt, crashed(&rt, calls, choice), &logs);
        }
    }
}

// Asserts the same of what a crash may leave at each moment of an opening, after a crash at the end of these calls.
fn assert_each_opening(rt: &(impl AllocGlobal + Abort), calls: &[Call], logs: &Logs) {
    let mut left = crashed(rt, calls, 0);
    let before = left.calls().len();
    recover(rt.alloc(), &mut left).expect(rt, "a recovery");
    for later in before..left.calls().len() + 1 {
        let _ = assert_one_of(rt, crashed(rt, &left.calls()[..later], 1), logs);
    }
}

#[test]
fn each_crash_of_an_opening_leaves_one_log_or_the_next(rt: HostRuntime) {
    let (folder, first) = two_commits(&rt, 1, 2);
    let logs = logs_of(&rt, 1, 2);
    for moment in first..folder.calls().len() + 1 {
        assert_each_opening(&rt, &folder.calls()[..moment], &logs);
    }
}

// So many random runs are tried.
const RUNS: u32 = 400;

// Numbers that look random, the same ones in each run.
#[derive(Drop)]
struct Random {
    state: u64,
}

impl Random {
    // A number below a bound.
    fn below(&mut self, bound: usize) -> usize {
        self.state = self
            .state
            .wrapping_mul(6364136223846793005)
            .wrapping_add(1442695040888963407);
        (self.state >> 33) as usize % bound.max(1)
    }
}

// A file's bytes.
fn bytes_of<F: Folder>(
    rt: &(impl AllocGlobal + Abort),
    folder: &mut F,
    name: &str,
) -> Option<Vec<u8>> {
    folder.read(rt.alloc(), name, 1 << 20).expect(rt, "a file")
}

// Asserts that a folder's file is the one that a mirror has fetched before, if it has. Else the mirror fetches it.
fn mirror_file<F: Folder>(
    rt: &(impl AllocGlobal + Abort),
    folder: &mut F,
    mirror: &mut F,
    name: &str,
) {
    let bytes = bytes_of(rt, folder, name).expect(rt, "a file that is listed");
    match bytes_of(rt, mirror, name) {
        Some(fetched) => assert!(rt; fetched == bytes),
        None => mirror
            .replace(name, bytes.as_slice())
            .expect(rt, "a change"),
    }
}

// Asserts the same of each tile and bundle of a folder.
fn mirror_tiles(
    rt: &(impl AllocGlobal + Abort),
    folder: &mut MemoryFolder,
    mirror: &mut MemoryFolder,
) {
    let names = folder.list(rt.alloc(), "tile/").expect(rt, "names");
    for name in names.as_slice() {
        mirror_file(rt, folder, mirror, name.as_str());
    }
}

// The number of calls at a moment after the first ones.
fn moment(random: &mut Random, before: usize, calls: usize) -> usize {
    let later = calls.saturating_sub(before).saturating_add(1);
    before.saturating_add(random.below(later)).min(calls)
}

// What a crash after these calls may leave. A mirror fetches the tiles that stand after them, and then those that it left.
fn left_after(
    rt: &(impl AllocGlobal + Abort),
    random: &mut Random,
    calls: &[Call],
    mirror: &mut MemoryFolder,
) -> MemoryFolder {
    mirror_tiles(rt, &mut crashed(rt, calls, 0), mirror);
    let mut left = crashed(rt, calls, random.below(choices(calls)));
    mirror_tiles(rt, &mut left, mirror);
    left
}

// Adds up to three entries to a folder's log, and leaves what a crash at some moment may.
fn crashed_batch(
    rt: &(impl AllocGlobal + Abort),
    random: &mut Random,
    folder: MemoryFolder,
    mirror: &mut MemoryFolder,
) -> MemoryFolder {
    let reader = reader_of(rt, folder);
    let length = reader.checkpoint().length();
    let folder = reader.into_folder();
    let next = length.saturating_add(random.below(4));
    let before = folder.calls().len();
    let folder = with_more(rt, folder, length, next);
    let count = moment(random, before, folder.calls().len());
    let calls = folder.calls().get(..count).unwrap_or(folder.calls());
    let left = left_after(rt, random, calls, mirror);
    assert_one_of(rt, left, &logs_of(rt, length, next))
}

#[test]
fn random_runs_go_on_after_each_crash(rt: HostRuntime) {
    let mut random = Random { state: 1 };
    for _ in 0..RUNS {
        let mut folder = new_log(&rt, MemoryFolder::new(rt.alloc())).into_folder();
        let mut mirror = MemoryFolder::new(rt.alloc());
        for _ in 0..3 {
            folder = crashed_batch(&rt, &mut random, folder, &mut mirror);
        }
    }
}
