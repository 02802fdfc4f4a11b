//! A log in a folder in memory: what was pushed is read, beside a log of the same entries in memory.

ghost use Rattle.warg_store.specs.Growing.{IsReady};

use std::process::Abort;
use warg_crypto::Sha256;
use warg_log::{Checkpoint, LogBuilder, VecLog};
use warg_store::{
    CreateError, Folder, LogError, LogFolder, LogReader, MemoryFolder, Progress, PushError,
};

pub(crate) const ORIGIN: &[u8; 15] = b"example.com/log";

// How many entries were read.
#[derive(Drop)]
pub(crate) struct Steps(pub(crate) usize);

impl Progress for Steps {
    fn step(&mut self) {
        self.0 = self.0.saturating_add(1);
    }
}

// A log of no entries.
pub(crate) fn new_log<F: Folder + Drop>(rt: &(impl AllocGlobal + Abort), folder: F) -> LogFolder<F>
    ensures { F.IsFaithful → IsReady F.seen F.may_leave result }
{
    LogFolder::create(rt.alloc(), folder, ORIGIN).expect(rt, "a new log")
}

// A folder's log, of which nothing is said.
pub(crate) fn opened<F: Folder + Drop>(rt: &(impl AllocGlobal + Abort), folder: F) -> LogFolder<F> {
    LogFolder::open(rt.alloc(), folder).expect(rt, "a log")
}

// The log that a folder serves, of which nothing is said.
pub(crate) fn reader_of<F: Folder + Drop>(
    rt: &(impl AllocGlobal + Abort),
    folder: F,
) -> LogReader<F> {
    LogReader::open(rt.alloc(), folder).expect(rt, "a log")
}

// Pushes entries of two bytes, those from one number up to another.
pub(crate) fn push_some<F: Folder + Drop>(
    rt: &impl Abort,
    log: &mut LogFolder<F>,
    from: usize,
    to: usize,
)
    requires { F.IsFaithful → IsReady F.seen F.may_leave log.old }
    ensures { F.IsFaithful → IsReady F.seen F.may_leave log.new }
{
    for number in from..to {
        log.push(&entry_of(number)).expect(rt, "a push");
    }
}

// The entry of a number.
fn entry_of(number: usize) -> [u8; 2] {
    [(number / 256 % 256) as u8, (number % 256) as u8]
}

// Pushes such entries, and commits them.
pub(crate) fn commit_some<F: Folder + Drop>(
    rt: &impl Abort,
    log: &mut LogFolder<F>,
    from: usize,
    to: usize,
)
    requires { F.IsFaithful → IsReady F.seen F.may_leave log.old }
{
    push_some(rt, log, from, to);
    log.commit().expect(rt, "a commit");
}

// The folder, which was empty, with a log of so many entries.
pub(crate) fn with_log<F: Folder + Drop>(
    rt: &(impl AllocGlobal + Abort),
    folder: F,
    count: usize,
) -> F {
    let mut log = new_log(rt, folder);
    commit_some(rt, &mut log, 0, count);
    log.into_folder()
}

// The folder, whose log has a first number of entries, with a log of so many.
pub(crate) fn with_more<F: Folder + Drop>(
    rt: &(impl AllocGlobal + Abort),
    folder: F,
    first: usize,
    next: usize,
) -> F {
    let mut log = LogFolder::open(rt.alloc(), folder).expect(rt, "a log");
    commit_some(rt, &mut log, first, next);
    log.into_folder()
}

// The checkpoint of the first entries.
pub(crate) fn checkpoint_of(rt: &(impl AllocGlobal + Abort), count: usize) -> Checkpoint<Sha256> {
    let mut log: VecLog<Sha256, [u8; 2]> = VecLog::default(rt.alloc());
    for number in 0..count {
        log.append(&entry_of(number)).expect(rt, "memory");
    }
    log.checkpoint()
}

// A folder whose log had a commit of some entries, the number of calls up to its end, and then another one.
pub(crate) fn two_commits(
    rt: &(impl AllocGlobal + Abort),
    first: usize,
    next: usize,
) -> (MemoryFolder, usize) {
    let folder = with_log(rt, MemoryFolder::new(rt.alloc()), first);
    let calls = folder.calls().len();
    (with_more(rt, folder, first, next), calls)
}

// Whether a log's entries are read in order, and lead to its checkpoint.
pub(crate) fn passes_audit<F: Folder + Drop>(rt: &impl Abort, log: &mut LogFolder<F>) -> bool {
    let found = log.audit(&mut Steps(0)).expect(rt, "an audit");
    found == log.checkpoint()
}

// Whether a folder keeps the log of so many entries.
pub(crate) fn keeps<F: Folder + Drop>(
    rt: &(impl AllocGlobal + Abort),
    folder: F,
    count: usize,
) -> bool {
    let mut log = opened(rt, folder);
    passes_audit(rt, &mut log) && log.checkpoint() == checkpoint_of(rt, count)
}

// Whether a file is there whose bytes, as many as are read, are these.
pub(crate) fn is_file<F: Folder>(
    rt: &impl AllocGlobal,
    folder: &mut F,
    name: &str,
    most: usize,
    bytes: &[u8],
) -> bool {
    match folder.read(rt.alloc(), name, most) {
        Ok(Some(found)) => found.as_slice() == bytes,
        _ => false,
    }
}

// Whether a log of 259 entries has this origin, this length, its last entry and none after it.
fn has_last_entry<F: Folder + Drop>(rt: &impl Abort, log: &mut LogFolder<F>) -> bool {
    let last = log.entry(258).expect(rt, "an entry");
    let is_log = log.length() == 259 && log.origin() == ORIGIN.as_slice();
    is_log
        && last.as_slice() == [1, 2].as_slice()
        && log.entry(259) == Err(LogError::OutOfRange { bound: 259 })
}

// Whether its paths have as many digests as they should.
fn has_paths<F: Folder + Drop>(rt: &impl Abort, log: &mut LogFolder<F>) -> bool {
    let inclusion = log.inclusion_path(258, 259).expect(rt, "a path").len();
    let consistency = log.consistency_path(3, 259).expect(rt, "a path").len();
    inclusion == 2 && consistency == 10
}

// Whether two files are spare, without which the log passes an audit.
fn prunes_two<F: Folder + Drop>(rt: &impl Abort, log: &mut LogFolder<F>) -> bool {
    log.prune() == Ok(2) && passes_audit(rt, log)
}

// Whether all of it is read, and it is pruned.
fn is_whole<F: Folder + Drop>(rt: &impl Abort, log: &mut LogFolder<F>) -> bool {
    passes_audit(rt, log) && has_last_entry(rt, log) && has_paths(rt, log) && prunes_two(rt, log)
}

#[test]
fn a_commit_fills_tiles_and_keeps_those_before(rt: HostRuntime) {
    let (folder, _) = two_commits(&rt, 3, 259);
    let mut log = opened(&rt, folder);
    assert!(rt; log.checkpoint() == checkpoint_of(&rt, 259));
    assert!(rt; is_whole(&rt, &mut log));
}

// Whether these are the entries that were pushed, from a number on.
fn are_pushed(from: usize, entries: &[Vec<u8>]) -> bool {
    for (index, entry) in entries.iter().enumerate() {
        if entry.as_slice() != entry_of(from.saturating_add(index)).as_slice() {
            return false;
        }
    }
    true
}

// Whether a bundle has so many entries, those that were pushed.
fn has_bundle<F: Folder + Drop>(
    rt: &impl Abort,
    reader: &mut LogReader<F>,
    bundle: usize,
    count: usize,
) -> bool {
    let entries = reader.entries(bundle).expect(rt, "a bundle");
    entries.len() == count && are_pushed(bundle.saturating_mul(256), entries.as_slice())
}

// There are two bundles, of 256 entries and of one, and no third one.
#[test]
fn bundles_have_the_entries_that_were_pushed(rt: HostRuntime) {
    let mut reader = reader_of(&rt, with_log(&rt, MemoryFolder::new(rt.alloc()), 257));
    assert!(rt; has_bundle(&rt, &mut reader, 0, 256));
    assert!(rt; has_bundle(&rt, &mut reader, 1, 1));
    assert!(rt; reader.entries(2) == Err(LogError::OutOfRange { bound: 2 }));
}

// The folder, which was empty, with a log of entries, no commit, and one that was too long.
fn uncommitted<F: Folder + Drop>(rt: &(impl AllocGlobal + Abort), folder: F) -> F {
    let mut log = new_log(rt, folder);
    push_some(rt, &mut log, 0, 257);
    assert!(rt; matches!(log.push(&[7; 65536]), Err(PushError::TooLong)));
    log.into_folder()
}

// The folder after a commit of its log, which has no entries.
fn with_nothing<F: Folder + Drop>(rt: &(impl AllocGlobal + Abort), folder: F) -> F {
    let mut log = LogFolder::open(rt.alloc(), folder).expect(rt, "a log");
    assert!(rt; log.length() == 0);
    log.commit().expect(rt, "a commit");
    log.into_folder()
}

// How many files a folder has whose names begin so.
pub(crate) fn count<F: Folder>(
    rt: &(impl AllocGlobal + Abort),
    folder: &mut F,
    front: &str,
) -> usize {
    folder.list(rt.alloc(), front).expect(rt, "names").len()
}

#[test]
fn what_is_not_committed_is_dropped(rt: HostRuntime) {
    let mut folder = uncommitted(&rt, MemoryFolder::new(rt.alloc()));
    assert!(rt; count(&rt, &mut folder, ".log/staged/") == 2);
    let mut folder = with_nothing(&rt, folder);
    assert!(rt; count(&rt, &mut folder, ".log/staged/") == 0);
}

#[test]
fn a_folder_that_has_a_log_takes_no_other(rt: HostRuntime) {
    let folder = new_log(&rt, MemoryFolder::new(rt.alloc())).into_folder();
    let other = LogFolder::create(rt.alloc(), folder, b"other");
    assert!(rt; matches!(other, Err(CreateError::Exists)));
    let nameless = LogFolder::create(rt.alloc(), MemoryFolder::new(rt.alloc()), b"");
    assert!(rt; matches!(nameless, Err(CreateError::Origin)));
    let none = LogFolder::open(rt.alloc(), MemoryFolder::new(rt.alloc()));
    assert!(rt; matches!(none, Err(LogError::NoLog)));
}
