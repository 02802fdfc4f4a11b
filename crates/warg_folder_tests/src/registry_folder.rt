//! A registry in a folder: what is published is got, beside a map in memory, and at each moment of a run.

use crate::crashes::crashed;
use crate::log_damage::names;
use crate::log_folder::{Steps, new_log};
use std::process::Abort;
use warg_crypto::{Hash, Sha256};
use warg_map::Map;
use warg_registry::{KeyInRegistry, RegistryError, RegistryFolder, RegistryReader};
use warg_store::{Call, Folder, LogReader, MemoryFolder};

// A key, and a value that is inserted under it.
pub(crate) type Insertion = (&'static [u8], &'static [u8]);

pub(crate) static FIRST: [Insertion; 3] = [(b"a", b"one"), (b"b", b"two"), (b"a", b"three")];

pub(crate) static NEXT: [Insertion; 2] = [(b"c", b""), (b"b", b"five")];

static LAST: [Insertion; 1] = [(b"d", b"six")];

// The folder, which was empty, with a registry of the first insertions.
pub(crate) fn with_first<F: Folder + Drop>(rt: &(impl AllocGlobal + Abort), folder: F) -> F {
    let registry = RegistryFolder::create(rt.alloc(), folder, b"example.com/registry");
    let mut registry = registry.expect(rt, "a new registry");
    registry.publish(&FIRST).expect(rt, "insertions");
    registry.into_folder()
}

// A folder's registry after more insertions.
fn published<F: Folder + Drop>(
    rt: &(impl AllocGlobal + Abort),
    folder: F,
    insertions: &[Insertion],
) -> RegistryFolder<F> {
    let mut registry = RegistryFolder::open(rt.alloc(), folder).expect(rt, "a registry");
    registry.publish(insertions).expect(rt, "insertions");
    registry
}

// A registry of the first insertions and the next, without the page of the first version, and how many calls on its
// folder the first one took.
fn pruned(rt: &(impl AllocGlobal + Abort)) -> (MemoryFolder, usize) {
    let folder = with_first(rt, MemoryFolder::new(rt.alloc()));
    let calls = folder.calls().len();
    let mut registry = published(rt, folder, &NEXT);
    assert!(rt; registry.prune() == Ok(1));
    (registry.into_folder(), calls)
}

// The registry that a folder serves, of which nothing is said.
pub(crate) fn reader_of<F: Folder + Drop>(
    rt: &(impl AllocGlobal + Abort),
    folder: F,
) -> RegistryReader<F> {
    RegistryReader::open(rt.alloc(), folder).expect(rt, "a registry")
}

// Whether a value is held under a key, by an insertion at an index.
pub(crate) fn holds<F: Folder + Drop>(
    reader: &mut RegistryReader<F>,
    key: &[u8],
    at: usize,
    bytes: &[u8],
) -> bool {
    match reader.get(key) {
        Ok(KeyInRegistry::Held(index, value, _)) => index == at && value.as_slice() == bytes,
        _ => false,
    }
}

// The root of the map of the first insertions, and of these behind them.
pub(crate) fn root_with(rt: &(impl AllocGlobal + Abort), more: &[Insertion]) -> Hash<Sha256> {
    let map = Map::<Sha256, &[u8], &[u8]>::default(rt.alloc());
    let map = map.extend(FIRST.iter().chain(more.iter()).copied());
    map.expect(rt, "a map").root().copied()
}

// The keys that are held, each with the index of its last insertion and its value.
static HELD: [(&[u8], usize, &[u8]); 3] = [(b"a", 2, b"three"), (b"b", 4, b"five"), (b"c", 3, b"")];

#[test]
fn what_is_published_is_got(rt: HostRuntime) {
    let (folder, _) = pruned(&rt);
    let mut reader = reader_of(&rt, folder);
    for (key, index, value) in &HELD {
        assert!(rt; holds(&mut reader, key, *index, value));
    }
    assert!(rt; matches!(reader.get(b"d"), Ok(KeyInRegistry::Absent(_))));
    let checkpoint = reader.checkpoint();
    assert!(rt; checkpoint.length() == 5 && *reader.root() == root_with(&rt, &NEXT));
    assert!(rt; reader.audit(&mut Steps(0)) == Ok(checkpoint));
}

#[test]
fn a_log_is_no_registry(rt: HostRuntime) {
    let folder = new_log(&rt, MemoryFolder::new(rt.alloc())).into_folder();
    let opened = RegistryFolder::open(rt.alloc(), folder);
    assert!(rt; matches!(opened, Err(RegistryError::NoMap)));
    let folder = new_log(&rt, MemoryFolder::new(rt.alloc())).into_folder();
    let read = RegistryReader::open(rt.alloc(), folder);
    assert!(rt; matches!(read, Err(RegistryError::NoMap)));
}

// Whether a folder serves the first registry or the next one.
fn serves_one<F: Folder + Drop>(rt: &(impl AllocGlobal + Abort), folder: F) -> bool {
    let mut reader = reader_of(rt, folder);
    match reader.checkpoint().length() {
        3 => holds(&mut reader, b"b", 1, b"two"),
        5 => holds(&mut reader, b"b", 4, b"five"),
        _ => false,
    }
}

// Whether a folder's registry goes on with the last key.
fn goes_on<F: Folder + Drop>(rt: &(impl AllocGlobal + Abort), folder: F) -> bool {
    let folder = published(rt, folder, &LAST).into_folder();
    let mut reader = reader_of(rt, folder);
    let is_held = matches!(reader.get(b"d"), Ok(KeyInRegistry::Held(..)));
    is_held && holds(&mut reader, b"a", 2, b"three")
}

// Of the changes that no sync has forced: all done, the first one lost or torn, and all of the first four lost or torn.
const LEFT: [usize; 5] = [0, 1, 2, 40, 80];

// Asserts that what a crash after these calls may leave serves one registry or the other, and goes on.
fn assert_one(rt: &(impl AllocGlobal + Abort), calls: &[Call]) {
    for choice in LEFT {
        assert!(rt; serves_one(rt, crashed(rt, calls, choice)));
    }
    for choice in [0, 40] {
        assert!(rt; goes_on(rt, crashed(rt, calls, choice)));
    }
}

#[test]
fn each_moment_serves_one_registry_or_the_next(rt: HostRuntime) {
    let (folder, first) = pruned(&rt);
    for moment in first..folder.calls().len() + 1 {
        assert_one(&rt, &folder.calls()[..moment]);
    }
}

#[test]
fn an_audit_names_a_page_that_was_changed(rt: HostRuntime) {
    let (mut folder, _) = pruned(&rt);
    folder.replace("map/5", b"no page").expect(&rt, "a change");
    let damage = reader_of(&rt, folder).audit(&mut Steps(0)).err();
    assert!(rt; names(&damage.expect(&rt, "a damage"), "map/5"));
}

// The registry's log has the second insertion as its entry, with a path of three digests.
#[test]
fn a_registry_is_a_log(rt: HostRuntime) {
    let (folder, _) = pruned(&rt);
    let mut log = LogReader::open(rt.alloc(), folder).expect(&rt, "a log");
    let entry = log.entry(1).expect(&rt, "an entry");
    assert!(rt; entry.as_slice() == b"\0\0\0\0\0\0\0\x01b\0\0\0\0\0\0\0\x03two".as_slice());
    let path = log.inclusion_path(1, 5).expect(&rt, "a path");
    assert!(rt; path.as_slice().len() == 3);
}
