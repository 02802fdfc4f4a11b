//! A registry in a folder that refuses insertions, and has after it what it had, beside a map in memory.

use crate::log_damage::names;
use crate::registry_folder::{NEXT, holds, reader_of, root_with, with_first};
use std::process::Abort;
use warg_registry::{KeyInRegistry, PublishError, RegistryFolder, RegistryReader};
use warg_store::{Folder, LogError, MemoryFolder};

// A folder of the first insertions.
fn first(rt: &(impl AllocGlobal + Abort)) -> MemoryFolder {
    with_first(rt, MemoryFolder::new(rt.alloc()))
}

// Asserts that a value is too long for a folder's registry, and that all is as it was, and goes on.
fn assert_too_long<F: Folder + Drop>(rt: &(impl AllocGlobal + Abort), folder: F, value: &[u8]) {
    let mut registry = RegistryFolder::open(rt.alloc(), folder).expect(rt, "a registry");
    let refused = registry.publish(&[(b"c", b""), (b"b", value)]);
    assert!(rt; matches!(refused, Err(PublishError::TooLong)));
    assert!(rt; *registry.root() == root_with(rt, &[]));
    registry.publish(&NEXT).expect(rt, "insertions");
    assert!(rt; *registry.root() == root_with(rt, &NEXT));
}

#[test]
fn a_long_value_is_refused(rt: HostRuntime) {
    let long = vec![in rt.alloc(); 0u8; 65_519].expect(&rt, "memory");
    assert_too_long(&rt, first(&rt), long.as_slice());
}

// Whether insertions are refused by the first page's name, and all is as it was.
fn is_refused<F: Folder + Drop>(rt: &(impl AllocGlobal + Abort), folder: F) -> bool {
    let mut registry = RegistryFolder::open(rt.alloc(), folder).expect(rt, "a registry");
    match registry.publish(&NEXT) {
        Err(PublishError::Log(error)) => {
            names(&error, "map/3") && *registry.root() == root_with(rt, &[])
        }
        _ => false,
    }
}

#[test]
fn a_page_that_is_missing_or_corrupt_is_named(rt: HostRuntime) {
    let mut folder = first(&rt);
    folder.remove("map/3").expect(&rt, "a change");
    assert!(rt; is_refused(&rt, folder));
    for bytes in [b"".as_slice(), b"no page".as_slice()] {
        let mut folder = first(&rt);
        folder.replace("map/3", bytes).expect(&rt, "a change");
        assert!(rt; is_refused(&rt, folder));
    }
}

#[test]
fn the_first_insertions_are_served(rt: HostRuntime) {
    let mut reader = reader_of(&rt, first(&rt));
    assert!(rt; holds(&mut reader, b"a", 2, b"three"));
    assert!(rt; reader.checkpoint().length() == 3 && *reader.root() == root_with(&rt, &[]));
}

// Whether a reader names the page of a key that is missing.
fn is_missing<F: Folder + Drop>(reader: &mut RegistryReader<F>, key: &[u8]) -> bool {
    match reader.get(key) {
        Err(LogError::Damaged(damage)) => {
            damage.name.as_str() == "map/3" && damage.fault == "is missing"
        }
        _ => false,
    }
}

#[test]
fn a_reader_names_a_page_that_is_missing(rt: HostRuntime) {
    let mut folder = first(&rt);
    folder.remove("map/3").expect(&rt, "a change");
    assert!(rt; is_missing(&mut reader_of(&rt, folder), b"a"));
}

// Without the log's tile, `get` still finds a key, and `get_logged` is refused.
#[test]
fn a_key_is_got_without_tiles(rt: HostRuntime) {
    let mut folder = first(&rt);
    folder.remove("tile/0/000.p/3").expect(&rt, "a change");
    let mut reader = reader_of(&rt, folder);
    assert!(rt; matches!(reader.get(b"b"), Ok(KeyInRegistry::Held(..))));
    assert!(rt; matches!(reader.get_logged(b"b"), Err(LogError::Damaged(_))));
}

#[test]
fn keys_are_got_with_tiles(rt: HostRuntime) {
    let mut reader = reader_of(&rt, first(&rt));
    assert!(rt; matches!(reader.get_logged(b"b"), Ok(KeyInRegistry::Held(..))));
    assert!(rt; matches!(reader.get_logged(b"d"), Ok(KeyInRegistry::Absent(_))));
}
