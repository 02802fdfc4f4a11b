//! Convictions under a digest that is the same for all bytes: every verdict is true, and every lie a collision.

use std::process::Abort;
use warg_bundle::{growth_bytes, key_bytes};
use warg_claims::{
    convict_absent, convict_entry_path, convict_growth, convict_growth_path, convict_insertion,
    convict_key, convict_update,
};
use warg_crypto::weak::Flat;
use warg_log::{Checkpoint, LogBuilder, VecLog};
use warg_map::Map;
use warg_witness::Finding;

// The bytes of a path of one digest.
const PATH: [u8; 32] = [0; 32];

type Text = &'static str;

static ENTRIES: [Text; 2] = ["one", "two"];

// A log of two entries.
fn two(rt: &(impl AllocGlobal + Abort)) -> VecLog<Flat, Text> {
    let mut log = VecLog::default(rt.alloc());
    log.append(&"one").expect(rt, "memory");
    log.append(&"two").expect(rt, "memory");
    log
}

fn is_collision(found: &Finding<Flat>) -> bool {
    matches!(found, Finding::Collision(_))
}

// What a path to the first of these entries shows of a value.
fn found_by_path(rt: &(impl AllocGlobal + Abort), value: Text, entries: &[Text]) -> Finding<Flat> {
    let checkpoint = two(rt).checkpoint();
    let found = convict_entry_path(rt.alloc(), &PATH, 0, &value, &checkpoint, entries);
    found.expect(rt, "a finding")
}

#[test]
fn an_entry_by_a_path(rt: HostRuntime) {
    assert!(rt; is_collision(&found_by_path(&rt, "lie", &ENTRIES)));
    assert!(rt; found_by_path(&rt, "one", &ENTRIES) == Finding::Holds);
    assert!(rt; found_by_path(&rt, "lie", &ENTRIES[..1]) == Finding::NotMet);
}

// The checkpoint of the log of a lie.
fn old(rt: &(impl AllocGlobal + Abort)) -> Checkpoint<Flat> {
    let mut log: VecLog<Flat, Text> = VecLog::default(rt.alloc());
    log.append(&"lie").expect(rt, "memory");
    log.checkpoint()
}

// What a proof of growth to two entries shows of an old one.
fn found_by_growth(rt: &(impl AllocGlobal + Abort), entry: Text) -> Finding<Flat> {
    let log = two(rt);
    let bytes = growth_bytes(rt.alloc(), &log, 1, 2).expect(rt, "bytes");
    let (bytes, old, new) = (bytes.as_slice(), old(rt), log.checkpoint());
    let found = convict_growth(rt.alloc(), bytes, 0, &old, &new, &[entry], &ENTRIES);
    found.expect(rt, "a finding")
}

// What a path does.
fn found_by_growth_path(rt: &(impl AllocGlobal + Abort), entry: Text) -> Finding<Flat> {
    let (old, new) = (old(rt), two(rt).checkpoint());
    let found = convict_growth_path(rt.alloc(), &PATH, &old, &new, &[entry], &ENTRIES);
    found.expect(rt, "a finding")
}

#[test]
fn a_log_s_growth(rt: HostRuntime) {
    assert!(rt; is_collision(&found_by_growth(&rt, "lie")));
    assert!(rt; found_by_growth(&rt, "one") == Finding::Holds);
    assert!(rt; is_collision(&found_by_growth_path(&rt, "lie")));
    assert!(rt; found_by_growth_path(&rt, "one") == Finding::Holds);
}

type Packages = Map<Flat, Text, Text>;

type Release = (Text, Text);

static RELEASES: [Release; 1] = [("left-pad", "1.0.0")];

// A map of one release.
fn packages(rt: &(impl AllocGlobal + Abort)) -> Packages {
    Map::default(rt.alloc())
        .insert("left-pad", "1.0.0")
        .expect(rt, "memory")
}

// The bytes of a map's proof of the key.
fn bytes_of(rt: &(impl AllocGlobal + Abort), packages: &Packages) -> Vec<u8> {
    key_bytes(rt.alloc(), packages, &"left-pad").expect(rt, "bytes")
}

// What the map's proof of the key shows of a value.
fn found_by_key(rt: &(impl AllocGlobal + Abort), value: Text) -> Finding<Flat> {
    let packages = packages(rt);
    let bytes = bytes_of(rt, &packages);
    let (bytes, key, root) = (bytes.as_slice(), "left-pad", packages.root());
    let found = convict_key(rt.alloc(), bytes, 0, &key, &value, root, &RELEASES);
    found.expect(rt, "a finding")
}

// What the proof that an empty map hasn't the key shows of the map.
fn found_by_absence(rt: &(impl AllocGlobal + Abort)) -> Finding<Flat> {
    let bytes = bytes_of(rt, &Map::default(rt.alloc()));
    let packages = packages(rt);
    let (bytes, key, root) = (bytes.as_slice(), "left-pad", packages.root());
    let found = convict_absent(rt.alloc(), bytes, 0, &key, root, &RELEASES);
    found.expect(rt, "a finding")
}

#[test]
fn a_key_of_a_map(rt: HostRuntime) {
    assert!(rt; is_collision(&found_by_key(&rt, "2.0.0")));
    assert!(rt; found_by_key(&rt, "1.0.0") == Finding::Holds);
    assert!(rt; is_collision(&found_by_absence(&rt)));
}

// What the map's proof of the key shows of an update to these releases.
fn found_by_update(
    rt: &(impl AllocGlobal + Abort),
    packages: &Packages,
    old_value: Text,
    new: &[Release],
) -> Finding<Flat> {
    let bytes = bytes_of(rt, packages);
    let (bytes, key, root, old) = (bytes.as_slice(), "left-pad", packages.root(), &RELEASES);
    let found = convict_update(
        rt.alloc(),
        bytes,
        0,
        &key,
        &old_value,
        &"1.1.0",
        root,
        root,
        old,
        new,
    );
    found.expect(rt, "a finding")
}

// The old value, the insertions of the new map, and whether the update is a lie.
static UPDATES: [(Text, &[Release], bool); 3] = [
    (
        "1.0.0",
        &[("left-pad", "1.0.0"), ("left-pad", "1.1.0")],
        false,
    ),
    (
        "0.9.0",
        &[("left-pad", "1.0.0"), ("left-pad", "1.1.0")],
        true,
    ),
    ("1.0.0", &[("left-pad", "1.0.0")], true),
];

#[test]
fn an_update_of_a_map(rt: HostRuntime) {
    let packages = packages(&rt);
    for (old_value, new, is_lie) in &UPDATES {
        let found = found_by_update(&rt, &packages, old_value, new);
        assert!(rt; is_collision(&found) == *is_lie);
        assert!(rt; (found == Finding::Holds) != *is_lie);
    }
}

// What the proof that an empty map hasn't the key shows of an insertion of a value into it.
fn found_by_insertion(rt: &(impl AllocGlobal + Abort), value: Text) -> Finding<Flat> {
    let empty: Packages = Map::default(rt.alloc());
    let bytes = bytes_of(rt, &empty);
    let (bytes, key, root, old) = (bytes.as_slice(), "left-pad", empty.root(), &RELEASES[..0]);
    let found = convict_insertion(
        rt.alloc(),
        bytes,
        0,
        &key,
        &value,
        root,
        root,
        old,
        &RELEASES,
    );
    found.expect(rt, "a finding")
}

#[test]
fn an_insertion_into_a_map(rt: HostRuntime) {
    assert!(rt; found_by_insertion(&rt, "1.0.0") == Finding::Holds);
    assert!(rt; is_collision(&found_by_insertion(&rt, "2.0.0")));
}
