//! The callers of `warg_uses`, at concrete types.

use std::process::Abort;
use warg_bundle::inclusion_bytes;
use warg_crypto::weak::Flat;
use warg_crypto::{Hash, Sha256};
use warg_log::{Checkpoint, LogBuilder, LogData, Node, VecLog};
use warg_map::Map;
use warg_store::{Folder, LogError, LogFolder, MemoryFolder};
use warg_tiles::CheckpointText;
use warg_uses::{claims, crypto, folder, map, registry, store, witness};
use warg_witness::Collision;

#[test]
fn a_release_s_digest(rt: HostRuntime) {
    let release = crypto::Release {
        name: "a",
        version: "bc",
    };
    // SHA-256 of 1 in 8 bytes, "a", 2 in 8 bytes and "bc", by Python's hashlib.
    let digits = crypto::digest(&release)
        .to_string(rt.alloc())
        .expect(&rt, "memory");
    let wanted = "3fafa1cf2f19a7c1129beb20cf0983f73a489a221fc0dd2f16d1be292d089205";
    assert!(rt; digits.as_str() == wanted);
}

#[test]
fn a_package_that_is_absent(rt: HostRuntime) {
    let packages = map::release(&Map::default(rt.alloc()), "left-pad", "1.0.0");
    let packages = packages.expect(&rt, "memory");
    assert!(rt;
        map::absence(&packages, "left-pad")
            .expect(&rt, "memory")
            .is_none()
    );
    assert!(rt;
        map::absence(&packages, "right-pad")
            .expect(&rt, "memory")
            .is_some()
    );
    let proof = packages
        .prove("left-pad")
        .expect(&rt, "memory")
        .expect(&rt, "a proof");
    assert!(rt; map::has_version(&proof, "left-pad", "1.0.0", packages.root()));
    assert!(rt; !map::has_version(&proof, "left-pad", "2.0.0", packages.root()));
}

// A log of two entries.
fn two(rt: &(impl AllocGlobal + Abort)) -> VecLog<Flat, &'static str> {
    let mut log = VecLog::default(rt.alloc());
    log.append(&"one").expect(rt, "memory");
    log.append(&"two").expect(rt, "memory");
    log
}

// Whether the byte strings of the first entry's collision with a lie were found.
fn is_lie(found: &Option<Collision<Flat>>) -> bool {
    match found {
        Some(pair) => {
            pair.first() == b"\0lie".as_slice() && pair.second() == b"\0one".as_slice()
        }
        None => false,
    }
}

#[test]
fn an_auditor_finds_a_collision(rt: HostRuntime) {
    let log = two(&rt);
    let proof = log.prove_inclusion(Node(0), 2);
    let found = witness::audit(rt.alloc(), &proof, &log, &"lie", &["one", "two"]);
    assert!(rt; is_lie(&found.expect(&rt, "memory")));
}

// The lie that a value is, out of a bundle's proof of the first entry.
fn lie_of(rt: &(impl AllocGlobal + Abort), value: &'static str) -> Option<Collision<Flat>> {
    let log = two(rt);
    let bytes = inclusion_bytes(rt.alloc(), &log, 0, 2).expect(rt, "bytes");
    let (bytes, checkpoint) = (bytes.as_slice(), log.checkpoint());
    let found = claims::lie_of(rt.alloc(), bytes, 0, &value, &checkpoint, &["one", "two"]);
    found.expect(rt, "a verdict")
}

#[test]
fn a_lie_of_a_log(rt: HostRuntime) {
    assert!(rt; lie_of(&rt, "one").is_none());
    assert!(rt; is_lie(&lie_of(&rt, "lie")));
}

#[test]
fn a_notice_in_a_folder(rt: HostRuntime) {
    let mut files = MemoryFolder::new(rt.alloc());
    let noticed = folder::noticed(rt.alloc(), &mut files, b"moved", b"example.com/log");
    assert!(rt; noticed.is_ok());
    let notice = files
        .read(rt.alloc(), "map/notice", 5)
        .expect(&rt, "a file");
    assert!(rt; notice.expect(&rt, "a notice").as_slice() == b"moved".as_slice());
}

// The log of a folder, which was empty, after two releases.
fn released<F: Folder + Drop>(rt: &(impl AllocGlobal + Abort), folder: F) -> LogFolder<F> {
    let log = LogFolder::create(rt.alloc(), folder, b"example.com/log").expect(rt, "a new log");
    let log = store::released(rt.alloc(), log.into_folder(), b"one").expect(rt, "a release");
    store::released(rt.alloc(), log.into_folder(), b"two").expect(rt, "a release")
}

#[test]
fn a_release_out_of_a_folder(rt: HostRuntime) {
    let log = released(&rt, MemoryFolder::new(rt.alloc()));
    assert!(rt; log.checkpoint().length() == 2);
    let second = store::served_release(rt.alloc(), log.into_folder(), 1);
    assert!(rt; second.expect(&rt, "a release").as_slice() == b"two".as_slice());
    let none = store::served_release(rt.alloc(), MemoryFolder::new(rt.alloc()), 0);
    assert!(rt; none == Err(LogError::NoLog));
}

const ENTRY: &[u8; 29] = b"\0\0\0\0\0\0\0\x08left-pad\0\0\0\0\0\0\0\x051.1.0";

// The line of SHA-256 of no bytes.
const LINE: &[u8; 48] = b"map 47DEQpj8HBSa+/TImW+5JCeuQeRkm5NMpJWZG3hSuFU=";

#[test]
fn what_a_registry_announces(rt: HostRuntime) {
    let root = Hash::<Sha256>::of(&());
    let text = CheckpointText::new(
        rt.alloc(),
        b"example.com/log",
        Checkpoint::new(root.copied(), 1),
    );
    let mut text = text.expect(&rt, "a text");
    let entry = registry::announced(rt.alloc(), &mut text, &root, "left-pad", "1.1.0");
    assert!(rt; entry.expect(&rt, "an entry").as_slice() == ENTRY.as_slice());
    assert!(rt; text.extensions().len() == 1);
    let line = text.extensions().first().expect(&rt, "a line");
    assert!(rt; line.as_slice() == LINE.as_slice());
}
