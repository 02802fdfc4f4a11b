//! A registry's entries, its checkpoint's line of the map's root, and the value of a held key, against bytes and
//! digests that Python made.

use refusing::Refusing;
use std::alloc::{Allocator, Global};
use std::process::Abort;
use warg_crypto::{Hash, Sha256};
use warg_log::{Checkpoint, LogBuilder, VecLog};
use warg_map::Map;
use warg_registry::{
    BadMapLine, InsertionFault, inserted_value, map_line, map_root, read_insertion, write_insertion,
};
use warg_tiles::{CheckpointText, EntryError};

const ENTRY: &[u8; 29] = b"\0\0\0\0\0\0\0\x08left-pad\0\0\0\0\0\0\0\x051.1.0";

// SHA-256 of the byte 00 and 1.1.0.
const LEAF: &str = "b7dde00c5d26011b3687c22b352d598a9cae665009201c9e609f7fe6af91bfb9";

// SHA-256 of no bytes, in digits and on the line.
const ROOT: &str = "e3b0c44298fc1c149afbf4c8996fb92427ae41e4649b934ca495991b7852b855";

const LINE: &[u8; 48] = b"map 47DEQpj8HBSa+/TImW+5JCeuQeRkm5NMpJWZG3hSuFU=";

fn hash(rt: &impl Abort, digits: &str) -> Hash<Sha256> {
    digits.parse::<Hash<Sha256>>().ok().expect(rt, "digits")
}

// Bytes, and the key and value of the insertion that they are.
static ENTRIES: [(&[u8], &[u8], &[u8]); 2] = [(ENTRY, b"left-pad", b"1.1.0"), (&[0; 16], b"", b"")];

#[test]
fn an_insertion_is_written_and_read(rt: HostRuntime) {
    for (bytes, key, value) in &ENTRIES {
        let entry = write_insertion(rt.alloc(), key, value).expect(&rt, "an entry");
        assert!(rt; entry.as_slice() == *bytes);
        let read = read_insertion(bytes).expect(&rt, "an insertion");
        assert!(rt; read.key == *key && read.value == *value);
    }
}

#[test]
fn other_bytes_are_no_insertion(rt: HostRuntime) {
    for length in 0..29usize {
        let fault = if length < 16 {
            InsertionFault::Key
        } else {
            InsertionFault::Value
        };
        assert!(rt; read_insertion(&ENTRY[..length]) == Err(fault));
    }
    assert!(rt; read_insertion(&[0; 17]) == Err(InsertionFault::Longer));
    assert!(rt; read_insertion(&[0xff; 99]) == Err(InsertionFault::Key));
}

// The first bytes, so many, or all.
fn first(bytes: &[u8], count: usize) -> &[u8] {
    bytes.get(..count).unwrap_or(bytes)
}

// Whether an insertion of so many bytes is too long.
fn is_too_long<A: Allocator + Copy>(alloc: A, bytes: &[u8], key: usize, value: usize) -> bool {
    let longer = write_insertion(alloc, first(bytes, key), first(bytes, value));
    longer.err() == Some(EntryError::TooLong)
}

#[test]
fn the_longest_insertion(rt: HostRuntime) {
    let bytes = [7u8; 65_520];
    let entry = write_insertion(rt.alloc(), &bytes[..65_500], &bytes[..19]);
    assert!(rt; entry.expect(&rt, "an entry").len() == 65_535);
    let none = Refusing::after(rt.alloc(), 0);
    for (key, value) in [(65_501, 19), (0, 65_520), (65_520, 0), (65_520, 65_520)] {
        assert!(rt; is_too_long(&none, &bytes, key, value));
    }
    assert!(rt; !none.has_refused());
}

// A checkpoint's text with these further lines.
fn text_of(
    rt: &(impl AllocGlobal + Abort),
    origin: &[u8],
    checkpoint: Checkpoint<Sha256>,
    lines: &[&[u8]],
) -> CheckpointText<Sha256> {
    let text = CheckpointText::new(rt.alloc(), origin, checkpoint);
    let mut text = text.expect(rt, "a text");
    for line in lines {
        text.push_extension(line).expect(rt, "a line");
    }
    text
}

// Whether an entry inserts its value under its own key and leaf digest, and no other ones.
fn inserts_value(leaf: &Hash<Sha256>, other: &Hash<Sha256>) -> bool {
    inserted_value(ENTRY, b"left-pad", leaf) == Some(b"1.1.0".as_slice())
        && inserted_value(ENTRY, b"left-pac", leaf).is_none()
        && inserted_value(ENTRY, b"left-pad", other).is_none()
        && inserted_value(&ENTRY[..28], b"left-pad", leaf).is_none()
}

#[test]
fn the_value_that_an_entry_inserts(rt: HostRuntime) {
    assert!(rt; inserts_value(&hash(&rt, LEAF), &hash(&rt, ROOT)));
}

#[test]
fn the_line_of_a_root(rt: HostRuntime) {
    let line = map_line(rt.alloc(), &hash(&rt, ROOT)).expect(&rt, "memory");
    assert!(rt; line.as_slice() == LINE.as_slice());
}

// What a text with these further lines says of a map's root.
fn root_of(
    rt: &(impl AllocGlobal + Abort),
    lines: &[&[u8]],
) -> Result<Option<Hash<Sha256>>, BadMapLine> {
    let checkpoint = Checkpoint::new(hash(rt, LEAF), 1);
    map_root(&text_of(rt, b"example.com/log", checkpoint, lines))
}

// Other words, no padding, more of it, bits behind the last digit, 31 and 33 bytes, and no digits.
static OTHER_LINES: [&[u8]; 9] = [
    b"Map 47DEQpj8HBSa+/TImW+5JCeuQeRkm5NMpJWZG3hSuFU=",
    b"map  47DEQpj8HBSa+/TImW+5JCeuQeRkm5NMpJWZG3hSuFU=",
    b"map 47DEQpj8HBSa+/TImW+5JCeuQeRkm5NMpJWZG3hSuFU",
    b"map 47DEQpj8HBSa+/TImW+5JCeuQeRkm5NMpJWZG3hSuFU==",
    b"map 47DEQpj8HBSa+/TImW+5JCeuQeRkm5NMpJWZG3hSuFV=",
    b"map 47DEQpj8HBSa+/TImW+5JCeuQeRkm5NMpJWZG3hSuA==",
    b"map 47DEQpj8HBSa+/TImW+5JCeuQeRkm5NMpJWZG3hSuFUA",
    b"map ",
    b"m",
];

#[test]
fn the_root_that_a_text_names(rt: HostRuntime) {
    assert!(rt; root_of(&rt, &[]) == Ok(None));
    assert!(rt; root_of(&rt, &[LINE]) == Ok(Some(hash(&rt, ROOT))));
    assert!(rt; root_of(&rt, &[LINE, LINE]) == Err(BadMapLine));
    assert!(rt; root_of(&rt, &[LINE, b"more"]) == Err(BadMapLine));
    for other in &OTHER_LINES {
        assert!(rt; root_of(&rt, &[*other]) == Err(BadMapLine));
    }
}

// Whether memory runs out for an entry.
fn runs_out_for_entry<A: Allocator + Copy>(alloc: A) -> bool {
    write_insertion(alloc, b"left-pad", b"1.1.0").err() == Some(EntryError::Memory)
}

// Whether memory runs out for a line.
fn runs_out_for_line<A: Allocator + Copy>(alloc: A, root: &Hash<Sha256>) -> bool {
    map_line(alloc, root).is_err()
}

#[test]
fn each_growth_is_refused_in_turn(rt: HostRuntime) {
    let root = hash(&rt, ROOT);
    for growths in 0..9u64 {
        let memory = Refusing::after(rt.alloc(), growths);
        assert!(rt; runs_out_for_entry(&memory) == memory.has_refused());
        let memory = Refusing::after(rt.alloc(), growths);
        assert!(rt; runs_out_for_line(&memory, &root) == memory.has_refused());
    }
}

static INSERTIONS: [(&str, &str); 3] = [
    ("left-pad", "1.1.0"),
    ("right-pad", "0.1.0"),
    ("left-pad", "1.2.0"),
];

const TEXT: &str = "\
example.com/registry
3
kio8+Z8SDs4kXTpdEWle/pNkUubWfZTwstuuzddSASU=
map L1cqiL/p9eQodMFuiByUt4S3nWpZEIspTn8/EF9ALNs=
";

// The log of the insertions, by its checkpoint.
fn log_of(rt: &(impl AllocGlobal + Abort)) -> Checkpoint<Sha256> {
    let mut log: VecLog<Sha256, Vec<u8>> = VecLog::default(rt.alloc());
    for (key, value) in &INSERTIONS {
        let entry = write_insertion(rt.alloc(), key.as_bytes(), value.as_bytes());
        log.append(&entry.expect(rt, "an entry"))
            .expect(rt, "memory");
    }
    log.checkpoint()
}

// Their map, by its root.
fn map_of(rt: &(impl AllocGlobal + Abort)) -> Hash<Sha256> {
    let mut map: Map<Sha256, &'static str, &'static str> = Map::default(rt.alloc());
    for (key, value) in &INSERTIONS {
        map = map.insert(*key, *value).expect(rt, "memory");
    }
    map.root().copied()
}

#[test]
fn the_text_of_a_registry(rt: HostRuntime) {
    let root = map_of(&rt);
    let line = map_line(rt.alloc(), &root).expect(&rt, "memory");
    let text = text_of(
        &rt,
        b"example.com/registry",
        log_of(&rt),
        &[line.as_slice()],
    );
    let bytes = text.write(rt.alloc()).expect(&rt, "memory");
    assert!(rt; bytes.as_slice() == TEXT.as_bytes());
    let read = CheckpointText::<Sha256, Global>::read(rt.alloc(), bytes.as_slice());
    let (read, _) = read.expect(&rt, "a text");
    assert!(rt; map_root(&read) == Ok(Some(root)));
}
