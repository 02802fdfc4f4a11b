//! Checkpoints and logs as text, and proofs as bytes, with values from outside.

use refusing::Refusing;
use std::alloc::Allocator;
use std::process::Abort;
use warg_bundle::{ServeError, growth_bytes, inclusion_bytes};
use warg_crypto::Sha256;
use warg_log::{Checkpoint, LogBuilder, StackLog, VecLog, decimal_in, push_all};

static ENTRIES: [&str; 4] = ["one", "two", "three", "four"];

const TEXT: &str = "4 cd8d65377e6fad76003e2c5749de7d2ec536f71509b6e5b8a3674d360e58d82a";

// The proof of entry 1, with the digests of nodes 0 and 5.
const INCLUSION: &str =
    "08041a010222221220d0d7360ab79f58ab1e1e3fe64ad77e2ea0bc07e36b5f46ed2223edd9298df9e9222408051220167eb1643f6c3d628bc200a8faa64b300a85961d0c31fe72b4ce798e18c2a663";

// The proof from 2 entries to 4, with the digests of nodes 1 and 5.
const GROWTH: &str =
    "08041201022224080112204f55f619d9215235778b2b9f17d6f4915b16171214d152381293669764de722e222408051220167eb1643f6c3d628bc200a8faa64b300a85961d0c31fe72b4ce798e18c2a663";

type TextLog = VecLog<Sha256, &'static str>;

fn four(rt: &(impl AllocGlobal + Abort)) -> TextLog {
    let mut log = VecLog::default(rt.alloc());
    push_all(&mut log, &ENTRIES).expect(rt, "memory");
    log
}

// The checkpoint that a text is, if it's one.
fn checkpoint_of(text: &str) -> Option<Checkpoint<Sha256>> {
    text.parse::<Checkpoint<Sha256>>().ok()
}

#[test]
fn checkpoint_text(rt: HostRuntime) {
    let checkpoint = four(&rt).checkpoint();
    let text = format!(in rt.alloc(); "{checkpoint}").expect(&rt, "memory");
    assert!(rt; text.as_str() == TEXT);
    let digits = TEXT[2..]
        .to_ascii_uppercase(rt.alloc())
        .expect(&rt, "memory");
    let capitals = format!(in rt.alloc(); "4 {digits}").expect(&rt, "memory");
    assert!(rt; checkpoint_of(capitals.as_str()) == checkpoint_of(TEXT));
    assert!(rt; checkpoint_of(TEXT) == Some(checkpoint));
}

// What stands before and behind a root in texts that are no checkpoints.
static OTHERS: [(&str, &str); 11] = [
    ("", ""),
    (" ", ""),
    ("4", ""),
    ("+4 ", ""),
    ("04 ", ""),
    ("4  ", ""),
    ("4x ", ""),
    ("18446744073709551616 ", ""),
    ("4 ", " "),
    ("4 ", "0"),
    ("4 ", "\n"),
];

// The length of the checkpoint that a text round a root is, if it's one.
fn length_of(rt: &(impl AllocGlobal + Abort), front: &str, end: &str) -> Option<usize> {
    let root = &TEXT[2..];
    let text = format!(in rt.alloc(); "{front}{root}{end}").expect(rt, "memory");
    Some(checkpoint_of(text.as_str())?.length())
}

#[test]
fn other_texts_are_no_checkpoints(rt: HostRuntime) {
    for (front, end) in &OTHERS {
        assert!(rt; length_of(&rt, front, end).is_none());
    }
    assert!(rt; length_of(&rt, "18446744073709551615 ", "") == Some(usize::MAX));
    assert!(rt; decimal_in("0") == Some(0));
}

#[test]
fn debug_of_logs(rt: HostRuntime) {
    let log = four(&rt);
    let mut stack = StackLog::<Sha256, &'static str>::default(rt.alloc());
    push_all(&mut stack, &ENTRIES).expect(&rt, "memory");
    let text = format!(in rt.alloc(); "{log:?} {stack:?}").expect(&rt, "memory");
    let want = format!(in rt.alloc(); "VecLog({TEXT}) StackLog({TEXT})").expect(&rt, "memory");
    assert!(rt; text == want);
}

#[test]
fn proofs_out_of_range(rt: HostRuntime) {
    let log = four(&rt);
    for (index, length) in [(4, 4), (0, 0), (0, 5), (7, 3)] {
        let refused = inclusion_bytes(rt.alloc(), &log, index, length);
        assert!(rt; refused == Err(ServeError::OutOfRange));
    }
    for (old, new) in [(0, 4), (3, 2), (2, 5)] {
        let refused = growth_bytes(rt.alloc(), &log, old, new);
        assert!(rt; refused == Err(ServeError::OutOfRange));
    }
}

// Whether bytes are spelled by these digits, or else memory lacks.
fn are_spelled<A: Allocator>(
    rt: &(impl AllocGlobal + Abort),
    bytes: &Result<Vec<u8, A>, ServeError>,
    digits: &str,
) -> bool {
    match bytes {
        Ok(bytes) => {
            let found = hex::encode(rt.alloc(), bytes.as_slice()).expect(rt, "memory");
            assert!(rt; found.as_str() == digits);
            true
        }
        Err(fault) => {
            assert!(rt; *fault == ServeError::Memory);
            false
        }
    }
}

// Whether both proofs are written as they should with so many growths. Else one is refused, for want of memory.
fn are_written(rt: &(impl AllocGlobal + Abort), log: &TextLog, growths: u64) -> bool {
    let memory = Refusing::after(rt.alloc(), growths);
    let inclusion = are_spelled(rt, &inclusion_bytes(&memory, log, 1, 4), INCLUSION);
    let growth = are_spelled(rt, &growth_bytes(&memory, log, 2, 4), GROWTH);
    let are_both = inclusion && growth;
    assert!(rt; are_both != memory.has_refused());
    are_both
}

// Each growth of both calls is refused in turn, until none is.
#[test]
fn proofs_as_bytes_with_each_growth_refused(rt: HostRuntime) {
    let log = four(&rt);
    for growths in 0..60 {
        if are_written(&rt, &log, growths) {
            return;
        }
    }
    panic!(rt; "all growths were refused");
}
