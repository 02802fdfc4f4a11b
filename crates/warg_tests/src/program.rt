//! The program over readers and writers that fail or take little.

use std::alloc::Global;
use std::io::{Error, ErrorKind, Read, Result as IoResult, Write};
use warg_program::{RunError, run};

// Gives one byte at a read, and an error at the read of this number, from 1.
#[derive(Drop)]
struct Bytewise<'a> {
    rest: &'a [u8],
    fails_at: u64,
    kind: ErrorKind,
}

impl Read for Bytewise<'_> {
    fn read(&mut self, buffer: &mut [u8]) -> IoResult<usize> {
        self.fails_at = self.fails_at.saturating_sub(1);
        if self.fails_at == 0 {
            return Err(Error::from(self.kind));
        }
        match (self.rest.split_first(), buffer.first_mut()) {
            (Some((byte, rest)), Some(place)) => {
                *place = *byte;
                self.rest = rest;
                Ok(1)
            }
            _ => Ok(0),
        }
    }
}

// Takes a few bytes at a write, and fails at the write of this number, from 1, or at a flush.
#[derive(Drop)]
struct Taker {
    taken: Vec<u8>,
    at_once: usize,
    fails_at: u64,
    flush_fails: bool,
}

impl Write for Taker {
    fn write(&mut self, buffer: &[u8]) -> IoResult<usize> {
        self.fails_at = self.fails_at.saturating_sub(1);
        if self.fails_at == 0 {
            return Err(Error::from(ErrorKind::Other));
        }
        let count = buffer.len().min(self.at_once);
        self.taken.extend_from_slice(&buffer[..count])?;
        Ok(count)
    }

    fn flush(&mut self) -> IoResult<()> {
        if self.flush_fails {
            return Err(Error::from(ErrorKind::Other));
        }
        Ok(())
    }
}

// Whether a run over a reader that fails so ends so, with the whole text or none of it.
fn is_read(alloc: Global, fails_at: u64, kind: ErrorKind, want: &Result<bool, RunError>) -> bool {
    let mut reader = Bytewise {
        rest: b"push -\n",
        fails_at,
        kind,
    };
    let mut writer = Vec::new(alloc);
    let ended = run(alloc, &mut reader, &mut writer);
    let text: &[u8] = if ended.is_ok() { b"node 0\n" } else { b"" };
    writer.as_slice() == text && ended == *want
}

static READS: [(u64, ErrorKind, Result<bool, RunError>); 5] = [
    (1, ErrorKind::Other, Err(RunError::Read)),
    (2, ErrorKind::Other, Err(RunError::Read)),
    (2, ErrorKind::Interrupted, Err(RunError::Read)),
    (8, ErrorKind::Other, Err(RunError::Read)),
    (9, ErrorKind::Other, Ok(true)),
];

#[test]
fn a_reader_that_fails(rt: HostRuntime) {
    for (fails_at, kind, want) in &READS {
        assert!(rt; is_read(rt.alloc(), *fails_at, *kind, want), "{fails_at}");
    }
}

// Whether a run over a writer ends so, with this text written.
fn is_written(mut writer: Taker, text: &str, want: &Result<bool, RunError>) -> bool {
    let mut reader: &[u8] = b"push -\n";
    let ended = run(*writer.taken.allocator(), &mut reader, &mut writer);
    writer.taken.as_slice() == text.as_bytes() && ended == *want
}

// How many bytes a writer takes at once, when it fails, what is written then, and how the run ends.
static WRITES: [(usize, u64, bool, &str, Result<bool, RunError>); 7] = [
    (100, 100, false, "node 0\n", Ok(true)),
    (1, 100, false, "node 0\n", Ok(true)),
    (3, 100, false, "node 0\n", Ok(true)),
    (0, 100, false, "", Err(RunError::Write)),
    (3, 1, false, "", Err(RunError::Write)),
    (3, 3, false, "node 0", Err(RunError::Write)),
    (3, 100, true, "node 0\n", Err(RunError::Write)),
];

#[test]
fn a_writer_that_fails_or_takes_little(rt: HostRuntime) {
    for (at_once, fails_at, flush_fails, text, want) in &WRITES {
        let writer = Taker {
            taken: Vec::new(rt.alloc()),
            at_once: *at_once,
            fails_at: *fails_at,
            flush_fails: *flush_fails,
        };
        assert!(rt; is_written(writer, text, want), "{text}");
    }
}

#[test]
fn an_empty_text_is_only_flushed(rt: HostRuntime) {
    let mut writer = Taker {
        taken: Vec::new(rt.alloc()),
        at_once: 0,
        fails_at: 1,
        flush_fails: false,
    };
    let mut reader: &[u8] = b"\n\n";
    assert!(rt; run(rt.alloc(), &mut reader, &mut writer) == Ok(true));
}
