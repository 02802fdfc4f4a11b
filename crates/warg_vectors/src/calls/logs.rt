//! Logs that entries are pushed into: one that keeps all digests, and one that keeps its balanced roots alone.

use crate::answer::Answer;
use crate::call::Call;
use crate::fault::{Answered, Fault, Promise};
use crate::memory::Memory;
use std::alloc::{AllocError, Allocator, Global};
use warg_crypto::SupportedDigest;
use warg_log::{GREATEST_LENGTH, LogBuilder, LogData, Node, StackLog, VecLog, push_all};

/// A log whose entries are lists of bytes.
pub(super) type BytesLog<D, A = Global> = VecLog<D, Vec<u8>, A>;

/// The length, the root and all digests of the log of some entries. Each kind of log has the same checkpoint.
pub(super) fn log<D: SupportedDigest, M: Memory>(call: &mut Call<'_, M>) -> Answered {
    let entries: Vec<Vec<u8>> = call.read()?;
    let entries = entries.as_slice();
    grown::<D, M, StackLog<D, Vec<u8>, M>>(call, entries)?;
    let log: BytesLog<D, M> = grown(call, entries)?;
    write(&mut call.to, &log)
}

fn write<D: SupportedDigest, A: Allocator>(to: &mut Answer, log: &BytesLog<D, A>) -> Answered {
    let checkpoint = log.checkpoint();
    to.show(&checkpoint.length())?;
    to.show(&checkpoint.root())?;
    to.list(log.as_ref())
}

// A kind of log.
trait Kind<D: SupportedDigest, M: Memory>: LogBuilder<D, Vec<u8>> + Sized + Drop {
    fn empty(memory: M) -> Self;

    fn cloned(&self) -> Result<Self, AllocError>;

    // Whether it is the same log as `plain`, which has the first of these entries.
    fn is(&self, plain: &BytesLog<D>, entries: &[Vec<u8>]) -> bool;
}

impl<D: SupportedDigest, M: Memory> Kind<D, M> for BytesLog<D, M> {
    fn empty(memory: M) -> BytesLog<D, M> {
        VecLog::default(memory)
    }

    fn cloned(&self) -> Result<BytesLog<D, M>, AllocError> {
        self.clone()
    }

    fn is(&self, plain: &BytesLog<D>, entries: &[Vec<u8>]) -> bool {
        let same = self.as_ref() == plain.as_ref() && self.checkpoint() == plain.checkpoint();
        same && proves_its_last(self, entries)
    }
}

impl<D: SupportedDigest, M: Memory> Kind<D, M> for StackLog<D, Vec<u8>, M> {
    fn empty(memory: M) -> StackLog<D, Vec<u8>, M> {
        StackLog::default(memory)
    }

    fn cloned(&self) -> Result<StackLog<D, Vec<u8>, M>, AllocError> {
        self.clone()
    }

    fn is(&self, plain: &BytesLog<D>, _entries: &[Vec<u8>]) -> bool {
        self.checkpoint() == plain.checkpoint() && self.is_empty() == (plain.length() == 0)
    }
}

// Whether the proof of the log's last entry leads to its root.
fn proves_its_last<D: SupportedDigest, A: Allocator>(
    log: &BytesLog<D, A>,
    entries: &[Vec<u8>],
) -> bool {
    let length = log.length();
    if length == 0 || length > entries.len() || length > GREATEST_LENGTH {
        return length == 0;
    }
    let proof = log.prove_inclusion(Node(2 * (length - 1)), length);
    proof.evaluate_value(log, &entries[length - 1]) == Ok(log.checkpoint().root())
}

// The log of the entries, pushed one by one. Pushing them at once gives the same log, and a clone of it is the same.
fn grown<D: SupportedDigest, M: Memory, K: Kind<D, M>>(
    call: &Call<'_, M>,
    entries: &[Vec<u8>],
) -> Result<K, Fault> {
    let log: K = pushed(call, entries)?;
    expect(call, &log, entries, entries.len())?;
    expect_at_once::<D, M, K>(call, entries)?;
    expect_clone(call, &log, entries)?;
    Ok(log)
}

// The log of the entries, pushed one by one.
fn pushed<D: SupportedDigest, M: Memory, K: Kind<D, M>>(
    call: &Call<'_, M>,
    entries: &[Vec<u8>],
) -> Result<K, Fault> {
    let mut log = K::empty(call.memory);
    for entry in entries {
        push(call, &mut log, entries, entry)?;
    }
    Ok(log)
}

/// The log of the first entries, as many as `count`.
pub(super) fn beginning<D: SupportedDigest>(
    alloc: Global,
    entries: &[Vec<u8>],
    count: usize,
) -> Result<BytesLog<D>, AllocError> {
    let mut log = VecLog::default(alloc);
    for entry in entries.iter().take(count) {
        if log.length() < GREATEST_LENGTH {
            log.push(entry)?;
        }
    }
    Ok(log)
}

// A fault unless the log is that of so many of the entries.
fn expect<D: SupportedDigest, M: Memory, K: Kind<D, M>>(
    call: &Call<'_, M>,
    log: &K,
    entries: &[Vec<u8>],
    count: usize,
) -> Answered {
    let plain = beginning(call.alloc(), entries, count)?;
    Fault::unless(log.is(&plain, entries), Promise::SameValue)
}

// Pushes an entry. Where it is refused, the log is the one of before, and takes the entry; the run ends with the refusal.
fn push<D: SupportedDigest, M: Memory, K: Kind<D, M>>(
    call: &Call<'_, M>,
    log: &mut K,
    entries: &[Vec<u8>],
    entry: &Vec<u8>,
) -> Answered {
    let before = log.checkpoint().length();
    if push_next(log, entry, before).is_ok() {
        return Ok(());
    }
    expect(call, log, entries, before)?;
    call.memory.grant();
    push_next(log, entry, before)?;
    expect(call, log, entries, before.saturating_add(1))?;
    Err(Fault::Memory)
}

// Pushes an entry to a log of this length, which returns the entry's node.
fn push_next<D: SupportedDigest, K: LogBuilder<D, Vec<u8>>>(
    log: &mut K,
    entry: &Vec<u8>,
    before: usize,
) -> Answered {
    if before >= GREATEST_LENGTH || log.checkpoint().length() != before {
        return Err(Fault::Broken(Promise::NextNode));
    }
    let node = log.push(entry)?;
    Fault::unless(node == Node(2 * before), Promise::NextNode)
}

// A fault unless a clone is the same.
fn expect_clone<D: SupportedDigest, M: Memory, K: Kind<D, M>>(
    call: &Call<'_, M>,
    log: &K,
    entries: &[Vec<u8>],
) -> Answered {
    let clone = call.again(|_| Ok(log.cloned()?))?;
    expect(call, &clone, entries, entries.len())
}

// A fault unless pushing all entries at once gives their log. Where it is refused, it is that of the first ones, and
// takes the others.
fn expect_at_once<D: SupportedDigest, M: Memory, K: Kind<D, M>>(
    call: &Call<'_, M>,
    entries: &[Vec<u8>],
) -> Answered {
    let mut log = K::empty(call.memory);
    if push_rest(&mut log, entries).is_err() {
        expect(call, &log, entries, log.checkpoint().length())?;
        call.memory.grant();
        push_rest(&mut log, entries)?;
    }
    expect(call, &log, entries, entries.len())
}

// Pushes the entries that the log doesn't have yet.
fn push_rest<D: SupportedDigest, K: LogBuilder<D, Vec<u8>>>(
    log: &mut K,
    entries: &[Vec<u8>],
) -> Answered {
    let count = log.checkpoint().length();
    if count > entries.len() || entries.len() > GREATEST_LENGTH {
        return Err(Fault::Broken(Promise::NextNode));
    }
    push_all(log, &entries[count..])?;
    Ok(())
}
