//! Images of logs at the ends of what a message can hold.

use crate::digests::{all, bytes_of};
use refusing::Refusing;
use std::alloc::Allocator;
use warg_crypto::Sha256;
use warg_log::{LogBuilder, StackLog, VecLog};
use warg_protobuf::{DecodeError, EncodeError};

type Stack<A> = StackLog<Sha256, u8, A>;

// Whether the bytes are no stack log.
fn are_no_stack<A: Allocator + Copy>(alloc: A, bytes: &Vec<u8>) -> bool {
    let stack: Result<Stack<A>, _> = StackLog::from_protobuf(alloc, bytes);
    matches!(stack, Err(DecodeError::NotAStack))
}

// Whether they are no log that holds every digest.
fn are_no_log<A: Allocator + Copy>(alloc: A, bytes: &Vec<u8>) -> bool {
    let log: Result<VecLog<Sha256, u8, A>, _> = VecLog::from_protobuf(alloc, bytes);
    matches!(log, Err(DecodeError::NotALog))
}

// A length that is announced asks for no memory.
#[test]
fn announced_lengths_without_memory(rt: HostRuntime) {
    let bytes = bytes_of(&rt, "08ffffffff0f");
    let none = Refusing::after(rt.alloc(), 0);
    assert!(rt; are_no_stack(&none, &bytes) && are_no_log(&none, &bytes));
    assert!(rt; !none.has_refused());
}

// Whether the log has one entry more and no message.
fn is_too_large<A: Allocator + Copy>(log: &Stack<A>) -> bool {
    let before = log.checkpoint();
    all(&[
        matches!(log.to_protobuf(), Err(EncodeError::TooLarge)),
        matches!(log.to_message(), Err(EncodeError::TooLarge)),
        log.length() == (1 << 31) + 1,
        log.checkpoint() == before,
    ])
}

// 2^31 entries have one balanced root, whose number is 2^31 - 1; one entry more has number 2^32.
#[test]
fn the_greatest_stack_log(rt: HostRuntime) {
    let bytes = bytes_of(&rt, "088080808008 1228 08ffffffff07 1220 L0");
    let memory = Refusing::after(rt.alloc(), 99);
    let mut log = Stack::from_protobuf(&memory, &bytes).expect(&rt, "a log");
    let written = log.to_protobuf().expect(&rt, "a message");
    assert!(rt; written.as_slice() == bytes.as_slice() && log.length() == 1 << 31);
    let root = log.checkpoint().root().copied();
    assert!(rt; log.append(&0).is_ok());
    memory.exhaust();
    assert!(rt; is_too_large(&log) && log.checkpoint().root() != root);
    assert!(rt; !memory.has_refused());
}
