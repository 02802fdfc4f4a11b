//! Stack logs as messages and bytes.

ghost use Rattle.std.specs.Prelude.{◌≡◌, ◌≢◌, ◌^◌, ◌≤◌, ◌↔◌, ◌⊎◌, nat_eq, length, map, Some, None, Ok, Err, IfOk, IfErr, OnOk};
ghost use Rattle.std.specs.List.{AllByRecursion, zip};
ghost use Rattle.std.specs.Cmp.Lexicographic.{pointwise};
ghost use Rattle.warg_protobuf.specs.declared.error.WireError.TheVariants as wire;
ghost use Rattle.warg_protobuf.specs.HashEntry.{entry_view};
ghost use Rattle.warg_protobuf.specs.StackLog.{stack_view, stack_bytes};
ghost use Rattle.warg_log.specs.Nodes.{balanced_roots};
ghost use Rattle.warg_log.specs.Blocks.{Blocks};
ghost use Rattle.warg_protobuf.specs.Reading.{Answers};
ghost use Rattle.warg_protobuf.specs.Decoding.{first_fault, digest_fault};
ghost use Rattle.warg_log.specs.Images.{root_entry, RootsFit, stack_message, stack_in, stack_of};

use crate::balanced_roots::BalancedRoots;
use crate::log::GREATEST_LENGTH;
use crate::stack_log::StackLog;
use std::alloc::{AllocError, Allocator};
use std::marker::PhantomData;
use warg_crypto::{Hash, SupportedDigest, VisitBytes};
use warg_protobuf::{DecodeError, EncodeError, HashEntry, StackLog as Message};

// The greatest length of which each balanced root's number fits in 32 bits.
const GREATEST_IMAGE: usize = 1 << 31;

impl<D: SupportedDigest, V: VisitBytes, A: Allocator + Copy> StackLog<D, V, A> {
    /// The log that a message holds.
    ///
    /// The errors: `HashLength` where a digest of the stack doesn't have 32 bytes; then `NotAStack` where the
    /// entries' numbers aren't the balanced roots of the length, in order. Memory grows with the entries that
    /// are there, and never by the length.
    pub fn from_message(alloc: A, message: Message<A>) -> Result<Self, DecodeError>
        ensures exact { Answers DecodeError.Memory result (stack_in (stack_view message)) }
        ensures message { IfOk result (λ log. stack_message log ≡ stack_view message) }
        ensures none { result ≡ Err DecodeError.NotAStack → (b : Blocks)
            → length b.digests ≡ length (balanced_roots b.len)
            → stack_message b ≢ stack_view message }
        ensures wire { (e : _) → result ≢ Err (DecodeError.Wire e) }
    {
        let digests = read_blocks(alloc, message.stack.as_slice())?;
        let count = message.length as usize;
        if !are_roots(message.stack.as_slice(), count) {
            return Err(DecodeError::NotAStack);
        }
        Ok(StackLog {
            count,
            blocks: digests,
            of: PhantomData,
        })
    }

    /// Reads a log from the bytes of its message: the first fault of the message, and then that of
    /// [`StackLog::from_message`], is the error.
    pub fn from_protobuf(alloc: A, bytes: &[u8]) -> Result<Self, DecodeError>
        ensures exact { Answers DecodeError.Memory result (stack_of bytes.now) }
        ensures wire { result ≢ Err (DecodeError.Wire wire.Memory) }
    {
        let message = Message::decode(alloc, bytes)?;
        StackLog::from_message(alloc, message)
    }

    /// The log's message, which holds the same log. `TooLarge` exactly if the length or a balanced root's
    /// number is above `u32::MAX`, which is above 2^31 entries, before allocating.
    pub fn to_message(&self) -> Result<Message<A>, EncodeError>
        ensures ok { IfOk result (λ message. stack_view message ≡ stack_message self.now) }
        ensures again { IfOk result (λ message. stack_in (stack_view message) ≡ Ok self.now) }
        ensures too_large { (result ≡ Err EncodeError.TooLarge) ↔ ¬ RootsFit self.now }
        ensures fits { OnOk result (RootsFit self.now) }
    {
        if self.count > GREATEST_IMAGE {
            return Err(EncodeError::TooLarge);
        }
        let alloc = *self.blocks.allocator();
        let stack = entries(alloc, self.count, self.blocks.as_slice())?;
        Ok(Message {
            length: self.count as u32,
            stack,
        })
    }

    /// Writes the bytes of the log's message, which are read as the same log. `TooLarge` exactly if the
    /// length or a balanced root's number is above `u32::MAX`, which is above 2^31 entries, before allocating.
    pub fn to_protobuf(&self) -> Result<Vec<u8, A>, EncodeError>
        ensures written { IfOk result (λ bytes.
            bytes.items ≡ stack_bytes (stack_message self.now)) }
        ensures again { IfOk result (λ bytes. stack_of bytes.items ≡ Ok self.now) }
        ensures too_large { (result ≡ Err EncodeError.TooLarge) ↔ ¬ RootsFit self.now }
        ensures fits { OnOk result (RootsFit self.now) }
    {
        let message = self.to_message()?;
        Ok(message.encode(*self.blocks.allocator())?)
    }
}

// The digests of these entries.
fn read_blocks<D, A: Allocator>(
    alloc: A,
    entries: &[HashEntry<A>],
) -> Result<Vec<Hash<D>, A>, DecodeError>
    ensures ok { IfOk result (λ hashes.
        hashes.items ≡ map (λ e. e.hash) (map entry_view entries.now)) }
    ensures good { IfOk result (λ hashes. first_fault digest_fault
        (map (λ e. e.hash) (map entry_view entries.now)) ≡ None) }
    ensures fault { IfErr result (λ e. (e ≡ DecodeError.Memory)
        ⊎ ((e ≡ DecodeError.HashLength) × (first_fault digest_fault
        (map (λ e. e.hash) (map entry_view entries.now)) ≡ Some e))) }
{
    let mut hashes = Vec::new(alloc);
    'entries: for entry in entries {
        let hash = Hash::try_from(entry.hash.as_slice())?;
        hashes.push(hash)?;
    }
    Ok(hashes)
}

// Whether the numbers of these entries are the balanced roots of a length, in order.
fn are_roots<A: Allocator>(entries: &[HashEntry<A>], count: usize) -> bool
    requires { count ≤ GREATEST_LENGTH }
    ensures { result ≡ pointwise nat_eq (map (λ e. e.index) (map entry_view entries.now))
        (balanced_roots count) }
{
    let mut roots = BalancedRoots::of(count);
    'entries: for entry in entries {
        match roots.next() {
            Some(root) if root.0 == entry.index as usize => (),
            _ => return false,
        }
    }
    roots.next().is_none()
}

// The entries of the balanced roots of a length, with these digests.
fn entries<D, A: Allocator + Copy>(
    alloc: A,
    count: usize,
    blocks: &[Hash<D>],
) -> Result<Vec<HashEntry<A>, A>, AllocError>
    requires fits { count ≤ 2 ^ 31 }
    requires count { length blocks.now ≡ length (balanced_roots count) }
    ensures entries { IfOk result (λ entries.
        map entry_view entries.items ≡ map root_entry (zip (balanced_roots count) blocks.now)) }
    ensures lengths { IfOk result (λ entries. AllByRecursion (λ d. length d ≡ 32) blocks.now) }
{
    let mut entries = Vec::new(alloc);
    let mut roots = BalancedRoots::of(count);
    'blocks: for block in blocks {
        let Some(root) = roots.next() else {
            unreachable!()
        };
        let written = HashEntry::new(alloc, root.0 as u32, block)?;
        entries.push(written)?;
    }
    Ok(entries)
}
