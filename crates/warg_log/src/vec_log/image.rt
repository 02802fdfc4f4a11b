//! Vec logs as messages and bytes.

ghost use Rattle.std.specs.Prelude.{◌≡◌, ◌≢◌, ℕ, ◌-◌, ◌*◌, ◌%◌, ◌^◌, ◌<◌, ◌≤◌, ◌↔◌, ◌⊎◌, List, length, Some, None, Ok, Err, IfOk, IfErr, IsTrue, OnOk};
ghost use Rattle.std.specs.List.{AllByRecursion};
ghost use Rattle.warg_protobuf.specs.declared.error.WireError.TheVariants as wire;
ghost use Rattle.warg_protobuf.specs.VecLog.{vec_view, vec_bytes};
ghost use Rattle.warg_protobuf.specs.Reading.{Answers};
ghost use Rattle.warg_protobuf.specs.Decoding.{first_fault, digest_fault};
ghost use Rattle.warg_log.specs.Images.{vec_message, vec_in, vec_of};
ghost use Rattle.warg_log.specs.Tree.{leaves_in};

use crate::vec_log::VecLog;
use std::alloc::{AllocError, Allocator};
use std::marker::PhantomData;
use warg_crypto::{Hash, SupportedDigest, VisitBytes};
use warg_protobuf::{DecodeError, DigestBytes, EncodeError, VecLog as Message};

impl<D: SupportedDigest, V: VisitBytes, A: Allocator + Copy> VecLog<D, V, A> {
    /// The log that a message holds.
    ///
    /// The errors: `HashLength` where a digest of the tree doesn't have 32 bytes; then `NotALog` where the tree
    /// isn't the slice of a log of the length, whatever its leaf digests: it has `2 * n - 1` digests for a
    /// length `n` above 0, and none for 0; each branch that exists has the digest of its children's, and each
    /// other one that of no bytes. Memory grows with the digests that are there, and never by the length. Each
    /// branch is hashed once.
    pub fn from_message(alloc: A, message: Message<A>) -> Result<Self, DecodeError>
        ensures exact { Answers DecodeError.Memory result (vec_in D.digest (vec_view message)) }
        ensures message { IfOk result (λ log. vec_message D.digest log ≡ vec_view message) }
        ensures none { result ≡ Err DecodeError.NotALog → (ds : List (List ℕ))
            → vec_message D.digest ds ≢ vec_view message }
        ensures wire { (e : _) → result ≢ Err (DecodeError.Wire e) }
    {
        let log = grown(alloc, message.tree.as_slice())?;
        if !log.has_message(&message) {
            return Err(DecodeError::NotALog);
        }
        Ok(log)
    }

    /// Reads a log from the bytes of its message: the first fault of the message, and then that of
    /// [`VecLog::from_message`], is the error.
    pub fn from_protobuf(alloc: A, bytes: &[u8]) -> Result<Self, DecodeError>
        ensures exact { Answers DecodeError.Memory result (vec_of D.digest bytes.now) }
        ensures wire { result ≢ Err (DecodeError.Wire wire.Memory) }
    {
        let message = Message::decode(alloc, bytes)?;
        VecLog::from_message(alloc, message)
    }

    /// The log's message, which holds the same log. `TooLarge` exactly if the length is above `u32::MAX`,
    /// before allocating.
    pub fn to_message(&self) -> Result<Message<A>, EncodeError>
        ensures ok { IfOk result (λ message. vec_view message ≡ vec_message D.digest self.now) }
        ensures again { IfOk result (λ message. vec_in D.digest (vec_view message) ≡ Ok self.now) }
        ensures too_large { (result ≡ Err EncodeError.TooLarge) ↔ (2 ^ 32 ≤ length self.now) }
        ensures fits { OnOk result (length self.now < 2 ^ 32) }
    {
        if self.count > u32::MAX as usize {
            return Err(EncodeError::TooLarge);
        }
        let tree = digests(*self.tree.allocator(), self.tree.as_slice())?;
        Ok(Message {
            length: self.count as u32,
            tree,
        })
    }

    /// Writes the bytes of the log's message, which are read as the same log. `TooLarge` exactly if the
    /// length is above `u32::MAX`, before allocating.
    pub fn to_protobuf(&self) -> Result<Vec<u8, A>, EncodeError>
        ensures written { IfOk result (λ bytes.
            bytes.items ≡ vec_bytes (vec_message D.digest self.now)) }
        ensures again { IfOk result (λ bytes. vec_of D.digest bytes.items ≡ Ok self.now) }
        ensures too_large { (result ≡ Err EncodeError.TooLarge) ↔ (2 ^ 32 ≤ length self.now) }
        ensures fits { OnOk result (length self.now < 2 ^ 32) }
    {
        let message = self.to_message()?;
        Ok(message.encode(*self.tree.allocator())?)
    }

    // Whether the log has this message.
    fn has_message(&self, message: &Message<A>) -> bool
        ensures { IsTrue result ↔ (vec_message D.digest self.now ≡ vec_view message.now) }
    {
        self.count == message.length as usize
            && are_digests(message.tree.as_slice(), self.tree.as_slice())
    }
}

// The log that has the leaf digests of this tree: those at its even places.
fn grown<D: SupportedDigest, V: VisitBytes, A: Allocator>(
    alloc: A,
    tree: &[DigestBytes<A>],
) -> Result<VecLog<D, V, A>, DecodeError>
    ensures ok { IfOk result (λ log. log ≡ leaves_in tree.now) }
    ensures good { IfOk result (λ log. first_fault digest_fault tree.now ≡ None) }
    ensures fault { IfErr result (λ e. (e ≡ DecodeError.Memory)
        ⊎ ((e ≡ DecodeError.HashLength) × (first_fault digest_fault tree.now ≡ Some e))) }
{
    let mut log = VecLog::default(alloc);
    'places: for (place, digest) in tree.iter().enumerate() {
        let hash = Hash::try_from(digest.as_slice())?;
        if place % 2 == 0 {
            log.push_leaf(hash)?;
        }
    }
    Ok(log)
}

// Whether a tree has these digests, in order.
fn are_digests<D, A: Allocator>(digests: &[DigestBytes<A>], tree: &[Hash<D>]) -> bool
    ensures { IsTrue result ↔ (digests.now ≡ tree.now) }
{
    if digests.len() != tree.len() {
        return false;
    }
    'places: for (place, digest) in digests.iter().enumerate() {
        if digest.as_slice() != tree[place].bytes() {
            return false;
        }
    }
    true
}

// The bytes of these digests.
fn digests<D, A: Allocator + Copy>(
    alloc: A,
    tree: &[Hash<D>],
) -> Result<Vec<DigestBytes<A>, A>, AllocError>
    ensures digests { IfOk result (λ digests. digests.items ≡ tree.now) }
    ensures lengths { IfOk result (λ digests. AllByRecursion (λ d. length d ≡ 32) tree.now) }
{
    let mut digests = Vec::new(alloc);
    'places: for hash in tree {
        prove_eq!(hash.len(), 32);
        digests.push(DigestBytes::from_array(*hash.as_ref()))?;
    }
    Ok(digests)
}
