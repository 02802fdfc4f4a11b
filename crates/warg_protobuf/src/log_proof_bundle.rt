//! The message `LogProofBundle`, and `HashEntry`, of which it and `StackLog` have lists.
ghost use Rattle.std.specs.Prelude.{◌≡◌, IfOk, length};
ghost use Rattle.warg_protobuf.specs.Spelled.{Decodes, IsEncoded};

use crate::error::WireError;
use crate::field::Field;
use crate::message::{Message, add_message, encode_message, push_messages, read_message};
use crate::writer::{push_bytes, push_uint32, push_uint32s};
use std::alloc::{AllocError, Allocator, Global};
use warg_crypto::Hash;

/// A digest, and the number of the log's node that has it.
#[derive_where(PartialEq)]
#[derive(Drop)]
pub struct HashEntry<A: Allocator = Global> {
    /// The number of the node.
    pub index: u32,
    /// The digest, of any length on the wire.
    pub hash: Vec<u8, A>,
}

impl<A: Allocator> HashEntry<A> {
    /// The entry of a node's number and digest.
    pub fn new<D>(alloc: A, index: u32, hash: &Hash<D>) -> Result<Self, AllocError>
        ensures index { IfOk result (λ entry. entry.index ≡ index) }
        ensures hash { IfOk result (λ entry. entry.hash.items ≡ hash.now) }
        ensures length { length hash.now ≡ 32 }
    {
        prove_eq!(hash.len(), 32);
        Ok(HashEntry {
            index,
            hash: Vec::from_slice(alloc, hash.bytes())?,
        })
    }
}

#[tactic(auto, unfolding(crate::specs::HashEntry::entry_schema, crate::specs::HashEntry::entry_add, crate::specs::HashEntry::entry_fields, crate::specs::Schema::last_of, crate::specs::Schema::values))]
impl<A: Allocator + Copy> Message<A> for HashEntry<A> {
    ghost use Rattle.warg_protobuf.specs.HashEntry.{Entry, entry_view, entry_schema, entry_add, entry_fields, EntryFits};
    ghost use Rattle.warg_protobuf.specs.Private.Adds.{entry_adds};

    ghost Seen = { Entry };

    ghost view = { entry_view };

    ghost schema = { entry_schema };

    ghost add = { entry_add };

    ghost fields = { entry_fields };

    ghost Fits = { EntryFits };

    fn empty(alloc: A) -> Self {
        HashEntry {
            index: 0,
            hash: Vec::new(alloc),
        }
    }

    fn put(&mut self, alloc: A, field: Field<'_>) -> Result<(), WireError> {
        match field.number {
            1 => self.index = field.payload.uint32()?,
            2 => self.hash = Vec::from_slice(alloc, field.payload.bytes()?)?,
            _ => {}
        }
        Ok(())
    }

    fn push_to(&self, _alloc: A, out: &mut Vec<u8, A>) -> Result<(), AllocError> {
        push_uint32(out, 1, self.index)?;
        push_bytes(out, 2, &self.hash)
    }

    ghost adds = { entry_adds };
}

/// Proofs of a log, and the digests that they need.
#[derive_where(PartialEq)]
#[derive(Drop)]
pub struct LogProofBundle<A: Allocator = Global> {
    /// The length, in entries, of the log that all proofs speak of.
    pub log_length: u32,
    /// The old length of each consistency proof, in entries.
    pub consistent_lengths: Vec<u32, A>,
    /// The node number of each inclusion proof.
    pub included_indices: Vec<u32, A>,
    /// The digests, each with its node number.
    pub hashes: Vec<HashEntry<A>, A>,
}

#[tactic(auto, unfolding(crate::specs::LogProofBundle::log_schema, crate::specs::LogProofBundle::log_add, crate::specs::LogProofBundle::log_fields, crate::specs::Schema::last_of, crate::specs::Schema::values))]
impl<A: Allocator + Copy> Message<A> for LogProofBundle<A> {
    ghost use Rattle.warg_protobuf.specs.LogProofBundle.{LogBundle, log_view, log_schema, log_add, log_fields, LogFits};
    ghost use Rattle.warg_protobuf.specs.Private.Adds.{log_adds};

    ghost Seen = { LogBundle };

    ghost view = { log_view };

    ghost schema = { log_schema };

    ghost add = { log_add };

    ghost fields = { log_fields };

    ghost Fits = { LogFits };

    fn empty(alloc: A) -> Self {
        LogProofBundle {
            log_length: 0,
            consistent_lengths: Vec::new(alloc),
            included_indices: Vec::new(alloc),
            hashes: Vec::new(alloc),
        }
    }

    fn put(&mut self, alloc: A, field: Field<'_>) -> Result<(), WireError> {
        match field.number {
            1 => self.log_length = field.payload.uint32()?,
            2 => return field.payload.add_uint32s(&mut self.consistent_lengths),
            3 => return field.payload.add_uint32s(&mut self.included_indices),
            4 => return add_message(alloc, field.payload, &mut self.hashes),
            _ => {}
        }
        Ok(())
    }

    fn push_to(&self, alloc: A, out: &mut Vec<u8, A>) -> Result<(), AllocError> {
        push_uint32(out, 1, self.log_length)?;
        push_uint32s(alloc, out, 2, &self.consistent_lengths)?;
        push_uint32s(alloc, out, 3, &self.included_indices)?;
        push_messages(alloc, out, 4, &self.hashes)
    }

    ghost adds = { log_adds };
}

impl<A: Allocator + Copy> LogProofBundle<A> {
    ghost use Rattle.warg_protobuf.specs.LogProofBundle.{log_view, log_schema, log_bytes};

    /// Reads the message that the bytes spell.
    ///
    /// # Errors
    ///
    /// The first fault of the bytes ([`WireError`]), or `Memory` where allocation failed. Memory grows with
    /// the bytes read, and never by a length that they announce.
    pub fn decode(alloc: A, bytes: &[u8]) -> Result<Self, WireError>
        ensures { Decodes log_schema log_view bytes.now result }
    {
        read_message(alloc, bytes)
    }

    /// Writes the message in its one written form. The message stays as it was.
    ///
    /// # Errors
    ///
    /// `AllocError` where allocation failed.
    pub fn encode(&self, alloc: A) -> Result<Vec<u8, A>, AllocError>
        ensures { IfOk result (λ v. IsEncoded log_schema log_bytes (log_view self.now) v.items) }
    {
        encode_message(alloc, self)
    }
}
