//! The message `StackLog`.
ghost use Rattle.std.specs.Prelude.{IfOk};
ghost use Rattle.warg_protobuf.specs.Spelled.{Decodes, IsEncoded};

use crate::error::WireError;
use crate::field::Field;
use crate::log_proof_bundle::HashEntry;
use crate::message::{Message, add_message, encode_message, push_messages, read_message};
use crate::writer::push_uint32;
use std::alloc::{AllocError, Allocator, Global};

/// The image of a log that keeps its balanced roots.
#[derive_where(PartialEq)]
#[derive(Drop)]
pub struct StackLog<A: Allocator = Global> {
    /// The log's length, in entries.
    pub length: u32,
    /// The balanced roots, from left to right.
    pub stack: Vec<HashEntry<A>, A>,
}

#[tactic(auto, unfolding(crate::specs::StackLog::stack_schema, crate::specs::StackLog::stack_add, crate::specs::StackLog::stack_fields, crate::specs::Schema::last_of, crate::specs::Schema::values))]
impl<A: Allocator + Copy> Message<A> for StackLog<A> {
    ghost use Rattle.warg_protobuf.specs.StackLog.{StackImage, stack_view, stack_schema, stack_add, stack_fields, StackFits};
    ghost use Rattle.warg_protobuf.specs.Private.Adds.{stack_adds};

    ghost Seen = { StackImage };

    ghost view = { stack_view };

    ghost schema = { stack_schema };

    ghost add = { stack_add };

    ghost fields = { stack_fields };

    ghost Fits = { StackFits };

    fn empty(alloc: A) -> Self {
        StackLog {
            length: 0,
            stack: Vec::new(alloc),
        }
    }

    fn put(&mut self, alloc: A, field: Field<'_>) -> Result<(), WireError> {
        match field.number {
            1 => self.length = field.payload.uint32()?,
            2 => return add_message(alloc, field.payload, &mut self.stack),
            _ => {}
        }
        Ok(())
    }

    fn push_to(&self, alloc: A, out: &mut Vec<u8, A>) -> Result<(), AllocError> {
        push_uint32(out, 1, self.length)?;
        push_messages(alloc, out, 2, &self.stack)
    }

    ghost adds = { stack_adds };
}

impl<A: Allocator + Copy> StackLog<A> {
    ghost use Rattle.warg_protobuf.specs.StackLog.{stack_view, stack_schema, stack_bytes};

    /// Reads the message that the bytes spell.
    ///
    /// # Errors
    ///
    /// The first fault of the bytes ([`WireError`]), or `Memory` where allocation failed. Memory grows with
    /// the bytes read, and never by a length that they announce.
    pub fn decode(alloc: A, bytes: &[u8]) -> Result<Self, WireError>
        ensures { Decodes stack_schema stack_view bytes.now result }
    {
        read_message(alloc, bytes)
    }

    /// Writes the message in its one written form. The message stays as it was.
    ///
    /// # Errors
    ///
    /// `AllocError` where allocation failed.
    pub fn encode(&self, alloc: A) -> Result<Vec<u8, A>, AllocError>
        ensures { IfOk result (λ v. IsEncoded stack_schema stack_bytes (stack_view self.now) v.items) }
    {
        encode_message(alloc, self)
    }
}
