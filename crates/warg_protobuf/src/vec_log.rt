//! The message `VecLog`.
ghost use Rattle.std.specs.Prelude.{IfOk};
ghost use Rattle.warg_protobuf.specs.Spelled.{Decodes, IsEncoded};

use crate::digest_bytes::DigestBytes;
use crate::error::WireError;
use crate::field::Field;
use crate::message::{Message, encode_message, read_message};
use crate::writer::{push_repeated, push_uint32};
use std::alloc::{AllocError, Allocator, Global};

/// The image of a log that keeps the digests of all its nodes.
#[derive_where(PartialEq)]
#[derive(Drop)]
pub struct VecLog<A: Allocator = Global> {
    /// The log's length, in entries.
    pub length: u32,
    /// The digest of each node, by its number.
    pub tree: Vec<DigestBytes<A>, A>,
}

#[tactic(auto, unfolding(crate::specs::VecLog::vec_schema, crate::specs::VecLog::vec_add, crate::specs::VecLog::vec_fields, crate::specs::Schema::last_of, crate::specs::Schema::values))]
impl<A: Allocator + Copy> Message<A> for VecLog<A> {
    ghost use Rattle.warg_protobuf.specs.VecLog.{VecImage, vec_view, vec_schema, vec_add, vec_fields, VecFits};
    ghost use Rattle.warg_protobuf.specs.Private.Adds.{vec_adds};

    ghost Seen = { VecImage };

    ghost view = { vec_view };

    ghost schema = { vec_schema };

    ghost add = { vec_add };

    ghost fields = { vec_fields };

    ghost Fits = { VecFits };

    fn empty(alloc: A) -> Self {
        VecLog {
            length: 0,
            tree: Vec::new(alloc),
        }
    }

    fn put(&mut self, alloc: A, field: Field<'_>) -> Result<(), WireError> {
        match field.number {
            1 => self.length = field.payload.uint32()?,
            2 => {
                let digest = DigestBytes::from_slice(alloc, field.payload.bytes()?)?;
                self.tree.push(digest)?
            }
            _ => {}
        }
        Ok(())
    }

    fn push_to(&self, _alloc: A, out: &mut Vec<u8, A>) -> Result<(), AllocError> {
        push_uint32(out, 1, self.length)?;
        push_repeated(out, 2, &self.tree)
    }

    ghost adds = { vec_adds };
}

impl<A: Allocator + Copy> VecLog<A> {
    ghost use Rattle.warg_protobuf.specs.VecLog.{vec_view, vec_schema, vec_bytes};

    /// Reads the message that the bytes spell.
    ///
    /// # Errors
    ///
    /// The first fault of the bytes ([`WireError`]), or `Memory` where allocation failed. Memory grows with
    /// the bytes read, and never by a length that they announce.
    pub fn decode(alloc: A, bytes: &[u8]) -> Result<Self, WireError>
        ensures { Decodes vec_schema vec_view bytes.now result }
    {
        read_message(alloc, bytes)
    }

    /// Writes the message in its one written form. The message stays as it was.
    ///
    /// # Errors
    ///
    /// `AllocError` where allocation failed.
    pub fn encode(&self, alloc: A) -> Result<Vec<u8, A>, AllocError>
        ensures { IfOk result (λ v. IsEncoded vec_schema vec_bytes (vec_view self.now) v.items) }
    {
        encode_message(alloc, self)
    }
}
