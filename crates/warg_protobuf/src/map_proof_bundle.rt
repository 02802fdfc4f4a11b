//! The message `MapProofBundle`.
ghost use Rattle.std.specs.Prelude.{IfOk};
ghost use Rattle.warg_protobuf.specs.Spelled.{Decodes, IsEncoded};

use crate::error::WireError;
use crate::field::Field;
use crate::map_inclusion_proof::MapInclusionProof;
use crate::message::{Message, add_message, encode_message, push_messages, read_message};
use std::alloc::{AllocError, Allocator, Global};

/// Proofs of a map: of keys that it holds, and of keys that it doesn't hold.
#[derive_where(PartialEq)]
#[derive(Drop)]
pub struct MapProofBundle<A: Allocator = Global> {
    /// The proofs of keys that are held.
    pub proofs: Vec<MapInclusionProof<A>, A>,
    /// The proofs of keys that are absent.
    pub absences: Vec<MapInclusionProof<A>, A>,
}

#[tactic(auto, unfolding(crate::specs::MapProofBundle::map_schema, crate::specs::MapProofBundle::map_add, crate::specs::MapProofBundle::map_fields, crate::specs::Schema::values))]
impl<A: Allocator + Copy> Message<A> for MapProofBundle<A> {
    ghost use Rattle.warg_protobuf.specs.MapProofBundle.{MapBundle, map_view, map_schema, map_add, map_fields};
    ghost use Rattle.warg_protobuf.specs.Private.Adds.{map_adds};

    ghost Seen = { MapBundle };

    ghost view = { map_view };

    ghost schema = { map_schema };

    ghost add = { map_add };

    ghost fields = { map_fields };

    ghost Fits = { λ m. Unit {0} };

    fn empty(alloc: A) -> Self {
        MapProofBundle {
            proofs: Vec::new(alloc),
            absences: Vec::new(alloc),
        }
    }

    fn put(&mut self, alloc: A, field: Field<'_>) -> Result<(), WireError> {
        match field.number {
            1 => add_message(alloc, field.payload, &mut self.proofs),
            2 => add_message(alloc, field.payload, &mut self.absences),
            _ => Ok(()),
        }
    }

    fn push_to(&self, alloc: A, out: &mut Vec<u8, A>) -> Result<(), AllocError> {
        push_messages(alloc, out, 1, &self.proofs)?;
        push_messages(alloc, out, 2, &self.absences)
    }

    ghost adds = { map_adds };
}

impl<A: Allocator + Copy> MapProofBundle<A> {
    ghost use Rattle.warg_protobuf.specs.MapProofBundle.{map_view, map_schema, map_bytes};

    /// Reads the message that the bytes spell.
    ///
    /// # Errors
    ///
    /// The first fault of the bytes ([`WireError`]), or `Memory` where allocation failed. Memory grows with
    /// the bytes read, and never by a length that they announce.
    pub fn decode(alloc: A, bytes: &[u8]) -> Result<Self, WireError>
        ensures { Decodes map_schema map_view bytes.now result }
    {
        read_message(alloc, bytes)
    }

    /// Writes the message in its one written form. The message stays as it was.
    ///
    /// # Errors
    ///
    /// `AllocError` where allocation failed.
    pub fn encode(&self, alloc: A) -> Result<Vec<u8, A>, AllocError>
        ensures { IfOk result (λ v. IsEncoded map_schema map_bytes (map_view self.now) v.items) }
    {
        encode_message(alloc, self)
    }
}
