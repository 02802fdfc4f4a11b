//! The message `MapInclusionProof`.
ghost use Rattle.std.specs.Prelude.{ℕ, List, Option};

use crate::error::WireError;
use crate::field::Field;
use crate::message::{Message, add_message, push_messages};
use crate::optional_hash::OptionalHash;
use std::alloc::{AllocError, Allocator, Global};

/// A proof for one key of a map: its peers, from bottom to top.
#[derive_where(PartialEq)]
#[derive(Drop)]
pub struct MapInclusionProof<A: Allocator = Global> {
    /// The peers; an absent one stands for an empty tree.
    pub hashes: Vec<OptionalHash<A>, A>,
}

#[tactic(auto, unfolding(crate::specs::MapInclusionProof::proof_schema, crate::specs::MapInclusionProof::proof_add, crate::specs::MapInclusionProof::proof_fields, crate::specs::Schema::values))]
impl<A: Allocator + Copy> Message<A> for MapInclusionProof<A> {
    ghost use Rattle.warg_protobuf.specs.MapInclusionProof.{proof_view, proof_schema, proof_add, proof_fields};
    ghost use Rattle.warg_protobuf.specs.Private.Adds.{proof_adds};

    ghost Seen = { List (Option (List ℕ)) };

    ghost view = { proof_view };

    ghost schema = { proof_schema };

    ghost add = { proof_add };

    ghost fields = { proof_fields };

    ghost Fits = { λ m. Unit {0} };

    fn empty(alloc: A) -> Self {
        MapInclusionProof {
            hashes: Vec::new(alloc),
        }
    }

    fn put(&mut self, alloc: A, field: Field<'_>) -> Result<(), WireError> {
        match field.number {
            1 => add_message(alloc, field.payload, &mut self.hashes),
            _ => Ok(()),
        }
    }

    fn push_to(&self, alloc: A, out: &mut Vec<u8, A>) -> Result<(), AllocError> {
        push_messages(alloc, out, 1, &self.hashes)
    }

    ghost adds = { proof_adds };
}
