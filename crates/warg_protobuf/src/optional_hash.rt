//! The message `OptionalHash`.
ghost use Rattle.std.specs.Prelude.{ℕ, List, Option};

use crate::error::WireError;
use crate::field::Field;
use crate::message::Message;
use crate::writer::push_delimited;
use std::alloc::{AllocError, Allocator, Global};

/// A digest that may be absent.
#[derive_where(PartialEq)]
#[derive(Drop)]
pub struct OptionalHash<A: Allocator = Global> {
    /// The digest, of any length on the wire; an empty one isn't an absent one.
    pub hash: Option<Vec<u8, A>>,
}

#[tactic(auto, unfolding(crate::specs::OptionalHash::hash_schema, crate::specs::OptionalHash::hash_add, crate::specs::Schema::last_of, crate::specs::Schema::values))]
impl<A: Allocator + Copy> Message<A> for OptionalHash<A> {
    ghost use Rattle.warg_protobuf.specs.OptionalHash.{hash_view, hash_schema, hash_add, hash_fields};
    ghost use Rattle.warg_protobuf.specs.Private.Adds.{hash_adds};

    ghost Seen = { Option (List ℕ) };

    ghost view = { hash_view };

    ghost schema = { hash_schema };

    ghost add = { hash_add };

    ghost fields = { hash_fields };

    ghost Fits = { λ m. Unit {0} };

    fn empty(_alloc: A) -> Self {
        OptionalHash { hash: None }
    }

    fn put(&mut self, alloc: A, field: Field<'_>) -> Result<(), WireError> {
        match field.number {
            1 => self.hash = Some(Vec::from_slice(alloc, field.payload.bytes()?)?),
            _ => {}
        }
        Ok(())
    }

    fn push_to(&self, _alloc: A, out: &mut Vec<u8, A>) -> Result<(), AllocError> {
        match &self.hash {
            Some(hash) => push_delimited(out, 1, hash),
            None => Ok(()),
        }
    }

    ghost adds = { hash_adds };
}
