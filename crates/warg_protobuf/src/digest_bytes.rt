//! A digest's bytes, as the messages hold them.

ghost use Rattle.std.specs.Prelude.{◌≡◌, IfOk};

use std::alloc::{AllocError, Allocator, Global};
use std::marker::Model;

/// A digest's bytes, of any length on the wire. Where they are 32, they allocate nothing of their own.
#[derive(Drop)]
pub struct DigestBytes<A: Allocator = Global> {
    stored: Stored<A>,
}

// Where the bytes lie: beside each other in place, or in a list.
#[derive(Drop)]
pub(crate) enum Stored<A: Allocator> {
    Array([u8; 32]),
    List(Vec<u8, A>),
}

// Contracts see the list of the bytes.
impl<A: Allocator> Model for DigestBytes<A> {
    ghost use Rattle.std.specs.Prelude.{ℕ, List};
    ghost use Rattle.warg_protobuf.specs.Private.Stored.{stored_bytes};

    ghost Value = { List ℕ };

    ghost view = { λ d. stored_bytes d.stored };
}

/// By the bytes alone.
impl<A: Allocator> PartialEq for DigestBytes<A> {
    ghost use Rattle.std.specs.Prelude.{nat_eq};
    ghost use Rattle.std.specs.Cmp.Lexicographic.{pointwise};
    ghost use Rattle.std.specs.Cmp.Rules.{comparing};
    ghost use Rattle.std.proofs.Common.{rules};

    ghost eq = { pointwise nat_eq };

    ghost laws = { Prim.search (comparing, rules) };

    fn eq(&self, other: &DigestBytes<A>) -> bool {
        self.as_slice() == other.as_slice()
    }
}

impl<A: Allocator> Eq for DigestBytes<A> {
    ghost use Rattle.std.specs.Cmp.Rules.{comparing};
    ghost use Rattle.std.proofs.Common.{rules};

    ghost laws = { Prim.search (comparing, rules) };
}

#[tactic(auto, unfolding(crate::specs::Private::Stored::stored_bytes))]
impl<A: Allocator> DigestBytes<A> {
    /// These 32 bytes, which does not allocate.
    pub fn from_array(bytes: [u8; 32]) -> Self
        ensures { result ≡ bytes }
    {
        DigestBytes {
            stored: Stored::Array(bytes),
        }
    }

    /// A copy of these bytes. `AllocError` where allocation failed, and never for 32 bytes.
    pub fn from_slice(alloc: A, bytes: &[u8]) -> Result<Self, AllocError>
        ensures { IfOk result (λ digest. digest ≡ bytes.now) }
    {
        match <[u8; 32]>::try_from(bytes) {
            Ok(array) => Ok(DigestBytes::from_array(array)),
            Err(_) => Ok(DigestBytes {
                stored: Stored::List(Vec::from_slice(alloc, bytes)?),
            }),
        }
    }

    /// The bytes.
    pub fn as_slice(&self) -> &[u8]
        ensures { result.now ≡ self.now }
    {
        match &self.stored {
            Stored::Array(bytes) => bytes.as_slice(),
            Stored::List(bytes) => bytes.as_slice(),
        }
    }
}
