//! Collisions, and what a witness found.

ghost use Rattle.std.specs.Prelude.{◌≡◌, ℕ, List, IfOk};
ghost use Rattle.warg_crypto.specs.Collisions.{Collides};

use std::alloc::{AllocError, Allocator, Global};
use std::marker::{Model, PhantomData};
use warg_crypto::{SupportedDigest, VisitBytes, bytes_of};

/// Two byte strings that differ and have equal digests.
#[derive(Drop)]
pub struct Collision<D: SupportedDigest, A: Allocator = Global> {
    first: Vec<u8, A>,
    second: Vec<u8, A>,
    of: PhantomData<D>,
}

// Contracts see the pair of the two byte strings.
impl<D: SupportedDigest, A: Allocator> Model for Collision<D, A> {
    ghost use Rattle.std.specs.Prelude.{ℕ, List};
    ghost use Rattle.warg_crypto.specs.Collisions.{Collides};

    ghost Value = { List ℕ × List ℕ };

    ghost view = { λ c. (c.first.items, c.second.items) };

    ghost invariant = { λ c. Collides D.digest (c.first.items, c.second.items) };
}

/// By both byte strings, each with the one in its place.
impl<D: SupportedDigest, A: Allocator> PartialEq for Collision<D, A> {
    ghost use Rattle.std.specs.Prelude.{◌≡◌, ◌↔◌, IsTrue};
    ghost use Rattle.std.specs.Cmp.Rules.{comparing};
    ghost use Rattle.std.proofs.Common.{rules};
    ghost use Rattle.warg_witness.specs.Collisions.{same_collision};

    ghost eq = { same_collision };

    ghost laws = { Prim.search (comparing, rules) };

    fn eq(&self, other: &Collision<D, A>) -> bool
        ensures value { result ≡ same_collision self.now other.now }
        ensures exact { IsTrue result ↔ (self.now ≡ other.now) }
    {
        self.first == other.first && self.second == other.second
    }
}

impl<D: SupportedDigest, A: Allocator> Eq for Collision<D, A> {
    ghost use Rattle.std.specs.Cmp.Rules.{comparing};
    ghost use Rattle.std.proofs.Common.{rules};

    ghost laws = { Prim.search (comparing, rules) };
}

impl<D: SupportedDigest, A: Allocator + Copy> Collision<D, A> {
    // The collision of two values, by their bytes.
    pub(crate) fn of<V: VisitBytes, W: VisitBytes>(
        alloc: A,
        first: &V,
        second: &W,
    ) -> Result<Collision<D, A>, AllocError>
        requires { Collides D.digest (V.bytes first.now, W.bytes second.now) }
        ensures { IfOk result (λ c. c ≡ (V.bytes first.now, W.bytes second.now)) }
    {
        Ok(Collision {
            first: bytes_of(alloc, first)?,
            second: bytes_of(alloc, second)?,
            of: PhantomData,
        })
    }
}

impl<D: SupportedDigest, A: Allocator> Collision<D, A> {
    /// The first byte string. It differs from the second one, and both have one digest.
    pub fn first(&self) -> &[u8]
        ensures value { result.now ≡ self.now.0 }
        ensures differ { self.now.0 ≡ self.now.1 → ⊥ }
        ensures same { D.digest self.now.0 ≡ D.digest self.now.1 }
    {
        self.first.as_slice()
    }

    /// The second byte string. It differs from the first one, and both have one digest.
    pub fn second(&self) -> &[u8]
        ensures value { result.now ≡ self.now.1 }
        ensures differ { self.now.0 ≡ self.now.1 → ⊥ }
        ensures same { D.digest self.now.0 ≡ D.digest self.now.1 }
    {
        self.second.as_slice()
    }
}

/// What a witness found.
#[derive_where(PartialEq, Eq)]
#[derive(Drop)]
pub enum Finding<D: SupportedDigest, A: Allocator = Global> {
    /// The claim is met, and it is true.
    Holds,
    /// The claim isn't met: the evaluation fails, or leads to another root.
    NotMet,
    /// The claim is met and false.
    Collision(Collision<D, A>),
}
