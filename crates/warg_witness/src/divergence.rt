//! Two evaluations that go up one way side by side, where they diverge, and the collision that they show there.

ghost use Rattle.std.specs.Prelude.{◌≡◌, None, Ok, IfOk, IfSome, MatchOption};
ghost use Rattle.warg_crypto.specs.Collisions.{Collides};
ghost use Rattle.warg_crypto.specs.Tree.{input_beside, leaf_input};
ghost use Rattle.warg_witness.specs.Private.Turns.{IsUp};
ghost use Rattle.warg_witness.specs.Private.Divergence.{inputs, inputs_of, at_bottom};
ghost use Rattle.warg_witness.specs.Private.Agreement.{IsCompared};

use crate::collision::{Collision, Finding};
use std::alloc::{AllocError, Allocator};
use warg_crypto::{Branch, Hash, Leaf, SupportedDigest, VisitBytes, hash_branch, have_same_bytes};

/// Where two evaluations diverge that have one digest at a range.
#[derive(Drop)]
pub(crate) enum Divergence<D> {
    /// Nowhere: they have one digest at the target too.
    Target,
    /// At their branches over one range.
    Branch(Branches<D>),
}

/// Two evaluations' branches over one range: of each the digest to which it comes on the way, and the one beside it.
#[derive(Drop)]
pub(crate) struct Branches<D> {
    /// Whether the way is on the right.
    pub(crate) right: bool,
    pub(crate) first: Hash<D>,
    pub(crate) first_beside: Hash<D>,
    pub(crate) second: Hash<D>,
    pub(crate) second_beside: Hash<D>,
}

impl<D: SupportedDigest> Branches<D> {
    /// The collision of both branches.
    pub(crate) fn collide<A: Allocator + Copy>(
        &self,
        alloc: A,
    ) -> Result<Collision<D, A>, AllocError>
        requires { Collides D.digest (inputs self.now) }
        ensures { IfOk result (λ c. c ≡ inputs self.now) }
    {
        if self.right {
            let first = Branch(&self.first_beside, &self.first);
            Collision::of(alloc, &first, &Branch(&self.second_beside, &self.second))
        } else {
            let first = Branch(&self.first, &self.first_beside);
            Collision::of(alloc, &first, &Branch(&self.second, &self.second_beside))
        }
    }
}

impl<D: SupportedDigest> Divergence<D> {
    /// The collision where the evaluations diverge, or that of what they take at the target.
    pub(crate) fn collide<V: VisitBytes, W: VisitBytes, A: Allocator + Copy>(
        &self,
        alloc: A,
        first: &V,
        second: &W,
    ) -> Result<Collision<D, A>, AllocError>
        requires { Collides D.digest (inputs_of self.now (V.bytes first.now) (W.bytes second.now)) }
        ensures { IfOk result (λ c. c ≡ inputs_of self.now (V.bytes first.now) (W.bytes second.now)) }
    {
        match self {
            Divergence::Target => Collision::of(alloc, first, second),
            Divergence::Branch(branches) => branches.collide(alloc),
        }
    }
}

/// Whether two values have the same bytes, where the evaluations from their leaves meet, and else the collision where these
/// diverge.
pub(crate) fn compare_values<D: SupportedDigest, V: VisitBytes, A: Allocator + Copy>(
    alloc: A,
    met: &Option<Divergence<D>>,
    first: &V,
    second: &V,
) -> Result<Finding<D, A>, AllocError>
    requires { IfSome met.now (λ p. (V.bytes first.now ≡ V.bytes second.now → ⊥) → Collides D.digest
        (inputs_of p (leaf_input (V.bytes first.now)) (leaf_input (V.bytes second.now)))) }
    ensures unmet { met.now ≡ None → result ≡ Ok Finding.NotMet }
    ensures found { IfOk result (IsCompared met.now (V.bytes first.now) (V.bytes second.now)) }
{
    let Some(divergence) = met else {
        return Ok(Finding::NotMet);
    };
    if have_same_bytes(first, second)? {
        return Ok(Finding::Holds);
    }
    let pair = divergence.collide(alloc, &Leaf(first), &Leaf(second))?;
    Ok(Finding::Collision(pair))
}

/// Two evaluations along one way, as far as they have come up from the bottom.
#[derive(Drop)]
pub(crate) struct Climb<D> {
    pub(crate) first: Hash<D>,
    pub(crate) second: Hash<D>,
    /// Where they diverge, seen from here, if both digests are one.
    pub(crate) divergence: Divergence<D>,
}

impl<D: SupportedDigest> Climb<D> {
    /// Both evaluations at the bottom.
    pub(crate) fn new(first: Hash<D>, second: Hash<D>) -> Climb<D>
        ensures { result ≡ at_bottom first second }
    {
        Climb {
            first,
            second,
            divergence: Divergence::Target,
        }
    }

    /// One branch up: on the right of the digests beside them, or on the left.
    pub(crate) fn up(self, right: bool, first_beside: &Hash<D>, second_beside: &Hash<D>) -> Climb<D>
        ensures { IsUp D.digest right self first_beside.now second_beside.now result }
    {
        prove_eq!(self.first.len(), self.second.len());
        prove_eq!(first_beside.len(), second_beside.len());
        Climb {
            first: branch_beside(right, &self.first, first_beside),
            second: branch_beside(right, &self.second, second_beside),
            divergence: if (&self.first, first_beside) == (&self.second, second_beside) {
                self.divergence
            } else {
                Divergence::Branch(Branches {
                    right,
                    first: self.first,
                    first_beside: first_beside.copied(),
                    second: self.second,
                    second_beside: second_beside.copied(),
                })
            },
        }
    }

    /// Where they diverge, or None where they have come to two digests.
    #[tactic(auto, using(crate::proofs::HashLemmas::meets))]
    pub(crate) fn met(self) -> Option<Divergence<D>>
        ensures { MatchOption result (¬ (self.first ≡ self.second))
            (λ p. (self.first ≡ self.second) × (p ≡ self.divergence)) }
    {
        if self.first == self.second {
            Some(self.divergence)
        } else {
            None
        }
    }
}

// The digest of the branch over a digest on the right of the one beside it, or on the left.
fn branch_beside<D: SupportedDigest>(right: bool, digest: &Hash<D>, beside: &Hash<D>) -> Hash<D>
    ensures { result ≡ D.digest (input_beside right beside.now digest.now) }
{
    if right {
        hash_branch(beside, digest)
    } else {
        hash_branch(digest, beside)
    }
}
