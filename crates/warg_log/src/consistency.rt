//! Consistency proofs.

ghost use Rattle.std.specs.Prelude.{◌≡◌, ◌≢◌, ⊤, ◌<◌, ◌≤◌, ◌↔◌, ◌⊎◌, IfOk, map};
ghost use Rattle.std.specs.List.{AllByRecursion};
ghost use Rattle.warg_log.specs.Nodes.{balanced_roots, end_of};
ghost use Rattle.warg_log.specs.Ranges.{leaves_from};
ghost use Rattle.warg_log.specs.Consistency.{root_to, agreed_root, new_root_of, consistency};

use crate::balanced_roots::BalancedRoots;
use crate::branches::{BranchCache, range_root_by};
use crate::leaf_range::{LeafRange, stored_root};
use crate::log::{GREATEST_LENGTH, LogData};
use crate::node::Node;
use crate::proof::{InclusionProof, InclusionProofError};
use std::alloc::{AllocError, Allocator};
use std::marker::{Model, PhantomData};
use thiserror::Error;
use warg_crypto::{Hash, SupportedDigest, VisitBytes};

/// Why a consistency proof leads to no roots.
#[derive(Debug, PartialEq, Eq, Drop, Error)]
pub enum ConsistencyProofError {
    /// The old length is above the new one.
    #[error("tries to prove later value comes before earlier")]
    PointsOutOfOrder,
    /// The digest of a balanced root of the old length isn't in the data.
    #[error("a hash needed for evaluation was not available")]
    HashNotKnown,
    /// The inclusion proof of a balanced root of the old length leads to no root.
    #[error("constituent inclusion proof failed")]
    InclusionError(InclusionProofError),
    /// Two balanced roots of the old length lead to different roots.
    #[error("constituent inclusion proofs diverge produce different roots")]
    DivergingRoots,
    /// The old length is zero: the empty log is consistent with every log, and has no digest to show.
    #[error("old length is zero")]
    OldLengthZero,
    /// Memory was refused.
    #[error("out of memory")]
    Memory,
}

impl From<InclusionProofError> for ConsistencyProofError {
    ghost use Rattle.warg_log.specs.declared.consistency.ConsistencyProofError.TheVariants.{InclusionError};

    ghost from_gives = { λ fault result. result ≡ InclusionError fault };

    fn from(fault: InclusionProofError) -> Self {
        ConsistencyProofError::InclusionError(fault)
    }
}

/// The claim that the log of an old length is a beginning of the log of a new one.
///
/// It holds the two lengths, up to 2^63; the digests come from any [`LogData`]. Its evaluation shows
/// that each balanced root of the old length is part of one tree of the new length, and returns the
/// roots of both.
#[derive_where(Debug, PartialEq, Eq)]
pub struct ConsistencyProof<D, V> {
    old_length: usize,
    new_length: usize,
    of: PhantomData<(D, V)>,
}

// Contracts see the proof as its two lengths.
impl<D, V> Model for ConsistencyProof<D, V> {
    ghost use Rattle.warg_log.specs.declared.log.TheConstants.{GREATEST_LENGTH};
    ghost use Rattle.std.specs.Prelude.{◌≤◌};
    ghost use Rattle.warg_log.specs.Claims.{ConsistencyClaim};

    ghost Value = { ConsistencyClaim };

    ghost view = { λ p. record { old_length = p.old_length; new_length = p.new_length } };

    ghost invariant = { λ p. (p.old_length ≤ GREATEST_LENGTH) × (p.new_length ≤ GREATEST_LENGTH) };

    ghost inverse = { λ p. record {
      old_length = p.old_length;
      new_length = p.new_length;
      of = record {};
    } };
}

impl<D, V> Copy for ConsistencyProof<D, V> {}

/// Never refuses: a proof allocates nothing.
impl<D, V> Clone for ConsistencyProof<D, V> {
    ghost is_clone = { λ x y. y ≡ x };

    ghost is_infallible = { λ _. ⊤ };

    fn clone(&self) -> Result<Self, AllocError> {
        Ok(ConsistencyProof::new(self.old_length, self.new_length))
    }
}

impl<D, V> ConsistencyProof<D, V> {
    /// The proof that the log of an old length is a beginning of that of a new one, both at most 2^63.
    pub fn new(old_length: usize, new_length: usize) -> Self
        requires old_fits { old_length ≤ GREATEST_LENGTH }
        requires new_fits { new_length ≤ GREATEST_LENGTH }
        ensures old_length { result.old_length ≡ old_length }
        ensures new_length { result.new_length ≡ new_length }
    {
        ConsistencyProof {
            old_length,
            new_length,
            of: PhantomData,
        }
    }

    /// The old length.
    pub fn old_length(&self) -> usize
        ensures value { result ≡ self.now.old_length }
        ensures most { result ≤ GREATEST_LENGTH }
    {
        self.old_length
    }

    /// The new length.
    pub fn new_length(&self) -> usize
        ensures value { result ≡ self.now.new_length }
        ensures most { result ≤ GREATEST_LENGTH }
    {
        self.new_length
    }
}

impl<D: SupportedDigest, V: VisitBytes> ConsistencyProof<D, V> {
    /// The inclusion proofs that make up this one: one at the new length for each balanced root of the
    /// old length, from left to right. None for the old length zero.
    ///
    /// `PointsOutOfOrder` exactly if the old length is above the new one; else it fails only if allocation
    /// fails.
    pub fn inclusions<A: Allocator>(
        &self,
        alloc: A,
    ) -> Result<Vec<InclusionProof<D, V>, A>, ConsistencyProofError>
        ensures order { (result ≡ Err ConsistencyProofError.PointsOutOfOrder)
            ↔ (self.now.new_length < self.now.old_length) }
        ensures others { (fault : ConsistencyProofError) → result ≡ Err fault
            → (fault ≡ ConsistencyProofError.PointsOutOfOrder)
            ⊎ (fault ≡ ConsistencyProofError.Memory) }
        ensures leaves { IfOk result (λ proofs.
            map (λ p. p.leaf.0) proofs.items ≡ balanced_roots self.now.old_length) }
        ensures lengths { IfOk result (λ proofs.
            AllByRecursion (λ p. p.log_length ≡ self.now.new_length) proofs.items) }
    {
        if self.old_length > self.new_length {
            return Err(ConsistencyProofError::PointsOutOfOrder);
        }
        match inclusions_of(alloc, self.old_length, self.new_length) {
            Ok(proofs) => Ok(proofs),
            Err(_) => Err(ConsistencyProofError::Memory),
        }
    }

    /// The roots of the old and the new log: the old root over the data, and the one root to which the
    /// inclusion proofs of the old length's balanced roots lead. It does not allocate.
    ///
    /// `OldLengthZero` where the old length is 0, then `PointsOutOfOrder` where it is above the new one.
    /// Then the first fault, from left to right, decides: `HashNotKnown` where a balanced root's digest
    /// isn't in the data, `InclusionError(HashNotKnown)` where a digest that its inclusion proof reads
    /// isn't, `DivergingRoots` where it leads to another root than the first one.
    pub fn evaluate<L: LogData<D, V>>(
        &self,
        hashes: &L,
    ) -> Result<(Hash<D>, Hash<D>), ConsistencyProofError>
        ensures value { result ≡ consistency D.digest
            (L.digest_at hashes.now) self.now.old_length self.now.new_length }
        ensures memory { result ≢ Err ConsistencyProofError.Memory }
        ensures within { (fault : InclusionProofError)
            → result ≡ Err (ConsistencyProofError.InclusionError fault)
            → fault ≡ InclusionProofError.HashNotKnown }
    {
        if self.old_length == 0 {
            return Err(ConsistencyProofError::OldLengthZero);
        }
        if self.new_length < self.old_length {
            return Err(ConsistencyProofError::PointsOutOfOrder);
        }
        let new_root = self.new_root(hashes)?;
        let old = LeafRange::new(0, self.old_length);
        match stored_root(hashes, &old) {
            Some(old_root) => Ok((old_root, new_root)),
            None => Err(ConsistencyProofError::HashNotKnown),
        }
    }

    // The one root to which the balanced roots of the old length lead.
    fn new_root<L: LogData<D, V>>(&self, hashes: &L) -> Result<Hash<D>, ConsistencyProofError>
        requires { 0 < self.now.new_length }
        ensures { result ≡ new_root_of D.digest (L.digest_at hashes.now) self.now.new_length
            (balanced_roots self.now.old_length) }
    {
        let mut branches = BranchCache::new();
        let whole = LeafRange::new(0, self.new_length);
        common_root(
            &mut branches,
            hashes,
            BalancedRoots::of(self.old_length),
            &whole,
        )
    }
}

// The one root to which these balanced roots lead.
fn common_root<D: SupportedDigest, V: VisitBytes, L: LogData<D, V>>(
    branches: &mut BranchCache<D>,
    hashes: &L,
    mut roots: BalancedRoots,
    whole: &LeafRange,
) -> Result<Hash<D>, ConsistencyProofError>
    requires ends { AllByRecursion (λ t. end_of t ≤ GREATEST_LENGTH) roots }
    requires whole { whole.now ≡ leaves_from 0 whole.now.count }
    ensures { result ≡ new_root_of D.digest (L.digest_at hashes.now) whole.now.count roots }
{
    let Some(first) = roots.next() else {
        return Err(ConsistencyProofError::OldLengthZero);
    };
    let agreed = root_from(branches, hashes, first, whole)?;
    agree(branches, hashes, roots, whole, agreed)
}

// The agreed root, where each of these balanced roots leads to it.
fn agree<D: SupportedDigest, V: VisitBytes, L: LogData<D, V>>(
    branches: &mut BranchCache<D>,
    hashes: &L,
    roots: BalancedRoots,
    whole: &LeafRange,
    agreed: Hash<D>,
) -> Result<Hash<D>, ConsistencyProofError>
    requires ends { AllByRecursion (λ t. end_of t ≤ GREATEST_LENGTH) roots }
    requires whole { whole.now ≡ leaves_from 0 whole.now.count }
    ensures { result ≡ agreed_root D.digest (L.digest_at hashes.now) whole.now.count agreed roots }
{
    'roots: for root in roots {
        let other = root_from(branches, hashes, root, whole)?;
        if other != agreed {
            return Err(ConsistencyProofError::DivergingRoots);
        }
    }
    Ok(agreed)
}

// The inclusion proofs of an old length's balanced roots at a new length, from left to right.
fn inclusions_of<D, V, A: Allocator>(
    alloc: A,
    old_length: usize,
    new_length: usize,
) -> Result<Vec<InclusionProof<D, V>, A>, AllocError>
    requires old_fits { old_length ≤ GREATEST_LENGTH }
    requires new_fits { new_length ≤ GREATEST_LENGTH }
    ensures leaves { IfOk result (λ proofs. map (λ p. p.leaf.0) proofs.items
        ≡ balanced_roots old_length) }
    ensures lengths { IfOk result (λ proofs.
        AllByRecursion (λ p. p.log_length ≡ new_length) proofs.items) }
{
    let mut proofs = Vec::new(alloc);
    'roots: for root in BalancedRoots::of(old_length) {
        proofs.push(InclusionProof::new(root, new_length))?;
    }
    Ok(proofs)
}

// The root to which a balanced root of the old length leads.
fn root_from<D: SupportedDigest, V: VisitBytes, L: LogData<D, V>>(
    branches: &mut BranchCache<D>,
    hashes: &L,
    root: Node,
    whole: &LeafRange,
) -> Result<Hash<D>, ConsistencyProofError>
    requires ends { end_of root.0 ≤ GREATEST_LENGTH }
    requires whole { whole.now ≡ leaves_from 0 whole.now.count }
    ensures { result ≡ root_to D.digest (L.digest_at hashes.now) whole.now.count root.0 }
{
    match hashes.hash_for(root) {
        Some(hash) => match range_root_by(branches, hashes, &root.leaf_range(), &hash, whole) {
            Some(found) => Ok(found),
            None => Err(ConsistencyProofError::InclusionError(InclusionProofError::HashNotKnown)),
        },
        None => Err(ConsistencyProofError::HashNotKnown),
    }
}
