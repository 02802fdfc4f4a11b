//! Ranges of leaves, how the tree's recursion splits them, and the roots to which digests lead over them.

ghost use Rattle.std.specs.Prelude.{◌≡◌, ℕ, ◌+◌, ◌-◌, ◌^◌, ◌<◌, ◌≤◌, ◌⊎◌, ◌↔◌, IsTrue};
ghost use Rattle.warg_log.specs.Ranges.{leaves_from, front_part, rest_part};
ghost use Rattle.warg_log.specs.Cut.{is_beside, IsFull, with_target, cut_over, old_over};

use crate::branches::{EachHashed, range_root_by};
use crate::log::{GREATEST_LENGTH, LogData};
use crate::node::Node;
use std::marker::Model;
use warg_crypto::{Hash, SupportedDigest, VisitBytes, hash_branch};

/// Leaves in a row, at least one: a range of the recursion of RFC 6962, section 2.1, which splits the
/// leaves of a log at the greatest power of two below their count.
///
/// The evaluations, and the search for two byte strings of one digest, go down these ranges. Leaves are
/// counted from 0, and a range ends at 2^63 at the latest.
#[derive(Clone, Copy, Debug, PartialEq, Eq)]
pub struct LeafRange {
    pub start: usize,
    pub count: usize,
}

// Contracts see a range as where it starts and its count.
impl Model for LeafRange {
    ghost use Rattle.std.specs.Prelude.{◌+◌, ◌^◌, ◌<◌, ◌≤◌};
    ghost use Rattle.warg_log.specs.Ranges.{Range};
    ghost use Rattle.warg_log.specs.declared.log.TheConstants.{GREATEST_LENGTH};

    ghost Value = { Range };

    ghost view = { λ r. record { start = r.start; count = r.count } };

    ghost invariant = { λ r. (0 < r.count) × (r.start + r.count ≤ GREATEST_LENGTH) };

    ghost inverse = { λ r. record { start = r.start; count = r.count } };
}

impl LeafRange {
    /// The `count` leaves from `start` on.
    pub fn new(start: usize, count: usize) -> LeafRange
        requires some { 0 < count }
        requires fits { start + count ≤ GREATEST_LENGTH }
        ensures { result ≡ leaves_from start count }
    {
        LeafRange { start, count }
    }

    // The first of the balanced roots of the leaves from `start` up to `length`: as many leaves as the
    // greatest power of two that is there.
    pub(crate) fn first_root(start: usize, length: usize) -> LeafRange
        requires some { start < length }
        requires fits { length ≤ GREATEST_LENGTH }
        ensures start { result.start ≡ start }
        ensures count { (h : ℕ) × (result.count ≡ 2 ^ h) × (2 ^ h ≤ length - start)
            × (length - start < 2 ^ (h + 1)) }
    {
        LeafRange::new(start, 1 << (length - start).ilog2())
    }

    /// The leaf after the last one.
    pub fn end(&self) -> usize
        ensures { result ≡ self.now.start + self.now.count }
    {
        self.start + self.count
    }

    /// Whether the range has a power of two of leaves.
    #[tactic(auto, using(crate::proofs::RootLemmas::power_decides))]
    pub fn is_full(&self) -> bool
        ensures full { IsTrue result ↔ IsFull self.now.count }
        ensures some { 0 < self.now.count }
    {
        self.count.is_power_of_two()
    }

    // Whether an evaluation with this target reads the range's digest: the range is one leaf, or has a
    // power of two of leaves and misses the target.
    #[tactic(auto, using(crate::proofs::RootLemmas::power_decides))]
    pub(crate) fn is_read(&self, target: &LeafRange) -> bool
        ensures read { IsTrue result ↔ ((self.now.count ≡ 1)
            ⊎ (IsFull self.now.count × IsTrue (is_beside target.now self.now))) }
        ensures some { 0 < self.now.count }
    {
        let is_beside = self.start + self.count <= target.start
            || target.start + target.count <= self.start;
        self.count == 1 || self.count.is_power_of_two() && is_beside
    }

    /// The two parts of the range in the tree's recursion: the first leaves, as many as the greatest
    /// power of two below the count, and the rest.
    #[tactic(auto, using(crate::proofs::RootLemmas::front_of_half))]
    pub fn split(&self) -> (LeafRange, LeafRange)
        requires { 1 < self.now.count }
        ensures front { result.0 ≡ front_part self.now }
        ensures rest { result.1 ≡ rest_part self.now }
        ensures smaller { (result.0.count < self.now.count) × (result.1.count < self.now.count) }
    {
        let count = self.count.next_power_of_two() / 2;
        let front = LeafRange {
            start: self.start,
            count,
        };
        let rest = LeafRange {
            start: self.start + count,
            count: self.count - count,
        };
        (front, rest)
    }
}

/// The cut root of one range: the root of the range's leaves by the data's digests, with `hash` in the
/// place of the target. None exactly if the data lacks a digest that it reads. It does not allocate.
///
/// It goes down the recursion of RFC 6962, section 2.1: it reads the digest of a range that misses the
/// target and has a power of two of leaves, and hashes the branch of the two parts of any other range.
pub fn range_root<D: SupportedDigest, V: VisitBytes, L: LogData<D, V>>(
    hashes: &L,
    target: &LeafRange,
    hash: &Hash<D>,
    range: &LeafRange,
) -> Option<Hash<D>>
    ensures { result ≡ cut_over D.digest
        (with_target (L.digest_at hashes.now) target.now hash.now) range.now }
{
    range_root_by(&mut EachHashed, hashes, target, hash, range)
}

/// The old root of one range: the root of the range's leaves by the digests that the data holds for the
/// range's balanced roots. None exactly if the data lacks one of them. It does not allocate.
pub fn stored_root<D: SupportedDigest, V: VisitBytes, L: LogData<D, V>>(
    hashes: &L,
    range: &LeafRange,
) -> Option<Hash<D>>
    ensures root { result ≡ old_over D.digest (L.digest_at hashes.now) range.now }
    ensures some { 0 < range.now.count }
{
    if range.is_full() {
        return hashes.hash_for(Node::over(range));
    }
    let (front, rest) = range.split();
    let left = stored_root(hashes, &front)?;
    let right = stored_root(hashes, &rest)?;
    Some(hash_branch(&left, &right))
}
