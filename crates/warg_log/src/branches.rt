//! Roots of ranges of leaves, and the branches that one consistency proof's evaluation joins, each hashed once.

ghost use Rattle.std.specs.Prelude.{◌≡◌, ◌<◌, IsTrue, IfSome, ◌↔◌};
ghost use Rattle.warg_crypto.specs.Tree.{branch};
ghost use Rattle.warg_log.specs.Cut.{with_target, cut_over};

use crate::leaf_range::LeafRange;
use crate::log::LogData;
use crate::node::Node;
use arrayvec::ArrayVec;
use std::marker::Model;
use warg_crypto::{Hash, SupportedDigest, VisitBytes, hash_branch};

// A branch that was hashed.
#[derive(Drop)]
pub(crate) struct Branch<D> {
    left: Hash<D>,
    right: Hash<D>,
    digest: Hash<D>,
}

impl<D> Default for Branch<D> {
    fn default() -> Self {
        Branch {
            left: Hash::from_array([0; 32]),
            right: Hash::from_array([0; 32]),
            digest: Hash::from_array([0; 32]),
        }
    }
}

impl<D> Branch<D> {
    // Whether it is the branch over these two digests.
    fn is_over(&self, left: &Hash<D>, right: &Hash<D>) -> bool
        ensures { IsTrue result ↔ ((self.now.left ≡ left.now) × (self.now.right ≡ right.now)) }
    {
        self.left == *left && self.right == *right
    }
}

// How the digest of a branch is had.
pub(crate) trait Branches<D: SupportedDigest> {
    // The digest of the branch of a range's two parts.
    fn join_parts(&mut self, range: &LeafRange, left: &Hash<D>, right: &Hash<D>) -> Hash<D>
        requires { 1 < range.now.count }
        ensures { result ≡ branch D.digest left.now right.now };
}

// Each branch is hashed.
#[derive(Drop)]
pub(crate) struct EachHashed;

impl<D: SupportedDigest> Branches<D> for EachHashed {
    fn join_parts(&mut self, _range: &LeafRange, left: &Hash<D>, right: &Hash<D>) -> Hash<D> {
        hash_branch(left, right)
    }
}

// How many branches are remembered.
const REMEMBERED: usize = 64;

// The number of slots: for each height, one for the ranges of a power of two of leaves, and one for the others.
const SLOTS: usize = 128;

// The slot of a range of this many leaves: 2 * h - 1 for 2^h of them, and 2 * h for more, below 2^(h + 1).
fn slot_of(count: usize) -> usize
    requires { 1 < count }
    ensures { result < 128 }
{
    ((count - 1).ilog2() + count.ilog2()) as usize
}

// Hashes each branch once: it remembers the branches that it joined, and for each slot the last of them. The
// ranges that the paths of one consistency proof share are the last ones of their slots.
#[derive(Drop)]
pub(crate) struct BranchCache<D: SupportedDigest> {
    joined: ArrayVec<Branch<D>, REMEMBERED>,
    last: [usize; SLOTS],
}

// Contracts see how many branches it remembers. Each has the digest of its two parts' branch.
impl<D: SupportedDigest> Model for BranchCache<D> {
    ghost use Rattle.std.specs.Prelude.{◌≡◌, ℕ, length};
    ghost use Rattle.std.specs.List.{AllByRecursion};
    ghost use Rattle.warg_crypto.specs.Tree.{branch};

    ghost Value = { ℕ };

    ghost view = { λ c. length c.joined.items };

    ghost invariant = { λ c. AllByRecursion (λ b. b.digest ≡ branch D.digest b.left b.right)
        c.joined.items };
}

impl<D: SupportedDigest> BranchCache<D> {
    // A cache that remembers no branch.
    pub(crate) fn new() -> Self {
        BranchCache {
            joined: ArrayVec::new(),
            last: [0; SLOTS],
        }
    }

    // The digest of the branch, if it is the last one of the slot.
    fn find(&self, slot: usize, left: &Hash<D>, right: &Hash<D>) -> Option<Hash<D>>
        requires { slot < 128 }
        ensures { IfSome result (λ digest. digest ≡ branch D.digest left.now right.now) }
    {
        let branch = self.joined.as_slice().get(self.last[slot])?;
        if branch.is_over(left, right) {
            return Some(branch.digest.copied());
        }
        None
    }
}

impl<D: SupportedDigest> Branches<D> for BranchCache<D> {
    fn join_parts(&mut self, range: &LeafRange, left: &Hash<D>, right: &Hash<D>) -> Hash<D> {
        let slot = slot_of(range.count);
        if let Some(digest) = self.find(slot, left, right) {
            return digest;
        }
        let digest = hash_branch(left, right);
        if !self.joined.is_full() {
            self.last[slot] = self.joined.len();
            self.joined.push(Branch {
                left: left.copied(),
                right: right.copied(),
                digest: digest.copied(),
            });
        }
        digest
    }
}

// The cut root of one range, as `range_root` says, by these branches.
pub(crate) fn range_root_by<D: SupportedDigest, V: VisitBytes, L: LogData<D, V>, B: Branches<D>>(
    branches: &mut B,
    hashes: &L,
    target: &LeafRange,
    hash: &Hash<D>,
    range: &LeafRange,
) -> Option<Hash<D>>
    ensures { result ≡ cut_over D.digest
        (with_target (L.digest_at hashes.now) target.now hash.now) range.now }
{
    if range == target {
        return Some(hash.copied());
    }
    if range.is_read(target) {
        return hashes.hash_for(Node::over(range));
    }
    let (front, rest) = range.split();
    let left = range_root_by(branches, hashes, target, hash, &front)?;
    let right = range_root_by(branches, hashes, target, hash, &rest)?;
    Some(branches.join_parts(range, &left, &right))
}
