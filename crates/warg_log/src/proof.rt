//! Inclusion proofs.

ghost use Rattle.std.specs.Prelude.{◌≡◌, ◌≢◌, ⊤, ℕ, ◌+◌, ◌-◌, ◌*◌, ◌^◌, ◌<◌, ◌≤◌, ◌++◌, ◌↔◌, None, Some, IfOk, OnOk, map, length, reverse, nat_eq};
ghost use Rattle.std.specs.List.{IsDistinct};
ghost use Rattle.warg_crypto.specs.Tree.{leaf_digest};
ghost use Rattle.warg_log.specs.Nodes.{ExistsAt};
ghost use Rattle.warg_log.specs.Inclusion.{inclusion};
ghost use Rattle.warg_log.specs.Walks.{needed, IsWalk};
ghost use Rattle.warg_log.specs.Claims.{same_walk};
ghost use Rattle.warg_log.specs.Private.Climbs.{IsWayUp, IsTop};

use crate::balanced_roots::BalancedRoots;
use crate::leaf_range::{LeafRange, range_root};
use crate::log::{GREATEST_LENGTH, LogData};
use crate::node::Node;
use std::alloc::{AllocError, Allocator, Global};
use std::marker::{Model, PhantomData};
use thiserror::Error;
use warg_crypto::{Hash, SupportedDigest, VisitBytes, hash_leaf};

/// Why an inclusion proof leads to no root.
#[derive(Debug, PartialEq, Eq, Drop, Error)]
pub enum InclusionProofError {
    /// The proof's node doesn't exist at the proof's length.
    #[error("leaf newer than when it should be included")]
    LeafTooNew,
    /// A digest that the evaluation reads isn't in the data.
    #[error("required hash for proof is not available")]
    HashNotKnown,
    /// Memory was refused.
    #[error("out of memory")]
    Memory,
}

/// The claim that a node's digest is part of the log of a length.
///
/// It holds the node, mostly a leaf, and the length, up to 2^63; the digests come from any
/// [`LogData`]. Its evaluation goes down the tree's recursion (RFC 6962, section 2.1) and puts the
/// node's digest in the node's place.
#[derive_where(Debug, PartialEq, Eq)]
pub struct InclusionProof<D, V> {
    leaf: Node,
    log_length: usize,
    of: PhantomData<(D, V)>,
}

// Contracts see the proof as its node and its length.
impl<D, V> Model for InclusionProof<D, V> {
    ghost use Rattle.warg_log.specs.declared.log.TheConstants.{GREATEST_LENGTH};
    ghost use Rattle.std.specs.Prelude.{◌≤◌, ◌^◌};
    ghost use Rattle.warg_log.specs.Claims.{InclusionClaim};

    ghost Value = { InclusionClaim };

    ghost view = { λ p. record { leaf = p.leaf; log_length = p.log_length } };

    ghost invariant = { λ p. p.log_length ≤ GREATEST_LENGTH };

    ghost inverse = { λ p. record { leaf = p.leaf; log_length = p.log_length; of = record {} } };
}

impl<D, V> Copy for InclusionProof<D, V> {}

/// Never refuses: a proof allocates nothing.
impl<D, V> Clone for InclusionProof<D, V> {
    ghost is_clone = { λ x y. y ≡ x };

    ghost is_infallible = { λ _. ⊤ };

    fn clone(&self) -> Result<Self, AllocError> {
        Ok(InclusionProof::new(self.leaf, self.log_length))
    }
}

impl<D, V> InclusionProof<D, V> {
    /// The claim that the node's digest is part of the log of this length. A length is at most 2^63.
    pub fn new(leaf: Node, log_length: usize) -> Self
        requires { log_length ≤ GREATEST_LENGTH }
        ensures leaf { result.leaf ≡ leaf }
        ensures log_length { result.log_length ≡ log_length }
    {
        InclusionProof {
            leaf,
            log_length,
            of: PhantomData,
        }
    }

    /// The node whose digest the proof is about.
    pub fn leaf(&self) -> Node
        ensures { result ≡ self.now.leaf }
    {
        self.leaf
    }

    /// The length of the log that has the node.
    pub fn log_length(&self) -> usize
        ensures value { result ≡ self.now.log_length }
        ensures most { result ≤ GREATEST_LENGTH }
    {
        self.log_length
    }
}

impl<D: SupportedDigest, V: VisitBytes> InclusionProof<D, V> {
    /// The nodes whose digests the evaluation reads: the siblings on the way up from the proof's node to
    /// a balanced root of the length, then the balanced roots right of that root, and then those left of
    /// it, both from right to left.
    ///
    /// `LeafTooNew` exactly if the node doesn't exist at the length; else it fails only if allocation fails. A
    /// length of `b` binary digits has at most `2 * (b - 1)` such nodes.
    pub fn walk<A: Allocator>(&self, alloc: A) -> Result<InclusionProofWalk<A>, InclusionProofError>
        ensures too_new { (result ≡ Err InclusionProofError.LeafTooNew)
            ↔ ¬ ExistsAt self.now.leaf.0 self.now.log_length }
        ensures exists { OnOk result (ExistsAt self.now.leaf.0 self.now.log_length) }
        ensures not_known { result ≢ Err InclusionProofError.HashNotKnown }
        ensures needed { IfOk result (λ walk.
            map (λ x. x.0) walk.nodes ≡ needed self.now.leaf.0 self.now.log_length) }
        ensures order { IfOk result (λ walk.
            IsWalk self.now.leaf.0 self.now.log_length
            (map (λ x. x.0) walk.nodes) walk.initial_walk_len walk.lower_broots walk.upper_broots) }
        ensures once { IfOk result (λ walk. IsDistinct nat_eq (map (λ x. x.0) walk.nodes)) }
        ensures most { IfOk result (λ walk. (b : ℕ) → self.now.log_length < 2 ^ b
            → length walk.nodes ≤ 2 * (b - 1)) }
    {
        if !self.leaf.exists_at_length(self.log_length) {
            return Err(InclusionProofError::LeafTooNew);
        }
        match walk_of(alloc, self.leaf, self.log_length) {
            Ok(walk) => Ok(walk),
            Err(_) => Err(InclusionProofError::Memory),
        }
    }

    /// The root that the log has if the proof's node is a leaf with this value: as
    /// [`InclusionProof::evaluate_hash`] with the digest of the byte 00 and the value's bytes, whatever
    /// the node. It does not allocate.
    pub fn evaluate_value<L: LogData<D, V>>(
        &self,
        hashes: &L,
        value: &V,
    ) -> Result<Hash<D>, InclusionProofError>
        ensures { result ≡ inclusion D.digest (L.digest_at hashes.now) self.now
            (leaf_digest D.digest (V.bytes value.now)) }
    {
        self.evaluate_hash(hashes, hash_leaf::<D, V>(value))
    }

    /// The root that the log has if the proof's node has this digest: the cut root at the proof's
    /// length. It does not allocate.
    ///
    /// `LeafTooNew` exactly if the node doesn't exist at the length, and then `HashNotKnown` exactly
    /// if the data lacks a digest that the cut root reads.
    pub fn evaluate_hash<L: LogData<D, V>>(
        &self,
        hashes: &L,
        hash: Hash<D>,
    ) -> Result<Hash<D>, InclusionProofError>
        ensures { result ≡ inclusion D.digest (L.digest_at hashes.now) self.now hash }
    {
        if !self.leaf.exists_at_length(self.log_length) {
            return Err(InclusionProofError::LeafTooNew);
        }
        let whole = LeafRange {
            start: 0,
            count: self.log_length,
        };
        match range_root(hashes, &self.leaf.leaf_range(), &hash, &whole) {
            Some(root) => Ok(root),
            None => Err(InclusionProofError::HashNotKnown),
        }
    }
}

/// The nodes whose digests an inclusion proof's evaluation reads, in the order of
/// [`InclusionProof::walk`], and how many of them each of the three parts has.
#[derive_where(Debug)]
#[derive(Drop)]
pub struct InclusionProofWalk<A: Allocator = Global> {
    nodes: Vec<Node, A>,
    initial_walk_len: usize,
    lower_broots: usize,
    upper_broots: usize,
}

// Contracts see the walk as its nodes and the counts of its parts.
impl<A: Allocator> Model for InclusionProofWalk<A> {
    ghost use Rattle.warg_log.specs.Claims.{Walk};

    ghost Value = { Walk };

    ghost view = { λ w. record {
      nodes = w.nodes.items;
      initial_walk_len = w.initial_walk_len;
      lower_broots = w.lower_broots;
      upper_broots = w.upper_broots;
    } };
}

/// By the nodes, in order, and the counts.
impl<A: Allocator> PartialEq for InclusionProofWalk<A> {
    ghost use Rattle.std.specs.Prelude.{◌≡◌, ◌↔◌, IsTrue};
    ghost use Rattle.std.specs.Cmp.Rules.{comparing};
    ghost use Rattle.std.proofs.Common.{rules};
    ghost use Rattle.warg_log.specs.Claims.{same_walk};

    ghost eq = { same_walk };

    ghost laws = { Prim.search (comparing, rules) depth 9 };

    #[tactic(auto, using(crate::proofs::ForCallers::walks_decide))]
    fn eq(&self, other: &InclusionProofWalk<A>) -> bool
        ensures value { result ≡ same_walk self.now other.now }
        ensures exact { IsTrue result ↔ (self.now ≡ other.now) }
    {
        same_walks(self, other)
    }
}

impl<A: Allocator> Eq for InclusionProofWalk<A> {
    ghost use Rattle.std.specs.Cmp.Rules.{comparing};
    ghost use Rattle.std.proofs.Common.{rules};

    ghost laws = { Prim.search (comparing, rules) depth 9 };
}

// Whether two walks have the same nodes and counts.
fn same_walks<A: Allocator>(first: &InclusionProofWalk<A>, second: &InclusionProofWalk<A>) -> bool
    ensures { result ≡ same_walk first.now second.now }
{
    first.nodes == second.nodes
        && first.initial_walk_len == second.initial_walk_len
        && first.lower_broots == second.lower_broots
        && first.upper_broots == second.upper_broots
}

impl<A: Allocator> InclusionProofWalk<A> {
    /// The nodes, in order.
    pub fn nodes(&self) -> &[Node]
        ensures { result.now ≡ self.now.nodes }
    {
        self.nodes.as_slice()
    }

    /// How many nodes lie on the way up to the balanced root: the first part.
    pub fn initial_walk_len(&self) -> usize
        ensures { result ≡ self.now.initial_walk_len }
    {
        self.initial_walk_len
    }

    /// How many balanced roots lie right of that root: the second part.
    pub fn lower_broots(&self) -> usize
        ensures { result ≡ self.now.lower_broots }
    {
        self.lower_broots
    }

    /// How many balanced roots lie left of that root: the third part.
    pub fn upper_broots(&self) -> usize
        ensures { result ≡ self.now.upper_broots }
    {
        self.upper_broots
    }
}

// The walk from a node at a length.
fn walk_of<A: Allocator>(
    alloc: A,
    leaf: Node,
    length: usize,
) -> Result<InclusionProofWalk<A>, AllocError>
    requires exists { ExistsAt leaf.0 length }
    requires fits { length ≤ GREATEST_LENGTH }
    ensures needed { IfOk result (λ walk. map (λ x. x.0) walk.nodes ≡ needed leaf.0 length) }
    ensures order { IfOk result (λ walk.
        IsWalk leaf.0 length (map (λ x. x.0) walk.nodes)
        walk.initial_walk_len walk.lower_broots walk.upper_broots) }
{
    let (mut nodes, root) = way_up(alloc, leaf, length)?;
    let initial_walk_len = nodes.len();
    let leaves = root.leaf_range();
    add_roots(&mut nodes, BalancedRoots::between(leaves.end(), length))?;
    let lower_broots = nodes.len() - initial_walk_len;
    add_roots(&mut nodes, BalancedRoots::of(leaves.start))?;
    Ok(InclusionProofWalk {
        upper_broots: nodes.len() - initial_walk_len - lower_broots,
        nodes,
        initial_walk_len,
        lower_broots,
    })
}

// The siblings on the way up from a node, and the node at which it ends: the balanced root of the length. A node
// of height 63 stands for all leaves that a log can have.
fn way_up<A: Allocator>(
    alloc: A,
    leaf: Node,
    length: usize,
) -> Result<(Vec<Node, A>, Node), AllocError>
    requires exists { ExistsAt leaf.0 length }
    requires fits { length ≤ GREATEST_LENGTH }
    ensures way { IfOk result (λ way.
        IsWayUp leaf.0 length way.1.0 (map (λ x. x.0) way.0.items)) }
    ensures ends { IfOk result (λ way. IsTop way.1.0 length) }
{
    let mut siblings = Vec::new(alloc);
    let mut node = leaf;
    'up: while node.height() < 63 && node.parent().exists_at_length(length) {
        siblings.push(node.sibling())?;
        node = node.parent();
    }
    Ok((siblings, node))
}

// Adds the roots that remain, from right to left.
fn add_roots<A: Allocator>(
    nodes: &mut Vec<Node, A>,
    mut roots: BalancedRoots,
) -> Result<(), AllocError>
    ensures { OnOk result (map (λ x. x.0) nodes.new.items
        ≡ map (λ x. x.0) nodes.old.items ++ reverse roots) }
{
    if let Some(root) = roots.next() {
        add_roots(nodes, roots)?;
        nodes.push(root)?;
    }
    Ok(())
}
