//! Links: nodes with their digests.

ghost use Rattle.std.specs.Prelude.{◌≡◌, ℕ};
ghost use Rattle.warg_map.specs.Sparse.{sparse_root};

use crate::node::{Node, stem_digest};
use crate::singleton::Singleton;
use std::alloc::{AllocError, Allocator, Global};
use std::marker::Model;
use std::rc::Rc;
use warg_crypto::{Hash, Side, SupportedDigest, hash_branch};

/// A node, with its digest.
///
/// Contracts see a link as the height of its node and the map that the node stands for.
#[cycle(tree)]
pub struct Link<D: SupportedDigest, A: Allocator = Global> {
    hash: Hash<D>,
    node: Node<D, A>,
}

impl<D: SupportedDigest, A: Allocator> Model for Link<D, A> {
    ghost use Rattle.std.specs.Prelude.{◌≡◌, ℕ};
    ghost use Rattle.std.specs.Coded.{coded×, coded_ℕ};
    ghost use Rattle.warg_map.specs.Sparse.{SparseMap, sparse_map_code, sparse_root};

    ghost Value = { ℕ × SparseMap };

    ghost coded = { coded× coded_ℕ sparse_map_code };

    ghost use Rattle.warg_map.specs.Private.Seen.{seen, IsWellFormed};

    ghost view = { λ a. seen a.node };

    ghost invariant = { λ a. IsWellFormed a.node
        × (a.hash ≡ sparse_root D.digest (seen a.node).0 (seen a.node).1) };

    ghost size = { λ d. d.0 };

    ghost use Rattle.std.proofs.Common.{arith};

    ghost size_decreases = { λ a h. Prim.grind arith };
}

// By hand, so that a caller who drops a link sees a call and not the tree.
impl<D: SupportedDigest, A: Allocator> Drop for Link<D, A> {
    #[cycle(tree)]
    fn drop(self) {
        let Link { hash: _, node: _ } = self;
    }
}

impl<D: SupportedDigest, A: Allocator> Link<D, A> {
    ghost use Rattle.warg_map.specs.Private.Seen.{seen, IsWellFormed};

    /// A link to a node, whose digest it computes.
    pub fn new(node: Node<D, A>) -> Link<D, A>
        requires { IsWellFormed node }
        ensures { result ≡ seen node }
    {
        let hash = match &node {
            Node::Fork(fork) => {
                let fork = fork.as_ref();
                hash_branch(fork.left.hash(), fork.right.hash())
            }
            Node::Singleton(lone) => lone.hash(),
            Node::Stem(stem) => {
                let stem = stem.as_ref();
                stem_digest(&stem.key, stem.from, stem.len, stem.below.hash())
            }
            Node::Empty => D::empty_tree(256),
        };
        Link { hash, node }
    }

    /// The digest of the node.
    pub fn hash(&self) -> &Hash<D>
        ensures { result.now ≡ sparse_root D.digest self.now.0 self.now.1 }
    {
        &self.hash
    }

    /// The node.
    pub fn node(&self) -> &Node<D, A>
        ensures seen { seen result.now ≡ self.now }
        ensures well_formed { IsWellFormed result.now }
    {
        &self.node
    }
}

/// The node is shared. It does not allocate, and refuses only where the owners of the node can't be counted.
impl<D: SupportedDigest, A: Allocator> Clone for Link<D, A> {
    ghost use Rattle.std.specs.Prelude.{◌≡◌};

    ghost is_clone = { λ l copy. copy ≡ l };

    fn clone(&self) -> Result<Link<D, A>, AllocError> {
        let node = match &self.node {
            Node::Fork(fork) => Node::Fork(fork.clone()?),
            Node::Singleton(lone) => Node::Singleton(lone.clone()?),
            Node::Stem(stem) => Node::Stem(stem.clone()?),
            Node::Empty => Node::Empty,
        };
        Ok(Link {
            hash: self.hash.copied(),
            node,
        })
    }
}
