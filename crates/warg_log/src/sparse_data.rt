//! Digests of some nodes, as they come with a proof.

ghost use Rattle.std.specs.Prelude.{◌≡◌, List, IfOk, IsOk, IsTrue, ◌↔◌};
ghost use Rattle.warg_log.specs.Sparse.{IsAscending, held_digest};

use crate::log::LogData;
use crate::node::Node;
use std::alloc::{AllocError, Allocator, Global};
use std::marker::{Model, PhantomData};
use thiserror::Error;
use warg_crypto::{Hash, SupportedDigest, VisitBytes};

/// The digests of some nodes, in the order of the nodes' numbers.
#[derive(Drop)]
pub struct SparseLogData<D: SupportedDigest, V: VisitBytes, A: Allocator = Global> {
    pairs: Vec<(Node, Hash<D>), A>,
    of: PhantomData<V>,
}

// Contracts see the data as its list of nodes with their digests.
impl<D: SupportedDigest, V: VisitBytes, A: Allocator> Model for SparseLogData<D, V, A> {
    ghost use Rattle.warg_log.specs.Sparse.{Pairs, IsAscending};

    ghost Value = { Pairs };

    ghost view = { λ s. s.pairs.items };

    ghost invariant = { λ s. IsAscending s.pairs.items };
}

impl<D: SupportedDigest, V: VisitBytes, A: Allocator> SparseLogData<D, V, A> {
    /// The data that holds these digests. It does not allocate.
    pub fn from(pairs: Vec<(Node, Hash<D>), A>) -> Self
        requires { IsAscending pairs.items }
        ensures { result ≡ pairs.items }
    {
        SparseLogData {
            pairs,
            of: PhantomData,
        }
    }

    /// The data that holds these digests: `NotAscending` exactly if the nodes' numbers don't ascend
    /// strictly. It does not allocate.
    pub fn try_from(pairs: Vec<(Node, Hash<D>), A>) -> Result<Self, NotAscending>
        ensures ok { IfOk result (λ made. made ≡ pairs.items) }
        ensures exactly { IsOk result ↔ IsAscending pairs.items }
    {
        if are_ascending(pairs.as_slice()) {
            Ok(SparseLogData::from(pairs))
        } else {
            Err(NotAscending)
        }
    }

    /// The digests with their nodes, by ascending number.
    pub fn pairs(&self) -> &[(Node, Hash<D>)]
        ensures value { result.now ≡ self.now }
        ensures ascending { IsAscending self.now }
    {
        self.pairs.as_slice()
    }

    /// The same data cloned into `alloc`.
    pub fn copied(&self, alloc: A) -> Result<Self, AllocError>
        ensures { IfOk result (λ again. again ≡ self.now) }
    {
        let mut pairs = Vec::new(alloc);
        'pairs: for pair in self.pairs.as_slice() {
            pairs.push((pair.0, pair.1.copied()))?;
        }
        Ok(SparseLogData {
            pairs,
            of: PhantomData,
        })
    }
}

/// That the numbers of nodes don't ascend strictly.
#[derive(Clone, Copy, Debug, PartialEq, Eq, Error)]
#[error("hash indices are not ascending")]
pub struct NotAscending;

// Whether the nodes' numbers ascend strictly.
#[tactic(auto, using(std::proofs::lemmas::List::get_or_default, crate::proofs::SparseLemmas::ascends))]
fn are_ascending<D>(pairs: &[(Node, Hash<D>)]) -> bool
    ensures { IsTrue result ↔ IsAscending pairs.now }
{
    'places: for place in 1..pairs.len() {
        if pairs[place].0.0 <= pairs[place - 1].0.0 {
            return false;
        }
    }
    true
}

impl<D: SupportedDigest, V: VisitBytes, A: Allocator> LogData<D, V> for SparseLogData<D, V, A> {
    ghost digest_at = { λ s x. held_digest s x };

    fn has_hash(&self, node: Node) -> bool {
        LogData::<D, V>::hash_for(self, node).is_some()
    }

    fn hash_for(&self, node: Node) -> Option<Hash<D>> {
        match self
            .pairs
            .as_slice()
            .binary_search_by_key(&node.0, |pair| pair.0.0)
        {
            Ok(place) => Some(self.pairs[place].1.copied()),
            Err(_) => None,
        }
    }
}
