//! Proofs of presence and absence.

ghost use Rattle.std.specs.Prelude.{◌≡◌, ◌<◌, ◌≤◌, length};
ghost use Rattle.warg_crypto.specs.EmptyTrees.{empty_root};
ghost use Rattle.warg_map.specs.Bits.{key_bits, last_bits};
ghost use Rattle.warg_crypto.specs.Tree.{leaf_digest};
ghost use Rattle.warg_map.specs.ProofValue.{peer_of, proof_value};
ghost use Rattle.warg_map.specs.Messages.{same_peers};

mod message;

use crate::path::side_at;
use std::alloc::{Allocator, Global};
use std::marker::{Model, PhantomData};
use warg_crypto::{Hash, SupportedDigest, VisitBytes, hash_leaf};

/// A proof of what a map holds under a key, or that it holds nothing there.
///
/// It has the digests of the subtrees beside the key's path, called peers, from the bottom of the tree to the top, and
/// at most 256 of them. Peers that are missing at the bottom count as `None`, and `None` stands for an empty subtree.
#[derive(Drop)]
pub struct Proof<D, K, V, A: Allocator = Global> {
    peers: Vec<Option<Hash<D>>, A>,
    key: PhantomData<K>,
    value: PhantomData<V>,
}

// Contracts see a proof as the list of its peers.
impl<D, K, V, A: Allocator> Model for Proof<D, K, V, A> {
    ghost use Rattle.std.specs.Prelude.{ℕ, ◌≤◌, List, Option, length};

    ghost Value = { List (Option (List ℕ)) };

    ghost view = { λ p. p.peers.items };

    ghost invariant = { λ p. length p.peers.items ≤ 256 };
}

/// By the peers alone.
impl<D, K, V, A: Allocator> PartialEq for Proof<D, K, V, A> {
    ghost use Rattle.std.specs.Prelude.{◌≡◌, ◌↔◌, IsTrue};
    ghost use Rattle.std.specs.Cmp.Rules.{comparing};
    ghost use Rattle.std.proofs.Common.{rules};
    ghost use Rattle.warg_map.specs.Messages.{same_peers};

    ghost eq = { same_peers };

    ghost laws = { Prim.search (comparing, rules) };

    fn eq(&self, other: &Proof<D, K, V, A>) -> bool
        ensures value { result ≡ same_peers self.now other.now }
        ensures exact { IsTrue result ↔ (self.now ≡ other.now) }
    {
        self.peers() == other.peers()
    }
}

impl<D, K, V, A: Allocator> Eq for Proof<D, K, V, A> {
    ghost use Rattle.std.specs.Cmp.Rules.{comparing};
    ghost use Rattle.std.proofs.Common.{rules};

    ghost laws = { Prim.search (comparing, rules) };
}

impl<D, K, V, A: Allocator> Proof<D, K, V, A> {
    /// The proof of these peers.
    pub(crate) fn new(peers: Vec<Option<Hash<D>>, A>) -> Proof<D, K, V, A>
        requires { length peers.items ≤ 256 }
        ensures { result ≡ peers.items }
    {
        Proof {
            peers,
            key: PhantomData,
            value: PhantomData,
        }
    }

    /// The peers, from the bottom of the tree to the top: at most 256.
    pub fn peers(&self) -> &[Option<Hash<D>>]
        ensures value { result.now ≡ self.now }
        ensures few { length self.now ≤ 256 }
    {
        &self.peers
    }
}

impl<D, K, V, A: Allocator> From<Proof<D, K, V, A>> for Vec<Option<Hash<D>>, A> {
    ghost use Rattle.std.specs.Prelude.{◌≡◌};

    ghost from_gives = { λ proof peers. peers.items ≡ proof };

    fn from(proof: Proof<D, K, V, A>) -> Vec<Option<Hash<D>>, A> {
        proof.peers
    }
}

impl<D: SupportedDigest, K, V, A: Allocator> Proof<D, K, V, A> {
    /// The peer of a height, where `empty` is the digest of the empty tree of that height.
    fn peer<'a>(&'a self, height: usize, empty: &'a Hash<D>) -> &'a Hash<D>
        requires place { height < 256 }
        requires empty { empty.now ≡ empty_root D.digest height }
        ensures { result.now ≡ peer_of D.digest self.now height }
    {
        let peers = self.peers();
        let missing = 256 - peers.len();
        if height < missing {
            return empty;
        }
        match &peers[height - missing] {
            Some(peer) => peer,
            None => empty,
        }
    }

    /// The root to which the peers lead from a leaf digest under a key digest.
    fn root_from(&self, key: &Hash<D>, leaf: Hash<D>) -> Hash<D>
        ensures { result ≡ proof_value D.digest self.now leaf (last_bits key.now 256) }
    {
        let mut hash = leaf;
        let mut empty = D::empty_tree(0);
        for height in 0..256 {
            hash = side_at(key, 255 - height).branch(&hash, self.peer(height, &empty));
            empty = D::empty_above(height, &empty);
        }
        hash
    }
}

impl<D: SupportedDigest, K: VisitBytes, V: VisitBytes, A: Allocator> Proof<D, K, V, A> {
    /// The root to which the proof leads from `value` under `key`.
    ///
    /// A proof of [`Map::prove`](crate::Map::prove) leads to the map's root from the value last kept under the key.
    pub fn evaluate(&self, key: &K, value: &V) -> Hash<D>
        ensures { result ≡ proof_value D.digest self.now (leaf_digest D.digest (V.bytes value.now))
            (key_bits D.digest (K.bytes key.now)) }
    {
        self.root_from(&Hash::of(key), hash_leaf(value))
    }

    /// The root to which the proof leads from an empty leaf under `key`.
    ///
    /// A proof of [`Map::prove_absence`](crate::Map::prove_absence) leads to the map's root.
    pub fn evaluate_absent(&self, key: &K) -> Hash<D>
        ensures { result ≡ proof_value D.digest self.now (empty_root D.digest 0)
            (key_bits D.digest (K.bytes key.now)) }
    {
        self.root_from(&Hash::of(key), D::empty_tree(0))
    }
}
