//! The map.

ghost use Rattle.std.specs.Prelude.{◌≡◌, ◌≢◌, Option, ◌+◌, ◌*◌, ◌/◌, ◌<◌, ◌≤◌, ◌↔◌, IfOk, IfSome, IsSome, IsTrue, MatchOption, MatchResult, Some, None, Ok, Err, false};
ghost use Rattle.std.specs.FinMap as map;
ghost use Rattle.std.specs.Iterator.{IsFinite};
ghost use Rattle.warg_map.specs.Extended.{IsExtended, IsFullWithin, BeginsNew};
ghost use Rattle.warg_map.specs.Bits.{key_bits, last_bits};
ghost use Rattle.warg_crypto.specs.EmptyTrees.{empty_root};
ghost use Rattle.warg_crypto.specs.Tree.{leaf_digest};
ghost use Rattle.warg_map.specs.Sparse.{HasLevels, sparse_root, leaf_at};
ghost use Rattle.warg_map.specs.Peers.{Proves, ProvesEmpty};
ghost use Rattle.warg_map.specs.Private.Grown.{with_leaves, AreLeavesOf};
ghost use Rattle.warg_map.specs.Private.Walk.{answer_of, IsOneTooMany};
ghost use Rattle.warg_map.specs.Count.{node_count};

mod insertion;
mod key_proof;

use crate::grown::spread;
use crate::link::Link;
use crate::node::Node;
use crate::proof::Proof;
use crate::singleton::Singleton;
use crate::walk::{Asked, Collected};
pub use insertion::Insertion;
pub use key_proof::KeyProof;
use std::alloc::{AllocError, Allocator, Global};
use std::fmt;
use std::fmt::Debug;
use std::marker::{Model, PhantomData};
use thiserror::Error;
use warg_crypto::{Hash, SupportedDigest, VisitBytes, hash_leaf};

/// Why an insertion was refused. The map that it was to go into stays as it was.
#[derive(Debug, PartialEq, Eq, Drop, Error)]
pub enum MapError {
    /// A new key digest, where as many are held as a `usize` can count.
    #[error("map is full")]
    Full,
    /// Allocation failed.
    #[error("out of memory")]
    Memory,
}

impl From<AllocError> for MapError {
    ghost use Rattle.std.specs.Prelude.{◌≡◌};
    ghost use Rattle.warg_map.specs.declared.map.MapError.TheVariants.{Memory};

    ghost from_gives = { λ _ e. e ≡ Memory };

    fn from(_error: AllocError) -> MapError {
        MapError::Memory
    }
}

/// An immutable map from keys to values, as a sparse Merkle tree of 256 levels.
///
/// A key's bits are those of its digest, and lead from the top of the tree to a leaf: 0 goes left and 1 right. A leaf
/// has the digest of the byte 00 and the value's bytes, a branch that of the byte 01, the left digest and the right
/// one, and where no key is held the leaf is that of no bytes. Under each key digest the value inserted last counts.
///
/// An insertion gives a new map, which shares with the old one what it doesn't change. The root fixes the contents, up
/// to a collision and values without bytes: a key with such a value counts in [`len`](Map::len), and has the root of a
/// map without it.
///
/// Contracts see a map as the finite map from key bits to leaf digests.
///
/// ```rust
/// let none: Map<Sha256, &str, &str> = Map::default(alloc);
/// let newest = none.insert("left-pad", "1.0.0")?;
/// if let Some(proof) = newest.prove("left-pad")? {
///     let holds = proof.evaluate(&"left-pad", &"1.0.0") == *newest.root();
/// }
/// ```
pub struct Map<D: SupportedDigest, K, V, A: Allocator = Global> {
    pub(crate) link: Link<D, A>,
    count: usize,
    alloc: A,
    key: PhantomData<K>,
    value: PhantomData<V>,
}

impl<D: SupportedDigest, K, V, A: Allocator> Model for Map<D, K, V, A> {
    ghost use Rattle.std.specs.Prelude.{◌≡◌};
    ghost use Rattle.std.specs.FinMap.{len};
    ghost use Rattle.warg_map.specs.Sparse.{SparseMap, sparse_map_code, HasLevels};

    ghost Value = { SparseMap };

    ghost coded = { sparse_map_code };

    ghost view = { λ m. m.link.1 };

    ghost invariant = { λ m. (m.link.0 ≡ 256) × (m.count ≡ len m.link.1) × HasLevels 256 m.link.1 };
}

// By hand, so that a caller who drops a map sees a call and not the tree.
impl<D: SupportedDigest, K, V, A: Allocator> Drop for Map<D, K, V, A> {
    fn drop(self) {
        let Map {
            link: _,
            count: _,
            alloc: _,
            key: _,
            value: _,
        } = self;
    }
}

/// By the root alone: a key with a value without bytes makes no difference.
impl<D: SupportedDigest, K, V, A: Allocator> PartialEq for Map<D, K, V, A> {
    ghost use Rattle.std.specs.Cmp.Lexicographic.{pointwise};
    ghost use Rattle.std.specs.Prelude.{nat_eq};
    ghost use Rattle.std.specs.Ordering.{on};
    ghost use Rattle.std.specs.Cmp.Rules.{comparing};
    ghost use Rattle.std.proofs.Common.{rules};
    ghost use Rattle.warg_map.specs.Sparse.{sparse_root};

    ghost eq = { on (sparse_root D.digest 256) (pointwise nat_eq) };

    ghost laws = { Prim.search (comparing, rules) };

    fn eq(&self, other: &Map<D, K, V, A>) -> bool {
        self.root() == other.root()
    }
}

impl<D: SupportedDigest, K, V, A: Allocator> Eq for Map<D, K, V, A> {
    ghost use Rattle.std.specs.Cmp.Rules.{comparing};
    ghost use Rattle.std.proofs.Common.{rules};

    ghost laws = { Prim.search (comparing, rules) };
}

/// By the root alone.
impl<D: SupportedDigest, K, V, A: Allocator> std::hash::Hash for Map<D, K, V, A> {
    ghost use Rattle.std.specs.Hash as fed;
    ghost use Rattle.std.specs.Cmp.Rules.{comparing, hashing};
    ghost use Rattle.std.proofs.Common.{rules};
    ghost use Rattle.warg_map.specs.Sparse.{sparse_root};

    ghost hash_input = { λ m. fed.slice fed.u8 (sparse_root D.digest 256 m) };

    ghost respects_eq = { Prim.search (hashing, rules) };

    fn hash<H: std::hash::Hasher>(&self, state: &mut H) {
        self.root().bytes().hash(state);
    }
}

/// The tree is shared. It does not allocate, and refuses only where the owners of the tree can't be counted.
impl<D: SupportedDigest, K, V, A: Allocator + Copy> Clone for Map<D, K, V, A> {
    ghost use Rattle.std.specs.Prelude.{◌≡◌};

    ghost is_clone = { λ m copy. copy ≡ m };

    fn clone(&self) -> Result<Map<D, K, V, A>, AllocError> {
        Ok(Map {
            link: self.link.clone()?,
            count: self.len(),
            alloc: self.alloc,
            key: PhantomData,
            value: PhantomData,
        })
    }
}

impl<D: SupportedDigest, K, V, A: Allocator> Map<D, K, V, A> {
    /// The digest of the top of the tree.
    pub fn root(&self) -> &Hash<D>
        ensures { result.now ≡ sparse_root D.digest 256 self.now }
    {
        self.link.hash()
    }

    /// The number of key digests that are held.
    pub fn len(&self) -> usize
        ensures { result ≡ map.len self.now }
    {
        self.count
    }

    /// Whether no key digest is held.
    pub fn is_empty(&self) -> bool
        ensures { IsTrue result ↔ (map.len self.now ≡ 0) }
    {
        self.len() == 0
    }

    /// The number of nodes that the tree is made of, a shared one counted at each place: 1 for the empty map, 2 for
    /// a lone key, and at most `3 * n - 2` for `n` of two or more key digests.
    pub fn node_count(&self) -> u128
        ensures exact { result ≡ node_count self.now }
        ensures few { 1 < map.len self.now → result + 2 ≤ 3 * map.len self.now }
    {
        let _len = self.len();
        self.link.node().count()
    }
}

impl<D: SupportedDigest, K: VisitBytes + Drop, V: VisitBytes + Drop, A: Allocator + Copy> Map<
    D,
    K,
    V,
    A,
> {
    /// The empty map, which keeps `alloc` for its nodes and proofs. It does not allocate.
    pub fn default(alloc: A) -> Map<D, K, V, A>
        ensures { result ≡ map.empty }
    {
        Map {
            link: Link::new(Node::Empty),
            count: 0,
            alloc,
            key: PhantomData,
            value: PhantomData,
        }
    }

    /// Returns the proof of what is held under `key`, or `None` exactly if its digest isn't held; `None` does not
    /// allocate. It fails only if allocation fails.
    ///
    /// The proof has one peer more than the most bits that the key's digest shares with another that is held, and one
    /// for a lone key. It leads from the leaf digest that is held to the root ([`own_proof`](crate::laws::own_proof)).
    ///
    /// It takes the key by value, as the Rust crate does, while [`evaluate`](Proof::evaluate) borrows it. A key to
    /// evaluate the proof with later has to be cloned, or passed by reference here.
    pub fn prove(&self, key: K) -> Result<Option<Proof<D, K, V, A>>, AllocError>
        ensures answer { let bits = key_bits D.digest (K.bytes key) in
            IfOk result (λ o. MatchOption o (map.contains_key self.now bits ≡ false)
            (Proves D.digest 256 self.now bits)) }
        ensures none { map.contains_key self.now (key_bits D.digest (K.bytes key)) ≡ false
            → result ≡ Ok None }
    {
        let (answer, proof) = self.proof_of(&Hash::of(&key), Asked::Presence)?;
        Ok(answer.and(Some(proof)))
    }

    /// Returns the proof that the leaf under `key` is empty, or `None` exactly if it isn't; `None` does not allocate.
    /// It fails only if allocation fails.
    ///
    /// For a key whose digest isn't held, the proof has one peer more than the most bits that this digest shares with
    /// one that is held, and none in the empty map; a peer is `None` where its subtree holds no key. A value of no bytes
    /// has the digest of an empty leaf, too: under its key this is the proof of [`prove`](Map::prove). The proof leads
    /// from an empty leaf to the root ([`own_absence`](crate::laws::own_absence)).
    ///
    /// It takes the key by value, as `prove` does.
    pub fn prove_absence(&self, key: K) -> Result<Option<Proof<D, K, V, A>>, AllocError>
        ensures empty { let bits = key_bits D.digest (K.bytes key) in
            IfOk result (λ o. IsSome o ↔ (leaf_at D.digest self.now bits ≡ empty_root D.digest 0)) }
        ensures peers { let bits = key_bits D.digest (K.bytes key) in
            IfOk result (λ o. IfSome o (ProvesEmpty D.digest self.now bits)) }
        ensures none { leaf_at D.digest self.now (key_bits D.digest (K.bytes key))
            ≢ empty_root D.digest 0 → result ≡ Ok None }
    {
        let (answer, proof) = self.proof_of(&Hash::of(&key), Asked::EmptyLeaf)?;
        Ok(answer.and(Some(proof)))
    }

    /// The map with `val` under `key`, in place of what was held under the key's digest.
    ///
    /// `Full` comes exactly for a new key digest where `len` is `usize::MAX`, before allocating; else it fails only if
    /// allocation fails (`Memory`).
    pub fn insert(&self, key: K, val: V) -> Result<Map<D, K, V, A>, MapError>
        ensures ok { IfOk result (λ m. m ≡ map.insert self.now (key_bits D.digest (K.bytes key))
            (leaf_digest D.digest (V.bytes val))) }
        ensures full { (result ≡ Err MapError.Full)
            ↔ ((map.len self.now ≡ usize.MAX)
            × (map.contains_key self.now (key_bits D.digest (K.bytes key)) ≡ false)) }
    {
        self.with_leaf(&Hash::of(&key), hash_leaf(&val))
    }

    /// The map with all the pairs of an iterator inserted, in order.
    ///
    /// It first takes all of them, as their digests, and then hashes once each branch above several of them. A map more
    /// than half full takes them one by one.
    ///
    /// `Full` comes where one of them is a new key digest at a `len` of `usize::MAX`: before allocating where it is
    /// the first. After a refusal the rest of the iterator is dropped.
    pub fn extend<I: Iterator<Item = (K, V)> + Drop>(
        &self,
        mut iter: I,
    ) -> Result<Map<D, K, V, A>, MapError>
        requires can { I.can_next iter }
        requires ends { IsFinite (I.remaining iter) }
        ensures ok { IfOk result (IsExtended D.digest K.bytes V.bytes I.next_gives iter self.now) }
        ensures full { result ≡ Err MapError.Full
            → IsFullWithin D.digest K.bytes V.bytes I.next_gives iter self.now }
        // Where a map is returned, no pair was one too many.
        ensures fits { IfOk result (λ m. map.len m ≤ usize.MAX) }

        // Where the map is full, and the first pair, whichever it is, is of a new key digest, memory isn't asked for.
        ensures at_once { map.len self.now ≡ usize.MAX
            → BeginsNew D.digest K.bytes I.next_gives iter self.now
            → result ≡ Err MapError.Full }
    {
        let len = self.len();
        if len <= usize::MAX / 2 {
            return Ok(self.extended_at_once(iter)?);
        }
        let Some((key, val)) = iter.next() else {
            return Ok(self.clone()?);
        };
        self.insert(key, val)?.extended(iter)
    }

    // This map with all the pairs of an iterator inserted, in order, after all are taken.
    fn extended_at_once<I: Iterator<Item = (K, V)> + Drop>(
        &self,
        iter: I,
    ) -> Result<Map<D, K, V, A>, AllocError>
        requires few { map.len self.now ≤ usize.MAX / 2 }
        requires can { I.can_next iter }
        requires ends { IsFinite (I.remaining iter) }
        ensures ok { IfOk result (IsExtended D.digest K.bytes V.bytes I.next_gives iter self.now) }
        ensures fits { IfOk result (λ m. map.len m ≤ usize.MAX) }
    {
        let leaves = leaves_of(self.alloc, iter)?;
        self.with_leaves(leaves)
    }

    // This map with all the pairs of an iterator inserted, in order.
    fn extended<I: Iterator<Item = (K, V)> + Drop>(
        self,
        iter: I,
    ) -> Result<Map<D, K, V, A>, MapError>
        requires can { I.can_next iter }
        requires ends { IsFinite (I.remaining iter) }
        ensures ok { IfOk result (IsExtended D.digest K.bytes V.bytes I.next_gives iter self) }
        ensures full { result ≡ Err MapError.Full
            → IsFullWithin D.digest K.bytes V.bytes I.next_gives iter self }
        ensures fits { IfOk result (λ m. map.len m ≤ usize.MAX) }
    {
        let mut all = self;
        for (key, val) in iter {
            all = all.insert(key, val)?;
        }
        let _len = all.len();
        Ok(all)
    }
}

// What is asked of a key digest, whatever the keys and values are.
impl<D: SupportedDigest, K, V, A: Allocator + Copy> Map<D, K, V, A> {
    // Whether a key digest is held, with the proof of that, if one is asked for. Else the proof has no peers, and no
    // memory is taken.
    pub(crate) fn proof_of(
        &self,
        key: &Hash<D>,
        asked: Asked,
    ) -> Result<(Option<bool>, Proof<D, K, V, A>), AllocError>
        ensures answer { let answer = answer_of D.digest asked (map.get self.now (last_bits key.now 256)) in
            MatchResult result (λ r. r.0 ≡ answer) (λ _. IsSome answer) }
        ensures proof { let bits = last_bits key.now 256 in
            IfOk result (λ r. IsSome r.0 → ProvesEmpty D.digest self.now bits r.1) }
    {
        let mut to = Collected {
            asked,
            held: None,
            peers: Vec::new(self.alloc),
        };
        self.link.node().collect(key, 0, &mut to)?;
        Ok((to.held, Proof::new(to.peers)))
    }

    // Whether a key digest is one too many: a new one, where the map is full. For such a one this does not allocate.
    fn is_full_for(&self, key: &Hash<D>) -> Result<bool, AllocError>
        ensures few { map.len self.now ≤ usize.MAX }
        ensures full { let full = IsOneTooMany self.now key.now in
            MatchResult result (λ r. IsTrue r ↔ full) (λ _. ¬ full) }
    {
        if self.count < usize::MAX {
            return Ok(false);
        }
        let (held, _) = self.proof_of(key, Asked::Presence)?;
        Ok(held.is_none())
    }

    // The map with a leaf digest under a key digest.
    fn with_leaf(&self, key: &Hash<D>, leaf: Hash<D>) -> Result<Map<D, K, V, A>, MapError>
        ensures ok { IfOk result (λ m. m ≡ map.insert self.now (last_bits key.now 256) leaf) }
        ensures full { (result ≡ Err MapError.Full) ↔ IsOneTooMany self.now key.now }
    {
        if self.is_full_for(key)? {
            return Err(MapError::Full);
        }
        Ok(self.with_lone(Singleton::leaf(key.copied(), leaf))?)
    }

    // The map with a lone key.
    fn with_lone(&self, lone: Singleton<D>) -> Result<Map<D, K, V, A>, AllocError>
        requires { map.len (map.insert self.now (last_bits lone.key 256) lone.value) ≤ usize.MAX }
        ensures { IfOk result (λ m. m ≡ map.insert self.now (last_bits lone.key 256) lone.value) }
    {
        let mut leaves = Vec::with_capacity(self.alloc, 1)?;
        leaves.push_reserved(lone);
        self.with_leaves(leaves)
    }

    // The map with leaf digests put under their key digests, in order.
    fn with_leaves(&self, leaves: Vec<Singleton<D>, A>) -> Result<Map<D, K, V, A>, AllocError>
        requires { map.len (with_leaves 256 self.now leaves.items) ≤ usize.MAX }
        ensures { IfOk result (λ m. m ≡ with_leaves 256 self.now leaves.items) }
    {
        let grown = spread(self.alloc, &self.link, leaves, 0)?;
        Ok(Map {
            link: grown.link,
            count: self.count + grown.fresh,
            alloc: self.alloc,
            key: PhantomData,
            value: PhantomData,
        })
    }
}

// The leaves of the pairs of an iterator, in order.
fn leaves_of<
    D: SupportedDigest,
    K: VisitBytes + Drop,
    V: VisitBytes + Drop,
    A: Allocator,
    I: Iterator<Item = (K, V)> + Drop,
>(alloc: A, iter: I) -> Result<Vec<Singleton<D>, A>, AllocError>
    requires can { I.can_next iter }
    requires ends { IsFinite (I.remaining iter) }
    ensures { IfOk result (λ leaves. AreLeavesOf D.digest K.bytes V.bytes I.next_gives iter leaves.items) }
{
    let mut leaves = Vec::new(alloc);
    for (key, value) in iter {
        leaves.push(Singleton::of(&key, &value))?;
    }
    Ok(leaves)
}

/// As `Map(ROOT)`.
impl<D: SupportedDigest, K, V, A: Allocator> Debug for Map<D, K, V, A> {
    fn fmt<W: fmt::Write>(&self, f: &mut fmt::Formatter<W>) -> fmt::Result {
        let root = self.root();
        write!(f, "Map({root:?})")
    }
}
