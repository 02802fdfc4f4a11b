//! An insertion with the proof of its step.

ghost use Rattle.std.specs.Prelude.{◌≡◌, ◌↔◌, IfOk, Err, false};
ghost use Rattle.std.specs.FinMap as map;
ghost use Rattle.warg_map.specs.Bits.{key_bits};
ghost use Rattle.warg_crypto.specs.Tree.{leaf_digest};
ghost use Rattle.warg_map.specs.Insertions.{IsInserted};

use crate::map::{Map, MapError};
use crate::proof::Proof;
use crate::walk::Asked;
use std::alloc::{Allocator, Global};
use warg_crypto::{Hash, SupportedDigest, VisitBytes, hash_leaf};

/// One insertion: the map with it, and the proof by which whoever holds the roots alone follows it.
#[derive(Drop)]
pub struct Insertion<D: SupportedDigest, K, V, A: Allocator = Global> {
    /// The map with the pair.
    pub map: Map<D, K, V, A>,
    /// The proof of the key in that map.
    pub proof: Proof<D, K, V, A>,
    /// Whether the key's digest wasn't held before.
    pub is_new: bool,
}

impl<D: SupportedDigest, K: VisitBytes + Drop, V: VisitBytes + Drop, A: Allocator + Copy> Map<
    D,
    K,
    V,
    A,
> {
    /// The map of [`insert`](Map::insert), and the proof of [`prove`](Map::prove) there.
    ///
    /// From what was held under the key the proof leads to this map's root, and from `val` to the new one's. For a new
    /// key that is an empty leaf. It hashes the key once, and no branch beside those of `insert`: a proof is made of the
    /// digests that the new map keeps. `Full` comes as there.
    pub fn insert_with_proof(&self, key: K, val: V) -> Result<Insertion<D, K, V, A>, MapError>
        ensures ok { IfOk result (λ i. IsInserted D.digest self.now (key_bits D.digest (K.bytes key))
            (leaf_digest D.digest (V.bytes val)) i.map i.proof i.is_new) }
        ensures full { (result ≡ Err MapError.Full)
            ↔ ((map.len self.now ≡ usize.MAX)
            × (map.contains_key self.now (key_bits D.digest (K.bytes key)) ≡ false)) }
    {
        let key = Hash::of(&key);
        let map = self.with_leaf(&key, hash_leaf(&val))?;
        let (_, proof) = map.proof_of(&key, Asked::Presence)?;
        let is_new = map.len() > self.len();
        Ok(Insertion { map, proof, is_new })
    }
}
