//! The plain sparse tree over insertions: a map that is grown by them, as a key's path sees it.

ghost use Rattle.std.specs.Prelude.{◌≡◌, ℕ, List, IfOk};
ghost use Rattle.warg_crypto.specs.Tree.{leaf_digest};
ghost use Rattle.warg_map.specs.Bits.{key_bits};
ghost use Rattle.warg_map.specs.Last.{last_under};
ghost use Rattle.warg_map.specs.Peers.{ProvesEmpty};
ghost use Rattle.warg_map.specs.Sparse.{map_of, pair_bytes};
ghost use Rattle.warg_witness.specs.MapClaims.{value_in};
ghost use Rattle.warg_witness.specs.Private.MapMeeting.{lent_pair};

use std::alloc::{AllocError, Allocator};
use warg_crypto::{ByteVisitor, Hash, SupportedDigest, VisitBytes, hash_leaf};
use warg_map::{KeyProof, Map, Proof};

/// A key or a value that is lent, with the bytes that it has.
#[derive(Drop)]
pub(crate) struct Lent<'a, V>(pub(crate) &'a V);

impl<V: VisitBytes> VisitBytes for Lent<'_, V> {
    ghost bytes = { λ lent. V.bytes lent.0.now };

    fn visit<W: ByteVisitor>(&self, to: &mut W) {
        self.0.visit(to);
    }
}

/// The map of the insertions.
pub(crate) fn grown<'a, D: SupportedDigest, K: VisitBytes, V: VisitBytes, A: Allocator + Copy>(
    alloc: A,
    insertions: &'a [(K, V)],
) -> Result<Map<D, Lent<'a, K>, Lent<'a, V>, A>, AllocError>
    ensures { IfOk result (λ map. map
        ≡ map_of D.digest (pair_bytes K.bytes V.bytes insertions.now)) }
{
    let pairs = insertions.iter().map(|pair| (Lent(&pair.0), Lent(&pair.1)));
    match Map::default(alloc).extend(pairs) {
        Ok(map) => Ok(map),
        // Out of memory: no slice has so many elements that the map could be full.
        Err(_) => Err(AllocError),
    }
}

/// The proof that the map of the insertions gives of a key, whether it holds the key or not.
pub(crate) fn own_proof<'a, D: SupportedDigest, K: VisitBytes, V: VisitBytes, A: Allocator + Copy>(
    alloc: A,
    key: &'a K,
    insertions: &'a [(K, V)],
) -> Result<Proof<D, Lent<'a, K>, Lent<'a, V>, A>, AllocError>
    ensures { IfOk result (ProvesEmpty D.digest
        (map_of D.digest (pair_bytes K.bytes V.bytes insertions.now))
        (key_bits D.digest (K.bytes key.now))) }
{
    let map = grown(alloc, insertions)?;
    match map.prove_key(&Lent(key))? {
        KeyProof::Presence(proof) | KeyProof::Absence(proof) => Ok(proof),
    }
}

/// The last insertion whose key has this digest. It hashes the keys from the last one on, up to that one.
pub(crate) fn last_of_digest<'a, D: SupportedDigest, K: VisitBytes, V: VisitBytes>(
    digest: &Hash<D>,
    insertions: &'a [(K, V)],
) -> Option<&'a (K, V)>
    ensures { (key : List ℕ) → digest.now ≡ D.digest key
        → last_under D.digest (key_bits D.digest key) (pair_bytes K.bytes V.bytes insertions.now)
        ≡ lent_pair K.bytes V.bytes result }
{
    insertions
        .iter()
        .rev()
        .find(|pair| Hash::of(&pair.0) == *digest)
}

/// The digest of the plain tree's leaf, by the last insertion under it.
pub(crate) fn plain_leaf<D: SupportedDigest, K: VisitBytes, V: VisitBytes>(
    last: Option<&(K, V)>,
) -> Hash<D>
    ensures { result ≡ leaf_digest D.digest
        (value_in (lent_pair K.bytes V.bytes last.entry)) }
{
    match last {
        Some((_, value)) => hash_leaf(value),
        None => hash_leaf(&()),
    }
}
