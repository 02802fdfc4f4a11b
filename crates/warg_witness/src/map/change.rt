//! The witness for a step from one map to another.

ghost use Rattle.std.specs.Prelude.{◌≡◌, ◌↔◌, ◌++◌, ◌∷◌, [], IfOk, IsTrue, ⊤};
ghost use Rattle.warg_map.specs.Sparse.{map_of, pair_bytes, sparse_root};
ghost use Rattle.warg_witness.specs.Findings.{Finds};
ghost use Rattle.warg_witness.specs.ChangeClaims.{IsChangeMet, IsUpdate, IsUpdatePlaced};
ghost use Rattle.warg_witness.specs.MapClaims.{IsKeyMet};
ghost use Rattle.warg_witness.specs.MapsPlaced.{HaveSameValues};
ghost use Rattle.warg_witness.specs.Private.Divergence.{Parts};
ghost use Rattle.warg_witness.specs.Private.MapMeeting.{IsPlacedInStep};

use crate::collision::Finding;
use crate::divergence::Divergence;
use crate::map::maps::{find_apart, key_apart};
use crate::map::plain::{Lent, grown};
use crate::map::{find_key, meet_insertions};
use std::alloc::{AllocError, Allocator};
use warg_crypto::{SupportedDigest, VisitBytes};
use warg_map::{Map, Proof};

// The insertions, each lent.
fn lent<'a, K: VisitBytes, V: VisitBytes, A: Allocator>(
    alloc: A,
    insertions: &'a [(K, V)],
) -> Result<Vec<(Lent<'a, K>, Lent<'a, V>), A>, AllocError>
    ensures { IfOk result (λ v. pair_bytes (λ k. K.bytes k.0.now) (λ w. V.bytes w.0.now) v.items
        ≡ pair_bytes K.bytes V.bytes insertions.now) }
{
    let mut pairs = Vec::new(alloc);
    'insertions: for (key, value) in insertions {
        pairs.push((Lent(key), Lent(value)))?;
    }
    Ok(pairs)
}

/// Whether a step from one map to another is true of both maps' insertions: the value inserted last under the key's bytes
/// has the old value's bytes, and each key's last value is one in the new map and in the old one with the new value
/// inserted too. A key that is inserted nowhere counts as one with no bytes: an absence is a proof with an old value of no
/// bytes.
///
/// `NotMet` exactly if the proof doesn't lead from the old value to the root of the map of the old insertions, and from the
/// new value to that of the new ones. `Holds` exactly if it does, and the claim is true. Else a collision: one of
/// [`witness_key`](crate::witness_key) for the old value, or of [`witness_update`](crate::witness_update); or what the
/// digest function takes in the map of the old insertions and the new value (first) and in the map of the new ones (second)
/// at one prefix of bits; or two inserted keys with one digest.
///
/// It costs what `witness_update` does, the map of the new insertions, and one pass over the keys of both, each hashed
/// three times and looked up by its digest, with memory for these digests. Only a key that isn't the last one of its
/// digest is compared with all. For a collision of two maps it makes one more map, and does what `witness_key` does.
/// It fails only if allocation fails, as there.
pub fn witness_change<
    D: SupportedDigest,
    K: VisitBytes,
    V: VisitBytes,
    W: VisitBytes,
    A: Allocator + Copy,
    B: Allocator,
>(
    alloc: A,
    proof: &Proof<D, K, V, B>,
    key: &K,
    old_value: &W,
    new_value: &V,
    old: &[(K, V)],
    new: &[(K, V)],
) -> Result<Finding<D, A>, AllocError>
    ensures found { IfOk result (Finds
        (IsChangeMet D.digest proof.now (K.bytes key.now) (W.bytes old_value.now)
        (V.bytes new_value.now) (pair_bytes K.bytes V.bytes old.now)
        (pair_bytes K.bytes V.bytes new.now))
        (IsUpdate (K.bytes key.now) (W.bytes old_value.now) (V.bytes new_value.now)
        (pair_bytes K.bytes V.bytes old.now) (pair_bytes K.bytes V.bytes new.now))
        (IsUpdatePlaced D.digest proof.now (W.bytes old_value.now, V.bytes new_value.now) (K.bytes key.now)
        (pair_bytes K.bytes V.bytes old.now, pair_bytes K.bytes V.bytes new.now))) }
{
    let Some(met) = meet_insertions(alloc, proof.peers(), key, old_value, old)? else {
        return Ok(Finding::NotMet);
    };
    if !leads_to(alloc, proof, key, new_value, new)? {
        return Ok(Finding::NotMet);
    }
    match find_key(alloc, &met, key, old_value, old)? {
        Finding::Holds => (),
        lie => return Ok(lie),
    }
    find_change(alloc, &met.divergence, key, new_value, old, new)
}

// What the old insertions and the new value show beside the new ones, where the proof's evaluation diverges from the old
// map's tree, or leads to both maps' one root.
fn find_change<D: SupportedDigest, K: VisitBytes, V: VisitBytes, A: Allocator + Copy>(
    alloc: A,
    divergence: &Divergence<D>,
    key: &K,
    value: &V,
    old: &[(K, V)],
    new: &[(K, V)],
) -> Result<Finding<D, A>, AllocError>
    requires { Parts D.digest (λ first second. ⊤)
        (sparse_root D.digest 256 (map_of D.digest (pair_bytes K.bytes V.bytes old.now
        ++ (K.bytes key.now, V.bytes value.now) ∷ []))
        ≡ sparse_root D.digest 256 (map_of D.digest (pair_bytes K.bytes V.bytes new.now)))
        divergence.now }
    ensures { let updated = pair_bytes K.bytes V.bytes old.now ++ (K.bytes key.now, V.bytes value.now) ∷ [] in
        IfOk result (Finds ⊤ (HaveSameValues updated (pair_bytes K.bytes V.bytes new.now))
        (IsPlacedInStep D.digest divergence.now updated (pair_bytes K.bytes V.bytes new.now))) }
{
    let mut updated = lent(alloc, old)?;
    updated.push((Lent(key), Lent(value)))?;
    let given = lent(alloc, new)?;
    find_step(alloc, divergence, &updated, &given)
}

// Whether a proof leads from a value to the root of the map of the insertions.
fn leads_to<D: SupportedDigest, K: VisitBytes, V: VisitBytes, A: Allocator + Copy, B: Allocator>(
    alloc: A,
    proof: &Proof<D, K, V, B>,
    key: &K,
    value: &V,
    insertions: &[(K, V)],
) -> Result<bool, AllocError>
    ensures { IfOk result (λ is. IsTrue is ↔ IsKeyMet D.digest proof.now (K.bytes key.now) (V.bytes value.now)
        (pair_bytes K.bytes V.bytes insertions.now)) }
{
    let map: Map<D, Lent<'_, K>, Lent<'_, V>, A> = grown(alloc, insertions)?;
    Ok(proof.evaluate(key, value) == *map.root())
}

// The same of two lists of insertions.
fn find_step<D: SupportedDigest, K: VisitBytes, V: VisitBytes, A: Allocator + Copy>(
    alloc: A,
    divergence: &Divergence<D>,
    updated: &[(K, V)],
    given: &[(K, V)],
) -> Result<Finding<D, A>, AllocError>
    requires { Parts D.digest (λ first second. ⊤)
        (sparse_root D.digest 256 (map_of D.digest (pair_bytes K.bytes V.bytes updated.now))
        ≡ sparse_root D.digest 256 (map_of D.digest (pair_bytes K.bytes V.bytes given.now)))
        divergence.now }
    ensures { IfOk result (Finds ⊤ (HaveSameValues (pair_bytes K.bytes V.bytes updated.now)
        (pair_bytes K.bytes V.bytes given.now))
        (IsPlacedInStep D.digest divergence.now (pair_bytes K.bytes V.bytes updated.now)
        (pair_bytes K.bytes V.bytes given.now))) }
{
    let Some(apart) = key_apart::<D, K, V, A>(alloc, updated, given)? else {
        return Ok(Finding::Holds);
    };
    match divergence {
        Divergence::Branch(branches) => Ok(Finding::Collision(branches.collide(alloc)?)),
        Divergence::Target => find_apart(alloc, apart, updated, given),
    }
}
