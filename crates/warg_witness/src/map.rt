//! Witnesses for the map's proofs.

ghost use Rattle.std.specs.Prelude.{◌≡◌, ◌≤◌, [], length, Ok, IfOk, MatchOption, ⊤};
ghost use Rattle.warg_crypto.specs.Collisions.{Collides};
ghost use Rattle.warg_map.specs.Bits.{key_bits};
ghost use Rattle.warg_map.specs.Last.{last_under};
ghost use Rattle.warg_map.specs.Sparse.{pair_bytes};
ghost use Rattle.warg_witness.specs.Findings.{Finds};
ghost use Rattle.warg_witness.specs.MapClaims.{IsKeyMet, IsAbsenceMet, IsKeyAgreement, IsLastValue};
ghost use Rattle.warg_witness.specs.MapPlaced.{IsKeyPlaced, IsKeyAgreementPlaced};
ghost use Rattle.warg_witness.specs.Private.MapMeeting.{IsKeyMeeting, key_inputs, lent_pair};

mod change;
mod indexed;
mod last;
mod maps;
mod path;
mod plain;
mod update;

use crate::collision::{Collision, Finding};
use crate::divergence::{Divergence, compare_values};
pub use change::witness_change;
use last::is_last_value;
use path::{Evaluation, meet_on_path};
use plain::{Lent, last_of_digest, own_proof, plain_leaf};
use std::alloc::{AllocError, Allocator};
pub use update::witness_update;
use warg_crypto::{Hash, Leaf, SupportedDigest, VisitBytes, hash_leaf, have_same_bytes};
use warg_map::Proof;

// A proof that leads to the plain root of given insertions.
#[derive(Drop)]
struct KeyMeeting<'a, D, K, V, A: Allocator> {
    // Where the evaluation diverges from the plain tree on the way from the root to the key's leaf.
    divergence: Divergence<D>,
    // The last insertion under the key's digest.
    last: Option<&'a (K, V)>,
    // The proof of the key that the map of the insertions gives.
    own: Proof<D, Lent<'a, K>, Lent<'a, V>, A>,
}

// The meeting of a proof with the insertions, or None where they don't meet.
fn meet_insertions<
    'a,
    D: SupportedDigest,
    K: VisitBytes,
    V: VisitBytes,
    W: VisitBytes,
    A: Allocator + Copy,
>(
    alloc: A,
    peers: &[Option<Hash<D>>],
    key: &'a K,
    value: &W,
    insertions: &'a [(K, V)],
) -> Result<Option<KeyMeeting<'a, D, K, V, A>>, AllocError>
    requires { length peers.now ≤ 256 }
    ensures { let pairs = pair_bytes K.bytes V.bytes insertions.now in let k = K.bytes key.now in
        IfOk result (λ met. MatchOption met
        (¬ (IsKeyMet D.digest peers.now k (W.bytes value.now) pairs))
        (λ m. (last_under D.digest (key_bits D.digest k) pairs ≡ lent_pair K.bytes V.bytes m.last)
        × IsKeyMeeting D.digest peers.now k (W.bytes value.now) pairs m.divergence m.own)) }
{
    let digest = Hash::of(key);
    let own = own_proof(alloc, key, insertions)?;
    let last = last_of_digest(&digest, insertions);
    let evaluation = Evaluation {
        peers,
        leaf: hash_leaf(value),
    };
    let tree = Evaluation {
        peers: own.peers(),
        leaf: plain_leaf(last),
    };
    let Some(divergence) = meet_on_path(&digest, evaluation, tree) else {
        return Ok(None);
    };
    Ok(Some(KeyMeeting {
        divergence,
        last,
        own,
    }))
}

// What a proof's peers and a value, or no bytes, show of a key.
fn find<D: SupportedDigest, K: VisitBytes, V: VisitBytes, W: VisitBytes, A: Allocator + Copy>(
    alloc: A,
    peers: &[Option<Hash<D>>],
    key: &K,
    value: &W,
    insertions: &[(K, V)],
) -> Result<Finding<D, A>, AllocError>
    requires { length peers.now ≤ 256 }
    ensures { IfOk result (Finds
        (IsKeyMet D.digest peers.now (K.bytes key.now) (W.bytes value.now)
        (pair_bytes K.bytes V.bytes insertions.now))
        (IsLastValue (K.bytes key.now) (W.bytes value.now)
        (pair_bytes K.bytes V.bytes insertions.now))
        (IsKeyPlaced D.digest peers.now (W.bytes value.now) (K.bytes key.now)
        (pair_bytes K.bytes V.bytes insertions.now))) }
{
    let Some(met) = meet_insertions(alloc, peers, key, value, insertions)? else {
        return Ok(Finding::NotMet);
    };
    find_key(alloc, &met, key, value, insertions)
}

// What a proof that leads to the plain root shows of a key.
#[tactic(auto, using(std::proofs::lemmas::Bool::iff_false, crate::proofs::KeyLemmas::same_values))]
fn find_key<D: SupportedDigest, K: VisitBytes, V: VisitBytes, W: VisitBytes, A: Allocator + Copy>(
    alloc: A,
    met: &KeyMeeting<'_, D, K, V, A>,
    key: &K,
    value: &W,
    insertions: &[(K, V)],
) -> Result<Finding<D, A>, AllocError>
    requires { ¬ (IsLastValue (K.bytes key.now) (W.bytes value.now)
        (pair_bytes K.bytes V.bytes insertions.now))
        → Collides D.digest (key_inputs met.now.divergence
        (lent_pair K.bytes V.bytes met.now.last) (K.bytes key.now) (W.bytes value.now)) }
    ensures { IfOk result (Finds ⊤
        (IsLastValue (K.bytes key.now) (W.bytes value.now)
        (pair_bytes K.bytes V.bytes insertions.now))
        (λ first second. (first, second) ≡ key_inputs met.now.divergence
        (lent_pair K.bytes V.bytes met.now.last) (K.bytes key.now) (W.bytes value.now))) }
{
    if is_last_value(key, value, insertions)? {
        return Ok(Finding::Holds);
    }
    if let Divergence::Branch(branches) = &met.divergence {
        return Ok(Finding::Collision(branches.collide(alloc)?));
    }
    let Some((inserted, last)) = met.last else {
        let pair = Collision::of(alloc, &Leaf(value), &Leaf(&()))?;
        return Ok(Finding::Collision(pair));
    };
    if have_same_bytes(value, last)? {
        return Ok(Finding::Collision(Collision::of(alloc, key, inserted)?));
    }
    let pair = Collision::of(alloc, &Leaf(value), &Leaf(last))?;
    Ok(Finding::Collision(pair))
}

/// Whether a proof's claim about a key's value is true of the insertions: the value inserted last under the key's
/// bytes has the value's bytes. A key that is inserted nowhere counts as one with no bytes.
///
/// `NotMet` exactly if the proof doesn't lead from the value to the root of the map of the insertions. `Holds`
/// exactly if it does, and the claim is true. Else a collision: what the digest function takes in the evaluation
/// (first) and in the plain tree over the insertions (second) at one prefix of the key's bits; or the key's bytes
/// (first) and those of an inserted key with the same digest (second).
///
/// It grows the map of the insertions in one go ([`Map::extend`](warg_map::Map::extend)), and evaluates that map's own
/// proof of the key beside the given one, 256 branches each. To find the last insertion under the key's digest it
/// hashes the inserted keys once more, from the last one on, up to that one. It keeps the map until its proof is made,
/// and copies no key and no value but into a collision. It fails only if allocation fails. A key or a value of more
/// than `usize::MAX` bytes counts as that: no copy of it could be had.
pub fn witness_key<
    D: SupportedDigest,
    K: VisitBytes,
    V: VisitBytes,
    A: Allocator + Copy,
    B: Allocator,
>(
    alloc: A,
    proof: &Proof<D, K, V, B>,
    key: &K,
    value: &V,
    insertions: &[(K, V)],
) -> Result<Finding<D, A>, AllocError>
    ensures found { IfOk result (Finds
        (IsKeyMet D.digest proof.now (K.bytes key.now) (V.bytes value.now)
        (pair_bytes K.bytes V.bytes insertions.now))
        (IsLastValue (K.bytes key.now) (V.bytes value.now)
        (pair_bytes K.bytes V.bytes insertions.now))
        (IsKeyPlaced D.digest proof.now (V.bytes value.now) (K.bytes key.now)
        (pair_bytes K.bytes V.bytes insertions.now))) }
{
    find(alloc, proof.peers(), key, value, insertions)
}

/// Whether a proof's claim that a key is absent is true of the insertions: the value inserted last under the key's
/// bytes has no bytes, or the key is inserted nowhere.
///
/// `NotMet` exactly if the proof doesn't lead from an empty leaf to the root of the map of the insertions. `Holds`
/// exactly if it does, and the claim is true. Else a collision, as that of [`witness_key`] for a value without
/// bytes, and at the same cost. It fails only if allocation fails, as there.
pub fn witness_absent<
    D: SupportedDigest,
    K: VisitBytes,
    V: VisitBytes,
    A: Allocator + Copy,
    B: Allocator,
>(
    alloc: A,
    proof: &Proof<D, K, V, B>,
    key: &K,
    insertions: &[(K, V)],
) -> Result<Finding<D, A>, AllocError>
    ensures found { IfOk result (Finds
        (IsAbsenceMet D.digest proof.now (K.bytes key.now)
        (pair_bytes K.bytes V.bytes insertions.now))
        (IsLastValue (K.bytes key.now) [] (pair_bytes K.bytes V.bytes insertions.now))
        (IsKeyPlaced D.digest proof.now [] (K.bytes key.now)
        (pair_bytes K.bytes V.bytes insertions.now))) }
{
    find(alloc, proof.peers(), key, &(), insertions)
}

/// Whether two proofs of one key, each with a value, agree under one root, whichever it is.
///
/// `NotMet` exactly if the two don't lead to one root, which does not allocate. `Holds` exactly if they do, and the
/// values have the same bytes. Else a collision: what the digest function takes in the first and in the second
/// evaluation at one prefix of the key's bits. It fails only if allocation fails. A value of more than `usize::MAX`
/// bytes counts as that.
pub fn agree_key<
    D: SupportedDigest,
    K: VisitBytes,
    V: VisitBytes,
    A: Allocator + Copy,
    B: Allocator,
    C: Allocator,
>(
    alloc: A,
    key: &K,
    first_proof: &Proof<D, K, V, B>,
    first_value: &V,
    second_proof: &Proof<D, K, V, C>,
    second_value: &V,
) -> Result<Finding<D, A>, AllocError>
    ensures unmet { ¬ (IsKeyAgreement D.digest (K.bytes key.now) first_proof.now
        (V.bytes first_value.now)
        second_proof.now (V.bytes second_value.now)) → result ≡ Ok Finding.NotMet }
    ensures found { IfOk result (Finds
        (IsKeyAgreement D.digest (K.bytes key.now) first_proof.now (V.bytes first_value.now)
        second_proof.now (V.bytes second_value.now))
        (V.bytes first_value.now ≡ V.bytes second_value.now)
        (IsKeyAgreementPlaced D.digest (K.bytes key.now) (first_proof.now, V.bytes first_value.now)
        (second_proof.now, V.bytes second_value.now))) }
{
    let digest = Hash::of(key);
    let first = Evaluation {
        peers: first_proof.peers(),
        leaf: hash_leaf(first_value),
    };
    let second = Evaluation {
        peers: second_proof.peers(),
        leaf: hash_leaf(second_value),
    };
    let met = meet_on_path(&digest, first, second);
    compare_values(alloc, &met, first_value, second_value)
}
