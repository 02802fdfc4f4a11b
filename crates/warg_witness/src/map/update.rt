//! The witness for one insertion more.

ghost use Rattle.std.specs.Prelude.{IfOk, ⊤};
ghost use Rattle.warg_map.specs.Sparse.{pair_bytes};
ghost use Rattle.warg_witness.specs.Findings.{Finds};
ghost use Rattle.warg_witness.specs.MapClaims.{IsKeyMet, IsKeyAgreement};
ghost use Rattle.warg_witness.specs.MapPlaced.{IsPlacedAtPrefix};
ghost use Rattle.warg_witness.specs.UpdateClaims.{IsUpdated};
ghost use Rattle.warg_witness.specs.Private.Agreement.{IsFoundAt};
ghost use Rattle.warg_witness.specs.Private.Divergence.{Parts};

use crate::collision::Finding;
use crate::divergence::Divergence;
use crate::map::plain::Lent;
use crate::map::{KeyMeeting, meet_insertions};
use std::alloc::{AllocError, Allocator};
use warg_crypto::{SupportedDigest, VisitBytes};
use warg_map::Proof;

/// Whether a proof that leads from the old value to the root of the map of the insertions leads from the new value to
/// the root of the map with the new value inserted too. An absence is a proof with an old value of no bytes.
///
/// `NotMet` exactly if the proof doesn't lead from the old value to the root of the map of the insertions. `Holds`
/// exactly if it does, and leads from the new value to the new root. Else a collision: what the digest function takes
/// in the evaluation from the old value (first) and in the plain tree over the insertions (second) at one prefix of the
/// key's bits.
///
/// It costs what [`witness_key`](crate::witness_key) does, and at most two digests of the key and of the new value and
/// 512 branches more. It fails only if allocation fails.
#[tactic(auto, using(crate::proofs::AgreementLemmas::branches_collide))]
pub fn witness_update<
    D: SupportedDigest,
    K: VisitBytes,
    V: VisitBytes,
    A: Allocator + Copy,
    B: Allocator,
>(
    alloc: A,
    proof: &Proof<D, K, V, B>,
    key: &K,
    old_value: &V,
    new_value: &V,
    insertions: &[(K, V)],
) -> Result<Finding<D, A>, AllocError>
    ensures found { IfOk result (Finds
        (IsKeyMet D.digest proof.now (K.bytes key.now) (V.bytes old_value.now)
        (pair_bytes K.bytes V.bytes insertions.now))
        (IsUpdated D.digest proof.now (K.bytes key.now) (V.bytes new_value.now)
        (pair_bytes K.bytes V.bytes insertions.now))
        (IsPlacedAtPrefix D.digest proof.now (V.bytes old_value.now) (K.bytes key.now)
        (pair_bytes K.bytes V.bytes insertions.now))) }
{
    let Some(met) = meet_insertions(alloc, proof.peers(), key, old_value, insertions)? else {
        return Ok(Finding::NotMet);
    };
    find_update(alloc, &met, proof, key, new_value)
}

/// What a proof shows that doesn't lead from the new value to the new root, where its evaluation diverges from the plain
/// tree.
#[tactic(auto, using(crate::proofs::HashLemmas::meets))]
pub(crate) fn find_update<
    'a,
    D: SupportedDigest,
    K: VisitBytes,
    V: VisitBytes,
    A: Allocator + Copy,
    B: Allocator,
>(
    alloc: A,
    met: &KeyMeeting<'a, D, K, V, A>,
    proof: &Proof<D, K, V, B>,
    key: &'a K,
    new_value: &'a V,
) -> Result<Finding<D, A>, AllocError>
    requires { Parts D.digest (λ first second. ⊤) ⊤ met.now.divergence }
    ensures { IfOk result (IsFoundAt met.now.divergence (IsKeyAgreement D.digest (K.bytes key.now)
        proof.now (V.bytes new_value.now) met.now.own (V.bytes new_value.now))) }
{
    let Divergence::Branch(branches) = &met.divergence else {
        return Ok(Finding::Holds);
    };
    let new_root = met.own.evaluate(&Lent(key), &Lent(new_value));
    if proof.evaluate(key, new_value) == new_root {
        return Ok(Finding::Holds);
    }
    Ok(Finding::Collision(branches.collide(alloc)?))
}
