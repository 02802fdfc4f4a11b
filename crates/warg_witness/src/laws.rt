//! Laws of the definitions in `specs/`: the contract of each function is the law, and it has no effect.
//!
//! They are what the witnesses rest on, with no program in it: whenever the claim of a proof is met and isn't
//! true, two byte strings that differ and have one digest stand in the evaluation and the trees over the
//! entries or the insertions. They hold for every function from byte lists to 32 bytes, whatever digests a proof has; that
//! of two paths holds for every function, and asks 32 bytes of their digests.

ghost use Rattle.std.specs.Prelude.{◌≡◌, ℕ, ◌↔◌, IsTrue, true, List, Option, Some};
ghost use Rattle.warg_map.specs.Bits.{key_bits};
ghost use Rattle.warg_map.specs.Last.{last_under};
ghost use Rattle.warg_map.specs.Peers.{Proves, ProvesAbsent};
ghost use Rattle.warg_map.specs.Sparse.{sparse_root, map_of};
ghost use Rattle.warg_witness.specs.Asked.{all_asked, ValueLaw, HashLaw, AgreementLaw, ConsistencyLaw, RecordLaw, RecordAgreementLaw, TreeLaw, KeyAgreementLaw, KeyLaw, AbsenceLaw, UpdateLaw, StepsLaw, EqualMapsLaw};
ghost use Rattle.warg_witness.specs.MapClaims.{IsKeyMet, IsAbsenceMet};
ghost use Rattle.warg_witness.specs.UpdateClaims.{IsUpdated};

use crate::collision::Finding;
use std::alloc::Allocator;
use warg_crypto::SupportedDigest;
use warg_paths::laws::path_is_unique;

/// A value's claim that is met and isn't true gives a collision.
#[tactic(auto, using(crate::proofs::LawLemmas::value_collides))]
pub fn value_or_collision()
    ensures { (H : List ℕ → List ℕ) → ValueLaw all_asked H }
{}

/// A hash's claim that is met and isn't true gives a collision.
#[tactic(auto, using(crate::proofs::LawLemmas::hash_collides))]
pub fn hash_or_collision()
    ensures { (H : List ℕ → List ℕ) → HashLaw true all_asked H }
{}

/// Two different values that lead to one root over two data give a collision.
#[tactic(auto, using(crate::proofs::LawLemmas::agreement_collides))]
pub fn agreement_or_collision()
    ensures { (H : List ℕ → List ℕ) → AgreementLaw all_asked H }
{}

/// A claim of consistency that is met and isn't true gives a collision.
pub fn consistency_or_collision()
    ensures { (H : List ℕ → List ℕ) → ConsistencyLaw all_asked H }
{}

/// A record's claim that is met and isn't true gives a collision.
#[tactic(auto, using(crate::proofs::PathLawLemmas::record_collides))]
pub fn record_or_collision()
    ensures { (H : List ℕ → List ℕ) → RecordLaw all_asked H }
{}

/// Two different values that two paths of one place lead to one root give a collision.
pub fn record_agreement_or_collision()
    ensures { (H : List ℕ → List ℕ) → RecordAgreementLaw all_asked H }
{
    path_is_unique();
}

/// A consistency path's claim that is met and isn't true gives a collision.
#[tactic(auto, using(crate::proofs::PathLawLemmas::tree_collides))]
pub fn tree_or_collision()
    ensures { (H : List ℕ → List ℕ) → TreeLaw all_asked H }
{}

/// Two different values that two proofs of one key lead to one root give a collision.
#[tactic(auto, using(crate::proofs::LawLemmas::key_agreement_collides))]
pub fn key_agreement_or_collision()
    ensures { (H : List ℕ → List ℕ) → KeyAgreementLaw all_asked H }
{}

/// A key's claim that is met and isn't true gives a collision.
#[tactic(auto, using(crate::proofs::LawLemmas::key_collides))]
pub fn key_or_collision()
    ensures { (H : List ℕ → List ℕ) → KeyLaw all_asked H }
{}

/// An absence's claim that is met and isn't true gives a collision.
#[tactic(auto, using(crate::proofs::LawLemmas::key_collides), unfolding(warg_crypto::specs::EmptyTrees::empty_root))]
pub fn absence_or_collision()
    ensures { (H : List ℕ → List ℕ) → AbsenceLaw all_asked H }
{}

/// An update's claim that is met and isn't true gives a collision.
#[tactic(auto, using(crate::proofs::LawLemmas::update_collides))]
pub fn update_or_collision()
    ensures { (H : List ℕ → List ℕ) → UpdateLaw all_asked H }
{}

/// Steps that lead from the empty map's root to another end at the root of the map of exactly these insertions, in their
/// order, or two byte strings collide at one of the steps. So whoever checks each step knows that nothing else was
/// inserted, changed or removed.
#[tactic(auto, using(crate::proofs::LawLemmas::steps_end))]
pub fn steps_or_collision()
    ensures { (H : List ℕ → List ℕ) → StepsLaw all_asked H }
{}

/// A map's own proof of a key whose value was inserted last of its digest meets the claim of any update of it, and the
/// claim is true.
#[tactic(auto, using(crate::proofs::LawLemmas::own_met, crate::proofs::LawLemmas::own_updated))]
pub fn own_update()
    ensures { (H : List ℕ → List ℕ) (insertions : List (List ℕ × List ℕ))
        (key old_value new_value : List ℕ)
        → (peers : List (Option (List ℕ))) → last_under H (key_bits H key) insertions
        ≡ Some (key, old_value)
        → Proves H 256 (map_of H insertions) (key_bits H key) peers
        → IsKeyMet H peers key old_value insertions × IsUpdated H peers key new_value insertions }
{}

/// A map's own proof that a key's digest isn't held meets the claim of any insertion under it, and the claim is true.
pub fn own_insertion()
    ensures { (H : List ℕ → List ℕ) (insertions : List (List ℕ × List ℕ)) (key value : List ℕ)
        (peers : List (Option (List ℕ)))
        → ProvesAbsent H (map_of H insertions) (key_bits H key) peers
        → IsAbsenceMet H peers key insertions × IsUpdated H peers key value insertions }
{}

/// Where two maps of insertions have equal roots, each value of the one that its map holds, under the key that was
/// inserted last of its digest, meets the claim over the other's insertions, by its own proof. So
/// [`witness_key`](crate::witness_key) returns `Holds` or a collision there.
#[tactic(auto, using(crate::proofs::LawLemmas::own_met))]
pub fn equal_roots()
    ensures { (H : List ℕ → List ℕ) (insertions others : List (List ℕ × List ℕ))
        (key value : List ℕ) (peers : List (Option (List ℕ)))
        → sparse_root H 256 (map_of H insertions) ≡ sparse_root H 256 (map_of H others)
        → last_under H (key_bits H key) insertions ≡ Some (key, value)
        → Proves H 256 (map_of H insertions) (key_bits H key) peers
        → IsKeyMet H peers key value others }
{}

/// Two maps of one root have one last value under each key, or give a collision.
#[tactic(auto, using(crate::proofs::MapLawLemmas::maps_collide))]
pub fn equal_maps_or_collision()
    ensures { (H : List ℕ → List ℕ) → EqualMapsLaw all_asked H }
{}

/// Findings are equal exactly if they are of one kind, and, as collisions, have the same byte strings.
pub fn equal_findings<D: SupportedDigest, A: Allocator>(
    first: &Finding<D, A>,
    second: &Finding<D, A>,
) -> bool
    ensures { IsTrue result ↔ (first.now ≡ second.now) }
{
    first == second
}
