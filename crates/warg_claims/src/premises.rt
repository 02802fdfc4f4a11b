//! What the premises and the placements of the laws in [`laws`](crate::laws) that end in a collision are for: the contract of
//! each function is the law, and it has no effect. Without any one premise such a law is false, of every digest function or of
//! one. Of the laws of the two checks those that they add to the witness's are shown: the verdict, the roots and the untruth.

ghost use Rattle.std.specs.Prelude.{◌≡◌, ◌⊎◌, ℕ, List, Some, Ok, true, slice_get};
ghost use Rattle.warg_crypto.specs.Collisions.{GivesHashes, Collides, SomeCollision};
ghost use Rattle.warg_check.specs.Claims.{Claim, Evidence, verdict};
ghost use Rattle.warg_claims.specs.Worlds.{World, HasRoots, IsTrueOf, IsLogOf};
ghost use Rattle.warg_check.specs.Verdicts.{inclusion_verdict, consistency_verdict};
ghost use Rattle.warg_log.specs.Sparse.{held_digest};
ghost use Rattle.warg_log.specs.declared.node.Node.{Node};
ghost use Rattle.warg_bundle.specs.LogBundles.{Bundle, bundle_of};
ghost use Rattle.warg_witness.specs.Claims.{IsEntry, Begins};
ghost use Rattle.warg_witness.specs.Placed.{IsValuePlaced, IsConsistencyPlaced};
ghost use Rattle.warg_claims.specs.Placed.{IsPlaced};
ghost use Rattle.std.specs.FinMap.{empty};
ghost use Rattle.warg_claims.specs.Audits.{AreChecked, steps_of};
ghost use Rattle.warg_map.specs.Sparse.{sparse_root, map_of};
ghost use Rattle.warg_witness.specs.UpdateClaims.{insertions_of, CollidesAtStep};

/// A claim without a true verdict may be untrue where no byte strings of those places collide.
pub fn verdict_is_needed()
    ensures { (H : List ℕ → List ℕ) → ¬ ((claim : Claim) (evidence : Evidence) (world : World claim)
        → HasRoots H claim world → ¬ IsTrueOf claim world
        → SomeCollision H (IsPlaced H claim evidence world)) }
{}

/// Nor is a claim with a true verdict true of a world with other roots.
pub fn roots_are_needed()
    ensures { (H : List ℕ → List ℕ) → ¬ ((claim : Claim) (evidence : Evidence) (world : World claim)
        → verdict H claim evidence ≡ Ok true → ¬ IsTrueOf claim world
        → SomeCollision H (IsPlaced H claim evidence world)) }
{}

/// Where a claim with a true verdict is true, there need be no collision.
pub fn untruth_is_needed()
    ensures { (H : List ℕ → List ℕ) → ¬ ((claim : Claim) (evidence : Evidence) (world : World claim)
        → verdict H claim evidence ≡ Ok true → HasRoots H claim world
        → SomeCollision H (IsPlaced H claim evidence world)) }
{}

/// That two byte strings collide says nothing without a place: under every function to 32 bytes some two do.
pub fn some_collide_anywhere()
    ensures { (H : List ℕ → List ℕ) → GivesHashes H → (pair : List ℕ × List ℕ) × Collides H pair }
{}

/// Where digests have any length, a claim may be untrue though no two byte strings have one digest.
pub fn hashes_are_needed()
    ensures { ¬ ((H : List ℕ → List ℕ) (claim : Claim) (evidence : Evidence) (world : World claim)
        → verdict H claim evidence ≡ Ok true → HasRoots H claim world → ¬ IsTrueOf claim world
        → SomeCollision H (IsPlaced H claim evidence world)) }
{}

/// Where digests have any length, checked steps may end elsewhere, without a collision.
pub fn checked_hashes_are_needed()
    ensures { ¬ ((H : List ℕ → List ℕ) (steps : List (Claim × Evidence)) (end : List ℕ)
        → AreChecked H (sparse_root H 256 empty) steps end
        → (end ≡ sparse_root H 256 (map_of H (insertions_of (steps_of steps))))
        ⊎ CollidesAtStep H (steps_of steps)) }
{}

/// Steps that aren't checked may end anywhere, without a collision.
pub fn checked_steps_are_needed()
    ensures { (H : List ℕ → List ℕ) → ¬ ((steps : List (Claim × Evidence)) (end : List ℕ)
        → (end ≡ sparse_root H 256 (map_of H (insertions_of (steps_of steps))))
        ⊎ CollidesAtStep H (steps_of steps)) }
{}

/// A proof without a true verdict may be of a value that isn't the entry, without a collision.
pub fn inclusion_verdict_is_needed()
    ensures { ¬ ((H : List ℕ → List ℕ) (bytes : List ℕ) (place : ℕ) (value root : List ℕ) (b : Bundle)
        (node : Node) (entries : List (List ℕ)) → GivesHashes H → bundle_of bytes ≡ Ok b
        → slice_get b.included_nodes place ≡ Some node
        → IsLogOf H (record { root = root; length = b.log_length }) entries
        → ¬ IsEntry value node.0 entries
        → SomeCollision H (IsValuePlaced H (held_digest b.hashes) value node.0 entries)) }
{}

/// And so may one with a true verdict, of entries with another root.
pub fn inclusion_root_is_needed()
    ensures { ¬ ((H : List ℕ → List ℕ) (bytes : List ℕ) (place : ℕ) (value root : List ℕ) (b : Bundle)
        (node : Node) (entries : List (List ℕ)) → GivesHashes H
        → inclusion_verdict H bytes place value root ≡ Ok true → bundle_of bytes ≡ Ok b
        → slice_get b.included_nodes place ≡ Some node → ¬ IsEntry value node.0 entries
        → SomeCollision H (IsValuePlaced H (held_digest b.hashes) value node.0 entries)) }
{}

/// Where the value is the entry, there need be no collision.
pub fn inclusion_untruth_is_needed()
    ensures { (H : List ℕ → List ℕ) → ¬ ((bytes : List ℕ) (place : ℕ) (value root : List ℕ) (b : Bundle)
        (node : Node) (entries : List (List ℕ))
        → inclusion_verdict H bytes place value root ≡ Ok true → bundle_of bytes ≡ Ok b
        → slice_get b.included_nodes place ≡ Some node
        → IsLogOf H (record { root = root; length = b.log_length }) entries
        → SomeCollision H (IsValuePlaced H (held_digest b.hashes) value node.0 entries)) }
{}

/// Entries may not begin with others, without a collision, where no proof with a true verdict says so.
pub fn extension_verdict_is_needed()
    ensures { ¬ ((H : List ℕ → List ℕ) (bytes : List ℕ) (place : ℕ) (old new : List ℕ) (b : Bundle)
        (m : ℕ) (before after : List (List ℕ)) → GivesHashes H → bundle_of bytes ≡ Ok b
        → slice_get b.consistent_lengths place ≡ Some m
        → IsLogOf H (record { root = old; length = m }) before
        → IsLogOf H (record { root = new; length = b.log_length }) after → ¬ Begins before after
        → SomeCollision H (IsConsistencyPlaced H (held_digest b.hashes) before after)) }
{}

/// And where they have other roots than those that it leads to.
pub fn extension_roots_are_needed()
    ensures { ¬ ((H : List ℕ → List ℕ) (bytes : List ℕ) (place : ℕ) (old new : List ℕ) (b : Bundle)
        (m : ℕ) (before after : List (List ℕ)) → GivesHashes H
        → consistency_verdict H bytes place old new ≡ Ok true → bundle_of bytes ≡ Ok b
        → slice_get b.consistent_lengths place ≡ Some m → ¬ Begins before after
        → SomeCollision H (IsConsistencyPlaced H (held_digest b.hashes) before after)) }
{}

/// Where the new entries begin with the old ones, there need be no collision.
pub fn extension_untruth_is_needed()
    ensures { ¬ ((H : List ℕ → List ℕ) (bytes : List ℕ) (place : ℕ) (old new : List ℕ) (b : Bundle)
        (m : ℕ) (before after : List (List ℕ)) → GivesHashes H
        → consistency_verdict H bytes place old new ≡ Ok true → bundle_of bytes ≡ Ok b
        → slice_get b.consistent_lengths place ≡ Some m
        → IsLogOf H (record { root = old; length = m }) before
        → IsLogOf H (record { root = new; length = b.log_length }) after
        → SomeCollision H (IsConsistencyPlaced H (held_digest b.hashes) before after)) }
{}
