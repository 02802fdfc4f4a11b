//! The theorem: what a true verdict is worth. The contract of each function is the law, and it has no effect.

ghost use Rattle.std.specs.Prelude.{◌≡◌, ◌⊎◌, ℕ, List, Some, Ok, true, slice_get};
ghost use Rattle.warg_crypto.specs.Collisions.{GivesHashes, SomeCollision};
ghost use Rattle.warg_check.specs.Claims.{Claim, Evidence, verdict};
ghost use Rattle.warg_claims.specs.Worlds.{World, HasRoots, IsTrueOf, IsLogOf};
ghost use Rattle.warg_check.specs.Verdicts.{inclusion_verdict, consistency_verdict};
ghost use Rattle.warg_log.specs.Sparse.{held_digest};
ghost use Rattle.warg_log.specs.declared.node.Node.{Node};
ghost use Rattle.warg_bundle.specs.LogBundles.{Bundle, bundle_of};
ghost use Rattle.warg_witness.specs.Claims.{IsEntry, Begins};
ghost use Rattle.warg_witness.specs.Placed.{IsValuePlaced, IsConsistencyPlaced};
ghost use Rattle.warg_claims.specs.Placed.{IsPlaced};
ghost use Rattle.warg_claims.specs.Own.{Has, IsOwn};
ghost use Rattle.warg_claims.specs.Audits.{AreChecked, steps_of};
ghost use Rattle.warg_map.specs.Sparse.{sparse_root, map_of};
ghost use Rattle.warg_witness.specs.UpdateClaims.{insertions_of, CollidesAtStep};
ghost use Rattle.std.specs.FinMap.{empty};

use warg_bundle::laws::{bundled_as_source, bundled_parts};
use warg_check::laws::{
    absence_is_shown, entry_is_shown, growth_is_shown, insertion_is_shown, key_is_shown,
    update_is_shown,
};
use warg_log::laws::{own_consistency, own_inclusion};
use warg_map::laws::{last_held, own_absence, own_proof};
use warg_paths::laws::{own_consistency_path, own_inclusion_path};
use warg_witness::laws::{
    absence_or_collision, consistency_or_collision, equal_maps_or_collision, key_or_collision,
    record_or_collision, steps_or_collision, tree_or_collision, update_or_collision,
    value_or_collision,
};

/// A true verdict is true: under the roots of its world a claim that evidence shows is true, or two different byte strings
/// of one digest stand at a named place, `IsPlaced`: the one is what the verdict's evaluation hashes, the other what the
/// tree over the world hashes at the same range or prefix; or two such trees, or two keys, collide.
pub fn true_or_collision()
    ensures { (H : List ℕ → List ℕ) (claim : Claim) (evidence : Evidence) (world : World claim)
        → GivesHashes H → verdict H claim evidence ≡ Ok true → HasRoots H claim world
        → ¬ IsTrueOf claim world → SomeCollision H (IsPlaced H claim evidence world) }
{
    entry_is_shown();
    growth_is_shown();
    key_is_shown();
    absence_is_shown();
    update_is_shown();
    insertion_is_shown();
    value_or_collision();
    consistency_or_collision();
    key_or_collision();
    absence_or_collision();
    update_or_collision();
    equal_maps_or_collision();
    record_or_collision();
    tree_or_collision();
}

/// What `check_inclusion` is worth, which binds neither length nor index: where its verdict is true, and entries have the root
/// and are as many as the bundle says, the proof's node is a leaf, and its entry has the value's bytes, or two different byte
/// strings of one digest stand where [`value_or_collision`] says. Of entries in any other number it says nothing.
pub fn inclusion_or_collision()
    ensures { (H : List ℕ → List ℕ) (bytes : List ℕ) (place : ℕ) (value root : List ℕ) (b : Bundle)
        (node : Node) (entries : List (List ℕ)) → GivesHashes H
        → inclusion_verdict H bytes place value root ≡ Ok true → bundle_of bytes ≡ Ok b
        → slice_get b.included_nodes place ≡ Some node
        → IsLogOf H (record { root = root; length = b.log_length }) entries
        → ¬ IsEntry value node.0 entries
        → SomeCollision H (IsValuePlaced H (held_digest b.hashes) value node.0 entries) }
{
    value_or_collision();
}

/// What `check_consistency` is worth, which binds no lengths: where its verdict is true, and old and new entries have the two
/// roots and are as many as the proof and the bundle say, the new entries begin with the old ones, or two different byte
/// strings of one digest stand where [`consistency_or_collision`] says. Of entries in any other number it says nothing.
pub fn extension_or_collision()
    ensures { (H : List ℕ → List ℕ) (bytes : List ℕ) (place : ℕ) (old new : List ℕ) (b : Bundle)
        (m : ℕ) (before after : List (List ℕ)) → GivesHashes H
        → consistency_verdict H bytes place old new ≡ Ok true → bundle_of bytes ≡ Ok b
        → slice_get b.consistent_lengths place ≡ Some m
        → IsLogOf H (record { root = old; length = m }) before
        → IsLogOf H (record { root = new; length = b.log_length }) after → ¬ Begins before after
        → SomeCollision H (IsConsistencyPlaced H (held_digest b.hashes) before after) }
{
    growth_is_shown();
    consistency_or_collision();
}

/// What is true has a true verdict: the evidence that a log or a map gives of what it has, a bundle or a path, shows the
/// claim under its roots.
pub fn own_evidence_is_true()
    ensures { (H : List ℕ → List ℕ) (claim : Claim) (evidence : Evidence) (world : World claim)
        → HasRoots H claim world → Has H claim world → IsOwn H claim evidence world
        → verdict H claim evidence ≡ Ok true }
{
    bundled_parts();
    bundled_as_source();
    own_inclusion();
    own_consistency();
    own_inclusion_path();
    own_consistency_path();
    own_proof();
    own_absence();
    last_held();
}

/// What a log or a map has is true of it.
pub fn what_is_had_is_true()
    ensures { (H : List ℕ → List ℕ) (claim : Claim) (world : World claim)
        → Has H claim world → IsTrueOf claim world }
{}

/// Checked steps end at the root of exactly what they insert: where updates and insertions with true verdicts lead from the
/// empty map's root to another, each from the root before it, that is the root of their insertions in order, or at one of
/// the steps what the evaluation from its old value and the tree over the insertions before it hash at one prefix collides.
pub fn checked_steps_or_collision()
    ensures { (H : List ℕ → List ℕ) (steps : List (Claim × Evidence)) (end : List ℕ) → GivesHashes H
        → AreChecked H (sparse_root H 256 empty) steps end
        → (end ≡ sparse_root H 256 (map_of H (insertions_of (steps_of steps))))
        ⊎ CollidesAtStep H (steps_of steps) }
{
    update_is_shown();
    insertion_is_shown();
    steps_or_collision();
}
