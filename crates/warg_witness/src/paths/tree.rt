//! The witness for consistency paths.

ghost use Rattle.std.specs.Prelude.{◌≡◌, ℕ, ◌<◌, ◌≤◌, ◌↔◌, List, length, map, None, Ok, IfOk, IsTrue, false, ⊤};
ghost use Rattle.warg_log.specs.Tree.{leaves_of, root_of};
ghost use Rattle.warg_paths.specs.Paths.{consistency_roots};
ghost use Rattle.warg_witness.specs.Findings.{Finds};
ghost use Rattle.warg_witness.specs.Claims.{Begins};
ghost use Rattle.warg_witness.specs.PathClaims.{IsTreeMet};
ghost use Rattle.warg_witness.specs.TreePlaced.{IsTreePlaced};
ghost use Rattle.warg_witness.specs.Private.Meeting.{IsTreeMeeting};

use super::MOST_LEAVES;
use super::growth::growth_divergence;
use crate::collision::Finding;
use crate::plain::entry_at;
use crate::trees::{Trees, first_difference, plain_trees};
use std::alloc::{AllocError, Allocator};
use warg_crypto::{Hash, Leaf, SupportedDigest, VisitBytes};
use warg_log::LogBuilder;
use warg_paths::roots_of_consistency;

// Whether the path leads from a root of `old_length` entries to some root of `new_length`, whichever the old root is.
fn leads<D: SupportedDigest>(path: &[Hash<D>], old_length: usize, new_length: usize) -> bool
    ensures order { IsTrue result → (0 < old_length) × (old_length ≤ new_length) }
    ensures nowhere { (old : List ℕ) → (result ≡ false)
        ↔ (consistency_roots D.digest old_length new_length old path.now ≡ None) }
{
    let any_root = Hash::<D>::from_array([0; 32]);
    roots_of_consistency(old_length, new_length, &any_root, path).is_some()
}

/// Whether a consistency path's claim is true of the entries: the new entries begin with the old ones, byte by byte.
///
/// `NotMet` exactly if the path doesn't lead from the root of the tree over the old entries to this root and that of
/// the tree over the new ones; where it leads to no roots, as where it has another length than that of these lengths,
/// there are no old entries or more old than new ones, before allocating. `Holds` exactly if it leads there, and the
/// claim is true. Else a collision, one of: what the digest function takes in the evaluation of the path (first; RFC
/// 6962, section 2.1.2) for the old root and in the tree over the old entries (second), or for the new root and in the
/// tree over the new entries, at one range on the way to the old length's end; what it takes in the old tree (first)
/// and in the new one (second) at one range of both.
///
/// It hashes each leaf and branch of both trees once; besides, twice each branch of the path's evaluation, and where the
/// claim is false at most as many branches more as the square of the path's length, and at most twice more each branch of
/// both trees on the way from the first entry that differs up to the roots, or beside that way. It fails only if
/// allocation fails. An entry of more than `usize::MAX` bytes counts as that, and so do more than 2^63 entries.
pub fn witness_tree<D: SupportedDigest, V: VisitBytes, A: Allocator + Copy>(
    alloc: A,
    path: &[Hash<D>],
    old: &[V],
    new: &[V],
) -> Result<Finding<D, A>, AllocError>
    ensures leads { consistency_roots D.digest (length old.now) (length new.now)
        (root_of D.digest (leaves_of D.digest (map V.bytes old.now))) path.now ≡ None
        → result ≡ Ok Finding.NotMet }
    ensures found { IfOk result (Finds
        (IsTreeMet D.digest path.now (map V.bytes old.now) (map V.bytes new.now))
        (Begins (map V.bytes old.now) (map V.bytes new.now))
        (IsTreePlaced D.digest path.now (map V.bytes old.now)
        (map V.bytes new.now))) }
{
    if !leads(path, old.len(), new.len()) {
        return Ok(Finding::NotMet);
    }
    if new.len() > MOST_LEAVES {
        return Err(AllocError);
    }
    let trees = plain_trees(alloc, old, new)?;
    let plain_root = trees.old.root();
    let Some((old_root, new_root)) = roots_of_consistency(old.len(), new.len(), &plain_root, path)
    else {
        return Ok(Finding::NotMet);
    };
    if old_root != plain_root || new_root != trees.new.root() {
        return Ok(Finding::NotMet);
    }
    find_difference(alloc, path, old, new, &trees)
}

/// What the trees over the entries show to whose roots the path leads.
#[tactic(auto, using(crate::proofs::GrowthLemmas::whole_trees))]
pub(crate) fn find_difference<D: SupportedDigest, V: VisitBytes, A: Allocator + Copy>(
    alloc: A,
    path: &[Hash<D>],
    old: &[V],
    new: &[V],
    trees: &Trees<D, V, A>,
) -> Result<Finding<D, A>, AllocError>
    requires { IsTreeMeeting D.digest path.now (map V.bytes old.now) (map V.bytes new.now) trees.now }
    ensures { IfOk result (Finds ⊤ (Begins (map V.bytes old.now) (map V.bytes new.now))
        (IsTreePlaced D.digest path.now (map V.bytes old.now)
        (map V.bytes new.now))) }
{
    let Some(place) = first_difference(old, new)? else {
        return Ok(Finding::Holds);
    };
    let divergence = growth_divergence(trees, place, path);
    let (old_entry, new_entry) = (entry_at(old, place), entry_at(new, place));
    let pair = divergence.collide(alloc, &Leaf(old_entry), &Leaf(new_entry))?;
    Ok(Finding::Collision(pair))
}
