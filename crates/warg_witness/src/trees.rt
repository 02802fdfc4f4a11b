//! The trees over old and new entries, where the entries differ, and where the trees diverge.

ghost use Rattle.std.specs.Prelude.{◌≡◌, ◌+◌, ◌<◌, ◌≤◌, length, map, IfOk};
ghost use Rattle.warg_log.specs.Tree.{leaves_of};
ghost use Rattle.warg_log.specs.Cut.{with_own};
ghost use Rattle.warg_witness.specs.Ranges.{IsAround};
ghost use Rattle.warg_log.specs.Ranges.{leaves_from, IsAligned};
ghost use Rattle.warg_witness.specs.Private.Agreement.{IsFirstDifference};
ghost use Rattle.warg_witness.specs.Private.Divergence.{IsDivergence, root_at};

use crate::divergence::Divergence;
use crate::plain::{plain_digest, plain_tree};
use crate::ranges::meet_ranges;
use std::alloc::{AllocError, Allocator};
use warg_crypto::{SupportedDigest, VisitBytes, have_same_bytes};
use warg_log::{GREATEST_LENGTH, LeafRange, VecLog};

/// The trees over the old and the new entries.
#[derive(Drop)]
pub(crate) struct Trees<D: SupportedDigest, V: VisitBytes, A: Allocator> {
    pub(crate) old: VecLog<D, V, A>,
    pub(crate) new: VecLog<D, V, A>,
}

/// The trees over the old and the new entries. It hashes each leaf and each branch of both once.
pub(crate) fn plain_trees<D: SupportedDigest, V: VisitBytes, A: Allocator + Copy>(
    alloc: A,
    old: &[V],
    new: &[V],
) -> Result<Trees<D, V, A>, AllocError>
    requires old_fits { length old.now ≤ GREATEST_LENGTH }
    requires new_fits { length new.now ≤ GREATEST_LENGTH }
    ensures { IfOk result (λ trees. (trees.old ≡ leaves_of D.digest (map V.bytes old.now))
        × (trees.new ≡ leaves_of D.digest (map V.bytes new.now))) }
{
    Ok(Trees {
        old: plain_tree(alloc, old)?,
        new: plain_tree(alloc, new)?,
    })
}

/// The first place at which the new entries have other bytes than the old ones, if there is one.
pub(crate) fn first_difference<V: VisitBytes>(
    old: &[V],
    new: &[V],
) -> Result<Option<usize>, AllocError>
    requires { length old.now ≤ length new.now }
    ensures { IfOk result (IsFirstDifference (map V.bytes old.now) (map V.bytes new.now)) }
{
    for (place, entry) in old.iter().enumerate() {
        if !have_same_bytes(entry, &new[place])? {
            return Ok(Some(place));
        }
    }
    Ok(None)
}

/// Where two trees that have one digest at a range diverge on the way to the leaf at `place`.
#[tactic(auto, using(crate::proofs::RangeLemmas::leaves))]
pub(crate) fn divergence_below<D: SupportedDigest, V: VisitBytes, A: Allocator>(
    trees: &Trees<D, V, A>,
    range: &LeafRange,
    place: usize,
) -> Divergence<D>
    requires aligned { IsAligned range.now.start range.now.count }
    requires around { IsAround (leaves_from place 1) range.now }
    requires in_old { range.now.start + range.now.count ≤ length trees.now.old }
    requires in_new { range.now.start + range.now.count ≤ length trees.now.new }
    requires same { root_at D.digest trees.now.old range.now ≡ root_at D.digest trees.now.new range.now }
    ensures { IsDivergence D.digest (with_own D.digest trees.now.old (leaves_from place 1))
        (with_own D.digest trees.now.new (leaves_from place 1)) range.now result }
{
    prove!(range.start <= place);
    let leaf = LeafRange::new(place, 1);
    let old = plain_digest(&trees.old, &leaf);
    let new = plain_digest(&trees.new, &leaf);
    match meet_ranges(&trees.old, &old, &trees.new, &new, &leaf, range) {
        Some(divergence) => divergence,
        None => unreachable!(),
    }
}
