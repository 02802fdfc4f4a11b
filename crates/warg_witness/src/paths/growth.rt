//! Where the evaluation of a consistency path diverges from the trees over the old and the new entries.

ghost use Rattle.std.specs.Prelude.{◌≡◌, ℕ, ◌+◌, ◌-◌, ◌<◌, ◌≤◌, List, ◌∷◌, length, reverse, Option, None, MatchOption};
ghost use Rattle.warg_log.specs.Tree.{front_of};
ghost use Rattle.warg_log.specs.Ranges.{leaves_from, front_part, rest_part, IsAligned};
ghost use Rattle.warg_witness.specs.Ranges.{IsAround};
ghost use Rattle.warg_witness.specs.Private.Divergence.{root_at, BranchesDiffer};
ghost use Rattle.warg_witness.specs.Private.Meeting.{descent, whole_descent, LeadsOver, IsTreeDivergence};

use crate::divergence::{Branches, Divergence};
use crate::plain::plain_digest;
use crate::trees::{Trees, divergence_below};
use std::alloc::Allocator;
use warg_crypto::{Hash, SupportedDigest, VisitBytes};
use warg_log::{GREATEST_LENGTH, LeafRange, LogBuilder, VecLog};
use warg_paths::roots_of_subproof;

// The branch of an evaluation over the digests of two parts of a range, and that of a tree, where these are two.
fn branches_apart<D: SupportedDigest, V: VisitBytes, A: Allocator>(
    tree: &VecLog<D, V, A>,
    left: &Hash<D>,
    right: &Hash<D>,
    front: &LeafRange,
    rest: &LeafRange,
) -> Option<Branches<D>>
    requires front_aligned { IsAligned front.now.start front.now.count }
    requires front_within { front.now.start + front.now.count ≤ length tree.now }
    requires rest_aligned { IsAligned rest.now.start rest.now.count }
    requires rest_within { rest.now.start + rest.now.count ≤ length tree.now }
    ensures { MatchOption result ((left.now ≡ root_at D.digest tree.now front.now)
        × (right.now ≡ root_at D.digest tree.now rest.now))
        (BranchesDiffer left.now right.now (root_at D.digest tree.now front.now) (root_at D.digest tree.now rest.now)) }
{
    let first = plain_digest(tree, front);
    let second = plain_digest(tree, rest);
    prove_eq!(left.len(), first.len());
    if (left, right) == (&first, &second) {
        return None;
    }
    Some(Branches {
        right: false,
        first: left.copied(),
        first_beside: right.copied(),
        second: first,
        second_beside: second,
    })
}

fn copy_of<D>(root: &Option<Hash<D>>) -> Option<Hash<D>>
    ensures { result ≡ root.now }
{
    match root {
        Some(root) => Some(root.copied()),
        None => None,
    }
}

// Where the old leaves end in the first part of a range: the branches over it, of the evaluation and of the new tree, if they
// differ. Else the evaluation goes on to the roots of both trees over that part.
#[tactic(auto, using(crate::proofs::RangeLemmas::parts))]
fn apart_in_front<D: SupportedDigest, V: VisitBytes, A: Allocator>(
    trees: &Trees<D, V, A>,
    old_root: &Option<Hash<D>>,
    old_count: usize,
    range: &LeafRange,
    top: &Hash<D>,
    below: &[Hash<D>],
) -> Option<Branches<D>>
    requires some { 0 < old_count }
    requires in_front { old_count ≤ front_of range.now.count }
    requires more { 1 < range.now.count }
    requires aligned { IsAligned range.now.start range.now.count }
    requires in_new { range.now.start + range.now.count ≤ length trees.now.new }
    requires leads { LeadsOver D.digest trees.now
        (descent old_root.now old_count range.now (top.now ∷ reverse below.now)) }
    ensures { MatchOption result
        (LeadsOver D.digest trees.now (descent old_root.now old_count (front_part range.now) (reverse below.now)))
        (λ b. (place : ℕ) → IsTreeDivergence D.digest trees.now place
        (descent old_root.now old_count range.now (top.now ∷ reverse below.now)) (Divergence.Branch b)) }
{
    let (front, rest) = range.split();
    let led = roots_of_subproof(copy_of(old_root), old_count, front.count, below);
    let Some((_, new)) = led else { unreachable!() };
    branches_apart(&trees.new, &new, top, &front, &rest)
}

// Where the old leaves end in the rest of a range: the branches over it, of the evaluation and of one of the trees, if they
// differ. Else both trees have one root over the first part, and the evaluation goes on to their roots over the rest.
#[tactic(auto, using(crate::proofs::RangeLemmas::parts))]
fn apart_in_rest<D: SupportedDigest, V: VisitBytes, A: Allocator>(
    trees: &Trees<D, V, A>,
    old_count: usize,
    range: &LeafRange,
    top: &Hash<D>,
    below: &[Hash<D>],
) -> Option<Branches<D>>
    requires in_rest { front_of range.now.count < old_count }
    requires order { old_count < range.now.count }
    requires more { 1 < range.now.count }
    requires aligned { IsAligned range.now.start range.now.count }
    requires in_old { range.now.start + old_count ≤ length trees.now.old }
    requires in_new { range.now.start + range.now.count ≤ length trees.now.new }
    requires leads { LeadsOver D.digest trees.now (descent None old_count range.now (top.now ∷ reverse below.now)) }
    ensures { MatchOption result ((root_at D.digest trees.now.old (front_part range.now)
        ≡ root_at D.digest trees.now.new (front_part range.now)) × LeadsOver D.digest trees.now
        (descent None (old_count - front_of range.now.count) (rest_part range.now) (reverse below.now)))
        (λ b. (known : Option (List ℕ)) (place : ℕ) → IsTreeDivergence D.digest trees.now place
        (descent known old_count range.now (top.now ∷ reverse below.now)) (Divergence.Branch b)) }
{
    let (front, rest) = range.split();
    let old_rest = LeafRange::new(rest.start, old_count - front.count);
    let Some((old, new)) = roots_of_subproof(None, old_rest.count, rest.count, below) else {
        unreachable!()
    };
    if let Some(apart) = branches_apart(&trees.old, top, &old, &front, &old_rest) {
        return Some(apart);
    }
    branches_apart(&trees.new, top, &new, &front, &rest)
}

// Where the evaluation of what is left of a path, which leads to the roots of both trees over a range, diverges from one of
// them on the way down, or else both trees diverge on the way to the leaf at `place`.
#[tactic(auto, using(crate::proofs::RangeLemmas::parts, crate::proofs::GrowthLemmas::downs))]
fn divergence_over<D: SupportedDigest, V: VisitBytes, A: Allocator>(
    trees: &Trees<D, V, A>,
    place: usize,
    old_root: &Option<Hash<D>>,
    old_count: usize,
    range: &LeafRange,
    path: &[Hash<D>],
) -> Divergence<D>
    requires order { old_count ≤ range.now.count }
    requires around { IsAround (leaves_from place 1) (leaves_from range.now.start old_count) }
    requires aligned { IsAligned range.now.start range.now.count }
    requires in_old { range.now.start + old_count ≤ length trees.now.old }
    requires in_new { range.now.start + range.now.count ≤ length trees.now.new }
    requires leads { LeadsOver D.digest trees.now (descent old_root.now old_count range.now (reverse path.now)) }
    ensures { IsTreeDivergence D.digest trees.now place
        (descent old_root.now old_count range.now (reverse path.now)) result }
{
    if old_count == range.count {
        return divergence_below(trees, range, place);
    }
    let Some((top, below)) = path.split_last() else {
        unreachable!()
    };
    let (front, rest) = range.split();
    if old_count <= front.count {
        if let Some(apart) = apart_in_front(trees, old_root, old_count, range, top, below) {
            return Divergence::Branch(apart);
        }
        return divergence_over(trees, place, old_root, old_count, &front, below);
    }
    if let Some(apart) = apart_in_rest(trees, old_count, range, top, below) {
        return Divergence::Branch(apart);
    }
    if place < rest.start {
        return divergence_below(trees, &front, place);
    }
    divergence_over(trees, place, &None, old_count - front.count, &rest, below)
}

/// Where the evaluation of a path that leads to the roots of both trees diverges from one of them, or else both trees
/// diverge on the way to the leaf at `place`. Down to there it hashes the evaluation's branches once more for each of its
/// digests, and each of the trees' beside it.
#[tactic(auto, using(crate::proofs::RangeLemmas::wholes))]
pub(super) fn growth_divergence<D: SupportedDigest, V: VisitBytes, A: Allocator>(
    trees: &Trees<D, V, A>,
    place: usize,
    path: &[Hash<D>],
) -> Divergence<D>
    requires place { place < length trees.now.old }
    requires order { length trees.now.old ≤ length trees.now.new }
    requires fits { length trees.now.new ≤ GREATEST_LENGTH }
    requires leads { LeadsOver D.digest trees.now (whole_descent D.digest trees.now path.now) }
    ensures { IsTreeDivergence D.digest trees.now place (whole_descent D.digest trees.now path.now)
        result }
{
    let old_root = Some(trees.old.root());
    let whole = LeafRange::new(0, trees.new.length());
    divergence_over(trees, place, &old_root, trees.old.length(), &whole, path)
}
