//! Two evaluations over the ranges of a log's tree, side by side.

ghost use Rattle.std.specs.Prelude.{◌≡◌, ◌<◌, not, MatchOption};
ghost use Rattle.warg_log.specs.Cut.{with_target};
ghost use Rattle.warg_log.specs.Ranges.{IsAligned};
ghost use Rattle.warg_witness.specs.Private.Divergence.{HaveOneDigest, IsDivergence, LackDigest, IsRangeClimb, IsNodeRange, IsAbove, side_of};
ghost use Rattle.warg_witness.specs.Ranges.{IsAround};

use crate::divergence::{Climb, Divergence};
use warg_crypto::{Hash, SupportedDigest, VisitBytes};
use warg_log::{LeafRange, LogData, range_root};

/// The part of a larger range that has the target, the part beside it, and whether the first is the one on the right.
#[tactic(auto, using(crate::proofs::RangeLemmas::sides))]
pub(crate) fn sides_around(target: &LeafRange, range: &LeafRange) -> (LeafRange, LeafRange, bool)
    requires node { IsNodeRange target.now }
    requires aligned { IsAligned range.now.start range.now.count }
    requires above { IsAbove target.now range.now }
    ensures side { result.0 ≡ side_of result.2 range.now }
    ensures beside { result.1 ≡ side_of (not result.2) range.now }
    ensures smaller { result.0.count < range.now.count }
    ensures aligned { IsAligned result.0.start result.0.count }
    ensures around { IsAround target.now result.0 }
{
    let (front, rest) = range.split();
    if target.start < rest.start {
        (front, rest, false)
    } else {
        (rest, front, true)
    }
}

// Both evaluations from the target up to the range. None where a digest lacks in one of them.
#[tactic(auto, using(crate::proofs::CutLemmas::cut_around, crate::proofs::RangeLemmas::above))]
fn climb_ranges<D: SupportedDigest, V: VisitBytes, L: LogData<D, V>, M: LogData<D, V>>(
    first: &L,
    first_hash: &Hash<D>,
    second: &M,
    second_hash: &Hash<D>,
    target: &LeafRange,
    range: &LeafRange,
) -> Option<Climb<D>>
    requires node { IsNodeRange target.now }
    requires aligned { IsAligned range.now.start range.now.count }
    requires around { IsAround target.now range.now }
    ensures { let e = with_target (L.digest_at first.now) target.now first_hash.now in
        let f = with_target (M.digest_at second.now) target.now second_hash.now in
        MatchOption result (LackDigest D.digest e f range.now) (IsRangeClimb D.digest e f range.now) }
{
    if range == target {
        return Some(Climb::new(first_hash.copied(), second_hash.copied()));
    }
    let (held, beside, right) = sides_around(target, range);
    let climb = climb_ranges(first, first_hash, second, second_hash, target, &held)?;
    let first_beside = range_root(first, target, first_hash, &beside)?;
    let second_beside = range_root(second, target, second_hash, &beside)?;
    Some(climb.up(right, &first_beside, &second_beside))
}

/// Where two evaluations with digests at a target diverge, or None where they don't have one digest at the range. It
/// hashes each branch of both once.
pub(crate) fn meet_ranges<D: SupportedDigest, V: VisitBytes, L: LogData<D, V>, M: LogData<D, V>>(
    first: &L,
    first_hash: &Hash<D>,
    second: &M,
    second_hash: &Hash<D>,
    target: &LeafRange,
    range: &LeafRange,
) -> Option<Divergence<D>>
    requires node { IsNodeRange target.now }
    requires aligned { IsAligned range.now.start range.now.count }
    requires around { IsAround target.now range.now }
    ensures { let e = with_target (L.digest_at first.now) target.now first_hash.now in
        let f = with_target (M.digest_at second.now) target.now second_hash.now in
        let one = HaveOneDigest D.digest e f range.now in
        MatchOption result (¬ one) (λ p. one × IsDivergence D.digest e f range.now p) }
{
    climb_ranges(first, first_hash, second, second_hash, target, range)?.met()
}
