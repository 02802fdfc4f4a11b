//! Two evaluations along inclusion paths of one place, side by side.

ghost use Rattle.std.specs.Prelude.{◌≡◌, ℕ, ◌<◌, List, reverse, MatchOption};
ghost use Rattle.warg_paths.specs.Ways.{is_right, leaf_in, count_in};
ghost use Rattle.warg_witness.specs.Private.Turns.{LeadNowhere, IsPathClimb, NeverMeet, IsPathsMeeting};

use crate::divergence::{Climb, Divergence};
use warg_crypto::{Hash, SupportedDigest};
use warg_paths::front_of;

// Both evaluations from the leaf at an index of so many leaves up to their root. None where a path has another length than
// that of this leaf.
#[tactic(auto, using(warg_paths::proofs::ForCallers::root_long, warg_paths::proofs::ForCallers::root_short))]
fn climb_paths<D: SupportedDigest>(
    index: usize,
    count: usize,
    first_leaf: &Hash<D>,
    first_path: &[Hash<D>],
    second_leaf: &Hash<D>,
    second_path: &[Hash<D>],
) -> Option<Climb<D>>
    requires { index < count }
    ensures { let p : List ℕ × List (List ℕ) = (first_leaf.now, reverse first_path.now) in
        let q : List ℕ × List (List ℕ) = (second_leaf.now, reverse second_path.now) in
        MatchOption result (LeadNowhere D.digest p q index count) (IsPathClimb D.digest p q index count) }
{
    if count == 1 {
        if first_path.is_empty() && second_path.is_empty() {
            return Some(Climb::new(first_leaf.copied(), second_leaf.copied()));
        }
        return None;
    }
    let (first_top, first_below) = first_path.split_last()?;
    let (second_top, second_below) = second_path.split_last()?;
    let (right, index, count) = part_of(index, count);
    let below = climb_paths(
        index,
        count,
        first_leaf,
        first_below,
        second_leaf,
        second_below,
    )?;
    Some(below.up(right, first_top, second_top))
}

// Of so many leaves the part that has the one at an index: whether it is the rest, and in it the leaf's index and the count.
fn part_of(index: usize, count: usize) -> (bool, usize, usize)
    requires inside { index < count }
    requires more { 1 < count }
    ensures right { result.0 ≡ is_right index count }
    ensures index { result.1 ≡ leaf_in index count }
    ensures count { result.2 ≡ count_in index count }
    ensures inside { result.1 < result.2 }
{
    let front = front_of(count);
    if index < front {
        (false, index, front)
    } else {
        (true, index - front, count - front)
    }
}

/// Where two evaluations along paths of the place `index` of `length` leaves diverge, or None where they don't lead to one
/// root. It hashes each branch of both once.
#[tactic(auto, using(crate::proofs::RecordLemmas::nowhere_never))]
pub(crate) fn meet_paths<D: SupportedDigest>(
    index: usize,
    length: usize,
    first_leaf: &Hash<D>,
    first_path: &[Hash<D>],
    second_leaf: &Hash<D>,
    second_path: &[Hash<D>],
) -> Option<Divergence<D>>
    ensures { let p : List ℕ × List (List ℕ) = (first_leaf.now, first_path.now) in
        let q : List ℕ × List (List ℕ) = (second_leaf.now, second_path.now) in
        MatchOption result (NeverMeet D.digest p q index length)
        (IsPathsMeeting D.digest p q index length) }
{
    if index >= length {
        return None;
    }
    climb_paths(
        index,
        length,
        first_leaf,
        first_path,
        second_leaf,
        second_path,
    )?
    .met()
}
