//! Consistency paths.

ghost use Rattle.std.specs.Prelude.{◌≡◌, ◌≢◌, ℕ, ◌+◌, ◌<◌, ◌≤◌, ◌⊎◌, ◌↔◌, List, [], reverse, Option, Some, None, Err, IfOk, IsTrue};
ghost use Rattle.warg_log.specs.Ranges.{Range};
ghost use Rattle.warg_log.specs.Cut.{old_over};
ghost use Rattle.warg_paths.specs.Paths.{beside, path_at_end, consistency_over, consistency_of, consistency_roots, subproof_roots, roots_down, one_root};

use crate::error::PathError;
use crate::front::front_of;
use std::alloc::Allocator;
use warg_crypto::{Hash, SupportedDigest, VisitBytes, hash_branch};
use warg_log::{Checkpoint, GREATEST_LENGTH, LeafRange, LogData, stored_root};

/// The consistency path from the first `old_length` entries to the first `new_length`, by the digests that the data
/// holds: each is the stored root of a part of the new log, from the bottom up (RFC 6962, section 2.1.2).
///
/// `OutOfRange` exactly if the old length isn't between 1 and the new one, and else `HashNotKnown` exactly
/// if one of these parts has no stored root, both before allocating; else it fails only if allocation fails.
pub fn consistency_path<D: SupportedDigest, V: VisitBytes, L: LogData<D, V>, A: Allocator>(
    alloc: A,
    hashes: &L,
    old_length: usize,
    new_length: usize,
) -> Result<Vec<Hash<D>, A>, PathError>
    requires { new_length ≤ GREATEST_LENGTH }
    ensures out_of_range { (result ≡ Err PathError.OutOfRange)
        ↔ ((old_length ≡ 0) ⊎ (new_length < old_length)) }
    ensures not_known { (result ≡ Err PathError.HashNotKnown)
        ↔ ((0 < old_length) × (old_length ≤ new_length)
        × (consistency_of (old_over D.digest (L.digest_at hashes.now)) old_length new_length
        ≡ None)) }
    ensures ok { IfOk result (λ path. (0 < old_length) × (old_length ≤ new_length)
        × (consistency_of (old_over D.digest (L.digest_at hashes.now)) old_length new_length
        ≡ Some path.items)) }
{
    if old_length == 0 || old_length > new_length {
        return Err(PathError::OutOfRange);
    }
    let part = OldPart {
        length: old_length,
        is_whole: true,
    };
    path_over(alloc, hashes, part, &LeafRange::new(0, new_length), 0)
}

// How many of a range's first leaves are old, and whether they are the whole old log, whose root is known.
#[derive(Clone, Copy)]
struct OldPart {
    length: usize,
    is_whole: bool,
}

// The path from the old leaves of a range to all of them, with room for `above` more digests.
#[tactic(auto, using(crate::proofs::MakeLemmas::consistency_end))]
fn path_over<D: SupportedDigest, V: VisitBytes, L: LogData<D, V>, A: Allocator>(
    alloc: A,
    hashes: &L,
    old: OldPart,
    range: &LeafRange,
    above: usize,
) -> Result<Vec<Hash<D>, A>, PathError>
    requires some { 0 < old.length }
    requires inside { old.length ≤ range.now.count }
    requires room { above + range.now.count ≤ GREATEST_LENGTH }
    ensures not_known { (result ≡ Err PathError.HashNotKnown)
        ↔ (consistency_over (old_over D.digest (L.digest_at hashes.now)) old.is_whole old.length
        range.now ≡ None) }
    ensures ok { IfOk result (λ path. consistency_over
        (old_over D.digest (L.digest_at hashes.now)) old.is_whole old.length range.now
        ≡ Some path.items) }
    ensures in_range { result ≢ Err PathError.OutOfRange }
{
    if old.length == range.count {
        return path_at_end(alloc, hashes, old.is_whole, range, above);
    }
    let turn = Turn::to_end(range, old);
    let top = match stored_root(hashes, &turn.beside) {
        Some(top) => top,
        None => return Err(PathError::HashNotKnown),
    };
    let mut path = path_over(alloc, hashes, turn.old, &turn.part, above + 1)?;
    path.push(top)?;
    Ok(path)
}

// The path over a range that is all old, with room for `above` more digests.
fn path_at_end<D: SupportedDigest, V: VisitBytes, L: LogData<D, V>, A: Allocator>(
    alloc: A,
    hashes: &L,
    is_whole: bool,
    range: &LeafRange,
    above: usize,
) -> Result<Vec<Hash<D>, A>, PathError>
    requires { above < GREATEST_LENGTH }
    ensures not_known { (result ≡ Err PathError.HashNotKnown)
        ↔ (path_at_end (old_over D.digest (L.digest_at hashes.now)) is_whole range.now ≡ None) }
    ensures ok { IfOk result (λ path.
        path_at_end (old_over D.digest (L.digest_at hashes.now)) is_whole range.now
        ≡ Some path.items) }
    ensures in_range { result ≢ Err PathError.OutOfRange }
{
    if is_whole {
        return Ok(Vec::with_capacity(alloc, above)?);
    }
    match stored_root(hashes, range) {
        Some(root) => {
            let mut path = Vec::with_capacity(alloc, above + 1)?;
            path.push(root)?;
            Ok(path)
        }
        None => Err(PathError::HashNotKnown),
    }
}

// Where the way goes from a range to one of its parts: the part in which the old leaves end, those that are old
// there, and the other part.
#[derive(Clone, Copy)]
struct Turn {
    part: LeafRange,
    old: OldPart,
    beside: LeafRange,
}

impl Turn {
    // The way to the end of the range's old leaves.
    #[tactic(auto, using(crate::proofs::MakeLemmas::consistency_front, crate::proofs::MakeLemmas::consistency_rest))]
    fn to_end(range: &LeafRange, old: OldPart) -> Turn
        requires some { 0 < old.length }
        requires inside { old.length < range.now.count }
        ensures path { (R : Range → Option (List ℕ))
            → consistency_over R old.is_whole old.length range.now ≡ beside
            (consistency_over R result.old.is_whole result.old.length result.part)
            (R result.beside) }
        ensures some { 0 < result.old.length }
        ensures inside { result.old.length ≤ result.part.count }
        ensures smaller { result.part.count < range.now.count }
    {
        let (front, rest) = range.split();
        if old.length <= front.count {
            return Turn {
                part: front,
                old,
                beside: rest,
            };
        }
        let old = OldPart {
            length: old.length - front.count,
            is_whole: false,
        };
        Turn {
            part: rest,
            old,
            beside: front,
        }
    }
}

/// The roots of a log at its old length and at its new one, in this order, by a consistency path and the root
/// that the log had at the old length (RFC 6962, section 2.1.2). None where the path has another length than
/// that of these lengths, and where the old length isn't between 1 and the new one. It does not allocate.
pub fn roots_of_consistency<D: SupportedDigest>(
    old_length: usize,
    new_length: usize,
    old_root: &Hash<D>,
    path: &[Hash<D>],
) -> Option<(Hash<D>, Hash<D>)>
    ensures { result ≡ consistency_roots D.digest old_length new_length old_root.now path.now }
{
    roots_of_subproof(Some(old_root.copied()), old_length, new_length, path)
}

/// The roots over the first `old_length` leaves and over all `new_length` of a part of a log, in this order, by what a
/// consistency path has for that part (SUBPROOF of RFC 6962, section 2.1.2). The old root is None where these leaves
/// aren't the whole old log, so that the path begins with their root. None where the path has another length than that
/// of these lengths, and where the old length isn't between 1 and the new one. It does not allocate.
pub fn roots_of_subproof<D: SupportedDigest>(
    old_root: Option<Hash<D>>,
    old_length: usize,
    new_length: usize,
    path: &[Hash<D>],
) -> Option<(Hash<D>, Hash<D>)>
    ensures { result ≡ subproof_roots D.digest old_root old_length new_length path.now }
{
    if old_length == 0 || old_length > new_length {
        return None;
    }
    roots_within(old_root, old_length, new_length, path)
}

// The same, for an old length between 1 and the new one.
fn roots_within<D: SupportedDigest>(
    old_root: Option<Hash<D>>,
    old_length: usize,
    new_length: usize,
    path: &[Hash<D>],
) -> Option<(Hash<D>, Hash<D>)>
    requires some { 0 < old_length }
    requires order { old_length ≤ new_length }
    ensures { result ≡ roots_down D.digest old_root old_length new_length (reverse path.now) }
{
    if old_length == new_length {
        let root = only_root(old_root, path)?;
        return Some((root.copied(), root));
    }
    let (top, below) = path.split_last()?;
    let front = front_of(new_length);
    if old_length <= front {
        let (old, new) = roots_within(old_root, old_length, front, below)?;
        Some((old, hash_branch(&new, top)))
    } else {
        let (old, new) = roots_within(None, old_length - front, new_length - front, below)?;
        Some((hash_branch(top, &old), hash_branch(top, &new)))
    }
}

// The root of both lengths where they are one: the known root, or the path's only digest.
fn only_root<D>(known: Option<Hash<D>>, path: &[Hash<D>]) -> Option<Hash<D>>
    ensures { result ≡ one_root known path.now }
{
    match (known, path) {
        (Some(root), []) => Some(root),
        (None, [root]) => Some(root.copied()),
        _ => None,
    }
}

/// Whether a consistency path shows that the log of the old checkpoint is a beginning of the log of the new one:
/// whether the path leads from the old root to both checkpoints' roots, at their lengths (RFC 6962, section 2.1.2). False
/// also from an old length of 0, to a lesser length, or where the path has another number of digests than is due. It does
/// not allocate.
pub fn check_tree<D: SupportedDigest>(
    old: &Checkpoint<D>,
    new: &Checkpoint<D>,
    path: &[Hash<D>],
) -> bool
    ensures { IsTrue result
        ↔ (consistency_roots D.digest old.now.length new.now.length old.now.root path.now
        ≡ Some (old.now.root, new.now.root)) }
{
    match roots_of_consistency(old.length(), new.length(), &old.root(), path) {
        Some((old_root, new_root)) => old_root == old.root() && new_root == new.root(),
        None => false,
    }
}
