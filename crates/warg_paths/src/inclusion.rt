//! Inclusion paths.

ghost use Rattle.std.specs.Prelude.{◌≡◌, ◌≢◌, ℕ, ◌+◌, ◌<◌, ◌≤◌, ◌↔◌, List, reverse, Option, Some, None, Err, IfOk, IsTrue};
ghost use Rattle.warg_crypto.specs.Tree.{leaf_digest};
ghost use Rattle.warg_log.specs.Ranges.{Range};
ghost use Rattle.warg_log.specs.Cut.{old_over};
ghost use Rattle.warg_paths.specs.Paths.{beside, inclusion_over, inclusion_of, inclusion_root, root_down};

use crate::error::PathError;
use crate::front::front_of;
use std::alloc::Allocator;
use warg_crypto::{Hash, SupportedDigest, VisitBytes, hash_branch, hash_leaf};
use warg_log::{Checkpoint, GREATEST_LENGTH, LeafRange, LogData, stored_root};

/// The inclusion path of the entry at `index`, from 0, in the log of the first `length` entries, by the digests that
/// the data holds: each is the stored root of the part beside the way, from the bottom up (RFC 6962,
/// section 2.1.1).
///
/// `OutOfRange` exactly if `index` isn't below `length`, and else `HashNotKnown` exactly if one of these
/// parts has no stored root, both before allocating; else it fails only if allocation fails.
pub fn inclusion_path<D: SupportedDigest, V: VisitBytes, L: LogData<D, V>, A: Allocator>(
    alloc: A,
    hashes: &L,
    index: usize,
    length: usize,
) -> Result<Vec<Hash<D>, A>, PathError>
    requires { length ≤ GREATEST_LENGTH }
    ensures out_of_range { (result ≡ Err PathError.OutOfRange) ↔ (length ≤ index) }
    ensures not_known { (result ≡ Err PathError.HashNotKnown)
        ↔ ((index < length) × (inclusion_of (old_over D.digest
        (L.digest_at hashes.now)) index length ≡ None)) }
    ensures ok { IfOk result (λ path. (index < length)
        × (inclusion_of (old_over D.digest (L.digest_at hashes.now)) index length
        ≡ Some path.items)) }
{
    if index >= length {
        return Err(PathError::OutOfRange);
    }
    path_over(alloc, hashes, index, &LeafRange::new(0, length), 0)
}

// The path of the leaf at `index` of the range's leaves, with room for `above` more digests.
#[tactic(auto, using(crate::proofs::MakeLemmas::inclusion_one))]
fn path_over<D: SupportedDigest, V: VisitBytes, L: LogData<D, V>, A: Allocator>(
    alloc: A,
    hashes: &L,
    index: usize,
    range: &LeafRange,
    above: usize,
) -> Result<Vec<Hash<D>, A>, PathError>
    requires inside { index < range.now.count }
    requires room { above + range.now.count ≤ GREATEST_LENGTH }
    ensures not_known { (result ≡ Err PathError.HashNotKnown)
        ↔ (inclusion_over (old_over D.digest (L.digest_at hashes.now)) index range.now ≡ None) }
    ensures ok { IfOk result (λ path.
        inclusion_over (old_over D.digest (L.digest_at hashes.now)) index range.now
        ≡ Some path.items) }
    ensures in_range { result ≢ Err PathError.OutOfRange }
{
    if range.count == 1 {
        return Ok(Vec::with_capacity(alloc, above)?);
    }
    let turn = Turn::to_leaf(range, index);
    let top = match stored_root(hashes, &turn.beside) {
        Some(top) => top,
        None => return Err(PathError::HashNotKnown),
    };
    let mut path = path_over(alloc, hashes, turn.index, &turn.part, above + 1)?;
    path.push(top)?;
    Ok(path)
}

// Where the way goes from a range to one of its parts: that part, the leaf's index in it, and the other part.
#[derive(Clone, Copy)]
struct Turn {
    part: LeafRange,
    index: usize,
    beside: LeafRange,
}

impl Turn {
    // The way to the leaf at `index` of the range's leaves.
    #[tactic(auto, using(crate::proofs::MakeLemmas::inclusion_front, crate::proofs::MakeLemmas::inclusion_rest))]
    fn to_leaf(range: &LeafRange, index: usize) -> Turn
        requires some { 1 < range.now.count }
        requires inside { index < range.now.count }
        ensures path { (R : Range → Option (List ℕ)) → inclusion_over R index range.now
            ≡ beside (inclusion_over R result.index result.part) (R result.beside) }
        ensures inside { result.index < result.part.count }
        ensures smaller { result.part.count < range.now.count }
    {
        let (front, rest) = range.split();
        if index < front.count {
            return Turn {
                part: front,
                index,
                beside: rest,
            };
        }
        Turn {
            index: index - front.count,
            part: rest,
            beside: front,
        }
    }
}

/// The root of a log of `length` entries by an inclusion path, where the entry at `index`, from 0, has this leaf
/// digest (RFC 6962, section 2.1.1). None where the path has another length than that of this place, and where
/// `index` isn't below `length`. It does not allocate.
pub fn root_of_inclusion<D: SupportedDigest>(
    index: usize,
    length: usize,
    leaf: &Hash<D>,
    path: &[Hash<D>],
) -> Option<Hash<D>>
    ensures { result ≡ inclusion_root D.digest index length leaf.now path.now }
{
    if index >= length {
        return None;
    }
    root_within(index, length, leaf, path)
}

// The same, for an index below the length.
fn root_within<D: SupportedDigest>(
    index: usize,
    length: usize,
    leaf: &Hash<D>,
    path: &[Hash<D>],
) -> Option<Hash<D>>
    requires { index < length }
    ensures { result ≡ root_down D.digest index length leaf.now (reverse path.now) }
{
    if length == 1 {
        return if path.is_empty() {
            Some(leaf.copied())
        } else {
            None
        };
    }
    let (top, below) = path.split_last()?;
    let front = front_of(length);
    if index < front {
        let root = root_within(index, front, leaf, below)?;
        return Some(hash_branch(&root, top));
    }
    let root = root_within(index - front, length - front, leaf, below)?;
    Some(hash_branch(top, &root))
}

/// Whether an inclusion path shows that the log of this checkpoint has the value at `index`, from 0: whether
/// the path leads from the value's leaf digest to the checkpoint's root, at its length (RFC 6962, section 2.1.1). False also
/// where `index` isn't below the length, or the path has another number of digests than is due. It does not allocate.
pub fn check_record<D: SupportedDigest, V: VisitBytes>(
    checkpoint: &Checkpoint<D>,
    index: usize,
    value: &V,
    path: &[Hash<D>],
) -> bool
    ensures { IsTrue result ↔ (inclusion_root D.digest index checkpoint.now.length
        (leaf_digest D.digest (V.bytes value.now)) path.now ≡ Some checkpoint.now.root) }
{
    let leaf = hash_leaf::<D, V>(value);
    root_of_inclusion(index, checkpoint.length(), &leaf, path) == Some(checkpoint.root())
}
