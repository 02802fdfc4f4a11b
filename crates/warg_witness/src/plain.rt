//! Given entries, the tree over them, and its digests by ranges.

ghost use Rattle.std.specs.Prelude.{◌≡◌, ◌+◌, ◌<◌, ◌≤◌, [], length, map, IfOk, slice_index_or};
ghost use Rattle.warg_log.specs.Tree.{leaves_of};
ghost use Rattle.warg_log.specs.Ranges.{IsAligned};
ghost use Rattle.warg_witness.specs.Private.Divergence.{root_at};

use std::alloc::{AllocError, Allocator};
use warg_crypto::{Hash, SupportedDigest, VisitBytes};
use warg_log::{GREATEST_LENGTH, LeafRange, LogBuilder, VecLog, stored_root};

/// The entry at a place.
#[tactic(auto, using(crate::proofs::ShownLemmas::entry_at))]
pub(crate) fn entry_at<V: VisitBytes>(entries: &[V], place: usize) -> &V
    requires { place < length entries.now }
    ensures { slice_index_or (map V.bytes entries.now) place [] ≡ V.bytes result.now }
{
    &entries[place]
}

/// The tree over the entries, which is the log of them. It hashes each leaf and each branch once.
pub(crate) fn plain_tree<D: SupportedDigest, V: VisitBytes, A: Allocator>(
    alloc: A,
    entries: &[V],
) -> Result<VecLog<D, V, A>, AllocError>
    requires { length entries.now ≤ GREATEST_LENGTH }
    ensures { IfOk result (λ tree. tree ≡ leaves_of D.digest (map V.bytes entries.now)) }
{
    let mut tree = VecLog::default(alloc);
    'entries: for entry in entries {
        tree.push(entry)?;
    }
    Ok(tree)
}

/// The root over a range of the tree.
#[tactic(auto, using(warg_log::proofs::ForCallers::old_own_range))]
pub(crate) fn plain_digest<D: SupportedDigest, V: VisitBytes, A: Allocator>(
    tree: &VecLog<D, V, A>,
    range: &LeafRange,
) -> Hash<D>
    requires aligned { IsAligned range.now.start range.now.count }
    requires within { range.now.start + range.now.count ≤ length tree.now }
    ensures { result ≡ root_at D.digest tree.now range.now }
{
    match stored_root::<D, V, VecLog<D, V, A>>(tree, range) {
        Some(digest) => digest,
        None => unreachable!(),
    }
}
