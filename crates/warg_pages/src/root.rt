//! The digest of a page, from its slots.

ghost use Rattle.std.specs.Prelude.{◌≡◌, ◌+◌, ◌*◌, ◌^◌, ◌<◌, ◌≤◌, length, take, drop};
ghost use Rattle.std.specs.List.{All};
ghost use Rattle.warg_pages.specs.Slots.{Ascends, IsPage};
ghost use Rattle.warg_pages.specs.Pages.{digest_at, root_over, page_digest};

use crate::slot::Slot;
use warg_crypto::{Hash, SupportedDigest, hash_branch};

/// How many of ascending slots stand below a number.
pub(crate) fn count_below<D>(slots: &[Slot<D>], middle: usize) -> usize
    requires { Ascends slots.now }
    ensures within { result ≤ length slots.now }
    ensures below { All (λ x. x.byte < middle) (take result slots.now) }
    ensures above { All (λ x. middle ≤ x.byte) (drop result slots.now) }
{
    slots.partition_point(|slot| (slot.byte as usize) < middle)
}

/// The digest of the tree of so many levels over the slots from a number on. A half without slots has the digest of the
/// empty tree, and one branch is hashed for each node with a slot below it.
pub(crate) fn root_of_range<D: SupportedDigest>(
    slots: &[Slot<D>],
    first: usize,
    levels: usize,
    height: usize,
) -> Hash<D>
    requires ascend { Ascends slots.now }
    requires from { All (λ x. first ≤ x.byte) slots.now }
    requires to { All (λ x. x.byte < first + 2 ^ levels) slots.now }
    requires levels { levels ≤ 8 }
    requires range { first + 2 ^ levels ≤ 256 }
    requires height { height + levels ≤ 256 }
    ensures { result ≡ root_over D.digest (digest_at D.digest height slots.now) first levels }
{
    if slots.is_empty() {
        return D::empty_tree(height + levels);
    }
    if levels == 0 {
        let slot = &slots[0];
        return slot.digest.copied();
    }
    let half = levels - 1;
    let middle = first + (1 << half);
    let (left, right) = slots.split_at(count_below(slots, middle));
    hash_branch(
        &root_of_range(left, first, half, height),
        &root_of_range(right, middle, half, height),
    )
}

/// The digest of the page with these slots at a prefix of `depth` bytes.
pub(crate) fn page_root<D: SupportedDigest>(depth: usize, slots: &[Slot<D>]) -> Hash<D>
    requires depth { depth < 32 }
    requires page { IsPage slots.now }
    ensures { result ≡ page_digest D.digest depth slots.now }
{
    root_of_range(slots, 0, 8, 248 - 8 * depth)
}
