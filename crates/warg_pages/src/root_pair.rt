//! The digests of a page before and after changes.

ghost use Rattle.std.specs.Prelude.{◌≡◌, ◌+◌, ◌^◌, ◌<◌, ◌≤◌, ℕ, List, IsTrue};
ghost use Rattle.warg_crypto.specs.Tree.{branch};
ghost use Rattle.warg_pages.specs.Slots.{IsPage};
ghost use Rattle.warg_pages.specs.Pages.{digest_at, root_over, page_digest};
ghost use Rattle.warg_pages.specs.Private.Ranges.{IsRange};

use crate::root::{count_below, root_of_range};
use crate::slot::Slot;
use warg_crypto::{Hash, SupportedDigest, hash_branch};

/// The digests of a page at a prefix of `depth` bytes with these slots and with those. What both have is hashed once.
pub(crate) fn page_roots<D: SupportedDigest>(
    depth: usize,
    before: &[Slot<D>],
    after: &[Slot<D>],
) -> (Hash<D>, Hash<D>)
    requires depth { depth < 32 }
    requires before { IsPage before.now }
    requires after { IsPage after.now }
    ensures before { result.0 ≡ page_digest D.digest depth before.now }
    ensures after { result.1 ≡ page_digest D.digest depth after.now }
{
    roots_of_range(before, after, 0, 8, 248 - 8 * depth)
}

// The digests of two trees of so many levels, each over the slots from a number on.
fn roots_of_range<D: SupportedDigest>(
    before: &[Slot<D>],
    after: &[Slot<D>],
    first: usize,
    levels: usize,
    height: usize,
) -> (Hash<D>, Hash<D>)
    requires before { IsRange first levels before.now }
    requires after { IsRange first levels after.now }
    requires levels { levels ≤ 8 }
    requires range { first + 2 ^ levels ≤ 256 }
    requires height { height + levels ≤ 256 }
    ensures before { result.0 ≡ root_over D.digest (digest_at D.digest height before.now) first levels }
    ensures after { result.1 ≡ root_over D.digest (digest_at D.digest height after.now) first levels }
{
    if have_same_digests(before, after) {
        let root = root_of_range(after, first, levels, height);
        return (root.copied(), root);
    }
    if levels == 0 || before.is_empty() {
        return (
            root_of_range(before, first, levels, height),
            root_of_range(after, first, levels, height),
        );
    }
    let half = levels - 1;
    let middle = first + (1 << half);
    let (left, right) = halves(before, first, half);
    let (new_left, new_right) = halves(after, first, half);
    let (left, new_left) = roots_of_range(left, new_left, first, half, height);
    let (right, new_right) = roots_of_range(right, new_right, middle, half, height);
    (
        hash_branch(&left, &right),
        hash_branch(&new_left, &new_right),
    )
}

// The slots of both halves of a tree, each of so many levels, from a number on.
fn halves<D>(slots: &[Slot<D>], first: usize, half: usize) -> (&[Slot<D>], &[Slot<D>])
    requires levels { half < 8 }
    requires top { first + 2 ^ half + 2 ^ half ≤ 256 }
    requires range { IsRange first (half + 1) slots.now }
    ensures left { IsRange first half result.0.now }
    ensures right { IsRange (first + 2 ^ half) half result.1.now }
    ensures joined { (H : List ℕ → List ℕ) (height : ℕ)
        → branch H (root_over H (digest_at H height result.0.now) first half)
        (root_over H (digest_at H height result.1.now) (first + 2 ^ half) half)
        ≡ root_over H (digest_at H height slots.now) first (half + 1) }
{
    slots.split_at(count_below(slots, first + (1 << half)))
}

// Whether slots have the same digests at the same bytes.
fn have_same_digests<D>(before: &[Slot<D>], after: &[Slot<D>]) -> bool
    ensures { IsTrue result → (H : List ℕ → List ℕ) (height s : ℕ)
        → digest_at H height before.now s ≡ digest_at H height after.now s }
{
    if before.len() != after.len() {
        return false;
    }
    for at in 0..before.len() {
        let (old, new) = (&before[at], &after[at]);
        if old.byte != new.byte || old.digest != new.digest {
            return false;
        }
    }
    true
}
