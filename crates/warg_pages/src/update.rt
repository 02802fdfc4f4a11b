//! One pass through the pages that insertions change.

ghost use Rattle.std.specs.Prelude.{◌≡◌, ◌+◌, ◌<◌, ◌++◌, [], ◌∷◌, ℕ, List, length, IfOk, IfErr, IfSome, OnOk};
ghost use Rattle.std.specs.Option.{option_copied};
ghost use Rattle.std.specs.List.{All, filter};
ghost use Rattle.warg_pages.specs.Pages.{page_digest, slot_at};
ghost use Rattle.warg_pages.specs.ChangedPages.{ChangedPageAt, ChangesWhatStood};
ghost use Rattle.warg_pages.specs.Private.Updates.{goes_to, AreChangesAt, IsNamedAt, ChangeWhatStood, IsOwnChange, IsOwnUpdate, IsUpdated, IsUpdatedSlot, IsOwnBelow, IsReadBelow, slot_digest};
ghost use Rattle.warg_pages.specs.Private.SlotUpdates.{IsSlotUpdate, IsOwnSlotUpdate};
ghost use Rattle.warg_pages.specs.Refusals.{IsOfSourceUnless};

use crate::alone::{lone_slot_after, stays_alone};
use crate::below::page_below;
use crate::change::{Change, changes_by_byte};
use crate::changed::ChangedPage;
use crate::error::{ProveError, WayError};
use crate::page::MapPage;
use crate::root_pair::page_roots;
use crate::slot::Slot;
use crate::source::Pages;
use std::alloc::Allocator;
use std::mem;
use warg_crypto::{Hash, SupportedDigest};

/// A page that changes: as it was, with the digest that it has to have, the changes below its prefix, and the version of
/// the last one.
pub(crate) struct PageUpdate<D, A: Allocator> {
    pub(crate) prefix: Vec<u8, A>,
    pub(crate) version: u64,
    pub(crate) digest: Hash<D>,
    pub(crate) page: MapPage<D, A>,
    pub(crate) changes: Vec<Change<D>, A>,
}

impl<D, A: Allocator> Drop for PageUpdate<D, A> {
    fn drop(self) {
        let PageUpdate {
            prefix: _,
            version: _,
            digest: _,
            page: _,
            changes: _,
        } = self;
    }
}

impl<D, A: Allocator> PageUpdate<D, A> {
    // The prefix alone.
    fn into_prefix(self) -> Vec<u8, A>
        ensures { result ≡ self.prefix }
    {
        let PageUpdate {
            prefix,
            version: _,
            digest: _,
            page: _,
            changes: _,
        } = self;
        prefix
    }
}

/// What becomes of a slot.
pub(crate) enum SlotUpdate<D, A: Allocator> {
    /// A slot, with no page below it that changes, or none.
    Whole(Option<Slot<D>>),
    /// A page below it changes.
    Below(PageUpdate<D, A>),
}

/// Changes a page and those below it, adds them to the changed ones, and gives its digest.
#[cycle(update)]
pub(crate) fn update_page<D: SupportedDigest, P: Pages<A>, A: Allocator + Copy>(
    alloc: A,
    pages: &mut P,
    update: PageUpdate<D, A>,
    changed: &mut Vec<ChangedPage<D, A>, A>,
) -> Result<Hash<D>, ProveError<P::Error>>
    requires { length update.prefix.items < 32 }
    ensures ok { IfOk result (λ digest. (added : List ChangedPageAt)
        × (changed.new.items ≡ changed.old.items ++ added)
        × ((known : P.Known) (old more : List (List ℕ × List ℕ)) → P.IsKnown pages.old known
        → IsOwnUpdate D.digest (P.bytes_at known) update.prefix.items
        update.version update.digest update.page update.changes.items old more
        → IsUpdated D.digest old more update.prefix.items digest added)
        × ((root : List ℕ) (count : ℕ) (more : List (List ℕ × List ℕ)) → IsNamedAt D.digest root update.prefix.items update.digest
        → AreChangesAt D.digest count more update.prefix.items update.changes.items
        → All (ChangesWhatStood D.digest root more) added)) }
    ensures digest { OnOk result (page_digest D.digest (length update.prefix.items) update.page ≡ update.digest) }
    ensures err { IfErr result (IsOfSourceUnless ((known : P.Known) (old more : List (List ℕ × List ℕ))
        → P.IsKnown pages.old known → IsOwnUpdate D.digest (P.bytes_at known) update.prefix.items
        update.version update.digest update.page update.changes.items old more → ⊥)) }
    ensures known { (known : P.Known) → P.IsKnown pages.old known → P.IsKnown pages.new known }
{
    let depth = update.prefix.as_slice().len();
    let mut lists = changes_by_byte(alloc, update.changes.as_slice(), depth)?;
    let mut page = MapPage::new(alloc);
    for byte in 0..256usize {
        let there = mem::replace(&mut lists[byte], Vec::new(alloc));
        let slot = slot_after(alloc, pages, &update, byte as u8, there, changed)?;
        page.put_behind(slot)?;
    }
    let (before, digest) = page_roots(depth, update.page.slots(), page.slots());
    if before != update.digest {
        return Err(ProveError::Way(WayError::WrongDigest));
    }
    let version = update.version;
    add_page(changed, update.into_prefix(), version, page)?;
    Ok(digest)
}

// The slot of a byte after the changes, of which these are those there. The pages below it are changed and added.
#[cycle(update)]
fn slot_after<D: SupportedDigest, P: Pages<A>, A: Allocator + Copy>(
    alloc: A,
    pages: &mut P,
    update: &PageUpdate<D, A>,
    byte: u8,
    there: Vec<Change<D>, A>,
    changed: &mut Vec<ChangedPage<D, A>, A>,
) -> Result<Option<Slot<D>>, ProveError<P::Error>>
    requires short { length update.now.prefix.items < 32 }
    requires there { there.items ≡ filter (goes_to (length update.now.prefix.items) byte) update.now.changes.items }
    ensures byte { IfOk result (λ slot. IfSome slot (λ x. x.byte ≡ byte)) }
    ensures ok { IfOk result (λ slot. (added : List ChangedPageAt)
        × (changed.new.items ≡ changed.old.items ++ added)
        × ((known : P.Known) (old more : List (List ℕ × List ℕ)) → P.IsKnown pages.old known
        → IsOwnChange D.digest (P.bytes_at known) update.now.prefix.items
        update.now.page update.now.changes.items old more
        → IsUpdatedSlot D.digest old more update.now.prefix.items byte slot added)
        × ChangeWhatStood D.digest update.now.prefix.items update.now.page update.now.changes.items added) }
    ensures kept { IfOk result (λ slot. filter (goes_to (length update.now.prefix.items) byte) update.now.changes.items ≡ []
        → slot ≡ slot_at update.now.page byte) }
    ensures err { IfErr result (IsOfSourceUnless ((known : P.Known) (old more : List (List ℕ × List ℕ))
        → P.IsKnown pages.old known → IsOwnChange D.digest (P.bytes_at known) update.now.prefix.items
        update.now.page update.now.changes.items old more → ⊥)) }
    ensures known { (known : P.Known) → P.IsKnown pages.old known → P.IsKnown pages.new known }
{
    match slot_update(alloc, pages, update, byte, there)? {
        SlotUpdate::Whole(slot) => Ok(slot),
        SlotUpdate::Below(below) => {
            let version = below.version;
            let digest = update_page(alloc, pages, below, changed)?;
            Ok(Some(Slot {
                byte,
                version,
                digest,
                lone: None,
            }))
        }
    }
}

// What becomes of the slot of a byte, with these changes there.
fn slot_update<D: SupportedDigest, P: Pages<A>, A: Allocator + Copy>(
    alloc: A,
    pages: &mut P,
    update: &PageUpdate<D, A>,
    byte: u8,
    there: Vec<Change<D>, A>,
) -> Result<SlotUpdate<D, A>, ProveError<P::Error>>
    requires short { length update.now.prefix.items < 32 }
    requires there { there.items ≡ filter (goes_to (length update.now.prefix.items) byte) update.now.changes.items }
    ensures ok { IfOk result (IsSlotUpdate D.digest update.now.prefix.items
        update.now.page update.now.changes.items byte) }
    ensures own { IfOk result (λ after. (known : P.Known) → P.IsKnown pages.old known
        → IsOwnSlotUpdate D.digest (P.bytes_at known) update.now.prefix.items
        update.now.page update.now.changes.items byte after) }
    ensures err { IfErr result (IsOfSourceUnless ((known : P.Known) (old more : List (List ℕ × List ℕ))
        → P.IsKnown pages.old known → IsOwnChange D.digest (P.bytes_at known) update.now.prefix.items
        update.now.page update.now.changes.items old more → ⊥)) }
    ensures known { (known : P.Known) → P.IsKnown pages.old known → P.IsKnown pages.new known }
{
    let prefix = update.prefix.as_slice();
    let slot = update.page.slot(byte);
    let Some(last) = there.as_slice().last() else {
        return Ok(SlotUpdate::Whole(copied_slot(slot)));
    };
    if stays_alone(slot, &last.key, there.as_slice()) {
        let slot = lone_slot_after(prefix.len(), byte, slot, last)?;
        return Ok(SlotUpdate::Whole(Some(slot)));
    }
    let version = last.version;
    let below = update_below(alloc, pages, prefix, byte, slot, version, there)?;
    Ok(SlotUpdate::Below(below))
}

// A copy of a slot, if there is one.
fn copied_slot<D>(slot: Option<&Slot<D>>) -> Option<Slot<D>>
    ensures { result ≡ option_copied slot.entry }
{
    match slot {
        Some(slot) => Some(slot.copied()),
        None => None,
    }
}

// The page below the slot of a byte, as it was, with the changes there.
fn update_below<D: SupportedDigest, P: Pages<A>, A: Allocator + Copy>(
    alloc: A,
    pages: &mut P,
    prefix: &[u8],
    byte: u8,
    slot: Option<&Slot<D>>,
    version: u64,
    changes: Vec<Change<D>, A>,
) -> Result<PageUpdate<D, A>, ProveError<P::Error>>
    requires { length prefix.now < 32 }
    ensures ok { IfOk result (λ below. (length prefix.now < 31) × (below.prefix.items ≡ prefix.now ++ byte ∷ [])
        × (below.version ≡ version)
        × (below.digest ≡ slot_digest D.digest (length prefix.now) (option_copied slot.entry))
        × (below.changes.items ≡ changes.items)
        × ((known : P.Known) → P.IsKnown pages.old known → IsReadBelow D.digest (P.bytes_at known)
        (prefix.now ++ byte ∷ []) (option_copied slot.entry) below.page)) }
    ensures err { IfErr result (IsOfSourceUnless (length prefix.now < 31
        → (known : P.Known) (insertions : List (List ℕ × List ℕ)) → P.IsKnown pages.old known
        → IsOwnBelow D.digest (P.bytes_at known) (prefix.now ++ byte ∷ []) (option_copied slot.entry) insertions → ⊥)) }
    ensures known { (known : P.Known) → P.IsKnown pages.old known → P.IsKnown pages.new known }
{
    if prefix.len() == 31 {
        return Err(ProveError::Way(WayError::WrongLoneKey));
    }
    let below = longer(alloc, prefix, byte)?;
    let page = page_below(alloc, pages, below.as_slice(), slot)?;
    Ok(PageUpdate {
        prefix: below,
        version,
        digest: digest_named(prefix.len(), slot),
        page,
        changes,
    })
}

// The digest of what stands below a slot of a page at a prefix of `depth` bytes, or that of the empty tree.
fn digest_named<D: SupportedDigest>(depth: usize, slot: Option<&Slot<D>>) -> Hash<D>
    requires { depth < 32 }
    ensures { result ≡ slot_digest D.digest depth (option_copied slot.entry) }
{
    match slot {
        Some(slot) => slot.digest.copied(),
        None => D::empty_tree(248 - 8 * depth),
    }
}

/// A prefix and a byte behind it.
pub(crate) fn longer<A: Allocator>(
    alloc: A,
    prefix: &[u8],
    byte: u8,
) -> Result<Vec<u8, A>, WayError>
    ensures ok { IfOk result (λ below. below.items ≡ prefix.now ++ byte ∷ []) }
    ensures err { IfErr result (λ e. e ≡ WayError.Memory) }
{
    let mut below = Vec::from_slice(alloc, prefix)?;
    below.push(byte)?;
    Ok(below)
}

// Adds a changed page.
fn add_page<D, A: Allocator>(
    changed: &mut Vec<ChangedPage<D, A>, A>,
    prefix: Vec<u8, A>,
    version: u64,
    page: MapPage<D, A>,
) -> Result<(), WayError>
    ensures ok { OnOk result (changed.new.items ≡ changed.old.items
        ++ record { prefix = prefix.items; version = version; page = page } ∷ []) }
    ensures err { IfErr result (λ e. e ≡ WayError.Memory) }
{
    changed.push(ChangedPage {
        prefix,
        version,
        page,
    })?;
    Ok(())
}
