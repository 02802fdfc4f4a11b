//! What stands below a slot.

ghost use Rattle.std.specs.Prelude.{◌≡◌, ◌≢◌, ◌<◌, ◌≤◌, ◌↔◌, [], ◌∷◌, ℕ, List, length, take, IfOk, IfErr, IsTrue};
ghost use Rattle.std.specs.Option.{option_copied};
ghost use Rattle.warg_pages.specs.Private.Updates.{IsOwnBelow, IsReadBelow, slot_one_down};
ghost use Rattle.warg_pages.specs.Refusals.{IsMemoryUnless, IsOfSourceUnless};

use crate::climb::lone_tree;
use crate::error::{ProveError, WayError};
use crate::page::MapPage;
use crate::slot::{LoneKey, Slot};
use crate::source::{Pages, read_page};
use std::alloc::Allocator;
use warg_crypto::SupportedDigest;

/// The page at a prefix that a slot names: the source's, or, where a lone key stands there, one slot, or none.
pub(crate) fn page_below<D: SupportedDigest, P: Pages<A>, A: Allocator>(
    alloc: A,
    pages: &mut P,
    prefix: &[u8],
    slot: Option<&Slot<D>>,
) -> Result<MapPage<D, A>, ProveError<P::Error>>
    requires { length prefix.now < 32 }
    ensures ok { IfOk result (λ page. (known : P.Known) → P.IsKnown pages.old known
        → IsReadBelow D.digest (P.bytes_at known) prefix.now (option_copied slot.entry) page) }
    ensures err { IfErr result (IsOfSourceUnless ((known : P.Known) (insertions : List (List ℕ × List ℕ))
        → P.IsKnown pages.old known
        → IsOwnBelow D.digest (P.bytes_at known) prefix.now (option_copied slot.entry) insertions → ⊥)) }
    ensures known { (known : P.Known) → P.IsKnown pages.old known → P.IsKnown pages.new known }
{
    let Some(slot) = slot else {
        return Ok(MapPage::new(alloc));
    };
    match &slot.lone {
        Some(lone) => Ok(one_down(alloc, prefix, slot, lone)?),
        None => read_page(alloc, pages, prefix, slot.version),
    }
}

// The page at a prefix with the lone key of the slot that names it: one slot.
fn one_down<D: SupportedDigest, A: Allocator>(
    alloc: A,
    prefix: &[u8],
    slot: &Slot<D>,
    lone: &LoneKey<D>,
) -> Result<MapPage<D, A>, WayError>
    requires { length prefix.now < 32 }
    ensures ok { IfOk result (λ page.
        page ≡ slot_one_down D.digest prefix.now slot.now.version lone.now ∷ []) }
    ensures err { IfErr result (IsMemoryUnless (take (length prefix.now) lone.now.0 ≢ prefix.now)) }
{
    let depth = prefix.len();
    if !begins_with(lone.key.bytes(), prefix) {
        return Err(WayError::WrongLoneKey);
    }
    let mut page = MapPage::new(alloc);
    page.put_behind(Some(Slot {
        byte: lone.key.bytes()[depth],
        version: slot.version,
        digest: lone_tree(&lone.key, 0, 248 - 8 * depth, &lone.leaf),
        lone: Some(lone.copied()),
    }))?;
    Ok(page)
}

/// Whether bytes begin with others.
pub(crate) fn begins_with(bytes: &[u8], front: &[u8]) -> bool
    requires { length front.now ≤ length bytes.now }
    ensures { IsTrue result ↔ (take (length front.now) bytes.now ≡ front.now) }
{
    &bytes[..front.len()] == front
}
