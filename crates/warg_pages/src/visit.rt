//! A visit of all pages that a root leads to.

ghost use Rattle.std.specs.Prelude.{◌≡◌, ◌++◌, ◌-◌, ◌≤◌, ◌<◌, [], ◌∷◌, ℕ, List, length, IfErr, OnOk};
ghost use Rattle.warg_pages.specs.ChangedPages.{ChangedPageAt};
ghost use Rattle.warg_pages.specs.ProvedKeys.{IsOwnSource};
ghost use Rattle.warg_pages.specs.Visits.{AreAllPagesWhere, AreFromWhere, AreOfSlot, IsAllowed, IsLoneBelow, IsLoneShown};
ghost use Rattle.warg_pages.specs.Private.Visited.{IsOwnFrom, IsOwnSlot};
ghost use Rattle.warg_pages.specs.Refusals.{IsMemoryUnless, IsOfSourceUnless};

use crate::below::begins_with;
use crate::climb::lone_tree;
use crate::error::{ProveError, WayError};
use crate::page::MapPage;
use crate::slot::{LoneKey, Slot};
use crate::source::{Pages, read_page};
use crate::update::longer;
use std::alloc::{AllocError, Allocator};
use warg_crypto::{Hash, SupportedDigest};

/// What is done with each page of a visit.
pub trait PageVisitor<D, A: Allocator> {
    // It has seen these pages.
    ghost HasSeen: { Self → List ChangedPageAt → Type 0 };

    /// Sees the page at a prefix, of a version. It fails only if allocation fails.
    fn visit(&mut self, prefix: &[u8], version: u64, page: &MapPage<D, A>) -> Result<(), AllocError>
        ensures { OnOk result ((pages : List ChangedPageAt) → HasSeen self.old pages
            → HasSeen self.new (pages ++ record { prefix = prefix.now; version = version; page = page.now } ∷ [])) };
}

/// How a visit looks at the keys that stand alone in slots.
#[derive(Clone, Copy, Debug, PartialEq, Eq)]
pub enum LoneKeyCheck {
    /// It hashes the way down of each, some 250 branches, which has to lead to the digest of its slot.
    Hashed,
    /// It doesn't look at them: nothing is shown of what the pages hold, but which pages there are.
    Skipped,
}

/// Visits all pages that a root leads to, from the first one on, of `version`: the number of the map's insertions. Each one
/// comes before those below it, and has the digest of the slot that names it.
///
/// The refusals: `Pages` where the source has no page; `BadPage`, `WrongDigest` and `WrongLoneKey` only where its pages aren't
/// those of insertions with this root; or memory. What is known of the source stays true.
///
/// It reads each page once, and hashes its branches once, and lone keys as `lone_keys` says. It keeps one page for each byte
/// of the longest prefix.
pub fn visit_pages<D: SupportedDigest, P: Pages<A>, V: PageVisitor<D, A>, A: Allocator + Copy>(
    alloc: A,
    pages: &mut P,
    root: &Hash<D>,
    version: u64,
    lone_keys: LoneKeyCheck,
    visitor: &mut V,
) -> Result<(), ProveError<P::Error>>
    ensures seen { OnOk result ((before : List ChangedPageAt) → V.HasSeen visitor.old before → (all : List ChangedPageAt)
        × V.HasSeen visitor.new (before ++ all)
        × ((known : P.Known) → P.IsKnown pages.old known
        → AreAllPagesWhere D.digest (IsLoneShown D.digest lone_keys) (IsAllowed (P.bytes_at known) (P.tells_all known))
        root.now version all)) }
    ensures refused { IfErr result (IsOfSourceUnless ((known : P.Known) (insertions : List (List ℕ × List ℕ))
        → P.IsKnown pages.old known → IsOwnSource D.digest (P.bytes_at known) root.now version insertions → ⊥)) }
    ensures known { (known : P.Known) → P.IsKnown pages.old known → P.IsKnown pages.new known }
{
    if version != 0 {
        return visit_from(alloc, pages, &[], root, version, lone_keys, visitor);
    }
    if *root != D::empty_tree(256) {
        return Err(ProveError::Way(WayError::WrongDigest));
    }
    Ok(())
}

// Visits the page at a prefix, of a version, and those below it.
#[cycle(visit)]
fn visit_from<D: SupportedDigest, P: Pages<A>, V: PageVisitor<D, A>, A: Allocator + Copy>(
    alloc: A,
    pages: &mut P,
    prefix: &[u8],
    digest: &Hash<D>,
    version: u64,
    lone_keys: LoneKeyCheck,
    visitor: &mut V,
) -> Result<(), ProveError<P::Error>>
    requires { length prefix.now ≤ 32 }
    ensures seen { OnOk result ((before : List ChangedPageAt) → V.HasSeen visitor.old before → (all : List ChangedPageAt)
        × V.HasSeen visitor.new (before ++ all)
        × ((known : P.Known) → P.IsKnown pages.old known
        → AreFromWhere D.digest (IsLoneShown D.digest lone_keys) (IsAllowed (P.bytes_at known) (P.tells_all known))
        (32 - length prefix.now) prefix.now version digest.now all)) }
    ensures refused { IfErr result (IsOfSourceUnless ((known : P.Known) (insertions : List (List ℕ × List ℕ))
        → P.IsKnown pages.old known
        → IsOwnFrom D.digest (P.bytes_at known) prefix.now version digest.now insertions → ⊥)) }
    ensures known { (known : P.Known) → P.IsKnown pages.old known → P.IsKnown pages.new known }
{
    if prefix.len() == 32 {
        return Err(ProveError::Way(WayError::WrongLoneKey));
    }
    let page = read_page(alloc, pages, prefix, version)?;
    if page.digest(prefix.len()) != *digest {
        return Err(ProveError::Way(WayError::WrongDigest));
    }
    see(visitor, prefix, version, &page)?;
    'slots: for slot in page.slots() {
        visit_slot(alloc, pages, prefix, slot, lone_keys, visitor)?;
    }
    Ok(())
}

// Visits the pages below a slot of a page at a prefix.
#[cycle(visit)]
fn visit_slot<D: SupportedDigest, P: Pages<A>, V: PageVisitor<D, A>, A: Allocator + Copy>(
    alloc: A,
    pages: &mut P,
    prefix: &[u8],
    slot: &Slot<D>,
    lone_keys: LoneKeyCheck,
    visitor: &mut V,
) -> Result<(), ProveError<P::Error>>
    requires { length prefix.now < 32 }
    ensures seen { OnOk result ((before : List ChangedPageAt) → V.HasSeen visitor.old before → (all : List ChangedPageAt)
        × V.HasSeen visitor.new (before ++ all)
        × ((known : P.Known) → P.IsKnown pages.old known
        → AreOfSlot (IsLoneShown D.digest lone_keys) (AreFromWhere D.digest (IsLoneShown D.digest lone_keys)
        (IsAllowed (P.bytes_at known) (P.tells_all known)) (31 - length prefix.now))
        prefix.now slot.now slot.now.lone all)) }
    ensures refused { IfErr result (IsOfSourceUnless ((known : P.Known) (insertions : List (List ℕ × List ℕ))
        → P.IsKnown pages.old known
        → IsOwnSlot D.digest (P.bytes_at known) prefix.now slot.now insertions → ⊥)) }
    ensures known { (known : P.Known) → P.IsKnown pages.old known → P.IsKnown pages.new known }
{
    match &slot.lone {
        Some(lone) => Ok(check_lone(prefix, slot, lone, lone_keys)?),
        None => {
            let below = longer(alloc, prefix, slot.byte)?;
            visit_from(
                alloc,
                pages,
                below.as_slice(),
                &slot.digest,
                slot.version,
                lone_keys,
                visitor,
            )
        }
    }
}

// Shows a page to a visitor.
fn see<D, V: PageVisitor<D, A>, A: Allocator>(
    visitor: &mut V,
    prefix: &[u8],
    version: u64,
    page: &MapPage<D, A>,
) -> Result<(), WayError>
    ensures ok { OnOk result ((before : List ChangedPageAt) → V.HasSeen visitor.old before → V.HasSeen visitor.new
        (before ++ record { prefix = prefix.now; version = version; page = page.now } ∷ [])) }
    ensures err { IfErr result (λ e. e ≡ WayError.Memory) }
{
    Ok(visitor.visit(prefix, version, page)?)
}

// Checks that a lone key stands alone below its slot, or doesn't look.
fn check_lone<D: SupportedDigest>(
    prefix: &[u8],
    slot: &Slot<D>,
    lone: &LoneKey<D>,
    lone_keys: LoneKeyCheck,
) -> Result<(), WayError>
    requires { length prefix.now < 32 }
    ensures ok { OnOk result (IsLoneShown D.digest lone_keys prefix.now slot.now lone.now) }
    ensures err { IfErr result (IsMemoryUnless (IsLoneBelow D.digest prefix.now slot.now lone.now → ⊥)) }
{
    match lone_keys {
        LoneKeyCheck::Hashed => hash_lone(prefix, slot, lone),
        LoneKeyCheck::Skipped => Ok(()),
    }
}

// Checks that a lone key stands alone below its slot.
fn hash_lone<D: SupportedDigest>(
    prefix: &[u8],
    slot: &Slot<D>,
    lone: &LoneKey<D>,
) -> Result<(), WayError>
    requires { length prefix.now < 32 }
    ensures ok { OnOk result (IsLoneBelow D.digest prefix.now slot.now lone.now) }
    ensures err { IfErr result (IsMemoryUnless (IsLoneBelow D.digest prefix.now slot.now lone.now → ⊥)) }
{
    let depth = prefix.len();
    let key = lone.key.bytes();
    if !begins_with(key, prefix) || key[depth] != slot.byte {
        return Err(WayError::WrongLoneKey);
    }
    if lone_tree(&lone.key, 0, 248 - 8 * depth, &lone.leaf) != slot.digest {
        return Err(WayError::WrongLoneKey);
    }
    Ok(())
}
