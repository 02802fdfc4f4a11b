//! What pages hold under a key digest.

ghost use Rattle.std.specs.Prelude.{◌≡◌, ◌≢◌, ◌-◌, ◌≤◌, ℕ, List, take, IfOk, IfErr, MatchOption};
ghost use Rattle.warg_pages.specs.ChangedPages.{ChangedPageAt};
ghost use Rattle.warg_pages.specs.Visits.{AreAllPages, AreFrom, IsAllowed};
ghost use Rattle.warg_pages.specs.Audits.{IsHeldIn};
ghost use Rattle.warg_pages.specs.Refusals.{IsOfSourceUnless};

use crate::error::{ProveError, WayError};
use crate::slot::{LoneKey, Slot};
use crate::source::{Pages, read_page};
use std::alloc::Allocator;
use std::marker::Model;
use warg_crypto::{Hash, SupportedDigest};

/// What pages hold under a key digest: the version of the slot in which it stands alone, which is 1 and the index of
/// its last insertion, and the leaf digest there.
pub struct HeldInPages<D> {
    /// The version of its slot.
    pub version: u64,
    /// The leaf digest of its value.
    pub leaf: Hash<D>,
}

// Contracts see the pair of both.
impl<D> Model for HeldInPages<D> {
    ghost use Rattle.std.specs.Prelude.{ℕ, List};

    ghost Value = { ℕ × List ℕ };

    ghost view = { λ h. (h.version, h.leaf) };
}

impl<D> Drop for HeldInPages<D> {
    fn drop(self) {
        let HeldInPages {
            version: _,
            leaf: _,
        } = self;
    }
}

/// Returns what the pages of a map hold under a key digest at `version`, or `None` if they hold nothing under it, as at
/// version 0. It checks no digest: what it returns is true of the pages that [`visit_pages`](crate::visit_pages) has
/// visited at this version, if the source tells of every page that it gives.
///
/// It fails with `Pages` if the source has no such page, with `BadPage` or `WrongLoneKey` only if the pages aren't those
/// of a visit, and if allocation fails. What is known of the source stays true.
///
/// It reads the first page, and one more for each byte that the key digest shares with another.
pub fn held_in_pages<D: SupportedDigest, P: Pages<A>, A: Allocator + Copy>(
    alloc: A,
    pages: &mut P,
    version: u64,
    key: &Hash<D>,
) -> Result<Option<HeldInPages<D>>, ProveError<P::Error>>
    ensures held { IfOk result (λ held. (known : P.Known) (root : List ℕ) (all : List ChangedPageAt)
        → P.IsKnown pages.old known → P.tells_all known
        → AreAllPages D.digest (IsAllowed (P.bytes_at known) (P.tells_all known)) root version all
        → IsHeldIn all key.now held) }
    ensures refused { IfErr result (IsOfSourceUnless ((known : P.Known) (root : List ℕ) (all : List ChangedPageAt)
        → P.IsKnown pages.old known → P.tells_all known
        → AreAllPages D.digest (IsAllowed (P.bytes_at known) (P.tells_all known)) root version all → ⊥)) }
    ensures known { (known : P.Known) → P.IsKnown pages.old known → P.IsKnown pages.new known }
{
    if version == 0 {
        return Ok(None);
    }
    held_from(alloc, pages, version, key, 0)
}

// What pages hold under a key digest from its prefix of `depth` bytes on, where the page has a version.
fn held_from<D: SupportedDigest, P: Pages<A>, A: Allocator + Copy>(
    alloc: A,
    pages: &mut P,
    version: u64,
    key: &Hash<D>,
    depth: usize,
) -> Result<Option<HeldInPages<D>>, ProveError<P::Error>>
    requires { depth ≤ 32 }
    ensures held { IfOk result (λ held. (known : P.Known) (digest : List ℕ) (all : List ChangedPageAt)
        → P.IsKnown pages.old known → P.tells_all known
        → AreFrom D.digest (IsAllowed (P.bytes_at known) (P.tells_all known)) (32 - depth)
        (take depth key.now) version digest all
        → IsHeldIn all key.now held) }
    ensures refused { IfErr result (IsOfSourceUnless ((known : P.Known) (digest : List ℕ) (all : List ChangedPageAt)
        → P.IsKnown pages.old known → P.tells_all known
        → AreFrom D.digest (IsAllowed (P.bytes_at known) (P.tells_all known)) (32 - depth)
        (take depth key.now) version digest all
        → ⊥)) }
    ensures known { (known : P.Known) → P.IsKnown pages.old known → P.IsKnown pages.new known }
{
    if depth == 32 {
        return Err(ProveError::Way(WayError::WrongLoneKey));
    }
    let bytes = key.bytes();
    let page = read_page::<D, P, A>(alloc, pages, &bytes[..depth], version)?;
    let Some(slot) = page.slot(bytes[depth]) else {
        return Ok(None);
    };
    match &slot.lone {
        Some(lone) => Ok(held_alone(slot, lone, key)),
        None => held_from(alloc, pages, slot.version, key, depth + 1),
    }
}

// What a slot's lone key holds, if it is the key digest.
fn held_alone<D: SupportedDigest>(
    slot: &Slot<D>,
    lone: &LoneKey<D>,
    key: &Hash<D>,
) -> Option<HeldInPages<D>>
    ensures { MatchOption result (lone.now.0 ≢ key.now)
        (λ held. (lone.now.0 ≡ key.now) × (held ≡ (slot.now.version, lone.now.1))) }
{
    if lone.key != *key {
        return None;
    }
    Some(HeldInPages {
        version: slot.version,
        leaf: lone.leaf.copied(),
    })
}
