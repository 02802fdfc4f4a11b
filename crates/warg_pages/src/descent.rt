//! The way down from a root through pages.

ghost use Rattle.std.specs.Prelude.{◌≡◌, ◌≢◌, ◌<◌, ◌≤◌, ◌++◌, ℕ, List, Option, slice_index, IfOk, IfErr, OnOk};
ghost use Rattle.std.specs.Option.{option_copied};
ghost use Rattle.warg_pages.specs.Slots.{IsPage};
ghost use Rattle.warg_pages.specs.Pages.{slot_at};
ghost use Rattle.warg_pages.specs.Private.Descents.{peers_below, page_peers, page_value, IsOwnAt, IsOwnWay, IsWayDown};
ghost use Rattle.warg_pages.specs.Refusals.{IsMemoryUnless, IsOfSourceUnless};

use crate::climb::value_of_page;
use crate::error::{ProveError, WayError};
use crate::lone::{HeldKey, end_at};
use crate::page::MapPage;
use crate::peers::peer_beside;
use crate::slot::Slot;
use crate::source::{Pages, read_page};
use std::alloc::Allocator;
use warg_crypto::{Hash, SupportedDigest};

/// Goes down a key digest's way from its prefix of `depth` bytes, where a page of a version has a digest: puts the peers
/// behind those that came before, from the top, and gives what is held.
pub(crate) fn descend<D: SupportedDigest, P: Pages<A>, A: Allocator + Copy>(
    alloc: A,
    pages: &mut P,
    key: &Hash<D>,
    depth: usize,
    digest: &Hash<D>,
    version: u64,
    peers: &mut Vec<Option<Hash<D>>, A>,
) -> Result<Option<HeldKey<D>>, ProveError<P::Error>>
    requires { depth ≤ 32 }
    ensures ok { IfOk result (λ held. (more : List (Option (List ℕ)))
        × (peers.new.items ≡ peers.old.items ++ more) × IsWayDown D.digest key.now depth digest.now more held
        × ((known : P.Known) (insertions : List (List ℕ × List ℕ)) → P.IsKnown pages.old known
        → IsOwnAt D.digest (P.bytes_at known) key.now depth digest.now version insertions
        → IsOwnWay D.digest insertions key.now depth more held)) }
    ensures err { IfErr result (IsOfSourceUnless ((known : P.Known) (insertions : List (List ℕ × List ℕ))
        → P.IsKnown pages.old known
        → IsOwnAt D.digest (P.bytes_at known) key.now depth digest.now version insertions → ⊥)) }
    ensures known { (known : P.Known) → P.IsKnown pages.old known → P.IsKnown pages.new known }
{
    if depth == 32 {
        return Err(ProveError::Way(WayError::WrongLoneKey));
    }
    let page = read_page(alloc, pages, &key.bytes()[..depth], version)?;
    let Some(slot) = pass_page(&page, key, depth, digest, peers)? else {
        return Ok(None);
    };
    match &slot.lone {
        Some(lone) => Ok(end_at(peers, key, depth, slot, lone)?),
        None => descend(
            alloc,
            pages,
            key,
            depth + 1,
            &slot.digest,
            slot.version,
            peers,
        ),
    }
}

// Goes through one page on a key digest's way, which has to have a digest: adds its peers, and gives the slot of the next
// byte.
fn pass_page<'a, D: SupportedDigest, A: Allocator, B: Allocator>(
    page: &'a MapPage<D, A>,
    key: &Hash<D>,
    depth: usize,
    digest: &Hash<D>,
    peers: &mut Vec<Option<Hash<D>>, B>,
) -> Result<Option<&'a Slot<D>>, WayError>
    requires { depth < 32 }
    ensures page { IsPage page.now }
    ensures slot { IfOk result (λ slot. option_copied slot
        ≡ slot_at page.now (slice_index key.now depth)) }
    ensures peers { OnOk result (peers.new.items
        ≡ peers.old.items ++ page_peers D.digest depth page.now key.now) }
    ensures value { OnOk result (page_value D.digest depth page.now key.now ≡ digest.now) }
    ensures err { IfErr result (IsMemoryUnless (page_value D.digest depth page.now key.now
        ≢ digest.now)) }
{
    let byte = key.bytes()[depth];
    let before = peers.as_slice().len();
    push_page_peers(peers, page.slots(), depth, byte)?;
    let (_, page_peers) = peers.as_slice().split_at(before);
    let slot = page.slot(byte);
    let foot = match slot {
        Some(slot) => slot.digest.copied(),
        None => D::empty_tree(248 - 8 * depth),
    };
    if value_of_page(page_peers, key, depth, foot) != *digest {
        return Err(WayError::WrongDigest);
    }
    Ok(slot)
}

// Adds the eight peers of a page beside the slot of a byte, from the top.
fn push_page_peers<D: SupportedDigest, A: Allocator>(
    peers: &mut Vec<Option<Hash<D>>, A>,
    slots: &[Slot<D>],
    depth: usize,
    byte: u8,
) -> Result<(), WayError>
    requires depth { depth < 32 }
    requires page { IsPage slots.now }
    ensures ok { OnOk result (peers.new.items
        ≡ peers.old.items ++ peers_below D.digest depth slots.now byte 8) }
    ensures err { IfErr result (λ e. e ≡ WayError.Memory) }
{
    for passed in 0..8 {
        peers.push(peer_beside(depth, slots, byte, 7 - passed))?;
    }
    Ok(())
}
