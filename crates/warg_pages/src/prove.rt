//! Proofs of keys by way of pages.

ghost use Rattle.std.specs.Prelude.{◌≡◌, ◌≤◌, [], ℕ, List, length, IfOk, IfErr};
ghost use Rattle.warg_map.specs.Bits.{key_bits};
ghost use Rattle.warg_pages.specs.ProvedKeys.{IsOwnSource, LeadsTo, IsProved};
ghost use Rattle.warg_pages.specs.Private.Finals.{IsWholeWay, IsWholeWayOf, AreLeft, presence_peers};
ghost use Rattle.warg_pages.specs.Refusals.{IsOfSourceUnless};

use crate::descent::descend;
use crate::error::{ProveError, WayError};
use crate::lone::HeldKey;
use crate::source::Pages;
use std::alloc::{Allocator, Global};
use warg_crypto::{Hash, SupportedDigest, VisitBytes};

/// What pages prove of a key, with the peers of a map's proof, from the bottom of the tree to the top.
#[derive(Drop)]
pub enum KeyInPages<D, A: Allocator = Global> {
    /// It is held: the index of an insertion, the last one under the key's digest where the pages are their own, the
    /// leaf digest, and the peers of `Map::prove`.
    Held(u64, Hash<D>, Vec<Option<Hash<D>>, A>),
    /// Nothing is held: the peers of `Map::prove_absence`.
    Absent(Vec<Option<Hash<D>>, A>),
}

/// Proves by way of pages what a map with a root holds under a key, from the first page, of `version`, on: the number of
/// its insertions.
///
/// Over the pages of a list of insertions it gives the very peers of the map's proof. Over any pages each one that is
/// used has the digest of the slot that names it, and the proof leads to the root; no digest binds a version, and so the
/// index. The refusals: `Pages` where the source has no page; `BadPage`, `WrongDigest` and `WrongLoneKey` only where its
/// pages aren't those of insertions with this root; or memory. What is known of the source stays true.
///
/// It reads a page for each byte that the key's digest shares with another, and one more; each branch beside the way is
/// hashed once, and a lone key's way down once.
pub fn prove_by_pages<D: SupportedDigest, K: VisitBytes, P: Pages<A>, A: Allocator + Copy>(
    alloc: A,
    pages: &mut P,
    root: &Hash<D>,
    version: u64,
    key: &K,
) -> Result<KeyInPages<D, A>, ProveError<P::Error>>
    ensures leads { IfOk result (LeadsTo D.digest (key_bits D.digest (K.bytes key.now)) root.now) }
    ensures own { IfOk result (λ found. (known : P.Known) (insertions : List (List ℕ × List ℕ))
        → P.IsKnown pages.old known → IsOwnSource D.digest (P.bytes_at known) root.now version insertions
        → IsProved D.digest insertions (K.bytes key.now) found) }
    ensures refused { IfErr result (IsOfSourceUnless ((known : P.Known) (insertions : List (List ℕ × List ℕ))
        → P.IsKnown pages.old known → IsOwnSource D.digest (P.bytes_at known) root.now version insertions → ⊥)) }
    ensures known { (known : P.Known) → P.IsKnown pages.old known → P.IsKnown pages.new known }
{
    let digest = Hash::of(key);
    let mut peers = Vec::new(alloc);
    let held = way_from_root(alloc, pages, root, version, &digest, &mut peers)?;
    peers.truncate(count_left(peers.as_slice()));
    let Some(held) = held else {
        peers.reverse();
        return Ok(KeyInPages::Absent(peers));
    };
    let mut filled = presence(alloc, peers.as_slice())?;
    filled.reverse();
    Ok(KeyInPages::Held(held.index, held.leaf.copied(), filled))
}

// The peers of a key digest's way from a root, from the top, and what is held.
fn way_from_root<D: SupportedDigest, P: Pages<A>, A: Allocator + Copy>(
    alloc: A,
    pages: &mut P,
    root: &Hash<D>,
    version: u64,
    key: &Hash<D>,
    peers: &mut Vec<Option<Hash<D>>, A>,
) -> Result<Option<HeldKey<D>>, ProveError<P::Error>>
    requires { peers.old.items ≡ [] }
    ensures ok { IfOk result (IsWholeWay D.digest root.now key.now peers.new.items) }
    ensures own { IfOk result (λ held. (known : P.Known) (insertions : List (List ℕ × List ℕ))
        → P.IsKnown pages.old known → IsOwnSource D.digest (P.bytes_at known) root.now version insertions
        → IsWholeWayOf D.digest insertions key.now peers.new.items held) }
    ensures err { IfErr result (IsOfSourceUnless ((known : P.Known) (insertions : List (List ℕ × List ℕ))
        → P.IsKnown pages.old known → IsOwnSource D.digest (P.bytes_at known) root.now version insertions → ⊥)) }
    ensures known { (known : P.Known) → P.IsKnown pages.old known → P.IsKnown pages.new known }
{
    if version != 0 {
        return descend(alloc, pages, key, 0, root, version, peers);
    }
    if *root != D::empty_tree(256) {
        return Err(ProveError::Way(WayError::WrongDigest));
    }
    Ok(None)
}

// How many peers are left, when those at the end that are none are dropped.
fn count_left<D>(peers: &[Option<Hash<D>>]) -> usize
    ensures { AreLeft peers.now result }
{
    for passed in 0..peers.len() {
        let last = peers.len() - 1 - passed;
        if peers[last].is_some() {
            return last + 1;
        }
    }
    0
}

// The peers of a proof of presence, from the top.
fn presence<D: SupportedDigest, A: Allocator>(
    alloc: A,
    peers: &[Option<Hash<D>>],
) -> Result<Vec<Option<Hash<D>>, A>, WayError>
    requires { length peers.now ≤ 256 }
    ensures ok { IfOk result (λ filled. filled.items ≡ presence_peers D.digest peers.now) }
    ensures err { IfErr result (λ e. e ≡ WayError.Memory) }
{
    let mut filled = Vec::new(alloc);
    if peers.is_empty() {
        filled.push(Some(D::empty_tree(255)))?;
    }
    for at in 0..peers.len() {
        let peer = match &peers[at] {
            Some(peer) => peer.copied(),
            None => D::empty_tree(255 - at),
        };
        filled.push(Some(peer))?;
    }
    Ok(filled)
}
