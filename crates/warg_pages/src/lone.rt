//! Where the way down ends at a lone key.

ghost use Rattle.std.specs.Prelude.{◌≡◌, ◌+◌, ◌*◌, ◌<◌, ◌≤◌, ◌++◌, [], ℕ, List, Option, Some, None, IfOk, IfErr, OnOk};
ghost use Rattle.warg_map.specs.Bits.{bit_at, bits_from};
ghost use Rattle.warg_pages.specs.Private.Descents.{EndsAt, IsNoLoneKey};
ghost use Rattle.warg_pages.specs.Refusals.{IsMemoryUnless};

use crate::bits::shared_bits;
use crate::climb::lone_tree;
use crate::error::WayError;
use crate::slot::{LoneKey, Slot};
use std::alloc::Allocator;
use std::marker::Model;
use warg_crypto::{Hash, SupportedDigest};

/// What is held under a key: the index of its last insertion, and the leaf digest.
pub(crate) struct HeldKey<D> {
    pub(crate) index: u64,
    pub(crate) leaf: Hash<D>,
}

// Contracts see the pair of both.
impl<D> Model for HeldKey<D> {
    ghost use Rattle.std.specs.Prelude.{ℕ, List};

    ghost Value = { ℕ × List ℕ };

    ghost view = { λ h. (h.index, h.leaf) };
}

impl<D> Drop for HeldKey<D> {
    fn drop(self) {
        let HeldKey { index: _, leaf: _ } = self;
    }
}

/// Ends a key digest's way at the lone key of a slot: puts the further peers behind those that came before, and gives
/// what is held, if the lone key has this digest.
pub(crate) fn end_at<D: SupportedDigest, A: Allocator>(
    peers: &mut Vec<Option<Hash<D>>, A>,
    key: &Hash<D>,
    depth: usize,
    slot: &Slot<D>,
    lone: &LoneKey<D>,
) -> Result<Option<HeldKey<D>>, WayError>
    requires { depth < 32 }
    ensures ok { IfOk result (λ held. (more : List (Option (List ℕ)))
        × (peers.new.items ≡ peers.old.items ++ more)
        × EndsAt D.digest key.now depth slot.now lone.now more held) }
    ensures err { IfErr result (IsMemoryUnless (IsNoLoneKey D.digest key.now depth slot.now lone.now)) }
{
    let shared = shared_bits(key, &lone.key);
    if shared < 8 * depth + 8 {
        return Err(WayError::WrongLoneKey);
    }
    if shared == 256 {
        return Ok(Some(held_end(key, depth, slot, lone)?));
    }
    parted_end(peers, key, depth, slot, lone, shared)?;
    Ok(None)
}

// What a lone key with the digest itself holds.
fn held_end<D: SupportedDigest>(
    key: &Hash<D>,
    depth: usize,
    slot: &Slot<D>,
    lone: &LoneKey<D>,
) -> Result<HeldKey<D>, WayError>
    requires depth { depth < 32 }
    requires same { bits_from key.now 0 256 ≡ bits_from lone.now.0 0 256 }
    ensures ok { IfOk result (λ held. EndsAt D.digest key.now depth slot.now lone.now [] (Some held)) }
    ensures err { IfErr result (IsMemoryUnless (IsNoLoneKey D.digest key.now depth slot.now lone.now)) }
{
    if lone_tree(key, 0, 248 - 8 * depth, &lone.leaf) != slot.digest {
        return Err(WayError::WrongLoneKey);
    }
    let Some(index) = slot.version.checked_sub(1) else {
        return Err(WayError::BadPage);
    };
    Ok(HeldKey {
        index,
        leaf: lone.leaf.copied(),
    })
}

// Adds the peers down to where a lone key parts from the digest: nothing, and at last the lone key's tree.
fn parted_end<D: SupportedDigest, A: Allocator>(
    peers: &mut Vec<Option<Hash<D>>, A>,
    key: &Hash<D>,
    depth: usize,
    slot: &Slot<D>,
    lone: &LoneKey<D>,
    shared: usize,
) -> Result<(), WayError>
    requires depth { depth < 32 }
    requires below { 8 * depth + 8 ≤ shared }
    requires parts { shared < 256 }
    requires same { bits_from key.now 0 shared ≡ bits_from lone.now.0 0 shared }
    requires apart { ¬ (bit_at key.now shared ≡ bit_at lone.now.0 shared) }
    ensures ok { OnOk result ((more : List (Option (List ℕ)))
        × (peers.new.items ≡ peers.old.items ++ more)
        × EndsAt D.digest key.now depth slot.now lone.now more None) }
    ensures err { IfErr result (IsMemoryUnless (IsNoLoneKey D.digest key.now depth slot.now lone.now)) }
{
    let bottom = 255 - shared;
    let other = lone_tree(&lone.key, 0, bottom, &lone.leaf);
    if lone_tree(&lone.key, bottom, 248 - 8 * depth, &other) != slot.digest {
        return Err(WayError::WrongLoneKey);
    }
    for _bit in 8 * depth + 8..shared {
        peers.push(None)?;
    }
    peers.push(Some(other))?;
    Ok(())
}
