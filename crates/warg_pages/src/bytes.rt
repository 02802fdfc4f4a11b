//! Slots as bytes.

ghost use Rattle.std.specs.Prelude.{◌≡◌, ◌≢◌, ℕ, ◌<◌, List, ◌++◌, length, Option, MatchOption, OnOk};
ghost use Rattle.std.specs.Int.{to_be_bytes};
ghost use Rattle.warg_crypto.specs.Digests.{IsDigest};
ghost use Rattle.warg_pages.specs.Slots.{SlotAt, IsLone, IsSlot};
ghost use Rattle.warg_pages.specs.PageBytes.{kind_of, lone_bytes, slot_bytes};

use crate::slot::{LoneKey, Slot};
use std::alloc::{AllocError, Allocator};
use warg_crypto::Hash;

// The kind of a slot below which a page stands.
const PAGE: u8 = 0;

// The kind of a slot with a lone key.
const LONE: u8 = 1;

// The most bytes that a slot has.
const MOST_BYTES: usize = 106;

/// Writes a slot's bytes behind others, or nothing.
pub(crate) fn write_slot<D, A: Allocator>(
    bytes: &mut Vec<u8, A>,
    slot: &Slot<D>,
) -> Result<(), AllocError>
    ensures { OnOk result (bytes.new.items ≡ bytes.old.items ++ slot_bytes slot.now) }
{
    let kind = if slot.lone.is_some() { LONE } else { PAGE };
    bytes.reserve(MOST_BYTES)?;
    bytes.extend_from_slice(&[slot.byte, kind])?;
    bytes.extend_from_slice(&u64::to_be_bytes(slot.version))?;
    bytes.extend_from_slice(slot.digest.bytes())?;
    if let Some(lone) = &slot.lone {
        bytes.extend_from_slice(lone.key.bytes())?;
        bytes.extend_from_slice(lone.leaf.bytes())?;
    }
    Ok(())
}

/// The slot that bytes begin with, and the bytes behind it: `None` exactly if a slot is cut, or its kind isn't 0 or 1.
pub(crate) fn first_slot<D>(bytes: &[u8]) -> Option<(Slot<D>, &[u8])>
    ensures { MatchOption result ((x : SlotAt) (behind : List ℕ) → IsSlot x
        → bytes.now ≢ slot_bytes x ++ behind)
        (λ parts. IsSlot parts.0 × (bytes.now ≡ slot_bytes parts.0 ++ parts.1.now)) }
{
    let [byte, kind, rest @ ..] = bytes else {
        return None;
    };
    let (version, rest) = rest.split_first_chunk::<8>()?;
    let (digest, rest) = first_hash(rest)?;
    let (lone, rest) = first_lone(*kind, rest)?;
    let slot = Slot {
        byte: *byte,
        version: u64::from_be_bytes(*version),
        digest,
        lone,
    };
    Some((slot, rest))
}

// The lone key that bytes begin with, for a slot of this kind, and the bytes behind it.
fn first_lone<D>(kind: u8, bytes: &[u8]) -> Option<(Option<LoneKey<D>>, &[u8])>
    ensures { MatchOption result ((lone : Option (List ℕ × List ℕ)) (behind : List ℕ)
        → IsLone lone → kind ≡ kind_of lone → bytes.now ≢ lone_bytes lone ++ behind)
        (λ parts. IsLone parts.0 × (kind ≡ kind_of parts.0)
        × (bytes.now ≡ lone_bytes parts.0 ++ parts.1.now)) }
{
    match kind {
        PAGE => Some((None, bytes)),
        LONE => {
            let (key, rest) = first_hash(bytes)?;
            let (leaf, rest) = first_hash(rest)?;
            Some((Some(LoneKey { key, leaf }), rest))
        }
        _ => None,
    }
}

// The digest that bytes begin with, and the bytes behind it.
fn first_hash<D>(bytes: &[u8]) -> Option<(Hash<D>, &[u8])>
    ensures { MatchOption result (length bytes.now < 32)
        (λ parts. IsDigest parts.0 × (bytes.now ≡ parts.0 ++ parts.1.now)) }
{
    let (digest, rest) = bytes.split_first_chunk::<32>()?;
    Some((Hash::from_array(*digest), rest))
}
