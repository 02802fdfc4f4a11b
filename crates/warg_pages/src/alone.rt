//! Keys that stand alone at a slot, after changes there.

ghost use Rattle.std.specs.Prelude.{◌≡◌, ◌<◌, ◌↔◌, IsTrue, IfOk, IfErr};
ghost use Rattle.std.specs.Option.{option_copied};
ghost use Rattle.std.specs.List.{All};
ghost use Rattle.warg_pages.specs.Private.Updates.{lone_slot, HasLoneDigest, HoldsOnly, StaysAlone};
ghost use Rattle.warg_pages.specs.Refusals.{IsMemoryUnless};

use crate::change::Change;
use crate::climb::lone_tree;
use crate::error::WayError;
use crate::slot::{LoneKey, Slot};
use warg_crypto::{Hash, SupportedDigest};

/// Whether a key digest stands alone at a slot, with changes there.
pub(crate) fn stays_alone<D>(slot: Option<&Slot<D>>, key: &Hash<D>, changes: &[Change<D>]) -> bool
    ensures { IsTrue result ↔ StaysAlone key.now (option_copied slot.entry) changes.now }
{
    holds_only(slot, key) && are_of(changes, key)
}

// Whether no key stands below a slot but this one.
fn holds_only<D>(slot: Option<&Slot<D>>, key: &Hash<D>) -> bool
    ensures { IsTrue result ↔ HoldsOnly key.now (option_copied slot.entry) }
{
    let Some(slot) = slot else {
        return true;
    };
    match &slot.lone {
        Some(lone) => lone.key == *key,
        None => false,
    }
}

// Whether changes are all of one key digest.
fn are_of<D>(changes: &[Change<D>], key: &Hash<D>) -> bool
    ensures { IsTrue result ↔ All (λ c. c.key ≡ key.now) changes.now }
{
    for change in changes {
        if change.key != *key {
            return false;
        }
    }
    true
}

/// The slot of a key digest that stands alone after a change, if the tree of the lone key before has the slot's digest.
pub(crate) fn lone_slot_after<D: SupportedDigest>(
    depth: usize,
    byte: u8,
    slot: Option<&Slot<D>>,
    last: &Change<D>,
) -> Result<Slot<D>, WayError>
    requires { depth < 32 }
    ensures ok { IfOk result (λ x.
        x ≡ lone_slot D.digest depth byte last.now.version (last.now.key, last.now.leaf)) }
    ensures checked { IfOk result (λ x. HasLoneDigest D.digest depth (option_copied slot.entry)) }
    ensures err { IfErr result (IsMemoryUnless (¬ HasLoneDigest D.digest depth (option_copied slot.entry))) }
{
    if !has_lone_digest(depth, slot) {
        return Err(WayError::WrongLoneKey);
    }
    Ok(Slot {
        byte,
        version: last.version,
        digest: lone_tree(&last.key, 0, 248 - 8 * depth, &last.leaf),
        lone: Some(LoneKey {
            key: last.key.copied(),
            leaf: last.leaf.copied(),
        }),
    })
}

// Whether the tree of a slot's lone key, if there is one, has the slot's digest.
fn has_lone_digest<D: SupportedDigest>(depth: usize, slot: Option<&Slot<D>>) -> bool
    requires { depth < 32 }
    ensures { IsTrue result ↔ HasLoneDigest D.digest depth (option_copied slot.entry) }
{
    let Some(slot) = slot else {
        return true;
    };
    match &slot.lone {
        Some(lone) => lone_tree(&lone.key, 0, 248 - 8 * depth, &lone.leaf) == slot.digest,
        None => true,
    }
}
