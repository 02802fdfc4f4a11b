//! Entry bundles.

ghost use Rattle.std.specs.Prelude.{◌≡◌, ◌≢◌, ℕ, ◌<◌, ◌≤◌, ◌↔◌, List, [], ◌∷◌, ◌++◌, length, map, Err, IfOk, OnOk, OnErr, IsTrue, MatchOption};
ghost use Rattle.std.specs.List.{AllByRecursion};
ghost use Rattle.warg_tiles.specs.EntryBundles.{two_bytes, bundle_of};

use crate::error::{EntriesError, EntryError};
use std::alloc::{AllocError, Allocator};
use std::convert::AsSlice;

// One more than the greatest length of an entry in a bundle.
const TOO_LONG: usize = 1 << 16;

/// The bytes of the bundle of these entries: for each its length as two bytes, the greater one first, and then its
/// bytes (C2SP tlog-tiles). `TooLong` exactly if an entry has more than 65,535 bytes, before allocating; else it fails
/// only if allocation fails.
#[tactic(auto, unfolding(crate::specs::EntryBundles::bundle_of))]
pub fn write_entries<T: AsSlice<u8>, A: Allocator>(
    alloc: A,
    entries: &[T],
) -> Result<Vec<u8, A>, EntryError>
    ensures ok { IfOk result (λ bytes. bytes.items ≡ bundle_of (map (λ e. T.items e) entries.now)) }
    ensures short { (result ≡ Err EntryError.TooLong → ⊥)
        ↔ AllByRecursion (λ e. length (T.items e) < 65536) entries.now }
{
    if !are_short(entries) {
        return Err(EntryError::TooLong);
    }
    let mut bytes = Vec::new(alloc);
    'entries: for entry in entries {
        write_entry(&mut bytes, entry.as_slice())?;
    }
    Ok(bytes)
}

/// Adds an entry behind those of a bundle's bytes. `TooLong` exactly if it has more than 65,535 bytes; else it fails
/// only if allocation fails. A refused call leaves the bytes as they were.
#[tactic(auto, unfolding(crate::specs::EntryBundles::bundle_of))]
pub fn push_entry<A: Allocator>(bytes: &mut Vec<u8, A>, entry: &[u8]) -> Result<(), EntryError>
    ensures ok { OnOk result (bytes.new.items ≡ bytes.old.items ++ bundle_of (entry.now ∷ [])) }
    ensures err { OnErr result (bytes.new.items ≡ bytes.old.items) }
    ensures too_long { (result ≡ Err EntryError.TooLong) ↔ (65536 ≤ length entry.now) }
{
    if entry.len() >= TOO_LONG {
        return Err(EntryError::TooLong);
    }
    write_entry(bytes, entry)?;
    Ok(())
}

// Whether each entry has at most 65,535 bytes.
fn are_short<T: AsSlice<u8>>(entries: &[T]) -> bool
    ensures { IsTrue result ↔ AllByRecursion (λ e. length (T.items e) < 65536) entries.now }
{
    'entries: for entry in entries {
        if entry.as_slice().len() >= TOO_LONG {
            return false;
        }
    }
    true
}

// Writes an entry's length and its bytes, or nothing.
fn write_entry<A: Allocator>(bytes: &mut Vec<u8, A>, entry: &[u8]) -> Result<(), AllocError>
    requires { length entry.now < 65536 }
    ensures ok { OnOk result
        (bytes.new.items ≡ bytes.old.items ++ (two_bytes (length entry.now) ++ entry.now)) }
    ensures err { OnErr result (bytes.new.items ≡ bytes.old.items) }
{
    let length = entry.len();
    bytes.reserve(length + 2)?;
    bytes.extend_from_slice(&[(length / 256) as u8, (length % 256) as u8])?;
    bytes.extend_from_slice(entry)
}

/// The entries of a bundle, lent from its bytes. `Truncated` only where the bytes are no bundle's: they end within an
/// entry's length or within an entry. Else it fails only if allocation fails.
#[tactic(auto, unfolding(crate::specs::EntryBundles::bundle_of))]
pub fn read_entries<A: Allocator>(alloc: A, bytes: &[u8]) -> Result<Vec<&[u8], A>, EntriesError>
    ensures ok { IfOk result (λ entries. bytes.now ≡ bundle_of (map (λ e. e.now) entries.items)) }
    ensures truncated { result ≡ Err EntriesError.Truncated → (entries : List (List ℕ))
        → AllByRecursion (λ e. length e < 65536) entries
        → bytes.now ≢ bundle_of entries }
{
    let mut entries = Vec::new(alloc);
    let mut rest = bytes;
    'entries: while !rest.is_empty() {
        let Some((entry, behind)) = first_entry(rest) else {
            return Err(EntriesError::Truncated);
        };
        entries.push(entry)?;
        rest = behind;
    }
    Ok(entries)
}

// The first entry of a bundle's bytes, and the bytes behind it.
fn first_entry(bytes: &[u8]) -> Option<(&[u8], &[u8])>
    ensures { MatchOption result ((entry behind : List ℕ) → length entry < 65536
        → bytes.now ≢ two_bytes (length entry) ++ (entry ++ behind))
        (λ parts. (length parts.0.now < 65536)
        × (bytes.now ≡ two_bytes (length parts.0.now) ++ (parts.0.now ++ parts.1.now))) }
{
    let [greater, less, rest @ ..] = bytes else {
        return None;
    };
    let length = 256 * *greater as usize + *less as usize;
    if rest.len() < length {
        return None;
    }
    Some(rest.split_at(length))
}
