//! Insertions as entries of a log.

ghost use Rattle.std.specs.Prelude.{◌≡◌, ◌≢◌, ℕ, ◌≤◌, ◌↔◌, List, ◌++◌, length, MatchOption, Err, IfOk, IfErr, OnErr};
ghost use Rattle.warg_crypto.specs.Framed.{framed_part, IsPart};
ghost use Rattle.warg_crypto.specs.Tree.{leaf_digest};
ghost use Rattle.warg_registry.specs.Insertions.{entry_of, IsInsertion, HasNoPart, IsFault};

use crate::error::InsertionFault;
use std::alloc::Allocator;
use warg_crypto::{Framed, Hash, SupportedDigest, bytes_of, hash_leaf};
use warg_tiles::EntryError;

// The greatest number of bytes of a key and its value together: those of an entry without the two lengths.
const MOST: usize = 65_535 - 16;

/// An insertion, borrowed from its entry.
#[derive(Clone, Copy, Debug, PartialEq, Eq)]
pub struct Insertion<'a> {
    pub key: &'a [u8],
    pub value: &'a [u8],
}

/// The entry of an insertion: the key and then the value, each after its length in 8 bytes, big-endian.
/// `TooLong` exactly if the entry has more than 65,535 bytes, before allocating; else it fails only if allocation
/// fails.
pub fn write_insertion<A: Allocator>(
    alloc: A,
    key: &[u8],
    value: &[u8],
) -> Result<Vec<u8, A>, EntryError>
    ensures ok { IfOk result (λ entry. entry.items ≡ entry_of (key.now, value.now)) }
    ensures too_long { (result ≡ Err EntryError.TooLong)
        ↔ (65536 ≤ length (entry_of (key.now, value.now))) }
{
    if key.len() > MOST || value.len() > MOST - key.len() {
        return Err(EntryError::TooLong);
    }
    Ok(bytes_of(alloc, &Framed(&[key, value]))?)
}

/// The insertion that has these bytes as its entry. The first fault by name: `Key`, `Value`, `Longer`. What is written
/// is read as the same, and nothing else is read as it.
pub fn read_insertion(entry: &[u8]) -> Result<Insertion<'_>, InsertionFault>
    ensures ok { IfOk result (λ read. IsInsertion (read.key.now, read.value.now)
        × (entry.now ≡ entry_of (read.key.now, read.value.now))) }
    ensures none { OnErr result ((e : List ℕ × List ℕ) → IsInsertion e → entry.now ≢ entry_of e) }
    ensures fault { IfErr result (IsFault entry.now) }
{
    let Some((key, rest)) = first_part(entry) else {
        return Err(InsertionFault::Key);
    };
    let Some((value, rest)) = first_part(rest) else {
        return Err(InsertionFault::Value);
    };
    if !rest.is_empty() {
        return Err(InsertionFault::Longer);
    }
    Ok(Insertion { key, value })
}

// The part that bytes begin with, after its length, and the bytes after it.
fn first_part(bytes: &[u8]) -> Option<(&[u8], &[u8])>
    ensures { MatchOption result (HasNoPart bytes.now)
        (λ found. IsPart found.0.now × (bytes.now ≡ framed_part found.0.now ++ found.1.now)) }
{
    let (length, rest) = bytes.split_first_chunk::<8>()?;
    let length = u64::from_be_bytes(*length) as usize;
    if rest.len() < length {
        return None;
    }
    Some(rest.split_at(length))
}

/// The value that an entry inserts under a key, if the entry is an insertion under this very key, of a value with this
/// leaf digest; else `None`.
///
/// Where a map holds the leaf digest under the key, as `prove_by_pages` of `warg_pages` shows, this value is what it
/// holds there, whoever gave the entry.
pub fn inserted_value<'a, D: SupportedDigest>(
    entry: &'a [u8],
    key: &[u8],
    leaf: &Hash<D>,
) -> Option<&'a [u8]>
    ensures { MatchOption result
        ((value : List ℕ) → IsInsertion (key.now, value) → entry.now ≡ entry_of (key.now, value)
        → leaf_digest D.digest value ≢ leaf.now)
        (λ value. (entry.now ≡ entry_of (key.now, value.now))
        × (leaf_digest D.digest value.now ≡ leaf.now)) }
{
    let Ok(read) = read_insertion(entry) else {
        return None;
    };
    if read.key != key {
        return None;
    }
    if hash_leaf::<D, _>(&read.value) != *leaf {
        return None;
    }
    Some(read.value)
}
