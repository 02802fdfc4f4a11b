//! What insertions put under key digests.

ghost use Rattle.std.specs.Prelude.{◌≡◌, ◌+◌, ◌^◌, ◌<◌, [], ℕ, length, vec_len, IfOk, IfErr};
ghost use Rattle.std.specs.List.{filter, HoldsAt};
ghost use Rattle.warg_map.specs.Sparse.{pair_bytes};
ghost use Rattle.warg_pages.specs.Private.Updates.{changes_from, goes_to};

use crate::error::WayError;
use std::alloc::Allocator;
use std::marker::Model;
use warg_crypto::{Hash, SupportedDigest, VisitBytes, hash_leaf};

/// What an insertion puts under a key digest: a leaf digest, as the version of what stands there.
pub(crate) struct Change<D> {
    pub(crate) key: Hash<D>,
    pub(crate) leaf: Hash<D>,
    pub(crate) version: u64,
}

// Contracts see the change of the definitions.
impl<D> Model for Change<D> {
    ghost use Rattle.warg_pages.specs.Private.Updates.{ChangeAt};

    ghost Value = { ChangeAt };

    ghost view = { λ c. record { key = c.key; leaf = c.leaf; version = c.version } };
}

impl<D> Drop for Change<D> {
    fn drop(self) {
        let Change {
            key: _,
            leaf: _,
            version: _,
        } = self;
    }
}

impl<D> Change<D> {
    fn copied(&self) -> Change<D>
        ensures { result ≡ self.now }
    {
        Change {
            key: self.key.copied(),
            leaf: self.leaf.copied(),
            version: self.version,
        }
    }
}

/// What insertions put there, behind so many others.
pub(crate) fn changes_of<D: SupportedDigest, K: VisitBytes, V: VisitBytes, A: Allocator>(
    alloc: A,
    count: u64,
    insertions: &[(K, V)],
) -> Result<Vec<Change<D>, A>, WayError>
    requires { count + length insertions.now < 2 ^ 64 }
    ensures ok { IfOk result (λ changes. changes.items
        ≡ changes_from D.digest count (pair_bytes K.bytes V.bytes insertions.now)) }
    ensures err { IfErr result (λ e. e ≡ WayError.Memory) }
{
    let mut changes = Vec::new(alloc);
    let mut version = count;
    for insertion in insertions {
        version += 1;
        changes.push(Change {
            key: Hash::of(&insertion.0),
            leaf: hash_leaf(&insertion.1),
            version,
        })?;
    }
    Ok(changes)
}

/// The changes split by the byte that their key digests have at a depth: 256 lists, each in the order of the changes.
pub(crate) fn changes_by_byte<D, A: Allocator + Copy>(
    alloc: A,
    changes: &[Change<D>],
    depth: usize,
) -> Result<Vec<Vec<Change<D>, A>, A>, WayError>
    requires { depth < 32 }
    ensures ok { IfOk result (λ lists. (vec_len lists ≡ 256) × ((byte : ℕ) → byte < 256
        → HoldsAt (λ list. list.items ≡ filter (goes_to depth byte) changes.now) lists.items byte)) }
    ensures err { IfErr result (λ e. e ≡ WayError.Memory) }
{
    let mut lists = empty_lists(alloc)?;
    for change in changes {
        let list = &mut lists[change.key.bytes()[depth] as usize];
        list.push(change.copied())?;
    }
    Ok(lists)
}

// 256 empty lists of changes.
fn empty_lists<D, A: Allocator + Copy>(alloc: A) -> Result<Vec<Vec<Change<D>, A>, A>, WayError>
    ensures ok { IfOk result (λ lists. (vec_len lists ≡ 256) × ((byte : ℕ) → byte < 256
        → HoldsAt (λ list. list.items ≡ []) lists.items byte)) }
    ensures err { IfErr result (λ e. e ≡ WayError.Memory) }
{
    let mut lists = Vec::with_capacity(alloc, 256)?;
    for _ in 0..256usize {
        lists.push(Vec::new(alloc))?;
    }
    Ok(lists)
}
