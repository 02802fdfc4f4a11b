//! Lone keys.

ghost use Rattle.std.specs.Prelude.{◌≡◌, ◌≤◌, List, ℕ};
ghost use Rattle.warg_crypto.specs.Tree.{leaf_digest};
ghost use Rattle.warg_map.specs.Sparse.{sparse_root};
ghost use Rattle.warg_map.specs.Private.Lone.{held_alone, IsKept};

use crate::node::stem_digest;
use std::marker::Model;
use warg_crypto::{Hash, SupportedDigest, VisitBytes, hash_leaf};

/// The digest of a lone key's tree of some height.
#[derive(Drop)]
struct Kept<D> {
    digest: Hash<D>,
    height: u16,
}

/// A lone key: a tree of any height that holds one key and nothing else.
///
/// It keeps the digests of two lower trees of its own, near its top and further below. A split lowers a lone key by one
/// level in half of all cases, by two in a quarter and so on, and goes on from the highest digest that it leaves.
pub struct Singleton<D: SupportedDigest> {
    key: Hash<D>,
    value: Hash<D>,
    height: u16,
    twelve_below: Kept<D>,
    four_below: Kept<D>,
}

// Contracts see a lone key as its digest, its leaf digest and its height.
impl<D: SupportedDigest> Model for Singleton<D> {
    ghost use Rattle.std.specs.Prelude.{◌≡◌, ℕ, ◌≤◌};
    ghost use Rattle.warg_map.specs.Private.Lone.{Lone};

    ghost Value = { Lone };

    ghost view = { λ s. record { key = s.key; value = s.value; height = s.height } };

    ghost use Rattle.warg_map.specs.Private.Lone.{IsKept};

    ghost invariant = { λ s. (s.height ≤ 256)
        × (s.twelve_below.height ≤ s.height) × IsKept D.digest s.key s.value s.twelve_below
        × (s.four_below.height ≤ s.height) × IsKept D.digest s.key s.value s.four_below };
}

impl<D: SupportedDigest> Drop for Singleton<D> {
    fn drop(self) {
        let Singleton {
            key: _,
            value: _,
            height: _,
            twelve_below: _,
            four_below: _,
        } = self;
    }
}

impl<D: SupportedDigest> Kept<D> {
    // The digest of the tree of no levels.
    fn leaf(value: &Hash<D>) -> Kept<D>
        ensures { result ≡ record { digest = value.now; height = 0 } }
    {
        Kept {
            digest: value.copied(),
            height: 0,
        }
    }

    // This digest, unless its tree is higher than `top`, or lower than that of `lower`. From there on it goes up to the
    // tree that is so many levels below the top.
    fn for_top(&self, lower: &Kept<D>, key: &Hash<D>, top: usize, below: usize) -> Kept<D>
        requires top { top ≤ 256 }
        requires lower { lower.now.height ≤ top }
        ensures height { result.height ≤ top }
        ensures digest { (value : List ℕ) → IsKept D.digest key.now value self.now
            → IsKept D.digest key.now value lower.now → IsKept D.digest key.now value result }
    {
        let mut known = lower;
        if self.height as usize <= top && lower.height <= self.height {
            known = self;
        }
        let from = known.height as usize;
        let height = from.max(top.saturating_sub(below));
        Kept {
            digest: stem_digest(key, 256 - height, height - from, &known.digest),
            height: height as u16,
        }
    }
}

impl<D: SupportedDigest> Singleton<D> {
    /// A key digest with its leaf digest, alone in the whole tree. Nothing is hashed.
    pub(crate) fn leaf(key: Hash<D>, value: Hash<D>) -> Singleton<D>
        ensures key { result.key ≡ key }
        ensures value { result.value ≡ value }
        ensures height { result.height ≡ 256 }
    {
        let twelve_below = Kept::leaf(&value);
        let four_below = Kept::leaf(&value);
        Singleton {
            key,
            value,
            height: 256,
            twelve_below,
            four_below,
        }
    }

    /// A key with its value, alone in the whole tree.
    pub(crate) fn of<K: VisitBytes, V: VisitBytes>(key: &K, value: &V) -> Singleton<D>
        ensures key { result.key ≡ D.digest (K.bytes key.now) }
        ensures value { result.value ≡ leaf_digest D.digest (V.bytes value.now) }
    {
        Singleton::leaf(Hash::of(key), hash_leaf(value))
    }

    /// The key digest.
    pub(crate) fn key(&self) -> &Hash<D>
        ensures { result.now ≡ self.now.key }
    {
        &self.key
    }

    /// The leaf digest.
    pub(crate) fn value(&self) -> &Hash<D>
        ensures { result.now ≡ self.now.value }
    {
        &self.value
    }

    /// The number of levels.
    pub(crate) fn height(&self) -> usize
        ensures value { result ≡ self.now.height }
        ensures bound { result ≤ 256 }
    {
        self.height as usize
    }

    /// The same key in a tree of some height. Nothing is hashed where that is its own.
    pub(crate) fn with_height(&self, height: usize) -> Singleton<D>
        requires { height ≤ 256 }
        ensures key { result.key ≡ self.now.key }
        ensures value { result.value ≡ self.now.value }
        ensures height { result.height ≡ height }
    {
        let key = &self.key;
        let leaf = Kept::leaf(&self.value);
        let twelve_below = self.twelve_below.for_top(&leaf, key, height, 12);
        let four_below = self.four_below.for_top(&twelve_below, key, height, 4);
        Singleton {
            key: key.copied(),
            value: self.value.copied(),
            height: height as u16,
            twelve_below,
            four_below,
        }
    }

    /// The digest of the tree.
    pub fn hash(&self) -> Hash<D>
        ensures { result ≡ sparse_root D.digest self.now.height (held_alone self.now) }
    {
        let height = self.height as usize;
        let len = height - self.four_below.height as usize;
        stem_digest(&self.key, 256 - height, len, &self.four_below.digest)
    }
}
