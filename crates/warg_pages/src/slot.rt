//! The slots of a page.

ghost use Rattle.std.specs.Prelude.{◌≡◌};

use std::marker::Model;
use warg_crypto::Hash;

/// A key that stands alone below a slot: its digest, and its leaf digest.
pub struct LoneKey<D> {
    /// The digest of the key.
    pub key: Hash<D>,
    /// The leaf digest of the value under the key.
    pub leaf: Hash<D>,
}

// Contracts see the pair of both.
impl<D> Model for LoneKey<D> {
    ghost use Rattle.std.specs.Prelude.{ℕ, List};

    ghost Value = { List ℕ × List ℕ };

    ghost view = { λ l. (l.key, l.leaf) };
}

impl<D> Drop for LoneKey<D> {
    fn drop(self) {
        let LoneKey { key: _, leaf: _ } = self;
    }
}

impl<D> LoneKey<D> {
    pub(crate) fn copied(&self) -> LoneKey<D>
        ensures { result ≡ self.now }
    {
        LoneKey {
            key: self.key.copied(),
            leaf: self.leaf.copied(),
        }
    }
}

/// A slot of a page: a byte behind the page's prefix, with the version and the digest of what stands below both, and the
/// lone key there, if one key digest alone begins so.
pub struct Slot<D> {
    /// The byte behind the page's prefix.
    pub byte: u8,
    /// 1 and the index of the last insertion below.
    pub version: u64,
    /// The digest of the sparse tree below.
    pub digest: Hash<D>,
    /// The lone key below. Where there is none, a page stands there.
    pub lone: Option<LoneKey<D>>,
}

// Contracts see the slot of the definitions.
impl<D> Model for Slot<D> {
    ghost use Rattle.warg_pages.specs.Slots.{SlotAt};

    ghost Value = { SlotAt };

    ghost view = { λ s. record {
      byte = s.byte;
      version = s.version;
      digest = s.digest;
      lone = s.lone;
    } };
}

impl<D> Drop for Slot<D> {
    fn drop(self) {
        let Slot {
            byte: _,
            version: _,
            digest: _,
            lone: _,
        } = self;
    }
}

impl<D> Slot<D> {
    pub(crate) fn copied(&self) -> Slot<D>
        ensures { result ≡ self.now }
    {
        let lone = match &self.lone {
            Some(lone) => Some(lone.copied()),
            None => None,
        };
        Slot {
            byte: self.byte,
            version: self.version,
            digest: self.digest.copied(),
            lone,
        }
    }
}
