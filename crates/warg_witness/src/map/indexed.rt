//! Insertions in which a key's last value is found without comparing the key with all others.

ghost use Rattle.std.specs.Prelude.{◌≡◌, [], IfOk};
ghost use Rattle.std.specs.Option.{option_map_or};
ghost use Rattle.warg_map.specs.Sparse.{pair_bytes};
ghost use Rattle.warg_witness.specs.MapClaims.{last_insertion, value_in};

use crate::map::last::last_value;
use std::alloc::{AllocError, Allocator};
use std::collections::BTreeMap;
use std::marker::Model;
use warg_crypto::{Hash, SupportedDigest, VisitBytes, have_same_bytes};

/// Insertions, with the last one under each key digest.
pub(crate) struct Indexed<'a, D: SupportedDigest, K: VisitBytes, V: VisitBytes, A: Allocator> {
    insertions: &'a [(K, V)],
    last: BTreeMap<Hash<D>, &'a (K, V), A>,
}

// Contracts see the bytes of the insertions.
impl<'a, D: SupportedDigest, K: VisitBytes, V: VisitBytes, A: Allocator> Model
    for Indexed<'a, D, K, V, A> {
    ghost use Rattle.std.specs.Prelude.{◌≡◌, ℕ, List};
    ghost use Rattle.std.specs.Map.{lookup};
    ghost use Rattle.warg_crypto.specs.Bytes.{same_bytes};
    ghost use Rattle.warg_map.specs.Bits.{key_bits};
    ghost use Rattle.warg_map.specs.Last.{last_under};
    ghost use Rattle.warg_map.specs.Sparse.{pair_bytes};
    ghost use Rattle.warg_witness.specs.Private.MapMeeting.{lent_pair};
    ghost use Rattle.warg_witness.specs.MapsPlaced.{Insertions};

    ghost Value = { Insertions };

    ghost view = { λ s. pair_bytes K.bytes V.bytes s.insertions.now };

    ghost invariant = { λ s. (key : List ℕ)
        → last_under D.digest (key_bits D.digest key) (pair_bytes K.bytes V.bytes s.insertions.now)
        ≡ lent_pair K.bytes V.bytes (lookup (same_bytes (D.digest key)) s.last.entries) };
}

impl<'a, D: SupportedDigest, K: VisitBytes, V: VisitBytes, A: Allocator> Drop
    for Indexed<'a, D, K, V, A> {
    fn drop(self) {
        let Indexed {
            insertions: _,
            last: _,
        } = self;
    }
}

impl<'a, D: SupportedDigest, K: VisitBytes, V: VisitBytes, A: Allocator + Copy> Indexed<
    'a,
    D,
    K,
    V,
    A,
> {
    /// It hashes each key once.
    pub(crate) fn new(
        alloc: A,
        insertions: &'a [(K, V)],
    ) -> Result<Indexed<'a, D, K, V, A>, AllocError>
        ensures { IfOk result (λ indexed. indexed ≡ pair_bytes K.bytes V.bytes insertions.now) }
    {
        let mut last = BTreeMap::new(alloc);
        for insertion in insertions {
            last.insert(Hash::of(&insertion.0), insertion)?;
        }
        Ok(Indexed { insertions, last })
    }

    /// A key's last value, or None where it is inserted nowhere. It compares the key with the last one of its digest,
    /// and with all only where that is another key. It does not allocate, and refuses only keys of more bytes than can
    /// be counted.
    pub(crate) fn last_value(&self, key: &K) -> Result<Option<&'a V>, AllocError>
        ensures { IfOk result (λ last. value_in (last_insertion (K.bytes key.now) self.now)
            ≡ option_map_or (λ v. V.bytes v.now) last []) }
    {
        let Some((inserted, last)) = self.last.get(&Hash::of(key)).copied() else {
            return Ok(None);
        };
        if have_same_bytes(key, inserted)? {
            return Ok(Some(last));
        }
        last_value(key, self.insertions)
    }
}
