//! The last value of a key, by the key's bytes.

ghost use Rattle.std.specs.Prelude.{◌≡◌, ◌↔◌, [], IfOk, IsTrue};
ghost use Rattle.std.specs.Option.{option_map_or};
ghost use Rattle.warg_map.specs.Sparse.{pair_bytes};
ghost use Rattle.warg_witness.specs.MapClaims.{IsLastValue, last_insertion, value_in};
ghost use Rattle.warg_witness.specs.MapsPlaced.{HaveOneValue};

use crate::map::indexed::Indexed;
use std::alloc::{AllocError, Allocator};
use warg_crypto::{SupportedDigest, VisitBytes, have_same_bytes};

/// A key's last value, or None where it is inserted nowhere. It compares the key with all from the last one on, up to
/// that one. It does not allocate, and refuses only keys of more bytes than can be counted.
pub(crate) fn last_value<'a, K: VisitBytes, V: VisitBytes>(
    key: &K,
    insertions: &'a [(K, V)],
) -> Result<Option<&'a V>, AllocError>
    ensures { IfOk result (λ last. value_in (last_insertion (K.bytes key.now)
        (pair_bytes K.bytes V.bytes insertions.now)) ≡ option_map_or (λ v. V.bytes v.now) last []) }
{
    for place in (0..insertions.len()).rev() {
        let (inserted, last) = &insertions[place];
        if have_same_bytes(key, inserted)? {
            return Ok(Some(last));
        }
    }
    Ok(None)
}

/// Whether a last value has these bytes. A key that is inserted nowhere has none. It does not allocate, and refuses
/// only values of more bytes than can be counted.
fn has_bytes<V: VisitBytes, W: VisitBytes>(last: Option<&V>, value: &W) -> Result<bool, AllocError>
    ensures { IfOk result (λ is. IsTrue is
        ↔ (option_map_or (λ v. V.bytes v.now) last.entry [] ≡ W.bytes value.now)) }
{
    match last {
        Some(last) => have_same_bytes(last, value),
        None => have_same_bytes(&(), value),
    }
}

/// Whether a key's last value has these bytes. It does not allocate, and refuses only keys and values of more bytes
/// than can be counted.
pub(crate) fn is_last_value<K: VisitBytes, V: VisitBytes, W: VisitBytes>(
    key: &K,
    value: &W,
    insertions: &[(K, V)],
) -> Result<bool, AllocError>
    ensures { IfOk result (λ is. IsTrue is ↔ IsLastValue (K.bytes key.now) (W.bytes value.now)
        (pair_bytes K.bytes V.bytes insertions.now)) }
{
    has_bytes(last_value(key, insertions)?, value)
}

/// Whether a key's last value has the same bytes in both. It refuses what [`is_last_value`] does.
pub(crate) fn have_one_value<D: SupportedDigest, K: VisitBytes, V: VisitBytes, A: Allocator + Copy>(
    key: &K,
    first: &Indexed<'_, D, K, V, A>,
    second: &Indexed<'_, D, K, V, A>,
) -> Result<bool, AllocError>
    ensures { IfOk result (λ is. IsTrue is ↔ HaveOneValue first.now second.now (K.bytes key.now)) }
{
    let last = first.last_value(key)?;
    match second.last_value(key)? {
        Some(value) => has_bytes(last, value),
        None => has_bytes(last, &()),
    }
}
