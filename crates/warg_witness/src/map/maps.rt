//! Two maps of one root, and a key whose last value isn't one in both.

ghost use Rattle.std.specs.Prelude.{◌≡◌, All, Contains, IfOk, map, MatchOption, ⊤};
ghost use Rattle.warg_map.specs.Sparse.{sparse_root, map_of, pair_bytes};
ghost use Rattle.warg_witness.specs.Findings.{Finds};
ghost use Rattle.warg_witness.specs.MapsPlaced.{HaveOneValue, HaveSameValues, IsInserted, IsPlacedInMaps};

use crate::collision::{Collision, Finding};
use crate::map::find;
use crate::map::indexed::Indexed;
use crate::map::last::have_one_value;
use crate::map::plain::{last_of_digest, own_proof};
use std::alloc::{AllocError, Allocator};
use warg_crypto::{Hash, SupportedDigest, VisitBytes, have_same_bytes};

// The first of these keys whose last value isn't one in both maps.
fn first_apart<'a, D: SupportedDigest, K: VisitBytes, V: VisitBytes, A: Allocator + Copy>(
    of: &'a [(K, V)],
    first: &Indexed<'_, D, K, V, A>,
    second: &Indexed<'_, D, K, V, A>,
) -> Result<Option<&'a K>, AllocError>
    ensures { IfOk result (λ apart. MatchOption apart
        (All (λ e. HaveOneValue first.now second.now e.0) (pair_bytes K.bytes V.bytes of.now))
        (λ key. Contains (map (λ e. e.0) (pair_bytes K.bytes V.bytes of.now)) (K.bytes key.now)
        × ¬ (HaveOneValue first.now second.now (K.bytes key.now)))) }
{
    for (key, _) in of {
        if !have_one_value(key, first, second)? {
            return Ok(Some(key));
        }
    }
    Ok(None)
}

/// An inserted key whose last value isn't one in both maps. It hashes each inserted key three times and looks it up by
/// its digest, which takes less than growing both maps, and memory for the digests.
pub(crate) fn key_apart<'a, D: SupportedDigest, K: VisitBytes, V: VisitBytes, A: Allocator + Copy>(
    alloc: A,
    first: &'a [(K, V)],
    second: &'a [(K, V)],
) -> Result<Option<&'a K>, AllocError>
    ensures { IfOk result (λ apart. MatchOption apart
        (HaveSameValues (pair_bytes K.bytes V.bytes first.now)
        (pair_bytes K.bytes V.bytes second.now))
        (λ key. IsInserted (pair_bytes K.bytes V.bytes first.now)
        (pair_bytes K.bytes V.bytes second.now) (K.bytes key.now)
        × ¬ (HaveOneValue (pair_bytes K.bytes V.bytes first.now)
        (pair_bytes K.bytes V.bytes second.now) (K.bytes key.now)))) }
{
    let by_first: Indexed<'_, D, K, V, A> = Indexed::new(alloc, first)?;
    let by_second = Indexed::new(alloc, second)?;
    match first_apart(first, &by_first, &by_second)? {
        Some(key) => Ok(Some(key)),
        None => first_apart(second, &by_first, &by_second),
    }
}

/// What two maps of one root show at an inserted key whose last value isn't one in both: a collision. It makes the map of
/// the first insertions and its proof of the key, and looks at the second ones with it.
pub(crate) fn find_apart<D: SupportedDigest, K: VisitBytes, V: VisitBytes, A: Allocator + Copy>(
    alloc: A,
    key: &K,
    first: &[(K, V)],
    second: &[(K, V)],
) -> Result<Finding<D, A>, AllocError>
    requires root { sparse_root D.digest 256 (map_of D.digest (pair_bytes K.bytes V.bytes first.now))
        ≡ sparse_root D.digest 256 (map_of D.digest (pair_bytes K.bytes V.bytes second.now)) }
    requires inserted { IsInserted (pair_bytes K.bytes V.bytes first.now)
        (pair_bytes K.bytes V.bytes second.now) (K.bytes key.now) }
    requires apart { ¬ (HaveOneValue (pair_bytes K.bytes V.bytes first.now)
        (pair_bytes K.bytes V.bytes second.now) (K.bytes key.now)) }
    ensures { IfOk result (Finds ⊤ ⊥ (IsPlacedInMaps D.digest (pair_bytes K.bytes V.bytes first.now)
        (pair_bytes K.bytes V.bytes second.now))) }
{
    let Some((other, value)) = last_of_digest(&Hash::<D>::of(key), first) else {
        let own = own_proof::<D, K, V, A>(alloc, key, first)?;
        return find(alloc, own.peers(), key, &(), second);
    };
    if !have_same_bytes(key, other)? {
        return Ok(Finding::Collision(Collision::of(alloc, key, other)?));
    }
    let own = own_proof::<D, K, V, A>(alloc, key, first)?;
    find(alloc, own.peers(), key, value, second)
}
