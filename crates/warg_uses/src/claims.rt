//! What a client's verdict is worth to an auditor who has the log's entries.

ghost use Rattle.std.specs.Prelude.{◌≡◌, ℕ, List, map, true, Ok, IfOk, Some, IfSome, IfNone, OnSome, slice_get};
ghost use Rattle.warg_crypto.specs.Collisions.{SomeCollision};
ghost use Rattle.warg_check.specs.Claims.Claim.{entry_at};
ghost use Rattle.warg_check.specs.Claims.Evidence.{by_bundle};
ghost use Rattle.warg_claims.specs.Worlds.{IsLogOf};
ghost use Rattle.warg_claims.specs.Placed.{IsPlaced};
ghost use Rattle.warg_claims.specs.Convictions.{IsShownOf};

use std::alloc::{AllocError, Global};
use warg_check::{CheckError, check_entry};
use warg_claims::convict_entry;
use warg_claims::laws::true_or_collision;
use warg_crypto::{SupportedDigest, VisitBytes};
use warg_log::Checkpoint;
use warg_witness::{Collision, Finding};

/// Whether a bundle's first inclusion proof shows that the log with this checkpoint has this release at an index. If so,
/// then in every list of entries that has the checkpoint's root and length the release stands there, or what the
/// evaluation of the proof and the tree over these entries hash at one range are two byte strings of one digest.
pub fn is_logged<D: SupportedDigest>(
    alloc: Global,
    bundle: &[u8],
    index: usize,
    release: &str,
    log: &Checkpoint<D>,
) -> Result<bool, CheckError>
    ensures { result ≡ Ok true → (entries : List (List ℕ)) → IsLogOf D.digest log.now entries
        → ¬ (slice_get entries index ≡ Some release.now) → SomeCollision D.digest
        (IsPlaced D.digest (entry_at index release.now log.now) (by_bundle bundle.now 0) entries) }
{
    true_or_collision();
    check_entry(alloc, bundle, 0, index, &release, log)
}

/// The two byte strings that convict of a lie whoever gave a bundle: where its first inclusion proof shows that the log with
/// this checkpoint has this release at an index, and the log's entries have another there. None where it shows nothing of
/// the kind, where the entries aren't that log's, and where it is true of them.
pub fn lie_of<D: SupportedDigest, V: VisitBytes>(
    alloc: Global,
    bundle: &[u8],
    index: usize,
    release: &V,
    log: &Checkpoint<D>,
    entries: &[V],
) -> Result<Option<Collision<D>>, AllocError>
    ensures shown { IfOk result (λ found. OnSome found (IsShownOf D.digest
        (entry_at index (V.bytes release.now) log.now) (by_bundle bundle.now 0)
        (map V.bytes entries.now))) }
    ensures untrue { IfOk result (λ found. OnSome found
        (¬ (slice_get (map V.bytes entries.now) index ≡ Some (V.bytes release.now)))) }
    ensures none { IfOk result (λ found. IfNone found (IsShownOf D.digest
        (entry_at index (V.bytes release.now) log.now) (by_bundle bundle.now 0)
        (map V.bytes entries.now)
        → slice_get (map V.bytes entries.now) index ≡ Some (V.bytes release.now))) }
    ensures placed { IfOk result (λ found. IfSome found (λ pair. IsPlaced D.digest
        (entry_at index (V.bytes release.now) log.now) (by_bundle bundle.now 0)
        (map V.bytes entries.now) pair.0 pair.1)) }
{
    match convict_entry(alloc, bundle, 0, index, release, log, entries)? {
        Finding::Collision(pair) => Ok(Some(pair)),
        Finding::Holds | Finding::NotMet => Ok(None),
    }
}
