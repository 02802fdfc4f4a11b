//! An auditor who holds a log's entries, and looks at a proof that leads to its root.

ghost use Rattle.std.specs.Prelude.{◌≡◌, ◌≢◌, Ok, None, map, IfOk, IfSome};
ghost use Rattle.warg_crypto.specs.Tree.{leaf_digest};
ghost use Rattle.warg_witness.specs.Claims.{IsMet, IsEntry};

use std::alloc::{AllocError, Global};
use warg_crypto::{SupportedDigest, VisitBytes};
use warg_log::{InclusionProof, LogData};
use warg_witness::{Collision, Finding, witness_value};

/// The collision that a proof shows: none where it doesn't lead to the root of the entries, or where the value is the
/// entry at its node.
pub fn audit<D: SupportedDigest, V: VisitBytes, L: LogData<D, V>>(
    alloc: Global,
    proof: &InclusionProof<D, V>,
    hashes: &L,
    value: &V,
    entries: &[V],
) -> Result<Option<Collision<D>>, AllocError>
    ensures differ { IfOk result (λ o. IfSome o (λ c. c.0 ≡ c.1 → ⊥)) }
    ensures same { IfOk result (λ o. IfSome o (λ c. D.digest c.0 ≡ D.digest c.1)) }

    // A proof that leads to the entries' root, and lies, gives a collision.
    ensures lies { IsMet D.digest (L.digest_at hashes.now) proof.now
        (leaf_digest D.digest (V.bytes value.now)) (map V.bytes entries.now)
        → (IsEntry (V.bytes value.now) proof.now.leaf.0 (map V.bytes entries.now) → ⊥)
        → result ≢ Ok None }
{
    match witness_value(alloc, proof, hashes, value, entries)? {
        Finding::Holds | Finding::NotMet => Ok(None),
        Finding::Collision(pair) => {
            let _bytes = pair.first();
            Ok(Some(pair))
        }
    }
}
