//! Convictions: from evidence whose verdict is true although its claim is false, two byte strings of one digest, which prove
//! that whoever gave it lied.

ghost use Rattle.std.specs.Prelude.{◌≡◌, ◌↔◌, Bool, true, Ok, Result, IsTrue, IfOk, map};
ghost use Rattle.warg_protobuf.specs.Reading.{Answers};
ghost use Rattle.warg_log.specs.Tree.{leaves_of, root_of};
ghost use Rattle.warg_map.specs.Sparse.{pair_bytes};
ghost use Rattle.warg_check.specs.declared.verdict.CheckError.{CheckError};
ghost use Rattle.warg_check.specs.Claims.Claim.{entry_at, growth, value_under, nothing_under};
ghost use Rattle.warg_check.specs.Claims.Evidence.{by_bundle, by_path};
ghost use Rattle.warg_claims.specs.Convictions.{Convicts};

mod update;

use std::alloc::{AllocError, Allocator};
pub use update::{convict_insertion, convict_update};
use warg_bundle::{LogProofBundle, MapProofBundle};
use warg_check::{
    CheckError, check_absent, check_entry, check_entry_path, check_growth, check_growth_path,
    check_key,
};
use warg_crypto::{Hash, SupportedDigest, VisitBytes};
use warg_log::{Checkpoint, GREATEST_LENGTH, LogBuilder, VecLog};
use warg_paths::hashes_in;
use warg_witness::{
    Finding, witness_absent, witness_consistency, witness_key, witness_record, witness_tree,
    witness_value,
};

/// Whether a verdict is true. It fails only where memory was refused.
pub(crate) fn is_true(verdict: Result<bool, CheckError>) -> Result<bool, AllocError>
    ensures { IfOk result (λ is. (of : Result Bool CheckError) → Answers CheckError.Memory verdict of
        → IsTrue is ↔ (of ≡ Ok true)) }
{
    match verdict {
        Ok(holds) => Ok(holds),
        Err(CheckError::Memory) => Err(AllocError),
        Err(_) => Ok(false),
    }
}

/// Whether the claim that entry `index`, from 0, of the log with this checkpoint has the value's bytes, which the inclusion
/// proof at a place of a bundle shows ([`check_entry`]), is true of the log's entries.
///
/// `NotMet` exactly if the verdict isn't true, or the entries haven't the checkpoint's root and length. `Holds` exactly if
/// it is, they have, and entry `index` has the value's bytes. Else a collision: what the digest function takes in the
/// evaluation of the proof (first) and in the tree over the entries (second) at one range around the leaf.
///
/// It reads the bundle twice, and then does what [`witness_value`] does. It fails only if allocation fails.
///
/// ```rust
/// match convict_entry(alloc, bytes, 0, 0, &"left-pad 6.6.6", &checkpoint, &["left-pad 1.0.0"])? {
///     Finding::Collision(pair) => report(pair.first(), pair.second()),
///     Finding::Holds | Finding::NotMet => (),
/// }
/// ```
pub fn convict_entry<D: SupportedDigest, V: VisitBytes, A: Allocator + Copy>(
    alloc: A,
    bytes: &[u8],
    at: usize,
    index: usize,
    value: &V,
    log: &Checkpoint<D>,
    entries: &[V],
) -> Result<Finding<D, A>, AllocError>
    ensures { IfOk result (Convicts D.digest (entry_at index (V.bytes value.now) log.now)
        (by_bundle bytes.now at) (map V.bytes entries.now)) }
{
    if !is_true(check_entry(alloc, bytes, at, index, value, log))? {
        return Ok(Finding::NotMet);
    }
    let Ok(bundle) = LogProofBundle::<D, V, A>::decode(alloc, bytes) else {
        return Err(AllocError);
    };
    match bundle.inclusion_proof(at) {
        Some(proof) => witness_value(alloc, &proof, bundle.hashes(), value, entries),
        None => Ok(Finding::NotMet),
    }
}

/// The same of the inclusion path in these bytes ([`check_entry_path`]).
///
/// `NotMet` exactly if the verdict isn't true, or the entries haven't the checkpoint's root and length. `Holds` exactly if
/// it is, they have, and entry `index` has the value's bytes. Else a collision: what the digest function takes in the
/// evaluation of the path (first) and in the tree over the entries (second) at one range on the way to the leaf.
///
/// It reads the path twice, and then does what [`witness_record`] does. It fails only if allocation fails.
pub fn convict_entry_path<D: SupportedDigest, V: VisitBytes, A: Allocator + Copy>(
    alloc: A,
    bytes: &[u8],
    index: usize,
    value: &V,
    log: &Checkpoint<D>,
    entries: &[V],
) -> Result<Finding<D, A>, AllocError>
    ensures { IfOk result (Convicts D.digest (entry_at index (V.bytes value.now) log.now)
        (by_path bytes.now) (map V.bytes entries.now)) }
{
    if !is_true(check_entry_path(alloc, bytes, index, value, log))? {
        return Ok(Finding::NotMet);
    }
    if entries.len() != log.length() {
        return Ok(Finding::NotMet);
    }
    let Ok(path) = hashes_in::<D, A>(alloc, bytes) else {
        return Err(AllocError);
    };
    witness_record(alloc, index, path.as_slice(), value, entries)
}

/// Whether the claim that the log with the old checkpoint is a beginning of the log with the new one, which the consistency
/// proof at a place of a bundle shows ([`check_growth`]), is true of both logs' entries.
///
/// `NotMet` exactly if the verdict isn't true, or the entries haven't the checkpoints' roots and lengths. `Holds` exactly
/// if it is, they have, and the new entries begin with the old ones. Else a collision, at one of the places of
/// [`witness_consistency`].
///
/// It reads the bundle twice, and then does what [`witness_consistency`] does. It fails only if allocation fails.
pub fn convict_growth<D: SupportedDigest, V: VisitBytes, A: Allocator + Copy>(
    alloc: A,
    bytes: &[u8],
    at: usize,
    old: &Checkpoint<D>,
    new: &Checkpoint<D>,
    old_entries: &[V],
    new_entries: &[V],
) -> Result<Finding<D, A>, AllocError>
    ensures { IfOk result (Convicts D.digest (growth old.now new.now) (by_bundle bytes.now at)
        (map V.bytes old_entries.now, map V.bytes new_entries.now)) }
{
    if !is_true(check_growth(alloc, bytes, at, old, new))? {
        return Ok(Finding::NotMet);
    }
    let Ok(bundle) = LogProofBundle::<D, V, A>::decode(alloc, bytes) else {
        return Err(AllocError);
    };
    match bundle.consistency_proof(at) {
        Some(proof) => witness_consistency(
            alloc,
            &proof,
            bundle.hashes(),
            old_entries,
            new_entries,
        ),
        None => Ok(Finding::NotMet),
    }
}

// Whether the log of the entries has the root. More than 2^63 entries count as memory that was refused.
fn have_root<D: SupportedDigest, V: VisitBytes, A: Allocator>(
    alloc: A,
    root: &Hash<D>,
    entries: &[V],
) -> Result<bool, AllocError>
    ensures { IfOk result (λ is. IsTrue is ↔ (root.now
        ≡ root_of D.digest (leaves_of D.digest (map V.bytes entries.now)))) }
{
    if entries.len() > GREATEST_LENGTH {
        return Err(AllocError);
    }
    let mut log: VecLog<D, V, A> = VecLog::default(alloc);
    'entries: for entry in entries {
        log.push(entry)?;
    }
    Ok(*root == log.root())
}

/// The same of the consistency path in these bytes ([`check_growth_path`]).
///
/// `NotMet` exactly if the verdict isn't true, or the entries haven't the checkpoints' roots and lengths. `Holds` exactly
/// if it is, they have, and the new entries begin with the old ones. Else a collision, at one of the places of
/// [`witness_tree`].
///
/// It reads the path twice, makes the tree over the old entries once more, as a path need not lead to the old root, and then
/// does what [`witness_tree`] does. It fails only if allocation fails. More than 2^63 entries count as that.
pub fn convict_growth_path<D: SupportedDigest, V: VisitBytes, A: Allocator + Copy>(
    alloc: A,
    bytes: &[u8],
    old: &Checkpoint<D>,
    new: &Checkpoint<D>,
    old_entries: &[V],
    new_entries: &[V],
) -> Result<Finding<D, A>, AllocError>
    ensures { IfOk result (Convicts D.digest (growth old.now new.now) (by_path bytes.now)
        (map V.bytes old_entries.now, map V.bytes new_entries.now)) }
{
    if !is_true(check_growth_path(alloc, bytes, old, new))? {
        return Ok(Finding::NotMet);
    }
    if old_entries.len() != old.length() {
        return Ok(Finding::NotMet);
    }
    if new_entries.len() != new.length() {
        return Ok(Finding::NotMet);
    }
    if !have_root(alloc, &old.root(), old_entries)? {
        return Ok(Finding::NotMet);
    }
    let Ok(path) = hashes_in::<D, A>(alloc, bytes) else {
        return Err(AllocError);
    };
    witness_tree(alloc, path.as_slice(), old_entries, new_entries)
}

/// Whether the claim that the map with this root holds the value under the key, which the proof at a place of a bundle shows
/// ([`check_key`]), is true of the map's insertions: the value inserted last under the key's bytes has the value's bytes. A
/// key that is inserted nowhere counts as one with no bytes.
///
/// `NotMet` exactly if the verdict isn't true, or the map of the insertions has another root. `Holds` exactly if it is, the
/// map has this root, and the claim is true. Else a collision: what the digest function takes in the evaluation of the
/// proof (first) and in the tree over the insertions (second) at one prefix of the key's bits; or the key's bytes (first)
/// and those of an inserted key with the same digest (second).
///
/// It reads the bundle twice, and then does what [`witness_key`] does. It fails only if allocation fails.
pub fn convict_key<D: SupportedDigest, K: VisitBytes, V: VisitBytes, A: Allocator + Copy>(
    alloc: A,
    bytes: &[u8],
    at: usize,
    key: &K,
    value: &V,
    root: &Hash<D>,
    insertions: &[(K, V)],
) -> Result<Finding<D, A>, AllocError>
    ensures { IfOk result (Convicts D.digest
        (value_under (K.bytes key.now) (V.bytes value.now) root.now) (by_bundle bytes.now at)
        (pair_bytes K.bytes V.bytes insertions.now)) }
{
    if !is_true(check_key(alloc, bytes, at, key, value, root))? {
        return Ok(Finding::NotMet);
    }
    let Ok(bundle) = MapProofBundle::<D, K, V, A>::decode(alloc, bytes) else {
        return Err(AllocError);
    };
    let proofs = bundle.unbundle();
    match proofs.as_slice().get(at) {
        Some(proof) => witness_key(alloc, proof, key, value, insertions),
        None => Ok(Finding::NotMet),
    }
}

/// Whether the claim that the map with this root holds nothing under the key, or a value without bytes, which the absence at
/// a place of a bundle shows ([`check_absent`]), is true of the map's insertions.
///
/// What it returns is what [`convict_key`] does for a value without bytes, at the same cost.
pub fn convict_absent<D: SupportedDigest, K: VisitBytes, V: VisitBytes, A: Allocator + Copy>(
    alloc: A,
    bytes: &[u8],
    at: usize,
    key: &K,
    root: &Hash<D>,
    insertions: &[(K, V)],
) -> Result<Finding<D, A>, AllocError>
    ensures { IfOk result (Convicts D.digest (nothing_under (K.bytes key.now) root.now)
        (by_bundle bytes.now at) (pair_bytes K.bytes V.bytes insertions.now)) }
{
    if !is_true(check_absent(alloc, bytes, at, key, root))? {
        return Ok(Finding::NotMet);
    }
    let Ok(bundle) = MapProofBundle::<D, K, V, A>::decode(alloc, bytes) else {
        return Err(AllocError);
    };
    let (_proofs, absences) = bundle.unbundle_all();
    match absences.as_slice().get(at) {
        Some(absence) => witness_absent(alloc, absence, key, insertions),
        None => Ok(Finding::NotMet),
    }
}
