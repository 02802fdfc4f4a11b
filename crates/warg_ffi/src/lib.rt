//! Verdicts on the proofs in a bundle's bytes, for C and whatever calls C: `warg_check` under SHA-256 as a
//! static library.
//!
//! Each call stands alone. It keeps no state and no pointer, gives back what memory it takes, and returns
//! a number: 1 for true, 0 for false, and a negative number for each reason why there is no verdict. The
//! header `ffi/warg.h` names the numbers that a call returns, and says what a caller of C has to keep.
#![tactic(auto)]

ghost use Rattle.std.specs.Prelude.{◌≡◌, ◌+◌, ◌*◌, ◌^◌, [], ◌∷◌, None, Err};
ghost use Rattle.warg_protobuf.specs.declared.value_error.DecodeError.TheVariants as decoding;
ghost use Rattle.warg_check.specs.declared.verdict.CheckError.TheVariants as CheckError;
ghost use Rattle.warg_crypto.specs.Digests.{sha256};
ghost use Rattle.warg_paths.specs.Pieces.{hashes_of};
ghost use Rattle.warg_check.specs.Verdicts.{inclusion_verdict, consistency_verdict};
ghost use Rattle.warg_check.specs.Claims.{verdict};
ghost use Rattle.warg_check.specs.Claims.Claim.{entry_at, growth, value_under, nothing_under, update, insertion};
ghost use Rattle.warg_check.specs.Claims.Evidence.{by_bundle, by_path};
ghost use Rattle.warg_ffi.specs.Numbers.{Returns, number_under};

mod number;

use number::{ROOT_LENGTH, number};
use std::alloc::Global;
use warg_check::{
    check_absent, check_consistency, check_entry, check_entry_path, check_growth,
    check_growth_path, check_inclusion, check_insertion, check_key, check_update,
};
use warg_crypto::{Hash, Sha256};
use warg_log::Checkpoint;

/// The version of the library, a byte for each number: 0.9.2, the version of the Rust crate whose calls these
/// are, and 1, the number of this project's release.
#[unsafe(no_mangle)]
pub extern "C" fn warg_version() -> u32
    ensures { result ≡ 9 * 2 ^ 16 + 2 * 2 ^ 8 + 1 }
{
    0x0009_0201
}

/// Whether the inclusion proof at a place of a log bundle, counted from 0, shows that entry `index`, from
/// 0, of the log of this length and root has the value's bytes: the number of the verdict of
/// `warg_check::check_entry`.
#[unsafe(no_mangle)]
pub extern "C" fn warg_check_entry(
    alloc: Global,
    bundle: &[u8],
    at: usize,
    index: usize,
    value: &[u8],
    length: usize,
    root: &[u8],
) -> i32
    ensures { Returns (root.now ∷ [])
        (verdict sha256 (entry_at index value.now (record { root = root.now; length = length }))
        (by_bundle bundle.now at)) result }
{
    match Hash::<Sha256>::try_from(root) {
        Ok(root) => {
            let checkpoint = Checkpoint::new(root, length);
            number(check_entry(alloc, bundle, at, index, &value, &checkpoint))
        }
        Err(_) => ROOT_LENGTH,
    }
}

/// Whether the consistency proof at a place of a log bundle, counted from 0, shows that the log of the old
/// length and root is a beginning of the log of the new ones: the number of the verdict of
/// `warg_check::check_growth`. From an empty log it is false: no proof is made of it.
#[unsafe(no_mangle)]
pub extern "C" fn warg_check_growth(
    alloc: Global,
    bundle: &[u8],
    at: usize,
    old_length: usize,
    old_root: &[u8],
    new_length: usize,
    new_root: &[u8],
) -> i32
    ensures { Returns (old_root.now ∷ new_root.now ∷ [])
        (verdict sha256 (growth (record { root = old_root.now; length = old_length })
        (record { root = new_root.now; length = new_length })) (by_bundle bundle.now at)) result }
{
    match (
        Hash::<Sha256>::try_from(old_root),
        Hash::<Sha256>::try_from(new_root),
    ) {
        (Ok(old_root), Ok(new_root)) => {
            let old = Checkpoint::new(old_root, old_length);
            let new = Checkpoint::new(new_root, new_length);
            number(check_growth(alloc, bundle, at, &old, &new))
        }
        _ => ROOT_LENGTH,
    }
}

/// Whether the inclusion proof at a place of a log bundle, counted from 0, evaluates to the root with the
/// value: the number of the verdict of `warg_check::check_inclusion`. It binds neither the log's length nor
/// the entry's place: whoever holds a checkpoint calls [`warg_check_entry`].
#[unsafe(no_mangle)]
pub extern "C" fn warg_check_inclusion(
    alloc: Global,
    bundle: &[u8],
    at: usize,
    value: &[u8],
    root: &[u8],
) -> i32
    ensures { Returns (root.now ∷ [])
        (inclusion_verdict sha256 bundle.now at value.now root.now) result }
{
    match Hash::<Sha256>::try_from(root) {
        Ok(root) => number(check_inclusion(alloc, bundle, at, &value, &root)),
        Err(_) => ROOT_LENGTH,
    }
}

/// Whether the consistency proof at a place of a log bundle, counted from 0, evaluates to the two roots:
/// the number of the verdict of `warg_check::check_consistency`. It binds no length: whoever holds
/// checkpoints calls [`warg_check_growth`].
#[unsafe(no_mangle)]
pub extern "C" fn warg_check_consistency(
    alloc: Global,
    bundle: &[u8],
    at: usize,
    old_root: &[u8],
    new_root: &[u8],
) -> i32
    ensures { Returns (old_root.now ∷ new_root.now ∷ [])
        (consistency_verdict sha256 bundle.now at old_root.now new_root.now) result }
{
    match (
        Hash::<Sha256>::try_from(old_root),
        Hash::<Sha256>::try_from(new_root),
    ) {
        (Ok(old), Ok(new)) => number(check_consistency(alloc, bundle, at, &old, &new)),
        _ => ROOT_LENGTH,
    }
}

/// Whether the proof at a place of a map bundle, counted from 0, shows that the map with this root holds
/// the value under the key: the number of the verdict of `warg_check::check_key`.
#[unsafe(no_mangle)]
pub extern "C" fn warg_check_key(
    alloc: Global,
    bundle: &[u8],
    at: usize,
    key: &[u8],
    value: &[u8],
    root: &[u8],
) -> i32
    ensures { Returns (root.now ∷ [])
        (verdict sha256 (value_under key.now value.now root.now) (by_bundle bundle.now at)) result }
{
    match Hash::<Sha256>::try_from(root) {
        Ok(root) => number(check_key(alloc, bundle, at, &key, &value, &root)),
        Err(_) => ROOT_LENGTH,
    }
}

/// Whether the absence at a place of a map bundle, counted from 0, shows that the map with this root holds
/// nothing under the key, or a value without bytes: the number of the verdict of
/// `warg_check::check_absent`.
#[unsafe(no_mangle)]
pub extern "C" fn warg_check_absent(
    alloc: Global,
    bundle: &[u8],
    at: usize,
    key: &[u8],
    root: &[u8],
) -> i32
    ensures { Returns (root.now ∷ [])
        (verdict sha256 (nothing_under key.now root.now) (by_bundle bundle.now at)) result }
{
    match Hash::<Sha256>::try_from(root) {
        Ok(root) => number(check_absent(alloc, bundle, at, &key, &root)),
        Err(_) => ROOT_LENGTH,
    }
}

/// Whether the proof at a place of a map bundle, counted from 0, shows that the map with the new root is the one with
/// the old root, with the new value under the key in place of the old one: the number of the verdict of
/// `warg_check::check_update`.
#[unsafe(no_mangle)]
pub extern "C" fn warg_check_update(
    alloc: Global,
    bundle: &[u8],
    at: usize,
    key: &[u8],
    old_value: &[u8],
    new_value: &[u8],
    old_root: &[u8],
    new_root: &[u8],
) -> i32
    ensures { Returns (old_root.now ∷ new_root.now ∷ [])
        (verdict sha256 (update key.now old_value.now new_value.now old_root.now new_root.now)
        (by_bundle bundle.now at)) result }
{
    match (
        Hash::<Sha256>::try_from(old_root),
        Hash::<Sha256>::try_from(new_root),
    ) {
        (Ok(old), Ok(new)) => number(check_update(
            alloc, bundle, at, &key, &old_value, &new_value, &old, &new,
        )),
        _ => ROOT_LENGTH,
    }
}

/// Whether the absence at a place of a map bundle, counted from 0, shows that the map with the new root is the one with
/// the old root, and the value under a key that had none, or one without bytes: the number of the verdict of
/// `warg_check::check_insertion`.
#[unsafe(no_mangle)]
pub extern "C" fn warg_check_insertion(
    alloc: Global,
    bundle: &[u8],
    at: usize,
    key: &[u8],
    value: &[u8],
    old_root: &[u8],
    new_root: &[u8],
) -> i32
    ensures { Returns (old_root.now ∷ new_root.now ∷ [])
        (verdict sha256 (insertion key.now value.now old_root.now new_root.now)
        (by_bundle bundle.now at)) result }
{
    match (
        Hash::<Sha256>::try_from(old_root),
        Hash::<Sha256>::try_from(new_root),
    ) {
        (Ok(old), Ok(new)) => number(check_insertion(alloc, bundle, at, &key, &value, &old, &new)),
        _ => ROOT_LENGTH,
    }
}

/// Whether an inclusion path shows that entry `index`, from 0, of the log of this length and root has the value's
/// bytes: the number of the verdict of `warg_check::check_entry_path`. The path's bytes are its digests, 32 bytes each,
/// from the bottom up (RFC 6962, section 2.1.1); of other bytes it is that of the fault, and never -1.
#[unsafe(no_mangle)]
pub extern "C" fn warg_check_record(
    alloc: Global,
    path: &[u8],
    index: usize,
    value: &[u8],
    length: usize,
    root: &[u8],
) -> i32
    ensures verdict { Returns (root.now ∷ [])
        (verdict sha256 (entry_at index value.now (record { root = root.now; length = length }))
        (by_path path.now)) result }
    ensures fault { hashes_of path.now ≡ None
        → result ≡ number_under (root.now ∷ []) (Err (CheckError.Decode decoding.HashLength)) }
{
    match Hash::<Sha256>::try_from(root) {
        Ok(root) => {
            let checkpoint = Checkpoint::new(root, length);
            number(check_entry_path(alloc, path, index, &value, &checkpoint))
        }
        Err(_) => ROOT_LENGTH,
    }
}

/// Whether a consistency path shows that the log of the old length and root is a beginning of the log of the new
/// ones: the number of the verdict of `warg_check::check_growth_path`. The path's bytes are its digests, 32 bytes each,
/// from the bottom up (RFC 6962, section 2.1.2); of other bytes it is that of the fault, and never -1. From an empty log
/// it is false: no path is made of it.
#[unsafe(no_mangle)]
pub extern "C" fn warg_check_tree(
    alloc: Global,
    path: &[u8],
    old_length: usize,
    old_root: &[u8],
    new_length: usize,
    new_root: &[u8],
) -> i32
    ensures verdict { Returns (old_root.now ∷ new_root.now ∷ [])
        (verdict sha256 (growth (record { root = old_root.now; length = old_length })
        (record { root = new_root.now; length = new_length })) (by_path path.now)) result }
    ensures fault { hashes_of path.now ≡ None → result ≡ number_under
        (old_root.now ∷ new_root.now ∷ []) (Err (CheckError.Decode decoding.HashLength)) }
{
    match (
        Hash::<Sha256>::try_from(old_root),
        Hash::<Sha256>::try_from(new_root),
    ) {
        (Ok(old_root), Ok(new_root)) => {
            let old = Checkpoint::new(old_root, old_length);
            let new = Checkpoint::new(new_root, new_length);
            number(check_growth_path(alloc, path, &old, &new))
        }
        _ => ROOT_LENGTH,
    }
}
