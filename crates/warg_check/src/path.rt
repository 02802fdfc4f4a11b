//! Verdicts on the bytes of inclusion and consistency paths, the proofs that deployed logs send.

ghost use Rattle.std.specs.Prelude.{◌≡◌, None, Err};
ghost use Rattle.warg_protobuf.specs.Reading.{Answers};
ghost use Rattle.warg_protobuf.specs.declared.value_error.DecodeError.TheVariants as decoding;
ghost use Rattle.warg_paths.specs.Pieces.{hashes_of};
ghost use Rattle.warg_check.specs.PathVerdicts.{path_fault};
ghost use Rattle.warg_check.specs.Claims.{verdict};
ghost use Rattle.warg_check.specs.Claims.Claim.{entry_at, growth};
ghost use Rattle.warg_check.specs.Claims.Evidence.{by_path};

use crate::verdict::CheckError;
use std::alloc::Allocator;
use warg_crypto::{SupportedDigest, VisitBytes};
use warg_log::Checkpoint;
use warg_paths::{HashesError, check_record, check_tree, hashes_in};
use warg_protobuf::DecodeError;

impl From<HashesError> for CheckError {
    ghost from_gives = { λ fault error. error ≡ path_fault fault };

    fn from(fault: HashesError) -> Self {
        match fault {
            HashesError::HashLength => CheckError::Decode(DecodeError::HashLength),
            HashesError::Memory => CheckError::Memory,
        }
    }
}

/// Whether the inclusion path in these bytes, its digests from the bottom up, 32 bytes each (RFC 6962, section 2.1.1),
/// shows that entry `index`, from 0, of the log with this checkpoint has the value's bytes: whether it leads from the
/// value's leaf digest to the checkpoint's root, at its length.
///
/// Bytes whose number is no multiple of 32 are `Decode(HashLength)`, before allocating; the only other error is `Memory`.
///
/// ```rust
/// let holds = check_entry_path(alloc, bytes.as_slice(), 0, &"left-pad 1.0.0", &checkpoint)?;
/// ```
pub fn check_entry_path<D: SupportedDigest, V: VisitBytes, A: Allocator>(
    alloc: A,
    bytes: &[u8],
    index: usize,
    value: &V,
    checkpoint: &Checkpoint<D>,
) -> Result<bool, CheckError>
    ensures verdict { Answers CheckError.Memory result
        (verdict D.digest (entry_at index (V.bytes value.now) checkpoint.now) (by_path bytes.now)) }
    ensures length { hashes_of bytes.now ≡ None → result ≡ Err (CheckError.Decode decoding.HashLength) }
{
    let path = hashes_in::<D, A>(alloc, bytes)?;
    Ok(check_record(checkpoint, index, value, path.as_slice()))
}

/// Whether the consistency path in these bytes, its digests from the bottom up, 32 bytes each (RFC 6962, section 2.1.2),
/// shows that the log with the old checkpoint is a beginning of the log with the new one: whether it leads from the old
/// root, between the checkpoints' lengths, to both roots.
///
/// From an empty log it is false: every log continues that one, and no path is made of it. The errors are those of
/// [`check_entry_path`].
pub fn check_growth_path<D: SupportedDigest, A: Allocator>(
    alloc: A,
    bytes: &[u8],
    old: &Checkpoint<D>,
    new: &Checkpoint<D>,
) -> Result<bool, CheckError>
    ensures verdict { Answers CheckError.Memory result
        (verdict D.digest (growth old.now new.now) (by_path bytes.now)) }
    ensures length { hashes_of bytes.now ≡ None → result ≡ Err (CheckError.Decode decoding.HashLength) }
{
    let path = hashes_in::<D, A>(alloc, bytes)?;
    Ok(check_tree(old, new, path.as_slice()))
}
