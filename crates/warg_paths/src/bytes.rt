//! Lists of hashes in bytes.

ghost use Rattle.std.specs.Prelude.{◌≡◌, ◌↔◌, None, Some, Err, IfOk};
ghost use Rattle.warg_paths.specs.Pieces.{hashes_of};

use crate::error::HashesError;
use std::alloc::Allocator;
use warg_crypto::Hash;

/// The hashes that bytes are, in pieces of 32 one after the other. `HashLength` exactly if their number is not a
/// multiple of 32, before allocating; else it fails only if allocation fails.
pub fn hashes_in<D, A: Allocator>(alloc: A, bytes: &[u8]) -> Result<Vec<Hash<D>, A>, HashesError>
    ensures ok { IfOk result (λ hashes. hashes_of bytes.now ≡ Some hashes.items) }
    ensures length { (result ≡ Err HashesError.HashLength) ↔ (hashes_of bytes.now ≡ None) }
{
    if bytes.len() % 32 != 0 {
        return Err(HashesError::HashLength);
    }
    let mut hashes = Vec::new(alloc);
    'pieces: for piece in bytes.chunks_exact(32) {
        hashes.push(Hash::try_from(piece)?)?;
    }
    Ok(hashes)
}
