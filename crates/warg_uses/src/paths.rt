//! A log that sends paths, and its client.

ghost use Rattle.std.specs.Prelude.{◌≡◌, true, [], List, ℕ, length, Some, Ok, IfOk, slice_index_or};
ghost use Rattle.warg_crypto.specs.Digests.{sha256};
ghost use Rattle.warg_crypto.specs.Tree.{leaf_digest};
ghost use Rattle.warg_log.specs.Tree.{root_of};
ghost use Rattle.warg_paths.specs.Paths.{inclusion_root};
ghost use Rattle.warg_paths.specs.Pieces.{hashes_of};

use std::alloc::Global;
use warg_crypto::{Hash, Sha256};
use warg_log::{Checkpoint, VecLog};
use warg_paths::laws::own_inclusion_path;
use warg_paths::{HashesError, PathError, check_record, hashes_in, inclusion_path};

/// The path of the release at an index, from its leaf digest to the log's root.
pub fn path_to_release(
    alloc: Global,
    log: &VecLog<Sha256, &str>,
    index: usize,
) -> Result<Vec<Hash<Sha256>>, PathError>
    ensures { IfOk result (λ path. inclusion_root sha256 index (length log.now)
        (slice_index_or log.now index []) path.items ≡ Some (root_of sha256 log.now)) }
{
    own_inclusion_path();
    inclusion_path(alloc, log, index, log.length())
}

/// Whether the bytes of a path show that the log with this checkpoint has this release at an index. If so they lead
/// from the release to the checkpoint's root.
pub fn shows_release(
    alloc: Global,
    path: &[u8],
    index: usize,
    release: &str,
    checkpoint: &Checkpoint<Sha256>,
) -> Result<bool, HashesError>
    ensures { result ≡ Ok true → (digests : List (List ℕ)) × (hashes_of path.now ≡ Some digests)
        × (inclusion_root sha256 index checkpoint.now.length
        (leaf_digest sha256 release.now) digests ≡ Some checkpoint.now.root) }
{
    let path = hashes_in(alloc, path)?;
    Ok(check_record(checkpoint, index, &release, path.as_slice()))
}
