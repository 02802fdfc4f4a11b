//! A registry that keeps a log of its releases.

ghost use Rattle.std.specs.Prelude.{◌≡◌, ◌<◌, [], ◌∷◌, ◌++◌, length, string_bytes, IfOk, OnOk, OnErr};
ghost use Rattle.warg_crypto.specs.Digests.{sha256};
ghost use Rattle.warg_crypto.specs.Tree.{leaf_digest};
ghost use Rattle.warg_log.specs.Tree.{root_of};

use std::alloc::AllocError;
use warg_crypto::Sha256;
use warg_log::{Checkpoint, GREATEST_LENGTH, LogBuilder, VecLog};

/// The log of a registry's releases.
pub type Releases = VecLog<Sha256, String>;

/// Adds a release at the log's end, and returns the checkpoint with it.
pub fn publish(log: &mut Releases, release: &String) -> Result<Checkpoint<Sha256>, AllocError>
    requires { length log.old < GREATEST_LENGTH }
    ensures grown { OnOk result (log.new ≡ log.old ++ leaf_digest sha256
        (string_bytes release.now) ∷ []) }
    ensures root { IfOk result (λ checkpoint. checkpoint.root ≡ root_of sha256 log.new) }
    ensures refused { OnErr result (log.new ≡ log.old) }
{
    log.push(release)?;
    Ok(log.checkpoint())
}
