//! A client that holds a checkpoint of a log, and nothing else.

ghost use Rattle.std.specs.Prelude.{◌≡◌, true, Ok};
ghost use Rattle.warg_crypto.specs.Digests.{sha256};
ghost use Rattle.warg_check.specs.CheckpointVerdicts.{IsEntryShown, IsGrowthShown};

use std::alloc::Global;
use warg_check::laws::{entry_is_shown, growth_is_shown};
use warg_check::{CheckError, check_entry, check_growth};
use warg_crypto::Sha256;
use warg_log::Checkpoint;

/// Whether a bundle's first inclusion proof shows that the log with this checkpoint has this release at an index. If
/// so the bundle's digests lead from the release at that leaf to the checkpoint's root.
pub fn has_release(
    alloc: Global,
    bundle: &[u8],
    index: usize,
    release: &str,
    checkpoint: &Checkpoint<Sha256>,
) -> Result<bool, CheckError>
    ensures { result ≡ Ok true
        → IsEntryShown sha256 bundle.now index release.now checkpoint.now.length checkpoint.now.root }
{
    entry_is_shown();
    check_entry(alloc, bundle, 0, index, &release, checkpoint)
}

/// Whether a bundle's first consistency proof shows that the log grew from the old checkpoint to the new one. If so its
/// digests lead to both roots.
pub fn has_grown(
    alloc: Global,
    bundle: &[u8],
    old: &Checkpoint<Sha256>,
    new: &Checkpoint<Sha256>,
) -> Result<bool, CheckError>
    ensures { result ≡ Ok true
        → IsGrowthShown sha256 bundle.now old.now.length old.now.root new.now.length new.now.root }
{
    growth_is_shown();
    check_growth(alloc, bundle, 0, old, new)
}
