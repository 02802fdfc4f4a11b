//! A log that outgrows memory: its tiles are stored, and it goes on from its right edge.

ghost use Rattle.std.specs.Prelude.{ℕ, List, IfOk};
ghost use Rattle.warg_crypto.specs.Digests.{sha256};
ghost use Rattle.warg_tiles.specs.TileLog.{StandsFor};

use std::alloc::Global;
use warg_crypto::Sha256;
use warg_tiles::{OpenError, TileLog};

/// The log again, out of its partial tiles and its length, as a program does that starts anew: it stands for every list of
/// leaf digests for which it stood.
pub fn opened_again(
    alloc: Global,
    log: &TileLog<Sha256, &'static str>,
) -> Result<TileLog<Sha256, &'static str>, OpenError>
    ensures { IfOk result (λ again. (ds : List (List ℕ)) → StandsFor sha256 log.now ds
        → StandsFor sha256 again ds) }
{
    let tiles = log.partial(alloc)?;
    TileLog::open(alloc, log.length(), tiles.as_slice())
}
