//! The tiles by which a log grows.

ghost use Rattle.std.specs.Prelude.{◌≡◌, ◌+◌, ◌/◌, ◌*◌, ◌<◌, ◌≤◌, ◌++◌, IfOk, OnOk};
ghost use Rattle.warg_tiles.specs.Between.{tiles_between, level_tiles};

use crate::tile::Tile;
use std::alloc::{AllocError, Allocator};
use warg_log::GREATEST_LENGTH;

/// The tiles that a log has at its new length and hadn't at its old one, each once and as wide as it is at the new
/// length, by level and then by number. It fails only if allocation fails.
pub fn tiles_between<A: Allocator>(
    alloc: A,
    old_length: usize,
    new_length: usize,
) -> Result<Vec<Tile, A>, AllocError>
    requires order { old_length ≤ new_length }
    requires fits { new_length ≤ GREATEST_LENGTH }
    ensures { IfOk result (λ tiles. tiles.items ≡ tiles_between old_length new_length) }
{
    let mut tiles = Vec::new(alloc);
    'levels: for level in 0..8 {
        push_level(
            &mut tiles,
            level,
            old_length >> (8 * level),
            new_length >> (8 * level),
        )?;
    }
    Ok(tiles)
}

// Adds the tiles of a level, where the log had so many digests of the level and has so many now.
fn push_level<A: Allocator>(
    tiles: &mut Vec<Tile, A>,
    level: u32,
    old_count: usize,
    new_count: usize,
) -> Result<(), AllocError>
    requires level { level < 8 }
    requires order { old_count ≤ new_count }
    requires fits { new_count ≤ GREATEST_LENGTH }
    ensures { OnOk result
        (tiles.new.items ≡ tiles.old.items ++ level_tiles level old_count new_count) }
{
    if old_count == new_count {
        return Ok(());
    }
    'numbers: for number in old_count / 256..new_count.div_ceil(256) {
        let width = (new_count - 256 * number).min(256);
        tiles.push(Tile::new(level, number, width))?;
    }
    Ok(())
}
