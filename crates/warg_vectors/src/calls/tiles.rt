//! Tiles and entry bundles, and their paths.

use crate::answer::{Answer, Item};
use crate::call::Call;
use crate::calls::logs::beginning;
use crate::fault::{Answered, Fault};
use crate::memory::Memory;
use crate::words::{Given, Length, Parts, Words};
use warg_crypto::SupportedDigest;
use warg_log::{GREATEST_LENGTH, LogData, Node};
use warg_tiles::{Tile, TileData};

// The tile of these numbers, if they are those of one.
fn tile_of(level: usize, number: usize, width: usize) -> Result<Tile, Fault> {
    if level > 63 || width == 0 || width > 256 {
        return Err(Fault::BadCall);
    }
    Ok(Tile::new(level as u32, number, width))
}

/// The level, the number and the width.
impl Given for Tile {
    fn read(words: &mut Words<'_>) -> Result<Tile, Fault> {
        let (level, number, width): (usize, usize, usize) = Given::read(words)?;
        tile_of(level, number, width)
    }
}

fn write(to: &mut Answer, tile: &Tile) -> Answered {
    let word = tile.item(to.alloc())?;
    to.word(word.as_str())
}

pub(super) fn tile_over<M: Memory>(call: &mut Call<'_, M>, node: &Node) -> Answered {
    write(&mut call.to, &Tile::over(*node))
}

pub(super) fn tile_path<M: Memory>(call: &mut Call<'_, M>, tile: &Tile) -> Answered {
    let path = call.made(tile.path(call.memory))?;
    call.to.word(path.as_str())
}

pub(super) fn entries_path<M: Memory>(
    call: &mut Call<'_, M>,
    (number, width): &(usize, usize),
) -> Answered {
    let tile = tile_of(0, *number, *width)?;
    if tile.level() != 0 {
        return Err(Fault::BadCall);
    }
    let path = call.made(tile.entries_path(call.memory))?;
    call.to.word(path.as_str())
}

pub(super) fn read_tile_path<M: Memory>(call: &mut Call<'_, M>, bytes: &Vec<u8>) -> Answered {
    let Ok(path) = str::from_utf8(bytes) else {
        return Err(Fault::BadCall);
    };
    if let Ok(tile) = Tile::from_entries_path(path) {
        return write_bundle(&mut call.to, &tile);
    }
    let tile = call.made(Tile::from_path(path))?;
    write(&mut call.to, &tile)
}

fn write_bundle(to: &mut Answer, tile: &Tile) -> Answered {
    let (number, width) = (tile.number(), tile.width());
    let bundle = format!(in to.alloc(); "entries:{number}:{width}")?;
    to.word(bundle.as_str())
}

/// The tiles by which a log grows.
pub(super) fn tiles_between<M: Memory>(
    call: &mut Call<'_, M>,
    (old, new): &(Length, Length),
) -> Answered {
    if old.value > new.value {
        return Err(Fault::BadCall);
    }
    call.write_list(warg_tiles::tiles_between(call.memory, old.value, new.value))
}

/// The digests of a tile by the log of some entries.
pub(super) fn tile_hashes<D: SupportedDigest, M: Memory>(call: &mut Call<'_, M>) -> Answered {
    let (tile, entries): (Tile, Vec<Vec<u8>>) = call.read()?;
    if !tile.exists_at_length(GREATEST_LENGTH) {
        return Err(Fault::BadCall);
    }
    let log = beginning::<D>(call.alloc(), entries.as_slice(), entries.len())?;
    call.write_list(warg_tiles::tile_hashes(call.memory, &log, &tile))
}

/// A node's digest by one tile, which is given by its level, its number and the bytes of its digests.
pub(super) fn tile_data<D: SupportedDigest, M: Memory>(call: &mut Call<'_, M>) -> Answered {
    let (Parts((level, number, bytes)), node): (Parts<(usize, usize, Vec<u8>)>, Node) =
        call.read()?;
    let data: TileData<D, Vec<u8>, M> = held_tile(call, level, number, bytes.as_slice())?;
    match data.hash_for(node) {
        Some(digest) => call.to.show(&digest),
        None => call.to.word("none"),
    }
}

// The data of one tile, whose digests are these bytes.
fn held_tile<D: SupportedDigest, M: Memory>(
    call: &Call<'_, M>,
    level: usize,
    number: usize,
    bytes: &[u8],
) -> Result<TileData<D, Vec<u8>, M>, Fault> {
    if bytes.len() % 32 != 0 {
        return Err(Fault::BadCall);
    }
    let tile = tile_of(level, number, bytes.len() / 32)?;
    let digests = call.made(warg_paths::hashes_in(call.memory, bytes))?;
    if digests.len() != tile.width() {
        return Err(Fault::BadCall);
    }
    let mut data = TileData::new(call.memory);
    call.made(data.insert(tile, digests))?;
    Ok(data)
}

pub(super) fn entry_bundle<M: Memory>(call: &mut Call<'_, M>, entries: &Vec<Vec<u8>>) -> Answered {
    call.write_bytes(warg_tiles::write_entries(call.memory, entries))
}

pub(super) fn read_entry_bundle<M: Memory>(call: &mut Call<'_, M>, bytes: &Vec<u8>) -> Answered {
    call.write_list(warg_tiles::read_entries(call.memory, bytes))
}
