//! Tiles, entry bundles and checkpoint texts: the fixed files in which deployed logs are stored and served (C2SP tlog-tiles
//! and tlog-checkpoint).
//!
//! The definitions that the contracts cite stand in `specs/`: read Tiles first.
#![tactic(auto)]

mod between;
mod checkpoint_text;
mod data;
mod entries;
mod error;
mod fetch;
pub mod laws;
mod path;
pub mod premises;
mod root;
mod stored;
mod tile;
mod tile_log;

pub use between::tiles_between;
pub use checkpoint_text::CheckpointText;
pub use data::{TileData, tile_hashes};
pub use entries::{push_entry, read_entries, write_entries};
pub use error::{
    CheckpointTextError, EntriesError, EntryError, OpenError, TileBytesError, TileError,
};
pub use fetch::{tiles_for_consistency, tiles_for_inclusion};
pub use path::BadPath;
pub use stored::StoredTile;
pub use tile::Tile;
pub use tile_log::TileLog;
