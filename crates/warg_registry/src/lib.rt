//! A registry: a log of insertions, and the sparse map that these insertions make, bound by one checkpoint; and a folder
//! of files that keeps and serves both.
//!
//! The definitions that the contracts cite stand in `specs/`: read Insertions first, then Registry and Folder.
#![tactic(auto)]

mod audit;
mod error;
mod extension;
mod folder;
mod insertion;
pub mod laws;
pub mod premises;
mod pruning;
mod reader;
mod source;

pub use error::{BadMapLine, InsertionFault, PublishError, RegistryError};
pub use extension::{map_line, map_root};
pub use folder::RegistryFolder;
pub use insertion::{Insertion, inserted_value, read_insertion, write_insertion};
pub use reader::{KeyInRegistry, RegistryReader};
