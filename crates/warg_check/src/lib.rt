//! Verdicts on proofs in bytes, by a log's checkpoint or a map's root.
#![tactic(auto)]

mod checkpoint;
pub mod laws;
mod path;
mod update;
mod verdict;

pub use checkpoint::{check_entry, check_growth};
pub use path::{check_entry_path, check_growth_path};
pub use update::{check_insertion, check_update};
pub use verdict::{CheckError, check_absent, check_consistency, check_inclusion, check_key};
