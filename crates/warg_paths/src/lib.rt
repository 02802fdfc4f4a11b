//! Inclusion and consistency paths: the proofs that deployed logs send (RFC 6962, sections 2.1.1 and 2.1.2; in
//! RFC 9162, 2.1.3.1 and 2.1.4.1).
//!
//! A path is a list of digests from the bottom up, one for each branch on the way; the place of the entry and
//! the lengths of the logs stand beside it. Certificate Transparency, Go's checksum database and tiled logs
//! send these lists, and judge them as [`check_record`] and [`check_tree`] do. The definitions that the
//! contracts cite stand in `specs/Paths`.
#![tactic(auto)]

mod bytes;
mod consistency;
mod error;
mod front;
mod inclusion;
pub mod laws;
pub mod premises;

pub use bytes::hashes_in;
pub use consistency::{check_tree, consistency_path, roots_of_consistency, roots_of_subproof};
pub use error::{HashesError, PathError};
pub use front::front_of;
pub use inclusion::{check_record, inclusion_path, root_of_inclusion};
