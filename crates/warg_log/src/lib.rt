//! A verifiable log: an append-only list of entries with the Merkle tree of RFC 6962, section 2.1.
//!
//! A log has a checkpoint, its root and length. A proof leads from the digest of one leaf, or from
//! an older root, to a root, over any digests. The definitions that the contracts cite stand in
//! `specs/`: read Nodes, Tree and Cut, in this order.
#![tactic(auto)]

mod balanced_roots;
mod branches;
mod consistency;
mod decimal;
pub mod laws;
mod leaf_range;
mod log;
mod node;
pub mod premises;
mod proof;
mod sparse_data;
mod stack_log;
mod text;
mod vec_log;

pub use consistency::{ConsistencyProof, ConsistencyProofError};
pub use decimal::decimal_in;
pub use leaf_range::{LeafRange, range_root, stored_root};
pub use log::{
    AppendError, Checkpoint, GREATEST_LENGTH, LogBuilder, LogData, OutOfRange, push_all,
};
pub use node::Node;
pub use proof::{InclusionProof, InclusionProofError, InclusionProofWalk};
pub use sparse_data::{NotAscending, SparseLogData};
pub use stack_log::StackLog;
pub use text::BadCheckpoint;
pub use vec_log::VecLog;
pub use warg_crypto::{Side, hash_branch, hash_empty, hash_leaf};
