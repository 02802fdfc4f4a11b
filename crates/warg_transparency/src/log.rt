//! The verifiable log: what the Rust crate's module `log` has.

pub use warg_bundle::LogProofBundle;
pub use warg_bundle::log::{BundleError, ProofBundle};
pub use warg_log::{
    Checkpoint, ConsistencyProof, ConsistencyProofError, GREATEST_LENGTH, InclusionProof,
    InclusionProofError, InclusionProofWalk, LogBuilder, LogData, Node, NotAscending, Side,
    SparseLogData, StackLog, VecLog, hash_branch, hash_empty, hash_leaf, push_all,
};
pub use warg_protobuf::{DecodeError, EncodeError};
