//! Values as bytes, digests of bytes, their hashes, and the leaves and branches of Merkle trees.
#![tactic(auto)]

mod empty;
mod framed;
mod hash;
pub mod laws;
mod text;
mod tree;
mod visit;
pub mod weak;

pub use framed::Framed;
pub use hash::{Hash, HashLength, Sha256, SupportedDigest, bytes_of};
pub use text::HashDigits;
pub use tree::{Branch, Leaf, Side, empty_tree_hash, hash_branch, hash_empty, hash_leaf};
pub use visit::{ByteVisitor, VisitBytes, have_same_bytes};
