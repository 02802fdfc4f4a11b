//! An immutable map as a sparse Merkle tree of 256 levels, with proofs of presence and absence.
//!
//! A [`Map`] is grown from the empty map. `insert` and `extend` give a new map, which shares with the old one what
//! they don't change. `prove` gives a [`Proof`] of what is held under a key, and `prove_absence` one that nothing is. Who
//! has the root alone evaluates a proof by `evaluate` or `evaluate_absent`, and compares.
//!
//! The bits of a key's digest lead from the top of the tree to a leaf. Of the whole tree only these nodes are kept:
//!
//! ```text
//!   fork         two nodes of one height, each with a key
//!   stem         a run of bits beside which all is empty, over a fork
//!   singleton    a lone key, whatever the height
//! ```
//!
//! The modules stand on one another in this order: `path` (bits of a digest), `singleton`, `link` (a node with its
//! digest), `node`, `walk` (down to a key, for its proof), `grown` (leaves that are put into a tree), `proof`, `map`, and
//! `laws` (what follows from the definitions alone).
#![tactic(auto)]

mod grown;
pub mod laws;
mod link;
mod map;
mod node;
mod path;
pub mod premises;
mod proof;
mod singleton;
mod walk;

pub use map::{Insertion, KeyProof, Map, MapError};
pub use proof::Proof;
