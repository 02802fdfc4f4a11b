//! Witnesses: whoever holds the entries of a log, or the insertions of a map, turns a proof that leads to
//! their root, and lies, into two byte strings of one digest. By agreement whoever holds one root alone does
//! so with two proofs that lead to it.
//!
//! Each call returns a [`Finding`]: the proof's evaluation doesn't lead to the roots of what is given; or it
//! does, and the proof's claim is true; or it does, the claim is false, and here are two different byte
//! strings of equal digest.
#![tactic(auto)]

mod collision;
mod divergence;
pub mod laws;
mod log;
mod map;
mod paths;
mod plain;
pub mod premises;
mod ranges;
mod trees;

pub use collision::{Collision, Finding};
pub use log::{agree_value, witness_consistency, witness_hash, witness_value};
pub use map::{agree_key, witness_absent, witness_change, witness_key, witness_update};
pub use paths::{agree_record, witness_record, witness_tree};
