//! Transparency logs and maps by the Rust crate's paths, `warg_transparency::log` and
//! `warg_transparency::map`. Nothing here is its own.
#![tactic(auto)]

pub mod log;
pub mod map;
