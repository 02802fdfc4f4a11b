//! How a program calls each library: small callers with what they are promised, proved from the libraries' contracts.
//! `CALLING.md` beside each library's `src/` shows them.
#![tactic(auto)]

pub mod bundle;
pub mod check;
pub mod claims;
pub mod crypto;
pub mod folder;
pub mod log;
pub mod map;
pub mod paths;
pub mod registry;
pub mod store;
pub mod tiles;
pub mod witness;
