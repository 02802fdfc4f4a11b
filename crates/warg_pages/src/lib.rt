//! The pages of a sparse map: the fixed files in which a map's tree is stored and served, one for each eight levels
//! that have more than one key below them.
//!
//! The state is a list of insertions, each a key and a value, and the map is that of these insertions. A page stands at
//! the empty prefix, where there is an insertion, and at each other prefix of whole bytes that two held key digests
//! share. Its version is 1 and the index of the last insertion below its prefix, so prefix and version name its bytes.
//!
//! [`PagedMap`] is a map whose keys stand in pages alone: what it inserts changes a few of them.
//!
//! The definitions that the contracts cite stand in `specs/`: read Prefixes, Slots and Pages first.
#![tactic(auto)]

mod alone;
mod below;
mod bits;
mod bytes;
mod change;
mod changed;
mod climb;
mod descent;
mod error;
mod held;
pub mod laws;
mod lone;
mod page;
mod paged;
mod path;
mod peers;
pub mod premises;
mod prove;
mod root;
mod root_pair;
mod slot;
mod source;
mod update;
mod visit;

pub use changed::ChangedPage;
pub use error::{PageError, ProveError, WayError};
pub use held::{HeldInPages, held_in_pages};
pub use page::MapPage;
pub use paged::PagedMap;
pub use path::page_path;
pub use prove::{KeyInPages, prove_by_pages};
pub use slot::{LoneKey, Slot};
pub use source::Pages;
pub use visit::{LoneKeyCheck, PageVisitor, visit_pages};
