//! The page of `explorer/`, as text of a program.
#![tactic(auto)]

mod page;

pub use page::PAGE;
