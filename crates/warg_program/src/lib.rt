//! The program `warg_check` as a library: lines of commands in, lines of answers out.
#![tactic(auto)]

mod line_error;
mod program;
mod session;
mod words;

pub use program::{RunError, exit_code, run};
