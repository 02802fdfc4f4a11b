//! `warg_vectors`: reads lines of calls on standard input, and writes one line of answer for each on
//! standard output. `docs/VECTORS.md` has the format.
#![tactic(auto)]

mod answer;
mod call;
mod calls;
mod fault;
mod lines;
mod memory;
mod words;

use crate::lines::answer_all;
use std::io;
use std::io::{Read, Write};

fn main(rt: HostRuntime) -> io::Result<()> {
    let mut input = Vec::new(rt.alloc());
    rt.stdin().read_to_end(&mut input)?;
    let output = answer_all(rt.alloc(), input.as_slice())?;
    rt.stdout().write_all(output.as_bytes())?;
    rt.stdout().flush()
}
