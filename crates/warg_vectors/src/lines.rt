//! The lines of an input, and their answers.

use crate::call::Call;
use crate::calls;
use crate::fault::{Fault, MEMORY};
use crate::memory::Memory;
use refusing::Refusing;
use std::alloc::{AllocError, Global};

// More growths than any call has.
const MOST_GROWTHS: u64 = 1 << 32;

/// The answers to all lines. The last one counts without its end, too.
pub(crate) fn answer_all(alloc: Global, input: &[u8]) -> Result<String, AllocError> {
    let mut output = String::new(alloc);
    let lines = input.strip_suffix(b"\n").unwrap_or(input);
    if input.is_empty() {
        return Ok(output);
    }
    for line in lines.split(|byte| *byte == b'\n') {
        let answer = answer_line(alloc, line)?;
        output.push_str(answer.as_str())?;
        output.push('\n')?;
    }
    Ok(output)
}

fn answer_line(alloc: Global, line: &[u8]) -> Result<String, AllocError> {
    let Ok(line) = str::from_utf8(line) else {
        return Fault::BadCall.text(alloc);
    };
    match line.strip_prefix("each ") {
        Some(line) => answer_each(alloc, line),
        None => answer_with(alloc, line, alloc),
    }
}

// Makes the call with its first growth refused, with its second, and so on, until a run meets no refusal. The answer is
// the call's, or says what went wrong.
fn answer_each(alloc: Global, line: &str) -> Result<String, AllocError> {
    let wanted = answer_with(alloc, line, alloc)?;
    for growths in 0..MOST_GROWTHS {
        let memory = Refusing::after(alloc, growths);
        let found = answer_with(alloc, line, &memory)?;
        let is_refusal = memory.has_refused() && found.as_str() == MEMORY;
        if found.as_str() != wanted.as_str() && !is_refusal {
            return format!(in alloc; "{growths} growths give {found}");
        }
        if !memory.has_refused() {
            return Ok(wanted);
        }
    }
    String::from_str(alloc, "refused with any number of growths")
}

// The answer to the call that a line spells.
fn answer_with<M: Memory>(alloc: Global, line: &str, memory: M) -> Result<String, AllocError> {
    let mut call = Call::of(alloc, line, memory);
    match calls::answer(&mut call) {
        Ok(()) if call.is_read() => Ok(call.to.text),
        Ok(()) => Fault::BadCall.text(alloc),
        Err(fault) => fault.text(alloc),
    }
}
