//! What a claim is said of, as lines: the entries of logs, or the insertions of maps.

use crate::given::digits;
use anyhow::{Context, Result, anyhow};

/// Keys, each with the value that is inserted under it.
pub type Insertions = Vec<(Vec<u8>, Vec<u8>)>;

/// The entries of a log: a line of hexadecimal digits each, or `-` for no bytes.
pub fn entries(rt: &HostRuntime, lines: &str) -> Result<Vec<Vec<u8>>> {
    let mut entries = Vec::new(rt.alloc());
    for line in lines.lines() {
        entries.push(value(rt, line)?)?;
    }
    Ok(entries)
}

/// The insertions of a map: a line with the key and the value each.
pub fn insertions(rt: &HostRuntime, lines: &str) -> Result<Insertions> {
    let mut insertions = Vec::new(rt.alloc());
    for line in lines.lines() {
        let Some((key, last)) = line.split_once(' ') else {
            return Err(anyhow!("standard input: a line without a key and a value: {line}"));
        };
        insertions.push((value(rt, key)?, value(rt, last)?))?;
    }
    Ok(insertions)
}

/// The entries of the old log, and those of the new one.
pub fn old_and_new_entries(rt: &HostRuntime, lines: &str) -> Result<(Vec<Vec<u8>>, Vec<Vec<u8>>)> {
    let (old, new) = old_and_new(lines)?;
    Ok((entries(rt, old)?, entries(rt, new)?))
}

/// The insertions of the old map, and those of the new one.
pub fn old_and_new_insertions(rt: &HostRuntime, lines: &str) -> Result<(Insertions, Insertions)> {
    let (old, new) = old_and_new(lines)?;
    Ok((insertions(rt, old)?, insertions(rt, new)?))
}

// The lines of the old log or map, and behind an empty line those of the new one.
fn old_and_new(lines: &str) -> Result<(&str, &str)> {
    if let Some(new) = lines.strip_prefix('\n') {
        return Ok(("", new));
    }
    match lines.split_once("\n\n") {
        Some(both) => Ok(both),
        None => Err(anyhow!("standard input: no empty line between the old ones and the new ones")),
    }
}

fn value(rt: &HostRuntime, word: &str) -> Result<Vec<u8>> {
    if word == "-" {
        return Ok(Vec::new(rt.alloc()));
    }
    if word.is_empty() {
        return Err(anyhow!("standard input: an empty line where digits or - should be"));
    }
    digits(rt, word.as_bytes()).context("standard input")
}
