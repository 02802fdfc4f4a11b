//! What an argument gives: evidence, bytes as text, as hexadecimal digits or out of a file, a number, a root.

use anyhow::{Context, Result, anyhow};
use clap::ArgMatches;
use std::fs;
use std::io::Read;
use warg_crypto::{Hash, Sha256};
use warg_log::Checkpoint;

/// The bytes of a bundle or a path, out of its file or standard input, where `-` stands for the file. With `--hex` these
/// are digits, behind the word `bundle` or alone.
pub fn evidence_bytes(rt: &HostRuntime, asked: &ArgMatches<'_>) -> Result<Vec<u8>> {
    let path = text(asked, "evidence")?;
    let bytes = if path == "-" {
        standard_input(rt)?
    } else {
        file(rt, path)?
    };
    if asked.get_flag("hex") {
        let line = bytes.as_slice().trim_ascii();
        let word = line.strip_prefix(b"bundle ").unwrap_or(line);
        return digits(rt, word).context(format_args!("{path}"));
    }
    Ok(bytes)
}

/// Whether the evidence is to come from standard input.
pub fn is_on_standard_input(asked: &ArgMatches<'_>) -> Result<bool> {
    Ok(text(asked, "evidence")? == "-")
}

// The text of an argument that the command line requires.
fn text<'a>(asked: &ArgMatches<'a>, name: &str) -> Result<&'a str> {
    match asked.get_str(name) {
        Some(text) => Ok(text),
        None => Err(anyhow!("no argument --{name}")),
    }
}

/// The number of an argument.
pub fn number(asked: &ArgMatches<'_>, name: &str) -> Result<usize> {
    let word = text(asked, name)?;
    if word.starts_with('-') {
        return Err(anyhow!("--{name} {word}: a number must not be negative"));
    }
    word.parse::<usize>()
        .context(format_args!("--{name} {word}"))
}

/// The root of an argument.
pub fn root(asked: &ArgMatches<'_>, name: &str) -> Result<Hash<Sha256>> {
    text(asked, name)?
        .parse::<Hash<Sha256>>()
        .context(format_args!("--{name}"))
}

/// The checkpoint of two arguments: a log's length and root.
pub fn checkpoint(asked: &ArgMatches<'_>, length: &str, of: &str) -> Result<Checkpoint<Sha256>> {
    Ok(Checkpoint::new(root(asked, of)?, number(asked, length)?))
}

/// The bytes of an argument: those of `text:TEXT`, `hex:DIGITS` or the file of `file:PATH`.
pub fn bytes(rt: &HostRuntime, asked: &ArgMatches<'_>, name: &str) -> Result<Vec<u8>> {
    let word = text(asked, name)?;
    match word.split_once(':') {
        Some(("text", text)) => Ok(text.as_bytes().to_vec(rt.alloc())?),
        Some(("hex", word)) => digits(rt, word.as_bytes()).context(format_args!("--{name}")),
        Some(("file", path)) => file(rt, path),
        _ => Err(anyhow!("--{name} is none of text:TEXT, hex:DIGITS and file:PATH")),
    }
}

/// The bytes that hexadecimal digits spell.
pub fn digits(rt: &HostRuntime, digits: &[u8]) -> Result<Vec<u8>> {
    hex::decode(rt.alloc(), digits).context(format_args!("{} digits", digits.len()))
}

// The bytes of a file.
fn file(rt: &HostRuntime, path: &str) -> Result<Vec<u8>> {
    fs::read(rt, path).context(format_args!("{path}"))
}

/// All bytes on standard input.
pub fn standard_input(rt: &HostRuntime) -> Result<Vec<u8>> {
    let mut bytes = Vec::new(rt.alloc());
    rt.stdin()
        .read_to_end(&mut bytes)
        .context("standard input")?;
    Ok(bytes)
}
