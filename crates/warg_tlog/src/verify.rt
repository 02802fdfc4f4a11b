//! The command that judges a path from standard input alone.

use crate::lines::Lines;
use crate::refusal::{Refusal, said};
use base64::engine::general_purpose::STANDARD;
use std::alloc::{AllocError, Global};
use warg_crypto::{Hash, Sha256};
use warg_log::Checkpoint;
use warg_paths::{check_record, check_tree};

// A path to at most 2^63 entries has no more digests.
const LONGEST_PATH: usize = 64;

const NO_CLAIM: &str =
    "isn't a claim: write inclusion INDEX LENGTH ROOT, or consistency OLD OLD_ROOT NEW NEW_ROOT";

// What the first line of standard input claims.
#[derive(Drop)]
enum Claim {
    Inclusion(usize, Checkpoint<Sha256>),
    Consistency(Checkpoint<Sha256>, Checkpoint<Sha256>),
}

/// Says whether the path on standard input shows the claim above it, and prints that.
pub fn verify(rt: &HostRuntime) -> Result<bool, Refusal> {
    let verdict = judged(rt.alloc(), &mut Lines::new(rt)?)?;
    said(println!(rt; "{verdict}"))?;
    Ok(verdict)
}

fn judged(alloc: Global, lines: &mut Lines) -> Result<bool, Refusal> {
    next(lines)?;
    match claim_in(alloc, lines.line())? {
        Some(Claim::Inclusion(index, checkpoint)) => {
            next(lines)?;
            let entry = Vec::from_slice(alloc, lines.entry()?)?;
            let path = path_in(alloc, lines)?;
            Ok(check_record(&checkpoint, index, &entry, path.as_slice()))
        }
        Some(Claim::Consistency(old, new)) => {
            Ok(check_tree(&old, &new, path_in(alloc, lines)?.as_slice()))
        }
        None => Err(lines.refused(NO_CLAIM)),
    }
}

// Goes on to a line that has to be there.
fn next(lines: &mut Lines) -> Result<(), Refusal> {
    if lines.go_on()? {
        return Ok(());
    }
    Err(lines.refused(
        "is the last one: a claim and, for an entry, its digits have to stand before the path",
    ))
}

// The path of the lines that are left.
fn path_in(alloc: Global, lines: &mut Lines) -> Result<Vec<Hash<Sha256>>, Refusal> {
    let mut path = Vec::new(alloc);
    for _ in 0..LONGEST_PATH + 1 {
        if !lines.go_on()? {
            return Ok(path);
        }
        let digest = str::from_utf8(lines.line()).unwrap_or("").parse();
        let fault = "isn't a digest of the path: write 64 hexadecimal digits";
        path.push(digest.map_err(|_| lines.refused(fault))?)?;
    }
    Err(lines.refused("is too much: no path has more than 64 digests"))
}

// The claim of a line.
fn claim_in(alloc: Global, line: &[u8]) -> Result<Option<Claim>, AllocError> {
    let words = str::from_utf8(line).unwrap_or("").split(' ');
    Ok(claim_of(words.collect::<Vec<&str>>(alloc)?.as_slice()))
}

fn claim_of(words: &[&str]) -> Option<Claim> {
    match words {
        ["inclusion", index, length, root] => {
            Some(Claim::Inclusion(index.parse().ok()?, checkpoint_of(length, root)?))
        }
        ["consistency", old, old_root, new, new_root] => {
            let old = checkpoint_of(old, old_root)?;
            Some(Claim::Consistency(old, checkpoint_of(new, new_root)?))
        }
        _ => None,
    }
}

/// The checkpoint of a length and a root, in base64, as in its text, or in hexadecimal digits.
pub fn checkpoint_of(length: &str, root: &str) -> Option<Checkpoint<Sha256>> {
    Some(Checkpoint::new(root_in(root)?, length.parse().ok()?))
}

fn root_in(word: &str) -> Option<Hash<Sha256>> {
    let mut root = [0; 32];
    match STANDARD.decode_slice(word.as_bytes(), &mut root) {
        Ok(32) => Some(Hash::from_array(root)),
        _ => word.parse().ok(),
    }
}
