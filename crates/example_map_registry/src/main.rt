//! A registry in a folder: reads keys with values, a line each, separated by a tab, publishes them all at once, and prints
//! the root of their map. Then it reads the folder as a client does, and prints what stands under each key that the command
//! line names: the value and the entry that put it there, or that nothing does, and how many digests the map's proof of that has.
//!
//! The folder is `registry`, which must not exist yet; any web server may serve it. Nothing else may write to it
//! meanwhile: a program that may run twice takes a `FolderLock` first.
#![tactic(auto)]

use anyhow::{Result, bail};
use std::alloc::Global;
use std::cell::Cell;
use std::{env, fs};
use warg_crypto::{Hash, Sha256};
use warg_registry::{KeyInRegistry, RegistryFolder, RegistryReader};
use warg_store::SystemFolder;

const FOLDER: &str = "registry";

fn main(rt: HostRuntime) -> Result<()> {
    let alloc = rt.alloc();
    let mut lines = Vec::new(alloc);
    for line in rt.lines(alloc) {
        lines.push(line?)?;
    }
    let insertions = insertions_of(alloc, lines.as_slice())?;
    let (count, root) = (insertions.len(), publish(&rt, insertions.as_slice())?);
    println!(rt; "{count} insertions, map {root}")?;
    let words = env::args(&rt)?.collect::<Vec<String>>(alloc)?;
    for key in words.iter().skip(1) {
        look_up(&rt, key.as_str())?;
    }
    Ok(())
}

// Makes the registry of these insertions, and returns the root of their map.
fn publish(rt: &HostRuntime, insertions: &[(&[u8], &[u8])]) -> Result<Hash<Sha256>> {
    fs::create_dir_all(rt, "registry/.log")?;
    // (here the folder leaves why the system refuses a call)
    let fault = Cell::new(None);
    let folder = SystemFolder::new(rt, FOLDER, &fault)?;
    let mut registry = RegistryFolder::create(rt.alloc(), folder, b"example.com/registry")?;
    registry.publish(insertions)?;
    Ok(registry.root().copied())
}

// The key and the value of each line.
fn insertions_of(alloc: Global, lines: &[String]) -> Result<Vec<(&[u8], &[u8])>> {
    let mut insertions = Vec::new(alloc);
    for line in lines {
        let Some((key, value)) = line.split_once('\t') else {
            bail!("not a key and a value");
        };
        insertions.push((key.as_bytes(), value.as_bytes()))?;
    }
    Ok(insertions)
}

// Prints what the registry has under a key.
fn look_up(rt: &HostRuntime, key: &str) -> Result<()> {
    let fault = Cell::new(None);
    let folder = SystemFolder::new(rt, FOLDER, &fault)?;
    let found = RegistryReader::open(rt.alloc(), folder)?.get(key.as_bytes())?;
    print_found(rt, key, found)
}

fn print_found(rt: &HostRuntime, key: &str, found: KeyInRegistry) -> Result<()> {
    match found {
        KeyInRegistry::Held(index, value, peers) => {
            let (value, count) = (String::from_utf8(value)?, peers.len());
            println!(rt; "{key}: {value} (entry {index}, path of {count})")?;
        }
        KeyInRegistry::Absent(peers) => {
            let count = peers.len();
            println!(rt; "{key}: absent (path of {count})")?;
        }
    }
    Ok(())
}
