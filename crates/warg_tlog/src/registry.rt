//! The commands of a registry alone: it is a log of insertions, and serves the map that they make.

use crate::lines::{Lines, word_in};
use crate::log::length_of;
use crate::refusal::{Refusal, said};
use crate::session::{Counted, Session};
use crate::usage::text;
use clap::ArgMatches;
use std::alloc::{AllocError, Global};
use warg_crypto::{Hash, Sha256};
use warg_protobuf::{MapInclusionProof, MapProofBundle, OptionalHash};
use warg_registry::{KeyInRegistry, RegistryFolder, RegistryReader};
use warg_store::{Progress, SystemFolder};

// A registry in a folder of the system's.
type Registry<'a> = RegistryFolder<SystemFolder<'a>>;

impl Session<'_> {
    /// Adds the insertions of standard input, all of them or none, and prints the index of the first one and the new length.
    pub fn publish(&self, asked: &ArgMatches<'_>) -> Result<(), Refusal> {
        let _lock = self.lock()?;
        let registry = RegistryFolder::open(self.rt.alloc(), self.files()?);
        self.publish_in(&mut self.opened(registry)?, asked)
    }

    fn publish_in(
        &self,
        registry: &mut Registry<'_>,
        asked: &ArgMatches<'_>,
    ) -> Result<(), Refusal> {
        let first = length_of(asked, &registry.checkpoint())?;
        let insertions = self.read_insertions()?;
        let borrowed: Vec<(&[u8], &[u8])> = insertions
            .iter()
            .map(|(key, value)| (key.as_slice(), value.as_slice()))
            .collect(self.rt.alloc())?;
        self.done(registry.publish(borrowed.as_slice()))?;
        self.say_added(first, registry.checkpoint().length())
    }

    // The insertions of standard input.
    fn read_insertions(&self) -> Result<Vec<(Vec<u8>, Vec<u8>)>, Refusal> {
        let mut insertions = Vec::new(self.rt.alloc());
        let mut lines = Lines::new(self.rt)?;
        let mut counted = Counted(self.rt, 0);
        for _ in 0..u64::MAX {
            let Some(insertion) = lines.next_insertion()? else {
                break;
            };
            insertions.push(insertion)?;
            counted.step();
        }
        Ok(insertions)
    }

    /// Prints what the registry has under a key, with its proof.
    pub fn print_key(&self, asked: &ArgMatches<'_>) -> Result<(), Refusal> {
        let alloc = self.rt.alloc();
        let key = word_in(alloc, text(asked, "KEY").as_bytes())?;
        let fault = "a key is two hexadecimal digits for each byte, or - for no bytes";
        let key = key.ok_or(Refusal::Argument(fault.into()))?;
        let found = said_of(alloc, &self.look_up(key.as_slice())?)?;
        said(println!(self.rt; "{found}"))
    }

    fn look_up(&self, key: &[u8]) -> Result<KeyInRegistry, Refusal> {
        let registry = RegistryReader::open(self.rt.alloc(), self.files()?);
        self.done(self.opened(registry)?.get(key))
    }
}

// What a registry has under a key, in lines, the last of them a bundle of one proof.
fn said_of(alloc: Global, found: &KeyInRegistry) -> Result<String, AllocError> {
    let (mut proofs, mut absences) = (Vec::new(alloc), Vec::new(alloc));
    let found = match found {
        KeyInRegistry::Held(index, value, peers) => {
            proofs.push(proof(alloc, peers.as_slice())?)?;
            let mut value = hex::encode(alloc, value.as_slice())?;
            if value.is_empty() {
                value.push('-')?;
            }
            format!(in alloc; "value {value}\nindex {index}")?
        }
        KeyInRegistry::Absent(peers) => {
            absences.push(proof(alloc, peers.as_slice())?)?;
            String::from_str(alloc, "absent")?
        }
    };
    let bundle = MapProofBundle { proofs, absences };
    let proof = hex::encode(alloc, bundle.encode(alloc)?.as_slice())?;
    format!(in alloc; "{found}\nproof {proof}")
}

fn proof(alloc: Global, peers: &[Option<Hash<Sha256>>]) -> Result<MapInclusionProof, AllocError> {
    let mut hashes = Vec::new(alloc);
    'peers: for peer in peers {
        let hash = match peer {
            Some(peer) => Some(Vec::from_slice(alloc, peer.bytes())?),
            None => None,
        };
        hashes.push(OptionalHash { hash })?;
    }
    Ok(MapInclusionProof { hashes })
}
