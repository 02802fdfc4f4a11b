//! A client of a registry: reads what the registry printed, a line for each release, and says whether each is shown to
//! be in the registry's log. It keeps the last checkpoint under which all was true, and nothing else.
//!
//! A line has the release, the log's checkpoint, and a bundle as hexadecimal digits, separated by tabs.
#![tactic(auto)]

use anyhow::{Result, anyhow};
use std::alloc::Global;
use warg_check::{CheckError, check_entry, check_growth};
use warg_crypto::Sha256;
use warg_log::Checkpoint;

// A registry's log as a client sees it.
#[derive(Drop)]
struct Client {
    alloc: Global,
    last: Option<Checkpoint<Sha256>>,
}

fn main(rt: HostRuntime) -> Result<()> {
    let mut client = Client {
        alloc: rt.alloc(),
        last: None,
    };
    for line in rt.lines(rt.alloc()) {
        let line = line?;
        let words: Vec<&str> = line.split('\t').collect(rt.alloc())?;
        let [release, checkpoint, bundle] = words.as_slice() else {
            return Err(anyhow!("not three words"));
        };
        let checkpoint = checkpoint.parse::<Checkpoint<Sha256>>()?;
        let bytes = hex::decode(rt.alloc(), bundle)?;
        let is_shown = client.follow(checkpoint, release, bytes.as_slice())?;
        println!(rt; "{release}: {is_shown}")?;
    }
    Ok(())
}

impl Client {
    // Whether the bundle shows that the release is the last entry of the log with this checkpoint, and that the log of
    // the last checkpoint is a beginning of it. If so this checkpoint is the last one.
    fn follow(
        &mut self,
        checkpoint: Checkpoint<Sha256>,
        release: &str,
        bundle: &[u8],
    ) -> Result<bool, CheckError> {
        let index = checkpoint.length().saturating_sub(1);
        let is_last = check_entry(self.alloc, bundle, 0, index, &release, &checkpoint)?;
        let has_grown = match &self.last {
            Some(last) => check_growth(self.alloc, bundle, 0, last, &checkpoint)?,
            None => true,
        };
        if is_last && has_grown {
            self.last = Some(checkpoint);
        }
        Ok(is_last && has_grown)
    }
}
