//! What calls take.

use anyhow::{Result, bail};
use std::alloc::Global;
use std::time::Instant;
use warg_crypto::{Hash, Sha256, hash_branch};

// How many branches are hashed for the time of one.
const BRANCHES: usize = 200_000;

/// One call, which is made so many times without a clock.
#[derive(Clone, Copy)]
pub struct Only<'a> {
    pub call: &'a str,
    pub times: usize,
}

/// What is measured: all calls, or one.
#[derive(Drop)]
pub struct Bench<'a> {
    rt: &'a HostRuntime,
    only: Option<Only<'a>>,
    // The nanoseconds of one hash of a branch.
    branch: u128,
}

impl<'a> Bench<'a> {
    /// All calls are measured.
    pub fn of_all(rt: &'a HostRuntime) -> Result<Bench<'a>> {
        let start = Instant::now(rt)?;
        let is_last = hash_branches(BRANCHES);
        let branch = start.elapsed(rt)?.as_nanos() / BRANCHES as u128;
        println!(rt; "one hash of a branch: {branch} ns ({is_last})")?;
        Ok(Bench {
            rt,
            only: None,
            branch,
        })
    }

    /// One call is made, and nothing is printed.
    pub fn of_one(rt: &'a HostRuntime, only: Only<'a>) -> Bench<'a> {
        Bench {
            rt,
            only: Some(only),
            branch: 1,
        }
    }

    pub fn alloc(&self) -> Global {
        self.rt.alloc()
    }

    /// Makes a call so many times, each with its number, and prints the time of one, in branches, too. Each has to go well.
    pub fn calls<F: Fn(usize) -> bool + Drop>(
        &self,
        name: &str,
        count: usize,
        call: F,
    ) -> Result<()>
        requires { F.IsAlwaysCallable call }
    {
        self.pieces(name, count, 1, call)
    }

    /// The same of a call that does so many pieces at once: prints the time of a piece.
    pub fn pieces<F: Fn(usize) -> bool + Drop>(
        &self,
        name: &str,
        count: usize,
        pieces: usize,
        call: F,
    ) -> Result<()>
        requires { F.IsAlwaysCallable call }
    {
        let times = match self.only {
            Some(only) if only.call != name => return Ok(()),
            Some(only) => only.times,
            None => count,
        };
        let start = Instant::now(self.rt)?;
        let good = good_calls(times, call);
        let time = start.elapsed(self.rt)?.as_nanos();
        if good != times {
            bail!("{name}: {good} of {times} calls went well");
        }
        match self.only {
            Some(_) => Ok(()),
            None => self.print(name, time, count.saturating_mul(pieces)),
        }
    }

    // Prints the time of one of so many pieces.
    fn print(&self, name: &str, time: u128, pieces: usize) -> Result<()> {
        let each = share(time, pieces as u128);
        let thousandths = share(
            time.saturating_mul(1_000),
            self.branch.saturating_mul(pieces as u128),
        );
        println!(self.rt; "{name}: {each} ns, {thousandths} thousandths of a branch")?;
        Ok(())
    }

    /// Prints what is measured, with how many there are, unless one call alone is made.
    pub fn say(&self, what: &str, count: usize, of: &str) -> Result<()> {
        if self.only.is_none() {
            println!(self.rt; "{what} {count} {of}")?;
        }
        Ok(())
    }
}

// How many of so many calls go well.
fn good_calls<F: Fn(usize) -> bool + Drop>(count: usize, call: F) -> usize
    requires { F.IsAlwaysCallable call }
{
    let mut good = 0usize;
    for number in 0..count {
        if call(number) {
            good = good.saturating_add(1);
        }
    }
    good
}

/// What comes to each of so many.
pub fn share(sum: u128, among: u128) -> u128 {
    sum.checked_div(among).unwrap_or(0)
}

// Hashes branches, each of the one before.
fn hash_branches(count: usize) -> bool {
    let mut hash = Hash::<Sha256>::of(&());
    for _ in 0..count {
        hash = hash_branch(&hash, &hash);
    }
    hash.bytes().first() == Some(&0)
}
