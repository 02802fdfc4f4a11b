//! Measures the calls whose figures docs/BENCHMARKS.md has, beside one hash of a branch in the same run.
//!
//! `warg_bench measure` prints what each call takes, and `warg_bench growth` how that grows with a log's entries and a
//! map's keys. `warg_bench PART CALL TIMES` makes one call of a part so often, and prints nothing: what callgrind counts
//! of it is in `scripts/bench_counts.py`. With no argument it measures nothing.
#![tactic(auto)]

mod bench;
mod bundles;
mod logs;
mod maps;
mod pages;
mod verdicts;

use crate::bench::{Bench, Only};
use anyhow::{Result, bail};
use std::alloc::Global;
use std::env;

type Entry = [u8; 32];

const ENTRIES: usize = 100_000;

fn main(rt: HostRuntime) -> Result<()> {
    let words = env::args(&rt)?;
    let words: Vec<String> = words.skip(1).collect(rt.alloc())?;
    match words.as_slice() {
        [] => Ok(()),
        [word] if word.as_str() == "measure" => measure(&Bench::of_all(&rt)?),
        [word] if word.as_str() == "growth" => growth(&Bench::of_all(&rt)?),
        [part, call, times] => {
            let Ok(times) = times.as_str().parse() else {
                bail!("no number of times");
            };
            let call = call.as_str();
            one_part(part.as_str(), &Bench::of_one(&rt, Only { call, times }))
        }
        _ => bail!("usage: warg_bench [measure | growth | PART CALL TIMES]"),
    }
}

// Measures each call, one part after the other.
fn measure(bench: &Bench<'_>) -> Result<()> {
    logs::measure(bench, ENTRIES)?;
    maps::measure(bench, 1_000)?;
    maps::measure(bench, 10_000)?;
    pages::measure(bench, 100_000, 10_000)?;
    bundles::measure(bench)?;
    verdicts::measure(bench)
}

// Measures how calls grow with entries and keys.
fn growth(bench: &Bench<'_>) -> Result<()> {
    for count in [1_000usize, 10_000, 100_000, 1_000_000] {
        logs::measure(bench, count)?;
        maps::measure(bench, count)?;
    }
    Ok(())
}

fn one_part(part: &str, bench: &Bench<'_>) -> Result<()> {
    match part {
        "logs" => logs::measure(bench, ENTRIES),
        "maps" => maps::measure(bench, 1_000),
        "more maps" => maps::measure(bench, 10_000),
        "pages" => pages::measure(bench, 100_000, 10_000),
        "bundles" => bundles::measure(bench),
        "verdicts" => verdicts::measure(bench),
        _ => bail!("no part of this name"),
    }
}

// Entries of 32 bytes, all different.
fn entries(alloc: Global, count: usize) -> Result<Vec<Entry>> {
    let mut list = Vec::new(alloc);
    for number in 0..count {
        list.push(entry(number))?;
    }
    Ok(list)
}

fn entry(number: usize) -> Entry {
    let mut entry = [7u8; 32];
    entry[..8].copy_from_slice(&number.to_le_bytes());
    entry
}
