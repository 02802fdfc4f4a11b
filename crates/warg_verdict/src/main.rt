//! `warg_verdict`: a verdict on one proof in a bundle or one path, for scripts.
//!
//! It prints `true`, `false`, with `-v` also why, or why the evidence is refused; with `convict`, whether the claim is true of
//! entries or insertions, or two byte strings of one digest. The exit status is 0 for true, 1 for false or two byte strings, 2
//! for evidence that is refused or isn't met, and 3 for anything else: wrong arguments, a file that can't be read, memory that
//! ran out.
#![tactic(auto)]

mod claim;
mod convict;
mod given;
mod reason;
mod usage;
mod world;

ghost use Rattle.std.specs.Prelude.{◌≡◌, ◌↔◌, IsTrue};
ghost use Rattle.std.specs.Process.{exit_status};

use anyhow::{Result, anyhow};
use claim::{Claim, Evidence};
use clap::ArgMatches;
use convict::convict;
use given::{is_on_standard_input, standard_input};
use reason::reason;
use std::env;
use std::process::ExitCode;
use usage::command;
use warg_check::CheckError;
use warg_crypto::Sha256;
use warg_witness::Finding;

fn main(rt: HostRuntime) -> ExitCode {
    match judge(&rt) {
        Ok(status) => status,
        Err(error) => {
            let _ = eprintln!(rt; "warg_verdict: {error:#}");
            ExitCode::from(3)
        }
    }
}

// Reads the arguments, and prints what they ask for.
fn judge(rt: &HostRuntime) -> Result<ExitCode> {
    let words = env::args(rt)?.collect::<Vec<String>>(rt.alloc())?;
    match command(rt.alloc())?.try_get_matches_from(words.as_slice()) {
        Ok(matches) => answer(rt, &matches),
        Err(error) => {
            error.print(rt)?;
            let is_help = error.exit_code() == 0;
            Ok(ExitCode::from(if is_help { 0 } else { 3 }))
        }
    }
}

fn answer(rt: &HostRuntime, matches: &ArgMatches<'_>) -> Result<ExitCode> {
    match matches.subcommand() {
        Some(("convict", of)) => match of.subcommand() {
            Some((name, asked)) => answer_conviction(rt, name, asked),
            None => Ok(ExitCode::from(3)),
        },
        Some((name, asked)) => answer_verdict(rt, name, asked),
        None => Ok(ExitCode::from(3)),
    }
}

fn answer_verdict(rt: &HostRuntime, name: &str, asked: &ArgMatches<'_>) -> Result<ExitCode> {
    let claim = Claim::of(rt, name, asked)?;
    let evidence = Evidence::of(rt, name, asked)?;
    tell_verdict(rt, &claim, &evidence, asked.get_flag("verbose"))
}

// Prints the verdict on a claim, or why the evidence is refused.
fn tell_verdict(
    rt: &HostRuntime,
    claim: &Claim,
    evidence: &Evidence,
    is_verbose: bool,
) -> Result<ExitCode> {
    match claim.verdict(rt.alloc(), evidence) {
        Ok(false) if is_verbose => {
            let reason = reason(rt.alloc(), claim, evidence)?;
            println!(rt; "false: {reason}")?;
            Ok(status_of(false))
        }
        Ok(verdict) => {
            println!(rt; "{verdict}")?;
            Ok(status_of(verdict))
        }
        Err(refusal) => refused(rt, refusal),
    }
}

fn answer_conviction(rt: &HostRuntime, name: &str, asked: &ArgMatches<'_>) -> Result<ExitCode> {
    if is_on_standard_input(asked)? {
        return Err(anyhow!(
            "standard input has the entries or insertions, and can't have the evidence, too"
        ));
    }
    let claim = Claim::of(rt, name, asked)?;
    let evidence = Evidence::of(rt, name, asked)?;
    tell_conviction(rt, &claim, &evidence)
}

// Prints what evidence with a true verdict shows of the entries or insertions on standard input.
fn tell_conviction(rt: &HostRuntime, claim: &Claim, evidence: &Evidence) -> Result<ExitCode> {
    let lines = String::from_utf8(standard_input(rt)?)?;
    match claim.verdict(rt.alloc(), evidence) {
        Ok(true) => tell(rt, &convict(rt, claim, evidence, &lines)?),
        Ok(false) => {
            println!(rt; "not met: the verdict is false")?;
            Ok(ExitCode::from(2))
        }
        Err(refusal) => refused(rt, refusal),
    }
}

// Prints what was found where the verdict is true.
fn tell(rt: &HostRuntime, found: &Finding<Sha256>) -> Result<ExitCode> {
    match found {
        Finding::Holds => {
            println!(rt; "true of them")?;
            Ok(ExitCode::from(0))
        }
        Finding::Collision(pair) => {
            tell_bytes(rt, pair.first())?;
            tell_bytes(rt, pair.second())?;
            Ok(ExitCode::from(1))
        }
        Finding::NotMet => {
            println!(rt; "not met: another length or root")?;
            Ok(ExitCode::from(2))
        }
    }
}

fn tell_bytes(rt: &HostRuntime, bytes: &[u8]) -> Result<()> {
    let digits = hex::encode(rt.alloc(), bytes)?;
    println!(rt; "{digits}")?;
    Ok(())
}

// Prints why evidence is refused.
fn refused(rt: &HostRuntime, refusal: CheckError) -> Result<ExitCode> {
    if let CheckError::Memory = refusal {
        return Err(CheckError::Memory.into());
    }
    println!(rt; "refused: {refusal}")?;
    Ok(ExitCode::from(2))
}

// The exit status that tells a verdict.
fn status_of(verdict: bool) -> ExitCode
    ensures yes { (exit_status result ≡ 0) ↔ IsTrue verdict }
    ensures no { (exit_status result ≡ 1) ↔ ¬ (IsTrue verdict) }
{
    ExitCode::from(if verdict { 0 } else { 1 })
}
