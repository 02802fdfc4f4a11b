//! `warg_tlog`: a transparency log, or a registry, in a folder, as files that any web server serves (C2SP tlog-tiles,
//! tlog-checkpoint). The exit status is 0 where all went well, 1 for a claim that `verify` finds false, and else that of the
//! refusal, which is one line on standard error.
#![tactic(auto)]

mod lines;
mod log;
mod refusal;
mod registry;
mod session;
mod usage;
mod verify;

use clap::ArgMatches;
use refusal::{Refusal, said};
use session::Session;
use std::env;
use std::io::ErrorKind;
use std::process::ExitCode;
use usage::{command, text};
use verify::verify;

fn main(rt: HostRuntime) -> ExitCode {
    match answer(&rt) {
        Ok(verdict) => ExitCode::from(if verdict { 0 } else { 1 }),
        Err(refusal) => {
            let _ = eprintln!(rt; "warg_tlog: {refusal}{}", refusal.rest());
            ExitCode::from(refusal.status())
        }
    }
}

// Does what the arguments ask for. False where a claim is.
fn answer(rt: &HostRuntime) -> Result<bool, Refusal> {
    let words = commandline(rt)?;
    match command(rt.alloc())?.try_get_matches_from(words.as_slice()) {
        Ok(matches) => run_command(rt, &matches),
        Err(error) if error.use_stderr() => Err(Refusal::of_arguments(rt.alloc(), &error)?),
        Err(help) => said(help.print(rt)).map(|()| true),
    }
}

// The words of the command line, the program's name first.
fn commandline(rt: &HostRuntime) -> Result<Vec<String>, Refusal> {
    let words = env::args(rt).map_err(|error| match error.kind() {
        ErrorKind::InvalidData => Refusal::Argument("an argument isn't UTF-8".into()),
        _ => Refusal::of("the command line", error, true),
    })?;
    Ok(words.collect::<Vec<String>>(rt.alloc())?)
}

// Does what a command asks for. False where a claim is.
fn run_command(rt: &HostRuntime, matches: &ArgMatches<'_>) -> Result<bool, Refusal> {
    let Some((name, asked)) = matches.subcommand() else {
        return Ok(true);
    };
    if name == "verify" {
        return verify(rt);
    }
    run(&Session::new(rt, text(asked, "FOLDER"))?, name, asked)?;
    Ok(true)
}

// Does what a command on a folder asks for.
fn run(session: &Session<'_>, name: &str, asked: &ArgMatches<'_>) -> Result<(), Refusal> {
    match name {
        "init" => session.init(asked),
        "append" => session.append(asked),
        "publish" => session.publish(asked),
        "sign" => session.sign(),
        "prune" => session.prune(),
        "rebuild" => session.rebuild(),
        "page" => session.put_page(),
        "checkpoint" => session.print_checkpoint(),
        "prove" => session.print_inclusion(asked),
        "consistency" => session.print_consistency(asked),
        "get" => session.print_key(asked),
        _ => session.audit(),
    }
}
