//! `warg_check`: reads commands on standard input and writes their answers on standard output.
//!
//! The exit status is 0 if every line was good, 1 if one was bad, 2 if an argument is none of the program's or a read or
//! a write failed, and 3 if memory ran out or a log or map is full. Statuses 2 and 3 come with a line on standard error, and
//! so do a bad line that ends in a carriage return or a blank, and bytes that are no bundle.
#![tactic(auto)]

mod texts;
mod watched;

use std::env;
use std::io::{self, IsTerminal};
use std::process::ExitCode;
use texts::{HINT, NOT_DECODED, text_of};
use warg_program::{exit_code, run};
use watched::{WatchedInput, WatchedOutput};

fn main(rt: HostRuntime) -> ExitCode {
    match answer(&rt) {
        Ok(status) => status,
        Err(error) => refuse(&rt, &error),
    }
}

// Runs the commands of standard input, or does what an argument asks for. At most one is taken.
fn answer(rt: &HostRuntime) -> io::Result<ExitCode> {
    let words = env::args(rt)?.skip(1).collect::<Vec<String>>(rt.alloc())?;
    let unknown = match words.as_slice() {
        [] => {
            if rt.stdin().is_terminal() {
                let _ = rt.eprintln(HINT);
            }
            return Ok(answer_commands(rt));
        }
        [word] => match text_of(word.as_str()) {
            Some(text) => return rt.print(text).map(|()| ExitCode::SUCCESS),
            None => word,
        },
        [first, second, ..] if text_of(first.as_str()).is_some() => second,
        [first, ..] => first,
    };
    eprintln!(rt; "warg_check: no argument is called {unknown:?}; see warg_check --help")?;
    Ok(ExitCode::from(2))
}

// Runs the commands, and says on standard error what ended the run, and what its answers leave open.
fn answer_commands(rt: &HostRuntime) -> ExitCode {
    let mut input = WatchedInput::new(rt.stdin());
    let mut output = WatchedOutput::new(rt.stdout());
    let ended = run(rt.alloc(), &mut input, &mut output);
    if output.is_not_decoded {
        let _ = rt.eprintln(NOT_DECODED);
    }
    match (&ended, input.found()) {
        (Err(error), _) => {
            let _ = eprintln!(rt; "warg_check: {error}");
        }
        (Ok(false), Some((line, what))) => {
            let _ = eprintln!(rt; "warg_check: line {line} ends in {what}, and no command does");
        }
        _ => {}
    }
    exit_code(ended)
}

fn refuse(rt: &HostRuntime, error: &io::Error) -> ExitCode {
    let _ = eprintln!(rt; "warg_check: {error}");
    ExitCode::from(2)
}
