//! The program's command line.

use clap::{Arg, ArgMatches, Command, arg, value_parser};
use std::alloc::{AllocError, Global};

const ABOUT: &str =
    "Keeps a transparency log, or a registry, in a folder, as files that any web server serves.";

const AFTER: &str = "\
Example: warg_tlog init log example.com/log && printf '6f6e65\\n74776f\\n' | warg_tlog append log && warg_tlog prove log 1

The exit status is 0 where all went well and 1 for a claim that verify finds false. What refuses a command is one line on
standard error, with a status of its own: 2 wrong arguments, 3 bad standard input, 4 no log there, 5 a log there already, 6
another run holds the lock, 7 no such entry or length, 8 a file that is missing or corrupt, 9 another checkpoint than the
log's, 10 a full disk, 11 a file that can't be written, 12 one that can't be read, 13 memory ran out, 14 the log is full, 15 a
registry where a log without a map is asked for, or the reverse.";

// The commands, in the order of the help: after a star a command's name, its arguments and what it does, and below that what
// its own help adds.
const COMMANDS: &str = "
* init FOLDER ORIGIN map: Makes a log of no entries
* append FOLDER from every binary: Adds entries
Reads entries on standard input, a line of hexadecimal digits each; an empty line is the entry of no bytes, and 65,535 bytes
are the most. Prints the index of the first entry and the new length. All entries are added or none, whatever happens to the
machine; with --every, all of each commit.
* publish FOLDER from: Adds insertions to a registry
Reads insertions on standard input, a line KEY VALUE of hexadecimal digits each, where - stands for no bytes; a key and its
value have at most 65,519 bytes together. Prints the index of the first one and the new length. All insertions are added or
none, whatever happens to the machine.
* sign FOLDER: Serves a signed checkpoint
Reads a signed note on standard input: what warg_tlog checkpoint FOLDER prints, an empty line, and signatures. From then on the
folder serves this checkpoint until another is signed, while appends go on.
* prune FOLDER: Removes partial tiles whose full one is there, and pages of a map that nothing needs
* rebuild FOLDER: Makes each tile again from the bundles, if these lead to the checkpoint's root
* page FOLDER: Puts index.html there, which shows the log in a browser and checks what it shows
* checkpoint FOLDER: Prints the checkpoint, once the right edge of the log leads to its root
* prove FOLDER INDEX LENGTH: Prints an entry's inclusion path, a line of digits for each digest
* consistency FOLDER OLD NEW: Prints the path from an old length, a line of digits for each digest
* get FOLDER KEY: Prints what a registry has under a key, with the proof of it
Prints the value in hexadecimal digits, the index of its insertion, and the proof: the bundle of it that warg_verdict key
takes with --hex. Or prints that the key is absent, and the proof that warg_verdict absent takes.
* verify: Says whether the path on standard input shows the claim above it
The first line of standard input is the claim:
  inclusion INDEX LENGTH ROOT           and then a line with the entry's hexadecimal digits
  consistency OLD OLD_ROOT NEW NEW_ROOT
The path follows, a line of 64 hexadecimal digits for each digest, as prove and consistency write it. A root is as in a
checkpoint, or 64 hexadecimal digits. Prints true or false, with the exit status 0 or 1.
* audit FOLDER: Reads every entry and a map's pages, makes each tile again, and says what differs";

/// The text of an argument that the command line requires.
pub fn text<'a>(asked: &ArgMatches<'a>, name: &str) -> &'a str {
    asked.get_str(name).unwrap_or("")
}

/// The command line.
pub fn command<'a>(alloc: Global) -> Result<Command<'a>, AllocError> {
    let mut command = Command::new(alloc, "warg_tlog")
        .version("0.9.2-rattle.1")
        .about(ABOUT)
        .after_help(AFTER)
        .subcommand_required(true);
    for text in COMMANDS.split("\n* ").skip(1) {
        command = command.subcommand(subcommand(alloc, text)?)?;
    }
    Ok(command)
}

fn subcommand<'a>(alloc: Global, text: &'static str) -> Result<Command<'a>, AllocError> {
    let (line, more) = text.split_once('\n').unwrap_or((text, ""));
    let (words, about) = line.split_once(": ").unwrap_or((line, ""));
    let mut words = words.split(' ');
    let mut command = Command::new(alloc, words.next().unwrap_or("")).about(about);
    if !more.is_empty() {
        command = command.after_help(more);
    }
    for word in words {
        command = command.arg(argument(alloc, word))?;
    }
    Ok(command)
}

fn argument<'a>(alloc: Global, name: &str) -> Arg<'a> {
    match name {
        "FOLDER" => arg!(in alloc; <FOLDER> "The log's folder"),
        "ORIGIN" =>
            arg!(in alloc; <ORIGIN> "The log's name in its checkpoints, as example.com/log"),
        "KEY" => arg!(in alloc; <KEY> "The key's hexadecimal digits, or - for no bytes"),
        "INDEX" => count(arg!(in alloc; <INDEX> "The entry's index, from 0")),
        "LENGTH" => count(arg!(in alloc; [LENGTH] "The log's length, if not the checkpoint's")),
        "OLD" => count(arg!(in alloc; <OLD> "The old length, from 1")),
        "NEW" => count(arg!(in alloc; [NEW] "The new length, if not the checkpoint's")),
        _ => option(alloc, name),
    }
}

fn option<'a>(alloc: Global, name: &str) -> Arg<'a> {
    match name {
        "map" => arg!(in alloc; --map "Makes a registry: a log of insertions, with their map"),
        "from" => arg!(in alloc; --from <"LENGTH:ROOT"> "The checkpoint that the log has to be at"),
        "every" => count(arg!(in alloc; --every <N> "Commits every N entries, and at the end")),
        _ =>
            arg!(in alloc; --binary "Reads entries as bundles have them, each after two bytes of length"),
    }
}

// An argument that is a number.
fn count(argument: Arg<'_>) -> Arg<'_> {
    argument.value_parser(value_parser!(usize))
}
