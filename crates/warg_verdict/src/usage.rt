//! The program's command line.

use clap::{Arg, ArgAction, Command};
use std::alloc::{AllocError, Global};

const ABOUT: &str = "Says whether a proof in a bundle, or a path, shows a claim.";

const AFTER: &str = "\
A bundle is a message with proofs of one log or one map, and the digests that they need: what `bundle` of warg_check prints,
and inclusion_bytes, growth_bytes and key_bytes of the libraries give. A path is its digests, 32 bytes each. VALUE and KEY are
text:TEXT, hex:DIGITS or file:PATH. ROOT is 64 hexadecimal digits.

Prints true, false, or refused and why; with -v why it is false: the proof is of another length or another index, or leads
to another root. The exit status is 0 for true, 1 for false, 2 for a refused bundle, 3 for anything else.

Example: warg_verdict entry proof.bundle --length 2 --root \"$ROOT\" --index 1 --value text:two && echo logged";

const CONVICT: &str =
    "Says whether a claim with a true verdict is true of the entries or insertions on standard input, or prints two byte strings of one digest";

const CONVICT_AFTER: &str = "\
Reads a line for each entry, in hexadecimal digits, or - for no bytes; of a map for each insertion, its key and its value. Of
two logs or two maps the old ones stand first, then an empty line, and then the new ones.

Prints `true of them`; or two lines of hexadecimal digits, different byte strings with one SHA-256 digest; or `not met` and
why: the verdict is false, or they have another length or root; or refused and why. The exit status is 0 for true of them, 1
for two byte strings, 2 for not met and refused, 3 for anything else.";

// A claim's command: its name, what it says, what is to show the claim, and the options that make it.
struct Asked {
    name: &'static str,
    about: &'static str,
    evidence: &'static [Taken],
    options: &'static [Taken],
}

// An argument: its kind, its name, what its value is called, and what it is.
type Taken = (Kind, &'static str, &'static str, &'static str);

#[derive(Clone, Copy)]
enum Kind {
    // A word in its place.
    Word,
    // An option that is required.
    Option,
    // An option with a number, 0 where it is left out.
    Place,
    Flag,
    // A flag with a letter of its own.
    Short(char),
}

const BUNDLE: [Taken; 2] = [
    (
        Kind::Word,
        "evidence",
        "BUNDLE",
        "The bundle's file, or - for standard input",
    ),
    (
        Kind::Place,
        "at",
        "PLACE",
        "The proof's place among those of its kind, from 0",
    ),
];

const PATH: [Taken; 1] = [(
    Kind::Word,
    "evidence",
    "PATH",
    "The path's file, or - for standard input",
)];

const HEX: Taken = (
    Kind::Flag,
    "hex",
    "",
    "The bundle or path is hexadecimal digits, a bundle's behind the word bundle or alone",
);

const VERBOSE: Taken = (Kind::Short('v'), "verbose", "", "Says behind false why");

const ENTRY: [Taken; 4] = [
    (Kind::Option, "length", "NUMBER", "The log's length"),
    (Kind::Option, "root", "ROOT", "The log's root"),
    (Kind::Option, "index", "NUMBER", "The entry's index, from 0"),
    (Kind::Option, "value", "VALUE", "The entry"),
];

const GROWTH: [Taken; 4] = [
    (Kind::Option, "old-length", "NUMBER", "The old log's length"),
    (Kind::Option, "old-root", "ROOT", "The old log's root"),
    (Kind::Option, "new-length", "NUMBER", "The new log's length"),
    (Kind::Option, "new-root", "ROOT", "The new log's root"),
];

const CLAIMS: [Asked; 8] = [
    Asked {
        name: "entry",
        about: "Whether the log of this length and root has the value at the index",
        evidence: &BUNDLE,
        options: &ENTRY,
    },
    Asked {
        name: "entry-path",
        about: "The same, by an inclusion path",
        evidence: &PATH,
        options: &ENTRY,
    },
    Asked {
        name: "growth",
        about: "Whether the old log is a beginning of the new one",
        evidence: &BUNDLE,
        options: &GROWTH,
    },
    Asked {
        name: "growth-path",
        about: "The same, by a consistency path",
        evidence: &PATH,
        options: &GROWTH,
    },
    Asked {
        name: "key",
        about: "Whether the map with this root holds the value under the key",
        evidence: &BUNDLE,
        options: &[
            (Kind::Option, "root", "ROOT", "The map's root"),
            (Kind::Option, "key", "KEY", "The key"),
            (Kind::Option, "value", "VALUE", "The value under it"),
        ],
    },
    Asked {
        name: "absent",
        about: "Whether the map with this root holds nothing under the key, or no bytes",
        evidence: &BUNDLE,
        options: &[
            (Kind::Option, "root", "ROOT", "The map's root"),
            (Kind::Option, "key", "KEY", "The key"),
        ],
    },
    Asked {
        name: "update",
        about: "Whether the new map is the old one with the new value under the key in place of the old one",
        evidence: &BUNDLE,
        options: &[
            (Kind::Option, "old-root", "ROOT", "The old map's root"),
            (Kind::Option, "new-root", "ROOT", "The new map's root"),
            (Kind::Option, "key", "KEY", "The key"),
            (
                Kind::Option,
                "old-value",
                "VALUE",
                "The value under it in the old map",
            ),
            (
                Kind::Option,
                "new-value",
                "VALUE",
                "The value under it in the new map",
            ),
        ],
    },
    Asked {
        name: "insertion",
        about: "Whether the new map is the old one and the value under a key that had none, or no bytes",
        evidence: &BUNDLE,
        options: &[
            (Kind::Option, "old-root", "ROOT", "The old map's root"),
            (Kind::Option, "new-root", "ROOT", "The new map's root"),
            (Kind::Option, "key", "KEY", "The key"),
            (
                Kind::Option,
                "value",
                "VALUE",
                "The value under it in the new map",
            ),
        ],
    },
];

/// The command line: a verdict on each claim, and behind `convict` the same claims.
pub fn command<'a>(alloc: Global) -> Result<Command<'a>, AllocError> {
    let convict = Command::new(alloc, "convict")
        .about(CONVICT)
        .after_help(CONVICT_AFTER);
    let command = Command::new(alloc, "warg_verdict")
        .version("0.9.2-rattle.1")
        .about(ABOUT)
        .after_help(AFTER);
    with_claims(alloc, command, &[HEX, VERBOSE])?.subcommand(with_claims(alloc, convict, &[HEX])?)
}

// A command with one for each claim, which takes these flags, too.
fn with_claims<'a>(
    alloc: Global,
    of: Command<'a>,
    flags: &[Taken],
) -> Result<Command<'a>, AllocError> {
    let mut command = of.subcommand_required(true);
    for claim in &CLAIMS {
        command = command.subcommand(of_claim(alloc, claim, flags)?)?;
    }
    Ok(command)
}

fn of_claim<'a>(alloc: Global, claim: &Asked, flags: &[Taken]) -> Result<Command<'a>, AllocError> {
    let command = Command::new(alloc, claim.name).about(claim.about);
    let command = with_arguments(alloc, command, claim.evidence)?;
    let command = with_arguments(alloc, command, flags)?;
    with_arguments(alloc, command, claim.options)
}

fn with_arguments<'a>(
    alloc: Global,
    of: Command<'a>,
    arguments: &[Taken],
) -> Result<Command<'a>, AllocError> {
    let mut command = of;
    for taken in arguments {
        command = command.arg(argument(alloc, taken))?;
    }
    Ok(command)
}

fn argument<'a>(alloc: Global, taken: &Taken) -> Arg<'a> {
    let (kind, name, value, help) = *taken;
    let argument = Arg::new(alloc, name).help(help);
    match kind {
        Kind::Word => argument.value_name(value).required(true),
        Kind::Option => argument
            .long(name)
            .value_name(value)
            .allow_negative_numbers(true)
            .required(true),
        Kind::Place => argument
            .long(name)
            .value_name(value)
            .allow_negative_numbers(true)
            .default_value("0"),
        Kind::Flag => argument.long(name).action(ArgAction::SetTrue),
        Kind::Short(letter) => argument.long(name).short(letter).action(ArgAction::SetTrue),
    }
}
