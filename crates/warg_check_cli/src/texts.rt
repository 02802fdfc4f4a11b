//! What the program says of itself.

/// What an argument prints: `None` for a word that is none of the program's arguments.
pub fn text_of(word: &str) -> Option<&'static str> {
    match word {
        "--help" | "-h" => Some(HELP),
        "--version" | "-V" => Some(VERSION),
        _ => None,
    }
}

/// What a terminal is told before a run.
pub const HINT: &str =
    "warg_check: reads commands from standard input until its end; see warg_check --help";

/// What is said beside the answer that bytes are no bundle.
pub const NOT_DECODED: &str =
    "warg_check: not decoded: the last word of `verify` is to be a bundle, a message with proofs and their digests, as `bundle` prints it";

const VERSION: &str = "warg_check 0.9.2-rattle.1\n";

const HELP: &str = "\
warg_check: a transparency log and a verifiable map, by commands.

Usage: warg_check < COMMANDS

Reads all of standard input, a command on each line, and then writes an answer for each line on standard output.

  push BYTES                 node N: the new leaf's node
  log                        log LENGTH ROOT
  include NODE LENGTH BYTES  root ROOT: where the node's inclusion proof leads with this entry
  consistent OLD NEW         roots ROOT ROOT: where the consistency proof leads, the old root first
  bundle NODE LENGTH         bundle BYTES: that inclusion proof with its digests
  verify ROOT VALUE BUNDLE   true or false: whether the bundle's first inclusion proof leads from VALUE to ROOT
  insert KEY VALUE           len N: the number of keys
  map                        map LEN ROOT
  prove KEY VALUE            root ROOT: where the key's proof leads with this value; or absent
  absent KEY                 empty ROOT: where the key's absence leads; or refused present

BYTES, KEY, VALUE and BUNDLE are hexadecimal digits, or - for no bytes. ROOT is 64 hexadecimal digits. Numbers are
decimal, and leaf I, counted from 0, is node 2 * I. A command that cannot be answered is answered by refused and the
reason. A line that is no command is answered by bad line N, and nothing behind it is read. Empty lines are counted,
and not answered.

Example: printf 'push 6f6e65\\npush 74776f\\nlog\\n' | warg_check

Arguments: --help (-h) prints this, --version (-V) the version.

Status: 0 if every line was good, 1 if one was bad, 2 if an argument is wrong or a read or a write failed, 3 if memory
ran out or a log or map is full. Statuses 2 and 3 come with a line on standard error.
";
