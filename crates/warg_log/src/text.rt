//! Checkpoints as text: the length in decimal, a space, and the root's hexadecimal digits. And what `Debug` writes of logs.

use crate::decimal::decimal_in;
use crate::log::{Checkpoint, LogBuilder};
use crate::stack_log::StackLog;
use crate::vec_log::VecLog;
use std::alloc::Allocator;
use std::fmt;
use std::str::FromStr;
use thiserror::Error;
use warg_crypto::{Hash, SupportedDigest, VisitBytes};

/// The length in decimal, a space, and the root's 64 hexadecimal digits in lower case.
impl<D> fmt::Display for Checkpoint<D> {
    ghost use Rattle.std.specs.Prelude.{Some};
    ghost use Rattle.warg_log.specs.Text.{checkpoint_text};

    ghost output = { λ c. Some (checkpoint_text c) };

    fn fmt<W: fmt::Write>(&self, f: &mut fmt::Formatter<W>) -> fmt::Result {
        let length = self.length();
        let root = self.root();
        write!(f, "{length} {root}")
    }
}

/// Reads the text of [`Display`](fmt::Display), with digits of either case in the root, and refuses any other text with
/// [`BadCheckpoint`].
impl<D> FromStr for Checkpoint<D> {
    ghost use Rattle.warg_log.specs.Text.{SpellsCheckpoint};

    type Err = BadCheckpoint;

    ghost from_str_gives = { SpellsCheckpoint };

    fn from_str(text: &str) -> Result<Checkpoint<D>, BadCheckpoint> {
        let Some((length, root)) = text.split_once(' ') else {
            return Err(BadCheckpoint);
        };
        let Some(length) = decimal_in(length) else {
            return Err(BadCheckpoint);
        };
        match root.parse::<Hash<D>>() {
            Ok(root) => Ok(Checkpoint::new(root, length)),
            Err(_) => Err(BadCheckpoint),
        }
    }
}

/// The text is not a length in decimal, a space and 64 hexadecimal digits, and so no checkpoint.
#[derive(Clone, Copy, Debug, PartialEq, Eq, Error)]
#[error("checkpoint is not a length, a space and 64 hexadecimal digits")]
pub struct BadCheckpoint;

/// The log's checkpoint, as `VecLog(2 <digits>)`.
impl<D: SupportedDigest, V: VisitBytes, A: Allocator> fmt::Debug for VecLog<D, V, A> {
    ghost use Rattle.std.specs.Prelude.{Some, ◌++◌, codes, length};
    ghost use Rattle.warg_log.specs.Tree.{root_of};
    ghost use Rattle.warg_log.specs.Text.{checkpoint_text};

    ghost debug_output = { λ ds. Some (codes "VecLog("
        ++ checkpoint_text (record {
          root = root_of D.digest ds;
          length = length ds;
        }) ++ codes ")") };

    fn fmt<W: fmt::Write>(&self, f: &mut fmt::Formatter<W>) -> fmt::Result {
        let checkpoint = self.checkpoint();
        write!(f, "VecLog({checkpoint})")
    }
}

/// The log's checkpoint, as `StackLog(2 <digits>)`.
impl<D: SupportedDigest, V: VisitBytes, A: Allocator> fmt::Debug for StackLog<D, V, A> {
    ghost use Rattle.std.specs.Prelude.{None};

    ghost debug_output = { λ _. None };

    fn fmt<W: fmt::Write>(&self, f: &mut fmt::Formatter<W>) -> fmt::Result {
        let checkpoint = self.checkpoint();
        write!(f, "StackLog({checkpoint})")
    }
}
