//! The program: lines of commands in, lines of answers out.

ghost use Rattle.std.specs.Prelude.{◌≡◌, ◌≢◌, ◌↔◌, ◌⊎◌, Ok, Err, true, false, IfSome, IfOk, IfErr, OnOk};
ghost use Rattle.std.specs.Io.KnownBytes.{Appends};
ghost use Rattle.std.specs.Process.{exit_status};
ghost use Rattle.warg_program.specs.Words.{lines_of};
ghost use Rattle.warg_program.specs.Text.{text_of, all_good, MeetsFull, HasText};
ghost use Rattle.warg_program.specs.declared.program.RunError.TheVariants.{Memory};

use crate::session::answers;
use std::alloc::{AllocError, AllocFailed, Allocator};
use std::io::{Read, Write};
use std::process::ExitCode;
use thiserror::Error;

/// Why a run ended before its text was written.
#[derive(Debug, PartialEq, Eq, Drop, Error)]
pub enum RunError {
    /// A read failed, or 2^64 - 1 reads met no end.
    #[error("read failed")]
    Read,
    /// A write or a flush failed, or a write took no byte.
    #[error("write failed")]
    Write,
    /// Memory was refused.
    #[error("out of memory")]
    Memory,
    /// A push found a log of 2^63 entries, or an insertion of a new key digest a map of 2^64 - 1.
    #[error("log or map is full")]
    Full,
}

impl From<AllocError> for RunError {
    ghost from_gives = { λ _ e. e ≡ Memory };

    fn from(_error: AllocError) -> RunError {
        RunError::Memory
    }
}

/// Reads all the input, forms the whole text, writes it and flushes.
///
/// It returns whether every line was good. The commands:
///
/// | line | answer |
/// |---|---|
/// | `push BYTES` | `node N`, the new leaf's node |
/// | `log` | `log LENGTH ROOT` |
/// | `include NODE LENGTH BYTES` | `root ROOT`, or `refused leaf too new` or `refused hash not known` |
/// | `consistent OLD NEW` | `roots ROOT ROOT`, the old one first, or `refused` and why not |
/// | `bundle NODE LENGTH` | `bundle BYTES`, the bundle of that inclusion proof alone, or `refused` and why not |
/// | `verify ROOT VALUE BUNDLE` | `true` or `false`, or `refused` and why not |
/// | `insert KEY VALUE` | `len N`, the count of keys |
/// | `map` | `map LEN ROOT` |
/// | `prove KEY VALUE` | `root ROOT`, to which the key's proof leads from the value, or `absent` |
/// | `absent KEY` | `empty ROOT`, to which the key's absence leads, or `refused present` |
///
/// A line that isn't one of these is answered by `bad line N`, N from 1, and nothing after it is read as
/// a command. Empty lines are counted and not answered. BYTES is `-` for no bytes, or hexadecimal digits; KEY,
/// VALUE and BUNDLE are BYTES. Numbers are decimal, and LENGTH, OLD and NEW at most 2^63. ROOT has 64 hexadecimal
/// digits. `verify` judges the first inclusion proof in the bundle. `bundle` is refused as `leaf too new`, then as
/// `too large` where LENGTH is above `u32::MAX`, then as `hash not known`, and then as `too large` where a node's
/// number is above it. To `absent` a key with a value without bytes counts as one that isn't held.
///
/// On `Read`, `Memory` and `Full` nothing was written; on `Write` some of the text may be.
pub fn run<A: Allocator + Copy, R: Read, W: Write>(
    alloc: A,
    reader: &mut R,
    writer: &mut W,
) -> Result<bool, RunError>
    ensures text { OnOk result (IfSome (R.remaining reader.old)
        (λ input. Appends (W.contents writer.old) (W.contents writer.new) (text_of input))) }
    ensures good { IfOk result (λ good. IfSome (R.remaining reader.old)
        (λ input. good ≡ all_good (lines_of input))) }
    ensures unwritten { IfErr result (λ error. error ≢ RunError.Write → writer.new ≡ writer.old) }
    ensures full { result ≡ Err RunError.Full → IfSome (R.remaining reader.old) MeetsFull }
    ensures room { HasText result → IfSome (R.remaining reader.old) (λ input. ¬ MeetsFull input) }
{
    let input = read_all(alloc, reader)?;
    let (text, good) = answers(alloc, input.as_slice())?;
    if writer.write_all(text.as_bytes()).is_err() || writer.flush().is_err() {
        return Err(RunError::Write);
    }
    Ok(good)
}

/// The exit status after a run: 0 where every line was good, 1 where one was bad, 2 where a read or a write failed, and 3
/// where memory was refused or a log or map is full.
pub fn exit_code(ended: Result<bool, RunError>) -> ExitCode
    ensures good { (exit_status result ≡ 0) ↔ (ended ≡ Ok true) }
    ensures bad { (exit_status result ≡ 1) ↔ (ended ≡ Ok false) }
    ensures device { (exit_status result ≡ 2)
        ↔ ((ended ≡ Err RunError.Read) ⊎ (ended ≡ Err RunError.Write)) }
    ensures want { (exit_status result ≡ 3) ↔
        ((ended ≡ Err RunError.Memory) ⊎ (ended ≡ Err RunError.Full)) }
{
    match ended {
        Ok(true) => ExitCode::from(0),
        Ok(false) => ExitCode::from(1),
        Err(RunError::Read | RunError::Write) => ExitCode::from(2),
        Err(RunError::Memory | RunError::Full) => ExitCode::from(3),
    }
}

// All that a reader gives up to its end. An error of a read isn't tried again.
fn read_all<A: Allocator, R: Read>(alloc: A, reader: &mut R) -> Result<Vec<u8, A>, RunError>
    ensures bytes { IfOk result (λ bytes. IfSome (R.remaining reader.old)
        (λ input. bytes.items ≡ input)) }
    ensures errors { IfErr result (λ error. (error ≢ RunError.Write) × (error ≢ RunError.Full)) }
{
    let mut bytes = Vec::new(alloc);
    let mut buffer = [0u8; 8192];
    for _ in 0..u64::MAX {
        match reader.read(&mut buffer) {
            Ok(0) => return Ok(bytes),
            Ok(count) => bytes.extend_from_slice(&buffer[..count])?,
            Err(_) => return Err(RunError::Read),
        }
    }
    Err(RunError::Read)
}
