//! Checkpoint texts.

use crate::answer::Answer;
use crate::call::Call;
use crate::fault::{Answered, Fault};
use crate::memory::Memory;
use crate::words::Length;
use warg_crypto::{Hash, Sha256};
use warg_log::Checkpoint;
use warg_tiles::{CheckpointText, CheckpointTextError};

// A text in a call's memory.
type Text<M> = CheckpointText<Sha256, M>;

/// The text that says a length and a root of the log with an origin.
pub(super) fn checkpoint_text<M: Memory>(
    call: &mut Call<'_, M>,
    (origin, length, root): &(Vec<u8>, Length, Hash<Sha256>),
) -> Answered {
    let checkpoint = Checkpoint::new(root.copied(), length.value);
    let text = text_of(call, origin.as_slice(), checkpoint)?;
    call.write_bytes(text.write(call.memory))
}

fn text_of<M: Memory>(
    call: &Call<'_, M>,
    origin: &[u8],
    checkpoint: Checkpoint<Sha256>,
) -> Result<Text<M>, Fault> {
    match CheckpointText::new(call.memory, origin, checkpoint) {
        Err(CheckpointTextError::Origin) => Err(Fault::BadCall),
        text => call.made(text),
    }
}

/// What a text says, and what is behind it.
pub(super) fn read_checkpoint_text<M: Memory>(call: &mut Call<'_, M>, bytes: &Vec<u8>) -> Answered {
    let (text, behind) = call.made(Text::<M>::read(call.memory, bytes))?;
    write(&mut call.to, &text, behind.unwrap_or(b""))
}

fn write<M: Memory>(to: &mut Answer, text: &Text<M>, behind: &[u8]) -> Answered {
    let checkpoint = text.checkpoint();
    to.bytes(text.origin())?;
    to.show(&checkpoint.length())?;
    to.show(&checkpoint.root())?;
    to.list(text.extensions())?;
    to.bytes(behind)
}
