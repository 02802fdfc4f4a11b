//! Messages of the wire, and runs of the program.

use crate::call::Call;
use crate::fault::{Answered, Fault, Promise};
use crate::memory::Memory;
use std::alloc::AllocError;
use warg_program::run as run_program;
use warg_protobuf as wire;
use warg_protobuf::WireError;

/// A message of the wire.
pub(super) trait Message<M: Memory>: Sized + Drop {
    fn decode(memory: M, bytes: &[u8]) -> Result<Self, WireError>;

    fn encode(&self, memory: M) -> Result<Vec<u8, M>, AllocError>;
}

/// Writes the bytes of the message that is read.
pub(super) fn wire<M: Memory, T: Message<M>>(call: &mut Call<'_, M>, bytes: &Vec<u8>) -> Answered {
    let message = call.made(T::decode(call.memory, bytes))?;
    let bytes = call.again(|memory| Ok(message.encode(memory)?))?;
    call.to.bytes(bytes.as_slice())
}

impl<M: Memory> Message<M> for wire::LogProofBundle<M> {
    fn decode(memory: M, bytes: &[u8]) -> Result<wire::LogProofBundle<M>, WireError> {
        wire::LogProofBundle::decode(memory, bytes)
    }

    fn encode(&self, memory: M) -> Result<Vec<u8, M>, AllocError> {
        wire::LogProofBundle::encode(self, memory)
    }
}

impl<M: Memory> Message<M> for wire::MapProofBundle<M> {
    fn decode(memory: M, bytes: &[u8]) -> Result<wire::MapProofBundle<M>, WireError> {
        wire::MapProofBundle::decode(memory, bytes)
    }

    fn encode(&self, memory: M) -> Result<Vec<u8, M>, AllocError> {
        wire::MapProofBundle::encode(self, memory)
    }
}

impl<M: Memory> Message<M> for wire::StackLog<M> {
    fn decode(memory: M, bytes: &[u8]) -> Result<wire::StackLog<M>, WireError> {
        wire::StackLog::decode(memory, bytes)
    }

    fn encode(&self, memory: M) -> Result<Vec<u8, M>, AllocError> {
        wire::StackLog::encode(self, memory)
    }
}

impl<M: Memory> Message<M> for wire::VecLog<M> {
    fn decode(memory: M, bytes: &[u8]) -> Result<wire::VecLog<M>, WireError> {
        wire::VecLog::decode(memory, bytes)
    }

    fn encode(&self, memory: M) -> Result<Vec<u8, M>, AllocError> {
        wire::VecLog::encode(self, memory)
    }
}

/// A run of the program on the whole input. Where it is refused, nothing is written.
pub(super) fn run<M: Memory>(call: &mut Call<'_, M>, input: &Vec<u8>) -> Answered {
    let mut writer = Vec::new(call.alloc());
    let good = run_on(call, input, &mut writer)?;
    call.to.show(&good)?;
    call.to.bytes(writer.as_slice())
}

fn run_on<M: Memory>(
    call: &Call<'_, M>,
    input: &[u8],
    writer: &mut Vec<u8>,
) -> Result<bool, Fault> {
    let mut reader = input;
    let ended = run_program(call.memory, &mut reader, writer);
    let is_kept = ended.is_ok() || writer.is_empty();
    Fault::unless(is_kept, Promise::NothingWritten)?;
    call.made(ended)
}
