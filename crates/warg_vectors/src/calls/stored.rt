//! Values whose message stands alone: they are written, and read again, each where memory is refused once more.

use crate::call::Call;
use crate::fault::{Answered, Fault, Promise};
use crate::memory::Memory;
use warg_bundle::{LogProofBundle, MapProofBundle};
use warg_crypto::SupportedDigest;
use warg_log::{StackLog, VecLog};
use warg_protobuf::{DecodeError, EncodeError};

/// A bundle of the proofs of a log whose entries are lists of bytes.
pub(super) type LogBundle<D, M> = LogProofBundle<D, Vec<u8>, M>;

/// A bundle of the proofs of a map from bytes to bytes.
pub(super) type MapBundle<D, M> = MapProofBundle<D, Vec<u8>, Vec<u8>, M>;

/// A value whose message stands alone.
pub(super) trait Stored<M: Memory>: Sized + Drop {
    fn decode(memory: M, bytes: &[u8]) -> Result<Self, DecodeError>;

    fn encode(&self, memory: M) -> Result<Vec<u8, M>, EncodeError>;

    /// The value of the value's message.
    fn through_message(&self, memory: M) -> Result<Self, Fault>;
}

/// Reads a value's bytes, and writes them out of the value.
pub(super) fn read<M: Memory, T: Stored<M>>(call: &mut Call<'_, M>, bytes: &Vec<u8>) -> Answered {
    let value = call.made(T::decode(call.memory, bytes))?;
    write(call, &value)
}

/// Writes the value's bytes, which are those of the value of its message.
pub(super) fn write<M: Memory, T: Stored<M>>(call: &mut Call<'_, M>, value: &T) -> Answered {
    let other = call.again(|memory| value.through_message(memory))?;
    write_same(call, value, &other)
}

/// Writes the value's bytes, which the other value has to have too.
pub(super) fn write_same<M: Memory, T: Stored<M>>(
    call: &mut Call<'_, M>,
    value: &T,
    other: &T,
) -> Answered {
    let bytes = call.again(|memory| same_bytes(memory, value, other))?;
    call.to.bytes(bytes.as_slice())
}

// The bytes of the value, which the other value has to have too.
fn same_bytes<M: Memory, T: Stored<M>>(
    memory: M,
    value: &T,
    other: &T,
) -> Result<Vec<u8, M>, Fault> {
    let bytes = value.encode(memory)?;
    let others = other.encode(memory)?;
    Fault::unless(others.as_slice() == bytes.as_slice(), Promise::SameValue)?;
    Ok(bytes)
}

impl<D: SupportedDigest, M: Memory> Stored<M> for LogBundle<D, M> {
    fn decode(memory: M, bytes: &[u8]) -> Result<LogBundle<D, M>, DecodeError> {
        LogProofBundle::decode(memory, bytes)
    }

    fn encode(&self, memory: M) -> Result<Vec<u8, M>, EncodeError> {
        LogProofBundle::encode(self, memory)
    }

    fn through_message(&self, memory: M) -> Result<LogBundle<D, M>, Fault> {
        let message = self.to_message(memory)?;
        Ok(LogProofBundle::from_message(memory, message)?)
    }
}

/// Its message goes through its parts, too.
impl<D: SupportedDigest, K, V, M: Memory> Stored<M> for MapProofBundle<D, K, V, M> {
    fn decode(memory: M, bytes: &[u8]) -> Result<MapProofBundle<D, K, V, M>, DecodeError> {
        MapProofBundle::decode(memory, bytes)
    }

    fn encode(&self, memory: M) -> Result<Vec<u8, M>, EncodeError> {
        MapProofBundle::encode(self, memory)
    }

    fn through_message(&self, memory: M) -> Result<MapProofBundle<D, K, V, M>, Fault> {
        let message = self.to_message(memory)?;
        let bundle: MapProofBundle<D, K, V, M> = MapProofBundle::from_message(memory, message)?;
        let (proofs, absences) = bundle.unbundle_all();
        Ok(MapProofBundle::bundle_with(proofs, absences))
    }
}

impl<D: SupportedDigest, M: Memory> Stored<M> for StackLog<D, Vec<u8>, M> {
    fn decode(memory: M, bytes: &[u8]) -> Result<StackLog<D, Vec<u8>, M>, DecodeError> {
        StackLog::from_protobuf(memory, bytes)
    }

    fn encode(&self, _memory: M) -> Result<Vec<u8, M>, EncodeError> {
        self.to_protobuf()
    }

    fn through_message(&self, memory: M) -> Result<StackLog<D, Vec<u8>, M>, Fault> {
        let message = self.to_message()?;
        Ok(StackLog::from_message(memory, message)?)
    }
}

impl<D: SupportedDigest, M: Memory> Stored<M> for VecLog<D, Vec<u8>, M> {
    fn decode(memory: M, bytes: &[u8]) -> Result<VecLog<D, Vec<u8>, M>, DecodeError> {
        VecLog::from_protobuf(memory, bytes)
    }

    fn encode(&self, _memory: M) -> Result<Vec<u8, M>, EncodeError> {
        self.to_protobuf()
    }

    fn through_message(&self, memory: M) -> Result<VecLog<D, Vec<u8>, M>, Fault> {
        let message = self.to_message()?;
        Ok(VecLog::from_message(memory, message)?)
    }
}
