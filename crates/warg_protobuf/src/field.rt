//! Varints and fields, split off the front of a message's bytes, and the values of payloads.
ghost use Rattle.std.specs.Prelude.{◌<◌, ◌*◌, ◌^◌, [], ◌∷◌, ◌++◌, IfOk};
ghost use Rattle.warg_protobuf.specs.Reading.{Gives, outcome, values_read};
ghost use Rattle.warg_protobuf.specs.Varint.{varint_in, varint_at};
ghost use Rattle.warg_protobuf.specs.Field.{bytes_at, field_at, payload_at};
ghost use Rattle.warg_protobuf.specs.Private.Lent.{field_view, payload_view};
ghost use Rattle.warg_protobuf.specs.Private.Taking.{Puts};
ghost use Rattle.warg_protobuf.specs.Schema.{is_uint32, uint32_in, bytes_in, packed_uint32s, uint32s_in};

use crate::error::WireError;
use std::alloc::Allocator;

/// What stands behind a tag, by its wire type.
#[derive(Clone, Copy)]
pub(crate) enum Payload<'a> {
    Varint(u64),
    Fixed64(&'a [u8]),
    Delimited(&'a [u8]),
    Fixed32(&'a [u8]),
}

/// A field number from 1 to 2^29 - 1, and its payload.
#[derive(Clone, Copy)]
pub(crate) struct Field<'a> {
    pub(crate) number: u64,
    pub(crate) payload: Payload<'a>,
}

impl<'a> Payload<'a> {
    /// The uint32 of a single field.
    #[tactic(auto, unfolding(crate::specs::Schema::uint32_in))]
    pub(crate) fn uint32(self) -> Result<u32, WireError>
        ensures { Gives (λ n. n) result (uint32_in (payload_view self.entry)) }
    {
        match self {
            Payload::Varint(number) => Ok(u32::try_from(number)?),
            _ => Err(WireError::WrongWireType),
        }
    }

    /// The bytes of a field of type bytes, or of a message.
    #[tactic(auto, unfolding(crate::specs::Schema::bytes_in))]
    pub(crate) fn bytes(self) -> Result<&'a [u8], WireError>
        ensures { Gives (λ x. x.now) result (bytes_in (payload_view self.entry)) }
    {
        match self {
            Payload::Delimited(bytes) => Ok(bytes),
            _ => Err(WireError::WrongWireType),
        }
    }

    /// Puts the number or the packed numbers of one field at the end of a list.
    #[tactic(auto, unfolding(crate::specs::Schema::uint32s_in))]
    pub(crate) fn add_uint32s<A: Allocator>(
        self,
        numbers: &mut Vec<u32, A>,
    ) -> Result<(), WireError>
        ensures { let read = uint32s_in (payload_view self.entry) in
            Puts result (outcome read) (numbers.old.items ++ values_read read) numbers.new.items }
    {
        match self {
            Payload::Varint(number) => add_uint32(number, numbers),
            Payload::Delimited(bytes) => add_packed(bytes, numbers),
            _ => Err(WireError::WrongWireType),
        }
    }
}

/// Puts one number at the end of a list.
fn add_uint32<A: Allocator>(number: u64, numbers: &mut Vec<u32, A>) -> Result<(), WireError>
    ensures { Puts result (is_uint32 number) (numbers.old.items ++ number ∷ []) numbers.new.items }
{
    numbers.push(u32::try_from(number)?)?;
    Ok(())
}

/// Puts packed numbers at the end of a list.
fn add_packed<A: Allocator>(bytes: &[u8], numbers: &mut Vec<u32, A>) -> Result<(), WireError>
    ensures { let read = packed_uint32s bytes.now in
        Puts result (outcome read) (numbers.old.items ++ values_read read) numbers.new.items }
{
    let mut rest = bytes;
    while !rest.is_empty() {
        let (number, after) = read_varint(rest)?;
        add_uint32(number, numbers)?;
        rest = after;
    }
    Ok(())
}

/// The number at the front, of at most `1 + more` bytes, and the bytes after it.
#[tactic(auto, unfolding(crate::specs::Varint::varint_in))]
fn read_groups(more: u32, bytes: &[u8]) -> Result<(u64, &[u8]), WireError>
    requires { more < 10 }
    ensures below { IfOk result (λ x. x.0 < 2 * 128 ^ more) }
    ensures exact { Gives (λ x. (x.0, x.1.now)) result (varint_in more bytes.now) }
{
    let [first, rest @ ..] = bytes else {
        return Err(WireError::Truncated);
    };
    if more == 0 {
        if *first >= 2 {
            return Err(WireError::BadVarint);
        }
        return Ok((u64::from(*first), rest));
    }
    if *first < 128 {
        return Ok((u64::from(*first), rest));
    }
    let (high, rest) = read_groups(more - 1, rest)?;
    Ok((u64::from(*first % 128) + 128 * high, rest))
}

/// The number at the front, and the bytes after it.
// Most numbers take one byte: these are read with no call.
#[inline(always)]
#[tactic(auto, unfolding(crate::specs::Varint::varint_at, crate::specs::Varint::varint_in))]
pub(crate) fn read_varint(bytes: &[u8]) -> Result<(u64, &[u8]), WireError>
    ensures { Gives (λ x. (x.0, x.1.now)) result (varint_at bytes.now) }
{
    if let [first, rest @ ..] = bytes
        && *first < 128
    {
        return Ok((u64::from(*first), rest));
    }
    read_groups(9, bytes)
}

/// So many bytes at the front, and the bytes after them.
#[inline(always)]
fn split_bytes(bytes: &[u8], len: usize) -> Result<(&[u8], &[u8]), WireError>
    ensures { Gives (λ x. (x.0.now, x.1.now)) result (bytes_at len bytes.now) }
{
    bytes.split_at_checked(len).ok_or(WireError::Truncated)
}

/// The payload of a wire type at the front, and the bytes after it.
#[inline(always)]
#[tactic(auto, unfolding(crate::specs::Field::payload_at))]
fn read_payload(wire_type: u64, bytes: &[u8]) -> Result<(Payload<'_>, &[u8]), WireError>
    ensures { Gives (λ x. (payload_view x.0, x.1.now)) result (payload_at wire_type bytes.now) }
{
    match wire_type {
        0 => {
            let (value, rest) = read_varint(bytes)?;
            Ok((Payload::Varint(value), rest))
        }
        1 => {
            let (inner, rest) = split_bytes(bytes, 8)?;
            Ok((Payload::Fixed64(inner), rest))
        }
        2 => {
            let (len, rest) = read_varint(bytes)?;
            let (inner, rest) = split_bytes(rest, len as usize)?;
            Ok((Payload::Delimited(inner), rest))
        }
        3 | 4 => Err(WireError::Group),
        5 => {
            let (inner, rest) = split_bytes(bytes, 4)?;
            Ok((Payload::Fixed32(inner), rest))
        }
        _ => Err(WireError::BadWireType),
    }
}

/// The field at the front, and the bytes after it.
// Inlined, as the calls in it, so that a payload isn't handed on through memory.
#[inline(always)]
#[tactic(auto, unfolding(crate::specs::Field::field_at))]
pub(crate) fn read_field(bytes: &[u8]) -> Result<(Field<'_>, &[u8]), WireError>
    ensures { Gives (λ x. (field_view x.0, x.1.now)) result (field_at bytes.now) }
{
    let (tag, bytes) = read_varint(bytes)?;
    let number = tag / 8;
    if tag >= 1 << 32 || number == 0 {
        return Err(WireError::BadTag);
    }
    let (payload, rest) = read_payload(tag % 8, bytes)?;
    Ok((Field { number, payload }, rest))
}
