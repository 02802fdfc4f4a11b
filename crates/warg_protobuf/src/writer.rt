//! Fields at the end of bytes.
ghost use Rattle.std.specs.Prelude.{◌≡◌, ◌<◌, ◌^◌, ◌++◌, All, OnOk, IfOk};
ghost use Rattle.std.specs.List.{flat_map};
ghost use Rattle.warg_protobuf.specs.Varint.{varint_bytes};
ghost use Rattle.warg_protobuf.specs.Written.{field_bytes, fields_bytes, delimited_field, uint32_fields, bytes_fields, packed_fields, repeated_fields};

use crate::digest_bytes::DigestBytes;
use std::alloc::{AllocError, Allocator};

/// Writes the shortest spelling of a number at the end.
fn push_varint<A: Allocator>(out: &mut Vec<u8, A>, number: u64) -> Result<(), AllocError>
    ensures { OnOk result (out.new.items ≡ out.old.items ++ varint_bytes number) }
{
    let mut left = number;
    while left >= 128 {
        out.push((left % 128) as u8 + 128)?;
        left /= 128;
    }
    out.push(left as u8)?;
    Ok(())
}

/// Writes a single number, or nothing for 0.
pub(crate) fn push_uint32<A: Allocator>(
    out: &mut Vec<u8, A>,
    field: u8,
    number: u32,
) -> Result<(), AllocError>
    ensures written { OnOk result (out.new.items
        ≡ out.old.items ++ fields_bytes (uint32_fields field number)) }
    ensures fits { number < 2 ^ 32 }
{
    if number == 0 {
        return Ok(());
    }
    push_varint(out, u64::from(field) * 8)?;
    push_varint(out, u64::from(number))
}

/// Writes bytes with their length before them.
pub(crate) fn push_delimited<A: Allocator>(
    out: &mut Vec<u8, A>,
    field: u8,
    bytes: &[u8],
) -> Result<(), AllocError>
    ensures { OnOk result (out.new.items ≡ out.old.items ++ field_bytes
        (delimited_field field bytes.now)) }
{
    push_varint(out, u64::from(field) * 8 + 2)?;
    push_varint(out, bytes.len() as u64)?;
    out.extend_from_slice(bytes)?;
    Ok(())
}

/// Writes single bytes without presence, or nothing where they are empty.
pub(crate) fn push_bytes<A: Allocator>(
    out: &mut Vec<u8, A>,
    field: u8,
    bytes: &[u8],
) -> Result<(), AllocError>
    ensures { OnOk result (out.new.items ≡ out.old.items ++ fields_bytes
        (bytes_fields field bytes.now)) }
{
    if bytes.is_empty() {
        return Ok(());
    }
    push_delimited(out, field, bytes)
}

fn packed_bytes<A: Allocator + Copy>(alloc: A, numbers: &[u32]) -> Result<Vec<u8, A>, AllocError>
    ensures written { IfOk result (λ v. v.items ≡ flat_map varint_bytes numbers.now) }
    ensures fits { All (λ n. n < 2 ^ 32) numbers.now }
{
    let mut out = Vec::new(alloc);
    for number in numbers {
        push_varint(&mut out, u64::from(*number))?;
    }
    Ok(out)
}

/// Writes numbers packed, or nothing where there are none.
pub(crate) fn push_uint32s<A: Allocator + Copy>(
    alloc: A,
    out: &mut Vec<u8, A>,
    field: u8,
    numbers: &[u32],
) -> Result<(), AllocError>
    ensures written { OnOk result (out.new.items
        ≡ out.old.items ++ fields_bytes (packed_fields field numbers.now)) }
    ensures fits { All (λ n. n < 2 ^ 32) numbers.now }
{
    if numbers.is_empty() {
        return Ok(());
    }
    let bytes = packed_bytes(alloc, numbers)?;
    push_delimited(out, field, &bytes)
}

/// Writes the bytes of each digest in a field of its own, also where they are empty.
pub(crate) fn push_repeated<A: Allocator>(
    out: &mut Vec<u8, A>,
    field: u8,
    digests: &[DigestBytes<A>],
) -> Result<(), AllocError>
    ensures { OnOk result (out.new.items ≡ out.old.items ++ fields_bytes
        (repeated_fields field digests.now)) }
{
    for digest in digests {
        push_delimited(out, field, digest.as_slice())?;
    }
    Ok(())
}
