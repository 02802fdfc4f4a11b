//! What all messages share: one loop that reads them, and one that writes them in lists.
ghost use Rattle.std.specs.Prelude.{◌≡◌, ◌++◌, ◌<◌, ◌^◌, [], List, All, OnOk, IfOk, length, map};
ghost use Rattle.warg_protobuf.specs.Field.{Field as AnyField};
ghost use Rattle.warg_protobuf.specs.Reading.{outcome, as_list, values_read};
ghost use Rattle.warg_protobuf.specs.Schema.{Schema, check_by, message_in};
ghost use Rattle.warg_protobuf.specs.Private.Lent.{field_view, payload_view};
ghost use Rattle.warg_protobuf.specs.Private.Taking.{Puts, Adds};
ghost use Rattle.warg_protobuf.specs.Spelled.{Decodes};
ghost use Rattle.warg_protobuf.specs.Written.{fields_bytes, message_fields};

use crate::error::WireError;
use crate::field::{Field, Payload, read_field};
use crate::writer::push_delimited;
use std::alloc::{AllocError, Allocator};

/// A message that is read by taking one field after the other in, and written field by field.
pub(crate) trait Message<A: Allocator + Copy>: Drop {
    // The message without where it lies in memory, and how to see it so.
    ghost Seen: { Type 0 };

    ghost view: { Self → Seen };

    // How its bytes are read.
    ghost schema: { Schema Seen };

    // What one field more makes of it.
    ghost add: { Seen → AnyField → Seen };

    // The fields that are written of it.
    ghost fields: { Seen → List AnyField };

    // What its fields' types say of it.
    ghost Fits: { Seen → Type 0 };

    /// The message of no fields.
    fn empty(alloc: A) -> Self
        ensures { view result ≡ schema.message [] };

    /// Takes one field in, and skips it where its number is unknown.
    fn put(&mut self, alloc: A, field: Field<'_>) -> Result<(), WireError>
        ensures { let f = field_view field.entry in
            Puts result (check_by schema.table f) (add (view self.old) f) (view self.new) };

    /// Writes the message at the end.
    fn push_to(&self, alloc: A, out: &mut Vec<u8, A>) -> Result<(), AllocError>
        ensures written { OnOk result (out.new.items
            ≡ out.old.items ++ fields_bytes (fields (view self.now))) }
        ensures fits { OnOk result (Fits (view self.now)) };

    // Fields one after the other add up to what they say together.
    ghost adds: { Adds schema.message add };
}

/// The message of these bytes: what each `decode` promises.
pub(crate) fn read_message<A: Allocator + Copy, M: Message<A>>(
    alloc: A,
    bytes: &[u8],
) -> Result<M, WireError>
    ensures { Decodes M.schema M.view bytes.now result }
{
    let mut message = M::empty(alloc);
    let mut rest = bytes;
    while !rest.is_empty() {
        let (field, after) = read_field(rest)?;
        message.put(alloc, field)?;
        rest = after;
    }
    Ok(message)
}

/// Puts the message of one field at the end of a list.
#[tactic(auto, unfolding(crate::specs::Schema::message_in, crate::specs::Schema::bytes_in))]
pub(crate) fn add_message<A: Allocator + Copy, M: Message<A>>(
    alloc: A,
    payload: Payload<'_>,
    messages: &mut Vec<M, A>,
) -> Result<(), WireError>
    ensures { let read = message_in M.schema (payload_view payload.entry) in
        Puts result (outcome read) (map M.view messages.old.items ++ values_read (as_list read)) (map M.view messages.new.items) }
{
    let message = read_message(alloc, payload.bytes()?)?;
    messages.push(message)?;
    Ok(())
}

/// The written form of a message.
pub(crate) fn encode_message<A: Allocator + Copy, M: Message<A>>(
    alloc: A,
    message: &M,
) -> Result<Vec<u8, A>, AllocError>
    ensures written { IfOk result (λ v. v.items ≡ fields_bytes (M.fields (M.view message.now))) }
    ensures fits { OnOk result (M.Fits (M.view message.now)) }
    ensures short { IfOk result (λ v. length v.items < 2 ^ 64) }
{
    let mut out = Vec::new(alloc);
    message.push_to(alloc, &mut out)?;
    Ok(out)
}

/// Writes each message in a field of its own.
///
/// The bytes of one are collected first, in memory that the next one uses again.
pub(crate) fn push_messages<A: Allocator + Copy, M: Message<A>>(
    alloc: A,
    out: &mut Vec<u8, A>,
    field: u8,
    messages: &[M],
) -> Result<(), AllocError>
    ensures written { OnOk result
        (out.new.items ≡ out.old.items ++ fields_bytes
        (message_fields field M.fields (map M.view messages.now))) }
    ensures fits { OnOk result (All M.Fits (map M.view messages.now)) }
{
    let mut inner = Vec::new(alloc);
    for message in messages {
        inner.clear();
        message.push_to(alloc, &mut inner)?;
        push_delimited(out, field, &inner)?;
    }
    Ok(())
}
