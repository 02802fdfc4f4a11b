//! Laws of the encoding, each the contract of a function that does nothing.
ghost use Rattle.std.specs.Prelude.{◌≡◌, ◌≢◌, ◌≤◌, ◌<◌, ◌^◌, ◌++◌, ◌↔◌, ℕ, List, Option, Ok, Err, length};
ghost use Rattle.warg_protobuf.specs.declared.error.WireError.{WireError};
ghost use Rattle.warg_protobuf.specs.declared.error.WireError.TheVariants.{WrongWireType};
ghost use Rattle.warg_protobuf.specs.Varint.{IsVarint, varint_at, varint_bytes};
ghost use Rattle.warg_protobuf.specs.Field.{Payload, delimited, Field, wire_type, SpellsField, field_at};
ghost use Rattle.warg_protobuf.specs.Schema.{packed_uint32s, message_of, message_in};
ghost use Rattle.warg_protobuf.specs.Faults.{BeginsWith, VarintFault, FieldFault, IsPacked, PackedFault};
ghost use Rattle.warg_protobuf.specs.Spelled.{IsSpelled, FaultStands};
ghost use Rattle.warg_protobuf.specs.HashEntry.{Entry, entry_schema};
ghost use Rattle.warg_protobuf.specs.LogProofBundle.{LogBundle, log_schema};
ghost use Rattle.warg_protobuf.specs.MapInclusionProof.{proof_schema};
ghost use Rattle.warg_protobuf.specs.MapProofBundle.{MapBundle, map_schema};
ghost use Rattle.warg_protobuf.specs.OptionalHash.{hash_schema};
ghost use Rattle.warg_protobuf.specs.StackLog.{StackImage, stack_schema};
ghost use Rattle.warg_protobuf.specs.VecLog.{VecImage, vec_schema};

/// No spelling of a field begins another field's spelling, whatever bytes follow them.
pub fn one_spelling()
    ensures { (a b s t : List ℕ) (x y : Field) →
        SpellsField a x → SpellsField b y → a ++ s ≡ b ++ t → (a ≡ b) × (x ≡ y) }
{}

/// A field is split off the front of bytes exactly if its spelling stands there.
pub fn field_at_front()
    ensures { (bytes rest : List ℕ) (f : Field) →
        (field_at bytes ≡ Ok (f, rest)) ↔
        ((front : List ℕ) × SpellsField front f × (bytes ≡ front ++ rest)) }
{}

/// A varint is split off the front of bytes exactly if its spelling stands there, and else the fault is the one that stands there.
pub fn varint_at_front()
    ensures number { (bytes rest : List ℕ) (n : ℕ) →
        (varint_at bytes ≡ Ok (n, rest)) ↔ BeginsWith IsVarint bytes n rest }
    ensures fault { (bytes : List ℕ) (e : WireError) → (varint_at bytes ≡ Err e)
        ↔ VarintFault bytes e }
{}

/// No field is split off the front of bytes exactly if one of the causes stands there, and the fault is the first cause's.
pub fn field_fault_at_front()
    ensures { (bytes : List ℕ) (e : WireError) → (field_at bytes ≡ Err e) ↔ FieldFault bytes e }
{}

/// Packed numbers are read exactly if the bytes are their spellings, and else the fault is the first that stands there.
pub fn packed_is_read()
    ensures numbers { (bytes ns : List ℕ) → IsPacked bytes ns ↔ (packed_uint32s bytes ≡ Ok ns) }
    ensures fault { (bytes : List ℕ) (e : WireError) → PackedFault bytes e
        ↔ (packed_uint32s bytes ≡ Err e) }
{}

/// What is written of a number spells it, and nothing shorter does.
pub fn shortest_varint()
    ensures spells { (n : ℕ) → n < 2 ^ 64 → IsVarint (varint_bytes n) n }
    ensures shortest { (n : ℕ) (other : List ℕ) → IsVarint other n
        → length (varint_bytes n) ≤ length other }
{}

/// Bytes spell a message exactly if reading gives it. So they spell one at most.
pub fn spelled_is_read()
    ensures log_bundle { (bytes : List ℕ) (m : LogBundle) →
        IsSpelled log_schema bytes m ↔ (message_of log_schema bytes ≡ Ok m) }
    ensures map_bundle { (bytes : List ℕ) (m : MapBundle) →
        IsSpelled map_schema bytes m ↔ (message_of map_schema bytes ≡ Ok m) }
    ensures stack_log { (bytes : List ℕ) (m : StackImage) →
        IsSpelled stack_schema bytes m ↔ (message_of stack_schema bytes ≡ Ok m) }
    ensures vec_log { (bytes : List ℕ) (m : VecImage) →
        IsSpelled vec_schema bytes m ↔ (message_of vec_schema bytes ≡ Ok m) }
    ensures hash_entry { (bytes : List ℕ) (m : Entry) →
        IsSpelled entry_schema bytes m ↔ (message_of entry_schema bytes ≡ Ok m) }
    ensures map_proof { (bytes : List ℕ) (m : List (Option (List ℕ))) →
        IsSpelled proof_schema bytes m ↔ (message_of proof_schema bytes ≡ Ok m) }
    ensures optional_hash { (bytes : List ℕ) (m : Option (List ℕ)) →
        IsSpelled hash_schema bytes m ↔ (message_of hash_schema bytes ≡ Ok m) }
{}

/// A fault stands in bytes exactly if reading meets it. So one stands there at most, and none beside a message.
pub fn fault_is_met()
    ensures log_bundle { (bytes : List ℕ) (e : WireError) →
        FaultStands log_schema bytes e ↔ (message_of log_schema bytes ≡ Err e) }
    ensures map_bundle { (bytes : List ℕ) (e : WireError) →
        FaultStands map_schema bytes e ↔ (message_of map_schema bytes ≡ Err e) }
    ensures stack_log { (bytes : List ℕ) (e : WireError) →
        FaultStands stack_schema bytes e ↔ (message_of stack_schema bytes ≡ Err e) }
    ensures vec_log { (bytes : List ℕ) (e : WireError) →
        FaultStands vec_schema bytes e ↔ (message_of vec_schema bytes ≡ Err e) }
    ensures hash_entry { (bytes : List ℕ) (e : WireError) →
        FaultStands entry_schema bytes e ↔ (message_of entry_schema bytes ≡ Err e) }
    ensures map_proof { (bytes : List ℕ) (e : WireError) →
        FaultStands proof_schema bytes e ↔ (message_of proof_schema bytes ≡ Err e) }
    ensures optional_hash { (bytes : List ℕ) (e : WireError) →
        FaultStands hash_schema bytes e ↔ (message_of hash_schema bytes ≡ Err e) }
{}

/// A payload that is to hold an inner message fails by the fault that stands in the message's bytes.
pub fn inner_fault_is_met()
    ensures hash_entry { (bytes : List ℕ) (e : WireError) →
        FaultStands entry_schema bytes e ↔ (message_in entry_schema (delimited bytes) ≡ Err e) }
    ensures map_proof { (bytes : List ℕ) (e : WireError) →
        FaultStands proof_schema bytes e ↔ (message_in proof_schema (delimited bytes) ≡ Err e) }
    ensures optional_hash { (bytes : List ℕ) (e : WireError) →
        FaultStands hash_schema bytes e ↔ (message_in hash_schema (delimited bytes) ≡ Err e) }
{}

/// An inner message stands in a payload of wire type 2, and a payload of another type fails by `WrongWireType`.
pub fn inner_message_is_delimited()
    ensures hash_entry { (p : Payload) → wire_type p ≢ 2
        → message_in entry_schema p ≡ Err WrongWireType }
    ensures map_proof { (p : Payload) → wire_type p ≢ 2
        → message_in proof_schema p ≡ Err WrongWireType }
    ensures optional_hash { (p : Payload) → wire_type p ≢ 2
        → message_in hash_schema p ≡ Err WrongWireType }
{}
