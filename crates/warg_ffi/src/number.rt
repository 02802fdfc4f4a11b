//! Verdicts as the numbers that C sees. `ffi/warg.h` names them again.

ghost use Rattle.std.specs.Prelude.{◌≡◌, Err};
ghost use Rattle.warg_ffi.specs.Numbers.{verdict_number, decode_number, wire_number};

use warg_check::CheckError;
use warg_protobuf::{DecodeError, WireError};

pub const TRUE: i32 = 1;

pub const FALSE: i32 = 0;

pub const OUT_OF_MEMORY: i32 = -1;

pub const NO_SUCH_PROOF: i32 = -2;

pub const ROOT_LENGTH: i32 = -3;

pub const TRUNCATED: i32 = -11;

pub const BAD_VARINT: i32 = -12;

pub const BAD_TAG: i32 = -13;

pub const GROUP: i32 = -14;

pub const BAD_WIRE_TYPE: i32 = -15;

pub const WRONG_WIRE_TYPE: i32 = -16;

pub const NUMBER_TOO_LARGE: i32 = -17;

pub const HASH_LENGTH: i32 = -21;

pub const NOT_ASCENDING: i32 = -22;

pub const TOO_MANY_PEERS: i32 = -23;
// No bundle has these two faults.
pub const NOT_A_LOG: i32 = -24;

pub const NOT_A_STACK: i32 = -25;

// The number of a verdict.
pub fn number(verdict: Result<bool, CheckError>) -> i32
    ensures { result ≡ verdict_number verdict }
{
    match verdict {
        Ok(true) => TRUE,
        Ok(false) => FALSE,
        Err(fault) => of_fault(fault),
    }
}

fn of_fault(fault: CheckError) -> i32
    ensures { result ≡ verdict_number (Err fault) }
{
    match fault {
        CheckError::Decode(fault) => of_decoding(fault),
        CheckError::NoSuchProof => NO_SUCH_PROOF,
        CheckError::Memory => OUT_OF_MEMORY,
    }
}

fn of_decoding(fault: DecodeError) -> i32
    ensures { result ≡ decode_number fault }
{
    match fault {
        DecodeError::Wire(fault) => of_wire(fault),
        DecodeError::HashLength => HASH_LENGTH,
        DecodeError::NotAscending => NOT_ASCENDING,
        DecodeError::NotALog => NOT_A_LOG,
        DecodeError::NotAStack => NOT_A_STACK,
        DecodeError::TooManyPeers => TOO_MANY_PEERS,
        DecodeError::Memory => OUT_OF_MEMORY,
    }
}

fn of_wire(fault: WireError) -> i32
    ensures { result ≡ wire_number fault }
{
    match fault {
        WireError::Truncated => TRUNCATED,
        WireError::BadVarint => BAD_VARINT,
        WireError::BadTag => BAD_TAG,
        WireError::Group => GROUP,
        WireError::BadWireType => BAD_WIRE_TYPE,
        WireError::WrongWireType => WRONG_WIRE_TYPE,
        WireError::NumberTooLarge => NUMBER_TOO_LARGE,
        WireError::Memory => OUT_OF_MEMORY,
    }
}
