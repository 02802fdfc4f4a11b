//! Hashes as text: 64 hexadecimal digits.

use crate::hash::Hash;
use hex::FromHex;
use std::fmt;
use std::str::FromStr;
use thiserror::Error;

/// 64 hexadecimal digits in lower case, two for each byte in order.
impl<D> fmt::Display for Hash<D> {
    ghost use Rattle.std.specs.Prelude.{Some};
    ghost use Rattle.hex.specs.Hex.{encode_lower};

    ghost output = { λ h. Some (encode_lower h) };

    fn fmt<W: fmt::Write>(&self, f: &mut fmt::Formatter<W>) -> fmt::Result {
        let mut digits = [0u8; 64];
        let written = hex::encode_to_slice(self.bytes(), &mut digits);
        match str::from_utf8(&digits) {
            Ok(text) if written.is_ok() => f.write_str(text),
            _ => Err(fmt::Error),
        }
    }
}

/// The text of [`Display`](fmt::Display).
impl<D> fmt::Debug for Hash<D> {
    ghost use Rattle.std.specs.Prelude.{Some};
    ghost use Rattle.hex.specs.Hex.{encode_lower};

    ghost debug_output = { λ h. Some (encode_lower h) };

    fn fmt<W: fmt::Write>(&self, f: &mut fmt::Formatter<W>) -> fmt::Result {
        fmt::Display::fmt(self, f)
    }
}

/// Reads 64 hexadecimal digits of either case, and refuses any other text with [`HashDigits`].
impl<D> FromStr for Hash<D> {
    ghost use Rattle.warg_crypto.specs.Text.{SpellsHash};

    type Err = HashDigits;

    ghost from_str_gives = { SpellsHash };

    fn from_str(text: &str) -> Result<Hash<D>, HashDigits> {
        match <[u8; 32] as FromHex>::from_hex(text) {
            Ok(bytes) => Ok(Hash::from_array(bytes)),
            Err(_) => Err(HashDigits),
        }
    }
}

/// The text is not 64 hexadecimal digits, and so no hash.
#[derive(Clone, Copy, Debug, PartialEq, Eq, Error)]
#[error("hash is not 64 hexadecimal digits")]
pub struct HashDigits;
