//! The bits of a key digest, which choose sides on the way through the tree.

ghost use Rattle.std.specs.Prelude.{◌≡◌, ◌+◌, ◌<◌, ◌≤◌};
ghost use Rattle.warg_crypto.specs.Sides.{side_bit};
ghost use Rattle.warg_map.specs.Bits.{bit_at, bits_from};

use warg_crypto::{Hash, Side};

/// The side that bit `at` of a digest chooses, from the most significant bit of its first byte.
pub(crate) fn side_at<D>(hash: &Hash<D>, at: usize) -> Side
    requires { at < 256 }
    ensures { side_bit result ≡ bit_at hash.now at }
{
    let byte = hash.bytes()[at / 8];
    if (byte >> (7 - at % 8)) & 1 == 1 {
        Side::Right
    } else {
        Side::Left
    }
}

/// How many of `len` bits from bit `from` on two digests share before they part.
pub(crate) fn shared_bits<D>(a: &Hash<D>, b: &Hash<D>, from: usize, len: usize) -> usize
    requires { from + len ≤ 256 }
    ensures at_most { result ≤ len }
    ensures same { bits_from a.now from result ≡ bits_from b.now from result }
    ensures apart { result < len → ¬ (bit_at a.now (from + result) ≡ bit_at b.now (from + result)) }
{
    if a == b {
        return len;
    }
    for shared in 0..len {
        if side_at(a, from + shared) != side_at(b, from + shared) {
            return shared;
        }
    }
    len
}
