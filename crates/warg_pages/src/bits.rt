//! The bits of key digests.

ghost use Rattle.std.specs.Prelude.{◌≡◌, ◌<◌, ◌≤◌};
ghost use Rattle.warg_crypto.specs.Sides.{side_bit};
ghost use Rattle.warg_map.specs.Bits.{bit_at, bits_from};

use warg_crypto::{Hash, Side};

/// The side that bit `at` of a digest chooses, from the most significant bit of its first byte.
pub(crate) fn side_at<D>(hash: &Hash<D>, at: usize) -> Side
    requires { at < 256 }
    ensures { side_bit result ≡ bit_at hash.now at }
{
    let byte = hash.bytes()[at / 8];
    if (byte >> (7 - at % 8)) & 1 == 1 {
        Side::Right
    } else {
        Side::Left
    }
}

/// How many bits two digests share before they part.
pub(crate) fn shared_bits<D>(a: &Hash<D>, b: &Hash<D>) -> usize
    ensures at_most { result ≤ 256 }
    ensures same { bits_from a.now 0 result ≡ bits_from b.now 0 result }
    ensures apart { result < 256 → ¬ (bit_at a.now result ≡ bit_at b.now result) }
{
    for shared in 0..256 {
        if side_at(a, shared) != side_at(b, shared) {
            return shared;
        }
    }
    256
}
