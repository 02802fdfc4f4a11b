//! Values on the way up.

ghost use Rattle.std.specs.Prelude.{◌≡◌, ◌+◌, ◌*◌, ◌<◌, ◌≤◌, List, ℕ, length};
ghost use Rattle.warg_map.specs.Bits.{bits_from};
ghost use Rattle.warg_pages.specs.Pages.{slot_height};
ghost use Rattle.warg_pages.specs.Private.Descents.{value_above, lone_root};

use crate::bits::side_at;
use warg_crypto::{Hash, SupportedDigest};

/// The value at the top of the eight bits of a key digest's byte, from the one at their foot. Peers run from the top.
pub(crate) fn value_of_page<D: SupportedDigest>(
    peers: &[Option<Hash<D>>],
    key: &Hash<D>,
    depth: usize,
    foot: Hash<D>,
) -> Hash<D>
    requires depth { depth < 32 }
    requires eight { length peers.now ≡ 8 }
    ensures { result ≡ value_above D.digest (slot_height depth) peers.now foot
        (bits_from key.now (8 * depth) 8) }
{
    let mut value = foot;
    for passed in 0..8 {
        let left = 7 - passed;
        let side = side_at(key, 8 * depth + left);
        value = match &peers[left] {
            Some(peer) => side.branch(&value, peer),
            None => side.branch(&value, &D::empty_tree(248 - 8 * depth + passed)),
        };
    }
    value
}

/// The digest of a lone key's tree of `to` levels, from that of its tree of `from` levels.
pub(crate) fn lone_tree<D: SupportedDigest>(
    key: &Hash<D>,
    from: usize,
    to: usize,
    digest: &Hash<D>,
) -> Hash<D>
    requires up { from ≤ to }
    requires top { to ≤ 256 }
    ensures { (leaf : List ℕ) → digest.now ≡ lone_root D.digest key.now leaf from
        → result ≡ lone_root D.digest key.now leaf to }
{
    let mut value = digest.copied();
    let mut empty = D::empty_tree(from);
    for height in from..to {
        value = side_at(key, 255 - height).branch(&value, &empty);
        empty = D::empty_above(height, &empty);
    }
    value
}
