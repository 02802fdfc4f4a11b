//! The peers that a page has beside a slot.

ghost use Rattle.std.specs.Prelude.{◌≡◌, ◌<◌};
ghost use Rattle.warg_pages.specs.Slots.{IsPage};
ghost use Rattle.warg_pages.specs.PagePeers.{first_beside, optional_peer};

use crate::root::{count_below, root_of_range};
use crate::slot::Slot;
use warg_crypto::{Hash, SupportedDigest};

// The first of the slots beside those of so many levels that a slot is among.
fn start_beside(byte: u8, height: usize) -> usize
    requires { height < 8 }
    ensures { result ≡ first_beside byte height }
{
    let run = byte as usize >> height;
    let beside = if run % 2 == 0 { run + 1 } else { run - 1 };
    beside << height
}

/// The peer of a height below 8 in a page at a prefix of `depth` bytes: the digest of the slots beside those that the
/// slot of a byte is among, or `None` where no slot stands there.
pub(crate) fn peer_beside<D: SupportedDigest>(
    depth: usize,
    slots: &[Slot<D>],
    byte: u8,
    height: usize,
) -> Option<Hash<D>>
    requires depth { depth < 32 }
    requires page { IsPage slots.now }
    requires height { height < 8 }
    ensures { result ≡ optional_peer D.digest depth slots.now byte height }
{
    let first = start_beside(byte, height);
    let (_, from) = slots.split_at(count_below(slots, first));
    let (there, _) = from.split_at(count_below(from, first + (1 << height)));
    if there.is_empty() {
        return None;
    }
    Some(root_of_range(there, first, height, 248 - 8 * depth))
}
