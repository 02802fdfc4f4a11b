//! Two evaluations along one key's bits, and where they diverge.

ghost use Rattle.std.specs.Prelude.{◌≡◌, ◌<◌, ◌≤◌, length, MatchOption};
ghost use Rattle.warg_crypto.specs.EmptyTrees.{empty_root};
ghost use Rattle.warg_map.specs.Bits.{bit_at, last_bits};
ghost use Rattle.warg_map.specs.ProofValue.{peer_of, proof_value};
ghost use Rattle.warg_witness.specs.Private.MapMeeting.{MeetsOnPath};

use crate::divergence::{Climb, Divergence};
use warg_crypto::{Hash, SupportedDigest};

/// Bit `at` of a digest, from the most significant bit of its first byte.
pub(crate) fn bit<D>(digest: &Hash<D>, at: usize) -> bool
    requires { at < 256 }
    ensures { result ≡ bit_at digest.now at }
{
    let _bytes = digest.len();
    let byte = digest.bytes()[at / 8];
    (byte >> (7 - at % 8)) & 1 == 1
}

// The peer of a height: where it is missing or None, the empty tree of that height.
fn peer_at<'a, D: SupportedDigest>(
    peers: &'a [Option<Hash<D>>],
    empty: &'a Hash<D>,
    height: usize,
) -> &'a Hash<D>
    requires few { length peers.now ≤ 256 }
    requires height { height < 256 }
    requires empty { empty.now ≡ empty_root D.digest height }
    ensures { result.now ≡ peer_of D.digest peers.now height }
{
    let missing = 256 - peers.len();
    if height < missing {
        return empty;
    }
    match &peers[height - missing] {
        Some(peer) => peer,
        None => empty,
    }
}

/// An evaluation along a key's path: the peers beside it, and the leaf digest.
#[derive(Drop)]
pub(crate) struct Evaluation<'a, D> {
    pub(crate) peers: &'a [Option<Hash<D>>],
    pub(crate) leaf: Hash<D>,
    ghost few: { length peers.now ≤ 256 },
}

/// Where two evaluations diverge on the way from the root to the key's leaf, or None where they lead to different
/// roots. It hashes each branch of both once.
pub(crate) fn meet_on_path<D: SupportedDigest>(
    key: &Hash<D>,
    first: Evaluation<'_, D>,
    second: Evaluation<'_, D>,
) -> Option<Divergence<D>>
    ensures { MatchOption result
        (proof_value D.digest first.entry.peers.now first.entry.leaf (last_bits key.now 256)
        ≡ proof_value D.digest second.entry.peers.now second.entry.leaf (last_bits key.now 256) → ⊥)
        (λ p.
        MeetsOnPath D.digest (first.entry.peers.now, first.entry.leaf) (second.entry.peers.now, second.entry.leaf)
        (last_bits key.now 256) p) }
{
    let mut climb = Climb::new(first.leaf, second.leaf);
    let mut empty = D::empty_tree(0);
    for height in 0..256 {
        let right = bit(key, 255 - height);
        let first_peer = peer_at(first.peers, &empty, height);
        let second_peer = peer_at(second.peers, &empty, height);
        climb = climb.up(right, first_peer, second_peer);
        empty = D::empty_above(height, &empty);
    }
    climb.met()
}
