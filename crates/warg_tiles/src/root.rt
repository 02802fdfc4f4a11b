//! The root over digests in a row.

ghost use Rattle.std.specs.Prelude.{◌≡◌, ◌<◌, length};
ghost use Rattle.warg_log.specs.Tree.{root_of};

use warg_crypto::{Hash, SupportedDigest, hash_branch};

// The root of the tree over digests, by RFC 6962, section 2.1.
#[tactic(auto, using(crate::proofs::RootLemmas::root_one, crate::proofs::RootLemmas::root_two))]
pub(crate) fn root_over<D: SupportedDigest>(digests: &[Hash<D>]) -> Hash<D>
    requires { 0 < length digests.now }
    ensures { result ≡ root_of D.digest digests.now }
{
    if digests.len() == 1 {
        return digests[0].copied();
    }
    if let [left, right] = digests {
        return hash_branch(left, right);
    }
    let (front, rest) = digests.split_at(1 << (digests.len() - 1).ilog2());
    hash_branch(&root_over(front), &root_over(rest))
}
