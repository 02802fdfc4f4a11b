//! Digests of values that a program calls its own.

ghost use Rattle.std.specs.Prelude.{◌≡◌, [], ◌∷◌};
ghost use Rattle.warg_crypto.specs.Digests.{sha256};
ghost use Rattle.warg_crypto.specs.Framed.{framed};

use warg_crypto::{ByteVisitor, Framed, Hash, Sha256, VisitBytes};

/// A release of a package.
///
/// As a pair of texts the releases ("foo1", "0") and ("foo", "10") would be one leaf. Framed they are two.
#[derive(Drop)]
pub struct Release<'a> {
    pub name: &'a str,
    pub version: &'a str,
}

impl VisitBytes for Release<'_> {
    ghost bytes = { λ r. framed (r.name.now ∷ r.version.now ∷ []) };

    fn visit<W: ByteVisitor>(&self, to: &mut W) {
        Framed(&[self.name.as_bytes(), self.version.as_bytes()]).visit(to);
    }
}

/// Releases with the same bytes have the same name and version: no release can be taken for another.
#[tactic(auto, using(warg_crypto::proofs::ForCallers::framed_pairs))]
pub fn are_told_apart(first: &Release<'_>, second: &Release<'_>)
    requires { framed (first.now.name.now ∷ first.now.version.now ∷ [])
        ≡ framed (second.now.name.now ∷ second.now.version.now ∷ []) }
    ensures name { first.now.name.now ≡ second.now.name.now }
    ensures version { first.now.version.now ≡ second.now.version.now }
{
    let _first = (first.name.len(), first.version.len());
    let _second = (second.name.len(), second.version.len());
}

/// The digest of a release.
pub fn digest(release: &Release<'_>) -> Hash<Sha256>
    ensures { result ≡ sha256 (framed (release.now.name.now ∷ release.now.version.now ∷ [])) }
{
    Hash::of(release)
}
