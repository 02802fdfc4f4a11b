//! A registry that keeps a map from packages to their newest versions.

ghost use Rattle.std.specs.Prelude.{◌≡◌, IsTrue, IsSome, IfOk, IfSome, ◌↔◌};
ghost use Rattle.std.specs.FinMap as map;
ghost use Rattle.warg_crypto.specs.Digests.{sha256};
ghost use Rattle.warg_crypto.specs.EmptyTrees.{empty_root};
ghost use Rattle.warg_map.specs.Bits.{key_bits};
ghost use Rattle.warg_crypto.specs.Tree.{leaf_digest};
ghost use Rattle.warg_map.specs.Sparse.{sparse_root, leaf_at};
ghost use Rattle.warg_map.specs.ProofValue.{proof_value};

use std::alloc::AllocError;
use warg_crypto::{Hash, Sha256};
use warg_map::{Map, MapError, Proof};

/// The newest version of each package, by the package's name.
pub type Newest<'a> = Map<Sha256, &'a str, &'a str>;

/// A proof about a package.
pub type PackageProof<'a> = Proof<Sha256, &'a str, &'a str>;

/// The map with a package's newest version. The old one stays.
pub fn release<'a>(
    packages: &Newest<'a>,
    name: &'a str,
    version: &'a str,
) -> Result<Newest<'a>, MapError>
    ensures { IfOk result (λ new. new ≡ map.insert packages.now (key_bits sha256 name.now)
        (leaf_digest sha256 version.now)) }
{
    packages.insert(name, version)
}

/// The proof that there is no package of this name, or none where there is one.
pub fn absence<'a>(
    packages: &Newest<'a>,
    name: &'a str,
) -> Result<Option<PackageProof<'a>>, AllocError>
    ensures found { IfOk result (λ proof. IsSome proof
        ↔ (leaf_at sha256 packages.now (key_bits sha256 name.now) ≡ empty_root sha256 0)) }
    ensures root { IfOk result (λ proof. IfSome proof
        (λ p. proof_value sha256 p (empty_root sha256 0) (key_bits sha256 name.now)
        ≡ sparse_root sha256 256 packages.now)) }
{
    packages.prove_absence(name)
}

/// Whether a proof shows, to a client that trusts a root, that a package has this version.
pub fn has_version<'a>(
    proof: &PackageProof<'a>,
    name: &'a str,
    version: &'a str,
    root: &Hash<Sha256>,
) -> bool
    ensures { IsTrue result ↔ (proof_value sha256 proof.now (leaf_digest sha256 version.now)
        (key_bits sha256 name.now) ≡ root.now) }
{
    proof.evaluate(&name, &version) == *root
}
