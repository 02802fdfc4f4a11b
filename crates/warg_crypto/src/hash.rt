//! Digest functions, SHA-256, and hashes: digests with the name of their digest function.

ghost use Rattle.std.specs.Prelude.{◌≡◌, ⊤, ℕ, ◌+◌, ◌<◌, ◌≤◌, ◌↔◌, List, [], length, false, IfOk, IsOk};
ghost use Rattle.sha2.specs.Hashers.{Holds256};
ghost use Rattle.sha2.specs.Sha256.{sha256};
ghost use Rattle.warg_crypto.specs.Digests.{IsDigest};
ghost use Rattle.warg_crypto.specs.EmptyTrees.{empty_root};
ghost use Rattle.warg_crypto.specs.DigestFacts.{IsDigest-sha256};

use crate::empty::EMPTY_TREES;
use crate::visit::{ByteVisitor, VisitBytes};
use sha2::Digest;
use std::alloc::{AllocError, Allocator};
use std::convert::AsSlice;
use std::marker::{Model, PhantomData};
use thiserror::Error;

/// A function from byte lists to 32 bytes.
///
/// A value of the type takes bytes as a [`ByteVisitor`], and returns the digest of all of them.
pub trait SupportedDigest: ByteVisitor {
    // The digest of a list of bytes.
    ghost digest: { List ℕ → List ℕ };

    /// A value that stands for no bytes.
    fn start() -> Self
        ensures { Self.stands_for result [] };

    /// The digest of the bytes that the value stands for.
    fn finish(self) -> [u8; 32]
        ensures { (m : List ℕ) → Self.stands_for self m → result ≡ digest m };

    /// The digest of the empty tree of `height + 1` levels, given that of `height` levels.
    ///
    /// As provided, it hashes the branch over two trees of `height` levels. A digest that knows
    /// these values returns them without hashing.
    fn empty_above(height: usize, empty: &Hash<Self>) -> Hash<Self>
        requires height { height < 256 }
        requires empty { empty.now ≡ empty_root digest height }
        ensures { result ≡ empty_root digest (height + 1) }
    {
        let mut digest = Self::start();
        digest.visit_bytes(&[1]);
        digest.visit_bytes(empty.bytes());
        digest.visit_bytes(empty.bytes());
        Hash::from_array(digest.finish())
    }

    /// The digest of the empty tree of `height` levels: `H(00)` at height 0, and at each height above that
    /// of a branch over two trees of the height below.
    ///
    /// As provided, it goes up from height 0. A digest that knows these values returns them without hashing.
    fn empty_tree(height: usize) -> Hash<Self>
        requires { height ≤ 256 }
        ensures { result ≡ empty_root digest height }
    {
        let mut leaf = Self::start();
        leaf.visit_bytes(&[0]);
        let mut empty = Hash::from_array(leaf.finish());
        for below in 0..height {
            empty = Self::empty_above(below, &empty);
        }
        empty
    }

    // Every digest is 32 bytes.
    ghost is_digest: { (m : List ℕ) → IsDigest (digest m) };
}

/// SHA-256 (FIPS 180-4).
#[derive(Drop)]
pub struct Sha256 {
    hasher: sha2::Sha256,
}

impl ByteVisitor for Sha256 {
    ghost stands_for = { λ s m. Holds256 s.hasher m };

    fn visit_bytes(&mut self, bytes: &[u8]) {
        self.hasher.update(bytes);
    }
}

impl SupportedDigest for Sha256 {
    ghost digest = { sha256 };

    ghost is_digest = { IsDigest-sha256 };

    fn start() -> Sha256 {
        Sha256 {
            hasher: sha2::Sha256::new(),
        }
    }

    fn finish(self) -> [u8; 32] {
        self.hasher.finalize()
    }

    /// Looked up in a table of the 257 digests.
    fn empty_tree(height: usize) -> Hash<Sha256> {
        Hash::from_array(EMPTY_TREES[height])
    }

    /// Looked up in the same table.
    fn empty_above(height: usize, _empty: &Hash<Sha256>) -> Hash<Sha256> {
        Hash::from_array(EMPTY_TREES[height + 1])
    }
}

/// A digest of 32 bytes, by the digest function `D`.
///
/// Equality, order and `Hash` go by the bytes, for every `D`.
#[derive_where(PartialEq, Eq, PartialOrd, Ord, Hash)]
pub struct Hash<D> {
    pub(crate) bytes: [u8; 32],
    of: PhantomData<D>,
}

// Contracts see a hash as the list of its bytes.
impl<D> Model for Hash<D> {
    ghost use Rattle.std.specs.Prelude.{ℕ, List};
    ghost use Rattle.warg_crypto.specs.Digests.{IsDigest};

    ghost Value = { List ℕ };

    ghost view = { λ h. h.bytes };

    ghost invariant = { λ h. IsDigest h.bytes };

    ghost inverse = { λ l. record { bytes = l; of = record {} } };
}

/// Never refuses: a hash allocates nothing.
impl<D> Clone for Hash<D> {
    ghost is_clone = { λ x y. y ≡ x };

    ghost is_infallible = { λ _. ⊤ };

    fn clone(&self) -> Result<Hash<D>, AllocError> {
        Ok(self.copied())
    }
}

impl<D> Drop for Hash<D> {
    fn drop(self) {
        let Hash { bytes: _, of: _ } = self;
    }
}

/// The hash's 32 bytes.
impl<D> VisitBytes for Hash<D> {
    ghost bytes = { λ h. h };

    fn visit<W: ByteVisitor>(&self, to: &mut W) {
        to.visit_bytes(&self.bytes);
    }
}

impl<D: SupportedDigest> Hash<D> {
    /// The digest of the value's bytes.
    pub fn of<T: VisitBytes>(value: &T) -> Hash<D>
        ensures { result ≡ D.digest (T.bytes value.now) }
    {
        let mut digest = D::start();
        value.visit(&mut digest);
        Hash::from_array(digest.finish())
    }
}

impl<D> Hash<D> {
    /// The hash with these bytes, whatever they are the digest of.
    pub fn from_array(bytes: [u8; 32]) -> Hash<D>
        ensures { result ≡ bytes }
    {
        Hash {
            bytes,
            of: PhantomData,
        }
    }

    /// The hash with the bytes of a list or a slice: `HashLength` exactly if they aren't 32.
    pub fn try_from<T: AsSlice<u8> + Drop>(bytes: T) -> Result<Hash<D>, HashLength>
        ensures ok { IfOk result (λ h. h ≡ T.items bytes) }
        ensures exactly { IsOk result ↔ (length (T.items bytes) ≡ 32) }
    {
        match <[u8; 32]>::try_from(bytes.as_slice()) {
            Ok(array) => Ok(Hash::from_array(array)),
            Err(_) => Err(HashLength),
        }
    }

    /// The same hash again, which does not allocate and can't be refused.
    pub fn copied(&self) -> Hash<D>
        ensures { result ≡ self.now }
    {
        Hash::from_array(self.bytes)
    }

    /// The hash's 32 bytes.
    pub fn bytes(&self) -> &[u8]
        ensures value { result.now ≡ self.now }
        ensures digest { IsDigest result.now }
    {
        self.bytes.as_slice()
    }

    /// The number of bytes, 32.
    pub fn len(&self) -> usize
        ensures value { result ≡ 32 }
        ensures bytes { length self.now ≡ result }
    {
        let _ = &self.bytes;
        self.bytes.len()
    }

    /// The number of bits, 256.
    pub fn bit_len(&self) -> usize
        ensures value { result ≡ 256 }
    {
        self.len() * 8
    }
}

/// The hash's 32 bytes.
impl<D> From<Hash<D>> for [u8; 32] {
    ghost from_gives = { λ hash bytes. bytes ≡ hash };

    fn from(hash: Hash<D>) -> [u8; 32] {
        hash.bytes
    }
}

/// The hash's 32 bytes.
impl<D> AsRef<[u8; 32]> for Hash<D> {
    fn as_ref(&self) -> &[u8; 32]
        ensures { result.now ≡ self.now }
    {
        &self.bytes
    }
}

/// The bytes are not 32, and so no hash.
#[derive(Clone, Copy, Debug, PartialEq, Eq, Error)]
#[error("hash is not 32 bytes")]
pub struct HashLength;

// Keeps the bytes that it takes, until a growth is refused.
#[derive(Drop)]
struct Collector<A: Allocator> {
    bytes: Vec<u8, A>,
    refused: bool,
}

impl<A: Allocator> ByteVisitor for Collector<A> {
    ghost stands_for = { λ c m. c.refused ≡ false → c.bytes.items ≡ m };

    fn visit_bytes(&mut self, bytes: &[u8]) {
        if !self.refused && self.bytes.extend_from_slice(bytes).is_err() {
            self.refused = true;
        }
    }
}

/// The value's bytes, as a list over `alloc`. It fails only if allocation fails.
pub fn bytes_of<T: VisitBytes, A: Allocator>(alloc: A, value: &T) -> Result<Vec<u8, A>, AllocError>
    ensures { IfOk result (λ v. v.items ≡ T.bytes value.now) }
{
    let mut collector = Collector {
        bytes: Vec::new(alloc),
        refused: false,
    };
    value.visit(&mut collector);
    if collector.refused {
        return Err(AllocError);
    }
    Ok(collector.bytes)
}
