//! Weak digests, whose collisions are known: for tests of what a collision does.

ghost use Rattle.std.specs.Prelude.{◌≡◌, ⊤, ℕ, ◌%◌, ◌++◌, ◌∷◌, [], List, sum};
ghost use Rattle.sha2.specs.Hashers.{Holds256};
ghost use Rattle.warg_crypto.specs.Digests.{IsDigest};
ghost use Rattle.warg_crypto.specs.WeakDigests.{byte_sum, same_or_sha256, zeros, Keeps};
ghost use Rattle.warg_crypto.specs.DigestFacts.{IsDigest-byte_sum, IsDigest-same_or_sha256, IsDigest-zeros};

use crate::hash::SupportedDigest;
use crate::visit::ByteVisitor;
use sha2::Digest;

/// 31 zero bytes, and then the sum of the bytes modulo 256.
#[derive(Drop)]
pub struct Sum {
    total: u8,
}

impl ByteVisitor for Sum {
    ghost stands_for = { λ s m. s.total ≡ sum m % 256 };

    fn visit_bytes(&mut self, bytes: &[u8]) {
        let mut total = self.total;
        for byte in bytes {
            total = total.wrapping_add(*byte);
        }
        self.total = total;
    }
}

impl SupportedDigest for Sum {
    ghost digest = { byte_sum };

    ghost is_digest = { IsDigest-byte_sum };

    fn start() -> Sum {
        Sum { total: 0 }
    }

    fn finish(self) -> [u8; 32] {
        let mut digest = [0u8; 32];
        digest[31] = self.total;
        digest
    }
}

/// A list of 32 bytes is its own digest; that of any other is SHA-256's.
#[derive(Drop)]
pub struct Own32 {
    hasher: sha2::Sha256,
    first: [u8; 32],
    // The number of bytes so far, or 33 for more than 32.
    count: usize,
}

impl Own32 {
    // Takes one byte into the first 32.
    fn keep(first: &mut [u8; 32], count: usize, byte: u8) -> usize
        ensures { (m : List ℕ) → Keeps first.old count m → Keeps first.new result (m ++ byte ∷ []) }
    {
        if count > 32 {
            return count;
        }
        if count < 32 {
            first[count] = byte;
        }
        count + 1
    }
}

impl ByteVisitor for Own32 {
    ghost stands_for = { λ s m. Holds256 s.hasher m × Keeps s.first s.count m };

    fn visit_bytes(&mut self, bytes: &[u8]) {
        self.hasher.update(bytes);
        for byte in bytes {
            self.count = Own32::keep(&mut self.first, self.count, *byte);
        }
    }
}

impl SupportedDigest for Own32 {
    ghost digest = { same_or_sha256 };

    ghost is_digest = { IsDigest-same_or_sha256 };

    fn start() -> Own32 {
        Own32 {
            hasher: sha2::Sha256::new(),
            first: [0u8; 32],
            count: 0,
        }
    }

    fn finish(self) -> [u8; 32] {
        if self.count == 32 {
            is_digest(&self.first);
            self.first
        } else {
            self.hasher.finalize()
        }
    }
}

// 32 bytes are a digest.
fn is_digest(bytes: &[u8; 32])
    ensures { IsDigest bytes.now }
{
    let _slice = bytes.as_slice();
}

/// 32 zero bytes, whatever the bytes.
#[derive(Drop)]
pub struct Flat;

impl ByteVisitor for Flat {
    ghost stands_for = { λ _ _. ⊤ };

    fn visit_bytes(&mut self, _bytes: &[u8]) {}
}

impl SupportedDigest for Flat {
    ghost digest = { zeros };

    ghost is_digest = { IsDigest-zeros };

    fn start() -> Flat {
        Flat
    }

    fn finish(self) -> [u8; 32] {
        [0; 32]
    }
}
