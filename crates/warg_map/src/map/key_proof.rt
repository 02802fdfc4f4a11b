//! What a map proves of a key, whether it holds it or not.

ghost use Rattle.std.specs.Prelude.{IfOk};
ghost use Rattle.warg_map.specs.Bits.{key_bits};

use crate::map::Map;
use crate::proof::Proof;
use crate::walk::Asked;
use std::alloc::{AllocError, Allocator, Global};
use warg_crypto::{Hash, SupportedDigest, VisitBytes};

/// The proof of what a map holds under a key, or of the key's absence.
#[derive(Drop)]
pub enum KeyProof<D, K, V, A: Allocator = Global> {
    /// The key's digest is held: the proof leads from the value to the map's root.
    Presence(Proof<D, K, V, A>),
    /// It isn't: the proof leads from an empty leaf.
    Absence(Proof<D, K, V, A>),
}

impl<D: SupportedDigest, K: VisitBytes + Drop, V: VisitBytes + Drop, A: Allocator + Copy> Map<
    D,
    K,
    V,
    A,
> {
    ghost use Rattle.warg_map.specs.KeyProofs.{ProvesKey};

    /// The proof of what is held under `key`, or that of its absence where its digest isn't held. The key is borrowed.
    pub fn prove_key(&self, key: &K) -> Result<KeyProof<D, K, V, A>, AllocError>
        ensures { IfOk result (ProvesKey D.digest self.now (key_bits D.digest (K.bytes key.now))) }
    {
        let (held, proof) = self.proof_of(&Hash::of(key), Asked::Either)?;
        Ok(if held == Some(true) {
            KeyProof::Presence(proof)
        } else {
            KeyProof::Absence(proof)
        })
    }
}
