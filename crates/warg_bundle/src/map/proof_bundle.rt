//! Proofs of a map together.

ghost use Rattle.std.specs.Prelude.{◌≡◌, ◌≢◌, ◌⊎◌, [], None, Some, Ok, Err, IfOk, IfErr, map};
ghost use Rattle.warg_protobuf.specs.declared.error.WireError.TheVariants as wire;
ghost use Rattle.warg_protobuf.specs.MapInclusionProof.{proof_view};
ghost use Rattle.warg_protobuf.specs.MapProofBundle.{map_view, map_bytes};
ghost use Rattle.warg_protobuf.specs.Reading.{Answers};
ghost use Rattle.warg_protobuf.specs.Decoding.{first_fault};
ghost use Rattle.warg_map.specs.Messages.{proof_fault};
ghost use Rattle.warg_bundle.specs.MapBundles.{map_bundle_in, map_bundle_of, same_map_bundle};

use std::alloc::{AllocError, Allocator, Global};
use std::marker::Model;
use warg_map::Proof;
use warg_protobuf::{DecodeError, EncodeError, MapInclusionProof, MapProofBundle as Message};

/// Proofs of keys that a map holds, and of keys that it doesn't hold, which are called absences.
#[derive(Drop)]
pub struct ProofBundle<D, K, V, A: Allocator = Global> {
    proofs: Vec<Proof<D, K, V, A>, A>,
    absences: Vec<Proof<D, K, V, A>, A>,
}

// Contracts see the bundle as its proofs and its absences, each as the list of its peers.
impl<D, K, V, A: Allocator> Model for ProofBundle<D, K, V, A> {
    ghost use Rattle.warg_protobuf.specs.MapProofBundle.{MapBundle};

    ghost Value = { MapBundle };

    ghost view = { λ b. record { proofs = b.proofs.items; absences = b.absences.items } };
}

/// By the proofs and the absences, each in order.
impl<D, K, V, A: Allocator> PartialEq for ProofBundle<D, K, V, A> {
    ghost use Rattle.std.specs.Prelude.{◌≡◌, ◌↔◌, IsTrue};
    ghost use Rattle.std.specs.Cmp.Rules.{comparing};
    ghost use Rattle.std.proofs.Common.{rules};
    ghost use Rattle.warg_bundle.specs.MapBundles.{same_map_bundle};

    ghost eq = { same_map_bundle };

    ghost laws = { Prim.search (comparing, rules) depth 9 };

    fn eq(&self, other: &ProofBundle<D, K, V, A>) -> bool
        ensures value { result ≡ same_map_bundle self.now other.now }
        ensures exact { IsTrue result ↔ (self.now ≡ other.now) }
    {
        same_lists(self, other)
    }
}

impl<D, K, V, A: Allocator> Eq for ProofBundle<D, K, V, A> {
    ghost use Rattle.std.specs.Cmp.Rules.{comparing};
    ghost use Rattle.std.proofs.Common.{rules};

    ghost laws = { Prim.search (comparing, rules) depth 9 };
}

// Whether two bundles have the same proofs and the same absences.
fn same_lists<D, K, V, A: Allocator>(
    first: &ProofBundle<D, K, V, A>,
    second: &ProofBundle<D, K, V, A>,
) -> bool
    ensures { result ≡ same_map_bundle first.now second.now }
{
    first.proofs == second.proofs && first.absences == second.absences
}

impl<D, K, V, A: Allocator + Copy> ProofBundle<D, K, V, A> {
    /// The bundle of these proofs in their order, and of no absences. It does not allocate: the list and each proof
    /// stay where they lie, and the empty list of absences has the allocator of the list of proofs.
    pub fn bundle(proofs: Vec<Proof<D, K, V, A>, A>) -> Self
        ensures proofs { result.proofs ≡ proofs.items }
        ensures absences { result.absences ≡ [] }
    {
        let absences = Vec::new(*proofs.allocator());
        ProofBundle::bundle_with(proofs, absences)
    }

    /// The bundle of these proofs and these absences, each in their order. It does not allocate: both lists and each
    /// proof stay where they lie, and may lie in different allocators.
    pub fn bundle_with(
        proofs: Vec<Proof<D, K, V, A>, A>,
        absences: Vec<Proof<D, K, V, A>, A>,
    ) -> Self
        ensures proofs { result.proofs ≡ proofs.items }
        ensures absences { result.absences ≡ absences.items }
    {
        ProofBundle { proofs, absences }
    }

    /// The bundle's proofs in order. The absences are dropped. It does not allocate.
    pub fn unbundle(self) -> Vec<Proof<D, K, V, A>, A>
        ensures { result.items ≡ self.proofs }
    {
        self.unbundle_all().0
    }

    /// The bundle's proofs and its absences, each in order. It does not allocate.
    pub fn unbundle_all(self) -> (Vec<Proof<D, K, V, A>, A>, Vec<Proof<D, K, V, A>, A>)
        ensures proofs { result.0.items ≡ self.proofs }
        ensures absences { result.1.items ≡ self.absences }
    {
        (self.proofs, self.absences)
    }

    /// The bundle that a message holds.
    ///
    /// The faults are looked for proof by proof, and then absence by absence: at each the errors of
    /// [`Proof::from_message`].
    pub fn from_message(alloc: A, message: Message<A>) -> Result<Self, DecodeError>
        ensures exact { Answers DecodeError.Memory result (map_bundle_in (map_view message)) }
        ensures message { IfOk result (λ bundle. bundle ≡ map_view message) }
        ensures wire { (e : _) → result ≢ Err (DecodeError.Wire e) }
    {
        let proofs = read_proofs(alloc, message.proofs)?;
        let absences = read_proofs(alloc, message.absences)?;
        Ok(ProofBundle::bundle_with(proofs, absences))
    }

    /// Reads a bundle from the bytes of its message: the first fault of the message, and then that of
    /// [`ProofBundle::from_message`], is the error.
    pub fn decode(alloc: A, bytes: &[u8]) -> Result<Self, DecodeError>
        ensures exact { Answers DecodeError.Memory result (map_bundle_of bytes.now) }
        ensures wire { result ≢ Err (DecodeError.Wire wire.Memory) }
    {
        let message = Message::decode(alloc, bytes)?;
        ProofBundle::from_message(alloc, message)
    }

    /// The bundle's message, which holds the same bundle. It is never `TooLarge`.
    pub fn to_message(&self, alloc: A) -> Result<Message<A>, EncodeError>
        ensures ok { IfOk result (λ message. map_view message ≡ self.now) }
        ensures again { IfOk result (λ message. map_bundle_in (map_view message) ≡ Ok self.now) }
        ensures too_large { result ≢ Err EncodeError.TooLarge }
    {
        let proofs = messages(alloc, self.proofs.as_slice())?;
        let absences = messages(alloc, self.absences.as_slice())?;
        Ok(Message { proofs, absences })
    }

    /// Writes the bytes of the bundle's message, which are read as the same bundle. It is never `TooLarge`.
    pub fn encode(&self, alloc: A) -> Result<Vec<u8, A>, EncodeError>
        ensures written { IfOk result (λ bytes. bytes.items ≡ map_bytes self.now) }
        ensures again { IfOk result (λ bytes. map_bundle_of bytes.items ≡ Ok self.now) }
        ensures too_large { result ≢ Err EncodeError.TooLarge }
    {
        let message = self.to_message(alloc)?;
        Ok(message.encode(alloc)?)
    }
}

// The proofs that these messages hold.
fn read_proofs<D, K, V, A: Allocator + Copy>(
    alloc: A,
    messages: Vec<MapInclusionProof<A>, A>,
) -> Result<Vec<Proof<D, K, V, A>, A>, DecodeError>
    ensures ok { IfOk result (λ proofs. proofs.items ≡ map proof_view messages.items) }
    ensures good { IfOk result (λ proofs. first_fault proof_fault (map proof_view messages.items)
        ≡ None) }
    ensures fault { IfErr result (λ e. (e ≡ DecodeError.Memory)
        ⊎ (first_fault proof_fault (map proof_view messages.items) ≡ Some e)) }
    ensures wire { (e : _) → result ≢ Err (DecodeError.Wire e) }
{
    let mut proofs = Vec::new(alloc);
    'messages: for message in messages {
        proofs.push(Proof::from_message(alloc, message)?)?;
    }
    Ok(proofs)
}

// The messages of these proofs.
fn messages<D, K, V, A: Allocator + Copy>(
    alloc: A,
    proofs: &[Proof<D, K, V, A>],
) -> Result<Vec<MapInclusionProof<A>, A>, AllocError>
    ensures ok { IfOk result (λ messages. map proof_view messages.items ≡ proofs.now) }
    ensures good { IfOk result (λ messages. first_fault proof_fault proofs.now ≡ None) }
{
    let mut messages = Vec::new(alloc);
    'proofs: for proof in proofs {
        messages.push(proof.to_message(alloc)?)?;
    }
    Ok(messages)
}
