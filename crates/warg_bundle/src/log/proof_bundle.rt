//! Proofs of a log together with the digests that they need.

ghost use Rattle.std.specs.Prelude.{◌≡◌, ◌≢◌, ◌^◌, ◌<◌, ◌↔◌, ◌⊎◌, None, Some, Ok, Err, IfOk, IfErr, IfSome, IsTrue, IsNone, length, map, slice_get, OnOk};
ghost use Rattle.std.specs.List.{AllByRecursion};
ghost use Rattle.warg_protobuf.specs.declared.error.WireError.TheVariants as wire;
ghost use Rattle.warg_protobuf.specs.Reading.{Answers};
ghost use Rattle.warg_protobuf.specs.HashEntry.{entry_view};
ghost use Rattle.warg_protobuf.specs.LogProofBundle.{log_view, log_bytes};
ghost use Rattle.warg_log.specs.Sparse.{IsAscending};
ghost use Rattle.warg_bundle.specs.Bundling.{bundled};
ghost use Rattle.warg_bundle.specs.LogBundles.{bundle_message, log_bundle_in, bundle_of, NodesFit, entry_of, pair_of, entries_fault, same_bundle};

use crate::log::error::BundleError;
use crate::log::needed::{needed_digests, one_length};
use std::alloc::{AllocError, Allocator, Global};
use std::marker::Model;
use warg_crypto::{Hash, SupportedDigest, VisitBytes};
use warg_log::{ConsistencyProof, InclusionProof, LogData, Node, SparseLogData};
use warg_protobuf::{DecodeError, EncodeError, HashEntry, LogProofBundle as Message};

/// Inclusion and consistency proofs of one log at one length, with digests for their evaluation.
///
/// A bundle that was read from bytes may lack digests, and its proofs may be none that can be evaluated:
/// their evaluation says so.
pub struct ProofBundle<D: SupportedDigest, V: VisitBytes, A: Allocator = Global> {
    log_length: u32,
    consistent_lengths: Vec<u32, A>,
    included_nodes: Vec<Node, A>,
    hashes: SparseLogData<D, V, A>,
}

// Contracts see the bundle as its lengths, nodes and digests.
impl<D: SupportedDigest, V: VisitBytes, A: Allocator> Model for ProofBundle<D, V, A> {
    ghost use Rattle.warg_log.specs.Sparse.{IsAscending};
    ghost use Rattle.warg_bundle.specs.LogBundles.{Bundle};

    ghost Value = { Bundle };

    ghost view = { λ b. record {
      log_length = b.log_length;
      consistent_lengths = b.consistent_lengths.items;
      included_nodes = b.included_nodes.items;
      hashes = b.hashes;
    } };

    ghost invariant = { λ b. IsAscending b.hashes };
}

// By hand, so that a caller who drops a bundle sees a call and not its parts.
impl<D: SupportedDigest, V: VisitBytes, A: Allocator> Drop for ProofBundle<D, V, A> {
    fn drop(self) {
        let ProofBundle {
            log_length: _,
            consistent_lengths: _,
            included_nodes: _,
            hashes: _,
        } = self;
    }
}

/// By the length, the old lengths, the nodes and the digests, each in order.
impl<D: SupportedDigest, V: VisitBytes, A: Allocator> PartialEq for ProofBundle<D, V, A> {
    ghost use Rattle.std.specs.Prelude.{◌≡◌, ◌↔◌, IsTrue};
    ghost use Rattle.std.specs.Cmp.Rules.{comparing};
    ghost use Rattle.std.proofs.Common.{rules};
    ghost use Rattle.warg_bundle.specs.LogBundles.{same_bundle};

    ghost eq = { same_bundle };

    ghost laws = { Prim.search (comparing, rules) depth 9 };

    fn eq(&self, other: &ProofBundle<D, V, A>) -> bool
        ensures value { result ≡ same_bundle self.now other.now }
        ensures exact { IsTrue result ↔ (self.now ≡ other.now) }
    {
        same_parts(self, other)
    }
}

impl<D: SupportedDigest, V: VisitBytes, A: Allocator> Eq for ProofBundle<D, V, A> {
    ghost use Rattle.std.specs.Cmp.Rules.{comparing};
    ghost use Rattle.std.proofs.Common.{rules};

    ghost laws = { Prim.search (comparing, rules) depth 9 };
}

// Whether two bundles have the same length, old lengths, nodes and digests.
fn same_parts<D: SupportedDigest, V: VisitBytes, A: Allocator>(
    first: &ProofBundle<D, V, A>,
    second: &ProofBundle<D, V, A>,
) -> bool
    ensures { result ≡ same_bundle first.now second.now }
{
    first.log_length == second.log_length
        && first.consistent_lengths == second.consistent_lengths
        && first.included_nodes == second.included_nodes
        && first.hashes.pairs() == second.hashes.pairs()
}

impl<D: SupportedDigest, V: VisitBytes, A: Allocator> ProofBundle<D, V, A> {
    /// The digests, by node.
    pub fn hashes(&self) -> &SparseLogData<D, V, A>
        ensures value { result.now ≡ self.now.hashes }
        ensures ascending { IsAscending self.now.hashes }
    {
        &self.hashes
    }

    /// The number of consistency proofs.
    pub fn consistency_proof_count(&self) -> usize
        ensures { result ≡ length self.now.consistent_lengths }
    {
        self.consistent_lengths.len()
    }

    /// The number of inclusion proofs.
    pub fn inclusion_proof_count(&self) -> usize
        ensures { result ≡ length self.now.included_nodes }
    {
        self.included_nodes.len()
    }

    /// The consistency proof at a place, counted from 0. None exactly if there are no more than `at`.
    pub fn consistency_proof(&self, at: usize) -> Option<ConsistencyProof<D, V>>
        ensures old_length { IfSome result (λ proof.
            slice_get self.now.consistent_lengths at ≡ Some proof.old_length) }
        ensures new_length { IfSome result (λ proof. proof.new_length ≡ self.now.log_length) }
        ensures none { IsNone result ↔ (slice_get self.now.consistent_lengths at ≡ None) }
    {
        match self.consistent_lengths.as_slice().get(at) {
            Some(old_length) => Some(ConsistencyProof::new(
                *old_length as usize,
                self.log_length as usize,
            )),
            None => None,
        }
    }

    /// The inclusion proof at a place, counted from 0. None exactly if there are no more than `at`.
    pub fn inclusion_proof(&self, at: usize) -> Option<InclusionProof<D, V>>
        ensures leaf { IfSome result (λ proof.
            slice_get self.now.included_nodes at ≡ Some proof.leaf) }
        ensures log_length { IfSome result (λ proof. proof.log_length ≡ self.now.log_length) }
        ensures none { IsNone result ↔ (slice_get self.now.included_nodes at ≡ None) }
    {
        match self.included_nodes.as_slice().get(at) {
            Some(node) => Some(InclusionProof::new(*node, self.log_length as usize)),
            None => None,
        }
    }
}

impl<D: SupportedDigest, V: VisitBytes, A: Allocator + Copy> ProofBundle<D, V, A> {
    /// The bundle of these proofs, in their order, with exactly the digests that their evaluation reads.
    ///
    /// The errors, each before allocating: for the consistency proofs in turn `Consistency` with
    /// `PointsOutOfOrder`, and then `DifferentRoots` where the new length isn't the first proof's; for the
    /// inclusion proofs in turn `DifferentRoots`, and then `Inclusion` with `LeafTooNew`; `NoProofs`; and
    /// `TooLarge` where the length is above `u32::MAX`. Then `HashNotFound` where the data lacks a needed
    /// digest. A consistency proof from length 0 needs none.
    ///
    /// All of the bundle lies in `alloc`. The lists of proofs are dropped, and may lie in another allocator.
    ///
    /// ```rust
    /// let proofs = vec![in alloc; releases.prove_inclusion(leaf, releases.length())]?;
    /// let bytes = ProofBundle::bundle(alloc, Vec::new(alloc), proofs, &releases)?.encode(alloc)?;
    /// ```
    pub fn bundle<L: LogData<D, V>>(
        alloc: A,
        consistency_proofs: Vec<ConsistencyProof<D, V>, A>,
        inclusion_proofs: Vec<InclusionProof<D, V>, A>,
        hashes: &L,
    ) -> Result<Self, BundleError>
        ensures { Answers BundleError.Memory result
            (bundled (L.digest_at hashes.now) consistency_proofs.items inclusion_proofs.items) }
    {
        let consistencies = consistency_proofs.as_slice();
        let inclusions = inclusion_proofs.as_slice();
        let log_length = one_length(consistencies, inclusions)?;
        let hashes = needed_digests(alloc, consistencies, inclusions, hashes)?;
        let consistent_lengths = old_lengths(alloc, consistencies)?;
        let included_nodes = leaves(alloc, inclusions)?;
        Ok(ProofBundle {
            log_length,
            consistent_lengths,
            included_nodes,
            hashes,
        })
    }

    /// The bundle's parts: its digests, its consistency proofs and its inclusion proofs, all in order.
    pub fn unbundle(
        &self,
        alloc: A,
    ) -> Result<
        (
            SparseLogData<D, V, A>,
            Vec<ConsistencyProof<D, V>, A>,
            Vec<InclusionProof<D, V>, A>,
        ),
        AllocError,
    >
        ensures hashes { IfOk result (λ parts. parts.0 ≡ self.now.hashes) }
        ensures old_lengths { IfOk result (λ parts.
            map (λ p. p.old_length) parts.1.items ≡ self.now.consistent_lengths) }
        ensures new_lengths { IfOk result (λ parts.
            AllByRecursion (λ p. p.new_length ≡ self.now.log_length) parts.1.items) }
        ensures leaves { IfOk result (λ parts.
            map (λ p. p.leaf) parts.2.items ≡ self.now.included_nodes) }
        ensures log_lengths { IfOk result (λ parts.
            AllByRecursion (λ p. p.log_length ≡ self.now.log_length) parts.2.items) }
    {
        Ok((
            self.hashes.copied(alloc)?,
            consistency_proofs(alloc, &self.consistent_lengths, self.log_length)?,
            inclusion_proofs(alloc, &self.included_nodes, self.log_length)?,
        ))
    }

    /// The bundle that a message holds.
    ///
    /// The faults are looked for entry by entry, at each first `HashLength`, and then `NotAscending` where
    /// its number isn't above the one before. Lengths and nodes are free.
    pub fn from_message(alloc: A, message: Message<A>) -> Result<Self, DecodeError>
        ensures exact { Answers DecodeError.Memory result (log_bundle_in (log_view message)) }
        ensures message { IfOk result (λ bundle. bundle_message bundle ≡ log_view message) }
        ensures wire { (e : _) → result ≢ Err (DecodeError.Wire e) }
    {
        let hashes = read_hashes(alloc, message.hashes.as_slice())?;
        let included_nodes = nodes(alloc, message.included_indices.as_slice())?;
        Ok(ProofBundle {
            log_length: message.log_length,
            consistent_lengths: message.consistent_lengths,
            included_nodes,
            hashes: SparseLogData::from(hashes),
        })
    }

    /// Reads a bundle from the bytes of its message: the first fault of the message, and then that of
    /// [`ProofBundle::from_message`], is the error.
    pub fn decode(alloc: A, bytes: &[u8]) -> Result<Self, DecodeError>
        ensures exact { Answers DecodeError.Memory result (bundle_of bytes.now) }
        ensures wire { result ≢ Err (DecodeError.Wire wire.Memory) }
    {
        let message = Message::decode(alloc, bytes)?;
        ProofBundle::from_message(alloc, message)
    }

    /// The bundle's message, which holds the same bundle. `TooLarge` exactly if a node's number is above
    /// `u32::MAX`, before allocating.
    pub fn to_message(&self, alloc: A) -> Result<Message<A>, EncodeError>
        ensures ok { IfOk result (λ message. log_view message ≡ bundle_message self.now) }
        ensures again { IfOk result (λ message. log_bundle_in (log_view message) ≡ Ok self.now) }
        ensures too_large { (result ≡ Err EncodeError.TooLarge) ↔ ¬ NodesFit self.now }
        ensures fits { OnOk result (NodesFit self.now) }
    {
        let pairs = self.hashes.pairs();
        if !nodes_fit(&self.included_nodes) || !pairs_fit(pairs) {
            return Err(EncodeError::TooLarge);
        }
        let consistent_lengths = Vec::from_slice(alloc, self.consistent_lengths.as_slice())?;
        let included_indices = indices(alloc, self.included_nodes.as_slice())?;
        let hashes = entries(alloc, pairs)?;
        Ok(Message {
            log_length: self.log_length,
            consistent_lengths,
            included_indices,
            hashes,
        })
    }

    /// Writes the bytes of the bundle's message, which are read as the same bundle. `TooLarge` exactly if
    /// a node's number is above `u32::MAX`, before allocating.
    pub fn encode(&self, alloc: A) -> Result<Vec<u8, A>, EncodeError>
        ensures written { IfOk result (λ bytes. bytes.items ≡ log_bytes (bundle_message self.now)) }
        ensures again { IfOk result (λ bytes. bundle_of bytes.items ≡ Ok self.now) }
        ensures too_large { (result ≡ Err EncodeError.TooLarge) ↔ ¬ NodesFit self.now }
        ensures fits { OnOk result (NodesFit self.now) }
    {
        let message = self.to_message(alloc)?;
        Ok(message.encode(alloc)?)
    }
}

// The old lengths of these proofs.
fn old_lengths<D, V, A: Allocator>(
    alloc: A,
    proofs: &[ConsistencyProof<D, V>],
) -> Result<Vec<u32, A>, AllocError>
    requires { AllByRecursion (λ p. p.old_length < 2 ^ 32) proofs.now }
    ensures { IfOk result (λ lengths. lengths.items ≡ map (λ p. p.old_length) proofs.now) }
{
    let mut lengths = Vec::new(alloc);
    'proofs: for proof in proofs {
        lengths.push(proof.old_length() as u32)?;
    }
    Ok(lengths)
}

// The nodes of these proofs.
fn leaves<D, V, A: Allocator>(
    alloc: A,
    proofs: &[InclusionProof<D, V>],
) -> Result<Vec<Node, A>, AllocError>
    ensures { IfOk result (λ nodes. nodes.items ≡ map (λ p. p.leaf) proofs.now) }
{
    let mut nodes = Vec::new(alloc);
    'proofs: for proof in proofs {
        nodes.push(proof.leaf())?;
    }
    Ok(nodes)
}

// The consistency proofs from these old lengths.
fn consistency_proofs<D, V, A: Allocator>(
    alloc: A,
    old_lengths: &[u32],
    new_length: u32,
) -> Result<Vec<ConsistencyProof<D, V>, A>, AllocError>
    ensures old_lengths { IfOk result (λ proofs.
        map (λ p. p.old_length) proofs.items ≡ old_lengths.now) }
    ensures new_lengths { IfOk result (λ proofs.
        AllByRecursion (λ p. p.new_length ≡ new_length) proofs.items) }
{
    let mut proofs = Vec::new(alloc);
    'lengths: for old_length in old_lengths {
        proofs.push(ConsistencyProof::new(*old_length as usize, new_length as usize))?;
    }
    Ok(proofs)
}

// The inclusion proofs of these nodes.
fn inclusion_proofs<D, V, A: Allocator>(
    alloc: A,
    nodes: &[Node],
    log_length: u32,
) -> Result<Vec<InclusionProof<D, V>, A>, AllocError>
    ensures leaves { IfOk result (λ proofs. map (λ p. p.leaf) proofs.items ≡ nodes.now) }
    ensures log_lengths { IfOk result (λ proofs.
        AllByRecursion (λ p. p.log_length ≡ log_length) proofs.items) }
{
    let mut proofs = Vec::new(alloc);
    'nodes: for node in nodes {
        proofs.push(InclusionProof::new(*node, log_length as usize))?;
    }
    Ok(proofs)
}

// The digests of these entries, by node.
fn read_hashes<D, A: Allocator>(
    alloc: A,
    entries: &[HashEntry<A>],
) -> Result<Vec<(Node, Hash<D>), A>, DecodeError>
    ensures ok { IfOk result (λ hashes. hashes.items ≡ map pair_of (map entry_view entries.now)) }
    ensures ascending { IfOk result (λ hashes. IsAscending hashes.items) }
    ensures good { IfOk result (λ hashes. entries_fault 0 (map entry_view entries.now) ≡ None) }
    ensures fault { IfErr result (λ e. (e ≡ DecodeError.Memory)
        ⊎ (entries_fault 0 (map entry_view entries.now) ≡ Some e)) }
    ensures wire { (e : _) → result ≢ Err (DecodeError.Wire e) }
{
    let mut hashes = Vec::new(alloc);
    let mut least = 0;
    'entries: for entry in entries {
        let hash = Hash::try_from(entry.hash.as_slice())?;
        let index = entry.index as usize;
        if index < least {
            return Err(DecodeError::NotAscending);
        }
        hashes.push((Node(index), hash))?;
        least = index + 1;
    }
    Ok(hashes)
}

// The nodes of these numbers.
fn nodes<A: Allocator>(alloc: A, indices: &[u32]) -> Result<Vec<Node, A>, AllocError>
    ensures { IfOk result (λ nodes. nodes.items ≡ map (λ n. record { 0 = n }) indices.now) }
{
    let mut nodes = Vec::new(alloc);
    'indices: for index in indices {
        nodes.push(Node(*index as usize))?;
    }
    Ok(nodes)
}

// Whether all nodes' numbers fit in 32 bits.
fn nodes_fit(nodes: &[Node]) -> bool
    ensures { IsTrue result ↔ AllByRecursion (λ node. node.0 < 2 ^ 32) nodes.now }
{
    'nodes: for node in nodes {
        if node.0 > u32::MAX as usize {
            return false;
        }
    }
    true
}

// Whether the numbers of all digests' nodes fit in 32 bits.
fn pairs_fit<D>(pairs: &[(Node, Hash<D>)]) -> bool
    ensures { IsTrue result ↔ AllByRecursion (λ p. p.0.0 < 2 ^ 32) pairs.now }
{
    'pairs: for pair in pairs {
        if pair.0.0 > u32::MAX as usize {
            return false;
        }
    }
    true
}

// The numbers of these nodes.
fn indices<A: Allocator>(alloc: A, nodes: &[Node]) -> Result<Vec<u32, A>, AllocError>
    requires { AllByRecursion (λ node. node.0 < 2 ^ 32) nodes.now }
    ensures { IfOk result (λ indices. indices.items ≡ map (λ node. node.0) nodes.now) }
{
    let mut indices = Vec::new(alloc);
    'nodes: for node in nodes {
        indices.push(node.0 as u32)?;
    }
    Ok(indices)
}

// The entries of these digests.
fn entries<D, A: Allocator + Copy>(
    alloc: A,
    pairs: &[(Node, Hash<D>)],
) -> Result<Vec<HashEntry<A>, A>, AllocError>
    requires { AllByRecursion (λ p. p.0.0 < 2 ^ 32) pairs.now }
    ensures entries { IfOk result (λ entries.
        map entry_view entries.items ≡ map entry_of pairs.now) }
    ensures lengths { IfOk result (λ entries. AllByRecursion (λ p. length p.1 ≡ 32) pairs.now) }
{
    let mut entries = Vec::new(alloc);
    'pairs: for pair in pairs {
        entries.push(HashEntry::new(alloc, pair.0.0 as u32, &pair.1)?)?;
    }
    Ok(entries)
}
