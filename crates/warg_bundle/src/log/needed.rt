//! The one length of proofs, and the nodes whose digests they need.

ghost use Rattle.std.specs.Prelude.{◌≡◌, ℕ, ◌^◌, ◌<◌, ◌≤◌, None, Some, Ok, IfOk, OnOk, map, [], ◌++◌};
ghost use Rattle.std.specs.List.{AllByRecursion, flat_map};
ghost use Rattle.warg_log.specs.Nodes.{ExistsAt};
ghost use Rattle.warg_log.specs.Sparse.{IsAscending};
ghost use Rattle.warg_log.specs.Walks.{needed, needed_between};
ghost use Rattle.warg_protobuf.specs.Decoding.{unless, first_fault};
ghost use Rattle.warg_protobuf.specs.Reading.{Answers};
ghost use Rattle.warg_bundle.specs.Bundling.{consistency_fault, inclusion_fault, first_length, bundle_length, node_fault, node_with_digest};
ghost use Rattle.warg_bundle.specs.Private.Unions.{IsUnion, IsCollected};
ghost use Rattle.warg_bundle.specs.Private.Needed.{digests_at};
ghost use Rattle.warg_bundle.specs.Private.Checks.{fault_in};

use crate::log::error::BundleError;
use indexmap::IndexSet;
use std::alloc::{AllocError, Allocator};
use std::hash::{BuildHasherDefault, FoldHasher};
use warg_crypto::{SupportedDigest, VisitBytes};
use warg_log::{
    ConsistencyProof, ConsistencyProofError, InclusionProof, InclusionProofError, LogData, Node,
    SparseLogData,
};

// Numbers of nodes.
pub(crate) type Numbers<A> = IndexSet<usize, BuildHasherDefault<FoldHasher>, A>;

// The length of the first proof, consistency proofs before inclusion proofs.
fn length_of_first<D, V>(
    consistencies: &[ConsistencyProof<D, V>],
    inclusions: &[InclusionProof<D, V>],
) -> Result<usize, BundleError>
    ensures { result ≡ first_length consistencies.now inclusions.now }
{
    if let Some(proof) = consistencies.first() {
        return Ok(proof.new_length());
    }
    match inclusions.first() {
        Some(proof) => Ok(proof.log_length()),
        None => Err(BundleError::NoProofs),
    }
}

// Whether all these proofs end at this length.
fn check_consistencies<D, V>(
    proofs: &[ConsistencyProof<D, V>],
    length: usize,
) -> Result<(), BundleError>
    ensures { fault_in result ≡ first_fault (consistency_fault length) proofs.now }
{
    'proofs: for proof in proofs {
        if proof.old_length() > proof.new_length() {
            return Err(BundleError::Consistency(ConsistencyProofError::PointsOutOfOrder));
        }
        if proof.new_length() != length {
            return Err(BundleError::DifferentRoots);
        }
    }
    Ok(())
}

// Whether all these proofs are of this length, and their nodes exist there.
fn check_inclusions<D, V>(proofs: &[InclusionProof<D, V>], length: usize) -> Result<(), BundleError>
    ensures { fault_in result ≡ first_fault (inclusion_fault length) proofs.now }
{
    'proofs: for proof in proofs {
        if let Some(fault) = inclusion_fault(proof, length) {
            return Err(fault);
        }
    }
    Ok(())
}

// Why an inclusion proof isn't of this length, or its node doesn't exist there.
fn inclusion_fault<D, V>(proof: &InclusionProof<D, V>, length: usize) -> Option<BundleError>
    ensures { result ≡ inclusion_fault length proof.now }
{
    if proof.log_length() != length {
        return Some(BundleError::DifferentRoots);
    }
    if !proof.leaf().exists_at_length(length) {
        return Some(BundleError::Inclusion(InclusionProofError::LeafTooNew));
    }
    None
}

// Adds the nodes that an inclusion proof needs.
pub(crate) fn add_inclusion<D: SupportedDigest, V: VisitBytes, A: Allocator + Copy>(
    numbers: &mut Numbers<A>,
    alloc: A,
    proof: &InclusionProof<D, V>,
) -> Result<(), AllocError>
    requires { ExistsAt proof.now.leaf.0 proof.now.log_length }
    ensures { OnOk result (IsUnion numbers.old.keys numbers.new.keys
        (needed proof.now.leaf.0 proof.now.log_length)) }
{
    let walk = match proof.walk(alloc) {
        Ok(walk) => walk,
        Err(_) => return Err(AllocError),
    };
    'nodes: for node in walk.nodes() {
        numbers.insert(node.0)?;
    }
    Ok(())
}

// Adds the nodes that a consistency proof needs.
pub(crate) fn add_consistency<D: SupportedDigest, V: VisitBytes, A: Allocator + Copy>(
    numbers: &mut Numbers<A>,
    alloc: A,
    proof: &ConsistencyProof<D, V>,
) -> Result<(), AllocError>
    requires { proof.now.old_length ≤ proof.now.new_length }
    ensures { OnOk result (IsUnion numbers.old.keys numbers.new.keys
        (needed_between proof.now.old_length proof.now.new_length)) }
{
    let inclusions = match proof.inclusions(alloc) {
        Ok(inclusions) => inclusions,
        Err(_) => return Err(AllocError),
    };
    'roots: for inclusion in inclusions.as_slice() {
        numbers.insert(inclusion.leaf().0)?;
        add_inclusion(numbers, alloc, inclusion)?;
    }
    Ok(())
}

// The digests of the nodes of these numbers, by node.
fn digests_of<D: SupportedDigest, V: VisitBytes, L: LogData<D, V>, A: Allocator>(
    alloc: A,
    numbers: &[usize],
    hashes: &L,
) -> Result<SparseLogData<D, V, A>, BundleError>
    requires { IsAscending (map (node_with_digest (L.digest_at hashes.now)) numbers.now) }
    ensures { let F = L.digest_at hashes.now in Answers BundleError.Memory result
        (unless (first_fault (node_fault F) numbers.now) (map (node_with_digest F) numbers.now)) }
{
    let mut pairs = Vec::new(alloc);
    'numbers: for number in numbers {
        let node = Node(*number);
        match hashes.hash_for(node) {
            Some(hash) => pairs.push((node, hash))?,
            None => return Err(BundleError::HashNotFound),
        }
    }
    Ok(SparseLogData::from(pairs))
}

// The one length of the proofs of a bundle.
pub(crate) fn one_length<D, V>(
    consistencies: &[ConsistencyProof<D, V>],
    inclusions: &[InclusionProof<D, V>],
) -> Result<u32, BundleError>
    ensures value { result ≡ bundle_length consistencies.now inclusions.now }
    ensures fits { IfOk result (λ n. n < 2 ^ 32) }
{
    let length = length_of_first(consistencies, inclusions)?;
    check_consistencies(consistencies, length)?;
    check_inclusions(inclusions, length)?;
    if length > u32::MAX as usize {
        return Err(BundleError::TooLarge);
    }
    Ok(length as u32)
}

// The digests of the nodes that the proofs of one length need, by node.
pub(crate) fn needed_digests<
    D: SupportedDigest,
    V: VisitBytes,
    L: LogData<D, V>,
    A: Allocator + Copy,
>(
    alloc: A,
    consistencies: &[ConsistencyProof<D, V>],
    inclusions: &[InclusionProof<D, V>],
    hashes: &L,
) -> Result<SparseLogData<D, V, A>, BundleError>
    requires { (n : ℕ) × (bundle_length consistencies.now inclusions.now ≡ Ok n) }
    ensures { (n : ℕ) → bundle_length consistencies.now inclusions.now ≡ Ok n
        → Answers BundleError.Memory result (digests_at (L.digest_at hashes.now)
        (map (λ p. p.old_length) consistencies.now) (map (λ p. p.leaf) inclusions.now) n) }
{
    let mut numbers = IndexSet::new(alloc);
    collect(&mut numbers, alloc, consistencies, inclusions)?;
    digests_of(alloc, numbers.as_slice(), hashes)
}

// Collects the numbers of the nodes that the proofs need, ascending.
fn collect<D: SupportedDigest, V: VisitBytes, A: Allocator + Copy>(
    numbers: &mut Numbers<A>,
    alloc: A,
    consistencies: &[ConsistencyProof<D, V>],
    inclusions: &[InclusionProof<D, V>],
) -> Result<(), AllocError>
    requires none { numbers.old.keys ≡ [] }
    requires consistencies { AllByRecursion (λ p. p.old_length ≤ p.new_length) consistencies.now }
    requires inclusions { AllByRecursion (λ p. ExistsAt p.leaf.0 p.log_length) inclusions.now }
    ensures { OnOk result (IsCollected numbers.new.keys (flat_map
        (λ p. needed_between p.old_length p.new_length) consistencies.now ++ flat_map
        (λ p. needed p.leaf.0 p.log_length) inclusions.now)) }
{
    add_consistencies(numbers, alloc, consistencies)?;
    add_inclusions(numbers, alloc, inclusions)?;
    numbers.sort()
}

fn add_consistencies<D: SupportedDigest, V: VisitBytes, A: Allocator + Copy>(
    numbers: &mut Numbers<A>,
    alloc: A,
    proofs: &[ConsistencyProof<D, V>],
) -> Result<(), AllocError>
    requires { AllByRecursion (λ p. p.old_length ≤ p.new_length) proofs.now }
    ensures { OnOk result (IsUnion numbers.old.keys numbers.new.keys
        (flat_map (λ p. needed_between p.old_length p.new_length) proofs.now)) }
{
    'proofs: for proof in proofs {
        add_consistency(numbers, alloc, proof)?;
    }
    Ok(())
}

fn add_inclusions<D: SupportedDigest, V: VisitBytes, A: Allocator + Copy>(
    numbers: &mut Numbers<A>,
    alloc: A,
    proofs: &[InclusionProof<D, V>],
) -> Result<(), AllocError>
    requires { AllByRecursion (λ p. ExistsAt p.leaf.0 p.log_length) proofs.now }
    ensures { OnOk result (IsUnion numbers.old.keys numbers.new.keys
        (flat_map (λ p. needed p.leaf.0 p.log_length) proofs.now)) }
{
    'proofs: for proof in proofs {
        add_inclusion(numbers, alloc, proof)?;
    }
    Ok(())
}
