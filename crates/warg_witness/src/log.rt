//! Witnesses for the log's proofs.

ghost use Rattle.std.specs.Prelude.{◌≡◌, ◌≢◌, ◌+◌, ◌≤◌, ◌∷◌, ℕ, List, length, map, None, Ok, Err, IfOk, MatchOption, ⊤};
ghost use Rattle.warg_crypto.specs.Collisions.{Collides};
ghost use Rattle.warg_crypto.specs.Tree.{leaf_digest};
ghost use Rattle.warg_log.specs.Inclusion.{inclusion};
ghost use Rattle.warg_log.specs.Nodes.{ExistsAt};
ghost use Rattle.warg_log.specs.Tree.{leaves_of};
ghost use Rattle.warg_log.specs.Ranges.{IsAligned};
ghost use Rattle.warg_log.specs.declared.proof.InclusionProofError.{InclusionProofError};
ghost use Rattle.warg_witness.specs.Findings.{Finds};
ghost use Rattle.warg_witness.specs.Claims.{IsMet, IsEntry, IsRootBelow, IsAgreement};
ghost use Rattle.warg_witness.specs.Placed.{IsValuePlaced, IsHashPlaced, IsAgreementPlaced};
ghost use Rattle.warg_witness.specs.Inputs.{plain_input};
ghost use Rattle.warg_witness.specs.Private.Agreement.{IsAt, IsFoundAt};
ghost use Rattle.warg_witness.specs.Private.Divergence.{Parts, inputs_of};
ghost use Rattle.warg_witness.specs.Private.Meeting.{IsMeeting, IsPlainAt};

mod consistency;

use crate::collision::Finding;
use crate::divergence::{Divergence, compare_values};
use crate::plain::{entry_at, plain_digest, plain_tree};
use crate::ranges::meet_ranges;
pub use consistency::witness_consistency;
use std::alloc::{AllocError, Allocator};
use warg_crypto::{Branch, Hash, Leaf, SupportedDigest, VisitBytes, hash_leaf, have_same_bytes};
use warg_log::{InclusionProof, LeafRange, LogData, VecLog};

/// A proof whose evaluation leads to the root of the given entries.
#[derive(Drop)]
pub(crate) struct Meeting<D: SupportedDigest, V: VisitBytes, A: Allocator> {
    // The tree over the entries.
    tree: VecLog<D, V, A>,
    // The node's leaves, and the root over them in that tree.
    target: LeafRange,
    plain: Hash<D>,
    // Where the evaluation diverges from the tree on the way from the root to the node.
    divergence: Divergence<D>,
}

// The meeting of a proof with a digest at its node with the entries, or None where they don't meet.
#[tactic(auto, using(crate::proofs::CutLemmas::counted, warg_log::proofs::ForCallers::inclusion_leads))]
fn meet_entries<D: SupportedDigest, V: VisitBytes, L: LogData<D, V>, A: Allocator + Copy>(
    alloc: A,
    proof: &InclusionProof<D, V>,
    hashes: &L,
    hash: &Hash<D>,
    entries: &[V],
) -> Result<Option<Meeting<D, V, A>>, AllocError>
    ensures count { length entries.now ≢ proof.now.log_length → result ≡ Ok None }
    ensures fails { (e : InclusionProofError)
        → inclusion D.digest (L.digest_at hashes.now) proof.now hash.now ≡ Err e
        → result ≡ Ok None }
    ensures met { IfOk result (λ met. MatchOption met
        (¬ (IsMet D.digest (L.digest_at hashes.now) proof.now hash.now
        (map V.bytes entries.now)))
        (λ m. IsPlainAt D.digest proof.now.leaf.0 m.tree m.target m.plain
        × IsMeeting D.digest (L.digest_at hashes.now) proof.now hash.now (map V.bytes entries.now)
        m.tree m.divergence)) }
{
    if entries.len() != proof.log_length() {
        return Ok(None);
    }
    let Ok(_) = proof.evaluate_hash(hashes, hash.copied()) else {
        return Ok(None);
    };
    let tree = plain_tree(alloc, entries)?;
    Ok(meet_tree(proof, hashes, hash, tree))
}

// The meeting of a proof with a tree that is as long as it says, or None where they don't meet.
#[tactic(auto, using(crate::proofs::RangeLemmas::wholes))]
fn meet_tree<D: SupportedDigest, V: VisitBytes, L: LogData<D, V>, A: Allocator>(
    proof: &InclusionProof<D, V>,
    hashes: &L,
    hash: &Hash<D>,
    tree: VecLog<D, V, A>,
) -> Option<Meeting<D, V, A>>
    requires count { length tree ≡ proof.now.log_length }
    requires exists { ExistsAt proof.now.leaf.0 proof.now.log_length }
    ensures { (entries : List (List ℕ)) → tree ≡ leaves_of D.digest entries → MatchOption result
        (¬ (IsMet D.digest (L.digest_at hashes.now) proof.now hash.now entries))
        (λ m. IsPlainAt D.digest proof.now.leaf.0 m.tree m.target m.plain
        × IsMeeting D.digest (L.digest_at hashes.now) proof.now hash.now entries m.tree m.divergence) }
{
    let target = proof.leaf().leaf_range();
    let whole = LeafRange::new(0, proof.log_length());
    let plain = plain_digest(&tree, &target);
    let divergence = meet_ranges(hashes, hash, &tree, &plain, &target, &whole)?;
    Some(Meeting {
        tree,
        target,
        plain,
        divergence,
    })
}

/// Whether a proof's claim about a value is true of the entries: the node is a leaf, and its entry has the
/// value's bytes.
///
/// `NotMet` exactly if the entries aren't as many as the proof's length says, or the evaluation over the
/// data isn't Ok, both of which are decided before allocating, or it isn't with the root of the tree over the
/// entries. `Holds` exactly if it is, and the claim is true. Else a collision: what the digest function
/// takes in the evaluation (first) and in the tree over the entries (second) at one range around the node.
///
/// It hashes each leaf and branch of the tree over the entries once, and besides the value and at most three
/// times as many branches as the proof's evaluation has. It fails only if allocation fails. A value or an entry of
/// more than `usize::MAX` bytes counts as that: no copy of it could be had.
///
/// ```rust
/// match witness_value(alloc, &proof, &data, &"left-pad 6.6.6", &["left-pad 1.0.0"])? {
///     Finding::Collision(pair) => report(pair.first(), pair.second()),
///     Finding::Holds | Finding::NotMet => (),
/// }
/// ```
pub fn witness_value<D: SupportedDigest, V: VisitBytes, L: LogData<D, V>, A: Allocator + Copy>(
    alloc: A,
    proof: &InclusionProof<D, V>,
    hashes: &L,
    value: &V,
    entries: &[V],
) -> Result<Finding<D, A>, AllocError>
    ensures count { length entries.now ≢ proof.now.log_length → result ≡ Ok Finding.NotMet }
    ensures fails { (e : InclusionProofError)
        → inclusion D.digest (L.digest_at hashes.now) proof.now
        (leaf_digest D.digest (V.bytes value.now)) ≡ Err e → result ≡ Ok Finding.NotMet }
    ensures found { IfOk result (Finds
        (IsMet D.digest (L.digest_at hashes.now) proof.now
        (leaf_digest D.digest (V.bytes value.now)) (map V.bytes entries.now))
        (IsEntry (V.bytes value.now) proof.now.leaf.0 (map V.bytes entries.now))
        (IsValuePlaced D.digest (L.digest_at hashes.now) (V.bytes value.now) proof.now.leaf.0
        (map V.bytes entries.now))) }
{
    let hash = hash_leaf::<D, V>(value);
    let Some(met) = meet_entries(alloc, proof, hashes, &hash, entries)? else {
        return Ok(Finding::NotMet);
    };
    find_value(alloc, value, entries, &met)
}

// What a value shows whose proof leads to the root of the entries.
#[tactic(auto, using(std::proofs::lemmas::Bool::iff_false, crate::proofs::RangeLemmas::parts, crate::proofs::CutLemmas::counted))]
fn find_value<D: SupportedDigest, V: VisitBytes, A: Allocator + Copy>(
    alloc: A,
    value: &V,
    entries: &[V],
    met: &Meeting<D, V, A>,
) -> Result<Finding<D, A>, AllocError>
    requires tree { met.now.tree ≡ leaves_of D.digest (map V.bytes entries.now) }
    requires aligned { IsAligned met.now.target.start met.now.target.count }
    requires within { met.now.target.start + met.now.target.count ≤ length met.now.tree }
    requires collides { ¬ (IsAt (V.bytes value.now) (map V.bytes entries.now)
        met.now.target.start met.now.target.count)
        → Collides D.digest (inputs_of met.now.divergence (0 ∷ V.bytes value.now)
        (plain_input D.digest (map V.bytes entries.now) met.now.target.start met.now.target.count)) }
    ensures { IfOk result (Finds ⊤
        (IsAt (V.bytes value.now) (map V.bytes entries.now)
        met.now.target.start met.now.target.count)
        (λ first second. (first, second) ≡ inputs_of met.now.divergence (0 ∷ V.bytes value.now)
        (plain_input D.digest (map V.bytes entries.now) met.now.target.start met.now.target.count))) }
{
    let target = &met.target;
    if target.count != 1 {
        let (front, rest) = target.split();
        let (left, right) = (
            plain_digest(&met.tree, &front),
            plain_digest(&met.tree, &rest),
        );
        let plain = Branch(&left, &right);
        return Ok(Finding::Collision(met.divergence.collide(alloc, &Leaf(value), &plain)?));
    }
    let entry = entry_at(entries, target.start);
    if have_same_bytes(value, entry)? {
        return Ok(Finding::Holds);
    }
    let pair = met.divergence.collide(alloc, &Leaf(value), &Leaf(entry))?;
    Ok(Finding::Collision(pair))
}

/// Whether a proof's claim about a hash is true of the entries: the hash is the root of the entries below
/// the node.
///
/// `NotMet` exactly if the entries aren't as many as the proof's length says, or the evaluation over the
/// data isn't Ok, both of which are decided before allocating, or it isn't with the root of the tree over the
/// entries. `Holds` exactly if it is, and the claim is true. Else a collision: what the digest function
/// takes in the evaluation (first) and in the tree over the entries (second) at one range around the node.
///
/// It hashes each leaf and branch of the tree over the entries once, and besides at most three times as many
/// branches as the proof's evaluation has. It fails only if allocation fails.
#[tactic(auto, using(crate::proofs::AgreementLemmas::branches_collide))]
pub fn witness_hash<D: SupportedDigest, V: VisitBytes, L: LogData<D, V>, A: Allocator + Copy>(
    alloc: A,
    proof: &InclusionProof<D, V>,
    hashes: &L,
    hash: Hash<D>,
    entries: &[V],
) -> Result<Finding<D, A>, AllocError>
    ensures count { length entries.now ≢ proof.now.log_length → result ≡ Ok Finding.NotMet }
    ensures fails { (e : InclusionProofError)
        → inclusion D.digest (L.digest_at hashes.now) proof.now hash ≡ Err e
        → result ≡ Ok Finding.NotMet }
    ensures found { IfOk result (Finds
        (IsMet D.digest (L.digest_at hashes.now) proof.now hash (map V.bytes entries.now))
        (IsRootBelow D.digest hash proof.now.leaf.0 (map V.bytes entries.now))
        (IsHashPlaced D.digest (L.digest_at hashes.now) hash proof.now.leaf.0
        (map V.bytes entries.now))) }
{
    let Some(met) = meet_entries(alloc, proof, hashes, &hash, entries)? else {
        return Ok(Finding::NotMet);
    };
    find_hash(alloc, &met.divergence, &hash, &met.plain)
}

// What a hash that isn't the plain one shows, where its evaluation diverges from the tree.
fn find_hash<D: SupportedDigest, A: Allocator + Copy>(
    alloc: A,
    divergence: &Divergence<D>,
    hash: &Hash<D>,
    plain: &Hash<D>,
) -> Result<Finding<D, A>, AllocError>
    requires { Parts D.digest (λ first second. ⊤) ⊤ divergence.now }
    ensures { IfOk result (IsFoundAt divergence.now (hash.now ≡ plain.now)) }
{
    let Divergence::Branch(branches) = divergence else {
        return Ok(Finding::Holds);
    };
    if hash == plain {
        return Ok(Finding::Holds);
    }
    Ok(Finding::Collision(branches.collide(alloc)?))
}

/// Whether two evaluations of one proof, over two data and with two values, that lead to one root, whichever
/// it is, are of the same value: for a client that holds no entries.
///
/// `NotMet` exactly if one evaluation isn't Ok or both lead to different roots, which does not allocate.
/// `Holds` exactly if both are Ok with one root, and the values have the same bytes. Else a collision: what
/// the digest function takes in the first and in the second evaluation at one range around the node.
///
/// It hashes both values, and each branch of both evaluations once. It fails only if allocation fails. A value of more
/// than `usize::MAX` bytes counts as that.
#[tactic(auto, using(crate::proofs::RangeLemmas::wholes))]
pub fn agree_value<
    D: SupportedDigest,
    V: VisitBytes,
    L: LogData<D, V>,
    M: LogData<D, V>,
    A: Allocator + Copy,
>(
    alloc: A,
    proof: &InclusionProof<D, V>,
    first_hashes: &L,
    first_value: &V,
    second_hashes: &M,
    second_value: &V,
) -> Result<Finding<D, A>, AllocError>
    ensures unmet { ¬ (IsAgreement D.digest proof.now
        (L.digest_at first_hashes.now) (leaf_digest D.digest (V.bytes first_value.now))
        (M.digest_at second_hashes.now) (leaf_digest D.digest (V.bytes second_value.now)))
        → result ≡ Ok Finding.NotMet }
    ensures found { IfOk result (Finds
        (IsAgreement D.digest proof.now
        (L.digest_at first_hashes.now) (leaf_digest D.digest (V.bytes first_value.now))
        (M.digest_at second_hashes.now) (leaf_digest D.digest (V.bytes second_value.now)))
        (V.bytes first_value.now ≡ V.bytes second_value.now)
        (IsAgreementPlaced D.digest (L.digest_at first_hashes.now, V.bytes first_value.now)
        (M.digest_at second_hashes.now, V.bytes second_value.now) proof.now.leaf.0 proof.now.log_length)) }
{
    let first_hash = hash_leaf::<D, V>(first_value);
    let second_hash = hash_leaf::<D, V>(second_value);
    if !proof.leaf().exists_at_length(proof.log_length()) {
        return Ok(Finding::NotMet);
    }
    let target = proof.leaf().leaf_range();
    let whole = LeafRange::new(0, proof.log_length());
    let met = meet_ranges(
        first_hashes,
        &first_hash,
        second_hashes,
        &second_hash,
        &target,
        &whole,
    );
    compare_values(alloc, &met, first_value, second_value)
}
