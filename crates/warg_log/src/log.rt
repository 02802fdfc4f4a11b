//! What all logs have in common: checkpoints, refusals, and the two traits.

ghost use Rattle.std.specs.Prelude.{◌≡◌, ℕ, ◌+◌, ◌*◌, ◌<◌, ◌≤◌, ◌↔◌, map, take, List, [], ◌∷◌, length, Option, IsTrue, IsSome, IfOk, OnOk, OnErr};
ghost use Rattle.warg_crypto.specs.Tree.{leaf_digest};
ghost use Rattle.warg_log.specs.Tree.{root_of, leaves_of};
ghost use Rattle.warg_log.specs.Growing.{Appends};

use crate::consistency::ConsistencyProof;
use crate::node::Node;
use crate::proof::InclusionProof;
use std::alloc::AllocError;
use std::marker::Model;
use thiserror::Error;
use warg_crypto::{Hash, SupportedDigest, VisitBytes};

/// The greatest length of a log: 2^63 entries.
pub const GREATEST_LENGTH: usize = 1 << 63;

/// Why an entry isn't appended.
#[derive(Debug, PartialEq, Eq, Drop, Error)]
pub enum AppendError {
    /// The log has 2^63 entries.
    #[error("log is full")]
    Full,
    /// Memory ran out.
    #[error("out of memory")]
    Memory,
}

impl From<AllocError> for AppendError {
    ghost use Rattle.warg_log.specs.declared.log.AppendError.TheVariants.{Memory};

    ghost from_gives = { λ _ error. error ≡ Memory };

    fn from(_error: AllocError) -> AppendError {
        AppendError::Memory
    }
}

/// An index or a length is none of the log's.
#[derive(Clone, Copy, Debug, PartialEq, Eq, Error)]
#[error("out of the log's range")]
pub struct OutOfRange;

/// A log's root and length, which together fix what the log holds.
///
/// Checkpoints are ordered by their roots' bytes, and then by their lengths.
#[derive_where(Clone, Debug, PartialEq, Eq, PartialOrd, Ord)]
#[derive(Drop)]
pub struct Checkpoint<D> {
    root: Hash<D>,
    length: usize,
}

// Contracts see a checkpoint as its root and its length.
impl<D> Model for Checkpoint<D> {
    ghost use Rattle.warg_log.specs.Claims.{RootAndLength};

    ghost Value = { RootAndLength };

    ghost view = { λ c. record { root = c.root; length = c.length } };

    ghost inverse = { λ c. record { root = c.root; length = c.length } };
}

impl<D> Checkpoint<D> {
    /// The checkpoint of this root and this length, as published.
    pub fn new(root: Hash<D>, length: usize) -> Checkpoint<D>
        ensures root { result.root ≡ root }
        ensures length { result.length ≡ length }
    {
        Checkpoint { root, length }
    }

    /// The root of the tree over the log's entries.
    pub fn root(&self) -> Hash<D>
        ensures { result ≡ self.now.root }
    {
        self.root.copied()
    }

    /// The number of the log's entries.
    pub fn length(&self) -> usize
        ensures { result ≡ self.now.length }
    {
        self.length
    }
}

/// A log that grows by one entry at a time, at its end.
pub trait LogBuilder<D: SupportedDigest, V: VisitBytes> {
    // The number of entries.
    ghost len: { Self → ℕ };

    // The log stands for this list of leaf digests. A log that keeps few digests may stand for several
    // lists.
    ghost stands_for: { Self → List (List ℕ) → Type 0 };

    /// The log's root, that of the tree over its entries, and its length, at most [`GREATEST_LENGTH`].
    fn checkpoint(&self) -> Checkpoint<D>
        ensures root { (ds : List (List ℕ)) → stands_for self.now ds
            → result.root ≡ root_of D.digest ds }
        ensures length { result.length ≡ len self.now }
        ensures fits { len self.now ≤ GREATEST_LENGTH };

    /// Adds an entry at the end, and returns its leaf's node. A refused push leaves the log as it was.
    fn push(&mut self, entry: &V) -> Result<Node, AllocError>
        requires { len self.old < GREATEST_LENGTH }
        ensures node { IfOk result (λ node. node.0 ≡ 2 * len self.old) }
        ensures length { OnOk result (len self.new ≡ len self.old + 1) }
        ensures ok { OnOk result (Appends stands_for self.old self.new
            (leaf_digest D.digest (V.bytes entry.now) ∷ [])) }
        ensures err { OnErr result (self.new ≡ self.old) };

    // Each list that the log stands for has as many digests as the log has entries.
    ghost stands_len: { (s : Self) (ds : List (List ℕ)) → stands_for s ds → length ds ≡ len s };
}

/// Digests by node, of whatever source: a log's own, or those that came with a proof.
pub trait LogData<D: SupportedDigest, V: VisitBytes> {
    // The digest that is held for a node's number, if there is one.
    ghost digest_at: { Self → ℕ → Option (List ℕ) };

    /// Whether the node's digest is held.
    fn has_hash(&self, node: Node) -> bool
        ensures { IsTrue result ↔ IsSome (digest_at self.now node.0) };

    /// The node's digest, if it is held.
    fn hash_for(&self, node: Node) -> Option<Hash<D>>
        ensures { result ≡ digest_at self.now node.0 };

    /// The proof that leads from the digest of a node, mostly a leaf, to the root at a length. Neither
    /// has to be one of this data's: the proof's evaluation says whether they are.
    fn prove_inclusion(&self, leaf: Node, log_length: usize) -> InclusionProof<D, V>
        requires { log_length ≤ GREATEST_LENGTH }
        ensures leaf { result.leaf ≡ leaf }
        ensures log_length { result.log_length ≡ log_length }
    {
        InclusionProof::new(leaf, log_length)
    }

    /// The proof that the log of an old length is a beginning of that of a new one. Neither has to be one
    /// of this data's, nor the old one the smaller: the proof's evaluation says whether they are.
    fn prove_consistency(&self, old_length: usize, new_length: usize) -> ConsistencyProof<D, V>
        requires old_fits { old_length ≤ GREATEST_LENGTH }
        requires new_fits { new_length ≤ GREATEST_LENGTH }
        ensures old_length { result.old_length ≡ old_length }
        ensures new_length { result.new_length ≡ new_length }
    {
        ConsistencyProof::new(old_length, new_length)
    }
}

/// Pushes the entries in order and returns the checkpoint after them.
///
/// It fails only if allocation fails. The log then holds what it held before and the first `k` of the
/// entries, for some `k` below their count.
pub fn push_all<D: SupportedDigest, V: VisitBytes, B: LogBuilder<D, V>>(
    log: &mut B,
    entries: &[V],
) -> Result<Checkpoint<D>, AllocError>
    requires { B.len log.old + length entries.now ≤ GREATEST_LENGTH }
    ensures ok { OnOk result (Appends B.stands_for log.old log.new
        (leaves_of D.digest (map V.bytes entries.now))) }
    ensures grown { OnOk result (B.len log.new ≡ B.len log.old + length entries.now) }
    ensures root { IfOk result (λ checkpoint. (ds : List (List ℕ)) → B.stands_for log.new ds
        → checkpoint.root ≡ root_of D.digest ds) }
    ensures length { IfOk result (λ checkpoint. checkpoint.length ≡ B.len log.new) }
    ensures err { OnErr result ((k : ℕ) × (k < length entries.now)
        × (B.len log.new ≡ B.len log.old + k)
        × Appends B.stands_for log.old log.new
        (leaves_of D.digest (map V.bytes (take k entries.now)))) }
{
    'entries: for entry in entries {
        log.push(entry)?;
    }
    Ok(log.checkpoint())
}
