//! A log that keeps the digest of every node.

ghost use Rattle.std.specs.Prelude.{◌≡◌, ℕ, ◌+◌, ◌-◌, ◌*◌, ◌<◌, ◌≤◌, ◌↔◌, List, [], ◌∷◌, ◌++◌, length, Err, IsOk, IfOk, OnOk, OnErr};
ghost use Rattle.std.proofs.Common.{ap, sym};
ghost use Rattle.warg_crypto.specs.Tree.{leaf_digest};
ghost use Rattle.warg_log.specs.Tree.{slice_of, root_of, leaves_in, own_digest};
ghost use Rattle.warg_log.specs.Private.Slices.{IsSliceUpTo};

mod image;

use crate::consistency::ConsistencyProof;
use crate::log::{AppendError, Checkpoint, GREATEST_LENGTH, LogBuilder, LogData, OutOfRange};
use crate::node::Node;
use crate::proof::InclusionProof;
use std::alloc::{AllocError, Allocator, Global};
use std::marker::{Model, PhantomData};
use warg_crypto::{Hash, SupportedDigest, VisitBytes, hash_branch, hash_empty, hash_leaf};

/// A log that keeps the digest of every node in one slice, at the place of the node's number.
///
/// It has the digests of each of its own inclusion and consistency proofs, at any length up to its
/// own. For `n` entries it keeps `2 * n - 1` digests; a node that doesn't exist yet has a spacer at
/// its place, the digest of no bytes, which is never returned as the node's.
///
/// ```rust
/// let mut releases: VecLog<Sha256, &str> = VecLog::default(alloc);
/// let leaf = releases.push(&"left-pad 1.0.0")?;
/// let checkpoint = releases.checkpoint();
/// ```
#[derive(Drop)]
pub struct VecLog<D: SupportedDigest, V: VisitBytes, A: Allocator = Global> {
    count: usize,
    tree: Vec<Hash<D>, A>,
    spacer: Hash<D>,
    of: PhantomData<V>,
}

// Contracts see the log as the list of its leaf digests.
impl<D: SupportedDigest, V: VisitBytes, A: Allocator> Model for VecLog<D, V, A> {
    ghost use Rattle.warg_log.specs.declared.log.TheConstants.{GREATEST_LENGTH};
    ghost use Rattle.std.specs.Prelude.{◌≡◌, ◌≤◌, ℕ, List, [], length};
    ghost use Rattle.warg_log.specs.Tree.{slice_of, leaves_in};

    ghost Value = { List (List ℕ) };

    ghost view = { λ l. leaves_in l.tree.items };

    ghost invariant = { λ l. (l.count ≡ length (leaves_in l.tree.items))
        × (l.tree.items ≡ slice_of D.digest (leaves_in l.tree.items)) × (l.spacer ≡ D.digest [])
        × (l.count ≤ GREATEST_LENGTH) };
}

impl<D: SupportedDigest, V: VisitBytes, A: Allocator> VecLog<D, V, A> {
    /// The log of no entries. It does not allocate yet.
    pub fn default(alloc: A) -> Self
        ensures { result ≡ [] }
    {
        VecLog {
            count: 0,
            tree: Vec::new(alloc),
            spacer: hash_empty(),
            of: PhantomData,
        }
    }

    /// The number of entries, at most [`GREATEST_LENGTH`](crate::GREATEST_LENGTH).
    pub fn length(&self) -> usize
        ensures value { result ≡ length self.now }
        ensures fits { length self.now ≤ GREATEST_LENGTH }
    {
        self.count
    }

    /// The root of the tree over the entries, as in the [`checkpoint`](LogBuilder::checkpoint): for no entries the
    /// digest of no bytes (RFC 6962, section 2.1). It hashes the branches over the balanced roots, which the log
    /// doesn't keep.
    #[tactic(auto, using(crate::proofs::NodeLemmas::last_width))]
    pub fn root(&self) -> Hash<D>
        ensures { result ≡ root_of D.digest self.now }
    {
        let mut root = None;
        let mut end = self.count;
        'roots: while end > 0 {
            let start = end - (1 << end.trailing_zeros());
            let left = &self.tree[start + end - 1];
            root = Some(match root {
                Some(right) => hash_branch(left, &right),
                None => left.copied(),
            });
            end = start;
        }
        root.unwrap_or(self.spacer.copied())
    }

    /// The digests of the nodes by their numbers, up to the last leaf's: `2 * n - 1` for `n` entries. A
    /// node that doesn't exist yet has the digest of no bytes.
    pub fn as_ref(&self) -> &[Hash<D>]
        ensures { result.now ≡ slice_of D.digest self.now }
    {
        self.tree.as_slice()
    }

    /// A log of the same entries. It fails only if allocation fails.
    pub fn clone(&self) -> Result<Self, AllocError>
    where
        A: Clone,
        ensures { IfOk result (λ log. log ≡ self.now) }
    {
        let tree = self.tree.clone()?;
        Ok(VecLog {
            count: self.count,
            tree,
            spacer: self.spacer.copied(),
            of: PhantomData,
        })
    }

    /// Adds an entry at the end, as [`push`](LogBuilder::push), and returns its leaf's node: `Full` exactly if the log has
    /// 2^63 entries. A refusal leaves the log as it was.
    pub fn append(&mut self, entry: &V) -> Result<Node, AppendError>
        ensures ok { OnOk result (self.new ≡ self.old ++ leaf_digest D.digest
            (V.bytes entry.now) ∷ []) }
        ensures node { IfOk result (λ node. node.0 ≡ 2 * length self.old) }
        ensures full { (result ≡ Err AppendError.Full) ↔ (length self.old ≡ GREATEST_LENGTH) }
        ensures err { OnErr result (self.new ≡ self.old) }
    {
        if self.length() == GREATEST_LENGTH {
            return Err(AppendError::Full);
        }
        Ok(self.push(entry)?)
    }

    /// The proof that leads from the entry at an index, counted from 0, to the log's root at a length: `OutOfRange` exactly
    /// if the index isn't below the length, or the length is above the log's.
    pub fn proof_at(
        &self,
        index: usize,
        log_length: usize,
    ) -> Result<InclusionProof<D, V>, OutOfRange>
        ensures leaf { IfOk result (λ proof. proof.leaf.0 ≡ 2 * index) }
        ensures length { IfOk result (λ proof. proof.log_length ≡ log_length) }
        ensures exactly { IsOk result ↔ ((index < log_length) × (log_length ≤ length self.now)) }
    {
        if index < log_length && log_length <= self.length() {
            Ok(self.prove_inclusion(Node::leaf(index), log_length))
        } else {
            Err(OutOfRange)
        }
    }

    /// The proof that the log of an old length is a beginning of that of a new one: `OutOfRange` exactly if the old length
    /// is 0 or above the new one, or the new one is above the log's.
    pub fn growth_between(
        &self,
        old_length: usize,
        new_length: usize,
    ) -> Result<ConsistencyProof<D, V>, OutOfRange>
        ensures old_length { IfOk result (λ proof. proof.old_length ≡ old_length) }
        ensures new_length { IfOk result (λ proof. proof.new_length ≡ new_length) }
        ensures exactly { IsOk result ↔ ((0 < old_length) × (old_length ≤ new_length)
            × (new_length ≤ length self.now)) }
    {
        if 0 < old_length && old_length <= new_length && new_length <= self.length() {
            Ok(self.prove_consistency(old_length, new_length))
        } else {
            Err(OutOfRange)
        }
    }

    // Adds an entry at the end by its leaf digest. A refusal leaves the log as it was.
    fn push_leaf(&mut self, digest: Hash<D>) -> Result<(), AllocError>
        requires { length self.old < GREATEST_LENGTH }
        ensures ok { OnOk result (self.new ≡ self.old ++ digest ∷ []) }
        ensures err { OnErr result (self.new ≡ self.old) }
    {
        let tree = &mut self.tree;
        tree.reserve(2)?;
        if self.count != 0 {
            tree.push_reserved(self.spacer.copied());
        }
        tree.push_reserved(digest);
        self.count += 1;
        join_up(tree, self.count);
        Ok(())
    }
}

impl<D: SupportedDigest, V: VisitBytes, A: Allocator> LogBuilder<D, V> for VecLog<D, V, A> {
    ghost len = { λ l. length l };

    ghost stands_for = { λ l ds. l ≡ ds };

    fn checkpoint(&self) -> Checkpoint<D>
        ensures root { result.root ≡ root_of D.digest self.now }
        ensures length { result.length ≡ length self.now }
        ensures fits { length self.now ≤ GREATEST_LENGTH }
    {
        Checkpoint::new(self.root(), self.count)
    }

    fn push(&mut self, entry: &V) -> Result<Node, AllocError>
        requires { length self.old < GREATEST_LENGTH }
        ensures node { IfOk result (λ node. node.0 ≡ 2 * length self.old) }
        ensures ok { OnOk result (self.new ≡ self.old ++ leaf_digest D.digest
            (V.bytes entry.now) ∷ []) }
        ensures err { OnErr result (self.new ≡ self.old) }
    {
        let leaf = Node::leaf(self.count);
        self.push_leaf(hash_leaf::<D, V>(entry))?;
        Ok(leaf)
    }

    ghost stands_len = { λ s ds e. ap length (sym e) };
}

impl<D: SupportedDigest, V: VisitBytes, A: Allocator> LogData<D, V> for VecLog<D, V, A> {
    ghost digest_at = { λ l x. own_digest D.digest l x };

    fn has_hash(&self, node: Node) -> bool {
        node.exists_at_length(self.count)
    }

    fn hash_for(&self, node: Node) -> Option<Hash<D>> {
        if node.exists_at_length(self.count) {
            Some(self.tree[node.0].copied())
        } else {
            None
        }
    }
}

// Fills in the digests of the branches that a new last leaf completes: as many as the count of leaves has
// trailing zeros.
fn join_up<D: SupportedDigest, A: Allocator>(tree: &mut Vec<Hash<D>, A>, count: usize)
    requires some { 0 < count }
    requires fits { count ≤ GREATEST_LENGTH }
    requires count { length (leaves_in tree.old.items) ≡ count }
    requires slice { IsSliceUpTo D.digest (leaves_in tree.old.items) tree.old.items 0 }
    ensures leaves { leaves_in tree.new.items ≡ leaves_in tree.old.items }
    ensures slice { tree.new.items ≡ slice_of D.digest (leaves_in tree.old.items) }
{
    let mut at = 2 * (count - 1);
    let mut digest = tree[at].copied();
    'up: for height in 0..count.trailing_zeros() {
        let distance = 1 << height;
        digest = hash_branch(&tree[at - 2 * distance], &digest);
        at -= distance;
        tree[at] = digest.copied();
    }
}
