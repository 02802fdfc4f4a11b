//! A log that keeps the digests of its balanced roots alone.

ghost use Rattle.std.specs.Prelude.{◌≡◌, ℕ, ◌+◌, ◌*◌, ◌<◌, ◌≤◌, ◌↔◌, List, [], ◌∷◌, ◌++◌, Some, length, map, Err, IsTrue, IfOk, OnOk, OnErr, vec_capacity, vec_len};
ghost use Rattle.warg_log.specs.Nodes.{height_of, start_of, balanced_roots};
ghost use Rattle.warg_crypto.specs.Tree.{leaf_digest};
ghost use Rattle.warg_log.specs.Tree.{root_of};
ghost use Rattle.warg_log.specs.Cut.{old_root};
ghost use Rattle.warg_log.specs.Blocks.{Blocks, StandsFor, block_at, joined_blocks, pushed};
ghost use Rattle.warg_log.specs.Private.Growth.{Grows};

mod image;

use crate::log::{AppendError, Checkpoint, GREATEST_LENGTH, LogBuilder};
use crate::node::Node;
use std::alloc::{AllocError, Allocator, Global};
use std::marker::{Model, PhantomData};
use warg_crypto::{Hash, SupportedDigest, VisitBytes, hash_branch, hash_empty, hash_leaf};

/// A log that keeps the digests of its balanced roots alone: as many as the length's binary digits that
/// are 1.
///
/// It returns checkpoints, but no digests for proofs.
#[derive(Drop)]
pub struct StackLog<D: SupportedDigest, V: VisitBytes, A: Allocator = Global> {
    count: usize,
    blocks: Vec<Hash<D>, A>,
    of: PhantomData<V>,
}

// Contracts see the log as its length and its blocks.
impl<D: SupportedDigest, V: VisitBytes, A: Allocator> Model for StackLog<D, V, A> {
    ghost use Rattle.warg_log.specs.declared.log.TheConstants.{GREATEST_LENGTH};
    ghost use Rattle.std.specs.Prelude.{◌≡◌, ◌≤◌, length};
    ghost use Rattle.warg_log.specs.Nodes.{balanced_roots};
    ghost use Rattle.warg_log.specs.Blocks.{Blocks};

    ghost Value = { Blocks };

    ghost view = { λ l. record { len = l.count; digests = l.blocks.items } };

    ghost invariant = { λ l. (length l.blocks.items ≡ length (balanced_roots l.count))
        × (l.count ≤ GREATEST_LENGTH) };
}

impl<D: SupportedDigest, V: VisitBytes, A: Allocator> StackLog<D, V, A> {
    /// The log of no entries. It does not allocate yet.
    #[tactic(auto, unfolding(crate::specs::Nodes::balanced_within))]
    pub fn default(alloc: A) -> Self
        ensures value { result ≡ record { len = 0; digests = [] } }
        ensures stands { StandsFor D.digest result [] }
    {
        StackLog {
            count: 0,
            blocks: Vec::new(alloc),
            of: PhantomData,
        }
    }

    /// The number of entries, at most [`GREATEST_LENGTH`](crate::GREATEST_LENGTH).
    pub fn length(&self) -> usize
        ensures value { result ≡ self.now.len }
        ensures fits { self.now.len ≤ GREATEST_LENGTH }
    {
        self.count
    }

    /// Whether the log has no entry.
    pub fn is_empty(&self) -> bool
        ensures { IsTrue result ↔ (self.now.len ≡ 0) }
    {
        self.count == 0
    }

    /// Adds an entry at the end, as [`push`](LogBuilder::push), and returns its leaf's node: `Full` exactly if the log has
    /// 2^63 entries. A refusal leaves the log as it was.
    pub fn append(&mut self, entry: &V) -> Result<Node, AppendError>
        ensures ok { OnOk result (self.new ≡ pushed D.digest self.old
            (leaf_digest D.digest (V.bytes entry.now))) }
        ensures node { IfOk result (λ node. node.0 ≡ 2 * self.old.len) }
        ensures full { (result ≡ Err AppendError.Full) ↔ (self.old.len ≡ GREATEST_LENGTH) }
        ensures err { OnErr result (self.new ≡ self.old) }
    {
        if self.length() == GREATEST_LENGTH {
            return Err(AppendError::Full);
        }
        Ok(self.push(entry)?)
    }

    /// A log of the same length and blocks. It fails only if allocation fails.
    pub fn clone(&self) -> Result<Self, AllocError>
    where
        A: Clone,
        ensures { IfOk result (λ log. log ≡ self.now) }
    {
        let blocks = self.blocks.clone()?;
        Ok(StackLog {
            count: self.count,
            blocks,
            of: PhantomData,
        })
    }
}

impl<D: SupportedDigest, V: VisitBytes, A: Allocator> LogBuilder<D, V> for StackLog<D, V, A> {
    ghost len = { λ l. l.len };

    ghost stands_for = { λ l ds. StandsFor D.digest l ds };

    fn checkpoint(&self) -> Checkpoint<D>
        ensures root { (ds : List (List ℕ)) → StandsFor D.digest self.now ds
            → result.root ≡ root_of D.digest ds }
        ensures none { self.now.len ≡ 0 → result.root ≡ D.digest [] }
        ensures blocks { 0 < self.now.len → old_root D.digest (block_at self.now) self.now.len
            ≡ Some result.root }
        ensures length { result.length ≡ self.now.len }
        ensures fits { self.now.len ≤ GREATEST_LENGTH }
    {
        Checkpoint::new(root_of_blocks(self.blocks.as_slice()), self.count)
    }

    fn push(&mut self, entry: &V) -> Result<Node, AllocError>
        requires { self.old.len < GREATEST_LENGTH }
        ensures node { IfOk result (λ node. node.0 ≡ 2 * self.old.len) }
        ensures ok { OnOk result (self.new ≡ pushed D.digest self.old
            (leaf_digest D.digest (V.bytes entry.now))) }
        ensures stands { OnOk result ((ds : List (List ℕ)) → StandsFor D.digest self.old ds
            → StandsFor D.digest self.new (ds ++ leaf_digest D.digest (V.bytes entry.now) ∷ [])) }
        ensures err { OnErr result (self.new ≡ self.old) }
    {
        let digest = hash_leaf::<D, V>(entry);
        self.blocks.reserve(1)?;
        let leaf = Node::leaf(self.count);
        join_blocks(&mut self.blocks, self.count, digest);
        self.count += 1;
        Ok(leaf)
    }

    ghost stands_len = { λ s ds stands. stands.count };
}

// Puts a new last leaf behind the blocks of a length, and joins it with each block of its own height.
fn join_blocks<D: SupportedDigest, A: Allocator>(
    blocks: &mut Vec<Hash<D>, A>,
    count: usize,
    digest: Hash<D>,
)
    requires room { vec_len blocks.old < vec_capacity blocks.old }
    requires count { length blocks.old.items ≡ length (balanced_roots count) }
    ensures count { length blocks.new.items ≡ length (balanced_roots (count + 1)) }
    ensures blocks { (G : ℕ → ℕ → List ℕ) → Grows D.digest count digest blocks.old.items G
        → blocks.new.items ≡ map (λ t. G (height_of t) (start_of t)) (balanced_roots (count + 1)) }
{
    let mut digest = digest;
    let mut rest = count;
    'up: while rest % 2 == 1 {
        match blocks.pop() {
            Some(left) => digest = hash_branch(&left, &digest),
            None => unreachable!(),
        }
        rest /= 2;
    }
    blocks.push_reserved(digest);
}

// The root of blocks, which joins them from the right; of none that of no entries.
fn root_of_blocks<D: SupportedDigest>(blocks: &[Hash<D>]) -> Hash<D>
    ensures { result ≡ joined_blocks D.digest blocks.now }
{
    match blocks {
        [] => hash_empty(),
        [only] => only.copied(),
        [first, rest @ ..] => hash_branch(first, &root_of_blocks(rest)),
    }
}
