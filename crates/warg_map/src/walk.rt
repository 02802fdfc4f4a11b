//! The walk down a key's bits, for the peers of its proof.

ghost use Rattle.std.specs.Prelude.{◌≡◌, ◌+◌, ◌-◌, ◌<◌, ◌≤◌, ◌∷◌, ◌++◌, [], Some, None, IsSome, OnOk, OnErr, MatchOption, false};
ghost use Rattle.std.specs.FinMap as map;
ghost use Rattle.warg_map.specs.Bits.{last_bits};
ghost use Rattle.warg_map.specs.Private.Lone.{held_alone};
ghost use Rattle.warg_map.specs.Private.Seen.{tree_height, held_by, IsWellFormed};
ghost use Rattle.warg_map.specs.Private.Walk.{is_of_absence, is_of_leaf, answer_of, empty_half, empty_halves, peers_beside, Collects};

use crate::node::{Node, Stem, stem_digest};
use crate::path::{shared_bits, side_at};
use crate::singleton::Singleton;
use std::alloc::{AllocError, Allocator};
use std::mem;
use warg_crypto::{Hash, SupportedDigest};

/// What is to be proved of a key.
#[derive(Clone, Copy)]
pub(crate) enum Asked {
    /// That its digest is held.
    Presence,
    /// That its leaf is an empty one, held or not.
    EmptyLeaf,
    /// That its digest is held, or that it isn't.
    Either,
}

impl Asked {
    // Whether a proof is asked for where nothing is held.
    fn is_of_absence(self) -> bool
        ensures { result ≡ is_of_absence self }
    {
        !matches!(self, Asked::Presence)
    }

    // Whether a proof is asked for where this leaf digest is held.
    fn is_of_leaf<D: SupportedDigest>(self, leaf: &Hash<D>) -> bool
        ensures { result ≡ is_of_leaf D.digest self leaf.now }
    {
        !matches!(self, Asked::EmptyLeaf) || *leaf == D::empty_tree(0)
    }
}

/// What is collected for a proof on the way down a key's bits.
#[derive(Drop)]
pub(crate) struct Collected<D, A: Allocator> {
    /// What is to be proved.
    pub(crate) asked: Asked,
    /// Whether the bits are held, once that is known, and if a proof of it is asked for.
    pub(crate) held: Option<bool>,
    /// The peers, from the bottom of the tree to the top.
    pub(crate) peers: Vec<Option<Hash<D>>, A>,
}

// Adds the peers of the empty halves of the heights from `from` up to `to`, beside bits that are held or not.
fn push_empty_halves<D: SupportedDigest, A: Allocator>(
    peers: &mut Vec<Option<Hash<D>>, A>,
    held: bool,
    from: usize,
    to: usize,
) -> Result<(), AllocError>
    requires order { from ≤ to }
    requires heights { to ≤ 256 }
    ensures { OnOk result (peers.new.items
        ≡ peers.old.items ++ empty_halves (empty_half D.digest held) from (to - from)) }
{
    let mut half = if held {
        Some(D::empty_tree(from))
    } else {
        None
    };
    for height in from..to {
        let above = match &half {
            Some(empty) => Some(D::empty_above(height, empty)),
            None => None,
        };
        peers.push(mem::replace(&mut half, above))?;
    }
    Ok(())
}

// Adds the peers of bits that part from those of a tree with the digest `far`, at the bottom of a path that has come
// `from` bits down and shares `shared` more with it. Room is made for the peers above.
fn push_beside<D: SupportedDigest, A: Allocator>(
    peers: &mut Vec<Option<Hash<D>>, A>,
    far: Hash<D>,
    from: usize,
    shared: usize,
) -> Result<(), AllocError>
    requires { from + shared < 256 }
    ensures { OnOk result (peers.new.items ≡ peers.old.items
        ++ (Some far ∷ empty_halves (empty_half D.digest false) (256 - from - shared) shared)) }
{
    peers.reserve_exact(1 + shared + from)?;
    peers.push(Some(far))?;
    push_empty_halves(peers, false, 256 - from - shared, 256 - from)
}

impl<D: SupportedDigest, A: Allocator> Collected<D, A> {
    // Adds the peer of a half with a key, where peers are collected.
    fn push_half(&mut self, half: &Hash<D>) -> Result<(), AllocError>
        ensures held { self.new.held ≡ self.old.held }
        ensures refused { OnErr result (IsSome self.old.held) }
        ensures peers { let old = self.old.peers.items in let new = self.new.peers.items in
            OnOk result (MatchOption self.old.held (new ≡ old) (λ held. new ≡ old ++ (Some half.now ∷ []))) }
    {
        if self.held.is_some() {
            self.peers.push(Some(half.copied()))?;
        }
        Ok(())
    }

    // Adds the peers of the empty halves beside `len` bits from bit `from` on, where peers are collected.
    fn push_empty(&mut self, from: usize, len: usize) -> Result<(), AllocError>
        requires { from + len ≤ 256 }
        ensures held { self.new.held ≡ self.old.held }
        ensures refused { OnErr result (IsSome self.old.held) }
        ensures peers { let old = self.old.peers.items in let new = self.new.peers.items in
            OnOk result (MatchOption self.old.held (new ≡ old)
            (λ held. new ≡ old ++ empty_halves (empty_half D.digest held) (256 - from - len) len)) }
    {
        let Some(held) = self.held else {
            return Ok(());
        };
        push_empty_halves(&mut self.peers, held, 256 - from - len, 256 - from)
    }
}

// As `Node::collect`, at a lone key.
fn collect_lone<D: SupportedDigest, A: Allocator>(
    lone: &Singleton<D>,
    key: &Hash<D>,
    depth: usize,
    to: &mut Collected<D, A>,
) -> Result<(), AllocError>
    requires low { lone.now.height < 256 }
    requires height { lone.now.height + depth ≡ 256 }
    requires unknown { to.old.held ≡ None }
    requires none { to.old.peers.items ≡ [] }
    ensures answer { let leaf = map.get (held_alone lone.now) (last_bits key.now (256 - depth)) in
        to.new.held ≡ answer_of D.digest to.old.asked leaf }
    ensures refused { OnErr result (IsSome to.new.held) }
    ensures peers { let bits = last_bits key.now (256 - depth) in
        OnOk result (MatchOption to.new.held (to.new.peers.items ≡ []) (λ held.
        Collects D.digest held lone.now.height (held_alone lone.now) bits to.new.peers.items)) }
{
    let shared = shared_bits(lone.key(), key, depth, lone.height());
    if shared < lone.height() {
        if !to.asked.is_of_absence() {
            return Ok(());
        }
        to.held = Some(false);
        let far = lone.with_height(lone.height() - shared - 1);
        return push_beside(&mut to.peers, far.hash(), depth, shared);
    }
    if !to.asked.is_of_leaf(lone.value()) {
        return Ok(());
    }
    to.held = Some(true);
    to.peers.reserve_exact(depth)
}

// As `Node::collect`, at a stem from which the bits part after `shared` of its own.
fn collect_beside<D: SupportedDigest, A: Allocator>(
    stem: &Stem<D, A>,
    shared: usize,
    to: &mut Collected<D, A>,
) -> Result<(), AllocError>
    requires level { stem.now.from + stem.now.len + stem.now.below.0 ≡ 256 }
    requires shared { shared < stem.now.len }
    requires unknown { to.old.held ≡ None }
    requires none { to.old.peers.items ≡ [] }
    ensures answer { to.new.held ≡ answer_of D.digest to.old.asked None }
    ensures refused { OnErr result (IsSome to.new.held) }
    ensures peers { let new = to.new.peers.items in
        OnOk result (MatchOption to.new.held (new ≡ []) (λ _. new ≡ peers_beside D.digest stem.now shared)) }
{
    if !to.asked.is_of_absence() {
        return Ok(());
    }
    to.held = Some(false);
    let cut = shared + 1;
    let below = stem.below.hash();
    let far = stem_digest(&stem.key, stem.from + cut, stem.len - cut, below);
    push_beside(&mut to.peers, far, stem.from, shared)
}

impl<D: SupportedDigest, A: Allocator> Node<D, A> {
    /// Collects, of the bits of a key digest from bit `depth` on, whether they are held, and then their peers: beside bits
    /// that are held an empty half is written as its digest, and else as `None`. Where no proof is asked for of what is
    /// held there, nothing is collected, and no memory taken.
    pub(crate) fn collect(
        &self,
        key: &Hash<D>,
        depth: usize,
        to: &mut Collected<D, A>,
    ) -> Result<(), AllocError>
        requires well_formed { IsWellFormed self.now }
        requires height { tree_height self.now + depth ≡ 256 }
        requires unknown { to.old.held ≡ None }
        requires none { to.old.peers.items ≡ [] }
        ensures answer { let leaf = map.get (held_by self.now) (last_bits key.now (256 - depth)) in
            to.new.held ≡ answer_of D.digest to.old.asked leaf }
        ensures refused { OnErr result (IsSome to.new.held) }
        ensures peers { let bits = last_bits key.now (256 - depth) in
            OnOk result (MatchOption to.new.held (to.new.peers.items ≡ []) (λ held.
            Collects D.digest held (tree_height self.now) (held_by self.now) bits to.new.peers.items)) }
    {
        match self {
            Node::Empty => {
                to.held = to.asked.is_of_absence().then_some(false);
                Ok(())
            }
            Node::Fork(fork) => {
                let fork = fork.as_ref();
                let side = side_at(key, depth);
                fork[side].node().collect(key, depth + 1, to)?;
                to.push_half(fork[side.opposite()].hash())
            }
            Node::Singleton(lone) => collect_lone(lone.as_ref(), key, depth, to),
            Node::Stem(stem) => {
                let stem = stem.as_ref();
                let shared = shared_bits(&stem.key, key, depth, stem.len);
                if shared < stem.len {
                    return collect_beside(stem, shared, to);
                }
                stem.below.node().collect(key, depth + stem.len, to)?;
                to.push_empty(depth, stem.len)
            }
        }
    }
}
