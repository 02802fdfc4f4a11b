//! Leaves that are put into a tree, in order, so that a branch above several of them is hashed once.

ghost use Rattle.std.specs.Prelude.{◌≡◌, ℕ, ◌+◌, ◌-◌, ◌^◌, ◌<◌, ◌≤◌, List, [], ◌∷◌, ◌++◌, not, length, IfOk, OnOk};
ghost use Rattle.std.specs.FinMap as map;
ghost use Rattle.warg_crypto.specs.Sides.{side_bit};
ghost use Rattle.warg_map.specs.Bits.{bits_from};
ghost use Rattle.warg_map.specs.Private.Under.{join, join_at, under, HoldsKey};
ghost use Rattle.warg_map.specs.Private.Grown.{ShareBits, on_side, IsParting, IsPut, IsForkAt, IsBesideLeaves};
ghost use Rattle.warg_map.specs.Private.Lone.{held_alone};
ghost use Rattle.warg_map.specs.Private.Seen.{MayCarry};

use crate::link::Link;
use crate::node::{Fork, Node, Stem};
use crate::path::{shared_bits, side_at};
use crate::singleton::Singleton;
use std::alloc::{AllocError, Allocator};
use std::rc::Rc;
use warg_crypto::{Hash, Side, SupportedDigest};

// Puts a leaf behind the near ones where its key digest goes to a side at a place, and else behind the far ones.
fn push_by_side<D: SupportedDigest, A: Allocator>(
    leaf: Singleton<D>,
    side: Side,
    at: usize,
    near: &mut Vec<Singleton<D>, A>,
    far: &mut Vec<Singleton<D>, A>,
) -> Result<(), AllocError>
    requires { at < 256 }
    ensures { OnOk result ((near.new.items ≡ near.old.items ++ on_side at (side_bit side) (leaf ∷ []))
        × (far.new.items ≡ far.old.items ++ on_side at (not (side_bit side)) (leaf ∷ []))) }
{
    if side_at(leaf.key(), at) == side {
        near.push(leaf)?;
        return Ok(());
    }
    far.push(leaf)?;
    Ok(())
}

// The leaves whose key digests go to a side at a place, and the others, each in their order.
fn parted<D: SupportedDigest, A: Allocator + Copy>(
    alloc: A,
    leaves: Vec<Singleton<D>, A>,
    side: Side,
    at: usize,
) -> Result<(Vec<Singleton<D>, A>, Vec<Singleton<D>, A>), AllocError>
    requires { at < 256 }
    ensures { IfOk result (λ p. (p.0.items ≡ on_side at (side_bit side) leaves.items)
        × (p.1.items ≡ on_side at (not (side_bit side)) leaves.items)) }
{
    let mut near = Vec::new(alloc);
    let mut far = Vec::new(alloc);
    for leaf in leaves {
        push_by_side(leaf, side, at, &mut near, &mut far)?;
    }
    Ok((near, far))
}

/// Where leaves part from the bits of a key digest.
#[derive(Drop)]
enum Parting<D: SupportedDigest, A: Allocator> {
    /// Nowhere: all these have the bits.
    Nowhere(Vec<Singleton<D>, A>),
    /// Behind so many bits that all share. The near ones have the key's next bit, which goes to the side.
    Behind {
        shared: usize,
        side: Side,
        near: Vec<Singleton<D>, A>,
        far: Vec<Singleton<D>, A>,
    },
}

// Where the first of the leaves part from `len` bits of a key digest, from bit `from` on.
fn first_parting<D: SupportedDigest, A: Allocator + Copy>(
    alloc: A,
    leaves: Vec<Singleton<D>, A>,
    key: &Hash<D>,
    from: usize,
    len: usize,
) -> Result<Parting<D, A>, AllocError>
    requires { from + len ≤ 256 }
    ensures { IfOk result (IsParting key.now from len leaves.items) }
{
    let mut shared = len;
    for leaf in &leaves {
        shared = shared_bits(key, leaf.key(), from, shared);
    }
    if shared == len {
        return Ok(Parting::Nowhere(leaves));
    }
    let side = side_at(key, from + shared);
    let (near, far) = parted(alloc, leaves, side, from + shared)?;
    Ok(Parting::Behind {
        shared,
        side,
        near,
        far,
    })
}

/// A tree with leaves put into it, and how many of their key digests are new to it.
#[derive(Drop)]
pub(crate) struct Filled<D: SupportedDigest, A: Allocator> {
    pub(crate) link: Link<D, A>,
    pub(crate) fresh: usize,
}

impl<D: SupportedDigest, A: Allocator + Copy> Filled<D, A> {
    // A tree as it is.
    fn unchanged(link: &Link<D, A>) -> Result<Filled<D, A>, AllocError>
        ensures { IfOk result (λ p. p ≡ record { link = link.now; fresh = 0 }) }
    {
        let link = link.clone()?;
        Ok(Filled { link, fresh: 0 })
    }

    // The fork of two trees, the first on a side and the second on the other.
    fn beside(
        alloc: A,
        side: Side,
        near: Filled<D, A>,
        far: Filled<D, A>,
    ) -> Result<Filled<D, A>, AllocError>
        requires heights { (near.link.0 ≡ far.link.0) × (near.link.0 < 256) }
        requires hold { HoldsKey near.link.1 × HoldsKey far.link.1 }
        requires fits { near.fresh + far.fresh < 2 ^ 64 }
        ensures { IfOk result (λ p. p ≡ record {
          link = (near.link.0 + 1, join_at (side_bit side) near.link.1 far.link.1);
          fresh = near.fresh + far.fresh;
        }) }
    {
        let fresh = near.fresh + far.fresh;
        let fork = match side {
            Side::Left => Fork {
                left: near.link,
                right: far.link,
            },
            Side::Right => Fork {
                left: far.link,
                right: near.link,
            },
        };
        let link = Link::new(Node::Fork(Rc::new(alloc, fork)?));
        Ok(Filled { link, fresh })
    }

    // The tree with a stem of `len` bits of `key` above it, from bit `from` on. Below the top it may be a stem that holds
    // the key, which becomes longer.
    fn with_stem(
        self,
        alloc: A,
        key: &Hash<D>,
        from: usize,
        len: usize,
    ) -> Result<Filled<D, A>, AllocError>
        requires height { from + len + self.link.0 ≡ 256 }
        requires below { 0 < len → MayCarry key.now self.link }
        ensures { IfOk result (λ p. p ≡ record {
          link = (self.link.0 + len, under (bits_from key.now from len) self.link.1);
          fresh = self.fresh;
        }) }
    {
        if len == 0 {
            return Ok(self);
        }
        let Filled { link, fresh } = self;
        let stem = Stem::above(link, key, from, len)?;
        let link = Link::new(Node::Stem(Rc::new(alloc, stem)?));
        Ok(Filled { link, fresh })
    }

    // The fork of two trees, as `beside`, below `len` bits of `key` from bit `from` on.
    fn forked(
        alloc: A,
        key: &Hash<D>,
        from: usize,
        len: usize,
        side: Side,
        near: Filled<D, A>,
        far: Filled<D, A>,
    ) -> Result<Filled<D, A>, AllocError>
        requires heights { (near.link.0 ≡ far.link.0) × (from + len + (near.link.0 + 1) ≡ 256) }
        requires hold { HoldsKey near.link.1 × HoldsKey far.link.1 }
        requires fits { near.fresh + far.fresh < 2 ^ 64 }
        ensures { let fork = join_at (side_bit side) near.link.1 far.link.1 in IfOk result (λ p. p ≡ record {
          link = (near.link.0 + 1 + len, under (bits_from key.now from len) fork);
          fresh = near.fresh + far.fresh;
        }) }
    {
        Filled::beside(alloc, side, near, far)?.with_stem(alloc, key, from, len)
    }
}

// As `grown`, where all leaves are of one key digest.
fn grown_alone<D: SupportedDigest, A: Allocator + Copy>(
    alloc: A,
    leaves: Vec<Singleton<D>, A>,
    depth: usize,
) -> Result<Filled<D, A>, AllocError>
    requires depth { depth ≤ 256 }
    requires some { 0 < length leaves.items }
    requires one { (key : List ℕ) × ShareBits key depth (256 - depth) leaves.items }
    ensures { IfOk result (λ p. IsPut (256 - depth) map.empty leaves.items p.link p.fresh) }
{
    let last = &leaves[leaves.len() - 1];
    // In the whole tree a lone key stands below a stem of one bit, and in a lower one below none.
    let len = 1_usize.saturating_sub(depth);
    let lone = Rc::new(alloc, last.with_height(256 - depth - len))?;
    let link = Link::new(Node::Singleton(lone));
    Filled { link, fresh: 1 }.with_stem(alloc, last.key(), depth, len)
}

// The tree below `depth` bits that holds these leaves, the last under a key digest.
fn grown<D: SupportedDigest, A: Allocator + Copy>(
    alloc: A,
    leaves: Vec<Singleton<D>, A>,
    depth: usize,
) -> Result<Filled<D, A>, AllocError>
    requires depth { depth ≤ 256 }
    requires some { 0 < length leaves.items }
    ensures { IfOk result (λ p. IsPut (256 - depth) map.empty leaves.items p.link p.fresh) }
{
    let key = leaves[leaves.len() - 1].key().copied();
    match first_parting(alloc, leaves, &key, depth, 256 - depth)? {
        Parting::Nowhere(leaves) => grown_alone(alloc, leaves, depth),
        Parting::Behind {
            shared,
            side,
            near,
            far,
        } => {
            let at = depth + shared;
            let near = grown(alloc, near, at + 1)?;
            let far = grown(alloc, far, at + 1)?;
            Filled::forked(alloc, &key, depth, shared, side, near, far)
        }
    }
}

impl<D: SupportedDigest, A: Allocator + Copy> Filled<D, A> {
    // This tree on a side and leaves in a new one on the other, below `len` bits of `key` from bit `from` on.
    fn beside_leaves(
        self,
        alloc: A,
        key: &Hash<D>,
        from: usize,
        len: usize,
        side: Side,
        far: Vec<Singleton<D>, A>,
    ) -> Result<Filled<D, A>, AllocError>
        requires height { from + len + (self.link.0 + 1) ≡ 256 }
        requires hold { HoldsKey self.link.1 }
        requires some { 0 < length far.items }
        requires fits { self.fresh + length far.items < 2 ^ 64 }
        ensures { IfOk result (IsBesideLeaves key.now from len (side_bit side) self far.items) }
    {
        let far = grown(alloc, far, from + len + 1)?;
        Filled::forked(alloc, key, from, len, side, self, far)
    }
}

// As `spread`, at a lone key, which goes in front of the leaves.
fn spread_lone<D: SupportedDigest, A: Allocator + Copy>(
    alloc: A,
    lone: &Singleton<D>,
    mut leaves: Vec<Singleton<D>, A>,
    depth: usize,
) -> Result<Filled<D, A>, AllocError>
    requires { lone.now.height + depth ≡ 256 }
    ensures { IfOk result (λ p. IsPut (256 - depth) (held_alone lone.now) leaves.items p.link p.fresh) }
{
    leaves.insert(0, lone.with_height(256 - depth))?;
    let Filled { link, fresh } = grown(alloc, leaves, depth)?;
    Ok(Filled {
        link,
        fresh: fresh - 1,
    })
}

// What stands below the bits of a stem up to bit `from`, with leaves put there. The stem is cut where the first leaf parts
// from it.
#[cycle(spread)]
fn spread_stem<D: SupportedDigest, A: Allocator + Copy>(
    alloc: A,
    stem: &Stem<D, A>,
    leaves: Vec<Singleton<D>, A>,
    from: usize,
) -> Result<Filled<D, A>, AllocError>
    requires level { stem.now.from + stem.now.len + stem.now.below.0 ≡ 256 }
    requires carries { MayCarry stem.now.key stem.now.below }
    requires place { (stem.now.from ≤ from) × (from ≤ stem.now.from + stem.now.len) }
    ensures { let bits = bits_from stem.now.key from (stem.now.from + stem.now.len - from) in
        IfOk result (λ p. IsPut (256 - from) (under bits stem.now.below.1) leaves.items p.link p.fresh) }
{
    let len = stem.from + stem.len - from;
    match first_parting(alloc, leaves, &stem.key, from, len)? {
        Parting::Nowhere(leaves) => {
            let below = spread(alloc, &stem.below, leaves, from + len)?;
            below.with_stem(alloc, &stem.key, from, len)
        }
        Parting::Behind {
            shared,
            side,
            near,
            far,
        } => {
            let at = from + shared;
            let near = spread_stem(alloc, stem, near, at + 1)?;
            near.beside_leaves(alloc, &stem.key, from, shared, side, far)
        }
    }
}

// As `spread`, at a fork.
#[cycle(spread)]
fn spread_fork<D: SupportedDigest, A: Allocator + Copy>(
    alloc: A,
    fork: &Fork<D, A>,
    leaves: Vec<Singleton<D>, A>,
    depth: usize,
) -> Result<Filled<D, A>, AllocError>
    requires { IsForkAt depth fork.now }
    ensures { IfOk result (λ p. IsPut (256 - depth) (join fork.now.left.1 fork.now.right.1) leaves.items p.link p.fresh) }
{
    let (near, far) = parted(alloc, leaves, Side::Left, depth)?;
    let left = spread(alloc, &fork.left, near, depth + 1)?;
    let right = spread(alloc, &fork.right, far, depth + 1)?;
    Filled::beside(alloc, Side::Left, left, right)
}

/// A link's tree with leaf digests put under their key digests, in order. A branch above several of them is hashed once: a
/// lone key goes in front of those that meet it, and a stem is cut where the first of them parts from it.
#[cycle(spread)]
pub(crate) fn spread<D: SupportedDigest, A: Allocator + Copy>(
    alloc: A,
    link: &Link<D, A>,
    leaves: Vec<Singleton<D>, A>,
    depth: usize,
) -> Result<Filled<D, A>, AllocError>
    requires { link.now.0 + depth ≡ 256 }
    ensures { IfOk result (λ p. IsPut (256 - depth) link.now.1 leaves.items p.link p.fresh) }
{
    if leaves.is_empty() {
        return Filled::unchanged(link);
    }
    match link.node() {
        Node::Empty => grown(alloc, leaves, depth),
        Node::Singleton(lone) => spread_lone(alloc, lone.as_ref(), leaves, depth),
        Node::Fork(fork) => spread_fork(alloc, fork.as_ref(), leaves, depth),
        Node::Stem(stem) => spread_stem(alloc, stem.as_ref(), leaves, depth),
    }
}
