//! The nodes of the tree.

ghost use Rattle.std.specs.Prelude.{◌≡◌, ◌+◌, ◌-◌, ◌<◌, ◌≤◌};
ghost use Rattle.warg_map.specs.Bits.{bits_from};
ghost use Rattle.warg_map.specs.Private.Under.{stem_root};

use crate::link::Link;
use crate::path::side_at;
use crate::singleton::Singleton;
use std::alloc::{AllocError, Allocator, Global};
use std::ops::Index;
use std::rc::Rc;
use warg_crypto::{Hash, Side, SupportedDigest};

/// A node of the tree, with what stands below it.
///
/// The form follows from the map: a fork holds a key on each side, below a stem stands a fork, a lone key is a stem of
/// one bit over a singleton, and `Empty` stands alone, as the empty map. What a variant has is shared, so that a
/// node takes no more than its own kind.
#[cycle(tree)]
#[derive(Drop)]
pub enum Node<D: SupportedDigest, A: Allocator = Global> {
    /// Two nodes of one height, each of which holds a key.
    Fork(Rc<Fork<D, A>, A>),
    /// A lone key, at any height.
    Singleton(Rc<Singleton<D>, A>),
    /// A run of bits over one node.
    Stem(Rc<Stem<D, A>, A>),
    /// The whole tree of 256 levels, where it holds nothing.
    Empty,
}

/// Two links of one height.
#[cycle(tree)]
#[derive(Drop)]
pub struct Fork<D: SupportedDigest, A: Allocator = Global> {
    pub(crate) left: Link<D, A>,
    pub(crate) right: Link<D, A>,
}

impl<D: SupportedDigest, A: Allocator> Index<Side> for Fork<D, A> {
    type Output = Link<D, A>;

    ghost use Rattle.std.specs.Prelude.{◌≡◌, if◌then◌else◌};
    ghost use Rattle.warg_crypto.specs.Sides.{side_bit};

    ghost index_gives = { λ f side link. link ≡ (if side_bit side then f.right else f.left) };

    fn index(&self, index: Side) -> &Link<D, A> {
        match index {
            Side::Left => &self.left,
            Side::Right => &self.right,
        }
    }
}

/// Bits beside which all is empty: `len` bits of a key digest, from bit `from` on, over a lower node.
///
/// The bits stand at their own place in the digest, so a stem that is cut or lengthened shifts nothing.
#[cycle(tree)]
#[derive(Drop)]
pub struct Stem<D: SupportedDigest, A: Allocator = Global> {
    pub(crate) key: Hash<D>,
    pub(crate) from: usize,
    pub(crate) len: usize,
    pub(crate) below: Link<D, A>,
}

impl<D: SupportedDigest, A: Allocator> Stem<D, A> {
    ghost use Rattle.std.specs.Prelude.{IfOk};
    ghost use Rattle.warg_map.specs.Private.Under.{under};
    ghost use Rattle.warg_map.specs.Private.Seen.{MayCarry, IsStemOver};

    /// The stem of `len` bits of `key` above a tree, from bit `from` on. It takes in a stem that is the top of the tree.
    pub(crate) fn above(
        link: Link<D, A>,
        key: &Hash<D>,
        from: usize,
        len: usize,
    ) -> Result<Stem<D, A>, AllocError>
        requires some { 0 < len }
        requires height { from + len + link.0 ≡ 256 }
        requires below { MayCarry key.now link }
        ensures { IfOk result (λ s. IsStemOver s (link.0 + len) (under (bits_from key.now from len) link.1)) }
    {
        if let Node::Stem(lower) = link.node() {
            return Ok(Stem {
                key: key.copied(),
                from,
                len: len + lower.len,
                below: lower.below.clone()?,
            });
        }
        Ok(Stem {
            key: key.copied(),
            from,
            len,
            below: link,
        })
    }
}

/// The digest of the tree in which `len` bits of `key`, from bit `from` on, lead down to a tree with digest `below`, and
/// all beside them is empty.
pub(crate) fn stem_digest<D: SupportedDigest>(
    key: &Hash<D>,
    from: usize,
    len: usize,
    below: &Hash<D>,
) -> Hash<D>
    requires { from + len ≤ 256 }
    ensures { result ≡ stem_root D.digest (256 - (from + len)) below.now
        (bits_from key.now from len) }
{
    let bottom = 256 - (from + len);
    let mut hash = below.copied();
    let mut empty = D::empty_tree(bottom);
    for above in 0..len {
        hash = side_at(key, from + (len - 1 - above)).branch(&hash, &empty);
        empty = D::empty_above(bottom + above, &empty);
    }
    hash
}

impl<D: SupportedDigest, A: Allocator> Node<D, A> {
    ghost use Rattle.std.specs.Prelude.{◌*◌, ◌^◌, ◌⊎◌};
    ghost use Rattle.std.specs.FinMap as map;
    ghost use Rattle.warg_map.specs.Private.Under.{Splits};
    ghost use Rattle.warg_map.specs.Private.Seen.{tree_height, held_by, IsWellFormed, counted};

    /// The number of nodes of the tree.
    pub(crate) fn count(&self) -> u128
        requires well_formed { IsWellFormed self.now }
        requires fits { map.len (held_by self.now) < 2 ^ 64 }
        ensures exact { result ≡ counted (tree_height self.now) (held_by self.now) }
        ensures few { 0 < map.len (held_by self.now)
            → (tree_height self.now < 256) ⊎ (1 < map.len (held_by self.now))
            → result + 2 ≤ 3 * map.len (held_by self.now) }
        ensures fewer { Splits (held_by self.now) → result + 3 ≤ 3 * map.len (held_by self.now) }
    {
        match self {
            Node::Singleton(_) => 1,
            Node::Empty => 1,
            Node::Fork(fork) => {
                let fork = fork.as_ref();
                let left = fork[Side::Left].node().count();
                let right = fork[Side::Right].node().count();
                1 + left + right
            }
            Node::Stem(stem) => 1 + stem.below.node().count(),
        }
    }
}
