//! The leaves and branches of both trees (RFC 6962, section 2.1), empty trees, and the sides of a branch.

ghost use Rattle.std.specs.Prelude.{◌≡◌, ◌≤◌, [], not};
ghost use Rattle.warg_crypto.specs.EmptyTrees.{empty_root};
ghost use Rattle.warg_crypto.specs.Sides.{side_bit};
ghost use Rattle.warg_crypto.specs.Tree.{branch, branch_input, input_beside, leaf_digest, leaf_input};

use crate::hash::{Hash, SupportedDigest};
use crate::visit::{ByteVisitor, VisitBytes};

/// A leaf, as what the digest function takes of it: the byte 00 and the value's bytes (RFC 6962,
/// section 2.1).
#[derive(Drop)]
pub struct Leaf<'a, V>(pub &'a V);

impl<V: VisitBytes> VisitBytes for Leaf<'_, V> {
    ghost bytes = { λ leaf. leaf_input (V.bytes leaf.0.now) };

    fn visit<W: ByteVisitor>(&self, to: &mut W) {
        to.visit_bytes(&[0]);
        self.0.visit(to);
    }
}

/// A branch, as what the digest function takes of it: the byte 01, the left digest and the right one
/// (RFC 6962, section 2.1).
#[derive(Drop)]
pub struct Branch<'a, D>(pub &'a Hash<D>, pub &'a Hash<D>);

impl<D> VisitBytes for Branch<'_, D> {
    ghost bytes = { λ branch. branch_input branch.0.now branch.1.now };

    fn visit<W: ByteVisitor>(&self, to: &mut W) {
        let Branch(left, right) = *self;
        to.visit_bytes(&[1]);
        to.visit_bytes(&left.bytes);
        to.visit_bytes(&right.bytes);
    }
}

/// The root of the tree of no entries: the digest of no bytes (RFC 6962, section 2.1).
pub fn hash_empty<D: SupportedDigest>() -> Hash<D>
    ensures { result ≡ D.digest [] }
{
    Hash::of(&())
}

/// The digest of a leaf: that of the byte 00 and the value's bytes (RFC 6962, section 2.1).
pub fn hash_leaf<D: SupportedDigest, V: VisitBytes>(value: &V) -> Hash<D>
    ensures { result ≡ leaf_digest D.digest (V.bytes value.now) }
{
    Hash::of(&Leaf(value))
}

/// The digest of a branch: that of the byte 01, the left digest and the right one (RFC 6962,
/// section 2.1).
pub fn hash_branch<D: SupportedDigest>(left: &Hash<D>, right: &Hash<D>) -> Hash<D>
    ensures { result ≡ branch D.digest left.now right.now }
{
    Hash::of(&Branch(left, right))
}

/// The digest of the empty tree of `height` levels: `H(00)` at height 0, and at each height above
/// `H(01 ++ e ++ e)`, with the digest `e` of the height below.
///
/// It hashes once for each height, and under SHA-256 not at all.
pub fn empty_tree_hash<D: SupportedDigest>(height: usize) -> Hash<D>
    requires { height ≤ 256 }
    ensures { result ≡ empty_root D.digest height }
{
    D::empty_tree(height)
}

/// The side of its parent on which a node stands. In a map, a bit of a key's digest chooses it.
#[derive(Clone, Copy, Debug, PartialEq, Eq, Hash)]
pub enum Side {
    /// The side of the bit 0.
    Left,
    /// The side of the bit 1.
    Right,
}

impl Side {
    /// The other side.
    pub fn opposite(&self) -> Side
        ensures { side_bit result ≡ not (side_bit self.now) }
    {
        match self {
            Side::Left => Side::Right,
            Side::Right => Side::Left,
        }
    }

    /// The digest of the branch with `near` on this side and `far` on the other.
    pub fn branch<D: SupportedDigest>(&self, near: &Hash<D>, far: &Hash<D>) -> Hash<D>
        ensures { result ≡ D.digest (input_beside (side_bit self.now) far.now near.now) }
    {
        match self {
            Side::Left => hash_branch(near, far),
            Side::Right => hash_branch(far, near),
        }
    }
}
