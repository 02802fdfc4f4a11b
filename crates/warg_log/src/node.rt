//! The nodes of a log's tree, by their numbers.

ghost use Rattle.std.specs.Prelude.{◌≡◌, ◌+◌, ◌-◌, ◌*◌, ◌/◌, ◌%◌, ◌^◌, ◌<◌, ◌≤◌, ◌↔◌, IsTrue, IsNone, IfSome};
ghost use Rattle.warg_log.specs.Ranges.{range_of};
ghost use Rattle.warg_log.specs.Nodes.{IsNode, ExistsAt, height_of, place_of, sibling_place, start_of, end_of, node_over};

use crate::leaf_range::LeafRange;
use crate::log::GREATEST_LENGTH;
use warg_crypto::Side;

/// A node of a log's tree by its number: a leaf, or a branch over a power of two of leaves.
///
/// Leaf `i` is `Node(2 * i)`, and each branch lies between its two children:
///
/// ```text
/// height 3                       7
/// height 2           3                       11
/// height 1     1           5           9           13
/// height 0  0     2     4     6     8     10    12    14
/// leaf      0     1     2     3     4     5     6     7
/// ```
///
/// `Node(x)` with `x + 1 = 2^k * (2 * j + 1)` is the `j`-th node of height `k`, and stands for the
/// leaves from `j * 2^k` up to but not including `(j + 1) * 2^k`. `Node(usize::MAX)` has height 64 and
/// exists at no length.
#[derive(Clone, Copy, PartialEq, Eq, PartialOrd, Ord, Hash, Debug)]
pub struct Node(pub usize);

impl Node {
    /// The node of the leaf at an index, from 0.
    pub fn leaf(index: usize) -> Node
        requires { index < GREATEST_LENGTH }
        ensures { IsNode result.0 0 index }
    {
        Node(2 * index)
    }

    /// The node over a range, if the range is one: its count is a power of two and its start a multiple
    /// of that.
    pub fn over(range: &LeafRange) -> Node
        ensures { result.0 ≡ node_over range.now.start range.now.count }
    {
        Node(2 * range.start + (range.count - 1))
    }

    /// The index of the leaf whose node this is, from 0. None exactly if the node is a branch.
    pub fn leaf_index(&self) -> Option<usize>
        ensures leaf { IfSome result (λ index. IsNode self.now.0 0 index) }
        ensures branch { IsNone result ↔ (0 < height_of self.now.0) }
    {
        if self.height() == 0 {
            Some(self.0 / 2)
        } else {
            None
        }
    }

    /// The node's number.
    pub fn index(&self) -> usize
        ensures { result ≡ self.now.0 }
    {
        self.0
    }

    /// The node's height: 0 for a leaf, and one more than its children's for a branch.
    #[tactic(auto, using(crate::proofs::NodeLemmas::by_start, crate::proofs::NodeLemmas::height_of_trailing_ones))]
    pub fn height(&self) -> u32
        ensures value { result ≡ height_of self.now.0 }
        ensures node { IsNode self.now.0 result (place_of self.now.0) }
    {
        self.0.trailing_ones()
    }

    // How far the parent's number is from the node's.
    fn distance(&self) -> usize
        requires { height_of self.now.0 < 64 }
        ensures { result ≡ 2 ^ height_of self.now.0 }
    {
        1 << self.height()
    }

    /// The side of its parent on which the node stands: left where its place among the nodes of its
    /// height is even.
    #[tactic(auto, using(std::proofs::lemmas::Nat::Bits::shr_and_one), unfolding(crate::specs::Nodes::place_of))]
    pub fn side(&self) -> Side
        requires { height_of self.now.0 < 63 }
        ensures left { result ≡ Side.Left → place_of self.now.0 % 2 ≡ 0 }
        ensures right { result ≡ Side.Right → place_of self.now.0 % 2 ≡ 1 }
    {
        if (self.0 >> (self.height() + 1)) & 1 == 0 {
            Side::Left
        } else {
            Side::Right
        }
    }

    /// The other child of the node's parent.
    pub fn sibling(&self) -> Node
        requires { height_of self.now.0 < 63 }
        ensures { IsNode result.0 (height_of self.now.0) (sibling_place (place_of self.now.0)) }
    {
        match self.side() {
            Side::Left => self.right_sibling(),
            Side::Right => self.left_sibling(),
        }
    }

    /// The sibling of a node that stands on the right.
    #[tactic(auto, using(crate::proofs::NodeLemmas::by_start, crate::proofs::NodeLemmas::sibling_right))]
    pub fn left_sibling(&self) -> Node
        requires low { height_of self.now.0 < 63 }
        requires right { place_of self.now.0 % 2 ≡ 1 }
        ensures { IsNode result.0 (height_of self.now.0) (place_of self.now.0 - 1) }
    {
        let distance = self.distance();
        Node(self.0 - distance - distance)
    }

    /// The sibling of a node that stands on the left.
    #[tactic(auto, using(std::proofs::lemmas::Nat::pow_pos, crate::proofs::NodeLemmas::by_start, crate::proofs::NodeLemmas::room_left))]
    pub fn right_sibling(&self) -> Node
        requires low { height_of self.now.0 < 63 }
        requires left { place_of self.now.0 % 2 ≡ 0 }
        ensures { IsNode result.0 (height_of self.now.0) (place_of self.now.0 + 1) }
    {
        let distance = self.distance();
        Node(self.0 + distance + distance)
    }

    /// The node one higher that stands for this one's leaves and its sibling's.
    #[tactic(auto, using(crate::proofs::NodeLemmas::by_start, crate::proofs::NodeLemmas::room, crate::proofs::NodeLemmas::parent_left, crate::proofs::NodeLemmas::parent_right))]
    pub fn parent(&self) -> Node
        requires { height_of self.now.0 < 63 }
        ensures { IsNode result.0 (height_of self.now.0 + 1) (place_of self.now.0 / 2) }
    {
        match self.side() {
            Side::Left => Node(self.0 + self.distance()),
            Side::Right => Node(self.0 - self.distance()),
        }
    }

    /// The two nodes one lower that stand for the first and the second half of a branch's leaves.
    #[tactic(auto, using(crate::proofs::NodeLemmas::by_start, crate::proofs::NodeLemmas::child_nodes, crate::proofs::NodeLemmas::room))]
    pub fn children(&self) -> (Node, Node)
        requires branch { 0 < height_of self.now.0 }
        requires low { height_of self.now.0 < 64 }
        ensures left { IsNode result.0.0 (height_of self.now.0 - 1) (2 * place_of self.now.0) }
        ensures right { IsNode result.1.0 (height_of self.now.0 - 1) (2 * place_of self.now.0 + 1) }
    {
        let Node(number) = *self;
        let distance = self.distance() / 2;
        (Node(number - distance), Node(number + distance))
    }

    /// The last leaf below the node.
    #[tactic(auto, using(std::proofs::lemmas::Nat::pow_pos, crate::proofs::NodeLemmas::by_start, crate::proofs::NodeLemmas::room))]
    pub fn rightmost_descendent(&self) -> Node
        requires { height_of self.now.0 < 64 }
        ensures { result.0 ≡ 2 * (end_of self.now.0 - 1) }
    {
        Node(self.0 + (self.distance() - 1))
    }

    /// The first leaf below the node.
    #[tactic(auto, using(std::proofs::lemmas::Nat::pow_pos, crate::proofs::NodeLemmas::by_start))]
    pub fn leftmost_descendent(&self) -> Node
        requires { height_of self.now.0 < 64 }
        ensures { result.0 ≡ 2 * start_of self.now.0 }
    {
        Node(self.0 - (self.distance() - 1))
    }

    /// Whether a log of this length has the node: all leaves below it are in the log.
    #[tactic(auto, using(std::proofs::lemmas::Grind::common_steps, crate::proofs::NodeLemmas::low_by_end, crate::proofs::NodeLemmas::room))]
    pub fn exists_at_length(&self, length: usize) -> bool
        ensures { IsTrue result ↔ ExistsAt self.now.0 length }
    {
        let height = self.height();
        height < 64 && (self.0 + ((1 << height) - 1)) / 2 < length
    }

    /// The first node of a height, at most the node's own, to the right of the node's leaves.
    pub fn next_node_with_height(&self, height: u32) -> Node
        requires low { height_of self.now.0 < 64 }
        requires most { height ≤ height_of self.now.0 }
        requires fits { 2 * end_of self.now.0 + 2 ^ height - 1 < 2 ^ 64 }
        ensures height { height_of result.0 ≡ height }
        ensures start { start_of result.0 ≡ end_of self.now.0 }
    {
        Node(self.rightmost_descendent().0 + 2 + Node::first_node_with_height(height).0)
    }

    /// The node of a height that stands for the first leaves of all, `2^height` of them.
    pub fn first_node_with_height(height: u32) -> Node
        requires { height < 64 }
        ensures { IsNode result.0 height 0 }
    {
        Node((1 << height) - 1)
    }

    /// The leaves below the node.
    #[tactic(auto, using(std::proofs::lemmas::Nat::pow_pos, crate::proofs::NodeLemmas::by_start, crate::proofs::NodeLemmas::low_by_end))]
    pub fn leaf_range(&self) -> LeafRange
        requires { end_of self.now.0 ≤ GREATEST_LENGTH }
        ensures { result ≡ range_of self.now.0 }
    {
        let count = 1 << self.height();
        LeafRange {
            start: (self.0 - (count - 1)) / 2,
            count,
        }
    }
}
