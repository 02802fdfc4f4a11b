//! The balanced roots of leaves in a row, one after the other.

ghost use Rattle.std.specs.Prelude.{◌≡◌, ℕ, ◌-◌, ◌≤◌, IfOk, map};
ghost use Rattle.warg_log.specs.Nodes.{balanced_roots, balanced_over};

use crate::leaf_range::LeafRange;
use crate::log::GREATEST_LENGTH;
use crate::node::Node;
use std::alloc::{AllocError, Allocator};
use std::marker::Model;

// The balanced roots of the leaves from `start` up to `end`, from left to right: the nodes that the binary
// digits of their number cut from the left, greatest first.
#[derive(Drop)]
pub(crate) struct BalancedRoots {
    start: usize,
    end: usize,
}

// Contracts see the numbers of the roots that remain.
impl Model for BalancedRoots {
    ghost use Rattle.warg_log.specs.declared.log.TheConstants.{GREATEST_LENGTH};
    ghost use Rattle.std.specs.Prelude.{ℕ, List, ◌-◌, ◌≤◌};
    ghost use Rattle.warg_log.specs.Nodes.{balanced_over};

    ghost Value = { List ℕ };

    ghost view = { λ r. balanced_over r.start (r.end - r.start) };

    ghost invariant = { λ r. r.end ≤ GREATEST_LENGTH };
}

impl BalancedRoots {
    // Those of the leaves from `start` up to `end`.
    pub(crate) fn between(start: usize, end: usize) -> BalancedRoots
        requires { end ≤ GREATEST_LENGTH }
        ensures { result ≡ balanced_over start (end - start) }
    {
        BalancedRoots { start, end }
    }

    // Those of a length.
    pub(crate) fn of(length: usize) -> BalancedRoots
        requires { length ≤ GREATEST_LENGTH }
        ensures { result ≡ balanced_roots length }
    {
        BalancedRoots::between(0, length)
    }
}

impl Iterator for BalancedRoots {
    type Item = Node;

    ghost use Rattle.std.specs.Iterator.{YieldsFirstBy, item_count};

    ghost next_gives = { YieldsFirstBy (λ node. node.0) (λ rest. rest) };

    ghost remaining = { item_count (λ rest. rest) };

    #[tactic(auto, using(crate::proofs::BalancedLemmas::none_left, crate::proofs::BalancedLemmas::first_cut))]
    fn next(&mut self) -> Option<Node> {
        if self.start >= self.end {
            return None;
        }
        let root = LeafRange::first_root(self.start, self.end);
        self.start = root.end();
        Some(Node::over(&root))
    }
}

impl Node {
    /// The balanced roots of a length: the nodes that its binary digits cut from the left, greatest
    /// first. It fails only if allocation fails.
    pub fn broots_for_len<A: Allocator>(alloc: A, length: usize) -> Result<Vec<Node, A>, AllocError>
        requires { length ≤ GREATEST_LENGTH }
        ensures { IfOk result (λ roots. map (λ x. x.0) roots.items ≡ balanced_roots length) }
    {
        BalancedRoots::of(length).collect(alloc)
    }
}
