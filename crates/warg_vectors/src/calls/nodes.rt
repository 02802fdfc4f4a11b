//! The numbering of nodes.

ghost use Rattle.std.specs.Prelude.{◌<◌};
ghost use Rattle.warg_log.specs.Nodes.{height_of};

use crate::call::Call;
use crate::fault::{Answered, Fault};
use crate::memory::Memory;
use crate::words::Length;
use warg_crypto::Side;
use warg_log::Node;

pub(super) fn height<M: Memory>(call: &mut Call<'_, M>, node: &Node) -> Answered {
    call.to.show(&node.height())
}

pub(super) fn side<M: Memory>(call: &mut Call<'_, M>, node: &Node) -> Answered {
    if node.height() >= 63 {
        return Err(Fault::BadCall);
    }
    match node.side() {
        Side::Left => call.to.word("Left"),
        Side::Right => call.to.word("Right"),
    }
}

pub(super) fn children<M: Memory>(call: &mut Call<'_, M>, node: &Node) -> Answered {
    if node.height() == 0 || node.height() >= 64 {
        return Err(Fault::BadCall);
    }
    let (left, right) = node.children();
    call.to.show(&left.0)?;
    call.to.show(&right.0)
}

/// The node to which the call of this name leads from another one.
pub(super) fn other<M: Memory>(name: &str, call: &mut Call<'_, M>) -> Answered {
    match relative(name, call.read()?) {
        Some(node) => call.to.show(&node.0),
        None => Err(Fault::BadCall),
    }
}

// The same, or None where the call's condition isn't met.
fn relative(name: &str, node: Node) -> Option<Node> {
    let height = node.height();
    match name {
        "leftmost" if height < 64 => Some(node.leftmost_descendent()),
        "rightmost" if height < 64 => Some(node.rightmost_descendent()),
        _ if height < 63 => beside_or_above(name, node),
        _ => None,
    }
}

// The node beside or above a node of height below 63.
fn beside_or_above(name: &str, node: Node) -> Option<Node>
    requires { height_of node.0 < 63 }
{
    match (name, node.side()) {
        ("sibling", _) => Some(node.sibling()),
        ("parent", _) => Some(node.parent()),
        ("left_sibling", Side::Right) => Some(node.left_sibling()),
        ("right_sibling", Side::Left) => Some(node.right_sibling()),
        _ => None,
    }
}

pub(super) fn exists<M: Memory>(
    call: &mut Call<'_, M>,
    (node, length): &(Node, usize),
) -> Answered {
    call.to.show(&node.exists_at_length(*length))
}

pub(super) fn first<M: Memory>(call: &mut Call<'_, M>, height: &usize) -> Answered {
    if *height >= 64 {
        return Err(Fault::BadCall);
    }
    call.to
        .show(&Node::first_node_with_height(*height as u32).0)
}

pub(super) fn next<M: Memory>(call: &mut Call<'_, M>, (node, height): &(Node, usize)) -> Answered {
    match next_after(*node, *height) {
        Some(next) => call.to.show(&next),
        None => Err(Fault::BadCall),
    }
}

// The next node of a height, or None where the call's condition isn't met.
fn next_after(node: Node, height: usize) -> Option<usize> {
    if node.height() >= 64 || height > node.height() as usize {
        return None;
    }
    let height = height as u32;
    let end = node.rightmost_descendent().0.checked_add(2)?;
    end.checked_add(2usize.pow(height) - 1)?;
    Some(node.next_node_with_height(height).0)
}

/// The balanced roots of a length.
pub(super) fn broots<M: Memory>(call: &mut Call<'_, M>, length: &Length) -> Answered {
    call.write_list(Node::broots_for_len(call.memory, length.value))
}
