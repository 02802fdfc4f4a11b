//! How the tree's recursion splits a count of leaves.

ghost use Rattle.std.specs.Prelude.{◌≡◌, ◌<◌};
ghost use Rattle.warg_log.specs.Tree.{front_of};

/// The greatest power of two below a count of leaves: the number of the leaves of a range's first part (RFC 6962, section
/// 2.1, where it is k).
pub fn front_of(count: usize) -> usize
    requires { 1 < count }
    ensures value { result ≡ front_of count }
    ensures some { 0 < result }
    ensures below { result < count }
{
    1 << (count - 1).ilog2()
}
