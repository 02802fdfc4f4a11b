//! Values of several parts, whose bytes say where each part begins.

ghost use Rattle.std.specs.Prelude.{ℕ, List, ◌++◌, map};
ghost use Rattle.warg_crypto.specs.Framed.{framed, framed_part};

use crate::visit::{ByteVisitor, VisitBytes};

/// Several parts as one value: each part's bytes behind their length, 8 bytes, the greatest first.
///
/// A tuple's bytes are its parts' bytes with nothing between them, so `("foo1", "0")` and `("foo", "10")` have the same
/// bytes, and so one digest. Framed parts of the same bytes are the same parts
/// ([`framed_apart`](crate::laws::framed_apart)). A type of several parts visits them so:
///
/// ```rust
/// Framed(&[self.name.as_bytes(), self.version.as_bytes()]).visit(to);
/// ```
#[derive(Clone, Copy)]
pub struct Framed<'a>(pub &'a [&'a [u8]]);

impl VisitBytes for Framed<'_> {
    ghost bytes = { λ f. framed (map (λ part. part.now) f.0.now) };

    fn visit<W: ByteVisitor>(&self, to: &mut W) {
        for part in self.0 {
            visit_part(part, to);
        }
    }
}

// Visits a part's length and then the part.
fn visit_part<W: ByteVisitor>(part: &[u8], to: &mut W)
    ensures { (m : List ℕ) → W.stands_for to.old m
        → W.stands_for to.new (m ++ framed_part part.now) }
{
    to.visit_bytes(&(part.len() as u64).to_be_bytes());
    to.visit_bytes(part);
}
