//! Values that are seen as bytes, visitors that take those bytes, and values compared by them.

ghost use Rattle.std.specs.Prelude.{◌≡◌, ◌↔◌, ℕ, List, [], ◌∷◌, ◌++◌, IfOk, IsTrue, string_bytes};
ghost use Rattle.std.specs.Int.{to_be_bytes, w32, w64};
ghost use Rattle.warg_crypto.specs.Private.Compared.{StandsAt};

use std::alloc::{AllocError, Allocator};

/// Takes bytes, one piece after the other.
///
/// What a visitor becomes depends on the bytes alone, and not on how they were cut into pieces.
pub trait ByteVisitor {
    // The visitor stands for this list of bytes.
    ghost stands_for: { Self → List ℕ → Type 0 };

    /// Takes `bytes`, which follow all that came before.
    fn visit_bytes(&mut self, bytes: &[u8])
        ensures { (m : List ℕ) → stands_for self.old m → stands_for self.new (m ++ bytes.now) };
}

/// A value that is seen as a list of bytes.
pub trait VisitBytes {
    // The value's bytes.
    ghost bytes: { Self → List ℕ };

    /// Hands exactly the value's bytes to a visitor, in order and in any number of pieces.
    fn visit<W: ByteVisitor>(&self, to: &mut W)
        ensures { (m : List ℕ) → W.stands_for to.old m
            → W.stands_for to.new (m ++ bytes self.now) };
}

/// No bytes.
impl VisitBytes for () {
    ghost bytes = { λ _. [] };

    fn visit<W: ByteVisitor>(&self, _to: &mut W) {}
}

/// One byte.
impl VisitBytes for u8 {
    ghost bytes = { λ b. b ∷ [] };

    fn visit<W: ByteVisitor>(&self, to: &mut W) {
        to.visit_bytes(&[*self]);
    }
}

/// Four bytes, the greatest first.
impl VisitBytes for u32 {
    ghost bytes = { to_be_bytes w32 };

    fn visit<W: ByteVisitor>(&self, to: &mut W) {
        to.visit_bytes(&u32::to_be_bytes(*self));
    }
}

/// Eight bytes, the greatest first.
impl VisitBytes for u64 {
    ghost bytes = { to_be_bytes w64 };

    fn visit<W: ByteVisitor>(&self, to: &mut W) {
        to.visit_bytes(&u64::to_be_bytes(*self));
    }
}

impl<const N: usize> VisitBytes for [u8; N] {
    ghost bytes = { λ a. a };

    fn visit<W: ByteVisitor>(&self, to: &mut W) {
        to.visit_bytes(self);
    }
}

impl VisitBytes for &[u8] {
    ghost bytes = { λ s. s.now };

    fn visit<W: ByteVisitor>(&self, to: &mut W) {
        to.visit_bytes(*self);
    }
}

impl<A: Allocator> VisitBytes for Vec<u8, A> {
    ghost bytes = { λ v. v.items };

    fn visit<W: ByteVisitor>(&self, to: &mut W) {
        to.visit_bytes(self.as_slice());
    }
}

/// The text's bytes in UTF-8.
impl VisitBytes for &str {
    ghost bytes = { λ s. s.now };

    fn visit<W: ByteVisitor>(&self, to: &mut W) {
        to.visit_bytes(self.as_bytes());
    }
}

/// The text's bytes in UTF-8.
impl<A: Allocator> VisitBytes for String<A> {
    ghost bytes = { string_bytes };

    fn visit<W: ByteVisitor>(&self, to: &mut W) {
        self.as_str().visit(to);
    }
}

/// The bytes of the parts, one after the other with nothing between them: `("foo1", "0")` and `("foo", "10")` have the
/// same bytes. [`Framed`](crate::Framed) tells parts apart.
impl<S: VisitBytes, T: VisitBytes> VisitBytes for (S, T) {
    ghost bytes = { λ p. S.bytes p.0 ++ T.bytes p.1 };

    fn visit<W: ByteVisitor>(&self, to: &mut W) {
        let (first, second) = self;
        first.visit(to);
        second.visit(to);
    }
}

/// The bytes of the parts, one after the other with nothing between them: `("foo1", "0")` and `("foo", "10")` have the
/// same bytes. [`Framed`](crate::Framed) tells parts apart.
impl<S: VisitBytes, T: VisitBytes, U: VisitBytes> VisitBytes for (S, T, U) {
    ghost bytes = { λ p. S.bytes p.0 ++ T.bytes p.1 ++ U.bytes p.2 };

    fn visit<W: ByteVisitor>(&self, to: &mut W) {
        let (first, second, third) = self;
        first.visit(to);
        second.visit(to);
        third.visit(to);
    }
}

// Looks for a piece at one place of the bytes that it takes.
#[derive(Drop)]
struct Window<'a> {
    // How many bytes are still to pass.
    skip: usize,
    // What is left of the piece.
    rest: &'a [u8],
    // Whether the bytes so far are the piece's.
    same: bool,
}

impl ByteVisitor for Window<'_> {
    ghost use Rattle.std.specs.Prelude.{◌↔◌, ◌++◌, List, ℕ, IsTrue};
    ghost use Rattle.warg_crypto.specs.Private.Compared.{StandsAt, IsFound};

    // Whatever comes next, the piece is found exactly if the bytes so far are the piece's and its rest follows.
    ghost stands_for = { λ w m. (more : List ℕ) → (IsTrue w.same × StandsAt w.skip w.rest.now more)
        ↔ IsFound (m ++ more) };

    fn visit_bytes(&mut self, bytes: &[u8]) {
        let passed = self.skip.min(bytes.len());
        let fresh = &bytes[passed..];
        let count = fresh.len().min(self.rest.len());
        self.same = self.same && self.rest[..count] == fresh[..count];
        self.rest = &self.rest[count..];
        self.skip -= passed;
    }
}

// Looks for the bytes that it takes at the front of another value's.
#[derive(Drop)]
struct Front<'a, V> {
    of: &'a V,
    // How many bytes came, unless they are more than can be counted.
    count: Option<usize>,
    // Whether they stand at the front.
    same: bool,
}

impl<V: VisitBytes> ByteVisitor for Front<'_, V> {
    ghost use Rattle.std.specs.Prelude.{◌↔◌, ◌++◌, List, ℕ, IsTrue, IfSome};
    ghost use Rattle.warg_crypto.specs.Private.Compared.{StandsAt, IsFront};

    // Whatever comes next, all is a front exactly if the bytes so far are one and the rest stands behind them.
    ghost stands_for = { λ f m. IfSome f.count
        (λ count. (more : List ℕ) → (IsTrue f.same × StandsAt count more (V.bytes f.of.now))
        ↔ IsFront (m ++ more)) };

    fn visit_bytes(&mut self, bytes: &[u8]) {
        if !self.same {
            return;
        }
        let Some(count) = self.count else {
            return;
        };
        let mut window = Window {
            skip: count,
            rest: bytes,
            same: true,
        };
        self.of.visit(&mut window);
        self.same = window.same && window.rest.is_empty();
        self.count = count.checked_add(bytes.len());
    }
}

// Whether the bytes of `value` begin with those of `front`. Refused only where these can't be counted.
fn begins_with<V: VisitBytes, W: VisitBytes>(value: &V, front: &W) -> Result<bool, AllocError>
    ensures { IfOk result (λ begins. IsTrue begins
        ↔ StandsAt 0 (W.bytes front.now) (V.bytes value.now)) }
{
    let mut visitor = Front {
        of: value,
        count: Some(0),
        same: true,
    };
    front.visit(&mut visitor);
    match visitor.count {
        Some(_) => Ok(visitor.same),
        None => Err(AllocError),
    }
}

/// Whether two values have the same bytes. It visits each value once for every piece of the other, and does not
/// allocate: `AllocError` comes only for a value of more than `usize::MAX` bytes, which no memory could hold.
pub fn have_same_bytes<V: VisitBytes, W: VisitBytes>(
    first: &V,
    second: &W,
) -> Result<bool, AllocError>
    ensures { IfOk result (λ same. IsTrue same ↔ (V.bytes first.now ≡ W.bytes second.now)) }
{
    Ok(begins_with(first, second)? && begins_with(second, first)?)
}
