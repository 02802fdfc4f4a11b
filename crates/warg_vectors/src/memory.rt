//! Memory that a call takes: all that there is, or what a test refuses.

use refusing::Refusing;
use std::alloc::{Allocator, Global};

/// Memory for one call.
pub(crate) trait Memory: Allocator + Copy {
    /// Ends the refusals, so that a call that was refused can be made again.
    fn grant(&self);
}

impl Memory for Global {
    fn grant(&self) {}
}

impl Memory for &Refusing<Global> {
    fn grant(&self) {
        Refusing::grant(*self, u64::MAX);
    }
}
