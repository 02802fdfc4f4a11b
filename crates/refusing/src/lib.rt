//! An allocator for tests: it grants its first allocations and growths, and refuses each later one.
#![tactic(auto)]

use std::alloc::{AllocError, Allocator};
use std::cell::Cell;

// What an allocator counts.
#[derive(Clone, Copy)]
struct Growths {
    // How many it still grants.
    left: u64,
    // How many it refused.
    refused: u64,
}

/// Passes its first growths on to another allocator, and refuses every growth after them.
///
/// A collection borrows it: `let alloc = Refusing::after(rt.alloc(), 3);`, and then
/// `Vec::new(&alloc)`.
pub struct Refusing<B: Allocator> {
    inner: B,
    growths: Cell<Growths>,
}

impl<B: Allocator> Refusing<B> {
    /// Returns an allocator that passes `growths` allocations and growths on to `inner`, and no more.
    pub fn after(inner: B, growths: u64) -> Refusing<B> {
        let growths = Growths {
            left: growths,
            refused: 0,
        };
        Refusing {
            inner,
            growths: Cell::new(growths),
        }
    }

    /// Returns how many growths it still grants.
    pub fn left(&self) -> u64 {
        self.growths.get().left
    }

    /// Whether it refused any growth so far. One that `inner` refused doesn't count.
    pub fn has_refused(&self) -> bool {
        self.growths.get().refused > 0
    }

    /// Grants so many growths more, so that what was refused can be asked for again. More than
    /// `u64::MAX` in all count as `u64::MAX`.
    pub fn grant(&self, growths: u64) {
        let counted = self.growths.get();
        self.growths.set(Growths {
            left: counted.left.saturating_add(growths),
            refused: counted.refused,
        });
    }

    /// Takes all growths that are left, so that each further one is refused until more are granted.
    pub fn exhaust(&self) {
        let counted = self.growths.get();
        self.growths.set(Growths {
            left: 0,
            refused: counted.refused,
        });
    }
}

impl<B: Allocator> Drop for Refusing<B> {
    fn drop(self) {
        let Self {
            inner: _,
            growths: _,
        } = self;
    }
}

// Counts a growth, and says whether it is one to refuse.
fn is_refused(growths: &Cell<Growths>) -> bool {
    let counted = growths.get();
    match counted.left.checked_sub(1) {
        Some(left) => {
            growths.set(Growths {
                left,
                refused: counted.refused,
            });
            false
        }
        None => {
            growths.set(Growths {
                left: 0,
                refused: counted.refused.saturating_add(1),
            });
            true
        }
    }
}

unsafe impl<B: Allocator> Allocator for Refusing<B> {
    ghost dealloc_token = { λ heap ty ptr. B.dealloc_token heap.inner ty ptr };

    fn allocate(&self, size: usize, align: usize) -> Result<*mut u8, AllocError> {
        if is_refused(&self.growths) {
            return Err(AllocError);
        }
        self.inner.allocate(size, align)
    }

    unsafe fn deallocate(&self, ptr: *mut u8, size: usize, align: usize) {
        self.inner.deallocate(ptr, size, align);
    }
}

#[cfg(test)]
mod tests {
    use super::*;
    use std::test::Fail;

    fn nine<A: Allocator>(alloc: A) -> Result<Vec<u8, A>, AllocError> {
        let mut list = Vec::new(alloc);
        for i in 0..9u8 {
            list.push(i)?;
        }
        Ok(list)
    }

    #[test]
    fn grants_the_first_and_refuses_the_rest(rt: HostRuntime) {
        let mut refused = 0u64;
        for growths in 0..9u64 {
            let alloc = Refusing::after(rt.alloc(), growths);
            match nine(&alloc) {
                Ok(list) => assert_eq!(rt; list.len(), 9),
                Err(AllocError) => {
                    assert_eq!(rt; alloc.left(), 0);
                    refused = refused.saturating_add(1);
                }
            }
        }
        assert!(rt; refused >= 1 && refused < 9);
    }

    #[test]
    fn grants_again_what_it_refused(rt: HostRuntime) -> Result<(), Fail> {
        let alloc = Refusing::after(rt.alloc(), 0);
        let mut list = Vec::new(&alloc);
        assert!(rt; !alloc.has_refused());
        assert!(rt; list.push(7u8).is_err() && alloc.has_refused());
        alloc.grant(2);
        assert_eq!(rt; alloc.left(), 2);
        list.push(7)?;
        assert_eq!(rt; alloc.left(), 1);
        assert!(rt; list.as_slice() == [7].as_slice() && alloc.has_refused());
        alloc.grant(u64::MAX);
        assert_eq!(rt; alloc.left(), u64::MAX);
        Ok(())
    }
}
