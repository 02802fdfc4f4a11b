//! The pages that change.

use crate::page::MapPage;
use std::alloc::{Allocator, Global};
use std::marker::Model;

/// A page that changed, as it is now.
pub struct ChangedPage<D, A: Allocator = Global> {
    /// The bytes of its prefix.
    pub prefix: Vec<u8, A>,
    /// Its version: 1 and the index of the last insertion below its prefix.
    pub version: u64,
    /// The page.
    pub page: MapPage<D, A>,
}

// Contracts see the page of the definitions.
impl<D, A: Allocator> Model for ChangedPage<D, A> {
    ghost use Rattle.warg_pages.specs.ChangedPages.{ChangedPageAt};

    ghost Value = { ChangedPageAt };

    ghost view = { λ c. record { prefix = c.prefix.items; version = c.version; page = c.page } };
}

impl<D, A: Allocator> Drop for ChangedPage<D, A> {
    fn drop(self) {
        let ChangedPage {
            prefix: _,
            version: _,
            page: _,
        } = self;
    }
}
