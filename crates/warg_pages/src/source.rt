//! Where pages come from.

ghost use Rattle.std.specs.Prelude.{◌≡◌, ◌≢◌, ℕ, List, Option, IfOk, IfErr, IfSome};
ghost use Rattle.warg_pages.specs.Slots.{SlotAt, IsPage};
ghost use Rattle.warg_pages.specs.PageBytes.{page_bytes};
ghost use Rattle.warg_pages.specs.Refusals.{IsOfSourceUnless};

use crate::error::{PageError, ProveError, WayError};
use crate::page::MapPage;
use std::alloc::Allocator;

/// A source of pages, as a folder or a web server.
pub trait Pages<A: Allocator> {
    /// Why it gives no page.
    type Error: Drop;

    // What may be known of a source. Reading a page leaves it true.
    ghost Known: { Type 0 };

    // It is known of the source.
    ghost IsKnown: { Self → Known → Type 0 };

    // Which bytes stand at the name of a prefix and a version by what is known; none where nothing is said of it.
    ghost bytes_at: { Known → List ℕ → ℕ → Option (List ℕ) };

    // What is known says so of every page that is read.
    ghost tells_all: { Known → Type 0 };

    /// The bytes of the page at a prefix, of a version.
    fn page(&mut self, prefix: &[u8], version: u64) -> Result<Vec<u8, A>, Self::Error>
        ensures bytes { IfOk result (λ bytes. (known : Known) → IsKnown self.old known
            → IfSome (bytes_at known prefix.now version) (λ stands. stands ≡ bytes.items)) }
        ensures told { IfOk result (λ bytes. (known : Known) → IsKnown self.old known → tells_all known
            → bytes_at known prefix.now version ≡ Some bytes.items) }
        ensures known { (known : Known) → IsKnown self.old known → IsKnown self.new known };
}

/// The page that a source has at a prefix, of a version.
pub(crate) fn read_page<D, P: Pages<A>, A: Allocator>(
    alloc: A,
    pages: &mut P,
    prefix: &[u8],
    version: u64,
) -> Result<MapPage<D, A>, ProveError<P::Error>>
    ensures ok { IfOk result (λ page. (known : P.Known) → P.IsKnown pages.old known
        → IfSome (P.bytes_at known prefix.now version) (λ stands. stands ≡ page_bytes page)) }
    ensures told { IfOk result (λ page. (known : P.Known) → P.IsKnown pages.old known → P.tells_all known
        → P.bytes_at known prefix.now version ≡ Some (page_bytes page)) }
    ensures page { IfOk result (λ page. IsPage page) }
    ensures err { IfErr result (IsOfSourceUnless ((known : P.Known) (slots : List SlotAt) → P.IsKnown pages.old known
        → IsPage slots → P.bytes_at known prefix.now version ≢ Some (page_bytes slots))) }
    ensures known { (known : P.Known) → P.IsKnown pages.old known → P.IsKnown pages.new known }
{
    let bytes = pages.page(prefix, version).map_err(ProveError::Pages)?;
    match MapPage::read(alloc, bytes.as_slice()) {
        Ok(page) => Ok(page),
        Err(PageError::BadPage) => Err(ProveError::Way(WayError::BadPage)),
        Err(PageError::Memory) => Err(ProveError::Way(WayError::Memory)),
    }
}
