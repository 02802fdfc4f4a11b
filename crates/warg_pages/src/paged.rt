//! A map that keeps no keys in memory.

ghost use Rattle.std.specs.Prelude.{◌≡◌, ◌+◌, ◌^◌, ◌<◌, ◌++◌, ℕ, List, length, IfOk, IfErr, OnOk};
ghost use Rattle.warg_crypto.specs.EmptyTrees.{empty_root};
ghost use Rattle.warg_map.specs.Sparse.{sparse_root, map_of, pair_bytes};
ghost use Rattle.warg_pages.specs.ProvedKeys.{IsOwnSource};
ghost use Rattle.std.specs.List.{All};
ghost use Rattle.warg_pages.specs.ChangedPages.{AreChangedPages, ChangesWhatStood};
ghost use Rattle.warg_pages.specs.Private.Updates.{IsFirstPage};
ghost use Rattle.warg_pages.specs.Refusals.{IsOfSourceUnless};

use crate::change::changes_of;
use crate::changed::ChangedPage;
use crate::error::ProveError;
use crate::page::MapPage;
use crate::source::{Pages, read_page};
use crate::update::{PageUpdate, update_page};
use std::alloc::Allocator;
use warg_crypto::{Hash, SupportedDigest, VisitBytes};

/// A sparse map whose keys stand in pages alone: what it has in memory is its root and its version.
#[derive(Drop)]
pub struct PagedMap<D> {
    /// The root of the map.
    pub root: Hash<D>,
    /// The number of its insertions, and so the version of its first page.
    pub version: u64,
}

impl<D: SupportedDigest> PagedMap<D> {
    /// The empty map.
    pub fn new() -> PagedMap<D>
        ensures root { result.root ≡ empty_root D.digest 256 }
        ensures version { result.version ≡ 0 }
    {
        PagedMap {
            root: D::empty_tree(256),
            version: 0,
        }
    }

    /// Inserts keys with values, in order, and returns the pages that change, each once. Where a key is inserted
    /// again, its last value counts. No insertions change no page.
    ///
    /// Over the pages of a list of insertions with the map's root, these are exactly the pages of the longer list that
    /// its new insertions change, and the new root is that of its map. Over any pages, each page that is returned is
    /// what stood at its prefix below the old root, by digests alone, but for the slots with an insertion below them.
    /// The refusals: `Pages` where the source has no page; `BadPage`, `WrongDigest` and `WrongLoneKey` only where its
    /// pages aren't those of insertions with this root; or memory. A refused call leaves the map as it was. What is
    /// known of the source stays true.
    ///
    /// It reads each page that changes once. Of its branches those that stay are hashed once, those above a change
    /// twice. A lone key that gets a new value has its way down hashed before and after; one that meets a new key has it
    /// hashed once for each byte more that both share. Each page looks at the insertions below it once. The memory is
    /// that of the pages that change, and one change for each insertion in each page on its way.
    pub fn insert_all<K: VisitBytes, V: VisitBytes, P: Pages<A>, A: Allocator + Copy>(
        &mut self,
        alloc: A,
        pages: &mut P,
        insertions: &[(K, V)],
    ) -> Result<Vec<ChangedPage<D, A>, A>, ProveError<P::Error>>
        requires { self.old.version + length insertions.now < 2 ^ 64 }
        ensures pages { IfOk result (λ changed. (known : P.Known) (old : List (List ℕ × List ℕ))
            → P.IsKnown pages.old known
            → IsOwnSource D.digest (P.bytes_at known) self.old.root self.old.version old
            → AreChangedPages D.digest old (pair_bytes K.bytes V.bytes insertions.now) changed.items) }
        ensures root { OnOk result ((known : P.Known) (old : List (List ℕ × List ℕ))
            → P.IsKnown pages.old known
            → IsOwnSource D.digest (P.bytes_at known) self.old.root self.old.version old
            → self.new.root ≡ sparse_root D.digest 256
            (map_of D.digest (old ++ pair_bytes K.bytes V.bytes insertions.now))) }
        ensures stood { IfOk result (λ changed. All (ChangesWhatStood D.digest self.old.root
            (pair_bytes K.bytes V.bytes insertions.now)) changed.items) }
        ensures version { OnOk result (self.new.version ≡ self.old.version + length insertions.now) }
        ensures refused { IfErr result (IsOfSourceUnless ((known : P.Known) (old : List (List ℕ × List ℕ))
            → P.IsKnown pages.old known
            → IsOwnSource D.digest (P.bytes_at known) self.old.root self.old.version old → ⊥)) }
        ensures kept { IfErr result (λ e. self.new ≡ self.old) }
        ensures known { (known : P.Known) → P.IsKnown pages.old known → P.IsKnown pages.new known }
    {
        let mut changed = Vec::new(alloc);
        if insertions.is_empty() {
            return Ok(changed);
        }
        let page = self.first_page(alloc, pages)?;
        let changes = changes_of(alloc, self.version, insertions)?;
        let version = self.version + insertions.len() as u64;
        let update = PageUpdate {
            prefix: Vec::new(alloc),
            version,
            digest: self.root.copied(),
            page,
            changes,
        };
        self.root = update_page(alloc, pages, update, &mut changed)?;
        self.version = version;
        Ok(changed)
    }

    // The page at the empty prefix, by the source.
    fn first_page<P: Pages<A>, A: Allocator>(
        &self,
        alloc: A,
        pages: &mut P,
    ) -> Result<MapPage<D, A>, ProveError<P::Error>>
        ensures ok { IfOk result (λ page. (known : P.Known) → P.IsKnown pages.old known
            → IsFirstPage D.digest (P.bytes_at known) self.now.root self.now.version page) }
        ensures err { IfErr result (IsOfSourceUnless ((known : P.Known) (old : List (List ℕ × List ℕ))
            → P.IsKnown pages.old known
            → IsOwnSource D.digest (P.bytes_at known) self.now.root self.now.version old → ⊥)) }
        ensures known { (known : P.Known) → P.IsKnown pages.old known → P.IsKnown pages.new known }
    {
        if self.version == 0 {
            return Ok(MapPage::new(alloc));
        }
        read_page(alloc, pages, &[], self.version)
    }
}
