//! The pages that a registry needs, and those that it doesn't.

ghost use Rattle.std.specs.Prelude.{◌≡◌, ◌⊎◌, ◌++◌, ℕ, true, List, [], IfOk, IfErr, OnOk, IsSome, IsTrue};
ghost use Rattle.std.specs.List.{Contains};
ghost use Rattle.warg_crypto.specs.Digests.{sha256};
ghost use Rattle.warg_pages.specs.ChangedPages.{ChangedPageAt};
ghost use Rattle.warg_pages.specs.PagePaths.{page_path};
ghost use Rattle.warg_pages.specs.ProvedKeys.{IsOwnSource};
ghost use Rattle.warg_store.specs.Growing.{LogIn};
ghost use Rattle.warg_store.specs.Log.{Serves};
ghost use Rattle.warg_folder.specs.Files.{AreApart};
ghost use Rattle.warg_folder.specs.Names.{is_page};
ghost use Rattle.warg_store.specs.Pruned.{ArePagesIn, IsNoneOf};
ghost use Rattle.warg_store.specs.Refusals.{IsNoFault, HasLogCause};
ghost use Rattle.warg_registry.specs.Folder.{registry_of, pages_of, page_read, IsLogRead, ReadsOn};
ghost use Rattle.warg_registry.specs.Pruning.{bytes_of, AreSome, ArePathsOf, AreOnlyPathsOf, HaveAllPages, IsPageOf, AreNeeded, OfBoth, AreNone, AreAmong};

use crate::error::{RegistryError, damaged};
use crate::folder::root_said;
use crate::source::KeptPages;
use std::alloc::{AllocError, Global};
use std::collections::BTreeSet;
use warg_crypto::{Hash, Sha256};
use warg_pages::{LoneKeyCheck, MapPage, PageVisitor, PagedMap, page_path, visit_pages};
use warg_store::{Folder, FolderError, LogError};

/// The names of pages that are needed.
#[derive(Drop)]
pub(crate) struct NeededPages {
    alloc: Global,
    names: BTreeSet<String>,
}

impl PageVisitor<Sha256, Global> for NeededPages {
    ghost use Rattle.warg_registry.specs.Pruning.{bytes_of, ArePathsOf, AreOnlyPathsOf};

    ghost HasSeen = { λ needed pages. ArePathsOf (bytes_of needed.names.keys) pages
        × AreOnlyPathsOf (bytes_of needed.names.keys) pages };

    fn visit(
        &mut self,
        prefix: &[u8],
        version: u64,
        _page: &MapPage<Sha256, Global>,
    ) -> Result<(), AllocError> {
        self.names.insert(page_path(self.alloc, prefix, version)?)?;
        Ok(())
    }
}

impl NeededPages {
    /// No names.
    pub(crate) fn new(alloc: Global) -> NeededPages
        ensures { result.names.keys ≡ [] }
    {
        NeededPages {
            alloc,
            names: BTreeSet::new(alloc),
        }
    }

    /// Adds the names of all pages that a root leads to, of a map with so many insertions.
    pub(crate) fn add<F: Folder + Drop>(
        &mut self,
        pages: &mut KeptPages<F>,
        root: &Hash<Sha256>,
        version: u64,
    ) -> Result<(), LogError>
        ensures added { OnOk result ((before : List ChangedPageAt) → ArePathsOf (bytes_of self.old.names.keys) before
            → AreOnlyPathsOf (bytes_of self.old.names.keys) before
            → (all : List ChangedPageAt) × ArePathsOf (bytes_of self.new.names.keys) (before ++ all)
            × AreOnlyPathsOf (bytes_of self.new.names.keys) (before ++ all)
            × (F.IsFaithful → (known : LogIn F) (insertions : List (List ℕ × List ℕ))
            → IsLogRead F.seen F.may_leave F.moment F.left_since known pages.old.log
            → IsOwnSource sha256 (page_read (F.seen known.folder)) root.now version insertions
            → ((names : List (List ℕ)) → ArePathsOf names (before ++ all) → HaveAllPages names insertions)
            × ((p : ChangedPageAt) → Contains all p → IsPageOf insertions (page_path p.prefix p.version)))) }
        ensures whole { F.IsFaithful → (known : LogIn F) (insertions : List (List ℕ × List ℕ))
            → IsLogRead F.seen F.may_leave F.moment F.left_since known pages.old.log
            → IsOwnSource sha256 (page_read (F.seen known.folder)) root.now version insertions
            → IfErr result (IsNoFault ⊥) }
        ensures read { F.IsFaithful → ReadsOn F.seen F.may_leave F.moment F.left_since pages.old.log pages.new.log }
        ensures cause { HasLogCause F.IsFaithful (F.faults pages.old.log.folder) (F.faults pages.new.log.folder) result }
    {
        pages.last.forget();
        let led = visit_pages(
            self.alloc,
            pages,
            root,
            version,
            LoneKeyCheck::Skipped,
            self,
        );
        pages.last.or_refusal(led)
    }

    /// Those of some names that are none of these.
    pub(crate) fn others(&self, names: Vec<String>) -> Result<Vec<String>, AllocError>
        ensures none { IfOk result (λ others. AreNone (bytes_of others.items) (bytes_of self.now.names.keys)) }
        ensures all { IfOk result (λ others.
            AreAmong (bytes_of names.items) (bytes_of others.items) (bytes_of self.now.names.keys)) }
        ensures some { IfOk result (λ others. AreSome others.items names.items) }
    {
        let mut others = Vec::new(self.alloc);
        'names: for name in names {
            if !self.names.contains(name.as_str()) {
                others.push(name)?;
            }
        }
        Ok(others)
    }
}

impl<F: Folder + Drop> KeptPages<F> {
    /// The names of pages that are there, and that neither a map with a root and so many insertions needs, nor the served one.
    pub(crate) fn spare(
        &mut self,
        root: &Hash<Sha256>,
        version: u64,
    ) -> Result<Vec<String>, LogError>
        ensures spare { F.IsFaithful → IfOk result (λ spare. OfBoth F.seen F.may_leave F.moment F.left_since self.old.log
            root.now version (λ _ served kept.
            IsNoneOf (bytes_of spare.items) (pages_of served) × IsNoneOf (bytes_of spare.items) (pages_of kept))) }
        ensures all { F.IsFaithful → IfOk result (λ spare. OfBoth F.seen F.may_leave F.moment F.left_since self.old.log
            root.now version (λ known served kept. (n : List ℕ) → is_page n ≡ true → IsSome (F.seen known.folder n)
            → Contains (bytes_of spare.items) n ⊎ IsPageOf served n ⊎ IsPageOf kept n)) }
        ensures apart { F.IsFaithful → IfOk result (λ spare. AreApart spare.items) }
        ensures there { F.IsFaithful → IfOk result (λ spare. ArePagesIn (F.seen self.new.log.folder) spare.items) }
        ensures whole { F.IsFaithful → OfBoth F.seen F.may_leave F.moment F.left_since self.old.log root.now version
            (λ _ _ _. IfErr result (IsNoFault ⊥)) }
        ensures read { F.IsFaithful → ReadsOn F.seen F.may_leave F.moment F.left_since self.old.log self.new.log }
        ensures cause { HasLogCause F.IsFaithful (F.faults self.old.log.folder) (F.faults self.new.log.folder) result }
    {
        let needed = self.needed(root, version)?;
        let names = self.names()?;
        Ok(needed.others(names)?)
    }

    // The names of the pages that a map with a root and so many insertions needs, and of those that the served one needs.
    fn needed(&mut self, root: &Hash<Sha256>, version: u64) -> Result<NeededPages, LogError>
        ensures needed { F.IsFaithful → IfOk result (λ needed. OfBoth F.seen F.may_leave F.moment F.left_since
            self.old.log root.now version (λ _ served kept. AreNeeded (bytes_of needed.names.keys) served kept)) }
        ensures whole { F.IsFaithful → OfBoth F.seen F.may_leave F.moment F.left_since self.old.log root.now version
            (λ _ _ _. IfErr result (IsNoFault ⊥)) }
        ensures read { F.IsFaithful → ReadsOn F.seen F.may_leave F.moment F.left_since self.old.log self.new.log }
        ensures cause { HasLogCause F.IsFaithful (F.faults self.old.log.folder) (F.faults self.new.log.folder) result }
    {
        let mut needed = NeededPages::new(self.last.alloc);
        needed.add(self, root, version)?;
        let served = self.served()?;
        if is_map(&served, root, version) {
            return Ok(needed);
        }
        needed.add(self, &served.root, served.version)?;
        Ok(needed)
    }

    // The served map's root and number of insertions.
    fn served(&mut self) -> Result<PagedMap<Sha256>, LogError>
        ensures served { F.IsFaithful → IfOk result (λ map. (known : LogIn F) (origin : List ℕ)
            (insertions : List (List ℕ × List ℕ))
            → IsLogRead F.seen F.may_leave F.moment F.left_since known self.old.log
            → Serves (registry_of origin insertions) (F.seen known.folder)
            → IsOwnSource sha256 (page_read (F.seen known.folder)) map.root map.version insertions) }
        ensures whole { F.IsFaithful → (known : LogIn F) (origin : List ℕ) (insertions : List (List ℕ × List ℕ))
            → IsLogRead F.seen F.may_leave F.moment F.left_since known self.old.log
            → Serves (registry_of origin insertions) (F.seen known.folder)
            → IfErr result (IsNoFault ⊥) }
        ensures read { F.IsFaithful → ReadsOn F.seen F.may_leave F.moment F.left_since self.old.log self.new.log }
        ensures cause { HasLogCause F.IsFaithful (F.faults self.old.log.folder) (F.faults self.new.log.folder) result }
    {
        let alloc = self.last.alloc;
        let text = self.log.served()?;
        let version = text.checkpoint().length() as u64;
        match root_said(alloc, &text) {
            Ok(root) => Ok(PagedMap { root, version }),
            Err(RegistryError::Log(error)) => Err(error),
            Err(RegistryError::NoMap) => Err(damaged(alloc, "checkpoint", "names no map")),
        }
    }

    // The names of all pages that are there.
    fn names(&mut self) -> Result<Vec<String>, LogError>
        ensures all { F.IsFaithful → IfOk result (λ names. (known : LogIn F)
            → IsLogRead F.seen F.may_leave F.moment F.left_since known self.old.log
            → (n : List ℕ) → is_page n ≡ true → IsSome (F.seen known.folder n) → Contains (bytes_of names.items) n) }
        ensures apart { F.IsFaithful → IfOk result (λ names. AreApart names.items) }
        ensures there { F.IsFaithful → IfOk result (λ names. ArePagesIn (F.seen self.new.log.folder) names.items) }
        ensures whole { IfErr result (IsNoFault ⊥) }
        ensures read { F.IsFaithful → ReadsOn F.seen F.may_leave F.moment F.left_since self.old.log self.new.log }
        ensures cause { HasLogCause F.IsFaithful (F.faults self.old.log.folder) (F.faults self.new.log.folder) result }
    {
        Ok(self.log.pages()?)
    }
}

// Whether a map has this root and so many insertions.
fn is_map(map: &PagedMap<Sha256>, root: &Hash<Sha256>, version: u64) -> bool
    ensures { IsTrue result → (map.now.root ≡ root.now) × (map.now.version ≡ version) }
{
    map.root == *root && map.version == version
}
