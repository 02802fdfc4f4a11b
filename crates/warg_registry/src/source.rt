//! A log in a folder as the source of its map's pages.

ghost use Rattle.std.specs.Prelude.{◌≡◌, ◌∷◌, ◌++◌, [], ℕ, true, List, Some, None, Ok, codes, option_map, unwrap_or, IfOk, IfErr, IsOkAnd, IsErrOf};
ghost use Rattle.warg_pages.specs.Refusals.{IsOfSourceUnless};
ghost use Rattle.warg_store.specs.Growing.{LogIn};
ghost use Rattle.warg_folder.specs.Moments.{IsRead};
ghost use Rattle.warg_store.specs.Reading.{ServedIn};
ghost use Rattle.warg_store.specs.Refusals.{IsNoFault, IsNoFailure};
ghost use Rattle.warg_registry.specs.Folder.{page_read, found_if, IsLogRead};
ghost use Rattle.warg_registry.specs.Sources.{LogBefore, IsFailureTold};

use crate::error::{ReadFault, damaged, of_pages, of_reading};
use std::alloc::Global;
use warg_pages::{Pages, ProveError, WayError, page_path};
use warg_store::{Folder, FolderError, LogError, LogFolder, LogReader};

// The most bytes that a page has: 256 slots of 106 bytes.
const MOST: usize = 256 * 106;

/// The page that was read last, and what was wrong with it.
#[derive(Drop)]
pub(crate) struct LastPage {
    pub(crate) alloc: Global,
    pub(crate) path: String,
    pub(crate) fault: Option<ReadFault>,
}

impl LastPage {
    /// As it is before a page is read.
    pub(crate) fn new(alloc: Global) -> LastPage {
        LastPage {
            alloc,
            path: String::new(alloc),
            fault: None,
        }
    }

    /// Forgets what was wrong, before pages are read anew.
    pub(crate) fn forget(&mut self)
        ensures { self.new.fault ≡ None }
    {
        self.fault = None;
    }

    /// Notes what was read at a path. Returns the page's bytes, or, where it is missing, one byte, as no page has. Its errors
    /// are that of the reading, and memory.
    fn note(
        &mut self,
        path: String,
        read: Result<Option<Vec<u8>>, FolderError>,
    ) -> Result<Vec<u8>, FolderError>
        ensures bytes { IfOk result (λ bytes. IsOkAnd read
            (λ found. bytes.items ≡ unwrap_or (option_map (λ v. v.items) found) (0 ∷ []))) }
        ensures fault { self.new.fault ≡ Some ReadFault.DeviceFailed → IsErrOf read FolderError.Failed }
    {
        self.path = path;
        self.fault = ReadFault::of(&read);
        match read? {
            Some(bytes) => Ok(bytes),
            None => Ok(Vec::from_slice(self.alloc, &[0])?),
        }
    }

    /// What pages led to, or why they lead to nothing.
    pub(crate) fn or_refusal<T>(
        &self,
        led: Result<T, ProveError<FolderError>>,
    ) -> Result<T, LogError>
        ensures led { IfOk result (λ found. led ≡ Ok found) }
        ensures whole { IfErr led (IsOfSourceUnless ⊥) → IfErr result (IsNoFault ⊥) }
        ensures cause { IsErrOf result (LogError.Folder FolderError.Failed)
            → self.now.fault ≡ Some ReadFault.DeviceFailed }
    {
        match led {
            Ok(found) => Ok(found),
            Err(error) => Err(self.refusal(error)),
        }
    }

    /// Why pages lead to nothing.
    pub(crate) fn refusal(&self, error: ProveError<FolderError>) -> LogError
        ensures whole { IsOfSourceUnless ⊥ error → IsNoFault ⊥ result }
        ensures cause { result ≡ LogError.Folder FolderError.Failed → self.now.fault ≡ Some ReadFault.DeviceFailed }
    {
        match error {
            ProveError::Pages(_) => LogError::Folder(of_reading(self.fault)),
            ProveError::Way(WayError::BadPage) if self.fault == Some(ReadFault::NoFile) => {
                self.damaged("is missing")
            }
            ProveError::Way(error) => of_pages(self.alloc, self.path.as_str(), error),
        }
    }

    /// That the page is missing or corrupt.
    pub(crate) fn damaged(&self, fault: &'static str) -> LogError
        ensures { IsNoFailure result }
    {
        damaged(self.alloc, self.path.as_str(), fault)
    }
}

/// A log that is added to, with the page that was read last.
#[derive(Drop)]
pub(crate) struct KeptPages<F: Folder + Drop> {
    pub(crate) log: LogFolder<F>,
    pub(crate) last: LastPage,
}

impl<F: Folder + Drop> Pages<Global> for KeptPages<F> {
    // A page that is missing has other bytes than any page, and so no error is a fault of the files.
    type Error = FolderError;

    ghost Known = { LogBefore (LogIn F) };

    ghost IsKnown = { λ pages known. (known.is_faithful ≡ true → F.IsFaithful
        × IsLogRead F.seen F.may_leave F.moment F.left_since known.log pages.log)
        × IsFailureTold F.IsFaithful known.faults (F.faults pages.log.folder) pages.last.fault };

    ghost bytes_at = { λ known. found_if known.is_faithful (page_read (F.seen known.log.folder)) };

    ghost tells_all = { λ known. known.is_faithful ≡ true };

    fn page(&mut self, prefix: &[u8], version: u64) -> Result<Vec<u8>, FolderError> {
        let path = page_path(self.last.alloc, prefix, version)?;
        let read = self.log.page(below_map(path.as_str()), MOST);
        self.last.note(path, read)
    }
}

/// A log that is read, with the page that was read last.
#[derive(Drop)]
pub(crate) struct ServedPages<F: Folder + Drop> {
    pub(crate) log: LogReader<F>,
    pub(crate) last: LastPage,
}

impl<F: Folder + Drop> Pages<Global> for ServedPages<F> {
    // As of a log that is added to.
    type Error = FolderError;

    ghost Known = { LogBefore (ServedIn F) };

    ghost IsKnown = { λ pages known. (pages.log ≡ record known.log { folder = pages.log.folder })
        × (known.is_faithful ≡ true → F.IsFaithful
        × IsRead F.seen F.may_leave F.moment F.left_since known.log.folder pages.log.folder)
        × IsFailureTold F.IsFaithful known.faults (F.faults pages.log.folder) pages.last.fault };

    ghost bytes_at = { λ known. found_if known.is_faithful (page_read (F.seen known.log.folder)) };

    ghost tells_all = { λ known. known.is_faithful ≡ true };

    fn page(&mut self, prefix: &[u8], version: u64) -> Result<Vec<u8>, FolderError> {
        let path = page_path(self.last.alloc, prefix, version)?;
        let read = self.log.page(below_map(path.as_str()), MOST);
        self.last.note(path, read)
    }
}

/// What a page's path has below `map/`.
pub(crate) fn below_map(path: &str) -> &str
    ensures { (below : List ℕ) → path.now ≡ codes "map/" ++ below → result.now ≡ below }
{
    path.strip_prefix("map/").unwrap_or(path)
}
